// The destination of a table: a stream, a file, or none.
ghost use Rattle.std.specs.Prelude.{List, Option, ℕ, OnOk, IfErr};
ghost use Rattle.bm_base.specs.Words.{Appends};
ghost use Rattle.fsck_import.specs.WrittenCalls.{IsTableFault};

use crate::PROGRAM;
use crate::fault::Fault;
use std::io::Write;
use std::rt::Files;
use std::{fs, io};

/// A destination of a table.
pub trait Destination {
    /// Its bytes, if they are known.
    ghost contents: { Self → Option (List ℕ) };

    /// Writes a whole table.
    fn put(&mut self, table: &str) -> Result<(), Fault>
        ensures held { OnOk result (Appends (contents self.old) (contents self.new) table.now) }
        ensures faults { IfErr result IsTableFault };
}

/// A writer; the table is appended to its bytes.
#[derive(Drop)]
pub struct Stream<W> {
    pub writer: W,
}

impl<W: Write> Destination for Stream<W> {
    ghost contents = { λ s. W.contents s.writer };

    fn put(&mut self, table: &str) -> Result<(), Fault> {
        match self.writer.write_all(table.as_bytes()) {
            Ok(()) => Ok(()),
            Err(error) => Err(Fault::Write(error)),
        }
    }
}

/// A file that will hold the table alone. It is created or emptied only when the table is written.
#[derive(Drop)]
pub struct TableFile<'f, 'p, F> {
    files: &'f F,
    /// The kind of the table, for messages.
    what: &'static str,
    path: &'p str,
    error: Option<io::Error>,
}

impl<'f, 'p, F: Files> TableFile<'f, 'p, F> {
    pub fn new(files: &'f F, what: &'static str, path: &'p str) -> TableFile<'f, 'p, F> {
        TableFile {
            files,
            what,
            path,
            error: None,
        }
    }

    /// Prints why the table could not be written, if that failed.
    pub fn print_error<R: Eprint>(&self, rt: &R) {
        if let Some(error) = &self.error {
            let (what, path) = (self.what, self.path);
            let _ = rt.eprintln(format_args!(
                "{PROGRAM}: the table of {what} cannot be written to {path}: {error}"
            ));
        }
    }
}

impl<F: Files> Destination for TableFile<'_, '_, F> {
    ghost use Rattle.std.specs.Prelude.{None};

    ghost contents = { λ _. None };

    fn put(&mut self, table: &str) -> Result<(), Fault> {
        match fs::write(self.files, self.path, table) {
            Ok(()) => Ok(()),
            Err(error) => {
                self.error = Some(error);
                Err(Fault::Table)
            }
        }
    }
}

/// Without a file, the table is dropped.
impl<F: Files> Destination for Option<TableFile<'_, '_, F>> {
    ghost use Rattle.std.specs.Prelude.{None};

    ghost contents = { λ _. None };

    fn put(&mut self, table: &str) -> Result<(), Fault> {
        match self {
            Some(file) => file.put(table),
            None => Ok(()),
        }
    }
}
