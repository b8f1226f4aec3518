// The files of the blocks that are taken.
ghost use Rattle.std.specs.Prelude.{◌≡◌, OnOk};
ghost use Rattle.fsck_import.specs.Listings.{no_listing, headed, with_listed};

use bm_base::BlockId;
use cluster_names::Files;
use fsck_text::{escaped, parse_path};
use std::alloc::{AllocError, Global};
use std::marker::Model;
use std::mem;

/// The path of the current file, and the files of the blocks so far. Both stay empty if `is_kept`
/// is false.
#[derive(Drop)]
pub struct Listing {
    is_kept: bool,
    path: String,
    files: Files,
}

impl Model for Listing {
    ghost use Rattle.std.specs.Prelude.{string_bytes};
    ghost use Rattle.fsck_import.specs.Listings as spec;

    ghost Value = { spec.Listing };

    ghost view = { λ l. record {
      is_kept = l.is_kept;
      path = string_bytes l.path;
      files = l.files;
    } };
}

impl Listing {
    /// An empty listing. Takes no memory.
    pub fn new(alloc: Global, is_kept: bool) -> Listing
        ensures { result ≡ no_listing is_kept }
    {
        Listing {
            is_kept,
            path: String::new(alloc),
            files: Files::new(alloc),
        }
    }

    /// Returns the files read so far.
    pub fn files(&self) -> &Files
        ensures { result.now ≡ self.now.files }
    {
        &self.files
    }

    /// Exchanges the files for others.
    pub fn swap_files(&mut self, others: &mut Files)
        ensures state { self.new ≡ record self.old { files = others.old } }
        ensures others { others.new ≡ self.old.files }
    {
        mem::swap(&mut self.files, others);
    }

    /// Takes the path as it is printed, if a line is the heading of a file.
    pub fn take_line(&mut self, alloc: Global, line: &str) -> Result<(), AllocError>
        ensures { OnOk result (self.new ≡ headed self.old line.now) }
    {
        if !self.is_kept {
            return Ok(());
        }
        if let Some(path) = parse_path(line) {
            self.path = escaped(alloc, path)?;
        }
        Ok(())
    }

    /// Lists a block of the file, by its index there.
    pub fn take_block(
        &mut self,
        alloc: Global,
        block: BlockId,
        index: u64,
    ) -> Result<(), AllocError>
        ensures { OnOk result (self.new ≡ with_listed self.old block index) }
    {
        if self.is_kept {
            self.files.add(alloc, block, self.path.as_str(), index)?;
        }
        Ok(())
    }
}
