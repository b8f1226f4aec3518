// Readers and writers for use while progress is shown.
use crate::Progress;
use std::cell::Cell;
use std::io;
use std::io::{Read, Write};

/// Counts the bytes read, and shows them on standard error until the input ends: in per cent of the
/// input, or in megabytes if its length is unknown.
#[derive(Drop)]
pub struct Meter {
    progress: Cell<Progress>,
    read: Cell<u64>,
    all: u64,
}

impl Meter {
    /// The start of an input of this many bytes, 0 if that is unknown. `None` shows nothing.
    pub fn new(all: Option<u64>) -> Meter {
        Meter {
            progress: Cell::new(Progress::new(all.is_some())),
            read: Cell::new(0),
            all: all.unwrap_or(0),
        }
    }

    /// Adds to the number of bytes read; 0 is the end of the input.
    fn take<R: Eprint>(&self, rt: &R, bytes: usize) {
        if bytes == 0 {
            return self.clear(rt);
        }
        let read = self.read.get().saturating_add(bytes as u64);
        self.read.set(read);
        let mut progress = self.progress.get();
        progress.show_input(rt, read, self.all);
        self.progress.set(progress);
    }

    /// Erases the progress line, so that another line can be written.
    pub fn clear<R: Eprint>(&self, rt: &R) {
        let mut progress = self.progress.get();
        progress.end(rt);
        self.progress.set(progress);
    }
}

/// A reader whose bytes a meter counts, if there is one. Keeps the error of the last failed read.
#[derive(Drop)]
pub struct WatchedReader<'w, I, R> {
    inner: I,
    rt: &'w R,
    meter: Option<&'w Meter>,
    error: Option<io::Error>,
}

impl<'w, I, R> WatchedReader<'w, I, R> {
    pub fn new(inner: I, rt: &'w R, meter: Option<&'w Meter>) -> WatchedReader<'w, I, R> {
        WatchedReader {
            inner,
            rt,
            meter,
            error: None,
        }
    }

    /// The error of the last failed read.
    pub fn error(&self) -> Option<io::Error> {
        self.error
    }
}

impl<I: Read, R: Eprint> Read for WatchedReader<'_, I, R> {
    ghost remaining = { λ r. I.remaining r.inner };

    fn read(&mut self, buf: &mut [u8]) -> io::Result<usize> {
        match self.inner.read(buf) {
            Ok(given) => {
                if let Some(meter) = self.meter {
                    meter.take(self.rt, given);
                }
                Ok(given)
            }
            Err(error) => {
                self.error = Some(error);
                Err(error)
            }
        }
    }
}

/// A writer of notes, which erases the progress line first.
#[derive(Drop)]
pub struct NoteWriter<'w, W, R> {
    inner: W,
    rt: &'w R,
    meter: &'w Meter,
}

impl<'w, W, R> NoteWriter<'w, W, R> {
    pub fn new(inner: W, rt: &'w R, meter: &'w Meter) -> NoteWriter<'w, W, R> {
        NoteWriter { inner, rt, meter }
    }
}

impl<W: Write, R: Eprint> Write for NoteWriter<'_, W, R> {
    ghost contents = { λ w. W.contents w.inner };

    fn write(&mut self, buf: &[u8]) -> io::Result<usize> {
        self.meter.clear(self.rt);
        self.inner.write(buf)
    }

    fn flush(&mut self) -> io::Result<()> {
        self.inner.flush()
    }
}
