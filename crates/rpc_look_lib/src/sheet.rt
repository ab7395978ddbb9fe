//! What is said and not written yet.
use crate::failure::Failure;
use std::alloc::Global;
use std::io::Write;

/// The text is written when it has so many bytes.
const FULL: usize = 65_536;

/// What is said and not written yet, and where it is written.
#[derive(Drop)]
pub(crate) struct Sheet<W: Write + Drop> {
    out: W,
    pub(crate) text: String,
}

impl<W: Write + Drop> Sheet<W> {
    /// Nothing is said so far.
    pub(crate) fn new(alloc: Global, out: W) -> Sheet<W> {
        Sheet {
            out,
            text: String::new(alloc),
        }
    }

    /// Writes what is said so far.
    pub(crate) fn flush(&mut self) -> Result<(), Failure> {
        let written = self.out.write_all(self.text.as_bytes());
        self.text.clear();
        match written {
            Ok(()) => Ok(()),
            Err(_) => Err(Failure::Unwritten),
        }
    }

    /// Writes what is said so far, if it is long.
    pub(crate) fn flush_if_full(&mut self) -> Result<(), Failure> {
        if self.text.len() < FULL {
            return Ok(());
        }
        self.flush()
    }
}
