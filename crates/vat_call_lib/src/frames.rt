//! Frames are read one at a time.

use crate::failure::BrokenOff;
use capn_stream::{FrameReader, StreamError};
use std::alloc::Global;
use std::io::{BufRead, ErrorKind};
use vat_connection::Connection;

/// A stream of frames, of which a vat is handed one at a time, however they come.
#[derive(Drop)]
pub(crate) struct Frames<R> {
    reader: R,
    ends: FrameReader,
}

impl<R: BufRead + Drop> Frames<R> {
    pub(crate) fn new(alloc: Global, reader: R) -> Frames<R> {
        Frames {
            reader,
            ends: FrameReader::new(alloc),
        }
    }

    /// Reads until one frame is whole, and hands its bytes to the vat; says whether the stream goes on. If it ends, the vat is
    /// told so, and if it has no frame, the vat gets what stands there in place of one.
    pub(crate) fn hand_next(&mut self, vat: &mut Connection) -> Result<bool, BrokenOff> {
        for _ in 0..u64::MAX {
            let piece = match self.reader.fill_buf() {
                Ok(piece) => piece,
                Err(error) if error.kind() == ErrorKind::Interrupted => continue,
                Err(_) => return Err(BrokenOff::Unread),
            };
            if piece.is_empty() {
                vat.ended();
                return Ok(false);
            }
            let taken = match self.ends.push(piece) {
                Ok(taken) => taken,
                Err(StreamError::Memory) => return Err(BrokenOff::Memory),
                Err(StreamError::Fault(_)) => piece.len(),
            };
            vat.received(&piece[..taken]);
            self.reader.consume(taken);
            if vat.core().down().is_some() || self.ends.take_frame().is_some() {
                return Ok(true);
            }
        }
        Err(BrokenOff::Unread)
    }
}
