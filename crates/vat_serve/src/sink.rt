//! Sinks.

use crate::results::Results;
use anyhow::Result;
use std::alloc::Global;
use vat::Place;

/// The interface's number, and those of its methods.
pub const SINK: u64 = 0xa5e1_c0ff_ee00_0003;

const WRITE: u16 = 0;

const END: u16 = 1;

/// A sink: how many bytes came, and their sum.
#[derive(Drop)]
pub struct Sink {
    bytes: u64,
    sum: u64,
}

impl Sink {
    pub fn new() -> Sink {
        Sink { bytes: 0, sum: 0 }
    }

    /// What a method gives; none if there is no such method.
    pub fn serve(
        &mut self,
        alloc: Global,
        method: u16,
        params: &Place<'_>,
    ) -> Result<Option<Results>> {
        let results = Results::new(alloc);
        let results = match method {
            WRITE => {
                self.take(params.field(0).and_then(|data| data.bytes()).unwrap_or(&[]));
                results
            }
            END => results.with_number(self.bytes)?.with_number(self.sum)?,
            _ => return Ok(None),
        };
        Ok(Some(results))
    }

    fn take(&mut self, bytes: &[u8]) {
        self.bytes = self.bytes.saturating_add(bytes.len() as u64);
        for byte in bytes {
            self.sum = self.sum.saturating_add(u64::from(*byte));
        }
    }
}
