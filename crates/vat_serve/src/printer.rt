//! Printers.

use crate::results::Results;
use anyhow::Result;
use std::alloc::Global;
use vat::Place;

/// The interface's number, and those of its methods.
pub const PRINTER: u64 = 0xa5e1_c0ff_ee00_0002;

pub const PRINT: u16 = 0;

const PRINTED: u16 = 1;

/// A printer: the lines that it printed.
#[derive(Drop)]
pub struct Printer {
    lines: Vec<u64>,
}

impl Printer {
    pub fn new(alloc: Global) -> Printer {
        Printer {
            lines: Vec::new(alloc),
        }
    }

    /// What a method gives; none if there is no such method.
    pub fn serve(
        &mut self,
        alloc: Global,
        method: u16,
        params: &Place<'_>,
    ) -> Result<Option<Results>> {
        let results = Results::new(alloc);
        let results = match method {
            PRINT => {
                self.lines.push(params.number(0).unwrap_or(0))?;
                results.with_number(self.lines.len() as u64)?
            }
            PRINTED => results.with_numbers(self.lines.as_slice())?,
            _ => return Ok(None),
        };
        Ok(Some(results))
    }
}
