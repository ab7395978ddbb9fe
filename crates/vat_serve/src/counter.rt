//! Counters.

use crate::results::Results;
use anyhow::{Result, bail};
use std::alloc::Global;
use vat::Place;

/// The interface's number, and those of its methods.
pub const COUNTER: u64 = 0xa5e1_c0ff_ee00_0001;

const ADD: u16 = 0;

const TELL: u16 = 1;

/// A counter: its name, and each sum that it had.
#[derive(Drop)]
pub struct Counter {
    name: String,
    sums: Vec<u64>,
}

impl Counter {
    pub fn new(alloc: Global, name: &str, first: u64) -> Result<Counter> {
        Ok(Counter {
            name: String::from_str(alloc, name)?,
            sums: vec![in alloc; first]?,
        })
    }

    /// What a method gives; none if there is no such method.
    pub fn serve(
        &mut self,
        alloc: Global,
        method: u16,
        params: &Place<'_>,
    ) -> Result<Option<Results>> {
        let results = Results::new(alloc);
        let results = match method {
            ADD => results.with_number(self.add(params.number(0).unwrap_or(0))?)?,
            TELL => results
                .with_text(self.name.as_str())?
                .with_numbers(self.sums.as_slice())?,
            _ => return Ok(None),
        };
        Ok(Some(results))
    }

    fn add(&mut self, by: u64) -> Result<u64> {
        let Some(sum) = self.sums.last().and_then(|last| last.checked_add(by)) else {
            bail!("the sum is too large");
        };
        self.sums.push(sum)?;
        Ok(sum)
    }
}
