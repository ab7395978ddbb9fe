//! A journal in few words, and what each vat wrote of it.

use anyhow::Result;
use rpc_journal::JournalEntry;
use scenes_words::write_entry;
use std::alloc::Global;

/// The lines of each vat.
#[derive(PartialEq, Eq, Drop)]
pub struct Written {
    a: String,
    b: String,
}

impl Written {
    /// The lines of both, each in its order.
    pub fn of(alloc: Global, journal: &[JournalEntry]) -> Result<Written> {
        let mut a = String::new(alloc);
        let mut b = String::new(alloc);
        let text = lines(alloc, journal)?;
        for line in text.lines() {
            let of_its_vat = if line.starts_with('a') {
                &mut a
            } else {
                &mut b
            };
            of_its_vat.push_str(line)?;
            of_its_vat.push('\n')?;
        }
        Ok(Written { a, b })
    }
}

/// A line for each entry.
pub fn lines(alloc: Global, journal: &[JournalEntry]) -> Result<String> {
    let mut text = String::new(alloc);
    for entry in journal {
        write_entry(&mut text, entry)?;
        text.push('\n')?;
    }
    Ok(text)
}
