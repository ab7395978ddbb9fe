//! Entries with names, and the verdicts of traces of them.

use crate::lines::{own_line, read, read_first};
use anyhow::{Result, bail};
use rpc_check::{Checker, check};
use rpc_journal::JournalEntry;
use std::alloc::Global;
use trace_file::write_verdict;
use trace_json::{TraceVersion, entry_of};

#[derive(Drop)]
pub struct Scene {
    names: Vec<String>,
    entries: Vec<JournalEntry>,
}

impl Scene {
    pub fn new(alloc: Global) -> Scene {
        Scene {
            names: Vec::new(alloc),
            entries: Vec::new(alloc),
        }
    }

    /// What is answered to a line of the script.
    pub fn answer(&mut self, alloc: Global, line: &str) -> Result<String> {
        match line.split_once(' ') {
            Some(("one", line)) => read(alloc, TraceVersion::One, line),
            Some(("two", line)) => read(alloc, TraceVersion::Two, line),
            Some(("own", line)) => own_line(alloc, line),
            Some(("first", line)) => read_first(alloc, line),
            Some(("entry", named)) => self.name(alloc, named),
            Some(("trace", names)) => self.verdict(alloc, names),
            _ => Ok(String::new(alloc)),
        }
    }

    fn name(&mut self, alloc: Global, named: &str) -> Result<String> {
        let Some((name, line)) = named.split_once(' ') else {
            bail!("an entry has a name and a line");
        };
        self.names.push(String::from_str(alloc, name)?)?;
        self.entries
            .push(entry_of(alloc, line, TraceVersion::Two)?)?;
        Ok(String::new(alloc))
    }

    /// The verdict of the entries with these names, at once and one by one.
    fn verdict(&self, alloc: Global, names: &str) -> Result<String> {
        let mut trace = Vec::new(alloc);
        let mut checker = Checker::new(alloc);
        for name in names.split_whitespace().take_while(|name| *name != ":") {
            let entry = self.entry(name)?;
            checker = checker.take(alloc, entry)?;
            trace.push(entry.copy(alloc)?)?;
        }
        let verdict = check(alloc, trace.as_slice())?;
        if checker.verdict() != verdict {
            bail!("one by one the entries have another verdict");
        }
        let mut said = String::new(alloc);
        write_verdict(&mut said, verdict)?;
        Ok(said)
    }

    fn entry(&self, name: &str) -> Result<&JournalEntry> {
        for (known, entry) in self.names.iter().zip(&self.entries) {
            if known.as_str() == name {
                return Ok(entry);
            }
        }
        bail!("no entry has that name")
    }
}
