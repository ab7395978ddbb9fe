//! A scene: its script, and what its trace is to say.

use anyhow::Result;
use rpc_check::Verdict;
use scenes_words::write_entry;
use std::alloc::Global;
use std::fmt::Write;
use trace_json::{TraceVersion, entry_of};
use vat_trace_lib::trace_of_script;

#[derive(Drop)]
pub struct Scene {
    title: String,
    script: String,
    wanted: String,
}

impl Scene {
    pub fn new(alloc: Global) -> Scene {
        Scene {
            title: String::new(alloc),
            script: String::new(alloc),
            wanted: String::new(alloc),
        }
    }

    /// Its title, a line of its script, or, further in, what is to be said.
    pub fn add(&mut self, line: &str) -> Result<()> {
        if let Some(title) = line.strip_prefix("scene ") {
            self.title.push_str(title)?;
        } else if let Some(said) = line.strip_prefix("    ") {
            writeln!(self.wanted, "{said}")?;
        } else {
            writeln!(self.script, "{line}")?;
        }
        Ok(())
    }

    /// Plays it, and says whether the trace says what it should.
    pub fn played(&self, alloc: Global) -> Result<String> {
        let trace = trace_of_script(alloc, self.script.as_bytes())?;
        let told = brief_of(alloc, trace.text.as_str())?;
        let title = self.title.as_str();
        if told.as_str() != self.wanted.as_str() {
            return Ok(format!(in alloc; "{title}: otherwise\n{told}")?);
        }
        let count = told.lines().count();
        match trace.verdict {
            Verdict::Good(_) => Ok(format!(in alloc; "{title}: {count} entries, as worked out")?),
            _ => Ok(format!(in alloc; "{title}: breaks a law")?),
        }
    }
}

/// The entries of a trace behind its head, in few words.
fn brief_of(alloc: Global, trace: &str) -> Result<String> {
    let mut text = String::new(alloc);
    for line in trace.lines().skip(1) {
        let entry = entry_of(alloc, line, TraceVersion::Two)?;
        write_entry(&mut text, &entry)?;
        text.push('\n')?;
    }
    Ok(text)
}
