//! What is answered to one line.
ghost use Rattle.std.specs.Prelude.{◌≡◌, IfOk, IsOkUnless};

use anyhow::Result;
use rpc_journal::JournalEntry;
use scenes_words::write_entry;
use std::alloc::{AllocError, Global};
use std::fmt::Write;
use trace_json::{TraceFault, TraceVersion, entry_of, line_of, version_of};

/// What the entry of a line says, and its own line if that is another; or the fault.
pub fn read(alloc: Global, version: TraceVersion, line: &str) -> Result<String> {
    match entry_of(alloc, line, version) {
        Ok(entry) => told(alloc, version, line, &entry),
        Err(fault) => Ok(format!(in alloc; "fault {}: {fault}", fault.number())?),
    }
}

fn told(alloc: Global, version: TraceVersion, line: &str, entry: &JournalEntry) -> Result<String> {
    let mut said = told_again(alloc, entry)?;
    let own = line_of(alloc, entry, version)?;
    if own.as_str() != line {
        write!(said, "\n{own}")?;
    }
    Ok(said)
}

// What the entry says that the entry's line is read as.
fn told_again(alloc: Global, entry: &JournalEntry) -> Result<String> {
    let again = by_its_line(alloc, entry)?;
    Ok(words_of(alloc, &again)?)
}

fn words_of(alloc: Global, entry: &JournalEntry) -> Result<String, AllocError> {
    let mut words = String::new(alloc);
    write_entry(&mut words, entry)?;
    Ok(words)
}

// What the two contracts say together: the line of an entry is read as that entry, or memory is refused.
fn by_its_line(alloc: Global, entry: &JournalEntry) -> Result<JournalEntry, TraceFault>
    ensures same { IfOk result (λ e. e ≡ entry.now) }
    ensures only { IsOkUnless result TraceFault.Memory }
{
    let Ok(line) = line_of(alloc, entry, TraceVersion::Two) else {
        return Err(TraceFault::Memory);
    };
    entry_of(alloc, line.as_str(), TraceVersion::Two)
}

/// The own line of the entry of a line of version 2.
pub fn own_line(alloc: Global, line: &str) -> Result<String> {
    let entry = entry_of(alloc, line, TraceVersion::Two)?;
    Ok(line_of(alloc, &entry, TraceVersion::Two)?)
}

/// The version that a first line says, or the fault.
pub fn read_first(alloc: Global, line: &str) -> Result<String> {
    match version_of(alloc, line) {
        Ok(version) => Ok(format!(in alloc; "version {}", version.number())?),
        Err(fault) => Ok(format!(in alloc; "fault {}: {fault}", fault.number())?),
    }
}
