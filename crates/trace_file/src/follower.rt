ghost use Rattle.std.specs.Prelude.{◌≡◌, List, IfOk, IfErr, OnOk, map};
ghost use Rattle.serde_json.specs.Read.{read};
ghost use Rattle.rpc_journal.specs.declared.entry.JournalEntry.{JournalEntry};
ghost use Rattle.trace_file.specs.Traces.{IsEntryLine, IsTrace, AreLines, AreEntryLines, Follows};
ghost use Rattle.trace_file.specs.Faults.{IsLaterFault, IsFileFault, IsLinesFault, IsEntriesFault};

use crate::fault::FileFault;
use crate::lines::{split, whole_lines};
use rpc_journal::JournalEntry;
use rpc_msg::Memory;
use std::alloc::Global;
use trace_json::{TraceFault, TraceVersion, entry_of, version_of};

/// What goes through the entries of a trace, one after another.
pub trait Follower {
    /// How an entry changes it.
    ghost takes: { Self → JournalEntry → Self → Type 0 };

    /// Takes the next entry. `Memory` if a growth was refused.
    fn take(&mut self, alloc: Global, entry: JournalEntry) -> Result<(), Memory>
        ensures { OnOk result (takes self.old entry self.new) };
}

/// Reads a trace line by line and hands each entry to the follower, the head first; answers the version of the trace.
///
/// The lines are parted by newlines; the last may lack its own. `Line` for the first line that is none of the trace, with
/// its number, counted from 1, and its fault. Of the first line that is what `version_of` says; a trace without lines has the
/// fault `WrongShape` at line 1. Of a later line it is what `entry_of` says, but a head has the fault `WrongShape` there.
/// `Memory` if a growth was refused. The follower has then taken some of the entries.
pub fn follow<F: Follower>(
    alloc: Global,
    trace: &str,
    follower: &mut F,
) -> Result<TraceVersion, FileFault>
    ensures ok { IfOk result (λ version. (es : List JournalEntry) × IsTrace trace.now version es × Follows F.takes follower.old es follower.new) }
    ensures fault { IfErr result (λ fault. IsFileFault trace.now fault) }
{
    let texts = match split(alloc, trace) {
        Ok(texts) => texts,
        Err(_) => return Err(FileFault::Memory),
    };
    // Each arm by itself: a result that is handed on whole leaves its clauses to be proved by cases.
    match follow_lines(alloc, whole_lines(texts.as_slice()), follower) {
        Ok(version) => return Ok(version),
        Err(fault) => return Err(fault),
    }
}

fn follow_lines<F: Follower>(
    alloc: Global,
    lines: &[&str],
    follower: &mut F,
) -> Result<TraceVersion, FileFault>
    ensures ok { IfOk result (λ version. (es : List JournalEntry) × AreLines (map (λ line. line.now) lines.now) version es × Follows F.takes follower.old es follower.new) }
    ensures fault { IfErr result (λ fault. IsLinesFault (map (λ line. line.now) lines.now) fault) }
{
    let Some((first, rest)) = lines.split_first() else {
        return Err(FileFault::Line(1, TraceFault::WrongShape));
    };
    let version = match version_of(alloc, first) {
        Ok(version) => version,
        Err(TraceFault::Memory) => return Err(FileFault::Memory),
        Err(fault) => return Err(FileFault::Line(1, fault)),
    };
    match follower.take(alloc, JournalEntry::Head) {
        Ok(()) => {}
        Err(Memory) => return Err(FileFault::Memory),
    }
    match follow_entries(alloc, version, rest, follower) {
        Ok(()) => return Ok(version),
        Err(fault) => return Err(fault),
    }
}

fn follow_entries<F: Follower>(
    alloc: Global,
    version: TraceVersion,
    lines: &[&str],
    follower: &mut F,
) -> Result<(), FileFault>
    ensures ok { OnOk result ((es : List JournalEntry) × AreEntryLines version (map (λ line. line.now) lines.now) es × Follows F.takes follower.old es follower.new) }
    ensures fault { IfErr result (λ fault. IsEntriesFault version (map (λ line. line.now) lines.now) fault) }
{
    for (i, line) in lines.iter().enumerate() {
        let entry = match later_entry(alloc, line, version) {
            Ok(entry) => entry,
            Err(TraceFault::Memory) => return Err(FileFault::Memory),
            Err(fault) => return Err(FileFault::Line(i + 2, fault)),
        };
        match follower.take(alloc, entry) {
            Ok(()) => {}
            Err(Memory) => return Err(FileFault::Memory),
        }
    }
    Ok(())
}

/// The entry of a line behind the first, if no head may stand.
fn later_entry(alloc: Global, text: &str, version: TraceVersion) -> Result<JournalEntry, TraceFault>
    ensures ok { IfOk result (λ e. IsEntryLine version text.now e) }
    ensures fault { IfErr result (λ f. IsLaterFault version f (read text.now)) }
{
    match entry_of(alloc, text, version) {
        Ok(entry) if matches!(&entry, JournalEntry::Head) => Err(TraceFault::WrongShape),
        Ok(entry) => Ok(entry),
        Err(TraceFault::Version) => Err(TraceFault::WrongShape),
        Err(fault) => Err(fault),
    }
}
