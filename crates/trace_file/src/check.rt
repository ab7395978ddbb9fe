ghost use Rattle.std.specs.Prelude.{◌≡◌, ◌++◌, ◌∷◌, [], List, IfOk, IfErr, OnOk, string_bytes};
ghost use Rattle.rpc_journal.specs.declared.entry.JournalEntry.{JournalEntry};
ghost use Rattle.trace_write.specs.declared.version.TraceVersion.{TraceVersion};
ghost use Rattle.rpc_check.specs.Breaches.{verdict_of};
ghost use Rattle.rpc_check.specs.Kept.{HasTaken};
ghost use Rattle.trace_file.specs.Traces.{IsTrace};
ghost use Rattle.trace_file.specs.Faults.{IsFileFault};
ghost use Rattle.trace_file.specs.Verdicts.{verdict_text};

use crate::fault::FileFault;
use crate::follower::{Follower, follow};
use rpc_check::{Checker, Verdict};
use rpc_journal::JournalEntry;
use rpc_msg::Memory;
use std::alloc::Global;
use std::fmt::Write;
use std::mem;

/// The verdict of a trace. Its entries are read one by one and not kept.
///
/// The faults are those of `follow`.
pub fn check_trace(alloc: Global, trace: &str) -> Result<Verdict, FileFault>
    ensures ok { IfOk result (λ verdict. (version : TraceVersion) × (es : List JournalEntry) × IsTrace trace.now version es × (verdict ≡ verdict_of es)) }
    ensures fault { IfErr result (λ fault. IsFileFault trace.now fault) }
{
    let mut checking = Checking {
        checker: Checker::new(alloc),
    };
    match follow(alloc, trace, &mut checking) {
        Ok(_) => return Ok(checking.checker.verdict()),
        Err(fault) => return Err(fault),
    }
}

/// A checker that follows a trace.
#[derive(Drop)]
struct Checking {
    checker: Checker,
}

impl Follower for Checking {
    ghost takes = { λ old e new. (h : List JournalEntry) → HasTaken old.checker h → HasTaken new.checker (h ++ e ∷ []) };

    fn take(&mut self, alloc: Global, entry: JournalEntry) -> Result<(), Memory> {
        let checker = mem::replace(&mut self.checker, Checker::new(alloc));
        self.checker = checker.take(alloc, &entry)?;
        Ok(())
    }
}

/// The line that says a verdict, with a newline at its end, behind a text.
pub fn write_verdict(text: &mut String, verdict: Verdict) -> Result<(), Memory>
    ensures { OnOk result (string_bytes text.new ≡ string_bytes text.old ++ verdict_text verdict) }
{
    let written = match verdict {
        Verdict::Good(delivered) => writeln!(text, "ok: {delivered} delivered"),
        Verdict::Order(entry) => writeln!(text, "broken order at entry {entry}"),
        Verdict::Unmatched(entry) => writeln!(text, "nothing in flight at entry {entry}"),
        Verdict::AfterDown(entry) => writeln!(text, "sent after down at entry {entry}"),
        Verdict::Count(entry) => writeln!(text, "broken count at entry {entry}"),
    };
    written?;
    Ok(())
}
