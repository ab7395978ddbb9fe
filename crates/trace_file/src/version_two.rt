ghost use Rattle.std.specs.Prelude.{◌≡◌, ◌++◌, List, IfOk, IfErr, string_bytes};
ghost use Rattle.rpc_journal.specs.declared.entry.JournalEntry.{JournalEntry};
ghost use Rattle.trace_write.specs.declared.version.TraceVersion.{TraceVersion};
ghost use Rattle.trace_write.specs.declared.version.TraceVersion.TheVariants.{Two};
ghost use Rattle.trace_file.specs.Traces.{IsTrace, line_text, trace_text};
ghost use Rattle.trace_file.specs.Faults.{IsFileFault};

use crate::entries::write_entry;
use crate::fault::FileFault;
use crate::follower::{Follower, follow};
use rpc_journal::JournalEntry;
use rpc_msg::Memory;
use std::alloc::Global;
use trace_json::TraceVersion;

/// The trace in version 2 that a trace of either version says: compact lines, each with a newline at its end.
///
/// The faults are those of `follow`.
pub fn upgrade(alloc: Global, trace: &str) -> Result<String, FileFault>
    ensures ok { IfOk result (λ text. (version : TraceVersion) × (es : List JournalEntry) × IsTrace trace.now version es × (string_bytes text ≡ trace_text Two es)) }
    ensures fault { IfErr result (λ fault. IsFileFault trace.now fault) }
{
    let mut written = Written {
        text: String::new(alloc),
    };
    match follow(alloc, trace, &mut written) {
        Ok(_) => return Ok(written.text),
        Err(fault) => return Err(fault),
    }
}

/// Lines of version 2, as they are written.
#[derive(Drop)]
struct Written {
    text: String,
}

impl Follower for Written {
    ghost takes = { λ old e new. string_bytes new.text ≡ string_bytes old.text ++ line_text Two e };

    fn take(&mut self, alloc: Global, entry: JournalEntry) -> Result<(), Memory> {
        write_entry(alloc, &mut self.text, &entry, TraceVersion::Two)
    }
}
