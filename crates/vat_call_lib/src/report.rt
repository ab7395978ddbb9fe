//! What is told.
ghost use Rattle.std.specs.Prelude.{◌++◌, ◌∷◌, [], OnOk};
ghost use Rattle.std.specs.Io.KnownBytes.{Appends};
ghost use Rattle.serde_json.specs.Written.{compact_text};
ghost use Rattle.trace_write.specs.Values.{value};
ghost use Rattle.trace_write.specs.declared.version.TraceVersion.TheVariants.{Two};

use crate::failure::BrokenOff;
use rpc_journal::JournalEntry;
use std::alloc::Global;
use std::io::Write;
use trace_write::{TraceVersion, line_of};

/// Tells what happened, as a line of a trace.
pub(crate) fn tell<T: Write>(
    alloc: Global,
    told: &mut T,
    entry: &JournalEntry,
) -> Result<(), BrokenOff>
    ensures { OnOk result (Appends (T.contents told.old) (T.contents told.new) (compact_text (value Two entry.now) ++ 10 ∷ [])) }
{
    let mut line = line_of(alloc, entry, TraceVersion::Two)?;
    line.push('\n')?;
    match told.write_all(line.as_bytes()) {
        Ok(()) => Ok(()),
        Err(_) => Err(BrokenOff::Untold),
    }
}
