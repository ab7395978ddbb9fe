ghost use Rattle.std.specs.Prelude.{◌≡◌, ◌++◌, OnOk, string_bytes};
ghost use Rattle.trace_file.specs.Traces.{trace_text, line_text};

use rpc_journal::JournalEntry;
use rpc_msg::Memory;
use std::alloc::Global;
use trace_json::{TraceVersion, line_of};

/// The lines of these entries behind a text, each with a newline at its end. `Memory` if a growth was refused; the
/// text may then have some of them.
pub fn write_entries(
    alloc: Global,
    text: &mut String,
    entries: &[JournalEntry],
    version: TraceVersion,
) -> Result<(), Memory>
    ensures { OnOk result (string_bytes text.new ≡ string_bytes text.old ++ trace_text version entries.now) }
{
    for entry in entries {
        write_entry(alloc, text, entry, version)?;
    }
    Ok(())
}

/// The line of an entry behind a text, with a newline at its end. `Memory` as above.
pub fn write_entry(
    alloc: Global,
    text: &mut String,
    entry: &JournalEntry,
    version: TraceVersion,
) -> Result<(), Memory>
    ensures { OnOk result (string_bytes text.new ≡ string_bytes text.old ++ line_text version entry.now) }
{
    let line = line_of(alloc, entry, version)?;
    text.push_str(line.as_str())?;
    text.push('\n')?;
    Ok(())
}
