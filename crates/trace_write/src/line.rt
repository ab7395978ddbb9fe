ghost use Rattle.std.specs.Prelude.{◌≡◌, Some, IfOk, OnOk, string_bytes};
ghost use Rattle.serde_json.specs.Read.{read};
ghost use Rattle.serde_json.specs.Written.{compact_text};
ghost use Rattle.trace_write.specs.Values.{value};
ghost use Rattle.trace_write.specs.Fits.{Fits};

use crate::entries::write_entry;
use crate::version::TraceVersion;
use rpc_journal::JournalEntry;
use rpc_msg::Memory;
use std::alloc::Global;

/// The line of an entry in that version: compact JSON, keys in rising byte order, without the newline that ends it in
/// a trace.
///
/// Both versions are written, for as long as the program writes version 1 (one constant of the program decides which).
/// It fails only if memory is refused. `entry_of` reads the version 2 line as the entry, and the version 1 line if
/// no flag is true.
pub fn line_of(alloc: Global, entry: &JournalEntry, version: TraceVersion) -> Result<String, Memory>
    ensures text { IfOk result (λ line. string_bytes line ≡ compact_text (value version entry.now)) }
    ensures reads_back { IfOk result (λ line. read (string_bytes line) ≡ Some (value version entry.now)) }
    ensures fits { OnOk result (Fits TraceVersion.Two entry.now) }
{
    let value = write_entry(alloc, entry, version)?;
    let line = value.to_string(alloc)?;
    Ok(line)
}
