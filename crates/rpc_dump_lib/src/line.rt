//! The line of a message.
ghost use Rattle.std.specs.Prelude.{◌≡◌, IfOk, string_bytes};
ghost use Rattle.serde_json.specs.Written.{compact_text};
ghost use Rattle.rpc_codec.specs.Envelopes.{seen_envelope};
ghost use Rattle.rpc_dump_lib.specs.Lines.{fault_data};
ghost use Rattle.rpc_dump_lib.specs.Named.{IsNamed, line_text};

use crate::form::Form;
use crate::named::write_line;
use rpc_codec::Envelope;
use std::alloc::{AllocError, Global};
use trace_write::write_number;

/// The line of what a frame says, without a newline, as traces have messages, in that form. It fails only if memory is refused.
pub fn line_of(alloc: Global, envelope: &Envelope, form: &Form<'_>) -> Result<String, AllocError>
    requires named { IsNamed form.now }
    ensures { IfOk result (λ line. string_bytes line ≡ line_text form.now (seen_envelope envelope.now)) }
{
    let value = write_line(alloc, envelope, form)?;
    let line = value.to_string(alloc)?;
    Ok(line)
}

/// The line of a frame that says nothing, with the number of its fault.
pub fn fault_line(alloc: Global, fault: u32) -> Result<String, AllocError>
    ensures { IfOk result (λ line. string_bytes line ≡ compact_text (fault_data fault)) }
{
    let value = write_number(alloc, "fault", fault)?;
    let line = value.to_string(alloc)?;
    Ok(line)
}
