ghost use Rattle.std.specs.Prelude.{◌≡◌, IfOk, IfErr, OnOk, string_bytes};
ghost use Rattle.std.specs.Io.KnownBytes.{Appends};
ghost use Rattle.program_files.specs.Texts.{IsInput, HasNoText};

use crate::fault::{ProgramFailure, unread};
use std::alloc::Global;
use std::io::{Read, Write};

/// The whole text that a reader gives. `Unreadable` if the reader fails, `NotText` if the bytes are not UTF-8, `Memory`
/// if a growth was refused.
pub fn read_text<R: Read>(alloc: Global, reader: &mut R) -> Result<String, ProgramFailure>
    ensures text { IfOk result (λ text. IsInput (R.remaining reader.old) (string_bytes text)) }
    ensures fails { IfErr result (λ why. HasNoText (R.remaining reader.old) why) }
{
    let mut bytes = Vec::new(alloc);
    match reader.read_to_end(&mut bytes) {
        Ok(_) => {}
        Err(error) => return Err(unread(&error, ProgramFailure::Unreadable)),
    }
    match String::from_utf8(bytes) {
        Ok(text) => Ok(text),
        Err(_) => Err(ProgramFailure::NotText),
    }
}

/// Writes a text. `Unwritten` if that fails, which may have taken a part of it.
pub fn write_text<W: Write>(out: &mut W, text: &str) -> Result<(), ProgramFailure>
    ensures written { OnOk result (Appends (W.contents out.old) (W.contents out.new) text.now) }
    ensures fails { IfErr result (λ why. why ≡ ProgramFailure.Unwritten) }
{
    match out.write_all(text.as_bytes()) {
        Ok(()) => Ok(()),
        Err(_) => Err(ProgramFailure::Unwritten),
    }
}
