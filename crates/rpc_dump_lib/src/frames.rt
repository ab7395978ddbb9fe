//! What is said of a frame, written.
ghost use Rattle.std.specs.Prelude.{◌≡◌, ◌⊎◌, ◌∷◌, ◌++◌, ℕ, List, [], Some, IfOk, IfErr, OnOk, string_bytes};
ghost use Rattle.std.specs.Io.KnownBytes.{Appends};
ghost use Rattle.hex.specs.Hex.{decode_of};
ghost use Rattle.capn_stream.specs.Fronts.{IsFrame};
ghost use Rattle.rpc_codec.specs.Decoding.{Misses};
ghost use Rattle.rpc_dump_lib.specs.Conversations.{what_in, frame_line, any_line, digits_line, StreamStops, DigitsStop};
ghost use Rattle.rpc_dump_lib.specs.Named.{IsNamed};

use crate::failure::Failure;
use crate::form::Form;
use crate::line::{fault_line, line_of};
use capn_stream::fronts_stay;
use hex::FromHexError;
use program_files::{ProgramFailure, write_text};
use rpc_codec::{DecodeError, decode};
use rpc_msg::{RefId, Stamp, Vat};
use std::alloc::{AllocError, Global};
use std::io::Write;

/// No bytes have a stamp, and no line says this one.
const NO_STAMP: Stamp = Stamp {
    vat: Vat::A,
    reference: RefId(0),
    index: 0,
};

/// A line with its newline.
fn end_line(line: String) -> Result<String, AllocError>
    ensures { IfOk result (λ ended. string_bytes ended ≡ string_bytes line ++ 10 ∷ []) }
{
    let mut line = line;
    line.push('\n')?;
    Ok(line)
}

/// The line of the message that a frame is; or why it is none.
fn message_line(alloc: Global, form: &Form<'_>, frame: &[u8]) -> Result<String, DecodeError>
    requires named { IsNamed form.now }
    ensures line { IfOk result (λ text. frame_line form.now frame.now ≡ Some (string_bytes text)) }
    ensures fails { IfErr result (λ why. Misses why (what_in frame.now)) }
{
    let envelope = match decode(alloc, frame, NO_STAMP) {
        Ok(envelope) => envelope,
        Err(error) => return Err(error),
    };
    let line = line_of(alloc, &envelope, form)?;
    let line = end_line(line)?;
    Ok(line)
}

/// The line of a frame that stands by itself, or of its fault.
fn any_line_of(alloc: Global, form: &Form<'_>, frame: &[u8]) -> Result<String, AllocError>
    requires named { IsNamed form.now }
    ensures { IfOk result (λ text. string_bytes text ≡ any_line form.now (what_in frame.now)) }
{
    match message_line(alloc, form, frame) {
        Ok(line) => Ok(line),
        Err(DecodeError::Memory) => Err(AllocError),
        Err(DecodeError::Fault(fault)) => {
            let line = fault_line(alloc, u32::from(fault.code()))?;
            end_line(line)
        }
    }
}

/// The line of the frame that digits spell, which are those of a line with that number.
fn line_of_digits(
    alloc: Global,
    form: &Form<'_>,
    digits: &[u8],
    number: u64,
) -> Result<String, Failure>
    requires named { IsNamed form.now }
    ensures line { IfOk result (λ text. digits_line form.now digits.now ≡ Some (string_bytes text)) }
    ensures fails { IfErr result (λ why. DigitsStop digits.now number why) }
{
    match hex::decode(alloc, digits) {
        Ok(frame) => {
            let line = any_line_of(alloc, form, frame.as_slice())?;
            Ok(line)
        }
        Err(FromHexError::OutOfMemory) => Err(Failure::Program(ProgramFailure::Memory)),
        Err(_) => Err(Failure::NotHex(number)),
    }
}

fn write_line<W: Write>(line: &str, out: &mut W) -> Result<(), Failure>
    ensures written { OnOk result (Appends (W.contents out.old) (W.contents out.new) line.now) }
    ensures fails { IfErr result (λ why. why ≡ Failure.Program ProgramFailure.Unwritten) }
{
    write_text(out, line)?;
    Ok(())
}

/// Says the message of a frame, which has that number; or why nothing is said of a stream that goes on with this frame.
pub fn say_frame<W: Write>(
    alloc: Global,
    form: &Form<'_>,
    frame: &[u8],
    number: u64,
    out: &mut W,
) -> Result<(), Failure>
    requires named { IsNamed form.now }
    requires whole { IsFrame frame.now }
    ensures said { OnOk result ((text : List ℕ) × (frame_line form.now frame.now ≡ Some text) × Appends (W.contents out.old) (W.contents out.new) text) }
    ensures fails { IfErr result (λ why. (why ≡ Failure.Program ProgramFailure.Unwritten) ⊎ ((out.new ≡ out.old) × ((left : List ℕ) → StreamStops (frame.now ++ left) number why))) }
{
    fronts_stay();
    match message_line(alloc, form, frame) {
        Ok(line) => write_line(line.as_str(), out),
        Err(DecodeError::Memory) => Err(Failure::Program(ProgramFailure::Memory)),
        Err(DecodeError::Fault(fault)) => Err(Failure::Message(number, fault.code())),
    }
}

/// Says the frame that digits spell, or its fault. The line that they are has that number.
pub fn say_digits<W: Write>(
    alloc: Global,
    form: &Form<'_>,
    digits: &[u8],
    number: u64,
    out: &mut W,
) -> Result<(), Failure>
    requires named { IsNamed form.now }
    ensures said { OnOk result ((text : List ℕ) × (digits_line form.now digits.now ≡ Some text) × Appends (W.contents out.old) (W.contents out.new) text) }
    ensures fails { IfErr result (λ why. (why ≡ Failure.Program ProgramFailure.Unwritten) ⊎ ((out.new ≡ out.old) × DigitsStop digits.now number why)) }
{
    let line = line_of_digits(alloc, form, digits, number)?;
    write_line(line.as_str(), out)
}
