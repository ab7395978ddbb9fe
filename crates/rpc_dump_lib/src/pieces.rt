//! A conversation, read and said line by line.
ghost use Rattle.std.specs.Prelude.{◌≡◌, ◌⊎◌, ◌<◌, ◌≤◌, ◌++◌, ℕ, List, [], length, take, drop, IfOk, IfErr, OnOk, Option};
ghost use Rattle.std.specs.Io.KnownBytes.{Consumes, IsAtEnd};
ghost use Rattle.capn_stream.specs.Streams.{IsSplit};
ghost use Rattle.program_files.specs.Texts.{IsInput};
ghost use Rattle.rpc_dump_lib.specs.Conversations.{Says, StreamStops, Dumps, frame_line};
ghost use Rattle.rpc_dump_lib.specs.Reading.{held_of, IsSound, IsOpen, SaidTo, GoesOn};
ghost use Rattle.rpc_dump_lib.specs.Named.{IsNamed};

use crate::failure::Failure;
use crate::form::Form;
use crate::frames::say_frame;
use crate::hexadecimal::dump_hex;
use capn_stream::{FrameReader, fronts_stay};
use program_files::{ProgramFailure, unread};
use std::alloc::{AllocError, Global};
use std::io::{ErrorKind, Read, Write};

/// How many bytes are read at a time.
const PIECE: usize = 16_384;

/// Says each message that the reader's bytes hold, in order, a line each in that form. The bytes are one stream of frames, or with
/// `hex` a frame a line in hexadecimal. It ends at the first that is none, with its number and its fault. Of lines in hexadecimal
/// it says the fault in place of the message, and goes on.
///
/// `Unreadable` if the reader fails, `NotHex` for a line that is no hexadecimal, `Unwritten` if `out` fails, and
/// `Memory` if a growth was refused. What was said before stands.
pub fn dump<R: Read, W: Write>(
    alloc: Global,
    hex: bool,
    form: &Form<'_>,
    reader: &mut R,
    out: &mut W,
) -> Result<(), Failure>
    requires named { IsNamed form.now }
    ensures { Dumps hex form.now (R.remaining reader.old) (W.contents out.old) (W.contents out.new) result }
{
    if hex {
        dump_hex(alloc, form, reader, out)
    } else {
        dump_stream(alloc, form, reader, out)
    }
}

/// Room for a piece of the input.
fn make_room(alloc: Global) -> Result<Vec<u8>, AllocError>
    ensures { IfOk result (λ room. 0 < length room.items) }
{
    Vec::from_elem(alloc, 0, PIECE)
}

fn dump_stream<R: Read, W: Write>(
    alloc: Global,
    form: &Form<'_>,
    reader: &mut R,
    out: &mut W,
) -> Result<(), Failure>
    requires named { IsNamed form.now }
    ensures { (input : List ℕ) × IsInput (R.remaining reader.old) input × Says (IsSplit input) (frame_line form.now) StreamStops (W.contents out.old) (W.contents out.new) result }
{
    let mut room = make_room(alloc)?;
    dump_pieces(alloc, form, reader, room.as_mut_slice(), out)
}

/// Says a stream whose bytes are read into the room, a piece at a time.
fn dump_pieces<R: Read, W: Write>(
    alloc: Global,
    form: &Form<'_>,
    reader: &mut R,
    room: &mut [u8],
    out: &mut W,
) -> Result<(), Failure>
    requires named { IsNamed form.now }
    requires some { 0 < length room.old }
    ensures { (input : List ℕ) × IsInput (R.remaining reader.old) input × Says (IsSplit input) (frame_line form.now) StreamStops (W.contents out.old) (W.contents out.new) result }
{
    let mut frames = FrameReader::new(alloc);
    let mut number: u64 = 1;
    'reads: for _ in 0..u64::MAX {
        let count = read_some(reader, room)?;
        if count == 0 {
            return end(&frames, number);
        }
        let piece = &room[..count];
        number = dump_piece(alloc, form, &mut frames, piece, number, out)?;
    }
    Err(Failure::Program(ProgramFailure::Unreadable))
}

/// Reads into the room, and gives how many bytes came: none at the end alone.
fn read_some<R: Read>(reader: &mut R, room: &mut [u8]) -> Result<usize, Failure>
    ensures within { IfOk result (λ count. count ≤ length room.new) }
    ensures came { IfOk result (λ count. Consumes (R.remaining reader.old) (R.remaining reader.new) (take count room.new)) }
    ensures end { 0 < length room.old → result ≡ Ok 0 → IsAtEnd (R.remaining reader.new) }
    ensures fails { IfErr result (λ why. (why ≡ Failure.Program ProgramFailure.Memory) ⊎ (why ≡ Failure.Program ProgramFailure.Unreadable)) }
{
    'tries: for _ in 0..u64::MAX {
        match reader.read(room) {
            Ok(count) => return Ok(count),
            Err(error) => match error.kind() {
                ErrorKind::Interrupted => {}
                _ => return Err(Failure::Program(unread(&error, ProgramFailure::Unreadable))),
            },
        }
    }
    Err(Failure::Program(ProgramFailure::Unreadable))
}

/// Whether the stream may end here, where the message with that number would come.
fn end(frames: &FrameReader, number: u64) -> Result<(), Failure>
    requires { IsOpen frames.now }
    ensures whole { OnOk result (held_of frames.now ≡ []) }
    ensures fails { IfErr result (λ why. StreamStops (held_of frames.now) number why) }
{
    match frames.ended() {
        Ok(()) => Ok(()),
        Err(fault) => Err(Failure::Message(number, fault.code())),
    }
}

/// Says the messages that end in a piece, the first of which has that number, and gives the next one's.
fn dump_piece<W: Write>(
    alloc: Global,
    form: &Form<'_>,
    frames: &mut FrameReader,
    piece: &[u8],
    number: u64,
    out: &mut W,
) -> Result<u64, Failure>
    requires named { IsNamed form.now }
    requires opened { IsOpen frames.old }
    ensures opened { OnOk result (IsOpen frames.new) }
    ensures said { (input left : List ℕ) (base : Option (List ℕ)) → SaidTo form.now input (held_of frames.old ++ (piece.now ++ left)) number base (W.contents out.old) → GoesOn form.now input (held_of frames.new ++ left) base (W.contents out.new) result }
{
    let mut number = number;
    let mut at = 0;
    'bytes: while at < piece.len() {
        at += take_in(frames, &piece[at..], number)?;
        number = say_whole(alloc, form, frames, number, out)?;
    }
    Ok(number)
}

/// Hands the reader a part of a piece, and gives how much it took.
fn take_in(frames: &mut FrameReader, piece: &[u8], number: u64) -> Result<usize, Failure>
    requires opened { IsOpen frames.old }
    requires some { 0 < length piece.now }
    ensures some { IfOk result (λ taken. 0 < taken) }
    ensures within { IfOk result (λ taken. taken ≤ length piece.now) }
    ensures sound { OnOk result (IsSound frames.new) }
    ensures kept { IfOk result (λ taken. held_of frames.new ++ drop taken piece.now ≡ held_of frames.old ++ piece.now) }
    ensures fails { IfErr result (λ why. (left : List ℕ) → StreamStops (held_of frames.old ++ (piece.now ++ left)) number why) }
{
    fronts_stay();
    match frames.push(piece) {
        Ok(taken) => Ok(taken),
        Err(error) => Err(Failure::of_stream(error, number)),
    }
}

/// Says the frame that is whole, if one is, whose message has that number, and gives the next one's.
fn say_whole<W: Write>(
    alloc: Global,
    form: &Form<'_>,
    frames: &mut FrameReader,
    number: u64,
    out: &mut W,
) -> Result<u64, Failure>
    requires named { IsNamed form.now }
    requires sound { IsSound frames.old }
    ensures opened { OnOk result (IsOpen frames.new) }
    ensures said { (input left : List ℕ) (base : Option (List ℕ)) → SaidTo form.now input (held_of frames.old ++ left) number base (W.contents out.old) → GoesOn form.now input (held_of frames.new ++ left) base (W.contents out.new) result }
{
    let Some(frame) = frames.take_frame() else {
        return Ok(number);
    };
    say_frame(alloc, form, frame.bytes(), number, out)?;
    Ok(number.saturating_add(1))
}
