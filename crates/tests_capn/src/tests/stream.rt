//! Streams of frames.
ghost use Rattle.std.specs.Prelude.{◌<◌, ◌≤◌, length, IfOk};

use capn_stream::{FrameReader, Front, StreamError, next_frame};
use capn_wire::PayloadFault;
use std::alloc::Global;
use std::test::Fail;

// A Bootstrap, a Return and a Call, the last in two segments: captured from vats of the C++ library the first two, the last
// made by hand, with its root behind a far pointer.
const BOOTSTRAP: &[u8] =
    b"\x00\x00\x00\x00\x05\x00\x00\x00\x00\x00\x00\x00\x01\x00\x01\x00\x08\x00\x00\x00\x00\x00\x00\x00\x00\x00\x00\x00\x01\x00\x01\x00\x00\x00\x00\x00\x00\x00\x00\x00\x00\x00\x00\x00\x00\x00\x00\x00";

const RETURN: &[u8] =
    b"\x00\x00\x00\x00\x0b\x00\x00\x00\x00\x00\x00\x00\x01\x00\x01\x00\x03\x00\x00\x00\x00\x00\x00\x00\x00\x00\x00\x00\x02\x00\x01\x00\x00\x00\x00\x00\x00\x00\x00\x00\x00\x00\x00\x00\x00\x00\x00\x00\x00\x00\x00\x00\x00\x00\x02\x00\x03\x00\x00\x00\x00\x00\x00\x00\x01\x00\x00\x00\x17\x00\x00\x00\x04\x00\x00\x00\x01\x00\x01\x00\x01\x00\x00\x00\x00\x00\x00\x00\x00\x00\x00\x00\x00\x00\x00\x00";

const CALL: &[u8] =
    b"\x01\x00\x00\x00\x01\x00\x00\x00\x15\x00\x00\x00\x00\x00\x00\x00\x02\x00\x00\x00\x01\x00\x00\x00\x00\x00\x00\x00\x01\x00\x01\x00\x02\x00\x00\x00\x00\x00\x00\x00\x00\x00\x00\x00\x03\x00\x03\x00\x09\x00\x00\x00\x03\x00\x00\x00\xbc\x0a\x00\x00\x00\x00\x00\x00\x00\x00\x00\x00\x00\x00\x00\x00\x08\x00\x00\x00\x01\x00\x01\x00\x1c\x00\x00\x00\x00\x00\x02\x00\x00\x00\x00\x00\x00\x00\x00\x00\x00\x00\x00\x00\x01\x00\x00\x00\x00\x00\x00\x00\x01\x00\x01\x00\x04\x00\x00\x00\x00\x00\x00\x00\x01\x00\x00\x00\x0f\x00\x00\x00\x04\x00\x00\x00\x01\x00\x00\x00\x01\x00\x01\x00\x00\x00\x00\x00\x04\x00\x00\x00\x00\x00\x01\x00\x05\x00\x00\x00\x17\x00\x00\x00\x03\x00\x00\x00\x00\x00\x00\x00\x04\x00\x00\x00\x01\x00\x01\x00\x01\x00\x00\x00\x03\x00\x00\x00\x00\x00\x00\x00\x00\x00\x00\x00";

const FRAMES: [&[u8]; 3] = [BOOTSTRAP, RETURN, CALL];

// One allocation may be refused (`--fail-alloc`): the reader is as it was, and takes the same piece again.
fn push(reader: &mut FrameReader, piece: &[u8]) -> Result<usize, StreamError>
    ensures { IfOk result (λ taken. taken ≤ length piece.now) }
{
    match reader.push(piece) {
        Err(StreamError::Memory) => reader.push(piece),
        pushed => pushed,
    }
}

// How many frames were seen, if the one that goes out, if any, is the next of those that are expected.
fn seen_next(reader: &mut FrameReader, expected: &[&[u8]], seen: usize) -> Option<usize> {
    match reader.take_frame() {
        None => Some(seen),
        Some(frame) => match expected.get(seen) {
            Some(next) if frame.bytes() == *next => Some(seen.saturating_add(1)),
            _ => None,
        },
    }
}

// Hands a piece over whole. The frames that go out are those that are expected, from the number `seen` on; how many
// were seen then.
fn feed(
    reader: &mut FrameReader,
    piece: &[u8],
    expected: &[&[u8]],
    seen: usize,
) -> Result<usize, Fail> {
    let mut seen = seen;
    let mut at = 0;
    for _ in 0..piece.len() {
        at += push(reader, &piece[at..])?;
        seen = match seen_next(reader, expected, seen) {
            Some(seen) => seen,
            None => return Err("another frame, or one too many")?,
        };
        if at == piece.len() {
            return Ok(seen);
        }
    }
    match piece.is_empty() {
        true => Ok(seen),
        false => Err("the piece is not taken whole")?,
    }
}

// The three frames, one behind the other.
fn stream(alloc: Global) -> Result<Vec<u8>, Fail> {
    let mut bytes = Vec::new(alloc);
    for frame in FRAMES {
        bytes.extend_from_slice(frame)?;
    }
    Ok(bytes)
}

// Whether a stream gives these frames and has none waiting, if it comes in two pieces.
fn is_cut(alloc: Global, bytes: &[u8], cut: usize) -> Result<bool, Fail> {
    let (first, second) = bytes.split_at(cut.min(bytes.len()));
    let mut reader = FrameReader::new(alloc);
    let seen = feed(&mut reader, first, &FRAMES, 0)?;
    let seen = feed(&mut reader, second, &FRAMES, seen)?;
    Ok(seen == 3 && reader.ended() == Ok(()))
}

// How many of these frames are seen, if the stream comes in pieces of so many bytes, and how many bytes wait then.
fn in_pieces(
    alloc: Global,
    bytes: &[u8],
    size: usize,
    expected: &[&[u8]],
) -> Result<(usize, usize), Fail>
    requires { 0 < size }
{
    let mut reader = FrameReader::new(alloc);
    let mut seen = 0;
    for piece in bytes.chunks(size) {
        seen = feed(&mut reader, piece, expected, seen)?;
    }
    Ok((seen, reader.waiting()))
}

#[test]
fn cut_at_every_byte(rt: HostRuntime) -> Result<(), Fail> {
    let bytes = stream(rt.alloc())?;
    for cut in 0..bytes.len() + 1 {
        assert!(rt; is_cut(rt.alloc(), &bytes, cut)?, "at {cut}");
    }
    assert!(rt; in_pieces(rt.alloc(), &bytes, 1, &FRAMES)? == (3, 0));
    Ok(())
}

// 16 segments of 4,096 words: as much as a frame may have.
fn largest(alloc: Global) -> Result<Vec<u8>, Fail> {
    let mut bytes = Vec::new(alloc);
    bytes.extend_from_slice(&[15, 0, 0, 0])?;
    for _ in 0..16 {
        bytes.extend_from_slice(&[0, 16, 0, 0])?;
    }
    bytes.resize(72 + 8 * 65_536, 7)?;
    Ok(bytes)
}

#[test]
fn the_largest_frame(rt: HostRuntime) -> Result<(), Fail> {
    let bytes = largest(rt.alloc())?;
    assert!(rt; next_frame(&bytes) == Front::Complete(bytes.len()));
    assert!(rt; in_pieces(rt.alloc(), &bytes, 1_000, &[&bytes])? == (1, 0));
    Ok(())
}

// The stream may end behind a frame, and nowhere else.
fn ends_as_told(alloc: Global, bytes: &[u8], is_whole: bool) -> Result<bool, Fail> {
    let mut reader = FrameReader::new(alloc);
    let taken = push(&mut reader, bytes)?;
    let is_waiting = taken == bytes.len() && reader.waiting() == taken;
    let is_ended = reader.ended().is_ok() == (is_whole || bytes.is_empty());
    Ok(is_waiting && is_ended && reader.take_frame().is_some() == is_whole)
}

#[test]
fn ends_are_told(rt: HostRuntime) -> Result<(), Fail> {
    for len in 0..BOOTSTRAP.len() + 1 {
        let is_whole = len == BOOTSTRAP.len();
        assert!(rt; ends_as_told(rt.alloc(), &BOOTSTRAP[..len], is_whole)?);
    }
    Ok(())
}

// While a whole frame waits nothing more is taken.
fn takes_one(alloc: Global) -> Result<bool, Fail> {
    let bytes = stream(alloc)?;
    let mut reader = FrameReader::new(alloc);
    let first = push(&mut reader, &bytes)?;
    let second = push(&mut reader, RETURN)?;
    let is_seen = seen_next(&mut reader, &[BOOTSTRAP], 0) == Some(1);
    Ok(first == BOOTSTRAP.len() && second == 0 && is_seen && reader.take_frame().is_none())
}

#[test]
fn one_frame_at_a_time(rt: HostRuntime) -> Result<(), Fail> {
    assert!(rt; takes_one(rt.alloc())?);
    Ok(())
}

// Whether the reader has failed for good.
fn has_failed(reader: &mut FrameReader, fault: PayloadFault) -> bool {
    reader.waiting() == 0
        && reader.push(BOOTSTRAP) == Err(StreamError::Fault(fault))
        && reader.take_frame().is_none()
        && reader.ended() == Err(fault)
}

// The fault of a beginning, told at its last byte and not before.
fn fails_at_its_end(
    alloc: Global,
    before: &[u8],
    last: u8,
    fault: PayloadFault,
) -> Result<bool, Fail> {
    let mut reader = FrameReader::new(alloc);
    let taken = push(&mut reader, before)?;
    let failed = push(&mut reader, &[last]) == Err(StreamError::Fault(fault));
    Ok(taken == before.len() && failed && has_failed(&mut reader, fault))
}

/// The bytes before the last, the last, and the fault. In the last row padding stands behind the table of two segments.
const BEGINNINGS: [(&[u8], u8, PayloadFault); 4] = [
    (&[16, 0, 0], 0, PayloadFault::TooManySegments),
    (&[255, 255, 255], 255, PayloadFault::TooManySegments),
    (&[0, 0, 0, 0, 1, 0, 1], 0, PayloadFault::TooLarge),
    (
        &[1, 0, 0, 0, 255, 255, 0, 0, 2, 0, 0, 0, 0, 0, 0],
        0,
        PayloadFault::TooLarge,
    ),
];

#[test]
fn limits_come_before_segments(rt: HostRuntime) -> Result<(), Fail> {
    for (before, last, fault) in BEGINNINGS {
        assert!(rt; fails_at_its_end(rt.alloc(), before, last, fault)?);
    }
    Ok(())
}

/// How much of the Call is there, and what stands at the front.
const FRONTS: [(usize, Front); 4] = [
    (0, Front::Need(4)),
    (4, Front::Need(16)),
    (16, Front::Need(192)),
    (192, Front::Complete(192)),
];

#[test]
fn fronts(rt: HostRuntime) {
    assert!(rt; CALL.len() == 192);
    for (len, front) in FRONTS {
        assert!(rt; CALL.get(..len).map(|bytes| next_frame(bytes)) == Some(front));
    }
}
