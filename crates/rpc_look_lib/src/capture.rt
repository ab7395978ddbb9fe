//! A conversation of which pieces come.
ghost use Rattle.std.specs.Prelude.{◌≡◌, ◌<◌, ◌≤◌, length, Some, None, is_some, IsTrue, IfSome, IfOk, OnOk};
ghost use Rattle.look_pieces.specs.Pieces.{other_side};
ghost use Rattle.rpc_look_lib.specs.Talking.{stand_of, with_breach};
ghost use Rattle.rpc_look_lib.specs.Capturing.{scene_of, IsBare, FrameComes, PartComes, StreamComes, PieceComes};

use crate::failure::Failure;
use crate::page::Page;
use crate::stream::{Given, Stream};
use crate::talk::Talk;
use capn_stream::{Frame, StreamError};
use capn_trees::PayloadFault;
use look_pieces::{Piece, Side};
use std::alloc::Global;

/// What was said, and what came of both ends.
#[derive(Drop)]
pub(crate) struct Capture {
    pub(crate) talk: Talk,
    pub(crate) client: Stream,
    pub(crate) server: Stream,
}

/// No frame comes next of an end.
fn end_stream<P: Page>(
    talk: &mut Talk,
    page: &mut P,
    side: Side,
    fault: PayloadFault,
) -> Result<(), Failure>
    ensures { OnOk result (stand_of talk.new ≡ with_breach (stand_of talk.old)) }
{
    talk.watch.is_broken = true;
    page.say_end_of(side, talk.last.number.saturating_add(1), fault)
}

/// A frame comes, if one does.
fn tell_given<P: Page>(
    talk: &mut Talk,
    page: &mut P,
    side: Side,
    time: Option<u64>,
    frame: Option<Frame>,
) -> Result<(), Failure>
    ensures { OnOk result (FrameComes side time (stand_of talk.old) frame (stand_of talk.new)) }
{
    match frame {
        Some(frame) => talk.tell_frame(page, side, time, frame.bytes()),
        None => Ok(()),
    }
}

/// A part of a piece comes, of which bytes up to the end of a frame are taken, and gives how many; none where nothing of the
/// end is read any more.
fn tell_part<P: Page>(
    talk: &mut Talk,
    stream: &mut Stream,
    page: &mut P,
    side: Side,
    time: Option<u64>,
    part: &[u8],
) -> Result<Option<usize>, Failure>
    requires read { IsTrue (is_some stream.old) }
    requires some { 0 < length part.now }
    ensures within { IfOk result (λ taken. IfSome taken (λ n. (0 < n) × (n ≤ length part.now))) }
    ensures comes { IfOk result (λ taken. PartComes side time part.now stream.old (stand_of talk.old) taken stream.new (stand_of talk.new)) }
{
    match stream.give(part) {
        Ok(Given { count, frame }) => {
            tell_given(talk, page, side, time, frame)?;
            Ok(Some(count))
        }
        Err(StreamError::Memory) => Err(Failure::Memory),
        Err(StreamError::Fault(fault)) => {
            end_stream(talk, page, side, fault)?;
            Ok(None)
        }
    }
}

/// A piece comes of an end.
fn tell_stream<P: Page>(
    talk: &mut Talk,
    stream: &mut Stream,
    page: &mut P,
    at: Option<u64>,
    side: Side,
    time: Option<u64>,
    bytes: &[u8],
) -> Result<(), Failure>
    ensures { OnOk result (StreamComes at side time bytes.now stream.old (stand_of talk.old) stream.new (stand_of talk.new)) }
{
    if !stream.is_read() {
        return Ok(());
    }
    let mut from = 0;
    'parts: while from < bytes.len() {
        if talk.is_done(at) {
            return Ok(());
        }
        let part = &bytes[from..];
        match tell_part(talk, stream, page, side, time, part)? {
            Some(taken) => from += taken,
            None => return Ok(()),
        }
    }
    Ok(())
}

impl Capture {
    /// Nothing came.
    pub(crate) fn new(alloc: Global) -> Capture
        ensures { IsBare (scene_of result) }
    {
        Capture {
            talk: Talk::new(alloc),
            client: Stream::new(alloc),
            server: Stream::new(alloc),
        }
    }

    /// A piece comes, up to the last message that is asked for.
    pub(crate) fn tell_piece<P: Page>(
        &mut self,
        page: &mut P,
        at: Option<u64>,
        piece: &Piece,
    ) -> Result<(), Failure>
        ensures { OnOk result (PieceComes at piece.now.side (Some piece.now.time) piece.now.bytes.items (scene_of self.old) (scene_of self.new)) }
    {
        let bytes = piece.bytes.as_slice();
        let time = Some(piece.time);
        let talk = &mut self.talk;
        match piece.side {
            Side::Client => {
                tell_stream(talk, &mut self.client, page, at, Side::Client, time, bytes)
            }
            Side::Server => {
                tell_stream(talk, &mut self.server, page, at, Side::Server, time, bytes)
            }
        }
    }

    /// Says of each end that ends inside a message how many bytes of it came.
    pub(crate) fn say_rests<P: Page>(&self, page: &mut P) -> Result<(), Failure> {
        page.say_rest(Side::Client, self.client.waiting())?;
        page.say_rest(Side::Server, self.server.waiting())
    }
}
