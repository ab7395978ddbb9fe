//! Two files, of what each end sent, without an order between them.
//!
//! What is needed for a message is what its sender said before, which is fixed, and that the other end said enough, which
//! stays so as it says more. So taking any message that may be said finds an order in which nothing is broken, if there is
//! one.
ghost use Rattle.std.specs.Prelude.{◌≡◌, ◌<◌, ◌≤◌, ◌++◌, None, length, option_to_list, IfOk, IfSome, OnOk};
ghost use Rattle.capn_stream.specs.Fronts.{IsFrame};
ghost use Rattle.program_files.specs.Texts.{IsInput};
ghost use Rattle.rpc_look_lib.specs.Talking.{stand_of, with_breach, moment_of, ComesAs};
ghost use Rattle.rpc_look_lib.specs.Weaving.{Cuts, IsNextAt, may_come, IsChosen, behind_next, rest_in, Woven, LooksTwo};

use crate::failure::{Failure, unreadable};
use crate::json::JsonPage;
use crate::options::Options;
use crate::page::{Page, TextPage};
use crate::stream::{Given, Stream};
use crate::talk::Talk;
use crate::watch::Told;
use capn_stream::{Frame, StreamError};
use capn_trees::PayloadFault;
use look_names::Schema;
use look_pieces::Side;
use std::alloc::{AllocError, Global};
use std::io::{Read, Write};

/// What the next message of an end would be, and the size of its frame.
#[derive(Drop)]
pub(crate) struct Next {
    pub(crate) side: Side,
    pub(crate) told: Told,
    pub(crate) size: usize,
}

/// Puts a frame behind others, if there is one.
fn keep_frame(frames: &mut Vec<Frame>, frame: Option<Frame>) -> Result<(), AllocError>
    ensures kept { OnOk result (frames.new.items ≡ frames.old.items ++ option_to_list frame) }
    ensures whole { OnOk result (IfSome frame IsFrame) }
{
    match frame {
        Some(frame) => {
            // Its contract says that a frame is whole.
            let _whole = frame.bytes();
            frames.push(frame).map_err(AllocError::from)
        }
        None => Ok(()),
    }
}

/// No frame comes next of an end, behind so many.
fn end_cut<P: Page>(
    talk: &mut Talk,
    page: &mut P,
    side: Side,
    count: usize,
    fault: PayloadFault,
) -> Result<(), Failure>
    ensures { OnOk result (stand_of talk.new ≡ with_breach (stand_of talk.old)) }
{
    talk.watch.is_broken = true;
    page.say_cut(side, count, fault)
}

/// Cuts the bytes of an end into frames.
fn cut_frames<P: Page>(
    talk: &mut Talk,
    page: &mut P,
    side: Side,
    bytes: &[u8],
) -> Result<Vec<Frame>, Failure>
    ensures { IfOk result (λ frames. Cuts bytes.now (stand_of talk.old) frames.items (stand_of talk.new)) }
{
    let mut frames = Vec::new(talk.watch.alloc);
    let mut stream = Stream::new(talk.watch.alloc);
    let mut from = 0;
    'bytes: while from < bytes.len() {
        match stream.give(&bytes[from..]) {
            Ok(Given { count, frame }) => {
                keep_frame(&mut frames, frame)?;
                from += count;
            }
            Err(StreamError::Memory) => return Err(Failure::Memory),
            Err(StreamError::Fault(fault)) => {
                end_cut(talk, page, side, frames.len(), fault)?;
                return Ok(frames);
            }
        }
    }
    page.say_rest(side, stream.waiting())?;
    Ok(frames)
}

/// All that a reader gives.
pub(crate) fn read_all<R: Read>(alloc: Global, reader: &mut R) -> Result<Vec<u8>, Failure>
    ensures { IfOk result (λ bytes. IsInput (R.remaining reader.old) bytes.items) }
{
    let mut bytes = Vec::new(alloc);
    match reader.read_to_end(&mut bytes) {
        Ok(_) => Ok(bytes),
        Err(error) => Err(unreadable(&error)),
    }
}

/// Whether there is a message, and it may be said.
fn may_come(next: &Option<Next>) -> bool
    ensures { result ≡ may_come next.now }
{
    match next {
        Some(next) => !next.told.breaks(),
        None => false,
    }
}

/// The next message of an end, if one is left.
fn look_at(talk: &Talk, side: Side, left: &[Frame]) -> Result<Option<Next>, Failure>
    ensures { IfOk result (IsNextAt (stand_of talk.now) side left.now) }
{
    match left.split_first() {
        Some((frame, _behind)) => {
            let bytes = frame.bytes();
            let told = talk.watch.judge_frame(side, bytes)?;
            let size = bytes.len();
            Ok(Some(Next { side, told, size }))
        }
        None => Ok(None),
    }
}

/// The next message: of that end if it may be said, else of the other if that may be said; else of that end, or of the
/// other if that end has none.
fn choose(
    talk: &Talk,
    side: Side,
    mine: &[Frame],
    theirs: &[Frame],
) -> Result<Option<Next>, Failure>
    ensures { IfOk result (IsChosen (stand_of talk.now) side mine.now theirs.now) }
{
    let first = look_at(talk, side, mine)?;
    if may_come(&first) {
        return Ok(first);
    }
    let second = look_at(talk, side.other(), theirs)?;
    if first.is_none() {
        return Ok(second);
    }
    if may_come(&second) {
        return Ok(second);
    }
    Ok(first)
}

/// What is left of both ends.
#[derive(Clone, Copy)]
pub(crate) struct Left<'f> {
    pub(crate) client: &'f [Frame],
    pub(crate) server: &'f [Frame],
}

/// What is left behind the next frame.
fn behind_next(frames: &[Frame]) -> &[Frame]
    ensures { result.now ≡ behind_next frames.now }
{
    match frames.split_first() {
        Some((_frame, behind)) => behind,
        None => frames,
    }
}

impl<'f> Left<'f> {
    ghost use Rattle.std.specs.Prelude.{◌≡◌};
    ghost use Rattle.rpc_look_lib.specs.Weaving.{rest_in, rest_of, without_next};

    fn of(&self, side: Side) -> &'f [Frame]
        ensures { result.now ≡ rest_of (rest_in self.now) side }
    {
        match side {
            Side::Client => self.client,
            Side::Server => self.server,
        }
    }

    /// What is left behind the next frame of an end.
    fn behind(&self, side: Side) -> Left<'f>
        ensures { rest_in result ≡ without_next side (rest_in self.now) }
    {
        match side {
            Side::Client => Left {
                client: behind_next(self.client),
                server: self.server,
            },
            Side::Server => Left {
                client: self.client,
                server: behind_next(self.server),
            },
        }
    }
}

/// Says that no order makes sense, if that was not said before.
fn say_stuck<P: Page>(page: &mut P, is_stuck: bool, breaks: bool) -> Result<bool, Failure> {
    if is_stuck || !breaks {
        return Ok(is_stuck);
    }
    page.say_stuck()?;
    Ok(true)
}

/// The next message comes. Gives whether no order makes sense.
fn tell_next<P: Page>(
    talk: &mut Talk,
    page: &mut P,
    is_stuck: bool,
    next: Next,
) -> Result<bool, Failure>
    ensures { OnOk result (ComesAs (stand_of talk.old) next.side (moment_of (stand_of talk.old) None next.size) next.told (stand_of talk.new)) }
{
    let Next { side, told, size } = next;
    let is_stuck = say_stuck(page, is_stuck, told.breaks())?;
    talk.tell(page, side, None, size, told)?;
    Ok(is_stuck)
}

/// All messages come, of one end as long as they may be said.
fn weave<P: Page>(
    talk: &mut Talk,
    page: &mut P,
    at: Option<u64>,
    left: Left<'_>,
) -> Result<(), Failure>
    ensures { OnOk result (Woven at (stand_of talk.old) (rest_in left.entry) (stand_of talk.new)) }
{
    let mut left = left;
    let mut side = Side::Client;
    let mut is_stuck = false;
    'messages: loop {
        if talk.is_done(at) {
            return Ok(());
        }
        match choose(talk, side, left.of(side), left.of(side.other()))? {
            Some(next) => {
                side = next.side;
                left = left.behind(side);
                is_stuck = tell_next(talk, page, is_stuck, next)?;
            }
            None => return Ok(()),
        }
    }
}

/// Reads a conversation of which each end's bytes are given, up to the last message that is asked for, and says it on a page in
/// a possible order. Gives whether something breaks the protocol: if so, no order of the two makes sense.
///
/// `Unreadable` where a reader fails, `Memory` where a growth was refused, and what the page fails by.
pub fn read_two<R: Read, P: Page>(
    alloc: Global,
    at: Option<u64>,
    to: &mut R,
    from: &mut R,
    page: &mut P,
) -> Result<bool, Failure>
    ensures { IfOk result (LooksTwo at (R.remaining to.old) (R.remaining from.old)) }
{
    let mut talk = Talk::new(alloc);
    let sent = read_all(alloc, to)?;
    let answered = read_all(alloc, from)?;
    let client = cut_frames(&mut talk, page, Side::Client, sent.as_slice())?;
    let server = cut_frames(&mut talk, page, Side::Server, answered.as_slice())?;
    let left = Left {
        client: client.as_slice(),
        server: server.as_slice(),
    };
    weave(&mut talk, page, at, left)?;
    page.say_end(&talk.watch.books, talk.last)?;
    Ok(talk.watch.is_broken)
}

/// Tells, by the names of a schema if there is one, a conversation of which each end's bytes are given, in a possible order.
/// Gives whether something breaks the protocol: if so, no order of the two makes sense.
///
/// `Unreadable` where a reader fails, `Unwritten` where `out` fails, and `Memory` where a growth was refused.
pub fn look_two<R: Read, W: Write + Drop>(
    alloc: Global,
    options: Options,
    schema: Option<Schema>,
    to: &mut R,
    from: &mut R,
    out: W,
) -> Result<bool, Failure>
    ensures { IfOk result (LooksTwo options.at (R.remaining to.old) (R.remaining from.old)) }
{
    let at = options.at;
    if options.json {
        let mut page = JsonPage::new(alloc, options, schema, out);
        return read_two(alloc, at, to, from, &mut page);
    }
    let mut page = TextPage::new(alloc, options, schema, out);
    read_two(alloc, at, to, from, &mut page)
}
