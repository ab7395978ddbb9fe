//! A conversation is judged frame by frame.
ghost use Rattle.std.specs.Prelude.{◌≡◌, ◌||◌, false, IfOk, OnOk};
ghost use Rattle.look_pieces.specs.Pieces.{other_side};
ghost use Rattle.rpc_codec.specs.Envelopes.{seen_envelope};
ghost use Rattle.rpc_codec.specs.Decoding.{Decodes};
ghost use Rattle.look_books.specs.Ends.{kept_of};
ghost use Rattle.look_books.specs.After.{Are, unsaid};
ghost use Rattle.rpc_look_lib.specs.Watching.{known, what_in, heading_in, kept_by, IsJudged, IsSaid, behind, is_some_breach, breaks};

use capn_trees::Tree;
use look_books::{Books, Breach, Found, Kind, Moment};
use look_pieces::Side;
use rpc_codec::{DecodeError, Envelope, EnvelopeFault, Heading, Unknown, decode, read_heading};
use rpc_msg::{Memory, RefId, Stamp, Vat};
use std::alloc::Global;

/// No bytes have a stamp, and no line says this one.
const NO_STAMP: Stamp = Stamp {
    vat: Vat::A,
    reference: RefId(0),
    index: 0,
};

/// A message, and what is to be said of it.
#[derive(Drop)]
pub struct Judged {
    /// What it says.
    pub envelope: Envelope,
    /// What it says of questions.
    pub heading: Heading,
    /// What breaks the protocol, and what is odd.
    pub found: Found,
}

/// What a frame is.
#[derive(Drop)]
pub enum Told {
    /// A message.
    Message(Judged),
    /// It is no message.
    None(EnvelopeFault),
}

/// The books of a conversation, and whether something in it broke the protocol.
#[derive(Drop)]
pub(crate) struct Watch {
    pub(crate) alloc: Global,
    pub(crate) books: Books,
    pub(crate) is_broken: bool,
}

/// What a frame says. A Return of no known kind answers its question all the same: it is kept without its content.
fn envelope_of(alloc: Global, frame: &[u8]) -> Result<Envelope, DecodeError>
    ensures { Decodes seen_envelope result (known (what_in frame.now)) }
{
    match decode(alloc, frame, NO_STAMP) {
        Ok(envelope) => Ok(envelope),
        Err(DecodeError::Fault(EnvelopeFault::UnknownReturn)) => Ok(Envelope::Unknown(Unknown {
            number: Kind::Return.number(),
            original: Tree::Null,
        })),
        Err(error) => Err(error),
    }
}

fn heading_of(frame: &[u8]) -> Heading
    ensures { result ≡ heading_in frame.now }
{
    match read_heading(frame) {
        Ok(heading) => heading,
        Err(_) => Heading::Other,
    }
}

fn is_some_breach(breaches: &[Breach]) -> bool
    ensures { result ≡ is_some_breach breaches.now }
{
    !breaches.is_empty()
}

impl Told {
    ghost use Rattle.std.specs.Prelude.{◌≡◌};
    ghost use Rattle.rpc_look_lib.specs.Watching.{breaks};

    /// Whether it breaks the protocol: if something was found that does, or if it is no message.
    pub fn breaks(&self) -> bool
        ensures { result ≡ breaks self.now }
    {
        match self {
            Told::Message(judged) => is_some_breach(judged.found.breaches.as_slice()),
            Told::None(_) => true,
        }
    }
}

fn either(one: bool, other: bool) -> bool
    ensures { result ≡ (one || other) }
{
    one || other
}

/// A frame is taken into the books.
fn take_told(books: &mut Books, side: Side, moment: Moment, told: Told) -> Result<(), Memory>
    ensures { OnOk result (Are (behind (kept_by books.old) side moment told) (kept_by books.new side) (kept_by books.new (other_side side))) }
{
    match told {
        Told::Message(judged) => {
            let Judged {
                envelope,
                heading,
                found: _,
            } = judged;
            books.take(side, moment, envelope, heading)
        }
        Told::None(_fault) => {
            books.take_none(side, moment.size);
            Ok(())
        }
    }
}

impl Watch {
    /// Nothing was said.
    pub(crate) fn new(alloc: Global) -> Watch
        ensures { (kept_of result.books.client ≡ unsaid) × (kept_of result.books.server ≡ unsaid) × (result.is_broken ≡ false) }
    {
        Watch {
            alloc,
            books: Books::new(alloc),
            is_broken: false,
        }
    }

    /// What a frame of an end says, and what is to be said of it, if it comes next.
    pub(crate) fn judge_frame(&self, side: Side, frame: &[u8]) -> Result<Told, Memory>
        ensures said { IfOk result (IsSaid frame.now) }
        ensures judged { IfOk result (IsJudged (kept_by self.now.books) side) }
    {
        let envelope = match envelope_of(self.alloc, frame) {
            Ok(envelope) => envelope,
            Err(DecodeError::Memory) => return Err(Memory),
            Err(DecodeError::Fault(fault)) => return Ok(Told::None(fault)),
        };
        let heading = heading_of(frame);
        let found = self.books.judge(side, &envelope, heading)?;
        Ok(Told::Message(Judged {
            envelope,
            heading,
            found,
        }))
    }

    /// A frame comes, and is taken into the books.
    pub(crate) fn take(&mut self, side: Side, moment: Moment, told: Told) -> Result<(), Memory>
        ensures kept { OnOk result (Are (behind (kept_by self.old.books) side moment told) (kept_by self.new.books side) (kept_by self.new.books (other_side side))) }
        ensures noted { self.new.is_broken ≡ (self.old.is_broken || breaks told) }
    {
        self.is_broken = either(self.is_broken, told.breaks());
        take_told(&mut self.books, side, moment, told)
    }
}
