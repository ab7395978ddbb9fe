ghost use Rattle.std.specs.Prelude.{◌≡◌, IfOk};
ghost use Rattle.rpc_msg.specs.Messages.{descriptors_of};

use crate::exception::Exception;
use crate::ids::{AnswerId, EmbargoId, ExportId, ImportId, QuestionId, Stamp};
use crate::items::Items;
use crate::parts::{Descriptor, Target};
use capn_wire::{Memory, Payload};
use std::alloc::Global;

/// Calls a method of an object (`Call`). A Return answers it.
///
/// Left out: `sendResultsTo` other than the caller (so tail calls), and the hints `allowThirdPartyTailCall`,
/// `noPromisePipelining` and `onlyPromisePipeline`.
#[derive(Drop)]
pub struct Call {
    /// A free id, by which later messages name the call (`questionId`).
    pub question: QuestionId,
    pub target: Target,
    /// The number of an interface, of which the object may have several (`interfaceId`).
    pub interface: u64,
    /// The number of a method of that interface (`methodId`).
    pub method: u16,
    /// The arguments (`params.content`). It goes with as many capabilities as there are descriptors.
    pub payload: Payload,
    /// The capabilities of the payload, by their indices in it (`params.capTable`).
    pub descriptors: Items<Descriptor>,
    /// Which call it is. It is no part of the standard.
    pub stamp: Stamp,
}

impl Call {
    /// The same Call, in memory of its own.
    #[inline(always)]
    pub fn copy(&self, alloc: Global) -> Result<Self, Memory>
        ensures { IfOk result (λ copy. copy ≡ self.now) }
    {
        let payload = self.payload.copy(alloc)?;
        let descriptors = self.descriptors.copy(alloc)?;
        Ok(Call {
            question: self.question,
            target: self.target,
            interface: self.interface,
            method: self.method,
            payload,
            descriptors,
            stamp: self.stamp,
        })
    }
}

/// What a Return says.
///
/// Left out: `resultsSentElsewhere`, `takeFromOtherQuestion` and `acceptFromThirdParty`, which belong to tail calls
/// and to level 3.
#[derive(Drop)]
pub enum ReturnBody {
    /// The results, and their capabilities by their indices in the payload (`results`). It goes with as many
    /// capabilities as there are descriptors.
    Results(Payload, Items<Descriptor>),
    /// The call failed (`exception`).
    Exception(Exception),
    /// The Finish came before the outcome (`canceled`). A Finish cancels no work here: the call goes on to its end,
    /// and so do calls that wait for its results; only its outcome is not told.
    Canceled,
}

impl ReturnBody {
    /// The same, in memory of its own.
    pub fn copy(&self, alloc: Global) -> Result<Self, Memory>
        ensures { IfOk result (λ copy. copy ≡ self.now) }
    {
        match self {
            ReturnBody::Results(payload, descriptors) => {
                let payload = payload.copy(alloc)?;
                let descriptors = descriptors.copy(alloc)?;
                Ok(ReturnBody::Results(payload, descriptors))
            }
            ReturnBody::Exception(exception) => {
                let exception = exception.copy(alloc)?;
                Ok(ReturnBody::Exception(exception))
            }
            ReturnBody::Canceled => Ok(ReturnBody::Canceled),
        }
    }
}

/// The outcome of a Call or a Bootstrap (`Return`). Each question gets one, also if its Finish came first, unless
/// it is sent back as Unimplemented.
///
/// Left out: `noFinishNeeded`. So a Finish is always sent, except for a question that came back Unimplemented.
#[derive(Drop)]
pub struct Return {
    /// The id of the question (`answerId`).
    pub answer: AnswerId,
    /// Whether the sender gives back what the Call gave it (`releaseParamCaps`): one reference for each descriptor of
    /// the Call that is of a sender kind, as by a Release of one. No Release is sent for those. A level 0 vat, which
    /// counts nothing, always says true. The schema's default is true; here the flag is always said.
    pub release_param_caps: bool,
    pub body: ReturnBody,
}

impl Return {
    /// The same Return, in memory of its own.
    #[inline(always)]
    pub fn copy(&self, alloc: Global) -> Result<Self, Memory>
        ensures { IfOk result (λ copy. copy ≡ self.now) }
    {
        let body = self.body.copy(alloc)?;
        Ok(Return {
            answer: self.answer,
            release_param_caps: self.release_param_caps,
            body,
        })
    }
}

/// The caller has no more use for an answer (`Finish`). From then on it sends no message that names the question,
/// neither as a target nor in a descriptor. It may be sent before the Return came; then the caller wants no outcome
/// any more, and calls that were sent to what the results give still go there.
///
/// Left out: `requireEarlyCancellationWorkaround`.
#[derive(Clone, Copy, Debug, PartialEq, Eq, Drop)]
pub struct Finish {
    /// `questionId`.
    pub question: QuestionId,
    /// Whether the sender gives back what the Return gave it (`releaseResultCaps`): one reference for each descriptor
    /// of the Return that is of a sender kind, as by a Release of one. No Release is sent for those. Of a Finish that
    /// comes before its Return was sent the flag gives back nothing here. A level 0 vat always says true. The
    /// schema's default is true; here the flag is always said.
    pub release_result_caps: bool,
}

/// What a promise was resolved to.
#[derive(Drop)]
pub enum ResolvedTo {
    /// What the promise stands for from now on (`cap`); it may be a promise again. It counts as in every message.
    Cap(Descriptor),
    /// The promise is broken (`exception`).
    Exception(Exception),
}

impl ResolvedTo {
    /// The same, in memory of its own.
    pub fn copy(&self, alloc: Global) -> Result<Self, Memory>
        ensures { IfOk result (λ copy. copy ≡ self.now) }
    {
        match self {
            ResolvedTo::Cap(descriptor) => Ok(ResolvedTo::Cap(*descriptor)),
            ResolvedTo::Exception(exception) => {
                let exception = exception.copy(alloc)?;
                Ok(ResolvedTo::Exception(exception))
            }
        }
    }
}

/// A promise of the sender was resolved (`Resolve`). It is sent once for each export that is a promise.
///
/// Whatever is still sent to the promise, its sender forwards to what it was resolved to, and never further, even if
/// that is a promise which has been resolved since. So a Disembargo comes back the way that the calls before it went.
/// The receiver may have given the promise back before the Resolve came. Then it gives back what the promise was
/// resolved to as well.
#[derive(Drop)]
pub struct Resolve {
    /// The sender's export id of the promise (`promiseId`). It adds nothing to the export's count.
    pub promise: ExportId,
    pub to: ResolvedTo,
}

impl Resolve {
    /// The same Resolve, in memory of its own.
    pub fn copy(&self, alloc: Global) -> Result<Self, Memory>
        ensures { IfOk result (λ copy. copy ≡ self.now) }
    {
        let to = self.to.copy(alloc)?;
        Ok(Resolve {
            promise: self.promise,
            to,
        })
    }
}

/// The sender gives back references to an export of the receiver (`Release`). The export goes when all that were
/// given came back; until then it stays, since more may be on their way to the sender.
#[derive(Clone, Copy, Debug, PartialEq, Eq, Drop)]
pub struct Release {
    /// `id`.
    pub export: ImportId,
    /// How many (`referenceCount`): at least one, and no more than were given and not given back.
    pub count: u32,
}

/// Which way a Disembargo goes (`context`). Left out: `accept` and `provide`, of level 3.
#[derive(Clone, Copy, Debug, PartialEq, Eq, Drop)]
pub enum DisembargoContext {
    /// On its way out, to a promise that is known to have been resolved to something of the sender's own.
    SenderLoopback(EmbargoId),
    /// On its way back, with the id with which it came.
    ReceiverLoopback(EmbargoId),
}

/// Follows the calls that were sent before to the same target, and comes back behind them (`Disembargo`).
///
/// A vat that knows that a promise of the other vat was resolved to something of its own sends one to the promise
/// before a reference takes the shorter path. Until it comes back the calls through that reference wait: that is the
/// embargo. So they overtake none that went the long way.
#[derive(Clone, Copy, Debug, PartialEq, Eq, Drop)]
pub struct Disembargo {
    /// On the way out the promise, which has to lead back to the sender. On the way back it is where that led.
    pub target: Target,
    pub context: DisembargoContext,
}

/// A message that is no Unimplemented.
#[derive(Drop)]
pub enum PlainMessage {
    /// The sender ends the connection, since it can't go on, and says why (`abort`). It sends nothing behind it, and
    /// it is not answered.
    Abort(Exception),
    /// Asks for the receiver's bootstrap object, by a free id (`bootstrap`). A Return answers it, whose payload is
    /// the capability itself; calls may be sent to that before it comes. If there is no such object it is an
    /// exception. Left out: the obsolete object id.
    Bootstrap(QuestionId),
    Call(Call),
    Return(Return),
    Finish(Finish),
    /// Level 1, as the two below: a level 0 vat sends none of the three, and sends each back as Unimplemented.
    Resolve(Resolve),
    Release(Release),
    Disembargo(Disembargo),
    /// A message of another level, by its number in the union (`provide`, `accept`, `join`, and what is obsolete or
    /// newer). It is sent back as Unimplemented, and the connection goes on.
    Other(u16),
}

impl PlainMessage {
    /// The same message, in memory of its own.
    pub fn copy(&self, alloc: Global) -> Result<Self, Memory>
        ensures { IfOk result (λ copy. copy ≡ self.now) }
    {
        match self {
            PlainMessage::Abort(exception) => {
                let exception = exception.copy(alloc)?;
                Ok(PlainMessage::Abort(exception))
            }
            PlainMessage::Bootstrap(question) => Ok(PlainMessage::Bootstrap(*question)),
            PlainMessage::Call(call) => {
                let call = call.copy(alloc)?;
                Ok(PlainMessage::Call(call))
            }
            PlainMessage::Return(said) => {
                let said = said.copy(alloc)?;
                Ok(PlainMessage::Return(said))
            }
            PlainMessage::Finish(finish) => Ok(PlainMessage::Finish(*finish)),
            PlainMessage::Resolve(resolve) => {
                let resolve = resolve.copy(alloc)?;
                Ok(PlainMessage::Resolve(resolve))
            }
            PlainMessage::Release(release) => Ok(PlainMessage::Release(*release)),
            PlainMessage::Disembargo(disembargo) => Ok(PlainMessage::Disembargo(*disembargo)),
            PlainMessage::Other(number) => Ok(PlainMessage::Other(*number)),
        }
    }
}

/// A message between two vats (`Message`).
#[derive(Drop)]
pub enum Message {
    Plain(PlainMessage),
    /// A message that the sender received and did not understand, sent back as it was (`unimplemented`). The vat that
    /// gets its own message back goes on as if it had done nothing: a question has failed, what a Resolve named is
    /// given back, of a Release nothing is needed. If nothing sensible can be done the connection ends. By its
    /// type it holds no Unimplemented, though the schema would let it.
    Unimplemented(PlainMessage),
}

impl Message {
    /// The descriptors of a Call, a Return or a Resolve, in order; of another message none. Takes no memory.
    pub fn descriptors(&self) -> &[Descriptor]
        ensures { result.now ≡ descriptors_of self.now }
    {
        match self {
            Message::Plain(PlainMessage::Call(call)) => call.descriptors.as_slice(),
            Message::Plain(PlainMessage::Return(said)) => match &said.body {
                ReturnBody::Results(_, descriptors) => descriptors.as_slice(),
                _ => &[],
            },
            Message::Plain(PlainMessage::Resolve(resolve)) => match &resolve.to {
                ResolvedTo::Cap(descriptor) => std::slice::from_ref(descriptor),
                ResolvedTo::Exception(_) => &[],
            },
            _ => &[],
        }
    }

    /// The same message, in memory of its own.
    pub fn copy(&self, alloc: Global) -> Result<Self, Memory>
        ensures { IfOk result (λ copy. copy ≡ self.now) }
    {
        match self {
            Message::Plain(plain) => {
                let plain = plain.copy(alloc)?;
                Ok(Message::Plain(plain))
            }
            Message::Unimplemented(plain) => {
                let plain = plain.copy(alloc)?;
                Ok(Message::Unimplemented(plain))
            }
        }
    }
}
