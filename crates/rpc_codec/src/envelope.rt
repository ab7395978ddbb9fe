//! What a frame says.
ghost use Rattle.std.specs.Prelude.{◌≡◌};
ghost use Rattle.rpc_codec.specs.Envelopes.{what_of, plain_of, seen_envelope};

use capn_trees::Tree;
use rpc_msg::{AnswerId, Call, Message, PlainMessage, QuestionId};

/// What came in a frame (`Message` of `rpc.capnp`).
#[derive(Drop)]
pub enum Envelope {
    /// A message of the profile. It is never `Plain(Other(_))`. `Unimplemented(Other(n))` is an Unimplemented of
    /// something that is no message of the profile, n its number in the union.
    Message(Message),
    /// A Call whose results the receiver is to keep for a later message (`sendResultsTo.yourself`).
    TailCall(Call),
    /// A Return that says that the results of a tail call were kept (`resultsSentElsewhere`).
    SentElsewhere(SentElsewhere),
    /// A Return whose results are those of a question of the receiver (`takeFromOtherQuestion`).
    TakenFromOther(TakenFromOther),
    /// Anything else, of which nothing is taken.
    Unknown(Unknown),
}

/// A Return with `resultsSentElsewhere`.
#[derive(Clone, Copy, Debug, PartialEq, Eq, Drop)]
pub struct SentElsewhere {
    /// `answerId`.
    pub answer: AnswerId,
    /// `releaseParamCaps`.
    pub release_param_caps: bool,
}

/// A Return with `takeFromOtherQuestion`.
#[derive(Clone, Copy, Debug, PartialEq, Eq, Drop)]
pub struct TakenFromOther {
    /// `answerId`.
    pub answer: AnswerId,
    /// `releaseParamCaps`.
    pub release_param_caps: bool,
    /// The question of the receiver whose results it takes (`takeFromOtherQuestion`).
    pub question: QuestionId,
}

/// A message that is not understood, whole.
#[derive(Drop)]
pub struct Unknown {
    /// Its number in the union.
    pub number: u16,
    /// The message, to be sent back in an Unimplemented.
    pub original: Tree,
}

/// What is understood of a message that is no Unimplemented.
#[derive(Drop)]
pub(crate) enum Known {
    Plain(PlainMessage),
    TailCall(Call),
    SentElsewhere(SentElsewhere),
    TakenFromOther(TakenFromOther),
}

impl Known {
    pub(crate) fn into_envelope(self) -> Envelope
        ensures { seen_envelope result ≡ what_of self }
    {
        match self {
            Known::Plain(message) => Envelope::Message(Message::Plain(message)),
            Known::TailCall(call) => Envelope::TailCall(call),
            Known::SentElsewhere(said) => Envelope::SentElsewhere(said),
            Known::TakenFromOther(said) => Envelope::TakenFromOther(said),
        }
    }

    /// What came back in an Unimplemented, with its number.
    pub(crate) fn into_plain(self, number: u16) -> PlainMessage
        ensures { result ≡ plain_of number self }
    {
        match self {
            Known::Plain(message) => message,
            Known::TailCall(call) => PlainMessage::Call(call),
            Known::SentElsewhere(_) | Known::TakenFromOther(_) => PlainMessage::Other(number),
        }
    }
}
