//! What gives back the names of a message.
ghost use Rattle.std.specs.Prelude.{◌≡◌, Bool};
ghost use Rattle.rpc_codec.specs.Envelopes.{seen_envelope};
ghost use Rattle.rpc_msg.specs.declared.ids.QuestionId.{QuestionId};
ghost use Rattle.peer_broken.specs.Naming.{Tells, due_by, due_of_message, due_of_plain, unless_finished};

use rpc_codec::Envelope;
use rpc_msg::{AnswerId, Message, PlainMessage, QuestionId};

/// What gives them back.
#[derive(Clone, Copy, Debug, PartialEq, Eq, Drop)]
pub(crate) enum Due {
    /// A Release, at once.
    AtOnce,
    /// The Return of the vat for that answer, or a Release beside it.
    ByReturn(AnswerId),
    /// The Finish of that question of the vat, or a Release beside it.
    ByFinish(QuestionId),
}

/// What gives back the names of what came, unless the Finish that would was sent.
pub(crate) fn due_by(came: &Envelope) -> Due
    ensures { result ≡ due_by (seen_envelope came.now) }
{
    match came {
        Envelope::Message(message) => due_of_message(message),
        Envelope::TailCall(call) => Due::ByReturn(call.question),
        _ => Due::AtOnce,
    }
}

fn due_of_message(message: &Message) -> Due
    ensures { result ≡ due_of_message message.now }
{
    match message {
        Message::Plain(message) => due_of_plain(message),
        Message::Unimplemented(_) => Due::AtOnce,
    }
}

fn due_of_plain(message: &PlainMessage) -> Due
    ensures { result ≡ due_of_plain message.now }
{
    match message {
        PlainMessage::Call(call) => Due::ByReturn(call.question),
        PlainMessage::Return(said) => Due::ByFinish(said.answer),
        _ => Due::AtOnce,
    }
}

/// The same, and at once if that Finish was sent.
pub(crate) fn unless_finished<F: Fn(QuestionId) -> bool>(due: Due, is_finished: &F) -> Due
    requires { F.IsAlwaysCallable is_finished.now }
    ensures { (finished : QuestionId → Bool) → Tells (F.post is_finished.now) finished → result ≡ unless_finished finished due }
{
    match due {
        Due::ByFinish(question) => {
            if is_finished(question) {
                return Due::AtOnce;
            }
            due
        }
        _ => due,
    }
}
