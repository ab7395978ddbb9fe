//! The part that a message of the vat has in one of its questions.
ghost use Rattle.rpc_msg.specs.declared.message.Message.TheVariants as message;
ghost use Rattle.peer_adapter.specs.Peering.{IsRole};

use rpc_msg::{Finish, Message, PlainMessage, QuestionId};

/// The part that a message has in a question of the vat.
#[derive(Clone, Copy, Debug, PartialEq, Eq, Drop)]
pub(crate) enum Role {
    /// It asks the question: a Call or a Bootstrap.
    Asks(QuestionId),
    /// It is its Finish.
    Finishes(Finish),
    /// It has none.
    Other,
}

/// The part of a message.
pub(crate) fn role_of(message: &Message) -> Role
    ensures { IsRole message.now result }
{
    match message {
        Message::Plain(message) => plain_role(message),
        Message::Unimplemented(_) => Role::Other,
    }
}

fn plain_role(said: &PlainMessage) -> Role
    ensures { IsRole (message.Plain said.now) result }
{
    match said {
        PlainMessage::Bootstrap(question) => Role::Asks(*question),
        PlainMessage::Call(call) => Role::Asks(call.question),
        PlainMessage::Finish(finish) => Role::Finishes(*finish),
        _ => Role::Other,
    }
}
