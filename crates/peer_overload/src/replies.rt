//! What is said of a refused question.
ghost use Rattle.std.specs.Prelude.{◌≡◌, IfOk};
ghost use Rattle.peer_overload.specs.Overloading.{overloaded, return_to, too_many};

use rpc_codec::TakenFromOther;
use rpc_msg::{
    AnswerId, Exception, ExceptionKind, Memory, Message, PlainMessage, Return, ReturnBody, Text,
};
use std::alloc::Global;

/// The Return of a refused question, for the peer: an exception (`overloaded`, `too many calls`), with a true flag, since the
/// vat has seen nothing that the question gave.
pub fn overloaded(alloc: Global, answer: AnswerId) -> Result<Message, Memory>
    ensures { IfOk result (λ made. made ≡ overloaded answer) }
{
    let body = too_many(alloc)?;
    Ok(Message::Plain(PlainMessage::Return(Return {
        answer,
        release_param_caps: true,
        body,
    })))
}

/// The Return that takes the refusal of a tail call, for the vat.
pub(crate) fn return_to(alloc: Global, taken: TakenFromOther) -> Result<PlainMessage, Memory>
    ensures { IfOk result (λ made. made ≡ return_to taken) }
{
    let body = too_many(alloc)?;
    Ok(PlainMessage::Return(Return {
        answer: taken.answer,
        release_param_caps: taken.release_param_caps,
        body,
    }))
}

fn too_many(alloc: Global) -> Result<ReturnBody, Memory>
    ensures { IfOk result (λ made. made ≡ too_many) }
{
    let reason = Text::new(alloc, "too many calls")?;
    Ok(ReturnBody::Exception(Exception {
        kind: ExceptionKind::Overloaded,
        reason,
    }))
}
