//! The outcome of a tail call, as it stands in the Return that takes it.
ghost use Rattle.std.specs.Prelude.{◌≡◌, IfOk};
ghost use Rattle.rpc_msg.specs.Payloads.{tree_of};
ghost use Rattle.peer_tail_calls.specs.Turning.{turned, turned_all, turned_one, turned_results, not_named};

use crate::paths::shortest_paths;
use rpc_msg::{
    AnswerId, Descriptor, Exception, ExceptionKind, Items, Memory, Path, Payload, ReturnBody, Text,
};
use std::alloc::Global;

/// The outcome of that answer, as the Return that takes it says it to the vat.
pub(crate) fn turn(alloc: Global, answer: AnswerId, body: &ReturnBody) -> Result<ReturnBody, Memory>
    ensures { IfOk result (λ made. made ≡ turned answer body.now) }
{
    match body {
        ReturnBody::Results(payload, descriptors) => {
            turn_results(alloc, answer, payload, descriptors)
        }
        ReturnBody::Exception(exception) => {
            let exception = exception.copy(alloc)?;
            Ok(ReturnBody::Exception(exception))
        }
        ReturnBody::Canceled => Ok(ReturnBody::Canceled),
    }
}

fn turn_results(
    alloc: Global,
    answer: AnswerId,
    payload: &Payload,
    descriptors: &Items<Descriptor>,
) -> Result<ReturnBody, Memory>
    ensures { IfOk result (λ made. made ≡ turned_results answer payload.now descriptors.now) }
{
    let turned = turn_all(alloc, answer, payload, descriptors)?;
    match turned {
        None => exception(alloc),
        Some(turned) => {
            let payload = payload.copy(alloc)?;
            Ok(ReturnBody::Results(payload, turned))
        }
    }
}

fn exception(alloc: Global) -> Result<ReturnBody, Memory>
    ensures { IfOk result (λ made. made ≡ not_named) }
{
    let reason = Text::new(alloc, "a capability in a list of a tail call")?;
    Ok(ReturnBody::Exception(Exception {
        kind: ExceptionKind::Failed,
        reason,
    }))
}

// The descriptors turned, or none if one can't be.
fn turn_all(
    alloc: Global,
    answer: AnswerId,
    payload: &Payload,
    descriptors: &[Descriptor],
) -> Result<Option<Items<Descriptor>>, Memory>
    ensures { IfOk result (λ made. made ≡ turned_all answer (tree_of payload.now) 0 descriptors.now) }
{
    let found = shortest_paths(alloc, payload, descriptors.len())?;
    let mut turned = Vec::with_capacity(alloc, descriptors.len())?;
    for index in 0..descriptors.len() {
        let Some(descriptor) = turn_one(answer, descriptors[index], found[index]) else {
            return Ok(None);
        };
        turned.push(descriptor)?;
    }
    Ok(Some(Items::from_vec(turned)))
}

fn turn_one(answer: AnswerId, descriptor: Descriptor, path: Option<Path>) -> Option<Descriptor>
    ensures { result ≡ turned_one answer path descriptor }
{
    if let Some(path) = path {
        return Some(Descriptor::ReceiverAnswer(answer, path));
    }
    match descriptor {
        Descriptor::None => Some(Descriptor::None),
        Descriptor::SenderHosted(export) | Descriptor::SenderPromise(export) => {
            Some(Descriptor::ReceiverHosted(export))
        }
        Descriptor::ReceiverHosted(_) | Descriptor::ReceiverAnswer(_, _) => None,
    }
}
