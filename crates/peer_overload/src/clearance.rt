//! Messages in which what a refused question was to give is no capability.
ghost use Rattle.std.specs.Prelude.{◌≡◌};
ghost use Rattle.peer_overload.specs.Overloading.{cleared, cleared_all, cleared_body, cleared_call, cleared_resolve, cleared_return, cleared_to};

use crate::refusals::Refusals;
use rpc_msg::{Call, Descriptor, Items, Resolve, ResolvedTo, Return, ReturnBody};

pub(crate) fn clear_call(refused: &Refusals, call: Call) -> Call
    ensures { result ≡ cleared_call refused.now call }
{
    let Call {
        question,
        target,
        interface,
        method,
        payload,
        descriptors,
        stamp,
    } = call;
    let descriptors = clear_all(refused, descriptors);
    Call {
        question,
        target,
        interface,
        method,
        payload,
        descriptors,
        stamp,
    }
}

pub(crate) fn clear_return(refused: &Refusals, said: Return) -> Return
    ensures { result ≡ cleared_return refused.now said }
{
    let Return {
        answer,
        release_param_caps,
        body,
    } = said;
    let body = clear_body(refused, body);
    Return {
        answer,
        release_param_caps,
        body,
    }
}

fn clear_body(refused: &Refusals, body: ReturnBody) -> ReturnBody
    ensures { result ≡ cleared_body refused.now body }
{
    match body {
        ReturnBody::Results(payload, descriptors) => {
            ReturnBody::Results(payload, clear_all(refused, descriptors))
        }
        _ => body,
    }
}

pub(crate) fn clear_resolve(refused: &Refusals, resolve: Resolve) -> Resolve
    ensures { result ≡ cleared_resolve refused.now resolve }
{
    let Resolve { promise, to } = resolve;
    let to = clear_to(refused, to);
    Resolve { promise, to }
}

fn clear_to(refused: &Refusals, to: ResolvedTo) -> ResolvedTo
    ensures { result ≡ cleared_to refused.now to }
{
    match to {
        ResolvedTo::Cap(descriptor) => ResolvedTo::Cap(clear(refused, descriptor)),
        ResolvedTo::Exception(_) => to,
    }
}

fn clear_all(refused: &Refusals, descriptors: Items<Descriptor>) -> Items<Descriptor>
    ensures { result ≡ cleared_all refused.now descriptors }
{
    let mut descriptors = descriptors.into_vec();
    clear_each(refused, &mut descriptors);
    Items::from_vec(descriptors)
}

fn clear_each(refused: &Refusals, descriptors: &mut [Descriptor])
    ensures { descriptors.new ≡ cleared_all refused.now descriptors.old }
{
    for at in 0..descriptors.len() {
        descriptors[at] = clear(refused, descriptors[at]);
    }
}

fn clear(refused: &Refusals, descriptor: Descriptor) -> Descriptor
    ensures { result ≡ cleared refused.now descriptor }
{
    match descriptor {
        Descriptor::ReceiverAnswer(question, _) if refused.has(question) => Descriptor::None,
        _ => descriptor,
    }
}
