// What is called on a handle, beside the streams and the events.
use crate::calls::{lovendak_bootstrap, lovendak_call, lovendak_finish};
use crate::handle::Handle;
use crate::life::{lovendak_free, lovendak_new, lovendak_shut};
use crate::promises::{lovendak_promise, lovendak_reject, lovendak_resolve};
use crate::queries::{
    lovendak_calls_made, lovendak_down, lovendak_leads_to, lovendak_shares_nothing,
    lovendak_table_sizes,
};
use crate::refs::{
    lovendak_advance, lovendak_clone_ref, lovendak_drop_ref, lovendak_field, lovendak_host,
    lovendak_result_of,
};
use crate::streams::{
    lovendak_ended, lovendak_load, lovendak_pending, lovendak_set_finishes, lovendak_set_limits,
    lovendak_wants_bytes,
};
use crate::tasks::{lovendak_answer, lovendak_fail};
use crate::tests::UNTOUCHED;
use crate::tests::payloads::{NULL, payload};
use lovendak_c_desk::Lead;
use std::alloc::Global;

/// A call with what it takes.
#[derive(Clone, Copy)]
pub(crate) enum Call {
    New(u32, u32, u64),
    Free,
    Bootstrap,
    ResultOf(u64),
    /// What stands at this pointer of what a call gives.
    Field(u64, u16),
    Host(u64),
    CloneRef(u64),
    /// Gives the number of the reference.
    Promise,
    /// A call of interface 8 and method 3, with so many capabilities.
    Call(u64, u32, &'static [u64]),
    CallsMade(u64),
    Advance(u64),
    Down,
    SharesNothing,
    /// Answers a task with null.
    Answer(u64),
    Fail(u64, u32, &'static [u8]),
    DropRef(u64),
    Finish(u64),
    Resolve(u64, u64),
    Reject(u64, u32, &'static [u8]),
    Shut(u32),
    Ended,
    SetLimits(u64, u64),
    /// Gives the words.
    Load,
    WantsBytes,
    /// Whether there is an event.
    HasEvent,
    /// The number of the place.
    LeadsTo(u64),
    /// How many questions there are.
    Questions,
    SetFinishes(u32),
}

/// The code that a call answers, and the number that it gives.
pub(crate) fn answer(alloc: Global, vat: &mut Handle, call: Call) -> (u32, u64) {
    match call {
        Call::New(level, has_root, root) => {
            (lovendak_new(alloc, vat, level, has_root, root), UNTOUCHED)
        }
        Call::Free => (lovendak_free(alloc, vat), UNTOUCHED),
        Call::Advance(_) | Call::Down | Call::SharesNothing | Call::WantsBytes | Call::HasEvent =>
            queried(alloc, vat, call),
        Call::LeadsTo(reference) => leads_to(alloc, vat, reference),
        Call::Questions => questions(alloc, vat),
        Call::Answer(_)
        | Call::Fail(..)
        | Call::DropRef(_)
        | Call::Finish(_)
        | Call::Resolve(..)
        | Call::Reject(..)
        | Call::Shut(_)
        | Call::Ended
        | Call::SetFinishes(_)
        | Call::SetLimits(..) => (settled(alloc, vat, call), UNTOUCHED),
        _ => asked(alloc, vat, call),
    }
}

fn asked(alloc: Global, vat: &mut Handle, call: Call) -> (u32, u64) {
    let mut number = UNTOUCHED;
    let code = match call {
        Call::Bootstrap => lovendak_bootstrap(alloc, vat, &mut number),
        Call::ResultOf(call) => lovendak_result_of(alloc, vat, call, &mut number),
        Call::Field(call, step) => lovendak_field(alloc, vat, call, &[step], &mut number),
        Call::Host(object) => lovendak_host(alloc, vat, object, &mut number),
        Call::CloneRef(reference) => lovendak_clone_ref(alloc, vat, reference, &mut number),
        Call::Promise => lovendak_promise(alloc, vat, &mut 0, &mut number),
        Call::Call(reference, caps, refs) => {
            calls(alloc, vat, reference, caps, refs, &mut number)
        }
        Call::CallsMade(reference) => lovendak_calls_made(alloc, vat, reference, &mut number),
        Call::Load => lovendak_load(alloc, vat, &mut number, &mut 0),
        _ => 0,
    };
    (code, number)
}

fn calls(
    alloc: Global,
    vat: &mut Handle,
    reference: u64,
    caps: u32,
    refs: &[u64],
    number: &mut u64,
) -> u32 {
    let mut bytes = [0; 200];
    let given = payload(alloc, caps, &mut bytes);
    lovendak_call(alloc, vat, reference, 8, 3, given, refs, number)
}

fn queried(alloc: Global, vat: &mut Handle, call: Call) -> (u32, u64) {
    let mut number = 99;
    let code = match call {
        Call::Advance(reference) => lovendak_advance(alloc, vat, reference, &mut number),
        Call::Down => lovendak_down(alloc, vat, &mut number),
        Call::WantsBytes => lovendak_wants_bytes(alloc, vat, &mut number),
        Call::HasEvent => lovendak_pending(alloc, vat, &mut 0, &mut number),
        _ => lovendak_shares_nothing(alloc, vat, &mut number),
    };
    (code, u64::from(number))
}

fn leads_to(alloc: Global, vat: &mut Handle, reference: u64) -> (u32, u64) {
    let mut lead = Lead {
        kind: 0,
        is_embargoed: 0,
        is_promise: 0,
        reason: 0,
        number: UNTOUCHED,
    };
    let code = lovendak_leads_to(alloc, vat, reference, &mut lead);
    (code, lead.number)
}

fn questions(alloc: Global, vat: &mut Handle) -> (u32, u64) {
    let mut questions = 99;
    let code = lovendak_table_sizes(alloc, vat, &mut questions, &mut 0, &mut 0, &mut 0);
    (code, questions as u64)
}

fn settled(alloc: Global, vat: &mut Handle, call: Call) -> u32 {
    match call {
        Call::Answer(task) => lovendak_answer(alloc, vat, task, &NULL, &[]),
        Call::SetLimits(words, bytes) => lovendak_set_limits(alloc, vat, words, bytes),
        Call::Fail(task, kind, reason) => lovendak_fail(alloc, vat, task, kind, reason),
        Call::DropRef(reference) => lovendak_drop_ref(alloc, vat, reference),
        Call::Finish(call) => lovendak_finish(alloc, vat, call),
        Call::Resolve(promise, reference) => lovendak_resolve(alloc, vat, promise, reference),
        Call::Reject(promise, kind, reason) => lovendak_reject(alloc, vat, promise, kind, reason),
        Call::Shut(number) => lovendak_shut(alloc, vat, number),
        Call::SetFinishes(when) => lovendak_set_finishes(alloc, vat, when),
        _ => lovendak_ended(alloc, vat),
    }
}
