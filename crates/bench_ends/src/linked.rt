//! Two vats at the ends of a link, and what a step of one leaves to do.
ghost use Rattle.std.specs.Prelude.{IfOk};
ghost use Rattle.rpc_msg.specs.declared.ids.Vat.TheVariants.{A, B};
ghost use Rattle.link_ends.specs.Ends.{IsNewCore};

use crate::astray::Astray;
use link_ends::{EndA, EndB, Turn, VatEnd, link};
use rpc_machine::{CallCommand, Effects, Level};
use rpc_msg::{CallId, Items, ObjectId, Payload, RefId, TaskId, Vat};
use std::alloc::Global;
use vat_core::Core;

/// The ends of two new vats, over rings of that many places; B has a bootstrap object.
pub(crate) fn linked(alloc: Global, places: usize) -> Result<(EndA, EndB), Astray> {
    let a = new_a(alloc)?;
    let b = new_b(alloc)?;
    match link(alloc, a, b, places) {
        Ok(ends) => Ok(ends),
        Err((fault, _, _)) => Err(Astray::NoLink(fault)),
    }
}

fn new_a(alloc: Global) -> Result<Core, Astray>
    ensures { IfOk result (λ core. IsNewCore A core) }
{
    let core = Core::new(alloc, Vat::A, Level::One, None)?;
    if !core.is_new() {
        return Err(Astray::Otherwise);
    }
    Ok(core)
}

fn new_b(alloc: Global) -> Result<Core, Astray>
    ensures { IfOk result (λ core. IsNewCore B core) }
{
    let core = Core::new(alloc, Vat::B, Level::One, Some(ObjectId(0)))?;
    if !core.is_new() {
        return Err(Astray::Otherwise);
    }
    Ok(core)
}

/// What a step left to do: the call that came, the call that ended, and the first reference of its results.
#[derive(Clone, Copy, Drop)]
pub(crate) struct Done {
    pub(crate) task: Option<TaskId>,
    pub(crate) ended: Option<CallId>,
    pub(crate) given: Option<RefId>,
}

/// Looks at the effects of a step, gives their memory back, and sends what waits.
#[inline(always)]
pub(crate) fn did<V>(end: &mut VatEnd<V>, effects: Effects) -> Done {
    let task = match effects.deliveries.as_slice() {
        [delivery, ..] => Some(delivery.task),
        [] => None,
    };
    let (ended, given) = match effects.answers.as_slice() {
        [call, ..] => (Some(call.call), call.refs.first().copied()),
        [] => (None, None),
    };
    end.recycle(effects);
    end.flush();
    Done { task, ended, given }
}

/// A turn, or nothing if no frame is there.
#[inline(always)]
pub(crate) fn turn<V>(end: &mut VatEnd<V>) -> Result<Option<Done>, Astray> {
    match end.turn() {
        Turn::Handled(effects) => Ok(Some(did(end, effects))),
        Turn::Idle => Ok(None),
        Turn::Down(number) => Err(Astray::Down(number)),
    }
}

/// A turn that finds a frame.
#[inline(always)]
pub(crate) fn taken<V>(end: &mut VatEnd<V>) -> Result<Done, Astray> {
    match turn(end)? {
        Some(done) => Ok(done),
        None => Err(Astray::NoFrame),
    }
}

/// A call with the null payload, whose copies share its bytes.
#[inline(always)]
pub(crate) fn call<V>(
    end: &mut VatEnd<V>,
    alloc: Global,
    null: &Payload,
    reference: RefId,
) -> Result<CallId, Astray> {
    let call = CallCommand {
        reference,
        interface: 0,
        method: 0,
        payload: null.copy(alloc)?,
        refs: Items::new(alloc),
    };
    match end.call(call) {
        Ok((call, effects)) => {
            let _ = did(end, effects);
            Ok(call)
        }
        Err(refused) => Err(Astray::Refused(refused.refusal)),
    }
}

#[inline(always)]
pub(crate) fn answer<V>(
    end: &mut VatEnd<V>,
    alloc: Global,
    null: &Payload,
    task: TaskId,
) -> Result<(), Astray> {
    match end.answer(task, null.copy(alloc)?, Items::new(alloc)) {
        Ok(effects) => {
            let _ = did(end, effects);
            Ok(())
        }
        Err(refused) => Err(Astray::Refused(refused.refusal)),
    }
}

#[inline(always)]
pub(crate) fn finish<V>(end: &mut VatEnd<V>, call: CallId) -> Result<(), Astray> {
    let effects = end.finish(call)?;
    let _ = did(end, effects);
    Ok(())
}

/// Vat a comes to hold a reference to the other's bootstrap object; one thread drives both.
pub(crate) fn meet(a: &mut EndA, b: &mut EndB) -> Result<RefId, Astray> {
    let (_, effects) = a.bootstrap()?;
    let _ = did(a, effects);
    taken(b)?;
    let done = taken(a)?;
    let (Some(call), Some(root)) = (done.ended, done.given) else {
        return Err(Astray::Otherwise);
    };
    finish(a, call)?;
    taken(b)?;
    Ok(root)
}
