// If a command is refused, the vat stays as it is.
ghost use Rattle.lovendak_c_desk.specs.Commands.{Answers, Fails};
ghost use Rattle.lovendak_c.specs.Calls.{AsksOn};

use crate::codes::{EMPTY, done};
use crate::handle::Handle;
use std::alloc::Global;

/// Gives a task its results. 102 if the payload is none that goes with so many references.
#[unsafe(no_mangle)]
pub extern "C" fn lovendak_answer(
    alloc: Global,
    vat: &mut Handle,
    task: u64,
    payload: &[u8],
    refs: &[u64],
) -> u32
    ensures { AsksOn vat.old.raw.desk vat.new.raw.desk result (Unit {0}) (λ old answer new. Answers old task payload.now refs.now answer new) }
{
    let Some(mut desk) = vat.take(alloc) else {
        return EMPTY;
    };
    let answer = desk.answer(alloc, task, payload, refs);
    *vat = Handle::of(desk);
    done(answer)
}

/// Gives a task an exception of that kind (105 if it is above 3) with that reason (102 if it is not UTF-8).
#[unsafe(no_mangle)]
pub extern "C" fn lovendak_fail(
    alloc: Global,
    vat: &mut Handle,
    task: u64,
    kind: u32,
    reason: &[u8],
) -> u32
    ensures { AsksOn vat.old.raw.desk vat.new.raw.desk result (Unit {0}) (λ old answer new. Fails old task kind reason.now answer new) }
{
    let Some(mut desk) = vat.take(alloc) else {
        return EMPTY;
    };
    let answer = desk.fail(alloc, task, kind, reason);
    *vat = Handle::of(desk);
    done(answer)
}
