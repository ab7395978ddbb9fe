// What a number is put into stays as it is if a command is refused, and so does the vat.
ghost use Rattle.rpc_machine.specs.declared.command.Command.TheVariants as command;
ghost use Rattle.lovendak_c_desk.specs.Commands.{IsAsked, a_promise, Rejects, Resolves};
ghost use Rattle.lovendak_c.specs.Calls.{GivesOn, AsksOn};

use crate::codes::{DONE, EMPTY, code_of, done};
use crate::handle::Handle;
use std::alloc::Global;

/// Makes a promise, and a reference to it: gives their numbers.
#[unsafe(no_mangle)]
pub extern "C" fn lovendak_promise(
    alloc: Global,
    vat: &mut Handle,
    promise: &mut u64,
    reference: &mut u64,
) -> u32
    ensures { GivesOn vat.old.raw.desk vat.new.raw.desk result (promise.old, reference.old) (promise.new, reference.new) (λ old answer new. IsAsked old command.Promise a_promise answer new) }
{
    let Some(mut desk) = vat.take(alloc) else {
        return EMPTY;
    };
    let answer = desk.promise();
    *vat = Handle::of(desk);
    match answer {
        Ok((made, leads)) => {
            *promise = made;
            *reference = leads;
            DONE
        }
        Err(why) => code_of(why),
    }
}

/// Settles a promise to what a reference leads to. Refused with 2, if there is no place for one export more.
#[unsafe(no_mangle)]
pub extern "C" fn lovendak_resolve(
    alloc: Global,
    vat: &mut Handle,
    promise: u64,
    reference: u64,
) -> u32
    ensures { AsksOn vat.old.raw.desk vat.new.raw.desk result (Unit {0}) (λ old answer new. Resolves old promise reference answer new) }
{
    let Some(mut desk) = vat.take(alloc) else {
        return EMPTY;
    };
    let answer = desk.resolve(promise, reference);
    *vat = Handle::of(desk);
    done(answer)
}

/// Breaks a promise with an exception of that kind (105 if it is above 3) with that reason (102 if it is not UTF-8).
#[unsafe(no_mangle)]
pub extern "C" fn lovendak_reject(
    alloc: Global,
    vat: &mut Handle,
    promise: u64,
    kind: u32,
    reason: &[u8],
) -> u32
    ensures { AsksOn vat.old.raw.desk vat.new.raw.desk result (Unit {0}) (λ old answer new. Rejects old promise kind reason.now answer new) }
{
    let Some(mut desk) = vat.take(alloc) else {
        return EMPTY;
    };
    let answer = desk.reject(alloc, promise, kind, reason);
    *vat = Handle::of(desk);
    done(answer)
}
