// What a number is put into stays as it is if a command is refused, and so does the vat.
ghost use Rattle.rpc_machine.specs.declared.command.Command.TheVariants as command;
ghost use Rattle.lovendak_c_desk.specs.Commands.{CallsWith, IsAsked, a_call, call_of, nothing};
ghost use Rattle.lovendak_c.specs.Calls.{GivesOn, AsksOn};

use crate::codes::{EMPTY, done, done_with};
use crate::handle::Handle;
use std::alloc::Global;

/// Asks the peer for its bootstrap object: gives the number of the call.
#[unsafe(no_mangle)]
pub extern "C" fn lovendak_bootstrap(alloc: Global, vat: &mut Handle, call: &mut u64) -> u32
    ensures { GivesOn vat.old.raw.desk vat.new.raw.desk result call.old call.new (λ old answer new. IsAsked old command.Bootstrap a_call answer new) }
{
    let Some(mut desk) = vat.take(alloc) else {
        return EMPTY;
    };
    let answer = desk.bootstrap();
    *vat = Handle::of(desk);
    done_with(answer, call)
}

/// Makes a call through a reference, which takes one step of the shorter path before, if one is known, and unless that step is refused:
/// gives the number of the call. 102 if the payload is none that goes with so many references.
#[unsafe(no_mangle)]
pub extern "C" fn lovendak_call(
    alloc: Global,
    vat: &mut Handle,
    reference: u64,
    interface_id: u64,
    method: u16,
    payload: &[u8],
    refs: &[u64],
    call: &mut u64,
) -> u32
    ensures { GivesOn vat.old.raw.desk vat.new.raw.desk result call.old call.new (λ old answer new. CallsWith old (call_of reference interface_id method payload.now refs.now) answer new) }
{
    let Some(mut desk) = vat.take(alloc) else {
        return EMPTY;
    };
    let answer = desk.call(alloc, reference, (interface_id, method), payload, refs);
    *vat = Handle::of(desk);
    done_with(answer, call)
}

/// Has no more use for a call, which may have ended or not.
#[unsafe(no_mangle)]
pub extern "C" fn lovendak_finish(alloc: Global, vat: &mut Handle, call: u64) -> u32
    ensures { AsksOn vat.old.raw.desk vat.new.raw.desk result (Unit {0}) (λ old answer new. IsAsked old (command.Finish (record { 0 = call })) nothing answer new) }
{
    let Some(mut desk) = vat.take(alloc) else {
        return EMPTY;
    };
    let answer = desk.finish(call);
    *vat = Handle::of(desk);
    done(answer)
}
