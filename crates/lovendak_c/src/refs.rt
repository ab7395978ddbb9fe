// What a number is put into stays as it is if a command is refused, and so does the vat.
ghost use Rattle.std.specs.Prelude.{[]};
ghost use Rattle.rpc_machine.specs.declared.command.Command.TheVariants as command;
ghost use Rattle.lovendak_c_desk.specs.Commands.{Advances, Hosts, IsAsked, a_reference, nothing};
ghost use Rattle.lovendak_c_desk.specs.Given.{path};
ghost use Rattle.lovendak_c.specs.Calls.{GivesOn, AsksOn};

use crate::codes::{EMPTY, done, done_with};
use crate::handle::Handle;
use std::alloc::Global;

/// Makes a reference to an object of the application: gives its number.
#[unsafe(no_mangle)]
pub extern "C" fn lovendak_host(
    alloc: Global,
    vat: &mut Handle,
    object: u64,
    reference: &mut u64,
) -> u32
    ensures { GivesOn vat.old.raw.desk vat.new.raw.desk result reference.old reference.new (λ old answer new. Hosts old object answer new) }
{
    let Some(mut desk) = vat.take(alloc) else {
        return EMPTY;
    };
    let answer = desk.host(object);
    *vat = Handle::of(desk);
    done_with(answer, reference)
}

/// Makes a second reference to what a reference leads to: gives its number.
#[unsafe(no_mangle)]
pub extern "C" fn lovendak_clone_ref(
    alloc: Global,
    vat: &mut Handle,
    reference: u64,
    made: &mut u64,
) -> u32
    ensures { GivesOn vat.old.raw.desk vat.new.raw.desk result made.old made.new (λ old answer new. IsAsked old (command.CloneRef (record { 0 = reference })) a_reference answer new) }
{
    let Some(mut desk) = vat.take(alloc) else {
        return EMPTY;
    };
    let answer = desk.clone_ref(reference);
    *vat = Handle::of(desk);
    done_with(answer, made)
}

/// Makes a reference to what stands at a path of the results of a call, now or later: gives its number. Each step is the number of a
/// pointer.
#[unsafe(no_mangle)]
pub extern "C" fn lovendak_field(
    alloc: Global,
    vat: &mut Handle,
    call: u64,
    steps: &[u16],
    reference: &mut u64,
) -> u32
    ensures { GivesOn vat.old.raw.desk vat.new.raw.desk result reference.old reference.new (λ old answer new. IsAsked old (command.Field (record { 0 = call }) (path steps.now)) a_reference answer new) }
{
    let Some(mut desk) = vat.take(alloc) else {
        return EMPTY;
    };
    let answer = desk.field(alloc, call, steps);
    *vat = Handle::of(desk);
    done_with(answer, reference)
}

/// Makes a reference to what a call gives, now or later: gives its number.
#[unsafe(no_mangle)]
pub extern "C" fn lovendak_result_of(
    alloc: Global,
    vat: &mut Handle,
    call: u64,
    reference: &mut u64,
) -> u32
    ensures { GivesOn vat.old.raw.desk vat.new.raw.desk result reference.old reference.new (λ old answer new. IsAsked old (command.Field (record { 0 = call }) []) a_reference answer new) }
{
    let Some(mut desk) = vat.take(alloc) else {
        return EMPTY;
    };
    let answer = desk.result_of(call);
    *vat = Handle::of(desk);
    done_with(answer, reference)
}

/// Has no more use for a reference.
#[unsafe(no_mangle)]
pub extern "C" fn lovendak_drop_ref(alloc: Global, vat: &mut Handle, reference: u64) -> u32
    ensures { AsksOn vat.old.raw.desk vat.new.raw.desk result (Unit {0}) (λ old answer new. IsAsked old (command.DropRef (record { 0 = reference })) nothing answer new) }
{
    let Some(mut desk) = vat.take(alloc) else {
        return EMPTY;
    };
    let answer = desk.drop_ref(reference);
    *vat = Handle::of(desk);
    done(answer)
}

/// Lets a reference take one step of the shorter path, if one is known: gives what became of it, 0 nothing, 1 switched, 2 embargoed, 3
/// broke.
#[unsafe(no_mangle)]
pub extern "C" fn lovendak_advance(
    alloc: Global,
    vat: &mut Handle,
    reference: u64,
    advanced: &mut u32,
) -> u32
    ensures { GivesOn vat.old.raw.desk vat.new.raw.desk result advanced.old advanced.new (λ old answer new. Advances old reference answer new) }
{
    let Some(mut desk) = vat.take(alloc) else {
        return EMPTY;
    };
    let answer = desk.advance(reference);
    *vat = Handle::of(desk);
    done_with(answer, advanced)
}
