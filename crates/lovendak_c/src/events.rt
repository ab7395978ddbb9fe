// Events, and what is asked of the vat.
ghost use Rattle.std.specs.Prelude.{◌≡◌};
ghost use Rattle.lovendak_c_desk.specs.Telling.{TellsNext};
ghost use Rattle.lovendak_c.specs.Calls.{AsksOn};

use crate::codes::{EMPTY, done};
use crate::handle::Handle;
use lovendak_c_desk::Notice;
use std::alloc::Global;

/// Hands out the next event, once: what it says in numbers, and copies of the bytes and of the references that came with it. If
/// there is too little room for these (103) the event says how much they need, and it stays the next one. 104 if there is none.
#[unsafe(no_mangle)]
pub extern "C" fn lovendak_next_event(
    alloc: Global,
    vat: &mut Handle,
    event: &mut Notice,
    payload: &mut [u8],
    refs: &mut [u64],
) -> u32
    ensures { AsksOn vat.old.raw.desk vat.new.raw.desk result ((event.new ≡ event.old) × (payload.new ≡ payload.old) × (refs.new ≡ refs.old)) (λ old answer new. TellsNext old (record { notice = event.old; bytes = payload.old; refs = refs.old }) answer (record { notice = event.new; bytes = payload.new; refs = refs.new }) new) }
{
    let Some(mut desk) = vat.take(alloc) else {
        return EMPTY;
    };
    let told = desk.next_event(event, payload, refs);
    *vat = Handle::of(desk);
    done(told)
}
