// The bytes of both directions.
ghost use Rattle.std.specs.Prelude.{◌≡◌, ◌+◌, Bool, length, min};
ghost use Rattle.vat_connection.specs.Connecting.{Finishes, Receives, wants_bytes};
ghost use Rattle.vat_connection.specs.Load.{greatest};
ghost use Rattle.lovendak_c_desk.specs.Commands.{SetsFinishes};
ghost use Rattle.lovendak_c_desk.specs.Desks.{Awaits, HandsOut, with_connection};
ghost use Rattle.lovendak_c.specs.Calls.{AsksOn, DoesOn, HandsOn};
ghost use Rattle.lovendak_c.specs.Codes.{bit};

use crate::codes::{DONE, EMPTY, bit, done};
use crate::handle::Handle;
use std::alloc::Global;

/// Takes bytes of the peer, in any pieces: the vat hears each message that is whole now, in order, and the rest waits. A fault in
/// them takes the vat down, which is an event. A vat that is down drops them.
#[unsafe(no_mangle)]
pub extern "C" fn lovendak_received(alloc: Global, vat: &mut Handle, bytes: &[u8]) -> u32
    ensures { DoesOn vat.old.raw.desk vat.new.raw.desk result (λ old new. Receives old.connection bytes.now new.connection × (new ≡ with_connection old new.connection)) }
{
    let Some(mut desk) = vat.take(alloc) else {
        return EMPTY;
    };
    desk.received(bytes);
    *vat = Handle::of(desk);
    DONE
}

/// The peer's stream has ended: a vat that is up goes down, with 0, or inside a message with 2, once no whole message waits unheard.
#[unsafe(no_mangle)]
pub extern "C" fn lovendak_ended(alloc: Global, vat: &mut Handle) -> u32
    ensures { DoesOn vat.old.raw.desk vat.new.raw.desk result (λ old new. Finishes old.connection new.connection × (new ≡ with_connection old new.connection)) }
{
    let Some(mut desk) = vat.take(alloc) else {
        return EMPTY;
    };
    desk.ended();
    *vat = Handle::of(desk);
    DONE
}

/// Hands out bytes that are to be sent, once, as many as wait and there is room for, and says how many: none only if none are to
/// be sent, or there is no room.
#[unsafe(no_mangle)]
pub extern "C" fn lovendak_outgoing(
    alloc: Global,
    vat: &mut Handle,
    out: &mut [u8],
    len: &mut usize,
) -> u32
    ensures { HandsOn vat.old.raw.desk vat.new.raw.desk result ((out.new ≡ out.old) × (len.new ≡ len.old)) (λ old new. HandsOut old out.old len.new out.new new) }
{
    let Some(mut desk) = vat.take(alloc) else {
        return EMPTY;
    };
    *len = desk.outgoing(out);
    *vat = Handle::of(desk);
    DONE
}

/// Says how many bytes wait to be sent, none only if none are to be, and whether there is an event (1 or 0).
#[unsafe(no_mangle)]
pub extern "C" fn lovendak_pending(
    alloc: Global,
    vat: &mut Handle,
    bytes: &mut usize,
    has_event: &mut u32,
) -> u32
    ensures { HandsOn vat.old.raw.desk vat.new.raw.desk result ((bytes.new ≡ bytes.old) × (has_event.new ≡ has_event.old)) (λ old new. (has : Bool) × Awaits old bytes.new has new × (has_event.new ≡ bit has)) }
{
    let Some(mut desk) = vat.take(alloc) else {
        return EMPTY;
    };
    let (waiting, event) = desk.pending();
    *vat = Handle::of(desk);
    *bytes = waiting;
    *has_event = bit(event);
    DONE
}

/// Says how much of the peer is being handled: the words of the messages of calls for which no Return was said, and of other messages
/// until no event was found; and the bytes that wait to be sent.
#[unsafe(no_mangle)]
pub extern "C" fn lovendak_load(
    alloc: Global,
    vat: &mut Handle,
    words: &mut u64,
    bytes: &mut u64,
) -> u32
    ensures { HandsOn vat.old.raw.desk vat.new.raw.desk result ((words.new ≡ words.old) × (bytes.new ≡ bytes.old)) (λ old new. (words.new ≡ old.connection.speaker.heard.words) × (bytes.new ≡ min greatest (length old.connection.speaker.out.bytes + length old.waiting)) × (new ≡ old)) }
{
    let Some(desk) = vat.take(alloc) else {
        return EMPTY;
    };
    let load = desk.load();
    *vat = Handle::of(desk);
    *words = load.words;
    *bytes = load.bytes;
    DONE
}

/// Sets the load above which messages of the peer wait unheard. A new vat has no limits.
#[unsafe(no_mangle)]
pub extern "C" fn lovendak_set_limits(
    alloc: Global,
    vat: &mut Handle,
    words: u64,
    bytes: u64,
) -> u32
    ensures { DoesOn vat.old.raw.desk vat.new.raw.desk result (λ old new. new ≡ with_connection old (record (old.connection) { limits = record { words = words; bytes = bytes } })) }
{
    let Some(mut desk) = vat.take(alloc) else {
        return EMPTY;
    };
    desk.set_limits(words, bytes);
    *vat = Handle::of(desk);
    DONE
}

/// When the Finish goes of a call that goes out from now on: at once (0), as in the beginning, or behind its Return (1). 105 of another
/// number.
#[unsafe(no_mangle)]
pub extern "C" fn lovendak_set_finishes(alloc: Global, vat: &mut Handle, when: u32) -> u32
    ensures { AsksOn vat.old.raw.desk vat.new.raw.desk result (Unit {0}) (λ old answer new. SetsFinishes old when answer new) }
{
    let Some(mut desk) = vat.take(alloc) else {
        return EMPTY;
    };
    let answer = desk.set_finishes(when);
    *vat = Handle::of(desk);
    done(answer)
}

/// Says whether more bytes of the peer would be heard (1 or 0).
#[unsafe(no_mangle)]
pub extern "C" fn lovendak_wants_bytes(alloc: Global, vat: &mut Handle, answer: &mut u32) -> u32
    ensures { HandsOn vat.old.raw.desk vat.new.raw.desk result (answer.new ≡ answer.old) (λ old new. (answer.new ≡ bit (wants_bytes old.connection)) × (new ≡ old)) }
{
    let Some(desk) = vat.take(alloc) else {
        return EMPTY;
    };
    *answer = bit(desk.wants_bytes());
    *vat = Handle::of(desk);
    DONE
}
