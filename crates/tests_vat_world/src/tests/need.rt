//! Out of memory: to be run with each allocation refused, by `scripts/refused`.
use crate::tests::events::{Brief, EVENTS, entries, event, take, told, vat_of, world};
use rpc_journal::JournalEntry;
use rpc_machine::Refusal;
use rpc_msg::{ExceptionKind, Memory, Message, PlainMessage, Vat};
use std::alloc::Global;
use vat_world::World;

/// Whether it is the Abort of a vat that goes down for lack of memory.
pub(super) fn is_abort(message: &Message) -> bool {
    match message {
        Message::Plain(PlainMessage::Abort(said)) => {
            said.kind == ExceptionKind::Failed && said.reason.as_str() == "fault 33"
        }
        _ => false,
    }
}

/// Whether the last entries are the Abort of a vat and that it went down, for lack of memory.
fn ends_overflown(entries: &[JournalEntry], vat: Vat) -> bool {
    match entries {
        [.., JournalEntry::Sent(from, abort), down] => {
            is_abort(abort) && *from == vat && told(down) == (vat, "down", 33)
        }
        _ => false,
    }
}

/// Whether the last entry is of a command that was refused for lack of memory.
fn ends_refused(entries: &[JournalEntry], vat: Vat) -> bool {
    match entries.last() {
        Some(last) => told(last) == (vat, "refused", 1),
        None => false,
    }
}

fn take_number(alloc: Global, world: &mut World, number: u32) -> Brief {
    match event(alloc, number) {
        Ok(event) => take(world, event),
        Err(Memory) => Brief::Refused(Refusal::Memory),
    }
}

/// What is seen of an event: its vat is up behind it, or is down for lack of memory; or it is not as it should be.
enum Seen {
    Up,
    Fallen,
    Wrong,
}

/// An event that is refused for lack of memory is written as that, and is taken the second time; all else that is refused
/// takes the vat down, with its Abort and that in the journal.
fn take_again(alloc: Global, world: &mut World, number: u32) -> Seen {
    let vat = vat_of(number);
    let said = take_number(alloc, world, number);
    if ends_overflown(entries(world), vat) {
        return if world.lacked_memory(vat) {
            Seen::Fallen
        } else {
            Seen::Wrong
        };
    }
    if said != Brief::Refused(Refusal::Memory) {
        return Seen::Up;
    }
    if ends_refused(entries(world), vat) && take_number(alloc, world, number) != said {
        return Seen::Up;
    }
    Seen::Wrong
}

/// To the first vat that falls.
fn take_all(alloc: Global, world: &mut World) -> bool {
    for number in 0..EVENTS {
        match take_again(alloc, world, number) {
            Seen::Up => {}
            Seen::Fallen => return true,
            Seen::Wrong => return false,
        }
    }
    entries(world).len() >= 25
}

fn world_again(alloc: Global) -> Result<World, Memory> {
    match world(alloc) {
        Ok(world) => Ok(world),
        Err(Memory) => world(alloc),
    }
}

#[test]
fn a_refused_allocation_is_answered(rt: HostRuntime) -> Result<(), Memory> {
    let mut world = world_again(rt.alloc())?;
    assert!(rt; take_all(rt.alloc(), &mut world));
    Ok(())
}
