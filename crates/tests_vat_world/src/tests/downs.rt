//! Vats that go down.
use crate::tests::events::{Brief, are_told, entries, take, was_shut, world};
use rpc_machine::{Command, Refusal};
use rpc_msg::{Memory, Vat};
use vat_world::{World, WorldEvent};

#[derive(Clone, Copy)]
enum Happens {
    Deliver(Vat),
    Bootstrap(Vat),
    Shut(Vat, u16),
}

/// What happens, what it answers, whether A was shut by then, and how many entries there are.
type Row = (Happens, Brief, bool, usize);

/// If nothing is on its way nothing is received. A shut takes both down: the Bootstrap of B is on its way to A when A is shut,
/// and it is not received; the Abort of A takes B down with 34, and B was not shut. A vat that is down refuses and receives nothing,
/// and nothing is written of it.
const ROWS: &[Row] = &[
    (Happens::Deliver(Vat::B), Brief::Empty, false, 0),
    (Happens::Bootstrap(Vat::B), Brief::Done, false, 2),
    (Happens::Shut(Vat::A, 7), Brief::Done, true, 4),
    (Happens::Deliver(Vat::B), Brief::Handled, true, 6),
    (
        Happens::Bootstrap(Vat::A),
        Brief::Refused(Refusal::Down),
        true,
        6,
    ),
    (Happens::Shut(Vat::A, 8), Brief::Done, true, 6),
    (Happens::Deliver(Vat::A), Brief::Empty, true, 6),
    (
        Happens::Bootstrap(Vat::B),
        Brief::Refused(Refusal::Down),
        true,
        6,
    ),
    (Happens::Shut(Vat::B, 8), Brief::Done, true, 6),
    (Happens::Deliver(Vat::B), Brief::Empty, true, 6),
];

const ENTRIES: &[(Vat, &str, u64)] = &[
    (Vat::B, "asked", 0),
    (Vat::B, "sent bootstrap", 0),
    (Vat::A, "sent abort", 0),
    (Vat::A, "down", 7),
    (Vat::B, "got", 0),
    (Vat::B, "down", 34),
];

fn event(happens: Happens) -> WorldEvent {
    match happens {
        Happens::Deliver(vat) => WorldEvent::Deliver(vat),
        Happens::Bootstrap(vat) => WorldEvent::Command(vat, Command::Bootstrap),
        Happens::Shut(vat, number) => WorldEvent::Command(vat, Command::Shut(number)),
    }
}

fn happen(world: &mut World, rows: &[Row]) -> bool {
    for (happens, brief, is_shut, count) in rows {
        let said = take(world, event(*happens));
        let are_shut = was_shut(world, Vat::A) == *is_shut && !was_shut(world, Vat::B);
        if said != *brief || !are_shut || entries(world).len() != *count {
            return false;
        }
    }
    true
}

#[test]
fn a_shut_takes_both_down(rt: HostRuntime) -> Result<(), Memory> {
    let mut world = world(rt.alloc())?;
    assert!(rt; happen(&mut world, ROWS));
    assert!(rt; are_told(entries(&world), ENTRIES));
    Ok(())
}
