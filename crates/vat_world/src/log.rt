ghost use Rattle.std.specs.Prelude.{List, ◌≡◌, ◌++◌, ◌+◌, ◌≤◌, ◌<◌, [], ◌∷◌, true, false, Some, OnOk, OnErr, IfSome, length};
ghost use Rattle.rpc_machine.specs.Journal.{effect_entries};
ghost use Rattle.rpc_journal.specs.declared.entry.JournalEntry.{JournalEntry};
ghost use Rattle.vat_world.specs.Stages.{stepped, Logs, Overflows};
ghost use Rattle.core_telling.specs.Told.{without_sends, Extends, IsFall};
ghost use Rattle.vat_world.specs.Rooms.{stage_of, side_of, IsReady, HasRoom, KeepsRoom};

use crate::link::Link;
use crate::side::Side;
use core_telling::{Journal, count, put_effects, write_fall};
use rpc_machine::{Effects, Fault};
use rpc_msg::{Items, Memory, Vat};
use std::alloc::Global;
use std::mem;

/// Tells the step that the vat's core took, and answers whether there was room. Its messages go from the effects on the
/// link to the peer. The entries of its effects stand behind its own entries, which are those from `start` on. If there
/// is no room for all of that, the vat goes down with fault 33 in the room that is kept, and its own entries are taken
/// back.
#[inline(always)]
pub(crate) fn log_step(
    alloc: Global,
    vat: Vat,
    acting: &mut Side,
    peer: &mut Side,
    journal: &mut Journal,
    start: usize,
    effects: &mut Effects,
) -> bool
    requires ready { IsReady acting.old peer.old journal.old }
    requires fell { IfSome acting.old.core.down (IsFall effects.old) }
    ensures logs { (before own : List JournalEntry) → journal.old.0 ≡ before ++ own → start ≡ length before → Logs vat (stage_of acting.old peer.old (before, 0)) effects.old own result effects.new (stage_of acting.new peer.new journal.new) }
    ensures was_shut { acting.new.was_shut ≡ acting.old.was_shut }
    ensures peer_shut { peer.new.was_shut ≡ peer.old.was_shut }
    ensures room { HasRoom acting.new peer.new journal.new }
{
    if let Some(number) = acting.core.down() {
        log_fall(alloc, vat, acting, peer, journal, number, effects);
        return true;
    }
    match log_whole(alloc, vat, &mut peer.inbox, journal, effects) {
        Ok(()) => return true,
        Err(Memory) => {}
    }
    log_overflow(alloc, vat, acting, peer, journal, start, effects);
    false
}

/// Tells a step for whose entries there is no room.
#[cold]
#[inline(never)]
pub(crate) fn log_overflow(
    alloc: Global,
    vat: Vat,
    acting: &mut Side,
    peer: &mut Side,
    journal: &mut Journal,
    start: usize,
    effects: &mut Effects,
)
    requires ready { IsReady acting.old peer.old journal.old }
    requires fell { IfSome acting.old.core.down (IsFall effects.old) }
    ensures overflows { (before more : List JournalEntry) → journal.old.0 ≡ before ++ more → start ≡ length before → Overflows vat (stage_of acting.old peer.old (before, 0)) effects.old effects.new (stage_of acting.new peer.new journal.new) }
    ensures was_shut { acting.new.was_shut ≡ acting.old.was_shut }
    ensures peer_shut { peer.new.was_shut ≡ peer.old.was_shut }
    ensures room { HasRoom acting.new peer.new journal.new }
{
    journal.truncate(start);
    if let Some(number) = acting.core.down() {
        log_fall(alloc, vat, acting, peer, journal, number, effects);
        return;
    }
    let number = Fault::WantOfRoom.code();
    let Effects {
        sends: _,
        deliveries: _,
        answers: _,
        down: _,
    } = mem::replace(effects, acting.core.shut(number));
    log_fall(alloc, vat, acting, peer, journal, number, effects);
}

// Tells, in the room that is kept, a step that took the vat down.
#[cold]
#[inline(never)]
fn log_fall(
    alloc: Global,
    vat: Vat,
    acting: &mut Side,
    peer: &mut Side,
    journal: &mut Journal,
    number: u16,
    effects: &mut Effects,
)
    requires ready { IsReady acting.old peer.old journal.old }
    requires down { acting.old.core.down ≡ Some number }
    requires fall { IsFall effects.old number }
    ensures stage { stage_of acting.new peer.new journal.new ≡ stepped vat (stage_of acting.old peer.old journal.old) acting.old.core effects.old [] }
    ensures given { effects.new ≡ without_sends effects.old }
    ensures was_shut { acting.new.was_shut ≡ acting.old.was_shut }
    ensures peer_shut { peer.new.was_shut ≡ peer.old.was_shut }
    ensures room { HasRoom acting.new peer.new journal.new }
{
    write_fall(vat, &mut acting.spare, journal, number, effects);
    send(alloc, &mut peer.inbox, effects);
}

// Puts the messages of a step on the link, if there is room.
#[inline(always)]
fn send(alloc: Global, inbox: &mut Link, effects: &mut Effects)
    requires { length effects.old.sends ≤ inbox.old.1 }
    ensures messages { inbox.new.0 ≡ inbox.old.0 ++ effects.old.sends }
    ensures room { inbox.old.1 ≤ inbox.new.1 + length effects.old.sends }
    ensures rest { effects.new ≡ without_sends effects.old }
{
    if effects.sends.is_empty() {
        return;
    }
    send_all(alloc, inbox, effects);
}

#[inline(never)]
fn send_all(alloc: Global, inbox: &mut Link, effects: &mut Effects)
    requires { length effects.old.sends ≤ inbox.old.1 }
    ensures messages { inbox.new.0 ≡ inbox.old.0 ++ effects.old.sends }
    ensures room { inbox.old.1 ≤ inbox.new.1 + length effects.old.sends }
    ensures rest { effects.new ≡ without_sends effects.old }
{
    let sends = mem::replace(&mut effects.sends, Items::new(alloc));
    effects.sends = inbox.append(sends);
}

// Tells the whole step, or changes nothing but the room, and what is behind the entries that were there.
fn log_whole(
    alloc: Global,
    vat: Vat,
    inbox: &mut Link,
    journal: &mut Journal,
    effects: &mut Effects,
) -> Result<(), Memory>
    requires { 0 < inbox.old.1 }
    ensures inbox { OnOk result (inbox.new.0 ≡ inbox.old.0 ++ effects.old.sends) }
    ensures journal { OnOk result (journal.new.0 ≡ journal.old.0 ++ effect_entries vat effects.old) }
    ensures given { OnOk result (effects.new ≡ without_sends effects.old) }
    ensures link_room { OnOk result (0 < inbox.new.1) }
    ensures journal_room { OnOk result (6 ≤ journal.new.1) }
    ensures same_inbox { OnErr result (inbox.new.0 ≡ inbox.old.0) }
    ensures extends { OnErr result (Extends journal.old.0 journal.new.0) }
    ensures same { OnErr result (effects.new ≡ effects.old) }
    ensures old_link_room { OnErr result (inbox.old.1 ≤ inbox.new.1) }
    ensures old_journal_room { OnErr result (KeepsRoom journal.old.1 journal.new.1) }
{
    let Some(more) = count(effects) else {
        return Err(Memory);
    };
    journal.prepare(more)?;
    inbox.prepare(effects.sends.len())?;
    put_effects(alloc, vat, journal, effects)?;
    send(alloc, inbox, effects);
    Ok(())
}
