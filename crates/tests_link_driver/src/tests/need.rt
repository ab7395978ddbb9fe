//! Out of memory at the two ends of a link: to be run with each allocation refused (`scripts/refused`).
ghost use Rattle.link_rings.specs.Ends.{IsSameEnd};

use crate::tests::acts::{Act, ENDS, LONG};
use crate::tests::commands::command;
use crate::tests::cores::ends;
use crate::tests::pair::{DELIVERED, delivered, journal, tables};
use link_driver::{Answer, EndA, EndB, Entry, Gathered, JournalEntry, Note, Turn, VatEnd, gather};
use rpc_machine::{Command, Refusal};
use rpc_msg::{ExceptionKind, Memory, Message, PlainMessage, Vat};
use std::alloc::Global;

/// Whether it is the Abort of a vat that goes down for lack of memory.
fn is_abort(message: &Message) -> bool {
    match message {
        Message::Plain(PlainMessage::Abort(said)) => {
            said.kind == ExceptionKind::Failed && said.reason.as_str() == "fault 33"
        }
        _ => false,
    }
}

fn ends_fallen(journal: &[JournalEntry]) -> bool {
    match journal {
        [.., JournalEntry::Sent(_, abort), down] => {
            is_abort(abort) && matches!(down, JournalEntry::Down(_, 33))
        }
        _ => false,
    }
}

/// Whether the last entry of a log took its vat down for lack of memory: it received a frame, or else none, and all that it sent
/// was one Abort; and its end wrote that.
pub(super) fn is_fall(log: &[Entry<Note>], journal: &[JournalEntry], received: bool) -> bool {
    match log.last() {
        Some(entry) => {
            entry.note.received() == received && entry.note.sent == 1 && ends_fallen(journal)
        }
        None => false,
    }
}

/// What becomes of a command that comes back once if memory is refused.
#[derive(Clone, Copy, PartialEq, Eq, Debug, Drop)]
pub(super) enum Asked {
    Done,
    DoneAgain,
    RefusedAgain,
    Refused(Refusal),
}

fn ask<V>(end: &mut VatEnd<V>, command: Command) -> Asked
    ensures { IsSameEnd end.old.end end.new.end }
{
    match end.command(command) {
        Answer::Done(_, effects) => {
            end.recycle(effects);
            Asked::Done
        }
        Answer::Refused(Refusal::Memory, back) => ask_again(end, back),
        Answer::Refused(refusal, _) => Asked::Refused(refusal),
    }
}

fn ask_again<V>(end: &mut VatEnd<V>, command: Command) -> Asked
    ensures { IsSameEnd end.old.end end.new.end }
{
    match end.command(command) {
        Answer::Done(_, effects) => {
            end.recycle(effects);
            Asked::DoneAgain
        }
        Answer::Refused(_, _) => Asked::RefusedAgain,
    }
}

/// A command for which memory is refused comes back: refused by the core, and then it is done the second time; or the vat is down
/// with 33 by it, and has one entry more. One that is down refuses it, and has no entry more. Nothing else is refused while both
/// are up.
fn obeys<V>(end: &mut VatEnd<V>, command: Command, both_up: bool) -> bool
    ensures { IsSameEnd end.old.end end.new.end }
{
    let logged = end.log().len();
    let was_up = end.down().is_none();
    let asked = ask(end, command);
    let more = end.log().len().wrapping_sub(logged);
    match asked {
        Asked::Done => more == usize::from(was_up),
        Asked::DoneAgain => more == 2,
        Asked::RefusedAgain => false,
        Asked::Refused(Refusal::Down) => more == usize::from(was_up)
            && (!was_up || fell(end, false)),
        Asked::Refused(_) => !both_up && more == usize::from(was_up),
    }
}

/// Whether it fell by its last step, which received a frame or else none.
fn fell<V>(end: &VatEnd<V>, received: bool) -> bool {
    end.down() == Some(33) && is_fall(end.log(), end.side().journal(), received)
}

/// What a turn is, with the number with which the vat is down.
#[derive(Clone, Copy, Drop)]
enum Turned {
    Idle,
    Handled,
    Down(u16),
}

fn turn<V>(end: &mut VatEnd<V>) -> Turned
    ensures { IsSameEnd end.old.end end.new.end }
{
    match end.turn() {
        Turn::Idle => Turned::Idle,
        Turn::Handled(effects) => {
            end.recycle(effects);
            Turned::Handled
        }
        Turn::Down(number) => Turned::Down(number),
    }
}

/// A frame for which memory is refused is logged, and takes the vat down with 33; the Abort that says so takes the other down
/// with 34.
fn turns<V>(end: &mut VatEnd<V>) -> bool
    ensures { IsSameEnd end.old.end end.new.end }
{
    let logged = end.log().len();
    let was_up = end.down().is_none();
    let turned = turn(end);
    let more = end.log().len().wrapping_sub(logged);
    match turned {
        Turned::Idle => more == 0,
        Turned::Handled => more == 1,
        Turned::Down(33) if was_up => more == 1 && fell(end, true),
        Turned::Down(number) => (number == 34 || !was_up) && more == usize::from(was_up),
    }
}

fn happens<V>(alloc: Global, end: &mut VatEnd<V>, act: Act, both_up: bool) -> bool
    ensures { IsSameEnd end.old.end end.new.end }
{
    match command(alloc, act) {
        Ok(Some(command)) => obeys(end, command, both_up),
        Ok(None) => turns(end),
        Err(Memory) => false,
    }
}

fn are_up(a: &EndA, b: &EndB) -> bool {
    a.down().is_none() && b.down().is_none()
}

fn play(alloc: Global, a: &mut EndA, b: &mut EndB, acts: &[(Vat, Act)]) -> bool
    ensures a { IsSameEnd a.old.end a.new.end }
    ensures b { IsSameEnd b.old.end b.new.end }
{
    let mut is_so = true;
    'acts: for (vat, act) in acts {
        let both_up = are_up(a, b);
        let happens = match vat {
            Vat::A => happens(alloc, a, *act, both_up),
            Vat::B => happens(alloc, b, *act, both_up),
        };
        a.flush();
        b.flush();
        is_so = happens && is_so;
    }
    is_so
}

/// What was delivered is a beginning of what is to be, and all of it if both vats are up. The tables can be told.
fn is_told(alloc: Global, gathered: &Gathered, are_up: bool) -> Result<bool, Memory> {
    let journal = journal(alloc, gathered)?;
    let is_due = match delivered(&journal, DELIVERED) {
        Some(count) => count == DELIVERED.len() || !are_up,
        None => false,
    };
    let tables = tables(gathered)?;
    Ok(is_due && matches!(&tables, JournalEntry::Tables(_, _)))
}

#[test]
fn a_refused_allocation_comes_back_or_shuts(rt: HostRuntime) -> Result<(), Memory> {
    let (mut a, mut b) = ends(&rt, rt.alloc(), 2)?;
    assert!(rt; play(rt.alloc(), &mut a, &mut b, LONG));
    assert!(rt; play(rt.alloc(), &mut a, &mut b, ENDS));
    let are_up = are_up(&a, &b);
    let gathered = gather(a, b);
    assert!(rt; is_told(rt.alloc(), &gathered, are_up)?);
    Ok(())
}
