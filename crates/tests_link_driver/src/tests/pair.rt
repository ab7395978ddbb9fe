//! Two ends of one link, worked in turn by one thread, and what is seen of them.
ghost use Rattle.link_rings.specs.Ends.{IsSameEnd};

use crate::tests::acts::Act;
use crate::tests::by_name::ask;
use crate::tests::cores::ends;
use link_driver::{EndA, EndB, Entry, Gathered, JournalEntry, Note, Turn, VatEnd, gather};
use rpc_journal::Counts;
use rpc_msg::{Memory, Vat};
use std::alloc::Global;
use std::process::Abort;

/// Lets an act happen at an end: whether what is asked is done. That a turn finds a frame is not asked.
fn happen<V>(alloc: Global, end: &mut VatEnd<V>, act: Act) -> bool
    ensures { IsSameEnd end.old.end end.new.end }
{
    if matches!(act, Act::Turn) {
        return turn(end);
    }
    match ask(alloc, end, act) {
        Ok(Some(effects)) => end.recycle(effects),
        Ok(None) => {}
        Err(_) => return false,
    }
    true
}

fn turn<V>(end: &mut VatEnd<V>) -> bool
    ensures { IsSameEnd end.old.end end.new.end }
{
    match end.turn() {
        Turn::Handled(effects) => {
            end.recycle(effects);
            true
        }
        Turn::Idle => true,
        Turn::Down(_) => false,
    }
}

/// Whether all that is asked is done. What waits goes out if the other end made room.
fn play(alloc: Global, a: &mut EndA, b: &mut EndB, acts: &[(Vat, Act)]) -> bool
    ensures a { IsSameEnd a.old.end a.new.end }
    ensures b { IsSameEnd b.old.end b.new.end }
{
    let mut is_done = true;
    'acts: for (vat, act) in acts {
        let happens = match vat {
            Vat::A => happen(alloc, a, *act),
            Vat::B => happen(alloc, b, *act),
        };
        a.flush();
        b.flush();
        is_done = happens && is_done;
    }
    is_done
}

/// Whether all was done, with which numbers A and B are down; and what both wrote.
type Played = ((bool, [Option<u16>; 2]), Gathered);

fn played(
    rt: &impl Abort,
    alloc: Global,
    capacity: usize,
    acts: &[(Vat, Act)],
    more: &[(Vat, Act)],
) -> Result<Played, Memory> {
    let (mut a, mut b) = ends(rt, alloc, capacity)?;
    let is_done = play(alloc, &mut a, &mut b, acts) && play(alloc, &mut a, &mut b, more);
    let downs = [a.down(), b.down()];
    Ok(((is_done, downs), gather(a, b)))
}

/// The object and the method of each call that is delivered in these tests, in order: the first is that of the first call, and all
/// but it are delivered at A.
pub(super) const DELIVERED: &[(u64, u16)] = &[(0, 1), (5, 2), (5, 3), (5, 4), (5, 5), (5, 6)];

/// How many calls the journal says were delivered, if they are the first of these.
pub(super) fn delivered(journal: &[JournalEntry], calls: &[(u64, u16)]) -> Option<usize> {
    let mut count = 0_usize;
    for entry in journal {
        if let JournalEntry::Delivered(_, delivery) = entry {
            if calls.get(count).copied() != Some((delivery.object.0, delivery.method)) {
                return None;
            }
            count = count.wrapping_add(1);
        }
    }
    Some(count)
}

/// If memory is refused it says so, and gives it the second time.
pub(super) fn journal(alloc: Global, gathered: &Gathered) -> Result<Vec<JournalEntry>, Memory> {
    match gathered.journal(alloc) {
        Ok(journal) => Ok(journal),
        Err(Memory) => gathered.journal(alloc),
    }
}

pub(super) fn tables(gathered: &Gathered) -> Result<JournalEntry, Memory> {
    match gathered.tables() {
        Ok(tables) => Ok(tables),
        Err(Memory) => gathered.tables(),
    }
}

fn is_empty(counts: &Counts) -> bool {
    counts.exports.is_empty() && counts.imports.is_empty()
}

/// Whether neither vat has an export or an import.
fn is_without(gathered: &Gathered) -> Result<bool, Memory> {
    match &tables(gathered)? {
        JournalEntry::Tables(a, b) => Ok(is_empty(a) && is_empty(b)),
        _ => Ok(false),
    }
}

fn says_shut(journal: &[JournalEntry]) -> bool {
    for entry in journal {
        if matches!(entry, JournalEntry::Down(Vat::A, 50)) {
            return true;
        }
    }
    false
}

/// The number and the acknowledgement of a frame.
pub(super) type Numbers = (u64, u64);

/// Whether the frames that a log made have these numbers.
fn has_made(log: &[Entry<Note>], wanted: &[Numbers]) -> bool {
    let mut wanted = wanted.iter();
    for entry in log {
        for more in 0..entry.note.sent as u64 {
            let numbers = (entry.first.wrapping_add(more), entry.heard);
            if wanted.next().copied() != Some(numbers) {
                return false;
            }
        }
    }
    wanted.next().is_none()
}

/// What is seen of two ends: whether all was done, with which numbers they are down, and whether the frames of A and of B have the
/// wanted numbers. How many calls were delivered, if they are the first of `DELIVERED`. Whether A was shut with 50, and whether
/// neither vat has an export or an import.
#[derive(Clone, Copy, Drop)]
pub(super) struct Seen {
    pub is_done: bool,
    pub downs: [Option<u16>; 2],
    pub are_numbered: bool,
    pub delivered: Option<usize>,
    pub is_shut: bool,
    pub is_without: bool,
}

fn look(
    alloc: Global,
    (is_done, downs): (bool, [Option<u16>; 2]),
    gathered: &Gathered,
    [of_a, of_b]: [&[Numbers]; 2],
) -> Result<Seen, Memory> {
    let is_without = is_without(gathered)?;
    let journal = journal(alloc, gathered)?;
    Ok(Seen {
        is_done,
        downs,
        are_numbered: has_made(gathered.log_a(), of_a) && has_made(gathered.log_b(), of_b),
        delivered: delivered(&journal, DELIVERED),
        is_shut: says_shut(&journal),
        is_without,
    })
}

/// What is seen once these acts were asked for, one after the other.
pub(super) fn see(
    rt: &impl Abort,
    alloc: Global,
    capacity: usize,
    acts: &[(Vat, Act)],
    more: &[(Vat, Act)],
    frames: [&[Numbers]; 2],
) -> Result<Seen, Memory> {
    let (done, gathered) = played(rt, alloc, capacity, acts, more)?;
    look(alloc, done, &gathered, frames)
}

/// What is seen of the end of A alone: whether all was done, how many entries its log and its journal have, and how many its log says
/// that it wrote. And how many calls were delivered at it, if they are the first of those.
#[derive(Clone, Copy, Drop)]
pub(super) struct Alone {
    pub is_done: bool,
    pub logged: usize,
    pub noted: usize,
    pub written: usize,
    pub delivered: Option<usize>,
}

fn seen_alone(is_done: bool, log: &[Entry<Note>], journal: &[JournalEntry]) -> Alone {
    let mut noted = 0_usize;
    for entry in log {
        noted = noted.wrapping_add(entry.note.entries);
    }
    Alone {
        is_done,
        logged: log.len(),
        noted,
        written: journal.len(),
        delivered: match DELIVERED {
            [_, at_a @ ..] => delivered(journal, at_a),
            [] => None,
        },
    }
}

pub(super) fn see_alone(
    rt: &impl Abort,
    alloc: Global,
    capacity: usize,
    acts: &[(Vat, Act)],
) -> Result<Alone, Memory> {
    let (mut a, mut b) = ends(rt, alloc, capacity)?;
    let is_done = play(alloc, &mut a, &mut b, acts);
    let (side, log) = a.into_log();
    Ok(seen_alone(is_done, &log, side.journal()))
}
