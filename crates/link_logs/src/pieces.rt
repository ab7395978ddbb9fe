ghost use Rattle.std.specs.Prelude.{◌≡◌, ◌≤◌, ◌++◌, ◌∷◌, [], IfOk, OnOk, drop, take, length};
ghost use Rattle.link_logs.specs.Pieces.{left_of_a, left_of_b, next_piece, piece_of, pieced};
ghost use Rattle.laws_merge.specs.declared.merge.OneOf.TheVariants.{First, Second};

use crate::note::Note;
use link_rings::{Entry, Reads};
use rpc_journal::JournalEntry;
use rpc_msg::{Memory, Vat};
use std::alloc::{AllocError, Global};

/// So many entries of the journal that the end of a vat wrote.
#[derive(Clone, Copy, Drop)]
pub struct Piece {
    pub vat: Vat,
    pub entries: usize,
}

/// Reads two logs in their one order, and keeps which pieces of the two journals their entries stand for.
#[derive(Drop)]
pub struct Pieces {
    pub list: Vec<Piece>,
}

impl Reads<Note> for Pieces {
    ghost reads = { λ old e new. new.list.items ≡ old.list.items ++ piece_of e ∷ [] };

    fn first(&mut self, entry: &Entry<Note>) -> Result<(), AllocError> {
        self.list.push(Piece {
            vat: Vat::A,
            entries: entry.note.entries,
        })?;
        Ok(())
    }

    fn second(&mut self, entry: &Entry<Note>) -> Result<(), AllocError> {
        self.list.push(Piece {
            vat: Vat::B,
            entries: entry.note.entries,
        })?;
        Ok(())
    }
}

/// Copies of the pieces of two journals, one after the other, each from where the last one of its journal ended. `Memory`
/// if a growth was refused.
pub fn pieced(
    alloc: Global,
    pieces: &[Piece],
    a: &[JournalEntry],
    b: &[JournalEntry],
) -> Result<Vec<JournalEntry>, Memory>
    ensures { IfOk result (λ journal. journal.items ≡ pieced pieces.now a.now b.now) }
{
    let mut journal = Vec::new(alloc);
    let mut at = Places { a: 0, b: 0 };
    for next in pieces {
        at = put_next(alloc, &mut journal, *next, a, b, at)?;
    }
    Ok(journal)
}

// How many entries of each journal are copied.
#[derive(Clone, Copy, Drop)]
struct Places {
    a: usize,
    b: usize,
}

fn put_next(
    alloc: Global,
    journal: &mut Vec<JournalEntry>,
    next: Piece,
    a: &[JournalEntry],
    b: &[JournalEntry],
    at: Places,
) -> Result<Places, Memory>
    requires in_a { at.a ≤ length a.now }
    requires in_b { at.b ≤ length b.now }
    ensures entries { OnOk result (journal.new.items ≡ journal.old.items ++ next_piece next.vat next.entries (drop at.a a.now) (drop at.b b.now)) }
    ensures left_a { IfOk result (λ to. drop to.a a.now ≡ left_of_a next.vat next.entries (drop at.a a.now)) }
    ensures left_b { IfOk result (λ to. drop to.b b.now ≡ left_of_b next.vat next.entries (drop at.b b.now)) }
    ensures in_a { IfOk result (λ to. to.a ≤ length a.now) }
    ensures in_b { IfOk result (λ to. to.b ≤ length b.now) }
{
    match next.vat {
        Vat::A => {
            let to = put_piece(alloc, journal, a, at.a, next.entries)?;
            Ok(Places { a: to, b: at.b })
        }
        Vat::B => {
            let to = put_piece(alloc, journal, b, at.b, next.entries)?;
            Ok(Places { a: at.a, b: to })
        }
    }
}

// Copies of so many entries from there on, or of all that there are; gives where they end.
fn put_piece(
    alloc: Global,
    journal: &mut Vec<JournalEntry>,
    from: &[JournalEntry],
    at: usize,
    count: usize,
) -> Result<usize, Memory>
    requires { at ≤ length from.now }
    ensures entries { OnOk result (journal.new.items ≡ journal.old.items ++ take count (drop at from.now)) }
    ensures left { IfOk result (λ to. drop to from.now ≡ drop count (drop at from.now)) }
    ensures inside { IfOk result (λ to. to ≤ length from.now) }
{
    let (_, rest) = from.split_at(at);
    if rest.len() <= count {
        put_all(alloc, journal, rest)?;
        return Ok(from.len());
    }
    let (next, _) = rest.split_at(count);
    put_all(alloc, journal, next)?;
    Ok(at + count)
}

fn put_all(
    alloc: Global,
    journal: &mut Vec<JournalEntry>,
    entries: &[JournalEntry],
) -> Result<(), Memory>
    ensures { OnOk result (journal.new.items ≡ journal.old.items ++ entries.now) }
{
    for entry in entries {
        let copy = entry.copy(alloc)?;
        journal.push(copy)?;
    }
    Ok(())
}
