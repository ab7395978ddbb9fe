//! What one end said so far.
use crate::act::Kind;
use crate::export::Export;
use crate::question::{Closed, Question};
use rpc_msg::{ExportId, Memory};
use std::alloc::Global;
use std::collections::{BTreeMap, BTreeSet};

/// How many messages of each kind were said, less those that came back.
#[derive(Drop)]
pub struct Kinds {
    by_number: BTreeMap<u16, u64>,
}

impl Kinds {
    ghost use Rattle.std.specs.Prelude.{◌≡◌, ℕ, OnOk};
    ghost use Rattle.look_books.specs.Ends.{counted_in};
    ghost use Rattle.look_books.specs.Acts.{number_of};
    ghost use Rattle.look_books.specs.After.{put, said_by};

    fn new(alloc: Global) -> Kinds
        ensures { (n : ℕ) → counted_in result n ≡ 0 }
    {
        Kinds {
            by_number: BTreeMap::new(alloc),
        }
    }

    /// How many.
    pub fn of(&self, kind: Kind) -> u64
        ensures { result ≡ counted_in self.now (number_of kind) }
    {
        match self.by_number.get(&kind.number()) {
            Some(count) => *count,
            None => 0,
        }
    }

    fn set(&mut self, kind: Kind, count: u64) -> Result<(), Memory>
        ensures { OnOk result (said_by self.new ≡ put (number_of kind) count (said_by self.old)) }
    {
        self.by_number.insert(kind.number(), count)?;
        Ok(())
    }
}

/// What one end said so far, as far as it counts.
#[derive(Drop)]
pub struct End {
    pub alloc: Global,
    /// Its open questions.
    pub questions: BTreeMap<u32, Question>,
    /// The last question of each id that is not open.
    pub closed: BTreeMap<u32, Closed>,
    /// Its exports that the other holds.
    pub exports: BTreeMap<u32, Export>,
    /// Where each other one was given back whole.
    pub gone: BTreeMap<u32, u64>,
    /// Its promises whose Resolve may come.
    pub owed: BTreeSet<u32>,
    /// Its promises that some Resolve led to a capability.
    pub led: BTreeSet<u32>,
    /// Its embargoes that are under way, each with the message that began it.
    pub embargoes: BTreeMap<u32, u64>,
    /// Its Abort.
    pub down: Option<u64>,
    /// Its messages.
    pub kinds: Kinds,
    /// The bytes of its messages.
    pub bytes: u64,
    /// The counts of its exports, together.
    pub held: u64,
}

impl End {
    ghost use Rattle.std.specs.Prelude.{◌≡◌, OnOk};
    ghost use Rattle.look_books.specs.Ends.{kept_of, count_at};
    ghost use Rattle.look_books.specs.After.{unsaid, more, fewer};

    pub(crate) fn new(alloc: Global) -> End
        ensures { kept_of result ≡ unsaid }
    {
        End {
            alloc,
            questions: BTreeMap::new(alloc),
            closed: BTreeMap::new(alloc),
            exports: BTreeMap::new(alloc),
            gone: BTreeMap::new(alloc),
            owed: BTreeSet::new(alloc),
            led: BTreeSet::new(alloc),
            embargoes: BTreeMap::new(alloc),
            down: None,
            kinds: Kinds::new(alloc),
            bytes: 0,
            held: 0,
        }
    }

    /// How many of an export the other holds.
    pub fn count(&self, export: ExportId) -> u64
        ensures { result ≡ count_at (kept_of self.now) export }
    {
        match self.exports.get(&export.0) {
            Some(export) => export.count,
            None => 0,
        }
    }

    /// One more message of a kind was said.
    pub(crate) fn count_message(&mut self, kind: Kind) -> Result<(), Memory>
        ensures { OnOk result (kept_of self.new ≡ more kind (kept_of self.old)) }
    {
        let count = self.kinds.of(kind).saturating_add(1);
        self.kinds.set(kind, count)?;
        Ok(())
    }

    /// A message of a kind came back.
    pub(crate) fn discount_message(&mut self, kind: Kind) -> Result<(), Memory>
        ensures { OnOk result (kept_of self.new ≡ fewer kind (kept_of self.old)) }
    {
        let count = self.kinds.of(kind).saturating_sub(1);
        self.kinds.set(kind, count)?;
        Ok(())
    }
}
