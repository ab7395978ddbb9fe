ghost use Rattle.std.specs.Prelude.{◌≡◌, ◌∷◌, [], IfOk, OnOk};
ghost use Rattle.rpc_msg.specs.declared.ids.Vat.TheVariants.{A, B};
ghost use Rattle.rpc_journal.specs.declared.entry.JournalEntry.TheVariants as entry;
ghost use Rattle.rpc_machine.specs.World.{tables_entry};
ghost use Rattle.rpc_machine.specs.Claims.{AreNumbered, CountsAgree, EndsAreSo, IsInFull, IsInOrder, IsInTime, IsQuietWhenDown, IsSound, IsToOne, MeansOne};
ghost use Rattle.laws_sound.specs.Promised.{AreEachAtOne, AreInFull, DownsAreKnown, DownsAreTold, MeansForGood, RefusesNothing, history_of};
ghost use Rattle.laws_verdicts.specs.Good.{IsGood};
ghost use Rattle.link_logs.specs.Promises.{IsBegun, IsTold, world_of, happened_in, journal_of, shut};
ghost use Rattle.link_rings.specs.Gather.{order, ReadsAll};
ghost use Rattle.link_logs.specs.Steps.{input_of, sends_of};
ghost use Rattle.link_sides.specs.Rooms.{held_code};
ghost use Rattle.std.specs.Coded.{Coded-set};
ghost use Rattle.link_ends.specs.Ends.{AreEnds};
ghost use Rattle.link_ends.specs.Gathered.{both_of};

use crate::ends::{EndA, EndB, VatEnd};
use laws_sound::{bootstraps_stay, worlds_are_sound};
use laws_verdicts::{every_verdict_is_good, journals_tell_runs};
use link_logs::{Note, Pieces, orders_keep_promises, pieced};
use link_rings::{Entry, Reads};
use link_sides::VatSide;
use rpc_journal::JournalEntry;
use rpc_msg::{Memory, Message};
use std::alloc::{AllocError, Global};

/// The vats and the logs of the two ends of one link. There is one order of both logs, which is a run of two vats.
#[derive(Drop)]
pub struct Gathered {
    pub(crate) both: link_rings::Gathered<VatSide, Note, Message>,
    ghost begun_a: { IsBegun A both.start_a } by { Coded-set held_code _ _ },
    ghost begun_b: { IsBegun B both.start_b } by { Coded-set held_code _ _ },
}

/// Puts the two ends of one link side by side, at any moment of either. Takes no memory.
pub fn gather(a: EndA, b: EndB) -> Gathered
    requires { AreEnds a.end b.end }
    ensures { result.both ≡ both_of a.end b.end }
{
    let VatEnd { end: a, at: _ } = a;
    let VatEnd { end: b, at: _ } = b;
    Gathered {
        both: link_rings::Gathered::of(a, b),
    }
}

impl Gathered {
    /// The log of A's end.
    pub fn log_a(&self) -> &[Entry<Note>]
        ensures { result.now ≡ self.now.both.log_a }
    {
        self.both.log_a()
    }

    /// The log of B's end.
    pub fn log_b(&self) -> &[Entry<Note>]
        ensures { result.now ≡ self.now.both.log_b }
    {
        self.both.log_b()
    }

    /// The two vats as they are.
    pub fn sides(&self) -> (&VatSide, &VatSide)
        ensures { (result.0.now ≡ self.now.both.side_a) × (result.1.now ≡ self.now.both.side_b) }
    {
        self.both.sides()
    }

    /// Has the entries of both logs read, in their one order, A's as those of the first; none is copied. `AllocError` if the
    /// reader answered it: then it was not handed all.
    pub fn read<V: Reads<Note>>(&self, reader: &mut V) -> Result<(), AllocError>
        ensures { OnOk result (ReadsAll V.reads reader.old (order input_of sends_of self.now.both.log_a self.now.both.log_b) reader.new) }
    {
        self.both.read(reader)
    }

    /// The entries of all that happened at both vats, the oldest first: what both ends wrote, put together in the one order of
    /// both logs. They are the journal of a run of two new vats (`reached`), in whatever order they were worked. So all that is
    /// promised of the journal of two vats in one thread (`vat_world::World::journal`) is promised of it, by the same names.
    /// `Memory` if a growth was refused.
    pub fn journal(&self, alloc: Global) -> Result<Vec<JournalEntry>, Memory>
        ensures reached { IfOk result (λ journal. IsTold self.now.both journal.items) }
        ensures in_order { IfOk result (λ journal. IsInOrder journal.items) }
        ensures numbered { IfOk result (λ journal. AreNumbered journal.items) }
        ensures at_one { IfOk result (λ journal. AreEachAtOne journal.items) }
        ensures to_object { IfOk result (λ journal. IsToOne (history_of journal.items (world_of self.now.both))) }
        ensures means_one { IfOk result (λ journal. MeansOne (history_of journal.items (world_of self.now.both))) }
        ensures lasting { IfOk result (λ journal. MeansForGood (history_of journal.items (world_of self.now.both))) }
        ensures in_full { IfOk result (λ journal. AreInFull journal.items (world_of self.now.both)) }
        ensures none_lost { IfOk result (λ journal. IsInFull (history_of journal.items (world_of self.now.both)) (world_of self.now.both)) }
        ensures as_made { IfOk result (λ journal. IsInTime (history_of journal.items (world_of self.now.both))) }
        ensures ends { IfOk result (λ journal. EndsAreSo (history_of journal.items (world_of self.now.both))) }
        ensures quiet { IfOk result (λ journal. IsQuietWhenDown journal.items) }
        ensures counts { CountsAgree (world_of self.now.both) }
        ensures unrefused { RefusesNothing (world_of self.now.both) }
        ensures downs { IfOk result (λ journal. DownsAreKnown (shut self.now.both) journal.items) }
        ensures told { IfOk result (λ journal. DownsAreTold journal.items (world_of self.now.both)) }
        ensures sound { IfOk result (λ journal. IsSound (history_of journal.items (world_of self.now.both)) (happened_in self.now.both) (world_of self.now.both)) }
        ensures is_good { IfOk result (λ journal. IsGood journal.items) }
        ensures headed { IfOk result (λ journal. IsGood (entry.Head ∷ journal.items)) }
    {
        self.promises();
        // Each arm by itself: a result that is handed on whole leaves its clauses to be proved by cases.
        match self.merged(alloc) {
            Ok(journal) => return Ok(journal),
            Err(Memory) => return Err(Memory),
        }
    }

    // Copies of what both ends wrote, in the one order of both logs.
    fn merged(&self, alloc: Global) -> Result<Vec<JournalEntry>, Memory>
        ensures { IfOk result (λ journal. journal.items ≡ journal_of self.now.both) }
    {
        let mut pieces = Pieces {
            list: Vec::new(alloc),
        };
        self.read(&mut pieces)?;
        let (a, b) = self.both.sides();
        let of_a = a.journal();
        let of_b = b.journal();
        // Each arm by itself: a result that is handed on whole leaves its clauses to be proved by cases.
        match pieced(alloc, &pieces.list, of_a, of_b) {
            Ok(journal) => return Ok(journal),
            Err(Memory) => return Err(Memory),
        }
    }

    // What both ends wrote, put together in the one order of both logs, whether or not there is memory for it.
    fn promises(&self)
        ensures told { IsTold self.now.both (journal_of self.now.both) }
        ensures counts { CountsAgree (world_of self.now.both) }
        ensures unrefused { RefusesNothing (world_of self.now.both) }
        ensures sound { IsSound (history_of (journal_of self.now.both) (world_of self.now.both)) (happened_in self.now.both) (world_of self.now.both) }
        ensures good { IsGood (journal_of self.now.both) }
        ensures headed { IsGood (entry.Head ∷ journal_of self.now.both) }
    {
        orders_keep_promises();
        bootstraps_stay();
        worlds_are_sound();
        journals_tell_runs();
        every_verdict_is_good();
        // A look at a field: without one, a body that only calls methods does not see the invariant of its type.
        let _ = self.both.log_b();
    }

    /// The entry of the counts of both vats' exports and imports. `Memory` if a growth was refused.
    pub fn tables(&self) -> Result<JournalEntry, Memory>
        ensures { IfOk result (λ entry. entry ≡ tables_entry (world_of self.now.both)) }
    {
        let (a, b) = self.both.sides();
        let of_a = a.counts()?;
        let of_b = b.counts()?;
        Ok(JournalEntry::Tables(of_a, of_b))
    }
}
