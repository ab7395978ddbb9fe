ghost use Rattle.std.specs.Prelude.{◌≡◌, ◌↔◌, true, false, ◌++◌, [], ◌∷◌, Some, IsTrue, IfOk, OnOk, OnErr};
ghost use Rattle.rpc_journal.specs.declared.entry.JournalEntry.{JournalEntry};
ghost use Rattle.rpc_machine.specs.Numbers.{want_of_room};
ghost use Rattle.rpc_machine.specs.World.{core, tables_entry};
ghost use Rattle.rpc_machine.specs.Pending.{is_idle, pending};
ghost use Rattle.rpc_machine.specs.Claims.{AreNumbered, CountsAgree, EndsAreSo, IsInFull, IsInOrder, IsInTime, IsQuietWhenDown, IsSound, IsToOne, MeansOne};
ghost use Rattle.rpc_machine.specs.declared.event.Event.TheVariants as event;
ghost use Rattle.laws_sound.specs.Promised.{AreEachAtOne, AreInFull, DownsAreKnown, DownsAreTold, MeansForGood, RefusesNothing, history_of};
ghost use Rattle.laws_verdicts.specs.Good.{IsGood};
ghost use Rattle.rpc_journal.specs.declared.entry.JournalEntry.TheVariants as entry;
ghost use Rattle.vat_world.specs.World.{AllCame, IsReached, KeepsBootstraps, KeepsPromises, Steps, Runs, new_seen, shut, told, vat_of};

use crate::answer::StepAnswer;
use crate::side::Side;
use crate::step::{deliver, obey};
use core_telling::{Answer, Journal};
use laws_runs::calls_are_counted;
use laws_sound::{bootstraps_stay, worlds_are_sound, worlds_keep_promises};
use laws_verdicts::every_verdict_is_good;
use rpc_journal::JournalEntry;
use rpc_machine::{Command, Effects, Event};
use rpc_msg::{Memory, ObjectId, RefId, Vat};
use std::alloc::Global;
use std::marker::Model;

/// Two vats of level 1, the messages on their way between them, and the journal of what happens. It keeps the room that both
/// vats need to go down, so that running out of memory takes a vat down and is written.
///
/// Contracts see it as the world of `docs/protocol.md`, and every value of this type is one to which a run of two new
/// vats leads, with the journal of that run. So what is promised of every run holds of it (`promises`).
pub struct World {
    a: Side,
    b: Side,
    journal: Journal,
    alloc: Global,
}

// By hand, as that of a core.
impl Drop for World {
    fn drop(self) {
        let World {
            a: _,
            b: _,
            journal: _,
            alloc: _,
        } = self;
    }
}

impl Model for World {
    ghost use Rattle.vat_world.specs.World.{Seen, seen_code, IsReached};
    ghost use Rattle.vat_world.specs.Rooms.{seen_of, HasRoom};

    ghost Value = { Seen };

    ghost coded = { seen_code };

    ghost view = { λ w. seen_of w.a w.b w.journal };

    ghost invariant = { λ w. HasRoom w.a w.b w.journal × IsReached (seen_of w.a w.b w.journal) };
}

impl World {
    /// Two new vats of level 1 with those bootstrap objects, if they have one. `Memory` if the room that they keep was
    /// refused.
    pub fn new(
        alloc: Global,
        bootstrap_a: Option<ObjectId>,
        bootstrap_b: Option<ObjectId>,
    ) -> Result<World, Memory>
        ensures { IfOk result (λ world. world ≡ new_seen bootstrap_a bootstrap_b) }
    {
        let a = Side::new(alloc, Vat::A, bootstrap_a)?;
        let b = Side::new(alloc, Vat::B, bootstrap_b)?;
        let journal = Journal::new(alloc)?;
        Ok(World {
            a,
            b,
            journal,
            alloc,
        })
    }

    /// Lets an event happen, and answers it: what a command answers, what a received message did, or `Empty` if there is
    /// no message or the vat is down. What happened is at the end of the journal. A command that is refused is handed back.
    /// If a link or the journal can't grow for it, the acting vat goes down with fault 33.
    ///
    /// Whatever happened before, the calls delivered through a reference are a beginning of those made through it, in
    /// order, each once, all at the object for which it stands. All of them are delivered once none is held or on its
    /// way. Each ends as it was answered. What else is promised, `journal` says. The vats keep their bootstrap objects.
    #[inline(always)]
    pub fn step(&mut self, event: Event) -> StepAnswer
        ensures steps { Steps self.old event result self.new }
        ensures promised { KeepsPromises self.new }
        ensures bootstraps { KeepsBootstraps self.old self.new }
    {
        bootstraps_stay();
        match event {
            Event::Command(vat, command) => return self.command(vat, command),
            Event::Deliver(vat) => return self.deliver(vat),
        }
    }

    #[inline(always)]
    fn command(&mut self, vat: Vat, command: Command) -> StepAnswer
        ensures steps { Steps self.old (event.Command vat command) result self.new }
        ensures promised { KeepsPromises self.new }
    {
        calls_are_counted();
        worlds_keep_promises();
        match vat {
            Vat::A => return obey(
                self.alloc,
                vat,
                &mut self.a,
                &mut self.b,
                &mut self.journal,
                command,
            ),
            Vat::B => return obey(
                self.alloc,
                vat,
                &mut self.b,
                &mut self.a,
                &mut self.journal,
                command,
            ),
        }
    }

    #[inline(always)]
    fn deliver(&mut self, vat: Vat) -> StepAnswer
        ensures steps { Steps self.old (event.Deliver vat) result self.new }
        ensures promised { KeepsPromises self.new }
    {
        worlds_keep_promises();
        match vat {
            Vat::A => return deliver(self.alloc, vat, &mut self.a, &mut self.b, &mut self.journal),
            Vat::B => return deliver(self.alloc, vat, &mut self.b, &mut self.a, &mut self.journal),
        }
    }

    /// Lets events happen in order, as `step` does, whatever each answers; with the same promises.
    pub fn run(&mut self, events: Vec<Event>)
        ensures runs { Runs self.old events.items self.new }
        ensures promised { KeepsPromises self.new }
        ensures bootstraps { KeepsBootstraps self.old self.new }
    {
        bootstraps_stay();
        for event in events {
            let vat = vat_of(&event);
            let answer = self.step(event);
            self.give_back(vat, answer);
        }
        self.promises();
    }

    /// Takes back the memory of effects of that vat that were looked at, for those of its later steps; what they still hold
    /// is dropped. Nothing else changes, and no memory is taken. Who gives back what each step answers saves the vats memory
    /// that each step would else take.
    #[inline(always)]
    pub fn recycle(&mut self, vat: Vat, effects: Effects)
        ensures { self.new ≡ self.old }
    {
        match vat {
            Vat::A => self.a.core.recycle(effects),
            Vat::B => self.b.core.recycle(effects),
        }
    }

    /// Takes back the memory of what an event of that vat answered, as `recycle` does that of its effects. Nothing else
    /// changes, and no memory is taken.
    pub fn give_back(&mut self, vat: Vat, answer: StepAnswer)
        ensures { self.new ≡ self.old }
    {
        match answer {
            StepAnswer::Answered(Answer::Done(_, effects)) => self.recycle(vat, effects),
            StepAnswer::Answered(Answer::Refused(_, _)) => {}
            StepAnswer::Handled(effects) => self.recycle(vat, effects),
            StepAnswer::Empty => {}
        }
    }

    // Of every value of this type: a run of two new vats leads to it.
    fn promises(&self)
        ensures { KeepsPromises self.now }
    {
        worlds_keep_promises();
        // A look at a field: without one, a body that only calls methods does not see the invariant of its type.
        let _ = &self.journal;
    }

    // All that is promised of runs is so of each run that leads to a value of this type.
    fn is_sound(&self)
        ensures { (r : IsReached self.now) → IsSound (told self.now) r.run.happened self.now.world }
    {
        bootstraps_stay();
        worlds_are_sound();
        // A look at a field: without one, a body that only calls methods does not see the invariant of its type.
        let _ = &self.journal;
    }

    // The check of traces finds the journal of every value of this type good.
    fn passes_the_check(&self)
        ensures alone { IsGood self.now.journal }
        ensures headed { IsGood (entry.Head ∷ self.now.journal) }
    {
        every_verdict_is_good();
        // A look at a field: without one, a body that only calls methods does not see the invariant of its type.
        let _ = &self.journal;
    }

    /// The entries of all that happened, the oldest first: those of a run of two new vats (`reached`), whatever they were
    /// commanded and whenever messages came.
    ///
    /// By it the calls delivered through a reference are a beginning of those made through it, in order (`in_order`).
    /// No two of these are one (`numbered`), so each is delivered once. All are at one object (`at_one`), the one for
    /// which the reference stands by the journal (`to_object`). It stands for nothing else (`means_one`), for good
    /// (`lasting`). While both vats are up, if none is held or on its way, all are delivered: once one was (`in_full`),
    /// and from the first if the reference stands for an object (`none_lost`). Each delivery has the interface, method
    /// and payload of the call that was made, and one new reference for each that was sent (`as_made`). Each call ends
    /// once, as it was answered, or with an exception that says why if its reference stands for broken, and with new
    /// references for those that came (`ends`). A vat delivers nothing after it went down (`quiet`). While both are up,
    /// the count of each export is what the other vat holds and what is on its way (`counts`). No check refuses a
    /// message of the other vat, except for the limit of waiting calls and the Abort of one that is down (`unrefused`).
    /// A vat goes down once, for a shut, for that limit, for lack of room or memory, or because the other vat went down
    /// before (`downs`, `told`). Of each run that leads here all is so that is promised of runs: a vat that was shut
    /// has the number of that shut (`sound`). And the check of traces finds the journal good, with a head in front too
    /// (`is_good`, `headed`).
    pub fn journal(&self) -> &[JournalEntry]
        ensures entries { result.now ≡ self.now.journal }
        ensures reached { IsReached self.now }
        ensures in_order { IsInOrder result.now }
        ensures numbered { AreNumbered result.now }
        ensures at_one { AreEachAtOne result.now }
        ensures to_object { IsToOne (history_of result.now self.now.world) }
        ensures means_one { MeansOne (history_of result.now self.now.world) }
        ensures lasting { MeansForGood (history_of result.now self.now.world) }
        ensures in_full { AreInFull result.now self.now.world }
        ensures none_lost { IsInFull (history_of result.now self.now.world) self.now.world }
        ensures as_made { IsInTime (history_of result.now self.now.world) }
        ensures ends { EndsAreSo (history_of result.now self.now.world) }
        ensures quiet { IsQuietWhenDown result.now }
        ensures counts { CountsAgree self.now.world }
        ensures unrefused { RefusesNothing self.now.world }
        ensures downs { DownsAreKnown (shut self.now) result.now }
        ensures told { DownsAreTold result.now self.now.world }
        ensures sound { (r : IsReached self.now) → IsSound (history_of result.now self.now.world) r.run.happened self.now.world }
        ensures is_good { IsGood result.now }
        ensures headed { IsGood (entry.Head ∷ result.now) }
    {
        self.promises();
        self.is_sound();
        self.passes_the_check();
        self.journal.entries()
    }

    /// Puts the counts of both vats' exports and imports at the end of the journal. `Memory` if a growth was refused:
    /// the world is as it was.
    pub fn note_tables(&mut self) -> Result<(), Memory>
        ensures ok { OnOk result (self.new ≡ record (self.old) { journal = self.old.journal ++ tables_entry self.old.world ∷ [] }) }
        ensures err { OnErr result (self.new ≡ self.old) }
    {
        let a = self.a.core.counts()?;
        let b = self.b.core.counts()?;
        self.journal.prepare(0)?;
        self.journal.push(JournalEntry::Tables(a, b));
        Ok(())
    }

    /// Whether no call of that reference of that vat is held, embargoed or in a Call message on its way. So all that
    /// were made through it, and not delivered, have another end. While both vats are up, none was left out if the
    /// reference stands for an object (`all_came`). Takes no memory.
    pub fn idle(&self, vat: Vat, reference: RefId) -> bool
        ensures idle { result ≡ is_idle self.now.world (record { vat = vat; number = reference.0 }) }
        ensures none_pending { result ≡ true ↔ pending self.now.world (record { vat = vat; number = reference.0 }) ≡ [] }
        ensures all_came { result ≡ true → AllCame self.now (record { vat = vat; number = reference.0 }) }
    {
        self.promises();
        self.none_waits(vat, reference)
    }

    fn none_waits(&self, vat: Vat, reference: RefId) -> bool
        ensures { result ≡ is_idle self.now.world (record { vat = vat; number = reference.0 }) }
    {
        if self.a.core.holds(vat, reference) || self.b.core.holds(vat, reference) {
            return false;
        }
        if self.a.inbox.has_call(vat, reference) || self.b.inbox.has_call(vat, reference) {
            return false;
        }
        true
    }

    /// Whether a shut took that vat down. Takes no memory.
    pub fn was_shut(&self, vat: Vat) -> bool
        ensures { result ≡ shut self.now vat }
    {
        match vat {
            Vat::A => self.a.was_shut,
            Vat::B => self.b.was_shut,
        }
    }

    /// Whether that vat went down for lack of memory: with 33, by no shut, and without meeting a limit, whose number is the same.
    /// Takes no memory.
    pub fn lacked_memory(&self, vat: Vat) -> bool
        ensures down { IsTrue result → (core self.now.world vat).down ≡ Some want_of_room }
        ensures by_itself { IsTrue result → shut self.now vat ≡ false }
    {
        match vat {
            Vat::A => self.a.lacked_memory(),
            Vat::B => self.b.lacked_memory(),
        }
    }
}

/// The vat at which an event happens.
pub fn vat_of(event: &Event) -> Vat
    ensures { result ≡ vat_of event.now }
{
    match event {
        Event::Command(vat, _) | Event::Deliver(vat) => *vat,
    }
}
