//! Two connections and the bytes on their way between them.
ghost use Rattle.std.specs.Prelude.{◌≡◌, ◌⊎◌, Some, IfOk, IfErr, OnErr};
ghost use Rattle.rpc_machine.specs.World.{was_shut};
ghost use Rattle.rpc_machine.specs.Claims.{AreNumbered, CountsAgree, EndsAreSo, IsInFull, IsInOrder, IsInTime, IsQuietWhenDown, IsToOne, MeansOne};
ghost use Rattle.laws_sound.specs.Promised.{AreEachAtOne, AreInFull, DownsAreKnown, DownsAreTold, MeansForGood, RefusesNothing};
ghost use Rattle.vat_host.specs.declared.event.Event.{Event};
ghost use Rattle.vat_connection.specs.Calling.{answered};
ghost use Rattle.laws_in_bytes.specs.Joined.{end};
ghost use Rattle.vat_joined.specs.Recorded.{IsReached, new_recorded};
ghost use Rattle.vat_joined.specs.Doing.{DoesAsk, DoesCome, DoesCommand, DoesEnd, DoesGive, DoesSetLimits, DoesShut};
ghost use Rattle.vat_joined.specs.Promised.{AreToldInOrder, IsOneWorld, IsSoundIn, KeepsPromises, history_in, journal_in, world_in};

use crate::acts::{give_command, hand_out, take_in, tell_noted};
use crate::entry::JoinedEntry;
use crate::laws::joined_keep_promises;
use crate::stream::Stream;
use rpc_machine::{Command, Granted, Level};
use rpc_msg::{Memory, ObjectId, Vat};
use std::alloc::Global;
use std::marker::Model;
use vat_connection::{Connection, Limits};
use vat_host::{Core, Event, Refused};

/// Two connections of level 1, the bytes on their way to each, and the journal of what the two applications did and were told.
/// Bytes move only when `give` and `come` are called, so the bytes of one are cut into any pieces, and either waits as long as
/// one likes. A journal grows with each command and each event, so this is for tests.
///
/// Contracts see the two connections as they see each by itself, and every value of this type is one to which acts in order lead
/// from two new connections. So what is promised of two vats over bytes holds of it (`journal`).
pub struct Joined {
    a: Connection,
    b: Connection,
    to_a: Stream,
    to_b: Stream,
    journal: Vec<JoinedEntry>,
    alloc: Global,
}

// By hand, so that who drops it need not prove again how each of its parts is dropped.
impl Drop for Joined {
    fn drop(self) {
        let Joined {
            a: _,
            b: _,
            to_a: _,
            to_b: _,
            journal: _,
            alloc: _,
        } = self;
    }
}

impl Model for Joined {
    ghost use Rattle.vat_joined.specs.Recorded.{IsReached, Recorded, on_way, recorded_code};

    ghost Value = { Recorded };

    ghost coded = { recorded_code };

    ghost view = { λ j. record { joined = record { a = j.a; b = j.b; to_a = on_way j.to_a; to_b = on_way j.to_b }; journal = j.journal.items } };

    ghost invariant = { λ j. IsReached (record { joined = record { a = j.a; b = j.b; to_a = on_way j.to_a; to_b = on_way j.to_b }; journal = j.journal.items }) };
}

impl Joined {
    /// Two new connections of level 1 with those bootstrap objects, if they have one. `Memory` if the memory of their Aborts was
    /// refused.
    pub fn new(
        alloc: Global,
        bootstrap_a: Option<ObjectId>,
        bootstrap_b: Option<ObjectId>,
    ) -> Result<Joined, Memory>
        ensures { IfOk result (λ joined. joined ≡ new_recorded bootstrap_a bootstrap_b) }
    {
        let a = Connection::new(alloc, Vat::A, Level::One, bootstrap_a)?;
        let b = Connection::new(alloc, Vat::B, Level::One, bootstrap_b)?;
        Ok(Joined {
            a,
            b,
            to_a: Stream::new(alloc),
            to_b: Stream::new(alloc),
            journal: Vec::new(alloc),
            alloc,
        })
    }

    /// The core of that vat, to be asked.
    pub fn core(&self, vat: Vat) -> &Core
        ensures { result.now ≡ (end self.now.joined vat).speaker.host.core }
    {
        match vat {
            Vat::A => self.a.core(),
            Vat::B => self.b.core(),
        }
    }

    /// Gives that vat a command, as `Connection::command` does. One that is done is at the end of the journal, except for a shut. Refused
    /// with `Memory` too, if there is none for its entry. A command that is refused is handed back.
    pub fn command(&mut self, vat: Vat, command: Command) -> Result<Granted, Refused<Command>>
        ensures done { DoesCommand self.old vat command (answered result (λ granted. granted) (λ e. e.refusal)) self.new }
        ensures handed_back { IfErr result (λ e. e.back ≡ command) }
    {
        match vat {
            Vat::A => return give_command(self.alloc, vat, &mut self.a, &mut self.journal, command),
            Vat::B => return give_command(self.alloc, vat, &mut self.b, &mut self.journal, command),
        }
    }

    /// Puts the bytes that the vat has for the other behind those on their way there, as `Connection::outgoing` gives them. Says how
    /// many. `Memory` if a growth was refused: nothing is done.
    pub fn give(&mut self, vat: Vat) -> Result<usize, Memory>
        ensures given { IfOk result (λ count. DoesGive self.old vat count self.new) }
        ensures err { OnErr result (self.new ≡ self.old) }
    {
        match vat {
            Vat::A => return hand_out(&mut self.a, &mut self.to_b),
            Vat::B => return hand_out(&mut self.b, &mut self.to_a),
        }
    }

    /// Hands the first so many of the bytes on their way to that vat to it, or all if there are fewer, as `Connection::received` takes
    /// them. Says how many. `Memory` if a growth was refused: nothing is done.
    pub fn come(&mut self, vat: Vat, most: usize) -> Result<usize, Memory>
        ensures came { IfOk result (λ count. DoesCome self.old vat most count self.new) }
        ensures err { OnErr result (self.new ≡ self.old) }
    {
        match vat {
            Vat::A => return take_in(self.alloc, &mut self.a, &mut self.to_a, most),
            Vat::B => return take_in(self.alloc, &mut self.b, &mut self.to_b, most),
        }
    }

    /// What the vat has to tell its application, as `Connection::next_event`. It is at the end of the journal too. `Memory` if a growth
    /// was refused: for its entry, and nothing is done; or for the copy that is handed out, and it is told in the journal alone.
    pub fn next_event(&mut self, vat: Vat) -> Result<Option<Event>, Memory>
        ensures told { IfOk result (λ event. DoesAsk self.old vat event self.new) }
        ensures err { OnErr result ((self.new ≡ self.old) ⊎ ((event : Event) × DoesAsk self.old vat (Some event) self.new)) }
    {
        match vat {
            Vat::A => return tell_noted(self.alloc, vat, &mut self.a, &mut self.journal),
            Vat::B => return tell_noted(self.alloc, vat, &mut self.b, &mut self.journal),
        }
    }

    /// The stream to that vat has ended, as `Connection::ended`. What is on its way comes no more.
    pub fn end(&mut self, vat: Vat)
        ensures { DoesEnd self.old vat self.new }
    {
        match vat {
            Vat::A => self.a.ended(),
            Vat::B => self.b.ended(),
        }
    }

    /// Takes that vat down with that number, if it is up, as `Connection::shut`.
    pub fn shut(&mut self, vat: Vat, number: u16)
        ensures { DoesShut self.old vat number self.new }
    {
        match vat {
            Vat::A => self.a.shut(number),
            Vat::B => self.b.shut(number),
        }
    }

    /// Sets the load above which frames wait unheard at that vat, as `Connection::set_limits`.
    pub fn set_limits(&mut self, vat: Vat, limits: Limits)
        ensures { DoesSetLimits self.old vat limits self.new }
    {
        match vat {
            Vat::A => self.a.set_limits(limits),
            Vat::B => self.b.set_limits(limits),
        }
    }

    // Of every value of this type: acts in order lead to it from two new connections.
    fn promises(&self)
        ensures reached { IsReached self.now }
        ensures promised { KeepsPromises self.now }
    {
        joined_keep_promises();
        // A look at a field: without one, a body that only calls methods does not see the invariant of its type.
        let _ = &self.journal;
    }

    /// What the two applications did and were told, the oldest first: commands that were done, with what each granted, and events.
    ///
    /// It is what acts in order note that lead here from two new connections (`reached`), however bytes were cut and whenever they
    /// came. There is a run of two vats in one world with the same commands and answers, of which each application was told alike
    /// (`one_world`). Of each such run, by its journal, all is so that is promised of two vats: The calls delivered through a reference are a
    /// beginning of those made through it, in order (`in_order`). No two of these are one (`numbered`), so each is delivered once. All are
    /// at one object (`at_one`), the one for which the reference stands (`to_object`). It stands for nothing else (`means_one`), for
    /// good (`lasting`). While both vats are up, if none is held or on its way, all are delivered: once one was (`in_full`), and from
    /// the first if the reference stands for an object (`none_lost`). Each delivery has the interface, method and payload of the call that was
    /// made (`as_made`). Each call ends once, as it was answered, or with an exception that says why if its reference stands for broken (`ends`).
    /// A vat delivers nothing after it went down (`quiet`). While both are up, the count of each export is what the other vat holds
    /// and what is on its way (`counts`). No check refuses a message of the other vat, except for the limit of waiting calls and the
    /// Abort of one that is down (`unrefused`). A vat goes down once, for a shut, for that limit, for lack of room or memory, or
    /// because the other vat went down before (`downs`, `told`). What takes a vat down beside its machine, as the end of its stream,
    /// is a shut of the run. A vat that was shut has the number of that shut (`sound`). Of the calls made through a reference, those that an
    /// application was told to serve are a beginning, in the order in which it was told (`as_told`).
    pub fn journal(&self) -> &[JoinedEntry]
        ensures entries { result.now ≡ self.now.journal }
        ensures reached { IsReached self.now }
        ensures one_world { IsOneWorld self.now }
        ensures in_order { (one : IsOneWorld self.now) → IsInOrder (journal_in one) }
        ensures numbered { (one : IsOneWorld self.now) → AreNumbered (journal_in one) }
        ensures at_one { (one : IsOneWorld self.now) → AreEachAtOne (journal_in one) }
        ensures to_object { (one : IsOneWorld self.now) → IsToOne (history_in one) }
        ensures means_one { (one : IsOneWorld self.now) → MeansOne (history_in one) }
        ensures lasting { (one : IsOneWorld self.now) → MeansForGood (history_in one) }
        ensures in_full { (one : IsOneWorld self.now) → AreInFull (journal_in one) (world_in one) }
        ensures none_lost { (one : IsOneWorld self.now) → IsInFull (history_in one) (world_in one) }
        ensures as_made { (one : IsOneWorld self.now) → IsInTime (history_in one) }
        ensures ends { (one : IsOneWorld self.now) → EndsAreSo (history_in one) }
        ensures quiet { (one : IsOneWorld self.now) → IsQuietWhenDown (journal_in one) }
        ensures counts { (one : IsOneWorld self.now) → CountsAgree (world_in one) }
        ensures unrefused { (one : IsOneWorld self.now) → RefusesNothing (world_in one) }
        ensures downs { (one : IsOneWorld self.now) → DownsAreKnown (λ v. was_shut v one.happened) (journal_in one) }
        ensures told { (one : IsOneWorld self.now) → DownsAreTold (journal_in one) (world_in one) }
        ensures sound { (one : IsOneWorld self.now) → IsSoundIn one }
        ensures as_told { (one : IsOneWorld self.now) → AreToldInOrder one }
    {
        self.promises();
        self.journal.as_slice()
    }
}
