ghost use Rattle.std.specs.Prelude.{◌≡◌, ◌+◌, length, min, IfOk, IfErr, MatchOption};
ghost use Rattle.vat_connection.specs.Connecting.{Finishes, Receives, wants_bytes};
ghost use Rattle.vat_connection.specs.Load.{greatest};
ghost use Rattle.lovendak_c_desk.specs.Desks.{Awaits, HandsOut, IsNotMade, Looks, Says, idle, with_connection};
ghost use Rattle.lovendak_c_desk.specs.Given.{level_at};
ghost use Rattle.lovendak_c_desk.specs.Commands.{SetsFinishes, ShutsWith};

use crate::byte_queue::Waiting;
use crate::given::{finishes_of, level_of};
use crate::not_done::NotDone;
use std::alloc::Global;
use vat_connection::{Connection, Event, Level, Limits, Load, Memory, ObjectId, Vat};

/// Which of the two vats it is says nothing over bytes.
const VAT: Vat = Vat::A;

/// A connection, with the bytes that are to be sent and were not taken, and the oldest event, if it was looked at and not
/// taken. What is done to the connection itself changes neither.
pub struct Desk {
    pub connection: Connection,
    pub waiting: Waiting,
    pub event: Option<Event>,
}

// By hand, as that of a core.
impl Drop for Desk {
    fn drop(self) {
        let Desk {
            connection: _,
            waiting: _,
            event: _,
        } = self;
    }
}

impl Desk {
    /// A new vat in a box, of the level of that number and with that bootstrap object if it has one. `NoSuchNumber` if the level is
    /// neither 0 nor 1, `Memory`.
    pub fn boxed(
        alloc: Global,
        level: u32,
        bootstrap: Option<ObjectId>,
    ) -> Result<Box<Desk>, NotDone>
        ensures made { IfOk result (λ made. MatchOption (level_at level) ⊥ (λ known. made.value ≡ idle known bootstrap)) }
        ensures refused { IfErr result (λ why. IsNotMade (level_at level) why) }
    {
        let level = level_of(level)?;
        let desk = Desk::new(alloc, level, bootstrap)?;
        match Box::new(alloc, desk) {
            Ok(boxed) => Ok(boxed),
            Err(_refused) => Err(NotDone::from(Memory)),
        }
    }

    /// A new vat, of that level and with that bootstrap object if it has one, of whose stream nothing has come. `Memory` if
    /// the memory of its Abort was refused.
    pub fn new(alloc: Global, level: Level, bootstrap: Option<ObjectId>) -> Result<Desk, Memory>
        ensures { IfOk result (λ desk. desk ≡ idle level bootstrap) }
    {
        let connection = Connection::new(alloc, VAT, level, bootstrap)?;
        Ok(Desk {
            connection,
            waiting: Waiting::new(Vec::new(alloc)),
            event: None,
        })
    }

    /// If no bytes wait, what the vat has said by now becomes bytes, as `Connection::outgoing` hands them out, and they wait.
    pub fn say(&mut self)
        ensures { Says self.old self.new }
    {
        if !self.waiting.is_empty() {
            return;
        }
        self.waiting = Waiting::new(self.connection.outgoing());
    }

    /// If no event was looked at, the oldest is, if there is one: it is that which `Connection::next_event` tells.
    pub fn look(&mut self)
        ensures { Looks self.old self.new }
    {
        if self.event.is_some() {
            return;
        }
        self.event = self.connection.next_event();
    }

    /// Takes bytes of the peer, in any pieces, as `Connection::received` does.
    pub fn received(&mut self, bytes: &[u8])
        ensures receives { Receives self.old.connection bytes.now self.new.connection }
        ensures rest { self.new ≡ with_connection self.old self.new.connection }
    {
        self.connection.received(bytes);
    }

    /// The peer's stream has ended.
    pub fn ended(&mut self)
        ensures finishes { Finishes self.old.connection self.new.connection }
        ensures rest { self.new ≡ with_connection self.old self.new.connection }
    {
        self.connection.ended();
    }

    /// What the connection holds of its peer, as `Connection::load`, with the bytes that were taken out of it and wait here.
    pub fn load(&self) -> Load
        ensures words { result.words ≡ self.now.connection.speaker.heard.words }
        ensures bytes { result.bytes ≡ min greatest (length self.now.connection.speaker.out.bytes + length self.now.waiting) }
    {
        let Load { words, bytes } = self.connection.load();
        Load {
            words,
            bytes: bytes.saturating_add(self.waiting.len() as u64),
        }
    }

    /// Sets the load above which frames wait unheard, as `Connection::set_limits` does.
    pub fn set_limits(&mut self, words: u64, bytes: u64)
        ensures { self.new ≡ with_connection self.old (record (self.old.connection) { limits = record { words = words; bytes = bytes } }) }
    {
        self.connection.set_limits(Limits { words, bytes });
    }

    /// When the Finish goes of a call that goes out from now on, as `Connection::set_finishes`: 0 at once, 1 behind its Return.
    /// `NoSuchNumber` of another number.
    pub fn set_finishes(&mut self, when: u32) -> Result<(), NotDone>
        ensures { SetsFinishes self.old when result self.new }
    {
        let finishes = finishes_of(when)?;
        self.connection.set_finishes(finishes);
        Ok(())
    }

    /// Whether more bytes of the peer would be heard, as `Connection::wants_bytes`.
    pub fn wants_bytes(&self) -> bool
        ensures { result ≡ wants_bytes self.now.connection }
    {
        self.connection.wants_bytes()
    }

    /// Hands out bytes that are to be sent, once, as many as wait and there is room for, and gives how many: none only if none
    /// are to be sent, or there is no room.
    pub fn outgoing(&mut self, out: &mut [u8]) -> usize
        ensures { HandsOut self.old out.old result out.new self.new }
    {
        self.say();
        self.waiting.take(out)
    }

    /// How many bytes wait to be sent, none only if none are to be; and whether there is an event.
    pub fn pending(&mut self) -> (usize, bool)
        ensures { Awaits self.old result.0 result.1 self.new }
    {
        self.say();
        self.look();
        (self.waiting.len(), self.event.is_some())
    }

    /// Takes a vat that is up down with that number. `NoSuchNumber` if it is above 65,535.
    pub fn shut(&mut self, number: u32) -> Result<(), NotDone>
        ensures { ShutsWith self.old number result self.new }
    {
        if number >= TOO_LARGE {
            return Err(NotDone::NoSuchNumber);
        }
        self.connection.shut(number as u16);
        Ok(())
    }
}

/// No vat goes down with it.
const TOO_LARGE: u32 = 65_536;
