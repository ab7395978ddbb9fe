//! A vat that speaks with another by bytes.
ghost use Rattle.std.specs.Prelude.{◌≡◌, ◌⊎◌, false, IfOk, IfErr, not, length, ◌==◌, ◌||◌};
ghost use Rattle.rpc_machine.specs.Refusals.{is_shut};
ghost use Rattle.vat_host.specs.Hosting.{Does, Refuses};
ghost use Rattle.vat_connection.specs.Calling.{FindsNoRoom, FindsRoom, answered};
ghost use Rattle.vat_connection.specs.Connecting.{Connected, Finishes, Gives, Receives, Tells, TellsNext, WorksOn, answered_by, fresh, IsShut, wants_bytes};
ghost use Rattle.vat_connection.specs.Load.{no_limits};

use crate::arrivals::{proceed, receive, rest};
use crate::inflow::Inflow;
use crate::load::{Limits, Load};
use crate::open_calls::{OpenCalls, cut_off, finished_by};
use crate::speaker::Speaker;
use rpc_machine::{Command, Granted, Level, Refusal};
use rpc_msg::{Memory, ObjectId, Vat};
use std::alloc::Global;
use std::marker::Model;
use vat_host::{Core, Event, Refused};

/// A vat that speaks with another by bytes. It does no input and output of its own: what comes from the peer is handed to
/// `received`, and what `outgoing` gives is to be sent.
#[derive(Drop)]
pub struct Connection {
    pub(crate) speaker: Speaker,
    inflow: Inflow,
    limits: Limits,
    pub(crate) open_calls: OpenCalls,
    alloc: Global,
}

impl Model for Connection {
    ghost use Rattle.vat_connection.specs.Connecting.{Connected, connected_code};

    ghost Value = { Connected };

    ghost coded = { connected_code };

    ghost view = { λ a. record { speaker = a.speaker; inflow = a.inflow; limits = a.limits; open_calls = a.open_calls.0 } };
}

impl Connection {
    /// A new vat, of that level and with that bootstrap object if it has one, of whose stream nothing has come. It has no limits.
    /// `Memory` if the memory of its Abort was refused.
    pub fn new(
        alloc: Global,
        vat: Vat,
        level: Level,
        bootstrap: Option<ObjectId>,
    ) -> Result<Connection, Memory>
        ensures { IfOk result (λ connection. connection ≡ fresh vat level bootstrap) }
    {
        let speaker = Speaker::new(alloc, vat, level, bootstrap)?;
        Ok(Connection {
            speaker,
            inflow: Inflow::new(alloc),
            limits: Limits {
                words: u64::MAX,
                bytes: u64::MAX,
            },
            open_calls: OpenCalls::new(alloc),
            alloc,
        })
    }

    /// Its core, to be asked.
    pub fn core(&self) -> &Core
        ensures { result.now ≡ self.now.speaker.host.core }
    {
        self.speaker.host.core()
    }

    /// Takes bytes of the peer, in any pieces: the vat hears each frame that is whole now, in order, and the rest waits. While its load
    /// is above the limits, frames wait too. A Call or a Return that breaks a limit of messages by itself, and whose front says
    /// its question, costs its call alone (docs/messages.md, "Messages that are too large"). What is no frame, or a frame that is at
    /// fault, takes the vat down with the fault's number, and running out of memory with 33. A vat that is down drops what comes.
    pub fn received(&mut self, bytes: &[u8])
        ensures { Receives self.old bytes.now self.new }
    {
        if self.speaker.is_down() || self.inflow.is_over() {
            return;
        }
        receive(
            &mut self.speaker,
            &mut self.inflow,
            self.limits,
            self.alloc,
            bytes,
        );
    }

    /// The peer's stream has ended: takes a vat that is up down, with 0, or inside a frame with 2. If frames wait unheard, they are heard
    /// before, as the load allows it.
    pub fn ended(&mut self)
        ensures { Finishes self.old self.new }
    {
        if self.speaker.is_down() || self.inflow.is_over() {
            return;
        }
        let number = self.inflow.end_number();
        self.inflow.end(number);
        rest(&mut self.speaker, &mut self.inflow, self.alloc);
    }

    /// Takes a vat that is up down with that number. Its Abort is to be sent.
    pub fn shut(&mut self, number: u16)
        ensures { IsShut self.old number self.new }
    {
        self.speaker.fall(number);
    }

    /// Whether anything is to be sent.
    pub fn has_outgoing(&self) -> bool
        ensures { result ≡ (not (length self.now.speaker.host.messages == 0) || not (length self.now.speaker.out.bytes == 0)) }
    {
        self.speaker.host.has_messages() || !self.speaker.out.bytes().is_empty()
    }

    /// Hands out the bytes that are to be sent to the peer, once: the frames of all messages that the vat has said by now. Frames that
    /// wait unheard are heard before, as the load allows it. If a message has no frame, or memory runs out for it, the vat goes down
    /// with 33, and of what it said from there on an Abort alone is sent, if memory suffices for it. After that of a vat that is down
    /// nothing more is.
    pub fn outgoing(&mut self) -> Vec<u8>
        ensures { Gives self.old result.items self.new }
    {
        self.work_on();
        self.speaker.take_bytes()
    }

    /// What there is to tell, as `Host::next_event`: what the steps left, the oldest first, and behind that each task that is cancelled
    /// and each object that is released. Of a vat that is down, before that is told, each own call that is open, as one that ended with
    /// `Disconnected`. Frames that wait unheard are heard before, as the load allows it, and what the vat has to say becomes frames, as
    /// by `outgoing`, since the vat may hear something of it.
    pub fn next_event(&mut self) -> Option<Event>
        ensures { Tells self.old result self.new }
    {
        self.work_on();
        self.tell_next()
    }

    // Hears what waits, as the load allows it, and passes on all that the vat has to say.
    fn work_on(&mut self)
        ensures { WorksOn self.old self.new }
    {
        proceed(&mut self.speaker, &mut self.inflow, self.limits, self.alloc);
        self.speaker.say();
    }

    fn tell_next(&mut self) -> Option<Event>
        ensures { TellsNext self.old result self.new }
    {
        if self.speaker.host.has_only_down() {
            if let Some(call) = self.open_calls.pop() {
                return Some(Event::Ended(cut_off(self.alloc, call)));
            }
        }
        let Some(event) = self.speaker.host.next_event() else {
            self.speaker.heard.all_told();
            return None;
        };
        if let Event::Ended(ended) = &event {
            self.open_calls.remove(ended.call);
        }
        Some(event)
    }

    /// What the connection holds of its peer: the words of Calls for which no Return was said, and of other frames until `next_event`
    /// found nothing to tell, each as large as its frame or its contents, whichever is more; and the bytes that wait to be sent.
    pub fn load(&self) -> Load
        ensures words { result.words ≡ self.now.speaker.heard.words }
        ensures bytes { result.bytes ≡ length self.now.speaker.out.bytes }
    {
        Load {
            words: self.speaker.heard.words(),
            bytes: self.speaker.out.bytes().len() as u64,
        }
    }

    /// Sets the load above which frames wait unheard. Once the words of what was heard are at most their limit and one frame more, they
    /// stay so while the vat is up (`load_is_bounded`). A limit that is too low for what two applications need of each other at a time
    /// stops both.
    pub fn set_limits(&mut self, limits: Limits)
        ensures { self.new ≡ record self.old { limits = limits } }
    {
        self.limits = limits;
    }

    /// Whether more bytes of the peer would be heard. If not, a vat that is up has events to be taken, bytes to be sent, or calls to be
    /// answered, and what comes only waits.
    pub fn wants_bytes(&self) -> bool
        ensures { result ≡ wants_bytes self.now }
    {
        if self.speaker.is_down() || self.inflow.is_over() {
            return false;
        }
        self.inflow.is_empty() && self.speaker.may_hear(self.limits)
    }

    /// Takes a command of any kind, as `Host::command` does. Refused with `Full` too, if what it gives may be too large for
    /// the frames that carry it (docs/messages.md, "What fits"), or if the exports that an `Answer` or a `Resolve` may want have no
    /// place (docs/protocol.md, "Limits"). Refused with `Memory` too, except for a `Shut`, if there is no place for
    /// a call that it may make. A command that is refused is handed back.
    pub fn command(&mut self, command: Command) -> Result<Granted, Refused<Command>>
        ensures done { IfOk result (λ granted. Does self.old.speaker.host command granted self.new.speaker.host × FindsRoom self.old.speaker.host command) }
        ensures refused { IfErr result (λ e. Refuses self.old.speaker.host command e.refusal self.new.speaker.host ⊎ FindsNoRoom self.old.speaker.host command e.refusal self.new.speaker.host) }
        ensures handed_back { IfErr result (λ e. e.back ≡ command) }
        ensures rest { self.new ≡ answered_by self.old command (answered result (λ granted. granted) (λ e. e.refusal)) self.new.speaker.host }
    {
        if let Command::Shut(number) = command {
            self.speaker.fall(number);
            return Ok(Granted::Done);
        }
        self.command_with_place(command)
    }

    // Takes a command, if there is a place for a call that it may make.
    fn command_with_place(&mut self, command: Command) -> Result<Granted, Refused<Command>>
        requires { is_shut command ≡ false }
        ensures done { IfOk result (λ granted. Does self.old.speaker.host command granted self.new.speaker.host × FindsRoom self.old.speaker.host command) }
        ensures refused { IfErr result (λ e. Refuses self.old.speaker.host command e.refusal self.new.speaker.host ⊎ FindsNoRoom self.old.speaker.host command e.refusal self.new.speaker.host) }
        ensures handed_back { IfErr result (λ e. e.back ≡ command) }
        ensures rest { self.new ≡ answered_by self.old command (answered result (λ granted. granted) (λ e. e.refusal)) self.new.speaker.host }
    {
        let Ok(()) = self.open_calls.reserve() else {
            return Err(Refused {
                refusal: Refusal::Memory,
                back: command,
            });
        };
        let finished = finished_by(&command);
        match self.speaker.command(command) {
            Ok(granted) => {
                self.open_calls.follow(finished, granted);
                return Ok(granted);
            }
            Err(refused) => return Err(refused),
        }
    }
}
