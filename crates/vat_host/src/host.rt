ghost use Rattle.std.specs.Prelude.{◌≡◌, ◌⊎◌, ◌==◌, not, length, [], ◌∷◌, None, Some, true, false, IfOk, IfSome, IfNone, IsSome, MatchBool, option_copied};
ghost use Rattle.rpc_machine.specs.State.{start};
ghost use Rattle.rpc_machine.specs.Down.{ShutsFrom};
ghost use Rattle.rpc_machine.specs.declared.command.Effects.{Effects};
ghost use Rattle.rpc_machine.specs.declared.command.Command.TheVariants as command;
ghost use Rattle.std.specs.FinMap as map;
ghost use Rattle.laws_released.specs.Known.{least_known, unnamed_root};
ghost use Rattle.vat_host.specs.Hosting.{AllAreNamed, Commands, HasCancelled, Hears, HearsSilently, IsIdle, IsReleased, NotesReason, Tells, reason_of, has_only_down, has_released, hosted_by, idle, is_abort, stepped};
ghost use Rattle.vat_host.specs.Objects.{no_objects, with_object};
ghost use Rattle.vat_host.specs.Unanswered.{NoneIsCancelledOf};

use crate::event::{DownNotice, Event};
use crate::hosted_objects::{HostedObjects, is_unnamed};
use crate::kept::Kept;
use crate::unanswered::Unanswered;
use crate::watched::Watched;
use rpc_machine::{Command, Effects, Fault, Granted, Level, Refusal};
use rpc_msg::{Items, Memory, Message, ObjectId, PlainMessage, Text, Vat};
use std::alloc::Global;
use std::marker::Model;
use std::mem;
use vat_core::{Answer, Core, Refused};

/// A vat with what its steps left to do: messages to send to the peer, and events to tell its application.
pub struct Host {
    pub(crate) core: Core,
    pub(crate) kept: Kept,
    pub(crate) objects: HostedObjects,
    pub(crate) unanswered: Unanswered,
    down_notice: DownNotice,
    alloc: Global,
}

// By hand, as that of a core.
impl Drop for Host {
    fn drop(self) {
        let Host {
            core: _,
            kept: _,
            objects: _,
            unanswered: _,
            down_notice: _,
            alloc: _,
        } = self;
    }
}

impl Model for Host {
    ghost use Rattle.laws_released.specs.Known.{KnowsAll};
    ghost use Rattle.vat_host.specs.Hosting.{HasPlaceForAbort, Hosted, hosted_code};

    ghost Value = { Hosted };

    ghost coded = { hosted_code };

    ghost view = { λ a. record { core = a.core; messages = a.kept.messages.0; events = a.kept.events.0; objects = a.objects; unanswered = a.unanswered; down_notice = a.down_notice } };

    ghost invariant = { λ a. HasPlaceForAbort a.core a.kept.messages.1 × KnowsAll a.core a.objects };
}

impl Host {
    /// A new vat, of that level and with that bootstrap object if it has one. `Memory` if the memory of its Abort was
    /// refused.
    pub fn new(
        alloc: Global,
        vat: Vat,
        level: Level,
        bootstrap: Option<ObjectId>,
    ) -> Result<Host, Memory>
        ensures { IfOk result (λ host. host ≡ idle (start vat level bootstrap)) }
    {
        let kept = Kept::new(alloc)?;
        let core = Core::new(alloc, vat, level, bootstrap)?;
        let objects = first_objects(alloc, bootstrap)?;
        Ok(Host {
            core,
            kept,
            objects,
            unanswered: Unanswered::new(alloc),
            down_notice: DownNotice {
                told: false,
                reason: Text::from_string(String::new(alloc)),
            },
            alloc,
        })
    }

    /// Its core, to be asked.
    pub fn core(&self) -> &Core
        ensures { result.now ≡ self.now.core }
    {
        &self.core
    }

    /// Whether nothing is to be done: no message to send, and no event to tell.
    pub fn is_idle(&self) -> bool
        ensures { MatchBool result (IsIdle self.now) (¬ (IsIdle self.now)) }
    {
        if !self.kept.messages.is_empty() || !self.kept.events.is_empty() {
            return false;
        }
        if self.has_only_down() || self.has_released() {
            return false;
        }
        !self.has_cancelled()
    }

    /// Whether a message is to be sent.
    pub fn has_messages(&self) -> bool
        ensures { result ≡ not (length self.now.messages == 0) }
    {
        !self.kept.messages.is_empty()
    }

    /// Takes a command of any kind, as `Core::command` does, and keeps what follows. Refused with `Memory` too, except for a shut,
    /// if what follows has no place.
    pub fn command(&mut self, command: Command) -> Result<Granted, Refused<Command>>
        ensures { Commands self.old command result self.new }
    {
        if let Command::Shut(number) = command {
            self.shut(number);
            return Ok(Granted::Done);
        }
        if let Some(object) = hosted_by(&command) {
            return self.host_by(object, command);
        }
        let Ok(()) = self.kept.make_place() else {
            return Err(Refused {
                refusal: Refusal::Memory,
                back: command,
            });
        };
        match self.core.command(command) {
            Answer::Done(granted, effects) => {
                self.unanswered.follow(&effects, &self.core);
                self.kept.keep(effects, None);
                Ok(granted)
            }
            Answer::Refused(refusal, back) => Err(Refused { refusal, back }),
        }
    }

    // Makes a reference to an object that a command hosts.
    fn host_by(&mut self, object: ObjectId, asked: Command) -> Result<Granted, Refused<Command>>
        requires { asked ≡ command.Host object }
        ensures { Commands self.old asked result self.new }
    {
        match self.host(object) {
            Ok(made) => Ok(Granted::Reference(made)),
            Err(refusal) => Err(Refused {
                refusal,
                back: asked,
            }),
        }
    }

    /// Takes a message of the peer, as `Core::receive` does, and keeps what follows. If that has no place the vat goes down
    /// with fault 33.
    pub fn receive(&mut self, message: Message)
        ensures { Hears self.old message self.new }
    {
        self.note_reason(&message);
        let Ok(()) = self.kept.make_place() else {
            return self.receive_last(message);
        };
        let Ok(()) = self.unanswered.hear(&message, &self.core) else {
            return self.receive_last(message);
        };
        let watched = Watched::by(&message, &self.core);
        let effects = self.core.receive(message);
        self.unanswered.follow(&effects, &self.core);
        self.kept.keep(effects, watched.made_known(&self.core));
    }

    // The reason of an Abort is kept for the application of a vat that is up.
    fn note_reason(&mut self, message: &Message)
        ensures { NotesReason self.old message.now self.new }
    {
        if self.core.down().is_some() {
            return;
        }
        if let Some(reason) = reason_of(message) {
            self.down_notice.reason = copied(self.alloc, reason);
        }
    }

    // Nothing but the Abort of this vat has a place. None follows a received Abort.
    #[cold]
    #[inline(never)]
    fn receive_last(&mut self, message: Message)
        ensures heard { HearsSilently self.old message self.new }
        ensures down { IsSome self.new.core.down }
    {
        if is_abort(&message) {
            let effects = self.core.receive(message);
            self.unanswered.follow(&effects, &self.core);
            self.kept.keep(effects, None);
            return;
        }
        self.shut(Fault::WantOfRoom.code());
    }

    /// Takes a vat that is up down with that number, and keeps its Abort, which is to be sent. Takes no memory.
    pub fn shut(&mut self, number: u16)
        ensures { (effects : Effects) × ShutsFrom self.old.core number self.old.core.down effects self.new.core × (self.new ≡ stepped self.old effects self.new.core) }
    {
        let effects = self.core.shut(number);
        self.unanswered.follow(&effects, &self.core);
        self.kept.keep(effects, None);
    }

    /// Takes out the oldest message that is to be sent to the peer.
    pub fn next_message(&mut self) -> Option<Message>
        ensures oldest { IfSome result (λ message. self.old ≡ record self.new { messages = message ∷ self.new.messages }) }
        ensures none { IfNone result ((self.old.messages ≡ []) × (self.new ≡ self.old)) }
    {
        let message = self.kept.messages.pop()?;
        if let Some(spent) = self.kept.messages.spent(self.alloc) {
            self.core.recycle(Effects {
                sends: spent,
                deliveries: Items::new(self.alloc),
                answers: Items::new(self.alloc),
                down: None,
            });
        }
        Some(message)
    }

    /// Takes out the oldest event that is to be told. Those of one step come behind those of the steps before. Of one
    /// step the calls to be served come first, in their order, then the own calls that ended, and then what its message
    /// made known. Behind them all, of a vat that is up, each task that is cancelled, and then each object that is released; once it is
    /// down, that.
    ///
    /// A task that is cancelled is found among the calls of the peer of which the Finish came before the Return, and that are wanted
    /// all the same: the work grows with these, of which there are none if no Finish comes early.
    pub fn next_event(&mut self) -> Option<Event>
        ensures { Tells self.old result self.new }
    {
        if let Some(event) = self.next_of_steps() {
            return Some(event);
        }
        match self.core.down() {
            Some(number) => self.next_down(number),
            None => self.next_freed(),
        }
    }

    // That the vat is down, once.
    fn next_down(&mut self, number: u16) -> Option<Event>
        requires told { self.old.events ≡ [] }
        requires down { self.old.core.down ≡ Some number }
        ensures { Tells self.old result self.new }
    {
        if self.down_notice.told {
            return None;
        }
        self.down_notice.told = true;
        let none = Text::from_string(String::new(self.alloc));
        Some(Event::Down(number, mem::replace(&mut self.down_notice.reason, none)))
    }

    // A task that is cancelled, or else an object that is released.
    fn next_freed(&mut self) -> Option<Event>
        requires told { self.old.events ≡ [] }
        requires up { self.old.core.down ≡ None }
        ensures { Tells self.old result self.new }
    {
        match self.unanswered.first_cancelled(&self.core) {
            Some((question, task)) => {
                self.unanswered.tell(question);
                Some(Event::Cancelled(task))
            }
            None => self.next_released(),
        }
    }

    // An object that is released, if there is one.
    fn next_released(&mut self) -> Option<Event>
        requires told { self.old.events ≡ [] }
        requires up { self.old.core.down ≡ None }
        requires none_cancelled { NoneIsCancelledOf self.old.core self.old.unanswered }
        ensures { Tells self.old result self.new }
    {
        let object = self.released()?;
        self.objects.take(object);
        Some(Event::Released(object))
    }

    // An object that is released and was not told to be, if there is one: found by what the core noted; or by a search, if it noted too
    // little.
    fn released(&mut self) -> Option<ObjectId>
        requires { self.old.core.down ≡ None }
        ensures same { self.new ≡ self.old }
        ensures some { IfSome result (λ object. IsReleased self.old object) }
        ensures none { IfNone result (AllAreNamed self.old) }
    {
        if let Some(object) = self.released_of_noted() {
            return Some(object);
        }
        if !self.has_released() {
            return None;
        }
        self.objects
            .first_unnamed(&self.core, self.core.bootstrap_object())
    }

    // One of those that the core noted that is released.
    fn released_of_noted(&mut self) -> Option<ObjectId>
        ensures same { self.new ≡ self.old }
        ensures some { IfSome result (λ object. IsReleased self.old object) }
    {
        for _ in 0..u64::MAX {
            let object = self.core.noted_object()?;
            if self.is_released(object) {
                return Some(object);
            }
        }
        None
    }

    // Whether the object is released, and that was not told.
    fn is_released(&self, object: ObjectId) -> bool
        ensures { result ≡ true → IsReleased self.now object }
    {
        self.objects.has(object) && is_unnamed(&self.core, self.core.bootstrap_object(), object)
    }

    /// Whether an object of a vat that is up is released, which is to be told.
    pub fn has_released(&self) -> bool
        ensures value { result ≡ has_released self.now }
        ensures none { self.now.core.down ≡ None → result ≡ false → AllAreNamed self.now }
    {
        if self.core.down().is_some() {
            return false;
        }
        self.knows_more()
    }

    /// Whether a task of a vat that is up is cancelled, which is to be told.
    pub fn has_cancelled(&self) -> bool
        ensures { MatchBool result (HasCancelled self.now) (¬ (HasCancelled self.now)) }
    {
        if self.core.down().is_some() {
            return false;
        }
        self.unanswered.first_cancelled(&self.core).is_some()
    }

    // Whether it knows more objects than places name, beside the bootstrap object.
    fn knows_more(&self) -> bool
        ensures { result ≡ not (map.len self.now.objects == least_known self.now.core) }
    {
        let (known, named) = (self.objects.len(), self.core.named_objects());
        let Some(least) = named.checked_add(unnamed_root(&self.core)) else {
            return true;
        };
        known != least
    }

    // Takes out the oldest event that a step left.
    fn next_of_steps(&mut self) -> Option<Event>
        ensures oldest { IfSome result (λ event. self.old ≡ record self.new { events = event ∷ self.new.events }) }
        ensures none { IfNone result ((self.old.events ≡ []) × (self.new ≡ self.old)) }
    {
        let event = self.kept.events.pop()?;
        if let Some((deliveries, answers)) = self.kept.events.spent(self.alloc) {
            self.core.recycle(Effects {
                sends: Items::new(self.alloc),
                deliveries,
                answers,
                down: None,
            });
        }
        Some(event)
    }

    /// Whether all that the steps left was told, and the vat is down, which is to be told next.
    pub fn has_only_down(&self) -> bool
        ensures { result ≡ has_only_down self.now }
    {
        self.kept.events.is_empty() && self.core.down().is_some() && !self.down_notice.told
    }
}

// The reason of an Abort.
fn reason_of(message: &Message) -> Option<&Text>
    ensures { option_copied result ≡ reason_of message.now }
{
    match message {
        Message::Plain(PlainMessage::Abort(exception)) => Some(&exception.reason),
        _other => None,
    }
}

// The text; or an empty one, if memory runs out for it.
fn copied(alloc: Global, text: &Text) -> Text
    ensures { (result ≡ text.now) ⊎ (result ≡ []) }
{
    match text.copy(alloc) {
        Ok(copy) => copy,
        Err(_) => Text::from_string(String::new(alloc)),
    }
}

// The bootstrap object, if there is one.
fn first_objects(alloc: Global, bootstrap: Option<ObjectId>) -> Result<HostedObjects, Memory>
    ensures { IfOk result (λ objects. objects ≡ with_object bootstrap no_objects) }
{
    let mut objects = HostedObjects::new(alloc);
    if let Some(object) = bootstrap {
        objects.put(object)?;
    }
    Ok(objects)
}

// The object that a command hosts.
fn hosted_by(asked: &Command) -> Option<ObjectId>
    ensures value { result ≡ hosted_by asked.now }
    ensures host { IfSome result (λ object. asked.now ≡ command.Host object) }
{
    match asked {
        Command::Host(object) => Some(*object),
        _other => None,
    }
}

// 1 if there is a bootstrap object that no place names, else 0.
fn unnamed_root(core: &Core) -> usize
    ensures { result ≡ unnamed_root core.now core.now.bootstrap }
{
    match core.bootstrap_object() {
        None => 0,
        Some(object) => !core.names_object(object) as usize,
    }
}

fn is_abort(message: &Message) -> bool
    ensures { result ≡ is_abort message.now }
{
    matches!(message, Message::Plain(PlainMessage::Abort(_)))
}
