//! The events of one call, and what is told of entries.
use rpc_journal::JournalEntry;
use rpc_machine::{CallCommand, Command, Effects, Refusal};
use rpc_msg::{
    CallId, Items, Memory, Message, ObjectId, Payload, PlainMessage, RefId, TaskId, Vat,
};
use std::alloc::Global;
use vat_world::{Answer, StepAnswer, World, WorldEvent};

/// The events of one bootstrapped call of A at B, by their numbers: from the Bootstrap to the last Release.
pub(super) const EVENTS: u32 = 15;

pub(super) fn event(alloc: Global, number: u32) -> Result<WorldEvent, Memory> {
    match number {
        2 => calls(alloc),
        6 => answers(alloc),
        _ => Ok(bare_event(alloc, number)),
    }
}

/// An event without a payload.
fn bare_event(alloc: Global, number: u32) -> WorldEvent {
    match number {
        0 => WorldEvent::Command(Vat::A, Command::Bootstrap),
        1 => WorldEvent::Command(Vat::A, Command::Field(CallId(0), Items::new(alloc))),
        8 => WorldEvent::Command(Vat::A, Command::Finish(CallId(1))),
        9 => WorldEvent::Command(Vat::A, Command::Finish(CallId(0))),
        10 => WorldEvent::Command(Vat::A, Command::DropRef(RefId(0))),
        11 => WorldEvent::Command(Vat::A, Command::DropRef(RefId(1))),
        5 | 7 => WorldEvent::Deliver(Vat::A),
        _ => WorldEvent::Deliver(Vat::B),
    }
}

/// The null payload. A refused allocation is tried again.
pub(super) fn null(alloc: Global) -> Result<Payload, Memory> {
    match Payload::null(alloc) {
        Ok(payload) => Ok(payload),
        Err(Memory) => Payload::null(alloc),
    }
}

fn calls(alloc: Global) -> Result<WorldEvent, Memory> {
    let payload = null(alloc)?;
    let call = CallCommand {
        reference: RefId(0),
        interface: 7,
        method: 1,
        payload,
        refs: Items::new(alloc),
    };
    Ok(WorldEvent::Command(Vat::A, Command::Call(call)))
}

fn answers(alloc: Global) -> Result<WorldEvent, Memory> {
    let payload = null(alloc)?;
    let refs = Items::new(alloc);
    Ok(WorldEvent::Command(Vat::B, Command::Answer(TaskId(0), payload, refs)))
}

/// The vat of an event, by its number.
pub(super) fn vat_of(number: u32) -> Vat {
    match number {
        0..=2 | 5 | 7..=11 => Vat::A,
        _ => Vat::B,
    }
}

/// The vat of an entry, its kind, and the number of what it names.
pub(super) type Told = (Vat, &'static str, u64);

pub(super) fn told(entry: &JournalEntry) -> Told {
    match entry {
        JournalEntry::Born(vat, reference, _) => (*vat, "born", reference.0),
        JournalEntry::Asked(vat, call) => (*vat, "asked", call.0),
        JournalEntry::Made(vat, made) => (*vat, "made", made.call.0),
        JournalEntry::Refused(vat, number) => (*vat, "refused", u64::from(*number)),
        JournalEntry::Sent(vat, Message::Plain(message)) => told_message(*vat, message),
        JournalEntry::Got(vat) => (*vat, "got", 0),
        JournalEntry::Down(vat, number) => (*vat, "down", u64::from(*number)),
        _ => (Vat::A, "another", 0),
    }
}

fn told_message(vat: Vat, message: &PlainMessage) -> Told {
    match message {
        PlainMessage::Abort(_) => (vat, "sent abort", 0),
        PlainMessage::Bootstrap(question) => (vat, "sent bootstrap", u64::from(question.0)),
        PlainMessage::Call(call) => (vat, "sent call", u64::from(call.question.0)),
        PlainMessage::Return(said) => (vat, "sent return", u64::from(said.answer.0)),
        _ => (vat, "sent another", 0),
    }
}

pub(super) fn are_told(entries: &[JournalEntry], wanted: &[Told]) -> bool {
    if entries.len() != wanted.len() {
        return false;
    }
    for (entry, wanted) in entries.iter().zip(wanted) {
        if told(entry) != *wanted {
            return false;
        }
    }
    true
}

/// A world whose vat B has bootstrap object 0.
pub(super) fn world(alloc: Global) -> Result<World, Memory> {
    World::new(alloc, None, Some(ObjectId(0)))
}

/// What an event answered, in short.
#[derive(Clone, Copy, Debug, PartialEq, Eq, Drop)]
pub(super) enum Brief {
    Empty,
    Handled,
    Done,
    Refused(Refusal),
}

fn tell(answer: StepAnswer) -> Brief {
    match answer {
        StepAnswer::Answered(Answer::Refused(refusal, _)) => Brief::Refused(refusal),
        StepAnswer::Answered(Answer::Done(_, effects)) => {
            let_go(effects);
            Brief::Done
        }
        StepAnswer::Handled(effects) => {
            let_go(effects);
            Brief::Handled
        }
        StepAnswer::Empty => Brief::Empty,
    }
}

fn let_go(effects: Effects) {
    let Effects {
        sends: _,
        deliveries: _,
        answers: _,
        down: _,
    } = effects;
}

// No clause says what these do: a test is proved quicker if nothing is known of the worlds that it compares.
pub(super) fn take(world: &mut World, event: WorldEvent) -> Brief {
    tell(world.step(event))
}

fn run(world: &mut World, events: Vec<WorldEvent>) {
    world.run(events);
}

pub(super) fn entries(world: &World) -> &[JournalEntry] {
    world.journal()
}

pub(super) fn was_shut(world: &World, vat: Vat) -> bool {
    world.was_shut(vat)
}

const FIRST_ENTRIES: &[Told] = &[
    (Vat::A, "asked", 0),
    (Vat::A, "sent bootstrap", 0),
    (Vat::A, "born", 0),
    (Vat::A, "made", 1),
    (Vat::A, "sent call", 1),
    (Vat::B, "got", 0),
    (Vat::B, "sent return", 0),
];

fn first_events(alloc: Global) -> Result<Vec<WorldEvent>, Memory> {
    let mut events = Vec::new(alloc);
    for number in 0..4 {
        let event = event(alloc, number)?;
        if events.push(event).is_err() {
            return Err(Memory);
        }
    }
    Ok(events)
}

/// Events that are run at once leave the journal that they leave one by one.
#[test]
fn a_run_is_its_steps(rt: HostRuntime) -> Result<(), Memory> {
    let events = first_events(rt.alloc())?;
    let mut world = world(rt.alloc())?;
    run(&mut world, events);
    assert!(rt; are_told(entries(&world), FIRST_ENTRIES));
    Ok(())
}

fn is_idle(world: &World) -> bool {
    world.idle(Vat::A, RefId(0))
}

/// The call, which is event 2, is pending until event 4 delivers it.
#[test]
fn a_call_is_pending_until_it_is_delivered(rt: HostRuntime) -> Result<(), Memory> {
    let mut world = world(rt.alloc())?;
    for number in 0..EVENTS {
        let event = event(rt.alloc(), number)?;
        let _answer = take(&mut world, event);
        let is_pending = number == 2 || number == 3;
        assert!(rt; is_idle(&world) != is_pending);
    }
    Ok(())
}
