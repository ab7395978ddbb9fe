//! Calls through a promise that is resolved to the caller's own object, on two cores: they wait, go the long way, are under
//! an embargo, and at last all is let go. To be run with each allocation refused too (`scripts/refused`).
use crate::tests::events::null;
use crate::tests::need::is_abort;
use rpc_journal::{Counts, Delivery};
use rpc_machine::{CallCommand, Command, Effects, Level, Refusal};
use rpc_msg::{
    CallId, EmbargoId, ExportId, Items, Memory, Message, ObjectId, Payload, PromiseId, QuestionId,
    RefId, TaskId, Vat,
};
use std::alloc::Global;
use std::collections::VecDeque;
use vat_core::{Answer, Core, ImportKind, Place};

/// What happens at a vat. Its references, calls, tasks and promises are counted from 0.
#[derive(Clone, Copy, Drop)]
enum Act {
    /// It receives the oldest message that is on its way to it.
    Receive,
    Bootstrap,
    /// A reference to what a call gives.
    Field(u64),
    Host(u64),
    /// A call through a reference, of a method.
    Call(u64, u16),
    /// A call with a reference as its argument.
    Give(u64, u16, u64),
    Promise,
    /// A promise is resolved to what a reference leads to.
    Resolve(u64, u64),
    Answer(u64),
    /// A task is answered by a reference.
    AnswerBy(u64, u64),
    Advance(u64),
    Finish(u64),
    LetGo(u64),
    /// It is asked whether a reference leads to an own object, and whether its calls wait under an embargo.
    LeadsToOwn(u64, u64, bool),
    /// It is asked whether a reference leads to an import that is no open promise, under no embargo.
    LeadsToImport(u64, u32),
    /// It is asked for an object that is named, and how many are.
    Names(u64, usize),
    /// It is asked for an object that is named no more, and no other is.
    Lost(u64),
    /// It is asked whether anybody wants the results of a task.
    Wants(u64, bool),
    /// It is asked what an import is.
    Imports(u32, Option<ImportKind>),
    /// It is asked whether an import is named.
    NamesImport(u32, bool),
    /// It is asked whether the results of a question are named.
    NamesQuestion(u32, bool),
    /// It is asked whose calls wait under an embargo.
    Embargoes(u32, Option<u64>),
}

/// To the end of the embargo.
const CALLS: &[(Vat, Act)] = &[
    (Vat::A, Act::Bootstrap),
    (Vat::A, Act::NamesQuestion(0, false)),
    (Vat::A, Act::Field(0)),
    (Vat::A, Act::NamesQuestion(0, true)),
    (Vat::A, Act::NamesImport(0, false)),
    (Vat::A, Act::Host(5)),
    (Vat::A, Act::Give(0, 1, 1)),
    (Vat::B, Act::Receive),
    (Vat::B, Act::Receive),
    (Vat::B, Act::Promise),
    (Vat::B, Act::AnswerBy(0, 1)),
    (Vat::A, Act::Receive),
    (Vat::A, Act::Receive),
    (Vat::A, Act::Finish(1)),
    (Vat::B, Act::Receive),
    (Vat::A, Act::Call(3, 2)),
    (Vat::A, Act::Call(3, 3)),
    (Vat::B, Act::Receive),
    (Vat::B, Act::Receive),
    (Vat::B, Act::Resolve(0, 0)),
    (Vat::A, Act::Call(3, 4)),
    (Vat::A, Act::Receive),
    (Vat::A, Act::Receive),
    (Vat::A, Act::Receive),
    (Vat::A, Act::LeadsToImport(3, 1)),
    (Vat::A, Act::Imports(1, Some(ImportKind::Resolved))),
    (Vat::A, Act::Advance(3)),
    (Vat::A, Act::LeadsToOwn(3, 5, true)),
    (Vat::A, Act::Embargoes(0, Some(3))),
    (Vat::A, Act::Call(3, 5)),
    (Vat::A, Act::Call(3, 6)),
    (Vat::B, Act::Receive),
    (Vat::B, Act::Receive),
    (Vat::B, Act::Receive),
    (Vat::A, Act::Receive),
    (Vat::A, Act::Receive),
    (Vat::A, Act::LeadsToOwn(1, 5, false)),
    (Vat::A, Act::LeadsToOwn(3, 5, false)),
    (Vat::A, Act::Embargoes(0, None)),
    (Vat::A, Act::NamesImport(0, true)),
    (Vat::A, Act::Names(5, 1)),
    (Vat::B, Act::Names(0, 1)),
    (Vat::B, Act::LeadsToImport(0, 0)),
    (Vat::B, Act::Imports(0, Some(ImportKind::Hosted))),
    (Vat::B, Act::Imports(7, None)),
    (Vat::A, Act::Wants(3, true)),
    (Vat::A, Act::Finish(5)),
    (Vat::A, Act::Wants(3, false)),
];

/// All is answered, finished and let go.
const ENDS: &[(Vat, Act)] = &[
    (Vat::A, Act::Answer(0)),
    (Vat::A, Act::Answer(1)),
    (Vat::A, Act::Answer(2)),
    (Vat::A, Act::Answer(3)),
    (Vat::A, Act::Answer(4)),
    (Vat::B, Act::Receive),
    (Vat::B, Act::Receive),
    (Vat::B, Act::Receive),
    (Vat::A, Act::Receive),
    (Vat::A, Act::Receive),
    (Vat::A, Act::Receive),
    (Vat::A, Act::Receive),
    (Vat::A, Act::Receive),
    (Vat::A, Act::Receive),
    (Vat::A, Act::Finish(0)),
    (Vat::A, Act::Finish(2)),
    (Vat::A, Act::Finish(3)),
    (Vat::A, Act::Finish(4)),
    (Vat::A, Act::Finish(6)),
    (Vat::A, Act::LetGo(0)),
    (Vat::A, Act::LetGo(1)),
    (Vat::A, Act::LetGo(2)),
    (Vat::A, Act::LetGo(3)),
    (Vat::B, Act::LetGo(0)),
    (Vat::B, Act::LetGo(1)),
    (Vat::B, Act::Receive),
    (Vat::B, Act::Receive),
    (Vat::B, Act::Receive),
    (Vat::B, Act::Receive),
    (Vat::B, Act::Receive),
    (Vat::A, Act::Receive),
    (Vat::A, Act::Lost(5)),
    (Vat::B, Act::Lost(0)),
];

/// Where the calls are delivered, in order: the object and the method.
const DELIVERED: &[(u64, u16)] = &[(0, 1), (5, 2), (5, 3), (5, 4), (5, 5), (5, 6)];

fn one(alloc: Global, reference: u64) -> Result<Items<RefId>, Memory> {
    match Items::one(alloc, RefId(reference)) {
        Ok(refs) => Ok(refs),
        Err(refused) => match Items::one(alloc, refused.value) {
            Ok(refs) => Ok(refs),
            Err(_) => Err(Memory),
        },
    }
}

fn capability(alloc: Global) -> Result<Payload, Memory> {
    match Payload::root_capability(alloc) {
        Ok(payload) => Ok(payload),
        Err(Memory) => Payload::root_capability(alloc),
    }
}

fn call(reference: u64, method: u16, payload: Payload, refs: Items<RefId>) -> Option<Command> {
    Some(Command::Call(CallCommand {
        reference: RefId(reference),
        interface: 7,
        method,
        payload,
        refs,
    }))
}

fn bare_call(alloc: Global, reference: u64, method: u16) -> Result<Option<Command>, Memory> {
    let payload = null(alloc)?;
    Ok(call(reference, method, payload, Items::new(alloc)))
}

fn gift(alloc: Global, to: u64, method: u16, given: u64) -> Result<Option<Command>, Memory> {
    let refs = one(alloc, given)?;
    let payload = capability(alloc)?;
    Ok(call(to, method, payload, refs))
}

fn answer(alloc: Global, task: u64) -> Result<Option<Command>, Memory> {
    let payload = null(alloc)?;
    Ok(Some(Command::Answer(TaskId(task), payload, Items::new(alloc))))
}

fn answer_by(alloc: Global, task: u64, given: u64) -> Result<Option<Command>, Memory> {
    let refs = one(alloc, given)?;
    let payload = capability(alloc)?;
    Ok(Some(Command::Answer(TaskId(task), payload, refs)))
}

/// What the application asks, if it asks.
fn command(alloc: Global, act: Act) -> Result<Option<Command>, Memory> {
    match act {
        Act::Call(reference, method) => bare_call(alloc, reference, method),
        Act::Give(reference, method, given) => gift(alloc, reference, method, given),
        Act::Answer(task) => answer(alloc, task),
        Act::AnswerBy(task, given) => answer_by(alloc, task, given),
        _ => Ok(bare_command(alloc, act)),
    }
}

/// A command without a payload.
fn bare_command(alloc: Global, act: Act) -> Option<Command> {
    match act {
        Act::Bootstrap => Some(Command::Bootstrap),
        Act::Field(call) => Some(Command::Field(CallId(call), Items::new(alloc))),
        Act::Host(object) => Some(Command::Host(ObjectId(object))),
        Act::Promise => Some(Command::Promise),
        Act::Resolve(promise, to) => Some(Command::Resolve(PromiseId(promise), RefId(to))),
        Act::Advance(reference) => Some(Command::Advance(RefId(reference))),
        Act::Finish(call) => Some(Command::Finish(CallId(call))),
        Act::LetGo(reference) => Some(Command::DropRef(RefId(reference))),
        _ => None,
    }
}

/// A vat, and what is on its way to it.
#[derive(Drop)]
struct Seat {
    core: Core,
    coming: VecDeque<Message>,
}

/// What is seen of it: it is done; a vat goes down by it for lack of memory; or it is not as it should be.
#[derive(Clone, Copy, Debug, PartialEq, Eq, Drop)]
enum Seen {
    Done,
    Fallen,
    Wrong,
}

fn done_if(is_so: bool) -> Seen {
    if is_so { Seen::Done } else { Seen::Wrong }
}

/// A new vat. A refused allocation is tried again, as in all that the test itself takes memory for.
fn new_seat(alloc: Global, vat: Vat, root: Option<ObjectId>) -> Result<Seat, Memory> {
    let coming = VecDeque::new(alloc);
    match Core::new(alloc, vat, Level::One, root) {
        Ok(core) => Ok(Seat { core, coming }),
        Err(Memory) => {
            let core = Core::new(alloc, vat, Level::One, root)?;
            Ok(Seat { core, coming })
        }
    }
}

fn counts(core: &Core) -> Result<Counts, Memory> {
    match core.counts() {
        Ok(counts) => Ok(counts),
        Err(Memory) => core.counts(),
    }
}

fn is_as_before(core: &Core, before: &Counts) -> bool {
    match counts(core) {
        Ok(after) => {
            after.exports.as_slice() == before.exports.as_slice()
                && after.imports.as_slice() == before.imports.as_slice()
        }
        Err(Memory) => false,
    }
}

fn is_without(core: &Core) -> bool {
    match counts(core) {
        Ok(counts) => counts.exports.is_empty() && counts.imports.is_empty(),
        Err(Memory) => false,
    }
}

// No clause says what these do: a test is proved quicker if nothing is known of the cores that it compares.
fn asks(core: &mut Core, command: Command) -> Answer {
    core.command(command)
}

fn hears(core: &mut Core, message: Message) -> Effects {
    core.receive(message)
}

/// What follows from a command, if it is not refused for another reason than running out of memory. One that is refused for that leaves
/// the counts as they were, and is taken the second time.
fn obey(core: &mut Core, command: Command) -> Option<Effects> {
    let Ok(before) = counts(core) else {
        return None;
    };
    match asks(core, command) {
        Answer::Done(_, effects) => Some(effects),
        Answer::Refused(Refusal::Memory, command) => again(core, command, &before),
        Answer::Refused(_, _) => None,
    }
}

fn again(core: &mut Core, command: Command, before: &Counts) -> Option<Effects> {
    if goes_down(&command) || !is_as_before(core, before) {
        return None;
    }
    match asks(core, command) {
        Answer::Done(_, effects) => Some(effects),
        Answer::Refused(_, _) => None,
    }
}

/// Whether running out of memory takes the vat down; a command is refused otherwise.
fn goes_down(command: &Command) -> bool {
    matches!(command, Command::Resolve(..) | Command::Answer(..))
}

/// Whether a vat goes down for lack of memory: it says so by one Abort, and does nothing else.
fn is_overflown(effects: &Effects) -> bool {
    match effects.sends.as_slice() {
        [abort] => {
            is_abort(abort)
                && effects.down == Some(33)
                && effects.deliveries.is_empty()
                && effects.answers.is_empty()
        }
        _ => false,
    }
}

/// Whether it answers so, if it is asked.
fn answers(core: &mut Core, act: Act) -> Option<bool> {
    match act {
        Act::LeadsToOwn(reference, object, waits) => {
            let place = Place::Own(ObjectId(object));
            Some(core.leads_to(RefId(reference)) == Ok((place, waits)))
        }
        Act::LeadsToImport(reference, id) => {
            let place = Place::Import(ExportId(id), false);
            Some(core.leads_to(RefId(reference)) == Ok((place, false)))
        }
        Act::Names(object, count) => {
            Some(core.names_object(ObjectId(object)) && core.named_objects() == count)
        }
        Act::Lost(object) => Some(has_lost(core, ObjectId(object))),
        Act::Wants(task, wanted) => Some(core.wants_results(TaskId(task)) == wanted),
        Act::Imports(id, kind) => Some(core.import_kind(ExportId(id)) == kind),
        Act::NamesImport(id, is_named) => Some(core.names_import(ExportId(id)) == is_named),
        Act::NamesQuestion(id, is_named) => Some(core.names_question(QuestionId(id)) == is_named),
        Act::Embargoes(id, reference) => {
            Some(core.embargoed_reference(EmbargoId(id)) == reference.map(RefId))
        }
        _ => None,
    }
}

fn has_lost(core: &mut Core, object: ObjectId) -> bool {
    !core.names_object(object)
        && core.named_objects() == 0
        && core.noted_object() == Some(object)
        && core.noted_object().is_none()
}

/// Lets an act happen at a vat.
fn happen(alloc: Global, at: &mut Seat, other: &mut Seat, act: Act, delivered: &mut usize) -> Seen {
    if let Some(is_so) = answers(&mut at.core, act) {
        return done_if(is_so);
    }
    match command(alloc, act) {
        Ok(None) => receive(at, other, delivered),
        Ok(Some(command)) => let_obey(at, other, command, delivered),
        Err(Memory) => Seen::Wrong,
    }
}

fn receive(at: &mut Seat, other: &mut Seat, delivered: &mut usize) -> Seen {
    match at.coming.pop_front() {
        Some(message) => follow(hears(&mut at.core, message), other, true, delivered),
        None => Seen::Wrong,
    }
}

fn let_obey(at: &mut Seat, other: &mut Seat, command: Command, delivered: &mut usize) -> Seen {
    let may_go_down = goes_down(&command);
    match obey(&mut at.core, command) {
        Some(effects) => follow(effects, other, may_go_down, delivered),
        None => Seen::Wrong,
    }
}

/// What was done, and what it sends is on its way.
fn follow(effects: Effects, other: &mut Seat, may_go_down: bool, delivered: &mut usize) -> Seen {
    let is_overflown = is_overflown(&effects);
    let Effects {
        sends,
        deliveries,
        answers: _,
        down,
    } = effects;
    if down.is_some() {
        return if may_go_down && is_overflown {
            Seen::Fallen
        } else {
            Seen::Wrong
        };
    }
    done_if(note(&deliveries, delivered) && send(sends, other))
}

fn send(sends: Items<Message>, other: &mut Seat) -> bool {
    let mut sends = VecDeque::from(sends.into_vec());
    other.coming.append(&mut sends).is_ok() || other.coming.append(&mut sends).is_ok()
}

/// Whether they are the next of `DELIVERED`.
fn note(deliveries: &[Delivery], delivered: &mut usize) -> bool {
    for delivery in deliveries {
        let wanted = DELIVERED.get(*delivered).copied();
        if wanted != Some((delivery.object.0, delivery.method)) {
            return false;
        }
        *delivered = delivered.wrapping_add(1);
    }
    true
}

fn happen_all(
    alloc: Global,
    a: &mut Seat,
    b: &mut Seat,
    acts: &[(Vat, Act)],
    delivered: &mut usize,
) -> Seen {
    for (vat, act) in acts {
        let seen = match vat {
            Vat::A => happen(alloc, a, b, *act, delivered),
            Vat::B => happen(alloc, b, a, *act, delivered),
        };
        if seen != Seen::Done {
            return seen;
        }
    }
    done_if(*delivered == DELIVERED.len())
}

fn is_over(at: &Seat) -> bool {
    let sizes = at.core.table_sizes();
    at.coming.is_empty()
        && is_without(&at.core)
        && (sizes.questions, sizes.answers, sizes.exports, sizes.imports) == (0, 0, 0, 0)
}

/// All calls are delivered, and then nothing is left.
fn play(alloc: Global, a: &mut Seat, b: &mut Seat) -> Seen {
    let mut delivered = 0;
    for acts in [CALLS, ENDS] {
        let seen = happen_all(alloc, a, b, acts, &mut delivered);
        if seen != Seen::Done {
            return seen;
        }
    }
    done_if(is_over(a) && is_over(b))
}

fn plays(alloc: Global) -> Result<Seen, Memory> {
    let mut a = new_seat(alloc, Vat::A, None)?;
    let mut b = new_seat(alloc, Vat::B, Some(ObjectId(0)))?;
    Ok(play(alloc, &mut a, &mut b))
}

/// At most one allocation is refused: if that took a vat down, two new ones come to the end.
#[test]
fn calls_come_behind_an_embargo_whichever_allocation_is_refused(
    rt: HostRuntime,
) -> Result<(), Memory> {
    let mut seen = plays(rt.alloc())?;
    if seen == Seen::Fallen {
        seen = plays(rt.alloc())?;
    }
    assert!(rt; seen == Seen::Done);
    Ok(())
}
