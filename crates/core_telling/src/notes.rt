ghost use Rattle.std.specs.Prelude.{◌≡◌, ◌<◌, ◌≤◌, ◌+◌, [], ◌∷◌, ◌++◌, Some, IfOk};
ghost use Rattle.std.specs.FinMap as map;
ghost use Rattle.rpc_machine.specs.declared.command.Granted.{Granted};
ghost use Rattle.rpc_machine.specs.Journal.{born, born_promise, asked_entries, advanced_entries, refused_entries};
ghost use Rattle.vat_core.specs.Counting.{made_of as count_of};
ghost use Rattle.core_telling.specs.Notes.{or_zero, index_of, made_of, made_entries, granted_by, note_entries, back_in, back_in_answered, back_in_born, call_in, IsShort, IsWholeInNote};
ghost use Rattle.rpc_journal.specs.declared.report.Outcome.TheVariants as outcome;
ghost use Rattle.rpc_journal.specs.declared.entry.JournalEntry.TheVariants as entry;
ghost use Rattle.core_telling.specs.declared.notes.Note.TheVariants.{Made, Answered};

use crate::journal::Journal;
use rpc_journal::{JournalEntry, MadeCall, Origin, Outcome};
use rpc_machine::{CallCommand, Command, Granted, Refusal};
use rpc_msg::{CallId, Exception, Items, Memory, Path, Payload, PromiseId, RefId, TaskId, Vat};
use std::alloc::Global;
use vat_core::Core;

/// What a command will write of itself, except for what it answers. It has copies of what the command hands over.
#[derive(Drop)]
pub enum Note {
    /// A reference is made.
    Born(Origin),
    /// A promise is made, and a reference to it.
    Promise,
    /// The other vat's bootstrap object is asked for.
    Asked,
    /// A call is made. The number of the call is still to be filled in.
    Made(MadeCall),
    /// A reference is to take the shorter path.
    Advanced(RefId),
    /// A promise is resolved to a reference.
    Resolved(PromiseId, RefId),
    /// A promise is rejected.
    Rejected(PromiseId, Exception),
    /// A task has its outcome.
    Answered(TaskId, Outcome, Items<RefId>),
    /// A reference is dropped.
    Dropped(RefId),
    /// A call is finished.
    Finished(CallId),
    /// There is no entry.
    Nothing,
}

/// Notes a command to a vat before its step takes it.
pub fn note_of(alloc: Global, index: u64, command: &Command) -> Result<Note, Memory>
    ensures entries { IfOk result (λ note. (vat : Vat) → IsShort command.now → (answer : Granted) → note_entries vat note answer ≡ granted_by index vat command.now answer) }
    ensures back { IfOk result (λ note. IsWholeInNote command.now → back_in note ≡ Some command.now) }
{
    match command {
        Command::Host(object) => Ok(Note::Born(Origin::Object(*object))),
        Command::CloneRef(reference) => Ok(Note::Born(Origin::Clone(*reference))),
        Command::DropRef(reference) => Ok(Note::Dropped(*reference)),
        Command::Bootstrap => Ok(Note::Asked),
        Command::Call(call) => note_call(alloc, index, call),
        Command::Field(call, path) => match Path::from_ops(path) {
            Some(path) => Ok(Note::Born(Origin::Field(*call, path))),
            None => Ok(Note::Nothing),
        },
        Command::Promise => Ok(Note::Promise),
        Command::Resolve(promise, reference) => Ok(Note::Resolved(*promise, *reference)),
        Command::Reject(promise, exception) => {
            let exception = exception.copy(alloc)?;
            Ok(Note::Rejected(*promise, exception))
        }
        Command::Answer(task, payload, refs) => note_answer(alloc, *task, payload, refs),
        Command::Fail(task, exception) => note_fail(alloc, *task, exception),
        Command::Finish(call) => Ok(Note::Finished(*call)),
        Command::Advance(reference) => Ok(Note::Advanced(*reference)),
        Command::Shut(_) => Ok(Note::Nothing),
    }
}

/// The command of which a note was made, put together again from the copies that the note has. There is none of a field or of
/// a shut, of which a note has not all. Takes no memory.
pub fn back_of(note: Note) -> Option<Command>
    ensures { result ≡ back_in note }
{
    match note {
        Note::Born(origin) => back_of_born(origin),
        Note::Promise => Some(Command::Promise),
        Note::Asked => Some(Command::Bootstrap),
        Note::Made(made) => Some(Command::Call(call_of(made))),
        Note::Advanced(reference) => Some(Command::Advance(reference)),
        Note::Resolved(promise, reference) => Some(Command::Resolve(promise, reference)),
        Note::Rejected(promise, exception) => Some(Command::Reject(promise, exception)),
        Note::Answered(task, outcome, refs) => Some(back_of_answered(task, outcome, refs)),
        Note::Dropped(reference) => Some(Command::DropRef(reference)),
        Note::Finished(call) => Some(Command::Finish(call)),
        Note::Nothing => None,
    }
}

fn back_of_born(origin: Origin) -> Option<Command>
    ensures { result ≡ back_in_born origin }
{
    match origin {
        Origin::Object(object) => Some(Command::Host(object)),
        Origin::Clone(reference) => Some(Command::CloneRef(reference)),
        Origin::Promise(_) => None,
        Origin::Field(_, _) => None,
    }
}

fn back_of_answered(task: TaskId, outcome: Outcome, refs: Items<RefId>) -> Command
    ensures { result ≡ back_in_answered task outcome refs }
{
    match outcome {
        Outcome::Results(payload) => Command::Answer(task, payload, refs),
        Outcome::Exception(exception) => Command::Fail(task, exception),
    }
}

fn call_of(made: MadeCall) -> CallCommand
    ensures { result ≡ call_in made }
{
    CallCommand {
        reference: made.reference,
        interface: made.interface,
        method: made.method,
        payload: made.payload,
        refs: made.refs,
    }
}

/// Notes a call.
#[inline(always)]
pub fn note_call(alloc: Global, index: u64, call: &CallCommand) -> Result<Note, Memory>
    ensures { IfOk result (λ note. note ≡ Made (made_of index call.now)) }
{
    let payload = call.payload.copy(alloc)?;
    let refs = call.refs.copy(alloc)?;
    Ok(Note::Made(MadeCall {
        reference: call.reference,
        index,
        call: CallId(0),
        interface: call.interface,
        method: call.method,
        payload,
        refs,
    }))
}

/// Notes the results of a task.
#[inline(always)]
pub fn note_answer(
    alloc: Global,
    task: TaskId,
    payload: &Payload,
    refs: &Items<RefId>,
) -> Result<Note, Memory>
    ensures { IfOk result (λ note. note ≡ Answered task (outcome.Results payload.now) refs.now) }
{
    let payload = payload.copy(alloc)?;
    let refs = refs.copy(alloc)?;
    Ok(Note::Answered(task, Outcome::Results(payload), refs))
}

fn note_fail(alloc: Global, task: TaskId, exception: &Exception) -> Result<Note, Memory>
    ensures { IfOk result (λ note. note ≡ Answered task (outcome.Exception exception.now) []) }
{
    let exception = exception.copy(alloc)?;
    let refs = Items::new(alloc);
    Ok(Note::Answered(task, Outcome::Exception(exception), refs))
}

/// Writes the entry of a command that was noted so and answered this, if it has one, if there is room.
#[inline(always)]
pub fn write_note(vat: Vat, journal: &mut Journal, note: Note, answer: Granted)
    requires { 0 < journal.old.1 }
    ensures entries { journal.new.0 ≡ journal.old.0 ++ note_entries vat note answer }
    ensures room { journal.old.1 ≤ journal.new.1 + 1 }
{
    match note {
        Note::Born(origin) => write_born(vat, journal, origin, answer),
        Note::Promise => write_promise(vat, journal, answer),
        Note::Asked => write_asked(vat, journal, answer),
        Note::Made(made) => write_made(vat, journal, made, answer),
        Note::Advanced(reference) => write_advanced(vat, journal, reference, answer),
        Note::Resolved(promise, reference) => {
            journal.push(JournalEntry::Resolved(vat, promise, reference));
        }
        Note::Rejected(promise, exception) => {
            journal.push(JournalEntry::Rejected(vat, promise, exception));
        }
        Note::Answered(task, outcome, refs) => write_answered(vat, journal, task, outcome, refs),
        Note::Dropped(reference) => journal.push(JournalEntry::Dropped(vat, reference)),
        Note::Finished(call) => write_finished(vat, journal, call),
        Note::Nothing => {}
    }
}

fn write_born(vat: Vat, journal: &mut Journal, origin: Origin, answer: Granted)
    requires { 0 < journal.old.1 }
    ensures entries { journal.new.0 ≡ journal.old.0 ++ born vat origin answer }
    ensures room { journal.old.1 ≤ journal.new.1 + 1 }
{
    match answer {
        Granted::Reference(id) => journal.push(JournalEntry::Born(vat, id, origin)),
        _ => {}
    }
}

fn write_promise(vat: Vat, journal: &mut Journal, answer: Granted)
    requires { 0 < journal.old.1 }
    ensures entries { journal.new.0 ≡ journal.old.0 ++ born_promise vat answer }
    ensures room { journal.old.1 ≤ journal.new.1 + 1 }
{
    match answer {
        Granted::Promise(promise, id) => {
            journal.push(JournalEntry::Born(vat, id, Origin::Promise(promise)));
        }
        _ => {}
    }
}

fn write_asked(vat: Vat, journal: &mut Journal, answer: Granted)
    requires { 0 < journal.old.1 }
    ensures entries { journal.new.0 ≡ journal.old.0 ++ asked_entries vat answer }
    ensures room { journal.old.1 ≤ journal.new.1 + 1 }
{
    match answer {
        Granted::Call(call) => journal.push(JournalEntry::Asked(vat, call)),
        _ => {}
    }
}

#[inline(always)]
fn write_made(vat: Vat, journal: &mut Journal, made: MadeCall, answer: Granted)
    requires { 0 < journal.old.1 }
    ensures entries { journal.new.0 ≡ journal.old.0 ++ made_entries vat made answer }
    ensures room { journal.old.1 ≤ journal.new.1 + 1 }
{
    match answer {
        Granted::Call(call) => journal.push(JournalEntry::Made(vat, MadeCall { call, ..made })),
        _ => {}
    }
}

fn write_advanced(vat: Vat, journal: &mut Journal, reference: RefId, answer: Granted)
    requires { 0 < journal.old.1 }
    ensures entries { journal.new.0 ≡ journal.old.0 ++ advanced_entries vat reference answer }
    ensures room { journal.old.1 ≤ journal.new.1 + 1 }
{
    match answer {
        Granted::Advanced(advanced) => {
            journal.push(JournalEntry::Advanced(vat, reference, advanced));
        }
        _ => {}
    }
}

#[inline(always)]
fn write_answered(
    vat: Vat,
    journal: &mut Journal,
    task: TaskId,
    outcome: Outcome,
    refs: Items<RefId>,
)
    requires { 0 < journal.old.1 }
    ensures entries { journal.new.0 ≡ journal.old.0 ++ entry.Answered vat task outcome refs ∷ [] }
    ensures room { journal.old.1 ≤ journal.new.1 + 1 }
{
    journal.push(JournalEntry::Answered(vat, task, outcome, refs));
}

#[inline(always)]
fn write_finished(vat: Vat, journal: &mut Journal, call: CallId)
    requires { 0 < journal.old.1 }
    ensures entries { journal.new.0 ≡ journal.old.0 ++ entry.Finished vat call ∷ [] }
    ensures room { journal.old.1 ≤ journal.new.1 + 1 }
{
    journal.push(JournalEntry::Finished(vat, call));
}

/// Writes the entry of a command that was refused, if it has one, if there is room.
#[cold]
pub fn write_refused(vat: Vat, journal: &mut Journal, refusal: Refusal)
    requires { 0 < journal.old.1 }
    ensures entries { journal.new.0 ≡ journal.old.0 ++ refused_entries vat refusal }
    ensures room { journal.old.1 ≤ journal.new.1 + 1 }
{
    match refusal {
        Refusal::Down => {}
        _ => journal.push(JournalEntry::Refused(vat, refusal.code())),
    }
}

/// How many calls were made before through the reference of a call; 0 for another command.
pub fn index_of_call(core: &Core, command: &Command) -> u64
    ensures { result ≡ index_of core.now command.now }
{
    match command {
        Command::Call(call) => calls_before(core, call.reference),
        _ => 0,
    }
}

/// How many calls were made before through a reference; 0 if there is none.
#[inline(always)]
pub fn calls_before(core: &Core, reference: RefId) -> u64
    ensures { result ≡ or_zero (count_of (map.get core.now.refs reference.0)) }
{
    match core.calls_made(reference) {
        Some(made) => made,
        None => 0,
    }
}
