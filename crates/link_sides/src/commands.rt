ghost use Rattle.std.specs.Prelude.{◌≡◌, ◌+◌, ◌<◌, ◌≤◌, [], length, None, Some, Ok, Err, true, false, IfOk, OnOk};
ghost use Rattle.link_rings.specs.Parties.{Obeys, Shuts};
ghost use Rattle.rpc_machine.specs.Journal.{effect_entries};
ghost use Rattle.rpc_machine.specs.Progress.{quiet};
ghost use Rattle.rpc_machine.specs.Steps as step;
ghost use Rattle.rpc_machine.specs.declared.command.Command.TheVariants as command;
ghost use Rattle.rpc_machine.specs.Refusals.{is_shut};
ghost use Rattle.link_logs.specs.Steps.{StepsSo, input_of, sends_of};
ghost use Rattle.link_sides.specs.Rooms.{held_of, IsReady};
ghost use Rattle.link_sides.specs.Sides.{down_by, AnswersSo, HasBack, IsOwn, IsQuiet, IsShutBy, IsSpare, IsTold};

use crate::answers::{ask, no_effects};
use crate::entries::{make_room, note_fall, tell_fall, tell_whole};
use crate::kept::Kept;
use core_telling::{
    Answer, Core, Note as Own, back_of, index_of_call, note_of, write_note, write_refused,
};
use laws_ends::{names_stay, overflow_is_shut};
use link_logs::{Note, Told};
use link_rings::Waiting;
use rpc_machine::{Command, Effects, Fault, Granted, Refusal};
use rpc_msg::{Memory, Message};
use std::alloc::Global;
use std::snapshot::Snapshot;

/// A command to the end of a vat that is up: what its core answers, with its effects except for the messages. If there is no
/// room for all that it says, the vat is shut with fault 33 in its place, and the command is refused as that of a vat which is
/// down.
pub(crate) fn obey(
    kept: &mut Kept,
    command: Command,
    room: bool,
    waiting: &mut Waiting<Message>,
) -> (Note, Answer)
    requires up { kept.old.core.down ≡ None }
    requires ready { IsReady kept.old }
    requires free { 0 < waiting.old.room }
    ensures obeys { Obeys down_by input_of sends_of StepsSo (held_of kept.old) waiting.old command room result.0 (held_of kept.new) waiting.new }
    ensures answers { AnswersSo command result.0 result.1 }
    ensures ready { IsReady kept.new }
{
    match command {
        Command::Shut(number) => return obey_shut(kept, number, room, waiting),
        other => return obey_other(kept, other, room, waiting),
    }
}

/// Takes a vat that is up down, with that number.
pub(crate) fn shut(kept: &mut Kept, number: u16, waiting: &mut Waiting<Message>) -> Note
    requires up { kept.old.core.down ≡ None }
    requires ready { IsReady kept.old }
    requires free { 0 < waiting.old.room }
    ensures shuts { Shuts down_by input_of sends_of StepsSo (held_of kept.old) waiting.old number result (held_of kept.new) waiting.new }
    ensures by_number { IsShutBy number result.told }
    ensures ready { IsReady kept.new }
{
    let start = kept.journal.len();
    let vat = kept.core.vat();
    let effects = kept.core.shut(number);
    let told = Told::Shut(Snapshot::of(&effects));
    note_fall(kept, vat, start, told, number, effects, waiting)
}

// The command has not run: there is no room for what it would say.
fn without_room(
    kept: &mut Kept,
    command: Command,
    room: bool,
    waiting: &mut Waiting<Message>,
) -> (Note, Answer)
    requires other { is_shut command ≡ false }
    requires up { kept.old.core.down ≡ None }
    requires ready { IsReady kept.old }
    requires free { 0 < waiting.old.room }
    ensures obeys { Obeys down_by input_of sends_of StepsSo (held_of kept.old) waiting.old command room result.0 (held_of kept.new) waiting.new }
    ensures answers { AnswersSo command result.0 result.1 }
    ensures ready { IsReady kept.new }
{
    let note = shut(kept, Fault::WantOfRoom.code(), waiting);
    (note, Answer::Refused(Refusal::Down, command))
}

fn obey_shut(
    kept: &mut Kept,
    number: u16,
    room: bool,
    waiting: &mut Waiting<Message>,
) -> (Note, Answer)
    requires up { kept.old.core.down ≡ None }
    requires ready { IsReady kept.old }
    requires free { 0 < waiting.old.room }
    ensures obeys { Obeys down_by input_of sends_of StepsSo (held_of kept.old) waiting.old (command.Shut number) room result.0 (held_of kept.new) waiting.new }
    ensures answers { AnswersSo (command.Shut number) result.0 result.1 }
    ensures ready { IsReady kept.new }
{
    // Only the contract speaks of it, and the compiler counts it as unused.
    let _ = room;
    let start = kept.journal.len();
    let vat = kept.core.vat();
    let command = Command::Shut(number);
    let asked = Snapshot::of(&command);
    let answer = Ok(Granted::Done);
    let said = Snapshot::of(&answer);
    let mut effects = kept.core.shut(number);
    let told = Told::Obeyed(asked, said, Snapshot::of(&effects), true);
    let sent = effects.sends.len();
    tell_fall(kept, vat, number, &mut effects, waiting);
    let entries = kept.journal.len() - start;
    (
        Note {
            told,
            sent,
            entries,
        },
        Answer::Done(Granted::Done, effects),
    )
}

// Room for a command's own entry, which it has whatever it says; none if the log has none.
fn prepare(kept: &mut Kept, room: bool) -> Result<(), Memory>
    requires { IsReady kept.old }
    ensures held { held_of kept.new ≡ held_of kept.old }
    ensures ready { IsReady kept.new }
    ensures had_room { OnOk result (room ≡ true) }
    ensures entries { OnOk result (7 ≤ kept.new.journal.1) }
{
    if !room {
        return Err(Memory);
    }
    kept.journal.prepare(0)?;
    Ok(())
}

fn obey_other(
    kept: &mut Kept,
    command: Command,
    room: bool,
    waiting: &mut Waiting<Message>,
) -> (Note, Answer)
    requires other { is_shut command ≡ false }
    requires up { kept.old.core.down ≡ None }
    requires ready { IsReady kept.old }
    requires free { 0 < waiting.old.room }
    ensures obeys { Obeys down_by input_of sends_of StepsSo (held_of kept.old) waiting.old command room result.0 (held_of kept.new) waiting.new }
    ensures answers { AnswersSo command result.0 result.1 }
    ensures ready { IsReady kept.new }
{
    match prepare(kept, room) {
        Ok(()) => {}
        Err(Memory) => return without_room(kept, command, room, waiting),
    }
    let index = index_of_call(&kept.core, &command);
    let own = match note_of(kept.alloc, index, &command) {
        Ok(own) => own,
        Err(Memory) => return without_room(kept, command, room, waiting),
    };
    let spare = match copy_of_field(kept.alloc, &command) {
        Ok(spare) => spare,
        Err(Memory) => return without_room(kept, command, room, waiting),
    };
    let asked = Snapshot::of(&command);
    let before = Snapshot::of(&kept.core);
    match ask(&mut kept.core, kept.alloc, command) {
        Answer::Done(granted, effects) => {
            return tell_done(kept, before, asked, own, spare, granted, effects, waiting);
        }
        Answer::Refused(refusal, back) => {
            let note = tell_refused(kept, asked, refusal, waiting);
            return (note, Answer::Refused(refusal, back));
        }
    }
}

// Tells a command that was refused.
fn tell_refused(
    kept: &mut Kept,
    asked: Snapshot<Command>,
    refusal: Refusal,
    waiting: &Waiting<Message>,
) -> Note
    requires up { kept.old.core.down ≡ None }
    requires ready { IsReady kept.old }
    requires entries { 7 ≤ kept.old.journal.1 }
    requires free { 0 < waiting.now.room }
    requires step { step.Obeys kept.old.core asked.value (Err refusal) quiet kept.old.core }
    ensures obeys { Obeys down_by input_of sends_of StepsSo (held_of kept.old) waiting.now asked.value true result (held_of kept.new) waiting.now }
    ensures told { IsTold asked.value (Err refusal) quiet result }
    ensures ready { IsReady kept.new }
{
    let start = kept.journal.len();
    let vat = kept.core.vat();
    write_refused(vat, &mut kept.journal, refusal);
    let answer = Err(refusal);
    let said = Snapshot::of(&answer);
    let effects = no_effects(kept.alloc);
    let told = Told::Obeyed(asked, said, Snapshot::of(&effects), true);
    let sent = effects.sends.len();
    kept.core.recycle(effects);
    let entries = kept.journal.len() - start;
    Note {
        told,
        sent,
        entries,
    }
}

// Tells a command that was done. If there is no room for all that it says, the vat goes down with fault 33, as if it had
// been shut in its place, and the command is handed back.
fn tell_done(
    kept: &mut Kept,
    before: Snapshot<Core>,
    asked: Snapshot<Command>,
    own: Own,
    spare: Option<Command>,
    granted: Granted,
    effects: Effects,
    waiting: &mut Waiting<Message>,
) -> (Note, Answer)
    requires up { before.value.down ≡ None }
    requires abort { kept.old.spare.can_abort ≡ true }
    requires copies { kept.old.copies.0 ≡ [] }
    requires entries { 7 ≤ kept.old.journal.1 }
    requires free { 0 < waiting.old.room }
    requires step { step.Obeys before.value asked.value (Ok granted) effects kept.old.core }
    requires says { IsQuiet asked.value effects }
    requires other { is_shut asked.value ≡ false }
    requires own { IsOwn before.value asked.value own }
    requires back { HasBack spare own asked.value }
    ensures obeys { Obeys down_by input_of sends_of StepsSo (record { core = before.value; journal = kept.old.journal.0 }) waiting.old asked.value true result.0 (held_of kept.new) waiting.new }
    ensures answers { AnswersSo asked.value result.0 result.1 }
    ensures ready { IsReady kept.new }
{
    if let Some(number) = kept.core.down() {
        return tell_last(kept, before, asked, own, granted, number, effects, waiting);
    }
    let vat = kept.core.vat();
    match make_room(kept, vat, true, &effects, waiting) {
        Ok(()) => return tell_all(kept, before, asked, own, granted, effects, waiting),
        Err(Memory) => {}
    }
    let note = tell_shut(kept, before, &asked, granted, effects, waiting);
    let back = hand_back(asked, spare, own);
    (note, Answer::Refused(Refusal::Down, back))
}

// Tells a command that took the vat down.
fn tell_last(
    kept: &mut Kept,
    before: Snapshot<Core>,
    asked: Snapshot<Command>,
    own: Own,
    granted: Granted,
    number: u16,
    effects: Effects,
    waiting: &mut Waiting<Message>,
) -> (Note, Answer)
    requires up { before.value.down ≡ None }
    requires down { kept.old.core.down ≡ Some number }
    requires abort { kept.old.spare.can_abort ≡ true }
    requires copies { kept.old.copies.0 ≡ [] }
    requires entries { 7 ≤ kept.old.journal.1 }
    requires free { 0 < waiting.old.room }
    requires step { step.Obeys before.value asked.value (Ok granted) effects kept.old.core }
    requires says { IsQuiet asked.value effects }
    requires own { IsOwn before.value asked.value own }
    ensures obeys { Obeys down_by input_of sends_of StepsSo (record { core = before.value; journal = kept.old.journal.0 }) waiting.old asked.value true result.0 (held_of kept.new) waiting.new }
    ensures answers { AnswersSo asked.value result.0 result.1 }
    ensures ready { IsReady kept.new }
{
    names_stay();
    let start = kept.journal.len();
    let vat = kept.core.vat();
    let answer = Ok(granted);
    let said = Snapshot::of(&answer);
    let mut effects = effects;
    write_note(vat, &mut kept.journal, own, granted);
    let told = Told::Obeyed(asked, said, Snapshot::of(&effects), true);
    let sent = effects.sends.len();
    tell_fall(kept, vat, number, &mut effects, waiting);
    let entries = kept.journal.len() - start;
    let note = Note {
        told,
        sent,
        entries,
    };
    (note, Answer::Done(granted, effects))
}

// Tells a command for all of which there is room; its entries are copied.
fn tell_all(
    kept: &mut Kept,
    before: Snapshot<Core>,
    asked: Snapshot<Command>,
    own: Own,
    granted: Granted,
    effects: Effects,
    waiting: &mut Waiting<Message>,
) -> (Note, Answer)
    requires up { before.value.down ≡ None }
    requires abort { kept.old.spare.can_abort ≡ true }
    requires copies { kept.old.copies.0 ≡ effect_entries kept.old.core.vat effects }
    requires entries { length kept.old.copies.0 + 1 + 6 ≤ kept.old.journal.1 }
    requires free { length effects.sends < waiting.old.room }
    requires step { step.Obeys before.value asked.value (Ok granted) effects kept.old.core }
    requires says { IsQuiet asked.value effects }
    requires own { IsOwn before.value asked.value own }
    ensures obeys { Obeys down_by input_of sends_of StepsSo (record { core = before.value; journal = kept.old.journal.0 }) waiting.old asked.value true result.0 (held_of kept.new) waiting.new }
    ensures answers { AnswersSo asked.value result.0 result.1 }
    ensures ready { IsReady kept.new }
{
    names_stay();
    let start = kept.journal.len();
    let vat = kept.core.vat();
    let answer = Ok(granted);
    let said = Snapshot::of(&answer);
    let mut effects = effects;
    write_note(vat, &mut kept.journal, own, granted);
    let told = Told::Obeyed(asked, said, Snapshot::of(&effects), true);
    let sent = effects.sends.len();
    tell_whole(kept, vat, &mut effects, waiting);
    let entries = kept.journal.len() - start;
    let note = Note {
        told,
        sent,
        entries,
    };
    (note, Answer::Done(granted, effects))
}

// Tells of a command for which there is no room: a shut in its place.
fn tell_shut(
    kept: &mut Kept,
    before: Snapshot<Core>,
    asked: &Snapshot<Command>,
    granted: Granted,
    effects: Effects,
    waiting: &mut Waiting<Message>,
) -> Note
    requires up { before.value.down ≡ None }
    requires still_up { kept.old.core.down ≡ None }
    requires abort { kept.old.spare.can_abort ≡ true }
    requires copies { kept.old.copies.0 ≡ [] }
    requires entries { 7 ≤ kept.old.journal.1 }
    requires free { 0 < waiting.old.room }
    requires step { step.Obeys before.value asked.now.value (Ok granted) effects kept.old.core }
    ensures obeys { Obeys down_by input_of sends_of StepsSo (record { core = before.value; journal = kept.old.journal.0 }) waiting.old asked.now.value true result (held_of kept.new) waiting.new }
    ensures shut { IsShutBy 33 result.told }
    ensures ready { IsReady kept.new }
{
    names_stay();
    overflow_is_shut();
    let start = kept.journal.len();
    let vat = kept.core.vat();
    kept.core.recycle(effects);
    let number = Fault::WantOfRoom.code();
    let fallen = kept.core.shut(number);
    let told = Told::Shut(Snapshot::of(&fallen));
    note_fall(kept, vat, start, told, number, fallen, waiting)
}

// A copy of a command that asks for a field: its note has not all of it.
fn copy_of_field(alloc: Global, command: &Command) -> Result<Option<Command>, Memory>
    requires { is_shut command.now ≡ false }
    ensures { IfOk result (λ spare. IsSpare spare command.now) }
{
    match command {
        Command::Field(call, path) => {
            let path = path.copy(alloc)?;
            Ok(Some(Command::Field(*call, path)))
        }
        _ => Ok(None),
    }
}

// The command, from its copy or from its note.
fn hand_back(asked: Snapshot<Command>, spare: Option<Command>, own: Own) -> Command
    requires { HasBack spare own asked.value }
    ensures { result ≡ asked.value }
{
    // Only the contract speaks of it, and the compiler counts it as unused.
    let _ = asked;
    if let Some(command) = spare {
        return command;
    }
    match back_of(own) {
        Some(command) => command,
        None => unreachable!(),
    }
}
