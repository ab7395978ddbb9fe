ghost use Rattle.std.specs.Prelude.{◌≡◌, ◌≤◌, ◌+◌, ◌||◌, ◌&&◌, is_some, None, Ok, IfSome, cond, length};
ghost use Rattle.rpc_machine.specs.declared.command.Command.TheVariants as command;
ghost use Rattle.laws_runs.specs.MadeCalls.{NumbersItsCalls};
ghost use Rattle.rpc_machine.specs.Refusals.{is_shut};
ghost use Rattle.vat_world.specs.Rooms.{stage_of, owed, CanAbort, CanFall, HasRoom};
ghost use Rattle.vat_world.specs.Stages.{ObeysSo, ObeysUp, ObeysUpSo, AnswersSo, DeliversBy, HandlesUp, TellsDone, TellsRefused, takes_down};
ghost use Rattle.core_telling.specs.Told.{IsFall};
ghost use Rattle.rpc_machine.specs.Progress.{quiet};
ghost use Rattle.rpc_machine.specs.World.{given_up};

use crate::answer::StepAnswer;
use crate::calls::{obey_call, obey_finish};
use crate::log::{log_overflow, log_step};
use crate::side::Side;
use crate::tasks::obey_answer;
use core_telling::{
    Answer, Core, Journal, Note, Refused, index_of_call, note_of, write_note, write_refused,
};
use rpc_journal::{Advanced, JournalEntry};
use rpc_machine::{Command, Effects, Granted, Refusal};
use rpc_msg::{Items, Memory, Message, Vat};
use std::alloc::Global;

/// A command at a vat. Answers what its core answers, with the effects of going down if the link or the journal could
/// not grow. The commands of a call that takes its usual course go to the core's call of their name at once.
pub(crate) fn obey(
    alloc: Global,
    vat: Vat,
    acting: &mut Side,
    peer: &mut Side,
    journal: &mut Journal,
    command: Command,
) -> StepAnswer
    requires room { HasRoom acting.old peer.old journal.old }
    requires counts { acting.old.core.down ≡ None → NumbersItsCalls vat acting.old.core journal.old.0 }
    ensures obeys { ObeysSo acting.old.core.down vat (stage_of acting.old peer.old journal.old) command result (stage_of acting.new peer.new journal.new) }
    ensures was_shut { acting.new.was_shut ≡ (acting.old.was_shut || takes_down acting.old.core.down command acting.new.core.down) }
    ensures peer_shut { peer.new.was_shut ≡ peer.old.was_shut }
    ensures room { HasRoom acting.new peer.new journal.new }
{
    if acting.core.down().is_some() {
        return obey_down(&mut acting.core, command);
    }
    match command {
        Command::Call(call) => return obey_call(alloc, vat, acting, peer, journal, call),
        Command::Answer(task, payload, refs) => {
            return obey_answer(alloc, vat, acting, peer, journal, task, payload, refs);
        }
        Command::Finish(call) => return obey_finish(alloc, vat, acting, peer, journal, call),
        other => return obey_other(alloc, vat, acting, peer, journal, other),
    }
}

#[cold]
#[inline(never)]
fn obey_down(core: &mut Core, command: Command) -> StepAnswer
    ensures { AnswersSo core.old command result core.new }
{
    StepAnswer::Answered(core.command(command))
}

#[inline(never)]
fn obey_other(
    alloc: Global,
    vat: Vat,
    acting: &mut Side,
    peer: &mut Side,
    journal: &mut Journal,
    command: Command,
) -> StepAnswer
    requires up { acting.old.core.down ≡ None }
    requires room { HasRoom acting.old peer.old journal.old }
    requires counts { NumbersItsCalls vat acting.old.core journal.old.0 }
    ensures obeys { ObeysUpSo vat (stage_of acting.old peer.old journal.old) (command) result (stage_of acting.new peer.new journal.new) }
    ensures was_shut { acting.new.was_shut ≡ (acting.old.was_shut || (is_shut command && is_some acting.new.core.down)) }
    ensures peer_shut { peer.new.was_shut ≡ peer.old.was_shut }
    ensures room { HasRoom acting.new peer.new journal.new }
{
    let shuts = is_shut(&command);
    let answer = obey_up(alloc, vat, acting, peer, journal, command);
    acting.was_shut = acting.was_shut || (shuts && acting.core.down().is_some());
    StepAnswer::Answered(answer)
}

fn is_shut(command: &Command) -> bool
    ensures { result ≡ is_shut command.now }
{
    match command {
        Command::Shut(_) => true,
        _ => false,
    }
}

fn obey_up(
    alloc: Global,
    vat: Vat,
    acting: &mut Side,
    peer: &mut Side,
    journal: &mut Journal,
    command: Command,
) -> Answer
    requires up { acting.old.core.down ≡ None }
    requires room { HasRoom acting.old peer.old journal.old }
    requires counts { NumbersItsCalls vat acting.old.core journal.old.0 }
    ensures obeys { ObeysUp vat (stage_of acting.old peer.old journal.old) command result (stage_of acting.new peer.new journal.new) }
    ensures was_shut { acting.new.was_shut ≡ acting.old.was_shut }
    ensures peer_shut { peer.new.was_shut ≡ peer.old.was_shut }
    ensures room { HasRoom acting.new peer.new journal.new }
{
    let start = journal.len();
    let index = index_of_call(&acting.core, &command);
    let note = note_of(alloc, index, &command);
    let mut answer = acting.core.command(command);
    match &mut answer {
        Answer::Done(granted, effects) => {
            *granted = tell_done(
                alloc, vat, acting, peer, journal, start, note, *granted, effects,
            );
            return answer;
        }
        Answer::Refused(refusal, _) => {
            tell_refused(alloc, vat, acting, peer, journal, start, *refusal);
            return answer;
        }
    }
}

// Tells a step that was done, and gives what is left of what it granted.
#[inline(always)]
pub(crate) fn tell_done(
    alloc: Global,
    vat: Vat,
    acting: &mut Side,
    peer: &mut Side,
    journal: &mut Journal,
    start: usize,
    note: Result<Note, Memory>,
    granted: Granted,
    effects: &mut Effects,
) -> Granted
    requires start { start ≡ length journal.old.0 }
    requires can_abort { CanAbort acting.old peer.old }
    requires other { CanFall peer.old acting.old }
    requires entries { 3 + owed peer.old.core.down ≤ journal.old.1 }
    requires fell { IfSome acting.old.core.down (IsFall effects.old) }
    ensures tells { TellsDone vat (stage_of acting.old peer.old journal.old) note granted effects.old result effects.new (stage_of acting.new peer.new journal.new) }
    ensures was_shut { acting.new.was_shut ≡ acting.old.was_shut }
    ensures peer_shut { peer.new.was_shut ≡ peer.old.was_shut }
    ensures room { HasRoom acting.new peer.new journal.new }
{
    match note {
        Ok(note) => {
            write_note(vat, journal, note, granted);
            let room = log_step(alloc, vat, acting, peer, journal, start, effects);
            return left_of(granted, room);
        }
        Err(Memory) => {
            log_overflow(alloc, vat, acting, peer, journal, start, effects);
            return left_of(granted, false);
        }
    }
}

// Tells a step that was refused.
#[cold]
#[inline(never)]
pub(crate) fn tell_refused(
    alloc: Global,
    vat: Vat,
    acting: &mut Side,
    peer: &mut Side,
    journal: &mut Journal,
    start: usize,
    refusal: Refusal,
)
    requires start { start ≡ length journal.old.0 }
    requires up { acting.old.core.down ≡ None }
    requires room { HasRoom acting.old peer.old journal.old }
    ensures tells { TellsRefused vat (stage_of acting.old peer.old journal.old) refusal (stage_of acting.new peer.new journal.new) }
    ensures was_shut { acting.new.was_shut ≡ acting.old.was_shut }
    ensures peer_shut { peer.new.was_shut ≡ peer.old.was_shut }
    ensures room { HasRoom acting.new peer.new journal.new }
{
    write_refused(vat, journal, refusal);
    let mut quiet = no_effects(alloc);
    log_step(alloc, vat, acting, peer, journal, start, &mut quiet);
    let Effects {
        sends: _,
        deliveries: _,
        answers: _,
        down: _,
    } = quiet;
}

// What is left of an answer: if there was no room, a reference that was to advance did not.
fn left_of(granted: Granted, room: bool) -> Granted
    ensures { Ok result ≡ cond room (Ok granted) (given_up (Ok granted)) }
{
    match (granted, room) {
        (Granted::Advanced(_), false) => Granted::Advanced(Advanced::Nothing),
        _ => granted,
    }
}

fn no_effects(alloc: Global) -> Effects
    ensures { result ≡ quiet }
{
    Effects {
        sends: Items::new(alloc),
        deliveries: Items::new(alloc),
        answers: Items::new(alloc),
        down: None,
    }
}

/// A vat receives the oldest message on its way to it. `Empty` if there is none, or the vat is down.
#[inline(always)]
pub(crate) fn deliver(
    alloc: Global,
    vat: Vat,
    acting: &mut Side,
    peer: &mut Side,
    journal: &mut Journal,
) -> StepAnswer
    requires { HasRoom acting.old peer.old journal.old }
    ensures delivers { DeliversBy acting.old.inbox.0 acting.old.core.down vat (stage_of acting.old peer.old journal.old) result (stage_of acting.new peer.new journal.new) }
    ensures was_shut { acting.new.was_shut ≡ acting.old.was_shut }
    ensures peer_shut { peer.new.was_shut ≡ peer.old.was_shut }
    ensures room { HasRoom acting.new peer.new journal.new }
{
    if acting.core.down().is_some() {
        return StepAnswer::Empty;
    }
    match acting.inbox.pop() {
        Some(message) => {
            let effects = handle(alloc, vat, acting, peer, journal, message);
            return StepAnswer::Handled(effects);
        }
        None => return StepAnswer::Empty,
    }
}

#[inline(always)]
fn handle(
    alloc: Global,
    vat: Vat,
    acting: &mut Side,
    peer: &mut Side,
    journal: &mut Journal,
    message: Message,
) -> Effects
    requires up { acting.old.core.down ≡ None }
    requires room { HasRoom acting.old peer.old journal.old }
    ensures handles { HandlesUp vat (stage_of acting.old peer.old journal.old) message result (stage_of acting.new peer.new journal.new) }
    ensures was_shut { acting.new.was_shut ≡ acting.old.was_shut }
    ensures peer_shut { peer.new.was_shut ≡ peer.old.was_shut }
    ensures room { HasRoom acting.new peer.new journal.new }
{
    let mut effects = acting.core.receive(message);
    journal.push(JournalEntry::Got(vat));
    let start = journal.len();
    log_step(alloc, vat, acting, peer, journal, start, &mut effects);
    effects
}
