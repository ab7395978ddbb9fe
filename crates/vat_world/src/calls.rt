ghost use Rattle.std.specs.Prelude.{◌≡◌, None};
ghost use Rattle.rpc_machine.specs.declared.command.Command.TheVariants as command;
ghost use Rattle.laws_runs.specs.MadeCalls.{NumbersItsCalls};
ghost use Rattle.vat_world.specs.Rooms.{stage_of, HasRoom};
ghost use Rattle.vat_world.specs.Stages.{ObeysUpSo};

use crate::answer::StepAnswer;
use crate::side::Side;
use crate::step::{tell_done, tell_refused};
use core_telling::{Answer, Journal, Note, Refused, calls_before, note_call};
use rpc_machine::{CallCommand, Command, Granted};
use rpc_msg::{CallId, Vat};
use std::alloc::Global;

#[inline(always)]
pub(crate) fn obey_call(
    alloc: Global,
    vat: Vat,
    acting: &mut Side,
    peer: &mut Side,
    journal: &mut Journal,
    call: CallCommand,
) -> StepAnswer
    requires up { acting.old.core.down ≡ None }
    requires room { HasRoom acting.old peer.old journal.old }
    requires counts { NumbersItsCalls vat acting.old.core journal.old.0 }
    ensures obeys { ObeysUpSo vat (stage_of acting.old peer.old journal.old) (command.Call call) result (stage_of acting.new peer.new journal.new) }
    ensures was_shut { acting.new.was_shut ≡ acting.old.was_shut }
    ensures peer_shut { peer.new.was_shut ≡ peer.old.was_shut }
    ensures room { HasRoom acting.new peer.new journal.new }
{
    let start = journal.len();
    let index = calls_before(&acting.core, call.reference);
    let note = note_call(alloc, index, &call);
    match acting.core.call(call) {
        Ok((id, mut effects)) => {
            let granted = Granted::Call(id);
            let left = tell_done(
                alloc,
                vat,
                acting,
                peer,
                journal,
                start,
                note,
                granted,
                &mut effects,
            );
            return StepAnswer::Answered(Answer::Done(left, effects));
        }
        Err(Refused { refusal, back }) => {
            tell_refused(alloc, vat, acting, peer, journal, start, refusal);
            return StepAnswer::Answered(Answer::Refused(refusal, Command::Call(back)));
        }
    }
}

#[inline(always)]
pub(crate) fn obey_finish(
    alloc: Global,
    vat: Vat,
    acting: &mut Side,
    peer: &mut Side,
    journal: &mut Journal,
    call: CallId,
) -> StepAnswer
    requires up { acting.old.core.down ≡ None }
    requires room { HasRoom acting.old peer.old journal.old }
    requires counts { NumbersItsCalls vat acting.old.core journal.old.0 }
    ensures obeys { ObeysUpSo vat (stage_of acting.old peer.old journal.old) (command.Finish call) result (stage_of acting.new peer.new journal.new) }
    ensures was_shut { acting.new.was_shut ≡ acting.old.was_shut }
    ensures peer_shut { peer.new.was_shut ≡ peer.old.was_shut }
    ensures room { HasRoom acting.new peer.new journal.new }
{
    let start = journal.len();
    match acting.core.finish(call) {
        Ok(mut effects) => {
            let left = tell_done(
                alloc,
                vat,
                acting,
                peer,
                journal,
                start,
                Ok(Note::Finished(call)),
                Granted::Done,
                &mut effects,
            );
            return StepAnswer::Answered(Answer::Done(left, effects));
        }
        Err(refusal) => {
            tell_refused(alloc, vat, acting, peer, journal, start, refusal);
            return StepAnswer::Answered(Answer::Refused(refusal, Command::Finish(call)));
        }
    }
}
