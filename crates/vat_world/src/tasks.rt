ghost use Rattle.std.specs.Prelude.{◌≡◌, None};
ghost use Rattle.rpc_machine.specs.declared.command.Command.TheVariants as command;
ghost use Rattle.laws_runs.specs.MadeCalls.{NumbersItsCalls};
ghost use Rattle.vat_world.specs.Rooms.{stage_of, HasRoom};
ghost use Rattle.vat_world.specs.Stages.{ObeysUpSo};

use crate::answer::StepAnswer;
use crate::side::Side;
use crate::step::{tell_done, tell_refused};
use core_telling::{Answer, Journal, Refused, note_answer};
use rpc_machine::{Command, Granted};
use rpc_msg::{Items, Payload, RefId, TaskId, Vat};
use std::alloc::Global;

#[inline(always)]
pub(crate) fn obey_answer(
    alloc: Global,
    vat: Vat,
    acting: &mut Side,
    peer: &mut Side,
    journal: &mut Journal,
    task: TaskId,
    payload: Payload,
    refs: Items<RefId>,
) -> StepAnswer
    requires up { acting.old.core.down ≡ None }
    requires room { HasRoom acting.old peer.old journal.old }
    requires counts { NumbersItsCalls vat acting.old.core journal.old.0 }
    ensures obeys { ObeysUpSo vat (stage_of acting.old peer.old journal.old) (command.Answer task payload refs) result (stage_of acting.new peer.new journal.new) }
    ensures was_shut { acting.new.was_shut ≡ acting.old.was_shut }
    ensures peer_shut { peer.new.was_shut ≡ peer.old.was_shut }
    ensures room { HasRoom acting.new peer.new journal.new }
{
    let start = journal.len();
    let note = note_answer(alloc, task, &payload, &refs);
    match acting.core.answer(task, payload, refs) {
        Ok(mut effects) => {
            let left = tell_done(
                alloc,
                vat,
                acting,
                peer,
                journal,
                start,
                note,
                Granted::Done,
                &mut effects,
            );
            return StepAnswer::Answered(Answer::Done(left, effects));
        }
        Err(Refused { refusal, back }) => {
            tell_refused(alloc, vat, acting, peer, journal, start, refusal);
            let (payload, refs) = back;
            let back = Command::Answer(task, payload, refs);
            return StepAnswer::Answered(Answer::Refused(refusal, back));
        }
    }
}
