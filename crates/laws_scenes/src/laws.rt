//! The functions run no code: what each ensures is the law.

ghost use Rattle.laws_scenes.specs.Canceled.{CanceledWereGivenUp};
ghost use Rattle.laws_scenes.specs.InFull.{OwnScenesArriveInFull, RunsArriveInFull, ScenesArriveInFull};
ghost use Rattle.laws_scenes.specs.Ordered.{RunsAreOrdered, ScenesAreOrdered};
ghost use Rattle.laws_scenes.specs.Refused.{AllFallsAreKnown, DisembargosTurn, RunsRefuseNothing, ScenesRefuseNothing};
ghost use Rattle.laws_scenes.specs.WhatIsLeft.{SoundByMeanings};
ghost use Rattle.laws_scenes.specs.Walked.{ScenesAreBetweenSteps};

use crate::{oldest_are_met, vats_meet};
use laws_messages::{named_answers_are_there, no_message_is_refused, sound_by_the_rest};
use laws_routes::{
    calls_may_go, disembargos_meet_wires, embargoes_are_right, steps_begin_and_end_with_it,
    steps_keep_order, steps_may_be_done, vats_are_tied,
};
use laws_runs::{calls_are_numbered, counts_agree_in_scenes, every_run_is_shown, sessions_stand};
use laws_steps::nodes_are_there;

/// In each scene no Return is canceled of a question whose Finish was not sent.
pub fn canceled_were_given_up()
    ensures { CanceledWereGivenUp }
{
    sessions_stand();
    counts_agree_in_scenes();
}

/// In each scene all is so of both vats, between two steps, that the laws of whole steps take as known, of commands and
/// of the oldest message on its way. Steps in which that was so lead there, with the calls that the journal tells.
pub fn vats_are_between_steps()
    ensures { ScenesAreBetweenSteps }
{
    vats_meet();
    nodes_are_there();
    every_run_is_shown();
    counts_agree_in_scenes();
    oldest_are_met();
    canceled_were_given_up();
    steps_begin_and_end_with_it();
    steps_may_be_done();
    embargoes_are_right();
}

/// In each scene, and in every run of two vats, the calls delivered of a reference are a beginning of those made through it, in order,
/// each once, and all at one object.
pub fn calls_keep_their_order()
    ensures scenes { ScenesAreOrdered }
    ensures runs { RunsAreOrdered }
{
    vats_are_between_steps();
    steps_keep_order();
    calls_are_numbered();
    every_run_is_shown();
}

/// Once a call of a reference was delivered, none is lost: if none of its calls is held or on its way, all of them were delivered.
/// So it is in each scene, and in every run while neither vat is down.
pub fn calls_arrive_in_full()
    ensures scenes { ScenesArriveInFull }
    ensures runs { RunsArriveInFull }
{
    vats_are_between_steps();
    vats_are_tied();
    steps_keep_order();
    calls_are_numbered();
    every_run_is_shown();
}

/// In each scene none of the calls is lost of a reference that leads, at its own vat, to an object or to what is still open: if none
/// is held or on its way, all of them were delivered.
pub fn own_calls_arrive_in_full()
    ensures { OwnScenesArriveInFull }
{
    vats_are_between_steps();
    vats_are_tied();
    steps_keep_order();
    calls_may_go();
    calls_are_numbered();
    every_run_is_shown();
}

/// In each scene a Disembargo that is to turn back is aimed at what leads back, over the wire on which it came.
pub fn disembargos_turn_back()
    ensures { DisembargosTurn }
{
    vats_are_between_steps();
    vats_are_tied();
    steps_keep_order();
    calls_may_go();
    named_answers_are_there();
    disembargos_meet_wires();
}

/// So in each scene, and in every run while it is up, a vat refuses no message of the other one. Excepted are a Call if
/// no more calls may wait, and the Abort of a vat that is down. A vat goes down only by a shut, for lack of room or
/// memory, for that limit, or by the Abort of the other vat, which went down before.
pub fn nothing_is_refused()
    ensures scenes { ScenesRefuseNothing }
    ensures runs { RunsRefuseNothing }
    ensures falls { AllFallsAreKnown }
{
    disembargos_turn_back();
    no_message_is_refused();
}

/// All that is promised of runs holds once this is shown of scenes: each delivery and each end is by what the reference
/// of its call stands for. And of a reference that stands for an object no call is lost before the first one was
/// delivered.
pub fn sound_by_meanings()
    ensures { SoundByMeanings }
{
    sound_by_the_rest();
    calls_keep_their_order();
    calls_arrive_in_full();
    disembargos_turn_back();
}
