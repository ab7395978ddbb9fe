//! The functions run no code: what each ensures is the law.

ghost use Rattle.laws_runs.specs.Meanings.{MeaningsLast, MeaningsAreOne, InTimeIsToOne};
ghost use Rattle.laws_runs.specs.Shown.{EveryRunIsShown, ShowsBothUp, EverySceneShowsARun, ScenesAreUp, ScenesAreReached};
ghost use Rattle.laws_runs.specs.Quiet.{EveryRunIsQuiet};
ghost use Rattle.laws_runs.specs.MadeCalls.{CallsAreNumbered, ScenesCount, RunsCount};

/// If each delivery is to an object that its call's reference stands for, no later entry changes what a reference
/// stands for, and none stands for two things. It is enough that each delivery is so in the history up to it.
pub fn meanings_last()
    ensures last { MeaningsLast }
    ensures one { MeaningsAreOne }
    ensures in_time { InTimeIsToOne }
{}

/// In each journal the calls made through a reference are numbered from 0, in order.
pub fn calls_are_numbered()
    ensures { CallsAreNumbered }
{}

/// In every run of two vats, a vat delivers nothing once it is down.
pub fn quiet_when_down()
    ensures { EveryRunIsQuiet }
{}

/// Each run of two vats is shown by steps that are neither refused nor fall. These have the same history, and at each
/// vat that is up the same core and the same messages on their way to it, except for the Abort of the other. If both
/// are up the world is the same. Such steps show nothing else: what they come to is what a run comes to, with both vats
/// up.
pub fn every_run_is_shown()
    ensures every { EveryRunIsShown }
    ensures both_up { ShowsBothUp }
    ensures only { EverySceneShowsARun }
    ensures up { ScenesAreUp }
    ensures reached { ScenesAreReached }
{}

/// How many calls a reference counts is how many were made through it, by the journal. So the stamp that a vat gives a
/// call is the one under which the journal has it.
pub fn calls_are_counted()
    ensures scenes { ScenesCount }
    ensures runs { RunsCount }
{}
