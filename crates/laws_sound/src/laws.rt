//! The functions run no code: what each ensures is the law.

ghost use Rattle.rpc_machine.specs.Claims.{EveryRunIsSound};
ghost use Rattle.laws_sound.specs.OldestHeard.{OldestAreHeard, RootsAreHosted};
ghost use Rattle.laws_sound.specs.ScenesMean.{BeginningsFollow, MeaningsAreKept, ScenesAreLed, ScenesAreMeant, ScenesMean};
ghost use Rattle.laws_sound.specs.StepsInScenes.{CommandsStep, FirstActsSend, MessagesStep};
ghost use Rattle.laws_sound.specs.WiresKept.{WiresAreKeptInScenes};

use laws_meanings::{
    commands_are_written, commands_keep_scenes_meanings, cores_are_fit, effects_are_meanings,
    first_acts_follow, first_acts_of_commands_mean, first_acts_of_messages_mean, links_are_left,
    messages_are_heard, messages_keep_meanings, no_call_is_lost, node_meanings_last,
};
use laws_runs::{counts_agree_in_scenes, meanings_last};
use laws_scenes::{canceled_were_given_up, sound_by_meanings, vats_are_between_steps};
use laws_wires::{
    answers_are_left, first_acts_send_meanings, named_are_kept, steps_send_meanings,
    the_way_back_is_held, what_is_asked_is_of_calls, what_is_sent_is_met, wires_are_left,
    wires_last, wires_mean_at_first,
};

/// In each scene the history has the bootstrap object of each vat.
pub fn roots_are_hosted()
    ensures { RootsAreHosted }
{}

/// In a scene in which all that stands on the wires means what it should, the oldest message on its way to a vat says there
/// what it should.
pub fn oldest_are_heard()
    ensures { OldestAreHeard }
{
    roots_are_hosted();
    messages_are_heard();
    cores_are_fit();
    canceled_were_given_up();
    counts_agree_in_scenes();
}

/// What the first act of each step in a scene sends means what it should, if all did before the step.
pub fn first_acts_send()
    ensures { FirstActsSend }
{
    first_acts_send_meanings();
    cores_are_fit();
    commands_are_written();
    counts_agree_in_scenes();
}

/// If all means what it should before a step, all that its vat holds means what the history says behind it, by labels that are
/// kept if keys were there; and so does all that it sends.
pub fn steps_keep_places()
    ensures commands { CommandsStep }
    ensures messages { MessagesStep }
{
    first_acts_send();
    what_is_asked_is_of_calls();
    steps_send_meanings();
    first_acts_of_commands_mean();
    first_acts_of_messages_mean();
    cores_are_fit();
    commands_are_written();
    node_meanings_last();
    effects_are_meanings();
    oldest_are_heard();
}

/// The wires behind a step in a scene mean what they should: what was on its way, what was sent, and what the vats know of each
/// other.
pub fn wires_are_kept()
    ensures { WiresAreKeptInScenes }
{
    vats_are_between_steps();
    cores_are_fit();
    counts_agree_in_scenes();
    wires_are_left();
    wires_last();
    named_are_kept();
    the_way_back_is_held();
    answers_are_left();
    what_is_sent_is_met();
}

/// So each step keeps that all which two vats hold, and which stands on the wires between them, means what the history says.
pub fn meanings_are_kept()
    ensures { MeaningsAreKept }
{
    steps_keep_places();
    wires_are_kept();
    node_meanings_last();
    wires_are_left();
}

/// So it is in each scene.
pub fn scenes_mean()
    ensures { ScenesMean }
{
    wires_mean_at_first();
    wires_are_left();
    node_meanings_last();
    meanings_are_kept();
}

/// So each entry of a scene's journal is as what leads to an object, or to broken, says; and so are nodes behind the first act of
/// each step.
pub fn scenes_are_led()
    ensures led { ScenesAreLed }
    ensures begin { BeginningsFollow }
{
    scenes_mean();
    oldest_are_heard();
    cores_are_fit();
    messages_keep_meanings();
    commands_keep_scenes_meanings();
    commands_are_written();
    node_meanings_last();
    first_acts_follow();
}

/// So in each scene each delivery and each end is by what the reference of its call stands for, and of a reference that stands for an
/// object no call is lost before the first one was delivered.
pub fn scenes_are_meant()
    ensures { ScenesAreMeant }
{
    scenes_are_led();
    links_are_left();
    meanings_last();
    no_call_is_lost();
}

/// All that is promised of runs holds in every run of two new vats of level 1, whatever their bootstrap objects.
pub fn every_run_is_sound()
    ensures { EveryRunIsSound }
{
    scenes_are_meant();
    sound_by_meanings();
}
