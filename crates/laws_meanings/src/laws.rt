//! The functions run no code: what each ensures is the law.

ghost use Rattle.laws_meanings.specs.AsMade.{CallsAreAsMade, DeliveriesAreAsMade};
ghost use Rattle.laws_meanings.specs.NewReferences.{GivenAreNew};
ghost use Rattle.laws_meanings.specs.OnePlace.{CallsAreAtOnePlace, DeliveriesAreFirst, DeliveredOnce};
ghost use Rattle.laws_meanings.specs.FirstEnds.{EndsAreFirst};
ghost use Rattle.laws_meanings.specs.AskedCalls.{EndsWereAsked};
ghost use Rattle.laws_meanings.specs.Bootstraps.{NumbersAreAsked, RootsAreReturned, RootsAreLeft, BootstrapsEnd};
ghost use Rattle.laws_meanings.specs.Identities.{OutcomesAreOfCalls};
ghost use Rattle.laws_meanings.specs.AnsweredEnds.{CallsEndAsAnswered};
ghost use Rattle.laws_meanings.specs.Tasks.{TasksAreOpen, TasksAreAnsweredOnce};
ghost use Rattle.laws_meanings.specs.WhatIsLeft.{ObjectsAreLeft, AnswersAreLeft, CallsAreLeft, BrokenCallsAreLeft};
ghost use Rattle.laws_meanings.specs.NodeMeanings.{LinksLast, LedToObjects, LedToBroken, LinksToObjectsAreLeft, LinksToBrokenAreLeft};
ghost use Rattle.laws_meanings.specs.NodeLabels.{ActsKeepMeanings};
ghost use Rattle.laws_meanings.specs.FirstActs.{FirstActsFollow};
ghost use Rattle.laws_meanings.specs.FitCores.{CoresAreFit};
ghost use Rattle.laws_meanings.specs.NoneLost.{ActsLoseNone, CallsAreSomewhere, ObjectsLoseNone};
ghost use Rattle.laws_meanings.specs.CommandMeanings.{CommandsKeepMeanings, OpeningsKeepMeanings, FirstActsMean, FirstOpeningsMean};
ghost use Rattle.laws_meanings.specs.MessageMeanings.{BootstrapsAreHeard, ConsumingMeans, EachActMeans, MessagesKeepMeanings, CallsAreHeard, DescriptorsAreRead, ResolvesAreHeard, TargetsAreRead};
ghost use Rattle.laws_meanings.specs.ReadMessages.{MessagesAreHeard, ReturnsAreHeard};
ghost use Rattle.laws_meanings.specs.Fates.{PromisesAreOpen};
ghost use Rattle.laws_meanings.specs.WrittenCommands.{CommandsAreWritten, NamesItsCaps};
ghost use Rattle.laws_meanings.specs.StepMeanings.{ScenesCommandsKeep, LastWordsAreLed};
ghost use Rattle.laws_meanings.specs.LastingMeanings.{PlacesLast, MomentsLast, EffectsAreWritten, EntriesAreLed};

use laws_authority::all_at_most_once;
use laws_messages::named_answers_are_there;
use laws_nodes::{embargoes_pair, outcomes_have_sources, questions_end};
use laws_runs::{counts_agree_in_scenes, meanings_last};
use laws_steps::nodes_are_there;

/// In each scene take every call that waits or is on its way, and every delivery in the history up to it. It has the
/// interface, method and payload of the call that was made with its stamp, and as many capabilities as that had
/// references.
pub fn calls_are_as_made()
    ensures about { CallsAreAsMade }
    ensures delivered { DeliveriesAreAsMade }
{}

/// In each scene the references that a delivery or an end of a call gives come from nowhere in the history up to it, and
/// are different ones.
pub fn given_references_are_new()
    ensures { GivenAreNew }
{}

/// In each scene each call is at one place at most: it waits at one vat, is on its way to one, or was delivered. So each
/// delivery of a call is its first; and in every run no call is delivered twice.
pub fn calls_are_at_one_place()
    ensures places { CallsAreAtOnePlace }
    ensures deliveries { DeliveriesAreFirst }
    ensures runs { DeliveredOnce }
{}

/// In each scene each end of a call, or of a Bootstrap, is its first.
pub fn ends_are_first()
    ensures { EndsAreFirst }
{
    all_at_most_once();
}

/// If in a scene each delivery is to an object that its call's reference stands for, all that is promised of its
/// deliveries holds. If each end is as the call was asked and answered, all that is promised of its ends holds.
pub fn meanings_are_left()
    ensures objects { ObjectsAreLeft }
    ensures answers { AnswersAreLeft }
{
    calls_are_as_made();
    given_references_are_new();
    ends_are_first();
}

/// In each scene what ends was asked before: a call, or a Bootstrap, with that number.
pub fn ends_were_asked()
    ensures { EndsWereAsked }
{}

/// In each scene an outcome of which the application is told is of one of its calls, and no Bootstrap. A question that
/// is asked for the application was asked by it. A number to come was asked for nothing.
pub fn own_numbers_were_asked()
    ensures { NumbersAreAsked }
{}

/// If in each scene the oldest Return to a Bootstrap says the other vat's bootstrap object, or that there is none, each
/// Bootstrap ends so.
pub fn bootstraps_are_left()
    ensures { RootsAreLeft }
{
    named_answers_are_there();
}

/// In each scene the oldest Return to a Bootstrap that is not finished says the other vat's bootstrap object, or that there
/// is none; and each Bootstrap ends so.
pub fn bootstraps_end_with_roots()
    ensures returned { RootsAreReturned }
    ensures ends { BootstrapsEnd }
{
    counts_agree_in_scenes();
    bootstraps_are_left();
}

/// In each scene a task that is there was delivered once and was not answered; and in every run each task is answered once
/// at most.
pub fn tasks_are_answered_once()
    ensures open { TasksAreOpen }
    ensures once { TasksAreAnsweredOnce }
{}

/// In each scene each outcome that is not known is of the call that its caller asked: the task, the question or the
/// waiting call from which it will come is of that call. What is on its way to a vat with a question id is what the
/// other vat asked last with it.
pub fn outcomes_are_of_calls()
    ensures { OutcomesAreOfCalls }
{
    outcomes_have_sources();
    counts_agree_in_scenes();
}

/// In each scene a call ends with what was answered to its delivery, with as many capabilities; or, if it was not
/// answered, with the exception of a broken capability.
pub fn calls_end_as_answered()
    ensures { CallsEndAsAnswered }
{
    outcomes_have_sources();
    counts_agree_in_scenes();
}

/// If in a scene each end of a call is as that was answered, all that is promised of its ends holds.
pub fn ends_of_calls_are_left()
    ensures { CallsAreLeft }
{
    ends_were_asked();
    bootstraps_end_with_roots();
    meanings_are_left();
}

/// If in a scene the reference of each call that ends without an answer stands for broken, all that is promised of its
/// ends holds.
pub fn broken_calls_are_left()
    ensures { BrokenCallsAreLeft }
{
    calls_end_as_answered();
    ends_of_calls_are_left();
}

/// A reference stands for the object to which the history leads it link by link, if each delivery was to what its
/// reference stands for; it stands for broken, if it leads to that; and later entries change no link.
pub fn links_are_meanings()
    ensures last { LinksLast }
    ensures objects { LedToObjects }
    ensures broken { LedToBroken }
{}

/// If in a scene the history leads the reference of each delivered call to the object of the delivery, all that is
/// promised of deliveries holds. If it leads the reference of each call that ends without an answer to broken, all that
/// is promised of ends holds.
pub fn links_are_left()
    ensures objects { LinksToObjectsAreLeft }
    ensures broken { LinksToBrokenAreLeft }
{
    calls_are_as_made();
    given_references_are_new();
    broken_calls_are_left();
}

/// Let the history, at a moment of a step, lead each reference of a vat, and each call that waits, to what its node
/// means. Then it is so after each small act of the step: a node means what it leads to. So each call that is delivered
/// is to the object to which the history leads its reference, and each call that ends was answered, or its reference
/// leads to broken.
pub fn acts_keep_meanings()
    ensures { ActsKeepMeanings }
{}

/// What nodes mean lasts through each step of a command that opens nothing (no call, Bootstrap or promise) and of which
/// the history has the entry. If before it the head of each reference means what the history leads the reference to, it
/// is so afterwards. What it delivers is delivered to the object to which the history leads the call's reference; and
/// each call that it ends was answered, or its reference leads to broken.
pub fn commands_keep_meanings()
    ensures { CommandsKeepMeanings }
{}

/// What nodes mean lasts through each step of a command that opens a call, a Bootstrap or a promise and of which the history
/// has the entry: what it opens means that call, that Bootstrap or that promise.
pub fn openings_keep_meanings()
    ensures { OpeningsKeepMeanings }
{}

/// In each scene the core of a vat has what its places name, one source of each outcome that is not known, its questions end
/// in time, and a reference and its embargo name one another.
pub fn cores_are_fit()
    ensures { CoresAreFit }
{
    nodes_are_there();
    outcomes_have_sources();
    questions_end();
    embargoes_pair();
}

/// Let the history, at a moment of a step, lead each reference of a vat, and each call that waits, to what its node
/// means. Then the small acts behind it lose no call, except one whose reference the history leads to broken.
pub fn acts_lose_no_call()
    ensures { ActsLoseNone }
{}

/// Let nodes mean behind the first act of each step, while neither vat gives up, what the history says. Then each call
/// that was made is at one place in each scene: it waits, is on its way, or was delivered; or the history leads its
/// reference to broken. So of a reference that stands for an object none is lost.
pub fn no_call_is_lost()
    ensures places { CallsAreSomewhere }
    ensures objects { ObjectsLoseNone }
{
    meanings_last();
}

/// What nodes mean lasts through the first act of a command of which the history has the entry. It changes no label but that
/// of the promise, outcome or question that it opens.
pub fn first_acts_of_commands_mean()
    ensures plain { FirstActsMean }
    ensures openings { FirstOpeningsMean }
{}

/// One small act of a step keeps what nodes mean, and the labels of promises that are there.
pub fn each_act_keeps_meanings()
    ensures { EachActMeans }
{}

/// If a received message says what it should, by the nodes that the receiver makes of its descriptors and its target,
/// what nodes mean lasts through its first act. An answer that opens is of the call or Bootstrap that came; imports that come
/// have the labels by which the message was read; other labels stay.
pub fn first_acts_of_messages_mean()
    ensures { ConsumingMeans }
{}

/// If a received message says what it should, what nodes mean lasts through its whole step. What it delivers is delivered
/// to the object to which the history leads the call's reference; and each call that it ends was answered, or its reference
/// leads to broken.
pub fn messages_keep_meanings()
    ensures { MessagesKeepMeanings }
{}

/// If in each step from a scene nodes mean before it what the history says, which has the entry of its command,
/// and its message says what it should, nodes mean so behind its first act.
pub fn first_acts_follow()
    ensures { FirstActsFollow }
{
    cores_are_fit();
    first_acts_of_commands_mean();
    first_acts_of_messages_mean();
}

/// A Bootstrap says what it should at a vat whose bootstrap object the history has.
pub fn bootstraps_are_heard()
    ensures { BootstrapsAreHeard }
{}

/// What nodes mean at a vat, at a moment of a step too, is so in a longer history.
pub fn node_meanings_last()
    ensures places { PlacesLast }
    ensures moments { MomentsLast }
{}

/// What nodes mean at the end of a step of a scene is known from the history with the entries of the step: each reference
/// that a delivery or an end gave comes from there. And each of these entries is as what leads to an object, or to broken,
/// says.
pub fn effects_are_meanings()
    ensures written { EffectsAreWritten }
    ensures led { EntriesAreLed }
{
    given_references_are_new();
}

/// In each scene an own promise that is not settled at its vat has no fate in the history, unless the vat takes no more steps.
pub fn promises_are_settled_once()
    ensures { PromisesAreOpen }
{}

/// If a message is no fault, the nodes that a receiver makes of its descriptors and its target have the labels by which
/// it is read on its way. Own exports and answers have them by what they mean here, exports of the other vat by what
/// they mean there.
pub fn descriptors_are_read()
    ensures descriptors { DescriptorsAreRead }
    ensures targets { TargetsAreRead }
{}

/// A Call or a Resolve that is no fault says what it should by the nodes that its receiver makes, if on its way it does.
pub fn calls_are_heard()
    ensures calls { CallsAreHeard }
    ensures resolves { ResolvesAreHeard }
{}

/// So does a Return, of a question whose Finish is not sent; and any message.
pub fn messages_are_heard()
    ensures returns { ReturnsAreHeard }
    ensures messages { MessagesAreHeard }
{}

/// A payload names no other capabilities than go with it.
pub fn payloads_name_their_own()
    ensures { NamesItsCaps }
{}

/// In each scene a command that is done is the first in the history of which that is said: the number that it is given is new,
/// what it settles was not settled, what it answers not answered.
pub fn commands_are_written()
    ensures { CommandsAreWritten }
{
    payloads_name_their_own();
    own_numbers_were_asked();
    tasks_are_answered_once();
    promises_are_settled_once();
}

/// What nodes mean at a vat of a scene lasts through each step of a command, with all that this writes. Each of its
/// deliveries is to the object to which the history up to it leads the call's reference. Each call that it ends was
/// answered, or the history leads its reference to broken.
pub fn commands_keep_scenes_meanings()
    ensures steps { ScenesCommandsKeep }
    ensures last { LastWordsAreLed }
{
    given_references_are_new();
    commands_are_written();
    nodes_are_there();
    outcomes_have_sources();
    questions_end();
    embargoes_pair();
}
