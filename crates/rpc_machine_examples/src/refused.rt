//! What no step of the machine does. The functions run no code: what each ensures is the law.

ghost use Rattle.rpc_machine_examples.specs.ExactFlags.{FlagsAreExact, FinishFlagsAreExact, FlagsSpare, DescriptorsBeforeFlag};
ghost use Rattle.rpc_machine_examples.specs.FullAnswers.{FullAnswersFall};
ghost use Rattle.rpc_machine_examples.specs.HeldEmbargoes.{EmbargoesHold, ReceiverKindsEmbargo, CallsWait};
ghost use Rattle.rpc_machine_examples.specs.CountedResolves.{ResolvesCount};
ghost use Rattle.rpc_machine_examples.specs.SteadyPaths.{CallsStopAtWires};
ghost use Rattle.rpc_machine_examples.specs.TakenQuestions.{QuestionsStayTaken, ReturnedStay};

use rpc_machine::sends_raise_counts;

/// While its vat stays up, an embargo with its calls lasts, whatever the application does, until its Disembargo comes
/// back. A reference whose wire was resolved to something of its own vat goes there under an embargo only, in which its
/// calls wait.
pub fn embargoes_hold()
    ensures last { EmbargoesHold }
    ensures turn { ReceiverKindsEmbargo }
    ensures wait { CallsWait }
{}

/// While a question stands in the table, no step asks another one with its id; and its Return alone leaves it there.
pub fn questions_stay_taken()
    ensures asked { QuestionsStayTaken }
    ensures returned { ReturnedStay }
{}

/// A Resolve counts one on what its capability names, also if the promise is gone, and nothing on the promise.
pub fn resolves_count()
    ensures { ResolvesCount }
{
    sends_raise_counts();
}

/// A call whose path settles at a wire goes to that wire, whatever the wire was resolved to meanwhile.
pub fn calls_stop_at_wires()
    ensures { CallsStopAtWires }
{}

/// The flag of a Return or a Finish gives back exactly what it may, and that is not released as well; and a received
/// Return takes its descriptors before it obeys its flag.
pub fn flags_are_exact()
    ensures sent { FlagsAreExact }
    ensures finished { FinishFlagsAreExact }
    ensures spared { FlagsSpare }
    ensures obeyed { DescriptorsBeforeFlag }
{}

/// A new vat answers 4,096 Bootstraps, one after the other. One more is not taken, wherever the table of answers is full: it
/// takes its vat down, with fault 33.
pub fn full_answers_fall()
    ensures { FullAnswersFall }
{}
