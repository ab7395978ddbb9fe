//! The functions run no code: what each ensures is the law.
ghost use Rattle.laws_returns.specs.Adapted.{AdapterReturns};
ghost use Rattle.laws_returns.specs.Steps.{OpenOnesWait, StepsReturn, TaskEndsReturn};
ghost use Rattle.laws_returns.specs.Talks.{EachGetsOneReturn};

use laws_messages::answers_return_once_known;
use laws_nodes::outcomes_have_sources;
use laws_steps::nodes_are_there;

/// In each step of a vat of any level, whatever its peer sends: a question that comes is returned in the step, or it is open then; and
/// so is one that was open. Between steps, one that is open waits for an outcome that is not known, and that has one source. In the
/// step in which a task is answered or failed, each question that waits for its outcome is returned.
pub fn steps_return()
    ensures steps { StepsReturn }
    ensures wait { OpenOnesWait }
    ensures ends { TaskEndsReturn }
{
    nodes_are_there();
    answers_return_once_known();
    outcomes_have_sources();
}

/// A question of the peer, a tail call too, is heard by the vat, or the peer is told its Return at once. Each Return of the vat is told.
pub fn adapter_returns()
    ensures { AdapterReturns }
{}

/// A vat of any level talks with any peer through the adapter. The peer is told no more Returns of an id than it asked
/// questions by it. While the vat is up it is told as many, except for what is yet to go and what is open. What is open
/// waits for its task, for a call that was sent on, or for a call that waits.
pub fn each_gets_one_return()
    ensures { EachGetsOneReturn }
{
    steps_return();
    adapter_returns();
}
