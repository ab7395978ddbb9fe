//! The functions run no code: what each ensures is the law.

ghost use Rattle.laws_tasks.specs.TaskSteps.{StepsKeepTasks};

use laws_nodes::outcomes_have_sources;

/// In each step that is done: a task is new only if it is delivered, and stays while its outcome is open. An outcome of which the
/// peer is told opens only by its Call, and stays open until its Return is sent. The Finish of an answer comes once, and is kept.
pub fn steps_keep_tasks()
    ensures { StepsKeepTasks }
{
    outcomes_have_sources();
}
