//! What a step did, if that is at most one thing.

use crate::astray::Astray;
use rpc_journal::{Delivery, Ended};
use rpc_machine::Effects;
use rpc_msg::{CallId, Message, RefId, TaskId};

/// A call came, and with it that reference, or none.
#[derive(Clone, Copy, Drop)]
pub(crate) struct Task {
    pub(crate) id: TaskId,
    pub(crate) given: Option<RefId>,
}

/// A call has ended, and with its results came that reference, or none.
#[derive(Clone, Copy, Drop)]
pub(crate) struct Outcome {
    pub(crate) call: CallId,
    pub(crate) given: Option<RefId>,
}

/// What a step did that sent nothing.
#[derive(Clone, Copy, Drop)]
pub(crate) enum Done {
    Nothing,
    Came(Task),
    Ended(Outcome),
}

impl Done {
    /// What these effects are, if they are no others and no more.
    #[inline(always)]
    pub(crate) fn of(effects: &Effects) -> Result<Done, Astray> {
        if let Some(number) = effects.down {
            return Err(Astray::Down(number));
        }
        let sends: &[Message] = &effects.sends;
        let deliveries: &[Delivery] = &effects.deliveries;
        let answers: &[Ended] = &effects.answers;
        match (sends, deliveries, answers) {
            ([], [], []) => Ok(Done::Nothing),
            ([], [delivery], []) => Ok(Done::Came(Task {
                id: delivery.task,
                given: at_most_one(&delivery.refs)?,
            })),
            ([], [], [ended]) => Ok(Done::Ended(Outcome {
                call: ended.call,
                given: at_most_one(&ended.refs)?,
            })),
            _ => Err(Astray::Otherwise),
        }
    }

    pub(crate) fn nothing(self) -> Result<(), Astray> {
        match self {
            Done::Nothing => Ok(()),
            _ => Err(Astray::Otherwise),
        }
    }

    pub(crate) fn task(self) -> Result<Task, Astray> {
        match self {
            Done::Came(task) => Ok(task),
            _ => Err(Astray::Otherwise),
        }
    }

    pub(crate) fn outcome(self) -> Result<Outcome, Astray> {
        match self {
            Done::Ended(outcome) => Ok(outcome),
            _ => Err(Astray::Otherwise),
        }
    }
}

fn at_most_one(refs: &[RefId]) -> Result<Option<RefId>, Astray> {
    match refs {
        [] => Ok(None),
        [reference] => Ok(Some(*reference)),
        _ => Err(Astray::Otherwise),
    }
}
