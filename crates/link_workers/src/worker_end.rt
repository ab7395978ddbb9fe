use rpc_msg::Memory;
use script_language::NameFault;
use std::alloc::AllocError;

/// How the work of one vat of a pair ended.
#[derive(Clone, Copy, Debug, PartialEq, Eq, Drop)]
pub enum WorkerEnd {
    /// Both scripts are over, and each call of either vat has its outcome or was finished.
    Done,
    /// The vat is down, with that number.
    Down(u16),
    /// The gate let a task not be answered.
    GateNo,
    /// The line with that number, counted from 1, names something that is not there when its turn comes.
    ScriptFault(usize, NameFault),
    /// As many turns in a row as may be found no frame.
    Limit,
    /// The other worker ended before both were done.
    Stopped,
    /// A growth was refused to the worker itself, or to a command.
    Memory,
}

impl From<Memory> for WorkerEnd {
    ghost use Rattle.std.specs.Prelude.{◌≡◌};
    ghost use Rattle.link_workers.specs.declared.worker_end.WorkerEnd.TheVariants as ends;

    ghost from_gives = { λ _ why. why ≡ ends.Memory };

    fn from(_fault: Memory) -> WorkerEnd {
        WorkerEnd::Memory
    }
}
