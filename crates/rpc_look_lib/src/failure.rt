//! Why the program stops.
ghost use Rattle.std.specs.Prelude.{◌≡◌, ◌⊎◌};
ghost use Rattle.rpc_look_lib.specs.Status.{status_of};

use look_names::SchemaError;
use look_pieces::{LogError, LogFault};
use program_files::{ProgramFailure, unread};
use rpc_msg::Memory;
use std::alloc::AllocError;
use std::io;
use std::io::Write;

/// How the program is called.
const USAGE: &str =
    "usage: rpc_look [--schema FILE] [--payloads] [--only] [--json] [--at N] [--totals K] [--names A,B] [LOG | --two TO FROM]";

/// Why the program stops.
#[derive(Clone, Copy, Debug, PartialEq, Eq, Drop)]
pub enum Failure {
    /// The program's words ask for nothing.
    Usage,
    /// A growth was refused.
    Memory,
    /// The input can't be read.
    Unreadable,
    /// The input is no log.
    NoLog(LogFault),
    /// The schema can't be read.
    NoSchema(SchemaError),
    /// The output can't be written.
    Unwritten,
}

impl From<AllocError> for Failure {
    ghost use Rattle.std.specs.Prelude.{◌≡◌};
    ghost use Rattle.rpc_look_lib.specs.declared.failure.Failure.TheVariants as failure;

    ghost from_gives = { λ _ why. why ≡ failure.Memory };

    fn from(_refused: AllocError) -> Failure {
        Failure::Memory
    }
}

impl From<Memory> for Failure {
    ghost use Rattle.std.specs.Prelude.{◌≡◌};
    ghost use Rattle.rpc_look_lib.specs.declared.failure.Failure.TheVariants as failure;

    ghost from_gives = { λ _ why. why ≡ failure.Memory };

    fn from(_refused: Memory) -> Failure {
        Failure::Memory
    }
}

impl From<LogError> for Failure {
    ghost use Rattle.std.specs.Prelude.{◌≡◌};
    ghost use Rattle.rpc_look_lib.specs.Status.{of_log};

    ghost from_gives = { λ error why. why ≡ of_log error };

    fn from(error: LogError) -> Failure {
        match error {
            LogError::Memory => Failure::Memory,
            LogError::Fault(fault) => Failure::NoLog(fault),
        }
    }
}

/// Why something could not be opened or read: for lack of memory, or because it can't be.
pub fn unreadable(error: &io::Error) -> Failure
    ensures { (result ≡ Failure.Memory) ⊎ (result ≡ Failure.Unreadable) }
{
    match unread(error, ProgramFailure::Unreadable) {
        ProgramFailure::Memory => Failure::Memory,
        _ => Failure::Unreadable,
    }
}

/// The status with which the program ends: 0 where nothing breaks the protocol, 1 where something does, 2 for a failure.
pub fn status(looked: Result<bool, Failure>) -> u8
    ensures { result ≡ status_of looked }
{
    match looked {
        Ok(false) => 0,
        Ok(true) => 1,
        Err(_) => 2,
    }
}

/// Says a failure on `err`, where the input has that name; of an output that failed nothing.
pub fn tell<E: Write>(failure: Failure, name: &str, err: &mut E) -> io::Result<()> {
    match failure {
        Failure::Usage => writeln!(err, "{USAGE}"),
        Failure::Memory => writeln!(err, "out of memory"),
        Failure::Unreadable => writeln!(err, "cannot read {name}"),
        Failure::NoLog(fault) => writeln!(err, "{fault}"),
        Failure::NoSchema(error) => writeln!(err, "the schema: {error}"),
        Failure::Unwritten => Ok(()),
    }
}
