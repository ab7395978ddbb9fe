//! Why a conversation is not dumped to its end.
ghost use Rattle.std.specs.Prelude.{◌≡◌, OnOk};
ghost use Rattle.std.specs.Io.KnownBytes.{Appends};
ghost use Rattle.rpc_dump_lib.specs.Failures.{said_of, status_after};

use capn_stream::StreamError;
use program_files::{FAILED, ProgramFailure};
use std::alloc::AllocError;
use std::io;
use std::io::Write;

/// How the program is called.
const USAGE: &str = "usage: rpc_dump [--schema FILE] [--hex] [--payloads] [FILE]";

/// Why the program stops. Messages and lines are counted from 1.
#[derive(Clone, Copy, Debug, PartialEq, Eq, Drop)]
pub enum Failure {
    /// For a reason that any program may have.
    Program(ProgramFailure),
    /// The line with that number is not hexadecimal.
    NotHex(u64),
    /// The message with that number is none, with the number of its fault.
    Message(u64, u16),
}

impl From<AllocError> for Failure {
    ghost use Rattle.std.specs.Prelude.{◌≡◌};
    ghost use Rattle.rpc_dump_lib.specs.declared.failure.Failure.TheVariants as failure;
    ghost use Rattle.program_files.specs.declared.fault.ProgramFailure.TheVariants as program;

    ghost from_gives = { λ _ why. why ≡ failure.Program program.Memory };

    fn from(_refused: AllocError) -> Failure {
        Failure::Program(ProgramFailure::Memory)
    }
}

impl From<ProgramFailure> for Failure {
    ghost use Rattle.std.specs.Prelude.{◌≡◌};
    ghost use Rattle.rpc_dump_lib.specs.declared.failure.Failure.TheVariants as failure;

    ghost from_gives = { λ given why. why ≡ failure.Program given };

    fn from(failure: ProgramFailure) -> Failure {
        Failure::Program(failure)
    }
}

impl Failure {
    ghost use Rattle.std.specs.Prelude.{◌≡◌};
    ghost use Rattle.rpc_dump_lib.specs.Failures.{of_stream as failure_of_stream};

    /// Why the stream takes nothing more, in place of the message with that number.
    pub fn of_stream(error: StreamError, number: u64) -> Failure
        ensures { result ≡ failure_of_stream error number }
    {
        match error {
            StreamError::Memory => Failure::Program(ProgramFailure::Memory),
            StreamError::Fault(fault) => Failure::Message(number, fault.code()),
        }
    }
}

/// The status with which the program ends: 0, or 2 for a failure.
pub fn status(dumped: Result<(), Failure>) -> u8
    ensures { result ≡ status_after dumped }
{
    match dumped {
        Ok(()) => 0,
        Err(_) => FAILED,
    }
}

/// Says a failure on `err`, for an input of that name; of an output that failed nothing.
pub fn tell<E: Write>(failure: Failure, name: &str, err: &mut E) -> io::Result<()>
    ensures { OnOk result (Appends (E.contents err.old) (E.contents err.new) (said_of name.now failure)) }
{
    match failure {
        Failure::Program(failure) => failure.tell(USAGE, name, err),
        Failure::NotHex(number) => writeln!(err, "line {number}: not hexadecimal"),
        Failure::Message(number, fault) => writeln!(err, "message {number}: fault {fault}"),
    }
}
