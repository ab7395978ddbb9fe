ghost use Rattle.trace_chart_lib.specs.declared.fault.Failure.TheVariants as failure;
ghost use Rattle.program_files.specs.declared.fault.ProgramFailure.TheVariants as program;

use program_files::ProgramFailure;
use rpc_msg::Memory;
use std::alloc::{AllocError, AllocFailed};
use trace_file::FileFault;
use trace_json::TraceFault;

/// Why the program does not draw.
#[derive(Clone, Copy, Debug, PartialEq, Eq, Drop)]
pub enum Failure {
    /// For a reason that any program may have.
    Program(ProgramFailure),
    /// The first line that is none of a trace, counted from 1, and what is wrong with it.
    Line(usize, TraceFault),
}

impl From<ProgramFailure> for Failure {
    ghost use Rattle.std.specs.Prelude.{◌≡◌};

    ghost from_gives = { λ given why. why ≡ failure.Program given };

    fn from(failure: ProgramFailure) -> Failure {
        Failure::Program(failure)
    }
}

impl From<FileFault> for Failure {
    ghost use Rattle.std.specs.Prelude.{◌≡◌};
    ghost use Rattle.trace_chart_lib.specs.Failures.{of_file};

    ghost from_gives = { λ fault why. why ≡ of_file fault };

    fn from(fault: FileFault) -> Failure {
        match fault {
            FileFault::Memory => Failure::Program(ProgramFailure::Memory),
            FileFault::Line(number, fault) => Failure::Line(number, fault),
        }
    }
}

impl From<Memory> for Failure {
    ghost use Rattle.std.specs.Prelude.{◌≡◌};

    ghost from_gives = { λ _ why. why ≡ failure.Program program.Memory };

    fn from(_fault: Memory) -> Failure {
        Failure::Program(ProgramFailure::Memory)
    }
}

impl From<AllocError> for Failure {
    ghost use Rattle.std.specs.Prelude.{◌≡◌};

    ghost from_gives = { λ _ why. why ≡ failure.Program program.Memory };

    fn from(_fault: AllocError) -> Failure {
        Failure::Program(ProgramFailure::Memory)
    }
}

impl<T: Drop> From<AllocFailed<T>> for Failure {
    ghost use Rattle.std.specs.Prelude.{◌≡◌};

    ghost from_gives = { λ _ why. why ≡ failure.Program program.Memory };

    fn from(_fault: AllocFailed<T>) -> Failure {
        Failure::Program(ProgramFailure::Memory)
    }
}
