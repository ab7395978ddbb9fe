ghost use Rattle.program_files.specs.declared.fault.ProgramFailure.TheVariants as program;
ghost use Rattle.vat_trace_lib.specs.declared.fault.Failure.TheVariants as failure;

use program_files::ProgramFailure;
use rpc_msg::Memory;
use script_language::{LineFault, NameFault};
use std::alloc::AllocError;
use thiserror::Error;
use trace_file::FileFault;
use trace_json::TraceFault;

/// Why a script has no trace. Lines are counted from 1.
#[derive(Clone, Copy, Debug, PartialEq, Eq, Drop, Error)]
pub enum ScriptFault {
    /// A growth was refused.
    #[error("out of memory")]
    Memory,
    /// Its bytes are not UTF-8.
    #[error("the script is not UTF-8")]
    NotText,
    /// The line with that number is the first that is none.
    #[error("script line {0}: {1}")]
    Line(usize, LineFault),
    /// The line with that number names something that is not there when its turn comes.
    #[error("script line {0}: {1}")]
    Unnamed(usize, NameFault),
}

/// Why the program does not do what it was asked.
#[derive(Clone, Copy, Debug, PartialEq, Eq, Drop)]
pub enum Failure {
    /// For a reason that any program may have.
    Program(ProgramFailure),
    /// The line of the script that is at fault, counted from 1.
    Script(usize),
    /// The first line that is none of a trace, counted from 1, and what is wrong with it.
    Trace(usize, TraceFault),
}

impl From<ProgramFailure> for Failure {
    ghost use Rattle.std.specs.Prelude.{◌≡◌};

    ghost from_gives = { λ given why. why ≡ failure.Program given };

    fn from(failure: ProgramFailure) -> Failure {
        Failure::Program(failure)
    }
}

impl From<ScriptFault> for Failure {
    ghost use Rattle.std.specs.Prelude.{◌≡◌};
    ghost use Rattle.vat_trace_lib.specs.Failures.{of_script};

    ghost from_gives = { λ fault why. why ≡ of_script fault };

    fn from(fault: ScriptFault) -> Failure {
        match fault {
            ScriptFault::Memory => Failure::Program(ProgramFailure::Memory),
            ScriptFault::NotText => Failure::Program(ProgramFailure::NotText),
            ScriptFault::Line(number, _) => Failure::Script(number),
            ScriptFault::Unnamed(number, _) => Failure::Script(number),
        }
    }
}

impl From<FileFault> for Failure {
    ghost use Rattle.std.specs.Prelude.{◌≡◌};
    ghost use Rattle.vat_trace_lib.specs.Failures.{of_file};

    ghost from_gives = { λ fault why. why ≡ of_file fault };

    fn from(fault: FileFault) -> Failure {
        match fault {
            FileFault::Memory => Failure::Program(ProgramFailure::Memory),
            FileFault::Line(number, fault) => Failure::Trace(number, fault),
        }
    }
}

impl From<AllocError> for Failure {
    ghost use Rattle.std.specs.Prelude.{◌≡◌};

    ghost from_gives = { λ _ why. why ≡ failure.Program program.Memory };

    fn from(_fault: AllocError) -> Failure {
        Failure::Program(ProgramFailure::Memory)
    }
}

impl From<Memory> for Failure {
    ghost use Rattle.std.specs.Prelude.{◌≡◌};

    ghost from_gives = { λ _ why. why ≡ failure.Program program.Memory };

    fn from(_fault: Memory) -> Failure {
        Failure::Program(ProgramFailure::Memory)
    }
}
