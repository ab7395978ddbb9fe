ghost use Rattle.std.specs.Prelude.{◌≡◌, ◌⊎◌, OnOk};
ghost use Rattle.std.specs.Io.KnownBytes.{Appends};
ghost use Rattle.program_files.specs.Failures.{said_of};

use std::alloc::AllocError;
use std::io;
use std::io::{ErrorKind, Write};

/// The status of a program that failed.
pub const FAILED: u8 = 2;

/// Why a program does not do what it was asked, whatever it reads.
#[derive(Clone, Copy, Debug, PartialEq, Eq, Drop)]
pub enum ProgramFailure {
    /// The words behind the program's name ask for nothing.
    Usage,
    /// A growth was refused.
    Memory,
    /// The input can't be read.
    Unreadable,
    /// Its bytes are not UTF-8.
    NotText,
    /// The output can't be written.
    Unwritten,
}

impl ProgramFailure {
    /// Says the failure on `err`, for a program with that usage and an input of that name. Of an output that can't be written
    /// nothing is said.
    pub fn tell<E: Write>(self, usage: &str, name: &str, err: &mut E) -> io::Result<()>
        ensures { OnOk result (Appends (E.contents err.old) (E.contents err.new) (said_of usage.now name.now self)) }
    {
        match self {
            ProgramFailure::Usage => writeln!(err, "{usage}"),
            ProgramFailure::Memory => writeln!(err, "out of memory"),
            ProgramFailure::Unreadable => writeln!(err, "cannot read {name}"),
            ProgramFailure::NotText => writeln!(err, "cannot read {name}"),
            ProgramFailure::Unwritten => Ok(()),
        }
    }
}

impl From<AllocError> for ProgramFailure {
    ghost use Rattle.std.specs.Prelude.{◌≡◌};
    ghost use Rattle.program_files.specs.declared.fault.ProgramFailure.TheVariants as failure;

    ghost from_gives = { λ _ why. why ≡ failure.Memory };

    fn from(_refused: AllocError) -> ProgramFailure {
        ProgramFailure::Memory
    }
}

/// Why something could not be opened or read: for lack of memory, or `otherwise`.
pub fn unread(error: &io::Error, otherwise: ProgramFailure) -> ProgramFailure
    ensures { (result ≡ otherwise) ⊎ (result ≡ ProgramFailure.Memory) }
{
    match error.kind() {
        ErrorKind::OutOfMemory => ProgramFailure::Memory,
        _ => otherwise,
    }
}
