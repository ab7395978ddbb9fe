use rpc_msg::Memory;
use std::alloc::AllocError;
use thiserror::Error;

/// Why a text is no line of a script. If several things are wrong, the first from the left is answered, after the
/// byte order mark and the carriage return.
#[derive(Clone, Copy, Debug, PartialEq, Eq, Drop, Error)]
pub enum LineFault {
    /// It begins with a byte order mark.
    #[error("the line begins with a byte order mark")]
    ByteOrderMark,
    /// It ends with a carriage return.
    #[error("the line ends with a carriage return")]
    CarriageReturn,
    /// The first word, or the one behind `deliver`, is no vat.
    #[error("no vat")]
    Vat,
    /// The word behind the vat is none that says what to do.
    #[error("an unknown word")]
    Word,
    /// There are too many words, or too few.
    #[error("a wrong number of words")]
    Count,
    /// A word that should be a name is empty or has another letter.
    #[error("no name")]
    Name,
    /// A word that should be a name has more than 16 letters.
    #[error("a name of more than 16 letters")]
    LongName,
    /// A word that should be a decimal number is none.
    #[error("no number")]
    Number,
    /// A number is too large for its type.
    #[error("a number that is too large")]
    LargeNumber,
    /// More than 65,535 capabilities are named.
    #[error("more capabilities than a payload can have")]
    ManyCaps,
    /// It is a line of the other program.
    #[error("a line of the other program")]
    OtherProgram,
}

/// Why no line was read.
#[derive(Clone, Copy, Debug, PartialEq, Eq, Drop, Error)]
pub enum ReadFault {
    /// A growth was refused.
    #[error("out of memory")]
    Memory,
    /// The text is no line.
    #[error("{0}")]
    Line(LineFault),
}

impl From<LineFault> for ReadFault {
    ghost use Rattle.std.specs.Prelude.{◌≡◌};
    ghost use Rattle.script_language.specs.declared.fault.ReadFault.TheVariants as read;

    ghost from_gives = { λ fault why. why ≡ read.Line fault };

    fn from(fault: LineFault) -> ReadFault {
        ReadFault::Line(fault)
    }
}

impl From<AllocError> for ReadFault {
    ghost use Rattle.std.specs.Prelude.{◌≡◌};
    ghost use Rattle.script_language.specs.declared.fault.ReadFault.TheVariants as read;

    ghost from_gives = { λ _ why. why ≡ read.Memory };

    fn from(_fault: AllocError) -> ReadFault {
        ReadFault::Memory
    }
}

/// Why a text is no script.
#[derive(Clone, Copy, Debug, PartialEq, Eq, Drop, Error)]
pub enum ScriptFault {
    /// A growth was refused.
    #[error("out of memory")]
    Memory,
    /// Its bytes are not UTF-8.
    #[error("the script is not UTF-8")]
    NotText,
    /// The line with that number, counted from 1, is none: the first.
    #[error("script line {0}: {1}")]
    Line(usize, LineFault),
}

/// Why a line can't be done when its turn comes.
#[derive(Clone, Copy, Debug, PartialEq, Eq, Drop, Error)]
pub enum NameFault {
    /// A name of a call is not bound.
    #[error("no call has that name")]
    Call,
    /// A name of a reference is not bound.
    #[error("no reference has that name")]
    Reference,
    /// A name of a promise is not bound.
    #[error("no promise has that name")]
    Promise,
    /// No task with that number was delivered.
    #[error("no such task was delivered")]
    Task,
    /// The call has no outcome yet.
    #[error("the call has no outcome")]
    Outcome,
    /// The task, or the outcome, came with fewer references.
    #[error("no reference of that index")]
    Index,
}

/// Why a line gives nothing to be done.
#[derive(Clone, Copy, Debug, PartialEq, Eq, Drop, Error)]
pub enum GiveFault {
    /// A growth was refused.
    #[error("out of memory")]
    Memory,
    /// Something that the line names is not there.
    #[error("{0}")]
    Name(NameFault),
}

impl From<NameFault> for GiveFault {
    ghost use Rattle.std.specs.Prelude.{◌≡◌};
    ghost use Rattle.script_language.specs.declared.fault.GiveFault.TheVariants as gives;

    ghost from_gives = { λ fault why. why ≡ gives.Name fault };

    fn from(fault: NameFault) -> GiveFault {
        GiveFault::Name(fault)
    }
}

impl From<Memory> for GiveFault {
    ghost use Rattle.std.specs.Prelude.{◌≡◌};
    ghost use Rattle.script_language.specs.declared.fault.GiveFault.TheVariants as gives;

    ghost from_gives = { λ _ why. why ≡ gives.Memory };

    fn from(_fault: Memory) -> GiveFault {
        GiveFault::Memory
    }
}
