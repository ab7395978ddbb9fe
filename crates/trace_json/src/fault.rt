ghost use Rattle.std.specs.Prelude.{◌≡◌};
ghost use Rattle.trace_json.specs.Faults.{number_of_fault};
ghost use Rattle.trace_json_parts.specs.declared.fault.Fault.TheVariants as fault;

use thiserror::Error;

/// Why a line is no entry of a trace.
#[derive(Clone, Copy, Debug, PartialEq, Eq, Drop, Error)]
pub enum TraceFault {
    /// A growth was refused: nothing is said of the line.
    #[error("out of memory")]
    Memory,
    /// The line is no JSON text.
    #[error("no JSON")]
    NotJson,
    /// The JSON value is no entry's, whatever text and number stand for a payload.
    #[error("no entry of a trace")]
    WrongShape,
    /// The text that stands for a payload is no base64.
    #[error("a payload that is no base64")]
    BadBase64,
    /// The bytes of a payload are none of the encoding, or not for that many capabilities.
    #[error("a payload that is none")]
    BadPayload,
    /// The head of another version.
    #[error("another version")]
    Version,
}

impl TraceFault {
    /// The number by which the program says it.
    pub fn number(self) -> u16
        ensures { result ≡ number_of_fault self }
    {
        match self {
            TraceFault::Memory => 1,
            TraceFault::NotJson => 50,
            TraceFault::WrongShape => 51,
            TraceFault::BadBase64 => 52,
            TraceFault::BadPayload => 53,
            TraceFault::Version => 54,
        }
    }
}
