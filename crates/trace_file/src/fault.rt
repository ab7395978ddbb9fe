use thiserror::Error;
use trace_json::TraceFault;

/// Why a text is no trace.
#[derive(Clone, Copy, Debug, PartialEq, Eq, Drop, Error)]
pub enum FileFault {
    /// A growth was refused: nothing is said of the trace.
    #[error("out of memory")]
    Memory,
    /// The first line that is none, counted from 1, and what is wrong with it.
    #[error("line {0}: {1}")]
    Line(usize, TraceFault),
}
