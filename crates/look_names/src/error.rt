//! Why no schema was read.
use capn_trees::PayloadFault;
use std::alloc::{AllocError, AllocFailed};
use thiserror::Error;

/// Why no schema was read.
#[derive(Clone, Copy, Debug, PartialEq, Eq, Drop, Error)]
pub enum SchemaError {
    /// Memory ran out.
    #[error("out of memory")]
    Memory,
    /// The bytes are no message of the encoding: the first check that fails.
    #[error("no message: fault {}", .0.code())]
    Encoding(PayloadFault),
    /// The message has no list of nodes.
    #[error("no schema")]
    NoNodes,
}

impl From<AllocError> for SchemaError {
    fn from(_refused: AllocError) -> SchemaError {
        SchemaError::Memory
    }
}

impl<T: Drop> From<AllocFailed<T>> for SchemaError {
    fn from(_refused: AllocFailed<T>) -> SchemaError {
        SchemaError::Memory
    }
}
