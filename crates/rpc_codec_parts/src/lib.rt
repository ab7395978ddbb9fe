//! The parts of the messages of `rpc.capnp`, read from the trees of envelopes and made into trees: targets and paths,
//! descriptors, exceptions, payloads. Whole messages are in `rpc_codec`.
#![tactic(auto)]

mod block;
mod build;
mod descriptors;
mod exceptions;
mod faults;
mod payloads;
mod targets;

pub use block::Block;
pub use build::{data_alone, with_one, with_three, with_two};
pub use descriptors::{descriptor_of, tree_of_descriptor};
pub use exceptions::{exception_in, tree_of_exception};
pub use faults::{EnvelopeFault, ReadError};
pub use payloads::{payload_in, tree_of_payload};
pub use targets::{target_in, tree_of_target};
