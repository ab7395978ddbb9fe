//! Journals as lines of JSON, in both versions of the trace format (`docs/trace.md`): how they are read. What writes and
//! checks them is given out from here too.
//!
//! - `line.rt`: the entry of a line, and the version that a head says. `entries.rt`: the entry of an object, by its kind.
//! - `payload.rt`: an entry gets its payload. `fault.rt`: what is wrong with a line.
#![tactic(auto)]

mod entries;
mod fault;
mod line;
mod payload;

pub use fault::TraceFault;
pub use line::{entry_of, version_of};
pub use rpc_check::{Verdict, check};
pub use trace_write::{TraceVersion, line_of};
