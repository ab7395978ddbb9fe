use crate::hops::Hops;
use rpc_machine::{Caller, Node, Value};
use rpc_msg::RefId;
use vat_tables::ListKey;

/// What is kept of an own promise: where it leads, once it is fixed, with a short cut from there on; and the key of the list
/// of calls that wait for it, if any does.
#[derive(Drop)]
pub(crate) struct PromiseEntry {
    pub(crate) to: Option<Node>,
    pub(crate) list: Option<ListKey>,
    pub(crate) hops: Hops,
}

/// What is kept of an outcome, with short cuts from its capabilities on, once it is known; and the key of the list of calls
/// that wait for it, if any does.
#[derive(Drop)]
pub(crate) struct OutcomeEntry {
    pub(crate) caller: Caller,
    pub(crate) value: Option<Value>,
    pub(crate) list: Option<ListKey>,
    pub(crate) hops: Hops,
}

/// What is kept of an embargo, with the key of the list of calls that wait for its end, if any does.
#[derive(Drop)]
pub(crate) struct EmbargoEntry {
    pub(crate) reference: RefId,
    pub(crate) node: Node,
    pub(crate) list: Option<ListKey>,
}
