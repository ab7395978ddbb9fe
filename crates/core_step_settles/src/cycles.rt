ghost use Rattle.std.specs.Prelude.{◌≡◌, ℕ, List, None, suc, option_map, IfOk, OnOk};
ghost use Rattle.std.specs.FinMap as map;
ghost use Rattle.rpc_machine.specs.declared.node.Node.{Node};
ghost use Rattle.rpc_machine.specs.Nodes.{link};
ghost use Rattle.rpc_machine.specs.Progress.{with_state};
ghost use Rattle.core_store.specs.Holding.{state_of};
ghost use Rattle.core_step.specs.InProgress.{progress_of, IsReady};
ghost use Rattle.core_step_settles.specs.Circles.{FitsWith, UntanglesWith, with_promise, with_promises};
ghost use Rattle.core_step_settles.specs.Ends.{Falls, KnowsEnds, KeepsEnds, EndsAt, WalksTo, path_in, is_in, is_at};

use crate::ends::Ends;
use core_step::Step;
use core_store::Store;
use rpc_machine::{Node, Value};
use rpc_msg::{CapAt, Items, Memory, Path, Payload};
use std::alloc::Global;

/// The value that an outcome takes under that key: if a capability would lead to itself by those behind it, an open
/// promise that no command settles takes its place. Of the step only promises change. `Err` for lack of memory; the step
/// is only to be dropped then. If no capability leads to a field of the outcome, it takes memory only to make the ways from
/// them short, as far as there is any.
pub fn fit(step: &mut Step, alloc: Global, key: u64, value: Value) -> Result<Value, Memory>
    requires ready { IsReady step.old }
    ensures fits { IfOk result (λ fit. FitsWith (state_of step.old.store) key value fit (state_of step.new.store)) }
    ensures only { OnOk result (state_of step.new.store ≡ record (state_of step.old.store) { promises = step.new.store.waits.promises }) }
    ensures said { OnOk result (progress_of step.new ≡ with_state (progress_of step.old) (state_of step.new.store)) }
    ensures taken { OnOk result (step.new.store.waits.taken ≡ step.old.store.waits.taken) }
    ensures ready { OnOk result (IsReady step.new) }
{
    match value {
        Value::Exception(exception) => Ok(Value::Exception(exception)),
        Value::Results(payload, caps) => {
            let fit = untangle(step, alloc, key, &payload, caps)?;
            Ok(Value::Results(payload, fit))
        }
    }
}

// The capabilities of an outcome, if none leads to itself. The way from each is short from now on.
fn untangle(
    step: &mut Step,
    alloc: Global,
    key: u64,
    payload: &Payload,
    caps: Items<Node>,
) -> Result<Items<Node>, Memory>
    requires ready { IsReady step.old }
    ensures ok { IfOk result (λ fit. UntanglesWith (state_of step.old.store) key payload.now 0 caps fit (state_of step.new.store)) }
    ensures only { OnOk result (progress_of step.new ≡ with_promises (progress_of step.old) step.new.store.waits.promises) }
    ensures taken { OnOk result (step.new.store.waits.taken ≡ step.old.store.waits.taken) }
    ensures ready { OnOk result (IsReady step.new) }
{
    core_store::shorten_all(&mut step.store, &caps);
    untangle_walked(step, alloc, key, payload, caps)
}

// The same, in the list in which they stood. Each walk is made once: from where it comes to a capability that stands, what
// was kept of that one is known.
fn untangle_walked(
    step: &mut Step,
    alloc: Global,
    key: u64,
    payload: &Payload,
    caps: Items<Node>,
) -> Result<Items<Node>, Memory>
    requires { IsReady step.old }
    ensures ok { IfOk result (λ fit. UntanglesWith (state_of step.old.store) key payload.now 0 caps fit (state_of step.new.store)) }
    ensures only { OnOk result (progress_of step.new ≡ with_promises (progress_of step.old) step.new.store.waits.promises) }
    ensures taken { OnOk result (step.new.store.waits.taken ≡ step.old.store.waits.taken) }
    ensures ready { OnOk result (IsReady step.new) }
{
    let mut fit = caps.into_vec();
    let mut ends = Ends::new(alloc);
    let mut at = fit.len();
    while at > 0 {
        at -= 1;
        let node = fit[at];
        let end = end_from(&step.store, key, payload, at, &mut ends, node)?;
        if is_at(end, at) {
            let promise = new_promise(step)?;
            fit[at] = Node::Promise(promise);
            ends.keep(at, None)?;
        } else {
            ends.keep(at, end)?;
        }
    }
    Ok(Items::from_vec(fit))
}

fn is_at(end: Option<usize>, at: usize) -> bool
    ensures { result ≡ is_at at end }
{
    match end {
        Some(index) => index == at,
        None => false,
    }
}

// Opens a promise that no command settles.
fn new_promise(step: &mut Step) -> Result<u64, Memory>
    requires ready { IsReady step.old }
    ensures free { IfOk result (λ p. map.get (state_of step.old.store).promises p ≡ None) }
    ensures ok { IfOk result (λ p. progress_of step.new ≡ with_state (progress_of step.old) (with_promise (state_of step.old.store) p)) }
    ensures taken { OnOk result (step.new.store.waits.taken ≡ step.old.store.waits.taken) }
    ensures ready { OnOk result (IsReady step.new) }
{
    core_step::reserve(step, 1)?;
    let key = core_store_waits::open_promise(&mut step.store);
    Ok(key)
}

// Where the walk from a node ends by the capabilities behind that index: at a field of which of the others, if of one.
fn end_from(
    store: &Store,
    key: u64,
    payload: &Payload,
    at: usize,
    ends: &mut Ends,
    node: Node,
) -> Result<Option<usize>, Memory>
    requires { Falls ends.old }
    ensures end { IfOk result (λ end. (rest : List Node) → KnowsEnds (state_of store.now) key payload.now (suc at) rest ends.old → EndsAt (state_of store.now) key payload.now (suc at) rest node end) }
    ensures known { KeepsEnds (suc at) ends.old ends.new }
    ensures falls { Falls ends.new }
{
    let Some(path) = walk_to(store, key, node)? else {
        return Ok(None);
    };
    match payload.cap_at(path.as_slice()) {
        CapAt::Cap(index) => Ok(ends.end_of(at, index as usize)),
        CapAt::Null => Ok(None),
        CapAt::NotCap => Ok(None),
    }
}

// The path of the outcome's field to which the walk from a node comes, if to one. The outcome is not known yet, so no field of
// it is passed if links are followed many at once. `Err` if it is known, or if the walk is longer than all links
// together, which no vat comes to: nothing there leads to itself, so no link is passed twice.
fn walk_to(store: &Store, key: u64, node: Node) -> Result<Option<Path>, Memory>
    ensures { IfOk result (λ path. WalksTo (state_of store.now) key node path) }
{
    let None = store.waits.value(key) else {
        return Err(Memory);
    };
    let mut left = store.links;
    let mut walked = node;
    let mut there = is_in(key, node);
    while !there {
        let (from, last) = (walked, walked);
        let Some(hop) = store.waits.hop(from, left) else {
            return no_further(store, last);
        };
        let found = hop.to;
        left -= hop.far;
        walked = found;
        there = is_in(key, found);
    }
    Ok(path_in(key, walked))
}

// No path, if a node has no link.
fn no_further(store: &Store, node: Node) -> Result<Option<Path>, Memory>
    ensures { IfOk result (λ path. (path ≡ None) × (link (state_of store.now) node ≡ None)) }
{
    match core_store::link(store, node) {
        None => Ok(None),
        Some(_) => Err(Memory),
    }
}

fn is_in(key: u64, node: Node) -> bool
    ensures { result ≡ is_in key node }
{
    match node {
        Node::Field(outcome, _) => outcome == key,
        Node::Object(_) => false,
        Node::Promise(_) => false,
        Node::Import(_) => false,
        Node::Pipe(_, _) => false,
        Node::Broken(_) => false,
    }
}

fn path_in(key: u64, node: Node) -> Option<Path>
    ensures { result ≡ path_in key node }
{
    let Node::Field(outcome, path) = node else {
        return None;
    };
    if outcome == key {
        return Some(path);
    }
    None
}
