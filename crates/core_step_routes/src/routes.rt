ghost use Rattle.std.specs.Prelude.{◌≡◌, ◌+◌, ◌≤◌, ◌||◌, not, [], false, length, string_capacity, IsOk, OnOk};
ghost use Rattle.rpc_machine.specs.Fullness.{is_spent, lacks_room_at};
ghost use Rattle.rpc_machine.specs.Nodes.{settle};
ghost use Rattle.rpc_machine.specs.Routing.{deliver, Relays, RoutedTo, Routes, RoutesAll, RoutesHeld};
ghost use Rattle.core_waits.specs.Waiting.{calls_of};
ghost use Rattle.core_store.specs.Holding.{state_of};
ghost use Rattle.core_store.specs.Noted.{noted_of};
ghost use Rattle.core_step.specs.InProgress.{progress_of, IsReady};
ghost use Rattle.core_step_routes.specs.Fitting.{IsOpenThere};
ghost use Rattle.core_step_routes.specs.Prepared.{IsPrepared};

use crate::broken_nodes::{end_broken_kept, exception_in, exception_of};
use crate::deliveries::deliver_kept;
use crate::lists::Lists;
use crate::questions::relay_kept;
use crate::waits::{wait_for_field, wait_for_promise};
use core_step::Step;
use core_store::Store;
use rpc_machine::{HeldCall, Node, WaitingCall};
use rpc_msg::{Memory, ObjectId, Target};
use std::alloc::Global;
use vat_tables::TableFault;

// There are numbers left for a task, and for a reference for each of so many capabilities.
fn has_numbers(store: &Store, caps: usize) -> bool
    ensures { result ≡ not (is_spent store.now.next_task 1 || is_spent store.now.next_ref caps) }
{
    store.next_task.checked_add(1).is_some() && store.next_ref.checked_add(caps as u64).is_some()
}

/// Routes a call to where the node settles: at an object it is delivered, at an open node it waits, at a wire it is
/// sent, and at a broken node it ends. `Full` if a limit of the numbers, the waiting calls, the questions or the
/// exports is passed. `Memory` if it settles to a promise or an outcome that is not there, or to a broken node while
/// the text has no room for a reason. The step is only to be dropped then. It never fails else if there is room and no
/// call is taken out. Takes no memory, but at most one of the slack for each capability, and two.
pub fn route_kept(
    step: &mut Step,
    lists: Lists,
    call: WaitingCall,
    node: Node,
) -> Result<(), TableFault>
    requires ready { IsReady step.old }
    requires slack { length call.request.caps + 2 ≤ step.old.store.slack }
    requires prepared { IsPrepared (length call.request.caps) lists }
    ensures routed { OnOk result (Routes (progress_of step.old) call node (progress_of step.new)) }
    ensures fits { step.old.store.waits.taken ≡ [] → IsOpenThere (string_capacity lists.text) (state_of step.old.store) (settle (state_of step.old.store) node) → lacks_room_at (state_of step.old.store) call.request.caps (settle (state_of step.old.store) node) ≡ false → IsOk result }
    ensures left { OnOk result (step.old.store.slack ≤ step.new.store.slack + (length call.request.caps + 2)) }
    ensures less { OnOk result (step.new.store.slack ≤ step.old.store.slack) }
    ensures taken { OnOk result (step.new.store.waits.taken ≡ step.old.store.waits.taken) }
    ensures noted { OnOk result (noted_of step.new.store.names ≡ noted_of step.old.store.names) }
    ensures ready { OnOk result (IsReady step.new) }
{
    let Lists {
        refs,
        said,
        given,
        text,
    } = lists;
    let at = core_store::settle(&step.store, node);
    match at {
        Node::Object(object) => {
            if !has_numbers(&step.store, call.request.caps.len()) {
                return Err(TableFault::Full);
            }
            deliver_kept(step, call, object, refs);
            Ok(())
        }
        Node::Promise(key) => wait_for_promise(step, call, key),
        Node::Field(key, path) => wait_for_field(step, call, key, path),
        Node::Import(id) => relay_kept(step, call, Target::ImportedCap(id), said, given),
        Node::Pipe(question, path) => {
            relay_kept(
                step,
                call,
                Target::PromisedAnswer(question, path),
                said,
                given,
            )
        }
        Node::Broken(reason) => {
            if text.capacity() < 16 {
                return Err(TableFault::Memory);
            }
            end_broken_kept(step, call, exception_in(text, reason));
            Ok(())
        }
    }
}

/// Routes a call to where the node settles, as `route_kept` does, and makes the room for it: of memory it takes what
/// the call needs there. `Err` for lack of memory, or if a limit is passed; the step is only to be dropped then.
pub fn route(step: &mut Step, alloc: Global, call: WaitingCall, node: &Node) -> Result<(), Memory>
    requires { IsReady step.old }
    ensures routed { OnOk result (Routes (progress_of step.old) call node.now (progress_of step.new)) }
    ensures taken { OnOk result (step.new.store.waits.taken ≡ step.old.store.waits.taken) }
    ensures ready { OnOk result (IsReady step.new) }
{
    core_step::reserve(step, call.request.caps.len() + 2)?;
    route_within(step, alloc, call, node)?;
    Ok(())
}

// The same, within room that was made.
#[inline(always)]
fn route_within(
    step: &mut Step,
    alloc: Global,
    call: WaitingCall,
    node: &Node,
) -> Result<(), Memory>
    requires ready { IsReady step.old }
    requires slack { length call.request.caps + 2 ≤ step.old.store.slack }
    ensures routed { OnOk result (Routes (progress_of step.old) call node.now (progress_of step.new)) }
    ensures taken { OnOk result (step.new.store.waits.taken ≡ step.old.store.waits.taken) }
    ensures ready { OnOk result (IsReady step.new) }
{
    let Node::Object(object) = node else {
        return route_settled(step, alloc, call, *node);
    };
    deliver_if_numbered(step, alloc, call, *object)?;
    Ok(())
}

// Routes a call that goes to no object at once. The way that it goes is short from now on.
fn route_settled(
    step: &mut Step,
    alloc: Global,
    call: WaitingCall,
    node: Node,
) -> Result<(), Memory>
    requires ready { IsReady step.old }
    requires slack { length call.request.caps + 2 ≤ step.old.store.slack }
    ensures routed { OnOk result (Routes (progress_of step.old) call node (progress_of step.new)) }
    ensures taken { OnOk result (step.new.store.waits.taken ≡ step.old.store.waits.taken) }
    ensures ready { OnOk result (IsReady step.new) }
{
    let at = core_store::shorten(&mut step.store, node);
    route_on(step, alloc, call, at)
}

// Routes a call to a node that leads no further: seldom an object, which `route_within` looks for first.
fn route_on(step: &mut Step, alloc: Global, call: WaitingCall, at: Node) -> Result<(), Memory>
    requires ready { IsReady step.old }
    requires slack { length call.request.caps + 2 ≤ step.old.store.slack }
    ensures routed { OnOk result (RoutedTo (progress_of step.old) call at (progress_of step.new)) }
    ensures taken { OnOk result (step.new.store.waits.taken ≡ step.old.store.waits.taken) }
    ensures ready { OnOk result (IsReady step.new) }
{
    match at {
        Node::Object(object) => deliver_if_numbered(step, alloc, call, object),
        Node::Promise(key) => {
            let Ok(()) = wait_for_promise(step, call, key) else {
                return Err(Memory);
            };
            Ok(())
        }
        Node::Field(key, path) => {
            let Ok(()) = wait_for_field(step, call, key, path) else {
                return Err(Memory);
            };
            Ok(())
        }
        Node::Import(id) => relay(step, alloc, call, Target::ImportedCap(id)),
        Node::Pipe(question, path) => {
            relay(step, alloc, call, Target::PromisedAnswer(question, path))
        }
        Node::Broken(reason) => {
            let exception = exception_of(reason, alloc)?;
            end_broken_kept(step, call, exception);
            Ok(())
        }
    }
}

// A call reaches an object, if there are numbers left.
#[inline(always)]
fn deliver_if_numbered(
    step: &mut Step,
    alloc: Global,
    call: WaitingCall,
    object: ObjectId,
) -> Result<(), Memory>
    requires ready { IsReady step.old }
    requires slack { length call.request.caps + 2 ≤ step.old.store.slack }
    ensures delivered { OnOk result (progress_of step.new ≡ deliver (progress_of step.old) call object) }
    ensures taken { OnOk result (step.new.store.waits.taken ≡ step.old.store.waits.taken) }
    ensures ready { OnOk result (IsReady step.new) }
{
    let count = call.request.caps.len();
    if !has_numbers(&step.store, count) {
        return Err(Memory);
    }
    let refs = Vec::with_capacity(alloc, count)?;
    deliver_kept(step, call, object, refs);
    Ok(())
}

// A call goes on to a wire, with lists of its own.
fn relay(step: &mut Step, alloc: Global, call: WaitingCall, target: Target) -> Result<(), Memory>
    requires ready { IsReady step.old }
    requires slack { length call.request.caps + 2 ≤ step.old.store.slack }
    ensures relayed { OnOk result (Relays (progress_of step.old) call target (progress_of step.new)) }
    ensures taken { OnOk result (step.new.store.waits.taken ≡ step.old.store.waits.taken) }
    ensures ready { OnOk result (IsReady step.new) }
{
    let count = call.request.caps.len();
    let said = Vec::with_capacity(alloc, count)?;
    let given = Vec::with_capacity(alloc, count)?;
    let Ok(()) = relay_kept(step, call, target, said, given) else {
        return Err(Memory);
    };
    Ok(())
}

/// Routes all calls that were taken out, in order, to where the node settles. `Err` for lack of memory, or if a limit is
/// passed; the step is only to be dropped then.
pub fn route_taken(step: &mut Step, alloc: Global, node: Node) -> Result<(), Memory>
    requires { IsReady step.old }
    ensures routed { OnOk result (RoutesAll (progress_of step.old) (calls_of step.old.store.waits.taken) node (progress_of step.new)) }
    ensures none { OnOk result (step.new.store.waits.taken ≡ []) }
    ensures ready { OnOk result (IsReady step.new) }
{
    let target = &node;
    while let Some(held) = core_store_waits::next_taken(&mut step.store) {
        let HeldCall { path: _, call } = held;
        route(step, alloc, call, target)?;
    }
    Ok(())
}

/// Routes all calls that were taken out, in order, each to the field of that outcome for which it waited. `Err` for
/// lack of memory, or if a limit is passed; the step is only to be dropped then.
pub fn route_held(step: &mut Step, alloc: Global, o: u64) -> Result<(), Memory>
    requires { IsReady step.old }
    ensures routed { OnOk result (RoutesHeld (progress_of step.old) o step.old.store.waits.taken (progress_of step.new)) }
    ensures none { OnOk result (step.new.store.waits.taken ≡ []) }
    ensures ready { OnOk result (IsReady step.new) }
{
    while let Some(held) = core_store_waits::next_taken(&mut step.store) {
        let HeldCall { path, call } = held;
        route(step, alloc, call, &Node::Field(o, path))?;
    }
    Ok(())
}
