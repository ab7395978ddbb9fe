ghost use Rattle.std.specs.Prelude.{◌≡◌, None, [], OnOk, OnErr, ◌+◌, ◌≤◌, length, IfOk, IfErr};
ghost use Rattle.rpc_machine.specs.declared.command.Command.TheVariants as command;
ghost use Rattle.rpc_machine.specs.declared.command.Granted.TheVariants as granted;
ghost use Rattle.rpc_machine.specs.OwnCalls.{CallsHaveTheirOwn};
ghost use Rattle.rpc_machine.specs.Refusals.{refused};
ghost use Rattle.core_store.specs.Holding.{state_of, IsSound};
ghost use Rattle.core_step.specs.InProgress.{progress_of, IsIdle, IsReady};
ghost use Rattle.core_step_sweeps.specs.Over.{AreOver};
ghost use Rattle.core_steps.specs.Whole.{IsResting, Tries, WasDone};
ghost use Rattle.rpc_machine.specs.Progress.{begin};
ghost use Rattle.std.specs.FinMap as map;
ghost use Rattle.rpc_machine.specs.Settling.{Drains};
ghost use Rattle.laws_steps.specs.NodesThere.{IsReached};
ghost use Rattle.core_store.specs.Noted.{noted_of, nothing_noted};
ghost use Rattle.core_steps.specs.Thinking.{IsQuiet};
ghost use Rattle.core_steps.specs.Calling.{broken_at, told_of, EndsIf, IsMade, IsProvided};

use crate::machine::Machine;
use crate::quiet_steps::begin_quietly;
use core_step::{Step, begin};
use core_step_commands::{Lists, call_kept, exception_of, finish_call, settle_ended};
use core_step_sweeps::{Thought, end_settled, find_over, sweep};
use core_store::{Store, settle, shorten};
use core_store_handles::add_call;
use laws_nodes::{embargoes_pair, nodes_settle};
use laws_steps::nodes_are_there;
use rpc_machine::{CallCommand, Effects, Node, Reason};
use rpc_msg::{CallId, Exception, Memory, RefId};
use std::alloc::Global;

/// Has no more use for a call, if that is not refused, and gives what the step says. `Err` for lack of memory; the vat holds what it held then.
pub fn finish(machine: &mut Machine, id: CallId) -> Result<Effects, Memory>
    requires resting { IsResting machine.old }
    requires own { CallsHaveTheirOwn (state_of machine.old.step.store) }
    requires allowed { refused (state_of machine.old.step.store) (command.Finish id) ≡ None }
    ensures obeys { Tries machine.old (command.Finish id) (λ e. granted.Done) (λ e. e) result machine.new }
    ensures resting { IsResting machine.new }
{
    finish_whole(&mut machine.step, &mut machine.thought, id)?;
    Ok(end_settled(&mut machine.step, machine.thought.over.as_slice()))
}

// The step of it.
fn finish_whole(step: &mut Step, thought: &mut Thought, id: CallId) -> Result<(), Memory>
    requires idle { IsIdle step.old }
    requires none_taken { step.old.store.waits.taken ≡ [] }
    requires own { CallsHaveTheirOwn (state_of step.old.store) }
    requires allowed { refused (state_of step.old.store) (command.Finish id) ≡ None }
    ensures done { OnOk result (WasDone (state_of step.old.store) (command.Finish id) granted.Done (progress_of step.new)) }
    ensures over { OnOk result (AreOver (state_of step.new.store) thought.new.over.items) }
    ensures settled { OnOk result (step.new.arisen.0 ≡ []) }
    ensures ready { OnOk result (IsReady step.new) }
    ensures same { OnErr result (state_of step.new.store ≡ state_of step.old.store) }
    ensures taken { step.new.store.waits.taken ≡ [] }
    ensures idle { OnErr result (IsIdle step.new) }
{
    begin(step, 2)?;
    let from = finish_call(step, id);
    let Ok(()) = find_over(&step.store, thought) else {
        add_call(&mut step.store, id, from);
        return Err(Memory);
    };
    Ok(())
}

/// Asks the peer for its bootstrap object, if that is not refused, and gives the number of that call, and what the step
/// says. `Err` for lack of memory; the vat holds what it held then.
pub fn bootstrap(machine: &mut Machine) -> Result<(CallId, Effects), Memory>
    requires resting { IsResting machine.old }
    requires allowed { refused (state_of machine.old.step.store) command.Bootstrap ≡ None }
    ensures obeys { Tries machine.old command.Bootstrap (λ x. granted.Call x.0) (λ x. x.1) result machine.new }
    ensures resting { IsResting machine.new }
{
    begin_quietly(&mut machine.step, 2)?;
    let call = core_step_commands::bootstrap(&mut machine.step, machine.alloc);
    let Ok(effects) = sweep(&mut machine.step, &mut machine.thought) else {
        unreachable!()
    };
    Ok((call, effects))
}

// What the making of a call takes, provided beforehand.
#[derive(Drop)]
struct Provided {
    lists: Lists,
    nodes: Vec<Node>,
    // What the application is told, if the call ends at once.
    told: Option<Exception>,
}

/// Makes a call through a reference, if that is not refused, and gives its number, and what the step says. `Err` for
/// lack of memory: the call is handed back then, and the vat holds what it held.
pub fn call(machine: &mut Machine, call: CallCommand) -> Result<(CallId, Effects), CallCommand>
    requires resting { IsResting machine.old }
    requires reached { IsReached (state_of machine.old.step.store) }
    requires allowed { refused (state_of machine.old.step.store) (command.Call call) ≡ None }
    ensures obeys { Tries machine.old (command.Call call) (λ x. granted.Call x.0) (λ x. x.1) result machine.new }
    ensures handed_back { IfErr result (λ c. c ≡ call) }
    ensures resting { IsResting machine.new }
{
    let Ok(provided) = provide(&machine.step.store, machine.alloc, &call) else {
        return Err(call);
    };
    let Some(more) = call.refs.len().checked_add(6) else {
        return Err(call);
    };
    let Ok(()) = begin_quietly(&mut machine.step, more) else {
        return Err(call);
    };
    let id = make(&mut machine.step, machine.alloc, call, provided);
    let Ok(effects) = sweep(&mut machine.step, &mut machine.thought) else {
        unreachable!()
    };
    Ok((id, effects))
}

/// Has the references of a call lead at once to where they lead, as far as there is memory for that; so what asks where they
/// lead is quick. References that are not there are passed over.
pub fn shorten_heads(machine: &mut Machine, call: &CallCommand)
    requires { IsResting machine.old }
    ensures { machine.new ≡ machine.old }
{
    shorten_head(machine, call.reference);
    for reference in &call.refs {
        shorten_head(machine, *reference);
    }
}

fn shorten_head(machine: &mut Machine, id: RefId)
    requires { IsResting machine.old }
    ensures { machine.new ≡ machine.old }
{
    let Some(reference) = machine.step.store.refs.get(id.0) else {
        return;
    };
    let head = reference.head;
    shorten(&mut machine.step.store, head);
}

// Provides what a call takes.
fn provide(store: &Store, alloc: Global, call: &CallCommand) -> Result<Provided, Memory>
    requires { IsSound store.now }
    ensures { IfOk result (λ x. IsProvided (state_of store.now) call.now x) }
{
    let count = call.refs.len();
    let told = told_at(store, alloc, call.reference)?;
    let lists = Lists::new(alloc, count, told.is_some())?;
    let nodes = Vec::with_capacity(alloc, count)?;
    Ok(Provided { lists, nodes, told })
}

// What the application is told at once of a call through that reference.
fn told_at(store: &Store, alloc: Global, id: RefId) -> Result<Option<Exception>, Memory>
    requires { IsSound store.now }
    ensures { IfOk result (λ told. told ≡ told_of (broken_at (state_of store.now) (map.get (state_of store.now).refs id.0))) }
{
    let Some(reason) = reason_at(store, id) else {
        return Ok(None);
    };
    let told = exception_of(reason, alloc)?;
    Ok(Some(told))
}

// Why a call through that reference ends at once.
fn reason_at(store: &Store, id: RefId) -> Option<Reason>
    requires { IsSound store.now }
    ensures { result ≡ broken_at (state_of store.now) (map.get (state_of store.now).refs id.0) }
{
    let reference = store.refs.get(id.0)?;
    if reference.embargo.is_some() {
        return None;
    }
    match settle(store, reference.head) {
        Node::Broken(reason) => Some(reason),
        Node::Object(_)
        | Node::Promise(_)
        | Node::Field(_, _)
        | Node::Import(_)
        | Node::Pipe(_, _) => None,
    }
}

// Makes a call with what was provided, in a step that just began. Takes no memory.
fn make(step: &mut Step, alloc: Global, call: CallCommand, provided: Provided) -> CallId
    requires begun { progress_of step.old ≡ begin (state_of step.old.store) }
    requires ready { IsReady step.old }
    requires slack { length call.refs + 6 ≤ step.old.store.slack }
    requires rested { noted_of step.old.store.names ≡ nothing_noted }
    requires none_taken { step.old.store.waits.taken ≡ [] }
    requires reached { IsReached (state_of step.old.store) }
    requires allowed { refused (state_of step.old.store) (command.Call call) ≡ None }
    requires provided { IsProvided (state_of step.old.store) call provided }
    ensures made { IsMade (state_of step.old.store) call result (progress_of step.new) }
    ensures settled { step.new.arisen.0 ≡ [] }
    ensures calm { IsQuiet (state_of step.new.store) }
    ensures taken { step.new.store.waits.taken ≡ [] }
    ensures ready { IsReady step.new }
{
    nodes_are_there();
    nodes_settle();
    embargoes_pair();
    let Provided { lists, nodes, told } = provided;
    let Ok(id) = call_kept(step, lists, nodes, call) else {
        unreachable!()
    };
    settle_if_ended(step, alloc, id, told);
    id
}

// The application is told of the call, if it ended at once. Takes no memory.
fn settle_if_ended(step: &mut Step, alloc: Global, call: CallId, told: Option<Exception>)
    requires ready { IsReady step.old }
    requires slack { 2 ≤ step.old.store.slack }
    requires none_taken { step.old.store.waits.taken ≡ [] }
    requires calm { IsQuiet (state_of step.old.store) }
    requires ends { EndsIf (progress_of step.old) call told }
    ensures drains { Drains (progress_of step.new) (progress_of step.old) }
    ensures settled { step.new.arisen.0 ≡ [] }
    ensures calm { IsQuiet (state_of step.new.store) }
    ensures taken { step.new.store.waits.taken ≡ [] }
    ensures ready { IsReady step.new }
{
    let Some(told) = told else {
        return;
    };
    settle_ended(step, alloc, call, told);
}
