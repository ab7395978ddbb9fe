ghost use Rattle.std.specs.Prelude.{◌≡◌, ◌+◌, ◌-◌, ◌<◌, ◌≤◌, None, Some, [], false, length, vec_capacity, string_capacity, IsOk, IfOk, OnOk};
ghost use Rattle.std.specs.FinMap as map;
ghost use Rattle.rpc_machine.specs.declared.command.Command.TheVariants as command;
ghost use Rattle.rpc_machine.specs.declared.command.Granted.TheVariants as granted;
ghost use Rattle.rpc_machine.specs.Commands.{Acts, CallsBy, CallsThrough, heads};
ghost use Rattle.rpc_machine.specs.Limits.{number_limit, table_limit, made_through};
ghost use Rattle.core_step.specs.InProgress.{progress_of, IsReady};
ghost use Rattle.rpc_machine.specs.Refusals.{refused};
ghost use Rattle.rpc_machine.specs.OwnCalls.{HasItsOwnAlone};
ghost use Rattle.core_store.specs.Holding.{state_of};
ghost use Rattle.rpc_machine.specs.Fullness.{lacks_room_at, lacks_room_through, call_lacks_room};
ghost use Rattle.rpc_machine.specs.Nodes.{settle};
ghost use Rattle.core_store.specs.Noted.{noted_of};
ghost use Rattle.core_step_routes.specs.Fitting.{IsOpenThere};
ghost use Rattle.core_step_routes.specs.Prepared.{IsPrepared};
ghost use Rattle.core_step_commands.specs.Ways.{numbered, GoesThrough, GoesSomewhere};

use crate::request::request_of;
use crate::ways::{call_here, call_over, call_under};
use core_step::{Step, send};
use core_step_checks::wire_target;
use core_step_routes::Lists;
use core_store::Store;
use core_store_handles::{count_made, end_call, number_call};
use core_store_tables::ask_direct;
use rpc_machine::{CallCommand, Node, OwnCall, Reference, Request};
use rpc_msg::{CallId, EmbargoId, Items, PlainMessage, RefId};
use std::alloc::Global;
use vat_tables::TableFault;

/// Asks the peer for its bootstrap object, if there are fewer than 4,096 questions. Takes no memory, but two of the
/// slack.
pub fn bootstrap(step: &mut Step, alloc: Global) -> CallId
    requires ready { IsReady step.old }
    requires room { map.len step.old.store.questions.entries < table_limit }
    requires slack { 2 ≤ step.old.store.slack }
    requires number { step.old.store.next_call + 1 < number_limit }
    ensures acts { Acts (progress_of step.old) command.Bootstrap (granted.Call result) (progress_of step.new) }
    ensures taken { step.new.store.waits.taken ≡ step.old.store.waits.taken }
    ensures ready { IsReady step.new }
{
    let call = number_call(&mut step.store);
    let Ok(question) = ask_direct(&mut step.store, call, Items::new(alloc)) else {
        unreachable!()
    };
    send(step, PlainMessage::Bootstrap(question));
    call
}

/// The application is not told of a call any more, which has no question and no outcome but its own, if that is not
/// refused; where its outcome comes from is handed out. What follows is found at the end of the step. Takes no memory, but
/// one of the slack.
pub fn finish_call(step: &mut Step, id: CallId) -> OwnCall
    requires ready { IsReady step.old }
    requires slack { 0 < step.old.store.slack }
    requires allowed { refused (state_of step.old.store) (command.Finish id) ≡ None }
    requires own { HasItsOwnAlone (state_of step.old.store) id.0 (map.get (state_of step.old.store).calls id.0) }
    ensures was { map.get (state_of step.old.store).calls id.0 ≡ Some result }
    ensures acts { Acts (progress_of step.old) (command.Finish id) granted.Done (progress_of step.new) }
    ensures left { step.new.store.slack ≡ step.old.store.slack - 1 }
    ensures waits { step.new.store.waits ≡ step.old.store.waits }
    ensures ready { IsReady step.new }
{
    let Some(from) = end_call(&mut step.store, id) else {
        unreachable!()
    };
    from
}

// A copy of a reference, if it is there.
fn ref_of(store: &Store, id: RefId) -> Option<Reference>
    ensures { result ≡ map.get (state_of store.now).refs id.0 }
{
    let found = store.refs.get(id.0)?;
    Some(Reference {
        head: found.head,
        embargo: found.embargo,
        made: found.made,
    })
}

// One more call is made through the reference, and has the next number.
pub(crate) fn number_through(step: &mut Step, reference: RefId) -> CallId
    requires ready { IsReady step.old }
    requires number { step.old.store.next_call + 1 < number_limit }
    requires made { made_through (map.get (state_of step.old.store).refs reference.0) + 1 < number_limit }
    ensures value { result ≡ record { 0 = step.old.store.next_call } }
    ensures numbered { progress_of step.new ≡ numbered (progress_of step.old) reference.0 }
    ensures left { step.new.store.slack ≡ step.old.store.slack }
    ensures taken { step.new.store.waits.taken ≡ step.old.store.waits.taken }
    ensures noted { noted_of step.new.store.names ≡ noted_of step.old.store.names }
    ensures ready { IsReady step.new }
{
    count_made(&mut step.store, reference);
    number_call(&mut step.store)
}

// By where the head settles.
#[tactic(auto, using(crate::proofs::Wired::goes_by))]
fn call_by(
    step: &mut Step,
    lists: Lists,
    id: CallId,
    request: Request,
    head: Node,
) -> Result<(), TableFault>
    requires ready { IsReady step.old }
    requires slack { length request.caps + 4 ≤ step.old.store.slack }
    requires new { map.get (state_of step.old.store).calls id.0 ≡ None }
    requires counted { id.0 < step.old.store.next_call }
    requires prepared { IsPrepared (length request.caps) lists }
    ensures called { OnOk result (CallsBy (progress_of step.old) id.0 request head (settle (state_of step.old.store) head) (progress_of step.new)) }
    ensures fits { step.old.store.waits.taken ≡ [] → IsOpenThere (string_capacity lists.text) (state_of step.old.store) (settle (state_of step.old.store) head) → lacks_room_at (state_of step.old.store) request.caps (settle (state_of step.old.store) head) ≡ false → IsOk result }
    ensures left { OnOk result (step.old.store.slack ≤ step.new.store.slack + (length request.caps + 4)) }
    ensures taken { OnOk result (step.new.store.waits.taken ≡ step.old.store.waits.taken) }
    ensures noted { OnOk result (noted_of step.new.store.names ≡ noted_of step.old.store.names) }
    ensures ready { OnOk result (IsReady step.new) }
{
    // A copy: what is passed by value can't be used again, though its type is `Copy`.
    let from = head;
    let at = core_store::settle(&step.store, head);
    match wire_target(&at) {
        Some(target) => call_over(step, lists, id, request, target),
        None => call_here(step, lists, id, request, from),
    }
}

// By the embargo of the reference.
fn call_through(
    step: &mut Step,
    lists: Lists,
    id: CallId,
    request: Request,
    head: Node,
    embargo: Option<EmbargoId>,
) -> Result<(), TableFault>
    requires ready { IsReady step.old }
    requires slack { length request.caps + 4 ≤ step.old.store.slack }
    requires new { map.get (state_of step.old.store).calls id.0 ≡ None }
    requires counted { id.0 < step.old.store.next_call }
    requires prepared { IsPrepared (length request.caps) lists }
    ensures called { OnOk result (CallsThrough (progress_of step.old) id.0 request head embargo (progress_of step.new)) }
    ensures fits { step.old.store.waits.taken ≡ [] → GoesThrough (string_capacity lists.text) (state_of step.old.store) head embargo → lacks_room_through (state_of step.old.store) request.caps head embargo ≡ false → IsOk result }
    ensures left { OnOk result (step.old.store.slack ≤ step.new.store.slack + (length request.caps + 4)) }
    ensures taken { OnOk result (step.new.store.waits.taken ≡ step.old.store.waits.taken) }
    ensures noted { OnOk result (noted_of step.new.store.names ≡ noted_of step.old.store.names) }
    ensures ready { OnOk result (IsReady step.new) }
{
    match embargo {
        Some(embargo) => call_under(step, id, request, embargo),
        None => call_by(step, lists, id, request, head),
    }
}

/// Makes a call of the application through a reference, and gives its number: it waits under the reference's embargo,
/// goes to a node of this vat, or over a wire. The list of nodes is empty and has room for one of each capability.
/// `Full` if a limit of the numbers, the waiting calls, the questions or the exports is passed, `Memory` if there is no
/// such reference, or what the call would wait for is not there. The step is only to be dropped then. A call for which
/// there is room, while no call is taken out, never fails. Takes no memory, but at most one of the slack for each
/// capability, and four.
pub fn call_kept(
    step: &mut Step,
    lists: Lists,
    nodes: Vec<Node>,
    call: CallCommand,
) -> Result<CallId, TableFault>
    requires ready { IsReady step.old }
    requires slack { length call.refs + 4 ≤ step.old.store.slack }
    requires number { step.old.store.next_call + 1 < number_limit }
    requires made { made_through (map.get (state_of step.old.store).refs call.reference.0) + 1 < number_limit }
    requires prepared { IsPrepared (length call.refs) lists }
    requires no_nodes { nodes.items ≡ [] }
    requires room { length call.refs ≤ vec_capacity nodes }
    ensures acts { IfOk result (λ c. Acts (progress_of step.old) (command.Call call) (granted.Call c) (progress_of step.new)) }
    ensures fits { step.old.store.waits.taken ≡ [] → GoesSomewhere (string_capacity lists.text) (state_of step.old.store) call.reference.0 → call_lacks_room (state_of step.old.store) (heads (state_of step.old.store) call.refs) (map.get (state_of step.old.store).refs call.reference.0) ≡ false → IsOk result }
    ensures left { OnOk result (step.old.store.slack ≤ step.new.store.slack + (length call.refs + 4)) }
    ensures taken { OnOk result (step.new.store.waits.taken ≡ step.old.store.waits.taken) }
    ensures noted { OnOk result (noted_of step.new.store.names ≡ noted_of step.old.store.names) }
    ensures ready { OnOk result (IsReady step.new) }
{
    let id = call.reference;
    let Some(reference) = ref_of(&step.store, id) else {
        return Err(TableFault::Memory);
    };
    let request = request_of(&step.store, call, &reference, nodes);
    let Reference {
        head,
        embargo,
        made: _,
    } = reference;
    let number = number_through(step, id);
    call_through(step, lists, number, request, head, embargo)?;
    Ok(number)
}
