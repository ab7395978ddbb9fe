ghost use Rattle.std.specs.Prelude.{◌≡◌, ◌≢◌, ◌+◌, ◌<◌, ◌≤◌, [], length, vec_capacity, false, None, IsOk, IfErr, OnOk};
ghost use Rattle.std.specs.FinMap as map;
ghost use Rattle.rpc_machine.specs.Commands.{CallsDirect};
ghost use Rattle.rpc_machine.specs.Fullness.{exports_lack_room, going_out};
ghost use Rattle.rpc_machine.specs.Limits.{table_limit};
ghost use Rattle.rpc_machine.specs.Routing.{Relays};
ghost use Rattle.core_store.specs.Holding.{state_of};
ghost use Rattle.core_store.specs.Noted.{noted_of};
ghost use Rattle.core_step.specs.InProgress.{progress_of, IsReady};

use crate::descriptors::describe_all_kept;
use core_step::Step;
use rpc_machine::{Request, WaitingCall};
use rpc_msg::{Call, CallId, Descriptor, ExportId, Items, PlainMessage, Target};
use vat_tables::TableFault;

/// A call goes on to a wire, as a question: what its Return says will be the outcome of the call. The two lists are
/// empty and have room for one of each capability. `Full` if a limit of the exports or of the questions is passed, and
/// only then; the step is only to be dropped then. Takes no memory, but at most one of the slack for each capability,
/// and two.
pub fn relay_kept(
    step: &mut Step,
    call: WaitingCall,
    target: Target,
    said: Vec<Descriptor>,
    ids: Vec<ExportId>,
) -> Result<(), TableFault>
    requires ready { IsReady step.old }
    requires slack { length call.request.caps + 2 ≤ step.old.store.slack }
    requires none_said { said.items ≡ [] }
    requires no_ids { ids.items ≡ [] }
    requires room { length call.request.caps ≤ vec_capacity said }
    requires id_room { length call.request.caps ≤ vec_capacity ids }
    ensures relayed { OnOk result (Relays (progress_of step.old) call target (progress_of step.new)) }
    ensures full { IfErr result (λ fault. fault ≡ TableFault.Full) }
    ensures fits { map.len (state_of step.old.store).questions ≢ table_limit → exports_lack_room (state_of step.old.store) (going_out (state_of step.old.store) call.request.caps) ≡ false → IsOk result }
    ensures left { OnOk result (step.old.store.slack ≤ step.new.store.slack + (length call.request.caps + 2)) }
    ensures less { OnOk result (step.new.store.slack ≤ step.old.store.slack) }
    ensures waits { OnOk result (step.new.store.waits ≡ step.old.store.waits) }
    ensures noted { OnOk result (noted_of step.new.store.names ≡ noted_of step.old.store.names) }
    ensures ready { OnOk result (IsReady step.new) }
{
    let WaitingCall { request, outcome } = call;
    let Request {
        stamp,
        interface,
        method,
        payload,
        caps,
    } = request;
    let mut descriptors = said;
    let mut given = ids;
    describe_all_kept(&mut step.store, &caps, &mut descriptors, &mut given)?;
    let question = core_store_tables::ask_relay(&mut step.store, outcome, Items::from_vec(given))?;
    let message = Call {
        question,
        target,
        interface,
        method,
        payload,
        descriptors: Items::from_vec(descriptors),
        stamp,
    };
    core_step::send(step, PlainMessage::Call(message));
    Ok(())
}

/// A call of the application, which has no entry yet, goes out as a question of its own. The two lists are empty and
/// have room for one of each capability. `Full` if a limit of the exports or of the questions is passed, and only then;
/// the step is only to be dropped then. Takes no memory, but at most one of the slack for each capability, and two.
#[inline(always)]
pub fn call_direct_kept(
    step: &mut Step,
    id: CallId,
    request: Request,
    target: Target,
    said: Vec<Descriptor>,
    ids: Vec<ExportId>,
) -> Result<(), TableFault>
    requires ready { IsReady step.old }
    requires slack { length request.caps + 2 ≤ step.old.store.slack }
    requires new { map.get (state_of step.old.store).calls id.0 ≡ None }
    requires counted { id.0 < step.old.store.next_call }
    requires none_said { said.items ≡ [] }
    requires no_ids { ids.items ≡ [] }
    requires room { length request.caps ≤ vec_capacity said }
    requires id_room { length request.caps ≤ vec_capacity ids }
    ensures called { OnOk result (CallsDirect (progress_of step.old) id.0 request target (progress_of step.new)) }
    ensures full { IfErr result (λ fault. fault ≡ TableFault.Full) }
    ensures fits { map.len (state_of step.old.store).questions ≢ table_limit → exports_lack_room (state_of step.old.store) (going_out (state_of step.old.store) request.caps) ≡ false → IsOk result }
    ensures left { OnOk result (step.old.store.slack ≤ step.new.store.slack + (length request.caps + 2)) }
    ensures less { OnOk result (step.new.store.slack ≤ step.old.store.slack) }
    ensures waits { OnOk result (step.new.store.waits ≡ step.old.store.waits) }
    ensures noted { OnOk result (noted_of step.new.store.names ≡ noted_of step.old.store.names) }
    ensures ready { OnOk result (IsReady step.new) }
{
    let Request {
        stamp,
        interface,
        method,
        payload,
        caps,
    } = request;
    let mut descriptors = said;
    let mut given = ids;
    describe_all_kept(&mut step.store, &caps, &mut descriptors, &mut given)?;
    let question = core_store_tables::ask_direct(&mut step.store, id, Items::from_vec(given))?;
    let message = Call {
        question,
        target,
        interface,
        method,
        payload,
        descriptors: Items::from_vec(descriptors),
        stamp,
    };
    core_step::send(step, PlainMessage::Call(message));
    Ok(())
}
