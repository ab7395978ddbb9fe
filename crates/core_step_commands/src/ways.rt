ghost use Rattle.std.specs.Prelude.{◌≡◌, ◌≢◌, ◌+◌, ◌<◌, ◌≤◌, None, [], false, nat_le, length, string_capacity, IsOk, IsSome, OnOk};
ghost use Rattle.std.specs.FinMap as map;
ghost use Rattle.rpc_machine.specs.Commands.{CallsHere, CallsDirect};
ghost use Rattle.rpc_machine.specs.Fullness.{exports_lack_room, going_out, lacks_room_at};
ghost use Rattle.rpc_machine.specs.Limits.{held, held_limit, table_limit};
ghost use Rattle.rpc_machine.specs.Nodes.{settle};
ghost use Rattle.core_store.specs.Holding.{state_of};
ghost use Rattle.core_store.specs.Noted.{noted_of};
ghost use Rattle.core_step.specs.InProgress.{progress_of, IsReady};
ghost use Rattle.core_step_routes.specs.Fitting.{IsOpenThere};
ghost use Rattle.core_step_routes.specs.Prepared.{IsPrepared};
ghost use Rattle.core_step_commands.specs.Ways.{CallsUnder};

use crate::kept::keep_outcome;
use core_step::Step;
use core_step_routes::{Lists, call_direct_kept, route_kept};
use core_store_waits::hold_under;
use rpc_machine::{Node, Request, WaitingCall};
use rpc_msg::{CallId, EmbargoId, Target};
use vat_tables::TableFault;

/// A call of the application, which has its number and no entry yet, waits under an embargo, and its outcome is kept here.
/// `Full` at 65,536 calls, and `Memory` if there is no such embargo; the step is only to be dropped then. If the
/// embargo is there, one more call may wait and none is taken out, it never fails. Takes no memory, but one of the slack for
/// each capability, and three.
pub fn call_under(
    step: &mut Step,
    id: CallId,
    request: Request,
    embargo: EmbargoId,
) -> Result<(), TableFault>
    requires ready { IsReady step.old }
    requires slack { length request.caps + 3 ≤ step.old.store.slack }
    requires new { map.get (state_of step.old.store).calls id.0 ≡ None }
    requires counted { id.0 < step.old.store.next_call }
    ensures called { OnOk result (CallsUnder (progress_of step.old) id.0 request embargo.0 (progress_of step.new)) }
    ensures fits { step.old.store.waits.taken ≡ [] → IsSome (map.get (state_of step.old.store).embargoes embargo.0) → nat_le held_limit (held (state_of step.old.store)) ≡ false → IsOk result }
    ensures left { OnOk result (step.old.store.slack ≤ step.new.store.slack + (length request.caps + 3)) }
    ensures taken { step.new.store.waits.taken ≡ step.old.store.waits.taken }
    ensures noted { noted_of step.new.store.names ≡ noted_of step.old.store.names }
    ensures ready { IsReady step.new }
{
    let outcome = keep_outcome(step, id);
    hold_under(&mut step.store, embargo, WaitingCall { request, outcome })
}

/// A call of the application, which has its number and no entry yet, goes to where a node of this vat settles, and its
/// outcome is kept here. `Full` if a limit of the numbers, the waiting calls, the questions or the exports is passed,
/// `Memory` if it settles to a promise or an outcome that is not there; the step is only to be dropped then. It never
/// fails if there is room and no call is taken out. Takes no memory, but at most one of the slack for each capability,
/// and four.
pub fn call_here(
    step: &mut Step,
    lists: Lists,
    id: CallId,
    request: Request,
    head: Node,
) -> Result<(), TableFault>
    requires ready { IsReady step.old }
    requires slack { length request.caps + 4 ≤ step.old.store.slack }
    requires new { map.get (state_of step.old.store).calls id.0 ≡ None }
    requires counted { id.0 < step.old.store.next_call }
    requires prepared { IsPrepared (length request.caps) lists }
    ensures called { OnOk result (CallsHere (progress_of step.old) id.0 request head (progress_of step.new)) }
    ensures fits { step.old.store.waits.taken ≡ [] → IsOpenThere (string_capacity lists.text) (state_of step.old.store) (settle (state_of step.old.store) head) → lacks_room_at (state_of step.old.store) request.caps (settle (state_of step.old.store) head) ≡ false → IsOk result }
    ensures left { OnOk result (step.old.store.slack ≤ step.new.store.slack + (length request.caps + 4)) }
    ensures taken { OnOk result (step.new.store.waits.taken ≡ step.old.store.waits.taken) }
    ensures noted { OnOk result (noted_of step.new.store.names ≡ noted_of step.old.store.names) }
    ensures ready { OnOk result (IsReady step.new) }
{
    let outcome = keep_outcome(step, id);
    route_kept(step, lists, WaitingCall { request, outcome }, head)
}

/// A call of the application, which has its number and no entry yet, goes over a wire, as a question of its own. `Full`
/// if a limit of the questions or the exports is passed, and only then; the step is only to be dropped then. Takes no
/// memory, but at most one of the slack for each capability, and two.
pub fn call_over(
    step: &mut Step,
    lists: Lists,
    id: CallId,
    request: Request,
    target: Target,
) -> Result<(), TableFault>
    requires ready { IsReady step.old }
    requires slack { length request.caps + 2 ≤ step.old.store.slack }
    requires new { map.get (state_of step.old.store).calls id.0 ≡ None }
    requires counted { id.0 < step.old.store.next_call }
    requires prepared { IsPrepared (length request.caps) lists }
    ensures called { OnOk result (CallsDirect (progress_of step.old) id.0 request target (progress_of step.new)) }
    ensures fits { map.len (state_of step.old.store).questions ≢ table_limit → exports_lack_room (state_of step.old.store) (going_out (state_of step.old.store) request.caps) ≡ false → IsOk result }
    ensures left { OnOk result (step.old.store.slack ≤ step.new.store.slack + (length request.caps + 2)) }
    ensures taken { OnOk result (step.new.store.waits.taken ≡ step.old.store.waits.taken) }
    ensures noted { OnOk result (noted_of step.new.store.names ≡ noted_of step.old.store.names) }
    ensures ready { OnOk result (IsReady step.new) }
{
    let Lists {
        refs: _,
        said,
        given,
        text: _,
    } = lists;
    call_direct_kept(step, id, request, target, said, given)
}
