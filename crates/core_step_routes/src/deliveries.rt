ghost use Rattle.std.specs.Prelude.{◌≡◌, ◌+◌, ◌-◌, ◌<◌, ◌≤◌, [], length, vec_capacity};
ghost use Rattle.rpc_machine.specs.Limits.{number_limit};
ghost use Rattle.rpc_machine.specs.Routing.{deliver};
ghost use Rattle.core_store.specs.Noted.{noted_of};
ghost use Rattle.core_step.specs.InProgress.{progress_of, IsReady};

use core_step::Step;
use rpc_journal::Delivery;
use rpc_machine::{Request, WaitingCall};
use rpc_msg::{Items, ObjectId, RefId};

/// A call reaches an object: a new task for the application, with a new reference for each capability, whose numbers go
/// into the list, which is empty and has room for them. Takes no memory, but one of the slack for each capability, and two.
#[inline(always)]
pub fn deliver_kept(step: &mut Step, call: WaitingCall, object: ObjectId, refs: Vec<RefId>)
    requires ready { IsReady step.old }
    requires slack { length call.request.caps + 2 ≤ step.old.store.slack }
    requires next_refs { step.old.store.next_ref + length call.request.caps < number_limit }
    requires next_task { step.old.store.next_task + 1 < number_limit }
    requires empty { refs.items ≡ [] }
    requires room { length call.request.caps ≤ vec_capacity refs }
    ensures delivered { progress_of step.new ≡ deliver (progress_of step.old) call object }
    ensures left { step.new.store.slack ≡ step.old.store.slack - (length call.request.caps + 2) }
    ensures waits { step.new.store.waits ≡ step.old.store.waits }
    ensures noted { noted_of step.new.store.names ≡ noted_of step.old.store.names }
    ensures ready { IsReady step.new }
{
    let WaitingCall { request, outcome } = call;
    let Request {
        stamp,
        interface,
        method,
        payload,
        caps,
    } = request;
    let mut numbers = refs;
    core_store_handles::add_refs(&mut step.store, &caps, &mut numbers);
    let task = core_store_handles::add_task(&mut step.store, outcome);
    let delivery = Delivery {
        task,
        object,
        stamp,
        interface,
        method,
        payload,
        refs: Items::from_vec(numbers),
    };
    core_step::tell_delivery(step, delivery);
}
