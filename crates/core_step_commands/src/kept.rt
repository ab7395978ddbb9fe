ghost use Rattle.std.specs.Prelude.{◌≡◌, ◌-◌, ◌<◌, ◌≤◌, None};
ghost use Rattle.std.specs.FinMap as map;
ghost use Rattle.rpc_machine.specs.Commands.{kept};
ghost use Rattle.core_store.specs.Holding.{state_of};
ghost use Rattle.core_store.specs.Noted.{noted_of};
ghost use Rattle.core_step.specs.InProgress.{progress_of, IsReady};

use core_step::Step;
use core_store_handles::add_call;
use core_store_waits::new_outcome;
use rpc_machine::{Caller, OwnCall};
use rpc_msg::CallId;

/// Keeps the outcome of a call of the application at this vat, and gives its key, which was free. The call has its number,
/// and no entry yet. Takes no memory, but two of the slack.
pub fn keep_outcome(step: &mut Step, call: CallId) -> u64
    requires ready { IsReady step.old }
    requires slack { 2 ≤ step.old.store.slack }
    requires new { map.get (state_of step.old.store).calls call.0 ≡ None }
    requires counted { call.0 < step.old.store.next_call }
    ensures free { map.get (state_of step.old.store).outcomes result ≡ None }
    ensures kept { progress_of step.new ≡ kept (progress_of step.old) call.0 result }
    ensures taken { step.new.store.waits.taken ≡ step.old.store.waits.taken }
    ensures noted { noted_of step.new.store.names ≡ noted_of step.old.store.names }
    ensures left { step.new.store.slack ≡ step.old.store.slack - 2 }
    ensures ready { IsReady step.new }
{
    let key = new_outcome(&mut step.store, Caller::Application(call));
    add_call(&mut step.store, call, OwnCall::Kept(key));
    key
}
