ghost use Rattle.std.specs.Prelude.{◌≡◌, ◌≢◌, ◌+◌, ◌-◌, ◌<◌, length, Err, IsOk, IsSome, OnOk, OnErr};
ghost use Rattle.std.specs.FinMap as map;
ghost use Rattle.rpc_machine.specs.Limits.{held_limit};
ghost use Rattle.rpc_machine.specs.Routing.{WaitsForPromise, WaitsForField};
ghost use Rattle.core_waits.specs.Changes.{IsOpen};
ghost use Rattle.core_store.specs.Holding.{state_of};
ghost use Rattle.core_store.specs.Noted.{noted_of};
ghost use Rattle.core_step.specs.InProgress.{progress_of, IsReady};

use core_step::Step;
use rpc_machine::WaitingCall;
use rpc_msg::Path;
use vat_tables::TableFault;

/// A call waits for an open promise, behind those that wait already. Takes no memory, but one of the slack, and one for
/// each capability. `Full` at 65,536 calls, and only then; `Memory` if there is no such open promise. A call that is
/// refused is dropped, and nothing is changed then.
pub fn wait_for_promise(step: &mut Step, call: WaitingCall, p: u64) -> Result<(), TableFault>
    requires ready { IsReady step.old }
    requires slack { length call.request.caps < step.old.store.slack }
    ensures ok { OnOk result (WaitsForPromise (progress_of step.old) call p (map.get (state_of step.old.store).promises p) (progress_of step.new)) }
    ensures at_limit { IsOpen (map.get (state_of step.old.store).promises p) → step.old.store.waits.held ≡ held_limit → result ≡ Err TableFault.Full }
    ensures full { result ≡ Err TableFault.Full → step.old.store.waits.held ≡ held_limit }
    ensures never { IsOpen (map.get (state_of step.old.store).promises p) → step.old.store.waits.held ≢ held_limit → IsOk result }
    ensures taken { step.new.store.waits.taken ≡ step.old.store.waits.taken }
    ensures noted { noted_of step.new.store.names ≡ noted_of step.old.store.names }
    ensures left { OnOk result (step.new.store.slack ≡ step.old.store.slack - (length call.request.caps + 1)) }
    ensures same { OnErr result (step.new ≡ step.old) }
    ensures ready { IsReady step.new }
{
    core_store_waits::hold_for_promise(&mut step.store, p, call)
}

/// A call waits for what will stand at a path of an outcome, behind those that wait already. Takes no memory, but one
/// of the slack, and one for each capability. `Full` at 65,536 calls, and only then; `Memory` if there is no such
/// outcome. A call that is refused is dropped, and nothing is changed then.
pub fn wait_for_field(
    step: &mut Step,
    call: WaitingCall,
    o: u64,
    path: Path,
) -> Result<(), TableFault>
    requires ready { IsReady step.old }
    requires slack { length call.request.caps < step.old.store.slack }
    ensures ok { OnOk result (WaitsForField (progress_of step.old) call o path (map.get (state_of step.old.store).outcomes o) (progress_of step.new)) }
    ensures at_limit { IsSome (map.get (state_of step.old.store).outcomes o) → step.old.store.waits.held ≡ held_limit → result ≡ Err TableFault.Full }
    ensures full { result ≡ Err TableFault.Full → step.old.store.waits.held ≡ held_limit }
    ensures never { IsSome (map.get (state_of step.old.store).outcomes o) → step.old.store.waits.held ≢ held_limit → IsOk result }
    ensures taken { step.new.store.waits.taken ≡ step.old.store.waits.taken }
    ensures noted { noted_of step.new.store.names ≡ noted_of step.old.store.names }
    ensures left { OnOk result (step.new.store.slack ≡ step.old.store.slack - (length call.request.caps + 1)) }
    ensures same { OnErr result (step.new ≡ step.old) }
    ensures ready { IsReady step.new }
{
    core_store_waits::hold_for_field(&mut step.store, o, path, call)
}
