ghost use Rattle.std.specs.Prelude.{◌≡◌, ◌+◌, ◌<◌, ◌≤◌};
ghost use Rattle.rpc_machine.specs.declared.command.Command.TheVariants as command;
ghost use Rattle.rpc_machine.specs.declared.command.Granted.TheVariants as granted;
ghost use Rattle.rpc_machine.specs.Commands.{Acts};
ghost use Rattle.rpc_machine.specs.Limits.{number_limit};
ghost use Rattle.core_step.specs.InProgress.{progress_of, IsReady};

use core_step::Step;
use core_store_handles::{add_ref, number_promise};
use core_store_waits::open_promise;
use rpc_machine::Node;
use rpc_msg::{PromiseId, RefId};

/// Makes a promise that is open, and a reference to it. Takes no memory, but three of the slack.
pub fn promise(step: &mut Step) -> (PromiseId, RefId)
    requires ready { IsReady step.old }
    requires slack { 3 ≤ step.old.store.slack }
    requires number { step.old.store.next_promise + 1 < number_limit }
    requires ref_number { step.old.store.next_ref + 1 < number_limit }
    ensures acts { Acts (progress_of step.old) command.Promise (granted.Promise result.0 result.1) (progress_of step.new) }
    ensures taken { step.new.store.waits.taken ≡ step.old.store.waits.taken }
    ensures ready { IsReady step.new }
{
    let key = open_promise(&mut step.store);
    let number = number_promise(&mut step.store, key);
    let reference = add_ref(&mut step.store, Node::Promise(key));
    (number, reference)
}
