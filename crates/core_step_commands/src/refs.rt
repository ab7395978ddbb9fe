ghost use Rattle.std.specs.Prelude.{◌≡◌, ◌+◌, ◌-◌, ◌<◌, None, Some};
ghost use Rattle.std.specs.FinMap as map;
ghost use Rattle.rpc_machine.specs.declared.command.Command.TheVariants as command;
ghost use Rattle.rpc_machine.specs.declared.command.Granted.TheVariants as granted;
ghost use Rattle.rpc_machine.specs.Commands.{Acts};
ghost use Rattle.rpc_machine.specs.Limits.{number_limit};
ghost use Rattle.rpc_machine.specs.Refusals.{refused};
ghost use Rattle.core_store.specs.Holding.{state_of};
ghost use Rattle.core_step.specs.InProgress.{progress_of, IsReady};

use core_step::Step;
use core_store_handles::{add_ref, forget_ref};
use rpc_machine::{Node, OwnCall, Reference};
use rpc_msg::{CallId, Items, ObjectId, Op, Path, RefId};

/// A new reference to an object of the application. Takes no memory, but one of the slack.
pub fn host(step: &mut Step, object: ObjectId) -> RefId
    requires ready { IsReady step.old }
    requires slack { 0 < step.old.store.slack }
    requires number { step.old.store.next_ref + 1 < number_limit }
    ensures acts { Acts (progress_of step.old) (command.Host object) (granted.Reference result) (progress_of step.new) }
    ensures taken { step.new.store.waits.taken ≡ step.old.store.waits.taken }
    ensures ready { IsReady step.new }
{
    add_ref(&mut step.store, Node::Object(object))
}

/// A second reference with the same head as another, if that is not refused. Takes no memory, but one of the slack.
pub fn clone_ref(step: &mut Step, id: RefId) -> RefId
    requires ready { IsReady step.old }
    requires slack { 0 < step.old.store.slack }
    requires allowed { refused (state_of step.old.store) (command.CloneRef id) ≡ None }
    ensures acts { Acts (progress_of step.old) (command.CloneRef id) (granted.Reference result) (progress_of step.new) }
    ensures taken { step.new.store.waits.taken ≡ step.old.store.waits.taken }
    ensures ready { IsReady step.new }
{
    let Some(reference) = step.store.refs.get(id.0) else {
        unreachable!()
    };
    let head = reference.head;
    add_ref(&mut step.store, head)
}

/// A reference to what stands at a path of the results of a call, if that is not refused: a Pipe of its question, or a
/// field of its kept outcome. Takes no memory, but one of the slack.
pub fn field(step: &mut Step, id: CallId, path: &Items<Op>) -> RefId
    requires ready { IsReady step.old }
    requires slack { 0 < step.old.store.slack }
    requires allowed { refused (state_of step.old.store) (command.Field id path.now) ≡ None }
    ensures acts { Acts (progress_of step.old) (command.Field id path.now) (granted.Reference result) (progress_of step.new) }
    ensures taken { step.new.store.waits.taken ≡ step.old.store.waits.taken }
    ensures ready { IsReady step.new }
{
    let Some(path) = Path::from_ops(path) else {
        unreachable!()
    };
    let path = path.fields();
    let Some(from) = step.store.calls.get(id.0) else {
        unreachable!()
    };
    let node = match *from {
        OwnCall::Direct(question) => Node::Pipe(question, path),
        OwnCall::Kept(outcome) => Node::Field(outcome, path),
    };
    add_ref(&mut step.store, node)
}

/// The application has no more use for a reference, if that is not refused; it is handed out. What no place names then
/// goes at the end of the step. Takes no memory.
pub fn drop_ref(step: &mut Step, id: RefId) -> Reference
    requires ready { IsReady step.old }
    requires allowed { refused (state_of step.old.store) (command.DropRef id) ≡ None }
    ensures was { map.get (state_of step.old.store).refs id.0 ≡ Some result }
    ensures acts { Acts (progress_of step.old) (command.DropRef id) granted.Done (progress_of step.new) }
    ensures left { step.new.store.slack ≡ step.old.store.slack }
    ensures waits { step.new.store.waits ≡ step.old.store.waits }
    ensures ready { IsReady step.new }
{
    let Some(reference) = forget_ref(&mut step.store, id) else {
        unreachable!()
    };
    reference
}
