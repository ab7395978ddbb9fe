ghost use Rattle.std.specs.Prelude.{◌≡◌, ◌+◌, ◌<◌, ◌≤◌, None, false, length, IsTrue, IfSome};
ghost use Rattle.rpc_machine.specs.declared.command.Command.TheVariants as command;
ghost use Rattle.rpc_machine.specs.declared.command.Granted.TheVariants as granted;
ghost use Rattle.rpc_machine.specs.declared.node.Node.TheVariants as node;
ghost use Rattle.rpc_machine.specs.Commands.{Acts};
ghost use Rattle.rpc_machine.specs.Fullness.{has_no_room};
ghost use Rattle.rpc_machine.specs.Limits.{number_limit};
ghost use Rattle.rpc_machine.specs.Payloads.{caps_in};
ghost use Rattle.core_store.specs.Holding.{state_of};
ghost use Rattle.core_store.specs.Noted.{noted_of};
ghost use Rattle.core_step.specs.InProgress.{progress_of, IsReady};
ghost use Rattle.core_step_commands.specs.Straight.{IsStraight};

use crate::calls::number_through;
use core_step::Step;
use core_step_routes::call_direct_kept;
use core_store::Store;
use rpc_machine::{CallCommand, Node, Reference, Request};
use rpc_msg::{CallId, ExportId, Items, Stamp, Target};
use std::alloc::Global;
use vat_tables::TABLE_LIMIT;

/// Where a call goes that passes no references, through a reference that leads to an import at once.
#[derive(Clone, Copy, Drop)]
pub struct StraightCall {
    /// The import.
    pub id: ExportId,
    /// How many calls were made through the reference.
    pub made: u64,
}

/// Whether a call goes to an import at once, and to which; not if it would be refused. Takes no memory.
pub fn straight(store: &Store, call: &CallCommand) -> Option<StraightCall>
    ensures { IfSome result (λ x. IsStraight (state_of store.now) call.now x) }
{
    let None = store.down else {
        return None;
    };
    if !passes_nothing(call) {
        return None;
    }
    let Some(reference) = store.refs.get(call.reference.0) else {
        return None;
    };
    let made = reference.made;
    let Some(id) = import_of(reference) else {
        return None;
    };
    if !has_room(store, made) {
        return None;
    }
    Some(StraightCall { id, made })
}

// Whether it passes no references, and its payload says so.
fn passes_nothing(call: &CallCommand) -> bool
    ensures { IsTrue result → (length call.now.refs ≡ 0) × (caps_in call.now.payload ≡ 0) }
{
    call.refs.is_empty() && call.payload.caps() == 0
}

// The import to which the reference leads, if no embargo holds its calls.
fn import_of(reference: &Reference) -> Option<ExportId>
    ensures { IfSome result (λ id. (reference.now.head ≡ node.Import id) × (reference.now.embargo ≡ None)) }
{
    let None = reference.embargo else {
        return None;
    };
    match reference.head {
        Node::Import(id) => Some(id),
        _ => None,
    }
}

// Whether there are numbers for one more call, and room for its question.
fn has_room(store: &Store, made: u64) -> bool
    ensures { IsTrue result → (store.now.next_call + 1 < number_limit) × (made + 1 < number_limit) × (has_no_room store.now.questions.entries ≡ false) }
{
    store.next_call < u64::MAX && made < u64::MAX && store.questions.len() < TABLE_LIMIT
}

/// Makes a call of the application that goes to an import at once, and gives its number. Takes no memory, but two of the
/// slack.
pub fn call_straight(
    step: &mut Step,
    alloc: Global,
    call: CallCommand,
    straight: StraightCall,
) -> CallId
    requires ready { IsReady step.old }
    requires slack { 2 ≤ step.old.store.slack }
    requires straight { IsStraight (state_of step.old.store) call straight }
    ensures acts { Acts (progress_of step.old) (command.Call call) (granted.Call result) (progress_of step.new) }
    ensures arisen { (progress_of step.new).arisen ≡ (progress_of step.old).arisen }
    ensures taken { step.new.store.waits.taken ≡ step.old.store.waits.taken }
    ensures noted { noted_of step.new.store.names ≡ noted_of step.old.store.names }
    ensures ready { IsReady step.new }
{
    let CallCommand {
        reference,
        interface,
        method,
        payload,
        refs: _,
    } = call;
    let stamp = Stamp {
        vat: step.store.vat,
        reference,
        index: straight.made,
    };
    let request = Request {
        stamp,
        interface,
        method,
        payload,
        caps: Items::new(alloc),
    };
    let number = number_through(step, reference);
    let target = Target::ImportedCap(straight.id);
    let Ok(()) = call_direct_kept(
        step,
        number,
        request,
        target,
        Vec::new(alloc),
        Vec::new(alloc),
    ) else {
        unreachable!()
    };
    number
}
