ghost use Rattle.std.specs.Prelude.{◌≡◌, None, IfOk, OnOk};
ghost use Rattle.std.specs.FinMap as map;
ghost use Rattle.rpc_msg.specs.declared.message.ResolvedTo.TheVariants as resolved;
ghost use Rattle.rpc_machine.specs.Nodes.{settle, is_promise, is_field};
ghost use Rattle.rpc_machine.specs.Progress.{send};
ghost use Rattle.rpc_machine.specs.Settling.{SendsResolves, ResolvesEach, ResolvesBy, ResolvesTo, exports_where, or_failed, resolve_message};
ghost use Rattle.core_store.specs.Holding.{state_of, IsSound};
ghost use Rattle.core_step.specs.InProgress.{progress_of, IsReady};

use core_step::Step;
use core_store::Store;
use rpc_machine::{Node, Reason};
use rpc_msg::{Exception, ExportId, Items, Memory, PlainMessage, Resolve, ResolvedTo};
use std::alloc::Global;

/// The exports of the fields of that outcome get their Resolves, by rising id. `Err` for lack of memory, or if a limit
/// of the exports is met; the step is only to be dropped then. Takes no memory if no place names a field of it.
pub fn resolve_fields(step: &mut Step, alloc: Global, key: u64) -> Result<(), Memory>
    requires ready { IsReady step.old }
    ensures sent { OnOk result (SendsResolves (progress_of step.old) None (is_field key) (progress_of step.new)) }
    ensures taken { OnOk result (step.new.store.waits.taken ≡ step.old.store.waits.taken) }
    ensures ready { OnOk result (IsReady step.new) }
{
    if step.store.names.of_outcome(key) == 0 {
        return Ok(());
    }
    resolve_named(step, alloc, key)
}

// The same, if places name such a field.
fn resolve_named(step: &mut Step, alloc: Global, key: u64) -> Result<(), Memory>
    requires ready { IsReady step.old }
    ensures sent { OnOk result (SendsResolves (progress_of step.old) None (is_field key) (progress_of step.new)) }
    ensures taken { OnOk result (step.new.store.waits.taken ≡ step.old.store.waits.taken) }
    ensures ready { OnOk result (IsReady step.new) }
{
    let told: Option<Exception> = None;
    let exports = core_store_tables::exports_of_field(&step.store, key, alloc)?;
    resolve_each(step, alloc, &exports, &told)
}

/// The exports of that promise get their Resolves, by rising id. If it is broken these say the exception, if there is
/// one, each in memory of its own. `Err` for lack of memory, or if a limit of the exports is met; the step is only to
/// be dropped then. Takes no memory if no place names the promise.
pub fn resolve_promises(
    step: &mut Step,
    alloc: Global,
    key: u64,
    told: Option<Exception>,
) -> Result<(), Memory>
    requires ready { IsReady step.old }
    ensures sent { OnOk result (SendsResolves (progress_of step.old) told (is_promise key) (progress_of step.new)) }
    ensures taken { OnOk result (step.new.store.waits.taken ≡ step.old.store.waits.taken) }
    ensures ready { OnOk result (IsReady step.new) }
{
    let exports = exports_of_promise(&step.store, key, alloc)?;
    resolve_each(step, alloc, &exports, &told)
}

// What no place names has no export.
fn exports_of_promise(store: &Store, key: u64, alloc: Global) -> Result<Items<(u32, Node)>, Memory>
    requires { IsSound store.now }
    ensures { IfOk result (λ list. list ≡ exports_where (is_promise key) (map.entries (state_of store.now).exports)) }
{
    if store.names.of_promise(key) == 0 {
        return Ok(Items::new(alloc));
    }
    core_store_tables::exports_of_promise(store, key, alloc)
}

// One Resolve for each of these exports, in order.
fn resolve_each(
    step: &mut Step,
    alloc: Global,
    exports: &[(u32, Node)],
    told: &Option<Exception>,
) -> Result<(), Memory>
    requires ready { IsReady step.old }
    ensures sent { OnOk result (ResolvesEach (progress_of step.old) told.now exports.now (progress_of step.new)) }
    ensures taken { OnOk result (step.new.store.waits.taken ≡ step.old.store.waits.taken) }
    ensures ready { OnOk result (IsReady step.new) }
{
    for export in exports {
        resolve_one(step, alloc, export.0, export.1, told)?;
    }
    Ok(())
}

// The Resolve of an export, by where its node settles.
fn resolve_one(
    step: &mut Step,
    alloc: Global,
    id: u32,
    node: Node,
    told: &Option<Exception>,
) -> Result<(), Memory>
    requires ready { IsReady step.old }
    ensures sent { OnOk result (ResolvesBy (progress_of step.old) id told.now (settle (state_of step.old.store) node) (progress_of step.new)) }
    ensures taken { OnOk result (step.new.store.waits.taken ≡ step.old.store.waits.taken) }
    ensures ready { OnOk result (IsReady step.new) }
{
    let at = core_store::settle(&step.store, node);
    let Node::Broken(reason) = at else {
        return resolve_to(step, id, at);
    };
    resolve_broken(step, alloc, id, told, reason)
}

// A Resolve that names a node.
fn resolve_to(step: &mut Step, id: u32, node: Node) -> Result<(), Memory>
    requires ready { IsReady step.old }
    ensures sent { OnOk result (ResolvesTo (progress_of step.old) id node (progress_of step.new)) }
    ensures taken { OnOk result (step.new.store.waits.taken ≡ step.old.store.waits.taken) }
    ensures ready { OnOk result (IsReady step.new) }
{
    core_step::reserve(step, 2)?;
    let Ok(said) = core_step_routes::describe(&mut step.store, node) else {
        return Err(Memory);
    };
    let resolve = Resolve {
        promise: ExportId(id),
        to: ResolvedTo::Cap(said),
    };
    core_step::send(step, PlainMessage::Resolve(resolve));
    Ok(())
}

// A Resolve that names none.
fn resolve_broken(
    step: &mut Step,
    alloc: Global,
    id: u32,
    told: &Option<Exception>,
    reason: Reason,
) -> Result<(), Memory>
    requires ready { IsReady step.old }
    ensures sent { OnOk result (progress_of step.new ≡ send (progress_of step.old) (resolve_message id (resolved.Exception (or_failed told.now reason)))) }
    ensures taken { OnOk result (step.new.store.waits.taken ≡ step.old.store.waits.taken) }
    ensures ready { OnOk result (IsReady step.new) }
{
    let exception = or_failed(told, reason, alloc)?;
    core_step::reserve(step, 1)?;
    let resolve = Resolve {
        promise: ExportId(id),
        to: ResolvedTo::Exception(exception),
    };
    core_step::send(step, PlainMessage::Resolve(resolve));
    Ok(())
}

// The exception that is told, or else what the reason says, in memory of its own.
fn or_failed(told: &Option<Exception>, reason: Reason, alloc: Global) -> Result<Exception, Memory>
    ensures { IfOk result (λ said. said ≡ or_failed told.now reason) }
{
    match told {
        Some(exception) => exception.copy(alloc),
        None => core_step_routes::exception_of(reason, alloc),
    }
}
