ghost use Rattle.std.specs.Prelude.{◌≡◌, ◌∷◌, None, [], OnOk, IfErr};
ghost use Rattle.std.specs.FinMap as map;
ghost use Rattle.rpc_msg.specs.declared.message.PlainMessage.TheVariants as plain;
ghost use Rattle.rpc_machine.specs.declared.entries.Resolution.TheVariants as resolution;
ghost use Rattle.rpc_machine.specs.Descriptors.{read, take_all};
ghost use Rattle.rpc_machine.specs.Faults.{plain_fault};
ghost use Rattle.rpc_machine.specs.Messages.{TakesPlain, take_resolve, resolve_import};
ghost use Rattle.rpc_machine.specs.Progress.{with_state};
ghost use Rattle.core_store.specs.Holding.{state_of};
ghost use Rattle.core_step.specs.InProgress.{progress_of, IsReady};
ghost use Rattle.core_step_messages.specs.Stopping.{Stops};

use crate::descriptors::take_descriptors;
use crate::nodes::read;
use core_step::{Step, reserve};
use core_step_checks::fault_of_resolve;
use core_store_tables::set_resolution;
use rpc_machine::{Fault, Resolution};
use rpc_msg::{Descriptor, ExportId, Memory, Resolve, ResolvedTo};

// Keeps what was said of an import, if it is there.
fn keep_said(step: &mut Step, id: ExportId, said: Resolution) -> Result<(), Memory>
    requires { IsReady step.old }
    ensures state { OnOk result (progress_of step.new ≡ with_state (progress_of step.old) (resolve_import (state_of step.old.store) id.0 said (map.get (state_of step.old.store).imports id.0))) }
    ensures taken { OnOk result (step.new.store.waits.taken ≡ step.old.store.waits.taken) }
    ensures ready { OnOk result (IsReady step.new) }
{
    reserve(step, 1)?;
    set_resolution(&mut step.store, id, said);
    Ok(())
}

// The capability is taken also if the import is gone.
fn resolve_to(step: &mut Step, id: ExportId, said: Descriptor) -> Result<(), Memory>
    requires { IsReady step.old }
    ensures state { OnOk result (progress_of step.new ≡ with_state (progress_of step.old) (resolve_import (take_all (state_of step.old.store) (said ∷ [])) id.0 (resolution.To said (read (state_of step.old.store) said)) (map.get (state_of step.old.store).imports id.0))) }
    ensures taken { OnOk result (step.new.store.waits.taken ≡ step.old.store.waits.taken) }
    ensures ready { OnOk result (IsReady step.new) }
{
    let node = read(&step.store, said);
    let is_there = step.store.imports.get(id.0).is_some();
    // That it is no fault was checked, so only room can be lacking.
    let Ok(()) = take_descriptors(step, std::slice::from_ref(&said)) else {
        return Err(Memory);
    };
    if !is_there {
        return Ok(());
    }
    keep_said(step, id, Resolution::To(said, node))
}

fn take_said(step: &mut Step, resolve: Resolve) -> Result<(), Memory>
    requires { IsReady step.old }
    ensures state { OnOk result (progress_of step.new ≡ with_state (progress_of step.old) (take_resolve (state_of step.old.store) resolve.promise.0 resolve.to)) }
    ensures taken { OnOk result (step.new.store.waits.taken ≡ step.old.store.waits.taken) }
    ensures ready { OnOk result (IsReady step.new) }
{
    let Resolve { promise, to } = resolve;
    match to {
        ResolvedTo::Cap(said) => resolve_to(step, promise, said),
        ResolvedTo::Exception(exception) => {
            keep_said(step, promise, Resolution::Exception(exception))
        }
    }
}

/// Takes a Resolve: its capability is taken, and what it said is kept, if its import is there. Makes the room for it.
/// `Err` with the fault that it is, or for lack of room or of memory; the step is only to be dropped then.
pub fn take_resolve(step: &mut Step, resolve: Resolve) -> Result<(), Fault>
    requires { IsReady step.old }
    ensures none { OnOk result (plain_fault (state_of step.old.store) (plain.Resolve resolve) ≡ None) }
    ensures fault { IfErr result (λ f. Stops (plain_fault (state_of step.old.store) (plain.Resolve resolve)) f) }
    ensures takes { OnOk result (TakesPlain (progress_of step.old) (plain.Resolve resolve) (progress_of step.new)) }
    ensures taken { OnOk result (step.new.store.waits.taken ≡ step.old.store.waits.taken) }
    ensures ready { OnOk result (IsReady step.new) }
{
    fault_of_resolve(&step.store, &resolve)?;
    let Ok(()) = take_said(step, resolve) else {
        return Err(Fault::WantOfRoom);
    };
    Ok(())
}
