ghost use Rattle.std.specs.Prelude.{◌≡◌, ◌∷◌, [], None, Some, List, IfSome, IfOk, IfErr};
ghost use Rattle.rpc_msg.specs.declared.parts.Descriptor.{Descriptor as ADescriptor};
ghost use Rattle.rpc_machine.specs.Numbers.{fault_number};
ghost use Rattle.rpc_machine.specs.Faults.{descriptor_fault, each_fault, descriptors_fault, fault_of};
ghost use Rattle.std.specs.FinMap as map;
ghost use Rattle.core_store.specs.Holding.{state_of, IsSound};
ghost use Rattle.core_step_checks.specs.Parts.{if_flagged, given_with, flag_in_turn};
ghost use Rattle.core_step_messages.specs.Foreseen.{Knows, IsOther, given_as, number_of};

use crate::kinds::Kinds;
use crate::remainders::fault_of_flag;
use core_step_checks::{
    fault_before, fault_behind, fault_of_descriptor, faults_in_parts, flags_in_turn,
};
use core_store::Store;
use rpc_machine::{Fault, Level, SenderKind};
use rpc_msg::{Descriptor, ExportId, Memory, Message, PlainMessage, Return};
use std::alloc::Global;
use vat_tables::TABLE_LIMIT;

/// The fault that a check finds, of a message whose descriptors may not all find room among the imports: so the table
/// is not found full at one of them if a later check fails. Of other messages nothing is looked at, nor if memory runs
/// out.
pub(crate) fn foresee(store: &Store, alloc: Global, message: &Message) -> Result<(), Fault>
    requires sound { IsSound store.now }
    requires none_taken { store.now.waits.taken ≡ [] }
    ensures { IfErr result (λ f. fault_of (state_of store.now) message.now ≡ Some (fault_number f)) }
{
    faults_in_parts();
    flags_in_turn();
    if message.descriptors().len() <= TABLE_LIMIT.saturating_sub(store.imports.len()) {
        return Ok(());
    }
    fault_before(store, message)?;
    let Ok(found) = fault_of_all(store, alloc, message.descriptors()) else {
        return Ok(());
    };
    if let Some(fault) = found {
        return Err(fault);
    }
    fault_behind(store, message)?;
    match message {
        Message::Plain(PlainMessage::Return(said)) => foresee_flag(store, alloc, said),
        _ => Ok(()),
    }
}

// The fault of a Return's flag.
fn foresee_flag(store: &Store, alloc: Global, said: &Return) -> Result<(), Fault>
    ensures { IfErr result (λ f. flag_in_turn (state_of store.now).exports (if_flagged said.now.release_param_caps (given_with (map.get (state_of store.now).questions said.now.answer.0))) ≡ Some (fault_number f)) }
{
    if !said.release_param_caps {
        return Ok(());
    }
    let Some(question) = store.questions.get(said.answer) else {
        return Ok(());
    };
    let Ok(found) = fault_of_flag(store, alloc, &question.given) else {
        return Ok(());
    };
    match found {
        Some(fault) => Err(fault),
        None => Ok(()),
    }
}

// The first fault of descriptors. A vat of level 0 doesn't look at them.
fn fault_of_all(
    store: &Store,
    alloc: Global,
    descriptors: &[Descriptor],
) -> Result<Option<Fault>, Memory>
    ensures { IfOk result (λ found. number_of found ≡ descriptors_fault (state_of store.now) descriptors.now) }
{
    match store.level {
        Level::Zero => Ok(None),
        Level::One => {
            let found = first_fault(store, alloc, descriptors)?;
            Ok(found)
        }
    }
}

fn first_fault(
    store: &Store,
    alloc: Global,
    descriptors: &[Descriptor],
) -> Result<Option<Fault>, Memory>
    ensures { IfOk result (λ found. number_of found ≡ each_fault (state_of store.now) [] descriptors.now) }
{
    let mut kinds = Kinds::new(alloc);
    for descriptor in descriptors {
        let found = look_at(store, &mut kinds, *descriptor)?;
        if let Some(fault) = found {
            return Ok(Some(fault));
        }
    }
    Ok(None)
}

// The fault of a descriptor behind those that are known; if there is none it is known too.
fn look_at(
    store: &Store,
    kinds: &mut Kinds,
    descriptor: Descriptor,
) -> Result<Option<Fault>, Memory>
    ensures found { IfOk result (λ found. (before : List ADescriptor) → Knows (state_of store.now) before kinds.old → number_of found ≡ descriptor_fault (state_of store.now) before descriptor) }
    ensures knows { IfOk result (λ found. found ≡ None → (before : List ADescriptor) → Knows (state_of store.now) before kinds.old → Knows (state_of store.now) (descriptor ∷ before) kinds.new) }
{
    // A copy: what is passed by value can't be used again, though its type is `Copy`.
    let looked = descriptor;
    let Some((kind, id)) = given_by(descriptor) else {
        return Ok(found_by(store, looked));
    };
    let found = look_at_given(store, kinds, id, kind)?;
    Ok(found)
}

// The export that a descriptor gives, and as what.
fn given_by(descriptor: Descriptor) -> Option<(SenderKind, ExportId)>
    ensures given { IfSome result (λ given. descriptor ≡ given_as given.0 given.1) }
    ensures other { result ≡ None → IsOther descriptor }
{
    match descriptor {
        Descriptor::SenderHosted(id) => Some((SenderKind::Hosted, id)),
        Descriptor::SenderPromise(id) => Some((SenderKind::Promise, id)),
        Descriptor::None => None,
        Descriptor::ReceiverHosted(_) => None,
        Descriptor::ReceiverAnswer(_, _) => None,
    }
}

// The fault of a descriptor for which those before it don't matter.
fn found_by(store: &Store, descriptor: Descriptor) -> Option<Fault>
    ensures { number_of result ≡ descriptor_fault (state_of store.now) [] descriptor }
{
    match fault_of_descriptor(store, descriptor) {
        Ok(()) => None,
        Err(fault) => Some(fault),
    }
}

// The same of one that gives an export as that kind.
fn look_at_given(
    store: &Store,
    kinds: &mut Kinds,
    id: ExportId,
    kind: SenderKind,
) -> Result<Option<Fault>, Memory>
    ensures found { IfOk result (λ found. (before : List ADescriptor) → Knows (state_of store.now) before kinds.old → number_of found ≡ descriptor_fault (state_of store.now) before (given_as kind id)) }
    ensures knows { IfOk result (λ found. found ≡ None → (before : List ADescriptor) → Knows (state_of store.now) before kinds.old → Knows (state_of store.now) (given_as kind id ∷ before) kinds.new) }
{
    if kinds.clash(store, kind, id) {
        return Ok(Some(Fault::KindMismatch));
    }
    kinds.set(id, kind)?;
    Ok(None)
}
