ghost use Rattle.std.specs.Prelude.{◌≡◌, ◌∷◌, None, Some, [], true, false, OnOk, IfErr};
ghost use Rattle.std.specs.FinMap as map;
ghost use Rattle.rpc_machine.specs.declared.fault.Fault.TheVariants as fault;
ghost use Rattle.rpc_machine.specs.Numbers.{fault_number};
ghost use Rattle.rpc_machine.specs.Faults.{same_kind, kind_clashes, descriptors_fault};
ghost use Rattle.core_store.specs.Holding.{state_of};
ghost use Rattle.core_step_checks.specs.Parts.{fault_alone, fault_of_one};

use core_store::Store;
use rpc_machine::{Fault, Level, SenderKind};
use rpc_msg::{Descriptor, ExportId, QuestionId};

/// Whether two kinds of a descriptor are one.
pub fn same_kind(kind: SenderKind, other: SenderKind) -> bool
    ensures { result ≡ same_kind kind other }
{
    match kind {
        SenderKind::Hosted => match other {
            SenderKind::Hosted => true,
            SenderKind::Promise => false,
        },
        SenderKind::Promise => match other {
            SenderKind::Hosted => false,
            SenderKind::Promise => true,
        },
    }
}

// An import of that id, if there is one, is of that kind and had no Resolve.
fn has_kind(store: &Store, kind: SenderKind, id: ExportId) -> Result<(), Fault>
    ensures ok { OnOk result (kind_clashes kind id.0 [] (map.get store.now.imports.entries id.0) ≡ false) }
    ensures err { IfErr result (λ f. (f ≡ fault.KindMismatch) × (kind_clashes kind id.0 [] (map.get store.now.imports.entries id.0) ≡ true)) }
{
    let Some(import) = store.imports.get(id.0) else {
        return Ok(());
    };
    if !same_kind(kind, import.kind) {
        return Err(Fault::KindMismatch);
    }
    match import.resolution {
        None => Ok(()),
        Some(_) => Err(Fault::KindMismatch),
    }
}

pub(crate) fn has_export(store: &Store, id: ExportId) -> Result<(), Fault>
    ensures ok { OnOk result (map.contains_key store.now.exports.entries id.0 ≡ true) }
    ensures err { IfErr result (λ f. (f ≡ fault.UnknownExport) × (map.contains_key store.now.exports.entries id.0 ≡ false)) }
{
    match store.exports.get(id) {
        Some(_) => Ok(()),
        None => Err(Fault::UnknownExport),
    }
}

pub(crate) fn has_answer(store: &Store, id: QuestionId) -> Result<(), Fault>
    ensures ok { OnOk result (map.contains_key store.now.answers.entries id.0 ≡ true) }
    ensures err { IfErr result (λ f. (f ≡ fault.UnknownAnswer) × (map.contains_key store.now.answers.entries id.0 ≡ false)) }
{
    match store.answers.get(id.0) {
        Some(_) => Ok(()),
        None => Err(Fault::UnknownAnswer),
    }
}

/// The fault of a descriptor, if those before it in its message were taken into the imports. So the first fault of all
/// is found in linear time (`descriptors_in_turn`). A vat of level 0 doesn't look at descriptors.
pub fn fault_of_descriptor(store: &Store, descriptor: Descriptor) -> Result<(), Fault>
    ensures ok { OnOk result (fault_alone (state_of store.now) descriptor ≡ None) }
    ensures err { IfErr result (λ f. fault_alone (state_of store.now) descriptor ≡ Some (fault_number f)) }
{
    match descriptor {
        Descriptor::None => Ok(()),
        Descriptor::SenderHosted(id) => has_kind(store, SenderKind::Hosted, id),
        Descriptor::SenderPromise(id) => has_kind(store, SenderKind::Promise, id),
        Descriptor::ReceiverHosted(id) => has_export(store, id),
        Descriptor::ReceiverAnswer(id, _) => has_answer(store, id),
    }
}

/// The fault of the only descriptor of a message.
pub fn fault_of_only(store: &Store, descriptor: Descriptor) -> Result<(), Fault>
    ensures ok { OnOk result (descriptors_fault (state_of store.now) (descriptor ∷ []) ≡ None) }
    ensures err { IfErr result (λ f. descriptors_fault (state_of store.now) (descriptor ∷ []) ≡ Some (fault_number f)) }
{
    match store.level {
        Level::Zero => Ok(()),
        Level::One => fault_of_descriptor(store, descriptor),
    }
}

/// The fault of giving back one more of an export by a flag, if the ids before it were given back. So the fault of all
/// is found in linear time (`flags_in_turn`).
pub fn fault_of_one(store: &Store, id: ExportId) -> Result<(), Fault>
    ensures ok { OnOk result (fault_of_one store.now.exports.entries id.0 ≡ None) }
    ensures err { IfErr result (λ f. fault_of_one store.now.exports.entries id.0 ≡ Some (fault_number f)) }
{
    let Some(export) = store.exports.get(id) else {
        return Err(Fault::OverRelease);
    };
    if export.count == 0 {
        Err(Fault::OverRelease)
    } else {
        Ok(())
    }
}
