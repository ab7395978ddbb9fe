//! The descriptors that name a broken promise.
ghost use Rattle.std.specs.Prelude.{◌≡◌, ◌++◌, Bool, map, option_to_list, IfOk, OnOk};
ghost use Rattle.std.specs.List.{filter_map};
ghost use Rattle.rpc_msg.specs.declared.ids.ExportId.{ExportId};
ghost use Rattle.peer_broken.specs.Naming.{Tells, broken_name, has_some, heard_by, heard_descriptor};

use rpc_msg::{Descriptor, ExportId, Items, Memory};
use std::alloc::Global;

/// Whether one of these descriptors names a broken promise. Takes no memory.
pub(crate) fn some_broken<B: Fn(ExportId) -> bool>(
    descriptors: &[Descriptor],
    is_broken: &B,
) -> bool
    requires { B.IsAlwaysCallable is_broken.now }
    ensures { (broken : ExportId → Bool) → Tells (B.post is_broken.now) broken
        → result ≡ has_some (filter_map (broken_name broken) descriptors.now) }
{
    for descriptor in descriptors {
        if broken_name(*descriptor, is_broken).is_some() {
            return true;
        }
    }
    false
}

/// Descriptors as the vat hears of them, and the names that were among them.
#[derive(Drop)]
pub(crate) struct Parted {
    pub(crate) heard: Items<Descriptor>,
    pub(crate) names: Items<ExportId>,
}

/// What the vat hears of, and the names that it does not.
pub(crate) fn part<B: Fn(ExportId) -> bool>(
    alloc: Global,
    descriptors: &[Descriptor],
    is_broken: &B,
) -> Result<Parted, Memory>
    requires { B.IsAlwaysCallable is_broken.now }
    ensures { (broken : ExportId → Bool) → Tells (B.post is_broken.now) broken
        → IfOk result (λ p. (p.heard ≡ map (heard_descriptor broken) descriptors.now) × (p.names ≡ filter_map (broken_name broken) descriptors.now)) }
{
    let mut heard = Vec::with_capacity(alloc, descriptors.len())?;
    let mut names = Vec::new(alloc);
    for descriptor in descriptors {
        let name = broken_name(*descriptor, is_broken);
        heard.push(heard_by(name, *descriptor))?;
        note(&mut names, name)?;
    }
    Ok(Parted {
        heard: Items::from_vec(heard),
        names: Items::from_vec(names),
    })
}

fn note(names: &mut Vec<ExportId>, name: Option<ExportId>) -> Result<(), Memory>
    ensures { OnOk result (names.new.items ≡ names.old.items ++ option_to_list name) }
{
    let Some(name) = name else {
        return Ok(());
    };
    names.push(name)?;
    Ok(())
}

// The broken promise that a descriptor names.
fn broken_name<B: Fn(ExportId) -> bool>(descriptor: Descriptor, is_broken: &B) -> Option<ExportId>
    requires { B.IsAlwaysCallable is_broken.now }
    ensures { (broken : ExportId → Bool) → Tells (B.post is_broken.now) broken → result ≡ broken_name broken descriptor }
{
    match descriptor {
        Descriptor::SenderPromise(export) => {
            if is_broken(export) {
                return Some(export);
            }
            None
        }
        _ => None,
    }
}

fn heard_by(name: Option<ExportId>, descriptor: Descriptor) -> Descriptor
    ensures { result ≡ heard_by name descriptor }
{
    match name {
        Some(_) => Descriptor::None,
        None => descriptor,
    }
}
