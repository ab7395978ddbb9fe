ghost use Rattle.std.specs.Prelude.{◌≡◌, ◌++◌, [], ◌∷◌, IfOk, OnOk};
ghost use Rattle.rpc_msg.specs.Messages.{descriptors_of, given};
ghost use Rattle.rpc_check.specs.Counts.{handed_on, one_each};

use rpc_msg::{Descriptor, ExportId, Items, Memory, Message};
use std::alloc::Global;

/// The exports of its sender that a message hands on.
pub(crate) fn handed_on(alloc: Global, message: &Message) -> Result<Items<(ExportId, u32)>, Memory>
    ensures { IfOk result (λ ids. ids ≡ handed_on message.now) }
{
    handed_on_by(alloc, message.descriptors())
}

fn handed_on_by(alloc: Global, descriptors: &[Descriptor]) -> Result<Items<(ExportId, u32)>, Memory>
    ensures { IfOk result (λ ids. ids ≡ one_each (given descriptors.now)) }
{
    let mut ids = Items::new(alloc);
    for descriptor in descriptors {
        hand_on(&mut ids, descriptor)?;
    }
    Ok(ids)
}

fn hand_on(ids: &mut Items<(ExportId, u32)>, descriptor: &Descriptor) -> Result<(), Memory>
    ensures { OnOk result (ids.new ≡ ids.old ++ one_each (given (descriptor.now ∷ []))) }
{
    match descriptor {
        Descriptor::SenderHosted(id) => put(ids, *id),
        Descriptor::SenderPromise(id) => put(ids, *id),
        _ => Ok(()),
    }
}

fn put(ids: &mut Items<(ExportId, u32)>, id: ExportId) -> Result<(), Memory>
    ensures { OnOk result (ids.new ≡ ids.old ++ (id, 1) ∷ []) }
{
    match ids.push((id, 1)) {
        Ok(()) => return Ok(()),
        Err(_) => return Err(Memory),
    }
}
