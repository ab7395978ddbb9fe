ghost use Rattle.std.specs.Prelude.{◌≡◌, ◌∷◌, ◌++◌, [], IfOk, OnOk};
ghost use Rattle.rpc_msg.specs.Messages.{given};
ghost use Rattle.rpc_machine.specs.Descriptors.{read_one, read, read_all, read_beside, taken_of};
ghost use Rattle.rpc_machine.specs.Progress.{export_ids};
ghost use Rattle.core_store.specs.Holding.{state_of};

use core_step_checks::target_node;
use core_store::Store;
use rpc_machine::{Level, Node, Reason};
use rpc_msg::{Descriptor, ExportId, Items, Memory, Target};
use std::alloc::Global;

fn read_one(store: &Store, descriptor: Descriptor) -> Node
    ensures { result ≡ read_one (state_of store.now) descriptor }
{
    match descriptor {
        Descriptor::None => Node::Broken(Reason::NullCapability),
        Descriptor::SenderHosted(id) => Node::Import(id),
        Descriptor::SenderPromise(id) => Node::Import(id),
        Descriptor::ReceiverHosted(id) => target_node(store, &Target::ImportedCap(id)),
        Descriptor::ReceiverAnswer(id, path) => target_node(
            store,
            &Target::PromisedAnswer(id, path),
        ),
    }
}

/// What a received descriptor stands for; at a vat of level 0, nothing. Takes no memory.
pub fn read(store: &Store, descriptor: Descriptor) -> Node
    ensures { result ≡ read (state_of store.now) descriptor }
{
    match store.level {
        Level::Zero => Node::Broken(Reason::NullCapability),
        Level::One => read_one(store, descriptor),
    }
}

/// What received descriptors stand for, in memory of its own. `Err` for lack of memory.
pub fn read_all(
    store: &Store,
    alloc: Global,
    descriptors: &[Descriptor],
) -> Result<Items<Node>, Memory>
    ensures { IfOk result (λ nodes. nodes ≡ read_all (state_of store.now) descriptors.now) }
{
    let mut nodes = Items::from_vec(Vec::with_capacity(alloc, descriptors.len())?);
    for descriptor in descriptors {
        let Ok(()) = nodes.push(read(store, *descriptor)) else {
            return Err(Memory);
        };
    }
    Ok(nodes)
}

/// The same, each beside its descriptor. `Err` for lack of memory.
pub fn read_beside(
    store: &Store,
    alloc: Global,
    descriptors: &[Descriptor],
) -> Result<Items<(Descriptor, Node)>, Memory>
    ensures { IfOk result (λ caps. caps ≡ read_beside (state_of store.now) descriptors.now) }
{
    let mut caps = Items::from_vec(Vec::with_capacity(alloc, descriptors.len())?);
    for descriptor in descriptors {
        let Ok(()) = caps.push((*descriptor, read(store, *descriptor))) else {
            return Err(Memory);
        };
    }
    Ok(caps)
}

fn push_given(ids: &mut Items<ExportId>, descriptor: Descriptor) -> Result<(), Memory>
    ensures { OnOk result (ids.new ≡ ids.old ++ export_ids (given (descriptor ∷ []))) }
{
    let id = match descriptor {
        Descriptor::SenderHosted(id) => id,
        Descriptor::SenderPromise(id) => id,
        Descriptor::None => return Ok(()),
        Descriptor::ReceiverHosted(_) => return Ok(()),
        Descriptor::ReceiverAnswer(_, _) => return Ok(()),
    };
    match ids.push(id) {
        Ok(()) => Ok(()),
        Err(_) => Err(Memory),
    }
}

fn given_ids(alloc: Global, descriptors: &[Descriptor]) -> Result<Items<ExportId>, Memory>
    ensures { IfOk result (λ ids. ids ≡ export_ids (given descriptors.now)) }
{
    let mut ids = Items::new(alloc);
    for descriptor in descriptors {
        push_given(&mut ids, *descriptor)?;
    }
    Ok(ids)
}

/// The ids of the imports to which these descriptors add one; at a vat of level 0, none. `Err` for lack of memory.
pub fn taken_of(
    store: &Store,
    alloc: Global,
    descriptors: &[Descriptor],
) -> Result<Items<ExportId>, Memory>
    ensures { IfOk result (λ ids. ids ≡ export_ids (taken_of (state_of store.now) descriptors.now)) }
{
    match store.level {
        Level::Zero => Ok(Items::new(alloc)),
        Level::One => given_ids(alloc, descriptors),
    }
}
