ghost use Rattle.std.specs.Prelude.{◌≡◌, ◌+◌, ◌-◌, ◌≤◌, ◌<◌, [], ◌∷◌, ◌++◌, None, IsSome, length, vec_len, vec_capacity};
ghost use Rattle.std.specs.FinMap as map;
ghost use Rattle.rpc_machine.specs.Lists.{update};
ghost use Rattle.rpc_machine.specs.Limits.{number_limit, made_through};
ghost use Rattle.rpc_machine.specs.Messages.{unembargoed};
ghost use Rattle.rpc_machine.specs.Progress.{with_refs, new_refs};
ghost use Rattle.core_store.specs.Holding.{state_of, IsSound};
ghost use Rattle.core_store.specs.Noted.{noted_of};
ghost use Rattle.core_store_handles.specs.Changes.{headed_to, turned_under, counted_once};

use core_store::Store;
use rpc_machine::{Node, Reference};
use rpc_msg::{EmbargoId, RefId};

/// Makes a new reference that leads there, and gives its number. Takes no memory, but one of the slack.
pub fn add_ref(store: &mut Store, node: Node) -> RefId
    requires sound { IsSound store.old }
    requires slack { 0 < store.old.slack }
    requires number { store.old.next_ref + 1 < number_limit }
    ensures value { result ≡ record { 0 = store.old.next_ref } }
    ensures state { state_of store.new ≡ with_refs (state_of store.old) (node ∷ []) }
    ensures left { store.new.slack ≡ store.old.slack - 1 }
    ensures waits { store.new.waits ≡ store.old.waits }
    ensures noted { noted_of store.new.names ≡ noted_of store.old.names }
    ensures sound { IsSound store.new }
{
    // A copy: what is passed by value can't be used again, though its type is `Copy`.
    let head = node;
    let Ok(()) = store.names.add(node) else {
        unreachable!()
    };
    let number = store.next_ref;
    let reference = Reference {
        head,
        embargo: None,
        made: 0,
    };
    let Ok(()) = store.refs.add(number, reference) else {
        unreachable!()
    };
    store.next_ref = number + 1;
    store.added += 1;
    store.slack -= 1;
    RefId(number)
}

/// Makes a new reference to each of the nodes, and puts their numbers behind those of the list, which has room for
/// them. Takes no memory, but one of the slack for each.
pub fn add_refs(store: &mut Store, nodes: &[Node], ids: &mut Vec<RefId>)
    requires sound { IsSound store.old }
    requires slack { length nodes.now ≤ store.old.slack }
    requires number { store.old.next_ref + length nodes.now < number_limit }
    requires room { vec_len ids.old + length nodes.now ≤ vec_capacity ids.old }
    ensures ids { ids.new.items ≡ ids.old.items ++ new_refs store.old.next_ref nodes.now }
    ensures state { state_of store.new ≡ with_refs (state_of store.old) nodes.now }
    ensures left { store.new.slack ≡ store.old.slack - length nodes.now }
    ensures waits { store.new.waits ≡ store.old.waits }
    ensures noted { noted_of store.new.names ≡ noted_of store.old.names }
    ensures sound { IsSound store.new }
{
    for node in nodes {
        let id = add_ref(store, *node);
        let Ok(()) = ids.push(id) else { unreachable!() };
    }
}

/// Lets a reference that is there lead to another node. Takes no memory, but one of the slack.
pub fn set_head(store: &mut Store, id: RefId, node: Node)
    requires sound { IsSound store.old }
    requires there { IsSome (map.get (state_of store.old).refs id.0) }
    requires slack { 0 < store.old.slack }
    ensures state { state_of store.new ≡ record (state_of store.old) { refs = update (state_of store.old).refs id.0 (headed_to node) } }
    ensures left { store.new.slack ≡ store.old.slack - 1 }
    ensures waits { store.new.waits ≡ store.old.waits }
    ensures sound { IsSound store.new }
{
    // A copy: what is passed by value can't be used again, though its type is `Copy`.
    let head = node;
    let Some(reference) = store.refs.get_mut(id.0) else {
        unreachable!()
    };
    let before = reference.head;
    reference.head = head;
    let Ok(()) = store.names.add(node) else {
        unreachable!()
    };
    store.names.sub(before);
    store.added += 1;
    store.slack -= 1;
}

/// Lets a reference that is there lead to another node, and its calls wait under an embargo. Takes no memory, but one
/// of the slack.
pub fn turn_under(store: &mut Store, id: RefId, node: Node, embargo: EmbargoId)
    requires sound { IsSound store.old }
    requires there { IsSome (map.get (state_of store.old).refs id.0) }
    requires slack { 0 < store.old.slack }
    ensures state { state_of store.new ≡ record (state_of store.old) { refs = update (state_of store.old).refs id.0 (turned_under node embargo) } }
    ensures left { store.new.slack ≡ store.old.slack - 1 }
    ensures waits { store.new.waits ≡ store.old.waits }
    ensures sound { IsSound store.new }
{
    // A copy: what is passed by value can't be used again, though its type is `Copy`.
    let head = node;
    let Some(reference) = store.refs.get_mut(id.0) else {
        unreachable!()
    };
    let before = reference.head;
    reference.head = head;
    reference.embargo = Some(embargo);
    let Ok(()) = store.names.add(node) else {
        unreachable!()
    };
    store.names.sub(before);
    store.added += 1;
    store.slack -= 1;
}

/// Lets the calls of a reference, if it is there, wait under no embargo any more. Takes no memory.
pub fn lift_from(store: &mut Store, id: RefId)
    requires { IsSound store.old }
    ensures state { state_of store.new ≡ record (state_of store.old) { refs = update (state_of store.old).refs id.0 unembargoed } }
    ensures left { store.new.slack ≡ store.old.slack }
    ensures waits { store.new.waits ≡ store.old.waits }
    ensures sound { IsSound store.new }
{
    let Some(reference) = store.refs.get_mut(id.0) else {
        return;
    };
    reference.embargo = None;
}

/// Counts one more call that was made through a reference, if it is there. Takes no memory.
pub fn count_made(store: &mut Store, id: RefId)
    requires sound { IsSound store.old }
    requires number { made_through (map.get (state_of store.old).refs id.0) + 1 < number_limit }
    ensures state { state_of store.new ≡ record (state_of store.old) { refs = update (state_of store.old).refs id.0 counted_once } }
    ensures left { store.new.slack ≡ store.old.slack }
    ensures waits { store.new.waits ≡ store.old.waits }
    ensures noted { noted_of store.new.names ≡ noted_of store.old.names }
    ensures sound { IsSound store.new }
{
    let Some(reference) = store.refs.get_mut(id.0) else {
        return;
    };
    reference.made += 1;
}

/// Takes out a reference, if it is there: what its head is of is named once less. Takes no memory.
pub fn forget_ref(store: &mut Store, id: RefId) -> Option<Reference>
    requires { IsSound store.old }
    ensures value { result ≡ map.get (state_of store.old).refs id.0 }
    ensures state { state_of store.new ≡ record (state_of store.old) { refs = map.remove (state_of store.old).refs id.0 } }
    ensures left { store.new.slack ≡ store.old.slack }
    ensures waits { store.new.waits ≡ store.old.waits }
    ensures sound { IsSound store.new }
{
    let reference = store.refs.remove(id.0)?;
    store.names.sub(reference.head);
    Some(reference)
}

/// Puts back a reference that was taken out, under its number. Takes no memory, but one of the slack.
pub fn put_back_ref(store: &mut Store, id: RefId, reference: Reference)
    requires sound { IsSound store.old }
    requires slack { 0 < store.old.slack }
    requires free { map.get (state_of store.old).refs id.0 ≡ None }
    requires given { id.0 < store.old.next_ref }
    requires made { reference.made < number_limit }
    ensures state { state_of store.new ≡ record (state_of store.old) { refs = map.insert (state_of store.old).refs id.0 reference } }
    ensures left { store.new.slack ≡ store.old.slack - 1 }
    ensures waits { store.new.waits ≡ store.old.waits }
    ensures sound { IsSound store.new }
{
    let Ok(()) = store.names.add(reference.head) else {
        unreachable!()
    };
    let Ok(()) = store.refs.add(id.0, reference) else {
        unreachable!()
    };
    store.added += 1;
    store.slack -= 1;
}
