//! Payloads as they go to the peer: a pointer to a capability that is not there is null.
ghost use Rattle.std.specs.Prelude.{◌≡◌, map, IfOk};
ghost use Rattle.std.specs.List.{list_any};
ghost use Rattle.capn_trees.specs.Trees.{capability, list, packed};
ghost use Rattle.capn_writing.specs.Placing.{written};
ghost use Rattle.rpc_msg.specs.Payloads.{tree_of};
ghost use Rattle.capn_trees.specs.Views.{view, held, items_view, structs_view, trees_view};
ghost use Rattle.peer_tail_calls.specs.Nulling.{IsBodyLaidOut, IsPayloadLaidOut, is_absent, lacks, nulled, nulled_body, nulled_call, nulled_each, nulled_elements, nulled_payload, nulled_return, nulled_structs};

use capn_trees::{Element, Fields, Items as Elements, Pointers, make_fields};
use rpc_msg::{Call, Descriptor, Items, Memory, Payload, Return, ReturnBody, Tree};
use std::alloc::Global;

/// A Call as it goes to the peer.
pub(crate) fn null_call(alloc: Global, call: Call) -> Result<Call, Memory>
    ensures made { IfOk result (λ made. made ≡ nulled_call call) }
    ensures laid { IfOk result (λ made. IsPayloadLaidOut call.descriptors call.payload) }
{
    let Call {
        question,
        target,
        interface,
        method,
        payload,
        descriptors,
        stamp,
    } = call;
    let payload = null_payload(alloc, payload, &descriptors)?;
    Ok(Call {
        question,
        target,
        interface,
        method,
        payload,
        descriptors,
        stamp,
    })
}

/// A Return as it goes to the peer.
pub(crate) fn null_return(alloc: Global, said: Return) -> Result<Return, Memory>
    ensures made { IfOk result (λ made. made ≡ nulled_return said) }
    ensures laid { IfOk result (λ made. IsBodyLaidOut said.body) }
{
    let Return {
        answer,
        release_param_caps,
        body,
    } = said;
    let body = null_body(alloc, body)?;
    Ok(Return {
        answer,
        release_param_caps,
        body,
    })
}

fn null_body(alloc: Global, body: ReturnBody) -> Result<ReturnBody, Memory>
    ensures made { IfOk result (λ made. made ≡ nulled_body body) }
    ensures laid { IfOk result (λ made. IsBodyLaidOut body) }
{
    match body {
        ReturnBody::Results(payload, descriptors) => {
            let payload = null_payload(alloc, payload, &descriptors)?;
            Ok(ReturnBody::Results(payload, descriptors))
        }
        ReturnBody::Exception(exception) => Ok(ReturnBody::Exception(exception)),
        ReturnBody::Canceled => Ok(ReturnBody::Canceled),
    }
}

/// Looks whether the outcome of a tail call can be laid out without the capabilities that are not there, as that of any other
/// call that goes to the peer.
#[cold]
#[inline(never)]
pub(crate) fn try_body(alloc: Global, body: &ReturnBody) -> Result<(), Memory>
    ensures { IfOk result (λ u. IsBodyLaidOut body.now) }
{
    let body = body.copy(alloc)?;
    null_body(alloc, body)?;
    Ok(())
}

fn null_payload(
    alloc: Global,
    payload: Payload,
    descriptors: &Items<Descriptor>,
) -> Result<Payload, Memory>
    ensures made { IfOk result (λ made. made ≡ nulled_payload descriptors.now payload) }
    ensures laid { IfOk result (λ made. IsPayloadLaidOut descriptors.now payload) }
{
    let rows = descriptors.as_slice();
    if !some_absent(rows) {
        return Ok(payload);
    }
    lay_out(alloc, &payload, rows)
}

// The payload, laid out anew.
#[cold]
#[inline(never)]
fn lay_out(alloc: Global, payload: &Payload, descriptors: &[Descriptor]) -> Result<Payload, Memory>
    ensures made { IfOk result (λ made. made ≡ record { bytes = written (nulled descriptors.now (tree_of payload.now)); caps = payload.now.caps }) }
    ensures tree { IfOk result (λ made. tree_of made ≡ nulled descriptors.now (tree_of payload.now)) }
{
    let tree = payload.tree(alloc)?;
    let tree = null_tree(alloc, &tree, descriptors)?;
    match Payload::write(alloc, &tree, payload.caps()) {
        Ok(payload) => Ok(payload),
        Err(_) => Err(Memory),
    }
}

fn some_absent(descriptors: &[Descriptor]) -> bool
    ensures { result ≡ list_any is_absent descriptors.now }
{
    for descriptor in descriptors {
        if is_absent(descriptor) {
            return true;
        }
    }
    false
}

fn is_absent(descriptor: &Descriptor) -> bool
    ensures { result ≡ is_absent descriptor.now }
{
    matches!(descriptor, Descriptor::None)
}

// A tree again, with null in place of the pointers to capabilities that are not there.
#[cycle(nulling)]
fn null_tree(alloc: Global, tree: &Tree, descriptors: &[Descriptor]) -> Result<Tree, Memory>
    ensures { IfOk result (λ made. view made ≡ nulled descriptors.now (view tree.now)) }
{
    match tree {
        Tree::Null => Ok(Tree::Null),
        Tree::Cap(index) => Ok(null_capability(*index, descriptors)),
        Tree::Struct { words, pointers } => {
            let words = Vec::from_slice(alloc, words.as_slice())?;
            let pointers = null_pointers(alloc, pointers, descriptors)?;
            Ok(Tree::Struct { words, pointers })
        }
        Tree::List(items) => null_list(alloc, items, descriptors),
    }
}

fn null_capability(index: u32, descriptors: &[Descriptor]) -> Tree
    ensures { view result ≡ nulled descriptors.now (capability index) }
{
    if lacks(descriptors, index) {
        return Tree::Null;
    }
    Tree::Cap(index)
}

fn lacks(descriptors: &[Descriptor], index: u32) -> bool
    ensures { result ≡ lacks descriptors.now index }
{
    descriptors.get(index as usize).is_some_and(is_absent)
}

fn copy_elements<E: Element>(alloc: Global, elements: &[E]) -> Result<Tree, Memory>
    ensures { IfOk result (λ copy. view copy ≡ list (packed E.BITS (map E.said elements.now))) }
{
    let copy = Vec::from_slice(alloc, elements)?;
    Ok(Tree::List(E::list(copy)))
}

// The list of these elements.
#[cycle(nulling)]
fn null_list(alloc: Global, items: &Elements, descriptors: &[Descriptor]) -> Result<Tree, Memory>
    ensures { IfOk result (λ made. view made ≡ list (nulled_elements descriptors.now (items_view items.now))) }
{
    match items {
        Elements::Void(count) => Ok(Tree::List(Elements::Void(*count))),
        Elements::Bits(bits) => copy_elements(alloc, bits.as_slice()),
        Elements::Bytes(bytes) => copy_elements(alloc, bytes.as_slice()),
        Elements::Twos(twos) => copy_elements(alloc, twos.as_slice()),
        Elements::Fours(fours) => copy_elements(alloc, fours.as_slice()),
        Elements::Eights(eights) => copy_elements(alloc, eights.as_slice()),
        Elements::Pointers(pointers) => {
            let pointers = null_pointers(alloc, pointers, descriptors)?;
            Ok(Tree::List(Elements::Pointers(pointers)))
        }
        Elements::Structs {
            data_words,
            pointer_words,
            items,
        } => {
            let items = null_structs(alloc, items.as_slice(), descriptors)?;
            Ok(Tree::List(Elements::Structs {
                data_words: *data_words,
                pointer_words: *pointer_words,
                items,
            }))
        }
    }
}

#[cycle(nulling)]
fn null_structs(
    alloc: Global,
    items: &[Fields],
    descriptors: &[Descriptor],
) -> Result<Vec<Fields>, Memory>
    ensures { IfOk result (λ made. structs_view made.items ≡ nulled_structs descriptors.now (structs_view items.now)) }
{
    let mut made = Vec::with_capacity(alloc, items.len())?;
    for item in items {
        let words = Vec::from_slice(alloc, item.words.as_slice())?;
        let pointers = null_pointers(alloc, &item.pointers, descriptors)?;
        made.push(make_fields(words, pointers))?;
    }
    Ok(made)
}

#[cycle(nulling)]
fn null_pointers(
    alloc: Global,
    pointers: &Pointers,
    descriptors: &[Descriptor],
) -> Result<Pointers, Memory>
    ensures { IfOk result (λ made. trees_view (held made) ≡ nulled_each descriptors.now (trees_view (held pointers.now))) }
{
    let trees = pointers.as_slice();
    let mut made = Pointers::new(alloc);
    for tree in trees {
        // No tree of a payload is too deep.
        let Ok(()) = made.push(null_tree(alloc, tree, descriptors)?) else {
            return Err(Memory);
        };
    }
    Ok(made)
}
