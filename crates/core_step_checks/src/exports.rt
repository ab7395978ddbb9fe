ghost use Rattle.std.specs.Prelude.{◌≡◌, ◌≤◌, ◌∷◌, ◌++◌, [], List, true, false, if◌then◌else◌, option_to_list, IfSome, IfOk, IfErr, OnOk};
ghost use Rattle.std.specs.FinMap as map;
ghost use Rattle.rpc_machine.specs.declared.command.Refusal.TheVariants as refusal;
ghost use Rattle.rpc_machine.specs.declared.node.Node.{Node as ANode};
ghost use Rattle.rpc_machine.specs.Commands.{heads};
ghost use Rattle.rpc_machine.specs.Fullness.{is_exportable, going_out, exports_lack_room};
ghost use Rattle.rpc_machine.specs.Nodes.{settle};
ghost use Rattle.core_store.specs.Holding.{state_of, IsSound};
ghost use Rattle.core_step_checks.specs.Sending.{sent_out, times_among, Leaves, AreFar};
ghost use Rattle.core_step_checks.specs.Counted.{Counts};

use crate::ref_heads::head_of;
use crate::times::Times;
use core_store::{Store, settle};
use rpc_machine::{Node, Refusal};
use rpc_msg::{Memory, RefId};
use std::alloc::Global;
use vat_tables::TABLE_LIMIT;

// The node of which an export is made, or has one more on its count, when the reference is sent.
fn sent_node(store: &Store, id: RefId) -> Option<Node>
    requires sound { IsSound store.now }
    ensures sent { option_to_list result ≡ sent_out (state_of store.now) (id ∷ []) }
    ensures exportable { IfSome result (λ node. is_exportable node ≡ true) }
{
    let at = settle(store, head_of(store, id));
    match at {
        Node::Object(_) => Some(at),
        Node::Promise(_) => Some(at),
        Node::Field(_, _) => Some(at),
        Node::Import(_) => None,
        Node::Pipe(_, _) => None,
        Node::Broken(_) => None,
    }
}

// Whether the reference is sent as that node.
fn is_sent_as(store: &Store, id: RefId, node: &Node) -> bool
    requires sound { IsSound store.now }
    requires exportable { is_exportable node.now ≡ true }
    ensures { times_among node.now (sent_out (state_of store.now) (id ∷ [])) ≡ (if result then 1 else 0) }
{
    match sent_node(store, id) {
        Some(sent) => sent == *node,
        None => false,
    }
}

// How often a node is sent with these references.
fn times_sent(store: &Store, refs: &[RefId], node: &Node) -> usize
    requires sound { IsSound store.now }
    requires exportable { is_exportable node.now ≡ true }
    ensures times { result ≡ times_among node.now (sent_out (state_of store.now) refs.now) }
{
    let mut times = 0;
    for id in refs {
        if is_sent_as(store, *id, node) {
            times += 1;
        }
    }
    times
}

// How many exports there are once that reference is sent behind the others, if there were so many just before; none
// if it meets a limit.
fn size_behind(store: &Store, before: &[RefId], id: RefId, size: usize) -> Option<usize>
    requires sound { IsSound store.now }
    requires size { size ≤ TABLE_LIMIT }
    ensures within { IfSome result (λ next. next ≤ TABLE_LIMIT) }
    ensures leaves { Leaves (state_of store.now) (sent_out (state_of store.now) before.now) (sent_out (state_of store.now) (id ∷ [])) size result }
{
    let Some(node) = sent_node(store, id) else {
        return Some(size);
    };
    let times = times_sent(store, before, &node);
    let Some(next) = store.exports.size_after(&node, times, size) else {
        return None;
    };
    Some(next)
}

// The same if all that were sent before are counted; the node is counted with them. `Err` if memory runs out.
fn size_counted(
    store: &Store,
    times: &mut Times,
    id: RefId,
    size: usize,
) -> Result<Option<usize>, Memory>
    requires sound { IsSound store.now }
    requires size { size ≤ TABLE_LIMIT }
    ensures within { IfOk result (λ found. IfSome found (λ next. next ≤ TABLE_LIMIT)) }
    ensures leaves { IfOk result (λ found. (before : List ANode) → Counts times.old before → Leaves (state_of store.now) before (sent_out (state_of store.now) (id ∷ [])) size found) }
    ensures counts { OnOk result ((before : List ANode) → Counts times.old before → Counts times.new (before ++ sent_out (state_of store.now) (id ∷ []))) }
{
    let Some(node) = sent_node(store, id) else {
        return Ok(Some(size));
    };
    let before = times.count(&node)?;
    let found = store.exports.size_after(&node, before, size);
    Ok(found)
}

// Whether sending these references meets a limit of the exports: what was sent is counted by node. `Err` if memory runs
// out.
fn counted_lack(store: &Store, alloc: Global, refs: &[RefId]) -> Result<bool, Memory>
    requires { IsSound store.now }
    ensures { IfOk result (λ lack. lack ≡ exports_lack_room (state_of store.now) (sent_out (state_of store.now) refs.now)) }
{
    let mut times = Times::new(alloc);
    let mut size = store.exports.len();
    for id in refs {
        let found = size_counted(store, &mut times, *id, size)?;
        let Some(next) = found else {
            return Ok(true);
        };
        size = next;
    }
    Ok(false)
}

// The same in no memory: each is compared with those before it.
fn compared_lack(store: &Store, refs: &[RefId]) -> bool
    requires { IsSound store.now }
    ensures { result ≡ exports_lack_room (state_of store.now) (sent_out (state_of store.now) refs.now) }
{
    let mut size = store.exports.len();
    for (at, id) in refs.iter().enumerate() {
        let Some(next) = size_behind(store, &refs[..at], *id, size) else {
            return true;
        };
        size = next;
    }
    false
}

// Whether the export of a reference's node takes so many more on its count, and no limit is near.
fn is_far(store: &Store, id: RefId, more: usize) -> bool
    requires sound { IsSound store.now }
    requires more { more ≤ TABLE_LIMIT }
    ensures { result ≡ true → AreFar more (state_of store.now) (sent_out (state_of store.now) (id ∷ [])) }
{
    let Some(node) = sent_node(store, id) else {
        return true;
    };
    let Some(_next) = store.exports.size_after(&node, more, 0) else {
        return false;
    };
    true
}

// Whether so many exports find room, and one is far from its limit for each reference: then all can be sent, and no two
// have to be compared.
fn are_far(store: &Store, refs: &[RefId]) -> bool
    requires { IsSound store.now }
    ensures { result ≡ true → exports_lack_room (state_of store.now) (sent_out (state_of store.now) refs.now) ≡ false }
{
    if refs.len() > TABLE_LIMIT - store.exports.len() {
        return false;
    }
    for id in refs {
        if !is_far(store, *id, refs.len()) {
            return false;
        }
    }
    true
}

fn exports_lack(store: &Store, alloc: Global, refs: &[RefId]) -> bool
    requires { IsSound store.now }
    ensures { result ≡ exports_lack_room (state_of store.now) (sent_out (state_of store.now) refs.now) }
{
    match counted_lack(store, alloc, refs) {
        Ok(lack) => lack,
        Err(_) => compared_lack(store, refs),
    }
}

/// Whether the exports have room for these references in a message: `Full` if the table of exports, or the count of
/// one, would pass its limit, and only then. Near a limit it takes memory, to count what is sent; if that is refused,
/// references are compared with one another.
pub fn check_call_exports(store: &Store, alloc: Global, refs: &[RefId]) -> Result<(), Refusal>
    requires { IsSound store.now }
    ensures ok { OnOk result (exports_lack_room (state_of store.now) (going_out (state_of store.now) (heads (state_of store.now) refs.now)) ≡ false) }
    ensures err { IfErr result (λ r. (r ≡ refusal.Full) × (exports_lack_room (state_of store.now) (going_out (state_of store.now) (heads (state_of store.now) refs.now)) ≡ true)) }
{
    if are_far(store, refs) {
        return Ok(());
    }
    if exports_lack(store, alloc, refs) {
        return Err(Refusal::Full);
    }
    Ok(())
}
