//! The capabilities of a payload, by the paths that lead to them.
ghost use Rattle.std.specs.Prelude.{◌≡◌, ◌<◌, ◌++◌, ◌∷◌, [], length, replicate, None, IfOk};
ghost use Rattle.rpc_msg.specs.Payloads.{tree_of};
ghost use Rattle.rpc_msg.specs.Op.TheVariants.{Field};
ghost use Rattle.capn_trees.specs.Views.{view, trees_view};
ghost use Rattle.peer_tail_calls.specs.Noting.{noted, noted_all};
ghost use Rattle.peer_tail_calls.specs.Paths.{finds, finds_each, AreShortest};

use rpc_msg::{Memory, Op, PATH_LIMIT, Path, Payload, Tree};
use std::alloc::Global;

/// The shortest path to each of the first so many capabilities of a payload, if one of at most 16 steps leads there.
pub(crate) fn shortest_paths(
    alloc: Global,
    payload: &Payload,
    count: usize,
) -> Result<Vec<Option<Path>>, Memory>
    ensures len { IfOk result (λ found. length found.items ≡ count) }
    ensures paths { IfOk result (λ found. AreShortest (tree_of payload.now) found.items) }
{
    let mut found = no_paths(alloc, count)?;
    let tree = payload.tree(alloc)?;
    note_tree(&tree, Path::root(), &mut found);
    Ok(found)
}

// None of so many capabilities is found so far.
#[tactic(auto, using(std::proofs::lemmas::List::replicate_more))]
fn no_paths(alloc: Global, count: usize) -> Result<Vec<Option<Path>>, Memory>
    ensures { IfOk result (λ found. found.items ≡ replicate count None) }
{
    let mut found = Vec::with_capacity(alloc, count)?;
    for _ in 0..count {
        found.push(None)?;
    }
    Ok(found)
}

// Notes the capabilities of a tree to which a path leads.
#[cycle(noting)]
fn note_tree(tree: &Tree, path: Path, found: &mut Vec<Option<Path>>)
    ensures { found.new.items ≡ noted_all found.old.items (finds path (view tree.now)) }
{
    match tree {
        Tree::Null => {}
        Tree::List(_) => {}
        Tree::Cap(index) => note(found, *index, path),
        Tree::Struct { words: _, pointers } => {
            if path.as_slice().len() == PATH_LIMIT {
                return;
            }
            note_each(pointers.as_slice(), path, found);
        }
    }
}

// Notes those that the pointers of a struct lead to.
#[cycle(noting)]
fn note_each(trees: &[Tree], path: Path, found: &mut Vec<Option<Path>>)
    requires { length path < 16 }
    ensures { found.new.items ≡ noted_all found.old.items (finds_each path 0 (trees_view trees.now)) }
{
    let mut number: u16 = 0;
    for tree in trees {
        note_tree(tree, with_field(path, number), found);
        let Some(next) = number.checked_add(1) else {
            return;
        };
        number = next;
    }
}

// Notes a path to a capability, unless one that is as short was noted before.
fn note(found: &mut Vec<Option<Path>>, index: u32, path: Path)
    ensures { found.new.items ≡ noted found.old.items (index, path) }
{
    let Some(kept) = found.get_mut(index as usize) else {
        return;
    };
    if let Some(before) = kept {
        if before.as_slice().len() <= path.as_slice().len() {
            return;
        }
    }
    *kept = Some(path);
}

// A path with one more step.
fn with_field(path: Path, number: u16) -> Path
    requires { length path < 16 }
    ensures { result ≡ path ++ Field number ∷ [] }
{
    let taken = path.as_slice();
    let len = taken.len();
    let mut ops = [Op::Noop; PATH_LIMIT];
    for index in 0..len {
        ops[index] = taken[index];
    }
    ops[len] = Op::Field(number);
    let Some(longer) = Path::from_ops(&ops[..len + 1]) else {
        unreachable!()
    };
    longer
}
