ghost use Rattle.std.specs.Prelude.{◌≡◌, ◌<◌, IfOk};
ghost use Rattle.capn_writing.specs.Placing.{written};
ghost use Rattle.capn_trees.specs.Trees.{capability};
ghost use Rattle.capn_trees.specs.Views.{view};
ghost use Rattle.rpc_msg.specs.Payloads.{null_payload};
ghost use Rattle.script_language.specs.Carried.{caps_tree, carrying, script_exception};

use rpc_msg::{Exception, ExceptionKind, Memory, Payload, Pointers, Text, Tree};
use std::alloc::Global;

/// The payload that carries so many capabilities: null if there are none, of which this is one, else a struct without
/// data whose pointers they are. `Memory` if a growth was refused; no payload carries more than 65,535 so.
pub(crate) fn payload_carrying(
    alloc: Global,
    null: &Payload,
    caps: usize,
) -> Result<Payload, Memory>
    requires { null.now ≡ null_payload }
    ensures { IfOk result (λ payload. payload ≡ carrying caps) }
{
    if caps == 0 {
        return null.copy(alloc);
    }
    match u32::try_from(caps) {
        Ok(caps) => carry(alloc, caps),
        Err(_) => Err(Memory),
    }
}

fn carry(alloc: Global, caps: u32) -> Result<Payload, Memory>
    requires { 0 < caps }
    ensures { IfOk result (λ payload. payload ≡ carrying caps) }
{
    let tree = caps_tree(alloc, caps)?;
    write(alloc, &tree, caps)
}

fn write(alloc: Global, tree: &Tree, caps: u32) -> Result<Payload, Memory>
    ensures { IfOk result (λ payload. payload ≡ record { bytes = written (view tree.now); caps = caps }) }
{
    match Payload::write(alloc, tree, caps) {
        Ok(payload) => Ok(payload),
        Err(_) => Err(Memory),
    }
}

fn caps_tree(alloc: Global, caps: u32) -> Result<Tree, Memory>
    ensures { IfOk result (λ tree. view tree ≡ caps_tree caps) }
{
    let mut pointers = Pointers::new(alloc);
    for index in 0..caps {
        match pointers.push(capability(index)) {
            Ok(()) => {}
            Err(_) => return Err(Memory),
        }
    }
    Ok(Tree::Struct {
        words: Vec::new(alloc),
        pointers,
    })
}

fn capability(index: u32) -> Tree
    ensures { view result ≡ capability index }
{
    Tree::Cap(index)
}

/// Failed, `script`.
pub(crate) fn script_exception(alloc: Global) -> Result<Exception, Memory>
    ensures { IfOk result (λ exception. exception ≡ script_exception) }
{
    let reason = Text::new(alloc, "script")?;
    Ok(Exception {
        kind: ExceptionKind::Failed,
        reason,
    })
}
