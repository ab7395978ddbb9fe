ghost use Rattle.std.specs.Prelude.{◌≡◌, ◌≤◌, ◌∷◌, ◌++◌, [], List, None, Some, IsOk, OnOk};
ghost use Rattle.rpc_machine.specs.declared.node.Node.{Node};
ghost use Rattle.core_refcounts.specs.Names.{named_all, Counts};
ghost use Rattle.core_store.specs.Holding.{state_of, all_named};
ghost use Rattle.core_step_sweeps.specs.Thinking.{IsThought, IsStill, IsQuiet, work, asked_by, named_by_thing};

use crate::looseness::is_loose;
use crate::losses::lose;
use crate::thought::Thought;
use core_store::Store;
use rpc_machine::Node;
use rpc_msg::Memory;

// What the node is of goes in the thought, if it is loose by now.
pub(crate) fn consider(store: &Store, thought: &mut Thought, node: Node) -> Result<(), Memory>
    requires counted { Counts store.now.names (all_named store.now) }
    requires none_taken { store.now.waits.taken ≡ [] }
    ensures thought { OnOk result ((rest : List Node) → IsThought (state_of store.now) thought.old (node ∷ (rest ++ thought.old.pending.items)) → IsThought (state_of store.now) thought.new (rest ++ thought.new.pending.items)) }
    ensures less_work { OnOk result (IsThought (state_of store.now) thought.old (node ∷ thought.old.pending.items) → work (state_of store.now) thought.new ≤ work (state_of store.now) thought.old) }
    ensures never { IsQuiet (state_of store.now) → IsStill thought.old → IsOk result }
    ensures still { OnOk result (IsQuiet (state_of store.now) → IsStill thought.old → IsStill thought.new) }
{
    if thought.is_gone(&node)? {
        return Ok(());
    }
    if !is_loose(store, &thought.less, &node) {
        return Ok(());
    }
    let_go(store, thought, node)?;
    Ok(())
}

// What the node is of goes in the thought.
fn let_go(store: &Store, thought: &mut Thought, node: Node) -> Result<(), Memory>
    ensures gone { OnOk result (thought.new.gone.items ≡ thought.old.gone.items) }
    ensures last { OnOk result (thought.new.last ≡ Some node) }
    ensures marks { OnOk result (thought.new.marks ≡ thought.old.marks) }
    ensures over { OnOk result (thought.new.over.items ≡ thought.old.over.items ++ asked_by node) }
    ensures less { OnOk result (thought.new.less ≡ named_all thought.old.less (named_by_thing (state_of store.now) node)) }
    ensures pending { OnOk result (thought.new.pending.items ≡ thought.old.pending.items ++ named_by_thing (state_of store.now) node) }
{
    thought.last = Some(node);
    thought.ask(&node)?;
    lose(store, &mut thought.less, &mut thought.pending, &node)?;
    Ok(())
}
