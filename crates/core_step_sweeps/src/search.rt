ghost use Rattle.std.specs.Prelude.{◌≡◌, ◌++◌, [], List, IsOk, OnOk};
ghost use Rattle.rpc_machine.specs.declared.node.Node.{Node};
ghost use Rattle.core_refcounts.specs.Names.{Counts};
ghost use Rattle.core_store.specs.Holding.{state_of, all_named};
ghost use Rattle.core_step_sweeps.specs.Thinking.{IsThought, IsStill, IsQuiet, nodes_of, promise_node, field_node, import_node, pipe_node};

use crate::candidates::consider;
use crate::thought::Thought;
use core_store::Store;
use rpc_machine::Node;
use rpc_msg::{ExportId, Memory, Path, QuestionId};

// The noted promises that are loose go in the thought.
pub(crate) fn consider_promises(store: &Store, thought: &mut Thought) -> Result<(), Memory>
    requires counted { Counts store.now.names (all_named store.now) }
    requires none_taken { store.now.waits.taken ≡ [] }
    ensures thought { OnOk result ((rest : List Node) → IsThought (state_of store.now) thought.old (nodes_of promise_node store.now.names.promises.noted ++ (rest ++ thought.old.pending.items)) → IsThought (state_of store.now) thought.new (rest ++ thought.new.pending.items)) }
    ensures never { IsQuiet (state_of store.now) → IsStill thought.old → IsOk result }
    ensures still { OnOk result (IsQuiet (state_of store.now) → IsStill thought.old → IsStill thought.new) }
{
    for key in store.names.noted_promises() {
        consider(store, thought, Node::Promise(*key))?;
    }
    Ok(())
}

// So do the outcomes.
pub(crate) fn consider_outcomes(store: &Store, thought: &mut Thought) -> Result<(), Memory>
    requires counted { Counts store.now.names (all_named store.now) }
    requires none_taken { store.now.waits.taken ≡ [] }
    ensures thought { OnOk result ((rest : List Node) → IsThought (state_of store.now) thought.old (nodes_of field_node store.now.names.outcomes.noted ++ (rest ++ thought.old.pending.items)) → IsThought (state_of store.now) thought.new (rest ++ thought.new.pending.items)) }
    ensures never { IsQuiet (state_of store.now) → IsStill thought.old → IsOk result }
    ensures still { OnOk result (IsQuiet (state_of store.now) → IsStill thought.old → IsStill thought.new) }
{
    for key in store.names.noted_outcomes() {
        consider(store, thought, Node::Field(*key, Path::root()))?;
    }
    Ok(())
}

// So do the imports.
pub(crate) fn consider_imports(store: &Store, thought: &mut Thought) -> Result<(), Memory>
    requires counted { Counts store.now.names (all_named store.now) }
    requires none_taken { store.now.waits.taken ≡ [] }
    ensures thought { OnOk result ((rest : List Node) → IsThought (state_of store.now) thought.old (nodes_of import_node store.now.names.imports.noted ++ (rest ++ thought.old.pending.items)) → IsThought (state_of store.now) thought.new (rest ++ thought.new.pending.items)) }
    ensures never { IsQuiet (state_of store.now) → IsStill thought.old → IsOk result }
    ensures still { OnOk result (IsQuiet (state_of store.now) → IsStill thought.old → IsStill thought.new) }
{
    for key in store.names.noted_imports() {
        consider(store, thought, Node::Import(ExportId(*key as u32)))?;
    }
    Ok(())
}

// So do the questions that are to be finished.
pub(crate) fn consider_questions(store: &Store, thought: &mut Thought) -> Result<(), Memory>
    requires counted { Counts store.now.names (all_named store.now) }
    requires none_taken { store.now.waits.taken ≡ [] }
    ensures thought { OnOk result ((rest : List Node) → IsThought (state_of store.now) thought.old (nodes_of pipe_node store.now.names.questions.noted ++ (rest ++ thought.old.pending.items)) → IsThought (state_of store.now) thought.new (rest ++ thought.new.pending.items)) }
    ensures never { IsQuiet (state_of store.now) → IsStill thought.old → IsOk result }
    ensures still { OnOk result (IsQuiet (state_of store.now) → IsStill thought.old → IsStill thought.new) }
{
    for key in store.names.noted_questions() {
        consider(
            store,
            thought,
            Node::Pipe(QuestionId(*key as u32), Path::root()),
        )?;
    }
    Ok(())
}
