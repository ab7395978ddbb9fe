ghost use Rattle.std.specs.Prelude.{◌≡◌, ◌==◌, MatchBool};
ghost use Rattle.std.specs.FinMap as map;
ghost use Rattle.rpc_machine.specs.Collecting.{CallerIsDone};
ghost use Rattle.core_refcounts.specs.Names.{times, times_named};
ghost use Rattle.core_store.specs.Holding.{state_of, IsFixed, IsTold, IsThere};
ghost use Rattle.core_step_sweeps.specs.Thinking.{IsLooseIf, IsToFinishIf};

use crate::tallies::Tallies;
use core_step_collects::is_told;
use core_store::Store;
use rpc_machine::{Finishing, Node, Role};
use rpc_msg::{ExportId, QuestionId};

// Whether what the node is of may go, except for the places that name it, and these are no more than went.
pub(crate) fn is_loose(store: &Store, less: &Tallies, node: &Node) -> bool
    ensures { MatchBool result (IsLooseIf (state_of store.now) (times_named store.now.names node.now == times_named less.now node.now) node.now) (¬ (IsLooseIf (state_of store.now) (times_named store.now.names node.now == times_named less.now node.now) node.now)) }
{
    match *node {
        Node::Object(_) => false,
        Node::Promise(key) => is_fixed(store, key) && is_unnamed(store, less, node),
        Node::Field(key, _) => is_told(store, key) && is_unnamed(store, less, node),
        Node::Import(id) => is_there(store, id) && is_unnamed(store, less, node),
        Node::Pipe(id, _) => is_to_finish(store, less, id),
        Node::Broken(_) => false,
    }
}

fn is_unnamed(store: &Store, less: &Tallies, node: &Node) -> bool
    ensures { result ≡ (times_named store.now.names node.now == times_named less.now node.now) }
{
    store.names.of_node(node) == less.of_node(node)
}

// Whether the promise is there and settled.
fn is_fixed(store: &Store, key: u64) -> bool
    ensures { MatchBool result (IsFixed (map.get (state_of store.now).promises key)) (¬ (IsFixed (map.get (state_of store.now).promises key))) }
{
    let Some(_) = store.waits.promise_link(key) else {
        return false;
    };
    true
}

fn is_there(store: &Store, id: ExportId) -> bool
    ensures { MatchBool result (IsThere (map.get (state_of store.now).imports id.0)) (¬ (IsThere (map.get (state_of store.now).imports id.0))) }
{
    let Some(_) = store.imports.get(id.0) else {
        return false;
    };
    true
}

// Whether the question is over, and its Finish was not sent.
fn is_to_finish(store: &Store, less: &Tallies, id: QuestionId) -> bool
    ensures { MatchBool result (IsToFinishIf (state_of store.now) (times store.now.names.questions.counts id.0 == times less.now.questions.counts id.0) (map.get (state_of store.now).questions id.0)) (¬ (IsToFinishIf (state_of store.now) (times store.now.names.questions.counts id.0 == times less.now.questions.counts id.0) (map.get (state_of store.now).questions id.0))) }
{
    let Some(question) = store.questions.get(id) else {
        return false;
    };
    if question.finish == Finishing::Sent {
        return false;
    }
    match question.role {
        Role::Relay(_) => question.returned.is_some(),
        Role::Direct(call) => {
            store.calls.get(call.0).is_none() && store.names.of_question(id) == less.of_question(id)
        }
    }
}
