ghost use Rattle.std.specs.Prelude.{◌≡◌, ◌≢◌, ◌+◌, ◌-◌, ◌<◌, ◌≤◌, None, Err, false, IsOk, OnOk, OnErr, length};
ghost use Rattle.std.specs.FinMap as map;
ghost use Rattle.rpc_machine.specs.Limits.{table_limit};
ghost use Rattle.rpc_machine.specs.Progress.{numbers};
ghost use Rattle.core_store.specs.Holding.{state_of, IsSound};
ghost use Rattle.core_store_tables.specs.Peer.{return_answer, finish_answer};

use crate::names::{name_imports, note_outcome, unname_answer};
use core_store::Store;
use rpc_machine::AnswerEntry;
use rpc_msg::{ExportId, Items, QuestionId};
use vat_tables::{TABLE_LIMIT, TableFault};

/// Opens an answer, of that outcome and to a Call that gave these imports. `Full` at 4,096 answers, and only then;
/// nothing is changed then. Takes no memory, but one of the slack, and one for each import.
pub fn open_answer(
    store: &mut Store,
    q: QuestionId,
    outcome: u64,
    taken: Items<ExportId>,
) -> Result<(), TableFault>
    requires sound { IsSound store.old }
    requires slack { length taken + 1 ≤ store.old.slack }
    requires new { map.get (state_of store.old).answers q.0 ≡ None }
    ensures ok { OnOk result (state_of store.new ≡ record (state_of store.old) { answers = map.insert (state_of store.old).answers q.0 (record { outcome = outcome; taken = taken; returned = None; finished = false }) }) }
    ensures left { OnOk result (store.new.slack ≡ store.old.slack - (length taken + 1)) }
    ensures waits { store.new.waits ≡ store.old.waits }
    ensures sound { IsSound store.new }
    ensures at_limit { map.len (state_of store.old).answers ≡ table_limit → result ≡ Err TableFault.Full }
    ensures below { map.len (state_of store.old).answers ≢ table_limit → IsOk result }
    ensures same { OnErr result (store.new ≡ store.old) }
{
    if store.answers.len() == TABLE_LIMIT {
        return Err(TableFault::Full);
    }
    let spent = taken.len() + 1;
    name_imports(&mut store.names, &taken);
    let answer = AnswerEntry {
        outcome,
        taken,
        returned: None,
        finished: false,
    };
    let Ok(()) = store.answers.add(q.0, answer) else {
        unreachable!()
    };
    store.added += spent as u64;
    store.slack -= spent;
    Ok(())
}

/// The Return of the answer was sent, with these exports: if its Finish came, the answer goes, and else it keeps their
/// ids and names its imports no more. Nothing is done if there is no such answer. Takes no memory, but one of the
/// slack.
pub fn set_answer_returned(store: &mut Store, q: QuestionId, ids: Items<ExportId>)
    requires sound { IsSound store.old }
    requires slack { 0 < store.old.slack }
    ensures state { state_of store.new ≡ return_answer (state_of store.old) q.0 (numbers ids) (map.get (state_of store.old).answers q.0) }
    ensures left { store.new.slack ≡ store.old.slack - 1 }
    ensures waits { store.new.waits ≡ store.old.waits }
    ensures sound { IsSound store.new }
{
    let Some(answer) = store.answers.get_mut(q.0) else {
        store.slack -= 1;
        return;
    };
    if answer.finished {
        forget_answer(store, q);
        return;
    }
    unname_answer(&mut store.names, answer);
    answer.returned = Some(ids);
    store.slack -= 1;
}

/// The Finish of the answer came: if its Return was sent, the answer goes. Nothing is done if there is no such
/// answer. Takes no memory, but one of the slack.
pub fn finish_answer(store: &mut Store, q: QuestionId)
    requires sound { IsSound store.old }
    requires slack { 0 < store.old.slack }
    ensures state { state_of store.new ≡ record (state_of store.old) { answers = finish_answer (state_of store.old).answers q.0 (map.get (state_of store.old).answers q.0) } }
    ensures left { store.new.slack ≡ store.old.slack - 1 }
    ensures waits { store.new.waits ≡ store.old.waits }
    ensures sound { IsSound store.new }
{
    let Some(answer) = store.answers.get(q.0) else {
        store.slack -= 1;
        return;
    };
    if answer.returned.is_some() {
        forget_answer(store, q);
        return;
    }
    let Some(answer) = store.answers.get_mut(q.0) else {
        unreachable!()
    };
    answer.finished = true;
    store.slack -= 1;
}

// Takes out an answer, with what it names; its outcome is noted, if no place names a field of it.
fn forget_answer(store: &mut Store, q: QuestionId)
    requires sound { IsSound store.old }
    requires slack { 0 < store.old.slack }
    ensures state { state_of store.new ≡ record (state_of store.old) { answers = map.remove (state_of store.old).answers q.0 } }
    ensures left { store.new.slack ≡ store.old.slack - 1 }
    ensures waits { store.new.waits ≡ store.old.waits }
    ensures sound { IsSound store.new }
{
    let Some(answer) = store.answers.close(q.0) else {
        store.slack -= 1;
        return;
    };
    note_outcome(&mut store.names, answer.outcome);
    unname_answer(&mut store.names, &answer);
    store.slack -= 1;
}
