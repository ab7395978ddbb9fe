ghost use Rattle.std.specs.Prelude.{◌≡◌, ◌≢◌, ◌+◌, ◌-◌, ◌<◌, ◌≤◌, [], None, Some, Err, IsOk, IfOk, OnOk, OnErr, length};
ghost use Rattle.std.specs.FinMap as map;
ghost use Rattle.rpc_machine.specs.declared.entries.Role.TheVariants as role;
ghost use Rattle.rpc_machine.specs.declared.entries.Finishing.TheVariants as finishing;
ghost use Rattle.rpc_machine.specs.declared.calls.OwnCall.TheVariants as own;
ghost use Rattle.rpc_machine.specs.Limits.{table_limit};
ghost use Rattle.rpc_machine.specs.Lists.{update};
ghost use Rattle.rpc_machine.specs.Messages.{waived};
ghost use Rattle.rpc_machine.specs.Places.{named_by_returned};
ghost use Rattle.core_store.specs.Holding.{state_of, IsSound};
ghost use Rattle.core_store.specs.Noted.{noted_of};
ghost use Rattle.core_store_tables.specs.Peer.{NewQuestion, NewQuestionFor, question_said, question_waived, close_question};

use crate::names::{count_returned, name_returned, note_relay, unname_returned};
use core_store::Store;
use rpc_machine::{Finishing, OwnCall, Question, Returned, Role};
use rpc_msg::{CallId, ExportId, Items, QuestionId};
use vat_tables::TableFault;

/// Asks a question for a kept outcome, by a Call that gives these exports: a new question, of which nothing was
/// returned and whose Finish is owed. `Full` at 4,096 questions, and only then; nothing is changed then. Takes no
/// memory, but one of the slack.
pub fn ask_relay(
    store: &mut Store,
    outcome: u64,
    given: Items<ExportId>,
) -> Result<QuestionId, TableFault>
    requires sound { IsSound store.old }
    requires slack { 0 < store.old.slack }
    ensures asked { IfOk result (λ q. NewQuestion (state_of store.old) q.0 (record { role = role.Relay outcome; given = given; returned = None; finish = finishing.Owed }) (state_of store.new)) }
    ensures left { OnOk result (store.new.slack ≡ store.old.slack - 1) }
    ensures waits { store.new.waits ≡ store.old.waits }
    ensures noted { noted_of store.new.names ≡ noted_of store.old.names }
    ensures sound { IsSound store.new }
    ensures at_limit { map.len (state_of store.old).questions ≡ table_limit → result ≡ Err TableFault.Full }
    ensures below { map.len (state_of store.old).questions ≢ table_limit → IsOk result }
    ensures same { OnErr result (store.new ≡ store.old) }
{
    let role = Role::Relay(outcome);
    if store.questions.is_full() {
        return Err(TableFault::Full);
    }
    let question = Question {
        role,
        given,
        returned: None,
        finish: Finishing::Owed,
    };
    let Ok(q) = store.questions.add(question) else {
        unreachable!()
    };
    store.added += 1;
    store.slack -= 1;
    Ok(q)
}

/// Asks a question for a call of the application that has no entry yet, by a Call that gives these exports, and enters
/// the call: a new question, of which nothing was returned and whose Finish is owed. `Full` at 4,096 questions, and
/// only then; nothing is changed then. Takes no memory, but one of the slack.
pub fn ask_direct(
    store: &mut Store,
    call: CallId,
    given: Items<ExportId>,
) -> Result<QuestionId, TableFault>
    requires sound { IsSound store.old }
    requires slack { 0 < store.old.slack }
    requires new { map.get (state_of store.old).calls call.0 ≡ None }
    requires counted { call.0 < store.old.next_call }
    ensures asked { IfOk result (λ q. NewQuestionFor (state_of store.old) call.0 q.0 (own.Direct q) (record { role = role.Direct call; given = given; returned = None; finish = finishing.Owed }) (state_of store.new)) }
    ensures left { OnOk result (store.new.slack ≡ store.old.slack - 1) }
    ensures waits { store.new.waits ≡ store.old.waits }
    ensures noted { noted_of store.new.names ≡ noted_of store.old.names }
    ensures sound { IsSound store.new }
    ensures at_limit { map.len (state_of store.old).questions ≡ table_limit → result ≡ Err TableFault.Full }
    ensures below { map.len (state_of store.old).questions ≢ table_limit → IsOk result }
    ensures same { OnErr result (store.new ≡ store.old) }
{
    if store.questions.is_full() {
        return Err(TableFault::Full);
    }
    let question = Question {
        role: Role::Direct(call),
        given,
        returned: None,
        finish: Finishing::Owed,
    };
    let Ok(q) = store.questions.add(question) else {
        unreachable!()
    };
    let Ok(()) = store.calls.add(call.0, OwnCall::Direct(q)) else {
        unreachable!()
    };
    store.added += 1;
    store.slack -= 1;
    Ok(q)
}

/// Keeps what the Return of a question said, in the place of what was said before, if the question is there. A relay's
/// question is noted. Takes no memory, but one of the slack, and one for each capability.
pub fn set_returned(store: &mut Store, q: QuestionId, said: Returned)
    requires sound { IsSound store.old }
    requires slack { length (named_by_returned (Some said)) + 1 ≤ store.old.slack }
    ensures state { state_of store.new ≡ record (state_of store.old) { questions = update (state_of store.old).questions q.0 (question_said said) } }
    ensures left { store.new.slack ≡ store.old.slack - (length (named_by_returned (Some said)) + 1) }
    ensures waits { store.new.waits ≡ store.old.waits }
    ensures sound { IsSound store.new }
{
    let spent = count_returned(&said) + 1;
    store.slack -= spent;
    store.added += spent as u64;
    let Some(question) = store.questions.get(q) else {
        return;
    };
    note_relay(&mut store.names, q, question.role);
    name_returned(&mut store.names, &said);
    unname_returned(&mut store.names, &question.returned);
    let Some(question) = store.questions.get_mut(q) else {
        unreachable!()
    };
    question.returned = Some(said);
}

/// No Finish is to be sent for the question any more, if one was still owed. Takes no memory.
pub fn waive(store: &mut Store, q: QuestionId)
    requires { IsSound store.old }
    ensures state { state_of store.new ≡ record (state_of store.old) { questions = update (state_of store.old).questions q.0 question_waived } }
    ensures left { store.new.slack ≡ store.old.slack }
    ensures waits { store.new.waits ≡ store.old.waits }
    ensures sound { IsSound store.new }
{
    let Some(question) = store.questions.get_mut(q) else {
        return;
    };
    question.finish = without_finish(question.finish);
}

fn without_finish(finish: Finishing) -> Finishing
    ensures { result ≡ waived finish }
{
    match finish {
        Finishing::Owed => Finishing::Waived,
        Finishing::Sent => Finishing::Sent,
        Finishing::Waived => Finishing::Waived,
    }
}

/// The Finish of the question was sent: the question goes, with what its Return named, if that came. Takes no memory.
#[inline(always)]
pub fn close(store: &mut Store, q: QuestionId)
    requires { IsSound store.old }
    ensures state { state_of store.new ≡ close_question (state_of store.old) q.0 (map.get (state_of store.old).questions q.0) }
    ensures left { store.new.slack ≡ store.old.slack }
    ensures waits { store.new.waits ≡ store.old.waits }
    ensures sound { IsSound store.new }
{
    let Some(question) = store.questions.get(q) else {
        return;
    };
    if question.returned.is_some() {
        drop_question(store, q);
        return;
    }
    let Some(question) = store.questions.get_mut(q) else {
        unreachable!()
    };
    question.finish = Finishing::Sent;
}

/// Drops a question, if it is there, with what its Return named, which is looked at where it stands. Takes no memory.
#[inline(always)]
pub fn drop_question(store: &mut Store, q: QuestionId)
    requires { IsSound store.old }
    ensures state { state_of store.new ≡ record (state_of store.old) { questions = map.remove (state_of store.old).questions q.0 } }
    ensures left { store.new.slack ≡ store.old.slack }
    ensures waits { store.new.waits ≡ store.old.waits }
    ensures sound { IsSound store.new }
{
    let Some(question) = store.questions.get(q) else {
        return;
    };
    unname_returned(&mut store.names, &question.returned);
    let _ = store.questions.close(q);
}

/// Takes out a question, if it is there, with what its Return named. Takes no memory.
pub fn forget_question(store: &mut Store, q: QuestionId) -> Option<Question>
    requires { IsSound store.old }
    ensures value { result ≡ map.get (state_of store.old).questions q.0 }
    ensures state { state_of store.new ≡ record (state_of store.old) { questions = map.remove (state_of store.old).questions q.0 } }
    ensures left { store.new.slack ≡ store.old.slack }
    ensures waits { store.new.waits ≡ store.old.waits }
    ensures sound { IsSound store.new }
{
    let question = store.questions.close(q)?;
    unname_returned(&mut store.names, &question.returned);
    Some(question)
}
