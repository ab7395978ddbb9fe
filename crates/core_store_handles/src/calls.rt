ghost use Rattle.std.specs.Prelude.{◌≡◌, ◌+◌, ◌-◌, ◌<◌, None};
ghost use Rattle.std.specs.FinMap as map;
ghost use Rattle.rpc_machine.specs.Limits.{number_limit};
ghost use Rattle.core_refcounts.specs.Names.{HasSpare};
ghost use Rattle.core_store.specs.Holding.{state_of, IsSound};
ghost use Rattle.core_store.specs.Noted.{noted_of};
ghost use Rattle.rpc_machine.specs.OwnCalls.{HasItsOwnAlone};
ghost use Rattle.core_store_handles.specs.Ends.{noted_for};

use core_refcounts::Names;
use core_store::Store;
use rpc_machine::OwnCall;
use rpc_msg::CallId;

/// Gives the next call its number. Takes no memory.
pub fn number_call(store: &mut Store) -> CallId
    requires sound { IsSound store.old }
    requires number { store.old.next_call + 1 < number_limit }
    ensures value { result ≡ record { 0 = store.old.next_call } }
    ensures state { state_of store.new ≡ record (state_of store.old) { next_call = store.old.next_call + 1 } }
    ensures left { store.new.slack ≡ store.old.slack }
    ensures waits { store.new.waits ≡ store.old.waits }
    ensures noted { noted_of store.new.names ≡ noted_of store.old.names }
    ensures sound { IsSound store.new }
{
    let number = store.next_call;
    store.next_call = number + 1;
    CallId(number)
}

/// Keeps where the outcome of a call comes from, under a number that was given out and has no entry. Takes no memory,
/// but one of the slack.
pub fn add_call(store: &mut Store, number: CallId, from: OwnCall)
    requires sound { IsSound store.old }
    requires slack { 0 < store.old.slack }
    requires free { map.get (state_of store.old).calls number.0 ≡ None }
    requires given { number.0 < store.old.next_call }
    ensures state { state_of store.new ≡ record (state_of store.old) { calls = map.insert (state_of store.old).calls number.0 from } }
    ensures left { store.new.slack ≡ store.old.slack - 1 }
    ensures waits { store.new.waits ≡ store.old.waits }
    ensures noted { noted_of store.new.names ≡ noted_of store.old.names }
    ensures sound { IsSound store.new }
{
    let Ok(()) = store.calls.add(number.0, from) else {
        unreachable!()
    };
    store.added += 1;
    store.slack -= 1;
}

/// Takes out a call, if it is there: the application is not told of it any more. Its question or its outcome is noted
/// if no place names it; the call may have no other. Takes no memory, but one of the slack, also if there is no
/// such call.
pub fn end_call(store: &mut Store, id: CallId) -> Option<OwnCall>
    requires sound { IsSound store.old }
    requires slack { 0 < store.old.slack }
    requires own { HasItsOwnAlone (state_of store.old) id.0 (map.get (state_of store.old).calls id.0) }
    ensures value { result ≡ map.get (state_of store.old).calls id.0 }
    ensures state { state_of store.new ≡ record (state_of store.old) { calls = map.remove (state_of store.old).calls id.0 } }
    ensures left { store.new.slack ≡ store.old.slack - 1 }
    ensures waits { store.new.waits ≡ store.old.waits }
    ensures sound { IsSound store.new }
{
    store.slack -= 1;
    let from = store.calls.remove(id.0)?;
    note_for(&mut store.names, from);
    Some(from)
}

// Notes what a call waited for, if no place names it.
fn note_for(names: &mut Names, from: OwnCall)
    requires { HasSpare 1 names.old }
    ensures { names.new ≡ noted_for names.old from }
{
    match from {
        OwnCall::Direct(question) => {
            if names.of_question(question) == 0 {
                let Ok(()) = names.note_question(question) else {
                    unreachable!()
                };
            }
        }
        OwnCall::Kept(outcome) => {
            if names.of_outcome(outcome) == 0 {
                let Ok(()) = names.note_outcome(outcome) else {
                    unreachable!()
                };
            }
        }
    }
}
