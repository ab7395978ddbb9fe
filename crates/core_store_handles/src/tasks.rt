ghost use Rattle.std.specs.Prelude.{◌≡◌, ◌+◌, ◌-◌, ◌<◌};
ghost use Rattle.std.specs.FinMap as map;
ghost use Rattle.rpc_machine.specs.Limits.{number_limit};
ghost use Rattle.core_store.specs.Holding.{state_of, IsSound};
ghost use Rattle.core_store.specs.Noted.{noted_of};

use core_store::Store;
use rpc_msg::TaskId;

/// Makes a task for the application, whose answer is that outcome, and gives its number. Takes no memory, but one of
/// the slack.
pub fn add_task(store: &mut Store, outcome: u64) -> TaskId
    requires sound { IsSound store.old }
    requires slack { 0 < store.old.slack }
    requires number { store.old.next_task + 1 < number_limit }
    ensures value { result ≡ record { 0 = store.old.next_task } }
    ensures state { state_of store.new ≡ record (state_of store.old) { tasks = map.insert (state_of store.old).tasks store.old.next_task outcome; next_task = store.old.next_task + 1 } }
    ensures left { store.new.slack ≡ store.old.slack - 1 }
    ensures waits { store.new.waits ≡ store.old.waits }
    ensures noted { noted_of store.new.names ≡ noted_of store.old.names }
    ensures sound { IsSound store.new }
{
    let number = store.next_task;
    let Ok(()) = store.tasks.add(number, outcome) else {
        unreachable!()
    };
    store.next_task = number + 1;
    store.added += 1;
    store.slack -= 1;
    TaskId(number)
}

/// Takes out a task, if it is there, and gives its outcome. Takes no memory.
pub fn end_task(store: &mut Store, id: TaskId) -> Option<u64>
    requires { IsSound store.old }
    ensures value { result ≡ map.get (state_of store.old).tasks id.0 }
    ensures state { state_of store.new ≡ record (state_of store.old) { tasks = map.remove (state_of store.old).tasks id.0 } }
    ensures left { store.new.slack ≡ store.old.slack }
    ensures waits { store.new.waits ≡ store.old.waits }
    ensures sound { IsSound store.new }
{
    store.tasks.remove(id.0)
}
