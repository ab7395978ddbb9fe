ghost use Rattle.std.specs.Prelude.{◌≡◌, ◌≤◌, IsOk, OnOk};
ghost use Rattle.core_store.specs.Holding.{IsSound, HasRooms, IsSameButRoom};

use crate::store::Store;
use rpc_msg::Memory;

// What is reserved beyond what is asked, so that growth is rare.
const SPARE: usize = 16;

/// Makes room, so that so many more entries of every kind, and names, need no more memory; at once if there is
/// enough. `Err` if a growth was refused; there may be less room then. All else stays.
pub fn reserve(store: &mut Store, more: usize) -> Result<(), Memory>
    requires { IsSound store.old }
    ensures same { IsSameButRoom store.old store.new }
    ensures sound { IsSound store.new }
    ensures ok { OnOk result (more ≤ store.new.slack) }
    ensures had_room { more ≤ store.old.slack → IsOk result }
{
    if more <= store.slack {
        return Ok(());
    }
    let Some(slack) = more.checked_add(SPARE) else {
        return Err(Memory);
    };
    let Some(_) = store.added.checked_add(slack as u64) else {
        return Err(Memory);
    };
    store.slack = 0;
    make_room(store, slack)?;
    store.slack = slack;
    Ok(())
}

// Makes room in each table and for names.
fn make_room(store: &mut Store, more: usize) -> Result<(), Memory>
    ensures same { IsSameButRoom store.old store.new }
    ensures slack { store.new.slack ≡ store.old.slack }
    ensures ok { OnOk result (HasRooms more store.new) }
{
    store.questions.reserve(more)?;
    store.answers.reserve(more)?;
    store.imports.reserve(more)?;
    store.exports.reserve(more)?;
    store.refs.reserve(more)?;
    store.calls.reserve(more)?;
    store.tasks.reserve(more)?;
    store.unsettled.reserve(more)?;
    store.waits.reserve(more)?;
    store.names.reserve(more)
}
