ghost use Rattle.std.specs.Prelude.{◌≡◌, ◌<◌};
ghost use Rattle.rpc_machine.specs.Places.{named_by_value};
ghost use Rattle.rpc_machine.specs.Progress.{caps_of};
ghost use Rattle.core_store_waits.specs.Noting.{noted_unnamed};

use core_refcounts::Names;
use rpc_machine::{Node, Value};

/// The capabilities of a value. Takes no memory.
pub(crate) fn caps_of(value: &Value) -> &[Node]
    ensures { result.now ≡ caps_of value.now }
{
    match value {
        Value::Results(_, caps) => caps.as_slice(),
        Value::Exception(_) => &[],
    }
}

/// The capabilities of an outcome: none, until it is known. Takes no memory.
pub(crate) fn caps_if_known(value: &Option<Value>) -> &[Node]
    ensures { result.now ≡ named_by_value value.now }
{
    match value {
        Some(value) => caps_of(value),
        None => &[],
    }
}

/// Notes an outcome of which no field is named. Takes no memory.
pub(crate) fn note_unnamed(names: &mut Names, key: u64)
    requires { 0 < names.old.outcomes.spare }
    ensures { names.new ≡ noted_unnamed names.old key }
{
    if names.of_outcome(key) > 0 {
        return;
    }
    let Ok(()) = names.note_outcome(key) else {
        unreachable!()
    };
}
