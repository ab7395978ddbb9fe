//! Whether the exports that a command may want have a place.
ghost use Rattle.std.specs.Prelude.{◌≡◌};
ghost use Rattle.laws_places.specs.Wanted.{has_no_places, lacks_places};

use rpc_machine::Command;
use vat_core::Core;

// A vat has at most so many exports.
const MOST_EXPORTS: usize = 4096;

/// Whether the exports that an `Answer` or a `Resolve` may want by itself have no place. Constant work; takes no memory.
pub(crate) fn lacks_places(core: &Core, command: &Command) -> bool
    ensures { result ≡ lacks_places core.now command.now }
{
    match command {
        Command::Answer(_task, _payload, refs) => has_no_places(core, refs.len()),
        Command::Resolve(_promise, _reference) => has_no_places(core, 1),
        _other => false,
    }
}

// Whether so many more exports have no place.
fn has_no_places(core: &Core, more: usize) -> bool
    ensures { result ≡ has_no_places core.now more }
{
    match MOST_EXPORTS.checked_sub(core.table_sizes().exports) {
        None => true,
        Some(places) => more > places,
    }
}
