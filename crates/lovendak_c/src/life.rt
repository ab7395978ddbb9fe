ghost use Rattle.std.specs.Prelude.{◌≡◌};
ghost use Rattle.lovendak_c.specs.Calls.{FreesOn, MakesOn, root_of, AsksOn};
ghost use Rattle.lovendak_c_desk.specs.Commands.{ShutsWith};

use crate::codes::{DONE, EMPTY, done};
use crate::handle::Handle;
use lovendak_c_desk::{Desk, NotDone};
use rpc_msg::ObjectId;
use std::alloc::Global;

/// The version of this interface.
const VERSION: u32 = 2;

/// The version of the interface: 2.
#[unsafe(no_mangle)]
pub extern "C" fn lovendak_version() -> u32
    ensures { result ≡ 2 }
{
    VERSION
}

/// Puts a new vat into an empty handle: of that level, and with that bootstrap object if `has_root` is not 0. If the handle
/// has a vat (101), the level is neither 0 nor 1 (105), or memory is refused (1), the handle stays as it is.
#[unsafe(no_mangle)]
pub extern "C" fn lovendak_new(
    alloc: Global,
    vat: &mut Handle,
    level: u32,
    has_root: u32,
    root: u64,
) -> u32
    ensures { MakesOn vat.old.raw.desk vat.new.raw.desk result level (root_of has_root root) }
{
    if vat.is_full() {
        return done(Err(NotDone::InUse));
    }
    let made = match Desk::boxed(alloc, level, root_of(has_root, root)) {
        Ok(made) => made,
        Err(why) => return done(Err(why)),
    };
    *vat = Handle::of(made);
    DONE
}

// A bootstrap object, unless the first number is 0.
fn root_of(has_root: u32, root: u64) -> Option<ObjectId>
    ensures { result ≡ root_of has_root root }
{
    if has_root == 0 {
        return None;
    }
    Some(ObjectId(root))
}

/// Lets go of the vat and leaves the handle empty. An empty one (100) stays so.
#[unsafe(no_mangle)]
pub extern "C" fn lovendak_free(alloc: Global, vat: &mut Handle) -> u32
    ensures { FreesOn vat.old.raw.desk vat.new.raw.desk result }
{
    let Some(desk) = vat.take(alloc) else {
        return EMPTY;
    };
    drop(desk);
    DONE
}

/// Takes a vat that is up down with that number (105 if it is above 65,535). Its Abort is to be sent.
#[unsafe(no_mangle)]
pub extern "C" fn lovendak_shut(alloc: Global, vat: &mut Handle, number: u32) -> u32
    ensures { AsksOn vat.old.raw.desk vat.new.raw.desk result (Unit {0}) (λ old answer new. ShutsWith old number answer new) }
{
    let Some(mut desk) = vat.take(alloc) else {
        return EMPTY;
    };
    let answer = desk.shut(number);
    *vat = Handle::of(desk);
    done(answer)
}
