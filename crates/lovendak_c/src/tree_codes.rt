// What calls on trees answer.
ghost use Rattle.std.specs.Prelude.{◌≡◌};
ghost use Rattle.lovendak_c.specs.TreeCalls.{IsTold, code_for, code_of};

use crate::codes::DONE;
use lovendak_c_trees::TreeFault;

/// The handle has trees already.
pub(crate) const IN_USE: u32 = 101;

fn code_of(why: TreeFault) -> u32
    ensures { result ≡ code_of why }
{
    match why {
        TreeFault::Memory => 1,
        TreeFault::Full => 2,
        TreeFault::CapCount => 9,
        TreeFault::Malformed => 102,
        TreeFault::NoRoom => 103,
        TreeFault::Nothing => 104,
        TreeFault::NoSuchNumber => 105,
    }
}

/// The code of a call that gives nothing.
pub(crate) fn told(answer: Result<(), TreeFault>) -> u32
    ensures { result ≡ code_for answer }
{
    match answer {
        Ok(()) => DONE,
        Err(why) => code_of(why),
    }
}

/// The code of a call that gives something, which is put in its place; else the place stays as it is.
pub(crate) fn told_with<T: Copy>(answer: Result<T, TreeFault>, place: &mut T) -> u32
    ensures { IsTold answer result place.old place.new }
{
    match answer {
        Ok(given) => {
            *place = given;
            DONE
        }
        Err(why) => code_of(why),
    }
}
