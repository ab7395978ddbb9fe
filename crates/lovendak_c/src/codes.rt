// What calls answer.
ghost use Rattle.std.specs.Prelude.{◌≡◌};
ghost use Rattle.lovendak_c.specs.Codes.{IsTold, bit, code_for, code_of};

use lovendak_c_desk::NotDone;

/// It is done.
pub(crate) const DONE: u32 = 0;

/// The handle is empty.
pub(crate) const EMPTY: u32 = 100;

/// The code of why a call is not done.
pub(crate) fn code_of(why: NotDone) -> u32
    ensures { result ≡ code_of why }
{
    match why {
        NotDone::Refused(refusal) => u32::from(refusal.code()),
        NotDone::Empty => EMPTY,
        NotDone::InUse => 101,
        NotDone::Malformed => 102,
        NotDone::NoRoom => 103,
        NotDone::Nothing => 104,
        NotDone::NoSuchNumber => 105,
    }
}

/// The code of a call that gives nothing.
pub(crate) fn done(answer: Result<(), NotDone>) -> u32
    ensures { result ≡ code_for answer }
{
    match answer {
        Ok(()) => DONE,
        Err(why) => code_of(why),
    }
}

/// The code of a call that gives something, which is put in its place; else the place stays as it is.
pub(crate) fn done_with<T: Copy>(answer: Result<T, NotDone>, place: &mut T) -> u32
    ensures { IsTold answer result place.old place.new }
{
    match answer {
        Ok(given) => {
            *place = given;
            DONE
        }
        Err(why) => code_of(why),
    }
}

/// 1 for yes.
pub(crate) fn bit(yes: bool) -> u32
    ensures { result ≡ bit yes }
{
    if yes { 1 } else { 0 }
}
