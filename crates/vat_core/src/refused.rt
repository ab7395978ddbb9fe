ghost use Rattle.std.specs.Prelude.{◌≡◌};

use rpc_machine::Refusal;
use std::error::Error;
use std::fmt;

/// Why a command is refused, and what it was given, which is handed back. Nothing is changed.
#[derive(Drop)]
pub struct Refused<X> {
    pub refusal: Refusal,
    pub back: X,
}

// Its text is the refusal's, whatever is handed back.
impl<X> fmt::Display for Refused<X> {
    fn fmt<W: fmt::Write>(&self, f: &mut fmt::Formatter<W>) -> fmt::Result {
        write!(f, "{}", self.refusal)
    }
}

impl<X> fmt::Debug for Refused<X> {
    fn fmt<W: fmt::Write>(&self, f: &mut fmt::Formatter<W>) -> fmt::Result {
        write!(f, "{:?}", self.refusal)
    }
}

impl<X: Drop> Error for Refused<X> {}

/// Lets go of what is handed back.
impl<X: Drop> From<Refused<X>> for Refusal {
    ghost from_gives = { λ refused refusal. refusal ≡ refused.refusal };

    fn from(refused: Refused<X>) -> Refusal {
        refused.refusal
    }
}
