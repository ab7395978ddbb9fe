ghost use Rattle.std.specs.Prelude.{◌≡◌, ℕ, Option, Some, IfErr};
ghost use Rattle.link_workers.specs.Playing.{Told, Commanded, Turned, Flushed};

use rpc_machine::{Command, Effects, Granted, Refusal};

/// One end of a pair, as its worker uses it. No call waits.
pub trait PairEnd: Drop {
    /// The second is the first, later: for an end with a log, nothing of it is lost.
    ghost same: { Self → Self → Type 0 };

    /// The second is the first, once it was asked for that and answered so.
    ghost steps: { Self → Told → Self → Type 0 };

    /// The number with which its vat is down.
    ghost down_by: { Self → Option ℕ };

    /// The number with which its vat is down, if it is down.
    fn down(&self) -> Option<u16>
        ensures { result ≡ down_by self.now };

    /// Has the vat obey a command: what it grants and what followed, or why it is refused.
    fn command(&mut self, command: Command) -> Result<(Granted, Effects), Refusal>
        ensures end { same self.old self.new }
        ensures step { steps self.old (Commanded command result) self.new };

    /// Takes a frame, if there is one: what came of it, or the number with which the vat is down then.
    fn turn(&mut self) -> Result<Option<Effects>, u16>
        ensures end { same self.old self.new }
        ensures step { steps self.old (Turned result) self.new }
        ensures down { IfErr result (λ number. down_by self.new ≡ Some number) };

    /// Sends frames that wait, while there is room for them.
    fn flush(&mut self)
        ensures end { same self.old self.new }
        ensures step { steps self.old Flushed self.new }
        ensures down { down_by self.new ≡ down_by self.old };

    /// Takes back the memory of effects that were looked at.
    fn recycle(&mut self, effects: Effects)
        ensures { self.new ≡ self.old };

    ghost same_self: { (x : Self) → same x x };

    ghost same_through: { (x y z : Self) → same x y → same y z → same x z };
}
