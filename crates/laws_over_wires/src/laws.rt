//! The functions run no code: what each ensures is the law.

ghost use Rattle.laws_over_wires.specs.Sound.{WiredRunsAreSound};

use laws_sound::every_run_is_sound;
use laws_wired::wired_runs_are_runs;

/// What two new vats do over wires is, except for stamps, contents and why nodes are broken, a run of two vats in one world, of which
/// all holds that is promised.
pub fn wired_runs_are_sound()
    ensures { WiredRunsAreSound }
{
    every_run_is_sound();
    wired_runs_are_runs();
}
