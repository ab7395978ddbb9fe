//! The functions run no code: what each ensures is the law.

ghost use Rattle.laws_joined.specs.Sound.{JoinedRunsAreSound};

use laws_in_bytes::joined_runs_are_wired;
use laws_over_wires::wired_runs_are_sound;

/// Two new connections are joined by two streams of bytes, and Finishes go at once. Then what they do is, except for stamps, contents
/// and why nodes are broken, a run of two vats in one world, of which all holds that is promised.
pub fn joined_runs_are_sound()
    ensures { JoinedRunsAreSound }
{
    joined_runs_are_wired();
    wired_runs_are_sound();
}
