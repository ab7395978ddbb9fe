//! The functions run no code: what each ensures is the law.

ghost use Rattle.laws_in_bytes.specs.Wired.{JoinedRunsAreWired};

use laws_ends::names_stay;
use laws_peers::fitting_names_are_alike;
use laws_read_back::frames_read_back;
use laws_scenes::nothing_is_refused;
use laws_understood::runs_send_what_is_understood;
use laws_wired::wired_runs_are_runs;

/// Two new connections are joined by two streams of bytes, however these are cut, and in whatever order the connections are worked.
/// Finishes go at once. Then what they do is a run of two vats over wires.
pub fn joined_runs_are_wired()
    ensures { JoinedRunsAreWired }
{
    peer_adapter::stands_aside();
    peer_large::stands_aside();
    frames_read_back();
    fitting_names_are_alike();
    wired_runs_are_runs();
    nothing_is_refused();
    runs_send_what_is_understood();
    names_stay();
}
