//! The functions run no code: what each ensures is the law.

ghost use Rattle.laws_sound.specs.Promised.{BootstrapsStay, EventsLeaveBootstraps, WorldsAreSound, WorldsKeepPromises};
ghost use Rattle.laws_sound.specs.Wrong.{WrongJournals};

use crate::every_run_is_sound;
use laws_runs::{calls_are_numbered, counts_agree_in_runs, meanings_last, quiet_when_down};
use laws_scenes::{calls_arrive_in_full, calls_keep_their_order, nothing_is_refused};
use rpc_machine::idle_is_none_pending;

/// All that is promised of runs (`IsSound`) is so of each world to which a run of two new vats leads, with the journal that tells
/// it, and with counts of both vats among its entries.
pub fn worlds_are_sound()
    ensures { WorldsAreSound }
{
    every_run_is_sound();
    meanings_last();
}

/// Each event leaves both vats their bootstrap objects, also one that takes a vat down. So the vats of such a world have those
/// with which they began.
pub fn bootstraps_stay()
    ensures worlds { BootstrapsStay }
    ensures events { EventsLeaveBootstraps }
{}

/// Of each such world with its journal: the calls delivered through a reference are a beginning of those made, in
/// order, each once. All are at the one object for which the reference stands, for good. All of them are delivered once
/// one was and none is pending, and also if none was if the reference stands for an object. Each delivery is of a call
/// as it was made. Each call ends once, as it was answered, or as its reference stands for broken. A vat that is down
/// delivers nothing. The counts of both vats agree. Each vat went down for a shut, for lack of room or memory, at the
/// limit of waiting calls, or as the other was down before.
pub fn worlds_keep_promises()
    ensures { WorldsKeepPromises }
{
    meanings_last();
    bootstraps_stay();
    worlds_are_sound();
    calls_keep_their_order();
    calls_are_numbered();
    calls_arrive_in_full();
    quiet_when_down();
    counts_agree_in_runs();
    nothing_is_refused();
    idle_is_none_pending();
}

/// Journals that are not promised. A call comes before one that was made before it, or without it, or twice, or nobody
/// made it. Two calls of a reference come to two objects, or one to a vat that is down. A message took a vat down, or
/// the Abort of one that is up did. A call comes to another object than its reference stands for, or with another
/// method. The only call is lost. A call ends though nobody answered it, or otherwise than it was answered, or twice.
pub fn wrong_journals_are_refused()
    ensures { WrongJournals }
{}
