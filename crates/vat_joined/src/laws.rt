//! The functions run no code: what each ensures is the law.

ghost use Rattle.vat_joined.specs.Promised.{JoinedKeepPromises};
ghost use Rattle.vat_joined.specs.Logs.{LogsKeepPromises};

use laws_joined::joined_runs_are_sound;
use laws_sound::{bootstraps_stay, worlds_are_sound, worlds_keep_promises};

/// Whatever two connections do that are joined by two streams of bytes: there is a run of two vats in one world with the commands
/// of their applications, in order and with the same answers, which tells each application alike; and of each such run all is so that is
/// promised.
pub fn joined_keep_promises()
    ensures { JoinedKeepPromises }
{
    joined_runs_are_sound();
    worlds_keep_promises();
    worlds_are_sound();
    bootstraps_stay();
}

/// The same of two processes, each with a connection and a log of what it did with it. If there is an order of all that both did in which no
/// byte came before it was given, it is promised of what their applications did and were told.
pub fn logs_keep_promises()
    ensures { LogsKeepPromises }
{
    joined_keep_promises();
}
