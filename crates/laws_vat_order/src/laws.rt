//! The functions run no code: what each ensures is the law.

ghost use Rattle.laws_vat_order.specs.Order.{WaitsOnce, NonePasses, CallsFollow};
ghost use Rattle.laws_vat_order.specs.Arriving.{Lands, Joins, ArrivalsKeepOrder};
ghost use Rattle.laws_vat_order.specs.Making.{MadeLands, MadeJoins, NoneGoesOut, StaysInLine, CallsKeepOrder};

use laws_steps::settled_stays;

/// In each state to which a vat comes, a call waits at one place at most.
pub fn waits_once()
    ensures { WaitsOnce }
{}

/// Of two calls in one line, the one behind does not pass the one ahead, in any step.
pub fn none_passes()
    ensures { NonePasses }
{}

/// A call that waits where a node leads waits where it leads after the next step too, or waits no more.
pub fn calls_follow()
    ensures { CallsFollow }
{
    settled_stays();
}

/// The calls that a peer aims at one target are delivered, or sent on, in the order in which they came, whatever else it
/// sends.
pub fn arrivals_keep_order()
    ensures lands { Lands }
    ensures joins { Joins }
    ensures order { ArrivalsKeepOrder }
{
    settled_stays();
}

/// The calls that an application makes through one reference are delivered, or go out, in the order in which they were made,
/// whatever the peer sends.
pub fn calls_keep_order()
    ensures lands { MadeLands }
    ensures joins { MadeJoins }
    ensures out { NoneGoesOut }
    ensures stays { StaysInLine }
    ensures order { CallsKeepOrder }
{
    settled_stays();
}
