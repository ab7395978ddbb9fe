//! The functions run no code: what each ensures is the law.

ghost use Rattle.laws_acts.specs.rpc_machine.specs.Laws.{OfEachStep};
ghost use Rattle.laws_steps.specs.Numbers.{NumbersRise, NumbersUsedOnce};
ghost use Rattle.laws_steps.specs.Settled.{SaysTheSame, LeadsOn, StaysSettled};
ghost use Rattle.laws_steps.specs.Room.{RoomIsExact};
ghost use Rattle.laws_steps.specs.NodesThere.{NodesAreThere, NodesThereInRuns, SettledForGood};

use laws_acts::rpc_machine::settles_where_it_leads;

/// References, calls, tasks and promises get numbers that only rise, in every step.
pub fn numbers_only_rise()
    ensures { OfEachStep NumbersRise }
{}

/// No reference, call, task or promise gets a number that was another's before: none has a number that is still to come,
/// and one that is gone does not come back.
pub fn numbers_used_once()
    ensures { NumbersUsedOnce }
{}

/// What is settled stays settled, and leads to the same place, in every step. What a settled promise or a known outcome
/// says does not change while it stands. So a node leads where it led before, if what places name is there.
pub fn settled_stays()
    ensures says { OfEachStep SaysTheSame }
    ensures leads { OfEachStep LeadsOn }
    ensures stays { OfEachStep StaysSettled }
{
    settles_where_it_leads();
}

/// In each state to which a vat comes, what every node is of that a place names is there. An import is there exactly if
/// a place names it, and calls and answers have what they wait for. It is so at both vats in every run of two. And so
/// in each step what is settled stays settled, at the same place.
pub fn nodes_are_there()
    ensures there { NodesAreThere }
    ensures runs { NodesThereInRuns }
    ensures settled { SettledForGood }
{
    settled_stays();
}

/// A Call finds room in the exports for its capabilities exactly if naming them, one after the other, passes no limit,
/// whichever free ids are picked: in each state in which no two exports stand for one node.
pub fn room_is_exact()
    ensures { RoomIsExact }
{}
