//! The functions run no code: what each ensures is the law.

ghost use Rattle.rpc_machine.specs.Laws.{OfEachStep};
ghost use Rattle.laws_ends.specs.Names.{KeepsNames};
ghost use Rattle.laws_ends.specs.NewCores.{NewIsStart};
ghost use Rattle.laws_ends.specs.Overflows.{OverflowIsShut};

/// Each step leaves a core the vat that it is, its level and its bootstrap object, also one that takes it down.
pub fn names_stay()
    ensures { OfEachStep KeepsNames }
{}

/// A core that is new has the state with which its vat begins, at its level and with its bootstrap object.
pub fn new_is_start()
    ensures { NewIsStart }
{}

/// A command is done, and then there is no room to log it. A core that is shut after it is as if it had been shut in
/// its place. For nothing of a vat that is down is left but its vat, its level and its bootstrap object.
pub fn overflow_is_shut()
    ensures { OverflowIsShut }
{
    names_stay();
}
