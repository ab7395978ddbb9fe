ghost use Rattle.std.specs.Prelude.{◌≡◌, IfOk, IfErr};
ghost use Rattle.rpc_machine.specs.declared.command.Granted.{Granted};
ghost use Rattle.rpc_machine.specs.declared.command.Granted.TheVariants as granted;
ghost use Rattle.rpc_machine.specs.declared.command.Effects.{Effects};
ghost use Rattle.rpc_machine.specs.Progress.{quiet};
ghost use Rattle.link_sides.specs.Answer.TheVariants as answer;
ghost use Rattle.link_sides.specs.Sides.{IsQuiet};
ghost use Rattle.link_rings.specs.Ends.{IsSameEnd};
ghost use Rattle.link_ends.specs.Ends.{Takes};
ghost use Rattle.link_ends.specs.Commands.{Grants, IsAdvanced, IsCall, IsNone, IsPromise, IsReference};

use crate::ends::VatEnd;
use link_sides::{Answer, Refused};
use rpc_journal::Advanced;
use rpc_machine::{Command, Effects, Granted};
use rpc_msg::{CallId, PromiseId, RefId};

// Commands by what they grant.
impl<V> VatEnd<V> {
    // One that only makes a reference.
    pub(crate) fn ask_reference(&mut self, command: Command) -> Result<RefId, Refused<Command>>
        requires grants { (g : Granted) → Grants command g → IsReference g }
        requires says { (x : Effects) → IsQuiet command x → x ≡ quiet }
        ensures end { IsSameEnd self.old.end self.new.end }
        ensures done { IfOk result (λ made. Takes self.old.end command (answer.Done (granted.Reference made) quiet) self.new.end) }
        ensures refused { IfErr result (λ e. Takes self.old.end command (answer.Refused e.refusal command) self.new.end) }
        ensures handed_back { IfErr result (λ e. e.back ≡ command) }
    {
        match self.command(command) {
            Answer::Done(granted, effects) => {
                self.recycle(effects);
                Ok(reference_in(granted))
            }
            Answer::Refused(refusal, back) => Err(Refused { refusal, back }),
        }
    }

    // One that makes a call.
    pub(crate) fn ask_call(
        &mut self,
        command: Command,
    ) -> Result<(CallId, Effects), Refused<Command>>
        requires grants { (g : Granted) → Grants command g → IsCall g }
        ensures end { IsSameEnd self.old.end self.new.end }
        ensures done { IfOk result (λ done. Takes self.old.end command (answer.Done (granted.Call done.0) done.1) self.new.end) }
        ensures refused { IfErr result (λ e. Takes self.old.end command (answer.Refused e.refusal command) self.new.end) }
        ensures handed_back { IfErr result (λ e. e.back ≡ command) }
    {
        match self.command(command) {
            Answer::Done(granted, effects) => Ok((call_in(granted), effects)),
            Answer::Refused(refusal, back) => Err(Refused { refusal, back }),
        }
    }

    // One that grants nothing beside what follows.
    pub(crate) fn ask(&mut self, command: Command) -> Result<Effects, Refused<Command>>
        requires grants { (g : Granted) → Grants command g → IsNone g }
        ensures end { IsSameEnd self.old.end self.new.end }
        ensures done { IfOk result (λ effects. Takes self.old.end command (answer.Done granted.Done effects) self.new.end) }
        ensures refused { IfErr result (λ e. Takes self.old.end command (answer.Refused e.refusal command) self.new.end) }
        ensures handed_back { IfErr result (λ e. e.back ≡ command) }
    {
        match self.command(command) {
            Answer::Done(_, effects) => Ok(effects),
            Answer::Refused(refusal, back) => Err(Refused { refusal, back }),
        }
    }
}

fn reference_in(given: Granted) -> RefId
    requires { IsReference given }
    ensures { given ≡ granted.Reference result }
{
    match given {
        Granted::Reference(made) => made,
        _ => unreachable!(),
    }
}

fn call_in(given: Granted) -> CallId
    requires { IsCall given }
    ensures { given ≡ granted.Call result }
{
    match given {
        Granted::Call(id) => id,
        _ => unreachable!(),
    }
}

pub(crate) fn promise_in(given: Granted) -> (PromiseId, RefId)
    requires { IsPromise given }
    ensures { given ≡ granted.Promise result.0 result.1 }
{
    match given {
        Granted::Promise(promise, made) => (promise, made),
        _ => unreachable!(),
    }
}

pub(crate) fn advanced_in(given: Granted) -> Advanced
    requires { IsAdvanced given }
    ensures { given ≡ granted.Advanced result }
{
    match given {
        Granted::Advanced(advanced) => advanced,
        _ => unreachable!(),
    }
}
