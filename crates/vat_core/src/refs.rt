ghost use Rattle.std.specs.Prelude.{◌≡◌, [], Ok, Err, IfOk, IfErr, OnErr};
ghost use Rattle.rpc_machine.specs.declared.command.Command.TheVariants as command;
ghost use Rattle.rpc_machine.specs.declared.command.Granted.TheVariants as granted;
ghost use Rattle.rpc_machine.specs.Progress.{quiet};
ghost use Rattle.rpc_machine.specs.Steps.{Obeys};
ghost use Rattle.vat_core.specs.Answers.{AnswersTo};

use crate::commands::Answer;
use crate::refused::Refused;
use crate::vat::Core;
use core_step_checks::{check_advance, check_clone_ref, check_drop_ref, check_field, check_host};
use rpc_journal::Advanced;
use rpc_machine::{Command, Effects, Granted, Refusal};
use rpc_msg::{CallId, Items, ObjectId, Op, RefId};

impl Core {
    /// Makes a reference to an object of the application: gives its number. Nothing is said. Refused, with nothing changed:
    /// `Down`; `Full` at the last number of a reference; `Memory`.
    pub fn host(&mut self, object: ObjectId) -> Result<RefId, Refusal>
        ensures unchanged { OnErr result (self.new ≡ self.old) }
        ensures done { IfOk result (λ id. Obeys self.old (command.Host object) (Ok (granted.Reference id)) quiet self.new) }
        ensures refused { IfErr result (λ r. Obeys self.old (command.Host object) (Err r) quiet self.new) }
    {
        check_host(&self.machine.step.store, object)?;
        let Ok(made) = core_steps::host(&mut self.machine, object) else {
            return Err(Refusal::Memory);
        };
        Ok(made)
    }

    pub(crate) fn obey_host(&mut self, object: ObjectId) -> Answer
        ensures { AnswersTo self.old (command.Host object) result self.new }
    {
        match self.host(object) {
            Ok(made) => Answer::Done(Granted::Reference(made), self.nothing()),
            Err(refusal) => Answer::Refused(refusal, Command::Host(object)),
        }
    }

    /// Makes a second reference with the same head as another: gives its number. Nothing is said. Refused, with nothing
    /// changed: `Down`; `UnknownRef`; `Full` at the last number of a reference; `Memory`.
    pub fn clone_ref(&mut self, id: RefId) -> Result<RefId, Refusal>
        ensures unchanged { OnErr result (self.new ≡ self.old) }
        ensures done { IfOk result (λ made. Obeys self.old (command.CloneRef id) (Ok (granted.Reference made)) quiet self.new) }
        ensures refused { IfErr result (λ r. Obeys self.old (command.CloneRef id) (Err r) quiet self.new) }
    {
        check_clone_ref(&self.machine.step.store, id)?;
        let Ok(made) = core_steps::clone_ref(&mut self.machine, id) else {
            return Err(Refusal::Memory);
        };
        Ok(made)
    }

    pub(crate) fn obey_clone_ref(&mut self, id: RefId) -> Answer
        ensures { AnswersTo self.old (command.CloneRef id) result self.new }
    {
        match self.clone_ref(id) {
            Ok(made) => Answer::Done(Granted::Reference(made), self.nothing()),
            Err(refusal) => Answer::Refused(refusal, Command::CloneRef(id)),
        }
    }

    /// Makes a reference to what stands at a path of the results of a call, which may not be there yet: gives its number.
    /// Nothing is said. Refused, with nothing changed and the path handed back: `Down`; `UnknownCall`, finished ones too;
    /// `LongPath` beyond 16 steps; `Full` at the last number of a reference; `Memory`.
    pub fn field(&mut self, id: CallId, path: Items<Op>) -> Result<RefId, Refused<Items<Op>>>
        ensures handed_back { IfErr result (λ e. e.back ≡ path) }
        ensures unchanged { OnErr result (self.new ≡ self.old) }
        ensures done { IfOk result (λ made. Obeys self.old (command.Field id path) (Ok (granted.Reference made)) quiet self.new) }
        ensures refused { IfErr result (λ e. Obeys self.old (command.Field id path) (Err e.refusal) quiet self.new) }
    {
        if let Err(refusal) = check_field(&self.machine.step.store, id, &path) {
            return Err(Refused {
                refusal,
                back: path,
            });
        }
        let Ok(made) = core_steps::field(&mut self.machine, id, &path) else {
            return Err(Refused {
                refusal: Refusal::Memory,
                back: path,
            });
        };
        Ok(made)
    }

    pub(crate) fn obey_field(&mut self, id: CallId, path: Items<Op>) -> Answer
        ensures { AnswersTo self.old (command.Field id path) result self.new }
    {
        match self.field(id, path) {
            Ok(made) => Answer::Done(Granted::Reference(made), self.nothing()),
            Err(Refused { refusal, back }) => Answer::Refused(refusal, Command::Field(id, back)),
        }
    }

    /// Makes a reference to what a call gives, if that is one capability, as `field` does with an empty path: gives its number.
    /// Nothing is said. Refused, with nothing changed: `Down`; `UnknownCall`, finished ones too; `Full` at the last number of
    /// a reference; `Memory`.
    pub fn result_of(&mut self, id: CallId) -> Result<RefId, Refusal>
        ensures unchanged { OnErr result (self.new ≡ self.old) }
        ensures done { IfOk result (λ made. Obeys self.old (command.Field id []) (Ok (granted.Reference made)) quiet self.new) }
        ensures refused { IfErr result (λ r. Obeys self.old (command.Field id []) (Err r) quiet self.new) }
    {
        let made = self.field(id, Items::new(self.machine.alloc))?;
        Ok(made)
    }

    /// Has no more use for a reference: gives what follows. Refused, with nothing changed: `Down`; `UnknownRef`; `Memory`.
    pub fn drop_ref(&mut self, id: RefId) -> Result<Effects, Refusal>
        ensures unchanged { OnErr result (self.new ≡ self.old) }
        ensures done { IfOk result (λ effects. Obeys self.old (command.DropRef id) (Ok granted.Done) effects self.new) }
        ensures refused { IfErr result (λ r. Obeys self.old (command.DropRef id) (Err r) quiet self.new) }
    {
        check_drop_ref(&self.machine.step.store, id)?;
        let Ok(effects) = core_steps::drop_ref(&mut self.machine, id) else {
            return Err(Refusal::Memory);
        };
        Ok(effects)
    }

    pub(crate) fn obey_drop_ref(&mut self, id: RefId) -> Answer
        ensures { AnswersTo self.old (command.DropRef id) result self.new }
    {
        match self.drop_ref(id) {
            Ok(effects) => Answer::Done(Granted::Done, effects),
            Err(refusal) => Answer::Refused(refusal, Command::DropRef(id)),
        }
    }

    /// Lets a reference take the shorter path to which its promise was resolved, if one is known: gives what became of it,
    /// and what follows. Refused, with nothing changed: `Down`; `Level` at level 0; `UnknownRef`; `Full` at 4,096 embargoes,
    /// if it would need one; `Memory`.
    pub fn advance(&mut self, id: RefId) -> Result<(Advanced, Effects), Refusal>
        ensures unchanged { OnErr result (self.new ≡ self.old) }
        ensures done { IfOk result (λ done. Obeys self.old (command.Advance id) (Ok (granted.Advanced done.0)) done.1 self.new) }
        ensures refused { IfErr result (λ r. Obeys self.old (command.Advance id) (Err r) quiet self.new) }
    {
        check_advance(&self.machine.step.store, id)?;
        let Ok(done) = core_steps::advance(&mut self.machine, id) else {
            return Err(Refusal::Memory);
        };
        Ok(done)
    }

    pub(crate) fn obey_advance(&mut self, id: RefId) -> Answer
        ensures { AnswersTo self.old (command.Advance id) result self.new }
    {
        match self.advance(id) {
            Ok((advanced, effects)) => Answer::Done(Granted::Advanced(advanced), effects),
            Err(refusal) => Answer::Refused(refusal, Command::Advance(id)),
        }
    }
}
