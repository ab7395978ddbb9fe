ghost use Rattle.std.specs.Prelude.{◌≡◌, [], IfOk, IfErr};
ghost use Rattle.rpc_machine.specs.declared.command.Command.TheVariants as command;
ghost use Rattle.rpc_machine.specs.declared.command.Granted.TheVariants as granted;
ghost use Rattle.rpc_machine.specs.Progress.{quiet};
ghost use Rattle.link_sides.specs.Answer.TheVariants as answer;
ghost use Rattle.link_rings.specs.Ends.{IsSameEnd};
ghost use Rattle.link_ends.specs.Ends.{Takes};

use crate::ends::VatEnd;
use crate::granted::advanced_in;
use link_sides::{Answer, Refused};
use rpc_journal::Advanced;
use rpc_machine::{Command, Effects, Refusal};
use rpc_msg::{CallId, Items, ObjectId, Op, RefId};
use std::alloc::Global;

impl<V> VatEnd<V> {
    /// Makes a reference to an object of the application: gives its number. Refused as `Core::host` is, or with `Down`.
    pub fn host(&mut self, object: ObjectId) -> Result<RefId, Refusal>
        ensures end { IsSameEnd self.old.end self.new.end }
        ensures done { IfOk result (λ id. Takes self.old.end (command.Host object) (answer.Done (granted.Reference id) quiet) self.new.end) }
        ensures refused { IfErr result (λ r. Takes self.old.end (command.Host object) (answer.Refused r (command.Host object)) self.new.end) }
    {
        match self.ask_reference(Command::Host(object)) {
            Ok(made) => Ok(made),
            Err(refused) => Err(refused.refusal),
        }
    }

    /// Makes a second reference with the same head as another: gives its number. Refused as `Core::clone_ref` is, or with `Down`.
    pub fn clone_ref(&mut self, id: RefId) -> Result<RefId, Refusal>
        ensures end { IsSameEnd self.old.end self.new.end }
        ensures done { IfOk result (λ made. Takes self.old.end (command.CloneRef id) (answer.Done (granted.Reference made) quiet) self.new.end) }
        ensures refused { IfErr result (λ r. Takes self.old.end (command.CloneRef id) (answer.Refused r (command.CloneRef id)) self.new.end) }
    {
        match self.ask_reference(Command::CloneRef(id)) {
            Ok(made) => Ok(made),
            Err(refused) => Err(refused.refusal),
        }
    }

    /// Makes a reference to what stands at a path of the results of a call: gives its number. Refused as `Core::field` is, or
    /// with `Down`; then the path is handed back.
    pub fn field(&mut self, id: CallId, path: Items<Op>) -> Result<RefId, Refused<Items<Op>>>
        ensures handed_back { IfErr result (λ e. e.back ≡ path) }
        ensures end { IsSameEnd self.old.end self.new.end }
        ensures done { IfOk result (λ made. Takes self.old.end (command.Field id path) (answer.Done (granted.Reference made) quiet) self.new.end) }
        ensures refused { IfErr result (λ e. Takes self.old.end (command.Field id path) (answer.Refused e.refusal (command.Field id path)) self.new.end) }
    {
        match self.ask_reference(Command::Field(id, path)) {
            Ok(made) => Ok(made),
            Err(
                Refused {
                    refusal,
                    back: Command::Field(_, back),
                },
            ) => Err(Refused { refusal, back }),
            Err(_) => unreachable!(),
        }
    }

    /// Makes a reference to what a call gives, if that is one capability, as `field` does with an empty path: gives its number.
    /// Refused as `Core::result_of` is, or with `Down`.
    pub fn result_of(&mut self, alloc: Global, id: CallId) -> Result<RefId, Refusal>
        ensures end { IsSameEnd self.old.end self.new.end }
        ensures done { IfOk result (λ made. Takes self.old.end (command.Field id []) (answer.Done (granted.Reference made) quiet) self.new.end) }
        ensures refused { IfErr result (λ r. Takes self.old.end (command.Field id []) (answer.Refused r (command.Field id [])) self.new.end) }
    {
        match self.field(id, Items::new(alloc)) {
            Ok(made) => Ok(made),
            Err(refused) => Err(refused.refusal),
        }
    }

    /// Has no more use for a reference: gives what follows. Refused as `Core::drop_ref` is, or with `Down`.
    pub fn drop_ref(&mut self, id: RefId) -> Result<Effects, Refusal>
        ensures end { IsSameEnd self.old.end self.new.end }
        ensures done { IfOk result (λ effects. Takes self.old.end (command.DropRef id) (answer.Done granted.Done effects) self.new.end) }
        ensures refused { IfErr result (λ r. Takes self.old.end (command.DropRef id) (answer.Refused r (command.DropRef id)) self.new.end) }
    {
        match self.ask(Command::DropRef(id)) {
            Ok(effects) => Ok(effects),
            Err(refused) => Err(refused.refusal),
        }
    }

    /// Lets a reference take the shorter path to which its promise was resolved, if one is known: gives what became of it, and
    /// what follows. Refused as `Core::advance` is, or with `Down`.
    pub fn advance(&mut self, id: RefId) -> Result<(Advanced, Effects), Refusal>
        ensures end { IsSameEnd self.old.end self.new.end }
        ensures done { IfOk result (λ done. Takes self.old.end (command.Advance id) (answer.Done (granted.Advanced done.0) done.1) self.new.end) }
        ensures refused { IfErr result (λ r. Takes self.old.end (command.Advance id) (answer.Refused r (command.Advance id)) self.new.end) }
    {
        match self.command(Command::Advance(id)) {
            Answer::Done(granted, effects) => Ok((advanced_in(granted), effects)),
            Answer::Refused(refusal, _) => Err(refusal),
        }
    }
}
