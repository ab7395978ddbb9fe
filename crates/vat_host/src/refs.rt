//! References are made, take the shorter path, and are let go.
ghost use Rattle.std.specs.Prelude.{◌≡◌, [], IfOk, IfErr, IsSome};
ghost use Rattle.std.specs.FinMap as map;
ghost use Rattle.rpc_machine.specs.declared.command.Command.TheVariants as command;
ghost use Rattle.rpc_machine.specs.declared.command.Granted.TheVariants as granted;
ghost use Rattle.vat_host.specs.Hosting.{Does, Refuses};

use crate::host::Host;
use rpc_journal::Advanced;
use rpc_machine::Refusal;
use rpc_msg::{CallId, Items, ObjectId, Op, RefId};
use vat_core::Refused;

impl Host {
    /// Makes a reference to an object of the application, as `Core::host` does: gives its number. Nothing follows. From now on it is
    /// told when the object is released.
    pub fn host(&mut self, object: ObjectId) -> Result<RefId, Refusal>
        ensures done { IfOk result (λ id. Does self.old (command.Host object) (granted.Reference id) self.new) }
        ensures refused { IfErr result (λ r. Refuses self.old (command.Host object) r self.new) }
    {
        if self.objects.has(object) {
            return self.host_again(object);
        }
        self.objects.put(object)?;
        match self.core.host(object) {
            Ok(made) => return Ok(made),
            Err(refusal) => {
                self.objects.take(object);
                return Err(refusal);
            }
        }
    }

    // Makes one more reference to an object that it knows.
    fn host_again(&mut self, object: ObjectId) -> Result<RefId, Refusal>
        requires { IsSome (map.get self.old.objects object.0) }
        ensures done { IfOk result (λ id. Does self.old (command.Host object) (granted.Reference id) self.new) }
        ensures refused { IfErr result (λ r. Refuses self.old (command.Host object) r self.new) }
    {
        let made = match self.core.host(object) {
            Ok(made) => made,
            Err(refusal) => return Err(refusal),
        };
        Ok(made)
    }

    /// Makes a second reference with the same head as another, as `Core::clone_ref` does: gives its number. Nothing follows.
    pub fn clone_ref(&mut self, id: RefId) -> Result<RefId, Refusal>
        ensures done { IfOk result (λ made. Does self.old (command.CloneRef id) (granted.Reference made) self.new) }
        ensures refused { IfErr result (λ r. Refuses self.old (command.CloneRef id) r self.new) }
    {
        let made = match self.core.clone_ref(id) {
            Ok(made) => made,
            Err(refusal) => return Err(refusal),
        };
        Ok(made)
    }

    /// Makes a reference to what stands at a path of the results of a call, as `Core::field` does: gives its number. Nothing
    /// follows. A path that is refused is handed back.
    pub fn field(&mut self, id: CallId, path: Items<Op>) -> Result<RefId, Refused<Items<Op>>>
        ensures done { IfOk result (λ made. Does self.old (command.Field id path) (granted.Reference made) self.new) }
        ensures refused { IfErr result (λ e. Refuses self.old (command.Field id path) e.refusal self.new) }
        ensures handed_back { IfErr result (λ e. e.back ≡ path) }
    {
        let made = match self.core.field(id, path) {
            Ok(made) => made,
            Err(refused) => return Err(refused),
        };
        Ok(made)
    }

    /// Makes a reference to what a call gives, as `Core::result_of` does: gives its number. Nothing follows.
    pub fn result_of(&mut self, id: CallId) -> Result<RefId, Refusal>
        ensures done { IfOk result (λ made. Does self.old (command.Field id []) (granted.Reference made) self.new) }
        ensures refused { IfErr result (λ r. Refuses self.old (command.Field id []) r self.new) }
    {
        let made = match self.core.result_of(id) {
            Ok(made) => made,
            Err(refusal) => return Err(refusal),
        };
        Ok(made)
    }

    /// Lets a reference take the shorter path, as `Core::advance` does, and keeps what follows: gives what became of it.
    pub fn advance(&mut self, id: RefId) -> Result<Advanced, Refusal>
        ensures done { IfOk result (λ became. Does self.old (command.Advance id) (granted.Advanced became) self.new) }
        ensures refused { IfErr result (λ r. Refuses self.old (command.Advance id) r self.new) }
    {
        self.kept.make_place()?;
        let (became, effects) = match self.core.advance(id) {
            Ok(done) => done,
            Err(refusal) => return Err(refusal),
        };
        self.unanswered.follow(&effects, &self.core);
        self.kept.keep(effects, None);
        Ok(became)
    }

    /// Has no more use for a reference, as `Core::drop_ref` does, and keeps what follows. A refusal changes nothing.
    pub fn drop_ref(&mut self, id: RefId) -> Result<(), Refusal>
        ensures done { IfOk result (λ _. Does self.old (command.DropRef id) granted.Done self.new) }
        ensures refused { IfErr result (λ r. Refuses self.old (command.DropRef id) r self.new) }
    {
        self.kept.make_place()?;
        let effects = match self.core.drop_ref(id) {
            Ok(effects) => effects,
            Err(refusal) => return Err(refusal),
        };
        self.unanswered.follow(&effects, &self.core);
        self.kept.keep(effects, None);
        Ok(())
    }
}
