//! References are made, take the shorter path, and are let go.
ghost use Rattle.std.specs.Prelude.{◌≡◌, [], IfErr};
ghost use Rattle.rpc_machine.specs.declared.command.Command.TheVariants as command;
ghost use Rattle.rpc_machine.specs.declared.command.Granted.TheVariants as granted;
ghost use Rattle.vat_connection.specs.Calling.{answered};
ghost use Rattle.vat_connection.specs.Connecting.{Asks};

use crate::connection::Connection;
use rpc_journal::Advanced;
use rpc_machine::Refusal;
use rpc_msg::{CallId, Items, ObjectId, Op, RefId};
use vat_host::Refused;

impl Connection {
    /// Makes a reference to an object of the application, as `Host::host` does: gives its number. A refusal changes nothing.
    pub fn host(&mut self, object: ObjectId) -> Result<RefId, Refusal>
        ensures { Asks self.old (command.Host object) (answered result granted.Reference (λ r. r)) self.new }
    {
        self.speaker.host.host(object)
    }

    /// Makes a second reference to what a reference leads to, as `Host::clone_ref` does: gives its number. A refusal changes
    /// nothing.
    pub fn clone_ref(&mut self, id: RefId) -> Result<RefId, Refusal>
        ensures { Asks self.old (command.CloneRef id) (answered result granted.Reference (λ r. r)) self.new }
    {
        self.speaker.host.clone_ref(id)
    }

    /// Makes a reference to what stands at a path of the results of a call, as `Host::field` does: gives its number. A refusal
    /// changes nothing, and the path is handed back.
    pub fn field(&mut self, id: CallId, path: Items<Op>) -> Result<RefId, Refused<Items<Op>>>
        ensures asks { Asks self.old (command.Field id path) (answered result granted.Reference (λ e. e.refusal)) self.new }
        ensures handed_back { IfErr result (λ e. e.back ≡ path) }
    {
        self.speaker.host.field(id, path)
    }

    /// Makes a reference to what a call gives, as `Host::result_of` does: gives its number. A refusal changes nothing.
    pub fn result_of(&mut self, id: CallId) -> Result<RefId, Refusal>
        ensures { Asks self.old (command.Field id []) (answered result granted.Reference (λ r. r)) self.new }
    {
        self.speaker.host.result_of(id)
    }

    /// Lets a reference take the shorter path, as `Host::advance` does: gives what became of it. A refusal changes nothing.
    pub fn advance(&mut self, id: RefId) -> Result<Advanced, Refusal>
        ensures { Asks self.old (command.Advance id) (answered result granted.Advanced (λ r. r)) self.new }
    {
        self.speaker.host.advance(id)
    }

    /// Has no more use for a reference, as `Host::drop_ref` does. A refusal changes nothing.
    pub fn drop_ref(&mut self, id: RefId) -> Result<(), Refusal>
        ensures { Asks self.old (command.DropRef id) (answered result (λ _. granted.Done) (λ r. r)) self.new }
    {
        self.speaker.host.drop_ref(id)
    }
}
