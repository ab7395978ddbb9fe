ghost use Rattle.std.specs.Prelude.{◌≡◌, ◌⊎◌, Some, OnOk, OnErr};
ghost use Rattle.rpc_msg.specs.Payloads.{null_payload};
ghost use Rattle.script_language.specs.Bindings.{Gives, unnamed, no_names, names_of, with_names_of, command_for, taken, got, bind_reference, bindings, binds, half_bound, with_tasks, with_outcomes};

use crate::bound::Bound;
use crate::fault::{GiveFault, NameFault};
use crate::handed::Handed;
use crate::line::{GotLine, LineCommand, TakeLine};
use crate::name::Name;
use rpc_journal::{Delivery, Ended};
use rpc_machine::{Command, Granted};
use rpc_msg::{CallId, Memory, Payload, PromiseId, RefId, Vat};
use std::alloc::Global;

/// What the names of a script stand for at one vat, and the references that its application was handed.
#[derive(Drop)]
pub struct VatNames {
    pub(crate) calls: Bound<CallId>,
    pub(crate) references: Bound<RefId>,
    pub(crate) promises: Bound<PromiseId>,
    pub(crate) tasks: Handed,
    pub(crate) outcomes: Handed,
}

/// What the names of a script stand for. Each vat has names of its own.
pub struct Names {
    pub(crate) a: VatNames,
    pub(crate) b: VatNames,
}

// By hand, so that who drops names need not prove again how each of their parts is dropped.
impl Drop for Names {
    fn drop(self) {
        let Names { a: _, b: _ } = self;
    }
}

impl Names {
    /// No name is bound, and nothing was handed over. Takes no memory.
    pub fn new(alloc: Global) -> Self
        ensures { result ≡ no_names }
    {
        Names {
            a: VatNames::new(alloc),
            b: VatNames::new(alloc),
        }
    }

    /// What a line asks of a vat. A call or an answer without capabilities carries a copy of the null payload that is given,
    /// which shares its bytes; all else that a command carries takes memory. `Name` with the first thing that the line names
    /// and that is not bound there, if there is one; `Memory` if a growth was refused, or more than 65,535
    /// capabilities are named, which no line that was read does.
    pub fn command(
        &self,
        alloc: Global,
        null: &Payload,
        vat: Vat,
        said: &LineCommand,
    ) -> Result<Command, GiveFault>
        requires { null.now ≡ null_payload }
        ensures { Gives (command_for (names_of vat self.now) said.now) result }
    {
        match vat {
            Vat::A => self.a.command(alloc, null, said),
            Vat::B => self.b.command(alloc, null, said),
        }
    }

    /// The reference that a line `take` gives a name. `Task` if no such task was delivered to the vat, `Index` if
    /// it came with fewer references. Takes no memory.
    pub fn taken(&self, vat: Vat, line: TakeLine) -> Result<RefId, NameFault>
        ensures { result ≡ taken (names_of vat self.now) line }
    {
        match vat {
            Vat::A => self.a.taken(line),
            Vat::B => self.b.taken(line),
        }
    }

    /// The reference that a line `got` gives a name. `Call` if its call is not bound at the vat, `Outcome` if that
    /// has none yet, `Index` if the outcome came with fewer references. Takes no memory.
    pub fn got(&self, vat: Vat, line: GotLine) -> Result<RefId, NameFault>
        ensures { result ≡ got (names_of vat self.now) line }
    {
        match vat {
            Vat::A => self.a.got(line),
            Vat::B => self.b.got(line),
        }
    }

    /// Lets a name stand for a reference of that vat, and for no other. `Memory` if a growth was refused; nothing is
    /// changed then.
    pub fn name(&mut self, vat: Vat, name: Name, reference: RefId) -> Result<(), Memory>
        ensures ok { OnOk result (self.new ≡ with_names_of vat (bind_reference (names_of vat self.old) (Some name) reference) self.old) }
        ensures err { OnErr result (self.new ≡ self.old) }
    {
        match vat {
            Vat::A => self.a.references.bind(name, reference),
            Vat::B => self.b.references.bind(name, reference),
        }
    }

    /// Binds the names that a line gives to what its vat granted; a name that was bound is bound anew. A refusal binds
    /// nothing: there is no call for it. `Memory` if a growth was refused; nothing is changed then, but that the
    /// promise of a line `promise` may be bound.
    pub fn bind(&mut self, vat: Vat, said: &LineCommand, granted: Granted) -> Result<(), Memory>
        ensures ok { OnOk result (self.new ≡ binds self.old vat said.now granted) }
        ensures err { OnErr result ((self.new ≡ self.old) ⊎ (self.new ≡ with_names_of vat (half_bound (names_of vat self.old) said.now granted) self.old)) }
    {
        match vat {
            Vat::A => self.a.bind(said, granted),
            Vat::B => self.b.bind(said, granted),
        }
    }

    /// Keeps which references came with the calls that were delivered to a vat's application. `Memory` if a growth
    /// was refused; some of them may be kept then, and the names are only to be dropped.
    pub fn note_deliveries(
        &mut self,
        alloc: Global,
        vat: Vat,
        deliveries: &[Delivery],
    ) -> Result<(), Memory>
        ensures { OnOk result (self.new ≡ with_names_of vat (with_tasks (names_of vat self.old) deliveries.now) self.old) }
    {
        match vat {
            Vat::A => self.a.note_deliveries(alloc, deliveries),
            Vat::B => self.b.note_deliveries(alloc, deliveries),
        }
    }

    /// The same of the outcomes of a vat's calls.
    pub fn note_outcomes(
        &mut self,
        alloc: Global,
        vat: Vat,
        answers: &[Ended],
    ) -> Result<(), Memory>
        ensures { OnOk result (self.new ≡ with_names_of vat (with_outcomes (names_of vat self.old) answers.now) self.old) }
    {
        match vat {
            Vat::A => self.a.note_outcomes(alloc, answers),
            Vat::B => self.b.note_outcomes(alloc, answers),
        }
    }
}
