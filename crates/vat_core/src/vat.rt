ghost use Rattle.std.specs.Prelude.{◌≡◌, IfOk};
ghost use Rattle.rpc_machine.specs.Down.{ShutsFrom};
ghost use Rattle.rpc_machine.specs.State.{start};
ghost use Rattle.rpc_machine.specs.Steps.{Receives};
ghost use Rattle.laws_authority.specs.Authority.{TakesNothing};
ghost use Rattle.vat_core.specs.Given.{HearsGiven};

use core_outbox::Outbox;
use core_steps::{Arisen, Machine, Step, Thought};
use core_store::Store;
use laws_authority::{authority_is_given, authority_is_kept};
use rpc_machine::{Effects, Level};
use rpc_msg::{Memory, Message, ObjectId, Vat};
use std::alloc::Global;
use std::marker::Model;

/// The core of a vat: all that it holds for its connection, and the memory that it keeps for its steps. Contracts see it as
/// the state of the machine of `docs/protocol.md`, and each of its calls is a step of that machine.
pub struct Core {
    pub(crate) machine: Machine,
}

// By hand, so that who drops a core need not prove again how each of its parts is dropped.
impl Drop for Core {
    fn drop(self) {
        let Core { machine: _ } = self;
    }
}

impl Model for Core {
    ghost use Rattle.rpc_machine.specs.State.{State, state_code};
    ghost use Rattle.core_store.specs.Holding.{state_of};
    ghost use Rattle.vat_core.specs.Standing.{IsStanding};

    ghost Value = { State };

    ghost coded = { state_code };

    ghost view = { λ a. state_of a.machine.step.store };

    ghost invariant = { λ a. IsStanding a.machine };
}

impl Core {
    /// The core of a new vat, of that level and with that bootstrap object if it has one. `Memory` if the memory of its
    /// Abort was refused.
    pub fn new(
        alloc: Global,
        vat: Vat,
        level: Level,
        bootstrap: Option<ObjectId>,
    ) -> Result<Core, Memory>
        ensures { IfOk result (λ core. core ≡ start vat level bootstrap) }
    {
        let outbox = Outbox::new(alloc)?;
        let spare = Outbox::new(alloc)?;
        let step = Step {
            store: Store::new(vat, level, bootstrap, alloc),
            outbox,
            arisen: Arisen::new(alloc),
        };
        Ok(Core {
            machine: Machine {
                step,
                thought: Thought::new(alloc),
                spare,
                met_limit: false,
                alloc,
            },
        })
    }

    /// The number with which it went down, if it is down.
    pub fn down(&self) -> Option<u16>
        ensures { result ≡ self.now.down }
    {
        self.machine.step.store.down
    }

    /// Which vat it is.
    pub fn vat(&self) -> Vat
        ensures { result ≡ self.now.vat }
    {
        self.machine.step.store.vat
    }

    /// How much of the protocol it speaks.
    pub fn level(&self) -> Level
        ensures { result ≡ self.now.level }
    {
        self.machine.step.store.level
    }

    /// Takes a message of the other vat, and gives what follows. A vat that is down does nothing. A message that is a
    /// fault takes the vat down with the fault's number, and so does lack of room or of memory (33), which an Abort
    /// never needs.
    ///
    /// Whatever the message is, calls of the peer are delivered to those objects alone that it could reach before, and the peer may
    /// reach no more than before; a Bootstrap alone opens the bootstrap object. In each run that leads here, these objects were
    /// given to the peer (docs/laws/authority.md).
    pub fn receive(&mut self, message: Message) -> Effects
        ensures steps { Receives self.old message result self.new }
        ensures authority { TakesNothing self.old message result self.new }
        ensures given { HearsGiven self.old message result self.new }
    {
        authority_is_kept();
        authority_is_given();
        core_steps::receive(&mut self.machine, message)
    }

    /// Takes back the memory of effects that were looked at, for those of later steps; what they still hold is dropped. Nothing
    /// else changes, and no memory is taken. It saves each later step the memory that it would else take for what it says:
    /// take the lists apart with `into_vec`, empty them, and hand them back by `Items::from_vec`.
    #[inline(always)]
    pub fn recycle(&mut self, effects: Effects)
        ensures { self.new ≡ self.old }
    {
        self.machine.step.outbox.recycle(effects);
    }

    /// Takes a vat that is up down with that number: one Abort is sent, and nothing else follows. A vat that is down stays as
    /// it is, and nothing follows. Takes no memory.
    pub fn shut(&mut self, number: u16) -> Effects
        ensures { ShutsFrom self.old number self.old.down result self.new }
    {
        core_steps::shut(&mut self.machine, number)
    }
}
