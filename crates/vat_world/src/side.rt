use crate::link::Link;
use core_outbox::Outbox;
use core_telling::Core;
use rpc_machine::{Fault, Level};
use rpc_msg::{Memory, ObjectId, Vat};
use std::alloc::Global;

/// A vat of the world, the messages on their way to it, whether a shut took it down, and the memory of the copy of its
/// Abort that goes into the journal.
pub(crate) struct Side {
    pub(crate) core: Core,
    pub(crate) inbox: Link,
    pub(crate) was_shut: bool,
    pub(crate) spare: Outbox,
}

// By hand, as that of a core.
impl Drop for Side {
    fn drop(self) {
        let Side {
            core: _,
            inbox: _,
            was_shut: _,
            spare: _,
        } = self;
    }
}

impl Side {
    ghost use Rattle.std.specs.Prelude.{◌≡◌, [], false, Some, IfOk, IsTrue};
    ghost use Rattle.rpc_machine.specs.Numbers.{want_of_room};
    ghost use Rattle.rpc_machine.specs.State.{start};
    ghost use Rattle.rpc_machine.specs.declared.command.Level.TheVariants.{One};
    ghost use Rattle.vat_world.specs.Rooms.{side_of, CanAbort};

    /// A new vat of level 1 with that bootstrap object, if it has one.
    pub(crate) fn new(alloc: Global, vat: Vat, bootstrap: Option<ObjectId>) -> Result<Side, Memory>
        ensures new { IfOk result (λ side. side_of side ≡ record { core = start vat One bootstrap; inbox = [] }) }
        ensures was_shut { IfOk result (λ side. side.was_shut ≡ false) }
        ensures room { IfOk result (λ side. CanAbort side side) }
    {
        let spare = Outbox::new(alloc)?;
        let inbox = Link::new(alloc)?;
        let core = Core::new(alloc, vat, Level::One, bootstrap)?;
        Ok(Side {
            core,
            inbox,
            was_shut: false,
            spare,
        })
    }

    /// Whether its vat went down for lack of memory: with 33, by no shut, and without meeting a limit.
    pub(crate) fn lacked_memory(&self) -> bool
        ensures down { IsTrue result → self.now.core.down ≡ Some want_of_room }
        ensures by_itself { IsTrue result → self.now.was_shut ≡ false }
    {
        !self.was_shut
            && self.core.down() == Some(Fault::WantOfRoom.code())
            && !self.core.met_limit()
    }
}
