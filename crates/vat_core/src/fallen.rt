ghost use Rattle.std.specs.Prelude.{◌≡◌, Some, IsTrue};
ghost use Rattle.rpc_machine.specs.Numbers.{want_of_room};

use crate::vat::Core;
use rpc_machine::Fault;

impl Core {
    /// Whether it went down for lack of room (33) and met a limit then: a table was full, or no more calls could wait.
    /// If it says no of a vat that went down so, memory ran out, or a count or a number would have passed 32 or 64
    /// bits. Takes no memory.
    pub fn met_limit(&self) -> bool
        ensures { IsTrue result → self.now.down ≡ Some want_of_room }
    {
        self.machine.met_limit && self.down() == Some(Fault::WantOfRoom.code())
    }
}
