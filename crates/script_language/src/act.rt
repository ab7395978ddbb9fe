ghost use Rattle.std.specs.Prelude.{◌≡◌};
ghost use Rattle.rpc_msg.specs.Payloads.{null_payload};
ghost use Rattle.script_language.specs.Acting.{act_for};
ghost use Rattle.script_language.specs.Bindings.{Gives};

use crate::fault::GiveFault;
use crate::line::Line;
use crate::name::Name;
use crate::names::Names;
use rpc_machine::Event;
use rpc_msg::{Payload, RefId, Vat};
use std::alloc::Global;

/// What a line does when its turn comes.
#[derive(Drop)]
pub enum Act {
    Nothing,
    /// The counts of both vats are written down.
    Tables,
    /// That vat takes turns until one frame was taken.
    Turn(Vat),
    /// The name stands for that reference of the vat from now on.
    Name(Vat, Name, RefId),
    /// A vat is commanded, or receives a message.
    Happens(Event),
}

impl Names {
    /// What a line does. If its command carries no capabilities, its payload shares the bytes of the null payload that
    /// is given. It takes memory for what the command carries. `Name` with the first thing that it names and that is not
    /// bound or not there, if there is one; `Memory` as in `command`.
    pub fn act(&self, alloc: Global, null: &Payload, line: &Line) -> Result<Act, GiveFault>
        requires { null.now ≡ null_payload }
        ensures { Gives (act_for self.now line.now) result }
    {
        match line {
            Line::Skip => Ok(Act::Nothing),
            Line::Deliver(vat) => Ok(Act::Happens(Event::Deliver(*vat))),
            Line::Turn(vat) => Ok(Act::Turn(*vat)),
            Line::Tables => Ok(Act::Tables),
            Line::Take(vat, line) => {
                let reference = self.taken(*vat, *line)?;
                Ok(Act::Name(*vat, line.name, reference))
            }
            Line::Got(vat, line) => {
                let reference = self.got(*vat, *line)?;
                Ok(Act::Name(*vat, line.name, reference))
            }
            Line::Command(vat, said) => {
                let command = self.command(alloc, null, *vat, said)?;
                Ok(Act::Happens(Event::Command(*vat, command)))
            }
        }
    }
}
