ghost use Rattle.std.specs.Prelude.{◌≡◌, []};
ghost use Rattle.rpc_machine.specs.declared.command.Command.TheVariants as command;
ghost use Rattle.lovendak_c_desk.specs.Commands.{Advances, Hosts, IsAsked, a_reference, number_of, nothing, unless_released};
ghost use Rattle.lovendak_c_desk.specs.Given.{path, reference};

use crate::desk::Desk;
use crate::given::path_of;
use crate::not_done::NotDone;
use rpc_msg::{CallId, ObjectId, RefId};
use std::alloc::Global;
use vat_connection::{Advanced, Event};

impl Desk {
    /// Makes a reference to an object of the application: gives its number. If it was looked at that the object is released, that is
    /// not told.
    pub fn host(&mut self, object: u64) -> Result<u64, NotDone>
        ensures { Hosts self.old object result self.new }
    {
        match self.connection.host(ObjectId(object)) {
            Ok(made) => {
                self.keep(object);
                Ok(made.0)
            }
            Err(refusal) => Err(NotDone::Refused(refusal)),
        }
    }

    // That the object is released is not told, if it was looked at.
    fn keep(&mut self, object: u64)
        ensures { self.new ≡ record self.old { event = unless_released object self.old.event } }
    {
        if let Some(Event::Released(released)) = &self.event {
            if released.0 == object {
                self.event = None;
            }
        }
    }

    /// Makes a second reference to what a reference leads to: gives its number.
    pub fn clone_ref(&mut self, reference: u64) -> Result<u64, NotDone>
        ensures { IsAsked self.old (command.CloneRef (record { 0 = reference })) a_reference result self.new }
    {
        match self.connection.clone_ref(RefId(reference)) {
            Ok(made) => Ok(made.0),
            Err(refusal) => Err(NotDone::Refused(refusal)),
        }
    }

    /// Makes a reference to what stands at a path of the results of a call: gives its number.
    pub fn field(&mut self, alloc: Global, call: u64, steps: &[u16]) -> Result<u64, NotDone>
        ensures { IsAsked self.old (command.Field (record { 0 = call }) (path steps.now)) a_reference result self.new }
    {
        let path = path_of(alloc, steps)?;
        match self.connection.field(CallId(call), path) {
            Ok(made) => Ok(made.0),
            Err(refused) => Err(NotDone::Refused(refused.refusal)),
        }
    }

    /// Makes a reference to what a call gives: gives its number.
    pub fn result_of(&mut self, call: u64) -> Result<u64, NotDone>
        ensures { IsAsked self.old (command.Field (record { 0 = call }) []) a_reference result self.new }
    {
        match self.connection.result_of(CallId(call)) {
            Ok(made) => Ok(made.0),
            Err(refusal) => Err(NotDone::Refused(refusal)),
        }
    }

    /// Has no more use for a reference.
    pub fn drop_ref(&mut self, reference: u64) -> Result<(), NotDone>
        ensures { IsAsked self.old (command.DropRef (record { 0 = reference })) nothing result self.new }
    {
        match self.connection.drop_ref(RefId(reference)) {
            Ok(()) => Ok(()),
            Err(refusal) => Err(NotDone::Refused(refusal)),
        }
    }

    /// Lets a reference take one step of the shorter path: gives what became of it, 0 nothing, 1 switched, 2 embargoed, 3 broke.
    pub fn advance(&mut self, reference: u64) -> Result<u32, NotDone>
        ensures { Advances self.old reference result self.new }
    {
        match self.connection.advance(RefId(reference)) {
            Ok(became) => Ok(number_of(became)),
            Err(refusal) => Err(NotDone::Refused(refusal)),
        }
    }
}

fn number_of(became: Advanced) -> u32
    ensures { result ≡ number_of became }
{
    match became {
        Advanced::Nothing => 0,
        Advanced::Switched => 1,
        Advanced::Embargoed => 2,
        Advanced::Broke => 3,
    }
}
