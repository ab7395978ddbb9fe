ghost use Rattle.std.specs.Prelude.{◌≡◌, ◌⊎◌, OnOk, OnErr, Some, option_copied, slice_get};
ghost use Rattle.std.specs.FinMap as map;
ghost use Rattle.script_language.specs.Bindings.{unnamed, call_at, reference_at, promise_at, one_of, taken, got, bind_call, bind_reference, bind_promise, call_named, reference_named, promise_named, bindings, half_bound, with_tasks, with_outcomes};

use crate::bound::Bound;
use crate::fault::NameFault;
use crate::handed::Handed;
use crate::line::{GotLine, LineCommand, TakeLine};
use crate::name::Name;
use crate::names::VatNames;
use rpc_journal::{Delivery, Ended};
use rpc_machine::Granted;
use rpc_msg::{CallId, Items, Memory, PromiseId, RefId};
use std::alloc::Global;

impl VatNames {
    pub(crate) fn new(alloc: Global) -> Self
        ensures { result ≡ unnamed }
    {
        VatNames {
            calls: Bound::new(alloc),
            references: Bound::new(alloc),
            promises: Bound::new(alloc),
            tasks: Handed::new(alloc),
            outcomes: Handed::new(alloc),
        }
    }

    pub(crate) fn call_at(&self, name: Name) -> Result<CallId, NameFault>
        ensures { result ≡ call_at self.now name }
    {
        self.calls.get(name).ok_or(NameFault::Call)
    }

    pub(crate) fn reference_at(&self, name: Name) -> Result<RefId, NameFault>
        ensures { result ≡ reference_at self.now name }
    {
        self.references.get(name).ok_or(NameFault::Reference)
    }

    pub(crate) fn promise_at(&self, name: Name) -> Result<PromiseId, NameFault>
        ensures { result ≡ promise_at self.now name }
    {
        self.promises.get(name).ok_or(NameFault::Promise)
    }

    pub(crate) fn taken(&self, line: TakeLine) -> Result<RefId, NameFault>
        ensures { result ≡ taken self.now line }
    {
        one_of(NameFault::Task, self.tasks.get(line.task.0), line.index)
    }

    pub(crate) fn got(&self, line: GotLine) -> Result<RefId, NameFault>
        ensures { result ≡ got self.now line }
    {
        let call = self.call_at(line.call)?;
        one_of(NameFault::Outcome, self.outcomes.get(call.0), line.index)
    }

    pub(crate) fn bind(&mut self, said: &LineCommand, granted: Granted) -> Result<(), Memory>
        ensures ok { OnOk result (self.new ≡ bindings self.old said.now granted) }
        ensures err { OnErr result ((self.new ≡ self.old) ⊎ (self.new ≡ half_bound self.old said.now granted)) }
    {
        match granted {
            Granted::Done | Granted::Advanced(_) => Ok(()),
            Granted::Reference(reference) => {
                self.bind_reference(reference_named(said), reference)
            }
            Granted::Call(call) => self.bind_call(call_named(said), call),
            Granted::Promise(promise, reference) => {
                self.bind_promise(promise_named(said), promise)?;
                self.bind_reference(reference_named(said), reference)
            }
        }
    }

    fn bind_call(&mut self, name: Option<Name>, call: CallId) -> Result<(), Memory>
        ensures ok { OnOk result (self.new ≡ bind_call self.old name call) }
        ensures err { OnErr result (self.new ≡ self.old) }
    {
        match name {
            Some(name) => self.calls.bind(name, call),
            None => Ok(()),
        }
    }

    fn bind_reference(&mut self, name: Option<Name>, reference: RefId) -> Result<(), Memory>
        ensures ok { OnOk result (self.new ≡ bind_reference self.old name reference) }
        ensures err { OnErr result (self.new ≡ self.old) }
    {
        match name {
            Some(name) => self.references.bind(name, reference),
            None => Ok(()),
        }
    }

    fn bind_promise(&mut self, name: Option<Name>, promise: PromiseId) -> Result<(), Memory>
        ensures ok { OnOk result (self.new ≡ bind_promise self.old name promise) }
        ensures err { OnErr result (self.new ≡ self.old) }
    {
        match name {
            Some(name) => self.promises.bind(name, promise),
            None => Ok(()),
        }
    }

    pub(crate) fn note_deliveries(
        &mut self,
        alloc: Global,
        deliveries: &[Delivery],
    ) -> Result<(), Memory>
        ensures { OnOk result (self.new ≡ with_tasks self.old deliveries.now) }
    {
        for delivery in deliveries {
            let refs = delivery.refs.copy(alloc)?;
            self.tasks.put(delivery.task.0, refs)?;
        }
        Ok(())
    }

    pub(crate) fn note_outcomes(&mut self, alloc: Global, answers: &[Ended]) -> Result<(), Memory>
        ensures { OnOk result (self.new ≡ with_outcomes self.old answers.now) }
    {
        for answer in answers {
            let refs = answer.refs.copy(alloc)?;
            self.outcomes.put(answer.call.0, refs)?;
        }
        Ok(())
    }
}

/// One of the references that were handed over.
fn one_of(missing: NameFault, refs: Option<&Items<RefId>>, index: u32) -> Result<RefId, NameFault>
    ensures { result ≡ one_of missing (option_copied refs.entry) index }
{
    match refs {
        Some(refs) => match refs.get(index as usize) {
            Some(reference) => Ok(*reference),
            None => Err(NameFault::Index),
        },
        None => Err(missing),
    }
}

/// The name that a line gives to a call.
fn call_named(said: &LineCommand) -> Option<Name>
    ensures { result ≡ call_named said.now }
{
    match said {
        LineCommand::Bootstrap(call) => Some(*call),
        LineCommand::Call(line) => Some(line.call),
        _ => None,
    }
}

/// The name that a line gives to a reference.
fn reference_named(said: &LineCommand) -> Option<Name>
    ensures { result ≡ reference_named said.now }
{
    match said {
        LineCommand::Host(name, _)
        | LineCommand::Promise(_, name)
        | LineCommand::CloneRef(name, _) => Some(*name),
        LineCommand::Field(line) => Some(line.name),
        _ => None,
    }
}

/// The name that a line gives to a promise.
fn promise_named(said: &LineCommand) -> Option<Name>
    ensures { result ≡ promise_named said.now }
{
    match said {
        LineCommand::Promise(promise, _) => Some(*promise),
        _ => None,
    }
}
