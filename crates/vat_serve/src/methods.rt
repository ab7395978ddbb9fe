//! What the methods of registries do.

use crate::counter::Counter;
use crate::objects::Object;
use crate::printer::{PRINT, PRINTER, Printer};
use crate::registry::{
    AHEAD, AWAIT_PRINTER, BROADCAST, ECHO, FAIL, FETCH, FORWARD, MAKE_COUNTER, MAKE_PRINTER,
    MAKE_REGISTRY, MAKE_SINK, PUBLISH, REGISTRY, Registry, SAME, SUBSCRIBE, TELL, UNSUBSCRIBE,
};
use crate::results::Results;
use crate::service::{Reply, Service};
use crate::sink::Sink;
use anyhow::{Result, anyhow, bail};
use std::mem;
use vat::{
    CallCommand, CallId, Command, Delivery, Granted, Items, ObjectId, Op, Place, RefId,
    reference_at,
};

impl Service {
    /// Serves a call of a registry's interface.
    pub(crate) fn serve_registry(&mut self, call: &Delivery, params: &Place<'_>) -> Result<Reply> {
        let alloc = self.alloc;
        if self.objects.registry(call.object).is_none() {
            return Ok(Reply::NoSuchMethod);
        }
        let results = match call.method {
            MAKE_COUNTER => self.make_counter(params)?,
            MAKE_PRINTER => self.made(Object::Printer(Printer::new(alloc)))?,
            MAKE_SINK => self.made(Object::Sink(Sink::new()))?,
            MAKE_REGISTRY => self.made(Object::Registry(Registry::new(alloc)))?,
            ECHO => Results::new(alloc).with_data(
                params.field(0).and_then(|data| data.bytes()).unwrap_or(&[]),
            )?,
            FAIL => bail!("{}", text_of(params)),
            SAME => self.same(given(call)?)?,
            AWAIT_PRINTER => self.await_printer(call.object)?,
            PUBLISH => self.publish(call.object, given(call)?)?,
            TELL => return self.tell(call, params),
            FETCH | FORWARD => return self.fetch(call),
            AHEAD => self.ahead(given(call)?)?,
            SUBSCRIBE => self.subscribe(call.object, given(call)?)?,
            BROADCAST => self.broadcast(call.object, params)?,
            UNSUBSCRIBE => self.unsubscribe(call.object)?,
            _ => return Ok(Reply::NoSuchMethod),
        };
        Reply::now(results)
    }

    fn make_counter(&mut self, params: &Place<'_>) -> Result<Results> {
        let counter = Counter::new(self.alloc, text_of(params), params.number(0).unwrap_or(0))?;
        self.made(Object::Counter(counter))
    }

    // A new object is given.
    fn made(&mut self, object: Object) -> Result<Results> {
        let number = self.objects.keep(object)?;
        let reference = self.reference(Command::Host(number))?;
        Results::new(self.alloc).with_capability(reference)
    }

    fn same(&mut self, printer: RefId) -> Result<Results> {
        let printer = self.reference(Command::CloneRef(printer))?;
        Results::new(self.alloc).with_capability(printer)
    }

    // All who await one have the same promise.
    fn await_printer(&mut self, number: ObjectId) -> Result<Results> {
        let awaited = self.registry(number)?.awaited;
        let printer = match awaited {
            Some((_, printer)) => printer,
            None => self.promise(number)?,
        };
        self.same(printer)
    }

    fn promise(&mut self, number: ObjectId) -> Result<RefId> {
        let Granted::Promise(promise, printer) = self.vat.command(Command::Promise)? else {
            bail!("no promise");
        };
        self.registry(number)?.awaited = Some((promise, printer));
        Ok(printer)
    }

    fn publish(&mut self, number: ObjectId, printer: RefId) -> Result<Results> {
        let Some((promise, awaited)) = self.registry(number)?.awaited else {
            bail!("nobody awaits a printer");
        };
        self.vat.command(Command::Resolve(promise, printer))?;
        self.registry(number)?.awaited = None;
        self.let_go(&[awaited])?;
        Ok(Results::new(self.alloc))
    }

    fn tell(&mut self, call: &Delivery, params: &Place<'_>) -> Result<Reply> {
        let asked = self.print(given(call)?, params)?;
        self.waiting.push((asked, call.task))?;
        Ok(Reply::Later)
    }

    fn fetch(&mut self, call: &Delivery) -> Result<Reply> {
        let asked = self.ask(given(call)?)?;
        self.waiting.push((asked, call.task))?;
        Ok(Reply::Later)
    }

    fn ahead(&mut self, registry: RefId) -> Result<Results> {
        let asked = self.ask(registry)?;
        let path = Items::one(self.alloc, Op::Field(0))?;
        let counter = self.reference(Command::Field(asked, path))?;
        Results::new(self.alloc).with_capability(counter)
    }

    fn subscribe(&mut self, number: ObjectId, printer: RefId) -> Result<Results> {
        let printer = self.reference(Command::CloneRef(printer))?;
        self.registry(number)?.subscribers.push(printer)?;
        Ok(Results::new(self.alloc))
    }

    fn broadcast(&mut self, number: ObjectId, params: &Place<'_>) -> Result<Results> {
        let alloc = self.alloc;
        let subscribers = Vec::from_slice(alloc, self.registry(number)?.subscribers.as_slice())?;
        for printer in &subscribers {
            self.print(*printer, params)?;
        }
        Results::new(alloc).with_number(subscribers.len() as u64)
    }

    fn unsubscribe(&mut self, number: ObjectId) -> Result<Results> {
        let none = Vec::new(self.alloc);
        let subscribers = mem::replace(&mut self.registry(number)?.subscribers, none);
        self.let_go(subscribers.as_slice())?;
        Ok(Results::new(self.alloc))
    }

    // Has a printer print a line.
    fn print(&mut self, printer: RefId, params: &Place<'_>) -> Result<CallId> {
        let line = params.number(0).unwrap_or(0);
        let params = Results::new(self.alloc).with_number(line)?;
        self.call(printer, (PRINTER, PRINT), params)
    }

    // Has a registry make a counter.
    fn ask(&mut self, registry: RefId) -> Result<CallId> {
        let params = Results::new(self.alloc)
            .with_number(40)?
            .with_text("fetched")?;
        self.call(registry, (REGISTRY, MAKE_COUNTER), params)
    }

    fn call(&mut self, reference: RefId, method: (u64, u16), params: Results) -> Result<CallId> {
        let (payload, refs) = params.into_payload()?;
        let (interface, method) = method;
        let call = self.vat.call(CallCommand {
            reference,
            interface,
            method,
            payload,
            refs,
        })?;
        Ok(call)
    }

    fn registry(&mut self, number: ObjectId) -> Result<&mut Registry> {
        self.objects
            .registry(number)
            .ok_or_else(|| anyhow!("no registry"))
    }

    // The reference that a command makes.
    fn reference(&mut self, command: Command) -> Result<RefId> {
        let Granted::Reference(reference) = self.vat.command(command)? else {
            bail!("no reference");
        };
        Ok(reference)
    }
}

// The reference of the capability in the first field.
fn given(call: &Delivery) -> Result<RefId> {
    match reference_at(&call.payload, &call.refs, &[Op::Field(0)]) {
        Some(reference) => Ok(reference),
        None => bail!("no capability was given"),
    }
}

// The text in the first field.
fn text_of<'m>(params: &Place<'m>) -> &'m str {
    params.field(0).and_then(|text| text.text()).unwrap_or("")
}
