//! The objects of a service, by their numbers.

use crate::counter::{COUNTER, Counter};
use crate::printer::{PRINTER, Printer};
use crate::registry::Registry;
use crate::results::Results;
use crate::sink::{SINK, Sink};
use anyhow::{Result, bail};
use std::alloc::Global;
use std::collections::BTreeMap;
use vat::{Delivery, ObjectId, Place};

/// An object that is served.
#[derive(Drop)]
pub enum Object {
    Counter(Counter),
    Printer(Printer),
    Sink(Sink),
    Registry(Registry),
}

/// The objects of a service, each until nobody refers to it any more. The registry, which is the bootstrap object, stays.
#[derive(Drop)]
pub struct Objects {
    by_number: BTreeMap<u64, Object>,
    next: u64,
    alloc: Global,
}

impl Objects {
    /// A registry alone, object 0.
    pub fn new(alloc: Global) -> Result<Objects> {
        let mut objects = Objects {
            by_number: BTreeMap::new(alloc),
            next: 0,
            alloc,
        };
        objects.keep(Object::Registry(Registry::new(alloc)))?;
        Ok(objects)
    }

    /// Keeps an object: gives its number.
    pub fn keep(&mut self, object: Object) -> Result<ObjectId> {
        let number = self.next;
        let Some(next) = number.checked_add(1) else {
            bail!("there are too many objects");
        };
        self.by_number.insert(number, object)?;
        self.next = next;
        Ok(ObjectId(number))
    }

    /// Lets go of the object of that number.
    pub fn release(&mut self, number: ObjectId) {
        self.by_number.remove(&number.0);
    }

    /// The registry of that number.
    pub fn registry(&mut self, number: ObjectId) -> Option<&mut Registry> {
        match self.by_number.get_mut(&number.0) {
            Some(Object::Registry(registry)) => Some(registry),
            _ => None,
        }
    }

    /// What a method of an object gives that needs no more than that object; none if there is no such method.
    pub fn serve(&mut self, call: &Delivery, params: &Place<'_>) -> Result<Option<Results>> {
        let (alloc, method) = (self.alloc, call.method);
        match self.by_number.get_mut(&call.object.0) {
            Some(Object::Counter(counter)) if call.interface == COUNTER => counter.serve(
                alloc, method, params,
            ),
            Some(Object::Printer(printer)) if call.interface == PRINTER => printer.serve(
                alloc, method, params,
            ),
            Some(Object::Sink(sink)) if call.interface == SINK => sink.serve(alloc, method, params),
            _ => Ok(None),
        }
    }
}
