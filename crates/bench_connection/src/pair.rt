//! Two connections, and what is measured of them.

use crate::side::Side;
use anyhow::{Result, bail};
use std::alloc::Global;
use vat_connection::{ObjectId, RefId, Vat};

/// Two connections. Vat a has a reference to the bootstrap object of vat b, which has one to an object of vat a.
#[derive(Drop)]
pub(crate) struct Pair {
    a: Side,
    b: Side,
    root: RefId,
    theirs: RefId,
}

impl Pair {
    pub(crate) fn new(alloc: Global) -> Result<Pair> {
        let mut a = Side::new(alloc, Vat::A, None)?;
        let mut b = Side::new(alloc, Vat::B, Some(ObjectId(0)))?;
        let (root, theirs) = meet(&mut a, &mut b)?;
        Ok(Pair { a, b, root, theirs })
    }

    /// A call, its answer, and its end.
    pub(crate) fn round_trip(&mut self) -> Result<()> {
        self.a.call(self.root, None)?;
        self.a.send(&mut self.b);
        let task = self.b.served()?;
        self.b.answer(task.id, None)?;
        self.b.send(&mut self.a);
        self.a.ended()?;
        self.a.send(&mut self.b);
        Ok(())
    }

    /// A promise of vat b is resolved to an object of vat a, which has called it already: the next call takes the short path, and
    /// waits behind an embargo.
    pub(crate) fn cycle(&mut self) -> Result<()> {
        let reference = self.give_promise()?;
        let first = self.a.served()?;
        self.a.call(reference, None)?;
        self.a.send(&mut self.b);
        self.b.send(&mut self.a);
        let second = self.a.served()?;
        self.a.answer(second.id, None)?;
        self.a.ended()?;
        // Vat b, which passed the first call on, passes its answer back.
        self.a.answer(first.id, None)?;
        self.a.send(&mut self.b);
        self.b.send(&mut self.a);
        self.a.ended()?;
        self.a.connection.drop_ref(reference)?;
        self.a.send(&mut self.b);
        Ok(())
    }

    // Vat b gives a promise; vat a calls it, and gets its own call back as it is resolved.
    fn give_promise(&mut self) -> Result<RefId> {
        let (promise, promised) = self.b.connection.promise()?;
        self.a.call(self.root, None)?;
        self.a.send(&mut self.b);
        let task = self.b.served()?;
        self.b.answer(task.id, Some(promised))?;
        self.b.connection.drop_ref(promised)?;
        self.b.send(&mut self.a);
        let reference = given(self.a.ended()?)?;
        self.a.call(reference, None)?;
        self.a.send(&mut self.b);
        self.b.connection.resolve(promise, self.theirs)?;
        self.b.send(&mut self.a);
        Ok(reference)
    }
}

// Each gets a reference to an object of the other's.
fn meet(a: &mut Side, b: &mut Side) -> Result<(RefId, RefId)> {
    a.connection.bootstrap()?;
    a.send(b);
    b.send(a);
    let root = given(a.ended()?)?;
    let own = a.connection.host(ObjectId(1))?;
    a.call(root, Some(own))?;
    a.send(b);
    let task = b.served()?;
    b.answer(task.id, None)?;
    b.send(a);
    a.ended()?;
    let theirs = given(task.given)?;
    Ok((root, theirs))
}

fn given(reference: Option<RefId>) -> Result<RefId> {
    match reference {
        Some(reference) => Ok(reference),
        None => bail!("no reference came"),
    }
}
