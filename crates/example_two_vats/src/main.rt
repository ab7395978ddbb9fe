//! Two vats in one process: how an application uses a `vat::Host`. It prints what happens (the file `stdout`). Vat b
//! has a registry, which promises the printer that somebody will publish. Vat a uses that printer before there is one,
//! publishes a printer of its own, and then takes the short path to it.
#![tactic(auto)]

use anyhow::{Result, bail};
use vat::{
    CallCommand, CallId, Delivery, Ended, Event, Host, Level, ObjectId, PromiseId, RefId, Vat,
    exchange,
};

// The methods of the registry, which is object 0 of vat b, and that of a printer.
const GET: u16 = 0;

const PUBLISH: u16 = 1;

const PRINT: u16 = 2;

fn main(rt: HostRuntime) -> Result<()> {
    let mut a = Side::new(&rt, Vat::A, None)?;
    let mut b = Side::new(&rt, Vat::B, Some(ObjectId(0)))?;

    println!(rt; "a asks for the registry, and that for a printer, and prints, at once")?;
    let bootstrap = a.host.bootstrap()?;
    let registry = a.host.result_of(bootstrap)?;
    let got = a.call(registry, GET, None)?;
    let promised = a.host.result_of(got)?;
    let _ = a.call(promised, PRINT, None)?;
    settle(&rt, &mut a, &mut b)?;

    println!(rt; "a publishes its own printer, and what waited at b comes back")?;
    let own = a.host.host(ObjectId(1))?;
    let _ = a.call(registry, PUBLISH, Some(own))?;
    settle(&rt, &mut a, &mut b)?;

    println!(rt; "a prints by way of b, shortens the path, and prints again")?;
    let _ = a.call(promised, PRINT, None)?;
    for _ in 0..2 {
        let advanced = a.host.advance(promised)?;
        println!(rt; "  the promised printer {advanced:?}")?;
    }
    let _ = a.call(promised, PRINT, None)?;
    settle(&rt, &mut a, &mut b)?;

    println!(rt; "a lets go of what it holds")?;
    a.let_go(&[registry, promised, own])?;
    settle(&rt, &mut a, &mut b)?;
    let nothing_left = a.host.core().shares_nothing() && b.host.core().shares_nothing();
    println!(rt; "  no question, answer, import or export is left: {nothing_left}")?;

    println!(rt; "a goes down, and its Abort takes b down")?;
    a.host.shut(0);
    settle(&rt, &mut a, &mut b)?;
    let (fault_of_a, fault_of_b) = (a.host.core().down(), b.host.core().down());
    println!(rt; "  a by {fault_of_a:?}, b by {fault_of_b:?}")?;
    Ok(())
}

/// Hands messages over and lets both sides work, until nothing is left to do.
fn settle(rt: &HostRuntime, a: &mut Side, b: &mut Side) -> Result<()> {
    for _ in 0..99 {
        if !exchange(&mut a.host, &mut b.host, 9) {
            return Ok(());
        }
        b.work(rt)?;
        a.work(rt)?;
    }
    bail!("something is left to do")
}

/// A vat and its application: the vat with what it is to do, and the promise of a printer.
#[derive(Drop)]
struct Side {
    host: Host,
    promised: Option<PromiseId>,
}

impl Side {
    fn new(rt: &HostRuntime, vat: Vat, root: Option<ObjectId>) -> Result<Side> {
        let host = Host::new(rt.alloc(), vat, Level::One, root)?;
        Ok(Side {
            host,
            promised: None,
        })
    }

    fn call(&mut self, reference: RefId, method: u16, given: Option<RefId>) -> Result<CallId> {
        let (payload, refs) = self.host.core().contents(given)?;
        let call = self.host.call(CallCommand {
            reference,
            interface: 0,
            method,
            payload,
            refs,
        })?;
        Ok(call)
    }

    fn let_go(&mut self, refs: &[RefId]) -> Result<()> {
        for reference in refs {
            self.host.drop_ref(*reference)?;
        }
        Ok(())
    }

    /// Looks at the next event, if there is one: serves a call that came, finishes an own one that has ended.
    fn work(&mut self, rt: &HostRuntime) -> Result<()> {
        match self.host.next_event() {
            Some(Event::Served(task)) => self.serve(rt, task),
            Some(Event::Ended(ended)) => self.finish(rt, &ended),
            // Both objects stay as long as their vats, and no reference is asked to lead on.
            Some(_other) => Ok(()),
            None => Ok(()),
        }
    }

    fn finish(&mut self, rt: &HostRuntime, ended: &Ended) -> Result<()> {
        println!(rt; "  call {} has ended", ended.call.0)?;
        self.host.finish(ended.call)?;
        self.let_go(&ended.refs)
    }

    /// Does what a method does, answers, and lets go of what came with the call and what it gave.
    fn serve(&mut self, rt: &HostRuntime, task: Delivery) -> Result<()> {
        let (object, method, index) = (task.object.0, task.method, task.stamp.index);
        println!(rt; "  object {object}: method {method}, call {index} of its reference")?;
        let (taken, mut given) = (task.refs.as_slice(), None);
        if method == GET {
            let (promise, printer) = self.host.promise()?;
            (self.promised, given) = (Some(promise), Some(printer));
        } else if let (PUBLISH, Some(promise), [printer]) = (method, self.promised, taken) {
            self.host.resolve(promise, *printer)?;
        }
        let (payload, refs) = self.host.core().contents(given)?;
        self.host.answer(task.task, payload, refs)?;
        self.let_go(taken)?;
        self.let_go(given.as_slice())
    }
}
