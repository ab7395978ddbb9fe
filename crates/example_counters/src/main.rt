//! A service of counters and a client of it, in one process: how values go in payloads. What it prints is in the file
//! `stdout`. The service's bootstrap object makes counters, each an object of its own, which the client holds and lets go.
#![tactic(auto)]

use anyhow::{Result, bail};
use std::alloc::Global;
use vat::{
    CallCommand, CallId, Command, Delivery, Elements, Ended, Event, Exception, ExceptionKind, Host,
    Items, Level, ObjectId, Op, Outcome, Payload, Place, Pointers, RefId, TaskId, Text, Tree, Vat,
    contents, exchange, explain, reference_at,
};

// The maker's method: given a text and a number, it gives a counter of that name, which begins with that number.
const MAKE: u16 = 0;

// The methods of a counter: to add a number, which gives the sum; and to tell, which gives its name and all sums it had.
const ADD: u16 = 0;

const TELL: u16 = 1;

fn main(rt: HostRuntime) -> Result<()> {
    let alloc = rt.alloc();
    let mut client = Host::new(alloc, Vat::A, Level::One, None)?;
    let mut service = Service {
        host: Host::new(alloc, Vat::B, Level::One, Some(ObjectId(0)))?,
        counters: Vec::new(alloc),
    };

    println!(rt; "the client asks for a counter, and counts before any answer has come")?;
    let bootstrap = client.bootstrap()?;
    let maker = client.result_of(bootstrap)?;
    let first = contents(alloc, &[40], "apples", &[])?;
    let made = call(&mut client, (maker, MAKE), first)?;
    let counter = client.field(made, Items::one(alloc, Op::Field(1))?)?;
    for (method, number) in [(ADD, 2), (ADD, u64::MAX), (TELL, 0), (7, 0)] {
        let given = contents(alloc, &[number], "", &[])?;
        call(&mut client, (counter, method), given)?;
    }
    settle(&rt, &mut client, &mut service)?;

    println!(rt; "it lets go of what it holds")?;
    let_go(&mut client, &[maker, counter])?;
    if let Err(refused) = client.command(Command::DropRef(counter)) {
        println!(rt; "  and once more: {}", explain(client.core(), &refused))?;
    }
    settle(&rt, &mut client, &mut service)?;
    let nothing_left = client.core().shares_nothing() && service.host.core().shares_nothing();
    println!(rt; "  nothing is left between the two: {nothing_left}")?;
    Ok(())
}

/// Calls a method of an object with what `contents` made.
fn call(client: &mut Host, to: (RefId, u16), given: (Payload, Items<RefId>)) -> Result<CallId> {
    let call = client.call(CallCommand {
        reference: to.0,
        interface: 0,
        method: to.1,
        payload: given.0,
        refs: given.1,
    })?;
    Ok(call)
}

/// Hands messages over, has calls served, and finishes those that ended, until nothing is left to do.
fn settle(rt: &HostRuntime, client: &mut Host, service: &mut Service) -> Result<()> {
    for _ in 0..99 {
        if !exchange(client, &mut service.host, 9) {
            return Ok(());
        }
        if let Some(Event::Served(task)) = service.host.next_event() {
            service.serve(rt.alloc(), &task)?;
        }
        if let Some(Event::Ended(ended)) = client.next_event() {
            tell(rt, &ended)?;
            client.finish(ended.call)?;
            let_go(client, &ended.refs)?;
        }
    }
    bail!("something is left to do")
}

/// Prints how a call of the client ended: what it gave, or why it failed.
fn tell(rt: &HostRuntime, ended: &Ended) -> Result<()> {
    let call = ended.call.0;
    let payload = match &ended.outcome {
        Outcome::Results(payload) => payload,
        Outcome::Exception(Exception { kind, reason }) => {
            println!(rt; "  call {call} failed ({kind:?}): {}", reason.as_str())?;
            return Ok(());
        }
    };
    if let Some(object) = reference_at(payload, &ended.refs, &[Op::Field(1)]) {
        println!(rt; "  call {call} gave a counter, by reference {}", object.0)?;
        return Ok(());
    }
    let view = payload.view();
    let root = view.root();
    let (number, text) = values(&root);
    println!(rt; "  call {call} gave the number {number} and the text '{text}'")?;
    if let Some(sums) = root.field(1) {
        for index in 0..sums.len().unwrap_or(0) {
            println!(rt; "    and {}", sums.element::<u64>(index).unwrap_or(0))?;
        }
    }
    Ok(())
}

/// The first number of a struct, and its first pointer as a text: 0 and nothing if there is none.
fn values<'m>(root: &Place<'m>) -> (u64, &'m str) {
    let text = root.field(0).and_then(|first| first.text());
    (root.number::<u64>(0).unwrap_or(0), text.unwrap_or(""))
}

/// A counter: its name, and each sum that it had.
#[derive(Drop)]
struct Counter {
    name: String,
    sums: Vec<u64>,
}

impl Counter {
    /// Adds a number, and answers with the sum; fails if it is too large.
    fn add(&mut self, alloc: Global, task: TaskId, number: u64) -> Result<Command> {
        let Some(sum) = self.sums.last().and_then(|last| last.checked_add(number)) else {
            return failed(alloc, task, ExceptionKind::Failed, "the sum is too large");
        };
        self.sums.push(sum)?;
        let (payload, refs) = contents(alloc, &[sum], "", &[])?;
        Ok(Command::Answer(task, payload, refs))
    }

    /// Answers with its name and its sums: a struct with a text and a list.
    fn tell(&self, alloc: Global, task: TaskId) -> Result<Command> {
        let mut pointers = Pointers::new(alloc);
        pointers.push(Tree::text(alloc, self.name.as_str())?)?;
        let sums = Vec::from_slice(alloc, self.sums.as_slice())?;
        pointers.push(Tree::List(Elements::Eights(sums)))?;
        let words = Vec::new(alloc);
        let payload = Payload::write(alloc, &Tree::Struct { words, pointers }, 0)?;
        Ok(Command::Answer(task, payload, Items::new(alloc)))
    }
}

/// The service: its vat, and the counters. Object 0 is their maker, and object n the nth counter.
#[derive(Drop)]
struct Service {
    host: Host,
    counters: Vec<Counter>,
}

impl Service {
    /// Serves a call, and lets go of what came with it and of what it gave.
    fn serve(&mut self, alloc: Global, task: &Delivery) -> Result<()> {
        let view = task.payload.view();
        let (number, text) = values(&view.root());
        if task.object.0 == 0 && task.method == MAKE {
            let counter = self.make(alloc, number, text)?;
            let (payload, refs) = contents(alloc, &[], "", &[counter])?;
            self.host.answer(task.task, payload, refs)?;
            let_go(&mut self.host, &[counter])?;
        } else {
            let command = self.count(alloc, task, number)?;
            self.host.command(command)?;
        }
        let_go(&mut self.host, &task.refs)
    }

    /// Makes a counter: gives a reference to it.
    fn make(&mut self, alloc: Global, first: u64, name: &str) -> Result<RefId> {
        let (name, sums) = (String::from_str(alloc, name)?, vec![in alloc; first]?);
        self.counters.push(Counter { name, sums })?;
        Ok(self.host.host(ObjectId(self.counters.len() as u64))?)
    }

    /// What a method of a counter answers.
    fn count(&mut self, alloc: Global, call: &Delivery, number: u64) -> Result<Command> {
        let (task, index) = (call.task, call.object.0.checked_sub(1).unwrap_or(u64::MAX));
        let Some(counter) = self.counters.get_mut(index as usize) else {
            return failed(alloc, task, ExceptionKind::Unimplemented, "no such method");
        };
        match call.method {
            ADD => counter.add(alloc, task, number),
            TELL => counter.tell(alloc, task),
            _ => failed(alloc, task, ExceptionKind::Unimplemented, "no such method"),
        }
    }
}

fn failed(alloc: Global, task: TaskId, kind: ExceptionKind, reason: &str) -> Result<Command> {
    let reason = Text::new(alloc, reason)?;
    Ok(Command::Fail(task, Exception { kind, reason }))
}

fn let_go(host: &mut Host, refs: &[RefId]) -> Result<()> {
    for reference in refs {
        host.drop_ref(*reference)?;
    }
    Ok(())
}
