//! Two vats with their applications.

use crate::application::{Application, Gone, pick};
use crate::draws::Draws;
use crate::vats::Vats;
use anyhow::{Result, bail};
use rpc_machine::{CallCommand, Command, Effects};
use rpc_msg::{Exception, ExceptionKind, Items, ObjectId, Payload, RefId, Text, Vat};
use std::alloc::Global;

/// What a drawn number stands for: the first ten are deliveries, and what lets go is drawn more often.
const DRAWN: usize = 30;

/// How many steps it may take until all is let go.
const ENDINGS: u32 = 1_000_000;

#[derive(Drop)]
pub struct Run<V: Vats> {
    pub vats: V,
    a: Application,
    b: Application,
    draws: Draws,
    pub obeyed: u32,
    pub refused: u32,
    alloc: Global,
}

impl<V: Vats> Run<V> {
    pub fn new(alloc: Global, vats: V) -> Run<V>
        ensures { V.same vats result.vats }
    {
        Run {
            vats,
            a: Application::new(alloc),
            b: Application::new(alloc),
            draws: Draws::new(),
            obeyed: 0,
            refused: 0,
            alloc,
        }
    }

    /// One event.
    pub fn draw(&mut self) -> Result<()>
        ensures { V.same self.old.vats self.new.vats }
    {
        let vat = match self.draws.below(2) {
            Some(0) => Vat::A,
            _ => Vat::B,
        };
        let drawn = self.draws.below(DRAWN).unwrap_or(0);
        match self.command(vat, drawn)? {
            Some(command) => self.obey(vat, command),
            None => {
                self.deliver(vat)?;
                Ok(())
            }
        }
    }

    fn command(&mut self, vat: Vat, drawn: usize) -> Result<Option<Command>>
        ensures { V.same self.old.vats self.new.vats }
    {
        match vat {
            Vat::A => drawn_for(self.alloc, &mut self.draws, &self.a, drawn),
            Vat::B => drawn_for(self.alloc, &mut self.draws, &self.b, drawn),
        }
    }

    fn obey(&mut self, vat: Vat, command: Command) -> Result<()>
        ensures { V.same self.old.vats self.new.vats }
    {
        let gone = Gone::of(&command);
        let Some((granted, effects)) = self.vats.command(vat, command)? else {
            self.refused = self.refused.saturating_add(1);
            return Ok(());
        };
        self.obeyed = self.obeyed.saturating_add(1);
        let held = of(vat, &mut self.a, &mut self.b);
        held.forget(gone);
        let kept = held.keep(granted);
        self.note(vat, effects)?;
        kept
    }

    /// Keeps what came, and gives the memory of it back. No vat is to go down.
    fn note(&mut self, vat: Vat, effects: Effects) -> Result<()>
        ensures { V.same self.old.vats self.new.vats }
    {
        let down = effects.down;
        let noted = of(vat, &mut self.a, &mut self.b).note(&effects);
        self.vats.recycle(vat, effects);
        match down {
            Some(number) => bail!("a vat went down: {number}"),
            None => noted,
        }
    }

    /// Whether there was a message.
    fn deliver(&mut self, vat: Vat) -> Result<bool>
        ensures { V.same self.old.vats self.new.vats }
    {
        let Some(effects) = self.vats.deliver(vat)? else {
            return Ok(false);
        };
        self.note(vat, effects)?;
        Ok(true)
    }

    /// All is answered, settled and let go, until nothing is on its way.
    pub fn let_go(&mut self) -> Result<()>
        ensures { V.same self.old.vats self.new.vats }
    {
        for _ in 0..ENDINGS {
            let a = self.let_one_go(Vat::A)?;
            let b = self.let_one_go(Vat::B)?;
            if !a && !b {
                return Ok(());
            }
        }
        bail!("it does not end")
    }

    /// Whether there was something.
    fn let_one_go(&mut self, vat: Vat) -> Result<bool>
        ensures { V.same self.old.vats self.new.vats }
    {
        let alloc = self.alloc;
        let held = of(vat, &mut self.a, &mut self.b);
        let command = if let Some(task) = held.tasks.pop() {
            Command::Answer(task, Payload::null(alloc)?, Items::new(alloc))
        } else if let Some(promise) = held.promises.pop() {
            Command::Reject(promise, exception(alloc)?)
        } else if let Some(reference) = held.refs.pop() {
            Command::DropRef(reference)
        } else if let Some(call) = held.calls.pop() {
            Command::Finish(call)
        } else {
            return self.deliver(vat);
        };
        self.obey(vat, command)?;
        Ok(true)
    }
}

/// What the application of a vat holds.
fn of<'a>(vat: Vat, a: &'a mut Application, b: &'a mut Application) -> &'a mut Application {
    match vat {
        Vat::A => a,
        Vat::B => b,
    }
}

/// The command for which the number stands, if the application has what it wants.
fn drawn_for(
    alloc: Global,
    draws: &mut Draws,
    held: &Application,
    drawn: usize,
) -> Result<Option<Command>> {
    let command = match drawn {
        0..=9 => None,
        10..=13 => pick(draws, &held.refs).map(Command::DropRef),
        14 | 15 => pick(draws, &held.calls).map(Command::Finish),
        16 => Some(Command::Bootstrap),
        17 => Some(Command::Promise),
        18 => Some(Command::Host(ObjectId(drawn as u64))),
        19 => pick(draws, &held.refs).map(Command::CloneRef),
        20 => match pick(draws, &held.calls) {
            Some(call) => Some(Command::Field(call, Items::new(alloc))),
            None => None,
        },
        21 | 22 => pick(draws, &held.refs).map(Command::Advance),
        23 => match pick(draws, &held.promises) {
            Some(promise) => Some(Command::Reject(promise, exception(alloc)?)),
            None => None,
        },
        24 => match pick(draws, &held.tasks) {
            Some(task) => Some(Command::Fail(task, exception(alloc)?)),
            None => None,
        },
        25 | 26 => resolving(draws, held),
        27 => answering(alloc, draws, held)?,
        _ => calling(alloc, draws, held)?,
    };
    Ok(command)
}

fn resolving(draws: &mut Draws, held: &Application) -> Option<Command> {
    let promise = pick(draws, &held.promises)?;
    let reference = pick(draws, &held.refs)?;
    Some(Command::Resolve(promise, reference))
}

fn answering(alloc: Global, draws: &mut Draws, held: &Application) -> Result<Option<Command>> {
    let Some(task) = pick(draws, &held.tasks) else {
        return Ok(None);
    };
    let given = pick(draws, &held.refs);
    let (payload, refs) = contents(alloc, given)?;
    Ok(Some(Command::Answer(task, payload, refs)))
}

/// A call, with a reference if one is drawn.
fn calling(alloc: Global, draws: &mut Draws, held: &Application) -> Result<Option<Command>> {
    let Some(reference) = pick(draws, &held.refs) else {
        return Ok(None);
    };
    let given = match draws.below(2) {
        Some(0) => None,
        _ => pick(draws, &held.refs),
    };
    let (payload, refs) = contents(alloc, given)?;
    Ok(Some(Command::Call(CallCommand {
        reference,
        interface: 7,
        method: 1,
        payload,
        refs,
    })))
}

/// No capability, or one as a payload has it.
fn contents(alloc: Global, given: Option<RefId>) -> Result<(Payload, Items<RefId>)> {
    let payload = match given {
        None => Payload::null(alloc)?,
        Some(_) => Payload::root_capability(alloc)?,
    };
    let refs = Vec::from_slice(alloc, given.as_slice())?;
    Ok((payload, Items::from_vec(refs)))
}

fn exception(alloc: Global) -> Result<Exception> {
    Ok(Exception {
        kind: ExceptionKind::Failed,
        reason: Text::new(alloc, "drawn")?,
    })
}
