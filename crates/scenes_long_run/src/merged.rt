//! The one order in which two ends' logs say that all happened, and a world in which it happens so.

use crate::ROOT;
use crate::asked::Asked;
use crate::vats::Vats;
use anyhow::{Result, bail};
use link_ends::{Entry, Gathered, Note, Reads};
use rpc_msg::Vat;
use std::alloc::{AllocError, Global};
use vat_world::World;

/// What an entry of a log is of.
#[derive(Clone, Copy, Drop)]
enum Turn {
    Command(Vat),
    Message(Vat),
}

#[derive(Drop)]
struct Order {
    turns: Vec<Turn>,
}

impl Order {
    fn note(&mut self, vat: Vat, entry: &Entry<Note>) -> Result<(), AllocError> {
        let turn = if entry.note.received() {
            Turn::Message(vat)
        } else {
            Turn::Command(vat)
        };
        self.turns.push(turn)?;
        Ok(())
    }
}

impl Reads<Note> for Order {
    ghost reads = { λ old e new. Unit {0} };

    fn first(&mut self, entry: &Entry<Note>) -> Result<(), AllocError> {
        self.note(Vat::A, entry)
    }

    fn second(&mut self, entry: &Entry<Note>) -> Result<(), AllocError> {
        self.note(Vat::B, entry)
    }
}

/// A world whose vats are asked what those of the ends were asked, and take their messages, in the one order of both logs.
pub fn in_one_order(alloc: Global, gathered: &Gathered, mut asked: Asked) -> Result<World> {
    let mut order = Order {
        turns: Vec::new(alloc),
    };
    gathered.read(&mut order)?;
    let mut world = World::new(alloc, ROOT, ROOT)?;
    for turn in &order.turns {
        take(&mut world, &mut asked, *turn)?;
    }
    world.note_tables()?;
    Ok(world)
}

fn take(world: &mut World, asked: &mut Asked, turn: Turn) -> Result<()> {
    let (vat, effects) = match turn {
        Turn::Message(vat) => (vat, world.deliver(vat)?),
        Turn::Command(vat) => {
            let Some(command) = asked.next(vat) else {
                bail!("no command is left");
            };
            let done = world.command(vat, command)?;
            (vat, done.map(|(_, effects)| effects))
        }
    };
    if let Some(effects) = effects {
        world.recycle(vat, effects);
    }
    Ok(())
}
