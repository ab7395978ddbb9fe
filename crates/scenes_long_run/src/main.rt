//! A long run of two vats: 20,000 events, drawn by a fixed rule from every command and delivery, and then all is answered,
//! settled and let go; first in a world, then over the rings of a link. What it says is so whatever was drawn: no vat goes
//! down, the trace breaks no law, and nothing is left in the tables. Over rings each vat does what it does in a world. The
//! journal of both ends is that of a world in which all happens in the one order of both logs.
//!
//! `draws.rt` draws, `run.rt` makes the event of it and lets all go at the end, `application.rt` is what each vat's
//! application holds. `vats.rt` is what is driven; `ends.rt` makes the ends of a link; `asked.rt` keeps what their vats are
//! asked, and `merged.rt` asks it once more, in the order of both logs; `written.rt`: journals in few words.
#![tactic(auto)]

mod application;
mod asked;
mod draws;
mod ends;
mod merged;
mod run;
mod vats;
mod written;

use anyhow::Result;
use ends::over_rings;
use merged::in_one_order;
use rpc_check::{Verdict, check};
use rpc_journal::{Counts, JournalEntry};
use rpc_msg::ObjectId;
use run::Run;
use std::alloc::Global;
use vat_world::World;
use vats::Vats;
use written::{Written, lines};

const EVENTS: u32 = 20_000;

/// The bootstrap object of both vats.
const ROOT: Option<ObjectId> = Some(ObjectId(0));

fn main(rt: HostRuntime) -> Result<()> {
    let alloc = rt.alloc();
    let world = in_world(&rt, alloc)?;
    tell(&rt, alloc, world.journal())?;
    let (gathered, asked) = over_rings(&rt, alloc)?;
    let mut journal = gathered.journal(alloc)?;
    journal.push(gathered.tables()?)?;
    tell(&rt, alloc, &journal)?;
    if Written::of(alloc, &journal)? == Written::of(alloc, world.journal())? {
        println!(rt; "over rings each vat does what it does in a world")?;
    } else {
        println!(rt; "over rings a vat does something else")?;
    }
    let world = in_one_order(alloc, &gathered, asked)?;
    if lines(alloc, &journal)? == lines(alloc, world.journal())? {
        println!(rt; "in the order of both logs a world has the journal of both ends")?;
    } else {
        println!(rt; "in the order of both logs a world has another journal")?;
    }
    Ok(())
}

fn in_world(rt: &impl Print, alloc: Global) -> Result<World> {
    let mut run = Run::new(alloc, World::new(alloc, ROOT, ROOT)?);
    play(rt, &mut run)?;
    let mut world = run.vats;
    world.note_tables()?;
    Ok(world)
}

/// All events, and then all is let go.
fn play<V: Vats>(rt: &impl Print, run: &mut Run<V>) -> Result<()>
    ensures { V.same run.old.vats run.new.vats }
{
    for _ in 0..EVENTS {
        run.draw()?;
    }
    println!(rt; "{EVENTS} events were drawn")?;
    if run.obeyed < 5_000 {
        println!(rt; "few commands were obeyed: {}", run.obeyed)?;
    }
    run.let_go()
}

/// What is left at the end of a journal, and its verdict.
fn tell(rt: &impl Print, alloc: Global, journal: &[JournalEntry]) -> Result<()> {
    match journal.last() {
        Some(JournalEntry::Tables(a, b)) => {
            println!(rt; "left at a: {}, at b: {}", number(a), number(b))?;
        }
        _ => println!(rt; "no counts were noted")?,
    }
    match check(alloc, journal)? {
        Verdict::Good(delivered) if delivered < 500 => println!(rt; "few calls were delivered")?,
        Verdict::Good(_) => println!(rt; "the trace breaks no law")?,
        verdict => println!(rt; "the trace breaks a law: {verdict:?}")?,
    }
    Ok(())
}

/// How many exports and imports there are.
fn number(counts: &Counts) -> usize {
    counts.exports.len().saturating_add(counts.imports.len())
}
