//! Lines of traces, and verdicts of traces. Behind each line stands, further in, what is answered; both are worked out by
//! hand from docs/trace.md.
//!
//! - `one LINE`, `two LINE`: what the entry says that is read from that line of version 1 or 2, and its line if that is
//!   another one; or the fault.
//! - `own LINE`: the own line of the entry of a line of version 2, with whatever characters.
//! - `first LINE`: the version that the first line of a trace says, or the fault.
//! - `entry NAME LINE` gives the entry of a line of version 2 a name, and `trace NAME .. : WHAT` asks for the verdict of the
//!   entries with these names.
//!
//! `lines.rt` answers a line, `scene.rt` keeps entries by name and gives verdicts.
#![tactic(auto)]

mod lines;
mod scene;

use anyhow::Result;
use scene::Scene;
use std::alloc::Global;

pub fn play(rt: &impl Print, alloc: Global, lines: &str) -> Result<()> {
    let mut scene = Scene::new(alloc);
    for line in lines.lines() {
        println!(rt; "{line}")?;
        for said in scene.answer(alloc, line)?.lines() {
            println!(rt; "    {said}")?;
        }
    }
    Ok(())
}
