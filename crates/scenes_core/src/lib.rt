//! Scenes of two cores: the lines of a script are played, and below each stands, word for word, what the cores say and do
//! then. They are worked out from the rules of docs/protocol.md.
//!
//! A line `scene ..` begins with two new cores, `scene level 0 ..` with a vat a of level 0. `b hears ..` gives vat b a
//! message that its peer needn't have sent (`heard.rt`). `b reject p overloaded busy` breaks a promise, and `a fail 0 failed
//! x` fails a task, with that exception and not with that of a script. `100 times ..` plays a line so often, with the number
//! of the turn for a `$`, and tells what is said at the last. All else are lines of a script (docs/script.md).
//!
//! `scene.rt` plays the lines, `told.rt` writes what is said (in the words of `scenes_words`), `heard.rt` makes the
//! messages of the peer.
#![tactic(auto)]

mod heard;
mod scene;
mod told;

use anyhow::Result;
use scene::Scene;
use std::alloc::Global;

/// So many lines are told whole.
const SHOWN: usize = 12;

pub fn play(rt: &impl Print, alloc: Global, lines: &str) -> Result<()> {
    let mut scene = Scene::new(alloc, "")?;
    play_lines(rt, alloc, &mut scene, lines)
}

fn play_lines(rt: &impl Print, alloc: Global, scene: &mut Scene, lines: &str) -> Result<()> {
    for line in lines.lines() {
        println!(rt; "{line}")?;
        if line.starts_with("scene ") {
            scene.begin(alloc, line)?;
        } else if !line.is_empty() {
            scene.play(alloc, line)?;
            tell(rt, scene.said.as_str())?;
        }
    }
    Ok(())
}

/// What was said; of many lines the first two and the last two.
fn tell(rt: &impl Print, said: &str) -> Result<()> {
    let count = said.lines().count();
    for (at, line) in said.lines().enumerate() {
        if count <= SHOWN || at < 2 || count.saturating_sub(at) <= 2 {
            println!(rt; "    {line}")?;
        } else if at == 2 {
            println!(rt; "    .. {} more lines", count.saturating_sub(4))?;
        }
    }
    Ok(())
}
