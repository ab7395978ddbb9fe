//! Worked scenes, with values from the rules. Each part of `stdin` stands behind a line with the name of what plays it; `stdout`
//! has what they print, worked out by hand.
//!
//! A scene is a text and no test, since each test is a function to be proved. What needs little below it is played by a
//! library, which is proved beside others as soon as what it depends on is; `script_scenes.rt` plays scripts, each a `Scene`
//! of `script_scene.rt`.
#![tactic(auto)]

mod script_scene;
mod script_scenes;

use anyhow::{Result, bail};
use std::io;

/// What the name of a part stands behind.
const PART: &str = "==== ";

fn main(rt: HostRuntime) -> Result<()> {
    let alloc = rt.alloc();
    let text = io::read_to_string(alloc, rt.stdin())?;
    for part in text.split(PART).skip(1) {
        let Some((name, lines)) = part.split_once('\n') else {
            bail!("a part begins with its name");
        };
        println!(rt; "{PART}{name}")?;
        match name {
            "scenes_core" => scenes_core::play(&rt, alloc, lines)?,
            "script_scenes" => script_scenes::play(&rt, alloc, lines)?,
            "scenes_trace" => scenes_trace::play(&rt, alloc, lines)?,
            _ => bail!("nothing plays {name}"),
        }
    }
    Ok(())
}
