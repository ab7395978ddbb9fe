//! Worked scripts: each scene's script is played on two vats, and its trace must say what stands under the script's lines,
//! further in (`scenes_words`), as is worked out from the rules of docs/protocol.md.
//!
//! A line `scene ..` begins a scene, and an empty line ends it.

use crate::script_scene::Scene;
use anyhow::Result;
use std::alloc::Global;

pub fn play(rt: &impl Print, alloc: Global, lines: &str) -> Result<()> {
    let mut scene = Scene::new(alloc);
    for line in lines.lines() {
        if line.is_empty() {
            let verdict = scene.played(alloc)?;
            println!(rt; "{verdict}")?;
            scene = Scene::new(alloc);
        } else {
            scene.add(line)?;
        }
    }
    Ok(())
}
