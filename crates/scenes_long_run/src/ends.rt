//! The two ends of a link, made and put side by side.
ghost use Rattle.std.specs.Prelude.{IfOk};
ghost use Rattle.rpc_msg.specs.declared.ids.Vat.TheVariants.{A, B};
ghost use Rattle.link_rings.specs.Ends.{IsSameEnd};
ghost use Rattle.link_ends.specs.Ends.{AreEnds, IsNewCore};

use crate::asked::Asked;
use crate::run::Run;
use crate::vats::Ends;
use crate::{ROOT, play};
use anyhow::{Result, bail};
use link_ends::{Gathered, gather, link};
use rpc_machine::Level;
use rpc_msg::Vat;
use std::alloc::Global;
use vat_core::Core;

/// How many places a ring has.
const CAPACITY: usize = 2;

/// The same events over rings, and then both ends side by side, with what their vats were asked.
pub fn over_rings(rt: &impl Print, alloc: Global) -> Result<(Gathered, Asked)> {
    let mut run = Run::new(alloc, ends(alloc)?);
    play(rt, &mut run)?;
    let Ends { a, b, asked } = run.vats;
    Ok((gather(a, b), asked))
}

fn ends(alloc: Global) -> Result<Ends>
    ensures { IfOk result (λ ends. AreEnds ends.a.end ends.b.end) }
{
    let core_a = Core::new(alloc, Vat::A, Level::One, ROOT)?;
    let core_b = Core::new(alloc, Vat::B, Level::One, ROOT)?;
    if !core_a.is_new() || !core_b.is_new() {
        bail!("a new core is none");
    }
    match link(alloc, core_a, core_b, CAPACITY) {
        Ok((a, b)) => Ok(Ends {
            a,
            b,
            asked: Asked::new(alloc),
        }),
        Err((fault, _, _)) => bail!("there is no link: {fault:?}"),
    }
}
