ghost use Rattle.std.specs.Prelude.{◌≡◌, IfOk, IfErr};
ghost use Rattle.rpc_msg.specs.declared.ids.Vat.TheVariants.{A, B};
ghost use Rattle.link_rings.specs.Ends.{IsNew};
ghost use Rattle.link_rings.specs.Links.{IsCapacity, FailsBy};
ghost use Rattle.link_ends.specs.Ends.{new_held, AreEnds, IsNewCore};

use crate::ends::{AtA, AtB, EndA, EndB, VatEnd};
use laws_ends::new_is_start;
use link_rings::{LinkFault, MOST_PLACES};
use link_sides::{Core, VatSide};
use std::alloc::Global;
use std::marker::PhantomData;

/// Two ends of one link, of two new cores of level 1, with rings of that many places. At a fault both cores come back:
/// `BadCapacity` if no ring may have so many places, else `Memory`.
pub fn link(
    alloc: Global,
    core_a: Core,
    core_b: Core,
    capacity: usize,
) -> Result<(EndA, EndB), (LinkFault, Core, Core)>
    requires new_a { IsNewCore A core_a }
    requires new_b { IsNewCore B core_b }
    ensures ends { IfOk result (λ ends. AreEnds ends.0.end ends.1.end) }
    ensures end_a { IfOk result (λ ends. IsNew (new_held core_a) ends.0.end) }
    ensures end_b { IfOk result (λ ends. IsNew (new_held core_b) ends.1.end) }
    ensures fits { IfOk result (λ ends. IsCapacity capacity) }
    ensures back { IfErr result (λ e. (e.1 ≡ core_a) × (e.2 ≡ core_b)) }
    ensures fault { IfErr result (λ e. FailsBy e.0 capacity) }
{
    new_is_start();
    if capacity == 0 || capacity > MOST_PLACES {
        return Err((LinkFault::BadCapacity, core_a, core_b));
    }
    let side_a = match VatSide::new(alloc, core_a) {
        Ok(side) => side,
        Err(core_a) => return Err((LinkFault::Memory, core_a, core_b)),
    };
    let side_b = match VatSide::new(alloc, core_b) {
        Ok(side) => side,
        Err(core_b) => return Err((LinkFault::Memory, side_a.into_core(), core_b)),
    };
    match link_rings::link(alloc, side_a, side_b, capacity) {
        Ok((a, b)) => {
            let a: EndA = VatEnd {
                end: a,
                at: PhantomData,
            };
            let b: EndB = VatEnd {
                end: b,
                at: PhantomData,
            };
            return Ok((a, b));
        }
        Err((fault, side_a, side_b)) => {
            return Err((fault, side_a.into_core(), side_b.into_core()));
        }
    }
}
