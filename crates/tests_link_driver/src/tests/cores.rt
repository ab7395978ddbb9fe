//! New cores, their ends and seats. If memory is refused, what was handed in comes back, and is taken the second time.
ghost use Rattle.std.specs.Prelude.{IfOk};
ghost use Rattle.link_driver.specs.Ends.{AreEnds, IsNewCore};
ghost use Rattle.rpc_msg.specs.declared.ids.Vat.TheVariants.{A, B};

use link_driver::{EndA, EndB, LinkFault, Seat, link};
use rpc_machine::Level;
use rpc_msg::{Memory, ObjectId, Vat};
use std::alloc::Global;
use std::process::Abort;
use vat_core::Core;

/// A new core with that bootstrap object.
pub(super) fn new_core(alloc: Global, vat: Vat, root: Option<ObjectId>) -> Result<Core, Memory>
    ensures { IfOk result (λ core. IsNewCore vat core) }
{
    let core = Core::new(alloc, vat, Level::One, root)?;
    if !core.is_new() {
        return Err(Memory);
    }
    Ok(core)
}

fn core(alloc: Global, vat: Vat, root: Option<ObjectId>) -> Result<Core, Memory>
    ensures { IfOk result (λ core. IsNewCore vat core) }
{
    match new_core(alloc, vat, root) {
        Ok(core) => Ok(core),
        Err(Memory) => new_core(alloc, vat, root),
    }
}

/// The cores of A and B: B has bootstrap object 0.
pub(super) fn cores(alloc: Global) -> Result<(Core, Core), Memory>
    ensures a { IfOk result (λ cores. IsNewCore A cores.0) }
    ensures b { IfOk result (λ cores. IsNewCore B cores.1) }
{
    let a = core(alloc, Vat::A, None)?;
    let b = core(alloc, Vat::B, Some(ObjectId(0)))?;
    Ok((a, b))
}

/// The ends of their link, with rings of that many places.
pub(super) fn ends(rt: &impl Abort, alloc: Global, capacity: usize) -> Result<(EndA, EndB), Memory>
    ensures { IfOk result (λ ends. AreEnds ends.0.end ends.1.end) }
{
    let (a, b) = cores(alloc)?;
    match link(alloc, a, b, capacity) {
        Ok(ends) => Ok(ends),
        Err((fault, a, b)) => {
            assert!(rt; fault == LinkFault::Memory && a.is_new() && b.is_new());
            match link(alloc, a, b, capacity) {
                Ok(ends) => Ok(ends),
                Err(_) => Err(Memory),
            }
        }
    }
}

/// A seat of a new core.
pub(super) fn seat(
    rt: &impl Abort,
    alloc: Global,
    vat: Vat,
    root: Option<ObjectId>,
) -> Result<Seat, Memory> {
    let core = core(alloc, vat, root)?;
    match Seat::new(alloc, core) {
        Ok(seat) => Ok(seat),
        Err((fault, core)) => {
            assert!(rt; fault == LinkFault::Memory && core.is_new());
            match Seat::new(alloc, core) {
                Ok(seat) => Ok(seat),
                Err(_) => Err(Memory),
            }
        }
    }
}
