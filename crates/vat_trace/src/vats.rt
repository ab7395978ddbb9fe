ghost use Rattle.std.specs.Prelude.{◌≡◌, IfOk};
ghost use Rattle.link_driver.specs.Ends.{IsNewCore};
ghost use Rattle.vat_trace.specs.Pairs.{first_state, AreFirst};

use link_driver::{EndA, EndB, LinkFault, Vat, link};
use rpc_machine::Level;
use rpc_msg::{Memory, ObjectId};
use std::alloc::Global;
use vat_core::Core;

/// The object of both vats that the other asks for.
const FIRST_OBJECT: ObjectId = ObjectId(0);

/// The ends of a link of two new vats that both have bootstrap object 0, over rings of that many places. `BadCapacity` if no
/// ring may have so many, `Memory` if a growth was refused.
pub(crate) fn new_ends(alloc: Global, capacity: usize) -> Result<(EndA, EndB), LinkFault>
    ensures { IfOk result (λ ends. AreFirst ends.0.end ends.1.end) }
{
    let core_a = match new_core(alloc, Vat::A) {
        Ok(core) => core,
        Err(Memory) => return Err(LinkFault::Memory),
    };
    let core_b = match new_core(alloc, Vat::B) {
        Ok(core) => core,
        Err(Memory) => return Err(LinkFault::Memory),
    };
    match link(alloc, core_a, core_b, capacity) {
        Ok(ends) => return Ok(ends),
        Err((fault, _, _)) => return Err(fault),
    }
}

fn new_core(alloc: Global, vat: Vat) -> Result<Core, Memory>
    ensures state { IfOk result (λ core. core ≡ first_state vat) }
    ensures fresh { IfOk result (λ core. IsNewCore vat core) }
{
    let core = Core::new(alloc, vat, Level::One, Some(FIRST_OBJECT))?;
    // this is so; that it is, is known by a look
    if !core.is_new() {
        return Err(Memory);
    }
    Ok(core)
}
