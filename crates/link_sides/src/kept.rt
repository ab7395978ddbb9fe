ghost use Rattle.std.specs.Prelude.{◌≡◌, [], true, IfOk};

use core_outbox::Outbox;
use core_telling::{Core, Journal};
use rpc_msg::Memory;
use std::alloc::Global;

/// The core of a vat, the memory of the copy of its Abort that goes into the journal, what the end wrote, and a list for the
/// entries of a step while they are copied.
pub(crate) struct Kept {
    pub(crate) core: Core,
    pub(crate) spare: Outbox,
    pub(crate) journal: Journal,
    pub(crate) copies: Journal,
    pub(crate) alloc: Global,
}

// By hand, as that of a core.
impl Drop for Kept {
    fn drop(self) {
        let Kept {
            core: _,
            spare: _,
            journal: _,
            copies: _,
            alloc: _,
        } = self;
    }
}

impl Kept {
    ghost use Rattle.std.specs.Prelude.{◌≡◌, [], IfOk, IfErr};
    ghost use Rattle.link_sides.specs.Rooms.{held_of, IsReady};

    /// A core that is up, with nothing written. If a growth is refused it comes back.
    pub(crate) fn new(alloc: Global, core: Core) -> Result<Kept, Core>
        ensures held { IfOk result (λ kept. held_of kept ≡ record { core = core; journal = [] }) }
        ensures ready { IfOk result IsReady }
        ensures back { IfErr result (λ back. back ≡ core) }
    {
        match rooms(alloc) {
            Ok((spare, journal, copies)) => return Ok(Kept {
                core,
                spare,
                journal,
                copies,
                alloc,
            }),
            Err(Memory) => return Err(core),
        }
    }

    /// The core.
    pub(crate) fn into_core(self) -> Core
        ensures { result ≡ self.core }
    {
        let Kept {
            core,
            spare: _,
            journal: _,
            copies: _,
            alloc: _,
        } = self;
        core
    }
}

fn rooms(alloc: Global) -> Result<(Outbox, Journal, Journal), Memory>
    ensures spare { IfOk result (λ rooms. rooms.0.can_abort ≡ true) }
    ensures journal { IfOk result (λ rooms. rooms.1.0 ≡ []) }
    ensures room { IfOk result (λ rooms. rooms.1.1 ≡ 6) }
    ensures copies { IfOk result (λ rooms. rooms.2.0 ≡ []) }
{
    let spare = Outbox::new(alloc)?;
    let journal = Journal::new(alloc)?;
    let copies = Journal::new(alloc)?;
    Ok((spare, journal, copies))
}
