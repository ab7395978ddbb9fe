ghost use Rattle.std.specs.Prelude.{◌≡◌, None, IfOk, IfErr};
ghost use Rattle.link_rings.specs.Ends.{AreLinked, IsNew};
ghost use Rattle.link_rings.specs.Links.{IsCapacity, FailsBy};

use crate::end::End;
use crate::fault::LinkFault;
use crate::logged_side::LoggedSide;
use crate::party::Party;
use rtrb::RingBuffer;
use std::alloc::Global;
use std::snapshot::Snapshot;

/// The most places of a ring.
pub const MOST_PLACES: usize = 65536;

/// Two ends of one link, each with its side, an empty log, and rings of that many places. At a fault both sides come back:
/// `BadCapacity` if no ring may have so many places, else `Memory`.
pub fn link<P: Party<N, M>, N: Drop, M: Drop>(
    alloc: Global,
    side_a: P,
    side_b: P,
    capacity: usize,
) -> Result<(End<P, N, M>, End<P, N, M>), (LinkFault, P, P)>
    requires up_a { P.down_by (P.state side_a) ≡ None }
    requires up_b { P.down_by (P.state side_b) ≡ None }
    ensures linked { IfOk result (λ ends. AreLinked ends.0 ends.1) }
    ensures new_a { IfOk result (λ ends. IsNew side_a ends.0) }
    ensures new_b { IfOk result (λ ends. IsNew side_b ends.1) }
    ensures fits { IfOk result (λ ends. IsCapacity capacity) }
    ensures back { IfErr result (λ e. (e.1 ≡ side_a) × (e.2 ≡ side_b)) }
    ensures fault { IfErr result (λ e. FailsBy e.0 capacity) }
{
    if capacity == 0 || capacity > MOST_PLACES {
        return Err((LinkFault::BadCapacity, side_a, side_b));
    }
    let Ok((producer_a, consumer_b)) = RingBuffer::new(alloc, capacity) else {
        return Err((LinkFault::Memory, side_a, side_b));
    };
    let Ok((producer_b, consumer_a)) = RingBuffer::new(alloc, capacity) else {
        return Err((LinkFault::Memory, side_a, side_b));
    };
    let start_a = Snapshot::of(&side_a);
    let start_b = Snapshot::of(&side_b);
    let logged_a = match LoggedSide::new(alloc, side_a) {
        Ok(logged) => logged,
        Err(side_a) => return Err((LinkFault::Memory, side_a, side_b)),
    };
    let logged_b = match LoggedSide::new(alloc, side_b) {
        Ok(logged) => logged,
        Err(side_b) => {
            let LoggedSide {
                side: side_a,
                log: _,
                waiting: _,
            } = logged_a;
            return Err((LinkFault::Memory, side_a, side_b));
        }
    };
    let a = End {
        logged: logged_a,
        start: start_a,
        producer: producer_a,
        consumer: consumer_a,
    };
    let b = End {
        logged: logged_b,
        start: start_b,
        producer: producer_b,
        consumer: consumer_b,
    };
    Ok((a, b))
}
