use crate::end::End;
use crate::entry::Entry;
use crate::logged_side::LoggedSide;
use crate::merge::{Reads, read_both};
use crate::party::Party;
use std::alloc::AllocError;
use std::marker::Model;
use std::snapshot::Snapshot;

/// The sides and the logs of the two ends of one link, which fit: so there is one order of both logs, in which all of it
/// could have happened in one thread.
#[derive(Drop)]
pub struct Gathered<P: Party<N, M>, N, M> {
    a: LoggedSide<P, N, M>,
    start_a: Snapshot<P>,
    b: LoggedSide<P, N, M>,
    start_b: Snapshot<P>,
}

impl<P: Party<N, M>, N, M> Model for Gathered<P, N, M> {
    ghost use Rattle.link_rings.specs.LoggedSides.{at};
    ghost use Rattle.link_rings.specs.Gather.{Both, IsGathered};

    ghost Value = { Both P N };

    ghost view = { λ a. record { start_a = a.start_a.value; side_a = a.a.side; log_a = a.a.log.items; start_b = a.start_b.value; side_b = a.b.side; log_b = a.b.log.items } };

    ghost invariant = { λ a. IsGathered P.input P.sends P.step (P.state a.start_a.value) (P.state a.start_b.value) (at P.state a.a) (at P.state a.b) };
}

impl<P: Party<N, M>, N: Drop, M: Drop> Gathered<P, N, M> {
    ghost use Rattle.std.specs.Prelude.{◌≡◌, OnOk};
    ghost use Rattle.link_rings.specs.Ends.{AreLinked};
    ghost use Rattle.link_rings.specs.Gather.{order, ReadsAll, IsExplained};

    /// Puts the two ends of one link side by side, at any moment of either. Takes no memory.
    pub fn of(a: End<P, N, M>, b: End<P, N, M>) -> Self
        requires { AreLinked a b }
        ensures { result ≡ record { start_a = a.start; side_a = a.side; log_a = a.log; start_b = b.start; side_b = b.side; log_b = b.log } }
    {
        let End {
            logged: logged_a,
            start: start_a,
            producer: mut producer_a,
            consumer: mut consumer_a,
        } = a;
        let End {
            logged: logged_b,
            start: start_b,
            producer: mut producer_b,
            consumer: mut consumer_b,
        } = b;
        consumer_a.slots_beside(&mut producer_b);
        consumer_b.slots_beside(&mut producer_a);
        Gathered {
            a: logged_a,
            start_a,
            b: logged_b,
            start_b,
        }
    }

    /// The log of the first end.
    pub fn log_a(&self) -> &[Entry<N>]
        ensures { result.now ≡ self.now.log_a }
    {
        &self.a.log
    }

    /// The log of the second end. The one order of both logs is a run of the pair machine, from both sides as they were
    /// handed in to both as they are.
    pub fn log_b(&self) -> &[Entry<N>]
        ensures log { result.now ≡ self.now.log_b }
        ensures explained { IsExplained P.input P.sends P.step (P.state self.now.start_a) (P.state self.now.start_b) (P.state self.now.side_a) (P.state self.now.side_b) self.now.log_a self.now.log_b }
    {
        &self.b.log
    }

    /// Has the entries of both logs read, in their one order; none is copied. `AllocError` if the reader answered it:
    /// then it was not handed all.
    pub fn read<V: Reads<N>>(&self, reader: &mut V) -> Result<(), AllocError>
        ensures { OnOk result (ReadsAll V.reads reader.old (order P.input P.sends self.now.log_a self.now.log_b) reader.new) }
    {
        read_both::<P, N, M, V>(&self.a.log, &self.b.log, reader)
    }

    /// The two sides as they are.
    pub fn sides(&self) -> (&P, &P)
        ensures { (result.0.now ≡ self.now.side_a) × (result.1.now ≡ self.now.side_b) }
    {
        (&self.a.side, &self.b.side)
    }
}
