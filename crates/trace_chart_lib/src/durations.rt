use crate::over::Over;
use rpc_msg::{Memory, RefId};
use std::alloc::Global;
use std::collections::BTreeMap;
use std::mem;

/// The bars of one vat that last. A bar is known by its place among all bars, which come in the order in which they began.
#[derive(Drop)]
pub(crate) struct Lasting {
    /// By their lanes: one that began later has a greater lane.
    by_lane: BTreeMap<u64, usize>,
    /// By what ends them. Those are there too that something else has ended.
    by_end: BTreeMap<Over, Vec<usize>>,
    /// How many calls were made through a reference since its first embargo.
    calls: BTreeMap<RefId, u64>,
}

impl Lasting {
    pub(crate) fn new(alloc: Global) -> Self {
        Lasting {
            by_lane: BTreeMap::new(alloc),
            by_end: BTreeMap::new(alloc),
            calls: BTreeMap::new(alloc),
        }
    }

    /// A bar begins: its lane, beyond those of the bars that last.
    pub(crate) fn begin(&mut self, place: usize) -> Result<u64, Memory> {
        let lane = match self.by_lane.last_key_value() {
            Some((last, _)) => last.saturating_add(1),
            None => 0,
        };
        self.by_lane.insert(lane, place)?;
        Ok(lane)
    }

    /// What will end a bar.
    pub(crate) fn end_by(&mut self, alloc: Global, over: Over, place: usize) -> Result<(), Memory> {
        self.by_end
            .entry(over)?
            .or_insert(Vec::new(alloc))
            .push(place)?;
        Ok(())
    }

    /// The newest bar that this ends.
    pub(crate) fn newest(&self, over: Over) -> Option<usize> {
        self.by_end.get(&over)?.last().copied()
    }

    /// The bars that this ends, the oldest first. Some may have ended already.
    pub(crate) fn take(&mut self, alloc: Global, over: &Over) -> Result<Vec<usize>, Memory> {
        match over {
            Over::All => self.take_all(alloc),
            _ => Ok(self.by_end.remove(over).unwrap_or(Vec::new(alloc))),
        }
    }

    fn take_all(&mut self, alloc: Global) -> Result<Vec<usize>, Memory> {
        self.by_end = BTreeMap::new(alloc);
        let by_lane = mem::replace(&mut self.by_lane, BTreeMap::new(alloc));
        let places = by_lane.into_values().collect(alloc)?;
        Ok(places)
    }

    /// The bar in that lane ends.
    pub(crate) fn close(&mut self, lane: u64) {
        let _place = self.by_lane.remove(&lane);
    }

    /// From now on the calls through a reference are counted: how many were before.
    pub(crate) fn start_counting(&mut self, reference: Option<RefId>) -> Result<u64, Memory> {
        match reference {
            Some(reference) => Ok(*self.calls.entry(reference)?.or_insert(0)),
            None => Ok(0),
        }
    }

    /// A call is made through a reference.
    pub(crate) fn count(&mut self, reference: RefId) {
        if let Some(calls) = self.calls.get_mut(&reference) {
            *calls = calls.saturating_add(1);
        }
    }

    /// How many calls were made through a reference since they are counted.
    pub(crate) fn calls(&self, reference: Option<RefId>) -> u64 {
        match reference {
            Some(reference) => self.calls.get(&reference).copied().unwrap_or(0),
            None => 0,
        }
    }
}
