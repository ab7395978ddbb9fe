use crate::durations::Lasting;
use crate::over::Over;
use rpc_msg::{EmbargoId, Memory, RefId, Stamp, Vat};
use std::alloc::Global;

/// An embargo of a vat.
#[derive(Clone, Copy, Drop)]
pub(crate) struct Embargo {
    pub(crate) id: EmbargoId,
    /// The reference that was advanced, if the trace says it.
    pub(crate) reference: Option<RefId>,
    /// How many calls through it were counted as the embargo began.
    before: u64,
    /// How many calls were made through it since.
    pub(crate) waiting: u64,
}

/// A call at a vat.
#[derive(Clone, Copy, Drop)]
pub(crate) struct CallAt {
    pub(crate) stamp: Stamp,
    /// That it has its outcome.
    pub(crate) end: Over,
}

/// Why there is a bar.
#[derive(Clone, Copy, Drop)]
pub(crate) enum Cause {
    /// From the entry that sent the Disembargo to the one that received it back.
    Embargo(Embargo),
    /// A call waits, from the entry with which it came to the one with which it goes on.
    Wait(CallAt),
}

/// What lasts at a vat, along its lifeline.
#[derive(Clone, Copy, Drop)]
pub(crate) struct Bar {
    pub(crate) vat: Vat,
    pub(crate) cause: Cause,
    /// Bars of one vat at one time have different lanes.
    pub(crate) lane: u64,
    pub(crate) began: u64,
    pub(crate) ended: Option<u64>,
}

/// The embargoes and waiting calls of both vats.
#[derive(Drop)]
pub(crate) struct Bars {
    /// In the order in which they began.
    all: Vec<Bar>,
    /// Those that have ended, in the order in which they did.
    closed: Vec<Bar>,
    a: Lasting,
    b: Lasting,
}

impl Bars {
    pub(crate) fn new(alloc: Global) -> Self {
        Bars {
            all: Vec::new(alloc),
            closed: Vec::new(alloc),
            a: Lasting::new(alloc),
            b: Lasting::new(alloc),
        }
    }

    /// Those whose end the trace has.
    pub(crate) fn closed(&self) -> &[Bar] {
        self.closed.as_slice()
    }

    /// All of them.
    pub(crate) fn all(&self) -> &[Bar] {
        self.all.as_slice()
    }

    fn at(&self, vat: Vat) -> &Lasting {
        match vat {
            Vat::A => &self.a,
            Vat::B => &self.b,
        }
    }

    fn at_mut(&mut self, vat: Vat) -> &mut Lasting {
        match vat {
            Vat::A => &mut self.a,
            Vat::B => &mut self.b,
        }
    }

    /// A call begins to wait.
    pub(crate) fn wait(
        &mut self,
        alloc: Global,
        vat: Vat,
        call: CallAt,
        began: u64,
    ) -> Result<(), Memory> {
        let place = self.all.len();
        let lasting = self.at_mut(vat);
        let lane = lasting.begin(place)?;
        lasting.end_by(alloc, Over::GoesOn(call.stamp), place)?;
        lasting.end_by(alloc, call.end, place)?;
        self.add(vat, Cause::Wait(call), lane, began)
    }

    /// An embargo begins, of the reference if the trace says of which.
    pub(crate) fn begin_embargo(
        &mut self,
        alloc: Global,
        vat: Vat,
        id: EmbargoId,
        reference: Option<RefId>,
        began: u64,
    ) -> Result<Embargo, Memory> {
        let place = self.all.len();
        let lasting = self.at_mut(vat);
        let lane = lasting.begin(place)?;
        lasting.end_by(alloc, Over::Embargo(id), place)?;
        let embargo = Embargo {
            id,
            reference,
            before: lasting.start_counting(reference)?,
            waiting: 0,
        };
        self.add(vat, Cause::Embargo(embargo), lane, began)?;
        Ok(embargo)
    }

    fn add(&mut self, vat: Vat, cause: Cause, lane: u64, began: u64) -> Result<(), Memory> {
        self.all.push(Bar {
            vat,
            cause,
            lane,
            began,
            ended: None,
        })?;
        Ok(())
    }

    /// A call is made, which waits if its reference has an embargo.
    pub(crate) fn count(&mut self, vat: Vat, reference: RefId) {
        self.at_mut(vat).count(reference);
    }

    /// The embargo with that id that the vat has.
    pub(crate) fn embargo(&self, vat: Vat, id: EmbargoId) -> Option<Embargo> {
        let place = self.at(vat).newest(Over::Embargo(id))?;
        match self.all.get(place)?.cause {
            Cause::Embargo(embargo) => Some(self.counted(vat, embargo)),
            Cause::Wait(_) => None,
        }
    }

    /// An embargo that lasts, with the calls that wait by now.
    fn counted(&self, vat: Vat, embargo: Embargo) -> Embargo {
        let calls = self.at(vat).calls(embargo.reference);
        Embargo {
            waiting: calls.saturating_sub(embargo.before),
            ..embargo
        }
    }

    /// A bar that lasts, as it is by now.
    pub(crate) fn by_now(&self, bar: &Bar) -> Bar {
        match bar.cause {
            Cause::Embargo(embargo) => Bar {
                cause: Cause::Embargo(self.counted(bar.vat, embargo)),
                ..*bar
            },
            Cause::Wait(_) => *bar,
        }
    }

    /// What is over at a vat ends. Whether there was any.
    pub(crate) fn end(
        &mut self,
        alloc: Global,
        vat: Vat,
        over: &Over,
        number: u64,
    ) -> Result<bool, Memory> {
        let places = self.at_mut(vat).take(alloc, over)?;
        let mut any = false;
        for place in places {
            if self.close(place, number)? {
                any = true;
            }
        }
        Ok(any)
    }

    /// A bar ends, unless it has ended. Whether it lasted.
    fn close(&mut self, place: usize, number: u64) -> Result<bool, Memory> {
        let bar = match self.all.get(place) {
            Some(bar) if bar.ended.is_none() => self.by_now(bar),
            _ => return Ok(false),
        };
        let bar = Bar {
            ended: Some(number),
            ..bar
        };
        self.at_mut(bar.vat).close(bar.lane);
        if let Some(kept) = self.all.get_mut(place) {
            *kept = bar;
        }
        self.closed.push(bar)?;
        Ok(true)
    }
}
