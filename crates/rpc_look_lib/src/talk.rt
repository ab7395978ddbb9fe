//! A conversation so far: frames come one after the other, and are told.
ghost use Rattle.std.specs.Prelude.{◌≡◌, false, length, OnOk};
ghost use Rattle.look_books.specs.After.{unsaid};
ghost use Rattle.rpc_look_lib.specs.Talking.{stand_of, IsUnspoken, is_done, moment_of, ComesAs, Comes};

use crate::failure::Failure;
use crate::page::Page;
use crate::watch::{Told, Watch};
use look_books::Moment;
use look_pieces::Side;
use std::alloc::Global;

/// What its messages were found to be, and which one came last.
#[derive(Drop)]
pub(crate) struct Talk {
    pub(crate) watch: Watch,
    pub(crate) last: Moment,
}

impl Talk {
    /// Nothing was said.
    pub(crate) fn new(alloc: Global) -> Talk
        ensures { IsUnspoken (stand_of result) }
    {
        Talk {
            watch: Watch::new(alloc),
            last: Moment {
                number: 0,
                time: None,
                size: 0,
            },
        }
    }

    /// Whether no further message is asked for.
    pub(crate) fn is_done(&self, at: Option<u64>) -> bool
        ensures { result ≡ is_done at (stand_of self.now) }
    {
        match at {
            Some(at) => at <= self.last.number,
            None => false,
        }
    }

    /// When the next message comes, if its frame has that size.
    pub(crate) fn moment(&self, time: Option<u64>, size: usize) -> Moment
        ensures { result ≡ moment_of (stand_of self.now) time size }
    {
        Moment {
            number: self.last.number.saturating_add(1),
            time,
            size: size as u64,
        }
    }

    /// The next message comes: a frame of that size, and what it was found to be.
    pub(crate) fn tell<P: Page>(
        &mut self,
        page: &mut P,
        side: Side,
        time: Option<u64>,
        size: usize,
        told: Told,
    ) -> Result<(), Failure>
        ensures { OnOk result (ComesAs (stand_of self.old) side (moment_of (stand_of self.old) time size) told (stand_of self.new)) }
    {
        let moment = self.moment(time, size);
        page.say_told(&self.watch.books, side, moment, &told)?;
        self.watch.take(side, moment, told)?;
        self.last = moment;
        page.note_totals(&self.watch.books, moment)
    }

    /// The next message comes: a frame of an end.
    pub(crate) fn tell_frame<P: Page>(
        &mut self,
        page: &mut P,
        side: Side,
        time: Option<u64>,
        frame: &[u8],
    ) -> Result<(), Failure>
        ensures { OnOk result (Comes (stand_of self.old) side time frame.now (stand_of self.new)) }
    {
        let told = self.watch.judge_frame(side, frame)?;
        self.tell(page, side, time, frame.len(), told)
    }
}
