//! The bars of questions and of embargoes, along the lifelines of the ends that have them.
use crate::step::Step;
use look_pieces::Side;
use rpc_msg::{EmbargoId, QuestionId};
use std::alloc::{AllocError, Global};
use std::collections::BTreeMap;

/// So many bars stand side by side at an end.
pub(crate) const LANES: usize = 8;

/// Why there is a bar.
#[derive(Clone, Copy, Drop)]
pub(crate) enum Cause {
    /// A question, asked in the message of that number.
    Question(u32, u64),
    /// An embargo, begun in the message of that number.
    Embargo(u32, u64),
}

/// A bar. Rows are counted from 0.
#[derive(Clone, Copy, Drop)]
pub(crate) struct Bar {
    pub(crate) side: Side,
    pub(crate) cause: Cause,
    /// None where it has no lane.
    pub(crate) lane: Option<usize>,
    pub(crate) began: usize,
    /// Where the question's Return came.
    pub(crate) returned: Option<usize>,
    /// Whether only the Return is to come, or only the Finish.
    is_half_over: bool,
    pub(crate) ended: Option<usize>,
}

/// What lasts at an end.
#[derive(Drop)]
struct Lasting {
    questions: BTreeMap<u32, Bar>,
    embargoes: BTreeMap<u32, Bar>,
    lanes: [bool; LANES],
}

impl Lasting {
    fn new(alloc: Global) -> Lasting {
        Lasting {
            questions: BTreeMap::new(alloc),
            embargoes: BTreeMap::new(alloc),
            lanes: [false; LANES],
        }
    }

    /// Takes a lane, if one is free.
    fn take_lane(&mut self) -> Option<usize> {
        let lane = self.lanes.iter().position(|taken| !*taken)?;
        *self.lanes.get_mut(lane)? = true;
        Some(lane)
    }

    fn free_lane(&mut self, lane: Option<usize>) {
        if let Some(lane) = lane
            && let Some(taken) = self.lanes.get_mut(lane)
        {
            *taken = false;
        }
    }
}

/// The bars of a picture, and what lasts of them.
#[derive(Drop)]
pub(crate) struct Bars {
    client: Lasting,
    server: Lasting,
    /// Those that have ended, and lie in the picture.
    all: Vec<Bar>,
    /// How many of them have no lane.
    pub(crate) hidden: u64,
}

impl Bars {
    pub(crate) fn new(alloc: Global) -> Bars {
        Bars {
            client: Lasting::new(alloc),
            server: Lasting::new(alloc),
            all: Vec::new(alloc),
            hidden: 0,
        }
    }

    /// Those that lie in the picture and have a lane.
    pub(crate) fn all(&self) -> &[Bar] {
        self.all.as_slice()
    }

    fn at(&mut self, side: Side) -> &mut Lasting {
        match side {
            Side::Client => &mut self.client,
            Side::Server => &mut self.server,
        }
    }

    /// A message of an end comes, which has or would have that row.
    pub(crate) fn take(
        &mut self,
        side: Side,
        step: Step,
        row: usize,
        number: u64,
    ) -> Result<(), AllocError> {
        match step {
            Step::Asks(question, is_owed) => self.ask(side, question, is_owed, row, number),
            Step::Answers(question, is_owed) => {
                self.answer(side.other(), question, is_owed, row)
            }
            Step::Finishes(question) => self.finish(side, question, row),
            Step::Begins(embargo) => self.begin(side, embargo, row, number),
            Step::Lifts(embargo) => self.lift(side.other(), embargo, row),
            Step::Passes => Ok(()),
        }
    }

    fn ask(
        &mut self,
        side: Side,
        question: QuestionId,
        is_owed: bool,
        row: usize,
        number: u64,
    ) -> Result<(), AllocError> {
        let lasting = self.at(side);
        let bar = Bar {
            side,
            cause: Cause::Question(question.0, number),
            lane: lasting.take_lane(),
            began: row,
            returned: None,
            is_half_over: !is_owed,
            ended: None,
        };
        match lasting.questions.insert(question.0, bar)? {
            Some(before) => self.keep(before),
            None => Ok(()),
        }
    }

    fn answer(
        &mut self,
        side: Side,
        question: QuestionId,
        is_owed: bool,
        row: usize,
    ) -> Result<(), AllocError> {
        let Some(bar) = self.at(side).questions.remove(&question.0) else {
            return Ok(());
        };
        let bar = Bar {
            returned: bar.returned.or(Some(row)),
            ..bar
        };
        if bar.is_half_over || !is_owed {
            return self.end(bar, row);
        }
        self.put_back(question, bar)
    }

    fn finish(&mut self, side: Side, question: QuestionId, row: usize) -> Result<(), AllocError> {
        let Some(bar) = self.at(side).questions.remove(&question.0) else {
            return Ok(());
        };
        if bar.is_half_over || bar.returned.is_some() {
            return self.end(bar, row);
        }
        let bar = Bar {
            is_half_over: true,
            ..bar
        };
        self.put_back(question, bar)
    }

    fn put_back(&mut self, question: QuestionId, bar: Bar) -> Result<(), AllocError> {
        let _none = self.at(bar.side).questions.insert(question.0, bar)?;
        Ok(())
    }

    fn begin(
        &mut self,
        side: Side,
        embargo: EmbargoId,
        row: usize,
        number: u64,
    ) -> Result<(), AllocError> {
        let lasting = self.at(side);
        let bar = Bar {
            side,
            cause: Cause::Embargo(embargo.0, number),
            lane: lasting.take_lane(),
            began: row,
            returned: None,
            is_half_over: false,
            ended: None,
        };
        match lasting.embargoes.insert(embargo.0, bar)? {
            Some(before) => self.keep(before),
            None => Ok(()),
        }
    }

    fn lift(&mut self, side: Side, embargo: EmbargoId, row: usize) -> Result<(), AllocError> {
        match self.at(side).embargoes.remove(&embargo.0) {
            Some(bar) => self.end(bar, row),
            None => Ok(()),
        }
    }

    /// A bar ends there, and its lane is free.
    fn end(&mut self, bar: Bar, row: usize) -> Result<(), AllocError> {
        self.at(bar.side).free_lane(bar.lane);
        self.keep(Bar {
            ended: Some(row),
            ..bar
        })
    }

    /// A bar is drawn, if it lies in the picture.
    fn keep(&mut self, bar: Bar) -> Result<(), AllocError> {
        if bar.ended == Some(bar.began) {
            return Ok(());
        }
        if bar.lane.is_none() {
            self.hidden = self.hidden.saturating_add(1);
            return Ok(());
        }
        self.all.push(bar).map_err(AllocError::from)
    }

    /// The conversation is over, of which so many rows are drawn: what lasts is drawn to the end.
    pub(crate) fn finish_all(&mut self, alloc: Global, rows: usize) -> Result<(), AllocError> {
        self.keep_lasting(alloc, Side::Client, rows)?;
        self.keep_lasting(alloc, Side::Server, rows)
    }

    fn keep_lasting(&mut self, alloc: Global, side: Side, rows: usize) -> Result<(), AllocError> {
        let lasting = std::mem::replace(self.at(side), Lasting::new(alloc));
        for bar in lasting.questions.into_values() {
            self.keep_open(bar, rows)?;
        }
        for bar in lasting.embargoes.into_values() {
            self.keep_open(bar, rows)?;
        }
        Ok(())
    }

    fn keep_open(&mut self, bar: Bar, rows: usize) -> Result<(), AllocError> {
        if bar.began < rows {
            return self.keep(bar);
        }
        Ok(())
    }
}
