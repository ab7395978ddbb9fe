//! What is drawn of a conversation.
ghost use Rattle.std.specs.Prelude.{◌≡◌, ◌++◌, OnOk};
ghost use Rattle.rpc_look_lib.specs.Watching.{breaks};
ghost use Rattle.look_chart_lib.specs.Arrows.{arrow_of, arrow_for, arrows_of, arrows_for};

use crate::bars::Bars;
use crate::options::Options;
use crate::step::{Step, is_return, step_of};
use crate::words::{
    Wording, Words, breach_words, end_words, message_words, none_words, rest_words,
};
use capn_trees::PayloadFault;
use look_books::{Books, Breach, Moment};
use look_lines::Ends;
use look_names::Schema;
use look_pieces::Side;
use rpc_look_lib::{Failure, Naming, Page, Told};
use std::alloc::{AllocError, Global};

/// A pause that is longer has a row of its own; in microseconds.
const PAUSE: u64 = 20_000;

/// A message that is drawn, as its arrow shows it.
#[derive(Clone, Copy, Drop)]
pub(crate) struct Passed {
    pub(crate) number: u64,
    pub(crate) time: Option<u64>,
    /// The arrow of a Return is dashed.
    pub(crate) is_return: bool,
    /// That of a message that breaks the protocol is red.
    pub(crate) is_broken: bool,
}

/// What a row has.
#[derive(Clone, Copy, Drop)]
pub(crate) enum Sign {
    /// A message.
    Message(Passed),
    /// What of the message above it breaks the protocol, which has that number.
    Breach(u64),
    /// What is said of an end behind the message of that number.
    End(u64),
    /// So many microseconds in which nothing passed.
    Pause(u64),
}

/// A row.
#[derive(Drop)]
pub(crate) struct Row {
    pub(crate) side: Side,
    pub(crate) sign: Sign,
    pub(crate) words: Words,
}

/// What is drawn of a conversation.
#[derive(Drop)]
pub(crate) struct Chart {
    alloc: Global,
    pub(crate) options: Options,
    pub(crate) wording: Wording,
    pub(crate) rows: Vec<Row>,
    pub(crate) bars: Bars,
    /// How many messages came.
    pub(crate) messages: u64,
    /// How many of them have a row.
    pub(crate) drawn: u64,
    /// How many of the others break the protocol.
    pub(crate) unseen: u64,
    /// When the last message came that has a row.
    before: Option<u64>,
}

impl Chart {
    /// Nothing is drawn so far.
    pub(crate) fn new(
        alloc: Global,
        options: Options,
        schema: Option<Schema>,
    ) -> Result<Chart, AllocError> {
        Ok(Chart {
            alloc,
            options,
            wording: Wording {
                ends: Ends {
                    client: String::from_str(alloc, "client")?,
                    server: String::from_str(alloc, "server")?,
                },
                naming: Naming {
                    alloc,
                    schema,
                    payloads: false,
                },
            },
            rows: Vec::new(alloc),
            bars: Bars::new(alloc),
            messages: 0,
            drawn: 0,
            unseen: 0,
            before: None,
        })
    }

    /// What lasts when the conversation is over is drawn to the end.
    pub(crate) fn finish(&mut self) -> Result<(), AllocError>
        ensures { OnOk result (self.new.rows ≡ self.old.rows) }
    {
        let rows = self.rows.len();
        self.bars.finish_all(self.alloc, rows)
    }

    #[tactic(auto, using(crate::proofs::Drawing::arrows_push))]
    fn add(&mut self, side: Side, sign: Sign, words: Words) -> Result<(), AllocError>
        ensures arrows { OnOk result (arrows_of self.new.rows.items ≡ arrows_of self.old.rows.items ++ arrow_of side sign) }
        ensures options { self.new.options ≡ self.old.options }
    {
        self.rows.push(Row { side, sign, words })?;
        Ok(())
    }

    /// A row of words alone.
    fn add_words(&mut self, side: Side, sign: Sign, whole: String) -> Result<(), AllocError>
        ensures arrows { OnOk result (arrows_of self.new.rows.items ≡ arrows_of self.old.rows.items ++ arrow_of side sign) }
        ensures options { self.new.options ≡ self.old.options }
    {
        let short = String::from_str(self.alloc, whole.as_str())?;
        self.add(side, sign, Words { whole, short })
    }

    /// A row for the time since the last message, if it is long.
    fn pause(&mut self, side: Side, time: Option<u64>) -> Result<(), AllocError>
        ensures arrows { OnOk result (arrows_of self.new.rows.items ≡ arrows_of self.old.rows.items) }
        ensures options { self.new.options ≡ self.old.options }
    {
        let before = std::mem::replace(&mut self.before, time);
        let (Some(before), Some(time)) = (before, time) else {
            return Ok(());
        };
        let gap = time.saturating_sub(before);
        if gap <= PAUSE {
            return Ok(());
        }
        self.add_words(side, Sign::Pause(gap), String::new(self.alloc))
    }

    /// A message without a row.
    fn skip(&mut self, is_broken: bool)
        ensures { self.new.rows ≡ self.old.rows }
    {
        if is_broken {
            self.unseen = self.unseen.saturating_add(1);
        }
    }

    fn draw_breaches(
        &mut self,
        side: Side,
        number: u64,
        breaches: &[Breach],
    ) -> Result<(), AllocError>
        ensures { OnOk result (arrows_of self.new.rows.items ≡ arrows_of self.old.rows.items) }
    {
        for breach in breaches {
            let words = breach_words(self.alloc, &self.wording.ends, side, breach)?;
            self.add_words(side, Sign::Breach(number), words)?;
        }
        Ok(())
    }

    /// The row of a message, and of what of it breaks the protocol.
    fn draw_told(
        &mut self,
        books: &Books,
        side: Side,
        moment: Moment,
        told: &Told,
    ) -> Result<(), AllocError>
        ensures { OnOk result (arrows_of self.new.rows.items ≡ arrows_of self.old.rows.items ++ arrow_for side moment told.now) }
    {
        let passed = passed_of(moment, told);
        match told {
            Told::Message(judged) => {
                let wording = &self.wording;
                let words = message_words(self.alloc, wording, books, side, moment, judged)?;
                self.add(side, Sign::Message(passed), words)?;
                self.draw_breaches(side, moment.number, judged.found.breaches.as_slice())
            }
            Told::None(fault) => {
                let words = none_words(self.alloc, *fault)?;
                self.add(side, Sign::Message(passed), words)
            }
        }
    }

    /// A message comes that is drawn.
    fn draw(
        &mut self,
        books: &Books,
        side: Side,
        moment: Moment,
        told: &Told,
    ) -> Result<(), AllocError>
        ensures { OnOk result (arrows_of self.new.rows.items ≡ arrows_of self.old.rows.items ++ arrow_for side moment told.now) }
    {
        self.drawn = self.drawn.saturating_add(1);
        self.pause(side, moment.time)?;
        let row = self.rows.len();
        self.draw_told(books, side, moment, told)?;
        self.bars.take(side, step_of_told(told), row, moment.number)
    }

    /// A message comes that is not drawn.
    fn pass(&mut self, side: Side, moment: Moment, told: &Told) -> Result<(), AllocError>
        ensures { OnOk result (self.new.rows ≡ self.old.rows) }
    {
        self.skip(told.breaks());
        let row = self.rows.len();
        self.bars.take(side, step_of_told(told), row, moment.number)
    }

    /// A row of words about an end, if the message of that number would have one.
    fn draw_end(&mut self, side: Side, number: u64, words: String) -> Result<(), AllocError>
        ensures { OnOk result (arrows_of self.new.rows.items ≡ arrows_of self.old.rows.items) }
    {
        if !self.options.draws(number) {
            return Ok(());
        }
        self.add_words(side, Sign::End(number), words)
    }
}

/// What the arrow of a message shows.
fn passed_of(moment: Moment, told: &Told) -> Passed
    ensures number { result.number ≡ moment.number }
    ensures broken { result.is_broken ≡ breaks told.now }
{
    Passed {
        number: moment.number,
        time: moment.time,
        is_return: match told {
            Told::Message(judged) => is_return(&judged.envelope, judged.heading),
            Told::None(_) => false,
        },
        is_broken: told.breaks(),
    }
}

fn step_of_told(told: &Told) -> Step {
    match told {
        Told::Message(judged) => step_of(&judged.envelope, judged.heading),
        Told::None(_) => Step::Passes,
    }
}

impl Page for Chart {
    /// A message has one arrow if it is drawn, and else none.
    fn say_told(
        &mut self,
        books: &Books,
        side: Side,
        moment: Moment,
        told: &Told,
    ) -> Result<(), Failure>
        ensures { OnOk result (arrows_of self.new.rows.items ≡ arrows_of self.old.rows.items ++ arrows_for self.old.options side moment told.now) }
    {
        self.messages = self.messages.saturating_add(1);
        if self.options.draws(moment.number) {
            self.draw(books, side, moment, told)?;
            return Ok(());
        }
        self.pass(side, moment, told)?;
        Ok(())
    }

    fn note_totals(&mut self, _books: &Books, _moment: Moment) -> Result<(), Failure>
        ensures { self.new ≡ self.old }
    {
        Ok(())
    }

    // A log has the order of its messages.
    fn say_stuck(&mut self) -> Result<(), Failure>
        ensures { self.new ≡ self.old }
    {
        Ok(())
    }

    fn say_end_of(&mut self, side: Side, number: u64, fault: PayloadFault) -> Result<(), Failure>
        ensures { OnOk result (arrows_of self.new.rows.items ≡ arrows_of self.old.rows.items) }
    {
        let why = format!(in self.alloc; "{fault}")?;
        let words = end_words(self.alloc, self.wording.ends.name(side), why.as_str())?;
        self.draw_end(side, number, words)?;
        Ok(())
    }

    // It is said of two files alone.
    fn say_cut(&mut self, _side: Side, _count: usize, _fault: PayloadFault) -> Result<(), Failure>
        ensures { self.new ≡ self.old }
    {
        Ok(())
    }

    fn say_rest(&mut self, side: Side, count: usize) -> Result<(), Failure>
        ensures { OnOk result (arrows_of self.new.rows.items ≡ arrows_of self.old.rows.items) }
    {
        if count == 0 {
            return Ok(());
        }
        let words = rest_words(self.alloc, self.wording.ends.name(side), count)?;
        self.draw_end(side, self.messages, words)?;
        Ok(())
    }

    // What is open is drawn as bars.
    fn say_end(&mut self, _books: &Books, _last: Moment) -> Result<(), Failure>
        ensures { self.new ≡ self.old }
    {
        Ok(())
    }

    fn flush(&mut self) -> Result<(), Failure>
        ensures { self.new ≡ self.old }
    {
        Ok(())
    }
}
