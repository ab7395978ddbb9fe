//! What is made of a conversation, and the text that is written of one.
use crate::failure::Failure;
use crate::naming::Naming;
use crate::options::Options;
use crate::sheet::Sheet;
use crate::telling::{Wording, write_told};
use crate::watch::Told;
use capn_trees::PayloadFault;
use look_books::{Books, Moment};
use look_lines::{Ends, Totals, View, totals_of, write_open, write_totals, write_totals_head};
use look_names::Schema;
use look_pieces::Side;
use std::alloc::{AllocError, Global};
use std::io::Write;

/// What is made of a conversation, message by message: text, or a picture.
///
/// Each call is refused by `Memory` where a growth was refused, and by `Unwritten` where an output fails.
pub trait Page {
    /// Says what a frame is, by the books before it.
    fn say_told(
        &mut self,
        books: &Books,
        side: Side,
        moment: Moment,
        told: &Told,
    ) -> Result<(), Failure>;

    /// Notes how much is open behind a message, by the books behind it.
    fn note_totals(&mut self, books: &Books, moment: Moment) -> Result<(), Failure>;

    /// Says that no order of two files makes sense behind here.
    fn say_stuck(&mut self) -> Result<(), Failure>;

    /// Says why nothing of an end is read any more, where that message of the conversation would come.
    fn say_end_of(&mut self, side: Side, number: u64, fault: PayloadFault) -> Result<(), Failure>;

    /// Says why the bytes of an end are cut no further, behind so many frames of it.
    fn say_cut(&mut self, side: Side, count: usize, fault: PayloadFault) -> Result<(), Failure>;

    /// Says of an end that it stops inside a message, if so many bytes of one came.
    fn say_rest(&mut self, side: Side, count: usize) -> Result<(), Failure>;

    /// Says what is open behind the last message.
    fn say_end(&mut self, books: &Books, last: Moment) -> Result<(), Failure>;

    /// Writes what is said so far, if it is written as it comes.
    fn flush(&mut self) -> Result<(), Failure>;
}

/// The text that is said so far.
#[derive(Drop)]
pub(crate) struct TextPage<W: Write + Drop> {
    alloc: Global,
    sheet: Sheet<W>,
    wording: Wording,
    /// How many rows the table has, if one is asked for.
    rows: Option<u64>,
    totals: Vec<Totals>,
}

impl<W: Write + Drop> TextPage<W> {
    /// Nothing is said so far.
    pub(crate) fn new(
        alloc: Global,
        options: Options,
        schema: Option<Schema>,
        out: W,
    ) -> TextPage<W> {
        let Options {
            only,
            json: _,
            payloads,
            schema: _,
            at: _,
            totals: rows,
            client,
            server,
            source: _,
        } = options;
        TextPage {
            alloc,
            sheet: Sheet::new(alloc, out),
            wording: Wording {
                ends: Ends { client, server },
                naming: Naming {
                    alloc,
                    schema,
                    payloads,
                },
                only,
            },
            rows,
            totals: Vec::new(alloc),
        }
    }

    /// A table of at most so many rows, each the last of as many messages, and the last message.
    fn say_totals(&mut self, rows: u64) -> Result<(), Failure> {
        if self.totals.is_empty() || rows == 0 {
            return Ok(());
        }
        write_totals_head(&mut self.sheet.text, &self.wording.ends)?;
        let count = self.totals.len() as u64;
        let step = (count - 1) / rows + 1;
        let mut number: u64 = 0;
        for totals in &self.totals {
            number = number.saturating_add(1);
            if number % step == 0 || number == count {
                write_totals(&mut self.sheet.text, totals)?;
            }
        }
        Ok(())
    }
}

impl<W: Write + Drop> Page for TextPage<W> {
    fn say_told(
        &mut self,
        books: &Books,
        side: Side,
        moment: Moment,
        told: &Told,
    ) -> Result<(), Failure> {
        write_told(
            self.alloc,
            &mut self.sheet.text,
            &self.wording,
            books,
            side,
            moment,
            told,
        )?;
        self.sheet.flush_if_full()
    }

    fn note_totals(&mut self, books: &Books, moment: Moment) -> Result<(), Failure> {
        if self.rows.is_some() {
            let totals = totals_of(books, moment);
            self.totals.push(totals).map_err(AllocError::from)?;
        }
        Ok(())
    }

    fn say_stuck(&mut self) -> Result<(), Failure> {
        self.sheet
            .text
            .push_str("no order of the two makes sense behind here:\n")?;
        Ok(())
    }

    fn say_end_of(&mut self, side: Side, number: u64, fault: PayloadFault) -> Result<(), Failure> {
        let name = self.wording.ends.name(side);
        writeln!(
            self.sheet.text,
            "message {number} by the {name}: {fault}; nothing of the {name} is read any more"
        )?;
        Ok(())
    }

    fn say_cut(&mut self, side: Side, count: usize, fault: PayloadFault) -> Result<(), Failure> {
        let name = self.wording.ends.name(side);
        writeln!(
            self.sheet.text,
            "the {name}, behind its message {count}: {fault}"
        )?;
        Ok(())
    }

    fn say_rest(&mut self, side: Side, count: usize) -> Result<(), Failure> {
        if count == 0 {
            return Ok(());
        }
        let name = self.wording.ends.name(side);
        writeln!(
            self.sheet.text,
            "the {name} ends inside a message, of which {count} bytes came"
        )?;
        Ok(())
    }

    fn say_end(&mut self, books: &Books, last: Moment) -> Result<(), Failure> {
        if !self.wording.only {
            let view = View {
                books,
                ends: &self.wording.ends,
                names: &self.wording.naming,
            };
            write_open(&mut self.sheet.text, &view, last)?;
        }
        if let Some(rows) = self.rows {
            self.say_totals(rows)?;
        }
        self.sheet.flush()
    }

    fn flush(&mut self) -> Result<(), Failure> {
        self.sheet.flush()
    }
}
