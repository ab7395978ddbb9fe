//! A conversation as lines of JSON that are written.
use crate::failure::Failure;
use crate::options::Options;
use crate::page::Page;
use crate::sheet::Sheet;
use crate::watch::Told;
use capn_trees::PayloadFault;
use look_books::{Books, Moment};
use look_json::{Place, write_cut, write_message, write_none, write_open, write_rest, write_stuck};
use look_lines::Ends;
use look_names::Schema;
use look_pieces::Side;
use rpc_dump_lib::Form;
use std::alloc::Global;
use std::io::Write;

/// The lines that are said so far.
#[derive(Drop)]
pub(crate) struct JsonPage<W: Write + Drop> {
    alloc: Global,
    sheet: Sheet<W>,
    ends: Ends,
    /// Only what breaks the protocol.
    only: bool,
    /// Each payload with its tree.
    payloads: bool,
    /// Each Call with its names.
    schema: Option<Schema>,
}

impl<W: Write + Drop> JsonPage<W> {
    /// Nothing is said so far.
    pub(crate) fn new(
        alloc: Global,
        options: Options,
        schema: Option<Schema>,
        out: W,
    ) -> JsonPage<W> {
        JsonPage {
            alloc,
            sheet: Sheet::new(alloc, out),
            ends: Ends {
                client: options.client,
                server: options.server,
            },
            only: options.only,
            payloads: options.payloads,
            schema,
        }
    }

    fn write_told(
        &mut self,
        books: &Books,
        side: Side,
        moment: Moment,
        told: &Told,
    ) -> Result<(), Failure> {
        let out = &mut self.sheet.text;
        let place = Place {
            books,
            ends: &self.ends,
            side,
            moment,
        };
        let form = Form {
            trees: self.payloads,
            schema: self.schema.as_ref(),
        };
        match told {
            Told::Message(judged) => write_message(
                self.alloc,
                out,
                &place,
                &judged.envelope,
                judged.heading,
                &judged.found,
                &form,
            )?,
            Told::None(fault) => write_none(self.alloc, out, &place, *fault)?,
        }
        Ok(())
    }

    fn write_cut(&mut self, side: Side, number: u64, fault: PayloadFault) -> Result<(), Failure> {
        let name = self.ends.name(side);
        write_cut(self.alloc, &mut self.sheet.text, name, number, fault)?;
        Ok(())
    }
}

impl<W: Write + Drop> Page for JsonPage<W> {
    fn say_told(
        &mut self,
        books: &Books,
        side: Side,
        moment: Moment,
        told: &Told,
    ) -> Result<(), Failure> {
        if self.only && !told.breaks() {
            return Ok(());
        }
        self.write_told(books, side, moment, told)?;
        self.sheet.flush_if_full()
    }

    fn note_totals(&mut self, _books: &Books, _moment: Moment) -> Result<(), Failure> {
        Ok(())
    }

    fn say_stuck(&mut self) -> Result<(), Failure> {
        write_stuck(self.alloc, &mut self.sheet.text)?;
        Ok(())
    }

    fn say_end_of(&mut self, side: Side, number: u64, fault: PayloadFault) -> Result<(), Failure> {
        self.write_cut(side, number, fault)
    }

    fn say_cut(&mut self, side: Side, count: usize, fault: PayloadFault) -> Result<(), Failure> {
        self.write_cut(side, count as u64, fault)
    }

    fn say_rest(&mut self, side: Side, count: usize) -> Result<(), Failure> {
        if count == 0 {
            return Ok(());
        }
        let name = self.ends.name(side);
        write_rest(self.alloc, &mut self.sheet.text, name, count)?;
        Ok(())
    }

    fn say_end(&mut self, books: &Books, last: Moment) -> Result<(), Failure> {
        if !self.only {
            write_open(self.alloc, &mut self.sheet.text, books, &self.ends, last)?;
        }
        self.flush()
    }

    fn flush(&mut self) -> Result<(), Failure> {
        self.sheet.flush()
    }
}
