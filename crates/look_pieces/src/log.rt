//! The lines of a log, one by one.
ghost use Rattle.std.specs.Prelude.{◌≡◌, ◌++◌, []};
ghost use Rattle.look_pieces.specs.Lines.{head_of, bytes_of};
ghost use Rattle.look_pieces.specs.Pieces.{Takes, TakesBy, IsPiece, counted, day_at, elapsed, sent_by, after_piece, end_of, between, inside, more_of};

use crate::fault::{LogError, LogFault};
use crate::line::{Head, read_bytes, read_head};
use crate::piece::{Piece, Side};
use std::alloc::Global;
use std::marker::Model;
use std::mem;

/// Half a day, in microseconds.
const HALF_DAY: u64 = 43_200_000_000;

/// A day, in microseconds.
const DAY: u64 = 86_400_000_000;

/// The time, by a clock that begins anew each midnight; in microseconds.
#[derive(Clone, Copy, Debug, PartialEq, Eq, Drop)]
pub struct Day {
    /// The first time of day.
    pub first: u64,
    /// The last one.
    pub last: u64,
    /// How long the days were that ended.
    pub passed: u64,
}

impl Day {
    /// A time of day comes. A clock that reads more than half a day less than before has passed midnight.
    fn at(day: Option<Day>, clock: u64) -> Day
        ensures { result ≡ day_at day clock }
    {
        let Some(day) = day else {
            return Day {
                first: clock,
                last: clock,
                passed: 0,
            };
        };
        let passed = if clock.saturating_add(HALF_DAY) < day.last {
            day.passed.saturating_add(DAY)
        } else {
            day.passed
        };
        Day {
            first: day.first,
            last: clock,
            passed,
        }
    }

    /// The time since the first.
    fn elapsed(&self) -> u64
        ensures { result ≡ elapsed self.now }
    {
        self.passed
            .saturating_add(self.last)
            .saturating_sub(self.first)
    }
}

/// Where a reader of lines stands.
#[derive(Clone, Copy, Debug, PartialEq, Eq, Drop)]
pub struct Place {
    /// The head of a piece whose bytes have not all come.
    pub begun: Option<Head>,
    /// How many bytes the client sent in the pieces before.
    pub client: u64,
    /// How many the server sent.
    pub server: u64,
    /// The time of the last piece, if there was one.
    pub day: Option<Day>,
    /// How many lines were taken.
    pub lines: u64,
}

impl Place {
    fn counted(self) -> Place
        ensures { result ≡ counted self }
    {
        Place {
            begun: self.begun,
            client: self.client,
            server: self.server,
            day: self.day,
            lines: self.lines.saturating_add(1),
        }
    }

    /// The bytes of a piece with that head are to come.
    fn begin(self, head: Head) -> Place
        ensures { result ≡ record self { begun = Some head } }
    {
        Place {
            begun: Some(head),
            client: self.client,
            server: self.server,
            day: self.day,
            lines: self.lines,
        }
    }

    fn sent_by(&self, side: Side) -> u64
        ensures { result ≡ sent_by side self.now }
    {
        match side {
            Side::Client => self.client,
            Side::Server => self.server,
        }
    }

    /// Behind a piece with that head.
    fn after_piece(self, head: Head) -> Place
        ensures { result ≡ after_piece head self }
    {
        let sent = head.from.saturating_add(head.length);
        let (client, server) = match head.side {
            Side::Client => (sent, self.server),
            Side::Server => (self.client, sent),
        };
        Place {
            begun: None,
            client,
            server,
            day: Some(Day::at(self.day, head.clock)),
            lines: self.lines,
        }
    }
}

/// A reader of the lines that `socat -x` writes, in their order. Contracts see where it stands, and the bytes of the piece
/// that has begun.
#[derive(Drop)]
pub struct Log {
    alloc: Global,
    place: Place,
    bytes: Vec<u8>,
}

impl Model for Log {
    ghost use Rattle.look_pieces.specs.Pieces.{State};

    ghost Value = { State };

    ghost view = { λ a. (a.place, a.bytes.items) };
}

impl Log {
    /// A reader of a log of which no line has come. Takes no memory.
    pub fn new(alloc: Global) -> Log
        ensures { result ≡ (record { begun = None; client = 0; server = 0; day = None; lines = 0 }, []) }
    {
        Log {
            alloc,
            place: Place {
                begun: None,
                client: 0,
                server: 0,
                day: None,
                lines: 0,
            },
            bytes: Vec::new(alloc),
        }
    }

    /// Takes the next line, without its newline, and gives the piece that ends with it, if one does. Between pieces a
    /// line that is no head is passed over.
    ///
    /// A `Fault` if the lines are no log: in a piece a line has no bytes or too many, or a piece does not begin where
    /// the bytes of its end ended. `Memory` if a growth was refused. An error leaves the reader as it was.
    pub fn take_line(&mut self, line: &[u8]) -> Result<Option<Piece>, LogError>
        ensures { Takes self.old line.now result self.new }
    {
        let place = self.place.counted();
        match self.place.begun {
            None => self.take_between(place, line),
            Some(head) => self.take_inside(place, head, line),
        }
    }

    fn take_between(&mut self, place: Place, line: &[u8]) -> Result<Option<Piece>, LogError>
        ensures { TakesBy (between place self.old.1 (head_of line.now)) self.old result self.new }
    {
        if let Some(head) = read_head(line) {
            let expected = place.sent_by(head.side);
            if head.from != expected {
                return Err(LogError::Fault(LogFault::Gap(place.lines, head.from, expected)));
            }
            self.place = place.begin(head);
            self.bytes.clear();
            return Ok(None);
        }
        self.place = place;
        Ok(None)
    }

    fn take_inside(
        &mut self,
        place: Place,
        head: Head,
        line: &[u8],
    ) -> Result<Option<Piece>, LogError>
        ensures { TakesBy (inside place head self.old.1 (bytes_of line.now) (head_of line.now)) self.old result self.new }
    {
        match read_bytes(self.alloc, line)? {
            Some(more) => self.take_more(place, head, more.as_slice()),
            None => Err(LogError::Fault(self.no_bytes(place, head, line))),
        }
    }

    /// Why a line without bytes is none of a piece.
    fn no_bytes(&self, place: Place, head: Head, line: &[u8]) -> LogFault
        ensures { Err result ≡ inside place head self.now.1 None (head_of line.now) }
    {
        match read_head(line) {
            Some(_) => LogFault::TooFew(place.lines, head.length, self.bytes.len() as u64),
            None => LogFault::NoBytes(place.lines),
        }
    }

    /// More bytes of a piece come.
    fn take_more(
        &mut self,
        place: Place,
        head: Head,
        more: &[u8],
    ) -> Result<Option<Piece>, LogError>
        ensures { TakesBy (more_of place head (self.old.1 ++ more.now)) self.old result self.new }
    {
        let count = self.bytes.len() as u64 + more.len() as u64;
        if head.length < count {
            return Err(LogError::Fault(LogFault::TooMany(place.lines, count, head.length)));
        }
        self.bytes.extend_from_slice(more)?;
        if count < head.length {
            self.place = place;
            return Ok(None);
        }
        Ok(Some(self.end_piece(place, head)))
    }

    /// The piece whose bytes have come, which ends.
    fn end_piece(&mut self, place: Place, head: Head) -> Piece
        ensures piece { IsPiece (Some (head, (elapsed (day_at place.day head.clock), self.old.1))) (Some result) }
        ensures after { self.new ≡ (after_piece head place, []) }
    {
        self.place = place.after_piece(head);
        Piece {
            side: head.side,
            time: Day::at(place.day, head.clock).elapsed(),
            bytes: mem::replace(&mut self.bytes, Vec::new(self.alloc)),
        }
    }

    /// Whether the log may end here: not inside a piece.
    pub fn ended(&self) -> Result<(), LogFault>
        ensures { result ≡ end_of self.now }
    {
        match self.place.begun {
            None => Ok(()),
            Some(head) => Err(LogFault::CutShort(head.length, self.bytes.len() as u64)),
        }
    }
}
