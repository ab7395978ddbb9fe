//! A vat with its streams, and how it plays lines.
ghost use Rattle.std.specs.Prelude.{◌≡◌, IfOk, IfErr};
ghost use Rattle.vat_call_lib.specs.Ending.{IsEnding};
ghost use Rattle.vat_call_lib.specs.Scripts.{Stops};

use crate::end::Ending;
use crate::failure::{BrokenOff, Failure};
use crate::frames::Frames;
use rpc_msg::{Memory, ObjectId, Payload, Vat};
use script_language::{Closes, Line, Names, OpenWork};
use std::alloc::Global;
use std::io::{BufRead, Write};
use vat_connection::{Connection, Level};

/// The vat whose lines are played.
pub(crate) const VAT: Vat = Vat::A;

/// The object that a peer is given which asks for one.
const BOOTSTRAP: ObjectId = ObjectId(0);

/// A vat, the streams by which it speaks with its peer, and what its script knows.
#[derive(Drop)]
pub struct Player<R, W, T> {
    pub(crate) vat: Connection,
    pub(crate) frames: Frames<R>,
    pub(crate) out: W,
    pub(crate) told: T,
    pub(crate) names: Names,
    pub(crate) open: OpenWork,
    pub(crate) alloc: Global,
}

impl<R: BufRead + Drop, W: Write + Drop, T: Write + Drop> Player<R, W, T> {
    /// A new vat whose peer's bytes a reader gives, and a writer takes those for its peer; and a writer of what it is told.
    pub fn new(alloc: Global, reader: R, out: W, told: T) -> Result<Player<R, W, T>, Memory> {
        let vat = Connection::new(alloc, VAT, Level::One, Some(BOOTSTRAP))?;
        Ok(Player {
            vat,
            frames: Frames::new(alloc, reader),
            out,
            told,
            names: Names::new(alloc),
            open: OpenWork::new(alloc),
            alloc,
        })
    }

    /// Plays lines in order, and then goes on until nothing is open: each task is answered with the null payload, the oldest
    /// first, and if there is none a frame is taken. `Unnamed` with the line that names something which is not there when its
    /// turn comes; what stands before it was done then. What broke it off, if something did.
    pub fn play(&mut self, lines: &[Line]) -> Result<Ending, Failure>
        ensures ending { IfOk result (IsEnding self.new.vat) }
        ensures stops { IfErr result (Stops lines.now) }
    {
        let null = match Payload::null(self.alloc) {
            Ok(null) => null,
            Err(Memory) => return Err(Failure::BrokenOff(BrokenOff::Memory)),
        };
        for (i, line) in lines.iter().enumerate() {
            // Each arm by itself: a result that is handed on whole leaves its clauses to be proved by cases.
            match self.play_line(&null, i + 1, line) {
                Ok(()) => {}
                Err(why) => return Err(why),
            }
            if let Some(number) = self.vat.core().down() {
                return Ok(Ending::Down(number));
            }
        }
        // The same.
        match self.go_on(&null) {
            Ok(ending) => return Ok(ending),
            Err(why) => return Err(Failure::BrokenOff(why)),
        }
    }

    fn go_on(&mut self, null: &Payload) -> Result<Ending, BrokenOff>
        ensures { IfOk result (IsEnding self.new.vat) }
    {
        for _ in 0..u64::MAX {
            if let Some(number) = self.vat.core().down() {
                return Ok(Ending::Down(number));
            }
            if let Some((task, _)) = self.open.oldest_task() {
                // also if the vat refuses the answer
                self.open.close(Closes::Task(task));
                self.answer(null, task)?;
            } else if self.open.calls_are_over() {
                return Ok(Ending::Done {
                    left: !self.vat.core().shares_nothing(),
                });
            } else {
                self.turn()?;
            }
        }
        Err(BrokenOff::Unread)
    }
}
