// The next event is handed out.
ghost use Rattle.lovendak_c_desk.specs.Telling.{HandsOver, TellsNext};

use crate::copies::{copy_bytes, copy_refs};
use crate::desk::Desk;
use crate::not_done::NotDone;
use crate::notice::{Notice, bytes_of, refs_of};
use vat_connection::Event;

impl Desk {
    /// Hands out the next event, once: what it says in numbers, and copies of the bytes and the references that came with it.
    /// If there is too little room for these (`NoRoom`), what it says in numbers is handed out and it stays the next. `Nothing`
    /// if there is none.
    pub fn next_event(
        &mut self,
        notice: &mut Notice,
        bytes: &mut [u8],
        refs: &mut [u64],
    ) -> Result<(), NotDone>
        ensures { TellsNext self.old (record { notice = notice.old; bytes = bytes.old; refs = refs.old }) result (record { notice = notice.new; bytes = bytes.new; refs = refs.new }) self.new }
    {
        self.look();
        let Some(event) = &self.event else {
            return Err(NotDone::Nothing);
        };
        if !hand_over(event, notice, bytes, refs) {
            return Err(NotDone::NoRoom);
        }
        self.event = None;
        Ok(())
    }
}

// Writes what an event says, and what came with it if there is room for that: says whether there is.
fn hand_over(event: &Event, notice: &mut Notice, bytes: &mut [u8], refs: &mut [u64]) -> bool
    ensures { HandsOver event.now (record { notice = notice.old; bytes = bytes.old; refs = refs.old }) result (record { notice = notice.new; bytes = bytes.new; refs = refs.new }) }
{
    *notice = Notice::of(event);
    let came = bytes_of(event);
    if bytes.len() < came.len() {
        return false;
    }
    let given = refs_of(event);
    if refs.len() < given.len() {
        return false;
    }
    copy_bytes(came, bytes);
    copy_refs(given, refs);
    true
}
