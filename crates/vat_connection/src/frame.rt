//! What a frame has a vat hear.
ghost use Rattle.std.specs.Prelude.{◌≡◌};
ghost use Rattle.rpc_codec.specs.Decoding.{Decodes};
ghost use Rattle.peer_large.specs.Opening.{seen};
ghost use Rattle.peer_large.specs.Sparing.{comes};
ghost use Rattle.peer_kinds.specs.Standings.{standings_in};
ghost use Rattle.vat_connection.specs.Speaking.{HearsUp, came_of, stamp_of, tables_of};
ghost use Rattle.vat_connection.specs.Framing.{HearsOpened, HearsInbound, Opens, Turned};

use crate::departures::{hear_each, put_aside};
use crate::load::{held_words, question_in};
use crate::speaker::{Speaker, lack_room};
use capn_fronts::KeptFrame;
use peer_adapter::{Inbound, PeerError, Standing};
use peer_large::{Opened, SparingAdapter, open, open_front};
use rpc_codec::DecodeError;
use rpc_machine::Fault;
use rpc_msg::{ExportId, QuestionId, RefId, Stamp};
use std::alloc::Global;
use vat_host::Core;

const BYTES_OF_A_WORD: u64 = 8;

impl Speaker {
    /// Hears what a frame says. The frame of what is not understood is kept to go back. A Call or a Return that breaks a limit by itself
    /// costs its call alone. A fault takes the vat down with its number, and running out of memory with 33.
    pub(crate) fn hear_frame(&mut self, frame: &KeptFrame)
        ensures { HearsUp self.old frame.now self.new }
    {
        let stamp = self.next_stamp();
        let came = match open_frame(self.alloc, frame, stamp) {
            Ok(came) => came,
            Err(number) => return self.host.shut(number),
        };
        let words = held_words(frame.bytes().len() as u64 / BYTES_OF_A_WORD, &came);
        self.hear_opened(came, words);
    }

    // Hears what a frame says of which so many words are held.
    fn hear_opened(&mut self, came: Opened, words: u64)
        ensures { HearsOpened self.old words came self.new }
    {
        let inbound = match turn(&mut self.adapter, self.host.core(), came) {
            Ok(inbound) => inbound,
            Err(number) => return self.host.shut(number),
        };
        self.hear_inbound(inbound, words);
    }

    // Hears what the adapter said of a frame of which so many words are held.
    fn hear_inbound(&mut self, inbound: Inbound, words: u64)
        ensures { HearsInbound self.old words inbound self.new }
    {
        let Inbound { aside, heard } = inbound;
        let Ok(()) = self.heard.add(question_in(&heard), words) else {
            return lack_room(&mut self.host);
        };
        if !put_aside(&mut self.out, aside) {
            return lack_room(&mut self.host);
        }
        hear_each(&mut self.host, heard);
    }

    // The stamp of a Call in the next frame.
    fn next_stamp(&self) -> Stamp
        ensures { result ≡ stamp_of self.now }
    {
        Stamp {
            vat: self.host.core().vat().other(),
            reference: RefId(self.heard.frames()),
            index: 0,
        }
    }
}

// What a frame says, or the number with which the vat goes down.
fn open_frame(alloc: Global, frame: &KeptFrame, stamp: Stamp) -> Result<Opened, u16>
    ensures { Opens (came_of stamp frame.now) result }
{
    match opened_in(alloc, frame, stamp) {
        Ok(came) => Ok(came),
        Err(DecodeError::Memory) => Err(Fault::WantOfRoom.code()),
        Err(DecodeError::Fault(fault)) => Err(fault.code()),
    }
}

fn opened_in(alloc: Global, frame: &KeptFrame, stamp: Stamp) -> Result<Opened, DecodeError>
    ensures { Decodes seen result (came_of stamp frame.now) }
{
    let bytes = frame.bytes();
    if frame.is_large() {
        return open_front(bytes);
    }
    open(alloc, bytes, stamp)
}

// What the vat is to hear of it, or the number with which it goes down.
fn turn(adapter: &mut SparingAdapter, core: &Core, came: Opened) -> Result<Inbound, u16>
    ensures { Turned (comes (tables_of core.now) adapter.old (seen came)) result adapter.new }
{
    let is_broken = |export: ExportId| core.is_broken(export);
    let is_finished = |question: QuestionId| core.is_finished(question);
    let standing = |export: ExportId| standing_of(core, export);
    match adapter.inbound(
        came,
        core.has_all_answers(),
        standing,
        is_broken,
        is_finished,
    ) {
        Ok(inbound) => Ok(inbound),
        Err(PeerError::Memory) => Err(Fault::WantOfRoom.code()),
        Err(PeerError::Fault(fault)) => Err(fault.code()),
    }
}

// How an export of the peer stands at the vat, if it is an import there.
fn standing_of(core: &Core, export: ExportId) -> Option<Standing>
    ensures { result ≡ standings_in core.now export }
{
    let (kind, is_resolved) = core.named_as(export)?;
    Some(Standing::of(kind, is_resolved))
}
