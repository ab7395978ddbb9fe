ghost use Rattle.std.specs.Prelude.{◌≡◌, ◌<◌, None, Some, OnOk, IfOk, IfErr};
ghost use Rattle.link_rings.specs.Parties.{Receives};
ghost use Rattle.link_logs.specs.Steps.{StepsSo, input_of, sends_of};
ghost use Rattle.link_sides.specs.Rooms.{held_of, IsReady};
ghost use Rattle.link_sides.specs.Sides.{down_by, TellsSo};

use crate::entries::{make_room, note_fall, tell_whole};
use crate::kept::Kept;
use link_logs::{Note, Told};
use link_rings::Waiting;
use rpc_journal::JournalEntry;
use rpc_machine::{Effects, Fault};
use rpc_msg::{Memory, Message};
use std::snapshot::Snapshot;

/// A message that the end of a vat which is up receives: its effects, except for the messages, or the number with which the vat
/// is then down.
pub(crate) fn receive(
    kept: &mut Kept,
    message: Message,
    room: bool,
    waiting: &mut Waiting<Message>,
) -> (Note, Result<Effects, u16>)
    requires up { kept.old.core.down ≡ None }
    requires ready { IsReady kept.old }
    requires free { 0 < waiting.old.room }
    ensures receives { Receives down_by input_of sends_of StepsSo (held_of kept.old) waiting.old message room result.0 (held_of kept.new) waiting.new }
    ensures up { OnOk result.1 (kept.new.core.down ≡ None) }
    ensures told { IfOk result.1 (TellsSo result.0) }
    ensures fell { IfErr result.1 (λ n. kept.new.core.down ≡ Some n) }
    ensures ready { IsReady kept.new }
{
    let start = kept.journal.len();
    let vat = kept.core.vat();
    let heard = Snapshot::of(&message);
    let mut effects = kept.core.receive(message);
    kept.journal.push(JournalEntry::Got(vat));
    if let Some(number) = kept.core.down() {
        let told = Told::Received(heard, Snapshot::of(&effects), true);
        let note = note_fall(kept, vat, start, told, number, effects, waiting);
        return (note, Err(number));
    }
    match make_room(kept, vat, room, &effects, waiting) {
        Ok(()) => {
            let told = Told::Received(heard, Snapshot::of(&effects), true);
            let sent = effects.sends.len();
            tell_whole(kept, vat, &mut effects, waiting);
            let entries = kept.journal.len() - start;
            return (
                Note {
                    told,
                    sent,
                    entries,
                },
                Ok(effects),
            );
        }
        Err(Memory) => {}
    }
    kept.core.recycle(effects);
    let number = Fault::WantOfRoom.code();
    let fallen = kept.core.shut(number);
    let told = Told::Received(heard, Snapshot::of(&fallen), false);
    let note = note_fall(kept, vat, start, told, number, fallen, waiting);
    (note, Err(number))
}
