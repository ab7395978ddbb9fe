ghost use Rattle.std.specs.Prelude.{◌≡◌, ◌++◌, ◌+◌, ◌-◌, ◌≤◌, ◌<◌, [], true, length, OnOk, OnErr};
ghost use Rattle.rpc_machine.specs.Journal.{effect_entries};
ghost use Rattle.core_telling.specs.Told.{without_sends, IsFall};
ghost use Rattle.link_logs.specs.Notes.{sends_by};
ghost use Rattle.link_sides.specs.Rooms.{Queues};

use crate::kept::Kept;
use crate::sends::send;
use core_telling::{count, put_effects, write_fall};
use link_logs::{Note, Told};
use link_rings::Waiting;
use rpc_machine::Effects;
use rpc_msg::{Memory, Message, Vat};

/// Writes the entries of a step that took the vat down, and puts its Abort, if there is one, behind the frames that wait: in
/// the room that is kept for both.
pub(crate) fn tell_fall(
    kept: &mut Kept,
    vat: Vat,
    number: u16,
    effects: &mut Effects,
    waiting: &mut Waiting<Message>,
)
    requires abort { kept.old.spare.can_abort ≡ true }
    requires entries { 2 ≤ kept.old.journal.1 }
    requires free { 0 < waiting.old.room }
    requires fall { IsFall effects.old number }
    ensures core { kept.new.core ≡ kept.old.core }
    ensures copies { kept.new.copies.0 ≡ kept.old.copies.0 }
    ensures journal { kept.new.journal.0 ≡ kept.old.journal.0 ++ effect_entries vat effects.old }
    ensures queued { Queues waiting.old effects.old.sends waiting.new }
    ensures given { effects.new ≡ without_sends effects.old }
{
    write_fall(vat, &mut kept.spare, &mut kept.journal, number, effects);
    send(kept.alloc, effects, waiting);
}

/// Tells a step that took the vat down, as `tell_fall`, and gives the memory of its effects back to the core. The entries of the step
/// begin at `start` in the journal.
pub(crate) fn note_fall(
    kept: &mut Kept,
    vat: Vat,
    start: usize,
    told: Told,
    number: u16,
    effects: Effects,
    waiting: &mut Waiting<Message>,
) -> Note
    requires abort { kept.old.spare.can_abort ≡ true }
    requires entries { 2 ≤ kept.old.journal.1 }
    requires free { 0 < waiting.old.room }
    requires fall { IsFall effects number }
    requires start { start ≤ length kept.old.journal.0 }
    requires sends { sends_by told ≡ effects.sends }
    ensures core { kept.new.core ≡ kept.old.core }
    ensures copies { kept.new.copies.0 ≡ kept.old.copies.0 }
    ensures journal { kept.new.journal.0 ≡ kept.old.journal.0 ++ effect_entries vat effects }
    ensures queued { Queues waiting.old effects.sends waiting.new }
    ensures told { result.told ≡ told }
    ensures counted { result.entries ≡ length kept.new.journal.0 - start }
{
    let sent = effects.sends.len();
    let mut effects = effects;
    tell_fall(kept, vat, number, &mut effects, waiting);
    kept.core.recycle(effects);
    let entries = kept.journal.len() - start;
    Note {
        told,
        sent,
        entries,
    }
}

/// Tells a step for which room was made: its entries go from their list to the end of the journal, and its messages behind
/// the frames that wait.
pub(crate) fn tell_whole(
    kept: &mut Kept,
    vat: Vat,
    effects: &mut Effects,
    waiting: &mut Waiting<Message>,
)
    requires copies { kept.old.copies.0 ≡ effect_entries vat effects.old }
    requires entries { length kept.old.copies.0 + 6 ≤ kept.old.journal.1 }
    requires free { length effects.old.sends < waiting.old.room }
    ensures core { kept.new.core ≡ kept.old.core }
    ensures abort { kept.new.spare.can_abort ≡ kept.old.spare.can_abort }
    ensures copies { kept.new.copies.0 ≡ [] }
    ensures journal { kept.new.journal.0 ≡ kept.old.journal.0 ++ effect_entries vat effects.old }
    ensures entries { 6 ≤ kept.new.journal.1 }
    ensures queued { Queues waiting.old effects.old.sends waiting.new }
    ensures free { 0 < waiting.new.room }
    ensures given { effects.new ≡ without_sends effects.old }
{
    kept.journal.append(&mut kept.copies);
    send(kept.alloc, effects, waiting);
}

/// Makes room for all that a step says, and copies its entries into their list. `Memory` if a growth is refused, or the log
/// has no room (`room`): then none is copied.
pub(crate) fn make_room(
    kept: &mut Kept,
    vat: Vat,
    room: bool,
    effects: &Effects,
    waiting: &mut Waiting<Message>,
) -> Result<(), Memory>
    requires none { kept.old.copies.0 ≡ [] }
    ensures core { kept.new.core ≡ kept.old.core }
    ensures abort { kept.new.spare.can_abort ≡ kept.old.spare.can_abort }
    ensures journal { kept.new.journal.0 ≡ kept.old.journal.0 }
    ensures kept_entries { kept.old.journal.1 ≤ kept.new.journal.1 }
    ensures had_room { OnOk result (room ≡ true) }
    ensures copies { OnOk result (kept.new.copies.0 ≡ effect_entries vat effects.now) }
    ensures none { OnErr result (kept.new.copies.0 ≡ []) }
    ensures entries { OnOk result (length kept.new.copies.0 + 1 + 6 ≤ kept.new.journal.1) }
    ensures frames { waiting.new.frames ≡ waiting.old.frames }
    ensures made { waiting.new.made ≡ waiting.old.made }
    ensures heard { waiting.new.heard ≡ waiting.old.heard }
    ensures free { OnOk result (length effects.now.sends < waiting.new.room) }
    ensures kept_free { waiting.old.room ≤ waiting.new.room }
{
    if !room {
        return Err(Memory);
    }
    match copy_entries(kept, vat, effects, waiting) {
        Ok(()) => return Ok(()),
        Err(Memory) => {}
    }
    kept.copies.truncate(0);
    Err(Memory)
}

fn copy_entries(
    kept: &mut Kept,
    vat: Vat,
    effects: &Effects,
    waiting: &mut Waiting<Message>,
) -> Result<(), Memory>
    requires none { kept.old.copies.0 ≡ [] }
    ensures core { kept.new.core ≡ kept.old.core }
    ensures abort { kept.new.spare.can_abort ≡ kept.old.spare.can_abort }
    ensures journal { kept.new.journal.0 ≡ kept.old.journal.0 }
    ensures kept_entries { kept.old.journal.1 ≤ kept.new.journal.1 }
    ensures copies { OnOk result (kept.new.copies.0 ≡ effect_entries vat effects.now) }
    ensures entries { OnOk result (length kept.new.copies.0 + 1 + 6 ≤ kept.new.journal.1) }
    ensures frames { waiting.new.frames ≡ waiting.old.frames }
    ensures made { waiting.new.made ≡ waiting.old.made }
    ensures heard { waiting.new.heard ≡ waiting.old.heard }
    ensures free { OnOk result (length effects.now.sends < waiting.new.room) }
    ensures kept_free { waiting.old.room ≤ waiting.new.room }
{
    let Some(more) = count(effects) else {
        return Err(Memory);
    };
    kept.copies.prepare(more)?;
    put_effects(kept.alloc, vat, &mut kept.copies, effects)?;
    kept.journal.prepare(kept.copies.len())?;
    waiting.prepare(effects.sends.len())?;
    Ok(())
}
