ghost use Rattle.std.specs.Prelude.{◌≡◌, ◌++◌, ◌+◌, ◌≤◌, true};
ghost use Rattle.rpc_machine.specs.Journal.{effect_entries};
ghost use Rattle.core_telling.specs.Told.{IsFall};

use crate::journal::Journal;
use core_outbox::Outbox;
use rpc_journal::JournalEntry;
use rpc_machine::Effects;
use rpc_msg::Vat;

/// Puts the entries of a step that took the vat down at the end of the journal: the Abort's, if there is one, by the copy of
/// it that is kept in `spare`. Takes no memory.
pub fn write_fall(
    vat: Vat,
    spare: &mut Outbox,
    journal: &mut Journal,
    number: u16,
    effects: &Effects,
)
    requires can_abort { spare.old.can_abort ≡ true }
    requires entries { 2 ≤ journal.old.1 }
    requires fall { IsFall effects.now number }
    ensures entries { journal.new.0 ≡ journal.old.0 ++ effect_entries vat effects.now }
    ensures room { journal.old.1 ≤ journal.new.1 + 2 }
{
    if effects.sends.is_empty() {
        journal.push(JournalEntry::Down(vat, number));
        return;
    }
    let Effects {
        sends,
        deliveries: _,
        answers: _,
        down: _,
    } = spare.fall(number);
    match sends.into_vec().pop() {
        Some(message) => journal.push(JournalEntry::Sent(vat, message)),
        None => unreachable!(),
    }
    journal.push(JournalEntry::Down(vat, number));
}
