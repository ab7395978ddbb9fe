ghost use Rattle.std.specs.Prelude.{◌≡◌, ◌≤◌, ◌<◌, ◌+◌, ◌++◌, [], ◌∷◌, map, length, IfSome, OnOk, OnErr};
ghost use Rattle.rpc_msg.specs.declared.message.Message.TheVariants.{Plain};
ghost use Rattle.rpc_msg.specs.declared.message.PlainMessage.TheVariants as plain;
ghost use Rattle.rpc_journal.specs.declared.entry.JournalEntry.TheVariants as entry;
ghost use Rattle.rpc_machine.specs.Journal.{effect_entries};
ghost use Rattle.core_telling.specs.Told.{Extends};

use crate::journal::Journal;
use rpc_journal::{Delivery, Ended, JournalEntry};
use rpc_machine::Effects;
use rpc_msg::{Call, Finish, Memory, Message, PlainMessage, Return, Vat};
use std::alloc::Global;

/// How many entries the effects of a step have, except for that of going down.
pub fn count(effects: &Effects) -> Option<usize>
    ensures { IfSome result (λ count. count ≡ length effects.now.sends + (length effects.now.deliveries + length effects.now.answers)) }
{
    let more = effects.deliveries.len().checked_add(effects.answers.len())?;
    effects.sends.len().checked_add(more)
}

/// Puts the entries of a step's effects at the end, each a copy, if there is room. If it answers `Err` some of them may
/// stand there.
pub fn put_effects(
    alloc: Global,
    vat: Vat,
    journal: &mut Journal,
    effects: &Effects,
) -> Result<(), Memory>
    requires { length effects.now.sends + (length effects.now.deliveries + length effects.now.answers) + 1 ≤ journal.old.1 }
    ensures entries { OnOk result (journal.new.0 ≡ journal.old.0 ++ effect_entries vat effects.now) }
    ensures room { journal.old.1 ≤ journal.new.1 + (length effects.now.sends + (length effects.now.deliveries + length effects.now.answers) + 1) }
    ensures extends { OnErr result (Extends journal.old.0 journal.new.0) }
{
    put_sent(alloc, vat, journal, &effects.sends)?;
    put_delivered(alloc, vat, journal, &effects.deliveries)?;
    put_ended(alloc, vat, journal, &effects.answers)?;
    if let Some(number) = effects.down {
        put_down(vat, journal, number);
    }
    Ok(())
}

#[cold]
fn put_down(vat: Vat, journal: &mut Journal, number: u16)
    requires { 0 < journal.old.1 }
    ensures entries { journal.new.0 ≡ journal.old.0 ++ entry.Down vat number ∷ [] }
    ensures room { journal.old.1 ≤ journal.new.1 + 1 }
{
    journal.push(JournalEntry::Down(vat, number));
}

fn put_sent(
    alloc: Global,
    vat: Vat,
    journal: &mut Journal,
    messages: &[Message],
) -> Result<(), Memory>
    requires { length messages.now ≤ journal.old.1 }
    ensures entries { OnOk result (journal.new.0 ≡ journal.old.0 ++ map (entry.Sent vat) messages.now) }
    ensures room { journal.old.1 ≤ journal.new.1 + length messages.now }
    ensures extends { OnErr result (Extends journal.old.0 journal.new.0) }
{
    for message in messages {
        put_message(alloc, vat, journal, message)?;
    }
    Ok(())
}

// Each kind of message that most steps send goes into the journal as soon as it is copied. Each entry is put by a function of
// its own, so that a step pays for the entries that it has.
fn put_message(
    alloc: Global,
    vat: Vat,
    journal: &mut Journal,
    message: &Message,
) -> Result<(), Memory>
    requires { 0 < journal.old.1 }
    ensures entries { OnOk result (journal.new.0 ≡ journal.old.0 ++ entry.Sent vat message.now ∷ []) }
    ensures room { journal.old.1 ≤ journal.new.1 + 1 }
    ensures same { OnErr result (journal.new.0 ≡ journal.old.0) }
{
    let Message::Plain(plain) = message else {
        return put_other(alloc, vat, journal, message);
    };
    match plain {
        PlainMessage::Call(call) => put_call(alloc, vat, journal, call),
        PlainMessage::Return(back) => put_return(alloc, vat, journal, back),
        PlainMessage::Finish(finish) => {
            put_finish(vat, journal, *finish);
            Ok(())
        }
        _ => put_other(alloc, vat, journal, message),
    }
}

#[inline(never)]
fn put_call(alloc: Global, vat: Vat, journal: &mut Journal, call: &Call) -> Result<(), Memory>
    requires { 0 < journal.old.1 }
    ensures entries { OnOk result (journal.new.0 ≡ journal.old.0 ++ entry.Sent vat (Plain (plain.Call call.now)) ∷ []) }
    ensures room { journal.old.1 ≤ journal.new.1 + 1 }
    ensures same { OnErr result (journal.new.0 ≡ journal.old.0) }
{
    let copy = call.copy(alloc)?;
    journal.push(JournalEntry::Sent(vat, Message::Plain(PlainMessage::Call(copy))));
    Ok(())
}

#[inline(never)]
fn put_return(alloc: Global, vat: Vat, journal: &mut Journal, back: &Return) -> Result<(), Memory>
    requires { 0 < journal.old.1 }
    ensures entries { OnOk result (journal.new.0 ≡ journal.old.0 ++ entry.Sent vat (Plain (plain.Return back.now)) ∷ []) }
    ensures room { journal.old.1 ≤ journal.new.1 + 1 }
    ensures same { OnErr result (journal.new.0 ≡ journal.old.0) }
{
    let copy = back.copy(alloc)?;
    journal.push(JournalEntry::Sent(vat, Message::Plain(PlainMessage::Return(copy))));
    Ok(())
}

fn put_finish(vat: Vat, journal: &mut Journal, finish: Finish)
    requires { 0 < journal.old.1 }
    ensures entries { journal.new.0 ≡ journal.old.0 ++ entry.Sent vat (Plain (plain.Finish finish)) ∷ [] }
    ensures room { journal.old.1 ≤ journal.new.1 + 1 }
{
    journal.push(JournalEntry::Sent(vat, Message::Plain(PlainMessage::Finish(finish))));
}

fn put_other(
    alloc: Global,
    vat: Vat,
    journal: &mut Journal,
    message: &Message,
) -> Result<(), Memory>
    requires { 0 < journal.old.1 }
    ensures entries { OnOk result (journal.new.0 ≡ journal.old.0 ++ entry.Sent vat message.now ∷ []) }
    ensures room { journal.old.1 ≤ journal.new.1 + 1 }
    ensures same { OnErr result (journal.new.0 ≡ journal.old.0) }
{
    let copy = message.copy(alloc)?;
    journal.push(JournalEntry::Sent(vat, copy));
    Ok(())
}

fn put_delivered(
    alloc: Global,
    vat: Vat,
    journal: &mut Journal,
    deliveries: &[Delivery],
) -> Result<(), Memory>
    requires { length deliveries.now ≤ journal.old.1 }
    ensures entries { OnOk result (journal.new.0 ≡ journal.old.0 ++ map (entry.Delivered vat) deliveries.now) }
    ensures room { journal.old.1 ≤ journal.new.1 + length deliveries.now }
    ensures extends { OnErr result (Extends journal.old.0 journal.new.0) }
{
    for delivery in deliveries {
        put_delivery(alloc, vat, journal, delivery)?;
    }
    Ok(())
}

#[inline(never)]
fn put_delivery(
    alloc: Global,
    vat: Vat,
    journal: &mut Journal,
    delivery: &Delivery,
) -> Result<(), Memory>
    requires { 0 < journal.old.1 }
    ensures entries { OnOk result (journal.new.0 ≡ journal.old.0 ++ entry.Delivered vat delivery.now ∷ []) }
    ensures room { journal.old.1 ≤ journal.new.1 + 1 }
    ensures same { OnErr result (journal.new.0 ≡ journal.old.0) }
{
    let copy = delivery.copy(alloc)?;
    journal.push(JournalEntry::Delivered(vat, copy));
    Ok(())
}

fn put_ended(
    alloc: Global,
    vat: Vat,
    journal: &mut Journal,
    answers: &[Ended],
) -> Result<(), Memory>
    requires { length answers.now ≤ journal.old.1 }
    ensures entries { OnOk result (journal.new.0 ≡ journal.old.0 ++ map (entry.Ended vat) answers.now) }
    ensures room { journal.old.1 ≤ journal.new.1 + length answers.now }
    ensures extends { OnErr result (Extends journal.old.0 journal.new.0) }
{
    for ended in answers {
        put_end(alloc, vat, journal, ended)?;
    }
    Ok(())
}

#[inline(never)]
fn put_end(alloc: Global, vat: Vat, journal: &mut Journal, ended: &Ended) -> Result<(), Memory>
    requires { 0 < journal.old.1 }
    ensures entries { OnOk result (journal.new.0 ≡ journal.old.0 ++ entry.Ended vat ended.now ∷ []) }
    ensures room { journal.old.1 ≤ journal.new.1 + 1 }
    ensures same { OnErr result (journal.new.0 ≡ journal.old.0) }
{
    let copy = ended.copy(alloc)?;
    journal.push(JournalEntry::Ended(vat, copy));
    Ok(())
}
