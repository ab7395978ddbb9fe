//! The bytes that come become frames, and a vat hears each in its turn.
ghost use Rattle.std.specs.Prelude.{◌≡◌, None};
ghost use Rattle.vat_connection.specs.Hearing.{ComesBehind, HearsInTurn, Proceeds, Rests, left_by};

use crate::inflow::{Inflow, frames_are_whole};
use crate::load::Limits;
use crate::speaker::Speaker;
use rpc_machine::Fault;
use std::alloc::Global;

/// A vat that is up takes bytes of a stream: it hears the frames that wait and those that are whole now, as far as its load allows it,
/// to the first with which it goes down. What is no frame takes it down with the fault's number, and running out of memory with 33.
pub(crate) fn receive(
    speaker: &mut Speaker,
    inflow: &mut Inflow,
    limits: Limits,
    alloc: Global,
    bytes: &[u8],
)
    requires up { speaker.old.host.core.down ≡ None }
    requires open { inflow.old.over ≡ None }
    ensures { ComesBehind limits speaker.old inflow.old bytes.now speaker.new inflow.new }
{
    inflow.waits();
    let Ok(()) = inflow.take(bytes) else {
        *inflow = Inflow::new(alloc);
        return speaker.fall(Fault::WantOfRoom.code());
    };
    proceed(speaker, inflow, limits, alloc);
}

/// A vat hears the frames that wait, as far as its load allows it, and goes down behind the last one if the stream is over.
pub(crate) fn proceed(speaker: &mut Speaker, inflow: &mut Inflow, limits: Limits, alloc: Global)
    ensures { Proceeds limits speaker.old inflow.old speaker.new inflow.new }
{
    hear_all(speaker, inflow, limits);
    if speaker.is_down() {
        *inflow = Inflow::new(alloc);
        return;
    }
    rest(speaker, inflow, alloc);
}

// Hears the frames that wait, to the first that is not to be heard.
fn hear_all(speaker: &mut Speaker, inflow: &mut Inflow, limits: Limits)
    ensures turn { HearsInTurn limits speaker.new (left_by speaker.new.host.core.down inflow.new.unheard) speaker.old inflow.old.unheard }
    ensures rest { inflow.new ≡ record inflow.old { unheard = inflow.new.unheard } }
{
    while !inflow.is_empty() {
        if !speaker.is_ready(limits) {
            return;
        }
        let Some(frame) = inflow.pop() else {
            unreachable!()
        };
        frames_are_whole(&frame);
        speaker.hear_frame(&frame);
    }
}

/// A vat that is up goes down if its stream is over and no frame waits.
pub(crate) fn rest(speaker: &mut Speaker, inflow: &mut Inflow, alloc: Global)
    ensures { Rests speaker.old inflow.old.unheard inflow.old.waiting inflow.old.over speaker.new inflow.new }
{
    if !inflow.is_empty() {
        return;
    }
    if let Some(number) = inflow.over() {
        *inflow = Inflow::new(alloc);
        speaker.fall(number);
    }
}
