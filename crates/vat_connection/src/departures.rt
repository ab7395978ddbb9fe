//! What a vat has to say goes out, message by message.
ghost use Rattle.std.specs.Prelude.{◌≡◌, true, false, IsTrue, MatchBool};
ghost use Rattle.vat_host.specs.Hosting.{is_abort};
ghost use Rattle.peer_tail_calls.specs.Adapting.{messages_in};
ghost use Rattle.peer_tail_calls.specs.Nulling.{IsLaidOut};
ghost use Rattle.rpc_outgoing.specs.Outflows.{Outflow};
ghost use Rattle.peer_adapter.specs.Peering.{release_of, seen_aside};
ghost use Rattle.peer_large.specs.Sparing.{goes};
ghost use Rattle.vat_connection.specs.Speaking.{Breaks, GivesBack, Goes, HearsAll, IsAside, IsTold, Passes, PassesOne, Says, Sends, Turns};
ghost use Rattle.vat_connection.specs.Telling.{IsLonger};

use crate::speaker::{Speaker, lack_room};
use peer_adapter::{Aside, Heard, Outbound, Said, Told};
use rpc_msg::{ExportId, Items, Message, PlainMessage, Release};
use rpc_outgoing::Outgoing;
use vat_host::Host;

impl Speaker {
    /// Puts the frames of all that the vat has to say behind the bytes, and lets it hear what it is to hear of that, until it has
    /// no more to say. If a message has no frame, or memory runs out for it, the vat goes down with 33, and of those behind
    /// it none is put but an Abort.
    pub(crate) fn say(&mut self)
        ensures { Says self.old self.new }
    {
        if !self.host.has_messages() {
            return;
        }
        self.say_all();
    }

    #[inline(never)]
    fn say_all(&mut self)
        ensures { Says self.old self.new }
    {
        // What the vat hears of its own messages is bounded by the peer's tail calls that are open.
        let mut left = u64::MAX;
        while let Some(message) = self.host.next_message() {
            self.heard.say(&message);
            if left == 0 {
                return self.break_off();
            }
            if !self.say_one(message) {
                return self.break_off();
            }
            left -= 1;
        }
    }

    // Puts the frame of what the adapter says in place of a message, and lets the vat hear what it is to hear then; says whether
    // it could.
    fn say_one(&mut self, message: Message) -> bool
        ensures { MatchBool result (IsLaidOut message × Turns self.old (goes self.old.adapter message) self.new) (self.new ≡ record self.old { adapter = self.new.adapter }) }
    {
        let Ok(outbound) = self.adapter.outbound(message) else {
            return false;
        };
        let Outbound { told, heard } = outbound;
        if !tell(&mut self.out, told) {
            return false;
        }
        hear_each(&mut self.host, heard);
        true
    }

    // The vat goes down, and of what it has to say an Abort alone is put.
    #[cold]
    #[inline(never)]
    fn break_off(&mut self)
        ensures { Breaks self.old self.new }
    {
        lack_room(&mut self.host);
        self.say_abort();
    }

    fn say_abort(&mut self)
        ensures { Passes self.old self.new }
    {
        while let Some(message) = self.host.next_message() {
            put_abort(&mut self.out, message);
        }
    }
}

/// The vat hears these messages, in order.
pub(crate) fn hear_each(host: &mut Host, heard: Heard)
    ensures { HearsAll host.old (messages_in heard) host.new }
{
    match heard {
        Heard::Nothing => {}
        Heard::One(message) => host.receive(message),
        Heard::Two(first, second) => {
            host.receive(first);
            host.receive(second);
        }
    }
}

/// Puts the frames of what the peer is told behind the bytes, or keeps the frame of what is to go back; says whether it could, and
/// nothing is changed if not.
pub(crate) fn put_aside(out: &mut Outgoing, aside: Aside) -> bool
    ensures { MatchBool result (IsAside out.old (seen_aside aside) out.new) (out.new ≡ out.old) }
{
    match aside {
        Aside::Told(told) => return tell(out, told),
        Aside::Unknown(original) => match out.keep(Some(original)) {
            Ok(()) => return true,
            Err(_) => return false,
        },
    }
}

// Puts the frames of all that the peer is told behind the bytes, or none of them; says whether it could.
fn tell(out: &mut Outgoing, told: Told) -> bool
    ensures { MatchBool result (IsTold out.old told out.new) (out.new ≡ out.old) }
{
    let Told { given_back, said } = told;
    let len = out.bytes().len();
    if !give_back(out, given_back) {
        out.cut(len);
        return false;
    }
    if !send(out, said) {
        out.cut(len);
        return false;
    }
    true
}

// Puts the frame of a Release of one of each of these exports behind the bytes, to the first for which memory runs out; says
// whether that was none.
fn give_back(out: &mut Outgoing, exports: Items<ExportId>) -> bool
    ensures all { IsTrue result → GivesBack out.old exports out.new }
    ensures longer { IsLonger out.old out.new }
{
    for export in exports {
        let release = Message::Plain(PlainMessage::Release(Release { export, count: 1 }));
        if !put(out, release) {
            return false;
        }
    }
    true
}

// Puts the frame of what the peer is told, if anything, behind the bytes; says whether it could.
fn send(out: &mut Outgoing, said: Option<Said>) -> bool
    ensures { MatchBool result (Sends out.old said out.new) (out.new ≡ out.old) }
{
    match said {
        None => return true,
        Some(Said::Message(message)) => match out.write(&message) {
            Ok(()) => return true,
            Err(_) => return false,
        },
        Some(Said::SentElsewhere(kept)) => match out.write_sent_elsewhere(kept) {
            Ok(()) => return true,
            Err(_) => return false,
        },
    }
}

// Puts the frame of a message behind the bytes, and says whether it could.
fn put(out: &mut Outgoing, message: Message) -> bool
    ensures { Goes result out.old message out.new }
{
    match out.write(&message) {
        Ok(()) => return true,
        Err(_) => return false,
    }
}

// Puts the frame of an Abort, if it can, and of no other message.
fn put_abort(out: &mut Outgoing, message: Message)
    ensures { PassesOne (is_abort message) out.old message out.new }
{
    if is_abort(&message) {
        let _ = put(out, message);
        return;
    }
}

fn is_abort(message: &Message) -> bool
    ensures { result ≡ is_abort message.now }
{
    matches!(message, Message::Plain(PlainMessage::Abort(_)))
}
