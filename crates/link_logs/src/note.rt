ghost use Rattle.std.specs.Prelude.{◌≡◌, length};
ghost use Rattle.link_rings.specs.Parties.{is_receipt};
ghost use Rattle.link_logs.specs.Notes.{input_by, sends_by};

use rpc_machine::{Command, Effects, Granted, Refusal};
use rpc_msg::Message;
use std::snapshot::Snapshot;

/// What happened in a step of an end, for the proof alone: at run time no more is left of it than its kind.
#[derive(Drop)]
pub enum Told {
    /// It obeyed the command, with that answer and these effects; and whether there was room for all of it.
    Obeyed(Snapshot<Command>, Snapshot<Result<Granted, Refusal>>, Snapshot<Effects>, bool),
    /// It was shut, with these effects.
    Shut(Snapshot<Effects>),
    /// It received the message, with these effects; and whether there was room for all of it.
    Received(Snapshot<Message>, Snapshot<Effects>, bool),
}

/// What the log of an end notes of a step: what happened, how many messages it sent, and how many entries it has in the
/// journal of its end.
#[derive(Drop)]
pub struct Note {
    pub told: Told,
    pub sent: usize,
    pub entries: usize,
    ghost sent_is: { sent ≡ length (sends_by told) },
}

impl Note {
    /// Whether the step received a message.
    pub fn received(&self) -> bool
        ensures { result ≡ is_receipt (input_by self.now.told) }
    {
        match self.told {
            Told::Received(_, _, _) => true,
            _ => false,
        }
    }
}
