//! The bytes that go out.
ghost use Rattle.std.specs.Prelude.{◌≡◌, [], ◌++◌, true, IfOk, Ok, OnOk, OnErr, take};
ghost use Rattle.std.specs.Option.{option_map};
ghost use Rattle.capn_trees.specs.Views.{view};
ghost use Rattle.rpc_codec.specs.Frames.{Writes, message_frame};
ghost use Rattle.rpc_outgoing.specs.Outflows.{IsSayable, Keeps, Puts, PutsElsewhere, is_alone, is_sound, nothing_out};

use crate::errors::WriteError;
use crate::sound::is_sound;
use crate::widths::fit;
use rpc_codec::{EncodeError, SentElsewhere, echo, encode, encode_sent_elsewhere};
use rpc_msg::{Memory, Message, Payload, PlainMessage, Tree};
use std::alloc::Global;
use std::collections::VecDeque;
use std::marker::Model;
use std::mem;

/// Bytes that go out, and the frames that are kept until the vat sends back what was not understood, the oldest first.
#[derive(Drop)]
pub struct Outgoing {
    alloc: Global,
    bytes: Vec<u8>,
    echoes: VecDeque<Payload>,
}

impl Model for Outgoing {
    ghost use Rattle.rpc_outgoing.specs.Outflows.{Outflow};

    ghost Value = { Outflow };

    ghost view = { λ a. record { bytes = a.bytes.items; echoes = a.echoes.items } };
}

impl Outgoing {
    /// Nothing goes out, and no frame is kept. Takes no memory.
    pub fn new(alloc: Global) -> Outgoing
        ensures { result ≡ nothing_out }
    {
        Outgoing {
            alloc,
            bytes: Vec::new(alloc),
            echoes: VecDeque::new(alloc),
        }
    }

    /// The bytes that go out. They stay.
    pub fn bytes(&self) -> &[u8]
        ensures { result.now ≡ self.now.bytes }
    {
        self.bytes.as_slice()
    }

    /// Hands the bytes out, once. Takes no memory.
    pub fn take(&mut self) -> Vec<u8>
        ensures taken { result.items ≡ self.old.bytes }
        ensures left { self.new ≡ record self.old { bytes = [] } }
    {
        mem::replace(&mut self.bytes, Vec::new(self.alloc))
    }

    /// Takes back the bytes behind the first so many. Takes no memory.
    pub fn cut(&mut self, len: usize)
        ensures { self.new ≡ record self.old { bytes = take len self.old.bytes } }
    {
        self.bytes.truncate(len);
    }

    /// Keeps the frame that sends back, whole, what was not understood, if there is any, behind the others. A `Fault` if it
    /// is too large to be sent back, and `Memory`, leave all as it was.
    pub fn keep(&mut self, original: Option<Tree>) -> Result<(), EncodeError>
        ensures { Keeps self.old (option_map view original) result self.new }
    {
        let Some(original) = original else {
            return Ok(());
        };
        let frame = echo(self.alloc, original)?;
        match self.echoes.push_back(frame) {
            Ok(()) => Ok(()),
            Err(_) => Err(EncodeError::Memory),
        }
    }

    /// Puts the frame of a message behind the bytes: for an Unimplemented of `Other` the oldest that is kept, which is kept
    /// no longer; for every other message its own. Refused is a message that has none, and one that no vat says; that and want
    /// of memory leave all as it was.
    pub fn write(&mut self, message: &Message) -> Result<(), WriteError>
        ensures { Puts self.old message.now result self.new }
    {
        if !is_sound(message) {
            return Err(WriteError::Unsound);
        }
        if is_alone(message) {
            if let Some(echo) = self.echoes.front() {
                append(&mut self.bytes, echo.bytes())?;
                let _ = self.echoes.pop_front();
                return Ok(());
            }
        }
        let frame = frame_of(self.alloc, message)?;
        append(&mut self.bytes, frame.bytes())?;
        Ok(())
    }

    /// Puts the frame of a Return that says that the results of a tail call are kept behind the bytes. `Memory` leaves all as it
    /// was.
    pub fn write_sent_elsewhere(&mut self, said: SentElsewhere) -> Result<(), EncodeError>
        ensures { PutsElsewhere self.old said result self.new }
    {
        let frame = encode_sent_elsewhere(self.alloc, said)?;
        append(&mut self.bytes, frame.bytes())?;
        Ok(())
    }
}

/// Does a message send back what is a number alone?
fn is_alone(message: &Message) -> bool
    ensures { result ≡ is_alone message.now }
{
    matches!(message, Message::Unimplemented(PlainMessage::Other(_)))
}

/// The frame of a sound message.
fn frame_of(alloc: Global, message: &Message) -> Result<Payload, EncodeError>
    requires { is_sound message.now ≡ true }
    ensures frame { Writes (λ p. p) result (message_frame message.now) }
    ensures sayable { IfOk result (λ p. IsSayable message.now) }
{
    fit(message);
    let frame = encode(alloc, message)?;
    Ok(frame)
}

fn append(bytes: &mut Vec<u8>, frame: &[u8]) -> Result<(), Memory>
    ensures ok { OnOk result (bytes.new.items ≡ bytes.old.items ++ frame.now) }
    ensures err { OnErr result (bytes.new.items ≡ bytes.old.items) }
{
    match bytes.extend_from_slice(frame) {
        Ok(()) => Ok(()),
        Err(_) => Err(Memory),
    }
}
