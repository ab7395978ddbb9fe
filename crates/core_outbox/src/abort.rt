ghost use Rattle.std.specs.Prelude.{◌≡◌, ◌+◌, ◌≤◌, ◌++◌, length, vec_len, vec_capacity, string_len, string_capacity, string_bytes};
ghost use Rattle.rpc_machine.specs.Down.{falling};

use itoa::Buffer;
use rpc_msg::{Exception, ExceptionKind, Items, Memory, Message, PlainMessage, Text};
use std::alloc::Global;

/// The memory of one Abort, which is kept so that a vat can go down without any.
#[derive(Drop)]
pub(crate) struct AbortRoom {
    sends: Vec<Message>,
    reason: String,
    ghost one_more: { vec_len sends + 1 ≤ vec_capacity sends },
    ghost none_yet: { vec_len sends ≡ 0 },
    ghost nothing_said: { string_len reason ≡ 0 },
    ghost letters: { 11 ≤ string_capacity reason },
}

impl AbortRoom {
    /// Makes the room.
    pub(crate) fn new(alloc: Global) -> Result<Self, Memory> {
        let sends = Vec::with_capacity(alloc, 1)?;
        // The longest reason is `fault 65535`.
        let reason = String::with_capacity(alloc, 11)?;
        Ok(AbortRoom { sends, reason })
    }

    /// The one message of a vat that goes down with that number. Takes no memory.
    pub(crate) fn abort(self, number: u16) -> Items<Message>
        ensures { result ≡ (falling number).sends }
    {
        let AbortRoom {
            mut sends,
            mut reason,
        } = self;
        let mut digits = Buffer::new();
        write_kept(&mut reason, "fault ");
        write_kept(&mut reason, digits.format(number));
        let exception = Exception {
            kind: ExceptionKind::Failed,
            reason: Text::from_string(reason),
        };
        match sends.push(Message::Plain(PlainMessage::Abort(exception))) {
            Ok(()) => Items::from_vec(sends),
            Err(_) => unreachable!(),
        }
    }
}

/// Puts a text at the end, if there is room for it.
fn write_kept(text: &mut String, more: &str)
    requires { string_len text.old + length more.now ≤ string_capacity text.old }
    ensures bytes { string_bytes text.new ≡ string_bytes text.old ++ more.now }
    ensures len { string_len text.new ≡ string_len text.old + length more.now }
    ensures capacity { string_capacity text.old ≤ string_capacity text.new }
{
    match text.push_str(more) {
        Ok(()) => return,
        Err(_) => unreachable!(),
    }
}
