//! A seat, to which frames are handed, and which is asked.
use crate::tests::need::Asked;
use link_driver::{Answer, Frame, Seat, Turn};
use rpc_machine::{Command, Refusal};
use rpc_msg::Message;

/// Hands it the frame: gives the number with which it is down, if it is.
pub(super) fn take(seat: &mut Seat, seq: u64, ack: u64, message: Message) -> Option<u16> {
    match seat.take(Frame { seq, ack, message }) {
        Turn::Handled(effects) => {
            seat.recycle(effects);
            None
        }
        Turn::Down(number) => Some(number),
        // it has a frame, so it is not idle; no vat is down with this number
        Turn::Idle => Some(0),
    }
}

/// Has it obey a command, which comes back once if memory is refused.
pub(super) fn ask(seat: &mut Seat, command: Command) -> Asked {
    match seat.command(command) {
        Answer::Done(_, effects) => {
            seat.recycle(effects);
            Asked::Done
        }
        Answer::Refused(Refusal::Memory, back) => ask_again(seat, back),
        Answer::Refused(refusal, _) => Asked::Refused(refusal),
    }
}

fn ask_again(seat: &mut Seat, command: Command) -> Asked {
    match seat.command(command) {
        Answer::Done(_, effects) => {
            seat.recycle(effects);
            Asked::DoneAgain
        }
        Answer::Refused(_, _) => Asked::RefusedAgain,
    }
}
