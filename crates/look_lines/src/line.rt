//! The line of a message.
use crate::answers::{Outcome, write_finish, write_return};
use crate::names::Names;
use crate::naming::View;
use crate::others::{write_back, write_disembargo, write_release, write_resolve};
use crate::parts::{write_exception, write_kind};
use crate::questions::write_call;
use look_books::{Kind, Moment};
use look_pieces::Side;
use rpc_codec::{Envelope, Heading};
use rpc_msg::{Message, PlainMessage};
use std::alloc::AllocError;

/// Number, time and direction of a message.
fn write_front(out: &mut String, side: Side, moment: Moment) -> Result<(), AllocError> {
    let number = moment.number;
    write!(out, "{number:5} ")?;
    if let Some(time) = moment.time {
        let seconds = time / 1_000_000;
        let rest = time % 1_000_000;
        write!(out, "{seconds:4}.{rest:06} ")?;
    }
    match side {
        Side::Client => out.push_str("> "),
        Side::Server => out.push_str("< "),
    }
}

fn write_plain<N: Names>(
    out: &mut String,
    view: &View<'_, N>,
    side: Side,
    time: Option<u64>,
    message: &PlainMessage,
) -> Result<(), AllocError> {
    match message {
        PlainMessage::Abort(exception) => {
            out.push_str("Abort ")?;
            write_exception(out, exception.kind, exception.reason.as_str())
        }
        PlainMessage::Bootstrap(question) => write!(out, "Bootstrap {}", question.0),
        PlainMessage::Call(call) => write_call(out, view, side, call, false),
        PlainMessage::Return(said) => write_return(
            out,
            view,
            side,
            time,
            said.answer,
            said.release_param_caps,
            &Outcome::Body(&said.body),
        ),
        PlainMessage::Finish(finish) => write_finish(out, view, side, finish),
        PlainMessage::Resolve(resolve) => write_resolve(out, view, side, resolve),
        PlainMessage::Release(release) => write_release(out, view, side, release),
        PlainMessage::Disembargo(sent) => write_disembargo(out, view, side, sent),
        PlainMessage::Other(number) => write_kind(out, Kind::of_number(*number)),
    }
}

/// What is not understood: its kind, and the question that it asks or answers.
fn write_unknown<N: Names>(
    out: &mut String,
    view: &View<'_, N>,
    side: Side,
    time: Option<u64>,
    number: u16,
    heading: Heading,
) -> Result<(), AllocError> {
    match heading {
        Heading::Asks {
            question,
            only_promise_pipeline: _,
        } => {
            write_kind(out, Kind::of_number(number))?;
            write!(out, " {}, not understood", question.0)
        }
        Heading::Answers {
            answer,
            no_finish_needed: _,
        } => write_return(out, view, side, time, answer, false, &Outcome::Unknown),
        Heading::Other => write_kind(out, Kind::of_number(number)),
    }
}

fn write_text<N: Names>(
    out: &mut String,
    view: &View<'_, N>,
    side: Side,
    time: Option<u64>,
    envelope: &Envelope,
    heading: Heading,
) -> Result<(), AllocError> {
    match envelope {
        Envelope::Message(Message::Plain(message)) => write_plain(out, view, side, time, message),
        Envelope::Message(Message::Unimplemented(message)) => write_back(out, view, side, message),
        Envelope::TailCall(call) => write_call(out, view, side, call, true),
        Envelope::SentElsewhere(said) => write_return(
            out,
            view,
            side,
            time,
            said.answer,
            said.release_param_caps,
            &Outcome::SentElsewhere,
        ),
        Envelope::TakenFromOther(said) => write_return(
            out,
            view,
            side,
            time,
            said.answer,
            said.release_param_caps,
            &Outcome::TakenFrom(said.question),
        ),
        Envelope::Unknown(unknown) => {
            write_unknown(out, view, side, time, unknown.number, heading)
        }
    }
}

/// Writes the line of a message of an end, with its newline. The books are those before it.
pub fn write_line<N: Names>(
    out: &mut String,
    view: &View<'_, N>,
    side: Side,
    moment: Moment,
    envelope: &Envelope,
    heading: Heading,
) -> Result<(), AllocError> {
    write_front(out, side, moment)?;
    write_text(out, view, side, moment.time, envelope, heading)?;
    out.push('\n')
}

/// Writes the line of a frame that is no message, with why it is none.
pub fn write_none(
    out: &mut String,
    side: Side,
    moment: Moment,
    why: &str,
) -> Result<(), AllocError> {
    write_front(out, side, moment)?;
    writeln!(out, "no message: {why}")
}
