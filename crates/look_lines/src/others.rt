//! Lines of the other messages.
use crate::answers::answered;
use crate::names::Names;
use crate::naming::{View, write_asked, write_export, write_resolution, write_target};
use crate::parts::{write_exception, write_kind};
use look_books::kind_of_plain;
use look_pieces::Side;
use rpc_msg::{
    Disembargo, DisembargoContext, PlainMessage, QuestionId, Release, Resolve, ResolvedTo,
};
use std::alloc::AllocError;

pub(crate) fn write_resolve<N: Names>(
    out: &mut String,
    view: &View<'_, N>,
    side: Side,
    resolve: &Resolve,
) -> Result<(), AllocError> {
    write!(out, "Resolve {}: ", resolve.promise.0)?;
    write_export(out, view, side, resolve.promise)?;
    match &resolve.to {
        ResolvedTo::Cap(descriptor) => {
            out.push_str(" is ")?;
            write_resolution(out, view, side, descriptor)
        }
        ResolvedTo::Exception(exception) => {
            out.push_str(" is broken: ")?;
            write_exception(out, exception.kind, exception.reason.as_str())
        }
    }
}

pub(crate) fn write_release<N: Names>(
    out: &mut String,
    view: &View<'_, N>,
    side: Side,
    release: &Release,
) -> Result<(), AllocError> {
    write!(out, "Release {}: {} of ", release.export.0, release.count)?;
    write_export(out, view, side.other(), release.export)
}

pub(crate) fn write_disembargo<N: Names>(
    out: &mut String,
    view: &View<'_, N>,
    side: Side,
    sent: &Disembargo,
) -> Result<(), AllocError> {
    match sent.context {
        DisembargoContext::SenderLoopback(id) => {
            write!(out, "Disembargo {} to ", id.0)?;
            write_target(out, view, side, &sent.target)
        }
        DisembargoContext::ReceiverLoopback(id) => {
            write!(out, "Disembargo {} comes back", id.0)?;
            match view.books.end(side.other()).embargoes.get(&id.0) {
                Some(number) => write!(out, ", of {number}"),
                None => Ok(()),
            }
        }
    }
}

/// The question that a message had asked which came back.
fn question_of(message: &PlainMessage) -> Option<QuestionId> {
    match message {
        PlainMessage::Bootstrap(question) => Some(*question),
        PlainMessage::Call(call) => Some(call.question),
        _ => None,
    }
}

pub(crate) fn write_back<N: Names>(
    out: &mut String,
    view: &View<'_, N>,
    side: Side,
    message: &PlainMessage,
) -> Result<(), AllocError> {
    out.push_str("Unimplemented ")?;
    write_kind(out, kind_of_plain(message))?;
    let Some(question) = question_of(message) else {
        return Ok(());
    };
    let Some(his) = answered(view, side.other(), question) else {
        return Ok(());
    };
    write!(out, ", to {} ", his.number)?;
    write_asked(out, view, his.asked)
}
