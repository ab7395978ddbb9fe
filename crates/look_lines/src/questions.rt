//! Lines of questions.
use crate::names::Names;
use crate::naming::{View, write_target};
use crate::parts::write_descriptors;
use look_books::Method;
use look_pieces::Side;
use rpc_msg::{Call, Payload};
use std::alloc::AllocError;

/// The bytes of a payload before its content: the table of its segment, and the pointer to it.
const BEFORE_CONTENT: usize = 16;

/// How many bytes a content has.
pub(crate) fn write_size(out: &mut String, payload: &Payload) -> Result<(), AllocError> {
    let size = payload.bytes().len().saturating_sub(BEFORE_CONTENT);
    write!(out, ", {size} bytes")
}

pub(crate) fn write_call<N: Names>(
    out: &mut String,
    view: &View<'_, N>,
    side: Side,
    call: &Call,
    tail: bool,
) -> Result<(), AllocError> {
    write!(out, "Call {} ", call.question.0)?;
    let method = Method {
        interface: call.interface,
        number: call.method,
    };
    view.names.write_method(out, method)?;
    out.push_str(" on ")?;
    write_target(out, view, side, &call.target)?;
    if tail {
        out.push_str(", a tail call")?;
    }
    write_size(out, &call.payload)?;
    let descriptors = call.descriptors.as_slice();
    write_descriptors(out, descriptors)?;
    view.names
        .write_params(out, method, &call.payload, descriptors)
}
