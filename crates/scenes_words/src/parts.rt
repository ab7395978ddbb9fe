//! What entries and messages are made of.
use rpc_msg::{
    Descriptor, Exception, ExceptionKind, Items, Op, Path, Payload, RefId, Stamp, Target, Vat,
};
use std::alloc::AllocError;
use std::fmt::Write;

/// The letter of a vat.
pub fn letter(vat: Vat) -> &'static str {
    match vat {
        Vat::A => "a",
        Vat::B => "b",
    }
}

/// What an entry of that vat says of a number.
pub(crate) fn write_said(
    text: &mut String,
    vat: Vat,
    what: &str,
    number: u64,
) -> Result<(), AllocError> {
    write!(text, "{}: {what} {number}", letter(vat))
}

/// What has that number.
pub(crate) fn write_numbered(text: &mut String, what: &str, number: u64) -> Result<(), AllocError> {
    write!(text, "{what} {number}")
}

pub(crate) fn write_references(
    text: &mut String,
    references: &Items<RefId>,
) -> Result<(), AllocError> {
    if !references.is_empty() {
        text.push_str(" with")?;
    }
    for reference in references {
        write!(text, " {}", reference.0)?;
    }
    Ok(())
}

pub(crate) fn write_flag(text: &mut String, releases: bool) -> Result<(), AllocError> {
    if releases {
        return text.push_str(" release");
    }
    Ok(())
}

/// The null payload, that of a Bootstrap's results, or how many capabilities another has, and in how many bytes.
pub(crate) fn write_payload(text: &mut String, payload: &Payload) -> Result<(), AllocError> {
    match (payload.bytes().len(), payload.caps()) {
        (16, 0) => text.push_str("null"),
        (16, 1) => text.push_str("cap"),
        (len, caps) => write!(text, "{caps} in {len}"),
    }
}

pub(crate) fn write_exception(text: &mut String, exception: &Exception) -> Result<(), AllocError> {
    let kind = match exception.kind {
        ExceptionKind::Failed => "failed",
        ExceptionKind::Overloaded => "overloaded",
        ExceptionKind::Disconnected => "disconnected",
        ExceptionKind::Unimplemented => "unimplemented",
    };
    write!(text, "{kind}: {}", exception.reason.as_str())
}

pub(crate) fn write_target(text: &mut String, target: Target) -> Result<(), AllocError> {
    match target {
        Target::ImportedCap(export) => write_numbered(text, "import", u64::from(export.0)),
        Target::PromisedAnswer(question, path) => {
            write_numbered(text, "answer", u64::from(question.0))?;
            write_path(text, path)
        }
    }
}

pub(crate) fn write_descriptors(
    text: &mut String,
    descriptors: &Items<Descriptor>,
) -> Result<(), AllocError> {
    for descriptor in descriptors {
        text.push(' ')?;
        write_descriptor(text, *descriptor)?;
    }
    Ok(())
}

pub(crate) fn write_descriptor(
    text: &mut String,
    descriptor: Descriptor,
) -> Result<(), AllocError> {
    match descriptor {
        Descriptor::None => text.push_str("none"),
        Descriptor::SenderHosted(export) => {
            write_numbered(text, "senderHosted", u64::from(export.0))
        }
        Descriptor::SenderPromise(export) => {
            write_numbered(text, "senderPromise", u64::from(export.0))
        }
        Descriptor::ReceiverHosted(export) => {
            write_numbered(text, "receiverHosted", u64::from(export.0))
        }
        Descriptor::ReceiverAnswer(question, path) => {
            write_numbered(text, "receiverAnswer", u64::from(question.0))?;
            write_path(text, path)
        }
    }
}

pub(crate) fn write_path(text: &mut String, path: Path) -> Result<(), AllocError> {
    for op in path.as_slice() {
        match op {
            Op::Noop => text.push_str(".-")?,
            Op::Field(field) => write!(text, ".{field}")?,
        }
    }
    Ok(())
}

pub(crate) fn write_stamp(text: &mut String, stamp: Stamp) -> Result<(), AllocError> {
    write!(
        text,
        " as {}/{}#{}",
        letter(stamp.vat),
        stamp.reference.0,
        stamp.index
    )
}
