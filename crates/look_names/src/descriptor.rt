//! Capabilities by their descriptors.
use rpc_msg::{Descriptor, Op, Path};
use std::alloc::AllocError;

/// A descriptor by its name in rpc.capnp, with its number, and with its path by pointers: `receiverAnswer 3.0.1`.
pub fn write_descriptor(out: &mut String, descriptor: &Descriptor) -> Result<(), AllocError> {
    match descriptor {
        Descriptor::None => out.push_str("none"),
        Descriptor::SenderHosted(id) => write!(out, "senderHosted {}", id.0),
        Descriptor::SenderPromise(id) => write!(out, "senderPromise {}", id.0),
        Descriptor::ReceiverHosted(id) => write!(out, "receiverHosted {}", id.0),
        Descriptor::ReceiverAnswer(question, path) => {
            write!(out, "receiverAnswer {}", question.0)?;
            write_pointers(out, path)
        }
    }
}

fn write_pointers(out: &mut String, path: &Path) -> Result<(), AllocError> {
    for op in path.as_slice() {
        if let Op::Field(pointer) = op {
            write!(out, ".{pointer}")?;
        }
    }
    Ok(())
}

/// The capability of an index, by its descriptor if it has one.
pub(crate) fn write_capability(
    out: &mut String,
    index: u32,
    descriptors: &[Descriptor],
) -> Result<(), AllocError> {
    match descriptors.get(index as usize) {
        Some(descriptor) => {
            out.push('<')?;
            write_descriptor(out, descriptor)?;
            out.push('>')
        }
        None => write!(out, "<capability {index}>"),
    }
}
