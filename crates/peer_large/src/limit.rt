//! The limits that a Call or a Return may break by itself.
ghost use Rattle.std.specs.Prelude.{◌≡◌, IfOk};
ghost use Rattle.peer_large.specs.Limits.{exception_of, limit_of, payload_limit};

use rpc_codec::EnvelopeFault;
use rpc_msg::{Exception, ExceptionKind, Memory, PayloadFault, Text};
use std::alloc::Global;

/// A limit that a message breaks (docs/messages.md, "Messages that are too large").
#[derive(Clone, Copy, Debug, PartialEq, Eq, Drop)]
pub enum Limit {
    /// It has more than 65,536 words.
    Words,
    /// It nests more than 64 levels deep.
    Depth,
    /// More than 65,536 of its words are visited.
    Visited,
    /// It has more than 4,096 descriptors.
    Descriptors,
    /// The path of a Call's target has more than 16 steps.
    Steps,
}

impl Limit {
    /// The limit that a fault is of, if it is of one.
    pub(crate) fn of(fault: EnvelopeFault) -> Option<Limit>
        ensures { result ≡ limit_of fault }
    {
        match fault {
            EnvelopeFault::Encoding(fault) => Limit::of_payload(fault),
            EnvelopeFault::TooManyDescriptors => Some(Limit::Descriptors),
            _ => None,
        }
    }

    fn of_payload(fault: PayloadFault) -> Option<Limit>
        ensures { result ≡ payload_limit fault }
    {
        match fault {
            PayloadFault::TooLarge => Some(Limit::Words),
            PayloadFault::Depth => Some(Limit::Depth),
            PayloadFault::Traversal => Some(Limit::Visited),
            _ => None,
        }
    }

    /// What a caller is told whose call breaks it.
    pub(crate) fn exception(self, alloc: Global) -> Result<Exception, Memory>
        ensures { IfOk result (λ exception. exception ≡ exception_of self) }
    {
        let reason = match self {
            Limit::Words => Text::new(alloc, "the message has more than 65536 words")?,
            Limit::Depth => Text::new(alloc, "the message nests more than 64 levels deep")?,
            Limit::Visited => Text::new(alloc, "more than 65536 words of the message are visited")?,
            Limit::Descriptors => Text::new(alloc, "the message has more than 4096 capabilities")?,
            Limit::Steps => Text::new(alloc, "the target has a path of more than 16 steps")?,
        };
        Ok(Exception {
            kind: ExceptionKind::Failed,
            reason,
        })
    }
}
