//! Faults by their numbers.
ghost use Rattle.std.specs.Prelude.{◌≡◌, IfSome};
ghost use Rattle.capn_trees.specs.Numbers.{number_of as encoding_number};
ghost use Rattle.rpc_machine.specs.Numbers.{fault_number};
ghost use Rattle.rpc_codec_parts.specs.Numbers.{number_of as envelope_number};
ghost use Rattle.peer_tail_calls.specs.Numbers.{number_of as tail_number};
ghost use Rattle.peer_overload.specs.Numbers.{number_of as overload_number};
ghost use Rattle.program_faults.specs.Numbers.{number_of};

use capn_trees::PayloadFault;
use peer_overload::OverloadFault;
use peer_tail_calls::AdapterFault;
use rpc_codec_parts::EnvelopeFault;
use rpc_machine::Fault;
use std::fmt;

/// A fault with which a vat goes down, of the crate that numbers it.
#[derive(Clone, Copy, Debug, PartialEq, Eq, Drop)]
pub enum NumberedFault {
    /// Bytes are no message of the encoding: 2 to 12.
    Encoding(PayloadFault),
    /// A message breaks the protocol, or there is no room: 20 to 34.
    Machine(Fault),
    /// A frame is no message of the protocol: 60 to 65.
    Envelope(EnvelopeFault),
    /// A Return speaks of a tail call that there is not: 66 and 67.
    TailCall(AdapterFault),
    /// A question comes where too many were refused: 68.
    Overload(OverloadFault),
}

impl NumberedFault {
    /// Its number.
    pub fn code(self) -> u16
        ensures { result ≡ number_of self }
    {
        match self {
            NumberedFault::Encoding(fault) => fault.code(),
            NumberedFault::Machine(fault) => fault.code(),
            NumberedFault::Envelope(fault) => fault.code(),
            NumberedFault::TailCall(fault) => fault.code(),
            NumberedFault::Overload(fault) => fault.code(),
        }
    }
}

impl fmt::Display for NumberedFault {
    // Its name, and what it means.
    fn fmt<W: fmt::Write>(&self, f: &mut fmt::Formatter<W>) -> fmt::Result {
        match self {
            NumberedFault::Encoding(fault) => write!(f, "{fault:?}: {fault}"),
            NumberedFault::Machine(fault) => write!(f, "{fault:?}: {fault}"),
            NumberedFault::Envelope(fault) => write!(f, "{fault:?}: {fault}"),
            NumberedFault::TailCall(fault) => write!(f, "{fault:?}: {fault}"),
            NumberedFault::Overload(fault) => write!(f, "{fault:?}: {fault}"),
        }
    }
}

/// The fault that has a number. 20 is that of a question id in use; a peer that asks under the id of a refused question gets it too.
/// None for the numbers that an application gives when it shuts its vat.
pub fn fault_of(number: u16) -> Option<NumberedFault>
    ensures { IfSome result (λ fault. number_of fault ≡ number) }
{
    match number {
        ..=12 => encoding_fault(number).map(NumberedFault::Encoding),
        13..=34 => machine_fault(number).map(NumberedFault::Machine),
        35..=65 => envelope_fault(number).map(NumberedFault::Envelope),
        66 => Some(NumberedFault::TailCall(AdapterFault::NothingToTake)),
        67 => Some(NumberedFault::TailCall(AdapterFault::NoTailCall)),
        68 => Some(NumberedFault::Overload(OverloadFault::TooManyRefused)),
        _ => None,
    }
}

fn encoding_fault(number: u16) -> Option<PayloadFault>
    ensures { IfSome result (λ fault. encoding_number fault ≡ number) }
{
    match number {
        2 => Some(PayloadFault::Short),
        3 => Some(PayloadFault::TooManySegments),
        4 => Some(PayloadFault::TooLarge),
        5 => Some(PayloadFault::Trailing),
        6 => Some(PayloadFault::OutOfBounds),
        7 => Some(PayloadFault::BadFar),
        8 => Some(PayloadFault::BadTag),
        9 => Some(PayloadFault::BadOther),
        10 => Some(PayloadFault::CapIndex),
        11 => Some(PayloadFault::Depth),
        12 => Some(PayloadFault::Traversal),
        _ => None,
    }
}

fn machine_fault(number: u16) -> Option<Fault>
    ensures { IfSome result (λ fault. fault_number fault ≡ number) }
{
    match number {
        20 => Some(Fault::QuestionInUse),
        21 => Some(Fault::UnknownQuestion),
        22 => Some(Fault::UnknownExport),
        23 => Some(Fault::UnknownAnswer),
        24 => Some(Fault::OverRelease),
        25 => Some(Fault::ResolvedTwice),
        26 => Some(Fault::NotAPromise),
        27 => Some(Fault::DisembargoNotLoopback),
        28 => Some(Fault::UnknownEmbargo),
        29 => Some(Fault::KindMismatch),
        30 => Some(Fault::BadPayload),
        31 => Some(Fault::HeldLimit),
        32 => Some(Fault::UnimplementedAnswer),
        33 => Some(Fault::WantOfRoom),
        34 => Some(Fault::PeerAbort),
        _ => None,
    }
}

fn envelope_fault(number: u16) -> Option<EnvelopeFault>
    ensures { IfSome result (λ fault. envelope_number fault ≡ number) }
{
    match number {
        60 => Some(EnvelopeFault::WrongKind),
        61 => Some(EnvelopeFault::BadText),
        62 => Some(EnvelopeFault::TooManyDescriptors),
        63 => Some(EnvelopeFault::NestedUnimplemented),
        64 => Some(EnvelopeFault::BadContent),
        65 => Some(EnvelopeFault::UnknownReturn),
        _ => None,
    }
}
