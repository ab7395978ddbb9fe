//! Each kind of message through its frame, contents as deep as frames allow, and what is not understood.
use crate::tests::contents::{call, nested, path, pointing_at, sevens};
use crate::tests::messages::{
    CALL, MESSAGES, NAMING_CALL, NAMING_CALL_BACK, NAMING_RESOLVE, NAMING_RETURN,
};
use crate::tests::{STAMP, unknown_in};
use capn_trees::{PayloadFault, Tree, WriteFault};
use rpc_codec::laws::encode_and_decode;
use rpc_codec::{
    DecodeError, EncodeError, EncodeFault, Envelope, EnvelopeFault, decode, echo, encode,
};
use rpc_msg::{
    Call, Descriptor, ExportId, Items, Memory, Message, Op, Payload, PlainMessage, QuestionId,
    Target,
};
use std::alloc::Global;
use std::test::Fail;
use tests_parts::bytes_of;

// A message is let go where it is taken by value, at one place: each place at which one goes is dear to prove.
fn encoded(alloc: Global, message: Message) -> Result<Payload, EncodeError> {
    encode(alloc, &message)
}

// If the first try has no memory for it, the second has.
fn copied(alloc: Global, message: &Message) -> Result<Message, Memory> {
    match message.copy(alloc) {
        Ok(copy) => Ok(copy),
        Err(Memory) => message.copy(alloc),
    }
}

fn copy_encoded(alloc: Global, message: Message) -> Result<Payload, EncodeError> {
    let copy = copied(alloc, &message)?;
    encode(alloc, &copy)
}

fn message_of(envelope: Envelope) -> Option<Message> {
    match envelope {
        Envelope::Message(message) => Some(message),
        _ => None,
    }
}

fn message_in(alloc: Global, bytes: &[u8]) -> Result<Message, Fail> {
    let envelope = decode(alloc, bytes, STAMP)?;
    match message_of(envelope) {
        Some(message) => Ok(message),
        None => Err("no message")?,
    }
}

fn frame_of_copy(alloc: Global, bytes: &[u8]) -> Result<Payload, Fail> {
    let message = message_in(alloc, bytes)?;
    Ok(copy_encoded(alloc, message)?)
}

/// Whether a copy of the message has the same frame.
fn comes_back(alloc: Global, text: &str) -> Result<bool, Fail> {
    let bytes = bytes_of(alloc, text)?;
    let frame = frame_of_copy(alloc, &bytes)?;
    Ok(frame.bytes() == bytes.as_slice())
}

#[test]
fn each_kind_comes_back(rt: HostRuntime) -> Result<(), Fail> {
    for (message, frame, unimplemented) in MESSAGES {
        for text in [frame, unimplemented] {
            let is_back = comes_back(rt.alloc(), text)?;
            assert!(rt; is_back, "{message}: {text}");
        }
    }
    Ok(())
}

/// The target of the Calls of `messages`.
fn target() -> Target {
    Target::PromisedAnswer(
        QuestionId(2),
        path(&[Op::Field(1), Op::Noop, Op::Field(65_535)]),
    )
}

fn has_descriptors(alloc: Global, text: &str, wanted: &[Descriptor]) -> Result<bool, Fail> {
    let bytes = bytes_of(alloc, text)?;
    let message = message_in(alloc, &bytes)?;
    Ok(message.descriptors() == wanted)
}

/// A Call, a Return, a Resolve, and an Unimplemented of the Call.
#[test]
fn messages_have_descriptors(rt: HostRuntime) -> Result<(), Fail> {
    let all = [
        Descriptor::None,
        Descriptor::SenderHosted(ExportId(1)),
        Descriptor::SenderPromise(ExportId(2)),
        Descriptor::ReceiverHosted(ExportId(3)),
        Descriptor::ReceiverAnswer(QuestionId(4), path(&[Op::Field(1), Op::Noop])),
    ];
    let hosted = [Descriptor::SenderHosted(ExportId(4))];
    let cases: [(&str, &[Descriptor]); 4] = [
        (NAMING_CALL, &all),
        (NAMING_RETURN, &all),
        (NAMING_RESOLVE, &hosted),
        (NAMING_CALL_BACK, &[]),
    ];
    for (text, wanted) in cases {
        let has = has_descriptors(rt.alloc(), text, wanted)?;
        assert!(rt; has);
    }
    Ok(())
}

fn all_descriptors() -> [Descriptor; 6] {
    [
        Descriptor::None,
        Descriptor::SenderHosted(ExportId(1)),
        Descriptor::SenderPromise(ExportId(4_294_967_295)),
        Descriptor::ReceiverHosted(ExportId(3)),
        Descriptor::ReceiverAnswer(QuestionId(4), path(&[Op::Field(0); 16])),
        Descriptor::ReceiverAnswer(QuestionId(5), path(&[])),
    ]
}

/// The Call of `messages`. Its content points at the last of the six capabilities.
fn full_call(alloc: Global) -> Result<Call, Fail> {
    let payload = Payload::write(alloc, &Tree::Cap(5), 6)?;
    let descriptors = Vec::from_slice(alloc, &all_descriptors())?;
    Ok(call(target(), payload, Items::from_vec(descriptors)))
}

fn plain(call: Call) -> Message {
    Message::Plain(PlainMessage::Call(call))
}

fn has_its_numbers(call: &Call, wanted: &Call) -> bool {
    call.question == wanted.question
        && call.interface == wanted.interface
        && call.method == wanted.method
        && call.stamp == wanted.stamp
}

fn has_its_parts(call: &Call, wanted: &Call) -> bool {
    call.target == wanted.target
        && call.payload == wanted.payload
        && call.descriptors.as_slice() == wanted.descriptors.as_slice()
}

fn is_call(envelope: Envelope, wanted: &Call) -> bool {
    match &envelope {
        Envelope::Message(Message::Plain(PlainMessage::Call(call))) => {
            has_its_numbers(call, wanted) && has_its_parts(call, wanted)
        }
        _ => false,
    }
}

fn through_a_frame(alloc: Global, message: &Message) -> Result<Envelope, Fail> {
    Ok(encode_and_decode(alloc, message, STAMP)??)
}

fn is_back(alloc: Global, message: &Message, wanted: &Call) -> Result<bool, Fail> {
    let back = through_a_frame(alloc, message)?;
    Ok(is_call(back, wanted))
}

fn comes_back_as(alloc: Global, wanted: &Call) -> Result<bool, Fail> {
    let message = plain(full_call(alloc)?);
    is_back(alloc, &message, wanted)
}

fn full_call_comes_back(alloc: Global) -> Result<bool, Fail> {
    let wanted = full_call(alloc)?;
    comes_back_as(alloc, &wanted)
}

fn full_call_has_its_frame(alloc: Global, text: &str) -> Result<bool, Fail> {
    let frame = encoded(alloc, plain(full_call(alloc)?))?;
    let bytes = bytes_of(alloc, text)?;
    Ok(frame.bytes() == bytes.as_slice())
}

#[test]
fn a_call_comes_back_with_all_its_parts(rt: HostRuntime) -> Result<(), Fail> {
    assert!(rt; full_call_has_its_frame(rt.alloc(), CALL)?);
    assert!(rt; full_call_comes_back(rt.alloc())?);
    Ok(())
}

/// Why it has no frame, except for lack of memory.
fn fault_of(encoded: Result<Payload, EncodeError>) -> Result<Option<EncodeFault>, Memory> {
    match encoded {
        Ok(_) => Ok(None),
        Err(EncodeError::Fault(fault)) => Ok(Some(fault)),
        Err(EncodeError::Memory) => Err(Memory),
    }
}

fn is_number_alone(alloc: Global, message: Message) -> Result<bool, Memory> {
    let fault = fault_of(copy_encoded(alloc, message))?;
    Ok(fault == Some(EncodeFault::NumberAlone))
}

#[test]
fn a_number_alone_is_no_message(rt: HostRuntime) -> Result<(), Fail> {
    for number in [0, 2, 3, 9, 10, 65_535] {
        let plain = Message::Plain(PlainMessage::Other(number));
        assert!(rt; is_number_alone(rt.alloc(), plain)?);
        let back = Message::Unimplemented(PlainMessage::Other(number));
        assert!(rt; is_number_alone(rt.alloc(), back)?);
    }
    Ok(())
}

const DEEP: Option<EncodeFault> = Some(EncodeFault::Unwritable(WriteFault::Depth));

const LARGE: Option<EncodeFault> = Some(EncodeFault::Unwritable(WriteFault::TooLarge));

/// A call with contents that nest so deep.
fn call_so_deep(alloc: Global, levels: usize) -> Result<PlainMessage, Fail> {
    let tree = nested(alloc, levels)?;
    let payload = Payload::write(alloc, &tree, 0)?;
    Ok(PlainMessage::Call(call(target(), payload, Items::new(alloc))))
}

fn fault_so_deep(alloc: Global, levels: usize) -> Result<Option<EncodeFault>, Fail> {
    let call = call_so_deep(alloc, levels)?;
    Ok(fault_of(encoded(alloc, Message::Plain(call)))?)
}

fn fault_of_echo_so_deep(alloc: Global, levels: usize) -> Result<Option<EncodeFault>, Fail> {
    let call = call_so_deep(alloc, levels)?;
    Ok(fault_of(encoded(alloc, Message::Unimplemented(call)))?)
}

/// Levels of contents, why a call with them has no frame, and why it has none as an echo.
const LEVELS: [(usize, Option<EncodeFault>, Option<EncodeFault>); 6] = [
    (59, None, None),
    (60, None, None),
    (61, None, DEEP),
    (62, DEEP, DEEP),
    (63, DEEP, DEEP),
    (64, DEEP, DEEP),
];

#[test]
fn contents_nest_as_deep_as_frames_allow(rt: HostRuntime) -> Result<(), Fail> {
    for (levels, as_plain, as_echo) in LEVELS {
        let fault = fault_so_deep(rt.alloc(), levels)?;
        assert!(rt; fault == as_plain, "{levels} levels");
        let fault = fault_of_echo_so_deep(rt.alloc(), levels)?;
        assert!(rt; fault == as_echo, "{levels} levels in an echo");
    }
    Ok(())
}

/// A message of number 9, with the bytes `of another level`, and its Unimplemented.
const STRANGE: &str =
    "0000000005000000 0000000001000100 0900000000000000 0100000082000000 6f6620616e6f7468 6572206c6576656c";

const STRANGE_BACK: &str =
    "0000000007000000 0000000001000100 0000000000000000 0000000001000100 0900000000000000 0100000082000000 6f6620616e6f7468 6572206c6576656c";

fn strange_goes_back(alloc: Global) -> Result<bool, Fail> {
    let came = bytes_of(alloc, STRANGE)?;
    let back = bytes_of(alloc, STRANGE_BACK)?;
    let unknown = unknown_in(alloc, &came)?;
    let number = unknown.number;
    let frame = echo(alloc, unknown.original)?;
    Ok(number == 9 && frame.bytes() == back.as_slice())
}

/// The number that a frame gives back as unimplemented.
fn number_back(alloc: Global, text: &str) -> Result<Option<u16>, Fail> {
    let bytes = bytes_of(alloc, text)?;
    let message = message_in(alloc, &bytes)?;
    Ok(number_in(&message))
}

fn number_in(message: &Message) -> Option<u16> {
    match message {
        Message::Unimplemented(PlainMessage::Other(number)) => Some(*number),
        _ => None,
    }
}

#[test]
fn what_is_strange_goes_back_whole(rt: HostRuntime) -> Result<(), Fail> {
    assert!(rt; strange_goes_back(rt.alloc())?);
    assert!(rt; number_back(rt.alloc(), STRANGE_BACK)? == Some(9));
    Ok(())
}

/// Why a message of number 9 with that body has no echo.
fn fault_of_echo(alloc: Global, body: Tree) -> Result<Option<EncodeFault>, Fail> {
    let words = Vec::from_slice(alloc, &[9])?;
    let original = pointing_at(alloc, words, body)?;
    Ok(fault_of(echo(alloc, original))?)
}

fn fault_of_levels(alloc: Global, levels: usize) -> Result<Option<EncodeFault>, Fail> {
    let body = nested(alloc, levels)?;
    fault_of_echo(alloc, body)
}

fn fault_of_words(alloc: Global, words: usize) -> Result<Option<EncodeFault>, Fail> {
    let body = sevens(alloc, words)?;
    fault_of_echo(alloc, body)
}

const STRANGE_LEVELS: [(usize, Option<EncodeFault>); 4] = [
    (62, None),
    (63, DEEP),
    (100, DEEP),
    (126, DEEP),
];

/// With its own root pointer the message is as large as a frame may be: two words less are enough for the echo.
const STRANGE_WORDS: [(usize, Option<EncodeFault>); 2] = [(65_531, None), (65_532, LARGE)];

#[test]
fn an_echo_may_be_too_deep_or_too_large(rt: HostRuntime) -> Result<(), Fail> {
    for (levels, wanted) in STRANGE_LEVELS {
        let fault = fault_of_levels(rt.alloc(), levels)?;
        assert!(rt; fault == wanted, "{levels} levels");
    }
    for (words, wanted) in STRANGE_WORDS {
        let fault = fault_of_words(rt.alloc(), words)?;
        assert!(rt; fault == wanted, "{words} words");
    }
    Ok(())
}

/// Why a frame is no message, except for lack of memory.
fn decode_fault(alloc: Global, frame: &[u8]) -> Result<Option<EnvelopeFault>, Memory> {
    match decode(alloc, frame, STAMP) {
        Ok(_) => Ok(None),
        Err(DecodeError::Fault(fault)) => Ok(Some(fault)),
        Err(DecodeError::Memory) => Err(Memory),
    }
}

/// A frame, and the number of its fault: one that is too short, a null root, and a list for a root.
const FAULTY: [(&[u8], EnvelopeFault, u16); 3] = [
    (&[0, 0, 0], EnvelopeFault::Encoding(PayloadFault::Short), 2),
    (
        &[0, 0, 0, 0, 1, 0, 0, 0, 0, 0, 0, 0, 0, 0, 0, 0],
        EnvelopeFault::NestedUnimplemented,
        63,
    ),
    (
        &[0, 0, 0, 0, 1, 0, 0, 0, 1, 0, 0, 0, 0, 0, 0, 0],
        EnvelopeFault::WrongKind,
        60,
    ),
];

#[test]
fn faults_have_their_numbers(rt: HostRuntime) -> Result<(), Fail> {
    for (frame, wanted, number) in FAULTY {
        let fault = decode_fault(rt.alloc(), frame)?;
        assert!(rt; fault == Some(wanted), "fault {number}");
        assert!(rt; wanted.code() == number);
    }
    assert!(rt; EnvelopeFault::UnknownReturn.code() == 65);
    Ok(())
}

fn says_of_bytes(alloc: Global, error: DecodeError, wanted: &str) -> Result<bool, Fail> {
    let mut said = String::new(alloc);
    write!(said, "{error}")?;
    Ok(said.as_str() == wanted)
}

fn says_of_a_message(alloc: Global, error: EncodeError, wanted: &str) -> Result<bool, Fail> {
    let mut said = String::new(alloc);
    write!(said, "{error}")?;
    Ok(said.as_str() == wanted)
}

const OF_BYTES: [(DecodeError, &str); 2] = [
    (
        DecodeError::Fault(EnvelopeFault::BadText),
        "a text without its final zero",
    ),
    (DecodeError::Memory, "out of memory"),
];

const OF_A_MESSAGE: [(EncodeError, &str); 2] = [
    (
        EncodeError::Fault(EncodeFault::NumberAlone),
        "a number alone is no message",
    ),
    (EncodeError::Memory, "out of memory"),
];

#[test]
fn errors_say_what_is_wrong(rt: HostRuntime) -> Result<(), Fail> {
    for (error, wanted) in OF_BYTES {
        assert!(rt; says_of_bytes(rt.alloc(), error, wanted)?);
    }
    for (error, wanted) in OF_A_MESSAGE {
        assert!(rt; says_of_a_message(rt.alloc(), error, wanted)?);
    }
    Ok(())
}
