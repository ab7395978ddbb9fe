//! What goes out: messages, what was not understood, and that results are kept.
use crate::tests::{STAMP, unknown_in};
use rpc_codec::{EncodeError, EncodeFault, SentElsewhere};
use rpc_msg::{
    Call, Descriptor, ExportId, Finish, Items, Message, Payload, PlainMessage, QuestionId, Target,
};
use rpc_outgoing::{Outgoing, WriteError};
use std::alloc::Global;
use std::test::Fail;

/// One segment of three words: a struct of one word and one pointer, number 9 in the union, and null.
const STRANGE: [u8; 32] = [
    0, 0, 0, 0, 3, 0, 0, 0, 0, 0, 0, 0, 1, 0, 1, 0, 9, 0, 0, 0, 0, 0, 0, 0, 0, 0, 0, 0, 0, 0, 0, 0,
];

/// Unimplemented, number 0 in the union, with that struct behind its pointer.
const SENT_BACK: [u8; 48] = [
    0, 0, 0, 0, 5, 0, 0, 0, 0, 0, 0, 0, 1, 0, 1, 0, 0, 0, 0, 0, 0, 0, 0, 0, 0, 0, 0, 0, 1, 0, 1, 0,
    9, 0, 0, 0, 0, 0, 0, 0, 0, 0, 0, 0, 0, 0, 0, 0,
];

/// A Finish, number 4: question 6, and the flag's bit is not set.
const FINISH: [u8; 40] = [
    0, 0, 0, 0, 4, 0, 0, 0, 0, 0, 0, 0, 1, 0, 1, 0, 4, 0, 0, 0, 0, 0, 0, 0, 0, 0, 0, 0, 1, 0, 0, 0,
    6, 0, 0, 0, 0, 0, 0, 0,
];

/// A Return, number 3: answer 7, the flag's bit is set, and number 3 in its union.
const KEPT: [u8; 56] = [
    0, 0, 0, 0, 6, 0, 0, 0, 0, 0, 0, 0, 1, 0, 1, 0, 3, 0, 0, 0, 0, 0, 0, 0, 0, 0, 0, 0, 2, 0, 1, 0,
    7, 0, 0, 0, 1, 0, 3, 0, 0, 0, 0, 0, 0, 0, 0, 0, 0, 0, 0, 0, 0, 0, 0, 0,
];

fn write(out: &mut Outgoing, message: Message) -> Result<(), WriteError> {
    out.write(&message)
}

fn goes_back_whole(alloc: Global) -> Result<bool, Fail> {
    let mut out = Outgoing::new(alloc);
    let unknown = unknown_in(alloc, &STRANGE)?;
    out.keep(Some(unknown.original))?;
    write(&mut out, Message::Unimplemented(PlainMessage::Other(9)))?;
    Ok(out.bytes() == SENT_BACK.as_slice())
}

const SAID: Message = Message::Plain(PlainMessage::Finish(Finish {
    question: QuestionId(6),
    release_result_caps: true,
}));

const SENT: SentElsewhere = SentElsewhere {
    answer: QuestionId(7),
    release_param_caps: false,
};

fn goes_out_once(alloc: Global) -> Result<bool, Fail> {
    let mut out = Outgoing::new(alloc);
    out.keep(None)?;
    write(&mut out, SAID)?;
    let finish = out.take();
    out.write_sent_elsewhere(SENT)?;
    Ok(finish.as_slice() == FINISH.as_slice() && out.bytes() == KEPT.as_slice())
}

#[test]
fn what_goes_out_is_handed_out_once(rt: HostRuntime) -> Result<(), Fail> {
    assert!(rt; goes_back_whole(rt.alloc())?);
    assert!(rt; goes_out_once(rt.alloc())?);
    Ok(())
}

fn table(alloc: Global, row: Option<Descriptor>) -> Result<Items<Descriptor>, Fail> {
    match row {
        Some(descriptor) => Ok(Items::one(alloc, descriptor)?),
        None => Ok(Items::new(alloc)),
    }
}

/// A Call whose payload goes with one capability, and whose table has this row.
fn call(alloc: Global, question: u32, row: Option<Descriptor>) -> Result<Message, Fail> {
    Ok(Message::Plain(PlainMessage::Call(Call {
        question: QuestionId(question),
        target: Target::ImportedCap(ExportId(0)),
        interface: 1,
        method: 0,
        payload: Payload::root_capability(alloc)?,
        descriptors: table(alloc, row)?,
        stamp: STAMP,
    })))
}

/// What comes of writing it, and whether nothing went out then.
fn refusal(alloc: Global, message: Message) -> (Option<WriteError>, bool) {
    let mut out = Outgoing::new(alloc);
    let refused = write(&mut out, message).err();
    (refused, out.bytes().is_empty())
}

const HELD: (Option<WriteError>, bool) = (Some(WriteError::Unsound), true);

const WENT: (Option<WriteError>, bool) = (None, false);

const ALONE: (Option<WriteError>, bool) = (
    Some(WriteError::Encode(EncodeError::Fault(EncodeFault::NumberAlone))),
    true,
);

/// Questions with rows of the table, and what comes of a Call with them.
const CALLS: [(u32, Option<Descriptor>, (Option<WriteError>, bool)); 6] = [
    (4_095, Some(Descriptor::SenderHosted(ExportId(4_095))), WENT),
    (4_096, Some(Descriptor::SenderHosted(ExportId(0))), HELD),
    (0, Some(Descriptor::SenderHosted(ExportId(4_096))), HELD),
    (0, Some(Descriptor::SenderPromise(ExportId(4_096))), HELD),
    (0, Some(Descriptor::ReceiverHosted(ExportId(4_096))), WENT),
    (0, None, HELD),
];

#[test]
fn what_no_vat_says_does_not_go_out(rt: HostRuntime) -> Result<(), Fail> {
    for (question, row, wanted) in CALLS {
        let message = call(rt.alloc(), question, row)?;
        assert!(rt;
            refusal(rt.alloc(), message) == wanted,
            "question {question}"
        );
    }
    let asked = Message::Plain(PlainMessage::Bootstrap(QuestionId(4_096)));
    assert!(rt; refusal(rt.alloc(), asked) == HELD);
    let number = Message::Plain(PlainMessage::Other(9));
    assert!(rt; refusal(rt.alloc(), number) == ALONE);
    Ok(())
}
