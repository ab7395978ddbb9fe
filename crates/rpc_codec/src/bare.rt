//! The frames that come most often: Calls of imports and Returns whose contents are null and go with no capabilities,
//! and Finishes. Each word stands in a fixed place, so they are read and written without a tree.
ghost use Rattle.std.specs.Prelude.{◌≡◌, ◌∷◌, [], ◌<◌, ◌^◌, true, length, take, IfOk, IfSome, Ok};
ghost use Rattle.capn_trees.specs.Widths.{AreOf};
ghost use Rattle.capn_reading.specs.Segments.{segment_of};
ghost use Rattle.capn_writing.specs.Placing.{segment_for};
ghost use Rattle.rpc_msg.specs.declared.message.PlainMessage.TheVariants as plain;
ghost use Rattle.rpc_msg.specs.declared.message.Message.{Message as SpecMessage};
ghost use Rattle.rpc_msg.specs.declared.message.Message.TheVariants as messages;
ghost use Rattle.rpc_codec.specs.Bares.{bare_call, bare_return, bare_finish, called, returned, IsOnly, IsFrame, IsFrameOf, SaysMessage};
ghost use Rattle.rpc_msg.specs.Payloads.{null_payload};
ghost use Rattle.rpc_codec.specs.Decoding.{envelope_at};
ghost use Rattle.rpc_codec.specs.Envelopes.{profile};

use crate::encoding::ANY_CAPS;
use crate::questions::bit_of_flag;
use capn_reading::Message as Segments;
use capn_trees::Element;
use rpc_msg::{
    Call, ExportId, Finish, Items, Memory, Message, Payload, PlainMessage, QuestionId, Return,
    ReturnBody, Stamp, Target,
};
use std::alloc::Global;

/// A Call of an import with null params, which go with no capabilities.
#[derive(Clone, Copy, Drop)]
pub(crate) struct BareCall {
    pub question: QuestionId,
    pub target: ExportId,
    pub interface: u64,
    pub method: u16,
}

/// A Return with null results, which go with no capabilities.
#[derive(Clone, Copy, Drop)]
pub(crate) struct BareReturn {
    pub answer: QuestionId,
    pub release_param_caps: bool,
}

/// The bytes of a null content.
const NULL: [u8; 16] = [0, 0, 0, 0, 1, 0, 0, 0, 0, 0, 0, 0, 0, 0, 0, 0];

/// The pointer to a struct with one data word and one pointer, right behind it.
const ONE_AND_ONE: u64 = 0x0001_0001_0000_0000;

/// The pointer to a payload, right behind it.
const PAYLOAD: u64 = 0x0002_0000_0000_0000;

pub(crate) fn call_words(call: BareCall) -> [u64; 13]
    ensures { result ≡ segment_for (bare_call call) }
{
    let method = call.method;
    [
        ONE_AND_ONE,
        2,
        0x0003_0003_0000_0000,
        u64::from(call.question.0) + 0x1_0000_0000 * u64::from(method),
        call.interface,
        0,
        // behind the other two pointers
        ONE_AND_ONE + 4 * 2,
        // behind the last pointer and the target
        PAYLOAD + 4 * 3,
        0,
        u64::from(call.target.0),
        0,
        0,
        0,
    ]
}

pub(crate) fn return_words(said: BareReturn) -> [u64; 8]
    ensures { result ≡ segment_for (bare_return said) }
{
    [
        ONE_AND_ONE,
        3,
        0x0001_0002_0000_0000,
        u64::from(said.answer.0) + bit_of_flag(said.release_param_caps),
        0,
        PAYLOAD,
        0,
        0,
    ]
}

pub(crate) fn finish_words(finish: Finish) -> [u64; 4]
    ensures { result ≡ segment_for (bare_finish finish) }
{
    [
        ONE_AND_ONE,
        4,
        0x0000_0001_0000_0000,
        u64::from(finish.question.0) + bit_of_flag(finish.release_result_caps),
    ]
}

fn call_frame(alloc: Global, call: BareCall) -> Result<Payload, Memory>
    ensures { IfOk result (IsFrameOf (bare_call call)) }
{
    let words = call_words(call);
    u64::fit(&words);
    let frame = Payload::of_segment(alloc, &words, ANY_CAPS)?;
    Ok(frame)
}

fn return_frame(alloc: Global, said: BareReturn) -> Result<Payload, Memory>
    ensures { IfOk result (IsFrameOf (bare_return said)) }
{
    let words = return_words(said);
    u64::fit(&words);
    let frame = Payload::of_segment(alloc, &words, ANY_CAPS)?;
    Ok(frame)
}

fn finish_frame(alloc: Global, finish: Finish) -> Result<Payload, Memory>
    ensures { IfOk result (IsFrameOf (bare_finish finish)) }
{
    let words = finish_words(finish);
    u64::fit(&words);
    let frame = Payload::of_segment(alloc, &words, ANY_CAPS)?;
    Ok(frame)
}

fn is_null(payload: &Payload) -> bool
    ensures { result ≡ true → payload.now ≡ null_payload }
{
    payload.caps() == 0 && payload.bytes() == &NULL[..]
}

fn bare_of_call(call: &Call) -> Option<BareCall>
    ensures { IfSome result (λ b. call.now ≡ called call.now.stamp b) }
{
    let Target::ImportedCap(target) = &call.target else {
        return None;
    };
    if !call.descriptors.is_empty() || !is_null(&call.payload) {
        return None;
    }
    Some(BareCall {
        question: call.question,
        target: *target,
        interface: call.interface,
        method: call.method,
    })
}

fn bare_of_return(said: &Return) -> Option<BareReturn>
    ensures { IfSome result (λ b. said.now ≡ returned b) }
{
    let ReturnBody::Results(payload, descriptors) = &said.body else {
        return None;
    };
    if !descriptors.is_empty() || !is_null(payload) {
        return None;
    }
    Some(BareReturn {
        answer: said.answer,
        release_param_caps: said.release_param_caps,
    })
}

fn frame_of_call(alloc: Global, call: &Call) -> Result<Option<Payload>, Memory>
    ensures { IfOk result (λ o. IfSome o (λ p. SaysMessage (messages.Plain (plain.Call call.now)) p)) }
{
    let Some(bare) = bare_of_call(call) else {
        return Ok(None);
    };
    let frame = call_frame(alloc, bare)?;
    Ok(Some(frame))
}

fn frame_of_return(alloc: Global, said: &Return) -> Result<Option<Payload>, Memory>
    ensures { IfOk result (λ o. IfSome o (λ p. SaysMessage (messages.Plain (plain.Return said.now)) p)) }
{
    let Some(bare) = bare_of_return(said) else {
        return Ok(None);
    };
    let frame = return_frame(alloc, bare)?;
    Ok(Some(frame))
}

fn frame_of_finish(alloc: Global, finish: Finish) -> Result<Option<Payload>, Memory>
    ensures { IfOk result (λ o. IfSome o (λ p. SaysMessage (messages.Plain (plain.Finish finish)) p)) }
{
    let frame = finish_frame(alloc, finish)?;
    Ok(Some(frame))
}

/// The frame of such a message; none of any other.
pub(crate) fn bare_frame(alloc: Global, message: &PlainMessage) -> Result<Option<Payload>, Memory>
    ensures { IfOk result (λ o. IfSome o (λ p. SaysMessage (messages.Plain message.now) p)) }
{
    match message {
        PlainMessage::Call(call) => frame_of_call(alloc, call),
        PlainMessage::Return(said) => frame_of_return(alloc, said),
        PlainMessage::Finish(finish) => frame_of_finish(alloc, *finish),
        _ => Ok(None),
    }
}

/// Are these the words of the first segment, of which there are so many?
fn are_words(message: &Segments, words: &[u64], size: u32) -> bool
    requires here { length words.now ≡ size }
    requires there { length (segment_of message.now 0) ≡ size }
    ensures { result ≡ true → segment_of message.now 0 ≡ words.now }
{
    for k in 0..size {
        if message.word(0, k) != words[k as usize] {
            return false;
        }
    }
    true
}

/// Has the message these words, in one segment?
fn is_segment(message: &Segments, words: &[u64]) -> bool
    ensures { result ≡ true → IsOnly message.now words.now }
{
    u64::fit(words);
    let Some(size) = message.size(0) else {
        return false;
    };
    if message.has(1) || size as usize != words.len() {
        return false;
    }
    are_words(message, words, size)
}

fn finish_of(message: &Segments) -> Option<Finish>
    ensures frame { IfSome result (λ f. IsFrame message.now (bare_finish f)) }
    ensures small { IfSome result (λ f. f.question.0 < 2 ^ 32) }
{
    if message.size(0) != Some(4) {
        return None;
    }
    let word = message.word(0, 3);
    let finish = Finish {
        question: QuestionId((word % 0x1_0000_0000) as u32),
        release_result_caps: word / 0x1_0000_0000 == 0,
    };
    if !is_segment(message, &finish_words(finish)) {
        return None;
    }
    Some(finish)
}

fn return_of(message: &Segments) -> Option<BareReturn>
    ensures frame { IfSome result (λ r. IsFrame message.now (bare_return r)) }
    ensures small { IfSome result (λ r. r.answer.0 < 2 ^ 32) }
{
    if message.size(0) != Some(8) {
        return None;
    }
    let word = message.word(0, 3);
    let said = BareReturn {
        answer: QuestionId((word % 0x1_0000_0000) as u32),
        release_param_caps: word / 0x1_0000_0000 == 0,
    };
    if !is_segment(message, &return_words(said)) {
        return None;
    }
    Some(said)
}

fn call_of(message: &Segments) -> Option<BareCall>
    ensures frame { IfSome result (λ c. IsFrame message.now (bare_call c)) }
    ensures small { IfSome result (λ c. (c.question.0 < 2 ^ 32) × (c.target.0 < 2 ^ 32) × (c.interface < 2 ^ 64) × (c.method < 2 ^ 16)) }
{
    if message.size(0) != Some(13) {
        return None;
    }
    let word = message.word(0, 3);
    let call = BareCall {
        question: QuestionId((word % 0x1_0000_0000) as u32),
        target: ExportId((message.word(0, 9) % 0x1_0000_0000) as u32),
        interface: message.word(0, 4),
        method: (word / 0x1_0000_0000 % 0x1_0000) as u16,
    };
    if !is_segment(message, &call_words(call)) {
        return None;
    }
    Some(call)
}

fn call_again(alloc: Global, call: BareCall, stamp: Stamp) -> Result<Call, Memory>
    ensures { IfOk result (λ c. c ≡ called stamp call) }
{
    Ok(Call {
        question: call.question,
        target: Target::ImportedCap(call.target),
        interface: call.interface,
        method: call.method,
        payload: Payload::null(alloc)?,
        descriptors: Items::new(alloc),
        stamp,
    })
}

fn return_again(alloc: Global, said: BareReturn) -> Result<Return, Memory>
    ensures { IfOk result (λ r. r ≡ returned said) }
{
    Ok(Return {
        answer: said.answer,
        release_param_caps: said.release_param_caps,
        body: ReturnBody::Results(Payload::null(alloc)?, Items::new(alloc)),
    })
}

/// The message of such a frame; none of any other, whatever it says.
pub(crate) fn bare_message(
    alloc: Global,
    bytes: &[u8],
    stamp: Stamp,
) -> Result<Option<PlainMessage>, Memory>
    ensures { IfOk result (λ o. IfSome o (λ m. envelope_at stamp bytes.now ≡ Ok (profile (messages.Plain m)))) }
{
    let Ok(message) = Segments::parse(bytes) else {
        return Ok(None);
    };
    if let Some(finish) = finish_of(&message) {
        return Ok(Some(PlainMessage::Finish(finish)));
    }
    if let Some(call) = call_of(&message) {
        let call = call_again(alloc, call, stamp)?;
        return Ok(Some(PlainMessage::Call(call)));
    }
    if let Some(said) = return_of(&message) {
        let said = return_again(alloc, said)?;
        return Ok(Some(PlainMessage::Return(said)));
    }
    Ok(None)
}
