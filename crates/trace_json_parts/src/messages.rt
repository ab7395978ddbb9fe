ghost use Rattle.std.specs.Prelude.{◌≡◌, codes, IfOk, option_map};
ghost use Rattle.serde_json.specs.Data.{member, no_members};
ghost use Rattle.serde_json.specs.View.{view, members_view};
ghost use Rattle.trace_write.specs.Parts.{nat, only, stamp_data, target_data, in_base64};
ghost use Rattle.trace_write.specs.Messages.{param_caps_key, result_caps_key, call_by, body_by, return_by, finish_data, resolved_data, resolve_data, release_data, context_data, disembargo_data, plain_by, message_by};
ghost use Rattle.trace_write.specs.Fits.{FitsU32, FitsTarget, FitsCall, FitsBody, FitsReturn, FitsFinish, FitsResolved, FitsResolve, FitsRelease, FitsContext, FitsDisembargo, FitsPlain, FitsMessage};
ghost use Rattle.trace_json_parts.specs.Reading.{Gives, field_at};
ghost use Rattle.trace_json_parts.specs.ReadParts.{stands_for, FitsRaw};
ghost use Rattle.trace_json_parts.specs.ReadMessages.{call_rest, call_at, results_at, tagged_body, body_at, return_at, finish_at, resolved_at, resolve_at, release_at, context_at, disembargo_at, bootstrap_at, bare_under, plain_under, plain_at, message_at};

use crate::fault::Fault;
use crate::fields::{Fields, Part, both, only_member};
use crate::parts::{RawPayload, next_payload, no_payload};
use rpc_msg::{
    Call, Disembargo, DisembargoContext, EmbargoId, ExportId, Finish, Message, PlainMessage,
    QuestionId, Release, Resolve, ResolvedTo, Return, ReturnBody, Stamp, Target,
};
use serde_json::Value;
use std::alloc::Global;
use trace_write::TraceVersion;

fn key_of_param_caps(version: TraceVersion) -> &'static str
    ensures { result.now ≡ param_caps_key version }
{
    match version {
        TraceVersion::One => "release",
        TraceVersion::Two => "releaseParamCaps",
    }
}

fn key_of_result_caps(version: TraceVersion) -> &'static str
    ensures { result.now ≡ result_caps_key version }
{
    match version {
        TraceVersion::One => "release",
        TraceVersion::Two => "releaseResultCaps",
    }
}

/// The members of a Call behind its payload.
#[tactic(auto, unfolding(crate::specs::ReadMessages::call_rest))]
fn rest_of_call(alloc: Global, mut fields: Fields<'_>) -> Result<(QuestionId, Stamp, Target), Fault>
    ensures gives { Gives (λ r. r) result (call_rest (members_view fields.entry.rest)) }
    ensures ok { IfOk result (λ r. (members_view fields.entry.rest ≡ member (codes "question") (nat r.0.0) (
        member (codes "stamp") (stamp_data r.1) (
        member (codes "target") (target_data r.2) no_members))) × FitsU32 r.0.0 × FitsTarget r.2) }
{
    let question = fields.read(alloc, "question")?;
    let (stamp, target) = fields.last_two(alloc, "stamp", "target")?;
    Ok((QuestionId(question), stamp, target))
}

#[tactic(auto, unfolding(crate::specs::ReadMessages::call_at))]
fn call_of(alloc: Global, value: &Value) -> Result<(Call, Option<RawPayload<'_>>), Fault>
    ensures gives { Gives (λ c. (c.0, option_map (λ r. (r.text.now, r.caps)) c.1)) result (call_at (view value.now)) }
    ensures ok { IfOk result (λ c. (view value.now ≡ call_by (stands_for (option_map (λ r. (r.text.now, r.caps)) c.1)) c.0)
        × FitsCall c.0 × FitsRaw (option_map (λ r. (r.text.now, r.caps)) c.1)) }
{
    let mut fields = Fields::of(value)?;
    let (descriptors, interface) = fields.two(alloc, "caps", "interface")?;
    let method = fields.read(alloc, "method")?;
    let raw = next_payload(alloc, &mut fields)?;
    let (question, stamp, target) = rest_of_call(alloc, fields)?;
    let call = Call {
        question,
        target,
        interface,
        method,
        payload: no_payload(alloc)?,
        descriptors,
        stamp,
    };
    Ok((call, Some(raw)))
}

#[tactic(auto, unfolding(crate::specs::ReadMessages::results_at))]
fn results_of(alloc: Global, value: &Value) -> Result<(ReturnBody, Option<RawPayload<'_>>), Fault>
    ensures gives { Gives (λ b. (b.0, option_map (λ r. (r.text.now, r.caps)) b.1)) result (results_at (view value.now)) }
    ensures ok { IfOk result (λ b. (only (codes "results") (view value.now) ≡ body_by (stands_for (option_map (λ r. (r.text.now, r.caps)) b.1)) b.0)
        × FitsBody b.0 × FitsRaw (option_map (λ r. (r.text.now, r.caps)) b.1)) }
{
    let mut fields = Fields::of(value)?;
    let descriptors = fields.read(alloc, "caps")?;
    let raw = next_payload(alloc, &mut fields)?;
    fields.end()?;
    let payload = no_payload(alloc)?;
    Ok((ReturnBody::Results(payload, descriptors), Some(raw)))
}

#[tactic(auto, unfolding(crate::specs::ReadMessages::tagged_body))]
fn tagged_body_of(
    alloc: Global,
    value: &Value,
) -> Result<(ReturnBody, Option<RawPayload<'_>>), Fault>
    ensures gives { Gives (λ b. (b.0, option_map (λ r. (r.text.now, r.caps)) b.1)) result (tagged_body (view value.now)) }
    ensures ok { IfOk result (λ b. (view value.now ≡ body_by (stands_for (option_map (λ r. (r.text.now, r.caps)) b.1)) b.0)
        × FitsBody b.0 × FitsRaw (option_map (λ r. (r.text.now, r.caps)) b.1)) }
{
    let (key, inner) = only_member(value)?;
    match key {
        "results" => results_of(alloc, inner),
        "exception" => Ok((ReturnBody::Exception(Part::read(alloc, inner)?), None)),
        _ => Err(Fault::WrongShape),
    }
}

fn body_of(alloc: Global, value: &Value) -> Result<(ReturnBody, Option<RawPayload<'_>>), Fault>
    ensures gives { Gives (λ b. (b.0, option_map (λ r. (r.text.now, r.caps)) b.1)) result (body_at (view value.now)) }
    ensures ok { IfOk result (λ b. (view value.now ≡ body_by (stands_for (option_map (λ r. (r.text.now, r.caps)) b.1)) b.0)
        × FitsBody b.0 × FitsRaw (option_map (λ r. (r.text.now, r.caps)) b.1)) }
{
    match value {
        Value::String(name) => match name.as_str() {
            "canceled" => Ok((ReturnBody::Canceled, None)),
            _ => Err(Fault::WrongShape),
        },
        Value::Object(_) => tagged_body_of(alloc, value),
        _ => Err(Fault::WrongShape),
    }
}

/// The body that the next member is.
#[tactic(auto, unfolding(crate::specs::Reading::field_at))]
fn next_body<'v>(
    alloc: Global,
    fields: &mut Fields<'v>,
) -> Result<(ReturnBody, Option<RawPayload<'v>>), Fault>
    ensures gives { Gives (λ b. ((b.0, option_map (λ r. (r.text.now, r.caps)) b.1), members_view fields.new.rest)) result (field_at body_at (codes "body") (members_view fields.old.rest)) }
    ensures ok { IfOk result (λ b. (members_view fields.old.rest ≡ member (codes "body") (body_by (stands_for (option_map (λ r. (r.text.now, r.caps)) b.1)) b.0) (members_view fields.new.rest))
        × FitsBody b.0 × FitsRaw (option_map (λ r. (r.text.now, r.caps)) b.1)) }
{
    let value = fields.next("body")?;
    body_of(alloc, value)
}

#[tactic(auto, unfolding(crate::specs::ReadMessages::return_at))]
fn return_of(
    alloc: Global,
    value: &Value,
    version: TraceVersion,
) -> Result<(Return, Option<RawPayload<'_>>), Fault>
    ensures gives { Gives (λ m. (m.0, option_map (λ r. (r.text.now, r.caps)) m.1)) result (return_at version (view value.now)) }
    ensures ok { IfOk result (λ m. (view value.now ≡ return_by version (stands_for (option_map (λ r. (r.text.now, r.caps)) m.1)) m.0)
        × FitsReturn version m.0 × FitsRaw (option_map (λ r. (r.text.now, r.caps)) m.1)) }
{
    let mut fields = Fields::of(value)?;
    let answer = fields.read(alloc, "answer")?;
    let (body, raw) = next_body(alloc, &mut fields)?;
    let release_param_caps = fields.last_flag(key_of_param_caps(version), version)?;
    let said = Return {
        answer: QuestionId(answer),
        release_param_caps,
        body,
    };
    Ok((said, raw))
}

#[tactic(auto, unfolding(crate::specs::ReadMessages::finish_at))]
fn finish_of(alloc: Global, value: &Value, version: TraceVersion) -> Result<Finish, Fault>
    ensures gives { Gives (λ f. f) result (finish_at version (view value.now)) }
    ensures ok { IfOk result (λ f. (view value.now ≡ finish_data version f) × FitsFinish version f) }
{
    let mut fields = Fields::of(value)?;
    let question = fields.read(alloc, "question")?;
    let release_result_caps = fields.last_flag(key_of_result_caps(version), version)?;
    Ok(Finish {
        question: QuestionId(question),
        release_result_caps,
    })
}

impl Part for ResolvedTo {
    ghost at = { resolved_at };

    ghost shown = { resolved_data };

    ghost fits = { FitsResolved };

    #[tactic(auto, unfolding(crate::specs::ReadMessages::resolved_at))]
    fn read(alloc: Global, value: &Value) -> Result<ResolvedTo, Fault> {
        let (key, inner) = only_member(value)?;
        match key {
            "cap" => Ok(ResolvedTo::Cap(Part::read(alloc, inner)?)),
            "exception" => Ok(ResolvedTo::Exception(Part::read(alloc, inner)?)),
            _ => Err(Fault::WrongShape),
        }
    }
}

impl Part for Resolve {
    ghost at = { resolve_at };

    ghost shown = { resolve_data };

    ghost fits = { FitsResolve };

    #[tactic(auto, unfolding(crate::specs::ReadMessages::resolve_at))]
    fn read(alloc: Global, value: &Value) -> Result<Resolve, Fault> {
        let (promise, to) = both(alloc, value, "promise", "to")?;
        Ok(Resolve {
            promise: ExportId(promise),
            to,
        })
    }
}

impl Part for Release {
    ghost at = { release_at };

    ghost shown = { release_data };

    ghost fits = { FitsRelease };

    #[tactic(auto, unfolding(crate::specs::ReadMessages::release_at))]
    fn read(alloc: Global, value: &Value) -> Result<Release, Fault> {
        let (count, id) = both(alloc, value, "count", "id")?;
        Ok(Release {
            export: ExportId(id),
            count,
        })
    }
}

impl Part for DisembargoContext {
    ghost at = { context_at };

    ghost shown = { context_data };

    ghost fits = { FitsContext };

    #[tactic(auto, unfolding(crate::specs::ReadMessages::context_at))]
    fn read(alloc: Global, value: &Value) -> Result<DisembargoContext, Fault> {
        let (key, inner) = only_member(value)?;
        match key {
            "senderLoopback" => {
                Ok(DisembargoContext::SenderLoopback(EmbargoId(u32::read(alloc, inner)?)))
            }
            "receiverLoopback" => {
                Ok(DisembargoContext::ReceiverLoopback(EmbargoId(u32::read(alloc, inner)?)))
            }
            _ => Err(Fault::WrongShape),
        }
    }
}

impl Part for Disembargo {
    ghost at = { disembargo_at };

    ghost shown = { disembargo_data };

    ghost fits = { FitsDisembargo };

    #[tactic(auto, unfolding(crate::specs::ReadMessages::disembargo_at))]
    fn read(alloc: Global, value: &Value) -> Result<Disembargo, Fault> {
        let (context, target) = both(alloc, value, "context", "target")?;
        Ok(Disembargo { target, context })
    }
}

#[tactic(auto, unfolding(crate::specs::ReadMessages::bootstrap_at))]
fn bootstrap_of(alloc: Global, value: &Value) -> Result<QuestionId, Fault>
    ensures gives { Gives (λ q. q) result (bootstrap_at (view value.now)) }
    ensures ok { IfOk result (λ q. (view value.now ≡ only (codes "question") (nat q.0)) × FitsU32 q.0) }
{
    let mut fields = Fields::of(value)?;
    let question = fields.last(alloc, "question")?;
    Ok(QuestionId(question))
}

/// A message without a payload, by its kind.
fn bare_message_of(
    alloc: Global,
    key: &str,
    inner: &Value,
    version: TraceVersion,
) -> Result<PlainMessage, Fault>
    ensures gives { Gives (λ m. m) result (bare_under version key.now (view inner.now)) }
    ensures ok { IfOk result (λ m. (only key.now (view inner.now) ≡ plain_by version in_base64 m) × FitsPlain version m) }
{
    match key {
        "abort" => Ok(PlainMessage::Abort(Part::read(alloc, inner)?)),
        "bootstrap" => Ok(PlainMessage::Bootstrap(bootstrap_of(alloc, inner)?)),
        "finish" => Ok(PlainMessage::Finish(finish_of(alloc, inner, version)?)),
        "resolve" => Ok(PlainMessage::Resolve(Part::read(alloc, inner)?)),
        "release" => Ok(PlainMessage::Release(Part::read(alloc, inner)?)),
        "disembargo" => Ok(PlainMessage::Disembargo(Part::read(alloc, inner)?)),
        "other" => Ok(PlainMessage::Other(u16::read(alloc, inner)?)),
        _ => Err(Fault::WrongShape),
    }
}

/// A message that is no Unimplemented, by its kind.
fn plain_of<'v>(
    alloc: Global,
    key: &str,
    inner: &'v Value,
    version: TraceVersion,
) -> Result<(PlainMessage, Option<RawPayload<'v>>), Fault>
    ensures gives { Gives (λ m. (m.0, option_map (λ r. (r.text.now, r.caps)) m.1)) result (plain_under version key.now (view inner.now)) }
    ensures ok { IfOk result (λ m. (only key.now (view inner.now) ≡ plain_by version (stands_for (option_map (λ r. (r.text.now, r.caps)) m.1)) m.0)
        × FitsPlain version m.0 × FitsRaw (option_map (λ r. (r.text.now, r.caps)) m.1)) }
{
    match key {
        "call" => {
            let (call, raw) = call_of(alloc, inner)?;
            Ok((PlainMessage::Call(call), raw))
        }
        "return" => {
            let (said, raw) = return_of(alloc, inner, version)?;
            Ok((PlainMessage::Return(said), raw))
        }
        _ => Ok((bare_message_of(alloc, key, inner, version)?, None)),
    }
}

/// A message; the payload of a Call or a Return is null, and what stands for theirs is beside it.
#[tactic(auto, unfolding(crate::specs::ReadMessages::message_at, crate::specs::ReadMessages::plain_at))]
pub fn message_of(
    alloc: Global,
    value: &Value,
    version: TraceVersion,
) -> Result<(Message, Option<RawPayload<'_>>), Fault>
    ensures gives { Gives (λ m. (m.0, option_map (λ r. (r.text.now, r.caps)) m.1)) result (message_at version (view value.now)) }
    ensures ok { IfOk result (λ m. (view value.now ≡ message_by version (stands_for (option_map (λ r. (r.text.now, r.caps)) m.1)) m.0)
        × FitsMessage version m.0 × FitsRaw (option_map (λ r. (r.text.now, r.caps)) m.1)) }
{
    let (key, inner) = only_member(value)?;
    match key {
        "unimplemented" => {
            let (key, inner) = only_member(inner)?;
            let (plain, raw) = plain_of(alloc, key, inner, version)?;
            Ok((Message::Unimplemented(plain), raw))
        }
        _ => {
            let (plain, raw) = plain_of(alloc, key, inner, version)?;
            Ok((Message::Plain(plain), raw))
        }
    }
}
