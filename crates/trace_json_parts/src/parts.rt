ghost use Rattle.std.specs.Prelude.{◌≡◌, ◌^◌, codes, IfOk, IfErr, option_map};
ghost use Rattle.serde_json.specs.Data.{string, member};
ghost use Rattle.serde_json.specs.View.{view, members_view};
ghost use Rattle.rpc_msg.specs.Payloads.{null_payload};
ghost use Rattle.trace_write.specs.Parts.{only, reference_data, vat_data, op_data, path_data, answer_data, target_data, descriptor_data, stamp_data, payload_data, kind_name, exception_data, outcome_by, origin_data, advanced_name, pair_data, counts_data};
ghost use Rattle.trace_write.specs.Fits.{FitsAny, FitsU32, FitsOp, FitsPath, FitsAnswer, FitsTarget, FitsDescriptor, FitsPayload, FitsOutcome, FitsOrigin, FitsPair, FitsCounts};
ghost use Rattle.trace_json_parts.specs.Reading.{Gives, field_at};
ghost use Rattle.trace_json_parts.specs.declared.fault.Fault.TheVariants as fault;
ghost use Rattle.trace_json_parts.specs.ReadParts.{stands_for, FitsRaw, vat_at, reference_at, op_at, path_at, answer_at, target_at, tagged_descriptor, descriptor_at, stamp_at, raw_at, kind_at, exception_at, outcome_at, field_origin_at, origin_at, advanced_at, pair_at, counts_at};

use crate::fault::Fault;
use crate::fields::{Fields, Part, both, only_member, read_items, text_of};
use rpc_journal::{Advanced, Counts, Origin, Outcome};
use rpc_msg::{
    CallId, Descriptor, Exception, ExceptionKind, ExportId, ObjectId, Op, Path, Payload, PromiseId,
    QuestionId, RefId, Stamp, Target, Vat,
};
use serde_json::Value;
use std::alloc::Global;

/// What stands for a payload on a line: it is decoded once the whole line has its shape.
#[derive(Clone, Copy)]
pub struct RawPayload<'v> {
    pub text: &'v str,
    pub caps: u32,
}

/// What is in a payload's place until it is decoded.
pub fn no_payload(alloc: Global) -> Result<Payload, Fault>
    ensures is { IfOk result (λ p. p ≡ null_payload) }
    ensures fits { IfOk result (λ p. FitsPayload p) }
    ensures fault { IfErr result (λ f. f ≡ fault.Memory) }
{
    match Payload::null(alloc) {
        Ok(payload) => Ok(payload),
        Err(_) => Err(Fault::Memory),
    }
}

/// The text and the number of capabilities that stand for a payload.
#[tactic(auto, unfolding(crate::specs::ReadParts::raw_at))]
fn raw_payload_of(alloc: Global, value: &Value) -> Result<RawPayload<'_>, Fault>
    ensures gives { Gives (λ r. (r.text.now, r.caps)) result (raw_at (view value.now)) }
    ensures ok { IfOk result (λ r. (view value.now ≡ payload_data (r.text.now, r.caps)) × FitsU32 r.caps) }
{
    let mut fields = Fields::of(value)?;
    let text = fields.text("bytes")?;
    let caps = fields.last(alloc, "caps")?;
    Ok(RawPayload { text, caps })
}

/// The text and the number of capabilities that stand for the payload of the next member.
#[tactic(auto, unfolding(crate::specs::Reading::field_at))]
pub fn next_payload<'v>(alloc: Global, fields: &mut Fields<'v>) -> Result<RawPayload<'v>, Fault>
    ensures gives { Gives (λ r. ((r.text.now, r.caps), members_view fields.new.rest)) result (field_at raw_at (codes "payload") (members_view fields.old.rest)) }
    ensures ok { IfOk result (λ r. (members_view fields.old.rest ≡ member (codes "payload") (payload_data (r.text.now, r.caps)) (members_view fields.new.rest)) × FitsU32 r.caps) }
{
    let value = fields.next("payload")?;
    raw_payload_of(alloc, value)
}

impl Part for Vat {
    ghost at = { vat_at };

    ghost shown = { vat_data };

    ghost fits = { FitsAny };

    #[tactic(auto, unfolding(crate::specs::ReadParts::vat_at))]
    fn read(_alloc: Global, value: &Value) -> Result<Vat, Fault> {
        let name = text_of(value)?;
        match name {
            "a" => Ok(Vat::A),
            "b" => Ok(Vat::B),
            _ => Err(Fault::WrongShape),
        }
    }
}

impl Part for RefId {
    ghost at = { reference_at };

    ghost shown = { reference_data };

    ghost fits = { FitsAny };

    #[tactic(auto, unfolding(crate::specs::ReadParts::reference_at))]
    fn read(alloc: Global, value: &Value) -> Result<RefId, Fault> {
        Ok(RefId(u64::read(alloc, value)?))
    }
}

impl Part for Op {
    ghost at = { op_at };

    ghost shown = { op_data };

    ghost fits = { FitsOp };

    fn read(alloc: Global, value: &Value) -> Result<Op, Fault> {
        match value {
            Value::Null => Ok(Op::Noop),
            _ => Ok(Op::Field(u16::read(alloc, value)?)),
        }
    }
}

impl Part for Path {
    ghost at = { path_at };

    ghost shown = { path_data };

    ghost fits = { FitsPath };

    #[tactic(auto, unfolding(crate::specs::ReadParts::path_at))]
    fn read(alloc: Global, value: &Value) -> Result<Path, Fault> {
        let ops: Vec<Op> = read_items(alloc, value)?;
        match Path::from_ops(ops.as_slice()) {
            Some(path) => Ok(path),
            None => Err(Fault::WrongShape),
        }
    }
}

#[tactic(auto, unfolding(crate::specs::ReadParts::answer_at))]
fn answer_of(alloc: Global, value: &Value) -> Result<(QuestionId, Path), Fault>
    ensures gives { Gives (λ a. a) result (answer_at (view value.now)) }
    ensures ok { IfOk result (λ a. (view value.now ≡ answer_data a.0 a.1) × FitsAnswer a) }
{
    let (path, question) = both(alloc, value, "path", "question")?;
    Ok((QuestionId(question), path))
}

impl Part for Target {
    ghost at = { target_at };

    ghost shown = { target_data };

    ghost fits = { FitsTarget };

    #[tactic(auto, unfolding(crate::specs::ReadParts::target_at))]
    fn read(alloc: Global, value: &Value) -> Result<Target, Fault> {
        let (key, inner) = only_member(value)?;
        match key {
            "import" => Ok(Target::ImportedCap(ExportId(u32::read(alloc, inner)?))),
            "answer" => {
                let (question, path) = answer_of(alloc, inner)?;
                Ok(Target::PromisedAnswer(question, path))
            }
            _ => Err(Fault::WrongShape),
        }
    }
}

#[tactic(auto, unfolding(crate::specs::ReadParts::tagged_descriptor))]
fn tagged_descriptor_of(alloc: Global, value: &Value) -> Result<Descriptor, Fault>
    ensures gives { Gives (λ d. d) result (tagged_descriptor (view value.now)) }
    ensures ok { IfOk result (λ d. (view value.now ≡ descriptor_data d) × FitsDescriptor d) }
{
    let (key, inner) = only_member(value)?;
    match key {
        "senderHosted" => Ok(Descriptor::SenderHosted(ExportId(u32::read(alloc, inner)?))),
        "senderPromise" => Ok(Descriptor::SenderPromise(ExportId(u32::read(alloc, inner)?))),
        "receiverHosted" => Ok(Descriptor::ReceiverHosted(ExportId(u32::read(alloc, inner)?))),
        "receiverAnswer" => {
            let (question, path) = answer_of(alloc, inner)?;
            Ok(Descriptor::ReceiverAnswer(question, path))
        }
        _ => Err(Fault::WrongShape),
    }
}

impl Part for Descriptor {
    ghost at = { descriptor_at };

    ghost shown = { descriptor_data };

    ghost fits = { FitsDescriptor };

    fn read(alloc: Global, value: &Value) -> Result<Descriptor, Fault> {
        match value {
            Value::String(name) => match name.as_str() {
                "none" => Ok(Descriptor::None),
                _ => Err(Fault::WrongShape),
            },
            Value::Object(_) => tagged_descriptor_of(alloc, value),
            _ => Err(Fault::WrongShape),
        }
    }
}

impl Part for Stamp {
    ghost at = { stamp_at };

    ghost shown = { stamp_data };

    ghost fits = { FitsAny };

    #[tactic(auto, unfolding(crate::specs::ReadParts::stamp_at))]
    fn read(alloc: Global, value: &Value) -> Result<Stamp, Fault> {
        let mut fields = Fields::of(value)?;
        let index = fields.read(alloc, "index")?;
        let (reference, vat) = fields.last_two(alloc, "ref", "vat")?;
        Ok(Stamp {
            vat,
            reference,
            index,
        })
    }
}

impl Part for ExceptionKind {
    ghost at = { kind_at };

    ghost shown = { λ k. string (kind_name k) };

    ghost fits = { FitsAny };

    #[tactic(auto, unfolding(crate::specs::ReadParts::kind_at))]
    fn read(_alloc: Global, value: &Value) -> Result<ExceptionKind, Fault> {
        let name = text_of(value)?;
        match name {
            "failed" => Ok(ExceptionKind::Failed),
            "overloaded" => Ok(ExceptionKind::Overloaded),
            "disconnected" => Ok(ExceptionKind::Disconnected),
            "unimplemented" => Ok(ExceptionKind::Unimplemented),
            _ => Err(Fault::WrongShape),
        }
    }
}

impl Part for Exception {
    ghost at = { exception_at };

    ghost shown = { exception_data };

    ghost fits = { FitsAny };

    #[tactic(auto, unfolding(crate::specs::ReadParts::exception_at))]
    fn read(alloc: Global, value: &Value) -> Result<Exception, Fault> {
        let (kind, reason) = both(alloc, value, "kind", "reason")?;
        Ok(Exception { kind, reason })
    }
}

/// An outcome; of results the payload is null, and what stands for theirs is beside it.
#[tactic(auto, unfolding(crate::specs::ReadParts::outcome_at))]
pub fn outcome_of(alloc: Global, value: &Value) -> Result<(Outcome, Option<RawPayload<'_>>), Fault>
    ensures gives { Gives (λ o. (o.0, option_map (λ r. (r.text.now, r.caps)) o.1)) result (outcome_at (view value.now)) }
    ensures ok { IfOk result (λ o. (view value.now ≡ outcome_by (stands_for (option_map (λ r. (r.text.now, r.caps)) o.1)) o.0)
        × FitsOutcome o.0 × FitsRaw (option_map (λ r. (r.text.now, r.caps)) o.1)) }
{
    let (key, inner) = only_member(value)?;
    match key {
        "results" => {
            let raw = raw_payload_of(alloc, inner)?;
            Ok((Outcome::Results(no_payload(alloc)?), Some(raw)))
        }
        "exception" => Ok((Outcome::Exception(Part::read(alloc, inner)?), None)),
        _ => Err(Fault::WrongShape),
    }
}

#[tactic(auto, unfolding(crate::specs::ReadParts::field_origin_at))]
fn field_origin_of(alloc: Global, value: &Value) -> Result<Origin, Fault>
    ensures gives { Gives (λ o. o) result (field_origin_at (view value.now)) }
    ensures ok { IfOk result (λ o. (only (codes "field") (view value.now) ≡ origin_data o) × FitsOrigin o) }
{
    let (call, path) = both(alloc, value, "call", "path")?;
    Ok(Origin::Field(CallId(call), path))
}

impl Part for Origin {
    ghost at = { origin_at };

    ghost shown = { origin_data };

    ghost fits = { FitsOrigin };

    #[tactic(auto, unfolding(crate::specs::ReadParts::origin_at))]
    fn read(alloc: Global, value: &Value) -> Result<Origin, Fault> {
        let (key, inner) = only_member(value)?;
        match key {
            "object" => Ok(Origin::Object(ObjectId(u64::read(alloc, inner)?))),
            "promise" => Ok(Origin::Promise(PromiseId(u64::read(alloc, inner)?))),
            "clone" => Ok(Origin::Clone(RefId(u64::read(alloc, inner)?))),
            "field" => field_origin_of(alloc, inner),
            _ => Err(Fault::WrongShape),
        }
    }
}

impl Part for Advanced {
    ghost at = { advanced_at };

    ghost shown = { λ a. string (advanced_name a) };

    ghost fits = { FitsAny };

    #[tactic(auto, unfolding(crate::specs::ReadParts::advanced_at))]
    fn read(_alloc: Global, value: &Value) -> Result<Advanced, Fault> {
        let name = text_of(value)?;
        match name {
            "nothing" => Ok(Advanced::Nothing),
            "switched" => Ok(Advanced::Switched),
            "embargoed" => Ok(Advanced::Embargoed),
            "broke" => Ok(Advanced::Broke),
            _ => Err(Fault::WrongShape),
        }
    }
}

impl Part for (ExportId, u32) {
    ghost at = { pair_at };

    ghost shown = { pair_data };

    ghost fits = { FitsPair };

    #[tactic(auto, unfolding(crate::specs::ReadParts::pair_at))]
    fn read(alloc: Global, value: &Value) -> Result<(ExportId, u32), Fault> {
        let numbers: Vec<u32> = read_items(alloc, value)?;
        let numbers = numbers.as_slice();
        if numbers.len() == 2 {
            Ok((ExportId(numbers[0]), numbers[1]))
        } else {
            Err(Fault::WrongShape)
        }
    }
}

impl Part for Counts {
    ghost at = { counts_at };

    ghost shown = { counts_data };

    ghost fits = { FitsCounts };

    #[tactic(auto, unfolding(crate::specs::ReadParts::counts_at))]
    fn read(alloc: Global, value: &Value) -> Result<Counts, Fault> {
        let (exports, imports) = both(alloc, value, "exports", "imports")?;
        Ok(Counts { exports, imports })
    }
}
