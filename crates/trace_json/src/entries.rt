ghost use Rattle.std.specs.Prelude.{◌≡◌, codes, IfOk, option_map};
ghost use Rattle.serde_json.specs.Data.{object, string, member, no_members};
ghost use Rattle.serde_json.specs.View.{view, members_view};
ghost use Rattle.trace_write.specs.Parts.{nat, list, reference_data, stamp_data, vat_data, payload_data, outcome_by};
ghost use Rattle.trace_write.specs.Values.{head_of, value_by, value as value_of_entry};
ghost use Rattle.trace_write.specs.Fits.{FitsU32, FitsOutcome, Fits};
ghost use Rattle.trace_json_parts.specs.Reading.{Gives, field_at};
ghost use Rattle.trace_json_parts.specs.ReadParts.{stands_for, FitsRaw, outcome_at};
ghost use Rattle.trace_json.specs.ReadEntries.{members_of_kind, kind_and_vat, before_kind, behind_kind, around_kind, head_at, born_at, asked_at, made_rest, made_at, delivered_rest, delivered_at, answered_at, ended_at, resolved_promise_at, rejected_at, dropped_at, finished_at, entry_advanced_at, refused_at, sent_at, got_at, down_at, tables_at, command_under, bare_entry_under, entry_under, entry_at};

use rpc_journal::{Delivery, Ended, JournalEntry, MadeCall, Outcome};
use rpc_msg::{CallId, Items, ObjectId, PromiseId, RefId, Stamp, TaskId, Vat};
use serde_json::Value;
use std::alloc::Global;
use trace_json_parts::{
    Fault, Fields, Part, RawPayload, message_of, next_payload, no_payload, outcome_of,
};
use trace_write::TraceVersion;

/// The members of an object behind its kind, which is the first of them.
#[tactic(auto, unfolding(crate::specs::ReadEntries::members_of_kind))]
fn fields_of_kind<'v>(value: &'v Value, kind: &str) -> Result<Fields<'v>, Fault>
    ensures gives { Gives (λ f. members_view f.rest) result (members_of_kind kind.now (view value.now)) }
    ensures ok { IfOk result (λ f. view value.now ≡ object (member (codes "k") (string kind.now) (members_view f.rest))) }
{
    let mut fields = Fields::of(value)?;
    fields.word("k", kind)?;
    Ok(fields)
}

/// The vat that the last member is, behind the kind.
#[tactic(auto, unfolding(crate::specs::ReadEntries::kind_and_vat))]
fn vat_behind_kind(alloc: Global, mut fields: Fields<'_>, kind: &str) -> Result<Vat, Fault>
    ensures gives { Gives (λ v. v) result (kind_and_vat kind.now (members_view fields.entry.rest)) }
    ensures ok { IfOk result (λ v. members_view fields.entry.rest ≡ member (codes "k") (string kind.now) (
        member (codes "vat") (vat_data v) no_members)) }
{
    fields.word("k", kind)?;
    fields.last(alloc, "vat")
}

/// The part that the first member is, behind which there are the kind and the vat.
#[tactic(auto, unfolding(crate::specs::ReadEntries::before_kind))]
fn before_kind<T: Part + Drop>(
    alloc: Global,
    value: &Value,
    key: &str,
    kind: &str,
) -> Result<(T, Vat), Fault>
    ensures gives { Gives (λ x. x) result (before_kind T.at key.now kind.now (view value.now)) }
    ensures ok { IfOk result (λ x. (view value.now ≡ object (member key.now (T.shown x.0) (
        member (codes "k") (string kind.now) (
        member (codes "vat") (vat_data x.1) no_members)))) × T.fits x.0) }
{
    let mut fields = Fields::of(value)?;
    let part = fields.read(alloc, key)?;
    let vat = vat_behind_kind(alloc, fields, kind)?;
    Ok((part, vat))
}

/// The parts that the two members behind the kind are, and the vat behind them.
#[tactic(auto, unfolding(crate::specs::ReadEntries::behind_kind))]
fn behind_kind<A: Part + Drop, B: Part + Drop>(
    alloc: Global,
    value: &Value,
    kind: &str,
    first: &str,
    second: &str,
) -> Result<(A, B, Vat), Fault>
    ensures gives { Gives (λ x. x) result (behind_kind A.at B.at kind.now first.now second.now (view value.now)) }
    ensures ok { IfOk result (λ x. (view value.now ≡ object (member (codes "k") (string kind.now) (
        member first.now (A.shown x.0) (
        member second.now (B.shown x.1) (
        member (codes "vat") (vat_data x.2) no_members))))) × A.fits x.0 × B.fits x.1) }
{
    let mut fields = fields_of_kind(value, kind)?;
    let one = fields.read(alloc, first)?;
    let (other, vat) = fields.last_two(alloc, second, "vat")?;
    Ok((one, other, vat))
}

/// The parts between which the kind stands, and the vat behind them.
#[tactic(auto, unfolding(crate::specs::ReadEntries::around_kind))]
fn around_kind<A: Part + Drop, B: Part + Drop>(
    alloc: Global,
    value: &Value,
    first: &str,
    kind: &str,
    second: &str,
) -> Result<(A, B, Vat), Fault>
    ensures gives { Gives (λ x. x) result (around_kind A.at B.at first.now kind.now second.now (view value.now)) }
    ensures ok { IfOk result (λ x. (view value.now ≡ object (member first.now (A.shown x.0) (
        member (codes "k") (string kind.now) (
        member second.now (B.shown x.1) (
        member (codes "vat") (vat_data x.2) no_members))))) × A.fits x.0 × B.fits x.1) }
{
    let mut fields = Fields::of(value)?;
    let one = fields.read(alloc, first)?;
    fields.word("k", kind)?;
    let (other, vat) = fields.last_two(alloc, second, "vat")?;
    Ok((one, other, vat))
}

/// The number that a head says.
#[tactic(auto, unfolding(crate::specs::ReadEntries::head_at))]
pub(crate) fn head_number(alloc: Global, value: &Value) -> Result<u64, Fault>
    ensures gives { Gives (λ e. e) result (head_at (view value.now)) }
    ensures ok { IfOk result (λ e. view value.now ≡ head_of e) }
{
    let fields = fields_of_kind(value, "head")?;
    fields.last(alloc, "version")
}

#[tactic(auto, unfolding(crate::specs::ReadEntries::born_at))]
fn born_of(alloc: Global, value: &Value) -> Result<JournalEntry, Fault>
    ensures gives { Gives (λ e. e) result (born_at (view value.now)) }
    ensures ok { (version : TraceVersion) → IfOk result (λ e. (view value.now ≡ value_of_entry version e) × Fits version e) }
{
    let (origin, reference, vat) = behind_kind(alloc, value, "born", "origin", "ref")?;
    Ok(JournalEntry::Born(vat, reference, origin))
}

#[tactic(auto, unfolding(crate::specs::ReadEntries::asked_at))]
fn asked_of(alloc: Global, value: &Value) -> Result<JournalEntry, Fault>
    ensures gives { Gives (λ e. e) result (asked_at (view value.now)) }
    ensures ok { (version : TraceVersion) → IfOk result (λ e. (view value.now ≡ value_of_entry version e) × Fits version e) }
{
    let (call, vat) = before_kind(alloc, value, "call", "asked")?;
    Ok(JournalEntry::Asked(vat, CallId(call)))
}

#[tactic(auto, unfolding(crate::specs::ReadEntries::resolved_promise_at))]
fn resolved_of(alloc: Global, value: &Value) -> Result<JournalEntry, Fault>
    ensures gives { Gives (λ e. e) result (resolved_promise_at (view value.now)) }
    ensures ok { (version : TraceVersion) → IfOk result (λ e. (view value.now ≡ value_of_entry version e) × Fits version e) }
{
    let (promise, reference, vat) = behind_kind(alloc, value, "resolved", "promise", "ref")?;
    Ok(JournalEntry::Resolved(vat, PromiseId(promise), reference))
}

#[tactic(auto, unfolding(crate::specs::ReadEntries::rejected_at))]
fn rejected_of(alloc: Global, value: &Value) -> Result<JournalEntry, Fault>
    ensures gives { Gives (λ e. e) result (rejected_at (view value.now)) }
    ensures ok { (version : TraceVersion) → IfOk result (λ e. (view value.now ≡ value_of_entry version e) × Fits version e) }
{
    let (exception, promise, vat) = around_kind(alloc, value, "exception", "rejected", "promise")?;
    Ok(JournalEntry::Rejected(vat, PromiseId(promise), exception))
}

#[tactic(auto, unfolding(crate::specs::ReadEntries::dropped_at))]
fn dropped_of(alloc: Global, value: &Value) -> Result<JournalEntry, Fault>
    ensures gives { Gives (λ e. e) result (dropped_at (view value.now)) }
    ensures ok { (version : TraceVersion) → IfOk result (λ e. (view value.now ≡ value_of_entry version e) × Fits version e) }
{
    let fields = fields_of_kind(value, "dropped")?;
    let (reference, vat) = fields.last_two(alloc, "ref", "vat")?;
    Ok(JournalEntry::Dropped(vat, reference))
}

#[tactic(auto, unfolding(crate::specs::ReadEntries::finished_at))]
fn finished_of(alloc: Global, value: &Value) -> Result<JournalEntry, Fault>
    ensures gives { Gives (λ e. e) result (finished_at (view value.now)) }
    ensures ok { (version : TraceVersion) → IfOk result (λ e. (view value.now ≡ value_of_entry version e) × Fits version e) }
{
    let (call, vat) = before_kind(alloc, value, "call", "finished")?;
    Ok(JournalEntry::Finished(vat, CallId(call)))
}

#[tactic(auto, unfolding(crate::specs::ReadEntries::entry_advanced_at))]
fn advanced_of(alloc: Global, value: &Value) -> Result<JournalEntry, Fault>
    ensures gives { Gives (λ e. e) result (entry_advanced_at (view value.now)) }
    ensures ok { (version : TraceVersion) → IfOk result (λ e. (view value.now ≡ value_of_entry version e) × Fits version e) }
{
    let (answer, reference, vat) = around_kind(alloc, value, "answer", "advanced", "ref")?;
    Ok(JournalEntry::Advanced(vat, reference, answer))
}

#[tactic(auto, unfolding(crate::specs::ReadEntries::refused_at))]
fn refused_of(alloc: Global, value: &Value) -> Result<JournalEntry, Fault>
    ensures gives { Gives (λ e. e) result (refused_at (view value.now)) }
    ensures ok { (version : TraceVersion) → IfOk result (λ e. (view value.now ≡ value_of_entry version e) × Fits version e) }
{
    let (code, vat) = before_kind(alloc, value, "code", "refused")?;
    Ok(JournalEntry::Refused(vat, code))
}

#[tactic(auto, unfolding(crate::specs::ReadEntries::got_at))]
fn got_of(alloc: Global, value: &Value) -> Result<JournalEntry, Fault>
    ensures gives { Gives (λ e. e) result (got_at (view value.now)) }
    ensures ok { (version : TraceVersion) → IfOk result (λ e. (view value.now ≡ value_of_entry version e) × Fits version e) }
{
    let fields = fields_of_kind(value, "got")?;
    let vat = fields.last(alloc, "vat")?;
    Ok(JournalEntry::Got(vat))
}

#[tactic(auto, unfolding(crate::specs::ReadEntries::down_at))]
fn down_of(alloc: Global, value: &Value) -> Result<JournalEntry, Fault>
    ensures gives { Gives (λ e. e) result (down_at (view value.now)) }
    ensures ok { (version : TraceVersion) → IfOk result (λ e. (view value.now ≡ value_of_entry version e) × Fits version e) }
{
    let (fault, vat) = before_kind(alloc, value, "fault", "down")?;
    Ok(JournalEntry::Down(vat, fault))
}

#[tactic(auto, unfolding(crate::specs::ReadEntries::tables_at))]
fn tables_of(alloc: Global, value: &Value) -> Result<JournalEntry, Fault>
    ensures gives { Gives (λ e. e) result (tables_at (view value.now)) }
    ensures ok { (version : TraceVersion) → IfOk result (λ e. (view value.now ≡ value_of_entry version e) × Fits version e) }
{
    let mut fields = Fields::of(value)?;
    let (a, b) = fields.two(alloc, "a", "b")?;
    fields.word("k", "tables")?;
    fields.end()?;
    Ok(JournalEntry::Tables(a, b))
}

/// The members of a call that is made from its payload on.
#[tactic(auto, unfolding(crate::specs::ReadEntries::made_rest))]
fn rest_of_made(
    alloc: Global,
    mut fields: Fields<'_>,
) -> Result<(RawPayload<'_>, RefId, Items<RefId>, Vat), Fault>
    ensures gives { Gives (λ r. ((r.0.text.now, r.0.caps), r.1, r.2, r.3)) result (made_rest (members_view fields.entry.rest)) }
    ensures ok { IfOk result (λ r. (members_view fields.entry.rest ≡ member (codes "payload") (payload_data (r.0.text.now, r.0.caps)) (
        member (codes "ref") (reference_data r.1) (
        member (codes "refs") (list reference_data r.2) (
        member (codes "vat") (vat_data r.3) no_members)))) × FitsU32 r.0.caps) }
{
    let raw = next_payload(alloc, &mut fields)?;
    let reference = fields.read(alloc, "ref")?;
    let (refs, vat) = fields.last_two(alloc, "refs", "vat")?;
    Ok((raw, reference, refs, vat))
}

#[tactic(auto, unfolding(crate::specs::ReadEntries::made_at))]
fn made_of(alloc: Global, value: &Value) -> Result<(JournalEntry, Option<RawPayload<'_>>), Fault>
    ensures gives { Gives (λ e. (e.0, option_map (λ r. (r.text.now, r.caps)) e.1)) result (made_at (view value.now)) }
    ensures ok { (version : TraceVersion) → IfOk result (λ e. (view value.now ≡ value_by version (stands_for (option_map (λ r. (r.text.now, r.caps)) e.1)) e.0)
        × Fits version e.0 × FitsRaw (option_map (λ r. (r.text.now, r.caps)) e.1)) }
{
    let mut fields = Fields::of(value)?;
    let (call, index) = fields.two(alloc, "call", "index")?;
    let interface = fields.read(alloc, "interface")?;
    fields.word("k", "made")?;
    let method = fields.read(alloc, "method")?;
    let (raw, reference, refs, vat) = rest_of_made(alloc, fields)?;
    let made = MadeCall {
        reference,
        index,
        call: CallId(call),
        interface,
        method,
        payload: no_payload(alloc)?,
        refs,
    };
    Ok((JournalEntry::Made(vat, made), Some(raw)))
}

/// The members of a delivery from its references on.
#[tactic(auto, unfolding(crate::specs::ReadEntries::delivered_rest))]
fn rest_of_delivered(
    alloc: Global,
    mut fields: Fields<'_>,
) -> Result<(Items<RefId>, Stamp, u64, Vat), Fault>
    ensures gives { Gives (λ r. r) result (delivered_rest (members_view fields.entry.rest)) }
    ensures ok { IfOk result (λ r. members_view fields.entry.rest ≡ member (codes "refs") (list reference_data r.0) (
        member (codes "stamp") (stamp_data r.1) (
        member (codes "task") (nat r.2) (
        member (codes "vat") (vat_data r.3) no_members)))) }
{
    let (refs, stamp) = fields.two(alloc, "refs", "stamp")?;
    let (task, vat) = fields.last_two(alloc, "task", "vat")?;
    Ok((refs, stamp, task, vat))
}

#[tactic(auto, unfolding(crate::specs::ReadEntries::delivered_at))]
fn delivered_of(
    alloc: Global,
    value: &Value,
) -> Result<(JournalEntry, Option<RawPayload<'_>>), Fault>
    ensures gives { Gives (λ e. (e.0, option_map (λ r. (r.text.now, r.caps)) e.1)) result (delivered_at (view value.now)) }
    ensures ok { (version : TraceVersion) → IfOk result (λ e. (view value.now ≡ value_by version (stands_for (option_map (λ r. (r.text.now, r.caps)) e.1)) e.0)
        × Fits version e.0 × FitsRaw (option_map (λ r. (r.text.now, r.caps)) e.1)) }
{
    let mut fields = Fields::of(value)?;
    let interface = fields.read(alloc, "interface")?;
    fields.word("k", "delivered")?;
    let (method, object) = fields.two(alloc, "method", "object")?;
    let raw = next_payload(alloc, &mut fields)?;
    let (refs, stamp, task, vat) = rest_of_delivered(alloc, fields)?;
    let payload = no_payload(alloc)?;
    let delivery = Delivery {
        task: TaskId(task),
        object: ObjectId(object),
        stamp,
        interface,
        method,
        payload,
        refs,
    };
    Ok((JournalEntry::Delivered(vat, delivery), Some(raw)))
}

/// The outcome that the next member is; of results the payload is null, and what stands for theirs is beside it.
#[tactic(auto, unfolding(trace_json_parts::specs::Reading::field_at))]
fn next_outcome<'v>(
    alloc: Global,
    fields: &mut Fields<'v>,
) -> Result<(Outcome, Option<RawPayload<'v>>), Fault>
    ensures gives { Gives (λ o. ((o.0, option_map (λ r. (r.text.now, r.caps)) o.1), members_view fields.new.rest)) result (field_at outcome_at (codes "outcome") (members_view fields.old.rest)) }
    ensures ok { IfOk result (λ o. (members_view fields.old.rest ≡ member (codes "outcome") (outcome_by (stands_for (option_map (λ r. (r.text.now, r.caps)) o.1)) o.0) (members_view fields.new.rest))
        × FitsOutcome o.0 × FitsRaw (option_map (λ r. (r.text.now, r.caps)) o.1)) }
{
    let value = fields.next("outcome")?;
    outcome_of(alloc, value)
}

#[tactic(auto, unfolding(crate::specs::ReadEntries::answered_at))]
fn answered_of(
    alloc: Global,
    value: &Value,
) -> Result<(JournalEntry, Option<RawPayload<'_>>), Fault>
    ensures gives { Gives (λ e. (e.0, option_map (λ r. (r.text.now, r.caps)) e.1)) result (answered_at (view value.now)) }
    ensures ok { (version : TraceVersion) → IfOk result (λ e. (view value.now ≡ value_by version (stands_for (option_map (λ r. (r.text.now, r.caps)) e.1)) e.0)
        × Fits version e.0 × FitsRaw (option_map (λ r. (r.text.now, r.caps)) e.1)) }
{
    let mut fields = fields_of_kind(value, "answered")?;
    let (outcome, raw) = next_outcome(alloc, &mut fields)?;
    let refs = fields.read(alloc, "refs")?;
    let (task, vat) = fields.last_two(alloc, "task", "vat")?;
    let entry = JournalEntry::Answered(vat, TaskId(task), outcome, refs);
    Ok((entry, raw))
}

#[tactic(auto, unfolding(crate::specs::ReadEntries::ended_at))]
fn ended_of(alloc: Global, value: &Value) -> Result<(JournalEntry, Option<RawPayload<'_>>), Fault>
    ensures gives { Gives (λ e. (e.0, option_map (λ r. (r.text.now, r.caps)) e.1)) result (ended_at (view value.now)) }
    ensures ok { (version : TraceVersion) → IfOk result (λ e. (view value.now ≡ value_by version (stands_for (option_map (λ r. (r.text.now, r.caps)) e.1)) e.0)
        × Fits version e.0 × FitsRaw (option_map (λ r. (r.text.now, r.caps)) e.1)) }
{
    let mut fields = Fields::of(value)?;
    let call = fields.read(alloc, "call")?;
    fields.word("k", "ended")?;
    let (outcome, raw) = next_outcome(alloc, &mut fields)?;
    let (refs, vat) = fields.last_two(alloc, "refs", "vat")?;
    let ended = Ended {
        call: CallId(call),
        outcome,
        refs,
    };
    Ok((JournalEntry::Ended(vat, ended), raw))
}

#[tactic(auto, unfolding(crate::specs::ReadEntries::sent_at))]
fn sent_of(
    alloc: Global,
    value: &Value,
    version: TraceVersion,
) -> Result<(JournalEntry, Option<RawPayload<'_>>), Fault>
    ensures gives { Gives (λ e. (e.0, option_map (λ r. (r.text.now, r.caps)) e.1)) result (sent_at version (view value.now)) }
    ensures ok { IfOk result (λ e. (view value.now ≡ value_by version (stands_for (option_map (λ r. (r.text.now, r.caps)) e.1)) e.0)
        × Fits version e.0 × FitsRaw (option_map (λ r. (r.text.now, r.caps)) e.1)) }
{
    let mut fields = fields_of_kind(value, "sent")?;
    let said = fields.next("message")?;
    let vat = fields.last(alloc, "vat")?;
    let (message, raw) = message_of(alloc, said, version)?;
    Ok((JournalEntry::Sent(vat, message), raw))
}

/// What an application did, by its kind: the same in both versions.
fn command_of(alloc: Global, kind: &str, value: &Value) -> Result<JournalEntry, Fault>
    ensures gives { Gives (λ e. e) result (command_under kind.now (view value.now)) }
    ensures ok { (version : TraceVersion) → IfOk result (λ e. (view value.now ≡ value_of_entry version e) × Fits version e) }
{
    match kind {
        "born" => born_of(alloc, value),
        "asked" => asked_of(alloc, value),
        "resolved" => resolved_of(alloc, value),
        "rejected" => rejected_of(alloc, value),
        "dropped" => dropped_of(alloc, value),
        "finished" => finished_of(alloc, value),
        "advanced" => advanced_of(alloc, value),
        "refused" => refused_of(alloc, value),
        _ => Err(Fault::WrongShape),
    }
}

/// An entry without a payload, by its kind.
fn bare_entry_of(
    alloc: Global,
    kind: &str,
    value: &Value,
    version: TraceVersion,
) -> Result<JournalEntry, Fault>
    ensures gives { Gives (λ e. e) result (bare_entry_under version kind.now (view value.now)) }
    ensures ok { IfOk result (λ e. (view value.now ≡ value_of_entry version e) × Fits version e) }
{
    match kind {
        "got" => got_of(alloc, value),
        "down" => down_of(alloc, value),
        "tables" => tables_of(alloc, value),
        "head" => {
            if head_number(alloc, value)? == version.number() {
                Ok(JournalEntry::Head)
            } else {
                Err(Fault::WrongShape)
            }
        }
        _ => command_of(alloc, kind, value),
    }
}

/// An entry by its kind, with `no_payload` in the place of its payload, and what stands there.
fn entry_of_kind<'v>(
    alloc: Global,
    kind: &str,
    value: &'v Value,
    version: TraceVersion,
) -> Result<(JournalEntry, Option<RawPayload<'v>>), Fault>
    ensures gives { Gives (λ e. (e.0, option_map (λ r. (r.text.now, r.caps)) e.1)) result (entry_under version kind.now (view value.now)) }
    ensures ok { IfOk result (λ e. (view value.now ≡ value_by version (stands_for (option_map (λ r. (r.text.now, r.caps)) e.1)) e.0)
        × Fits version e.0 × FitsRaw (option_map (λ r. (r.text.now, r.caps)) e.1)) }
{
    match kind {
        "sent" => sent_of(alloc, value, version),
        "made" => made_of(alloc, value),
        "delivered" => delivered_of(alloc, value),
        "answered" => answered_of(alloc, value),
        "ended" => ended_of(alloc, value),
        _ => Ok((bare_entry_of(alloc, kind, value, version)?, None)),
    }
}

/// The entry that a value has the shape of, with `no_payload` in the place of its payload, and what stands there.
#[tactic(auto, unfolding(crate::specs::ReadEntries::entry_at))]
pub(crate) fn read_entry(
    alloc: Global,
    value: &Value,
    version: TraceVersion,
) -> Result<(JournalEntry, Option<RawPayload<'_>>), Fault>
    ensures gives { Gives (λ e. (e.0, option_map (λ r. (r.text.now, r.caps)) e.1)) result (entry_at version (view value.now)) }
    ensures ok { IfOk result (λ e. (view value.now ≡ value_by version (stands_for (option_map (λ r. (r.text.now, r.caps)) e.1)) e.0)
        × Fits version e.0 × FitsRaw (option_map (λ r. (r.text.now, r.caps)) e.1)) }
{
    let Some(kind) = value.get("k").and_then(Value::as_str) else {
        return Err(Fault::WrongShape);
    };
    entry_of_kind(alloc, kind, value, version)
}
