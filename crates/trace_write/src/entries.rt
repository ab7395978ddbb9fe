ghost use Rattle.std.specs.Prelude.{◌≡◌, IfOk, OnOk};
ghost use Rattle.serde_json.specs.View.{view};
ghost use Rattle.trace_write.specs.Parts.{in_base64};
ghost use Rattle.trace_write.specs.Values.{head_data, born_data, asked_data, made_by, delivered_by, answered_by, ended_by, resolved_promise_data, rejected_data, dropped_data, finished_data, advanced_data, refused_data, sent_by, got_data, down_data, tables_data, value};
ghost use Rattle.trace_write.specs.Fits.{FitsOrigin, FitsMade, FitsDelivery, FitsOutcome, FitsU16, FitsMessage, FitsCounts, Fits};

use crate::members::{add_member, put_text, write_event, write_flat_event, write_numbers};
use crate::messages::write_message;
use crate::part::{add_part, put_part};
use crate::version::TraceVersion;
use rpc_journal::{Advanced, Counts, Delivery, Ended, JournalEntry, MadeCall, Origin, Outcome};
use rpc_msg::{CallId, Exception, Items, Message, PromiseId, RefId, TaskId, Vat};
use serde_json::{Map, Value};
use std::alloc::{AllocError, Global};

fn write_head(alloc: Global, version: TraceVersion) -> Result<Value, AllocError>
    ensures { IfOk result (λ v. view v ≡ head_data version) }
{
    let mut members = write_numbers(alloc, &[("version", version.number())])?;
    put_text(&mut members, alloc, "k", "head")?;
    Ok(Value::Object(members))
}

fn write_born(
    alloc: Global,
    vat: Vat,
    reference: RefId,
    origin: &Origin,
) -> Result<Value, AllocError>
    ensures is { IfOk result (λ v. view v ≡ born_data vat reference origin.now) }
    ensures fits { OnOk result (FitsOrigin origin.now) }
{
    let members = write_event(alloc, "born", vat, &[("ref", reference.0)])?;
    add_part(members, alloc, "origin", origin)
}

fn write_asked(alloc: Global, vat: Vat, call: CallId) -> Result<Value, AllocError>
    ensures { IfOk result (λ v. view v ≡ asked_data vat call) }
{
    write_flat_event(alloc, "asked", vat, &[("call", call.0)])
}

fn write_made(alloc: Global, vat: Vat, made: &MadeCall) -> Result<Value, AllocError>
    ensures is { IfOk result (λ v. view v ≡ made_by in_base64 vat made.now) }
    ensures fits { OnOk result (FitsMade made.now) }
{
    let method = made.method;
    let numbers = &[
        ("call", made.call.0),
        ("index", made.index),
        ("interface", made.interface),
        ("method", u64::from(method)),
        ("ref", made.reference.0),
    ];
    let mut members = write_event(alloc, "made", vat, numbers)?;
    put_part(&mut members, alloc, "payload", &made.payload)?;
    add_part(members, alloc, "refs", &made.refs)
}

fn write_delivered(alloc: Global, vat: Vat, delivery: &Delivery) -> Result<Value, AllocError>
    ensures is { IfOk result (λ v. view v ≡ delivered_by in_base64 vat delivery.now) }
    ensures fits { OnOk result (FitsDelivery delivery.now) }
{
    let method = delivery.method;
    let numbers = &[
        ("interface", delivery.interface),
        ("method", u64::from(method)),
        ("object", delivery.object.0),
        ("task", delivery.task.0),
    ];
    let mut members = write_event(alloc, "delivered", vat, numbers)?;
    put_part(&mut members, alloc, "payload", &delivery.payload)?;
    put_part(&mut members, alloc, "refs", &delivery.refs)?;
    add_part(members, alloc, "stamp", &delivery.stamp)
}

fn write_answered(
    alloc: Global,
    vat: Vat,
    task: TaskId,
    outcome: &Outcome,
    refs: &Items<RefId>,
) -> Result<Value, AllocError>
    ensures is { IfOk result (λ v. view v ≡ answered_by in_base64 vat task outcome.now refs.now) }
    ensures fits { OnOk result (FitsOutcome outcome.now) }
{
    let mut members = write_event(alloc, "answered", vat, &[("task", task.0)])?;
    put_part(&mut members, alloc, "outcome", outcome)?;
    add_part(members, alloc, "refs", refs)
}

fn write_ended(alloc: Global, vat: Vat, ended: &Ended) -> Result<Value, AllocError>
    ensures is { IfOk result (λ v. view v ≡ ended_by in_base64 vat ended.now) }
    ensures fits { OnOk result (FitsOutcome ended.now.outcome) }
{
    let mut members = write_event(alloc, "ended", vat, &[("call", ended.call.0)])?;
    put_part(&mut members, alloc, "outcome", &ended.outcome)?;
    add_part(members, alloc, "refs", &ended.refs)
}

fn write_resolved(
    alloc: Global,
    vat: Vat,
    promise: PromiseId,
    reference: RefId,
) -> Result<Value, AllocError>
    ensures { IfOk result (λ v. view v ≡ resolved_promise_data vat promise reference) }
{
    let numbers = &[("promise", promise.0), ("ref", reference.0)];
    write_flat_event(alloc, "resolved", vat, numbers)
}

fn write_rejected(
    alloc: Global,
    vat: Vat,
    promise: PromiseId,
    exception: &Exception,
) -> Result<Value, AllocError>
    ensures { IfOk result (λ v. view v ≡ rejected_data vat promise exception.now) }
{
    let members = write_event(alloc, "rejected", vat, &[("promise", promise.0)])?;
    add_part(members, alloc, "exception", exception)
}

fn write_dropped(alloc: Global, vat: Vat, reference: RefId) -> Result<Value, AllocError>
    ensures { IfOk result (λ v. view v ≡ dropped_data vat reference) }
{
    write_flat_event(alloc, "dropped", vat, &[("ref", reference.0)])
}

fn write_finished(alloc: Global, vat: Vat, call: CallId) -> Result<Value, AllocError>
    ensures { IfOk result (λ v. view v ≡ finished_data vat call) }
{
    write_flat_event(alloc, "finished", vat, &[("call", call.0)])
}

fn write_advanced(
    alloc: Global,
    vat: Vat,
    reference: RefId,
    advanced: &Advanced,
) -> Result<Value, AllocError>
    ensures { IfOk result (λ v. view v ≡ advanced_data vat reference advanced.now) }
{
    let members = write_event(alloc, "advanced", vat, &[("ref", reference.0)])?;
    add_part(members, alloc, "answer", advanced)
}

fn write_refused(alloc: Global, vat: Vat, code: u16) -> Result<Value, AllocError>
    ensures is { IfOk result (λ v. view v ≡ refused_data vat code) }
    ensures fits { OnOk result (FitsU16 code) }
{
    write_flat_event(alloc, "refused", vat, &[("code", u64::from(code))])
}

fn write_sent(
    alloc: Global,
    vat: Vat,
    message: &Message,
    version: TraceVersion,
) -> Result<Value, AllocError>
    ensures is { IfOk result (λ v. view v ≡ sent_by version in_base64 vat message.now) }
    ensures fits { OnOk result (FitsMessage TraceVersion.Two message.now) }
{
    let members = write_event(alloc, "sent", vat, &[])?;
    let message = write_message(alloc, message, version)?;
    add_member(members, alloc, "message", message)
}

fn write_got(alloc: Global, vat: Vat) -> Result<Value, AllocError>
    ensures { IfOk result (λ v. view v ≡ got_data vat) }
{
    write_flat_event(alloc, "got", vat, &[])
}

fn write_down(alloc: Global, vat: Vat, fault: u16) -> Result<Value, AllocError>
    ensures is { IfOk result (λ v. view v ≡ down_data vat fault) }
    ensures fits { OnOk result (FitsU16 fault) }
{
    write_flat_event(alloc, "down", vat, &[("fault", u64::from(fault))])
}

fn write_tables(alloc: Global, a: &Counts, b: &Counts) -> Result<Value, AllocError>
    ensures is { IfOk result (λ v. view v ≡ tables_data a.now b.now) }
    ensures fits { OnOk result (FitsCounts a.now × FitsCounts b.now) }
{
    let mut members = Map::new(alloc);
    put_text(&mut members, alloc, "k", "tables")?;
    put_part(&mut members, alloc, "a", a)?;
    add_part(members, alloc, "b", b)
}

pub(crate) fn write_entry(
    alloc: Global,
    entry: &JournalEntry,
    version: TraceVersion,
) -> Result<Value, AllocError>
    ensures is { IfOk result (λ v. view v ≡ value version entry.now) }
    ensures fits { OnOk result (Fits TraceVersion.Two entry.now) }
{
    match entry {
        JournalEntry::Head => write_head(alloc, version),
        JournalEntry::Born(vat, reference, origin) => write_born(alloc, *vat, *reference, origin),
        JournalEntry::Asked(vat, call) => write_asked(alloc, *vat, *call),
        JournalEntry::Made(vat, made) => write_made(alloc, *vat, made),
        JournalEntry::Delivered(vat, delivery) => write_delivered(alloc, *vat, delivery),
        JournalEntry::Answered(vat, task, outcome, refs) => {
            write_answered(alloc, *vat, *task, outcome, refs)
        }
        JournalEntry::Ended(vat, ended) => write_ended(alloc, *vat, ended),
        JournalEntry::Resolved(vat, promise, reference) => {
            write_resolved(alloc, *vat, *promise, *reference)
        }
        JournalEntry::Rejected(vat, promise, exception) => {
            write_rejected(alloc, *vat, *promise, exception)
        }
        JournalEntry::Dropped(vat, reference) => write_dropped(alloc, *vat, *reference),
        JournalEntry::Finished(vat, call) => write_finished(alloc, *vat, *call),
        JournalEntry::Advanced(vat, reference, advanced) => {
            write_advanced(alloc, *vat, *reference, advanced)
        }
        JournalEntry::Refused(vat, code) => write_refused(alloc, *vat, *code),
        JournalEntry::Sent(vat, message) => write_sent(alloc, *vat, message, version),
        JournalEntry::Got(vat) => write_got(alloc, *vat),
        JournalEntry::Down(vat, fault) => write_down(alloc, *vat, *fault),
        JournalEntry::Tables(a, b) => write_tables(alloc, a, b),
    }
}
