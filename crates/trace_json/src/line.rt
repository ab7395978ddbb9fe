ghost use Rattle.std.specs.Prelude.{◌≡◌, Some, IfOk, IfErr, IsOkUnless};
ghost use Rattle.base64.specs.Engines.{standard};
ghost use Rattle.base64.specs.GeneralPurpose.{encode_of, IsBytes};
ghost use Rattle.rpc_msg.specs.Payloads.{Contents as Payload, IsEncoded};
ghost use Rattle.serde_json.specs.Read.{read};
ghost use Rattle.serde_json.specs.View.{view};
ghost use Rattle.rpc_journal.specs.declared.entry.JournalEntry.{JournalEntry};
ghost use Rattle.trace_write.specs.Parts.{in_base64};
ghost use Rattle.trace_write.specs.Values.{head_data, value as value_of_entry};
ghost use Rattle.trace_write.specs.Fits.{FitsPayload, Fits};
ghost use Rattle.trace_json.specs.Filled.{filled};
ghost use Rattle.trace_json.specs.Faults.{IsFault, IsParseFault, IsVersionFault, IsShapeFault, IsTextFault, IsPayloadFault, IsRawFault};

use crate::entries::{head_number, read_entry};
use crate::fault::TraceFault;
use crate::payload::fill;
use base64::DecodeAllocError;
use base64::engine::general_purpose::STANDARD;
use rpc_journal::JournalEntry;
use rpc_msg::{Payload, PayloadFault};
use serde_json::Value;
use std::alloc::Global;
use trace_json_parts::Fault;
use trace_write::TraceVersion;

fn decode(alloc: Global, text: &str) -> Result<Vec<u8>, TraceFault>
    ensures ok { IfOk result (λ v. (text.now ≡ encode_of standard v.items) × IsBytes v.items) }
    ensures fault { IfErr result (λ f. IsTextFault f text.now) }
{
    match STANDARD.decode(alloc, text.as_bytes()) {
        Ok(bytes) => Ok(bytes),
        Err(DecodeAllocError::OutOfMemory) => Err(TraceFault::Memory),
        Err(_) => Err(TraceFault::BadBase64),
    }
}

/// The payload of these bytes, for that many capabilities.
fn payload_of(alloc: Global, bytes: &[u8], caps: u32) -> Result<Payload, TraceFault>
    ensures ok { IfOk result (λ p. (p ≡ record { bytes = bytes.now; caps = caps }) × IsEncoded p) }
    ensures fault { IfErr result (λ f. IsPayloadFault f bytes.now caps) }
{
    match Payload::read(alloc, bytes, caps) {
        Ok(payload) => Ok(payload),
        Err(PayloadFault::Memory) => Err(TraceFault::Memory),
        Err(_) => Err(TraceFault::BadPayload),
    }
}

/// The fault of a value that has no shape of an entry: it may be a head all the same.
fn fault_of_shape(alloc: Global, value: &Value) -> TraceFault
    ensures { IsShapeFault result (view value.now) }
{
    match head_number(alloc, value) {
        Ok(_) => TraceFault::Version,
        Err(Fault::Memory) => TraceFault::Memory,
        Err(Fault::WrongShape) => TraceFault::WrongShape,
    }
}

/// The payload that a text and a number stand for.
fn read_payload(alloc: Global, text: &str, caps: u32) -> Result<Payload, TraceFault>
    ensures ok { IfOk result (λ p. (in_base64 p ≡ (text.now, caps)) × FitsPayload p) }
    ensures fault { IfErr result (λ f. IsRawFault f (text.now, caps)) }
{
    let bytes = decode(alloc, text)?;
    payload_of(alloc, bytes.as_slice(), caps)
}

/// The entry with the payload that a text and a number stand for.
fn with_payload(
    alloc: Global,
    mut entry: JournalEntry,
    text: &str,
    caps: u32,
) -> Result<JournalEntry, TraceFault>
    ensures ok { IfOk result (λ e. (p : Payload) × (in_base64 p ≡ (text.now, caps)) × FitsPayload p × (e ≡ filled p entry)) }
    ensures fault { IfErr result (λ f. IsRawFault f (text.now, caps)) }
{
    let payload = read_payload(alloc, text, caps)?;
    fill(payload, &mut entry);
    Ok(entry)
}

/// The entry that a JSON value is.
fn entry_of_value(
    alloc: Global,
    value: &Value,
    version: TraceVersion,
) -> Result<JournalEntry, TraceFault>
    ensures ok { IfOk result (λ e. (view value.now ≡ value_of_entry version e) × Fits version e) }
    ensures only { (e : JournalEntry) → Fits version e → view value.now ≡ value_of_entry version e → IsOkUnless result TraceFault.Memory }
    ensures same { (e : JournalEntry) → Fits version e → view value.now ≡ value_of_entry version e → IfOk result (λ x. x ≡ e) }
    ensures fault { IfErr result (λ f. IsFault version f (Some (view value.now))) }
{
    match read_entry(alloc, value, version) {
        Ok((entry, raw)) => match raw {
            None => Ok(entry),
            Some(raw) => with_payload(alloc, entry, raw.text, raw.caps),
        },
        Err(Fault::Memory) => Err(TraceFault::Memory),
        Err(Fault::WrongShape) => Err(fault_of_shape(alloc, value)),
    }
}

/// The JSON value that a text is.
fn parse(alloc: Global, text: &str) -> Result<Value, TraceFault>
    ensures ok { IfOk result (λ v. read text.now ≡ Some (view v)) }
    ensures fault { IfErr result (λ f. IsParseFault f (read text.now)) }
{
    match Value::from_str(alloc, text) {
        Ok(value) => Ok(value),
        Err(error) => {
            if error.is_memory() {
                Err(TraceFault::Memory)
            } else {
                Err(TraceFault::NotJson)
            }
        }
    }
}

/// The version of a trace, by its first line, without its newline.
///
/// Answers `Memory` if a growth was refused; `NotJson` if the text is no JSON; `WrongShape` if it is no head;
/// `Version` if it is the head of a version that is neither.
pub fn version_of(alloc: Global, text: &str) -> Result<TraceVersion, TraceFault>
    ensures ok { IfOk result (λ v. read text.now ≡ Some (head_data v)) }
    ensures only { (v : TraceVersion) → read text.now ≡ Some (head_data v) → IsOkUnless result TraceFault.Memory }
    ensures same { (v : TraceVersion) → read text.now ≡ Some (head_data v) → IfOk result (λ x. x ≡ v) }
    ensures fault { IfErr result (λ f. IsVersionFault f (read text.now)) }
{
    let value = parse(alloc, text)?;
    match head_number(alloc, &value) {
        Ok(1) => Ok(TraceVersion::One),
        Ok(2) => Ok(TraceVersion::Two),
        Ok(_) => Err(TraceFault::Version),
        Err(Fault::Memory) => Err(TraceFault::Memory),
        Err(Fault::WrongShape) => Err(TraceFault::WrongShape),
    }
}

/// The entry that a line of that version is, a line without its newline.
///
/// Spaces between the parts of the JSON text and the order of keys decide nothing; of a key that stands twice in one
/// object the last counts. Answers `Memory` if a growth was refused; `NotJson` if the text is no JSON; and else
/// the first that holds of: `WrongShape`, `Version` (a head of another version), `BadBase64`, `BadPayload`.
pub fn entry_of(
    alloc: Global,
    text: &str,
    version: TraceVersion,
) -> Result<JournalEntry, TraceFault>
    // What is read is the entry whose value the text is.
    ensures ok { IfOk result (λ e. (read text.now ≡ Some (value_of_entry version e)) × Fits version e) }
    // A text that is the value of an entry is read as that entry, or refused for memory alone.
    ensures only { (e : JournalEntry) → Fits version e → read text.now ≡ Some (value_of_entry version e) → IsOkUnless result TraceFault.Memory }
    ensures same { (e : JournalEntry) → Fits version e → read text.now ≡ Some (value_of_entry version e) → IfOk result (λ x. x ≡ e) }
    // Every other text has the fault that its value has.
    ensures fault { IfErr result (λ f. IsFault version f (read text.now)) }
{
    let value = parse(alloc, text)?;
    entry_of_value(alloc, &value, version)
}
