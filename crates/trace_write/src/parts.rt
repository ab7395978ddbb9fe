ghost use Rattle.std.specs.Prelude.{◌≡◌, codes, IfOk, OnOk};
ghost use Rattle.serde_json.specs.Data.{string, object, member, no_members};
ghost use Rattle.serde_json.specs.View.{view};
ghost use Rattle.trace_write.specs.Parts.{nat, vat_name, vat_data, kind_name, advanced_name, path_data, answer_data, target_data, stamp_data, payload_data, in_base64, exception_data, outcome_by, origin_data, counts_data};
ghost use Rattle.trace_write.specs.Fits.{FitsAny, FitsU32, FitsAnswer, FitsPath, FitsTarget, FitsPayload, FitsOutcome, FitsOrigin, FitsCounts};

use crate::members::{add_member, write_number, write_numbers, write_only};
use crate::part::{Part, add_part, put_part, write_under};
use base64::engine::general_purpose::STANDARD;
use rpc_journal::{Advanced, Counts, Origin, Outcome};
use rpc_msg::{
    CallId, Exception, ExceptionKind, Path, Payload, QuestionId, Stamp, Target, Text, Vat,
};
use serde_json::{Map, ToValue, Value};
use std::alloc::{AllocError, Global};

pub(crate) fn name_of_vat(vat: Vat) -> &'static str
    ensures { result.now ≡ vat_name vat }
{
    match vat {
        Vat::A => "a",
        Vat::B => "b",
    }
}

fn name_of_kind(kind: ExceptionKind) -> &'static str
    ensures { result.now ≡ kind_name kind }
{
    match kind {
        ExceptionKind::Failed => "failed",
        ExceptionKind::Overloaded => "overloaded",
        ExceptionKind::Disconnected => "disconnected",
        ExceptionKind::Unimplemented => "unimplemented",
    }
}

fn name_of_advanced(advanced: Advanced) -> &'static str
    ensures { result.now ≡ advanced_name advanced }
{
    match advanced {
        Advanced::Nothing => "nothing",
        Advanced::Switched => "switched",
        Advanced::Embargoed => "embargoed",
        Advanced::Broke => "broke",
    }
}

impl Part for Vat {
    ghost shown = { vat_data };

    ghost fits = { FitsAny };

    fn write(&self, alloc: Global) -> Result<Value, AllocError> {
        name_of_vat(*self).to_value(alloc)
    }
}

impl Part for ExceptionKind {
    ghost shown = { λ k. string (kind_name k) };

    ghost fits = { FitsAny };

    fn write(&self, alloc: Global) -> Result<Value, AllocError> {
        name_of_kind(*self).to_value(alloc)
    }
}

impl Part for Advanced {
    ghost shown = { λ a. string (advanced_name a) };

    ghost fits = { FitsAny };

    fn write(&self, alloc: Global) -> Result<Value, AllocError> {
        name_of_advanced(*self).to_value(alloc)
    }
}

impl Part for Text {
    ghost shown = { string };

    ghost fits = { FitsAny };

    fn write(&self, alloc: Global) -> Result<Value, AllocError> {
        self.as_str().to_value(alloc)
    }
}

pub(crate) fn write_answer_place(
    alloc: Global,
    question: QuestionId,
    path: &Path,
) -> Result<Value, AllocError>
    ensures is { IfOk result (λ v. view v ≡ answer_data question path.now) }
    ensures fits { OnOk result (FitsAnswer (question, path.now)) }
{
    let question = u64::from(question.0);
    let members = write_numbers(alloc, &[("question", question)])?;
    add_part(members, alloc, "path", path)
}

impl Part for Target {
    ghost shown = { target_data };

    ghost fits = { FitsTarget };

    fn write(&self, alloc: Global) -> Result<Value, AllocError> {
        match self {
            Target::ImportedCap(id) => write_number(alloc, "import", id.0),
            Target::PromisedAnswer(question, path) => {
                let answer = write_answer_place(alloc, *question, path)?;
                write_only(alloc, "answer", answer)
            }
        }
    }
}

impl Part for Stamp {
    ghost shown = { stamp_data };

    ghost fits = { FitsAny };

    fn write(&self, alloc: Global) -> Result<Value, AllocError> {
        let members = write_numbers(alloc, &[("index", self.index), ("ref", self.reference.0)])?;
        add_part(members, alloc, "vat", &self.vat)
    }
}

impl Part for Payload {
    ghost shown = { λ p. payload_data (in_base64 p) };

    ghost fits = { FitsPayload };

    fn write(&self, alloc: Global) -> Result<Value, AllocError> {
        let caps = self.caps();
        let bytes = STANDARD.encode(alloc, self.bytes())?;
        let members = write_numbers(alloc, &[("caps", u64::from(caps))])?;
        add_member(members, alloc, "bytes", Value::String(bytes))
    }
}

impl Part for Exception {
    ghost shown = { exception_data };

    ghost fits = { FitsAny };

    fn write(&self, alloc: Global) -> Result<Value, AllocError> {
        let mut members = Map::new(alloc);
        put_part(&mut members, alloc, "kind", &self.kind)?;
        add_part(members, alloc, "reason", &self.reason)
    }
}

impl Part for Outcome {
    ghost shown = { outcome_by in_base64 };

    ghost fits = { FitsOutcome };

    fn write(&self, alloc: Global) -> Result<Value, AllocError> {
        match self {
            Outcome::Results(payload) => write_under(alloc, "results", payload),
            Outcome::Exception(exception) => write_under(alloc, "exception", exception),
        }
    }
}

/// A place in the results of a call.
fn write_field(alloc: Global, call: CallId, path: &Path) -> Result<Value, AllocError>
    ensures is { IfOk result (λ v. view v ≡ object (member (codes "call") (nat call.0) (member (codes "path") (path_data path.now) no_members))) }
    ensures fits { OnOk result (FitsPath path.now) }
{
    let members = write_numbers(alloc, &[("call", call.0)])?;
    add_part(members, alloc, "path", path)
}

impl Part for Origin {
    ghost shown = { origin_data };

    ghost fits = { FitsOrigin };

    fn write(&self, alloc: Global) -> Result<Value, AllocError> {
        match self {
            Origin::Object(object) => write_only(alloc, "object", Value::from(object.0)),
            Origin::Promise(promise) => write_only(alloc, "promise", Value::from(promise.0)),
            Origin::Clone(reference) => write_only(alloc, "clone", Value::from(reference.0)),
            Origin::Field(call, path) => {
                let field = write_field(alloc, *call, path)?;
                write_only(alloc, "field", field)
            }
        }
    }
}

impl Part for Counts {
    ghost shown = { counts_data };

    ghost fits = { FitsCounts };

    fn write(&self, alloc: Global) -> Result<Value, AllocError> {
        let mut members = Map::new(alloc);
        put_part(&mut members, alloc, "exports", &self.exports)?;
        add_part(members, alloc, "imports", &self.imports)
    }
}
