//! The checks of a message. Each reads what its sender said before, and what the other end said.
ghost use Rattle.std.specs.Prelude.{◌≡◌, [], OnOk, IfOk, option_copied};
ghost use Rattle.capn_wire.specs.Payloads.{tree_of};
ghost use Rattle.capn_wire.specs.Walking.{capability_at};
ghost use Rattle.look_pieces.specs.Pieces.{other_side};
ghost use Rattle.look_books.specs.Acts.{asks_of, seen, does};
ghost use Rattle.look_books.specs.Ends.{kept_of, question_at, embargo_at, end_of};
ghost use Rattle.look_books.specs.Checks.{Finds, IsVerdict, breaks, wonders, judged, judged_question, judged_finish, gives_of, named_resolution, embargo_by, not_back, behind_abort, unknown_kind, not_resolvable, judged_resolve, judged_release, judged_embargo, leads_back, returned_leads, is_capability, no_embargo, never_sent, judged_back};

use crate::act::{Act, Answering, Asked, Asking, Back, Kind, Resolving, act_of};
use crate::answering::{judge_flag, judge_return, unanswered};
use crate::asking::{in_use, no_target, no_target_of, not_finishable};
use crate::books::Books;
use crate::breach::{Breach, GivenBack, Unresolved, Use};
use crate::end::End;
use crate::naming::{judge_descriptor, judge_descriptors};
use crate::oddity::Oddity;
use crate::question::{Question, Results};
use crate::returning::{all_given, too_many, too_many_of};
use look_pieces::Side;
use rpc_codec::{Envelope, Heading};
use rpc_msg::{
    CapAt, Descriptor, EmbargoId, ExportId, Items, Memory, Path, Payload, QuestionId, Target,
};
use std::alloc::Global;

/// What is to be said of a message.
#[derive(Drop)]
pub struct Found {
    /// What breaks the protocol.
    pub breaches: Vec<Breach>,
    /// What is odd, and breaks nothing.
    pub oddities: Vec<Oddity>,
}

impl Found {
    fn new(alloc: Global) -> Found
        ensures { (result.breaches.items ≡ []) × (result.oddities.items ≡ []) }
    {
        Found {
            breaches: Vec::new(alloc),
            oddities: Vec::new(alloc),
        }
    }

    pub(crate) fn add(&mut self, breach: Option<Breach>) -> Result<(), Memory>
        ensures { OnOk result (Finds self.old self.new (breaks breach)) }
    {
        if let Some(breach) = breach {
            self.breaches.push(breach)?;
        }
        Ok(())
    }

    pub(crate) fn wonder(&mut self, oddity: Option<Oddity>) -> Result<(), Memory>
        ensures { OnOk result (Finds self.old self.new (wonders oddity)) }
    {
        if let Some(oddity) = oddity {
            self.oddities.push(oddity)?;
        }
        Ok(())
    }
}

impl Books {
    /// What is to be said of a message of an end, which comes next. Nothing was taken of it yet. `Memory` where a growth was
    /// refused.
    pub fn judge(&self, side: Side, envelope: &Envelope, heading: Heading) -> Result<Found, Memory>
        ensures { IfOk result (IsVerdict (kept_of (end_of self.now side)) (kept_of (end_of self.now (other_side side))) (does envelope.now heading)) }
    {
        let own = self.end(side);
        let heard = self.end(side.other());
        let mut found = Found::new(self.alloc);
        found.add(behind_abort(own.down))?;
        // the compiler's proof for a function that owns an `Act` knows the types of its parts only where the function names them
        let _parts: Option<(Asking<'_>, Answering<'_>, Resolving<'_>, Back<'_>)> = None;
        let act = act_of(envelope, heading);
        judge_act(self.alloc, own, heard, &act, &mut found)?;
        Ok(found)
    }
}

/// Nothing comes behind an Abort.
fn behind_abort(down: Option<u64>) -> Option<Breach>
    ensures { result ≡ behind_abort down }
{
    Some(Breach::BehindAbort(down?))
}

fn judge_act(
    alloc: Global,
    own: &End,
    heard: &End,
    act: &Act<'_>,
    found: &mut Found,
) -> Result<(), Memory>
    ensures { OnOk result (Finds found.old found.new (judged (kept_of own.now) (kept_of heard.now) (seen act.now))) }
{
    match act {
        Act::Asks(asking) => judge_question(own, heard, asking, found),
        Act::Answers(answer) => judge_return(alloc, own, heard, answer, found),
        Act::Finishes(question, flag) => judge_finish(alloc, own, heard, *question, *flag, found),
        Act::Resolves(resolving) => judge_resolve(own, heard, resolving, found),
        Act::Releases(export, count) => judge_release(heard, *export, *count, found),
        Act::Disembargoes(target, embargo) => { judge_embargo(own, heard, target, *embargo, found) }
        Act::Loops(embargo) => found.add(no_embargo(heard, *embargo)),
        Act::Aborts => Ok(()),
        Act::SendsBack(back) => judge_back(alloc, heard, back, found),
        Act::Other(kind) => found.wonder(Some(Oddity::UnknownKind(*kind))),
    }
}

fn unknown_kind(asked: Asked) -> Option<Oddity>
    ensures { result ≡ unknown_kind asked }
{
    match asked {
        Asked::Unknown(number) => Some(Oddity::UnknownKind(Kind::of_number(number))),
        _ => None,
    }
}

fn judge_question(
    own: &End,
    heard: &End,
    asking: &Asking<'_>,
    found: &mut Found,
) -> Result<(), Memory>
    ensures { OnOk result (Finds found.old found.new (judged_question (kept_of own.now) (kept_of heard.now) (asks_of asking.now))) }
{
    found.add(in_use(own, asking.question))?;
    found.add(no_target_of(own, heard, asking))?;
    found.wonder(unknown_kind(asking.asked))?;
    judge_descriptors(own, heard, asking.descriptors, found)?;
    Ok(())
}

fn judge_finish(
    alloc: Global,
    own: &End,
    heard: &End,
    question: QuestionId,
    flag: bool,
    found: &mut Found,
) -> Result<(), Memory>
    ensures { OnOk result (Finds found.old found.new (judged_finish (kept_of own.now) (kept_of heard.now) question flag)) }
{
    found.add(not_finishable(own, question))?;
    judge_flag(alloc, heard, flag, gives_of(own, question), found)?;
    Ok(())
}

/// What the Return gave of a question that is open and not finished.
fn gives_of(own: &End, question: QuestionId) -> &[ExportId]
    ensures { result.now ≡ gives_of (question_at (kept_of own.now) question) }
{
    let Some(mine) = own.questions.get(&question.0) else {
        return &[];
    };
    match (&mine.returned, mine.finished) {
        (Some(returned), None) => returned.gives.as_slice(),
        _ => &[],
    }
}

fn not_resolvable(own: &End, promise: ExportId) -> Option<Breach>
    ensures { result ≡ not_resolvable (kept_of own.now) promise }
{
    if own.owed.contains(&promise.0) {
        return None;
    }
    let why = match own.exports.get(&promise.0) {
        None => Unresolved::NeverPromised,
        Some(export) => match export.resolved {
            Some(number) => Unresolved::Resolved(number),
            None if export.promise => Unresolved::NoPromise,
            None => Unresolved::NeverPromised,
        },
    };
    Some(Breach::ResolvesNone(promise, why))
}

fn judge_resolution(
    own: &End,
    heard: &End,
    resolving: &Resolving<'_>,
    found: &mut Found,
) -> Result<(), Memory>
    ensures { OnOk result (Finds found.old found.new (named_resolution (kept_of own.now) (kept_of heard.now) (option_copied resolving.now.descriptor))) }
{
    match resolving.descriptor {
        Some(descriptor) => judge_descriptor(own, heard, Use::Resolution, descriptor, found),
        None => Ok(()),
    }
}

fn judge_resolve(
    own: &End,
    heard: &End,
    resolving: &Resolving<'_>,
    found: &mut Found,
) -> Result<(), Memory>
    ensures { OnOk result (Finds found.old found.new (judged_resolve (kept_of own.now) (kept_of heard.now) resolving.now.promise (option_copied resolving.now.descriptor))) }
{
    judge_resolution(own, heard, resolving, found)?;
    found.add(not_resolvable(own, resolving.promise))?;
    Ok(())
}

fn judge_release(heard: &End, export: ExportId, count: u32, found: &mut Found) -> Result<(), Memory>
    ensures { OnOk result (Finds found.old found.new (judged_release (kept_of heard.now) export count)) }
{
    if count == 0 {
        return found.wonder(Some(Oddity::ReleasesNone(export)));
    }
    found.add(too_many(heard, GivenBack::Itself, export, u64::from(count)))
}

fn judge_embargo(
    own: &End,
    heard: &End,
    target: &Target,
    embargo: EmbargoId,
    found: &mut Found,
) -> Result<(), Memory>
    ensures { OnOk result (Finds found.old found.new (judged_embargo (kept_of own.now) (kept_of heard.now) target.now embargo)) }
{
    let lost = no_target(own, heard, target);
    let is_lost = lost.is_some();
    found.add(lost)?;
    found.add(embargo_of(own, heard, target, embargo, is_lost))?;
    Ok(())
}

/// One embargo of an id is under way at a time, and its target leads back.
fn embargo_of(
    own: &End,
    heard: &End,
    target: &Target,
    embargo: EmbargoId,
    is_lost: bool,
) -> Option<Breach>
    ensures { result ≡ embargo_by is_lost (leads_back (kept_of own.now) (kept_of heard.now) target.now) embargo (embargo_at (kept_of own.now) embargo) }
{
    if let Some(number) = own.embargoes.get(&embargo.0) {
        return Some(Breach::EmbargoInUse(embargo, *number));
    }
    if is_lost || leads_back(own, heard, target) {
        return None;
    }
    Some(Breach::LeadsElsewhere)
}

/// Whether something that was said lets an end know that the target leads back to it.
fn leads_back(own: &End, heard: &End, target: &Target) -> bool
    ensures { result ≡ leads_back (kept_of own.now) (kept_of heard.now) target.now }
{
    match target {
        Target::ImportedCap(export) => heard.led.contains(&export.0),
        Target::PromisedAnswer(question, path) => match own.questions.get(&question.0) {
            Some(mine) => answer_leads(mine, path),
            None => false,
        },
    }
}

fn answer_leads(mine: &Question, path: &Path) -> bool
    ensures { result ≡ returned_leads mine.now.returned path.now }
{
    let Some(returned) = &mine.returned else {
        return false;
    };
    match &returned.results {
        Results::None => false,
        Results::Taken => true,
        Results::Own(payload, descriptors) => is_capability(payload, descriptors, path),
    }
}

fn is_capability(payload: &Payload, descriptors: &Items<Descriptor>, path: &Path) -> bool
    ensures { result ≡ is_capability (capability_at (tree_of payload.now) path.now) descriptors.now }
{
    let CapAt::Cap(index) = payload.cap_at(path.as_slice()) else {
        return false;
    };
    match descriptors.as_slice().get(index as usize) {
        None => false,
        Some(Descriptor::None) => false,
        Some(_) => true,
    }
}

fn no_embargo(heard: &End, embargo: EmbargoId) -> Option<Breach>
    ensures { result ≡ no_embargo (kept_of heard.now) embargo }
{
    if heard.embargoes.contains_key(&embargo.0) {
        return None;
    }
    Some(Breach::NoEmbargo(embargo))
}

fn never_sent(heard: &End, kind: Kind) -> Option<Breach>
    ensures { result ≡ never_sent (kept_of heard.now) kind }
{
    if heard.kinds.of(kind) > 0 {
        return None;
    }
    Some(Breach::NeverSent(kind))
}

/// What comes back is a question that is not answered so far, or a message that was sent.
fn not_back(heard: &End, back: &Back<'_>) -> Option<Breach>
    ensures { result ≡ not_back (kept_of heard.now) back.now.kind back.now.question }
{
    match back.question {
        Some(question) => match unanswered(heard, question) {
            Ok(_) => None,
            Err(breach) => Some(breach),
        },
        None => never_sent(heard, back.kind),
    }
}

/// What comes back: a question that is not answered so far, or a message that was sent.
fn judge_back(alloc: Global, heard: &End, back: &Back<'_>, found: &mut Found) -> Result<(), Memory>
    ensures { OnOk result (Finds found.old found.new (judged_back (kept_of heard.now) back.now.kind back.now.question back.now.descriptors.now)) }
{
    found.add(not_back(heard, back))?;
    let given = all_given(alloc, back.descriptors)?;
    too_many_of(alloc, heard, GivenBack::Itself, given.as_slice(), found)?;
    Ok(())
}
