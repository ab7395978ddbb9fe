//! A message was said. What can't be done, because it breaks the protocol, is left out.
ghost use Rattle.std.specs.Prelude.{◌≡◌, OnOk, IfOk, option_copied};
ghost use Rattle.look_pieces.specs.Pieces.{other_side};
ghost use Rattle.look_books.specs.Acts.{asks_of, answers_of, seen, does, kind_of_act};
ghost use Rattle.look_books.specs.Ends.{kept_of, end_of};
ghost use Rattle.look_books.specs.After.{Are, after, after_but_answer, returns_of, said_in, ask, answer, answer_by, answer_to, finish, finish_by, resolve, resolve_to, lead_if, leads, begin_embargo, end_embargo, come_back, fail_if, fail_by, results_in, body_results, descriptors_in, doing, give_back, more};

use crate::act::{Act, Answering, Asking, Back, Resolving, act_of};
use crate::books::{Books, Moment};
use crate::end::End;
use crate::export::{Given, Origin};
use crate::question::{Finished, Question, Results, Returned};
use crate::returning::all_given;
use crate::settle::{asked_of, flagged, given_in, with_finish, with_return};
use look_pieces::Side;
use rpc_codec::{Envelope, Heading};
use rpc_msg::{
    Descriptor, EmbargoId, ExportId, Items, Memory, Message, PlainMessage, QuestionId, ReturnBody,
};
use std::alloc::Global;

/// What a Return says but for its results.
#[derive(Clone, Copy, Debug, PartialEq, Eq, Drop)]
pub(crate) struct Said {
    pub(crate) question: QuestionId,
    pub(crate) flag: bool,
    /// No Finish is owed.
    pub(crate) waived: bool,
}

impl Books {
    /// A message of an end was said, which is of that moment. After `Memory` the books are of no use.
    pub fn take(
        &mut self,
        side: Side,
        moment: Moment,
        envelope: Envelope,
        heading: Heading,
    ) -> Result<(), Memory>
        ensures { OnOk result (Are (after moment (does envelope heading) (results_in envelope) (kept_of (end_of self.old side)) (kept_of (end_of self.old (other_side side)))) (kept_of (end_of self.new side)) (kept_of (end_of self.new (other_side side)))) }
    {
        match side {
            Side::Client => take_said(
                self.alloc,
                &mut self.client,
                &mut self.server,
                moment,
                envelope,
                heading,
            ),
            Side::Server => take_said(
                self.alloc,
                &mut self.server,
                &mut self.client,
                moment,
                envelope,
                heading,
            ),
        }
    }

    /// A frame of an end was no message.
    pub fn take_none(&mut self, side: Side, size: u64)
        ensures { Are (kept_of (end_of self.old side), kept_of (end_of self.old (other_side side))) (kept_of (end_of self.new side)) (kept_of (end_of self.new (other_side side))) }
    {
        match side {
            Side::Client => self.client.bytes = self.client.bytes.saturating_add(size),
            Side::Server => self.server.bytes = self.server.bytes.saturating_add(size),
        }
    }
}

fn take_said(
    alloc: Global,
    own: &mut End,
    heard: &mut End,
    moment: Moment,
    envelope: Envelope,
    heading: Heading,
) -> Result<(), Memory>
    ensures { OnOk result (Are (after moment (does envelope heading) (results_in envelope) (kept_of own.old) (kept_of heard.old)) (kept_of own.new) (kept_of heard.new)) }
{
    own.bytes = own.bytes.saturating_add(moment.size);
    match take_envelope(alloc, own, heard, moment, &envelope, heading)? {
        Some(said) => answer_question(alloc, own, heard, moment, said, results_of(envelope)),
        None => Ok(()),
    }
}

/// All but an answer to a question, which is given.
fn take_envelope(
    alloc: Global,
    own: &mut End,
    heard: &mut End,
    moment: Moment,
    envelope: &Envelope,
    heading: Heading,
) -> Result<Option<Said>, Memory>
    ensures said { IfOk result (λ said. said ≡ returns_of (does envelope.now heading)) }
    ensures kept { OnOk result (Are (after_but_answer moment (does envelope.now heading) (more (kind_of_act (does envelope.now heading)) (kept_of own.old)) (kept_of heard.old)) (kept_of own.new) (kept_of heard.new)) }
{
    // the compiler's proof for a function that owns an `Act` knows the types of its parts only where the function names them
    let _parts: Option<(Asking<'_>, Answering<'_>, Resolving<'_>, Back<'_>)> = None;
    let act = act_of(envelope, heading);
    own.count_message(act.kind())?;
    take_act(alloc, own, heard, moment, &act)?;
    Ok(returns_of(&act))
}

/// What a Return says but for its results.
fn returns_of(act: &Act<'_>) -> Option<Said>
    ensures { result ≡ returns_of (seen act.now) }
{
    match act {
        Act::Answers(answer) => Some(Said {
            question: answer.question,
            flag: answer.flag,
            waived: answer.waived,
        }),
        _ => None,
    }
}

fn take_act(
    alloc: Global,
    own: &mut End,
    heard: &mut End,
    moment: Moment,
    act: &Act<'_>,
) -> Result<(), Memory>
    ensures { OnOk result (Are (after_but_answer moment (seen act.now) (kept_of own.old) (kept_of heard.old)) (kept_of own.new) (kept_of heard.new)) }
{
    match act {
        Act::Asks(asking) => ask(alloc, own, moment, asking),
        Act::Answers(_) => Ok(()),
        Act::Finishes(question, flag) => finish(own, heard, moment, *question, *flag),
        Act::Resolves(resolving) => resolve(own, moment, resolving),
        Act::Releases(export, count) => heard.give_back(*export, u64::from(*count), moment.number),
        Act::Disembargoes(_, embargo) => own.begin_embargo(*embargo, moment.number),
        Act::Loops(embargo) => heard.end_embargo(*embargo),
        Act::Aborts => own.fall(moment.number),
        Act::SendsBack(back) => come_back(alloc, heard, moment, back),
        Act::Other(_) => Ok(()),
    }
}

impl End {
    ghost use Rattle.std.specs.Prelude.{◌≡◌, OnOk, Some};
    ghost use Rattle.look_books.specs.Ends.{kept_of};
    ghost use Rattle.look_books.specs.After.{begin_embargo, end_embargo, lead_if};

    /// An embargo begins, unless one of that id is under way.
    fn begin_embargo(&mut self, embargo: EmbargoId, number: u64) -> Result<(), Memory>
        ensures { OnOk result (kept_of self.new ≡ begin_embargo embargo number (kept_of self.old)) }
    {
        if self.embargoes.get(&embargo.0).is_some() {
            return Ok(());
        }
        self.embargoes.insert(embargo.0, number)?;
        Ok(())
    }

    fn end_embargo(&mut self, embargo: EmbargoId) -> Result<(), Memory>
        ensures { OnOk result (kept_of self.new ≡ end_embargo embargo (kept_of self.old)) }
    {
        self.embargoes.remove(&embargo.0);
        Ok(())
    }

    fn fall(&mut self, number: u64) -> Result<(), Memory>
        ensures { OnOk result (kept_of self.new ≡ record (kept_of self.old) { down = Some number }) }
    {
        self.down = Some(number);
        Ok(())
    }

    /// A promise was led to a capability.
    fn lead_if(&mut self, leads: bool, promise: ExportId) -> Result<(), Memory>
        ensures { OnOk result (kept_of self.new ≡ lead_if leads promise (kept_of self.old)) }
    {
        if !leads {
            return Ok(());
        }
        self.led.insert(promise.0)?;
        Ok(())
    }
}

/// A question is asked. One under the id of an open question is not kept; what it gives counts.
fn ask(alloc: Global, own: &mut End, moment: Moment, asking: &Asking<'_>) -> Result<(), Memory>
    ensures { OnOk result (kept_of own.new ≡ ask moment (asks_of asking.now) (kept_of own.old)) }
{
    let is_unused = own.is_unused(asking.question);
    let origin = Origin::Params(asking.asked);
    own.give_all(asking.descriptors, moment.number, origin)?;
    if !is_unused {
        return Ok(());
    }
    let question = Question {
        number: moment.number,
        time: moment.time,
        asked: asking.asked,
        tail: asking.tail,
        waived: asking.waived,
        gives: all_given(alloc, asking.descriptors)?,
        returned: None,
        finished: None,
    };
    own.put_question(asking.question, question)
}

/// The results of a Return.
fn results_of(envelope: Envelope) -> Results
    ensures { result ≡ results_in envelope }
{
    match envelope {
        Envelope::Message(Message::Plain(PlainMessage::Return(said))) => results_of_body(said.body),
        Envelope::TakenFromOther(_said) => Results::Taken,
        _ => Results::None,
    }
}

fn results_of_body(body: ReturnBody) -> Results
    ensures { result ≡ body_results body }
{
    match body {
        ReturnBody::Results(payload, descriptors) => Results::Own(payload, descriptors),
        _ => Results::None,
    }
}

/// What the capabilities of results are.
fn descriptors_in(results: &Results) -> &[Descriptor]
    ensures { result.now ≡ descriptors_in results.now }
{
    match results {
        Results::Own(_, descriptors) => descriptors.as_slice(),
        _ => &[],
    }
}

/// A Return with those results.
fn answer_question(
    alloc: Global,
    own: &mut End,
    heard: &mut End,
    moment: Moment,
    said: Said,
    results: Results,
) -> Result<(), Memory>
    ensures { OnOk result (Are (answer moment said results (kept_of own.old) (kept_of heard.old)) (kept_of own.new) (kept_of heard.new)) }
{
    let his = heard.take_unanswered(said.question);
    let origin = Origin::Results(asked_of(&his));
    own.give_all(descriptors_in(&results), moment.number, origin)?;
    match his {
        Some(his) => answer(alloc, own, heard, moment, said, his, results),
        None => Ok(()),
    }
}

/// The Return of that question: what it gives is given back at once if the Finish came with its flag.
fn answer(
    alloc: Global,
    own: &mut End,
    heard: &mut End,
    moment: Moment,
    said: Said,
    his: Question,
    results: Results,
) -> Result<(), Memory>
    ensures { OnOk result (Are (answer_to (Some his) moment said results (kept_of own.old) (kept_of heard.old)) (kept_of own.new) (kept_of heard.new)) }
{
    let gives = all_given(alloc, descriptors_in(&results))?;
    own.give_back_if(flagged(&his), gives.as_slice(), moment.number)?;
    heard.give_back_if(said.flag, his.gives.as_slice(), moment.number)?;
    let returned = Returned {
        number: moment.number,
        waived: said.waived,
        gives,
        results,
    };
    heard.settle(said.question, with_return(his, returned))
}

fn finish(
    own: &mut End,
    heard: &mut End,
    moment: Moment,
    question: QuestionId,
    flag: bool,
) -> Result<(), Memory>
    ensures { OnOk result (Are (finish moment question flag (kept_of own.old) (kept_of heard.old)) (kept_of own.new) (kept_of heard.new)) }
{
    let Some(mine) = own.take_unfinished(question) else {
        return Ok(());
    };
    heard.give_back_if(flag, given_in(&mine), moment.number)?;
    let finished = Finished {
        number: moment.number,
        flag,
    };
    own.settle(question, with_finish(mine, finished))
}

fn resolve(own: &mut End, moment: Moment, resolving: &Resolving<'_>) -> Result<(), Memory>
    ensures { OnOk result (kept_of own.new ≡ resolve moment resolving.now.promise (option_copied resolving.now.descriptor) (kept_of own.old)) }
{
    own.note_resolve(resolving.promise, moment.number)?;
    match resolving.descriptor {
        Some(descriptor) => resolve_to(own, resolving.promise, descriptor, moment.number),
        None => Ok(()),
    }
}

fn leads(descriptor: &Descriptor) -> bool
    ensures { result ≡ leads descriptor.now }
{
    match descriptor {
        Descriptor::None => false,
        _ => true,
    }
}

/// What a promise is resolved to.
fn resolve_to(
    own: &mut End,
    promise: ExportId,
    descriptor: &Descriptor,
    number: u64,
) -> Result<(), Memory>
    ensures { OnOk result (kept_of own.new ≡ resolve_to (Some descriptor.now) promise number (kept_of own.old)) }
{
    own.lead_if(leads(descriptor), promise)?;
    let given = Given {
        number,
        index: 0,
        origin: Origin::Resolution(promise),
    };
    own.give_one(descriptor, given)
}

fn come_back(alloc: Global, heard: &mut End, moment: Moment, back: &Back<'_>) -> Result<(), Memory>
    ensures { OnOk result (kept_of heard.new ≡ come_back moment back.now.kind back.now.question back.now.descriptors.now (kept_of heard.old)) }
{
    heard.discount_message(back.kind)?;
    let given = all_given(alloc, back.descriptors)?;
    heard.give_back_all(given.as_slice(), moment.number)?;
    match back.question {
        Some(question) => fail(alloc, heard, moment, question),
        None => Ok(()),
    }
}

/// A question that came back has failed, and needs no Finish.
fn fail(alloc: Global, heard: &mut End, moment: Moment, question: QuestionId) -> Result<(), Memory>
    ensures { OnOk result (kept_of heard.new ≡ fail_if (Some question) moment (kept_of heard.old)) }
{
    let Some(his) = heard.take_unanswered(question) else {
        return Ok(());
    };
    heard.give_back_all(his.gives.as_slice(), moment.number)?;
    let returned = Returned {
        number: moment.number,
        waived: true,
        gives: Items::new(alloc),
        results: Results::None,
    };
    heard.settle(question, with_return(his, returned))
}
