//! The refusing of questions for which a vat has no room.
ghost use Rattle.std.specs.Prelude.{◌≡◌, Ok};
ghost use Rattle.std.specs.FinMap as map;
ghost use Rattle.rpc_msg.specs.declared.message.Message.TheVariants as message;
ghost use Rattle.rpc_msg.specs.declared.message.PlainMessage.TheVariants as plain;
ghost use Rattle.rpc_codec.specs.Envelopes.{profile, seen_envelope, tail_call};
ghost use Rattle.peer_overload.specs.Overloading.{Comes, admitted, asks, cleared_resolve, cleared_return, comes, comes_message, comes_plain, finishes, fresh, goes_to_refused, is_refused, refuses, seen_admission, takes, told};

use crate::admission::Admission;
use crate::clearance::{clear_call, clear_resolve, clear_return};
use crate::errors::{OverloadError, OverloadFault};
use crate::refusals::{Refusal, Refusals};
use crate::replies::return_to;
use rpc_codec::{Envelope, TakenFromOther};
use rpc_msg::{Call, Finish, Message, PlainMessage, QuestionId, Resolve, Return, Target};
use std::alloc::Global;
use std::marker::Model;

// The most refused questions that may be open.
const REFUSED_LIMIT: usize = 65536;

/// What stands between a peer and a vat that may have no room for its questions: it has seen each envelope that came, once and
/// in their order, before all else.
#[derive(Drop)]
pub struct Overload {
    alloc: Global,
    refused: Refusals,
}

impl Model for Overload {
    ghost use Rattle.peer_overload.specs.Overloading.{Overloading};
    ghost use Rattle.peer_overload.specs.contracts.refusals.Refusals as refusals;

    ghost Value = { Overloading };

    ghost coded = { refusals.the_row.coded };

    ghost view = { λ a. a.refused };
}

impl Overload {
    /// Nothing was refused. Takes no memory.
    pub fn new(alloc: Global) -> Overload
        ensures { result ≡ fresh }
    {
        Overload {
            alloc,
            refused: Refusals::new(alloc),
        }
    }

    /// What becomes of what came, if the vat has as many answers as it may have (`is_full`), or not. A `Fault` if the
    /// connection can't go on, and `Memory`, leave all as it was.
    pub fn inbound(&mut self, came: Envelope, is_full: bool) -> Result<Admission, OverloadError>
        ensures { Comes self.old (comes self.old is_full (seen_envelope came)) result self.new }
    {
        if !is_full && self.refused.len() == 0 {
            return Ok(Admission::Admitted(came));
        }
        self.judge(came, is_full)
    }

    fn judge(&mut self, came: Envelope, is_full: bool) -> Result<Admission, OverloadError>
        ensures { Comes self.old (comes self.old is_full (seen_envelope came)) result self.new }
    {
        match came {
            Envelope::Message(message) => self.judge_message(message, is_full),
            Envelope::TailCall(call) => self.ask_tail_call(call, is_full),
            Envelope::TakenFromOther(taken) => self.take(taken),
            _ => Ok(Admission::Admitted(came)),
        }
    }

    fn judge_message(&mut self, message: Message, is_full: bool) -> Result<Admission, OverloadError>
        ensures { Comes self.old (comes_message self.old is_full message) result self.new }
    {
        match message {
            Message::Plain(message) => self.judge_plain(message, is_full),
            Message::Unimplemented(_) => Ok(Admission::Admitted(Envelope::Message(message))),
        }
    }

    fn judge_plain(
        &mut self,
        message: PlainMessage,
        is_full: bool,
    ) -> Result<Admission, OverloadError>
        ensures { Comes self.old (comes_plain self.old is_full message) result self.new }
    {
        match message {
            PlainMessage::Bootstrap(question) => {
                let came = plain(PlainMessage::Bootstrap(question));
                self.ask(question, Refusal::Plain, is_full, came)
            }
            PlainMessage::Call(call) => self.ask_call(call, is_full),
            PlainMessage::Finish(finish) => Ok(self.finish(finish)),
            PlainMessage::Return(said) => Ok(self.pass_return(said)),
            PlainMessage::Resolve(resolve) => Ok(self.pass_resolve(resolve)),
            _ => Ok(Admission::Admitted(plain(message))),
        }
    }

    // A Call comes.
    fn ask_call(&mut self, call: Call, is_full: bool) -> Result<Admission, OverloadError>
        ensures { Comes self.old (comes_plain self.old is_full (plain.Call call)) result self.new }
    {
        let question = call.question;
        let is_over = is_full || self.goes_to_refused(call.target);
        let call = clear_call(&self.refused, call);
        self.ask(
            question,
            Refusal::Plain,
            is_over,
            plain(PlainMessage::Call(call)),
        )
    }

    // A tail call comes.
    fn ask_tail_call(&mut self, call: Call, is_full: bool) -> Result<Admission, OverloadError>
        ensures { Comes self.old (comes self.old is_full (tail_call call)) result self.new }
    {
        let question = call.question;
        let is_over = is_full || self.goes_to_refused(call.target);
        let call = clear_call(&self.refused, call);
        self.ask(question, Refusal::Tail, is_over, Envelope::TailCall(call))
    }

    fn goes_to_refused(&self, target: Target) -> bool
        ensures { result ≡ goes_to_refused self.now target }
    {
        match target {
            Target::ImportedCap(_) => false,
            Target::PromisedAnswer(question, _) => self.refused.has(question),
        }
    }

    // A question comes, as this envelope.
    fn ask(
        &mut self,
        question: QuestionId,
        refusal: Refusal,
        is_over: bool,
        came: Envelope,
    ) -> Result<Admission, OverloadError>
        ensures { Comes self.old (asks self.old question refusal is_over (seen_envelope came)) result self.new }
    {
        if self.refused.has(question) {
            return Err(OverloadError::Fault(OverloadFault::QuestionInUse));
        }
        if is_over {
            return self.refuse(question, refusal);
        }
        Ok(Admission::Admitted(came))
    }

    fn refuse(&mut self, question: QuestionId, refusal: Refusal) -> Result<Admission, OverloadError>
        ensures { Comes self.old (refuses self.old question refusal) result self.new }
    {
        if self.refused.len() >= REFUSED_LIMIT {
            return Err(OverloadError::Fault(OverloadFault::TooManyRefused));
        }
        self.refused.put(question, refusal)?;
        Ok(told(question, refusal))
    }

    // A Finish comes.
    fn finish(&mut self, finish: Finish) -> Admission
        ensures { finishes self.old finish (is_refused self.old finish.question) ≡ record { state = self.new; outcome = seen_admission result } }
    {
        if !self.refused.has(finish.question) {
            return Admission::Admitted(plain(PlainMessage::Finish(finish)));
        }
        self.refused.remove(finish.question);
        Admission::Nothing
    }

    // A Return comes that takes the results of a question.
    fn take(&mut self, taken: TakenFromOther) -> Result<Admission, OverloadError>
        ensures { Comes self.old (Ok (takes self.old taken (map.get self.old taken.question.0))) result self.new }
    {
        match self.refused.get(taken.question) {
            Some(Refusal::Tail) => {
                let said = return_to(self.alloc, taken)?;
                self.refused.set(taken.question, Refusal::TakenTail);
                Ok(Admission::Admitted(plain(said)))
            }
            _ => Ok(Admission::Admitted(Envelope::TakenFromOther(taken))),
        }
    }

    // A Return comes.
    fn pass_return(&self, said: Return) -> Admission
        ensures { seen_admission result ≡ admitted (profile (message.Plain (plain.Return (cleared_return self.now said)))) }
    {
        let said = clear_return(&self.refused, said);
        Admission::Admitted(plain(PlainMessage::Return(said)))
    }

    // A Resolve comes.
    fn pass_resolve(&self, resolve: Resolve) -> Admission
        ensures { seen_admission result ≡ admitted (profile (message.Plain (plain.Resolve (cleared_resolve self.now resolve)))) }
    {
        let resolve = clear_resolve(&self.refused, resolve);
        Admission::Admitted(plain(PlainMessage::Resolve(resolve)))
    }
}

// What the peer is told of what it asked.
fn told(question: QuestionId, refusal: Refusal) -> Admission
    ensures { seen_admission result ≡ told question refusal }
{
    match refusal {
        Refusal::Plain => Admission::Refused(question),
        Refusal::Tail | Refusal::TakenTail => Admission::RefusedTail(question),
    }
}

fn plain(said: PlainMessage) -> Envelope
    ensures { seen_envelope result ≡ profile (message.Plain said) }
{
    Envelope::Message(Message::Plain(said))
}
