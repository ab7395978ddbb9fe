//! The adapter.
ghost use Rattle.std.specs.Prelude.{◌≡◌, None, Some, IfOk};
ghost use Rattle.std.specs.FinMap as map;
ghost use Rattle.rpc_codec.specs.Envelopes.{seen_envelope, tail_call};
ghost use Rattle.peer_tail_calls.specs.Adapting.{Adapting, Comes, Goes, comes, comes_message, comes_plain, finish_of, finishes, fresh, gives, goes, goes_back, goes_plain, return_to, seen_inbound, seen_outbound, taker_of, takes, told};
ghost use Rattle.peer_tail_calls.specs.Nulling.{IsBodyLaidOut, IsLaidOut, IsPlainLaidOut};
ghost use Rattle.peer_tail_calls.specs.declared.heard.Heard.TheVariants as heard;
ghost use Rattle.peer_tail_calls.specs.declared.heard.Said.TheVariants as said;
ghost use Rattle.peer_tail_calls.specs.declared.tails.Tail.TheVariants.{Asked};

use crate::errors::{AdapterError, AdapterFault};
use crate::heard::{Heard, Inbound, Outbound, Said};
use crate::nulls::{null_call, null_return, try_body};
use crate::outcomes::turn;
use crate::tails::{Tail, Tails, Taker};
use rpc_codec::{Envelope, SentElsewhere, TakenFromOther};
use rpc_msg::{
    AnswerId, Call, Finish, Memory, Message, PlainMessage, QuestionId, Return, ReturnBody,
};
use std::alloc::Global;
use std::marker::Model;

/// What stands between a peer of another make and a vat: it has seen each envelope that came and each message that the vat
/// sent, once and in their order.
#[derive(Drop)]
pub struct Adapter {
    alloc: Global,
    tails: Tails,
}

impl Model for Adapter {
    ghost use Rattle.peer_tail_calls.specs.Adapting.{Adapting, adapting_code};

    ghost Value = { Adapting };

    ghost coded = { adapting_code };

    ghost view = { λ a. record { tails = a.tails } };
}

impl Adapter {
    /// Nothing has come or gone. Takes no memory.
    pub fn new(alloc: Global) -> Adapter
        ensures { result ≡ fresh }
    {
        Adapter {
            alloc,
            tails: Tails::new(alloc),
        }
    }

    /// What the vat is to hear of what came, before anything else comes or goes. A `Fault` if the connection can't go on,
    /// and `Memory`, leave the adapter as it was.
    pub fn inbound(&mut self, came: Envelope) -> Result<Inbound, AdapterError>
        ensures { Comes self.old (comes self.old (seen_envelope came)) result self.new }
    {
        match came {
            Envelope::Message(message) => Ok(self.hear(message)),
            Envelope::TailCall(call) => self.begin(call),
            Envelope::TakenFromOther(taken) => self.take(taken),
            Envelope::SentElsewhere(_) => Err(AdapterError::Fault(AdapterFault::NoTailCall)),
            Envelope::Unknown(unknown) => Ok(Inbound {
                heard: Heard::One(Message::Plain(PlainMessage::Other(unknown.number))),
                unknown: Some(unknown.original),
            }),
        }
    }

    fn hear(&mut self, message: Message) -> Inbound
        ensures { comes_message self.old message ≡ seen_inbound self.new result }
    {
        match message {
            Message::Plain(message) => self.hear_plain(message),
            Message::Unimplemented(_) => only(Heard::One(message)),
        }
    }

    fn hear_plain(&mut self, message: PlainMessage) -> Inbound
        ensures { comes_plain self.old message ≡ seen_inbound self.new result }
    {
        match message {
            PlainMessage::Finish(finish) => self.finish(finish),
            _ => only(Heard::One(Message::Plain(message))),
        }
    }

    // A tail call comes.
    fn begin(&mut self, call: Call) -> Result<Inbound, AdapterError>
        ensures { Comes self.old (comes self.old (tail_call call)) result self.new }
    {
        self.tails.put(call.question, Tail::Asked)?;
        Ok(only(Heard::One(Message::Plain(PlainMessage::Call(call)))))
    }

    // A Finish comes.
    fn finish(&mut self, finish: Finish) -> Inbound
        ensures { finishes self.old finish (map.get self.old.tails finish.question.0) ≡ seen_inbound self.new result }
    {
        let id = finish.question;
        match self.tails.get(id) {
            None => only(Heard::One(Message::Plain(PlainMessage::Finish(finish)))),
            Some(Tail::Asked) => {
                self.tails.set(id, Tail::Finished);
                only(Heard::One(finish_of(id)))
            }
            Some(Tail::Taken(taker)) => {
                let taker = *taker;
                self.tails.set(id, Tail::Finishing(taker));
                only(Heard::Nothing)
            }
            Some(Tail::Finishing(_)) => {
                self.tails.remove(id);
                only(Heard::Two(finish_of(id), finish_of(id)))
            }
            Some(Tail::Finished) => only(Heard::One(finish_of(id))),
            Some(Tail::Kept(_)) | Some(Tail::Told) => {
                self.tails.remove(id);
                only(Heard::One(finish_of(id)))
            }
        }
    }

    // A Return comes that takes the results of a tail call.
    fn take(&mut self, taken: TakenFromOther) -> Result<Inbound, AdapterError>
        ensures { Comes self.old (takes self.old taken (map.get self.old.tails taken.question.0)) result self.new }
    {
        let taker = taker_of(taken);
        match self.tails.get(taken.question) {
            Some(Tail::Asked) => {
                self.tails.set(taken.question, Tail::Taken(taker));
                Ok(only(Heard::Nothing))
            }
            Some(Tail::Kept(body)) => {
                let message = return_to(self.alloc, taker, taken.question, body)?;
                self.tails.set(taken.question, Tail::Told);
                Ok(only(Heard::One(message)))
            }
            _ => Err(AdapterError::Fault(AdapterFault::NothingToTake)),
        }
    }

    /// What is said to the peer for a message of the vat, and what the vat is to hear then, before anything else comes or
    /// goes. `Memory` leaves the adapter as it was; it is also answered if the contents can't be laid out without what is not there.
    pub fn outbound(&mut self, message: Message) -> Result<Outbound, Memory>
        ensures went { Goes self.old (goes self.old message) result self.new }
        ensures laid { IfOk result (λ o. IsLaidOut message) }
    {
        match message {
            Message::Plain(message) => self.say(message),
            Message::Unimplemented(message) => Ok(back(message)),
        }
    }

    fn say(&mut self, message: PlainMessage) -> Result<Outbound, Memory>
        ensures went { Goes self.old (goes_plain self.old message) result self.new }
        ensures laid { IfOk result (λ o. IsPlainLaidOut message) }
    {
        match message {
            PlainMessage::Return(said) => self.give(said),
            PlainMessage::Call(call) => {
                let call = null_call(self.alloc, call)?;
                Ok(plainly(Message::Plain(PlainMessage::Call(call))))
            }
            _ => Ok(plainly(Message::Plain(message))),
        }
    }

    // A Return goes.
    fn give(&mut self, said: Return) -> Result<Outbound, Memory>
        ensures went { Goes self.old (gives self.old said (map.get self.old.tails said.answer.0)) result self.new }
        ensures laid { IfOk result (λ o. IsBodyLaidOut said.body) }
    {
        if let None = self.tails.get(said.answer) {
            let said = null_return(self.alloc, said)?;
            return Ok(plainly(Message::Plain(PlainMessage::Return(said))));
        }
        try_body(self.alloc, &said.body)?;
        self.give_tail(said)
    }

    // A Return goes, maybe of a tail call.
    fn give_tail(&mut self, said: Return) -> Result<Outbound, Memory>
        ensures { Goes self.old (gives self.old said (map.get self.old.tails said.answer.0)) result self.new }
    {
        let id = said.answer;
        match self.tails.get(id) {
            Some(Tail::Asked) => return Ok(self.keep(said)),
            Some(Tail::Taken(taker)) => {
                let message = return_to(self.alloc, *taker, id, &said.body)?;
                self.tails.set(id, Tail::Told);
                return Ok(told(&said, Heard::One(message)));
            }
            Some(Tail::Finishing(taker)) => {
                let message = return_to(self.alloc, *taker, id, &said.body)?;
                self.tails.remove(id);
                return Ok(told(&said, Heard::Two(message, finish_of(id))));
            }
            Some(Tail::Finished) => {
                self.tails.remove(id);
                return Ok(told(&said, Heard::Nothing));
            }
            _ => {}
        }
        let said = null_return(self.alloc, said)?;
        Ok(plainly(Message::Plain(PlainMessage::Return(said))))
    }

    // A Return of a tail call goes that nothing takes so far.
    fn keep(&mut self, said: Return) -> Outbound
        requires { map.get self.old.tails said.answer.0 ≡ Some Asked }
        ensures { gives self.old said (Some Asked) ≡ seen_outbound self.new result }
    {
        let outbound = told(&said, Heard::Nothing);
        self.tails.set(said.answer, Tail::Kept(said.body));
        outbound
    }
}

fn only(heard: Heard) -> Inbound
    ensures { result ≡ record { heard = heard; unknown = None } }
{
    Inbound {
        heard,
        unknown: None,
    }
}

fn plainly(message: Message) -> Outbound
    ensures { result ≡ record { said = Some (said.Message message); heard = heard.Nothing } }
{
    Outbound {
        said: Some(Said::Message(message)),
        heard: Heard::Nothing,
    }
}

// What goes for a message that the vat did not understand.
fn back(message: PlainMessage) -> Outbound
    ensures { (s : Adapting) → goes_back s message ≡ seen_outbound s result }
{
    match message {
        PlainMessage::Release(_) => Outbound {
            said: None,
            heard: Heard::Nothing,
        },
        _ => plainly(Message::Unimplemented(message)),
    }
}

// What the peer is told of the outcome of its tail call, and what the vat is to hear.
fn told(said: &Return, heard: Heard) -> Outbound
    ensures { result ≡ record { said = Some (told said.now); heard = heard } }
{
    let answer = said.answer;
    let release_param_caps = said.release_param_caps;
    let said = match &said.body {
        ReturnBody::Canceled => Said::Message(Message::Plain(PlainMessage::Return(Return {
            answer,
            release_param_caps,
            body: ReturnBody::Canceled,
        }))),
        _ => Said::SentElsewhere(SentElsewhere {
            answer,
            release_param_caps,
        }),
    };
    Outbound {
        said: Some(said),
        heard,
    }
}

// The Finish of a tail call, for the vat.
fn finish_of(question: QuestionId) -> Message
    ensures { result ≡ finish_of question }
{
    Message::Plain(PlainMessage::Finish(Finish {
        question,
        release_result_caps: true,
    }))
}

fn taker_of(taken: TakenFromOther) -> Taker
    ensures { result ≡ taker_of taken }
{
    Taker {
        question: taken.answer,
        release_param_caps: taken.release_param_caps,
    }
}

// The Return that takes this outcome of an answer, for the vat.
fn return_to(
    alloc: Global,
    taker: Taker,
    answer: AnswerId,
    body: &ReturnBody,
) -> Result<Message, Memory>
    ensures { IfOk result (λ m. m ≡ return_to taker answer body.now) }
{
    let body = turn(alloc, answer, body)?;
    Ok(Message::Plain(PlainMessage::Return(Return {
        answer: taker.question,
        release_param_caps: taker.release_param_caps,
        body,
    })))
}
