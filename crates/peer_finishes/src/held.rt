//! Finishes that are held back.
ghost use Rattle.std.specs.Prelude.{◌≡◌, None, OnOk, OnErr, IsTrue, MatchBool};
ghost use Rattle.std.specs.FinMap as map;
ghost use Rattle.rpc_codec.specs.Envelopes.{seen_envelope};
ghost use Rattle.rpc_msg.specs.declared.message.PlainMessage.TheVariants as plain;
ghost use Rattle.peer_finishes.specs.declared.held.Finishes.TheVariants.{AfterReturn};
ghost use Rattle.peer_finishes.specs.Finishing.{asked, asked_by, comes, comes_back, comes_message, comes_plain, finish_of, finishes, fresh, returns, says, without_open};

use crate::questions::{Awaited, Questions};
use rpc_codec::Envelope;
use rpc_msg::{Finish, Memory, Message, PlainMessage, QuestionId};
use std::alloc::Global;
use std::marker::Model;

/// When a Finish goes whose question has no Return so far.
#[derive(Clone, Copy, Debug, PartialEq, Eq, Drop)]
pub enum Finishes {
    /// At once. The peer may end its work then.
    AtOnce,
    /// Behind the Return: for a peer that sends no Return if it heard of the Finish before.
    AfterReturn,
}

/// The questions of a vat whose Finishes wait. It has seen each question and each Finish that the vat sent, and each envelope that
/// came, once and in their order. While no Finish waits it holds no memory.
#[derive(Drop)]
pub struct HeldFinishes {
    finishes: Finishes,
    questions: Questions,
}

impl Model for HeldFinishes {
    ghost use Rattle.peer_finishes.specs.Finishing.{Finishing, finishing_code};

    ghost Value = { Finishing };

    ghost coded = { finishing_code };

    ghost view = { λ a. record { finishes = a.finishes; awaited = a.questions } };
}

impl HeldFinishes {
    /// Each Finish goes at once, and no question is open. Takes no memory.
    pub fn new(alloc: Global) -> HeldFinishes
        ensures { result ≡ fresh }
    {
        HeldFinishes {
            finishes: Finishes::AtOnce,
            questions: Questions::new(alloc),
        }
    }

    /// From now on the Finish of a question that is asked goes then. Of a question that was asked before it goes as it was to.
    /// Takes no memory.
    pub fn set(&mut self, finishes: Finishes)
        ensures { self.new ≡ record self.old { finishes = finishes } }
    {
        self.finishes = finishes;
    }

    /// A question of the vat goes, a Call or a Bootstrap. `Memory` leaves all as it was; if Finishes go at once it takes none.
    pub fn ask(&mut self, question: QuestionId) -> Result<(), Memory>
        ensures ok { OnOk result (self.new ≡ asked self.old question) }
        ensures err { OnErr result (self.new ≡ self.old) }
    {
        match self.finishes {
            Finishes::AtOnce => Ok(()),
            Finishes::AfterReturn => self.await_return(question),
        }
    }

    fn await_return(&mut self, question: QuestionId) -> Result<(), Memory>
        ensures ok { OnOk result (self.new ≡ asked_by AfterReturn (map.get self.old.awaited question.0) self.old question) }
        ensures err { OnErr result (self.new ≡ self.old) }
    {
        if self.questions.get(question).is_some() {
            return Ok(());
        }
        self.questions.put(question, Awaited::Asked)
    }

    /// A Finish of the vat is to go: whether it goes at once. Else it is held back. Takes no memory.
    pub fn finish(&mut self, finish: Finish) -> bool
        ensures same { IsTrue result → self.new ≡ self.old }
        ensures done { MatchBool result
            (finishes self.old finish (map.get self.old.awaited finish.question.0) ≡ says self.new (plain.Finish finish))
            (finishes self.old finish (map.get self.old.awaited finish.question.0) ≡ record { state = self.new; said = None }) }
    {
        match self.questions.get(finish.question) {
            Some(Awaited::Asked) => {
                let held = Awaited::Finished(finish.release_result_caps);
                self.questions.set(finish.question, held);
                false
            }
            _ => true,
        }
    }

    /// An envelope comes: the Finish that the peer is to be told behind it, if one was held back. Takes no memory.
    pub fn inbound(&mut self, came: &Envelope) -> Option<Finish>
        ensures { comes self.old (seen_envelope came.now) ≡ record { state = self.new; told = result } }
    {
        match came {
            Envelope::Message(Message::Plain(message)) => self.hear(message),
            Envelope::Message(Message::Unimplemented(message)) => {
                self.hear_back(message);
                None
            }
            Envelope::SentElsewhere(said) => self.close(said.answer),
            Envelope::TakenFromOther(said) => self.close(said.answer),
            _ => None,
        }
    }

    fn hear(&mut self, message: &PlainMessage) -> Option<Finish>
        ensures { comes_plain self.old message.now ≡ record { state = self.new; told = result } }
    {
        match message {
            PlainMessage::Return(said) => self.close(said.answer),
            _ => None,
        }
    }

    // What the vat sent came back.
    fn hear_back(&mut self, message: &PlainMessage)
        ensures { comes_back self.old message.now ≡ record { state = self.new; told = None } }
    {
        match message {
            PlainMessage::Bootstrap(question) => self.forget(*question),
            PlainMessage::Call(call) => self.forget(call.question),
            _ => {}
        }
    }

    fn forget(&mut self, question: QuestionId)
        ensures { self.new ≡ without_open self.old question }
    {
        let _ = self.questions.take(question);
    }

    // The Return of a question came.
    fn close(&mut self, question: QuestionId) -> Option<Finish>
        ensures { returns self.old question ≡ record { state = self.new; told = result } }
    {
        let was = self.questions.take(question);
        finish_of(question, was)
    }
}

fn finish_of(question: QuestionId, was: Option<Awaited>) -> Option<Finish>
    ensures { result ≡ finish_of question was }
{
    match was {
        Some(Awaited::Finished(release_result_caps)) => Some(Finish {
            question,
            release_result_caps,
        }),
        _ => None,
    }
}
