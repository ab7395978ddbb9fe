use rpc_journal::JournalEntry;
use rpc_msg::{CallId, Memory, Message, PlainMessage, QuestionId, Stamp, Vat};
use std::alloc::Global;
use std::collections::BTreeMap;
use std::mem;

/// What a question is of.
#[derive(Clone, Copy, Drop)]
pub(crate) enum Asked {
    Call(Stamp),
    /// With the number that the application has for it, if the trace says it.
    Bootstrap(Option<CallId>),
}

/// What a vat asked, the last question of each id.
#[derive(Drop)]
struct Own {
    by_id: BTreeMap<u32, Asked>,
    /// The Bootstrap that the application asked for, if it is not sent yet.
    bootstrap: Option<CallId>,
}

impl Own {
    fn new(alloc: Global) -> Self {
        Own {
            by_id: BTreeMap::new(alloc),
            bootstrap: None,
        }
    }

    fn learn(&mut self, message: &PlainMessage) -> Result<(), Memory> {
        match message {
            PlainMessage::Call(call) => {
                self.by_id.insert(call.question.0, Asked::Call(call.stamp))?;
            }
            PlainMessage::Bootstrap(question) => {
                let call = mem::replace(&mut self.bootstrap, None);
                self.by_id.insert(question.0, Asked::Bootstrap(call))?;
            }
            _ => {}
        }
        Ok(())
    }

    fn get(&self, question: QuestionId) -> Option<Asked> {
        self.by_id.get(&question.0).copied()
    }
}

/// What the questions of both vats are of. An id that comes again is another question's.
#[derive(Drop)]
pub(crate) struct Questions {
    a: Own,
    b: Own,
}

impl Questions {
    pub(crate) fn new(alloc: Global) -> Self {
        Questions {
            a: Own::new(alloc),
            b: Own::new(alloc),
        }
    }

    pub(crate) fn learn(&mut self, entry: &JournalEntry) -> Result<(), Memory> {
        match entry {
            JournalEntry::Asked(Vat::A, call) => self.a.bootstrap = Some(*call),
            JournalEntry::Asked(Vat::B, call) => self.b.bootstrap = Some(*call),
            JournalEntry::Sent(Vat::A, Message::Plain(message)) => self.a.learn(message)?,
            JournalEntry::Sent(Vat::B, Message::Plain(message)) => self.b.learn(message)?,
            _ => {}
        }
        Ok(())
    }

    fn get(&self, vat: Vat, question: QuestionId) -> Option<Asked> {
        match vat {
            Vat::A => self.a.get(question),
            Vat::B => self.b.get(question),
        }
    }

    /// What the question is of that a message asks, answers or finishes.
    pub(crate) fn of(&self, from: Vat, message: &Message) -> Option<Asked> {
        let Message::Plain(plain) = message else {
            return None;
        };
        match plain {
            PlainMessage::Bootstrap(question) => self.get(from, *question),
            PlainMessage::Call(call) => self.get(from, call.question),
            PlainMessage::Return(answer) => self.get(from.other(), answer.answer),
            PlainMessage::Finish(finish) => self.get(from, finish.question),
            _ => None,
        }
    }
}
