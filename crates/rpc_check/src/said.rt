ghost use Rattle.std.specs.Prelude.{◌≡◌, [], ◌∷◌, ◌++◌, ℕ, cond, nat_eq, None, Some, IfOk, OnOk, List};
ghost use Rattle.rpc_msg.specs.declared.message.Message.{Message as AMessage};
ghost use Rattle.rpc_check.specs.Counts.{released_after};
ghost use Rattle.rpc_check.specs.Kept.{last_of, list_at, released_in, Grows, IsSaid};

use crate::handovers::handed_on;
use crate::releases::Released;
use rpc_msg::{ExportId, Items, Memory, Message, PlainMessage, QuestionId};
use std::alloc::Global;
use std::collections::BTreeMap;

/// Which list the last message of each id handed on. An id whose last message handed nothing on takes no memory.
#[derive(Drop)]
pub(crate) struct Lasts {
    pub(crate) by_id: BTreeMap<u32, usize>,
}

impl Lasts {
    pub(crate) fn new(alloc: Global) -> Self
        ensures { (q : ℕ) → last_of result q ≡ None }
    {
        Lasts {
            by_id: BTreeMap::new(alloc),
        }
    }

    fn set(&mut self, id: QuestionId, list: Option<usize>) -> Result<(), Memory>
        ensures { OnOk result ((q : ℕ) → last_of self.new q ≡ cond (nat_eq q id.0) list (last_of self.old q)) }
    {
        let Some(list) = list else {
            self.by_id.remove(&id.0);
            return Ok(());
        };
        self.by_id.insert(id.0, list)?;
        Ok(())
    }

    fn of(&self, id: QuestionId) -> Option<usize>
        ensures { result ≡ last_of self.now id.0 }
    {
        self.by_id.get(&id.0).copied()
    }
}

/// What the questions and the answers of a vat handed on: the lists of all of them, each by its place, and which is the
/// last one of each id. A message that releases a list names its place, so many of them share it.
#[derive(Drop)]
pub(crate) struct Said {
    pub(crate) lists: Vec<Items<(ExportId, u32)>>,
    pub(crate) questions: Lasts,
    pub(crate) answers: Lasts,
}

impl Said {
    pub(crate) fn new(alloc: Global) -> Self
        ensures { IsSaid result [] }
    {
        Said {
            lists: Vec::new(alloc),
            questions: Lasts::new(alloc),
            answers: Lasts::new(alloc),
        }
    }

    // The place of a list; an empty one has none.
    fn keep(&mut self, ids: Items<(ExportId, u32)>) -> Result<Option<usize>, Memory>
        ensures kept { IfOk result (λ list. list_at self.new.lists.items list ≡ Some ids) }
        ensures grows { OnOk result (Grows self.old.lists.items self.new.lists.items) }
        ensures questions { self.new.questions ≡ self.old.questions }
        ensures answers { self.new.answers ≡ self.old.answers }
    {
        if ids.is_empty() {
            return Ok(None);
        }
        let list = self.lists.len();
        self.lists.push(ids)?;
        Ok(Some(list))
    }

    /// The vat sends a message. After a refusal nothing is known of the rest.
    pub(crate) fn send(&mut self, alloc: Global, message: &Message) -> Result<(), Memory>
        ensures said { OnOk result ((ms : List AMessage) → IsSaid self.old ms → IsSaid self.new (ms ++ message.now ∷ [])) }
        ensures grows { OnOk result (Grows self.old.lists.items self.new.lists.items) }
    {
        let Message::Plain(plain) = message else {
            return Ok(());
        };
        match plain {
            PlainMessage::Bootstrap(id) => {
                self.questions.set(*id, None)?;
                Ok(())
            }
            PlainMessage::Call(call) => {
                let ids = handed_on(alloc, message)?;
                let list = self.keep(ids)?;
                self.questions.set(call.question, list)?;
                Ok(())
            }
            PlainMessage::Return(said) => {
                let ids = handed_on(alloc, message)?;
                let list = self.keep(ids)?;
                self.answers.set(said.answer, list)?;
                Ok(())
            }
            _ => Ok(()),
        }
    }

    /// What of the exports of the vat a message releases which is sent to it now.
    pub(crate) fn released_by(&self, message: &Message) -> Released
        ensures { (ms : List AMessage) → IsSaid self.now ms → released_in self.now.lists.items result ≡ Some (released_after ms message.now) }
    {
        match message {
            Message::Plain(PlainMessage::Release(release)) => {
                Released::Count(release.export, release.count)
            }
            Message::Plain(PlainMessage::Return(said)) => {
                if said.release_param_caps {
                    return Released::List(self.questions.of(said.answer));
                }
                Released::List(None)
            }
            Message::Plain(PlainMessage::Finish(finish)) => {
                if finish.release_result_caps {
                    return Released::List(self.answers.of(finish.question));
                }
                Released::List(None)
            }
            _ => Released::List(None),
        }
    }
}
