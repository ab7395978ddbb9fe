//! How much of what the peer sent is held, and how much may be.
ghost use Rattle.std.specs.Prelude.{◌≡◌, Some, None, OnOk, OnErr, option_copied};
ghost use Rattle.std.specs.FinMap as map;
ghost use Rattle.peer_tail_calls.specs.Adapting.{messages_in};
ghost use Rattle.peer_large.specs.Opening.{seen};
ghost use Rattle.vat_connection.specs.Load.{all_told, counted, held_words, is_within, nothing_heard, question_in, question_of, weighed, without_call, without_question, words_of};

use peer_adapter::Heard;
use peer_large::Opened;
use rpc_msg::{AnswerId, Memory, Message, PlainMessage, QuestionId};
use std::alloc::Global;
use std::collections::BTreeMap;
use std::marker::Model;

/// What a connection holds of its peer.
#[derive(Clone, Copy, Debug, PartialEq, Eq, Drop)]
pub struct Load {
    /// The words that are held of each Call for which no Return was said, and of other frames until all events were told: those of its
    /// frame, or those of its contents where these are more.
    pub words: u64,
    /// The bytes that wait to be sent.
    pub bytes: u64,
}

/// With how much of a load one more frame is heard, at most.
#[derive(Clone, Copy, Debug, PartialEq, Eq, Drop)]
pub struct Limits {
    /// As `Load::words`.
    pub words: u64,
    /// As `Load::bytes`.
    pub bytes: u64,
}

impl Limits {
    /// Whether that load is above neither.
    pub(crate) fn has(self, words: u64, bytes: u64) -> bool
        ensures { result ≡ is_within self words bytes }
    {
        words <= self.words && bytes <= self.bytes
    }
}

/// Words by question: seen by contracts as a finite map.
#[derive(Drop)]
pub(crate) struct CallWords {
    by_question: BTreeMap<u32, u64>,
}

impl Model for CallWords {
    ghost use Rattle.std.specs.Prelude.{ℕ};
    ghost use Rattle.std.specs.Ordering.{nat_cmp};
    ghost use Rattle.std.specs.Coded.{coded_ℕ};
    ghost use Rattle.std.specs.FinMap as map;

    ghost Value = { map.FinMap nat_cmp ℕ };

    ghost coded = { map.code coded_ℕ coded_ℕ };

    ghost view = { λ a. map.from_entries a.by_question.entries };
}

impl CallWords {
    /// None. Takes no memory.
    fn new(alloc: Global) -> CallWords
        ensures { result ≡ map.empty }
    {
        CallWords {
            by_question: BTreeMap::new(alloc),
        }
    }

    fn get(&self, question: u32) -> Option<&u64>
        ensures { option_copied result ≡ map.get self.now question }
    {
        self.by_question.get(&question)
    }

    /// The words of that question; 0 if it has none.
    fn of(&self, question: u32) -> u64
        ensures { result ≡ words_of (map.get self.now question) }
    {
        match self.get(question) {
            Some(words) => *words,
            None => 0,
        }
    }

    /// Puts words under a question. `Memory` leaves all as it was.
    fn put(&mut self, question: u32, words: u64) -> Result<(), Memory>
        ensures ok { OnOk result (self.new ≡ map.insert self.old question words) }
        ensures err { OnErr result (self.new ≡ self.old) }
    {
        self.by_question.insert(question, words)?;
        Ok(())
    }

    /// Takes those of a question out. Takes no memory.
    fn remove(&mut self, question: u32)
        ensures { self.new ≡ map.remove self.old question }
    {
        self.by_question.remove(&question);
    }
}

/// What was heard: how many frames, and the words that are counted of them.
#[derive(Drop)]
pub(crate) struct Intake {
    frames: u64,
    // The words of each Call for which no Return was said, by its question.
    calls: CallWords,
    words: u64,
    others: u64,
}

impl Model for Intake {
    ghost use Rattle.vat_connection.specs.Load.{Intake as Heard, intake_code};

    ghost Value = { Heard };

    ghost coded = { intake_code };

    ghost view = { λ a. record { frames = a.frames; calls = a.calls; words = a.words; others = a.others } };
}

impl Intake {
    /// Nothing was heard. Takes no memory.
    pub(crate) fn new(alloc: Global) -> Self
        ensures { result ≡ nothing_heard }
    {
        Intake {
            frames: 0,
            calls: CallWords::new(alloc),
            words: 0,
            others: 0,
        }
    }

    pub(crate) fn frames(&self) -> u64
        ensures { result ≡ self.now.frames }
    {
        self.frames
    }

    pub(crate) fn words(&self) -> u64
        ensures { result ≡ self.now.words }
    {
        self.words
    }

    /// Counts one more frame, of which so many words are held, with the Call of that question if it has one. `Memory` also if a count is beyond what
    /// a number says; it leaves all as it was.
    pub(crate) fn add(&mut self, question: Option<QuestionId>, words: u64) -> Result<(), Memory>
        ensures { OnOk result (self.new ≡ counted question words self.old) }
    {
        let Some(frames) = self.frames.checked_add(1) else {
            return Err(Memory);
        };
        match question {
            Some(question) => self.add_call(question, words)?,
            None => self.add_other(words)?,
        }
        self.frames = frames;
        Ok(())
    }

    fn add_call(&mut self, question: QuestionId, words: u64) -> Result<(), Memory>
        ensures { OnOk result (self.new ≡ weighed (Some question) words self.old) }
    {
        let others = self.words.saturating_sub(self.calls.of(question.0));
        let Some(sum) = others.checked_add(words) else {
            return Err(Memory);
        };
        self.calls.put(question.0, words)?;
        self.words = sum;
        Ok(())
    }

    fn add_other(&mut self, words: u64) -> Result<(), Memory>
        ensures { OnOk result (self.new ≡ weighed None words self.old) }
    {
        let Some(sum) = self.words.checked_add(words) else {
            return Err(Memory);
        };
        let Some(others) = self.others.checked_add(words) else {
            return Err(Memory);
        };
        self.words = sum;
        self.others = others;
        Ok(())
    }

    /// A message is said: a Return ends the load of its Call. Takes no memory.
    pub(crate) fn say(&mut self, message: &Message)
        ensures { self.new ≡ without_call message.now self.old }
    {
        if let Message::Plain(PlainMessage::Return(said)) = message {
            self.remove(said.answer);
        }
    }

    fn remove(&mut self, answer: AnswerId)
        ensures { self.new ≡ without_question answer.0 self.old }
    {
        self.words = self.words.saturating_sub(self.calls.of(answer.0));
        self.calls.remove(answer.0);
    }

    /// All events were told.
    pub(crate) fn all_told(&mut self)
        ensures { self.new ≡ all_told self.old }
    {
        self.words = self.words.saturating_sub(self.others);
        self.others = 0;
    }
}

/// The words that are held of a frame of so many words that says this: these, or those of its contents where these are more.
pub(crate) fn held_words(words: u64, came: &Opened) -> u64
    ensures { result ≡ held_words words (seen came.now) }
{
    words.max(came.content_words())
}

/// The question of the first Call of these messages, if one is there.
pub(crate) fn question_in(heard: &Heard) -> Option<QuestionId>
    ensures { result ≡ question_in (messages_in heard.now) }
{
    match heard {
        Heard::Nothing => None,
        Heard::One(message) => question_of(message),
        Heard::Two(first, second) => match question_of(first) {
            Some(question) => Some(question),
            None => question_of(second),
        },
    }
}

fn question_of(message: &Message) -> Option<QuestionId>
    ensures { result ≡ question_of message.now }
{
    match message {
        Message::Plain(PlainMessage::Call(call)) => Some(call.question),
        _other => None,
    }
}
