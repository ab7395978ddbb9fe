ghost use Rattle.std.specs.Prelude.{◌≡◌, nat_eq, nat_lt, map, string_bytes};
ghost use Rattle.std.specs.List.{list_any};
ghost use Rattle.trace_chart_lib.specs.Choices.{with_choice, with_choices, choices, vat_of, reference_of, unchosen, last_drawn, is_drawn, is_marked, is_named_by, entry_names, is_call_of};

use chart_parts::read_number;
use rpc_journal::{JournalEntry, Origin};
use rpc_msg::{Items, Message, PlainMessage, RefId, Stamp, Vat};

/// How many entries a picture has if nothing else is asked for.
const LEGIBLE: u64 = 60;

/// Which entries are drawn, counted from 1, and whose calls stand out.
#[derive(Clone, Copy, Debug, PartialEq, Eq, Drop)]
pub struct Options {
    pub(crate) from: u64,
    /// If none is asked for, 60 entries are drawn.
    pub(crate) to: Option<u64>,
    pub(crate) reference: Option<(Vat, RefId)>,
}

impl Options {
    /// The first 60 entries, and no call stands out.
    pub fn new() -> Self
        ensures { result ≡ unchosen }
    {
        Options {
            from: 1,
            to: None,
            reference: None,
        }
    }

    /// These with one more, said by its word and value; none if they say nothing.
    pub fn with(self, word: &str, value: &str) -> Option<Options>
        ensures { result ≡ with_choice self word.now value.now }
    {
        if word == "--from" {
            let from = read_number(value)?;
            return Some(Options { from, ..self });
        }
        if word == "--to" {
            let to = read_number(value)?;
            return Some(Options {
                to: Some(to),
                ..self
            });
        }
        if word == "--ref" {
            let reference = read_reference(value)?;
            return Some(Options {
                reference: Some(reference),
                ..self
            });
        }
        None
    }

    /// These with all that words say, each option before its value; none if they say nothing.
    fn with_all(self, words: &[String]) -> Option<Options>
        ensures { result ≡ with_choices self (map string_bytes words.now) }
    {
        let mut options = self;
        let mut left = words.iter();
        while let Some(word) = left.next() {
            let value = left.next()?;
            options = options.with(word.as_str(), value.as_str())?;
        }
        Some(options)
    }

    /// What the words behind the trace's name say, each option before its value; none if they say nothing, or ask for
    /// no entry.
    pub fn of(words: &[String]) -> Option<Options>
        ensures { result ≡ choices (map string_bytes words.now) }
    {
        let options = Options::new().with_all(words)?;
        if options.is_empty() {
            return None;
        }
        Some(options)
    }

    /// The last entry that is drawn.
    pub(crate) fn last(&self) -> u64
        ensures { result ≡ last_drawn self.now }
    {
        match self.to {
            Some(to) => to,
            None => self.from.saturating_add(LEGIBLE - 1),
        }
    }

    /// Whether they ask for no entry.
    pub fn is_empty(&self) -> bool
        ensures { result ≡ nat_lt (last_drawn self.now) self.now.from }
    {
        self.last() < self.from
    }

    /// Whether the entry with that number is drawn.
    pub fn draws(&self, number: u64) -> bool
        ensures { result ≡ is_drawn self.now number }
    {
        self.from <= number && number <= self.last()
    }

    /// Whether the calls of that reference stand out.
    pub fn marks(&self, vat: Vat, reference: RefId) -> bool
        ensures { result ≡ is_marked self.now vat reference }
    {
        match self.reference {
            Some((its, number)) => its == vat && number == reference,
            None => false,
        }
    }

    /// Whether an entry names the reference whose calls stand out.
    pub(crate) fn are_named_by(&self, entry: &JournalEntry) -> bool
        ensures { result ≡ is_named_by self.now entry.now }
    {
        match self.reference {
            Some((vat, reference)) => names(entry, vat, reference),
            None => false,
        }
    }

    /// Whether the call with that stamp stands out.
    pub(crate) fn marks_call(&self, stamp: &Stamp) -> bool
        ensures { result ≡ is_marked self.now stamp.now.vat stamp.now.reference }
    {
        self.marks(stamp.vat, stamp.reference)
    }
}

/// Whether an entry names a reference of that vat: by itself, among others, or by the stamp of a call.
fn names(entry: &JournalEntry, vat: Vat, reference: RefId) -> bool
    ensures { result ≡ entry_names vat reference entry.now }
{
    match entry {
        JournalEntry::Born(at, own, origin) => {
            *at == vat && (*own == reference || *origin == Origin::Clone(reference))
        }
        JournalEntry::Made(at, made) => {
            *at == vat && (made.reference == reference || has(&made.refs, reference))
        }
        JournalEntry::Delivered(at, delivery) => {
            is_through(&delivery.stamp, vat, reference)
                || *at == vat && has(&delivery.refs, reference)
        }
        JournalEntry::Answered(at, _, _, references) => *at == vat && has(references, reference),
        JournalEntry::Ended(at, ended) => *at == vat && has(&ended.refs, reference),
        JournalEntry::Resolved(at, _, own) => *at == vat && *own == reference,
        JournalEntry::Dropped(at, own) => *at == vat && *own == reference,
        JournalEntry::Advanced(at, own, _) => *at == vat && *own == reference,
        JournalEntry::Sent(_, Message::Plain(PlainMessage::Call(call))) => {
            is_through(&call.stamp, vat, reference)
        }
        _ => false,
    }
}

fn has(references: &Items<RefId>, reference: RefId) -> bool
    ensures { result ≡ list_any (λ r. nat_eq r.0 reference.0) references.now }
{
    references.contains(&reference)
}

fn is_through(stamp: &Stamp, vat: Vat, reference: RefId) -> bool
    ensures { result ≡ is_call_of vat reference stamp.now }
{
    stamp.vat == vat && stamp.reference == reference
}

/// A reference, as `a/0`.
fn read_reference(word: &str) -> Option<(Vat, RefId)>
    ensures { result ≡ reference_of word.now }
{
    let (vat, number) = word.split_once('/')?;
    let vat = read_vat(vat)?;
    let number = read_number(number)?;
    Some((vat, RefId(number)))
}

fn read_vat(word: &str) -> Option<Vat>
    ensures { result ≡ vat_of word.now }
{
    match word {
        "a" => Some(Vat::A),
        "b" => Some(Vat::B),
        _ => None,
    }
}
