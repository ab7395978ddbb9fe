//! What the program is asked for.
ghost use Rattle.std.specs.Prelude.{◌≡◌};
ghost use Rattle.look_chart_lib.specs.Choices.{unchosen, with_choice, last_drawn, is_drawn};

use chart_parts::read_number;
use std::alloc::{AllocError, Global};

/// How many messages a picture has if nothing else is asked for.
const LEGIBLE: u64 = 60;

/// Which messages are drawn, counted from 1.
#[derive(Clone, Copy, Debug, PartialEq, Eq, Drop)]
pub struct Options {
    pub(crate) from: u64,
    /// If none is asked for, 60 messages are drawn.
    pub(crate) to: Option<u64>,
}

impl Options {
    /// The first 60 messages.
    pub fn new() -> Options
        ensures { result ≡ unchosen }
    {
        Options { from: 1, to: None }
    }

    /// These with one more, said by its word and value; none if they say nothing.
    pub fn with(self, word: &str, value: &str) -> Option<Options>
        ensures { result ≡ with_choice self word.now value.now }
    {
        if word == "--from" {
            let from = read_number(value)?;
            return Some(Options { from, ..self });
        }
        if word == "--to" {
            let to = read_number(value)?;
            return Some(Options {
                to: Some(to),
                ..self
            });
        }
        None
    }

    /// The last message that is drawn.
    pub(crate) fn last(&self) -> u64
        ensures { result ≡ last_drawn self.now }
    {
        match self.to {
            Some(to) => to,
            None => self.from.saturating_add(LEGIBLE - 1),
        }
    }

    /// Whether the message with that number is drawn.
    pub fn draws(&self, number: u64) -> bool
        ensures { result ≡ is_drawn self.now number }
    {
        self.from <= number && number <= self.last()
    }
}

/// What the program's words ask for.
#[derive(Drop)]
pub struct Request {
    /// Which messages are drawn.
    pub options: Options,
    /// The name of the schema, if there is one.
    pub schema: Option<String>,
    /// The name of the log, if it is not on standard input.
    pub log: Option<String>,
}

impl Request {
    fn new() -> Request {
        Request {
            options: Options::new(),
            schema: None,
            log: None,
        }
    }

    /// A word with its value. `false` if they say nothing.
    fn with(&mut self, alloc: Global, word: &str, value: &str) -> Result<bool, AllocError> {
        if word == "--schema" {
            self.schema = Some(String::from_str(alloc, value)?);
            return Ok(true);
        }
        match self.options.with(word, value) {
            Some(options) => {
                self.options = options;
                Ok(true)
            }
            None => Ok(false),
        }
    }

    /// The last word: the name of the log. `false` if it says nothing.
    fn with_log(&mut self, alloc: Global, word: &str) -> Result<bool, AllocError> {
        if word.starts_with("--") {
            return Ok(false);
        }
        self.log = Some(String::from_str(alloc, word)?);
        Ok(true)
    }

    /// What words say, each option before its value, and the name of the log last. `false` if they say nothing.
    fn with_all(&mut self, alloc: Global, words: &[String]) -> Result<bool, AllocError> {
        for pair in words.chunks(2) {
            let is_said = match pair {
                [word, value] => self.with(alloc, word.as_str(), value.as_str())?,
                [word] => self.with_log(alloc, word.as_str())?,
                _ => false,
            };
            if !is_said {
                return Ok(false);
            }
        }
        Ok(true)
    }

    /// What the program's words ask for; `None` where they ask for nothing, or for no message. `AllocError` if a growth was
    /// refused.
    pub fn of_words(alloc: Global, words: &[String]) -> Result<Option<Request>, AllocError> {
        let mut request = Request::new();
        let is_said = request.with_all(alloc, words)?;
        if is_said && request.options.from > 0 && request.options.from <= request.options.last() {
            return Ok(Some(request));
        }
        Ok(None)
    }
}
