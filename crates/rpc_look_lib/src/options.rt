//! What the program is asked for.
use std::alloc::{AllocError, Global};

/// Where the conversation comes from.
#[derive(Drop)]
pub enum Source {
    /// A log on standard input.
    Input,
    /// A log in a file of that name.
    Log(String),
    /// Two files, of what the client sent and of what the server sent.
    Two(String, String),
}

/// What is said, and of what.
#[derive(Drop)]
pub struct Options {
    /// Only what breaks the protocol.
    pub only: bool,
    /// As lines of JSON.
    pub json: bool,
    /// The contents of Calls and Returns too.
    pub payloads: bool,
    /// By the names of the schema in a file of that name.
    pub schema: Option<String>,
    /// Up to that message.
    pub at: Option<u64>,
    /// Rows of a table over time.
    pub totals: Option<u64>,
    /// How the client is called.
    pub client: String,
    /// How the server is called.
    pub server: String,
    pub source: Source,
}

/// A number above 0.
fn number_of(word: &str) -> Option<u64> {
    match word.parse::<u64>() {
        Ok(number) if number > 0 => Some(number),
        _ => None,
    }
}

impl Options {
    fn new(alloc: Global) -> Result<Options, AllocError> {
        Ok(Options {
            only: false,
            json: false,
            payloads: false,
            schema: None,
            at: None,
            totals: None,
            client: String::from_str(alloc, "client")?,
            server: String::from_str(alloc, "server")?,
            source: Source::Input,
        })
    }

    /// Names of the ends, with a comma between them.
    fn with_names(&mut self, alloc: Global, word: &str) -> Result<bool, AllocError> {
        let Some((client, server)) = word.split_once(',') else {
            return Ok(false);
        };
        if client.is_empty() || server.is_empty() {
            return Ok(false);
        }
        self.client = String::from_str(alloc, client)?;
        self.server = String::from_str(alloc, server)?;
        Ok(true)
    }

    /// A word with no value behind it. `false` for another word.
    fn with_flag(&mut self, word: &str) -> bool {
        match word {
            "--only" => self.only = true,
            "--json" => self.json = true,
            "--payloads" => self.payloads = true,
            _ => return false,
        }
        true
    }

    /// Whether the words go together: a table is no lines of JSON.
    fn is_asked(&self) -> bool {
        !(self.json && self.totals.is_some())
    }

    /// A word with a value behind it. `false` for another word, or for no value.
    fn with_value(&mut self, alloc: Global, word: &str, value: &str) -> Result<bool, AllocError> {
        if word == "--names" {
            return self.with_names(alloc, value);
        }
        if word == "--schema" {
            self.schema = Some(String::from_str(alloc, value)?);
            return Ok(true);
        }
        let number = number_of(value);
        if word == "--at" {
            self.at = number;
            return Ok(number.is_some());
        }
        if word == "--totals" {
            self.totals = number;
            return Ok(number.is_some());
        }
        Ok(false)
    }

    /// The last words: a file, two files behind `--two`, or none.
    fn with_source(&mut self, alloc: Global, words: &[String]) -> Result<bool, AllocError> {
        match words {
            [] => Ok(true),
            [name] if !name.as_str().starts_with("--") => {
                self.source = Source::Log(String::from_str(alloc, name.as_str())?);
                Ok(true)
            }
            [two, to, from] if two.as_str() == "--two" => {
                let to = String::from_str(alloc, to.as_str())?;
                let from = String::from_str(alloc, from.as_str())?;
                self.source = Source::Two(to, from);
                Ok(true)
            }
            _ => Ok(false),
        }
    }

    /// The first words, with a value or without; what stands behind them.
    fn with_first<'w>(
        &mut self,
        alloc: Global,
        words: &'w [String],
    ) -> Result<Option<&'w [String]>, AllocError> {
        let Some((word, behind)) = words.split_first() else {
            return Ok(None);
        };
        if self.with_flag(word.as_str()) {
            return Ok(Some(behind));
        }
        let Some((value, behind)) = behind.split_first() else {
            return Ok(None);
        };
        if self.with_value(alloc, word.as_str(), value.as_str())? {
            return Ok(Some(behind));
        }
        Ok(None)
    }

    /// What the program's words ask for; `None` where they ask for nothing.
    pub fn of_words(alloc: Global, words: &[String]) -> Result<Option<Options>, AllocError> {
        let mut options = Options::new(alloc)?;
        let mut rest = words;
        for _ in 0..words.len() {
            match options.with_first(alloc, rest)? {
                Some(behind) => rest = behind,
                None => break,
            }
        }
        if options.with_source(alloc, rest)? && options.is_asked() {
            return Ok(Some(options));
        }
        Ok(None)
    }
}
