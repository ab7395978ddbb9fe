//! What is kept of a question.
use crate::act::Asked;
use rpc_msg::{Descriptor, ExportId, Items, Payload};

/// What a Return had.
#[derive(Drop)]
pub enum Results {
    /// No results.
    None,
    /// Those of a question of its sender.
    Taken,
    /// Its own, with what their capabilities are.
    Own(Payload, Items<Descriptor>),
}

/// A Return that came.
#[derive(Drop)]
pub struct Returned {
    /// The number of its message.
    pub number: u64,
    /// Whether no Finish is owed.
    pub waived: bool,
    /// The exports of its sender that it gave, once for each time.
    pub gives: Items<ExportId>,
    /// Its results.
    pub results: Results,
}

/// A Finish that came.
#[derive(Clone, Copy, Debug, PartialEq, Eq, Drop)]
pub struct Finished {
    /// The number of its message.
    pub number: u64,
    /// Whether it gives back what the Return gives (`releaseResultCaps`).
    pub flag: bool,
}

/// A question that is open: not both returned and finished.
#[derive(Drop)]
pub struct Question {
    /// The number of the message that asked it.
    pub number: u64,
    /// When it was asked, in microseconds.
    pub time: Option<u64>,
    pub asked: Asked,
    /// Whether its results stay with the answerer (`sendResultsTo.yourself`).
    pub tail: bool,
    /// Whether no Return is owed.
    pub waived: bool,
    /// The exports of its sender that it gave, once for each time.
    pub gives: Items<ExportId>,
    pub returned: Option<Returned>,
    pub finished: Option<Finished>,
}

impl Question {
    ghost use Rattle.std.specs.Prelude.{◌≡◌};
    ghost use Rattle.look_books.specs.Ends.{is_free};
    ghost use Rattle.look_books.specs.After.{later, returned_in, number_in};

    /// Whether its id may be used again.
    pub fn is_free(&self) -> bool
        ensures { result ≡ is_free self.now }
    {
        match (&self.returned, self.finished) {
            (Some(returned), None) => returned.waived,
            (Some(_), Some(_)) => true,
            (None, Some(_)) => self.waived,
            (None, None) => false,
        }
    }

    /// The last message about it.
    pub fn last(&self) -> u64
        ensures { result ≡ later (returned_in self.now.returned) (number_in self.now.finished) }
    {
        let returned = match &self.returned {
            Some(returned) => returned.number,
            None => 0,
        };
        let finished = match self.finished {
            Some(finished) => finished.number,
            None => 0,
        };
        if returned < finished {
            finished
        } else {
            returned
        }
    }
}

/// The last question with its id that is no longer open.
#[derive(Clone, Copy, Debug, PartialEq, Eq, Drop)]
pub struct Closed {
    /// The number of the message that asked it.
    pub number: u64,
    pub asked: Asked,
    /// Whether its Finish came.
    pub finished: Option<u64>,
    /// The last message about it.
    pub last: u64,
}
