//! What both ends said so far.
use crate::end::End;
use look_pieces::Side;
use std::alloc::Global;

/// When a message passed.
#[derive(Clone, Copy, Debug, PartialEq, Eq, Drop)]
pub struct Moment {
    /// Its number: messages are counted from 1.
    pub number: u64,
    /// In microseconds since the first piece, where there are times.
    pub time: Option<u64>,
    /// How many bytes its frame has.
    pub size: u64,
}

/// The books of a conversation at a point between its ends.
#[derive(Drop)]
pub struct Books {
    pub(crate) alloc: Global,
    pub(crate) client: End,
    pub(crate) server: End,
}

impl Books {
    ghost use Rattle.std.specs.Prelude.{◌≡◌};
    ghost use Rattle.look_books.specs.Ends.{kept_of, end_of};
    ghost use Rattle.look_books.specs.After.{unsaid};

    /// Nothing was said. Takes no memory.
    pub fn new(alloc: Global) -> Books
        ensures { (kept_of result.client ≡ unsaid) × (kept_of result.server ≡ unsaid) }
    {
        Books {
            alloc,
            client: End::new(alloc),
            server: End::new(alloc),
        }
    }

    /// What an end said.
    pub fn end(&self, side: Side) -> &End
        ensures { result.now ≡ end_of self.now side }
    {
        match side {
            Side::Client => &self.client,
            Side::Server => &self.server,
        }
    }
}
