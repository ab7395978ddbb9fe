//! A message that is read within a limit of words that its reader gives.
ghost use Rattle.std.specs.Prelude.{◌≡◌, ◌≤◌, IfOk, IfErr, Err};
ghost use Rattle.capn_trees.specs.Views.{view};
ghost use Rattle.capn_reading.specs.Following.{most_counted};
ghost use Rattle.capn_reading.specs.Reading.{message_up_to, tree_read};
ghost use Rattle.capn_reading.specs.Looking.{At, said_within};

use crate::build::build_pointer;
use crate::message::Message;
use crate::place::Place;
use crate::referent::follow;
use crate::walk::walk_root;
use capn_trees::limits::MOST_LEVELS;
use capn_trees::{PayloadFault, Tree};
use std::alloc::{AllocError, Global};
use std::marker::Model;

/// A message that says a tree, with so many capabilities, of which so many words may be visited.
#[derive(Drop)]
pub struct Document<'m> {
    message: Message<'m>,
    caps: u32,
    words: u32,
}

impl<'m> Model for Document<'m> {
    ghost use Rattle.std.specs.Prelude.{IsOk};
    ghost use Rattle.capn_reading.specs.Reading.{root_up_to};
    ghost use Rattle.capn_trees.specs.Limits.{most_levels};
    ghost use Rattle.capn_reading.specs.Looking.{Limited};

    ghost Value = { Limited };

    ghost view = { λ a. record { message = a.message; caps = a.caps; words = a.words } };

    ghost invariant = { λ a. IsOk (root_up_to a.words a.message a.caps most_levels) };
}

impl<'m> Document<'m> {
    /// Reads a message of the encoding that goes with `caps` capabilities. Its segments have at most `words` words together,
    /// and reading visits at most `words`. This limit is at most [`MOST_COUNTED`](crate::MOST_COUNTED). The other limits and
    /// the order of the checks are those of docs/encoding.md. The fault is the first check that fails.
    pub fn read(bytes: &'m [u8], caps: u32, words: u32) -> Result<Document<'m>, PayloadFault>
        requires { words ≤ most_counted }
        ensures read { IfOk result (λ d. said_within d ≡ message_up_to words bytes.now caps) }
        ensures first { IfErr result (λ e. message_up_to words bytes.now caps ≡ Err e) }
    {
        let message = Message::parse_within(bytes, words)?;
        walk_root(&message, caps, MOST_LEVELS, words)?;
        Ok(Document {
            message,
            caps,
            words,
        })
    }

    /// What the root pointer leads to.
    pub fn root(&self) -> Place<'_>
        ensures { At result (tree_read (said_within self.now)) }
    {
        let Ok((referent, _)) = follow(&self.message, self.caps, 0, 0, 0) else {
            unreachable!()
        };
        Place::of(&self.message, self.caps, referent)
    }

    /// What the message says, as a tree.
    pub fn tree(&self, alloc: Global) -> Result<Tree, AllocError>
        ensures { IfOk result (λ t. view t ≡ tree_read (said_within self.now)) }
    {
        build_pointer(alloc, &self.message, self.caps, 0, 0, MOST_LEVELS)
    }
}
