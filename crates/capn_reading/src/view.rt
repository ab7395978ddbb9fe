//! A message that says a tree.
ghost use Rattle.std.specs.Prelude.{◌≡◌, IsOk};
ghost use Rattle.capn_reading.specs.Reading.{message_of, root_of, tree_read};
ghost use Rattle.capn_reading.specs.Looking.{At};

use crate::message::Message;
use crate::place::Place;
use crate::referent::follow;
use std::marker::Model;

/// A message that says a tree, with so many capabilities.
#[derive(Drop)]
pub struct View<'m> {
    message: Message<'m>,
    caps: u32,
}

impl<'m> Model for View<'m> {
    ghost use Rattle.std.specs.Prelude.{IsOk};
    ghost use Rattle.capn_reading.specs.Reading.{root_of};
    ghost use Rattle.capn_reading.specs.Looking.{Viewed};

    ghost Value = { Viewed };

    ghost view = { λ a. record { message = a.message; caps = a.caps } };

    ghost invariant = { λ a. IsOk (root_of a.message a.caps) };
}

impl<'m> View<'m> {
    /// The message in bytes that were read as one.
    pub fn of(bytes: &'m [u8], caps: u32) -> View<'m>
        requires { IsOk (message_of bytes.now caps) }
        ensures { tree_read (root_of result.message result.caps) ≡ tree_read (message_of bytes.now caps) }
    {
        let Ok(message) = Message::parse(bytes) else {
            unreachable!()
        };
        View { message, caps }
    }

    /// What the root pointer leads to.
    pub fn root(&self) -> Place<'_>
        ensures { At result (tree_read (root_of self.now.message self.now.caps)) }
    {
        let Ok((referent, _)) = follow(&self.message, self.caps, 0, 0, 0) else {
            unreachable!()
        };
        Place::of(&self.message, self.caps, referent)
    }
}
