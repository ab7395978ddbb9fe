//! A frame.
ghost use Rattle.std.specs.Prelude.{◌≡◌};
ghost use Rattle.capn_stream.specs.Fronts.{IsFrame};

use std::marker::Model;

/// The bytes of one message of a stream, with the table of its segments. Contracts see the bytes.
#[derive(Drop)]
pub struct Frame {
    bytes: Vec<u8>,
}

impl Model for Frame {
    ghost use Rattle.std.specs.Prelude.{List, ℕ};
    ghost use Rattle.capn_stream.specs.Fronts.{IsFrame};

    ghost Value = { List ℕ };

    ghost view = { λ a. a.bytes.items };

    ghost invariant = { λ a. IsFrame a.bytes.items };
}

impl Frame {
    /// The frame of all these bytes.
    pub(crate) fn whole(bytes: Vec<u8>) -> Frame
        requires { IsFrame bytes.items }
        ensures { result ≡ bytes.items }
    {
        Frame { bytes }
    }

    /// The bytes, of which a frame consists whole.
    pub fn bytes(&self) -> &[u8]
        ensures bytes { result.now ≡ self.now }
        ensures whole { IsFrame self.now }
    {
        self.bytes.as_slice()
    }

    /// The bytes, as a vector. Takes no memory.
    pub fn into_bytes(self) -> Vec<u8>
        ensures bytes { result.items ≡ self }
        ensures whole { IsFrame self }
    {
        let Frame { bytes } = self;
        bytes
    }
}
