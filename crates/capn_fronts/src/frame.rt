//! What is kept of a frame.
ghost use Rattle.std.specs.Prelude.{◌≡◌, ◌==◌, ◌+◌, ◌*◌, ◌≤◌, not, length};
ghost use Rattle.capn_stream.specs.Fronts.{IsFrame};
ghost use Rattle.capn_fronts.specs.Parts.{IsWhole, count_of};

use std::marker::Model;

/// What is kept of a whole frame of a stream: all of it, or the front of one that has more words than a message may have.
/// Contracts see the bytes that are kept, and how many were dropped.
#[derive(Drop)]
pub struct KeptFrame {
    kept: Vec<u8>,
    dropped: usize,
}

impl Model for KeptFrame {
    ghost use Rattle.capn_fronts.specs.Parts.{IsWhole, Part, part_code};

    ghost Value = { Part };

    ghost coded = { part_code };

    ghost view = { λ a. record { kept = a.kept.items; dropped = a.dropped } };

    ghost invariant = { λ a. IsWhole (record { kept = a.kept.items; dropped = a.dropped }) };
}

impl KeptFrame {
    /// What is kept of a whole frame.
    pub(crate) fn of(kept: Vec<u8>, dropped: usize) -> KeptFrame
        requires { IsWhole (record { kept = kept.items; dropped = dropped }) }
        ensures { result ≡ record { kept = kept.items; dropped = dropped } }
    {
        KeptFrame { kept, dropped }
    }

    /// The bytes that are kept, from the first one of the table on: a whole frame, or the front of a large one.
    pub fn bytes(&self) -> &[u8]
        ensures bytes { result.now ≡ self.now.kept }
        ensures whole { self.now.dropped ≡ 0 → IsFrame self.now.kept }
        ensures most { length self.now.kept ≤ 72 + 8 * 65536 }
        ensures few { IsWhole self.now }
    {
        self.kept.as_slice()
    }

    /// Whether it is large: whether it has more words than a message may have, and only its front is kept.
    pub fn is_large(&self) -> bool
        ensures { result ≡ not (self.now.dropped == 0) }
    {
        self.dropped != 0
    }
}
