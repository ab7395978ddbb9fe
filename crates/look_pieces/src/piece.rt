//! A piece of a conversation.
ghost use Rattle.std.specs.Prelude.{◌≡◌};
ghost use Rattle.look_pieces.specs.Pieces.{other_side};

/// An end of a conversation.
#[derive(Clone, Copy, Debug, PartialEq, Eq, Drop)]
pub enum Side {
    /// The end that connected: what it sent is marked `>`.
    Client,
    /// The end that listened: what it sent is marked `<`.
    Server,
}

impl Side {
    /// The end at the other side.
    pub fn other(self) -> Side
        ensures { result ≡ other_side self }
    {
        match self {
            Side::Client => Side::Server,
            Side::Server => Side::Client,
        }
    }
}

/// Bytes that one end sent, as they passed a point between the two.
#[derive(Debug, Drop)]
pub struct Piece {
    /// Who sent it.
    pub side: Side,
    /// How long after the first piece it passed, in microseconds.
    pub time: u64,
    /// What it holds: a part of a message, or several messages.
    pub bytes: Vec<u8>,
}
