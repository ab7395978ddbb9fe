//! The words of a line.
ghost use Rattle.std.specs.Prelude.{◌≡◌, ◌==◌, ◌<◌, length, IfSome};
ghost use Rattle.std.specs.List.{position};
ghost use Rattle.look_pieces.specs.Words.{before, behind};

/// Where a byte stands first.
fn place_of(mark: u8, text: &[u8]) -> Option<usize>
    ensures first { result ≡ position (λ c. c == mark) text.now }
    ensures within { IfSome result (λ at. at < length text.now) }
{
    text.iter().position(|byte| *byte == mark)
}

/// What stands before the first such byte, and what stands behind it.
pub(crate) fn cut(text: &[u8], mark: u8) -> (&[u8], &[u8])
    ensures before { result.0.now ≡ before mark text.now }
    ensures behind { result.1.now ≡ behind mark text.now }
{
    match place_of(mark, text) {
        Some(at) => (&text[..at], &text[at + 1..]),
        None => (text, &[]),
    }
}
