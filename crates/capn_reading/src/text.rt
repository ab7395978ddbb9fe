//! Texts in bytes.
ghost use Rattle.std.specs.Prelude.{◌≡◌, ℕ, List, MatchOption};
ghost use Rattle.capn_reading.specs.Looking.{IsTextIn};

/// The text in bytes that end with a zero, if it is UTF-8.
pub fn text_in(bytes: &[u8]) -> Option<&str>
    ensures { MatchOption result ((s : List ℕ) → ¬ (IsTextIn bytes.now s)) (λ text. IsTextIn bytes.now text.now) }
{
    let Some((last, text)) = bytes.split_last() else {
        return None;
    };
    if *last != 0 {
        return None;
    }
    str::from_utf8(text).ok()
}
