//! Numbers among a program's words.
ghost use Rattle.std.specs.Prelude.{◌≡◌};
ghost use Rattle.chart_parts.specs.Decimals.{number_of};

/// A decimal number. A sign is none of its digits.
pub fn read_number(word: &str) -> Option<u64>
    ensures { result ≡ number_of word.now }
{
    if word.starts_with('+') {
        return None;
    }
    word.parse::<u64>().ok()
}
