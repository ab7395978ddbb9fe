//! The time of day in a head.
ghost use Rattle.std.specs.Prelude.{◌≡◌, ◌<◌, IfSome};
ghost use Rattle.look_pieces.specs.Words.{micros_of, clock_by, clock_of};

use crate::digits::{read_number, read_two};
use crate::words::cut;

/// The microseconds that nine digits behind the point say. socat 1.7.4 writes microseconds with three zeros before them,
/// so nine digits that begin with three zeros are microseconds, and others nanoseconds.
fn read_micros(digits: &[u8]) -> Option<u64>
    ensures value { result ≡ micros_of digits.now }
    ensures small { IfSome result (λ n. n < 1_000_000) }
{
    if digits.len() != 9 {
        return None;
    }
    let parts = read_number(digits)?;
    if parts < 1_000_000 {
        Some(parts)
    } else if parts < 1_000_000_000 {
        Some(parts / 1_000)
    } else {
        None
    }
}

/// The microseconds of so many hours, minutes, seconds and microseconds, each if it was read.
fn join_clock(
    hours: Option<u64>,
    minutes: Option<u64>,
    seconds: Option<u64>,
    micros: Option<u64>,
) -> Option<u64>
    requires hours { IfSome hours (λ n. n < 100) }
    requires minutes { IfSome minutes (λ n. n < 100) }
    requires seconds { IfSome seconds (λ n. n < 100) }
    requires micros { IfSome micros (λ n. n < 1_000_000) }
    ensures { result ≡ clock_by hours minutes seconds micros }
{
    let hours = hours?;
    let minutes = minutes?;
    let seconds = seconds?;
    let micros = micros?;
    Some(((hours * 60 + minutes) * 60 + seconds) * 1_000_000 + micros)
}

/// The microseconds of a day at a time as `06:51:34.000213334`.
pub(crate) fn read_clock(word: &[u8]) -> Option<u64>
    ensures { result ≡ clock_of word.now }
{
    let (hours, rest) = cut(word, b':');
    let (minutes, rest) = cut(rest, b':');
    let (seconds, digits) = cut(rest, b'.');
    let hours = read_two(hours);
    let minutes = read_two(minutes);
    let seconds = read_two(seconds);
    let micros = read_micros(digits);
    join_clock(hours, minutes, seconds, micros)
}
