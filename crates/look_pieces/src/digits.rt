//! Numbers in a line, and the bytes that digits spell.
ghost use Rattle.std.specs.Prelude.{◌≡◌, ◌<◌, ◌^◌, ◌&&◌, nat_lt, true, if◌then◌else◌, Some, None, length, IfSome};
ghost use Rattle.std.specs.Str.Parse.{digits_value};
ghost use Rattle.std.specs.Str.{all_ascii_digits};
ghost use Rattle.look_pieces.specs.Words.{number_of, two_of, hex_of};

/// A decimal number of one digit or more, if it has no more than 64 bits.
pub(crate) fn read_number(word: &[u8]) -> Option<u64>
    ensures { result ≡ number_of word.now }
{
    if word.is_empty() || !are_digits(word) {
        return None;
    }
    number(word)
}

/// The number that digits say, if it has no more than 64 bits.
fn number(digits: &[u8]) -> Option<u64>
    requires { all_ascii_digits digits.now ≡ true }
    ensures { result ≡ (if nat_lt (digits_value 10 digits.now) (2 ^ 64) then Some (digits_value 10 digits.now) else None) }
{
    let mut number: u64 = 0;
    for digit in digits {
        let Some(tens) = number.checked_mul(10) else {
            return None;
        };
        match tens.checked_add(u64::from(*digit - b'0')) {
            Some(more) => number = more,
            None => return None,
        }
    }
    Some(number)
}

pub(crate) fn are_digits(digits: &[u8]) -> bool
    ensures { result ≡ all_ascii_digits digits.now }
{
    for digit in digits {
        if !digit.is_ascii_digit() {
            return false;
        }
    }
    true
}

/// A number of two digits.
pub(crate) fn read_two(word: &[u8]) -> Option<u64>
    ensures value { result ≡ two_of word.now }
    ensures small { IfSome result (λ n. n < 100) }
{
    if word.len() != 2 || !are_digits(word) {
        return None;
    }
    let tens = u64::from(word[0] - b'0');
    let units = u64::from(word[1] - b'0');
    Some(10 * tens + units)
}

/// What a lower-case hexadecimal digit says.
pub(crate) fn read_hex(digit: u8) -> Option<u8>
    ensures value { result ≡ hex_of digit }
    ensures small { IfSome result (λ n. n < 16) }
{
    if digit.is_ascii_digit() {
        return Some(digit - b'0');
    }
    if b'a' <= digit && digit <= b'f' {
        return Some(digit - b'a' + 10);
    }
    None
}
