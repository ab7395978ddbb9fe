ghost use Rattle.std.specs.Prelude.{◌≡◌, ◌==◌, ◌<◌, ◌≢◌, ◌^◌, nat_lt, true, if◌then◌else◌, Some, None, IfOk, map, drop};
ghost use Rattle.std.specs.Str.Parse.{digits_value};
ghost use Rattle.std.specs.Str.{all_ascii_digits};
ghost use Rattle.script_language.specs.Lines.{Reads};
ghost use Rattle.script_language.specs.Words.{is_text, vat_of, name_of, number_of, field_number, each_of, path_of, caps_of, caps_of_parts};

use crate::fault::{LineFault, ReadFault};
use crate::name::Name;
use crate::parts::split_at_each;
use rpc_msg::{Items, Op, Vat};
use std::alloc::Global;

/// The most capabilities that a line may name.
const CAPS_LIMIT: usize = 65_535;

/// Whether the word is that text. Most words have another length or another first letter, which is seen at once.
#[inline(always)]
pub(crate) fn is_word(text: &str, word: &[u8]) -> bool
    ensures { result ≡ is_text text.now word.now }
{
    let text = text.as_bytes();
    if word.len() != text.len() {
        return false;
    }
    for i in 0..text.len() {
        if word[i] != text[i] {
            return false;
        }
    }
    true
}

pub(crate) fn read_vat(word: &[u8]) -> Result<Vat, LineFault>
    ensures { result ≡ vat_of word.now }
{
    match word {
        [b'a'] => Ok(Vat::A),
        [b'b'] => Ok(Vat::B),
        _ => Err(LineFault::Vat),
    }
}

/// A decimal number. A sign is none of its digits.
pub(crate) fn read_u64(word: &[u8]) -> Result<u64, LineFault>
    ensures { result ≡ number_of 64 word.now }
{
    if word.is_empty() || !are_digits(word) {
        return Err(LineFault::Number);
    }
    match number(word) {
        Some(number) => Ok(number),
        None => Err(LineFault::LargeNumber),
    }
}

/// The number that digits say, if it has no more than 64 bits.
fn number(digits: &[u8]) -> Option<u64>
    requires { all_ascii_digits digits.now ≡ true }
    ensures { result ≡ (if nat_lt (digits_value 10 digits.now) (2 ^ 64) then Some (digits_value 10 digits.now) else None) }
{
    let mut number: u64 = 0;
    for digit in digits {
        let Some(tens) = number.checked_mul(10) else {
            return None;
        };
        match tens.checked_add(u64::from(*digit - b'0')) {
            Some(more) => number = more,
            None => return None,
        }
    }
    Some(number)
}

fn are_digits(digits: &[u8]) -> bool
    ensures { result ≡ all_ascii_digits digits.now }
{
    for digit in digits {
        if !digit.is_ascii_digit() {
            return false;
        }
    }
    true
}

/// The same of 32 bits.
pub(crate) fn read_u32(word: &[u8]) -> Result<u32, LineFault>
    ensures { result ≡ number_of 32 word.now }
{
    let number = read_u64(word)?;
    match u32::try_from(number) {
        Ok(number) => Ok(number),
        Err(_) => Err(LineFault::LargeNumber),
    }
}

/// The same of 16 bits.
pub(crate) fn read_u16(word: &[u8]) -> Result<u16, LineFault>
    ensures { result ≡ number_of 16 word.now }
{
    let number = read_u64(word)?;
    match u16::try_from(number) {
        Ok(number) => Ok(number),
        Err(_) => Err(LineFault::LargeNumber),
    }
}

fn read_field(word: &[u8]) -> Result<Op, LineFault>
    ensures { result ≡ field_number word.now }
{
    let number = read_u16(word)?;
    Ok(Op::Field(number))
}

pub(crate) fn read_path(alloc: Global, word: &[u8]) -> Result<Items<Op>, ReadFault>
    ensures { Reads (path_of word.now) result }
{
    if let [b'-'] = word {
        return Ok(Items::new(alloc));
    }
    let parts = split_at_each(alloc, word, b'.')?;
    read_fields(alloc, parts.as_slice())
}

fn read_fields(alloc: Global, parts: &[&[u8]]) -> Result<Items<Op>, ReadFault>
    ensures { Reads (each_of field_number (map (λ part. part.now) parts.now)) result }
{
    let mut path = Items::new(alloc);
    for part in parts {
        let field = read_field(part)?;
        match path.push(field) {
            Ok(()) => {}
            Err(_) => return Err(ReadFault::Memory),
        }
    }
    Ok(path)
}

pub(crate) fn read_caps(alloc: Global, word: &[u8]) -> Result<Items<Name>, ReadFault>
    ensures { Reads (caps_of word.now) result }
{
    if let [b'-'] = word {
        return Ok(Items::new(alloc));
    }
    let parts = split_at_each(alloc, word, b',')?;
    if parts.len() > CAPS_LIMIT {
        return Err(ReadFault::Line(LineFault::ManyCaps));
    }
    read_names(alloc, parts.as_slice())
}

fn read_names(alloc: Global, parts: &[&[u8]]) -> Result<Items<Name>, ReadFault>
    ensures { Reads (each_of name_of (map (λ part. part.now) parts.now)) result }
{
    let mut names = Items::new(alloc);
    for part in parts {
        let name = Name::of_word(part)?;
        match names.push(name) {
            Ok(()) => {}
            Err(_) => return Err(ReadFault::Memory),
        }
    }
    Ok(names)
}
