//! A text as SVG has it, cut if it is too wide.
ghost use Rattle.std.specs.Prelude.{◌≡◌, ◌++◌, ◌≤◌, ℕ, List, OnOk, nat_lt, string_bytes};
ghost use Rattle.std.specs.Str.{chars};
ghost use Rattle.chart_parts.specs.Escapes.{escaped, letter_text};
ghost use Rattle.chart_parts.specs.Labels.{width, widths, IsShown};

use std::alloc::AllocError;

/// About how wide a character is at the pictures' size of 12, in tenths of a pixel, in the widest of the usual fonts.
pub fn width_of(letter: char) -> u64
    ensures is { result ≡ width letter }
    ensures small { result ≤ 120 }
{
    match letter {
        ' ' | '.' | ',' | ':' | ';' | '/' | '|' | '\'' | 'i' | 'j' | 'l' => 42,
        '(' | ')' | '[' | ']' | '-' | '!' | 'f' | 't' | 'r' | 'I' => 50,
        'm' | 'w' | 'M' | 'W' | '@' | '%' => 120,
        'A'..='Z' | '#' | '&' | '<' | '>' | '=' | '+' | '~' => 100,
        '!'..='~' => 77,
        _ => 120,
    }
}

/// Whether there is no place for all of a label; the place is in tenths of a pixel.
pub fn is_cut(label: &str, place: u16) -> bool
    ensures { result ≡ nat_lt place (widths (chars label.now)) }
{
    let mut width: u64 = 0;
    for letter in label.chars() {
        width += width_of(letter);
        if width > place as u64 {
            return true;
        }
    }
    false
}

/// A label as SVG has it, behind a text. If there is no place for all of it, it is cut; the place is in tenths of a pixel.
///
/// An error leaves a part of it behind the text.
pub fn write_label(svg: &mut String, label: &str, place: u16) -> Result<(), AllocError>
    ensures { OnOk result ((shown : List ℕ) × IsShown place (chars label.now) shown × (string_bytes svg.new ≡ string_bytes svg.old ++ shown)) }
{
    let mut width: u64 = 0;
    for letter in label.chars() {
        width += width_of(letter);
        if width > place as u64 {
            return svg.push('…');
        }
        write_letter(svg, letter)?;
    }
    Ok(())
}

/// A text as SVG has it, behind a text. An error leaves a part of it there.
pub fn write_escaped(svg: &mut String, text: &str) -> Result<(), AllocError>
    ensures { OnOk result (string_bytes svg.new ≡ string_bytes svg.old ++ escaped (chars text.now)) }
{
    for letter in text.chars() {
        write_letter(svg, letter)?;
    }
    Ok(())
}

/// A character as SVG has it, behind a text. One that XML has no place for is a space.
pub fn write_letter(svg: &mut String, letter: char) -> Result<(), AllocError>
    ensures { OnOk result (string_bytes svg.new ≡ string_bytes svg.old ++ letter_text letter) }
{
    match letter {
        '<' => svg.push_str("&lt;"),
        '>' => svg.push_str("&gt;"),
        '&' => svg.push_str("&amp;"),
        '"' => svg.push_str("&quot;"),
        '\u{0}'..='\u{1f}' => svg.push(' '),
        '\u{fffe}'..='\u{ffff}' => svg.push(' '),
        _ => svg.push(letter),
    }
}
