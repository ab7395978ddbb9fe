//! Texts in quotes, as JSON has them.
use std::alloc::AllocError;

/// A text in quotes.
pub(crate) fn write_quoted(out: &mut String, text: &str) -> Result<(), AllocError> {
    out.push('"')?;
    for letter in text.chars() {
        write_letter(out, letter)?;
    }
    out.push('"')
}

fn write_letter(out: &mut String, letter: char) -> Result<(), AllocError> {
    match letter {
        '"' => out.push_str("\\\""),
        '\\' => out.push_str("\\\\"),
        '\n' => out.push_str("\\n"),
        '\r' => out.push_str("\\r"),
        '\t' => out.push_str("\\t"),
        '\u{0}'..='\u{1f}' => write!(out, "\\u{:04x}", letter as u32),
        _ => out.push(letter),
    }
}
