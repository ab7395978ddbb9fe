//! What the tests of several crates have in common: bytes that are written as hexadecimal digits.
#![tactic(auto)]

use std::alloc::{AllocError, Global};

/// The bytes that hexadecimal digits spell. What is no digit only divides.
pub fn bytes_of(alloc: Global, text: &str) -> Result<Vec<u8>, AllocError> {
    let mut bytes = Vec::new(alloc);
    let mut high = None;
    for c in text.bytes() {
        let digit = match c {
            b'0'..=b'9' => c - b'0',
            b'a'..=b'f' => c - b'a' + 10,
            _ => continue,
        };
        high = match high {
            None => Some(digit),
            Some(first) => {
                bytes.push(first << 4 | digit)?;
                None
            }
        };
    }
    Ok(bytes)
}
