// Payloads made and looked into. No vat is needed.
ghost use Rattle.std.specs.Prelude.{◌≡◌, option_map};
ghost use Rattle.lovendak_c_desk.specs.Contents.{Makes, NumberAt, ReferenceAt, TextAt};
ghost use Rattle.lovendak_c_desk.specs.Given.{path};
ghost use Rattle.lovendak_c.specs.Calls.{Gives, Tells, text_of};

use crate::codes::{done, done_with};
use std::alloc::Global;

/// Hands out the bytes of a payload: a struct whose data words are these numbers, with the text as its pointer 0 if `has_text` is
/// not 0, and so many capabilities as the pointers behind it. If there is too little room (103) nothing is handed out but the
/// length.
#[unsafe(no_mangle)]
pub extern "C" fn lovendak_contents(
    alloc: Global,
    numbers: &[u64],
    has_text: u32,
    text: &[u8],
    caps: u32,
    out: &mut [u8],
    len: &mut usize,
) -> u32
    ensures { Tells result (λ answer. Makes numbers.now (text_of has_text text.now) caps out.old len.old answer out.new len.new) }
{
    let text = text_of(has_text, text);
    done(lovendak_c_desk::contents(alloc, numbers, text, caps, out, len))
}

// A text, unless the number is 0.
fn text_of(has_text: u32, text: &[u8]) -> Option<&[u8]>
    ensures { option_map (λ t. t.now) result ≡ text_of has_text text.now }
{
    if has_text == 0 {
        return None;
    }
    Some(text)
}

/// Says the data word of that index of a payload's root, a struct: 0 past its end. 104 if the root is a list or a capability,
/// 102 if the bytes are no payload of so many capabilities.
#[unsafe(no_mangle)]
pub extern "C" fn lovendak_number_at(
    alloc: Global,
    payload: &[u8],
    caps: u32,
    index: usize,
    number: &mut u64,
) -> u32
    ensures { Gives result number.old number.new (λ answer. NumberAt (record { bytes = payload.now; caps = caps }) index answer) }
{
    done_with(
        lovendak_c_desk::number_at(alloc, payload, caps, index),
        number,
    )
}

/// Hands out the text at that pointer of a payload's root, a struct: none past the end. 104 if something else stands there, 102
/// if the bytes are no payload. If there is too little room (103) nothing is handed out but the length.
#[unsafe(no_mangle)]
pub extern "C" fn lovendak_text_at(
    alloc: Global,
    payload: &[u8],
    caps: u32,
    pointer: u16,
    out: &mut [u8],
    text_len: &mut usize,
) -> u32
    ensures { Tells result (λ answer. TextAt (record { bytes = payload.now; caps = caps }) pointer out.old text_len.old answer out.new text_len.new) }
{
    done(lovendak_c_desk::text_at(alloc, payload, caps, pointer, out, text_len))
}

/// Says which of the references that came with a payload stands at that path. 104 if no capability does, 102 if the bytes are
/// no payload.
#[unsafe(no_mangle)]
pub extern "C" fn lovendak_ref_at(
    alloc: Global,
    payload: &[u8],
    caps: u32,
    steps: &[u16],
    index: &mut usize,
) -> u32
    ensures { Gives result index.old index.new (λ answer. ReferenceAt (record { bytes = payload.now; caps = caps }) (path steps.now) answer) }
{
    done_with(
        lovendak_c_desk::reference_at(alloc, payload, caps, steps),
        index,
    )
}
