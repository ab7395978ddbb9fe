//! What the options say, and how labels stand in a picture.
use chart_parts::write_label;
use rpc_msg::{RefId, Vat};
use std::alloc::{AllocError, Global};
use std::process::Abort;
use trace_chart_lib::Options;

/// What options say of an entry or of a reference; or one more of them.
#[derive(Clone, Copy)]
enum Step {
    With(&'static str, &'static str),
    Draws(u64, bool),
    Marks(Vat, RefId, bool),
    IsEmpty(bool),
}

const CHOSEN: [Step; 18] = [
    Step::Draws(1, true),
    Step::Draws(60, true),
    Step::Draws(61, false),
    Step::Marks(Vat::A, RefId(0), false),
    Step::With("--from", "100"),
    Step::Draws(99, false),
    Step::Draws(159, true),
    Step::Draws(160, false),
    Step::With("--to", "101"),
    Step::Draws(101, true),
    Step::Draws(102, false),
    Step::IsEmpty(false),
    Step::With("--ref", "b/18446744073709551615"),
    Step::Marks(Vat::B, RefId(18446744073709551615), true),
    Step::Marks(Vat::A, RefId(18446744073709551615), false),
    Step::Marks(Vat::B, RefId(0), false),
    Step::With("--to", "99"),
    Step::IsEmpty(true),
];

// No clause says what the small functions here do: a test is proved quicker if nothing is known of what it compares.
fn with(options: Options, word: &str, value: &str) -> Option<Options> {
    options.with(word, value)
}

/// The options after a step. None if it does not hold.
fn take(options: Options, step: Step) -> Option<Options> {
    let holds = match step {
        Step::With(word, value) => return with(options, word, value),
        Step::Draws(number, wanted) => options.draws(number) == wanted,
        Step::Marks(vat, reference, wanted) => options.marks(vat, reference) == wanted,
        Step::IsEmpty(wanted) => options.is_empty() == wanted,
    };
    match holds {
        true => Some(options),
        false => None,
    }
}

fn take_all(rt: &impl Abort, options: Options, steps: &[Step]) {
    let mut options = options;
    for (at, step) in steps.iter().enumerate() {
        match take(options, *step) {
            Some(next) => options = next,
            None => panic!(rt; "step {at}"),
        }
    }
}

#[test]
fn options_say_which_entries_are_drawn_and_whose_calls_stand_out(rt: HostRuntime) {
    take_all(&rt, Options::new(), &CHOSEN);
}

fn words_say(alloc: Global, words: &[&str]) -> Result<Option<Options>, AllocError> {
    let mut owned = Vec::new(alloc);
    for word in words {
        owned.push(String::from_str(alloc, word)?)?;
    }
    Ok(Options::of(owned.as_slice()))
}

/// Words and values that say nothing.
const OTHER: [(&str, &str); 13] = [
    ("--until", "3"),
    ("from", "3"),
    ("--from", ""),
    ("--from", "+3"),
    ("--to", "x"),
    ("--to", "18446744073709551616"),
    ("--ref", "a"),
    ("--ref", "0"),
    ("--ref", "a/"),
    ("--ref", "/0"),
    ("--ref", "c/0"),
    ("--ref", "a/0/1"),
    ("--ref", "a/-1"),
];

const FROM_2_TO_3: [Step; 4] = [
    Step::Draws(1, false),
    Step::Draws(2, true),
    Step::Draws(3, true),
    Step::Draws(4, false),
];

#[test]
fn words_say_options_in_pairs(rt: HostRuntime) {
    let Ok(Some(options)) = words_say(rt.alloc(), &["--from", "2", "--to", "3"]) else {
        panic!(rt; "refused");
    };
    take_all(&rt, options, &FROM_2_TO_3);
    let half = words_say(rt.alloc(), &["--from", "2", "--to"]);
    assert!(rt; matches!(half, Ok(None)));
    for (word, value) in OTHER {
        assert!(rt;
            with(Options::new(), word, value).is_none(),
            "{word} {value}"
        );
    }
}

/// In tenths of a pixel a digit and an a are taken for 77 wide, a space for 42, an ampersand for 100 and a W for 120; a
/// label may be 4,800.
const LABELS: [(&str, &str); 5] = [
    (
        "<a href=\"x\">&\u{1}b\n\u{ffff}é",
        "&lt;a href=&quot;x&quot;&gt;&amp; b  é",
    ),
    // 4,795
    (
        "123456789 123456789 123456789 123456789 123456789 123456789 12345",
        "123456789 123456789 123456789 123456789 123456789 123456789 12345",
    ),
    // 4,741 up to the first ampersand
    (
        "123456789 123456789 123456789 123456789 123456789 123456789 123&&&",
        "123456789 123456789 123456789 123456789 123456789 123456789 123&amp;…",
    ),
    (
        "WWWWWWWWWWWWWWWWWWWWWWWWWWWWWWWWWWWWWWWW",
        "WWWWWWWWWWWWWWWWWWWWWWWWWWWWWWWWWWWWWWWW",
    ),
    (
        "WWWWWWWWWWWWWWWWWWWWWWWWWWWWWWWWWWWWWWWWa",
        "WWWWWWWWWWWWWWWWWWWWWWWWWWWWWWWWWWWWWWWW…",
    ),
];

fn label(alloc: Global, text: &str) -> Result<String, AllocError> {
    let mut svg = String::new(alloc);
    write_label(&mut svg, text, 4800)?;
    Ok(svg)
}

fn is_label(alloc: Global, text: &str, wanted: &str) -> bool {
    match label(alloc, text) {
        Ok(svg) => svg.as_str() == wanted,
        Err(_) => false,
    }
}

#[test]
fn a_label_stands_as_svg_has_it_and_long_ones_are_cut(rt: HostRuntime) {
    for (text, wanted) in LABELS {
        assert!(rt; is_label(rt.alloc(), text, wanted), "{wanted}");
    }
}
