//! The faults of `trace_chart`, and with which status it ends.
use crate::tests::streams::Cut;
use crate::tests::traces::ONE_CALL;
use program_files::ProgramFailure;
use std::alloc::Global;
use std::str;
use trace_chart_lib::{Failure, Options, draw_trace, status, write_help};

// No clause says what the small functions here do: a test is proved quicker if nothing is known of what it compares.
pub(super) fn draw(
    alloc: Global,
    options: Options,
    input: &[u8],
    out: &mut Vec<u8>,
) -> Result<(), Failure> {
    let mut reader = input;
    draw_trace(alloc, options, &mut reader, out)
}

fn ends(drawn: Result<(), Failure>, name: &str, err: &mut Vec<u8>) -> u8 {
    status(drawn, name, err)
}

fn says(alloc: Global, input: &[u8], said: &str) -> bool {
    let (mut out, mut err) = (Vec::new(alloc), Vec::new(alloc));
    let drawn = draw(alloc, Options::new(), input, &mut out);
    ends(drawn, "-", &mut err) == 2 && out.is_empty() && err.as_slice() == said.as_bytes()
}

/// Inputs of which nothing is drawn, and what is said.
const FAULTS: [(&[u8], &str); 5] = [
    (b"", "trace line 1: fault 51\n"),
    (b"{", "trace line 1: fault 50\n"),
    (
        b"{\"k\":\"head\",\"version\":3}",
        "trace line 1: fault 54\n",
    ),
    (
        b"{\"k\":\"head\",\"version\":2}\n{\"k\":\"got\",\"vat\":\"a\"}\n{\"k\":\"got\"}\n",
        "trace line 3: fault 51\n",
    ),
    (b"\xff", "cannot read -\n"),
];

#[test]
fn faults_and_misuse_are_said(rt: HostRuntime) {
    for (input, said) in FAULTS {
        assert!(rt; says(rt.alloc(), input, said), "{said}");
    }
    let mut err = Vec::new(rt.alloc());
    assert!(rt; ends(Err(Failure::Program(ProgramFailure::Usage)), "-", &mut err) == 2);
    assert!(rt;
        ends(
            Err(Failure::Program(ProgramFailure::Unreadable)),
            "one",
            &mut err
        ) == 2
    );
    let said = "usage: trace_chart FILE [--ref V/N] [--from N] [--to N]\ncannot read one\n";
    assert!(rt; err.as_slice() == said.as_bytes());
}

fn draw_to(alloc: Global, out: &mut Cut) -> Result<(), Failure> {
    let mut reader = ONE_CALL.as_bytes();
    draw_trace(alloc, Options::new(), &mut reader, out)
}

#[test]
fn nothing_is_said_where_the_picture_breaks_off(rt: HostRuntime) {
    let mut out = Cut { left: 3 };
    let mut err = Vec::new(rt.alloc());
    let drawn = draw_to(rt.alloc(), &mut out);
    assert!(rt; ends(drawn, "-", &mut err) == 2);
    assert!(rt; err.is_empty());
}

const EACH_OPTION: [&str; 4] = [
    "usage: trace_chart FILE",
    "--ref V/N ",
    "--from N ",
    "--to N ",
];

fn help(out: &mut Vec<u8>) -> Result<(), Failure> {
    write_help(out)
}

fn cut_help(out: &mut Cut) -> Result<(), Failure> {
    write_help(out)
}

#[test]
fn help_says_each_option(rt: HostRuntime) {
    let (mut out, mut err) = (Vec::new(rt.alloc()), Vec::new(rt.alloc()));
    let written = help(&mut out);
    assert!(rt; ends(written, "-", &mut err) == 0 && err.is_empty());
    let Ok(text) = str::from_utf8(out.as_slice()) else {
        panic!(rt; "no text");
    };
    for said in EACH_OPTION {
        assert!(rt; text.contains(said), "{said}");
    }
    assert!(rt; cut_help(&mut Cut { left: 3 }) == Err(Failure::Program(ProgramFailure::Unwritten)));
}
