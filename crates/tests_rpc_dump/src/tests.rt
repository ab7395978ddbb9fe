//! What is said of conversations, with which status they end, and what is said then.
ghost use Rattle.rpc_dump_lib.specs.Named.{IsNamed};

use program_files::ProgramFailure;
use rpc_dump_lib::{Failure, Form, Options, dump, status, tell};
use std::alloc::Global;
use std::io;
use std::io::{Error, ErrorKind, Read, Write};
use std::process::Abort;
use std::test::Fail;

// A Bootstrap, as a vat of the C++ library wrote it.
const BOOTSTRAP: &[u8] =
    b"\x00\x00\x00\x00\x05\x00\x00\x00\x00\x00\x00\x00\x01\x00\x01\x00\x08\x00\x00\x00\x00\x00\x00\x00\x00\x00\x00\x00\x01\x00\x01\x00\x00\x00\x00\x00\x00\x00\x00\x00\x00\x00\x00\x00\x00\x00\x00\x00";

const BOOTSTRAP_LINE: &str = "{\"bootstrap\":{\"question\":0}}\n";

// That Bootstrap, a frame whose root is a list, an empty line, and a Return of the library's.
const MIXED: &str =
    "000000000500000000000000010001000800000000000000000000000100010000000000000000000000000000000000\n0000000002000000010000000a0000000100000000000000\n\n000000000b00000000000000010001000300000000000000000000000200010000000000000000000000000000000000000000000000020003000000000000000100000017000000040000000100010001000000000000000000000000000000";

const MIXED_LINES: &str =
    "{\"bootstrap\":{\"question\":0}}\n{\"fault\":60}\n{\"fault\":2}\n{\"return\":{\"answer\":0,\"body\":{\"results\":{\"caps\":[{\"senderHosted\":0}],\"payload\":{\"bytes\":\"AAAAAAEAAAADAAAAAAAAAA==\",\"caps\":1}}},\"releaseParamCaps\":true}}\n";

// A Call with ten bytes in its params, and that Return.
const CONTENTS: &str =
    "0000000010000000000000000100010002000000000000000000000003000300010000000000000003000000000000a0000000000000000008000000010001000c0000000000020000000000000000000000000000000000000000000000000004000000000001000000000000000000010000005200000000070e151c232a31383f000000000000\n000000000b00000000000000010001000300000000000000000000000200010000000000000000000000000000000000000000000000020003000000000000000100000017000000040000000100010001000000000000000000000000000000\n";

const CONTENTS_LINES: &str =
    "{\"call\":{\"caps\":[],\"interface\":11529215046068469763,\"method\":0,\"payload\":{\"bytes\":\"AAAAAAQAAAAAAAAAAAABAAEAAABSAAAAAAcOFRwjKjE4PwAAAAAAAA==\",\"caps\":0,\"tree\":{\"struct\":{\"pointers\":[{\"bytes\":[0,7,14,21,28,35,42,49,56,63]}],\"words\":[]}}},\"question\":1,\"target\":{\"import\":0}}}\n{\"return\":{\"answer\":0,\"body\":{\"results\":{\"caps\":[{\"senderHosted\":0}],\"payload\":{\"bytes\":\"AAAAAAEAAAADAAAAAAAAAA==\",\"caps\":1,\"tree\":{\"cap\":0}}}},\"releaseParamCaps\":true}}\n";

// The form of lines that options ask for, without a schema.
fn form_of(options: Options) -> Form<'static>
    ensures { IsNamed result }
{
    Form {
        trees: options.payloads,
        schema: None,
    }
}

const STREAM: Options = Options {
    hex: false,
    payloads: false,
};

const HEX: Options = Options {
    hex: true,
    payloads: false,
};

const TREES: Options = Options {
    hex: true,
    payloads: true,
};

// Why the program ends is told in these words, and by the status.
fn is_told(rt: &impl Abort, alloc: Global, dumped: Result<(), Failure>, words: &str) {
    let mut err = Vec::new(alloc);
    if let Err(failure) = dumped {
        assert_eq!(rt; status(dumped), 2);
        let told = tell(failure, "talk", &mut err);
        assert!(rt; told.is_err() || err.as_slice() == words.as_bytes());
    } else {
        assert_eq!(rt; status(dumped), 0);
        assert!(rt; words.is_empty());
    }
}

// What is said of an input, and of why it ends before its end; "" where it doesn't.
fn says(
    rt: &impl Abort,
    alloc: Global,
    options: Options,
    input: &[u8],
    lines: &str,
    failure: &str,
) {
    let mut out = Vec::new(alloc);
    let mut reader = input;
    let mut dumped = dump(alloc, options.hex, &form_of(options), &mut reader, &mut out);
    if matches!(
        dumped,
        Err(Failure::Program(ProgramFailure::Memory | ProgramFailure::Unwritten))
    ) {
        // one growth was refused (`--fail-alloc`), in the output too: what was said stands, and none is the second time
        assert!(rt; lines.as_bytes().starts_with(&out));
        assert!(rt; out.is_empty() || out.ends_with(b"\n"));
        if dumped == Err(Failure::Program(ProgramFailure::Memory)) {
            is_told(rt, alloc, dumped, "out of memory\n");
        }
        out.clear();
        reader = input;
        dumped = dump(alloc, options.hex, &form_of(options), &mut reader, &mut out);
    }
    is_told(rt, alloc, dumped, failure);
    assert!(rt; out.as_slice() == lines.as_bytes());
}

#[test]
fn streams(rt: HostRuntime) {
    let alloc = rt.alloc();
    says(&rt, alloc, STREAM, &[], "", "");
    says(&rt, alloc, STREAM, BOOTSTRAP, BOOTSTRAP_LINE, "");
    says(
        &rt,
        alloc,
        STREAM,
        &BOOTSTRAP[..47],
        "",
        "message 1: fault 2\n",
    );
    says(
        &rt,
        alloc,
        STREAM,
        &[16, 0, 0, 0, 9],
        "",
        "message 1: fault 3\n",
    );
}

// Two messages are said before the third is none.
#[test]
fn what_was_said_stands(rt: HostRuntime) -> Result<(), Fail> {
    let alloc = rt.alloc();
    let mut stream = Vec::new(alloc);
    stream.extend_from_slice(BOOTSTRAP)?;
    stream.extend_from_slice(BOOTSTRAP)?;
    stream.extend_from_slice(&[0, 0, 0, 0, 1, 0, 1, 0])?;
    stream.extend_from_slice(BOOTSTRAP)?;
    says(
        &rt,
        alloc,
        STREAM,
        &stream,
        "{\"bootstrap\":{\"question\":0}}\n{\"bootstrap\":{\"question\":0}}\n",
        "message 3: fault 4\n",
    );
    Ok(())
}

#[test]
fn hexadecimal(rt: HostRuntime) {
    let alloc = rt.alloc();
    says(&rt, alloc, HEX, MIXED.as_bytes(), MIXED_LINES, "");
    says(&rt, alloc, HEX, b"0g\n", "", "line 1: not hexadecimal\n");
    says(&rt, alloc, HEX, b"000", "", "line 1: not hexadecimal\n");
}

#[test]
fn contents(rt: HostRuntime) {
    says(
        &rt,
        rt.alloc(),
        TREES,
        CONTENTS.as_bytes(),
        CONTENTS_LINES,
        "",
    );
}

// A stream that breaks off at once.
#[derive(Drop)]
struct Broken;

impl Read for Broken {
    fn read(&mut self, _buf: &mut [u8]) -> io::Result<usize> {
        Err(Error::from(ErrorKind::BrokenPipe))
    }
}

impl Write for Broken {
    fn write(&mut self, _buf: &[u8]) -> io::Result<usize> {
        Err(Error::from(ErrorKind::BrokenPipe))
    }

    fn flush(&mut self) -> io::Result<()> {
        Ok(())
    }
}

#[test]
fn streams_that_break_off(rt: HostRuntime) {
    let mut out = Vec::new(rt.alloc());
    let read = dump(
        rt.alloc(),
        STREAM.hex,
        &form_of(STREAM),
        &mut Broken,
        &mut out,
    );
    assert!(rt;
        read == Err(Failure::Program(ProgramFailure::Unreadable))
            || read == Err(Failure::Program(ProgramFailure::Memory))
    );
    assert!(rt; out.is_empty());
    let mut reader = BOOTSTRAP;
    let written = dump(
        rt.alloc(),
        STREAM.hex,
        &form_of(STREAM),
        &mut reader,
        &mut Broken,
    );
    assert!(rt;
        written == Err(Failure::Program(ProgramFailure::Unwritten))
            || written == Err(Failure::Program(ProgramFailure::Memory))
    );
}

#[test]
fn words(rt: HostRuntime) {
    assert_eq!(rt; Options::new(), STREAM);
    assert_eq!(rt; STREAM.with("--hex"), Some(HEX));
    assert_eq!(rt; HEX.with("--payloads"), Some(TREES));
    assert_eq!(rt; STREAM.with("--trees"), None);
}
