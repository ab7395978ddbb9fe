//! What `vat_trace` prints and says, and with which status it ends.
use std::alloc::Global;
use std::process::Abort;
use vat_trace_lib::{play, status};

/// The status, what is printed and what is said.
pub(super) type Output = (u8, &'static str, &'static str);

// No clause says what this does: a test is proved quicker if nothing is known of what it compares.
fn status_of(alloc: Global, word: &str, input: &[u8], out: &mut Vec<u8>, err: &mut Vec<u8>) -> u8 {
    let mut reader = input;
    let played = play(alloc, word, &mut reader, out);
    status(played, "-", err)
}

fn has_output(alloc: Global, word: &str, input: &[u8], wanted: (u8, &str, &str)) -> bool {
    let (mut out, mut err) = (Vec::new(alloc), Vec::new(alloc));
    let status = status_of(alloc, word, input, &mut out, &mut err);
    let (wanted, printed, said) = wanted;
    status == wanted && out.as_slice() == printed.as_bytes() && err.as_slice() == said.as_bytes()
}

/// Plays an input and compares the status, what is printed and what is said.
pub(super) fn check(
    rt: &impl Abort,
    alloc: Global,
    word: &str,
    input: &[u8],
    wanted: (u8, &str, &str),
) {
    assert!(rt;
        has_output(alloc, word, input, wanted),
        "{word}: {}{}",
        wanted.1,
        wanted.2
    );
}

const EMPTY: &str =
    "{\"k\":\"head\",\"version\":2}\n{\"a\":{\"exports\":[],\"imports\":[]},\"b\":{\"exports\":[],\"imports\":[]},\"k\":\"tables\"}\n";

const REFUSED: &str =
    "{\"k\":\"head\",\"version\":2}\n{\"code\":6,\"k\":\"refused\",\"vat\":\"b\"}\n{\"call\":0,\"k\":\"asked\",\"vat\":\"a\"}\n{\"k\":\"sent\",\"message\":{\"bootstrap\":{\"question\":0}},\"vat\":\"a\"}\n{\"a\":{\"exports\":[],\"imports\":[]},\"b\":{\"exports\":[],\"imports\":[]},\"k\":\"tables\"}\n";

/// The word, the script, and the output.
const SCRIPTS: &[(&str, &[u8], Output)] = &[
    ("run", b"", (0, EMPTY, "")),
    ("run", b"# one\n\n#\n", (0, EMPTY, "")),
    // a refused command is written, and the script goes on
    ("run", b"b answer 0 -\na bootstrap x\n", (0, REFUSED, "")),
    // a line that says nothing is found before any runs
    (
        "run",
        b"a drop unbound\na bootstrap boot\na  drop x\n",
        (2, "", "script line 3: fault\n"),
    ),
    // a name that is not bound
    (
        "run",
        b"a bootstrap boot\n\na drop boot\n",
        (2, "", "script line 3: fault\n"),
    ),
    // a number that is too large
    (
        "run",
        b"a bootstrap boot\na answer 18446744073709551616 -",
        (2, "", "script line 2: fault\n"),
    ),
    // a line of the other program
    ("run", b"a turn\n", (2, "", "script line 1: fault\n")),
    // a byte order mark
    (
        "run",
        b"\xef\xbb\xbfa host obj 7\n",
        (2, "", "script line 1: fault\n"),
    ),
    // the last line may lack its newline
    (
        "run",
        b"#\n\na drop\nb host obj",
        (2, "", "script line 3: fault\n"),
    ),
    ("run", b"b answer 0 -\na bootstrap x", (0, REFUSED, "")),
    // lines that end as Windows ends them
    (
        "run",
        b"a host obj 7\r\na drop obj\r\n",
        (2, "", "script line 1: fault\n"),
    ),
    // a task that was not delivered
    (
        "run",
        b"a host obj 7\na take x 0 0\n",
        (2, "", "script line 2: fault\n"),
    ),
    // a call that has no outcome yet
    (
        "run",
        b"a bootstrap boot\na got x boot 0\n",
        (2, "", "script line 2: fault\n"),
    ),
    // no text
    ("run", b"a bootstrap \xff", (2, "", "cannot read -\n")),
    // another word
    (
        "play",
        b"",
        (2, "", "usage: vat_trace run|pair|check|show|upgrade FILE\n"),
    ),
];

/// The word, the trace, and the output.
const TRACES: [(&str, &[u8], Output); 7] = [
    ("check", b"", (2, "", "trace line 1: fault 51\n")),
    // a head of a later version
    (
        "show",
        b"{\"k\":\"head\",\"version\":3}\n",
        (2, "", "trace line 1: fault 54\n"),
    ),
    // a second head
    (
        "check",
        b"{\"k\":\"head\",\"version\":1}\n{\"k\":\"head\",\"version\":2}",
        (2, "", "trace line 2: fault 51\n"),
    ),
    // a line that is cut
    (
        "upgrade",
        b"{\"k\":\"head\",\"version\":1}\n{\"k\":\"got\",\"va",
        (2, "", "trace line 2: fault 50\n"),
    ),
    // the last line may lack its newline
    (
        "upgrade",
        b"{ \"version\": 1, \"k\": \"head\" }",
        (0, "{\"k\":\"head\",\"version\":2}\n", ""),
    ),
    (
        "upgrade",
        b"{\"k\":\"head\",\"version\":1}\n{\"k\":\"sent\",\"message\":{\"finish\":{\"question\":1,\"release\":false}},\"vat\":\"a\"}\n",
        (
            0,
            "{\"k\":\"head\",\"version\":2}\n{\"k\":\"sent\",\"message\":{\"finish\":{\"question\":1,\"releaseResultCaps\":false}},\"vat\":\"a\"}\n",
            "",
        ),
    ),
    // an old flag that is true
    (
        "upgrade",
        b"{\"k\":\"head\",\"version\":1}\n{\"k\":\"sent\",\"message\":{\"finish\":{\"question\":1,\"release\":true}},\"vat\":\"a\"}\n",
        (2, "", "trace line 2: fault 51\n"),
    ),
];

#[test]
fn inputs_have_these_outputs(rt: HostRuntime) {
    for (word, script, wanted) in SCRIPTS {
        check(&rt, rt.alloc(), word, script, *wanted);
    }
    for (word, trace, wanted) in TRACES {
        check(&rt, rt.alloc(), word, trace, wanted);
    }
}
