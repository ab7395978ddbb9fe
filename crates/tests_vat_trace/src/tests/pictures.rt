//! What a picture has of a trace.
use crate::tests::drawing::draw;
use crate::tests::traces::{EMBARGO, FAR, ONE_CALL, PASSED, PROMISE, REUSED, WAITING};
use std::alloc::{AllocError, Global};
use std::fmt::Write;
use std::process::Abort;
use std::str;
use trace_chart_lib::Options;

/// The options with one or two more.
fn chosen(rt: &impl Abort, words: &[(&str, &str)]) -> Options {
    let mut options = Options::new();
    for (word, value) in words {
        match options.with(word, value) {
            Some(more) => options = more,
            None => panic!(rt; "{word} {value}"),
        }
    }
    options
}

fn count(svg: &str, text: &str) -> usize {
    svg.matches(text).count()
}

/// How often each text stands in the picture of a trace.
fn check(
    rt: &impl Abort,
    alloc: Global,
    trace: &str,
    words: &[(&str, &str)],
    wanted: &[(&str, usize)],
) {
    let mut out = Vec::new(alloc);
    let options = chosen(rt, words);
    assert!(rt; draw(alloc, options, trace.as_bytes(), &mut out).is_ok());
    let Ok(svg) = str::from_utf8(out.as_slice()) else {
        panic!(rt; "no text");
    };
    for (text, times) in wanted {
        assert!(rt; count(svg, text) == *times, "{text}");
    }
}

/// A trace, the options, and how often each text stands in its picture.
type Picture = (
    &'static str,
    &'static [(&'static str, &'static str)],
    &'static [(&'static str, usize)],
);

const OF_ONE_CALL: &[Picture] = &[
    // The entries 2 to 24 have rows, 24 apart from 104 on: the Bootstrap of entry 3 is received in entry 7.
    (
        ONE_CALL,
        &[],
        &[
            (">entries 2 to 24 of 24</text>", 1),
            (">asks for the bootstrap object, call 0</text>", 1),
            (">Bootstrap, call 0 (question 0)</text>", 1),
            ("<line x1=\"560\" y1=\"128\" x2=\"840\" y2=\"224\"", 1),
            (">reference 0 to the results of call 0</text>", 1),
            (">calls a/0 #0 as call 1; interface 7, method 1</text>", 1),
            (">Call a/0 #0 (question 1), to answer 0</text>", 1),
            (">delivers a/0 #0 to object 0, task 0</text>", 1),
            (
                ">Return of Bootstrap, call 0 (answer 0) with senderHosted 0: results</text>",
                1,
            ),
            (">call 0 ends with new reference 1: results</text>", 1),
            (">answers task 0: results</text>", 1),
            (">Return of a/0 #0 (answer 1): results</text>", 1),
            (">finishes call 1</text>", 1),
            (">drops reference 0</text>", 1),
            (">Finish of a/0 #0 (question 1)</text>", 1),
            (">Finish of Bootstrap, call 0 (question 0)</text>", 1),
            (">exports: none; imports: 0 by 1</text>", 1),
            (">exports: 0 by 1; imports: none</text>", 1),
            ("marker-end", 6),
            ("left out", 0),
            (">embargo<", 1),
            (">a call waits<", 1),
            ("waits: ", 0),
            ("goes on", 0),
            ("gets ", 0),
            ("<title>", 0),
            ("#c2410c", 1),
            (">vat A</text>", 1),
        ],
    ),
    // Vat A's reference 0 is made, called through and dropped; its call has a Call, a Return and a Finish, is delivered,
    // answered, ended and finished.
    (
        ONE_CALL,
        &[("--ref", "a/0")],
        &[
            (">reference a/0</text>", 1),
            ("text-anchor=\"end\" fill=\"#c2410c\">", 7),
            ("text-anchor=\"start\" fill=\"#c2410c\">", 3),
            ("fill=\"#c2410c\">Return of a/0 #0", 1),
            ("r=\"3\" fill=\"#c2410c\"", 7),
            ("marker-end=\"url(#marked)\"", 3),
            ("marker-end=\"url(#head)\"", 3),
        ],
    ),
    // Reference 1 of vat A comes with an outcome, and nothing is done with it. Vat B has no reference.
    (
        ONE_CALL,
        &[("--ref", "a/1")],
        &[
            (">reference a/1</text>", 1),
            ("text-anchor=\"end\" fill=\"#c2410c\">", 0),
        ],
    ),
    (
        ONE_CALL,
        &[("--ref", "b/0")],
        &[
            (">reference b/0, which no entry names</text>", 1),
            ("text-anchor=\"end\" fill=\"#c2410c\">", 0),
            ("text-anchor=\"start\" fill=\"#c2410c\">", 0),
            ("r=\"3\" fill=\"#c2410c\"", 0),
            ("marker-end=\"url(#marked)\"", 0),
        ],
    ),
    // Entry 3 sends the Bootstrap, entry 7 receives it: what is not drawn is cut.
    (
        ONE_CALL,
        &[("--from", "3"), ("--to", "4")],
        &[
            (">entries 3 to 4 of 24; 21 left out (", 1),
            (">Bootstrap, call 0 (question 0)</text>", 1),
            ("<line x1=\"560\" y1=\"104\" x2=\"600\" y2=\"116\"", 1),
            ("marker-end", 0),
        ],
    ),
    (
        ONE_CALL,
        &[("--from", "7"), ("--to", "7")],
        &[
            (">entries 7 to 7 of 24; 22 left out (", 1),
            (">gets Bootstrap, call 0 (question 0)</text>", 1),
            ("<line x1=\"800\" y1=\"92\" x2=\"840\" y2=\"104\"", 1),
            ("marker-end", 1),
        ],
    ),
    (
        ONE_CALL,
        &[("--from", "25")],
        &[(">none of 24 entries; 23 left out (", 1), ("marker-end", 0)],
    ),
];

const OF_EMBARGOES: &[Picture] = &[
    // The Disembargo is sent in entry 4, the third row, and received back in entry 9, the eighth.
    (
        EMBARGO,
        &[],
        &[
            (">Bootstrap (question 0)</text>", 1),
            (">advances reference 3: embargoed</text>", 1),
            (
                ">begins embargo 5 of reference 3: Disembargo 5, to export 1</text>",
                1,
            ),
            (">Disembargo 5 back, to export 0</text>", 1),
            (">lifts embargo 5 of reference 3 (0 waited)</text>", 1),
            ("<rect x=\"556\" y=\"152\" ", 1),
            (
                "height=\"120\" fill=\"#f2c879\"><title>embargo 5 of reference 3; calls that wait: 0</title>",
                1,
            ),
            ("<title>", 1),
            (">Finish (question 3, releases)</text>", 1),
            (
                ">goes down: no such answer, or its Finish came (23)</text>",
                1,
            ),
            ("<path d=\"M 834 290 L 846 302 M 834 302 L 846 290\"", 1),
            (">Abort, exception (failed): &lt;23&gt;</text>", 1),
        ],
    ),
    // The reference is advanced; both Disembargoes are of its embargo, and where it begins and ends.
    (
        EMBARGO,
        &[("--ref", "a/3")],
        &[
            ("marker-end=\"url(#marked)\"", 2),
            ("r=\"3\" fill=\"#c2410c\"", 1),
            ("fill=\"#c2410c\">Disembargo 5 back", 1),
            ("fill=\"#c2410c\">begins embargo 5", 1),
            ("fill=\"#c2410c\">lifts embargo 5", 1),
            ("fill=\"#c2410c\">advances", 1),
        ],
    ),
    (
        EMBARGO,
        &[("--from", "6"), ("--to", "7")],
        &[("<rect x=\"556\" y=\"104\" width=\"8\" height=\"48\"", 1)],
    ),
    (
        EMBARGO,
        &[("--from", "10")],
        &[("<title>", 0), (">goes down: ", 1)],
    ),
    // Of the two calls that are made under the embargo of reference 3 one is made through it: in entry 4, the third row. It
    // goes on in entry 10, the ninth.
    (
        WAITING,
        &[],
        &[
            (
                ">waits: calls a/3 #0 as call 1; interface 7, method 1</text>",
                1,
            ),
            (">calls a/4 #0 as call 2; interface 7, method 1</text>", 1),
            ("cy=\"152\" r=\"3\" fill=\"white\" stroke=\"#1f2937\"", 1),
            (
                "<title>embargo 0 of reference 3; calls that wait: 1</title>",
                1,
            ),
            (">lifts embargo 0 of reference 3 (1 waited)</text>", 1),
            (
                "<rect x=\"566\" y=\"152\" width=\"8\" height=\"144\" fill=\"#a9c4e8\"><title>a/3 #0 waits</title>",
                1,
            ),
            (">goes on: Call a/3 #0 (question 3), to export 1</text>", 1),
        ],
    ),
];

const OF_WAITING: &[Picture] = &[
    // Three calls wait at vat B: from entry 4 to 10, in which the first goes on; from 7 to 12, in which the second has its
    // outcome; from 15 to the end. Their rows are the third, the ninth; the sixth, the eleventh; the fourteenth.
    (
        PROMISE,
        &[],
        &[
            ("waits: ", 3),
            (">waits: a/3 #0</text>", 1),
            ("cx=\"840\" cy=\"152\" r=\"3\" fill=\"white\"", 1),
            (
                "<rect x=\"836\" y=\"152\" width=\"8\" height=\"144\" fill=\"#a9c4e8\"><title>a/3 #0 waits</title>",
                1,
            ),
            (">goes on: Call a/3 #0 (question 0), to export 0</text>", 1),
            (">waits: a/3 #1</text>", 1),
            (
                "<rect x=\"826\" y=\"224\" width=\"8\" height=\"120\" fill=\"#a9c4e8\"><title>a/3 #1 waits</title>",
                1,
            ),
            (
                ">waits no more: Return of a/3 #1 (answer 2): exception (failed): no</text>",
                1,
            ),
            (">waits: a/3 #2</text>", 1),
            (
                "<rect x=\"836\" y=\"416\" width=\"8\" height=\"48\" fill=\"#a9c4e8\"><title>a/3 #2 waits</title>",
                1,
            ),
        ],
    ),
    // The reference's calls wait, and the picture ends before any goes on.
    (
        PROMISE,
        &[("--ref", "a/3"), ("--to", "9")],
        &[
            ("fill=\"#c2410c\">waits: a/3 #", 2),
            ("fill=\"white\" stroke=\"#c2410c\"", 2),
            ("<rect x=\"836\" y=\"152\" width=\"8\" height=\"144\"", 1),
            ("<rect x=\"826\" y=\"224\" width=\"8\" height=\"72\"", 1),
        ],
    ),
];

const OF_LABELS: &[Picture] = &[
    // An id is used again; both vats have a question 1. The first Return is cut, and whole at the foot.
    (
        REUSED,
        &[],
        &[
            (">Call a/3 #0 (question 1), to answer 4.0.noop.4</text>", 1),
            (
                ">Return of a/3 #0 (answer 1, releases): exception (failed): the object of th…</text>",
                1,
            ),
            (
                ">Return of a/3 #0 (answer 1, releases): exception (failed): the object of that call was taken",
                1,
            ),
            (" is there no more.</text>", 1),
            ("…</text>", 1),
            (">3 b</text>", 1),
            (">Finish of a/3 #0 (question 1, releases)</text>", 1),
            (
                ">Call a/3 #1 (question 1) with receiverAnswer 6.0.noop, to export 0</text>",
                1,
            ),
            (
                ">Return of a/3 #1 (answer 1, releases) with senderHosted 3: results</text>",
                1,
            ),
            (">Bootstrap, call 0 (question 1)</text>", 1),
            (
                ">Return of Bootstrap, call 0 (answer 1): canceled</text>",
                1,
            ),
        ],
    ),
    // A message that is received six rows below is said there too.
    (
        FAR,
        &[],
        &[
            (">Release, export 2 by 1</text>", 1),
            (">gets Release, export 2 by 1</text>", 1),
        ],
    ),
    // What is passed on is told by the wire's descriptors and by the application's references; why something fails.
    (
        PASSED,
        &[],
        &[
            (
                ">calls a/3 #0 as call 1 with references 4, 5; interface 7, method 1</text>",
                1,
            ),
            (
                ">Call a/3 #0 (question 1) with senderPromise 2, none, to export 2</text>",
                1,
            ),
            (
                ">delivers a/3 #0 with new reference 6 to object 0, task 0</text>",
                1,
            ),
            (">answers task 0 with reference 7: results</text>", 1),
            (">call 1 ends: exception (disconnected): gone</text>", 1),
            (
                ">rejects promise 2: exception (overloaded): later</text>",
                1,
            ),
            (">a command is refused: no such reference (4)</text>", 1),
            (">a command is refused: 99</text>", 1),
            (">resolves promise 0 to reference 4</text>", 1),
        ],
    ),
    // A vat receives what was not sent.
    (
        "{\"k\":\"head\",\"version\":2}\n{\"k\":\"got\",\"vat\":\"b\"}",
        &[],
        &[
            (">receives nothing that was sent</text>", 1),
            ("marker-end", 0),
        ],
    ),
];

/// The numbers of faults, in the words of docs/protocol.md, "Checks of received messages". Another number is an
/// application's, of a shut.
const FAULTS: [(u16, &str); 16] = [
    (19, ">goes down: 19</text>"),
    (20, ">goes down: the question's id is in use (20)</text>"),
    (
        21,
        ">goes down: no such question, or it was returned (21)</text>",
    ),
    (22, ">goes down: no such export (22)</text>"),
    (
        23,
        ">goes down: no such answer, or its Finish came (23)</text>",
    ),
    (
        24,
        ">goes down: more is given back than there is, or nothing (24)</text>",
    ),
    (
        25,
        ">goes down: the promise was resolved before (25)</text>",
    ),
    (26, ">goes down: what is resolved is no promise (26)</text>"),
    (
        27,
        ">goes down: the Disembargo's target does not settle to a wire (27)</text>",
    ),
    (28, ">goes down: no such embargo (28)</text>"),
    (
        29,
        ">goes down: a descriptor of another kind than its import, or of a resolved one (29)</text>",
    ),
    (
        30,
        ">goes down: capabilities and descriptors differ in number (30)</text>",
    ),
    (31, ">goes down: more calls would wait than may (31)</text>"),
    (
        32,
        ">goes down: a message came back that every vat understands (32)</text>",
    ),
    (33, ">goes down: want of room or memory (33)</text>"),
    (34, ">goes down: the other vat sent an Abort (34)</text>"),
];

fn trace_of_fault(alloc: Global, number: u16) -> Result<String, AllocError> {
    let mut trace = String::from_str(alloc, "{\"k\":\"head\",\"version\":2}\n")?;
    writeln!(trace, "{{\"fault\":{number},\"k\":\"down\",\"vat\":\"b\"}}")?;
    Ok(trace)
}

#[test]
fn faults_are_said_in_words(rt: HostRuntime) {
    for (number, wanted) in FAULTS {
        match trace_of_fault(rt.alloc(), number) {
            Ok(trace) => check(&rt, rt.alloc(), trace.as_str(), &[], &[(wanted, 1)]),
            Err(_) => panic!(rt; "no memory"),
        }
    }
}

/// Rows stand 24 apart, and 28 more behind each thirtieth, where the vats' heads are drawn again.
fn trace_of_sixty(alloc: Global) -> Result<String, AllocError> {
    let mut trace = String::from_str(alloc, "{\"k\":\"head\",\"version\":2}\n")?;
    for _ in 0..60 {
        trace.push_str("{\"k\":\"dropped\",\"ref\":1,\"vat\":\"a\"}\n")?;
    }
    Ok(trace)
}

/// The last entry that is drawn, and how often each text stands in the picture.
const LONG: [(&str, &[(&str, usize)]); 4] = [
    ("31", &[(">vat A</text>", 1), (">vat B</text>", 1)]),
    ("32", &[(">vat A</text>", 2), (">vat B</text>", 2)]),
    ("61", &[(">vat A</text>", 2), (">vat B</text>", 2)]),
    (
        "32",
        &[("cx=\"560\" cy=\"800\"", 1), ("cx=\"560\" cy=\"852\"", 1)],
    ),
];

#[test]
fn long_pictures_repeat_the_heads(rt: HostRuntime) {
    let Ok(trace) = trace_of_sixty(rt.alloc()) else {
        panic!(rt; "no memory");
    };
    for (last, wanted) in LONG {
        check(&rt, rt.alloc(), trace.as_str(), &[("--to", last)], wanted);
    }
}

fn check_all(rt: &impl Abort, alloc: Global, pictures: &[Picture]) {
    for (trace, words, wanted) in pictures {
        check(rt, alloc, trace, words, wanted);
    }
}

#[test]
fn one_call_has_these_texts(rt: HostRuntime) {
    check_all(&rt, rt.alloc(), OF_ONE_CALL);
}

#[test]
fn embargoes_have_these_texts(rt: HostRuntime) {
    check_all(&rt, rt.alloc(), OF_EMBARGOES);
}

#[test]
fn waiting_calls_have_these_texts(rt: HostRuntime) {
    check_all(&rt, rt.alloc(), OF_WAITING);
}

#[test]
fn labels_have_these_texts(rt: HostRuntime) {
    check_all(&rt, rt.alloc(), OF_LABELS);
}
