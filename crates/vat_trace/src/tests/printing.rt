//! What is printed and said of a script, and the status.
use crate::program::play_pair;
use rpc_msg::Memory;
use std::alloc::Global;
use std::process::Abort;
use std::sync::Wait;
use std::thread::Threads;
use std::time::Clock;
use vat_trace_lib::status;

/// The status, what is printed and what is said.
#[derive(Drop)]
struct Output {
    status: u8,
    printed: Vec<u8>,
    said: Vec<u8>,
}

fn play<R: Threads + Wait + Clock + Sync>(rt: &R, alloc: Global, script: &[u8]) -> Output {
    let mut reader = script;
    let mut printed = Vec::new(alloc);
    let mut said = Vec::new(alloc);
    let played = play_pair(alloc, rt, rt, &mut reader, &mut printed);
    let status = status(played, "-", &mut said);
    Output {
        status,
        printed,
        said,
    }
}

/// A script at fault, and what is said of it.
const FAULTS: &[(&[u8], &str)] = &[
    // found before any line runs
    (b"a drop x\nb dorp y\n", "script line 2: fault\n"),
    (b"deliver a\n", "script line 1: fault\n"),
    (b"a bootstrap x\r\n", "script line 1: fault\n"),
    // a name that is not bound, in either vat
    (b"a bootstrap x\n\na drop x\n", "script line 3: fault\n"),
    (b"b finish x\n", "script line 1: fault\n"),
    // the lower line, if there is one of each
    (
        b"#\nb drop x\na bootstrap x\na drop y\n",
        "script line 2: fault\n",
    ),
    (b"#\na drop x\nb drop y\n", "script line 2: fault\n"),
    // no text
    (b"a bootstrap \xff", "cannot read -\n"),
];

#[test]
fn faults_are_told(rt: HostRuntime) {
    for (script, said) in FAULTS {
        let output = play(&rt, rt.alloc(), script);
        assert_eq!(rt; output.status, 2, "{said}");
        assert!(rt; output.printed.is_empty(), "{said}");
        assert!(rt; output.said.as_slice() == said.as_bytes(), "{said}");
    }
}

/// One call of A, from its Bootstrap to what lets it go.
const ONE_CALL: &[u8] =
    b"a bootstrap boot\na field obj boot -\na call one obj 7 1 -\na turn\na turn\na finish one\na finish boot\na drop obj\n";

const OF_A: &[&str] = &[
    "asked", "sent", "born", "made", "sent", "got", "ended", "got", "ended", "finished", "sent",
    "finished", "dropped", "sent",
];

// Behind these it gets none, one or both Finishes, as the end of the work comes.
const OF_B: &[&str] = &["got", "sent", "got", "delivered", "answered", "sent"];

#[test]
fn the_lines_of_each_vat_have_their_order(rt: HostRuntime) -> Result<(), Memory> {
    let output = play(&rt, rt.alloc(), ONE_CALL);
    assert_eq!(rt; output.status, 0);
    assert!(rt; output.said.is_empty());
    let Ok(text) = String::from_utf8(output.printed) else {
        return Err(Memory);
    };
    assert!(rt; text.starts_with("{\"k\":\"head\",\"version\":2}\n"));
    assert!(rt;
        text.ends_with(
            "{\"a\":{\"exports\":[],\"imports\":[[0,1]]},\"b\":{\"exports\":[[0,1]],\"imports\":[]},\"k\":\"tables\"}\n"
        )
    );
    assert_eq!(rt; more_than(&rt, text.as_str(), "\"vat\":\"a\"}", OF_A), 0);
    assert!(rt; more_than(&rt, text.as_str(), "\"vat\":\"b\"}", OF_B) <= 2);
    Ok(())
}

/// How many lines that a vat got follow its lines of these kinds, which are in this order.
fn more_than(rt: &impl Abort, text: &str, vat: &str, kinds: &[&str]) -> u64 {
    let mut more: u64 = 0;
    let mut kinds = kinds.iter();
    for line in text.lines() {
        if !line.ends_with(vat) {
            continue;
        }
        match kinds.next() {
            Some(kind) => assert!(rt; is_of(line, kind), "{kind}: {line}"),
            None => {
                assert!(rt; is_of(line, "got"), "{line}");
                more = more.wrapping_add(1);
            }
        }
    }
    assert!(rt; kinds.next().is_none());
    more
}

fn is_of(line: &str, kind: &str) -> bool {
    match line.split_once("\"k\":\"") {
        Some((_, rest)) => match rest.split_once("\"") {
            Some((word, _)) => word == kind,
            None => false,
        },
        None => false,
    }
}
