//! Out of memory: to be run with each allocation refused, by `rt try --test --fail-alloc`.
use crate::tests::drawing::draw;
use crate::tests::traces::PROMISE;
use program_files::ProgramFailure;
use rpc_check::Verdict;
use std::alloc::Global;
use trace_chart_lib::Options;
use vat_trace_lib::{Failure, ScriptFault, play, trace_of_script};

/// Calls wait for a promise, and for an embargo.
const EMBARGO: &[u8] =
    b"a bootstrap boot\na field root boot -\na host mine 5\na call give root 7 1 mine\ndeliver b\ndeliver b\nb take f 0 0\nb promise p x\nb answer 0 x\ndeliver a\ndeliver a\na got r give 0\na finish give\ndeliver b\na call one r 7 2 -\na call two r 7 3 -\ndeliver b\ndeliver b\nb resolve p f\na call three r 7 4 -\ndeliver a\ndeliver a\ndeliver a\na advance r\na call four r 7 5 -\na call five r 7 6 -\ndeliver b\ndeliver b\ndeliver b\ndeliver a\ndeliver a\n";

/// A growth that is refused, in a vat too, is told as running out of memory.
#[test]
fn a_refused_growth_is_told(rt: HostRuntime) {
    match trace_of_script(rt.alloc(), EMBARGO) {
        Ok(trace) => assert!(rt; matches!(trace.verdict, Verdict::Good(_))),
        Err(fault) => assert!(rt; matches!(fault, ScriptFault::Memory)),
    }
}

/// A trace with lists, paths and a payload.
const SENT: &[u8] =
    b"{\"k\":\"head\",\"version\":2}\n{\"k\":\"sent\",\"message\":{\"call\":{\"caps\":[\"none\",{\"receiverAnswer\":{\"path\":[1,null],\"question\":6}}],\"interface\":7,\"method\":1,\"payload\":{\"bytes\":\"AAAAAAEAAAAAAAAAAAAAAA==\",\"caps\":0},\"question\":1,\"stamp\":{\"index\":0,\"ref\":0,\"vat\":\"a\"},\"target\":{\"answer\":{\"path\":[],\"question\":0}}}},\"vat\":\"a\"}\n";

/// The word, and what it writes of that trace.
const WRITTEN: [(&str, &[u8]); 3] = [
    ("check", b"ok: 0 delivered\n"),
    ("show", b""),
    ("upgrade", SENT),
];

fn write(alloc: Global, word: &str, out: &mut Vec<u8>) -> Option<Failure> {
    let mut reader = SENT;
    play(alloc, word, &mut reader, out).err()
}

/// If a growth is refused, as a line is read or written or in the output, that is told and nothing is written; all is
/// at the next try.
fn is_written_at_last(alloc: Global, word: &str, wanted: &[u8]) -> bool {
    let mut out = Vec::new(alloc);
    match write(alloc, word, &mut out) {
        None => {}
        Some(Failure::Program(ProgramFailure::Memory | ProgramFailure::Unwritten))
            if out.is_empty() => {
            if write(alloc, word, &mut out).is_some() {
                return false;
            }
        }
        Some(_) => return false,
    }
    out.as_slice() == wanted
}

#[test]
fn a_refused_growth_is_told_of_a_trace(rt: HostRuntime) {
    for (word, wanted) in WRITTEN {
        assert!(rt; is_written_at_last(rt.alloc(), word, wanted), "{word}");
    }
}

/// If a growth is refused while a trace is drawn, nothing is written; all is at the next try.
fn is_drawn_at_last(alloc: Global) -> bool {
    let mut out = Vec::new(alloc);
    match draw(alloc, Options::new(), PROMISE.as_bytes(), &mut out) {
        Ok(()) => {}
        Err(trace_chart_lib::Failure::Program(ProgramFailure::Memory | ProgramFailure::Unwritten))
            if out.is_empty() => {
            if draw(alloc, Options::new(), PROMISE.as_bytes(), &mut out).is_err() {
                return false;
            }
        }
        Err(_) => return false,
    }
    out.ends_with(b"</svg>\n")
}

#[test]
fn a_refused_growth_is_told_of_a_picture(rt: HostRuntime) {
    assert!(rt; is_drawn_at_last(rt.alloc()));
}
