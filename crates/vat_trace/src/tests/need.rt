//! Out of memory: to be run with each allocation refused, by `rt try --test --fail-alloc`.
use crate::program::play_pair;
use program_files::ProgramFailure;
use std::alloc::Global;
use std::sync::Wait;
use std::thread::Threads;
use std::time::Clock;
use vat_trace_lib::Failure;

/// B hands A a promise, which it resolves to an object of A's.
const PROMISE: &[u8] =
    b"a bootstrap boot\na field root boot -\na host mine 5\na call give root 7 1 mine\na turn\na turn\na got r give 0\na call one r 7 2 -\nb turn\nb turn\nb take f 0 0\nb promise p x\nb answer 0 x\nb turn\nb resolve p f\n";

fn play<R: Threads + Wait + Clock + Sync>(
    rt: &R,
    alloc: Global,
    out: &mut Vec<u8>,
) -> Option<Failure> {
    let mut reader = PROMISE;
    play_pair(alloc, rt, rt, &mut reader, out).err()
}

/// If a growth is refused, to either vat or its worker, that is told and nothing is written; all is at the next try.
#[test]
fn a_refused_growth_is_told(rt: HostRuntime) {
    let mut out = Vec::new(rt.alloc());
    if let Some(failure) = play(&rt, rt.alloc(), &mut out) {
        assert!(rt;
            matches!(
                failure,
                Failure::Program(ProgramFailure::Memory | ProgramFailure::Unwritten)
            )
        );
        assert!(rt; out.is_empty());
        assert!(rt; play(&rt, rt.alloc(), &mut out).is_none());
    }
    assert!(rt; out.ends_with(b"\"k\":\"tables\"}\n"));
}
