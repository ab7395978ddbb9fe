//! Worked scenes on two threads: calls keep their order while the promise that they were made through is resolved, on two trips
//! round both vats, and while what they wait for was finished.
use crate::trace::trace_of_pair;
use rpc_check::Verdict;
use rpc_msg::Memory;
use std::process::Abort;

/// B resolves to A's object while A makes its third call: the fourth and the fifth wait for the shorter path.
const RESOLVED_WHILE_CALLED: &str =
    "a bootstrap boot\na turn\na got reg boot 0\na host own 5\na call get reg 7 1 own\na turn\na got r get 0\na call one r 7 11 -\na call two r 7 12 -\na call three r 7 13 -\na turn\na turn\na turn\na advance r\na call four r 7 14 -\na call five r 7 15 -\na turn\na turn\nb turn\nb turn\nb take f 0 0\nb promise p x\nb answer 0 x\nb turn\nb turn\nb resolve p f\n";

/// A's reference leads to a promise of B's, which is settled to one of A's, which is settled to one of B's, which is settled to an
/// object of A's: the first call goes round twice, and the second once.
const TWO_TRIPS: &str =
    "a bootstrap boot\na turn\na got reg boot 0\na promise pone one\na host own 5\na call get reg 7 1 one,own\na turn\na got r get 0\na got q get 1\na resolve pone q\na turn\na turn\na call first r 7 11 -\na advance r\na call second r 7 12 -\na turn\na turn\na advance r\na call third r 7 13 -\nb turn\nb turn\nb take one 0 0\nb take own 0 1\nb promise pa x\nb promise pb y\nb answer 0 x,y\nb turn\nb resolve pa one\nb resolve pb own\n";

/// A call is made on what another will give, which is finished before it has: B cancels its results, and delivers the call.
const FINISHED_FIRST: &str =
    "a bootstrap boot\na turn\na got o boot 0\na call one o 7 1 -\na field f one 0\na call two f 7 2 -\na drop f\na finish one\nb turn\nb turn\nb turn\nb turn\nb host nine 9\nb answer 0 nine\n";

/// A script, how many of its calls are delivered, and pieces of its trace: each stands behind the one before, since they are of one
/// vat or one brings about the next.
type Scene = (&'static str, u64, &'static [&'static str]);

const SCENES: &[Scene] = &[
    (
        RESOLVED_WHILE_CALLED,
        6,
        &[
            "\"k\":\"delivered\",\"method\":11,\"object\":5,",
            "\"k\":\"delivered\",\"method\":12,\"object\":5,",
            "{\"answer\":\"embargoed\",\"k\":\"advanced\",",
            "\"k\":\"delivered\",\"method\":13,\"object\":5,",
            "\"k\":\"delivered\",\"method\":14,\"object\":5,",
            "\"k\":\"delivered\",\"method\":15,\"object\":5,",
        ],
    ),
    (
        RESOLVED_WHILE_CALLED,
        6,
        &[
            "{\"context\":{\"senderLoopback\":",
            "{\"context\":{\"receiverLoopback\":",
            "\"k\":\"delivered\",\"method\":14,\"object\":5,",
        ],
    ),
    (
        TWO_TRIPS,
        4,
        &[
            "{\"answer\":\"embargoed\",\"k\":\"advanced\",",
            "{\"answer\":\"embargoed\",\"k\":\"advanced\",",
            "\"k\":\"delivered\",\"method\":11,\"object\":5,",
            "\"k\":\"delivered\",\"method\":12,\"object\":5,",
            "\"k\":\"delivered\",\"method\":13,\"object\":5,",
        ],
    ),
    (
        FINISHED_FIRST,
        2,
        &[
            "\"k\":\"delivered\",\"method\":1,\"object\":0,",
            "{\"return\":{\"answer\":1,\"body\":\"canceled\",\"releaseParamCaps\":false}}",
            "\"k\":\"delivered\",\"method\":2,\"object\":9,",
        ],
    ),
    (
        FINISHED_FIRST,
        2,
        &[
            "{\"finish\":{\"question\":1,\"releaseResultCaps\":false}}",
            "{\"return\":{\"answer\":1,\"body\":\"canceled\",\"releaseParamCaps\":false}}",
        ],
    ),
];

#[test]
fn scenes_are_told_as_they_were_worked_out(rt: HostRuntime) -> Result<(), Memory> {
    for (script, delivered, pieces) in SCENES {
        let Ok(trace) = trace_of_pair(rt.alloc(), &rt, &rt, script.as_bytes()) else {
            return Err(Memory);
        };
        assert!(rt; trace.verdict == Verdict::Good(*delivered), "{script}");
        is_in_order(&rt, trace.text.as_str(), pieces);
    }
    Ok(())
}

fn is_in_order(rt: &impl Abort, text: &str, pieces: &[&str]) {
    let mut rest = text;
    for piece in pieces {
        match rest.split_once(*piece) {
            Some((_, behind)) => rest = behind,
            None => panic!(rt; "{piece} does not stand where it should in {text}"),
        }
    }
}
