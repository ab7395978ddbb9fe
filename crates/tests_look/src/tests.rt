//! The pieces of logs, and why lines are no log.
use look_pieces::{Log, LogError, Side};
use std::alloc::Global;
use std::process::Abort;
use std::test::Fail;

// A piece that comes in two lines, a notice of socat, a piece with its text behind it, and one after midnight.
const LINES: [&str; 8] = [
    "> 2026/11/29 23:59:59.000000001  length=3 from=0 to=2",
    " 00 01",
    " ff",
    "2026/11/29 23:59:59 socat[18742] N socket 1 is at EOF",
    "< 2026/11/29 23:59:59.999999500  length=2 from=0 to=1",
    " 41 42  AB",
    "> 2026/11/30 00:00:00.000000005  length=1 from=3 to=3",
    " 7f",
];

const PIECES: [(Side, u64, &[u8]); 3] = [
    (Side::Client, 0, b"\x00\x01\xff"),
    (Side::Server, 999_998, b"AB"),
    (Side::Client, 1_000_004, b"\x7f"),
];

#[test]
fn pieces_come_line_by_line(rt: HostRuntime) -> Result<(), Fail> {
    let mut log = Log::new(rt.alloc());
    let mut count = 0;
    for line in LINES {
        let Some(piece) = log.take_line(line.as_bytes())? else {
            continue;
        };
        let Some((side, time, bytes)) = PIECES.get(count) else {
            assert!(&rt; false, "one piece more than there are");
            continue;
        };
        assert_eq!(&rt; piece.side, *side);
        assert_eq!(&rt; piece.time, *time);
        assert!(&rt; piece.bytes.as_slice() == *bytes);
        count += 1;
    }
    assert_eq!(&rt; count, PIECES.len());
    assert!(&rt; log.ended().is_ok());
    Ok(())
}

const HEAD: &str = "> 2026/11/29 06:51:34.000213334  length=2 from=0 to=1";

// Lines, and why they are no log.
const FAULTS: [(&[&str], &str); 5] = [
    (&[HEAD, "no bytes"], "line 2: no hexadecimal"),
    (
        &[HEAD, " 00 01 02"],
        "line 2: 3 bytes where 2 were announced",
    ),
    (&[HEAD, " 00", HEAD], "line 3: a piece of 2 bytes has 1"),
    (
        &[HEAD, " 00 01", HEAD],
        "line 3: from=0 where 2 was expected: two connections in one log, or its beginning is missing",
    ),
    (
        &[HEAD, " 00"],
        "the log ends inside a piece, of whose 2 bytes it has 1",
    ),
];

fn fault_of(rt: &impl Abort, alloc: Global, lines: &[&str]) -> Result<String, Fail> {
    let mut log = Log::new(alloc);
    for line in lines {
        match log.take_line(line.as_bytes()) {
            Ok(_) => {}
            Err(LogError::Fault(fault)) => return Ok(format!(in alloc; "{fault}")?),
            Err(LogError::Memory) => assert!(rt; false, "memory is ample"),
        }
    }
    match log.ended() {
        Ok(()) => Ok(String::new(alloc)),
        Err(fault) => Ok(format!(in alloc; "{fault}")?),
    }
}

#[test]
fn faults_say_the_line(rt: HostRuntime) -> Result<(), Fail> {
    for (lines, words) in FAULTS {
        let said = fault_of(&rt, rt.alloc(), lines)?;
        assert_eq!(&rt; said.as_str(), words);
    }
    assert_eq!(&rt; Side::Client.other(), Side::Server);
    assert_eq!(&rt; Side::Server.other(), Side::Client);
    Ok(())
}
