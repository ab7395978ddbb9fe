//! Streams that break off.
use std::alloc::Global;
use std::io::{Error, ErrorKind, Read, Result, Write};
use vat_trace_lib::{play, status};

/// A stream that breaks off after its first bytes.
#[derive(Drop)]
pub(super) struct Cut {
    pub(super) left: usize,
}

impl Read for Cut {
    fn read(&mut self, buf: &mut [u8]) -> Result<usize> {
        if self.left == 0 {
            return Err(Error::from(ErrorKind::BrokenPipe));
        }
        self.left -= 1;
        match buf.first_mut() {
            Some(place) => {
                *place = b'#';
                Ok(1)
            }
            None => Ok(0),
        }
    }
}

impl Write for Cut {
    fn write(&mut self, buf: &[u8]) -> Result<usize> {
        if self.left == 0 {
            return Err(Error::from(ErrorKind::BrokenPipe));
        }
        self.left -= 1;
        Ok(buf.len().min(1))
    }

    fn flush(&mut self) -> Result<()> {
        Ok(())
    }
}

// No clause says what the small functions here do: a test is proved quicker if nothing is known of what it compares.
fn play_from(alloc: Global, reader: &mut Cut, out: &mut Vec<u8>, err: &mut Vec<u8>) -> u8 {
    let played = play(alloc, "run", reader, out);
    status(played, "-", err)
}

fn play_to(alloc: Global, out: &mut Cut, err: &mut Vec<u8>) -> u8 {
    let mut reader = b"".as_slice();
    let played = play(alloc, "run", &mut reader, out);
    status(played, "-", err)
}

/// A script that breaks off; and nothing is said if the output breaks off.
#[test]
fn streams_that_break_off(rt: HostRuntime) {
    let (mut out, mut err) = (Vec::new(rt.alloc()), Vec::new(rt.alloc()));
    assert!(rt; play_from(rt.alloc(), &mut Cut { left: 3 }, &mut out, &mut err) == 2);
    assert!(rt; out.is_empty() && err.as_slice() == b"cannot read -\n".as_slice());
    let mut silent = Vec::new(rt.alloc());
    assert!(rt; play_to(rt.alloc(), &mut Cut { left: 3 }, &mut silent) == 2);
    assert!(rt; silent.is_empty());
}
