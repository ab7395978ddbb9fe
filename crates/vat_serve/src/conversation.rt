//! A conversation over a pair of streams.
ghost use Rattle.std.specs.Prelude.{◌≤◌, length, IfOk};

use crate::service::Service;
use anyhow::{Result, bail};
use program_faults::ShownFault;
use std::io::{ErrorKind, Read, Write};
use std::{fmt, io};
use vat_connection::Limits;

/// How many bytes are read at most before what follows from them is sent.
const PIECE: usize = 65_536;

/// A limit, unless the words say another: so many MiB of what the client sent, and of what it does not take.
pub const MIB: u32 = 8;

const BYTES_OF_A_MIB: u64 = 1_048_576;

const BYTES_OF_A_WORD: u64 = 8;

/// The number with which a vat goes down by its peer's Abort.
const ABORTED: u16 = 34;

/// How a conversation ended: the number with which the vat went down, and whether anything was left between the two vats when
/// the last bytes came.
#[derive(Clone, Copy, Debug, PartialEq, Eq, Drop)]
pub struct Ending {
    pub number: u16,
    pub left: bool,
}

impl Ending {
    /// Whether it was the client that ended it.
    pub fn is_by_client(&self) -> bool {
        self.number == 0 || self.number == ABORTED
    }
}

impl fmt::Display for Ending {
    fn fmt<W: fmt::Write>(&self, f: &mut fmt::Formatter<W>) -> fmt::Result {
        let left = if self.left { "something" } else { "nothing" };
        write!(f, "down {}, {left} was left", ShownFault(self.number))
    }
}

/// Serves what comes from a reader, and answers on a writer, until the vat goes down. Behind the reader's end nothing is written:
/// the client has gone.
pub fn converse<R: Read, W: Write>(
    service: &mut Service,
    reader: &mut R,
    writer: &mut W,
) -> Result<Ending> {
    let mut room = Vec::from_elem(service.alloc, 0, PIECE)?;
    converse_by(service, reader, writer, room.as_mut_slice())
}

// What is read goes into the room.
fn converse_by<R: Read, W: Write>(
    service: &mut Service,
    reader: &mut R,
    writer: &mut W,
    room: &mut [u8],
) -> Result<Ending> {
    for _ in 0..u64::MAX {
        let left = !service.vat.core().shares_nothing();
        let count = read_some(reader, room)?;
        match count {
            0 => service.vat.ended(),
            count => service.vat.received(&room[..count]),
        }
        let worked = answer_all(service, writer, count == 0);
        if let Some(number) = service.vat.core().down() {
            return Ok(Ending { number, left });
        }
        worked?;
    }
    bail!("the conversation is too long")
}

// Writes what there is and serves what was heard, until more is to be read, or the vat is down. As bytes are taken the vat may hear
// what waited, and so it may as it finds no event.
fn answer_all<W: Write>(service: &mut Service, writer: &mut W, has_ended: bool) -> Result<()> {
    for _ in 0..u64::MAX {
        send(service, writer, has_ended)?;
        if service.vat.core().down().is_some() {
            return Ok(());
        }
        let worked = service.work();
        if worked.is_err() {
            send(service, writer, has_ended)?;
        }
        if worked? || service.vat.has_outgoing() {
            continue;
        }
        if service.vat.wants_bytes() {
            return Ok(());
        }
        if service.vat.load().words > service.limits.words {
            bail!("calls that wait for an answer are larger than the limit");
        }
    }
    bail!("the conversation is too long")
}

// Writes what there is, unless the client has gone.
fn send<W: Write>(service: &mut Service, writer: &mut W, has_ended: bool) -> Result<()> {
    let bytes = service.vat.outgoing();
    if !has_ended {
        write_all(writer, bytes.as_slice())?;
    }
    Ok(())
}

/// The limits of so many MiB each way.
pub fn limits_of(mib: u32) -> Limits {
    let bytes = u64::from(mib) * BYTES_OF_A_MIB;
    Limits {
        words: bytes / BYTES_OF_A_WORD,
        bytes,
    }
}

// Writes what there is, at once.
fn write_all<W: Write>(writer: &mut W, bytes: &[u8]) -> io::Result<()> {
    if bytes.is_empty() {
        return Ok(());
    }
    writer.write_all(bytes)?;
    writer.flush()
}

// Reads into the room what is there, and gives how many bytes: none at the end alone.
fn read_some<R: Read>(reader: &mut R, room: &mut [u8]) -> io::Result<usize>
    ensures within { IfOk result (λ count. count ≤ length room.new) }
{
    for _ in 0..u64::MAX {
        match reader.read(room) {
            Err(error) if error.kind() == ErrorKind::Interrupted => {}
            done => return done,
        }
    }
    Ok(0)
}
