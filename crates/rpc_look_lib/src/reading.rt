//! A log that comes in parts.
ghost use Rattle.std.specs.Prelude.{◌≡◌, ◌⊎◌, ◌<◌, ◌≤◌, ◌++◌, length, take, IfSome, IfOk, IfErr, OnOk};
ghost use Rattle.std.specs.List.{position};
ghost use Rattle.std.specs.Io.KnownBytes.{Consumes, IsAtEnd};
ghost use Rattle.rpc_look_lib.specs.Capturing.{scene_of};
ghost use Rattle.rpc_look_lib.specs.Reading.{bare_line, is_newline, LineComes, Reads, Looks};

use crate::capture::Capture;
use crate::failure::{Failure, unreadable};
use crate::json::JsonPage;
use crate::options::Options;
use crate::page::{Page, TextPage};
use look_names::Schema;
use look_pieces::Log;
use std::alloc::{AllocError, Global};
use std::io::{ErrorKind, Read, Write};

/// How many bytes are read at a time.
const PART: usize = 65_536;

/// A log of which parts came.
#[derive(Drop)]
struct Lines {
    log: Log,
    /// The beginning of a line whose newline has not come.
    begun: Vec<u8>,
}

/// Room for a part of the input.
fn make_room(alloc: Global) -> Result<Vec<u8>, AllocError>
    ensures { IfOk result (λ room. 0 < length room.items) }
{
    Vec::from_elem(alloc, 0, PART)
}

/// Reads into the room, and gives how many bytes came: none at the end alone.
fn read_some<R: Read>(reader: &mut R, room: &mut [u8]) -> Result<usize, Failure>
    ensures within { IfOk result (λ count. count ≤ length room.new) }
    ensures came { IfOk result (λ count. Consumes (R.remaining reader.old) (R.remaining reader.new) (take count room.new)) }
    ensures end { 0 < length room.old → result ≡ Ok 0 → IsAtEnd (R.remaining reader.new) }
    ensures fails { IfErr result (λ why. (why ≡ Failure.Memory) ⊎ (why ≡ Failure.Unreadable)) }
{
    'tries: for _ in 0..u64::MAX {
        match reader.read(room) {
            Ok(count) => return Ok(count),
            Err(error) => match error.kind() {
                ErrorKind::Interrupted => {}
                _ => return Err(unreadable(&error)),
            },
        }
    }
    Err(Failure::Unreadable)
}

/// A line without the return before its newline.
fn without_return(line: &[u8]) -> &[u8]
    ensures { result.now ≡ bare_line line.now }
{
    if line.is_empty() {
        return line;
    }
    let last = line.len() - 1;
    if line[last] == b'\r' {
        &line[..last]
    } else {
        line
    }
}

/// Where the first newline stands.
fn newline_in(text: &[u8]) -> Option<usize>
    ensures within { IfSome result (λ at. at < length text.now) }
    ensures first { result ≡ position is_newline text.now }
{
    text.iter().position(|byte| *byte == b'\n')
}

/// A line of the log comes.
fn take_line<P: Page>(
    log: &mut Log,
    capture: &mut Capture,
    page: &mut P,
    at: Option<u64>,
    line: &[u8],
) -> Result<(), Failure>
    ensures { OnOk result (LineComes at line.now (log.old, scene_of capture.old) (log.new, scene_of capture.new)) }
{
    match log.take_line(without_return(line))? {
        Some(piece) => capture.tell_piece(page, at, &piece),
        None => Ok(()),
    }
}

impl Lines {
    ghost use Rattle.std.specs.Prelude.{◌≡◌, [], ◌++◌, OnOk};
    ghost use Rattle.look_pieces.specs.Pieces.{end_of as log_end};
    ghost use Rattle.rpc_look_lib.specs.Capturing.{scene_of};
    ghost use Rattle.rpc_look_lib.specs.Reading.{LineComes, LastComes, PartComes, IsLine};

    /// A line ends, of which this part came last.
    fn take_last<P: Page>(
        &mut self,
        capture: &mut Capture,
        page: &mut P,
        at: Option<u64>,
        part: &[u8],
    ) -> Result<(), Failure>
        ensures line { OnOk result (LineComes at (self.old.begun.items ++ part.now) (self.old.log, scene_of capture.old) (self.new.log, scene_of capture.new)) }
        ensures none { OnOk result (self.new.begun.items ≡ []) }
    {
        if self.begun.is_empty() {
            return take_line(&mut self.log, capture, page, at, part);
        }
        self.begun.extend_from_slice(part)?;
        take_line(&mut self.log, capture, page, at, self.begun.as_slice())?;
        self.begun.clear();
        Ok(())
    }

    /// A part of the log comes.
    fn take_part<P: Page>(
        &mut self,
        capture: &mut Capture,
        page: &mut P,
        at: Option<u64>,
        part: &[u8],
    ) -> Result<(), Failure>
        requires { IsLine self.old.begun.items }
        ensures { OnOk result (PartComes at self.old.begun.items part.now (self.old.log, scene_of capture.old) self.new.begun.items (self.new.log, scene_of capture.new)) }
    {
        let mut from = 0;
        'lines: while from < part.len() {
            if capture.talk.is_done(at) {
                return Ok(());
            }
            let rest = &part[from..];
            match newline_in(rest) {
                Some(count) => {
                    self.take_last(capture, page, at, &rest[..count])?;
                    from += count + 1;
                }
                None => {
                    self.begun.extend_from_slice(rest)?;
                    return Ok(());
                }
            }
        }
        Ok(())
    }

    /// The log ends with a line that has no newline, if one has begun.
    fn take_begun<P: Page>(
        &mut self,
        capture: &mut Capture,
        page: &mut P,
        at: Option<u64>,
    ) -> Result<(), Failure>
        ensures { OnOk result (LastComes at self.old.begun.items (self.old.log, scene_of capture.old) (self.new.log, scene_of capture.new)) }
    {
        if self.begun.as_slice().is_empty() {
            return Ok(());
        }
        self.take_last(capture, page, at, &[])
    }

    /// The log ends.
    fn end<P: Page>(
        &mut self,
        capture: &mut Capture,
        page: &mut P,
        at: Option<u64>,
    ) -> Result<(), Failure>
        ensures last { OnOk result (LastComes at self.old.begun.items (self.old.log, scene_of capture.old) (self.new.log, scene_of capture.new)) }
        ensures whole { OnOk result (log_end self.new.log ≡ Ok tt) }
    {
        self.take_begun(capture, page, at)?;
        match self.log.ended() {
            Ok(()) => Ok(()),
            Err(fault) => Err(Failure::NoLog(fault)),
        }
    }
}

/// Reads a log, up to the last message that is asked for.
fn read_lines<R: Read, P: Page>(
    capture: &mut Capture,
    page: &mut P,
    at: Option<u64>,
    reader: &mut R,
    room: &mut [u8],
) -> Result<(), Failure>
    requires { 0 < length room.old }
    ensures { OnOk result (Reads at (R.remaining reader.old) (scene_of capture.old) (scene_of capture.new)) }
{
    let alloc = capture.talk.watch.alloc;
    let mut lines = Lines {
        log: Log::new(alloc),
        begun: Vec::new(alloc),
    };
    'reads: for _ in 0..u64::MAX {
        if capture.talk.is_done(at) {
            return Ok(());
        }
        let count = read_some(reader, room)?;
        if count == 0 {
            return lines.end(capture, page, at);
        }
        lines.take_part(capture, page, at, &room[..count])?;
        page.flush()?;
    }
    Err(Failure::Unreadable)
}

/// Reads the conversation of a log, as it comes, up to the last message that is asked for, and says it on a page. Gives whether
/// something breaks the protocol.
///
/// `NoLog` where the lines are none of a log; what was said before stands. `Unreadable` where the reader fails, `Memory` where
/// a growth was refused, and what the page fails by.
pub fn read_log<R: Read, P: Page>(
    alloc: Global,
    at: Option<u64>,
    reader: &mut R,
    page: &mut P,
) -> Result<bool, Failure>
    ensures { IfOk result (Looks at (R.remaining reader.old)) }
{
    let mut room = make_room(alloc)?;
    let mut capture = Capture::new(alloc);
    let read = read_lines(&mut capture, page, at, reader, room.as_mut_slice());
    match read {
        Err(Failure::Memory) => return Err(Failure::Memory),
        Err(Failure::Unwritten) => return Err(Failure::Unwritten),
        _ => {}
    }
    capture.say_rests(page)?;
    page.say_end(&capture.talk.watch.books, capture.talk.last)?;
    read?;
    Ok(capture.talk.watch.is_broken)
}

/// Tells the conversation of a log, as it comes, by the names of a schema if there is one. Gives whether something breaks the protocol.
///
/// `NoLog` where the lines are none of a log; what was said before stands. `Unreadable` where the reader fails, `Unwritten`
/// where `out` fails, and `Memory` where a growth was refused.
pub fn look_log<R: Read, W: Write + Drop>(
    alloc: Global,
    options: Options,
    schema: Option<Schema>,
    reader: &mut R,
    out: W,
) -> Result<bool, Failure>
    ensures { IfOk result (Looks options.at (R.remaining reader.old)) }
{
    let at = options.at;
    if options.json {
        let mut page = JsonPage::new(alloc, options, schema, out);
        return read_log(alloc, at, reader, &mut page);
    }
    let mut page = TextPage::new(alloc, options, schema, out);
    read_log(alloc, at, reader, &mut page)
}
