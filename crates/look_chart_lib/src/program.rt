//! The program without its handles: `look_chart` gives it a log, and streams.
ghost use Rattle.std.specs.Prelude.{◌≡◌, ◌⊎◌, ℕ, List, None, IfOk, IfErr, OnOk};
ghost use Rattle.std.specs.Io.KnownBytes.{Appends};
ghost use Rattle.rpc_look_lib.specs.Reading.{Looks};
ghost use Rattle.look_chart_lib.specs.Failures.{TellsOf, help_text};

use crate::chart::Chart;
use crate::options::Options;
use crate::picture::picture;
use look_names::Schema;
use program_files::write_text;
use rpc_look_lib::{Failure, read_log};
use std::alloc::Global;
use std::io;
use std::io::{Read, Write};

/// How the program is called.
const USAGE: &str = "usage: look_chart [--schema FILE] [--from N] [--to N] [LOG]";

/// What the program is for, and what its options do.
const HELP: &str =
    "usage: look_chart [--schema FILE] [--from N] [--to N] [LOG]\n\nDraws the conversation of a log of `socat -x` as a sequence diagram, in SVG on standard output.\nWithout a name the log is read from standard input.\n\n  --schema FILE  methods and places by the names of a schema, as `capnp compile -o-` writes it\n  --from N       the first message that is drawn, counted from 1\n  --to N         the last one; without it 60 messages are drawn\n\nThe status is 0 where nothing breaks the protocol, 1 where something does, 2 where nothing is drawn.\n";

/// Writes a text. `Unwritten` if `out` fails, which may have taken a part of it.
fn write_whole<W: Write>(out: &mut W, text: &str) -> Result<(), Failure>
    ensures written { OnOk result (Appends (W.contents out.old) (W.contents out.new) text.now) }
    ensures fails { IfErr result (λ why. why ≡ Failure.Unwritten) }
{
    match write_text(out, text) {
        Ok(()) => Ok(()),
        Err(_) => Err(Failure::Unwritten),
    }
}

/// The picture of a log, and whether something in it breaks the protocol, drawn or not.
fn svg_of<R: Read>(
    alloc: Global,
    options: Options,
    schema: Option<Schema>,
    reader: &mut R,
) -> Result<(bool, String), Failure>
    ensures { IfOk result (λ drawn. Looks None (R.remaining reader.old) drawn.0) }
{
    let mut chart = Chart::new(alloc, options, schema)?;
    let is_broken = read_log(alloc, None, reader, &mut chart)?;
    chart.finish()?;
    let svg = picture(alloc, &chart)?;
    Ok((is_broken, svg))
}

/// Draws the conversation of a log, which the reader gives, to `out`, by the names of a schema if there is one. Gives whether
/// something in it breaks the protocol, drawn or not.
///
/// `Unreadable` if the reader fails, `NoLog` if the lines are none of a log, `Memory` if a growth was refused: then nothing is
/// written. `Unwritten` if `out` fails, which may have taken a part of the picture.
pub fn draw_log<R: Read, W: Write>(
    alloc: Global,
    options: Options,
    schema: Option<Schema>,
    reader: &mut R,
    out: &mut W,
) -> Result<bool, Failure>
    ensures judged { IfOk result (Looks None (R.remaining reader.old)) }
    ensures drawn { OnOk result ((svg : List ℕ) × Appends (W.contents out.old) (W.contents out.new) svg) }
    ensures silent { IfErr result (λ why. (out.new ≡ out.old) ⊎ (why ≡ Failure.Unwritten)) }
{
    let (is_broken, svg) = svg_of(alloc, options, schema, reader)?;
    write_whole(out, svg.as_str())?;
    Ok(is_broken)
}

/// Writes what the program is for. `Unwritten` if `out` fails, which may have taken a part of it.
pub fn write_help<W: Write>(out: &mut W) -> Result<(), Failure>
    ensures written { OnOk result (Appends (W.contents out.old) (W.contents out.new) help_text) }
    ensures fails { IfErr result (λ why. why ≡ Failure.Unwritten) }
{
    write_whole(out, HELP)
}

/// Says a failure on `err`, where the file has that name; of an output that failed nothing.
pub fn tell<E: Write>(failure: Failure, name: &str, err: &mut E) -> io::Result<()>
    ensures { OnOk result (TellsOf name.now failure (E.contents err.old) (E.contents err.new)) }
{
    match failure {
        Failure::Usage => writeln!(err, "{USAGE}"),
        Failure::Memory => writeln!(err, "out of memory"),
        Failure::Unreadable => writeln!(err, "cannot read {name}"),
        Failure::NoLog(fault) => writeln!(err, "{fault}"),
        Failure::NoSchema(error) => writeln!(err, "the schema: {error}"),
        Failure::Unwritten => Ok(()),
    }
}
