ghost use Rattle.std.specs.Prelude.{◌≡◌, ◌⊎◌, ℕ, List, IfOk, IfErr, OnOk};
ghost use Rattle.std.specs.Io.KnownBytes.{Appends};
ghost use Rattle.program_files.specs.Texts.{IsInput};
ghost use Rattle.program_files.specs.declared.fault.ProgramFailure.TheVariants as program;
ghost use Rattle.trace_chart_lib.specs.Drawn.{IsSomeTrace};
ghost use Rattle.trace_chart_lib.specs.Failures.{Fails, TextFails, said_of, status_of, help_text};

use crate::chart::Chart;
use crate::fault::Failure;
use crate::options::Options;
use crate::picture::picture;
use program_files::{FAILED, read_text, write_text};
use std::alloc::Global;
use std::io;
use std::io::{Read, Write};
use trace_file::follow;

/// The status of a program that did what it was asked.
const DONE: u8 = 0;

/// How the program is called.
const USAGE: &str = "usage: trace_chart FILE [--ref V/N] [--from N] [--to N]";

/// What the program is for, and what its options do.
const HELP: &str =
    "usage: trace_chart FILE [--ref V/N] [--from N] [--to N]\n\nDraws a trace as a sequence diagram, in SVG on standard output. Without a word the trace is\nread from standard input.\n\n  --ref V/N   what is of reference N of vat V (a or b) stands out\n  --from N    the first entry that is drawn, counted as the trace's lines are\n  --to N      the last one; without it 60 entries are drawn\n\nThe status is 0, or 2 where nothing is drawn.\n";

/// Draws the trace that a file has, whose bytes the reader gives, to `out`.
///
/// `Unreadable` if the reader fails, `NotText` if the bytes are not UTF-8, `Line` with the first line that is none of
/// a trace, `Memory` if a growth was refused: then nothing is written. `Unwritten` if `out` fails, which may have
/// taken a part of the picture.
pub fn draw_trace<R: Read, W: Write>(
    alloc: Global,
    options: Options,
    reader: &mut R,
    out: &mut W,
) -> Result<(), Failure>
    ensures drawn { OnOk result (((input : List ℕ) × IsInput (R.remaining reader.old) input × IsSomeTrace input) × ((svg : List ℕ) × Appends (W.contents out.old) (W.contents out.new) svg)) }
    ensures fails { IfErr result (λ why. Fails (R.remaining reader.old) why) }
    ensures silent { IfErr result (λ why. (out.new ≡ out.old) ⊎ (why ≡ Failure.Program program.Unwritten)) }
{
    let trace = read_text(alloc, reader)?;
    let svg = svg_of(alloc, trace.as_str(), options)?;
    write_text(out, svg.as_str())?;
    Ok(())
}

/// Writes what the program is for. `Unwritten` if `out` fails, which may have taken a part of it.
pub fn write_help<W: Write>(out: &mut W) -> Result<(), Failure>
    ensures written { OnOk result (Appends (W.contents out.old) (W.contents out.new) help_text) }
    ensures fails { IfErr result (λ why. why ≡ Failure.Program program.Unwritten) }
{
    write_text(out, HELP)?;
    Ok(())
}

/// The status with which the program ends. A failure is said on `err`, if that can be written.
pub fn status<E: Write>(drawn: Result<(), Failure>, name: &str, err: &mut E) -> u8
    ensures { result ≡ status_of drawn }
{
    match drawn {
        Ok(()) => DONE,
        Err(failure) => {
            let _said = tell(failure, name, err);
            FAILED
        }
    }
}

/// Says a failure on `err`, for a file of that name.
fn tell<E: Write>(failure: Failure, name: &str, err: &mut E) -> io::Result<()>
    ensures { OnOk result (Appends (E.contents err.old) (E.contents err.new) (said_of name.now failure)) }
{
    match failure {
        Failure::Program(failure) => failure.tell(USAGE, name, err),
        Failure::Line(number, fault) => {
            writeln!(err, "trace line {number}: fault {}", fault.number())
        }
    }
}

/// The picture of a whole trace, or its first fault.
fn svg_of(alloc: Global, trace: &str, options: Options) -> Result<String, Failure>
    ensures drawn { IfOk result (λ svg. IsSomeTrace trace.now) }
    ensures fails { IfErr result (λ why. TextFails trace.now why) }
{
    let mut chart = Chart::new(alloc, options);
    svg_by(alloc, trace, &mut chart)
}

/// The picture of a whole trace by a chart that has nothing yet, or the trace's first fault.
fn svg_by(alloc: Global, trace: &str, chart: &mut Chart) -> Result<String, Failure>
    ensures drawn { IfOk result (λ svg. IsSomeTrace trace.now) }
    ensures fails { IfErr result (λ why. TextFails trace.now why) }
{
    follow(alloc, trace, chart)?;
    chart.finish(alloc)?;
    let svg = picture(alloc, chart)?;
    Ok(svg)
}
