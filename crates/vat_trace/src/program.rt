ghost use Rattle.std.specs.Prelude.{◌≡◌, ◌⊎◌, ℕ, List, IfOk, IfErr, string_bytes};
ghost use Rattle.std.specs.Io.KnownBytes.{Appends};
ghost use Rattle.program_files.specs.Texts.{IsInput};
ghost use Rattle.program_files.specs.declared.fault.ProgramFailure.TheVariants as program;
ghost use Rattle.vat_trace.specs.Answers.{PairsTo, PairFails, Fails};

use crate::trace::trace_of_pair;
use program_files::{ProgramFailure, read_text, write_text};
use std::alloc::Global;
use std::io::{Read, Write};
use std::sync::Wait;
use std::thread::Threads;
use std::time::Clock;
use vat_trace_lib::{Failure, Printed, print_checked};

/// What the program does with the word `pair` and a file, whose bytes the reader gives: it plays the script on two threads,
/// writes the trace to `out`, and answers the status 0. An idle thread sleeps by the clock.
///
/// `Unreadable` if the reader fails, `NotText` if the bytes are not UTF-8, then `Script` with the line at fault, and `Memory`
/// if a growth was refused or there is no thread: nothing is written to `out` then. `Unwritten` if `out` fails, which may
/// have taken a part of the trace.
pub fn play_pair<R: Threads + Wait + Sync, C: Clock + Sync, I: Read, W: Write>(
    alloc: Global,
    rt: &R,
    clock: &C,
    reader: &mut I,
    out: &mut W,
) -> Result<u8, Failure>
    ensures printed { IfOk result (λ status. (input : List ℕ) × IsInput (I.remaining reader.old) input × (text : List ℕ) × PairsTo input text status × Appends (W.contents out.old) (W.contents out.new) text) }
    ensures fails { IfErr result (λ why. Fails (I.remaining reader.old) why) }
    ensures silent { IfErr result (λ why. (out.new ≡ out.old) ⊎ (why ≡ Failure.Program program.Unwritten)) }
{
    let input = read_text(alloc, reader)?;
    let printed = answer(alloc, rt, clock, input.as_str())?;
    let Ok(()) = write_text(out, printed.text.as_str()) else {
        return Err(Failure::Program(ProgramFailure::Unwritten));
    };
    Ok(printed.status)
}

/// What the program prints for a script, or its fault.
fn answer<R: Threads + Wait + Sync, C: Clock + Sync>(
    alloc: Global,
    rt: &R,
    clock: &C,
    script: &str,
) -> Result<Printed, Failure>
    ensures answers { IfOk result (λ a. PairsTo script.now (string_bytes a.text) a.status) }
    ensures fails { IfErr result (λ why. PairFails script.now why) }
{
    let trace = trace_of_pair(alloc, rt, clock, script.as_bytes())?;
    let printed = print_checked(trace)?;
    Ok(printed)
}
