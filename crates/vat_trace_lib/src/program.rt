ghost use Rattle.std.specs.Prelude.{◌≡◌, ◌⊎◌, ℕ, List, Some, IfOk, IfErr, OnOk};
ghost use Rattle.std.specs.Io.KnownBytes.{Appends};
ghost use Rattle.vat_trace_lib.specs.declared.words.Word.{Word};
ghost use Rattle.vat_trace_lib.specs.Words.{word_of};
ghost use Rattle.program_files.specs.Texts.{IsInput};
ghost use Rattle.vat_trace_lib.specs.Answers.{Answers};
ghost use Rattle.vat_trace_lib.specs.Failures.{Fails, said_of, status_after};

use crate::answers::answer;
use crate::fault::Failure;
use crate::words::Word;
use program_files::{FAILED, ProgramFailure, read_text, write_text};
use std::alloc::Global;
use std::io;
use std::io::{Read, Write};

/// How the program is called.
const USAGE: &str = "usage: vat_trace run|pair|check|show|upgrade FILE";

/// What the program does with a word and a file, whose bytes the reader gives. It writes to `out` what the word asks for,
/// and answers the status: 0, or 3 if `check` said that an entry breaks a law.
///
/// `Usage` for another word, `Unreadable` if the reader fails, `NotText` if the bytes are not UTF-8. Then `Script` or `Trace`
/// with the fault of the script or the trace, and `Memory` if a growth was refused. Nothing is written to `out` in these
/// cases. `Unwritten` if `out` fails, which may have taken a part of the answer.
pub fn play<R: Read, W: Write>(
    alloc: Global,
    word: &str,
    reader: &mut R,
    out: &mut W,
) -> Result<u8, Failure>
    ensures printed { IfOk result (λ status. (w : Word) × (word_of word.now ≡ Some w) × (input : List ℕ) × IsInput (R.remaining reader.old) input × (text : List ℕ) × Answers w input text status × Appends (W.contents out.old) (W.contents out.new) text) }
    ensures fails { IfErr result (λ why. Fails (word_of word.now) (R.remaining reader.old) why) }
    ensures silent { IfErr result (λ why. (out.new ≡ out.old) ⊎ (why ≡ Failure.Program ProgramFailure.Unwritten)) }
{
    let Some(word) = Word::of(word) else {
        return Err(Failure::Program(ProgramFailure::Usage));
    };
    let input = read_text(alloc, reader)?;
    let printed = answer(alloc, word, input.as_str())?;
    write_text(out, printed.text.as_str())?;
    Ok(printed.status)
}

/// The status with which the program ends. A failure is said on `err`, if that can be written.
pub fn status<E: Write>(played: Result<u8, Failure>, name: &str, err: &mut E) -> u8
    ensures { result ≡ status_after played }
{
    match played {
        Ok(status) => status,
        Err(failure) => {
            let _said = tell(failure, name, err);
            FAILED
        }
    }
}

/// Says a failure on `err`, for a file of that name.
fn tell<E: Write>(failure: Failure, name: &str, err: &mut E) -> io::Result<()>
    ensures { OnOk result (Appends (E.contents err.old) (E.contents err.new) (said_of name.now failure)) }
{
    match failure {
        Failure::Program(failure) => failure.tell(USAGE, name, err),
        Failure::Script(number) => writeln!(err, "script line {number}: fault"),
        Failure::Trace(number, fault) => {
            writeln!(err, "trace line {number}: fault {}", fault.number())
        }
    }
}
