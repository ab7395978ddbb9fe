ghost use Rattle.std.specs.Prelude.{◌≡◌, ◌++◌, IfOk, IfErr, OnOk, string_bytes};
ghost use Rattle.vat_trace_lib.specs.Answers.{Answers, RunsTo, ChecksTo, ShowsAs, UpgradesTo, complaint, status_of};
ghost use Rattle.vat_trace_lib.specs.Failures.{InputFails, ScriptFails, TraceFails};

use crate::fault::Failure;
use crate::run::{CheckedTrace, trace_of_script};
use crate::words::Word;
use rpc_check::Verdict;
use rpc_msg::Memory;
use std::alloc::Global;
use trace_file::{check_trace, show, upgrade, write_verdict};

/// The status of a program that did what it was asked.
const DONE: u8 = 0;

/// The status of a program that met an entry which breaks a law.
const BROKEN: u8 = 3;

/// What is printed, and the status with which the program ends.
#[derive(Drop)]
pub struct Printed {
    pub text: String,
    pub status: u8,
}

/// What the program answers to a word and an input, or the fault of the input.
pub(crate) fn answer(alloc: Global, word: Word, input: &str) -> Result<Printed, Failure>
    ensures answers { IfOk result (λ a. Answers word input.now (string_bytes a.text) a.status) }
    ensures fails { IfErr result (λ why. InputFails word input.now why) }
{
    match word {
        Word::Run => run(alloc, input),
        Word::Check => check(alloc, input),
        Word::Show => shown(alloc, input),
        Word::Upgrade => upgraded(alloc, input),
    }
}

fn run(alloc: Global, script: &str) -> Result<Printed, Failure>
    ensures answers { IfOk result (λ a. RunsTo script.now (string_bytes a.text) a.status) }
    ensures fails { IfErr result (λ why. ScriptFails script.now why) }
{
    let trace = trace_of_script(alloc, script.as_bytes())?;
    let printed = print_checked(trace)?;
    Ok(printed)
}

/// What is printed of a trace: its text, behind which stands the line that says a broken verdict, and the status by the
/// verdict. `Memory` if a growth was refused.
pub fn print_checked(trace: CheckedTrace) -> Result<Printed, Memory>
    ensures text { IfOk result (λ printed. string_bytes printed.text ≡ string_bytes trace.text ++ complaint trace.verdict) }
    ensures status { IfOk result (λ printed. printed.status ≡ status_of trace.verdict) }
{
    let CheckedTrace { mut text, verdict } = trace;
    write_broken(&mut text, verdict)?;
    let status = status(verdict);
    Ok(Printed { text, status })
}

/// The line that says a broken verdict, behind a text; of a good one nothing is said.
fn write_broken(text: &mut String, verdict: Verdict) -> Result<(), Memory>
    ensures { OnOk result (string_bytes text.new ≡ string_bytes text.old ++ complaint verdict) }
{
    match verdict {
        Verdict::Good(_) => Ok(()),
        Verdict::Order(_) => write_verdict(text, verdict),
        Verdict::Unmatched(_) => write_verdict(text, verdict),
        Verdict::AfterDown(_) => write_verdict(text, verdict),
        Verdict::Count(_) => write_verdict(text, verdict),
    }
}

fn check(alloc: Global, trace: &str) -> Result<Printed, Failure>
    ensures answers { IfOk result (λ a. ChecksTo trace.now (string_bytes a.text) a.status) }
    ensures fails { IfErr result (λ why. TraceFails trace.now why) }
{
    let verdict = check_trace(alloc, trace)?;
    let mut text = String::new(alloc);
    write_verdict(&mut text, verdict)?;
    let status = status(verdict);
    Ok(Printed { text, status })
}

fn status(verdict: Verdict) -> u8
    ensures { result ≡ status_of verdict }
{
    match verdict {
        Verdict::Good(_) => DONE,
        Verdict::Order(_) => BROKEN,
        Verdict::Unmatched(_) => BROKEN,
        Verdict::AfterDown(_) => BROKEN,
        Verdict::Count(_) => BROKEN,
    }
}

fn shown(alloc: Global, trace: &str) -> Result<Printed, Failure>
    ensures answers { IfOk result (λ a. ShowsAs trace.now (string_bytes a.text) a.status) }
    ensures fails { IfErr result (λ why. TraceFails trace.now why) }
{
    let text = show(alloc, trace)?;
    Ok(Printed { text, status: DONE })
}

fn upgraded(alloc: Global, trace: &str) -> Result<Printed, Failure>
    ensures answers { IfOk result (λ a. UpgradesTo trace.now (string_bytes a.text) a.status) }
    ensures fails { IfErr result (λ why. TraceFails trace.now why) }
{
    let text = upgrade(alloc, trace)?;
    Ok(Printed { text, status: DONE })
}
