ghost use Rattle.std.specs.Prelude.{◌≡◌, ◌∷◌, IfOk, IfErr, string_bytes};
ghost use Rattle.rpc_journal.specs.declared.entry.JournalEntry.TheVariants as entry;
ghost use Rattle.script_language.specs.Bindings.{no_names};
ghost use Rattle.script_language.specs.declared.line.Program.TheVariants as program;
ghost use Rattle.script_language.specs.Scripts.{ReadsScript};
ghost use Rattle.trace_write.specs.declared.version.TraceVersion.TheVariants.{Two};
ghost use Rattle.rpc_check.specs.Breaches.{verdict_of};
ghost use Rattle.rpc_check.specs.Kept.{HasTaken};
ghost use Rattle.trace_file.specs.Traces.{trace_text};
ghost use Rattle.vat_trace_lib.specs.Traces.{Prints, Faults, PrintsLines, FaultsLines, first_seen};

use crate::fault::ScriptFault;
use crate::lines::play_lines;
use laws_sound::worlds_keep_promises;
use rpc_check::{Checker, Verdict};
use rpc_journal::JournalEntry;
use rpc_msg::{Memory, ObjectId, Vat};
use script_language::{Line, Names, Program, read_script};
use std::alloc::Global;
use trace_file::{write_entries, write_entry};
use trace_json::TraceVersion;
use vat_world::World;

/// The object of both vats that the other asks for.
const FIRST_OBJECT: ObjectId = ObjectId(0);

/// The version of the traces that the program writes.
const VERSION: TraceVersion = TraceVersion::Two;

/// A trace as text, and its verdict.
#[derive(Drop)]
pub struct CheckedTrace {
    pub text: String,
    pub verdict: Verdict,
}

/// What a script leads to: the lines are played in order on two new vats that both have bootstrap object 0, and the
/// trace has a head, the journal, and the counts at the end; its verdict is good. `NotText` if the bytes are not UTF-8;
/// `Line` with the number of the first line that is none, and what is wrong with it; or else `Unnamed` with that of the
/// first that names something which is not there when its turn comes. `Memory` if a growth was refused, that of a vat
/// too.
pub fn trace_of_script(alloc: Global, script: &[u8]) -> Result<CheckedTrace, ScriptFault>
    ensures prints { IfOk result (λ trace. Prints script.now (string_bytes trace.text) trace.verdict) }
    ensures faults { IfErr result (λ fault. Faults script.now fault) }
{
    let lines = match read_script(alloc, Program::Run, script) {
        Ok(lines) => lines,
        Err(script_language::ScriptFault::Memory) => return Err(ScriptFault::Memory),
        Err(script_language::ScriptFault::NotText) => return Err(ScriptFault::NotText),
        Err(script_language::ScriptFault::Line(number, fault)) => {
            return Err(ScriptFault::Line(number, fault));
        }
    };
    // Each arm by itself: a result that is handed on whole leaves its clauses to be proved by cases.
    match trace_of_lines(alloc, &lines) {
        Ok(trace) => return Ok(trace),
        Err(fault) => return Err(fault),
    }
}

fn trace_of_lines(alloc: Global, lines: &[Line]) -> Result<CheckedTrace, ScriptFault>
    ensures prints { IfOk result (λ trace. PrintsLines lines.now (string_bytes trace.text) trace.verdict) }
    ensures faults { IfErr result (λ fault. FaultsLines lines.now fault) }
{
    let mut world = match World::new(alloc, Some(FIRST_OBJECT), Some(FIRST_OBJECT)) {
        Ok(world) => world,
        Err(Memory) => return Err(ScriptFault::Memory),
    };
    let trace = trace_from(alloc, &mut world, lines);
    if world.lacked_memory(Vat::A) || world.lacked_memory(Vat::B) {
        return Err(ScriptFault::Memory);
    }
    trace
}

fn trace_from(alloc: Global, world: &mut World, lines: &[Line]) -> Result<CheckedTrace, ScriptFault>
    requires { world.old ≡ first_seen }
    ensures prints { IfOk result (λ trace. PrintsLines lines.now (string_bytes trace.text) trace.verdict) }
    ensures faults { IfErr result (λ fault. FaultsLines lines.now fault) }
{
    let mut names = Names::new(alloc);
    trace_in(alloc, world, &mut names, lines)
}

// A world and names are lent here: at each exit there would be much to drop.
fn trace_in(
    alloc: Global,
    world: &mut World,
    names: &mut Names,
    lines: &[Line],
) -> Result<CheckedTrace, ScriptFault>
    requires new { world.old ≡ first_seen }
    requires unnamed { names.old ≡ no_names }
    ensures prints { IfOk result (λ trace. PrintsLines lines.now (string_bytes trace.text) trace.verdict) }
    ensures faults { IfErr result (λ fault. FaultsLines lines.now fault) }
{
    // Each arm by itself: a result that is handed on whole leaves its clauses to be proved by cases.
    match play_lines(alloc, world, names, lines) {
        Ok(()) => {}
        Err(fault) => return Err(fault),
    }
    match world.note_tables() {
        Ok(()) => {}
        Err(Memory) => return Err(ScriptFault::Memory),
    }
    worlds_keep_promises();
    match checked(alloc, world.journal()) {
        Ok(trace) => return Ok(trace),
        Err(Memory) => return Err(ScriptFault::Memory),
    }
}

/// The trace of a journal, with its head, and its verdict. `Memory` if a growth was refused.
pub fn checked(alloc: Global, journal: &[JournalEntry]) -> Result<CheckedTrace, Memory>
    ensures text { IfOk result (λ trace. string_bytes trace.text ≡ trace_text Two (entry.Head ∷ journal.now)) }
    ensures verdict { IfOk result (λ trace. trace.verdict ≡ verdict_of (entry.Head ∷ journal.now)) }
{
    let text = print(alloc, journal)?;
    let verdict = verdict(alloc, journal)?;
    Ok(CheckedTrace { text, verdict })
}

/// The trace of a journal, with its head.
fn print(alloc: Global, journal: &[JournalEntry]) -> Result<String, Memory>
    ensures { IfOk result (λ text. string_bytes text ≡ trace_text Two (entry.Head ∷ journal.now)) }
{
    let mut text = String::new(alloc);
    write_entry(alloc, &mut text, &JournalEntry::Head, VERSION)?;
    write_entries(alloc, &mut text, journal, VERSION)?;
    Ok(text)
}

/// The verdict of a journal with its head.
fn verdict(alloc: Global, journal: &[JournalEntry]) -> Result<Verdict, Memory>
    ensures { IfOk result (λ verdict. verdict ≡ verdict_of (entry.Head ∷ journal.now)) }
{
    let mut checker = Checker::new(alloc).take(alloc, &JournalEntry::Head)?;
    for entry in journal {
        checker = checker.take(alloc, entry)?;
    }
    Ok(checker.verdict())
}
