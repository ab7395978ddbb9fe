ghost use Rattle.std.specs.Prelude.{◌≡◌, OnOk};
ghost use Rattle.rpc_msg.specs.Payloads.{null_payload};
ghost use Rattle.vat_world.specs.World.{Steps};
ghost use Rattle.vat_world.specs.declared.answer.StepAnswer.{StepAnswer};
ghost use Rattle.script_language.specs.Bindings.{handed};
ghost use Rattle.vat_trace_lib.specs.Playing.{PlaysLine, PlaysAll, told, answered};

use crate::fault::ScriptFault;
use rpc_machine::{Effects, Refusal};
use rpc_msg::{Memory, Payload, Vat};
use script_language::{Act, GiveFault, Line, LineCommand, Names};
use std::alloc::Global;
use vat_world::{Answer, StepAnswer, World, WorldEvent, vat_of};

/// Plays the lines in order. `Unnamed` if a line names something that is not there when its turn comes, with its
/// number, counted from 1, and the first such thing; what stands before it was played. `Memory` if a growth of the
/// names, of a command or of the counts was refused.
pub fn play_lines(
    alloc: Global,
    world: &mut World,
    names: &mut Names,
    lines: &[Line],
) -> Result<(), ScriptFault>
    ensures { PlaysAll world.old names.old lines.now result world.new names.new }
{
    let null = match Payload::null(alloc) {
        Ok(null) => null,
        Err(Memory) => return Err(ScriptFault::Memory),
    };
    for (i, line) in lines.iter().enumerate() {
        match play_line(alloc, world, names, &null, line) {
            Ok(()) => {}
            Err(GiveFault::Memory) => return Err(ScriptFault::Memory),
            Err(GiveFault::Name(fault)) => return Err(ScriptFault::Unnamed(i + 1, fault)),
        }
    }
    Ok(())
}

fn play_line(
    alloc: Global,
    world: &mut World,
    names: &mut Names,
    null: &Payload,
    line: &Line,
) -> Result<(), GiveFault>
    requires { null.now ≡ null_payload }
    ensures { PlaysLine world.old names.old line.now result world.new names.new }
{
    match names.act(alloc, null, line)? {
        Act::Nothing => {}
        // a script for `run` has no line that says this
        Act::Turn(_) => {}
        Act::Tables => world.note_tables()?,
        Act::Name(vat, name, reference) => names.name(vat, name, reference)?,
        Act::Happens(event) => happen(alloc, world, names, line, event)?,
    }
    Ok(())
}

/// Lets the event of a line happen, and keeps what it answers. A command that is refused for lack of memory ends the play.
fn happen(
    alloc: Global,
    world: &mut World,
    names: &mut Names,
    line: &Line,
    event: WorldEvent,
) -> Result<(), Memory>
    ensures { OnOk result ((answer : StepAnswer) × Steps world.old event answer world.new × (names.new ≡ told names.old line.now answer)) }
{
    let vat = vat_of(&event);
    let answer = world.step(event);
    if is_refused_memory(&answer) {
        world.give_back(vat, answer);
        return Err(Memory);
    }
    let kept = keep(alloc, names, line, &answer);
    world.give_back(vat, answer);
    kept
}

fn is_refused_memory(answer: &StepAnswer) -> bool {
    matches!(
        answer,
        StepAnswer::Answered(Answer::Refused(Refusal::Memory, _))
    )
}

/// Binds what the line's command was granted, and keeps the references that its vat's application was handed.
fn keep(alloc: Global, names: &mut Names, line: &Line, answer: &StepAnswer) -> Result<(), Memory>
    ensures { OnOk result (names.new ≡ told names.old line.now answer.now) }
{
    match (line, answer) {
        (Line::Command(vat, said), StepAnswer::Answered(answer)) => {
            keep_answer(alloc, names, *vat, said, answer)
        }
        (Line::Deliver(vat), StepAnswer::Handled(effects)) => {
            keep_handed(alloc, names, *vat, effects)
        }
        _ => Ok(()),
    }
}

fn keep_answer(
    alloc: Global,
    names: &mut Names,
    vat: Vat,
    said: &LineCommand,
    answer: &Answer,
) -> Result<(), Memory>
    ensures { OnOk result (names.new ≡ answered names.old vat said.now answer.now) }
{
    match answer {
        Answer::Done(granted, effects) => {
            names.bind(vat, said, *granted)?;
            keep_handed(alloc, names, vat, effects)
        }
        Answer::Refused(..) => Ok(()),
    }
}

fn keep_handed(alloc: Global, names: &mut Names, vat: Vat, effects: &Effects) -> Result<(), Memory>
    ensures { OnOk result (names.new ≡ handed names.old vat effects.now) }
{
    names.note_deliveries(alloc, vat, &effects.deliveries)?;
    names.note_outcomes(alloc, vat, &effects.answers)
}
