ghost use Rattle.std.specs.Prelude.{◌≡◌, true, OnOk, IfOk, IfErr, option_copied};
ghost use Rattle.rpc_msg.specs.Payloads.{null_payload};
ghost use Rattle.script_language.specs.Bindings.{no_names, handed};
ghost use Rattle.script_language.specs.declared.act.Act.TheVariants as act;
ghost use Rattle.link_workers.specs.Playing.{answered, bound, is_of, Answers, Does, Obeys, PlaysLine, TakesFrame, TurnsIf};
ghost use Rattle.link_workers.specs.Ending.{AtStep, AtLine, IsEnding};

use crate::gate::Gate;
use crate::job::Job;
use crate::pair_end::PairEnd;
use crate::worker_end::WorkerEnd;
use rpc_journal::{Delivery, Ended};
use rpc_machine::{Command, Effects, Event, Granted, Refusal};
use rpc_msg::{Items, Memory, Payload, TaskId, Vat};
use script_language::{Act, Closes, GiveFault, Line, LineCommand, Names, OpenWork};
use std::alloc::Global;
use std::sync::Wait;
use std::thread;
use std::time::{Clock, Duration};

/// How many milliseconds a turn sleeps that found no frame.
const PAUSE: u64 = 1;

/// Works one end: plays the lines of its vat, each flushed, and then takes turns, each flushed, in which each open task is
/// answered with the null payload. It goes on until both workers are done, or one of them ends otherwise. The other notices
/// that when it next finds no frame. The same end comes back, with how the work ended.
pub fn work<R: Wait, E: PairEnd, G: Gate, C: Clock>(
    rt: &R,
    job: &Job<G, C>,
    end: E,
) -> (E, WorkerEnd)
    ensures end { E.same end result.0 }
    ensures ending { IsEnding E.steps job.now.vat job.now.lines.now end result.0 (E.down_by result.0) result.1 }
{
    let mut worker = Worker {
        end,
        names: Names::new(job.alloc),
        open: OpenWork::new(job.alloc),
        idle: 0,
    };
    let why = worker.work(rt, job);
    if why != WorkerEnd::Done {
        job.signals.stop();
    }
    let Worker {
        end,
        names: _,
        open: _,
        idle: _,
    } = worker;
    (end, why)
}

/// An end at work, and what its application knows.
struct Worker<E: PairEnd> {
    end: E,
    names: Names,
    open: OpenWork,
    /// How many turns in a row found no frame.
    idle: u32,
}

impl<E: PairEnd> Worker<E> {
    fn work<R: Wait, G: Gate, C: Clock>(&mut self, rt: &R, job: &Job<G, C>) -> WorkerEnd
        requires { self.old.names ≡ no_names }
        ensures end { E.same self.old.end self.new.end }
        ensures ending { IsEnding E.steps job.now.vat job.now.lines.now self.old.end self.new.end (E.down_by self.new.end) result }
    {
        let null = match Payload::null(job.alloc) {
            Ok(null) => null,
            Err(Memory) => return WorkerEnd::Memory,
        };
        match self.play(job, &null) {
            Ok(()) => {}
            Err(why) => return why,
        }
        for _ in rt.forever() {
            match self.go_on(job, &null) {
                Ok(()) => {}
                Err(why) => return why,
            }
        }
        unreachable!()
    }

    /// Plays the lines of its vat.
    fn play<G: Gate, C: Clock>(&mut self, job: &Job<G, C>, null: &Payload) -> Result<(), WorkerEnd>
        requires null { null.now ≡ null_payload }
        requires none { self.old.names ≡ no_names }
        ensures end { E.same self.old.end self.new.end }
        ensures ending { IfErr result (IsEnding E.steps job.now.vat job.now.lines.now self.old.end self.new.end (E.down_by self.new.end)) }
    {
        let lines = job.lines;
        for (i, line) in lines.iter().enumerate() {
            if !is_of(job.vat, line) {
                continue;
            }
            // Each arm by itself: a result that is handed on whole leaves its clauses to be proved by cases.
            match self.play_line(job, null, i + 1, line) {
                Ok(()) => {}
                Err(why) => return Err(why),
            }
        }
        Ok(())
    }

    fn play_line<G: Gate, C: Clock>(
        &mut self,
        job: &Job<G, C>,
        null: &Payload,
        number: usize,
        line: &Line,
    ) -> Result<(), WorkerEnd>
        requires null { null.now ≡ null_payload }
        requires own { is_of job.now.vat line.now ≡ true }
        ensures end { E.same self.old.end self.new.end }
        ensures plays { OnOk result (PlaysLine E.steps true job.now.vat self.old.end self.old.names line.now self.new.end self.new.names) }
        ensures ending { IfErr result (AtLine number self.old.end self.old.names line.now self.new.end (E.down_by self.new.end)) }
    {
        let act = match self.names.act(job.alloc, null, line) {
            Ok(act) => act,
            Err(GiveFault::Memory) => return Err(WorkerEnd::Memory),
            Err(GiveFault::Name(fault)) => return Err(WorkerEnd::ScriptFault(number, fault)),
        };
        match act {
            Act::Turn(_) => self.take_frame(job),
            Act::Name(vat, name, reference) => match self.names.name(vat, name, reference) {
                Ok(()) => Ok(()),
                Err(Memory) => Err(WorkerEnd::Memory),
            },
            Act::Happens(event) => self.happen(job, line, event),
            Act::Nothing => Ok(()),
            // a script for two threads has no line that says this
            Act::Tables => Ok(()),
        }
    }

    /// Takes turns until one takes a frame.
    fn take_frame<G: Gate, C: Clock>(&mut self, job: &Job<G, C>) -> Result<(), WorkerEnd>
        ensures end { E.same self.old.end self.new.end }
        ensures takes { OnOk result (TakesFrame E.steps job.now.vat self.old.end self.old.names self.new.end self.new.names) }
        ensures ending { IfErr result (AtStep (E.down_by self.new.end)) }
    {
        for _ in 0..job.max_turns {
            match self.turn(job) {
                Ok(true) => return Ok(()),
                Ok(false) => {}
                Err(why) => return Err(why),
            }
        }
        Err(WorkerEnd::Limit)
    }

    /// Answers the oldest open task, or else takes a turn. `Done` if both workers are.
    fn go_on<G: Gate, C: Clock>(&mut self, job: &Job<G, C>, null: &Payload) -> Result<(), WorkerEnd>
        ensures end { E.same self.old.end self.new.end }
        ensures ending { IfErr result (AtStep (E.down_by self.new.end)) }
    {
        if let Some((task, _)) = self.open.oldest_task() {
            return self.answer(job, null, task);
        }
        if self.open.calls_are_over() {
            job.signals.done(job.vat);
        }
        if job.signals.all_done() {
            return Err(WorkerEnd::Done);
        }
        match self.turn(job) {
            Ok(_) => Ok(()),
            Err(why) => Err(why),
        }
    }

    /// Takes a turn, and says whether it took a frame. One that took none sleeps.
    fn turn<G: Gate, C: Clock>(&mut self, job: &Job<G, C>) -> Result<bool, WorkerEnd>
        ensures end { E.same self.old.end self.new.end }
        ensures turns { IfOk result (λ found. TurnsIf E.steps job.now.vat found self.old.end self.old.names self.new.end self.new.names) }
        ensures ending { IfErr result (AtStep (E.down_by self.new.end)) }
    {
        if self.idle >= job.max_turns {
            return Err(WorkerEnd::Limit);
        }
        // looked at before the frames are, so that none that the other worker left is missed
        let stopped = job.signals.is_stopped();
        match self.end.turn() {
            Ok(Some(effects)) => {
                self.idle = 0;
                match self.take(job, effects) {
                    Ok(()) => {}
                    Err(Memory) => return Err(WorkerEnd::Memory),
                }
                self.end.flush();
                Ok(true)
            }
            Ok(None) => {
                self.idle += 1;
                self.end.flush();
                if stopped {
                    return Err(WorkerEnd::Stopped);
                }
                thread::sleep(job.clock, Duration::from_millis(PAUSE));
                Ok(false)
            }
            Err(number) => {
                self.end.flush();
                Err(WorkerEnd::Down(number))
            }
        }
    }

    /// Answers a task with the null payload.
    fn answer<G: Gate, C: Clock>(
        &mut self,
        job: &Job<G, C>,
        null: &Payload,
        task: TaskId,
    ) -> Result<(), WorkerEnd>
        ensures end { E.same self.old.end self.new.end }
        ensures ending { IfErr result (AtStep (E.down_by self.new.end)) }
    {
        let payload = match null.copy(job.alloc) {
            Ok(payload) => payload,
            Err(Memory) => return Err(WorkerEnd::Memory),
        };
        let refs = Items::new(job.alloc);
        self.ask(job, None, Command::Answer(task, payload, refs))
    }

    /// Has the vat obey what a line says.
    fn happen<G: Gate, C: Clock>(
        &mut self,
        job: &Job<G, C>,
        line: &Line,
        event: Event,
    ) -> Result<(), WorkerEnd>
        ensures end { E.same self.old.end self.new.end }
        ensures does { OnOk result (Does E.steps job.now.vat self.old.end self.old.names line.now (act.Happens event) self.new.end self.new.names) }
        ensures ending { IfErr result (AtStep (E.down_by self.new.end)) }
    {
        match event {
            Event::Command(_, command) => self.ask(job, line.command(), command),
            // a script for two threads has no line that says this
            Event::Deliver(_) => Ok(()),
        }
    }

    /// Has the vat obey a command, which that line says; the gate is asked round the answer of a task.
    fn ask<G: Gate, C: Clock>(
        &mut self,
        job: &Job<G, C>,
        said: Option<&LineCommand>,
        command: Command,
    ) -> Result<(), WorkerEnd>
        ensures end { E.same self.old.end self.new.end }
        ensures obeys { OnOk result (Obeys E.steps job.now.vat self.old.end self.old.names (option_copied said.entry) command self.new.end self.new.names) }
        ensures ending { IfErr result (AtStep (E.down_by self.new.end)) }
    {
        let closes = Closes::of(&command);
        let stamp = self.open.stamp_of(closes);
        if let Some(stamp) = stamp {
            if !job.gate.before_answer(job.vat, stamp) {
                return Err(WorkerEnd::GateNo);
            }
        }
        match self.obey(job, said, closes, command) {
            Ok(()) => {}
            Err(Memory) => return Err(WorkerEnd::Memory),
        }
        self.end.flush();
        if let Some(stamp) = stamp {
            job.gate.after_answer(job.vat, stamp);
        }
        match self.end.down() {
            Some(number) => Err(WorkerEnd::Down(number)),
            None => Ok(()),
        }
    }

    /// Has the vat obey, and keeps what it grants. A refusal is nothing to the worker, except for lack of memory.
    fn obey<G: Gate, C: Clock>(
        &mut self,
        job: &Job<G, C>,
        said: Option<&LineCommand>,
        closes: Closes,
        command: Command,
    ) -> Result<(), Memory>
        ensures end { E.same self.old.end self.new.end }
        ensures obeys { OnOk result (Answers E.steps job.now.vat self.old.end self.old.names (option_copied said.entry) command self.new.end self.new.names) }
    {
        let answer = self.end.command(command);
        self.hear(job, said, closes, answer)
    }

    /// Keeps what the vat granted and handed over.
    fn hear<G: Gate, C: Clock>(
        &mut self,
        job: &Job<G, C>,
        said: Option<&LineCommand>,
        closes: Closes,
        answer: Result<(Granted, Effects), Refusal>,
    ) -> Result<(), Memory>
        ensures end { self.new.end ≡ self.old.end }
        ensures names { OnOk result (self.new.names ≡ answered self.old.names job.now.vat (option_copied said.entry) answer) }
    {
        match answer {
            Ok((granted, effects)) => {
                self.open.close(closes);
                let bound = self.bind(job.vat, said, granted);
                let taken = self.take(job, effects);
                match bound {
                    Ok(()) => return taken,
                    Err(Memory) => return Err(Memory),
                }
            }
            Err(Refusal::Memory) => return Err(Memory),
            Err(Refusal::UnknownTask) => {
                self.open.close(closes);
                return Ok(());
            }
            Err(_) => return Ok(()),
        }
    }

    /// Binds the names that a line gives to what its command was granted; a call that it made is open.
    fn bind(&mut self, vat: Vat, said: Option<&LineCommand>, granted: Granted) -> Result<(), Memory>
        ensures end { self.new.end ≡ self.old.end }
        ensures names { OnOk result (self.new.names ≡ bound self.old.names vat (option_copied said.entry) granted) }
    {
        if let Granted::Call(call) = granted {
            self.open.add_call(call)?;
        }
        match said {
            Some(said) => self.names.bind(vat, said, granted),
            None => Ok(()),
        }
    }

    /// Keeps what the vat handed over, and gives it back.
    fn take<G: Gate, C: Clock>(&mut self, job: &Job<G, C>, effects: Effects) -> Result<(), Memory>
        ensures end { self.new.end ≡ self.old.end }
        ensures names { OnOk result (self.new.names ≡ handed self.old.names job.now.vat effects) }
    {
        let kept = self.keep(job.alloc, job.vat, &effects);
        self.end.recycle(effects);
        kept
    }

    fn keep(&mut self, alloc: Global, vat: Vat, effects: &Effects) -> Result<(), Memory>
        ensures end { self.new.end ≡ self.old.end }
        ensures names { OnOk result (self.new.names ≡ handed self.old.names vat effects.now) }
    {
        let (deliveries, answers) = (&effects.deliveries, &effects.answers);
        add_tasks(&mut self.open, deliveries)?;
        end_calls(&mut self.open, answers);
        self.names.note_deliveries(alloc, vat, deliveries)?;
        self.names.note_outcomes(alloc, vat, answers)
    }
}

/// Whether a line is for that vat.
fn is_of(vat: Vat, line: &Line) -> bool
    ensures { result ≡ is_of vat line.now }
{
    match line {
        Line::Turn(of) | Line::Deliver(of) => *of == vat,
        Line::Take(of, _) | Line::Got(of, _) | Line::Command(of, _) => *of == vat,
        Line::Skip | Line::Tables => false,
    }
}

fn add_tasks(work: &mut OpenWork, deliveries: &[Delivery]) -> Result<(), Memory> {
    for delivery in deliveries {
        work.add_task(delivery.task, delivery.stamp)?;
    }
    Ok(())
}

fn end_calls(work: &mut OpenWork, answers: &[Ended]) {
    for answer in answers {
        work.close(Closes::Call(answer.call));
    }
}
