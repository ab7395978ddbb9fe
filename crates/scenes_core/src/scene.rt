//! Two cores, the messages under way between them, and what they said last.

use crate::heard::message;
use crate::told::write_effects;
use anyhow::{Result, bail};
use rpc_machine::{Command, Effects, Event, Granted, Level};
use rpc_msg::{Exception, ExceptionKind, Items, Message, ObjectId, Payload, RefId, Text, Vat};
use scenes_words::{letter, write_counts};
use script_language::{Act, Line, LineCommand, Name, Names, Program};
use std::alloc::Global;
use std::collections::VecDeque;
use std::fmt::Write;
use vat_core::{Answer, Core};

#[derive(Drop)]
pub struct Scene {
    a: Core,
    b: Core,
    to_a: VecDeque<Message>,
    to_b: VecDeque<Message>,
    names: Names,
    pub said: String,
}

impl Scene {
    /// Both have the bootstrap object 0, but a vat a of level 0.
    pub fn new(alloc: Global, title: &str) -> Result<Scene> {
        let (level, root) = match title.starts_with("scene level 0 ") {
            true => (Level::Zero, None),
            false => (Level::One, Some(ObjectId(0))),
        };
        let a = Core::new(alloc, Vat::A, level, root)?;
        let b = Core::new(alloc, Vat::B, Level::One, Some(ObjectId(0)))?;
        Ok(Scene {
            a,
            b,
            to_a: VecDeque::new(alloc),
            to_b: VecDeque::new(alloc),
            names: Names::new(alloc),
            said: String::new(alloc),
        })
    }

    pub fn begin(&mut self, alloc: Global, title: &str) -> Result<()> {
        *self = Scene::new(alloc, title)?;
        Ok(())
    }

    pub fn play(&mut self, alloc: Global, line: &str) -> Result<()> {
        let Some((turns, line)) = line.split_once(" times ") else {
            return self.happen(alloc, line);
        };
        let turns: u32 = turns.parse()?;
        for turn in 0..turns {
            self.happen_in(alloc, line, turn)?;
        }
        Ok(())
    }

    fn happen_in(&mut self, alloc: Global, line: &str, turn: u32) -> Result<()> {
        let number = format!(in alloc; "{turn}")?;
        let line = line.replace(alloc, "$", number.as_str())?;
        self.happen(alloc, line.as_str())
    }

    fn happen(&mut self, alloc: Global, line: &str) -> Result<()> {
        self.said = String::new(alloc);
        if let Some((vat, words)) = line.split_once(" hears ") {
            let vat = if vat == "a" { Vat::A } else { Vat::B };
            let message = message(alloc, words)?;
            return self.receive(alloc, vat, message);
        }
        if let Some((line, reason)) = line.split_once(" overloaded ") {
            return self.play_with(alloc, line, ExceptionKind::Overloaded, reason);
        }
        match line.split_once(" failed ") {
            Some((line, reason)) => self.play_with(alloc, line, ExceptionKind::Failed, reason),
            None => self.play_line(alloc, line),
        }
    }

    /// A script's line that breaks a promise or fails a task does so with this exception.
    fn play_with(
        &mut self,
        alloc: Global,
        text: &str,
        kind: ExceptionKind,
        reason: &str,
    ) -> Result<()> {
        let line = Line::read(alloc, Program::Run, text)?;
        let reason = Text::new(alloc, reason)?;
        let command = self.failing(alloc, &line, Exception { kind, reason })?;
        self.obey(alloc, &line, command)
    }

    fn failing(&mut self, alloc: Global, line: &Line, exception: Exception) -> Result<Command> {
        match self.act(alloc, line)? {
            Act::Happens(Event::Command(_, Command::Reject(promise, _))) => {
                Ok(Command::Reject(promise, exception))
            }
            Act::Happens(Event::Command(_, Command::Fail(task, _))) => {
                Ok(Command::Fail(task, exception))
            }
            _ => bail!("nothing fails"),
        }
    }

    fn act(&mut self, alloc: Global, line: &Line) -> Result<Act> {
        let null = Payload::null(alloc)?;
        let act = self.names.act(alloc, &null, line)?;
        Ok(act)
    }

    fn play_line(&mut self, alloc: Global, text: &str) -> Result<()> {
        let line = Line::read(alloc, Program::Run, text)?;
        self.follow_line(alloc, &line)
    }

    fn follow_line(&mut self, alloc: Global, line: &Line) -> Result<()> {
        match self.act(alloc, line)? {
            Act::Nothing => Ok(()),
            Act::Turn(_) => Ok(()),
            Act::Tables => self.tell_counts(),
            Act::Name(vat, name, reference) => name_in(&mut self.names, vat, name, reference),
            Act::Happens(event) => self.follow_event(alloc, line, event),
        }
    }

    fn follow_event(&mut self, alloc: Global, line: &Line, event: Event) -> Result<()> {
        match event {
            Event::Deliver(vat) => self.deliver(alloc, vat),
            Event::Command(_, command) => self.obey(alloc, line, command),
        }
    }

    fn deliver(&mut self, alloc: Global, vat: Vat) -> Result<()> {
        let oldest = match vat {
            Vat::A => self.to_a.pop_front(),
            Vat::B => self.to_b.pop_front(),
        };
        match oldest {
            Some(message) => self.receive(alloc, vat, message),
            None => bail!("no message is under way"),
        }
    }

    fn receive(&mut self, alloc: Global, vat: Vat, message: Message) -> Result<()> {
        let effects = match vat {
            Vat::A => self.a.receive(message),
            Vat::B => self.b.receive(message),
        };
        self.follow(alloc, vat, effects)
    }

    fn obey(&mut self, alloc: Global, line: &Line, command: Command) -> Result<()> {
        let Line::Command(vat, said) = line else {
            bail!("no command");
        };
        let answer = match vat {
            Vat::A => self.a.command(command),
            Vat::B => self.b.command(command),
        };
        match answer {
            Answer::Done(granted, effects) => {
                let kept = self.keep(*vat, said, granted);
                self.follow(alloc, *vat, effects)?;
                kept
            }
            Answer::Refused(refusal, _) => {
                writeln!(self.said, "{}: refused {}", letter(*vat), refusal.code())?;
                Ok(())
            }
        }
    }

    fn keep(&mut self, vat: Vat, said: &LineCommand, granted: Granted) -> Result<()> {
        if let Granted::Advanced(advanced) = granted {
            writeln!(self.said, "{}: {advanced:?}", letter(vat))?;
        }
        self.names.bind(vat, said, granted)?;
        Ok(())
    }

    fn follow(&mut self, alloc: Global, vat: Vat, effects: Effects) -> Result<()> {
        let told = self.tell(alloc, vat, &effects);
        let Effects {
            sends,
            deliveries: _deliveries,
            answers: _answers,
            down: _,
        } = effects;
        told?;
        self.send(vat, sends)
    }

    // Writes what a vat says, and keeps what its names may lead to.
    fn tell(&mut self, alloc: Global, vat: Vat, effects: &Effects) -> Result<()> {
        write_effects(&mut self.said, vat, effects)?;
        self.names.note_deliveries(alloc, vat, &effects.deliveries)?;
        self.names.note_outcomes(alloc, vat, &effects.answers)?;
        Ok(())
    }

    fn send(&mut self, vat: Vat, sends: Items<Message>) -> Result<()> {
        let mut sends = VecDeque::from(sends.into_vec());
        match vat {
            Vat::A => self.to_b.append(&mut sends)?,
            Vat::B => self.to_a.append(&mut sends)?,
        }
        Ok(())
    }

    fn tell_counts(&mut self) -> Result<()> {
        let a = self.a.counts()?;
        let b = self.b.counts()?;
        write_counts(&mut self.said, Vat::A, &a)?;
        self.said.push('\n')?;
        write_counts(&mut self.said, Vat::B, &b)?;
        self.said.push('\n')?;
        Ok(())
    }
}

fn name_in(names: &mut Names, vat: Vat, name: Name, reference: RefId) -> Result<()> {
    names.name(vat, name, reference)?;
    Ok(())
}
