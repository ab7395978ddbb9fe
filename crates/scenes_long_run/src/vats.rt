//! What is driven: a world of two vats, or the two ends of a link.
ghost use Rattle.link_rings.specs.Ends.{IsSameEnd};

use crate::asked::Asked;
use anyhow::{Result, bail};
use link_ends::{Answer, EndA, EndB, Turn};
use rpc_machine::{Command, Effects, Event, Granted};
use rpc_msg::Vat;
use vat_world::{StepAnswer, World};

/// Two vats, each of which obeys commands and takes what is on its way to it.
pub trait Vats: Drop {
    /// The second are the first, later.
    ghost same: { Self → Self → Type 0 };

    /// What a vat grants for a command, with what followed, or nothing if it refuses.
    fn command(&mut self, vat: Vat, command: Command) -> Result<Option<(Granted, Effects)>>
        ensures { same self.old self.new };

    /// What followed from the oldest message to a vat, or nothing if there is none.
    fn deliver(&mut self, vat: Vat) -> Result<Option<Effects>>
        ensures { same self.old self.new };

    /// Takes back the memory of effects that were looked at.
    fn recycle(&mut self, vat: Vat, effects: Effects)
        ensures { same self.old self.new };

    ghost same_self: { (x : Self) → same x x };

    ghost same_through: { (x y z : Self) → same x y → same y z → same x z };
}

impl Vats for World {
    ghost same = { λ x y. Unit {0} };

    fn command(&mut self, vat: Vat, command: Command) -> Result<Option<(Granted, Effects)>> {
        match self.step(Event::Command(vat, command)) {
            StepAnswer::Answered(Answer::Done(granted, effects)) => Ok(Some((granted, effects))),
            StepAnswer::Answered(Answer::Refused(_, _)) => Ok(None),
            other => {
                self.give_back(vat, other);
                bail!("a command was not answered")
            }
        }
    }

    fn deliver(&mut self, vat: Vat) -> Result<Option<Effects>> {
        match self.step(Event::Deliver(vat)) {
            StepAnswer::Handled(effects) => Ok(Some(effects)),
            StepAnswer::Empty => Ok(None),
            other => {
                self.give_back(vat, other);
                bail!("a message was not taken")
            }
        }
    }

    fn recycle(&mut self, vat: Vat, effects: Effects) {
        self.recycle(vat, effects);
    }

    ghost same_self = { λ x. tt };

    ghost same_through = { λ x y z first then. tt };
}

/// The two ends of a link, and what their vats were asked. After each event all goes out for which the rings have room.
#[derive(Drop)]
pub struct Ends {
    pub a: EndA,
    pub b: EndB,
    pub asked: Asked,
}

impl Ends {
    fn flush(&mut self)
        ensures a { IsSameEnd self.old.a.end self.new.a.end }
        ensures b { IsSameEnd self.old.b.end self.new.b.end }
    {
        self.a.flush();
        self.b.flush();
    }
}

impl Vats for Ends {
    ghost use Rattle.std.proofs.Common.{rules};

    ghost same = { λ x y. IsSameEnd x.a.end y.a.end × IsSameEnd x.b.end y.b.end };

    fn command(&mut self, vat: Vat, command: Command) -> Result<Option<(Granted, Effects)>> {
        self.asked.keep(vat, &command)?;
        let answer = match vat {
            Vat::A => self.a.command(command),
            Vat::B => self.b.command(command),
        };
        self.flush();
        match answer {
            Answer::Done(granted, effects) => Ok(Some((granted, effects))),
            Answer::Refused(_, _) => Ok(None),
        }
    }

    fn deliver(&mut self, vat: Vat) -> Result<Option<Effects>> {
        let turn = match vat {
            Vat::A => self.a.turn(),
            Vat::B => self.b.turn(),
        };
        self.flush();
        match turn {
            Turn::Idle => Ok(None),
            Turn::Handled(effects) => Ok(Some(effects)),
            Turn::Down(number) => bail!("a vat went down: {number}"),
        }
    }

    fn recycle(&mut self, vat: Vat, effects: Effects) {
        match vat {
            Vat::A => self.a.recycle(effects),
            Vat::B => self.b.recycle(effects),
        }
    }

    ghost same_self = { λ x. Prim.search rules };

    ghost same_through = { λ x y z first then. Prim.search rules };
}
