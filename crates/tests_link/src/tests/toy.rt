//! A toy vat: each `bootstrap` and each `call` is a call of the other vat, whose tasks are numbered as they come, so that task
//! N is the other's call N. A `host` takes it down, with the number of the object.
ghost use Rattle.std.specs.Prelude.{◌≡◌, Some, IfErr};

use link_workers::PairEnd;
use rpc_journal::{Delivery, Ended, Outcome};
use rpc_machine::{Command, Effects, Granted, Refusal};
use rpc_msg::{CallId, Items, Memory, ObjectId, Payload, RefId, Stamp, TaskId, Vat};
use rtrb::{Consumer, Producer, RingBuffer};
use std::alloc::{AllocError, Global};
use std::collections::VecDeque;

/// What a toy vat says to the other.
#[derive(Clone, Copy, Drop)]
pub enum Said {
    Call(u64),
    Return(u64),
}

/// What happened at a toy vat.
#[derive(Clone, Copy, Debug, PartialEq, Eq, Drop)]
pub enum Did {
    Called,
    Answered(u64),
    Failed(u64),
    Got(u64),
    Ended(u64),
    Other,
}

#[derive(Drop)]
pub struct Toy {
    pub vat: Vat,
    pub did: Vec<Did>,
    calls: u64,
    tasks: u64,
    fallen: Option<u16>,
    waiting: VecDeque<Said>,
    to: Producer<Said>,
    from: Consumer<Said>,
    alloc: Global,
}

/// Two of them, with rings of that many places between them.
pub fn two_toys(alloc: Global, capacity: usize) -> Result<(Toy, Toy), AllocError> {
    let (to_b, from_a) = RingBuffer::new(alloc, capacity)?;
    let (to_a, from_b) = RingBuffer::new(alloc, capacity)?;
    let a = new_toy(alloc, Vat::A, to_b, from_b);
    let b = new_toy(alloc, Vat::B, to_a, from_a);
    Ok((a, b))
}

fn new_toy(alloc: Global, vat: Vat, to: Producer<Said>, from: Consumer<Said>) -> Toy {
    Toy {
        vat,
        did: Vec::new(alloc),
        calls: 0,
        tasks: 0,
        fallen: None,
        waiting: VecDeque::new(alloc),
        to,
        from,
        alloc,
    }
}

fn quiet(alloc: Global) -> Effects {
    Effects {
        sends: Items::new(alloc),
        deliveries: Items::new(alloc),
        answers: Items::new(alloc),
        down: None,
    }
}

impl Toy {
    fn call(&mut self) -> Granted
        ensures { self.new.vat ≡ self.old.vat }
    {
        let call = self.calls;
        self.calls = self.calls.wrapping_add(1);
        self.say(Said::Call(call), Did::Called);
        Granted::Call(CallId(call))
    }

    fn say(&mut self, said: Said, did: Did)
        ensures { self.new.vat ≡ self.old.vat }
    {
        let _room = self.waiting.push_back(said);
        let _room = self.did.push(did);
    }

    fn answer(&mut self, task: TaskId, did: Did) -> Result<(Granted, Effects), Refusal>
        ensures { self.new.vat ≡ self.old.vat }
    {
        if task.0 >= self.tasks {
            return Err(Refusal::UnknownTask);
        }
        self.say(Said::Return(task.0), did);
        Ok((Granted::Done, quiet(self.alloc)))
    }

    fn deliver(&mut self, call: u64) -> Result<Effects, Memory>
        ensures { self.new.vat ≡ self.old.vat }
    {
        let _room = self.did.push(Did::Got(call));
        let task = TaskId(self.tasks);
        self.tasks = self.tasks.wrapping_add(1);
        let delivery = Delivery {
            task,
            object: ObjectId(0),
            stamp: Stamp {
                vat: other(self.vat),
                reference: RefId(0),
                index: call,
            },
            interface: 0,
            method: 0,
            payload: Payload::null(self.alloc)?,
            refs: Items::new(self.alloc),
        };
        let mut effects = quiet(self.alloc);
        let _room = effects.deliveries.push(delivery);
        Ok(effects)
    }

    fn end(&mut self, call: u64) -> Result<Effects, Memory>
        ensures { self.new.vat ≡ self.old.vat }
    {
        let _room = self.did.push(Did::Ended(call));
        let ended = Ended {
            call: CallId(call),
            outcome: Outcome::Results(Payload::null(self.alloc)?),
            refs: Items::new(self.alloc),
        };
        let mut effects = quiet(self.alloc);
        let _room = effects.answers.push(ended);
        Ok(effects)
    }

    fn told(&mut self, taken: Result<Effects, Memory>) -> Result<Option<Effects>, u16>
        ensures vat { self.new.vat ≡ self.old.vat }
        ensures down { IfErr result (λ number. self.new.fallen ≡ Some number) }
    {
        match taken {
            Ok(effects) => Ok(Some(effects)),
            Err(Memory) => {
                self.fallen = Some(33);
                Err(33)
            }
        }
    }
}

pub fn other(vat: Vat) -> Vat {
    match vat {
        Vat::A => Vat::B,
        Vat::B => Vat::A,
    }
}

impl PairEnd for Toy {
    ghost use Rattle.std.specs.Prelude.{◌≡◌};
    ghost use Rattle.std.proofs.Common.{rules};

    ghost same = { λ x y. y.vat ≡ x.vat };

    ghost steps = { λ x told y. Unit {0} };

    ghost down_by = { λ x. x.fallen };

    fn down(&self) -> Option<u16> {
        self.fallen
    }

    fn command(&mut self, command: Command) -> Result<(Granted, Effects), Refusal> {
        match command {
            Command::Bootstrap | Command::Call(_) => {
                let granted = self.call();
                Ok((granted, quiet(self.alloc)))
            }
            Command::Answer(task, _, _) => self.answer(task, Did::Answered(task.0)),
            Command::Fail(task, _) => self.answer(task, Did::Failed(task.0)),
            Command::Host(object) => {
                self.fallen = Some((object.0 % 65_536) as u16);
                Ok((Granted::Done, quiet(self.alloc)))
            }
            _ => {
                let _room = self.did.push(Did::Other);
                Ok((Granted::Done, quiet(self.alloc)))
            }
        }
    }

    fn turn(&mut self) -> Result<Option<Effects>, u16> {
        if let Some(number) = self.fallen {
            return Err(number);
        }
        match self.from.pop() {
            Ok(Said::Call(call)) => {
                let taken = self.deliver(call);
                self.told(taken)
            }
            Ok(Said::Return(call)) => {
                let taken = self.end(call);
                self.told(taken)
            }
            Err(_) => Ok(None),
        }
    }

    fn flush(&mut self) {
        for _ in 0..self.waiting.len() {
            let Some(said) = self.waiting.front().copied() else {
                return;
            };
            if self.to.push(said).is_err() {
                return;
            }
            let _said = self.waiting.pop_front();
        }
    }

    fn recycle(&mut self, effects: Effects) {
        let Effects {
            sends: _,
            deliveries: _,
            answers: _,
            down: _,
        } = effects;
    }

    ghost same_self = { Prim.search rules };

    ghost same_through = { Prim.search rules };
}
