use link_rings::{Party, Waiting};

/// The sum of what came, and the number with which it went down.
#[derive(Drop)]
pub struct Adder {
    pub total: u64,
    pub down: Option<u16>,
}

#[derive(Clone, Copy, Drop)]
pub enum Did {
    Said(u64),
    Shut(u16),
    Took(u64),
}

#[derive(Clone, Copy, Drop)]
pub struct Note {
    pub did: Did,
    pub sent: Option<u64>,
}

impl Party<Note, u64> for Adder {
    ghost use Rattle.std.specs.Prelude.{◌≡◌, true, false};
    ghost use Rattle.tests_link.specs.Adders.{input_of, sent_by, Step};

    type State = Adder;

    type Command = u64;

    type Answer = bool;

    type Effects = u64;

    ghost state = { λ a. a };

    ghost down_by = { λ a. a.down };

    ghost input = { input_of };

    ghost sends = { sent_by };

    ghost step = { Step };

    ghost answers = { λ c n a. Unit {0} };

    ghost refuses = { λ c a. a ≡ false };

    ghost tells = { λ n e. Unit {0} };

    fn down(&self) -> Option<u16> {
        self.down
    }

    fn received(note: &Note) -> bool {
        match note.did {
            Did::Took(_) => true,
            _ => false,
        }
    }

    fn sent(note: &Note) -> u64 {
        match note.sent {
            Some(_) => 1,
            None => 0,
        }
    }

    fn obey(&mut self, command: u64, room: bool, waiting: &mut Waiting<u64>) -> (Note, bool) {
        if !room || waiting.prepare(1).is_err() {
            let note = self.shut(33, waiting);
            return (note, false);
        }
        waiting.push(command);
        let note = Note {
            did: Did::Said(command),
            sent: Some(command),
        };
        (note, true)
    }

    fn refuse(&self, _command: u64) -> bool {
        false
    }

    fn receive(
        &mut self,
        message: u64,
        room: bool,
        waiting: &mut Waiting<u64>,
    ) -> (Note, Result<u64, u16>) {
        if !room || waiting.prepare(1).is_err() {
            self.down = Some(33);
            let note = Note {
                did: Did::Took(message),
                sent: None,
            };
            return (note, Err(33));
        }
        self.total = self.total.wrapping_add(message);
        waiting.push(message);
        let note = Note {
            did: Did::Took(message),
            sent: Some(message),
        };
        (note, Ok(message))
    }

    fn shut(&mut self, number: u16, waiting: &mut Waiting<u64>) -> Note {
        self.down = Some(number);
        waiting.push(0);
        Note {
            did: Did::Shut(number),
            sent: Some(0),
        }
    }

    fn recycle(&mut self, _effects: u64) {}
}
