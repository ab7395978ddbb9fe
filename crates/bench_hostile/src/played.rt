//! What steps did, counted.

use crate::astray::Astray;
use rpc_machine::Effects;
use rpc_msg::{Message, PlainMessage};

/// How many steps there were, what they sent, and how many calls reached the vat's objects.
#[derive(Clone, Copy, PartialEq, Eq, Drop)]
pub(crate) struct Played {
    pub(crate) steps: u64,
    pub(crate) sent: u64,
    /// The descriptors of the messages sent.
    pub(crate) passed: u64,
    /// The true flags of the messages sent.
    pub(crate) flags: u64,
    pub(crate) delivered: u64,
}

impl Played {
    pub(crate) fn nothing() -> Played {
        Played {
            steps: 0,
            sent: 0,
            passed: 0,
            flags: 0,
            delivered: 0,
        }
    }

    /// So many steps more, which sent so many messages with so many descriptors.
    pub(crate) fn more(self, steps: u64, sent: u64, passed: u64) -> Played {
        Played {
            steps: self.steps.saturating_add(steps),
            sent: self.sent.saturating_add(sent),
            passed: self.passed.saturating_add(passed),
            ..self
        }
    }

    /// One step more.
    pub(crate) fn add(&mut self, effects: &Effects) {
        self.steps = self.steps.saturating_add(1);
        let delivered = effects.deliveries.len() as u64;
        self.delivered = self.delivered.saturating_add(delivered);
        for message in &effects.sends {
            self.add_message(message);
        }
    }

    fn add_message(&mut self, message: &Message) {
        self.sent = self.sent.saturating_add(1);
        let passed = message.descriptors().len() as u64;
        self.passed = self.passed.saturating_add(passed);
        if has_true_flag(message) {
            self.flags = self.flags.saturating_add(1);
        }
    }

    /// All that was played, which has to be this.
    pub(crate) fn is(self, expected: Played) -> Result<Played, Astray> {
        if self == expected {
            return Ok(self);
        }
        Err(Astray::Otherwise {
            sent: self.sent,
            passed: self.passed,
            flags: self.flags,
            delivered: self.delivered,
        })
    }
}

fn has_true_flag(message: &Message) -> bool {
    let Message::Plain(message) = message else {
        return false;
    };
    match message {
        PlainMessage::Return(said) => said.release_param_caps,
        PlainMessage::Finish(said) => said.release_result_caps,
        _ => false,
    }
}
