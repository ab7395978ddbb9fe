//! What both logs say, played in one thread in their one order: two queues, and no frames.
use crate::adder::{Adder, Did, Note};
use link_rings::{Entry, Gathered, Reads};
use std::alloc::{AllocError, Global};
use std::collections::VecDeque;

#[derive(Drop)]
struct Replay {
    to_a: VecDeque<u64>,
    to_b: VecDeque<u64>,
    entries: usize,
    in_order: bool,
}

impl Reads<Note> for Replay {
    ghost reads = { λ old entry new. Unit {0} };

    fn first(&mut self, entry: &Entry<Note>) -> Result<(), AllocError> {
        self.entries = self.entries.saturating_add(1);
        let can_happen = happens(&entry.note, &mut self.to_a, &mut self.to_b)?;
        self.in_order = self.in_order && can_happen;
        Ok(())
    }

    fn second(&mut self, entry: &Entry<Note>) -> Result<(), AllocError> {
        self.entries = self.entries.saturating_add(1);
        let can_happen = happens(&entry.note, &mut self.to_b, &mut self.to_a)?;
        self.in_order = self.in_order && can_happen;
        Ok(())
    }
}

/// Plays a step, and says whether what it received is the oldest on its way.
fn happens(
    note: &Note,
    from: &mut VecDeque<u64>,
    to: &mut VecDeque<u64>,
) -> Result<bool, AllocError> {
    let can_happen = match note.did {
        Did::Took(number) => from.pop_front() == Some(number),
        _ => true,
    };
    if let Some(sent) = note.sent {
        to.push_back(sent)?;
    }
    Ok(can_happen)
}

/// Whether both logs, in their one order, can have happened in one thread.
pub(super) fn is_in_order(
    alloc: Global,
    gathered: &Gathered<Adder, Note, u64>,
) -> Result<bool, AllocError> {
    let mut replay = Replay {
        to_a: VecDeque::new(alloc),
        to_b: VecDeque::new(alloc),
        entries: 0,
        in_order: true,
    };
    gathered.read(&mut replay)?;
    let all = gathered
        .log_a()
        .len()
        .saturating_add(gathered.log_b().len());
    Ok(replay.in_order && replay.entries == all)
}
