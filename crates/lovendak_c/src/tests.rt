// The calls on a handle, scene by scene: what is called, in order, and what it has to answer. References, calls, tasks and
// promises are numbered from 0 (docs/messages.md), so the numbers can be written down.
mod asking;
mod handles;
mod payloads;
mod telling;
mod trees;

use crate::handle::Handle;
use crate::streams::{lovendak_outgoing, lovendak_pending, lovendak_received};
use crate::tests::asking::{Call, answer};
use crate::tests::telling::{Tells, is_told};
use lovendak_c_desk::Notice;
use std::alloc::Global;
use std::process::Abort;

/// One of the two handles of a scene.
#[derive(Clone, Copy)]
enum Vat {
    A,
    B,
}

#[derive(Clone, Copy)]
enum Step {
    /// The call answers this code.
    Does(Call, u32),
    /// The call is done, and gives this number.
    Gives(Call, u64),
    Next(Tells),
    /// All that it has to send goes to the other, and that is something.
    Carries,
    /// The same, as many bytes as it says that wait, while there is no event.
    CarriesWhatWaits,
}

type Steps = &'static [(Vat, Step)];

/// A number that is given in no scene.
const UNTOUCHED: u64 = 99;

const SILENT: Notice = Notice {
    kind: 0,
    method: 0,
    is_exception: 0,
    exception: 0,
    place: 0,
    number: 0,
    object: 0,
    interface_id: 0,
    payload_len: 0,
    refs_len: 0,
};

/// The second vat has object 7 as its bootstrap object, for which the first asks.
const MEET: Steps = &[
    (Vat::A, Step::Does(Call::New(1, 0, 0), 0)),
    (Vat::B, Step::Does(Call::New(1, 1, 7), 0)),
    (Vat::A, Step::Gives(Call::Bootstrap, 0)),
    (Vat::A, Step::Gives(Call::ResultOf(0), 0)),
];

const FREE: Steps = &[
    (Vat::A, Step::Does(Call::Free, 0)),
    (Vat::B, Step::Does(Call::Free, 0)),
];

/// So many bytes, if there are as many.
fn front(bytes: &[u8], len: usize) -> &[u8] {
    let end = len.min(bytes.len());
    &bytes[..end]
}

/// Hands what one has to send to the other: how many bytes.
fn carry(alloc: Global, from: &mut Handle, to: &mut Handle) -> usize {
    let mut buffer = [0; 50];
    let mut all = 0usize;
    for _ in 0..99 {
        let mut len = 99;
        let _ = lovendak_outgoing(alloc, from, &mut buffer, &mut len);
        if len == 0 {
            return all;
        }
        let _ = lovendak_received(alloc, to, front(&buffer, len));
        all = all.saturating_add(len);
    }
    all
}

fn carries_what_waits(alloc: Global, from: &mut Handle, to: &mut Handle) -> bool {
    let (mut bytes, mut has_event) = (0, 9);
    let code = lovendak_pending(alloc, from, &mut bytes, &mut has_event);
    code == 0 && has_event == 0 && bytes > 0 && carry(alloc, from, to) == bytes
}

fn holds(alloc: Global, vat: &mut Handle, other: &mut Handle, step: &Step) -> bool {
    match step {
        Step::Does(call, code) => answer(alloc, vat, *call).0 == *code,
        Step::Gives(call, number) => answer(alloc, vat, *call) == (0, *number),
        Step::Next(wanted) => is_told(alloc, vat, wanted),
        Step::Carries => carry(alloc, vat, other) > 0,
        Step::CarriesWhatWaits => carries_what_waits(alloc, vat, other),
    }
}

/// Plays the parts of a scene with two handles.
fn play(rt: &impl Abort, alloc: Global, parts: &[Steps]) {
    let (mut a, mut b) = (Handle::none(), Handle::none());
    for steps in parts {
        play_steps(rt, alloc, &mut a, &mut b, steps);
    }
}

fn play_steps(rt: &impl Abort, alloc: Global, a: &mut Handle, b: &mut Handle, steps: Steps) {
    for (at, (vat, step)) in steps.iter().enumerate() {
        let holds = match vat {
            Vat::A => holds(alloc, a, b, step),
            Vat::B => holds(alloc, b, a, step),
        };
        assert!(rt; holds, "step {at}");
    }
}
