//! All that stands between a vat and its peer, at once. The vat has exports of the peer as imports: 4 was named as a promise, 5 as an
//! object, and 9 is a promise that is broken. It has sent the Finish of its question 3. Finishes wait for their Returns.
use crate::tests::frames::{
    BOOTSTRAP, BOOTSTRAP_BACK, CALL, CALL_WITH_HOSTED, CALL_WITH_PROMISE, FINISH, FINISH_KEEPING,
    KEPT, OVERLOADED, RESOLVE_TO_HOSTED, RESOLVE_TO_NAME, RESOLVE_TO_NONE, RESULTS, TAIL_CALL,
    TAKES,
};
use crate::tests::tail_calls::{are_heard, is_said, message};
use crate::tests::{Frame, envelope};
use Act::{Comes, ComesToFull, Goes};
use peer_adapter::{
    Aside, Finishes, Heard, Inbound, Outbound, PeerAdapter, PeerError, Standing, Told,
};
use rpc_msg::{ExportId, Memory, QuestionId};
use std::alloc::Global;
use std::test::Fail;

#[derive(Clone, Copy, Drop)]
enum Act {
    /// The peer sends that.
    Comes(Frame),
    /// The same, where the vat has as many answers as it may have.
    ComesToFull(Frame),
    /// The vat says that.
    Goes(Frame),
}

/// Which exports are given back, what is said to the peer, and what the vat hears.
struct Outcome(&'static [ExportId], &'static [Frame], &'static [Frame]);

/// What happens, and what comes of it.
type Step = (Act, Outcome);

const SCENES: [&[Step]; 7] = [
    // A name is heard in the kind of the first one, and a Resolve of an object is not heard.
    &[
        (
            Comes(Frame(CALL_WITH_HOSTED, 3)),
            Outcome(&[], &[], &[Frame(CALL_WITH_PROMISE, 3)]),
        ),
        (
            Comes(Frame(RESOLVE_TO_HOSTED, 5)),
            Outcome(&[ExportId(4)], &[], &[]),
        ),
    ],
    // A broken promise that is named again.
    &[(
        Comes(Frame(RESOLVE_TO_NAME, 9)),
        Outcome(&[ExportId(9)], &[], &[Frame(RESOLVE_TO_NONE, 7)]),
    )],
    // A question more than there is room for, and its Finish.
    &[
        (
            ComesToFull(Frame(CALL, 3)),
            Outcome(&[], &[Frame(OVERLOADED, 3)], &[]),
        ),
        (ComesToFull(Frame(FINISH, 3)), Outcome(&[], &[], &[])),
    ],
    // A Finish goes behind the Return of its question.
    &[
        (Goes(Frame(CALL, 3)), Outcome(&[], &[Frame(CALL, 3)], &[])),
        (Goes(Frame(FINISH_KEEPING, 3)), Outcome(&[], &[], &[])),
        (
            Comes(Frame(RESULTS, 3)),
            Outcome(&[], &[Frame(FINISH_KEEPING, 3)], &[Frame(RESULTS, 3)]),
        ),
        (
            Comes(Frame(RESULTS, 3)),
            Outcome(&[], &[], &[Frame(RESULTS, 3)]),
        ),
    ],
    // A question that comes back needs none.
    &[
        (
            Goes(Frame(BOOTSTRAP, 3)),
            Outcome(&[], &[Frame(BOOTSTRAP, 3)], &[]),
        ),
        (Goes(Frame(FINISH, 3)), Outcome(&[], &[], &[])),
        (
            Comes(Frame(BOOTSTRAP_BACK, 3)),
            Outcome(&[], &[], &[Frame(BOOTSTRAP_BACK, 3)]),
        ),
        (
            Comes(Frame(RESULTS, 3)),
            Outcome(&[], &[], &[Frame(RESULTS, 3)]),
        ),
    ],
    // The Return that takes the results of a tail call is that of a question whose Finish waits.
    &[
        (Goes(Frame(CALL, 3)), Outcome(&[], &[Frame(CALL, 3)], &[])),
        (Goes(Frame(FINISH, 3)), Outcome(&[], &[], &[])),
        (
            Comes(Frame(TAIL_CALL, 5)),
            Outcome(&[], &[], &[Frame(CALL, 5)]),
        ),
        (
            Comes(Frame(TAKES, 5)),
            Outcome(&[], &[Frame(FINISH, 3)], &[]),
        ),
        (
            Goes(Frame(RESULTS, 5)),
            Outcome(&[], &[Frame(KEPT, 5)], &[Frame(RESULTS, 3)]),
        ),
        (
            Comes(Frame(FINISH_KEEPING, 5)),
            Outcome(&[], &[], &[Frame(FINISH, 5)]),
        ),
    ],
    // A tail call more than there is room for.
    &[
        (
            ComesToFull(Frame(TAIL_CALL, 5)),
            Outcome(&[], &[Frame(KEPT, 5)], &[]),
        ),
        (Comes(Frame(FINISH, 5)), Outcome(&[], &[], &[])),
    ],
];

/// A frame that comes to a new adapter, and the number of its fault.
const FAULTS: [(Frame, u16); 2] = [(Frame(TAKES, 5), 66), (Frame(KEPT, 3), 67)];

fn standing(export: ExportId) -> Option<Standing> {
    match export.0 {
        4 => Some(Standing::Promise),
        5 => Some(Standing::Hosted),
        9 => Some(Standing::Resolved),
        _ => None,
    }
}

fn is_broken(export: ExportId) -> bool {
    export.0 == 9
}

fn is_finished(question: QuestionId) -> bool {
    question.0 == 3
}

fn is_told(alloc: Global, told: &Told, heard: &Heard, wanted: &Outcome) -> Result<bool, Fail> {
    let Outcome(exports, frames, messages) = wanted;
    Ok(
        told.given_back.as_slice() == *exports
            && is_said(alloc, &told.said, frames)?
            && are_heard(alloc, heard, messages)?,
    )
}

fn came(alloc: Global, inbound: &Inbound, wanted: &Outcome) -> Result<bool, Fail> {
    match &inbound.aside {
        Aside::Told(told) => is_told(alloc, told, &inbound.heard, wanted),
        Aside::Unknown(_) => Ok(false),
    }
}

fn inbound(
    alloc: Global,
    adapter: &mut PeerAdapter,
    frame: Frame,
    is_full: bool,
) -> Result<Result<Inbound, u16>, Fail> {
    let envelope = envelope(alloc, frame)?;
    match adapter.inbound(envelope, is_full, standing, is_broken, is_finished) {
        Ok(inbound) => Ok(Ok(inbound)),
        Err(PeerError::Fault(fault)) => Ok(Err(fault.code())),
        Err(PeerError::Memory) => Err(Memory)?,
    }
}

fn comes(
    alloc: Global,
    adapter: &mut PeerAdapter,
    frame: Frame,
    is_full: bool,
    wanted: &Outcome,
) -> Result<bool, Fail> {
    match inbound(alloc, adapter, frame, is_full)? {
        Ok(inbound) => came(alloc, &inbound, wanted),
        Err(_number) => Ok(false),
    }
}

fn goes(
    alloc: Global,
    adapter: &mut PeerAdapter,
    frame: Frame,
    wanted: &Outcome,
) -> Result<bool, Fail> {
    let message = message(alloc, frame)?;
    let Outbound { told, heard } = adapter.outbound(message)?;
    is_told(alloc, &told, &heard, wanted)
}

/// Whether each step of a scene comes to what is wanted.
fn is_played(alloc: Global, scene: &[Step]) -> Result<bool, Fail> {
    let mut adapter = PeerAdapter::new(alloc);
    adapter.set_finishes(Finishes::AfterReturn);
    let mut is_wanted = true;
    for (act, wanted) in scene {
        is_wanted &= match act {
            Comes(frame) => comes(alloc, &mut adapter, *frame, false, wanted)?,
            ComesToFull(frame) => comes(alloc, &mut adapter, *frame, true, wanted)?,
            Goes(frame) => goes(alloc, &mut adapter, *frame, wanted)?,
        };
    }
    Ok(is_wanted)
}

#[test]
fn each_part_of_an_adapter_has_its_place(rt: HostRuntime) -> Result<(), Fail> {
    for (number, scene) in SCENES.iter().enumerate() {
        let is_played = is_played(rt.alloc(), scene)?;
        assert!(rt; is_played, "scene {number}");
    }
    Ok(())
}

#[test]
fn each_fault_of_an_adapter_has_its_number(rt: HostRuntime) -> Result<(), Fail> {
    for (frame, number) in FAULTS {
        let mut adapter = PeerAdapter::new(rt.alloc());
        let inbound = inbound(rt.alloc(), &mut adapter, frame, false)?;
        assert!(rt; matches!(inbound, Err(code) if code == number), "{number}");
    }
    Ok(())
}
