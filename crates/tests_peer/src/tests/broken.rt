//! A peer whose promises 4 and 5 are broken, and 9 is not. The vat has sent the Finish of question 8 and not that of 3.
use crate::tests::frames::{
    BOOTSTRAP, CALL_WITH_NAMES, CALL_WITH_NONE, RESOLVE_TO_NAME, RESOLVE_TO_NONE,
    RESULTS_WITH_NAMES, RESULTS_WITH_NONE, TAIL_CALL_WITH_NAMES,
};
use crate::tests::{Frame, Heard, envelope, is_heard};
use peer_broken::{BrokenNames, Named};
use rpc_msg::{ExportId, Memory, QuestionId};
use std::alloc::Global;
use std::test::Fail;

const OPEN: QuestionId = QuestionId(3);

const NAMES: &[ExportId] = &[ExportId(4), ExportId(5), ExportId(4)];

/// A frame that comes, what is heard, and what is given back: at once, beside the Return for question 3, and beside its Finish.
struct Scene {
    came: Frame,
    heard: Heard,
    at_once: &'static [ExportId],
    returned: &'static [ExportId],
    finished: &'static [ExportId],
}

const SCENES: [Scene; 6] = [
    Scene {
        came: Frame(CALL_WITH_NAMES, 3),
        heard: Heard::Frame(Frame(CALL_WITH_NONE, 3)),
        at_once: &[],
        returned: NAMES,
        finished: &[],
    },
    Scene {
        came: Frame(TAIL_CALL_WITH_NAMES, 3),
        heard: Heard::TailCall(Frame(CALL_WITH_NONE, 3)),
        at_once: &[],
        returned: NAMES,
        finished: &[],
    },
    Scene {
        came: Frame(RESULTS_WITH_NAMES, 3),
        heard: Heard::Frame(Frame(RESULTS_WITH_NONE, 3)),
        at_once: &[],
        returned: &[],
        finished: NAMES,
    },
    Scene {
        came: Frame(RESULTS_WITH_NAMES, 8),
        heard: Heard::Frame(Frame(RESULTS_WITH_NONE, 8)),
        at_once: NAMES,
        returned: &[],
        finished: &[],
    },
    Scene {
        came: Frame(RESOLVE_TO_NAME, 4),
        heard: Heard::Frame(Frame(RESOLVE_TO_NONE, 7)),
        at_once: &[ExportId(4)],
        returned: &[],
        finished: &[],
    },
    Scene {
        came: Frame(BOOTSTRAP, 3),
        heard: Heard::Frame(Frame(BOOTSTRAP, 3)),
        at_once: &[],
        returned: &[],
        finished: &[],
    },
];

fn is_broken(export: ExportId) -> bool {
    export.0 == 4 || export.0 == 5
}

fn is_finished(question: QuestionId) -> bool {
    question.0 == 8
}

/// One allocation may be refused (`rt try --test --fail-alloc N`): nothing is then owed, and the frame comes again.
fn named(alloc: Global, names: &mut BrokenNames, frame: Frame) -> Result<Named, Fail> {
    let came = envelope(alloc, frame)?;
    match names.inbound(came, is_broken, is_finished) {
        Ok(named) => Ok(named),
        Err(Memory) => named_again(alloc, names, frame),
    }
}

fn named_again(alloc: Global, names: &mut BrokenNames, frame: Frame) -> Result<Named, Fail> {
    if !names.returned(OPEN, false).is_empty() {
        return Err("a refused message changed something")?;
    }
    let came = envelope(alloc, frame)?;
    Ok(names.inbound(came, is_broken, is_finished)?)
}

/// Whether these names are given back once, and all of them by a flag.
fn gives_back(names: &mut BrokenNames, flag: bool, scene: &Scene) -> bool {
    let none: &[ExportId] = &[];
    let (returned, finished) = match flag {
        true => (none, none),
        false => (scene.returned, scene.finished),
    };
    names.returned(OPEN, flag).as_slice() == returned
        && names.returned(OPEN, false).is_empty()
        && names.finished(OPEN, flag).as_slice() == finished
        && names.finished(OPEN, false).is_empty()
}

fn is_named(alloc: Global, named: Named, scene: &Scene) -> Result<bool, Fail> {
    let Named { came, given_back } = named;
    Ok(given_back.as_slice() == scene.at_once && is_heard(alloc, came, scene.heard)?)
}

/// The Return for question 3 and its Finish go with that flag.
fn is_played(alloc: Global, scene: &Scene, flag: bool) -> Result<bool, Fail> {
    let mut names = BrokenNames::new(alloc);
    let named = named(alloc, &mut names, scene.came)?;
    Ok(is_named(alloc, named, scene)? && gives_back(&mut names, flag, scene))
}

#[test]
fn each_name_is_given_back_once(rt: HostRuntime) -> Result<(), Fail> {
    for scene in &SCENES {
        for flag in [false, true] {
            let is_played = is_played(rt.alloc(), scene, flag)?;
            assert!(rt; is_played, "{} and {flag}", scene.came.0);
        }
    }
    Ok(())
}
