//! Question 3 of the vat, the Finish of it that the vat says, and what the peer says.
use crate::tests::frames::{
    BOOTSTRAP, BOOTSTRAP_BACK, CANCELED, KEPT, OVERLOADED, RESULTS, TAKES_KEEPING,
};
use crate::tests::{Frame, envelope};
use Finishes::AfterReturn;
use When::{BehindTheFrame, BehindTheReturn};
use peer_finishes::{Finishes, HeldFinishes};
use rpc_msg::{Finish, Memory, QuestionId};
use std::alloc::Global;
use std::test::Fail;

/// When Finishes go as the question is asked, and when they go behind that. Then the vat says the Finish, a frame comes, and the Return
/// of the question comes.
struct Scene {
    asked: Finishes,
    behind: Finishes,
    came: Frame,
    /// When the Finish goes.
    goes: Option<When>,
}

#[derive(Clone, Copy, Debug, PartialEq, Eq, Drop)]
enum When {
    AtOnce,
    BehindTheFrame,
    BehindTheReturn,
}

const SCENES: [Scene; 11] = [
    // Each form of a Return.
    Scene {
        asked: AfterReturn,
        behind: AfterReturn,
        came: Frame(RESULTS, 3),
        goes: Some(BehindTheFrame),
    },
    Scene {
        asked: AfterReturn,
        behind: AfterReturn,
        came: Frame(OVERLOADED, 3),
        goes: Some(BehindTheFrame),
    },
    Scene {
        asked: AfterReturn,
        behind: AfterReturn,
        came: Frame(CANCELED, 3),
        goes: Some(BehindTheFrame),
    },
    Scene {
        asked: AfterReturn,
        behind: AfterReturn,
        came: Frame(KEPT, 3),
        goes: Some(BehindTheFrame),
    },
    Scene {
        asked: AfterReturn,
        behind: AfterReturn,
        came: Frame(TAKES_KEEPING, 8),
        goes: Some(BehindTheFrame),
    },
    // The Return of another question, a question of the peer, and what comes back.
    Scene {
        asked: AfterReturn,
        behind: AfterReturn,
        came: Frame(RESULTS, 4),
        goes: Some(BehindTheReturn),
    },
    Scene {
        asked: AfterReturn,
        behind: AfterReturn,
        came: Frame(BOOTSTRAP, 3),
        goes: Some(BehindTheReturn),
    },
    Scene {
        asked: AfterReturn,
        behind: AfterReturn,
        came: Frame(BOOTSTRAP_BACK, 4),
        goes: Some(BehindTheReturn),
    },
    Scene {
        asked: AfterReturn,
        behind: AfterReturn,
        came: Frame(BOOTSTRAP_BACK, 3),
        goes: None,
    },
    // What was asked before goes as it was to.
    Scene {
        asked: Finishes::AtOnce,
        behind: AfterReturn,
        came: Frame(RESULTS, 3),
        goes: Some(When::AtOnce),
    },
    Scene {
        asked: AfterReturn,
        behind: Finishes::AtOnce,
        came: Frame(RESULTS, 3),
        goes: Some(BehindTheFrame),
    },
];

/// One allocation may be refused (`rt try --test --fail-alloc N`): no question is open then, and it is asked again.
fn ask(held: &mut HeldFinishes, question: QuestionId) -> Result<(), Fail> {
    let finish = Finish {
        question,
        release_result_caps: true,
    };
    let Err(Memory) = held.ask(question) else {
        return Ok(());
    };
    if !held.finish(finish) {
        return Err("a refused question is open")?;
    }
    Ok(held.ask(question)?)
}

/// The Finish that goes behind a frame.
fn behind(alloc: Global, held: &mut HeldFinishes, frame: Frame) -> Result<Option<Finish>, Fail> {
    let came = envelope(alloc, frame)?;
    Ok(held.inbound(&came))
}

/// When the Finish of question 3 goes, which has that flag: at most once.
fn goes(alloc: Global, scene: &Scene, finish: Finish) -> Result<Option<When>, Fail> {
    let mut held = HeldFinishes::new(alloc);
    held.set(scene.asked);
    ask(&mut held, finish.question)?;
    held.set(scene.behind);
    let is_at_once = held.finish(finish);
    let by_frame = behind(alloc, &mut held, scene.came)?;
    let by_return = behind(alloc, &mut held, Frame(RESULTS, 3))?;
    match (is_at_once, by_frame, by_return) {
        (false, None, None) => Ok(None),
        (true, None, None) => Ok(Some(When::AtOnce)),
        (false, Some(gone), None) if gone == finish => Ok(Some(BehindTheFrame)),
        (false, None, Some(gone)) if gone == finish => Ok(Some(BehindTheReturn)),
        _ => Err("another Finish, or a second one")?,
    }
}

#[test]
fn each_finish_goes_once(rt: HostRuntime) -> Result<(), Fail> {
    for scene in &SCENES {
        for release_result_caps in [false, true] {
            let finish = Finish {
                question: QuestionId(3),
                release_result_caps,
            };
            let goes = goes(rt.alloc(), scene, finish)?;
            assert_eq!(rt; goes, scene.goes, "{} {}", scene.came.0, scene.came.1);
        }
    }
    Ok(())
}

const MANY: u32 = 4_096;

/// As many questions as a vat has wait at once, and each Return has its Finish behind it.
#[test]
fn finishes_of_many_questions_wait(rt: HostRuntime) -> Result<(), Fail> {
    let mut held = HeldFinishes::new(rt.alloc());
    held.set(AfterReturn);
    for id in 0..MANY {
        ask(&mut held, QuestionId(id))?;
    }
    for id in 0..MANY {
        let finish = Finish {
            question: QuestionId(id),
            release_result_caps: id % 2 == 0,
        };
        assert!(rt; !held.finish(finish), "{id} goes at once");
    }
    for id in 0..MANY {
        let finish = Finish {
            question: QuestionId(id),
            release_result_caps: id % 2 == 0,
        };
        let gone = behind(rt.alloc(), &mut held, Frame(RESULTS, id))?;
        assert_eq!(rt; gone, Some(finish));
    }
    Ok(())
}
