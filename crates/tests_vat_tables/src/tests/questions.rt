//! Questions that are asked, changed and closed.
use rpc_msg::QuestionId;
use std::process::Abort;
use vat_tables::{Questions, TABLE_LIMIT, TableFault};

#[derive(Clone, Copy)]
enum Step {
    IsEmpty(bool),
    Reserve(usize),
    Add(usize, Result<QuestionId, (TableFault, usize)>),
    IsFull,
    Get(QuestionId, Option<usize>),
    Change(QuestionId, usize),
    Close(QuestionId, Option<usize>),
    /// Closes a question, whatever it is.
    Free(QuestionId),
}

fn holds(questions: &mut Questions<usize>, step: Step) -> bool {
    match step {
        Step::IsEmpty(wanted) => questions.is_empty() == wanted,
        Step::Reserve(more) => questions.reserve(more).is_ok(),
        Step::Add(entry, wanted) => questions.add(entry) == wanted,
        Step::IsFull => questions.is_full(),
        Step::Get(id, wanted) => questions.get(id).copied() == wanted,
        Step::Change(id, entry) => changes(questions, id, entry),
        Step::Close(id, wanted) => questions.close(id) == wanted,
        Step::Free(id) => questions.close(id).is_some(),
    }
}

fn changes(questions: &mut Questions<usize>, id: QuestionId, entry: usize) -> bool {
    match questions.get_mut(id) {
        Some(old) => {
            *old = entry;
            true
        }
        None => false,
    }
}

fn hold(rt: &impl Abort, questions: &mut Questions<usize>, steps: &[Step]) {
    for (at, step) in steps.iter().enumerate() {
        assert!(rt; holds(questions, *step), "step {at}");
    }
}

fn ask(questions: &mut Questions<usize>, entry: usize) -> Option<QuestionId> {
    questions.add(entry).ok()
}

fn fill(questions: &mut Questions<usize>) -> bool {
    for entry in 0..TABLE_LIMIT {
        if ask(questions, entry).is_none() {
            return false;
        }
    }
    true
}

fn are_asked_and_closed(rt: &impl Abort, questions: &mut Questions<usize>) {
    hold(rt, questions, &[Step::IsEmpty(true), Step::Reserve(1)]);
    let (Some(first), Some(second)) = (ask(questions, 10), ask(questions, 20)) else {
        panic!(rt; "refused");
    };
    assert!(rt; first != second);
    let steps = [
        Step::Change(first, 11),
        Step::Get(first, Some(11)),
        Step::Get(second, Some(20)),
        Step::Close(first, Some(11)),
        Step::Close(first, None),
        Step::Get(first, None),
        Step::Get(second, Some(20)),
        Step::IsEmpty(false),
    ];
    hold(rt, questions, &steps);
}

/// All ids are in use at the limit, and one that is given back is the only free one.
const AT_LIMIT: [Step; 4] = [
    Step::Add(7, Err((TableFault::Full, 7))),
    Step::IsFull,
    Step::Free(QuestionId(5)),
    Step::Add(7, Ok(QuestionId(5))),
];

#[test]
fn questions_are_asked_and_closed(rt: HostRuntime) {
    let mut questions = Questions::new(rt.alloc());
    are_asked_and_closed(&rt, &mut questions);
    let mut full = Questions::new(rt.alloc());
    assert!(rt; fill(&mut full));
    hold(&rt, &mut full, &AT_LIMIT);
}
