//! An answer that is owed under the peer's id.
use vat_tables::Keyed;

#[derive(Clone, Copy)]
enum Step {
    Reserve(usize),
    Add(u32, u64),
    Change(u32, u64),
    Get(u32, Option<u64>),
    Close(u32, Option<u64>),
}

fn holds(answers: &mut Keyed<u64>, step: Step) -> bool {
    match step {
        Step::Reserve(more) => answers.reserve(more).is_ok(),
        Step::Add(id, entry) => answers.get(id).is_none() && answers.add(id, entry).is_ok(),
        Step::Change(id, entry) => changes(answers, id, entry),
        Step::Get(id, wanted) => answers.get(id).copied() == wanted,
        Step::Close(id, wanted) => answers.close(id) == wanted,
    }
}

fn changes(answers: &mut Keyed<u64>, id: u32, entry: u64) -> bool {
    match answers.get_mut(id) {
        Some(old) => {
            *old = entry;
            true
        }
        None => false,
    }
}

const ID: u32 = 4_000_000_000;

const OWED: [Step; 7] = [
    Step::Reserve(1),
    Step::Add(ID, 1),
    Step::Change(ID, 1),
    Step::Get(ID, Some(1)),
    Step::Get(0, None),
    Step::Close(ID, Some(1)),
    Step::Close(ID, None),
];

#[test]
fn an_answer_is_owed_under_the_peers_id(rt: HostRuntime) {
    let mut answers = Keyed::new(rt.alloc());
    for (at, step) in OWED.iter().enumerate() {
        assert!(rt; holds(&mut answers, *step), "step {at}");
    }
}
