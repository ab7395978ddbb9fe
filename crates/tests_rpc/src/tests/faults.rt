//! The numbers of faults, and what is said of them (docs/numbers.md).
use program_faults::{ShownFault, fault_of};
use std::alloc::Global;
use std::fmt::Write;
use std::test::Fail;

/// The ranges of numbers that are faults'.
const NUMBERED: [(u16, u16); 3] = [(2, 12), (20, 34), (60, 68)];

const SHOWN: [(u16, &str); 6] = [
    (0, "0"),
    (12, "12 (Traversal: too many words visited)"),
    (
        29,
        "29 (KindMismatch: a descriptor of another kind than its import)",
    ),
    (62, "62 (TooManyDescriptors: too many descriptors)"),
    (
        66,
        "66 (NothingToTake: a return takes results that are not kept for it)",
    ),
    (
        68,
        "68 (TooManyRefused: too many refused questions are not finished)",
    ),
];

fn is_shown(alloc: Global, number: u16, wanted: &str) -> Result<bool, Fail> {
    let mut shown = String::new(alloc);
    write!(shown, "{}", ShownFault(number))?;
    Ok(shown.as_str() == wanted)
}

#[test]
fn each_fault_has_its_number(rt: HostRuntime) {
    for number in 0..200u16 {
        let is_one = NUMBERED
            .iter()
            .any(|(first, last)| *first <= number && number <= *last);
        let found = fault_of(number).map(|fault| fault.code());
        assert!(rt; found == if is_one { Some(number) } else { None });
    }
}

#[test]
fn a_fault_is_shown_with_its_meaning(rt: HostRuntime) -> Result<(), Fail> {
    for (number, wanted) in SHOWN {
        assert!(rt; is_shown(rt.alloc(), number, wanted)?);
    }
    Ok(())
}
