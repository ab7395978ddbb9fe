/// Why a command was refused, by the number that its entry has; none for a number that no refusal has.
pub(crate) fn refusal_name(code: u16) -> Option<&'static str> {
    match code {
        1 => Some("out of memory"),
        2 => Some("a limit is reached"),
        3 => Some("the vat is down"),
        4 => Some("no such reference"),
        5 => Some("no such call"),
        6 => Some("no such task"),
        7 => Some("no such promise"),
        8 => Some("the promise would lead to itself"),
        9 => Some("capabilities and references differ in number"),
        10 => Some("the path is too long"),
        11 => Some("level 0 has no promises and sends no references"),
        _ => None,
    }
}

/// Why a vat went down, by the number that its entry has; none for a number that no fault has.
pub(crate) fn fault_name(number: u16) -> Option<&'static str> {
    match number {
        20 => Some("the question's id is in use"),
        21 => Some("no such question, or it was returned"),
        22 => Some("no such export"),
        23 => Some("no such answer, or its Finish came"),
        24 => Some("more is given back than there is, or nothing"),
        25 => Some("the promise was resolved before"),
        26 => Some("what is resolved is no promise"),
        27 => Some("the Disembargo's target does not settle to a wire"),
        28 => Some("no such embargo"),
        29 => Some("a descriptor of another kind than its import, or of a resolved one"),
        30 => Some("capabilities and descriptors differ in number"),
        31 => Some("more calls would wait than may"),
        32 => Some("a message came back that every vat understands"),
        33 => Some("want of room or memory"),
        34 => Some("the other vat sent an Abort"),
        _ => None,
    }
}
