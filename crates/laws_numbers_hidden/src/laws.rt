//! The function runs no code: what it ensures is the law.

ghost use Rattle.laws_numbers_hidden.specs.Steps.{StepsHideNumbers};

/// If each object gets another number, and no two the same, each step stays a step: it answers and sends the same, and delivers
/// the same calls, to the objects by their new numbers.
pub fn steps_hide_numbers()
    ensures { StepsHideNumbers }
{}
