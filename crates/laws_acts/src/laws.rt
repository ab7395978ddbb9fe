//! The functions run no code: what each ensures is the law.

ghost use Rattle.laws_acts.specs.SmallActs.{StepsAreSmallActs};
ghost use Rattle.laws_acts.specs.Acts.{StepsAreActs};

/// Each step of a command that is not refused, and of a message that is no fault, is its own first act and then a list of
/// small acts, each of which says all that it changes and sends.
pub fn steps_are_small_acts()
    ensures { StepsAreSmallActs }
{}

/// Each step of a command is a list of acts between which nothing is owed; that of a message is what it does at once, and
/// a list of acts.
pub fn steps_are_acts()
    ensures { StepsAreActs }
{}
