//! The functions run no code: what each ensures is the law.

ghost use Rattle.laws_wired.specs.Steps.{StepsAreAlike};
ghost use Rattle.laws_wired.specs.Wires.{WiredRunsAreRuns};

/// A step over a wire is a step in one world. It answers the same, and says, tells and leaves the same. Excepted are
/// stamps, how contents are laid out, null in the place of capabilities, and why nodes are broken.
pub fn steps_are_alike()
    ensures { StepsAreAlike }
{}

/// What two new vats do over wires they do in one world, except for stamps, for how contents are laid out, for null in the place of
/// capabilities, and for why nodes are broken.
pub fn wired_runs_are_runs()
    ensures { WiredRunsAreRuns }
{}
