//! How the checks in parts make up the machine's. The functions run no code: what each ensures is the law.

ghost use Rattle.core_step_checks.specs.Laws.{CallsAreRefused, DescriptorsInTurn, FlagsInTurn, FaultsInParts, TakingChangesNone};

/// What a call is refused with is what it is refused with whatever room the exports have, and then with lack of room in
/// the exports for what goes out.
pub fn calls_are_refused()
    ensures { CallsAreRefused }
{}

/// The first fault of descriptors is found by looking at each once those before it were taken: in linear time.
pub fn descriptors_in_turn()
    ensures { DescriptorsInTurn }
{}

/// Whether a flag takes off more than there is, is found by giving its ids back one after the other: in linear time.
pub fn flags_in_turn()
    ensures { FlagsInTurn }
{}

/// The fault of a message is the first of these: what comes before its descriptors, theirs, what comes behind them, and
/// that of its flag. The last two may be looked at once the descriptors were taken.
pub fn faults_in_parts()
    ensures parts { FaultsInParts }
    ensures taken { TakingChangesNone }
{}
