//! The functions run no code: what each ensures is the law.

ghost use Rattle.laws_acts.specs.Laws.{NamesAreSummed, PlacesFollowTables, NothingNamed, TakenCallsStayNamed, LooseByNamesThatWent, TightByNoneNoted, NoResolves};

/// How often places name a node is the sum over the eight tables, and changes with what an entry names that comes, goes or
/// takes the place of another. A vat that is new, or down, names nothing.
pub fn places_follow_tables()
    ensures summed { NamesAreSummed }
    ensures follow { PlacesFollowTables }
    ensures nothing { NothingNamed }
{}

/// What waiting calls name stays named while they are taken out of the list if they waited, and routed one after the
/// other.
pub fn taken_calls_stay_named()
    ensures { TakenCallsStayNamed }
{}

/// What is loose after a change was loose before, or a place that named it went. So who looks at each thing whose last
/// name went finds all that would go; and if nothing is left to look at, nothing would.
pub fn loose_by_names_that_went()
    ensures went { LooseByNamesThatWent }
    ensures tight { TightByNoneNoted }
{}

/// What no place names has no export: no Resolve is sent for it, and the exports need not be searched.
pub fn unnamed_has_no_export()
    ensures { NoResolves }
{}
