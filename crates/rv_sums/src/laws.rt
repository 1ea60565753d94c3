//! Laws of the definitions below, each the contract of a function that does nothing.
ghost use Rattle.rv_sums.specs.Sums.{FetchEndsSoon, FetchTakesGive, LifeIsBounded, ListIsFew, ListReadsFew, MovesSpend, StepTakesGive};
ghost use Rattle.rv_sums.specs.Unions.{UnionsFetchFew};

/// A law: over its whole life a cursor over one FROM item reads at most the bound that it had at OPEN, but for one read for
/// each foreground step for which no memory was found, and one for each piece that was taken and not given.
pub fn reads_are_bounded()
    ensures moves { MovesSpend }
    ensures life { LifeIsBounded }
    ensures step { StepTakesGive }
    ensures fetch { FetchTakesGive }
{}

/// A law: a FETCH takes at most as many turns as its plan has work left, and one more.
pub fn fetch_ends_soon()
    ensures { FetchEndsSoon }
{}

/// A law: the list of a union has at most as many keys as there are different rows that meet some member, and a cursor over
/// one FROM item reads at most one for each of them once it is complete.
pub fn lists_are_few()
    ensures keys { ListIsFew }
    ensures reads { ListReadsFew }
{}

/// A law: over its whole life a union fetches at most as many records as there are different rows that meet some member, but
/// for one for each call for which no memory was found.
pub fn unions_fetch_few()
    ensures { UnionsFetchFew }
{}
