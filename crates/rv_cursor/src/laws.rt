//! Laws of the definitions, each the contract of a function that does nothing.
ghost use Rattle.rv_cursor.specs.Fetches.{FetchLosesNone, MovesFetchFew, StepLosesNone, TurnLosesNone};

/// A law: where a short index was scanned at opening, a plan over one FROM item that moves has no more records fetched
/// and left than before, but for one for each foreground step that found no memory; a FETCH, a turn of it and a STEP that
/// are answered have no such step.
pub fn few_are_fetched()
    ensures few { MovesFetchFew }
    ensures fetch { FetchLosesNone }
    ensures turn { TurnLosesNone }
    ensures step { StepLosesNone }
{}
