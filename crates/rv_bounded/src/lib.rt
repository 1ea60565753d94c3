//! Laws of what a retrieval reads under judges that are bounded, each the contract of a function that does nothing.
#![tactic(auto)]

ghost use Rattle.rv_bounded.specs.Bounds.{FastReadsAreBounded, LeavesAreFew, ReadsAreBounded, SearchesAreBounded};
ghost use Rattle.rv_bounded.specs.Changes.{ChangesAreBounded};
ghost use Rattle.rv_bounded.specs.CoreCalls.{CallIsSpent, GiveIsGiven, MovesLoseFew, StillIsSpent, TakeIsSpent};
ghost use Rattle.rv_bounded.specs.Cursors.{CursorsAreBounded, FastCursorsAreBounded, OpensBegin};
ghost use Rattle.rv_bounded.specs.OtherPlans.{RacedCursorsAreBounded, RacedPlansAreBounded, UnitedCursorsAreBounded, UnitedPlansAreBounded};
ghost use Rattle.rv_bounded.specs.Plans.{FastPlansAreBounded, PlansAreBounded};
ghost use Rattle.rv_bounded.specs.RaceReads.{RacesAreBounded};
ghost use Rattle.rv_bounded.specs.Races.{RacesReadFewLeaves};
ghost use Rattle.rv_bounded.specs.UnionReads.{UnionsAreBounded};
ghost use Rattle.rv_bounded.specs.Unions.{UnionsReadFewLeaves};

/// A law: under judges that are bounded a retrieval whose foreground scans no index, so a background alone and
/// fast-first, never reads more leaves than the table has pages and two for each planned scan.
pub fn leaves_are_few()
    ensures { LeavesAreFew }
{}

/// A law: so does a race.
pub fn races_read_few_leaves()
    ensures { RacesReadFewLeaves }
{}

/// A law: so does a union.
pub fn unions_read_few_leaves()
    ensures { UnionsReadFewLeaves }
{}

/// A law: under judges that are bounded a background-only retrieval, with the fetches or the scan of the table that end
/// it, never reads more than twice the table's pages, two leaves for each planned scan and 48 records.
pub fn reads_are_bounded()
    ensures { ReadsAreBounded }
{}

/// A law: a fast-first retrieval, with all that it borrows from its scans meanwhile, never reads more than 9/4 of the
/// table's pages and 50 for each planned scan, where the table has 64 pages or more.
pub fn fast_reads_are_bounded()
    ensures { FastReadsAreBounded }
{}

/// A law: a background-only search for the rows that UPDATE and DELETE change keeps to the bound of a background-only
/// retrieval.
pub fn searches_are_bounded()
    ensures { SearchesAreBounded }
{}

/// A law: under judges that are bounded a race, with what ends it, keeps to the bound of a background-only retrieval.
pub fn races_are_bounded()
    ensures { RacesAreBounded }
{}

/// A law: a union never reads more than twice the table's pages and for each member two leaves and 48 records.
pub fn unions_are_bounded()
    ensures { UnionsAreBounded }
{}

/// A law: a cursor's plan over one FROM item whose retrieval is background-only keeps to that retrieval's bound beside
/// what its opening read, whatever steps are made and pieces taken and given.
pub fn plans_are_bounded()
    ensures { PlansAreBounded }
{}

/// A law: and one whose retrieval is fast-first to that one's.
pub fn fast_plans_are_bounded()
    ensures { FastPlansAreBounded }
{}

/// A law: so does a cursor, whatever calls of a core move it, and OPEN adds such a cursor.
pub fn cursors_are_bounded()
    ensures opens { OpensBegin }
    ensures moved { CursorsAreBounded }
{}

/// A law: and one whose retrieval is fast-first.
pub fn fast_cursors_are_bounded()
    ensures { FastCursorsAreBounded }
{}

/// A law: so does a plan whose indexes race, and a cursor with such a plan.
pub fn raced_plans_are_bounded()
    ensures plans { RacedPlansAreBounded }
    ensures cursors { RacedCursorsAreBounded }
{}

/// A law: and a plan whose members are put together, and a cursor with such a plan.
pub fn united_plans_are_bounded()
    ensures plans { UnitedPlansAreBounded }
    ensures cursors { UnitedCursorsAreBounded }
{}

/// A law: so does the search of an UPDATE or DELETE of a core, with a fetch of each row that it found.
pub fn changes_are_bounded()
    ensures { ChangesAreBounded }
{}

/// A law: what the calls of a core say of a cursor is the calls that the laws on cursors ask, gives too; each step and
/// each take loses a read at most.
pub fn calls_are_spent()
    ensures moves { CallIsSpent }
    ensures still { StillIsSpent }
    ensures takes { TakeIsSpent }
    ensures gives { GiveIsGiven }
    ensures few { MovesLoseFew }
{}
