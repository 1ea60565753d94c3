ghost use Rattle.std.specs.Prelude.{◌≡◌, ◌+◌, ◌≤◌, ◌&&◌, true, false, nat_le, IfOk, OnErr, Ok};
ghost use Rattle.std.specs.List.{AllByRecursion};
ghost use Rattle.rv_judge.specs.Counting.{reads};
ghost use Rattle.rv_judge.specs.Runs.{Allowed};
ghost use Rattle.rv_judge.specs.Tracing.{CountsRise, SameCounts};
ghost use Rattle.rv_reader.specs.Shown.{Shown};
ghost use Rattle.rv_choice.specs.Asked.{CanAsk};
ghost use Rattle.rv_choice.specs.Choice.{IsChosen, IsRight, candidates_of};
ghost use Rattle.rv_choice.specs.Members.{AreUnited};
ghost use Rattle.rv_final.specs.Work.{Tries};
ghost use Rattle.rv_final.specs.LaneWork.{GiveSpends, Spends};
ghost use Rattle.rv_retrieval.specs.Effort.{life_of as retrieval_life};
ghost use Rattle.rv_retrieval.specs.Runs.{indexes_asked};
ghost use Rattle.rv_retrieval.specs.Short.{OnlyLeaves, has_short};
ghost use Rattle.rv_access.specs.Ahead.{AllAhead, LeavesNear, is_union, leaves_ahead};
ghost use Rattle.rv_access.specs.Accesses.{AccessFits, Awaiting, Keeps, SamePlans, Settled, Tells, control_of, effort, fetches_left, held_of, number_of, query_of, rest, trace_of};
ghost use Rattle.rv_access.specs.Given.{Answers, CountsPiece, GivesOn, IsOfUndropped, SamePieces, TakesLeaf, TakesPiece, awaited, piece_read};
ghost use Rattle.rv_access.specs.Opened.{Begins, Competes, IsShort, Opened, OpenedBy, Races, Unites, is_background_only, is_each, is_race, is_table, races, restricted, unites};
ghost use Rattle.rv_access.specs.Stepping.{GivesStep, MayReadIts, OnlyTakes, SameCourse, SettledTake, StepsAs};

use crate::over::Over;
use crate::racing::RacedQuery;
use crate::uniting::UnitedQuery;
use rv_choice::{Background, Candidate, Choice, Query, candidates, choose, members};
use rv_jscan::{Given, PieceId, ScanPlan, Sieved, Taken};
use rv_judge::{Control, Judge, Steps, Strategy, Trace};
use rv_reader::{Reader, Step};
use rv_retrieval::Retrieval;
use rv_value::{NoMemory, Record};
use std::alloc::Global;

/// An open access to one table at a snapshot. What it holds is behind a box, so that an access is cheap to move.
#[derive(Drop)]
pub enum Access {
    /// A foreground and a background that compete.
    Competing(Box<Retrieval>),
    /// Two indexes that race.
    Racing(Box<RacedQuery>),
    /// Members whose keys are put together.
    Uniting(Box<UnitedQuery>),
}

fn is_background_only(strategy: Strategy) -> bool
    ensures { result ≡ is_background_only strategy }
{
    match strategy {
        Strategy::BackgroundOnly => true,
        Strategy::Table
        | Strategy::FastFirst
        | Strategy::Sorted
        | Strategy::IndexOnly
        | Strategy::Union => false,
    }
}

fn is_table(strategy: Strategy) -> bool
    ensures { result ≡ is_table strategy }
{
    match strategy {
        Strategy::Table => true,
        Strategy::FastFirst
        | Strategy::BackgroundOnly
        | Strategy::Sorted
        | Strategy::IndexOnly
        | Strategy::Union => false,
    }
}

fn is_each(background: Background) -> bool
    ensures { result ≡ is_each background }
{
    match background {
        Background::Each => true,
        Background::Nothing | Background::One(_) | Background::EachBut(_) => false,
    }
}

/// Whether an index is restricted.
#[tactic(auto, using(crate::proofs::Chosen::one_more))]
fn has_one(candidates: &[Candidate]) -> bool
    ensures { result ≡ nat_le 1 (restricted candidates.now) }
{
    match candidates {
        [] => false,
        [first, more @ ..] => first.restricted || has_one(more),
    }
}

/// Whether two indexes or more are restricted.
#[tactic(auto, using(crate::proofs::Chosen::two_or_more))]
fn has_two(candidates: &[Candidate]) -> bool
    ensures { result ≡ nat_le 2 (restricted candidates.now) }
{
    match candidates {
        [] => false,
        [first, more @ ..] => {
            if first.restricted {
                has_one(more)
            } else {
                has_two(more)
            }
        }
    }
}

/// Whether the scans that were chosen can race: a background alone runs, and two indexes or more are restricted.
pub fn races(choice: Choice, candidates: &[Candidate]) -> bool
    ensures { result ≡ races choice candidates.now }
{
    is_background_only(choice.strategy) && is_each(choice.background) && has_two(candidates)
}

/// Whether a race is asked and the scans that were chosen can race.
fn will_race(race: bool, choice: Choice, candidates: &[Candidate]) -> bool
    ensures { result ≡ (race && races choice candidates.now) }
{
    race && races(choice, candidates)
}

impl Access {
    /// Opens a retrieval with what was chosen, in the place of one that is over, where one is given.
    fn open_competing<R: Reader>(
        alloc: Global,
        reader: &R,
        over: Option<Box<Retrieval>>,
        query: Query,
        candidates: &[Candidate],
        choice: Choice,
        cursor: u64,
        opening: u64,
        steps: &mut Steps<R::Ledger>,
    ) -> Result<Access, NoMemory>
        requires can { CanAsk query (R.shown reader.now) }
        requires candidates { candidates.now ≡ candidates_of query (R.shown reader.now) }
        requires choice { IsChosen query.order query.goal candidates.now choice }
        requires right { AllByRecursion (IsRight (R.shown reader.now) query.snap) candidates.now }
        ensures competes { IfOk result (Competes query (R.shown reader.now) cursor opening) }
        ensures begins { IfOk result (Begins query (R.shown reader.now) steps.old steps.new) }
        ensures reads { reads steps.new ≤ reads steps.old + retrieval_life query (R.shown reader.now) }
        ensures ahead { IfOk result (AllAhead (R.shown reader.now)) }
        ensures short { has_short query (R.shown reader.now) ≡ true → IfOk result (IsShort (R.shown reader.now)) }
        ensures only { OnlyLeaves steps.old steps.new }
        ensures unread { has_short query (R.shown reader.now) ≡ false → steps.new ≡ steps.old }
    {
        let retrieval = Retrieval::open_chosen(
            alloc, reader, over, query, candidates, choice, cursor, opening, steps,
        )?;
        Ok(Access::Competing(retrieval))
    }

    /// Opens a race of what was chosen. It reads nothing.
    fn open_raced<R: Reader>(
        alloc: Global,
        reader: &R,
        query: Query,
        candidates: &[Candidate],
        choice: Choice,
        cursor: u64,
        opening: u64,
        steps: &mut Steps<R::Ledger>,
    ) -> Result<Access, NoMemory>
        requires can { CanAsk query (R.shown reader.now) }
        requires candidates { candidates.now ≡ candidates_of query (R.shown reader.now) }
        requires choice { IsChosen query.order query.goal candidates.now choice }
        requires races { races choice candidates.now ≡ true }
        ensures races { IfOk result (Races query (R.shown reader.now) cursor opening choice) }
        ensures begins { IfOk result (Begins query (R.shown reader.now) steps.old steps.new) }
        ensures ahead { IfOk result (AllAhead (R.shown reader.now)) }
        ensures short { has_short query (R.shown reader.now) ≡ false }
        ensures unread { steps.new ≡ steps.old }
    {
        let raced = RacedQuery::open(
            alloc, reader, query, candidates, choice, cursor, opening, steps,
        )?;
        let boxed = Box::new(alloc, raced)?;
        Ok(Access::Racing(boxed))
    }

    /// Opens a union of members where the table would be read. It reads nothing.
    fn open_united<R: Reader>(
        alloc: Global,
        reader: &R,
        query: Query,
        candidates: &[Candidate],
        choice: Choice,
        members: Vec<ScanPlan>,
        cursor: u64,
        opening: u64,
        steps: &mut Steps<R::Ledger>,
    ) -> Result<Access, NoMemory>
        requires can { CanAsk query (R.shown reader.now) }
        requires candidates { candidates.now ≡ candidates_of query (R.shown reader.now) }
        requires choice { IsChosen query.order query.goal candidates.now choice }
        requires table { is_table choice.strategy ≡ true }
        requires members { AreUnited query (R.shown reader.now) members.items }
        ensures unites { IfOk result (Unites query (R.shown reader.now) cursor opening) }
        ensures begins { IfOk result (Begins query (R.shown reader.now) steps.old steps.new) }
        ensures ahead { IfOk result (AllAhead (R.shown reader.now)) }
        ensures short { has_short query (R.shown reader.now) ≡ false }
        ensures unread { steps.new ≡ steps.old }
    {
        let united = UnitedQuery::open(alloc, reader, query, members, cursor, opening, steps)?;
        let boxed = Box::new(alloc, united)?;
        Ok(Access::Uniting(boxed))
    }

    /// Opens what was chosen where indexes do not race: a union where the table would be read and a group of the restriction
    /// has members, else a retrieval, in the place of one that is over, where one is given.
    fn open_chosen<R: Reader>(
        alloc: Global,
        reader: &R,
        over: Option<Box<Retrieval>>,
        query: Query,
        candidates: &[Candidate],
        choice: Choice,
        cursor: u64,
        opening: u64,
        steps: &mut Steps<R::Ledger>,
    ) -> Result<Access, NoMemory>
        requires can { CanAsk query (R.shown reader.now) }
        requires candidates { candidates.now ≡ candidates_of query (R.shown reader.now) }
        requires choice { IsChosen query.order query.goal candidates.now choice }
        requires right { AllByRecursion (IsRight (R.shown reader.now) query.snap) candidates.now }
        ensures opened { IfOk result (OpenedBy false (unites query (R.shown reader.now) choice) query (R.shown reader.now) cursor opening choice) }
        ensures begins { IfOk result (Begins query (R.shown reader.now) steps.old steps.new) }
        ensures reads { reads steps.new ≤ reads steps.old + retrieval_life query (R.shown reader.now) }
        ensures ahead { IfOk result (AllAhead (R.shown reader.now)) }
        ensures short { has_short query (R.shown reader.now) ≡ true → IfOk result (IsShort (R.shown reader.now)) }
        ensures only { OnlyLeaves steps.old steps.new }
        ensures unread { has_short query (R.shown reader.now) ≡ false → steps.new ≡ steps.old }
    {
        if !is_table(choice.strategy) {
            return Access::open_competing(
                alloc, reader, over, query, candidates, choice, cursor, opening, steps,
            );
        }
        let members = match members(alloc, reader, &query) {
            Ok(members) => members,
            Err(fault) => {
                drop(over);
                drop(query);
                return Err(fault);
            }
        };
        match members {
            Some(members) => {
                drop(over);
                Access::open_united(
                    alloc, reader, query, candidates, choice, members, cursor, opening, steps,
                )
            }
            None => Access::open_competing(
                alloc, reader, over, query, candidates, choice, cursor, opening, steps,
            ),
        }
    }

    /// Opens an access to the table of a query.
    ///
    /// Where a race is asked and two or more indexes can race they do. Where the table would be read and a group of the
    /// restriction has two branches or more, of which each bounds an index, their keys are put together. Else it is a
    /// retrieval: where a restricted index has an exact estimate of at most 20 its leaves are read at once. `cursor` and
    /// `opening` go into the ids of its pieces. The memory of an access that is over is used anew.
    pub fn open<R: Reader>(
        alloc: Global,
        reader: &R,
        over: &mut Over,
        query: Query,
        race: bool,
        cursor: u64,
        opening: u64,
        steps: &mut Steps<R::Ledger>,
    ) -> Result<Access, NoMemory>
        requires { CanAsk query (R.shown reader.now) }
        ensures opened { IfOk result (Opened race query (R.shown reader.now) cursor opening) }
        ensures begins { IfOk result (Begins query (R.shown reader.now) steps.old steps.new) }
        ensures reads { reads steps.new ≤ reads steps.old + retrieval_life query (R.shown reader.now) }
        ensures ahead { IfOk result (AllAhead (R.shown reader.now)) }
        ensures short { has_short query (R.shown reader.now) ≡ true → IfOk result (IsShort (R.shown reader.now)) }
        ensures only { OnlyLeaves steps.old steps.new }
        ensures unread { has_short query (R.shown reader.now) ≡ false → steps.new ≡ steps.old }
    {
        let candidates = match candidates(alloc, reader, &query, over.take_candidates()) {
            Ok(candidates) => candidates,
            Err(fault) => {
                drop(query);
                return Err(fault);
            }
        };
        let choice = choose(candidates.as_slice(), query.order.as_slice(), query.goal);
        let raced = will_race(race, choice, candidates.as_slice());
        if raced {
            let opened = Access::open_raced(
                alloc,
                reader,
                query,
                candidates.as_slice(),
                choice,
                cursor,
                opening,
                steps,
            );
            over.keep_candidates(candidates);
            opened
        } else {
            let opened = Access::open_chosen(
                alloc,
                reader,
                over.take_retrieval(),
                query,
                candidates.as_slice(),
                choice,
                cursor,
                opening,
                steps,
            );
            over.keep_candidates(candidates);
            opened
        }
    }
}

impl Access {
    /// Which sides run.
    pub fn control(&self) -> Control
        ensures { result ≡ control_of self.now }
    {
        match self {
            Access::Competing(retrieval) => retrieval.control(),
            Access::Racing(raced) => raced.race.control(),
            Access::Uniting(united) => united.union.control(),
        }
    }

    /// What it did so far.
    pub fn trace(&self) -> &Trace
        ensures now { result.now ≡ trace_of self.now }
        ensures allowed { Tells self.now → Allowed result.now (indexes_asked (query_of self.now)) }
    {
        match self {
            Access::Competing(retrieval) => retrieval.trace(),
            Access::Racing(raced) => raced.race.trace(),
            Access::Uniting(united) => united.union.trace(),
        }
    }

    /// The id of the awaited piece; None exactly where no background scan is under way.
    pub fn awaited(&self) -> Option<PieceId>
        ensures { result ≡ awaited self.now }
    {
        match self {
            Access::Competing(retrieval) => retrieval.awaited(),
            Access::Racing(raced) => raced.race.awaited(),
            Access::Uniting(united) => united.union.awaited(),
        }
    }

    /// Whether two indexes race.
    pub fn is_race(&self) -> bool
        ensures { result ≡ is_race self.now }
    {
        match self {
            Access::Competing(_) => false,
            Access::Racing(_) => true,
            Access::Uniting(_) => false,
        }
    }

    /// Gives a row of the rest, works on, or ends.
    ///
    /// `Row` takes one record out of the rest, which agrees with the answer in the columns needed, and of which none is
    /// less in the order columns. `End` comes only where the rest is empty, and then again at each further step. `Working`
    /// leaves the rest; so does `NoMemory`.
    pub fn fg_step<R: Reader>(
        &mut self,
        reader: &R,
        judge: &mut Box<dyn Judge>,
        steps: &mut Steps<R::Ledger>,
    ) -> Result<Step<Record>, NoMemory>
        requires fits { AccessFits self.old (R.shown reader.now) }
        ensures counts { CountsRise (trace_of self.old) (trace_of self.new) steps.old steps.new }
        ensures query { query_of self.new ≡ query_of self.old }
        ensures fits { AccessFits self.new (R.shown reader.now) }
        ensures step { IfOk result (GivesStep self.old self.new (R.shown reader.now)) }
        ensures ends { result ≡ Ok Step.End → control_of self.new ≡ Control.Done }
        ensures again { control_of self.old ≡ Control.Done → result ≡ Ok Step.End }
        ensures err { OnErr result (rest self.new (R.shown reader.now) ≡ rest self.old (R.shown reader.now)) }
        ensures does { Tells self.old → IfOk result (λ fg. StepsAs (would judge.old) (state judge.old) (state judge.new) (R.shown reader.now) steps.old steps.new fg self.old self.new) }
        ensures quiet { OnErr result (state judge.new ≡ state judge.old) }
        ensures may_read { Tells self.old → MayReadIts self.old steps.old steps.new }
        ensures still { OnErr result (OnlyTakes self.old self.new) }
        ensures fewer { OnErr result (fetches_left self.new (R.shown reader.now) ≤ fetches_left self.old (R.shown reader.now)) }
        ensures stays { would judge.new ≡ would judge.old }
        ensures course { OnErr result (SameCourse self.old self.new) }
        ensures tells { Tells self.old → Tells self.new }
        ensures tries { Tries steps.old steps.new (effort self.old (R.shown reader.now)) (effort self.new (R.shown reader.now)) }
        ensures spends { Awaiting self.old → IfOk result (λ fg. Spends fg steps.old steps.new (effort self.old (R.shown reader.now)) (effort self.new (R.shown reader.now))) }
        ensures kind { is_union self.new ≡ is_union self.old }
        ensures nearer { IfOk result (λ fg. LeavesNear (R.shown reader.now) steps.old steps.new self.old self.new) }
        ensures awaiting { Awaiting self.old → Awaiting self.new }
        ensures settled { Settled self.old → Settled self.new }
        ensures unasked { Settled self.old → state judge.new ≡ state judge.old }
        ensures pages { Settled self.old → steps.new.pages ≡ steps.old.pages }
        ensures records { Settled self.old → IfOk result (λ s. steps.new.records + fetches_left self.new (R.shown reader.now) ≤ steps.old.records + fetches_left self.old (R.shown reader.now)) }
    {
        match self {
            Access::Competing(retrieval) => retrieval.fg_step(reader, judge, steps),
            Access::Racing(raced) => raced.race.step(reader, judge, steps),
            Access::Uniting(united) => united.union.step(reader, judge, steps),
        }
    }

    /// Takes a copy of the awaited piece; Nothing exactly where none is awaited. `NoMemory` takes nothing.
    pub fn take<R: Reader>(
        &mut self,
        reader: &R,
        steps: &mut Steps<R::Ledger>,
    ) -> Result<Taken, NoMemory>
        requires fits { AccessFits self.old (R.shown reader.now) }
        ensures counts { CountsRise (trace_of self.old) (trace_of self.new) steps.old steps.new }
        ensures taken { IfOk result (TakesPiece self.new) }
        ensures query { query_of self.new ≡ query_of self.old }
        ensures leaves { TakesLeaf self.old self.new }
        ensures plans { SamePlans self.old self.new }
        ensures pieces { SamePieces self.old self.new }
        ensures untaken { OnErr result (held_of self.new ≡ held_of self.old) }
        ensures fits { AccessFits self.new (R.shown reader.now) }
        ensures rest { rest self.new (R.shown reader.now) ≡ rest self.old (R.shown reader.now) }
        ensures reads { steps.new ≡ piece_read self.old steps.old }
        ensures tells { Tells self.old → Tells self.new }
        ensures undropped { Tells self.old → IfOk result (IsOfUndropped self.new) }
        ensures tries { Tries steps.old steps.new (effort self.old (R.shown reader.now)) (effort self.new (R.shown reader.now)) }
        ensures spends { IfOk result (λ taken. reads steps.new + effort self.new (R.shown reader.now) ≤ reads steps.old + effort self.old (R.shown reader.now)) }
        ensures kind { is_union self.new ≡ is_union self.old }
        ensures nearer { IfOk result (λ taken. LeavesNear (R.shown reader.now) steps.old steps.new self.old self.new) }
        ensures awaiting { Awaiting self.old → Awaiting self.new }
        ensures settled { Settled self.old → SettledTake (R.shown reader.now) steps.old steps.new self.old self.new }
    {
        match self {
            Access::Competing(retrieval) => retrieval.take(reader, steps),
            Access::Racing(raced) => raced.race.take(reader, steps),
            Access::Uniting(united) => united.union.take(reader, steps),
        }
    }

    /// Takes a sieved piece back. Where it is the awaited one its rows are added, and the judge is asked and obeyed. It
    /// reads nothing.
    pub fn give<L: Drop>(
        &mut self,
        sieved: Sieved,
        judge: &mut Box<dyn Judge>,
        steps: &mut Steps<L>,
    ) -> Result<Given, NoMemory>
        requires asked { self.old ≡ self.old }
        ensures given { IfOk result (λ g. Answers self.old sieved g self.new) }
        ensures obeys { IfOk result (λ g. GivesOn (would judge.old) (state judge.old) (state judge.new) sieved g self.old self.new) }
        ensures number { IfOk result (λ g. CountsPiece g (number_of self.old) (number_of self.new)) }
        ensures plans { SamePlans self.old self.new }
        ensures err { OnErr result (self.new ≡ self.old) }
        ensures quiet { OnErr result (state judge.new ≡ state judge.old) }
        ensures stays { would judge.new ≡ would judge.old }
        ensures counts { SameCounts (trace_of self.old) (trace_of self.new) }
        ensures keeps { Keeps self.old self.new }
        ensures tells { Tells self.old → Tells self.new }
        ensures less { (shown : Shown) → AccessFits self.old shown → effort self.new shown ≤ effort self.old shown }
        ensures spends { (shown : Shown) → AccessFits self.old shown → IfOk result (λ g. GiveSpends g (effort self.old shown) (effort self.new shown)) }
        ensures kind { is_union self.new ≡ is_union self.old }
        ensures nearer { (shown : Shown) → leaves_ahead self.new shown ≤ leaves_ahead self.old shown }
        ensures awaiting { Awaiting self.old → Awaiting self.new }
        ensures settled { Settled self.old → (self.new ≡ self.old) × (state judge.new ≡ state judge.old) }
        ensures reads { steps.new ≡ steps.old }
    {
        match self {
            Access::Competing(retrieval) => retrieval.give(sieved, judge, steps),
            Access::Racing(raced) => raced.race.give(sieved, judge, steps),
            Access::Uniting(united) => united.union.give(sieved, judge, steps),
        }
    }
}
