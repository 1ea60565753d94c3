//! The open levels of nested loops.
ghost use Rattle.std.specs.Prelude.{◌≡◌, ℕ, ◌+◌, ◌<◌, ◌≤◌, List, [], ◌∷◌, ◌++◌, length, true, false, None, Some, IsSome, Ok, Option, IfOk, IfSome, OnOk, OnErr, position};
ghost use Rattle.std.specs.List.{list_any, slice_index_or};
ghost use Rattle.rv_value.specs.declared.value.Value.{Value as OneValue};
ghost use Rattle.rv_reader.specs.Shown.{Shown};
ghost use Rattle.rv_join.specs.declared.places.Asked.{Asked as TheAsked};
ghost use Rattle.rv_join.specs.Alone.{Fetches, GoesOn, MovedSpends, Spends, StackAsks, StepsOnce, TakesOnce, level_effort};
ghost use Rattle.rv_join.specs.Asking.{Asks, CanRun};
ghost use Rattle.rv_join.specs.Levels.{AllFit, LevelFits, StackFits, Stacked, bag, down, first_in, first_of, is_last, offered, still, used};
ghost use Rattle.rv_join.specs.Moves.{Descends, Kept, LevelStays, LevelsStay, Moves, OpensInner, Rises, SameFirst, StackStays, Starts};
ghost use Rattle.rv_join.specs.Pieces.{LevelsAwait, StackAwaits, is_waiting, level_at, pieces_in, stack_builds, waits};
ghost use Rattle.rv_join.specs.Work.{levels_work, loops_work};
ghost use Rattle.rv_join.specs.declared.level.Level.{Level as TheLevel};
ghost use Rattle.rv_jscan.specs.declared.piece.PieceId.{PieceId as Id};
ghost use Rattle.rv_judge.specs.Counting.{raised, reads};
ghost use Rattle.rv_judge.specs.declared.counting.Counts.{Counts as TheCounts};
ghost use Rattle.rv_retrieval.specs.Effort.{GiveSpends};
ghost use Rattle.rv_retrieval.specs.Short.{OnlyLeaves, has_short};
ghost use Rattle.rv_retrieval.specs.Shape.{is_building};
ghost use Rattle.rv_access.specs.Accesses.{AccessFits, SamePlans, Settled, control_of, effort, fetches_left, held_of, query_of, trace_of};
ghost use Rattle.rv_access.specs.Given.{Answers, CountsPiece, GivesOn, SamePieces, TakesPiece, piece_read};
ghost use Rattle.rv_access.specs.Stepping.{SameCourse};
ghost use Rattle.rv_access.specs.Opened.{Opened, is_race, life_of};
ghost use Rattle.rv_judge.specs.Tracing.{CountsAll, CountsRise, SameCounts};

use crate::level::{Level, Room};
use crate::places::{Asked, open_item};
use rv_access::Over;
use rv_jscan::{Given, Sieved, Taken};
use rv_judge::{Judge, Steps, Trace};
use rv_model::Offer;
use rv_reader::{Reader, Step};
use rv_value::{Items, NoMemory};
use std::alloc::Global;
use std::marker::Model;
use std::mem;

/// The open levels, those above the innermost one first, and the count of retrievals opened. The memory of the level that
/// ended last is kept, so that the next inner one is opened in it; contracts do not see it.
#[derive(Drop)]
pub struct Stack {
    above: Vec<Level>,
    at: Level,
    openings: u64,
    room: Room,
}

impl Model for Stack {
    ghost use Rattle.rv_join.specs.Levels.{Stacked};

    ghost Value = { Stacked };

    ghost view = { λ s. record { above = s.above.items; at = s.at; openings = s.openings } };
}

/// The place of the first of some levels that awaits a piece.
fn first_waiting(levels: &[Level]) -> Option<usize>
    ensures { result ≡ position is_waiting levels.now }
{
    levels.iter().position(|level| level.is_waiting())
}

fn any_building(levels: &[Level]) -> bool
    ensures { result ≡ list_any (λ (l : TheLevel). is_building (control_of l.here)) levels.now }
{
    levels.iter().any(|level| level.is_building())
}

/// Nested loops before their first step: the retrieval of the first FROM item is opened, which reads leaves at most;
/// those of the others are opened over its rows.
#[tactic(auto, using(crate::proofs::Beginning::starts))]
pub fn open<R: Reader>(
    alloc: Global,
    reader: &R,
    asked: &Asked,
    steps: &mut Steps<R::Ledger>,
) -> Result<Stack, NoMemory>
    requires { CanRun asked.now (R.shown reader.now) }
    ensures starts { IfOk result (Starts asked.now (R.shown reader.now)) }
    ensures asks { IfOk result (λ s. Asks asked.now [] (query_of s.at.here)) }
    ensures opened { IfOk result (λ s. Opened asked.now.race (query_of s.at.here) (R.shown reader.now) asked.now.cursor 1 s.at.here) }
    ensures counts { IfOk result (λ s. CountsAll (trace_of s.at.here) steps.old steps.new) }
    ensures life { IfOk result (λ s. reads steps.new + effort s.at.here (R.shown reader.now) ≤ reads steps.old + life_of s.at.here (query_of s.at.here) (R.shown reader.now)) }
    ensures short { IfOk result (λ s. has_short (query_of s.at.here) (R.shown reader.now) ≡ true → Settled s.at.here × (fetches_left s.at.here (R.shown reader.now) ≤ 20)) }
    ensures only { OnlyLeaves steps.old steps.new }
    ensures row { IfOk result (λ s. s.at.row ≡ None) }
{
    let here = open_item(alloc, reader, asked, &mut Over::new(alloc), &[], 1, steps)?;
    Ok(Stack {
        above: Vec::new(alloc),
        at: Level {
            outer: Items::new(alloc),
            row: None,
            here,
        },
        openings: 1,
        room: Room::new(alloc),
    })
}

/// The open levels: changes of fields, and looks.
impl Stack {
    /// Leaves the innermost level, where there is one above.
    fn climb(&mut self) -> bool
        ensures up { result ≡ true → self.old.above ≡ self.new.above ++ self.new.at ∷ [] }
        ensures top { result ≡ false → (self.old.above ≡ []) × (self.new ≡ self.old) }
        ensures openings { self.new.openings ≡ self.old.openings }
    {
        match self.above.pop() {
            Some(level) => {
                let ended = mem::replace(&mut self.at, level);
                self.room.keep(ended);
                true
            }
            None => false,
        }
    }

    /// Goes on in an inner level, over the row that is held.
    fn descend(&mut self, inner: Level) -> Result<(), NoMemory>
        ensures ok { OnOk result (self.new ≡ down self.old inner) }
        ensures err { OnErr result (self.new ≡ self.old) }
    {
        if self.above.reserve(1).is_err() {
            drop(inner);
            return Err(NoMemory);
        }
        let mut outer = mem::replace(&mut self.at, inner);
        drop(outer.row.take());
        self.above.push(outer).unwrap();
        self.openings = self.openings.saturating_add(1);
        Ok(())
    }

    fn drop_row(&mut self)
        ensures { self.new ≡ used self.old }
    {
        drop(self.at.row.take());
    }

    fn is_last(&self, asked: &Asked) -> bool
        requires { length self.now.at.outer < length asked.now.items }
        ensures { result ≡ is_last asked.now self.now }
    {
        let items = asked.items.len();
        self.at.outer.len() + 1 == items
    }

    /// The level over the row that is held.
    fn inner<R: Reader>(
        &self,
        alloc: Global,
        reader: &R,
        asked: &Asked,
        room: &mut Room,
        steps: &mut Steps<R::Ledger>,
    ) -> Result<Level, NoMemory>
        requires can { CanRun asked.now (R.shown reader.now) }
        requires fits { LevelFits asked.now (R.shown reader.now) self.now.at }
        requires some { IsSome self.now.at.row }
        requires inside { length self.now.at.outer + 1 < length asked.now.items }
        ensures descends { IfOk result (Descends asked.now (R.shown reader.now) self.now.at) }
        ensures opens { IfOk result (OpensInner asked.now (R.shown reader.now) (raised self.now.openings 1) steps.old steps.new self.now.at) }
        ensures only { OnlyLeaves steps.old steps.new }
    {
        match &self.at.row {
            Some(row) => {
                let opening = self.openings.saturating_add(1);
                self.at
                    .inner(alloc, reader, asked, room, row, opening, steps)
            }
            None => unreachable!(),
        }
    }

    /// What the row that is held offers.
    fn offer(&self, alloc: Global, asked: &Asked) -> Result<Offer, NoMemory>
        requires some { IsSome self.now.at.row }
        ensures is { (row : List OneValue) → self.now.at.row ≡ Some row → IfOk result (λ offer. offer ≡ offered asked.now (self.now.at.outer ++ row ∷ [])) }
    {
        match &self.at.row {
            Some(row) => self.at.offer(alloc, asked, row),
            None => unreachable!(),
        }
    }

    /// The place of the first level that awaits a piece, that of the innermost one where none does.
    #[tactic(auto, using(crate::proofs::Calls::waits_within))]
    pub fn waits(&self) -> usize
        ensures at { result ≡ waits self.now }
        ensures open { result ≤ length self.now.above }
    {
        match first_waiting(self.above.as_slice()) {
            Some(at) => at,
            None => self.above.len(),
        }
    }

    /// The open level of a place, from 0 on in FROM order: the innermost one for a place behind the others.
    pub fn level(&self, at: usize) -> &Level
        ensures { result.now ≡ level_at self.now at }
    {
        match self.above.get(at) {
            Some(level) => level,
            None => &self.at,
        }
    }

    /// Whether both sides of some retrieval run.
    pub fn is_building(&self) -> bool
        ensures { result ≡ stack_builds self.now }
    {
        any_building(self.above.as_slice()) || self.at.is_building()
    }

    /// The trace of the first FROM item's retrieval.
    pub fn first_trace(&self) -> &Trace
        ensures { result.now ≡ trace_of (first_of self.now).here }
    {
        match self.above.first() {
            Some(level) => level.here.trace(),
            None => self.at.here.trace(),
        }
    }
}

/// The access of the first FROM item.
impl Stack {
    /// Whether indexes race for the first FROM item.
    pub fn first_raced(&self) -> bool
        ensures { result ≡ is_race (first_of self.now).here }
    {
        match self.above.first() {
            Some(level) => level.here.is_race(),
            None => self.at.here.is_race(),
        }
    }
}

/// A step of nested loops.
impl Stack {
    /// Opens the inner level over the row that is held.
    #[tactic(auto, using(crate::proofs::Stacking::opens, crate::proofs::OneItem::down_first))]
    fn open_inner<R: Reader>(
        &mut self,
        alloc: Global,
        reader: &R,
        asked: &Asked,
        steps: &mut Steps<R::Ledger>,
    ) -> Result<Step<Offer>, NoMemory>
        requires can { CanRun asked.now (R.shown reader.now) }
        requires fits { StackFits asked.now (R.shown reader.now) self.old }
        requires some { IsSome self.old.at.row }
        requires inside { length self.old.at.outer + 1 < length asked.now.items }
        ensures moves { IfOk result (λ m. Moves asked.now (R.shown reader.now) m self.old self.new) }
        ensures first { (first_of self.new).here ≡ (first_of self.old).here }
        ensures goes { GoesOn asked.now (R.shown reader.now) steps.old steps.new self.old self.new }
        ensures err { OnErr result (self.new ≡ self.old) }
    {
        let mut room = mem::replace(&mut self.room, Room::new(alloc));
        let inner = self.inner(alloc, reader, asked, &mut room, steps)?;
        drop(mem::replace(&mut self.room, room));
        self.descend(inner)?;
        Ok(Step::Working)
    }

    /// Uses the row that is held: over the last FROM item it gives a combination, else the next item's retrieval is
    /// opened over it.
    fn use_row<R: Reader>(
        &mut self,
        alloc: Global,
        reader: &R,
        asked: &Asked,
        steps: &mut Steps<R::Ledger>,
    ) -> Result<Step<Offer>, NoMemory>
        requires can { CanRun asked.now (R.shown reader.now) }
        requires fits { StackFits asked.now (R.shown reader.now) self.old }
        requires some { IsSome self.old.at.row }
        ensures moves { IfOk result (λ m. Moves asked.now (R.shown reader.now) m self.old self.new) }
        ensures alone { length asked.now.items ≡ 1 → ((first_of self.new).here ≡ (first_of self.old).here) × (steps.new ≡ steps.old) }
        ensures used { length asked.now.items ≡ 1 → OnOk result (self.new ≡ used self.old) }
        ensures first { (first_of self.new).here ≡ (first_of self.old).here }
        ensures goes { GoesOn asked.now (R.shown reader.now) steps.old steps.new self.old self.new }
        ensures err { OnErr result (self.new ≡ self.old) }
    {
        if self.is_last(asked) {
            let offer = self.offer(alloc, asked)?;
            self.drop_row();
            Ok(Step::Row(offer))
        } else {
            self.open_inner(alloc, reader, asked, steps)
        }
    }

    /// The innermost level is at its end: goes on in the one above.
    #[tactic(auto, using(crate::proofs::Stacking::climbs, crate::proofs::Stacking::ends, crate::proofs::OneItem::climbed_first))]
    fn end(&mut self) -> Step<Offer>
        ensures moves { (a : TheAsked) (shown : Shown) → StackFits a shown self.old → still a shown self.old.at ≡ [] → Moves a shown result self.old self.new }
        ensures alone { self.old.above ≡ [] → self.new ≡ self.old }
        ensures first { first_of self.new ≡ first_of self.old }
        ensures done { self.old.above ≡ [] → result ≡ Step.End }
        ensures goes { (a : TheAsked) (shown : Shown) (c : TheCounts) → GoesOn a shown c c self.old self.new }
    {
        if self.climb() {
            Step::Working
        } else {
            Step::End
        }
    }

    /// One step: the innermost retrieval makes one, and the row that it gives is used. The end of an inner retrieval is
    /// a step by itself.
    #[tactic(auto, using(crate::proofs::Stacking::kept_at, crate::proofs::Stacking::kept_then_if, crate::proofs::Stacking::kept_then, crate::proofs::Catching::stays_moves))]
    pub fn advance<R: Reader>(
        &mut self,
        alloc: Global,
        asked: &Asked,
        reader: &R,
        judge: &mut Box<dyn Judge>,
        steps: &mut Steps<R::Ledger>,
    ) -> Result<Step<Offer>, NoMemory>
        requires can { CanRun asked.now (R.shown reader.now) }
        requires fits { StackFits asked.now (R.shown reader.now) self.old }
        ensures moves { IfOk result (λ m. Moves asked.now (R.shown reader.now) m self.old self.new) }
        ensures alone { length asked.now.items ≡ 1 → Rises (first_of self.old).here (first_of self.new).here steps.old steps.new }
        ensures stays { would judge.new ≡ would judge.old }
        ensures asks { StackAsks (would judge.old) (state judge.old) (state judge.new) asked.now (R.shown reader.now) steps.old steps.new self.old self.new }
        ensures once { length asked.now.items ≡ 1 → StepsOnce (would judge.old) (state judge.old) (state judge.new) (R.shown reader.now) steps.old steps.new self.old.at self.new.at }
        ensures spends { length asked.now.items ≡ 1 → IfOk result (λ m. MovedSpends m steps.old steps.new (level_effort (R.shown reader.now) self.old.at) (level_effort (R.shown reader.now) self.new.at)) }
        ensures fetches { length asked.now.items ≡ 1 → OnOk result (Fetches (R.shown reader.now) steps.old steps.new self.old.at.here self.new.at.here) }
        ensures plans { SamePlans (first_of self.old).here (first_of self.new).here }
        ensures err { OnErr result (Kept asked.now (R.shown reader.now) self.old self.new) }
    {
        match self.at.ready(asked, reader, judge, steps)? {
            Step::Working => Ok(Step::Working),
            Step::End => Ok(self.end()),
            Step::Row(()) => self.use_row(alloc, reader, asked, steps),
        }
    }
}

/// A level's retrieval has its awaited piece taken.
#[tactic(auto, using(crate::proofs::Opening::level_stays, crate::proofs::OneItem::taken_once, crate::proofs::OneItem::taken_spends))]
fn take_level<R: Reader>(
    reader: &R,
    level: &mut Level,
    steps: &mut Steps<R::Ledger>,
) -> Result<Taken, NoMemory>
    requires fits { AccessFits level.old.here (R.shown reader.now) }
    ensures taken { IfOk result (TakesPiece level.new.here) }
    ensures untaken { OnErr result (held_of level.new.here ≡ held_of level.old.here) }
    ensures reads { steps.new ≡ piece_read level.old.here steps.old }
    ensures counts { CountsRise (trace_of level.old.here) (trace_of level.new.here) steps.old steps.new }
    ensures stays { (a : TheAsked) → LevelFits a (R.shown reader.now) level.old → LevelStays a (R.shown reader.now) level.old level.new }
    ensures waits { SamePieces level.old.here level.new.here }
    ensures plans { SamePlans level.old.here level.new.here }
    ensures course { SameCourse level.old.here level.new.here }
    ensures once { TakesOnce (R.shown reader.now) steps.old steps.new level.old level.new }
    ensures spends { IfOk result (λ t. Spends steps.old steps.new (level_effort (R.shown reader.now) level.old) (level_effort (R.shown reader.now) level.new)) }
{
    level.here.take(reader, steps)
}

#[tactic(auto, using(crate::proofs::Calls::levels_at, crate::proofs::Numbers::levels_wait, crate::proofs::OneItem::list_plans))]
fn take_at<R: Reader>(
    reader: &R,
    levels: &mut Vec<Level>,
    at: usize,
    steps: &mut Steps<R::Ledger>,
) -> Result<Taken, NoMemory>
    requires at { at < length levels.old.items }
    requires fits { (d : TheLevel) → AccessFits (slice_index_or levels.old.items at d).here (R.shown reader.now) }
    ensures taken { (d : TheLevel) → IfOk result (TakesPiece (slice_index_or levels.new.items at d).here) }
    ensures untaken { (d : TheLevel) → OnErr result ((held_of (slice_index_or levels.new.items at d).here) ≡ (held_of (slice_index_or levels.old.items at d).here)) }
    ensures reads { (d : TheLevel) → steps.new ≡ piece_read (slice_index_or levels.old.items at d).here steps.old }
    ensures counts { (d : TheLevel) → CountsRise (trace_of (slice_index_or levels.old.items at d).here) (trace_of (slice_index_or levels.new.items at d).here) steps.old steps.new }
    ensures stay { (a : TheAsked) → AllFit a (R.shown reader.now) 0 levels.old.items → LevelsStay a (R.shown reader.now) 0 levels.old.items levels.new.items }
    ensures led { (a : TheAsked) → AllFit a (R.shown reader.now) 0 levels.old.items → SameFirst a (R.shown reader.now) levels.old.items levels.new.items }
    ensures waits { LevelsAwait levels.old.items levels.new.items }
    ensures plans { (d : TheLevel) → SamePlans (first_in levels.old.items d).here (first_in levels.new.items d).here }
    ensures course { (d : TheLevel) → SameCourse (first_in levels.old.items d).here (first_in levels.new.items d).here }
{
    take_level(reader, &mut levels[at], steps)
}

/// The retrieval of one of some levels is given a sieved piece.
#[tactic(auto, using(crate::proofs::Calls::levels_at, crate::proofs::Opening::level_keeps))]
fn give_at<L: Drop>(
    levels: &mut Vec<Level>,
    at: usize,
    sieved: Sieved,
    judge: &mut Box<dyn Judge>,
    steps: &mut Steps<L>,
) -> Result<Given, NoMemory>
    requires at { at < length levels.old.items }
    ensures given { (d : TheLevel) → IfOk result (λ g. Answers (slice_index_or levels.old.items at d).here sieved g (slice_index_or levels.new.items at d).here) }
    ensures obeys { (d : TheLevel) → IfOk result (λ g. GivesOn (would judge.old) (state judge.old) (state judge.new) sieved g (slice_index_or levels.old.items at d).here (slice_index_or levels.new.items at d).here) }
    ensures stays_rule { would judge.new ≡ would judge.old }
    ensures quiet { OnErr result (state judge.new ≡ state judge.old) }
    ensures lowers { (a : TheAsked) (shown : Shown) → AllFit a shown 0 levels.old.items → IfOk result (λ g. GiveSpends g (levels_work a shown levels.old.items) (levels_work a shown levels.new.items)) }
    ensures stale { (asked : Id) (now : Option Id) → result ≡ Ok (Given.Stale asked now) → levels.new.items ≡ levels.old.items }
    ensures counts { (d : TheLevel) → SameCounts (trace_of (slice_index_or levels.old.items at d).here) (trace_of (slice_index_or levels.new.items at d).here) }
    ensures stay { (a : TheAsked) (shown : Shown) → AllFit a shown 0 levels.old.items → LevelsStay a shown 0 levels.old.items levels.new.items }
    ensures led { (a : TheAsked) (shown : Shown) → AllFit a shown 0 levels.old.items → SameFirst a shown levels.old.items levels.new.items }
    ensures err { OnErr result (levels.new.items ≡ levels.old.items) }
    ensures reads { steps.new ≡ steps.old }
    ensures pieces { (d : TheLevel) → IfOk result (λ g. CountsPiece g (pieces_in levels.old.items d) (pieces_in levels.new.items d)) }
    ensures plans { (d : TheLevel) → SamePlans (first_in levels.old.items d).here (first_in levels.new.items d).here }
{
    levels[at].here.give(sieved, judge, steps)
}

/// The pieces of the retrieval of a place.
impl Stack {
    /// Takes the awaited piece of the retrieval of a place.
    #[tactic(auto, using(crate::proofs::Calls::stays_above, crate::proofs::Calls::stays_at, crate::proofs::Numbers::above_waits, crate::proofs::Numbers::at_waits, crate::proofs::OneItem::first_plans))]
    pub fn take<R: Reader>(
        &mut self,
        at: usize,
        reader: &R,
        steps: &mut Steps<R::Ledger>,
    ) -> Result<Taken, NoMemory>
        requires fits { AccessFits (level_at self.old at).here (R.shown reader.now) }
        ensures taken { IfOk result (TakesPiece (level_at self.new at).here) }
        ensures untaken { OnErr result ((held_of (level_at self.new at).here) ≡ (held_of (level_at self.old at).here)) }
        ensures reads { steps.new ≡ piece_read (level_at self.old at).here steps.old }
        ensures counts { CountsRise (trace_of (level_at self.old at).here) (trace_of (level_at self.new at).here) steps.old steps.new }
        ensures stays { (a : TheAsked) → StackFits a (R.shown reader.now) self.old → StackStays a (R.shown reader.now) self.old self.new }
        ensures waits { StackAwaits self.old self.new }
        ensures plans { SamePlans (first_of self.old).here (first_of self.new).here }
        ensures course { SameCourse (first_of self.old).here (first_of self.new).here }
        ensures once { self.old.above ≡ [] → TakesOnce (R.shown reader.now) steps.old steps.new self.old.at self.new.at }
        ensures spends { self.old.above ≡ [] → IfOk result (λ t. Spends steps.old steps.new (level_effort (R.shown reader.now) self.old.at) (level_effort (R.shown reader.now) self.new.at)) }
    {
        if at < self.above.len() {
            take_at(reader, &mut self.above, at, steps)
        } else {
            take_level(reader, &mut self.at, steps)
        }
    }

    /// Gives a sieved piece to the retrieval of a place.
    #[tactic(auto, using(crate::proofs::Calls::stays_above, crate::proofs::Calls::stays_at, crate::proofs::Opening::level_keeps))]
    pub fn give<L: Drop>(
        &mut self,
        at: usize,
        sieved: Sieved,
        judge: &mut Box<dyn Judge>,
        steps: &mut Steps<L>,
    ) -> Result<Given, NoMemory>
        requires open { at ≤ length self.old.above }
        ensures given { IfOk result (λ g. Answers (level_at self.old at).here sieved g (level_at self.new at).here) }
        ensures obeys { IfOk result (λ g. GivesOn (would judge.old) (state judge.old) (state judge.new) sieved g (level_at self.old at).here (level_at self.new at).here) }
        ensures stays_rule { would judge.new ≡ would judge.old }
        ensures quiet { OnErr result (state judge.new ≡ state judge.old) }
        ensures lowers { (a : TheAsked) (shown : Shown) → StackFits a shown self.old → IfOk result (λ g. GiveSpends g (loops_work a shown self.old) (loops_work a shown self.new)) }
        ensures stale { (asked : Id) (now : Option Id) → result ≡ Ok (Given.Stale asked now) → self.new ≡ self.old }
        ensures counts { SameCounts (trace_of (level_at self.old at).here) (trace_of (level_at self.new at).here) }
        ensures stays { (a : TheAsked) (shown : Shown) → StackFits a shown self.old → StackStays a shown self.old self.new }
        ensures err { OnErr result (self.new ≡ self.old) }
        ensures reads { steps.new ≡ steps.old }
        ensures pieces { IfOk result (λ g. CountsPiece g (pieces_in self.old.above self.old.at) (pieces_in self.new.above self.new.at)) }
        ensures plans { SamePlans (first_of self.old).here (first_of self.new).here }
        ensures less { (shown : Shown) → self.old.above ≡ [] → AccessFits self.old.at.here shown → IfOk result (λ g. GiveSpends g (level_effort shown self.old.at) (level_effort shown self.new.at)) }
        ensures settled { self.old.above ≡ [] → Settled self.old.at.here → (self.new ≡ self.old) × (state judge.new ≡ state judge.old) }
    {
        if at < self.above.len() {
            give_at(&mut self.above, at, sieved, judge, steps)
        } else {
            self.at.here.give(sieved, judge, steps)
        }
    }
}
