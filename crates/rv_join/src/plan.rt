//! Plans: what they keep, and how one is opened.
ghost use Rattle.std.specs.Prelude.{◌≡◌, ◌+◌, ◌<◌, ◌≤◌, ◌^◌, [], length, true, None, Ok, Option, IfOk, OnOk, OnErr};
ghost use Rattle.std.specs.List.Sorted.{IsPermutation};
ghost use Rattle.rv_judge.specs.Runs.{Allowed};
ghost use Rattle.rv_reader.specs.Shown.{Shown};
ghost use Rattle.rv_access.specs.Accesses.{AccessFits, SamePlans, Settled, fetches_left, held_of, query_of, trace_of};
ghost use Rattle.rv_access.specs.Stepping.{SameCourse};
ghost use Rattle.rv_access.specs.Opened.{is_race};
ghost use Rattle.rv_access.specs.Given.{CountsPiece, GivesOn, TakesPiece, awaited, piece_read};
ghost use Rattle.rv_judge.specs.Tracing.{CountsAll, CountsRise, SameCounts};
ghost use Rattle.rv_judge.specs.Counting.{reads};
ghost use Rattle.rv_retrieval.specs.Effort.{GiveSpends};
ghost use Rattle.rv_retrieval.specs.Short.{OnlyLeaves, has_short};
ghost use Rattle.rv_join.specs.Alone.{Fetches, FewFetches, GatherSpends, IsAlone, PlanAsks, PlanSpends, Spends, StepsOnce, TakesOnce, level_effort, plan_effort, plan_life};
ghost use Rattle.rv_join.specs.Asking.{CanPlan, CanRun, IsAsked, item_at, lives_of};
ghost use Rattle.rv_join.specs.Levels.{StackFits, first_of, table_rows};
ghost use Rattle.rv_join.specs.Moves.{Kept, Rises, StackStays};
ghost use Rattle.rv_model.specs.Offering.{offers_over};
ghost use Rattle.rv_join.specs.Work.{row_cost};
ghost use Rattle.rv_join.specs.Pieces.{GivesPiece, StackAwaits, level_at, plan_awaited, plan_pieces, stack_builds, waited, waiting, waits};
ghost use Rattle.rv_join.specs.Plans.{AreReads, Gathers, Gives, LeadsWith, PlanFits, PlanKept, PlanMoves, PlanStays, Sorts, numbers_of, plan_rest, plan_trace, plan_work, reads_with, stage_of};

use crate::gather::{Gathered, Stage};
use crate::places::{Asked, ask, by_index};
use crate::stack::{Stack, open};
use rv_catalog::{IndexDef, Select};
use rv_jscan::{Given, PieceId, Sieved, Taken};
use rv_judge::{Counts, Judge, Steps, Trace};
use rv_model::Offer;
use rv_reader::{Reader, Step};
use rv_value::NoMemory;
use std::alloc::Global;
use std::marker::Model;

/// The plan of a cursor: nested loops of up to four retrievals in FROM order.
#[derive(Drop)]
pub struct Plan {
    alloc: Global,
    asked: Asked,
    stack: Stack,
    gathered: Gathered,
    stage: Stage,
    reads: Counts,
}

impl Model for Plan {
    ghost use Rattle.rv_join.specs.Plans.{Planned};

    ghost Value = { Planned };

    ghost view = { λ p. record { asked = p.asked; stack = p.stack; gathered = p.gathered; stage = p.stage; reads = p.reads } };
}

/// The counts of a trace.
fn reads_of(trace: &Trace) -> Counts
    ensures { AreReads trace.now result }
{
    Counts {
        pages: trace.pages,
        leaves: trace.leaves,
        records: trace.fetches,
    }
}

/// The stage in which a plan begins.
fn first_stage(alloc: Global, select: &Select, indexes: &[IndexDef]) -> Result<Stage, NoMemory>
    requires some { 1 ≤ length select.now.tables }
    requires numbers { length indexes.now < 2 ^ 32 }
    ensures { IfOk result (λ stage. stage ≡ stage_of select.now indexes.now) }
{
    if select.order.is_empty() {
        return Ok(Stage::AsFound);
    }
    if by_index(alloc, select, indexes)? {
        Ok(Stage::AsFound)
    } else {
        Ok(Stage::Gathering)
    }
}

impl Plan {
    /// Opens a plan of a select at a snapshot, for the cursor of this number. An index's number is its position in
    /// `indexes`. It opens the retrieval of the first FROM item; each further one is opened over a row of the items
    /// before it. Where an order is asked that no index of the first item gives, all offers are gathered and sorted
    /// before the first comes.
    #[tactic(auto, using(crate::proofs::Accounting::opened_counts, crate::proofs::Beginning::begins_with, crate::proofs::Beginning::begins_good, crate::proofs::Running::offers_are, crate::proofs::OneItem::begins_life))]
    pub fn open<R: Reader>(
        alloc: Global,
        reader: &R,
        select: &Select,
        indexes: &[IndexDef],
        snap: u64,
        cursor: u64,
        race: bool,
        steps: &mut Steps<R::Ledger>,
    ) -> Result<Plan, NoMemory>
        requires { CanPlan select.now indexes.now (R.shown reader.now) snap }
        ensures fits { IfOk result (PlanFits (R.shown reader.now)) }
        ensures rest { IfOk result (λ p. plan_rest (R.shown reader.now) p ≡ offers_over select.now (table_rows (R.shown reader.now) snap)) }
        ensures asked { IfOk result (λ p. IsAsked select.now indexes.now snap cursor p.asked) }
        ensures race { IfOk result (λ p. p.asked.race ≡ race) }
        ensures leads { IfOk result (LeadsWith (R.shown reader.now)) }
        ensures work { IfOk result (λ p. plan_work (R.shown reader.now) p ≤ row_cost (lives_of p.asked.only) (R.shown reader.now) p.asked.snap p.asked.items) }
        ensures counts { IfOk result (λ p. CountsAll (plan_trace p) steps.old steps.new) }
        ensures stage { IfOk result (λ p. p.stage ≡ stage_of select.now indexes.now) }
        ensures life { IfOk result (λ p. reads steps.new + plan_effort (R.shown reader.now) p ≤ reads steps.old + plan_life select.now indexes.now (R.shown reader.now) snap p) }
        ensures short { IfOk result (λ p. has_short (query_of p.stack.at.here) (R.shown reader.now) ≡ true → Settled p.stack.at.here × (fetches_left p.stack.at.here (R.shown reader.now) ≤ 20)) }
        ensures only { OnlyLeaves steps.old steps.new }
    {
        let stage = first_stage(alloc, select, indexes)?;
        let asked = ask(alloc, select, indexes, snap, cursor, race)?;
        let stack = match open(alloc, reader, &asked, steps) {
            Ok(stack) => stack,
            Err(fault) => {
                drop(asked);
                return Err(fault);
            }
        };
        let reads = reads_of(stack.first_trace());
        let gathered = Gathered::new(alloc);
        Ok(Plan {
            alloc,
            asked,
            stack,
            gathered,
            stage,
            reads,
        })
    }

    /// Whether indexes race for the first FROM item.
    pub fn raced(&self) -> bool
        ensures { result ≡ is_race (first_of self.now.stack).here }
    {
        self.stack.first_raced()
    }

    /// What it did so far: the strategy and the events of the first FROM item's retrieval, with the counts of all its
    /// retrievals.
    #[tactic(auto, using(crate::proofs::Accounting::alone_trace, crate::proofs::Keeping::told_allowed))]
    pub fn trace(&self) -> Trace
        ensures told { result ≡ plan_trace self.now }
        ensures allowed { (shown : Shown) → PlanFits shown self.now → Allowed result (numbers_of (item_at self.now.asked 0).indexes) }
        ensures alone { (shown : Shown) → PlanFits shown self.now → length self.now.asked.items ≡ 1 → result ≡ trace_of self.now.stack.at.here }
    {
        let mut trace = self.stack.first_trace().copy();
        trace.pages = self.reads.pages;
        trace.leaves = self.reads.leaves;
        trace.fetches = self.reads.records;
        trace
    }

    /// The id of the piece that is awaited by the first retrieval in FROM order that awaits one.
    pub fn awaited(&self) -> Option<PieceId>
        ensures { result ≡ plan_awaited self.now }
    {
        self.stack.level(self.stack.waits()).here.awaited()
    }

    /// Whether both sides of some retrieval run, so that background steps may go beside those of a FETCH.
    pub fn is_building(&self) -> bool
        ensures { result ≡ stack_builds self.now.stack }
    {
        self.stack.is_building()
    }
}

/// Changes of fields.
impl Plan {
    /// Whether offers come as they are found, are being gathered, or are given in their order.
    fn stage(&self) -> Stage
        ensures { result ≡ self.now.stage }
    {
        self.stage
    }

    /// Adds what a call has read.
    pub(crate) fn count(&mut self, before: Counts, after: Counts)
        ensures same { self.new ≡ record self.old { reads = reads_with self.old.reads before after } }
        ensures none { after ≡ before → self.new ≡ self.old }
        ensures within { before.records < 2 ^ 64 }
    {
        let pages = after.pages.saturating_sub(before.pages);
        let leaves = after.leaves.saturating_sub(before.leaves);
        let records = after.records.saturating_sub(before.records);
        self.reads.pages = self.reads.pages.saturating_add(pages);
        self.reads.leaves = self.reads.leaves.saturating_add(leaves);
        self.reads.records = self.reads.records.saturating_add(records);
    }

    /// Gives a combination of the rest, works on, or ends.
    ///
    /// `Row` takes one combination out of the rest, none of which has lesser order values. `End` comes only where the
    /// rest is empty. `Working` leaves the rest; so does `NoMemory`. Offers are given as they are found, or by the stage.
    #[tactic(auto, using(crate::proofs::Accounting::plan_rises, crate::proofs::Accounting::fits_counted))]
    pub fn step<R: Reader>(
        &mut self,
        reader: &R,
        judge: &mut Box<dyn Judge>,
        steps: &mut Steps<R::Ledger>,
    ) -> Result<Step<Offer>, NoMemory>
        requires fits { PlanFits (R.shown reader.now) self.old }
        ensures counts { CountsRise (plan_trace self.old) (plan_trace self.new) steps.old steps.new }
        ensures stays { would judge.new ≡ would judge.old }
        ensures asks { PlanAsks (would judge.old) (state judge.old) (state judge.new) (R.shown reader.now) steps.old steps.new self.old self.new }
        ensures once { IsAlone self.old → StepsOnce (would judge.old) (state judge.old) (state judge.new) (R.shown reader.now) steps.old steps.new self.old.stack.at self.new.stack.at }
        ensures spends { IsAlone self.old → IfOk result (λ m. PlanSpends m steps.old steps.new (plan_effort (R.shown reader.now) self.old) (plan_effort (R.shown reader.now) self.new)) }
        ensures few { IsAlone self.old → OnOk result (FewFetches 0 (R.shown reader.now) self.old self.new) }
        ensures lost { IsAlone self.old → FewFetches 1 (R.shown reader.now) self.old self.new }
        ensures fits { PlanFits (R.shown reader.now) self.new }
        ensures step { IfOk result (λ m. PlanMoves (R.shown reader.now) m self.old self.new) }
        ensures err { OnErr result (PlanKept (R.shown reader.now) self.old self.new) }
    {
        let before = steps.counts();
        let stepped = match self.stage() {
            Stage::AsFound => self
                .stack
                .advance(self.alloc, &self.asked, reader, judge, steps),
            Stage::Gathering => self.gather_step(reader, judge, steps),
            Stage::Giving => self.give_next(),
        };
        self.count(before, steps.counts());
        stepped
    }

    /// A step of the nested loops, whose combination is put to those gathered.
    pub(crate) fn gather<R: Reader>(
        &mut self,
        reader: &R,
        judge: &mut Box<dyn Judge>,
        steps: &mut Steps<R::Ledger>,
    ) -> Result<bool, NoMemory>
        requires can { CanRun self.old.asked (R.shown reader.now) }
        requires fits { StackFits self.old.asked (R.shown reader.now) self.old.stack }
        ensures gathers { IfOk result (λ all. Gathers all self.old.asked (R.shown reader.now) self.old.stack self.old.gathered self.new.stack self.new.gathered) }
        ensures alone { length self.old.asked.items ≡ 1 → Rises (first_of self.old.stack).here (first_of self.new.stack).here steps.old steps.new }
        ensures stays { would judge.new ≡ would judge.old }
        ensures asks { PlanAsks (would judge.old) (state judge.old) (state judge.new) (R.shown reader.now) steps.old steps.new self.old self.new }
        ensures once { length self.old.asked.items ≡ 1 → StepsOnce (would judge.old) (state judge.old) (state judge.new) (R.shown reader.now) steps.old steps.new self.old.stack.at self.new.stack.at }
        ensures spends { length self.old.asked.items ≡ 1 → IfOk result (λ all. GatherSpends all steps.old steps.new (level_effort (R.shown reader.now) self.old.stack.at) (level_effort (R.shown reader.now) self.new.stack.at)) }
        ensures fetches { length self.old.asked.items ≡ 1 → OnOk result (Fetches (R.shown reader.now) steps.old steps.new self.old.stack.at.here self.new.stack.at.here) }
        ensures plans { SamePlans (first_of self.old.stack).here (first_of self.new.stack).here }
        ensures same { self.new ≡ record self.old { stack = self.new.stack; gathered = self.new.gathered } }
        ensures kept { OnErr result (Kept self.old.asked (R.shown reader.now) self.old.stack self.new.stack) }
        ensures none { OnErr result (self.new.gathered ≡ self.old.gathered) }
    {
        self.gathered.gather(
            self.alloc,
            &self.asked,
            &mut self.stack,
            reader,
            judge,
            steps,
        )
    }

    /// Sorts all that is gathered, which is then to be given.
    pub(crate) fn sort(&mut self) -> Result<(), NoMemory>
        ensures ok { OnOk result (Sorts self.old self.new) }
        ensures same { OnErr result (IsPermutation self.old.gathered self.new.gathered) }
        ensures err { OnErr result (self.new ≡ record self.old { gathered = self.new.gathered }) }
    {
        self.gathered.sort()?;
        self.stage = Stage::Giving;
        Ok(())
    }

    /// Gives the next of the offers that are sorted.
    pub(crate) fn give_next(&mut self) -> Result<Step<Offer>, NoMemory>
        ensures given { IfOk result (λ m. Gives m self.old.gathered self.new.gathered) }
        ensures same { self.new ≡ record self.old { gathered = self.new.gathered } }
        ensures err { OnErr result (self.new ≡ self.old) }
    {
        match self.gathered.take() {
            Some(offer) => Ok(Step::Row(offer)),
            None => Ok(Step::End),
        }
    }

    /// The place of the first level that awaits a piece, that of the innermost one where none does.
    pub(crate) fn waits(&self) -> usize
        ensures at { result ≡ waits self.now.stack }
        ensures open { result ≤ length self.now.stack.above }
    {
        self.stack.waits()
    }

    /// Takes the awaited piece of the retrieval of a place, where it awaits one.
    #[tactic(auto, using(crate::proofs::Numbers::still_waits, crate::proofs::Keeping::still_stays, crate::proofs::Accounting::rises_none, rv_access::proofs::Accesses::plans_stay, crate::proofs::Courses::course_stays, crate::proofs::OneItem::still_once, rv_access::proofs::Accesses::none_read))]
    pub(crate) fn take_at<R: Reader>(
        &mut self,
        at: usize,
        reader: &R,
        steps: &mut Steps<R::Ledger>,
    ) -> Result<Taken, NoMemory>
        requires fits { AccessFits (level_at self.old.stack at).here (R.shown reader.now) }
        ensures same { self.new ≡ record self.old { stack = self.new.stack } }
        ensures taken { IfOk result (TakesPiece (level_at self.new.stack at).here) }
        ensures untaken { OnErr result ((held_of (level_at self.new.stack at).here) ≡ (held_of (level_at self.old.stack at).here)) }
        ensures reads { steps.new ≡ piece_read (level_at self.old.stack at).here steps.old }
        ensures counts { Rises (level_at self.old.stack at).here (level_at self.new.stack at).here steps.old steps.new }
        ensures stays { StackFits self.old.asked (R.shown reader.now) self.old.stack → StackStays self.old.asked (R.shown reader.now) self.old.stack self.new.stack }
        ensures waits { StackAwaits self.old.stack self.new.stack }
        ensures plans { SamePlans (first_of self.old.stack).here (first_of self.new.stack).here }
        ensures course { SameCourse (first_of self.old.stack).here (first_of self.new.stack).here }
        ensures once { self.old.stack.above ≡ [] → TakesOnce (R.shown reader.now) steps.old steps.new self.old.stack.at self.new.stack.at }
        ensures spends { self.old.stack.above ≡ [] → IfOk result (λ t. Spends steps.old steps.new (level_effort (R.shown reader.now) self.old.stack.at) (level_effort (R.shown reader.now) self.new.stack.at)) }
        ensures none { awaited (level_at self.old.stack at).here ≡ None → (result ≡ Ok Taken.Nothing) × (self.new ≡ self.old) × (steps.new ≡ steps.old) }
    {
        if self.stack.level(at).here.awaited().is_none() {
            return Ok(Taken::Nothing);
        }
        self.stack.take(at, reader, steps)
    }

    /// Gives a sieved piece to the first retrieval in FROM order that awaits one. It is stale where none does.
    #[tactic(auto, using(crate::proofs::Keeping::stays_still))]
    pub fn give<L: Drop>(
        &mut self,
        sieved: Sieved,
        judge: &mut Box<dyn Judge>,
        steps: &mut Steps<L>,
    ) -> Result<Given, NoMemory>
        ensures given { IfOk result (λ g. GivesPiece self.old sieved g self.new) }
        ensures obeys { IfOk result (λ g. GivesOn (would judge.old) (state judge.old) (state judge.new) sieved g (waiting self.old) (waited self.old self.new)) }
        ensures stays_rule { would judge.new ≡ would judge.old }
        ensures quiet { OnErr result (state judge.new ≡ state judge.old) }
        ensures lowers { (shown : Shown) → PlanFits shown self.old → IfOk result (λ g. GiveSpends g (plan_work shown self.old) (plan_work shown self.new)) }
        ensures counts { SameCounts (plan_trace self.old) (plan_trace self.new) }
        ensures fits { (shown : Shown) → PlanFits shown self.old → PlanFits shown self.new }
        ensures stays { (shown : Shown) → PlanFits shown self.old → PlanStays shown self.old self.new }
        ensures err { OnErr result (self.new ≡ self.old) }
        ensures reads { steps.new ≡ steps.old }
        ensures pieces { IfOk result (λ g. CountsPiece g (plan_pieces self.old) (plan_pieces self.new)) }
        ensures less { (shown : Shown) → PlanFits shown self.old → IsAlone self.old → IfOk result (λ g. GiveSpends g (plan_effort shown self.old) (plan_effort shown self.new)) }
        ensures settled { (shown : Shown) → PlanFits shown self.old → IsAlone self.old → Settled self.old.stack.at.here → (self.new ≡ self.old) × (state judge.new ≡ state judge.old) }
    {
        let at = self.stack.waits();
        self.stack.give(at, sieved, judge, steps)
    }
}
