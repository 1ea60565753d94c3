//! A step of a plan that gathers all offers first, and taking a piece, whose reads are counted.
ghost use Rattle.std.specs.Prelude.{◌≡◌, None, Ok, IfOk, OnErr, OnOk};
ghost use Rattle.rv_access.specs.Accesses.{SamePlans, held_of};
ghost use Rattle.rv_access.specs.Stepping.{SameCourse};
ghost use Rattle.rv_access.specs.Given.{TakesPiece, piece_read};
ghost use Rattle.rv_judge.specs.Tracing.{CountsRise};
ghost use Rattle.rv_join.specs.Alone.{Fetches, IsAlone, PlanAsks, PlanSpends, Spends, StepsOnce, TakesOnce, plan_effort};
ghost use Rattle.rv_join.specs.Levels.{first_of};
ghost use Rattle.rv_join.specs.Pieces.{TakesAwaited, plan_awaited, plan_pieces, waited, waiting, waits};
ghost use Rattle.rv_join.specs.Plans.{HoldsGood, PlanFits, PlanKept, PlanMoves, PlanStays, RisesAlone, plan_trace};

use crate::gather::Stage;
use crate::plan::Plan;
use rv_jscan::Taken;
use rv_judge::{Judge, Steps};
use rv_model::Offer;
use rv_reader::{Reader, Step};
use rv_value::NoMemory;

impl Plan {
    /// A step where all offers are gathered first. At the last one they are sorted, and the first is given.
    #[tactic(auto, using(crate::proofs::Planning::gather_moves, crate::proofs::Planning::gather_good, crate::proofs::Planning::gather_kept, crate::proofs::Planning::all_step, crate::proofs::OneItem::all_spends))]
    pub(crate) fn gather_step<R: Reader>(
        &mut self,
        reader: &R,
        judge: &mut Box<dyn Judge>,
        steps: &mut Steps<R::Ledger>,
    ) -> Result<Step<Offer>, NoMemory>
        requires fits { HoldsGood (R.shown reader.now) self.old }
        requires stage { self.old.stage ≡ Stage.Gathering }
        ensures step { IfOk result (λ m. PlanMoves (R.shown reader.now) m self.old self.new) }
        ensures holds { HoldsGood (R.shown reader.now) self.new }
        ensures alone { RisesAlone self.old self.new steps.old steps.new }
        ensures stays { would judge.new ≡ would judge.old }
        ensures asks { PlanAsks (would judge.old) (state judge.old) (state judge.new) (R.shown reader.now) steps.old steps.new self.old self.new }
        ensures once { IsAlone self.old → StepsOnce (would judge.old) (state judge.old) (state judge.new) (R.shown reader.now) steps.old steps.new self.old.stack.at self.new.stack.at }
        ensures spends { IsAlone self.old → IfOk result (λ m. PlanSpends m steps.old steps.new (plan_effort (R.shown reader.now) self.old) (plan_effort (R.shown reader.now) self.new)) }
        ensures fetches { IsAlone self.old → OnOk result (Fetches (R.shown reader.now) steps.old steps.new self.old.stack.at.here self.new.stack.at.here) }
        ensures plans { SamePlans (first_of self.old.stack).here (first_of self.new.stack).here }
        ensures reads { self.new.reads ≡ self.old.reads }
        ensures err { OnErr result (PlanKept (R.shown reader.now) self.old self.new) }
    {
        if self.gather(reader, judge, steps)? {
            self.sort()?;
            self.give_next()
        } else {
            Ok(Step::Working)
        }
    }

    /// Takes the awaited piece of the first retrieval in FROM order that awaits one. `Nothing` exactly where none does, and
    /// then nothing is done. What is awaited stays.
    #[tactic(auto, using(crate::proofs::Keeping::stays_still, crate::proofs::Keeping::stays_counted, crate::proofs::Numbers::taken_ready, crate::proofs::Numbers::taken_answers))]
    pub fn take<R: Reader>(
        &mut self,
        reader: &R,
        steps: &mut Steps<R::Ledger>,
    ) -> Result<Taken, NoMemory>
        requires fits { PlanFits (R.shown reader.now) self.old }
        ensures counts { CountsRise (plan_trace self.old) (plan_trace self.new) steps.old steps.new }
        ensures taken { IfOk result (TakesPiece (waited self.old self.new)) }
        ensures untaken { OnErr result (held_of (waited self.old self.new) ≡ held_of (waiting self.old)) }
        ensures reads { steps.new ≡ piece_read (waiting self.old) steps.old }
        ensures answers { IfOk result (TakesAwaited self.old) }
        ensures ready { IfOk result (TakesPiece (waiting self.new)) }
        ensures place { waits self.new.stack ≡ waits self.old.stack }
        ensures awaited { plan_awaited self.new ≡ plan_awaited self.old }
        ensures pieces { plan_pieces self.new ≡ plan_pieces self.old }
        ensures course { SameCourse (first_of self.old.stack).here (first_of self.new.stack).here }
        ensures once { IsAlone self.old → TakesOnce (R.shown reader.now) steps.old steps.new self.old.stack.at self.new.stack.at }
        ensures spends { IsAlone self.old → IfOk result (λ t. Spends steps.old steps.new (plan_effort (R.shown reader.now) self.old) (plan_effort (R.shown reader.now) self.new)) }
        ensures none { plan_awaited self.old ≡ None → (result ≡ Ok Taken.Nothing) × (self.new ≡ self.old) × (steps.new ≡ steps.old) }
        ensures fits { PlanFits (R.shown reader.now) self.new }
        ensures stays { PlanStays (R.shown reader.now) self.old self.new }
    {
        let before = steps.counts();
        let at = self.waits();
        let taken = self.take_at(at, reader, steps);
        self.count(before, steps.counts());
        taken
    }
}
