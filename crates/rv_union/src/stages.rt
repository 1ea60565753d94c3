ghost use Rattle.std.specs.Prelude.{◌≡◌, IfOk, OnErr, Ok};
ghost use Rattle.rv_judge.specs.Tracing.{CountsRise};
ghost use Rattle.rv_final.specs.Work.{Tries};
ghost use Rattle.rv_final.specs.LaneWork.{Spends};
ghost use Rattle.rv_union.specs.Effort.{effort};
ghost use Rattle.rv_union.specs.Leaves.{LeavesFall, leaves_left};
ghost use Rattle.rv_union.specs.Opened.{DoesStep, EndsIn, MayRead, OnlyTakes, StageStep, StepsAs};
ghost use Rattle.rv_union.specs.Unioned.{UnionFits, SameUnion, rest};
ghost use Rattle.rv_union.specs.Runs.{Tells};

use crate::uniting::Union;
use rv_jscan::{Taken, sieve};
use rv_judge::{Control, Judge, Steps};
use rv_reader::{Reader, Step};
use rv_value::{NoMemory, Record};

/// The steps of a union.
impl Union {
    /// A background step: a piece taken, sieved and given.
    fn background_step<R: Reader>(
        &mut self,
        reader: &R,
        judge: &mut Box<dyn Judge>,
        steps: &mut Steps<R::Ledger>,
    ) -> Result<Step<Record>, NoMemory>
        requires control { self.old.control ≡ Control.BackgroundAlone }
        requires fits { UnionFits self.old (R.shown reader.now) }
        ensures stepped { StageStep (would judge.old) (state judge.old) (state judge.new) (R.shown reader.now) steps.old steps.new result self.old self.new }
        ensures stays { would judge.new ≡ would judge.old }
    {
        match self.take_piece(reader, steps)? {
            Taken::Piece(piece) => {
                let _given = self.give_piece(sieve(piece), judge)?;
                Ok(Step::Working)
            }
            Taken::Nothing => unreachable!(),
        }
    }

    /// What a step does, before what it read is counted.
    fn stage_step<R: Reader>(
        &mut self,
        reader: &R,
        judge: &mut Box<dyn Judge>,
        steps: &mut Steps<R::Ledger>,
    ) -> Result<Step<Record>, NoMemory>
        requires fits { UnionFits self.old (R.shown reader.now) }
        ensures stepped { StageStep (would judge.old) (state judge.old) (state judge.new) (R.shown reader.now) steps.old steps.new result self.old self.new }
        ensures again { self.old.control ≡ Control.Done → result ≡ Ok Step.End }
        ensures stays { would judge.new ≡ would judge.old }
    {
        match self.control() {
            Control::BackgroundAlone => self.background_step(reader, judge, steps),
            Control::FinalList | Control::FinalTable => self.final_step(reader, steps),
            Control::Done => Ok(Step::End),
            Control::Building | Control::ForegroundAlone => unreachable!(),
        }
    }

    /// Gives a row of the rest, works on, or ends.
    ///
    /// `Row` takes one record out of the rest. `End` comes only where the rest is empty, and then again at each further
    /// step. `Working` leaves the rest; so does `NoMemory`.
    pub fn step<R: Reader>(
        &mut self,
        reader: &R,
        judge: &mut Box<dyn Judge>,
        steps: &mut Steps<R::Ledger>,
    ) -> Result<Step<Record>, NoMemory>
        requires fits { UnionFits self.old (R.shown reader.now) }
        ensures counts { CountsRise self.old.trace self.new.trace steps.old steps.new }
        ensures does { IfOk result (λ s. StepsAs (would judge.old) (state judge.old) (state judge.new) (R.shown reader.now) steps.old steps.new s self.old self.new) }
        ensures fits { UnionFits self.new (R.shown reader.now) }
        ensures step { IfOk result (DoesStep self.old self.new (R.shown reader.now)) }
        ensures ends { IfOk result (EndsIn self.new) }
        ensures again { self.old.control ≡ Control.Done → result ≡ Ok Step.End }
        ensures err { OnErr result (rest self.new (R.shown reader.now) ≡ rest self.old (R.shown reader.now)) }
        ensures still { OnErr result (OnlyTakes self.old self.new) }
        ensures same { SameUnion self.old self.new }
        ensures tells { Tells self.old → Tells self.new }
        ensures quiet { OnErr result (state judge.new ≡ state judge.old) }
        ensures stays { would judge.new ≡ would judge.old }
        ensures may_read { MayRead self.old.control self.old steps.old steps.new }
        ensures tries { Tries steps.old steps.new (effort self.old (R.shown reader.now)) (effort self.new (R.shown reader.now)) }
        ensures nearer { IfOk result (λ s. LeavesFall steps.old steps.new (leaves_left self.old (R.shown reader.now)) (leaves_left self.new (R.shown reader.now))) }
        ensures spends { IfOk result (λ s. Spends s steps.old steps.new (effort self.old (R.shown reader.now)) (effort self.new (R.shown reader.now))) }
    {
        let before = steps.counts();
        let stepped = self.stage_step(reader, judge, steps);
        self.note_counts(before, steps.counts());
        stepped
    }
}
