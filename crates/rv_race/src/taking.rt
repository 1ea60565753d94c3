ghost use Rattle.std.specs.Prelude.{◌≡◌, ◌+◌, ◌≤◌, true, IfOk, OnErr};
ghost use Rattle.rv_judge.specs.Counting.{reads};
ghost use Rattle.rv_judge.specs.Tracing.{CountsRise};
ghost use Rattle.rv_final.specs.Work.{Tries};
ghost use Rattle.rv_race.specs.Effort.{effort};
ghost use Rattle.rv_race.specs.Given.{Awaits, TakesLeaf, TakesPiece, Took, awaited, counts_read, piece_read, turn_lane};
ghost use Rattle.rv_race.specs.Raced.{RaceFits, SameRace, rest};
ghost use Rattle.rv_final.specs.Shell.{scanning};
ghost use Rattle.rv_race.specs.Runs.{IsOfUndropped, Tells};

use crate::race::Race;
use rv_jscan::{Piece, Taken};
use rv_judge::Steps;
use rv_reader::Reader;
use rv_value::NoMemory;

impl Race {
    /// A copy of the awaited piece, where scans are under way.
    fn take_awaited<R: Reader>(
        &mut self,
        reader: &R,
        steps: &mut Steps<R::Ledger>,
    ) -> Result<Piece, NoMemory>
        requires under_way { scanning self.old.control ≡ true }
        requires fits { RaceFits self.old (R.shown reader.now) }
        ensures took { Took (R.shown reader.now) steps.old steps.new self.old self.new }
        ensures taken { IfOk result (Awaits self.new) }
        ensures err { OnErr result (self.new ≡ record self.old { counts = counts_read self.old }) }
    {
        self.count_read();
        let id = self.next_id();
        self.take_lane(id, reader, steps)
    }

    /// Takes a copy of the awaited piece; `Nothing` where no scan is under way. The leaf is read at the first take, and
    /// after one that found no memory.
    pub(crate) fn take_piece<R: Reader>(
        &mut self,
        reader: &R,
        steps: &mut Steps<R::Ledger>,
    ) -> Result<Taken, NoMemory>
        requires fits { RaceFits self.old (R.shown reader.now) }
        ensures took { Took (R.shown reader.now) steps.old steps.new self.old self.new }
        ensures taken { IfOk result (TakesPiece self.new) }
        ensures untaken { OnErr result ((turn_lane self.new).held ≡ (turn_lane self.old).held) }
    {
        if !self.is_racing() {
            return Ok(Taken::Nothing);
        }
        Ok(Taken::Piece(self.take_awaited(reader, steps)?))
    }

    /// A copy of the awaited piece; Nothing exactly where no scan is under way. The leaf is read where it is not held, and
    /// `NoMemory` takes nothing.
    pub fn take<R: Reader>(
        &mut self,
        reader: &R,
        steps: &mut Steps<R::Ledger>,
    ) -> Result<Taken, NoMemory>
        requires fits { RaceFits self.old (R.shown reader.now) }
        ensures counts { CountsRise self.old.trace self.new.trace steps.old steps.new }
        ensures taken { IfOk result (TakesPiece self.new) }
        ensures untaken { OnErr result ((turn_lane self.new).held ≡ (turn_lane self.old).held) }
        ensures leaves { TakesLeaf self.old self.new }
        ensures same { SameRace self.old self.new }
        ensures fits { RaceFits self.new (R.shown reader.now) }
        ensures rest { rest self.new (R.shown reader.now) ≡ rest self.old (R.shown reader.now) }
        ensures awaits { awaited self.new ≡ awaited self.old }
        ensures reads { steps.new ≡ piece_read self.old steps.old }
        ensures tells { Tells self.old → Tells self.new }
        ensures undropped { Tells self.old → IfOk result (IsOfUndropped self.new) }
        ensures tries { Tries steps.old steps.new (effort self.old (R.shown reader.now)) (effort self.new (R.shown reader.now)) }
        ensures spends { IfOk result (λ taken. reads steps.new + effort self.new (R.shown reader.now) ≤ reads steps.old + effort self.old (R.shown reader.now)) }
    {
        let before = steps.counts();
        let taken = self.take_piece(reader, steps);
        self.count(before, steps.counts());
        taken
    }
}
