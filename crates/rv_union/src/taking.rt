ghost use Rattle.std.specs.Prelude.{◌≡◌, ◌+◌, ◌≤◌, true, IfOk, OnErr};
ghost use Rattle.rv_judge.specs.Counting.{reads};
ghost use Rattle.rv_judge.specs.Tracing.{CountsRise};
ghost use Rattle.rv_final.specs.Work.{Tries};
ghost use Rattle.rv_union.specs.Effort.{effort};
ghost use Rattle.rv_union.specs.Leaves.{LeavesFall, leaves_left};
ghost use Rattle.rv_union.specs.Given.{Awaits, TakesLeaf, TakesPiece, Took, awaited, count_read, piece_read};
ghost use Rattle.rv_union.specs.Runs.{IsOfUndropped, Tells};
ghost use Rattle.rv_union.specs.Unioned.{SameUnion, UnionFits, rest};
ghost use Rattle.rv_final.specs.Shell.{scanning};

use crate::uniting::Union;
use rv_jscan::{Piece, Taken};
use rv_judge::Steps;
use rv_reader::Reader;
use rv_value::NoMemory;

impl Union {
    /// A copy of the awaited piece, where members are scanned.
    fn take_awaited<R: Reader>(
        &mut self,
        reader: &R,
        steps: &mut Steps<R::Ledger>,
    ) -> Result<Piece, NoMemory>
        requires under_way { scanning self.old.control ≡ true }
        requires fits { UnionFits self.old (R.shown reader.now) }
        ensures took { Took (R.shown reader.now) steps.old steps.new self.old self.new }
        ensures taken { IfOk result (Awaits self.new) }
        ensures err { OnErr result (self.new ≡ record self.old { count = count_read self.old }) }
    {
        self.count_read();
        let id = self.next_id();
        self.take_lane(id, reader, steps)
    }

    /// Takes a copy of the awaited piece; `Nothing` where no member is scanned. The leaf is read at the first take, and
    /// after one that found no memory.
    pub(crate) fn take_piece<R: Reader>(
        &mut self,
        reader: &R,
        steps: &mut Steps<R::Ledger>,
    ) -> Result<Taken, NoMemory>
        requires fits { UnionFits self.old (R.shown reader.now) }
        ensures took { Took (R.shown reader.now) steps.old steps.new self.old self.new }
        ensures taken { IfOk result (TakesPiece self.new) }
        ensures untaken { OnErr result (self.new.lane.held ≡ self.old.lane.held) }
    {
        if !self.is_scanning() {
            return Ok(Taken::Nothing);
        }
        Ok(Taken::Piece(self.take_awaited(reader, steps)?))
    }

    /// A copy of the awaited piece; Nothing exactly where no member is scanned. The leaf is read where it is not held, and
    /// `NoMemory` takes nothing.
    pub fn take<R: Reader>(
        &mut self,
        reader: &R,
        steps: &mut Steps<R::Ledger>,
    ) -> Result<Taken, NoMemory>
        requires fits { UnionFits self.old (R.shown reader.now) }
        ensures counts { CountsRise self.old.trace self.new.trace steps.old steps.new }
        ensures taken { IfOk result (TakesPiece self.new) }
        ensures untaken { OnErr result (self.new.lane.held ≡ self.old.lane.held) }
        ensures leaves { TakesLeaf self.old self.new }
        ensures same { SameUnion self.old self.new }
        ensures fits { UnionFits self.new (R.shown reader.now) }
        ensures rest { rest self.new (R.shown reader.now) ≡ rest self.old (R.shown reader.now) }
        ensures awaits { awaited self.new ≡ awaited self.old }
        ensures reads { steps.new ≡ piece_read self.old steps.old }
        ensures tells { Tells self.old → Tells self.new }
        ensures undropped { Tells self.old → IfOk result (IsOfUndropped self.new) }
        ensures tries { Tries steps.old steps.new (effort self.old (R.shown reader.now)) (effort self.new (R.shown reader.now)) }
        ensures nearer { IfOk result (λ taken. LeavesFall steps.old steps.new (leaves_left self.old (R.shown reader.now)) (leaves_left self.new (R.shown reader.now))) }
        ensures spends { IfOk result (λ taken. reads steps.new + effort self.new (R.shown reader.now) ≤ reads steps.old + effort self.old (R.shown reader.now)) }
    {
        let before = steps.counts();
        let taken = self.take_piece(reader, steps);
        self.note_counts(before, steps.counts());
        taken
    }
}
