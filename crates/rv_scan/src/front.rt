ghost use Rattle.std.specs.Prelude.{◌≡◌, ◌+◌, ◌≤◌, [], ℕ, IfOk, OnErr, true};
ghost use Rattle.rv_scan.specs.Alongs.{Along, Follows, leaf_work, FetchesDue};
ghost use Rattle.rv_scan.specs.Due.{IsReady, StepsTo, skipped};
ghost use Rattle.rv_scan.specs.Fronts.{CanFront, FrontMayRead, FrontReads, SameFront, front_fetches, front_rest, walk_of};
ghost use Rattle.rv_scan.specs.Reads.{ReadsNone};
ghost use Rattle.rv_judge.specs.Counting.{reads};
ghost use Rattle.rv_scan.specs.declared.along.Ahead.TheVariants.{First};

use crate::fscan::Fscan;
use crate::skip::Skip;
use rv_judge::Steps;
use rv_reader::{Reader, Step};
use rv_restrict::Restriction;
use rv_value::{Items, NoMemory, Range, Record};
use std::marker::Model;

/// A foreground's scan of an index: by the index alone where it has every column needed, else with fetches. It has one
/// walk, along which it goes in either way; contracts see it in both places.
#[derive(Drop)]
pub struct Front {
    alone: bool,
    columns: Items<u32>,
    fetching: Fscan,
}

impl Model for Front {
    ghost use Rattle.rv_scan.specs.Fronts.{Front};

    ghost Value = { Front };

    ghost view = { λ f. record { alone = f.alone; columns = f.columns; fetching = f.fetching; telling = f.fetching.walk } };
}

impl Front {
    /// A foreground before its first step: along an index `alone`, by what the entries have, or by the records that they
    /// name.
    pub fn new(alone: bool, columns: Items<u32>, fetching: Fscan) -> Front
        ensures { result ≡ record { alone = alone; columns = columns; fetching = fetching; telling = fetching.walk } }
    {
        Front {
            alone,
            columns,
            fetching,
        }
    }

    /// Becomes a foreground before its first step, of a table at a snapshot, along the range of an index. It takes no
    /// memory.
    #[inline(always)]
    pub fn renew(
        &mut self,
        alone: bool,
        columns: Items<u32>,
        table: u32,
        index: u32,
        snap: u64,
        range: Range,
    )
        ensures { let walk : Along = record { index = index; snap = snap; range = range; ahead = First; held = [] } in self.new ≡ record { alone = alone; columns = columns; fetching = record { table = table; walk = walk }; telling = walk } }
    {
        self.alone = alone;
        self.columns = columns;
        self.fetching.renew(table, index, snap, range);
    }

    /// The next row, or a read that brings it nearer.
    pub fn step<R: Reader>(
        &mut self,
        reader: &R,
        only: &Restriction,
        skip: &Skip<'_>,
        steps: &mut Steps<R::Ledger>,
    ) -> Result<Step<Record>, NoMemory>
        requires can { CanFront self.old only.now self.old.fetching.table (R.shown reader.now) (walk_of self.old).snap }
        requires ready { IsReady (skipped skip.now) }
        ensures same { SameFront self.old self.new }
        ensures follows { Follows (walk_of self.old) ((R.shown reader.now).entries (walk_of self.old).index (walk_of self.old).snap) → Follows (walk_of self.new) ((R.shown reader.now).entries (walk_of self.old).index (walk_of self.old).snap) }
        ensures step { let shown = R.shown reader.now in let entries = shown.entries (walk_of self.old).index (walk_of self.old).snap in let cuts = shown.cuts (walk_of self.old).index (walk_of self.old).snap in let rows = shown.rows self.old.fetching.table (walk_of self.old).snap in IfOk result (λ scanned. StepsTo scanned (front_rest self.old entries rows only.now (skipped skip.now)) (leaf_work (walk_of self.old) entries cuts) (front_rest self.new entries rows only.now (skipped skip.now)) (leaf_work (walk_of self.new) entries cuts)) }
        ensures fetches { IfOk result (λ scanned. FetchesDue (skipped skip.now) only.now ((R.shown reader.now).rows self.old.fetching.table (walk_of self.old).snap) scanned steps.old steps.new) }
        ensures err { OnErr result (self.new ≡ self.old) }
        ensures once { reads steps.new ≤ reads steps.old + 1 }
        ensures none { IfOk result (λ scanned. ReadsNone scanned steps.old steps.new) }
        ensures records { let entries = (R.shown reader.now).entries (walk_of self.old).index (walk_of self.old).snap in IfOk result (λ scanned. steps.new.records + front_fetches self.new entries (skipped skip.now) ≤ steps.old.records + front_fetches self.old entries (skipped skip.now)) }
        ensures pages { steps.new.pages ≡ steps.old.pages }
        ensures may_read { FrontMayRead self.old.alone steps.old steps.new }
        ensures reads { IfOk result (λ s. FrontReads self.old.alone s steps.old steps.new) }
    {
        if self.alone {
            self.fetching
                .tell(reader, only, skip, self.columns.as_slice(), steps)
        } else {
            self.fetching.step(reader, only, skip, steps)
        }
    }
}
