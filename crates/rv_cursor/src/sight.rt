//! What a cursor reads: one snapshot, under what a transaction froze where it had changes.
ghost use Rattle.rv_view.specs.Alone.{alone};
ghost use Rattle.rv_view.specs.Sights.{LaysSome, lays_some-prop};

use rv_judge::Steps;
use rv_overlay::Overlay;
use rv_reader::{Chunk, Estimate, Reader, Sizes};
use rv_value::{IndexEntry, NoMemory, Range, Record, RowNo};
use rv_view::{Snapshot, View};
use std::alloc::Global;

/// What a cursor reads, and UPDATE and DELETE search: a reader at one snapshot alone, with a transaction's view laid over
/// it, where that has changes. It shows the same as long as the reader keeps the snapshot, whatever is committed or swept
/// meanwhile.
#[derive(Drop)]
pub struct Sight<'a, R: Reader> {
    pub at: Snapshot<'a, R>,
    pub view: &'a Option<View>,
    pub ghost lays: { LaysSome (alone (R.shown at.reader.now) at.snap) view.now } by { lays_some-prop (alone (R.shown at.reader.now) at.snap) view.now },
}

impl<'a, R: Reader> Reader for Sight<'a, R> {
    ghost use Rattle.rv_view.specs.Alone.{alone};
    ghost use Rattle.rv_view.specs.Sights.{laid_over};

    type Ledger = R::Ledger;

    ghost shown = { λ o. laid_over (alone (R.shown o.at.reader.now) o.at.snap) o.view.now };

    #[inline(always)]
    fn page(
        &self,
        alloc: Global,
        table: u32,
        snap: u64,
        n: u32,
        steps: &mut Steps<R::Ledger>,
    ) -> Result<Vec<Record>, NoMemory> {
        match self.view {
            None => self.at.reader.page(alloc, table, snap, n, steps),
            Some(view) => Overlay::new(&self.at, view.frozen()).page(alloc, table, snap, n, steps),
        }
    }

    #[inline(always)]
    fn fetch(
        &self,
        alloc: Global,
        table: u32,
        snap: u64,
        row: RowNo,
        steps: &mut Steps<R::Ledger>,
    ) -> Result<Option<Record>, NoMemory> {
        match self.view {
            None => self.at.reader.fetch(alloc, table, snap, row, steps),
            Some(view) => Overlay::new(&self.at, view.frozen()).fetch(
                alloc, table, snap, row, steps,
            ),
        }
    }

    #[inline(always)]
    fn chunk(
        &self,
        alloc: Global,
        index: u32,
        snap: u64,
        from: Option<&IndexEntry>,
        range: &Range,
        steps: &mut Steps<R::Ledger>,
    ) -> Result<Chunk, NoMemory> {
        match self.view {
            None => self.at.reader.chunk(alloc, index, snap, from, range, steps),
            Some(view) => Overlay::new(&self.at, view.frozen()).chunk(
                alloc, index, snap, from, range, steps,
            ),
        }
    }

    #[inline(always)]
    fn estimate(&self, index: u32, snap: u64, range: &Range) -> Estimate {
        match self.view {
            None => self.at.reader.estimate(index, snap, range),
            Some(view) => Overlay::new(&self.at, view.frozen()).estimate(index, snap, range),
        }
    }

    #[inline(always)]
    fn sizes(&self, table: u32, snap: u64) -> Sizes {
        match self.view {
            None => self.at.reader.sizes(table, snap),
            Some(view) => Overlay::new(&self.at, view.frozen()).sizes(table, snap),
        }
    }
}
