ghost use Rattle.std.specs.Prelude.{◌≡◌};
ghost use Rattle.rv_overlay.specs.Overlaid.{Lays, lays-prop};

use crate::frozen::Frozen;
use crate::reading::{chunk_over, estimate_over, part_of};
use crate::rows::{fetch_over, page_over, sizes_over};
use rv_judge::Steps;
use rv_reader::{Chunk, Estimate, Reader, Sizes};
use rv_value::{IndexEntry, NoMemory, Range, Record, RowNo};
use std::alloc::Global;

/// A reader under what a transaction froze. At the base it shows the view's rows and entries, at every other snapshot
/// what the reader shows. It is a reader itself.
#[derive(Drop)]
pub struct Overlay<'a, R: Reader> {
    pub reader: &'a R,
    pub frozen: &'a Frozen,
    pub ghost lays: { Lays (R.shown reader.now) frozen.now } by { lays-prop (R.shown reader.now) frozen.now },
}

impl<'a, R: Reader> Overlay<'a, R> {
    /// What was frozen, laid over a reader. It takes no memory.
    pub fn new(reader: &'a R, frozen: &'a Frozen) -> Overlay<'a, R>
        requires { Lays (R.shown reader.now) frozen.now }
        ensures reader { result.reader.now ≡ reader.now }
        ensures frozen { result.frozen.now ≡ frozen.now }
    {
        Overlay { reader, frozen }
    }
}

impl<'a, R: Reader> Reader for Overlay<'a, R> {
    ghost use Rattle.rv_overlay.specs.Overlaid.{overlaid};

    type Ledger = R::Ledger;

    ghost shown = { λ o. overlaid (R.shown o.reader.now) o.frozen.now };

    /// The rows of a page of the view, ascending. It is one page read.
    fn page(
        &self,
        alloc: Global,
        table: u32,
        snap: u64,
        n: u32,
        steps: &mut Steps<R::Ledger>,
    ) -> Result<Vec<Record>, NoMemory> {
        if snap != self.frozen.base {
            return self.reader.page(alloc, table, snap, n, steps);
        }
        page_over(self.reader, self.frozen, alloc, table, snap, n, steps)
    }

    /// The row of a number; None exactly where the view has no such row. It is one record read, also where a change
    /// says it all.
    fn fetch(
        &self,
        alloc: Global,
        table: u32,
        snap: u64,
        row: RowNo,
        steps: &mut Steps<R::Ledger>,
    ) -> Result<Option<Record>, NoMemory> {
        if snap != self.frozen.base {
            return self.reader.fetch(alloc, table, snap, row, steps);
        }
        fetch_over(self.reader, self.frozen, alloc, table, snap, row, steps)
    }

    /// One leaf of an index, in which the first of each sixteen added entries begins a further leaf. It is one leaf
    /// read.
    fn chunk(
        &self,
        alloc: Global,
        index: u32,
        snap: u64,
        from: Option<&IndexEntry>,
        range: &Range,
        steps: &mut Steps<R::Ledger>,
    ) -> Result<Chunk, NoMemory> {
        if snap != self.frozen.base {
            return self.reader.chunk(alloc, index, snap, from, range, steps);
        }
        let part = part_of(self.frozen, index);
        chunk_over(self.reader, part, alloc, index, snap, from, range, steps)
    }

    /// How many entries of the view are in a range. It reads nothing and takes no memory.
    fn estimate(&self, index: u32, snap: u64, range: &Range) -> Estimate {
        if snap != self.frozen.base {
            return self.reader.estimate(index, snap, range);
        }
        let part = part_of(self.frozen, index);
        estimate_over(self.reader, part, index, snap, range)
    }

    /// How large a table of the view is: its rows lie in the pages below `pages`. It reads nothing and takes no memory.
    fn sizes(&self, table: u32, snap: u64) -> Sizes {
        if snap != self.frozen.base {
            return self.reader.sizes(table, snap);
        }
        sizes_over(self.reader, self.frozen, table, snap)
    }
}
