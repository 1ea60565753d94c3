//! One snapshot of a reader, as a reader of its own.
use rv_judge::Steps;
use rv_reader::{Chunk, Estimate, Reader, Sizes};
use rv_value::{IndexEntry, NoMemory, Range, Record, RowNo};
use std::alloc::Global;

/// One snapshot of a reader: the tables and indexes of the reader, at this snapshot alone. What it shows stays the same
/// as long as the reader keeps the snapshot, whatever is committed or swept meanwhile.
#[derive(Drop)]
pub struct Snapshot<'a, R: Reader> {
    pub reader: &'a R,
    pub snap: u64,
}

impl<'a, R: Reader> Reader for Snapshot<'a, R> {
    ghost use Rattle.rv_view.specs.Alone.{alone};

    type Ledger = R::Ledger;

    ghost shown = { λ s. alone (R.shown s.reader.now) s.snap };

    fn page(
        &self,
        alloc: Global,
        table: u32,
        snap: u64,
        n: u32,
        steps: &mut Steps<R::Ledger>,
    ) -> Result<Vec<Record>, NoMemory> {
        self.reader.page(alloc, table, snap, n, steps)
    }

    fn fetch(
        &self,
        alloc: Global,
        table: u32,
        snap: u64,
        row: RowNo,
        steps: &mut Steps<R::Ledger>,
    ) -> Result<Option<Record>, NoMemory> {
        self.reader.fetch(alloc, table, snap, row, steps)
    }

    fn chunk(
        &self,
        alloc: Global,
        index: u32,
        snap: u64,
        from: Option<&IndexEntry>,
        range: &Range,
        steps: &mut Steps<R::Ledger>,
    ) -> Result<Chunk, NoMemory> {
        self.reader.chunk(alloc, index, snap, from, range, steps)
    }

    fn estimate(&self, index: u32, snap: u64, range: &Range) -> Estimate {
        self.reader.estimate(index, snap, range)
    }

    fn sizes(&self, table: u32, snap: u64) -> Sizes {
        self.reader.sizes(table, snap)
    }
}
