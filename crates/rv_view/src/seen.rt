//! A reader, under what a transaction froze where it has changes.
ghost use Rattle.std.specs.Prelude.{◌≡◌};
ghost use Rattle.rv_view.specs.Sights.{LaysSome, lays_some-prop};

use crate::view::View;
use rv_judge::Steps;
use rv_overlay::Overlay;
use rv_reader::{Chunk, Estimate, Reader, Sizes};
use rv_value::{IndexEntry, NoMemory, Range, Record, RowNo};
use std::alloc::Global;

/// What a transaction sees of a reader: its view laid over it, where it has changes. Without, it is the reader itself.
#[derive(Drop)]
pub struct Seen<'a, R: Reader> {
    pub reader: &'a R,
    pub view: &'a Option<View>,
    pub ghost lays: { LaysSome (R.shown reader.now) view.now } by { lays_some-prop (R.shown reader.now) view.now },
}

impl<'a, R: Reader> Seen<'a, R> {
    /// A view, where there is one, over a reader. It takes no memory.
    pub fn new(reader: &'a R, view: &'a Option<View>) -> Seen<'a, R>
        requires { LaysSome (R.shown reader.now) view.now }
        ensures reader { result.reader.now ≡ reader.now }
        ensures view { result.view.now ≡ view.now }
    {
        Seen { reader, view }
    }
}

impl<'a, R: Reader> Reader for Seen<'a, R> {
    ghost use Rattle.rv_view.specs.Sights.{laid_over};

    type Ledger = R::Ledger;

    ghost shown = { λ o. laid_over (R.shown o.reader.now) o.view.now };

    fn page(
        &self,
        alloc: Global,
        table: u32,
        snap: u64,
        n: u32,
        steps: &mut Steps<R::Ledger>,
    ) -> Result<Vec<Record>, NoMemory> {
        match self.view {
            None => self.reader.page(alloc, table, snap, n, steps),
            Some(view) => Overlay::new(self.reader, view.frozen()).page(
                alloc, table, snap, n, steps,
            ),
        }
    }

    fn fetch(
        &self,
        alloc: Global,
        table: u32,
        snap: u64,
        row: RowNo,
        steps: &mut Steps<R::Ledger>,
    ) -> Result<Option<Record>, NoMemory> {
        match self.view {
            None => self.reader.fetch(alloc, table, snap, row, steps),
            Some(view) => Overlay::new(self.reader, view.frozen()).fetch(
                alloc, table, snap, row, steps,
            ),
        }
    }

    fn chunk(
        &self,
        alloc: Global,
        index: u32,
        snap: u64,
        from: Option<&IndexEntry>,
        range: &Range,
        steps: &mut Steps<R::Ledger>,
    ) -> Result<Chunk, NoMemory> {
        match self.view {
            None => self.reader.chunk(alloc, index, snap, from, range, steps),
            Some(view) => {
                Overlay::new(self.reader, view.frozen()).chunk(
                    alloc, index, snap, from, range, steps,
                )
            }
        }
    }

    fn estimate(&self, index: u32, snap: u64, range: &Range) -> Estimate {
        match self.view {
            None => self.reader.estimate(index, snap, range),
            Some(view) => Overlay::new(self.reader, view.frozen()).estimate(index, snap, range),
        }
    }

    fn sizes(&self, table: u32, snap: u64) -> Sizes {
        match self.view {
            None => self.reader.sizes(table, snap),
            Some(view) => Overlay::new(self.reader, view.frozen()).sizes(table, snap),
        }
    }
}
