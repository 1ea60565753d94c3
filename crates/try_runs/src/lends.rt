//! UPDATE and DELETE over a store that lends its pages: where WHERE gives an index a range none is lent.
ghost use Rattle.std.specs.Prelude.{◌≡◌};

use crate::calls::{NO_MEMORY, fill, leave, make_all};
use rv_core::Core;
use rv_judge::{Judge, Patient, Steps, Uncounted};
use rv_reader::{Change, Chunk, Estimate, Reader, Sizes, Store};
use rv_store::Paged;
use rv_value::{IndexEntry, NoMemory, Range, Record, RowNo};
use std::alloc::Global;
use std::cell::Cell;
use std::marker::Model;
use std::test::Fail;

/// A store that lends the pages of another, and has no memory for any call behind the first page that it was asked to lend.
/// Contracts see the other store.
struct Lending<S: Store + Drop> {
    inner: S,
    asked: Cell<bool>,
}

impl<S: Store + Drop> Model for Lending<S> {
    ghost Value = { S };

    ghost view = { λ l. l.inner };
}

impl<S: Store + Drop> Drop for Lending<S> {
    fn drop(self) {
        let Lending { inner: _, asked: _ } = self;
    }
}

impl<S: Store + Drop> Lending<S> {
    fn new(inner: S) -> Lending<S>
        ensures { result ≡ inner }
    {
        Lending {
            inner,
            asked: Cell::new(false),
        }
    }

    fn refuses(&self) -> bool {
        self.asked.get()
    }
}

impl<S: Store + Drop> Reader for Lending<S> {
    type Ledger = S::Ledger;

    ghost shown = { S.shown };

    fn page(
        &self,
        alloc: Global,
        table: u32,
        snap: u64,
        n: u32,
        steps: &mut Steps<S::Ledger>,
    ) -> Result<Vec<Record>, NoMemory> {
        if self.refuses() {
            steps.page();
            return Err(NoMemory);
        }
        self.inner.page(alloc, table, snap, n, steps)
    }

    fn fetch(
        &self,
        alloc: Global,
        table: u32,
        snap: u64,
        row: RowNo,
        steps: &mut Steps<S::Ledger>,
    ) -> Result<Option<Record>, NoMemory> {
        if self.refuses() {
            steps.fetch();
            return Err(NoMemory);
        }
        self.inner.fetch(alloc, table, snap, row, steps)
    }

    fn chunk(
        &self,
        alloc: Global,
        index: u32,
        snap: u64,
        from: Option<&IndexEntry>,
        range: &Range,
        steps: &mut Steps<S::Ledger>,
    ) -> Result<Chunk, NoMemory> {
        if self.refuses() {
            steps.leaf();
            return Err(NoMemory);
        }
        self.inner.chunk(alloc, index, snap, from, range, steps)
    }

    fn estimate(&self, index: u32, snap: u64, range: &Range) -> Estimate {
        self.inner.estimate(index, snap, range)
    }

    fn sizes(&self, table: u32, snap: u64) -> Sizes {
        self.inner.sizes(table, snap)
    }
}

impl<S: Store + Drop> Store for Lending<S> {
    fn last(&self) -> u64 {
        self.inner.last()
    }

    fn lent(
        &self,
        table: u32,
        snap: u64,
        n: u32,
        steps: &mut Steps<S::Ledger>,
    ) -> Option<&[Record]> {
        self.asked.set(true);
        self.inner.lent(table, snap, n, steps)
    }

    fn create_table(&mut self, table: u32, columns: u32) -> Result<(), NoMemory> {
        if self.refuses() {
            return Err(NoMemory);
        }
        self.inner.create_table(table, columns)
    }

    fn create_index(&mut self, index: u32, table: u32, columns: &[u32]) -> Result<(), NoMemory> {
        if self.refuses() {
            return Err(NoMemory);
        }
        self.inner.create_index(index, table, columns)
    }

    fn commit(&mut self, changes: &[Change]) -> Result<u64, NoMemory> {
        if self.refuses() {
            return Err(NoMemory);
        }
        self.inner.commit(changes)
    }

    fn sweep(&mut self, horizon: u64) {
        self.inner.sweep(horizon);
    }
}

/// Makes a call that changes rows of a table of the numbers below 100, and commits; how many calls were made again.
fn change<S: Store + Reader<Ledger = Uncounted> + Drop>(
    alloc: Global,
    core: &mut Core<S>,
    text: &str,
) -> Result<u32, NoMemory> {
    let filled = fill(alloc, core, 100)?;
    let again = make_all(core, &["COMMIT", "BEGIN", text, "COMMIT"])?;
    Ok(filled.saturating_add(again))
}

/// Whether such a call has no page lent.
fn has_none_lent(alloc: Global, text: &str) -> Result<bool, NoMemory> {
    let judge: Box<dyn Judge> = Box::new(alloc, Patient::new())?;
    let store = Lending::new(Paged::new(alloc)?);
    let mut core = Core::new(alloc, store, judge, false, 0);
    let again = change(alloc, &mut core, text);
    leave(core);
    Ok(matches!(again, Ok(0)))
}

/// Calls that change rows, and whether WHERE gives the table's index a range: of 3 entries, which are read at once, of 41,
/// which a scan reads, and of 70, more than a third.
const CALLS: [(&str, bool); 5] = [
    ("UPDATE T SET B = 1 WHERE A BETWEEN 20 AND 22", true),
    ("UPDATE T SET B = 1 WHERE A BETWEEN 20 AND 60", true),
    ("DELETE FROM T WHERE A < 70", true),
    ("UPDATE T SET B = 1 WHERE B = 0", false),
    ("DELETE FROM T", false),
];

/// Of a call with a range none is lent; of one without all are, and the store has no memory for the commit.
#[test]
fn a_change_by_an_index_has_no_page_lent(rt: HostRuntime) -> Result<(), Fail> {
    for (text, by_index) in CALLS {
        assert_eq!(rt;
            has_none_lent(rt.alloc(), text).or(Err(NO_MEMORY))?,
            by_index,
            "{text}"
        );
    }
    Ok(())
}
