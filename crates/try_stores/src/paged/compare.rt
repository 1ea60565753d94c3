//! What both stores show, compared.
ghost use Rattle.std.specs.Prelude.{◌≡◌, ◌<◌, ◌≤◌};
ghost use Rattle.rv_loading.specs.Laid.{Counted, IsNarrow};
ghost use Rattle.try_stores.specs.Noted.{noted};
ghost use Rattle.try_stores.specs.Twins.{AreLaid};

use crate::paged::twins::Twins;
use rv_judge::Uncounted;
use rv_loading::{Layout, between, estimate_of, leaves_of, row_of, rows_of, sizes_of, whole};
use rv_reader::{Change, Reader, Store};
use rv_value::{Duplicate, IndexEntry, Items, NoMemory, Range, Record, RowNo};
use std::alloc::Global;

/// What differs between the stores.
#[derive(Clone, Copy)]
pub enum What {
    Sizes,
    Rows,
    Row,
    Entries,
    Estimate,
}

/// A difference of a table or an index at a snapshot.
#[derive(Clone, Copy)]
pub struct Difference {
    pub what: What,
    pub number: u32,
    pub snap: u64,
}

/// How much was compared, and the first difference.
#[derive(Clone, Copy)]
pub struct Tally {
    pub snapshots: u64,
    pub rows: u64,
    pub fetches: u64,
    pub entries: u64,
    pub paged_leaves: u64,
    pub plain_leaves: u64,
    pub exact: u64,
    pub first: Option<Difference>,
}

impl Tally {
    /// Nothing compared yet, and no difference found.
    pub fn new() -> Tally {
        Tally {
            snapshots: 0,
            rows: 0,
            fetches: 0,
            entries: 0,
            paged_leaves: 0,
            plain_leaves: 0,
            exact: 0,
            first: None,
        }
    }

    fn note(&mut self, same: bool, what: What, number: u32, snap: u64)
        ensures { self.new.first ≡ noted same (record { what = what; number = number; snap = snap }) self.old.first }
    {
        if !same && self.first.is_none() {
            self.first = Some(Difference { what, number, snap });
        }
    }

    fn add_leaves(&mut self, entries: usize, paged: usize, plain: usize) {
        self.entries = self.entries.saturating_add(entries as u64);
        self.paged_leaves = self.paged_leaves.saturating_add(paged as u64);
        self.plain_leaves = self.plain_leaves.saturating_add(plain as u64);
    }
}

fn joined(alloc: Global, leaves: Vec<Items<IndexEntry>>) -> Result<Vec<IndexEntry>, NoMemory> {
    let mut all = Vec::new(alloc);
    'leaves: for leaf in leaves {
        let mut entries = leaf.into_vec();
        all.append(&mut entries)?;
    }
    Ok(all)
}

fn compare_table(
    alloc: Global,
    twins: &Twins,
    table: u32,
    snap: u64,
    tally: &mut Tally,
) -> Result<(), NoMemory>
    requires laid { AreLaid twins.now }
    requires there { table < twins.now.layout.tables }
    requires kept { twins.now.layout.horizon ≤ snap }
    requires known { snap ≤ twins.now.layout.newest }
{
    let ours = rows_of(alloc, &twins.paged, twins.layout, table, snap)?;
    let theirs = rows_of(alloc, &twins.plain, twins.layout, table, snap)?;
    tally.rows = tally.rows.saturating_add(ours.len() as u64);
    let same = ours.as_slice() == theirs.as_slice();
    tally.note(same, What::Rows, table, snap);
    let sizes = sizes_of(&twins.paged, twins.layout, table, snap);
    let same = sizes == sizes_of(&twins.plain, twins.layout, table, snap);
    tally.note(same, What::Sizes, table, snap);
    Ok(())
}

/// A copy of an entry, where there is one.
fn copied(alloc: Global, from: Option<&IndexEntry>) -> Result<Option<IndexEntry>, NoMemory> {
    match from {
        Some(entry) => Ok(Some(entry.copy(alloc)?)),
        None => Ok(None),
    }
}

/// The entries of an index in a range, from one on or all, and the number of leaves in which a store has them.
fn entries_of<S: Store + Reader<Ledger = Uncounted>>(
    alloc: Global,
    store: &S,
    layout: Layout,
    index: u32,
    snap: u64,
    from: Option<&IndexEntry>,
    range: &Range,
) -> Result<(Vec<IndexEntry>, usize), NoMemory>
    requires laid { Counted layout (S.shown store.now) }
    requires there { index < layout.indexes }
    requires kept { layout.horizon ≤ snap }
    requires known { snap ≤ layout.newest }
    requires narrow { IsNarrow range.now }
{
    let from = copied(alloc, from)?;
    let leaves = leaves_of(alloc, store, layout, index, snap, from, range)?;
    let count = leaves.len();
    Ok((joined(alloc, leaves)?, count))
}

/// The entries of an index in a range, from one on or all, in both stores; those of the paged store.
fn compare_range(
    alloc: Global,
    twins: &Twins,
    index: u32,
    snap: u64,
    from: Option<&IndexEntry>,
    range: &Range,
    tally: &mut Tally,
) -> Result<Vec<IndexEntry>, NoMemory>
    requires laid { AreLaid twins.now }
    requires there { index < twins.now.layout.indexes }
    requires kept { twins.now.layout.horizon ≤ snap }
    requires known { snap ≤ twins.now.layout.newest }
    requires narrow { IsNarrow range.now }
{
    let (ours, paged) = entries_of(alloc, &twins.paged, twins.layout, index, snap, from, range)?;
    let (theirs, plain) = entries_of(alloc, &twins.plain, twins.layout, index, snap, from, range)?;
    tally.add_leaves(ours.len(), paged, plain);
    let same = ours.as_slice() == theirs.as_slice();
    tally.note(same, What::Entries, index, snap);
    Ok(ours)
}

/// Where the estimate of the paged store is exact, it is that of the plain one, which always is.
fn compare_estimates(twins: &Twins, index: u32, snap: u64, range: &Range, tally: &mut Tally)
    requires laid { AreLaid twins.now }
    requires there { index < twins.now.layout.indexes }
    requires kept { twins.now.layout.horizon ≤ snap }
    requires known { snap ≤ twins.now.layout.newest }
    requires narrow { IsNarrow range.now }
{
    let ours = estimate_of(&twins.paged, twins.layout, index, snap, range);
    let theirs = estimate_of(&twins.plain, twins.layout, index, snap, range);
    if ours.exact {
        tally.exact = tally.exact.saturating_add(1);
        tally.note(ours == theirs, What::Estimate, index, snap);
    }
}

/// All entries of an index, and those from the one in the middle on.
fn compare_halves(
    alloc: Global,
    twins: &Twins,
    index: u32,
    snap: u64,
    all: &Range,
    tally: &mut Tally,
) -> Result<(), NoMemory>
    requires laid { AreLaid twins.now }
    requires there { index < twins.now.layout.indexes }
    requires kept { twins.now.layout.horizon ≤ snap }
    requires known { snap ≤ twins.now.layout.newest }
    requires narrow { IsNarrow all.now }
{
    let entries = compare_range(alloc, twins, index, snap, None, all, tally)?;
    let from = entries.get(entries.len() / 2);
    compare_range(alloc, twins, index, snap, from, all, tally)?;
    Ok(())
}

/// The entries of some first values, and how many there may be.
fn compare_between(
    alloc: Global,
    twins: &Twins,
    index: u32,
    snap: u64,
    some: &Range,
    tally: &mut Tally,
) -> Result<(), NoMemory>
    requires laid { AreLaid twins.now }
    requires there { index < twins.now.layout.indexes }
    requires kept { twins.now.layout.horizon ≤ snap }
    requires known { snap ≤ twins.now.layout.newest }
    requires narrow { IsNarrow some.now }
{
    compare_estimates(twins, index, snap, some, tally);
    compare_range(alloc, twins, index, snap, None, some, tally)?;
    Ok(())
}

fn compare_some(
    alloc: Global,
    twins: &Twins,
    index: u32,
    snap: u64,
    low: i64,
    high: i64,
    tally: &mut Tally,
) -> Result<(), NoMemory>
    requires laid { AreLaid twins.now }
    requires there { index < twins.now.layout.indexes }
    requires kept { twins.now.layout.horizon ≤ snap }
    requires known { snap ≤ twins.now.layout.newest }
{
    let some = between(alloc, low, high)?;
    let done = compare_between(alloc, twins, index, snap, &some, tally);
    drop(some);
    done
}

fn compare_index(
    alloc: Global,
    twins: &Twins,
    index: u32,
    snap: u64,
    tally: &mut Tally,
) -> Result<(), NoMemory>
    requires laid { AreLaid twins.now }
    requires there { index < twins.now.layout.indexes }
    requires kept { twins.now.layout.horizon ≤ snap }
    requires known { snap ≤ twins.now.layout.newest }
{
    let all = whole();
    let done = compare_halves(alloc, twins, index, snap, &all, tally);
    drop(all);
    done?;
    compare_some(alloc, twins, index, snap, 50, 99, tally)?;
    compare_some(alloc, twins, index, snap, 7, 7, tally)
}

/// All tables and indexes at a snapshot.
pub fn compare_snapshot(
    alloc: Global,
    twins: &Twins,
    snap: u64,
    tally: &mut Tally,
) -> Result<(), NoMemory>
    requires laid { AreLaid twins.now }
    requires kept { twins.now.layout.horizon ≤ snap }
    requires known { snap ≤ twins.now.layout.newest }
{
    'tables: for table in 0..twins.layout.tables {
        compare_table(alloc, twins, table, snap, tally)?;
    }
    'indexes: for index in 0..twins.layout.indexes {
        compare_index(alloc, twins, index, snap, tally)?;
    }
    tally.snapshots = tally.snapshots.saturating_add(1);
    Ok(())
}

/// All snapshots that are kept.
pub fn compare_snapshots(alloc: Global, twins: &Twins, tally: &mut Tally) -> Result<(), NoMemory>
    requires { AreLaid twins.now }
{
    'snaps: for snap in twins.layout.horizon..=twins.layout.newest {
        compare_snapshot(alloc, twins, snap, tally)?;
    }
    Ok(())
}

/// A row at the newest snapshot.
fn compare_row(
    alloc: Global,
    twins: &Twins,
    table: u32,
    row: RowNo,
    tally: &mut Tally,
) -> Result<(), NoMemory>
    requires laid { AreLaid twins.now }
    requires there { table < twins.now.layout.tables }
{
    let snap = twins.layout.newest;
    let ours = row_of(alloc, &twins.paged, twins.layout, table, snap, row)?;
    let theirs = row_of(alloc, &twins.plain, twins.layout, table, snap, row);
    let same = is_found(&ours, &theirs);
    drop(ours);
    drop(theirs);
    tally.fetches = tally.fetches.saturating_add(1);
    tally.note(same?, What::Row, table, snap);
    Ok(())
}

/// Whether the same was found.
fn is_found(
    ours: &Option<Record>,
    theirs: &Result<Option<Record>, NoMemory>,
) -> Result<bool, NoMemory> {
    match theirs {
        Ok(theirs) => Ok(*ours == *theirs),
        Err(fault) => Err(*fault),
    }
}

/// The rows that were changed, at the newest snapshot.
pub fn compare_changed(
    alloc: Global,
    twins: &Twins,
    changes: &[Change],
    tally: &mut Tally,
) -> Result<(), NoMemory>
    requires { AreLaid twins.now }
{
    'changes: for change in changes {
        if change.table < twins.layout.tables {
            compare_row(alloc, twins, change.table, change.row, tally)?;
        }
    }
    Ok(())
}
