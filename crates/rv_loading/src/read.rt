ghost use Rattle.std.specs.Prelude.{◌≡◌, ◌<◌, ◌≤◌, IfOk, length};
ghost use Rattle.std.specs.List.{flat_map};
ghost use Rattle.std.specs.Option.{option_copied};
ghost use Rattle.rv_reader.specs.Leaves.{run_from};
ghost use Rattle.rv_reader.specs.Tables.{row_at};
ghost use Rattle.rv_loading.specs.Laid.{Counted, IsNarrow};

use crate::schema::Layout;
use rv_judge::{Steps, Uncounted};
use rv_reader::{Estimate, Reader, Sizes, Store};
use rv_value::{IndexEntry, Items, NoMemory, Range, Record, RowNo};
use std::alloc::Global;

/// The number of pages and of rows of a table at a snapshot.
pub fn sizes_of<S: Store>(store: &S, layout: Layout, table: u32, snap: u64) -> Sizes
    requires laid { Counted layout (S.shown store.now) }
    requires there { table < layout.tables }
    requires kept { layout.horizon ≤ snap }
    requires known { snap ≤ layout.newest }
    ensures pages { result.pages ≡ (S.shown store.now).pages table snap }
    ensures rows { result.rows ≡ length ((S.shown store.now).rows table snap) }
{
    store.sizes(table, snap)
}

/// All rows of a table at a snapshot, read page by page.
pub fn rows_of<S: Store + Reader<Ledger = Uncounted>>(
    alloc: Global,
    store: &S,
    layout: Layout,
    table: u32,
    snap: u64,
) -> Result<Vec<Record>, NoMemory>
    requires laid { Counted layout (S.shown store.now) }
    requires there { table < layout.tables }
    requires kept { layout.horizon ≤ snap }
    requires known { snap ≤ layout.newest }
    ensures { IfOk result (λ rows. rows.items ≡ (S.shown store.now).rows table snap) }
{
    let mut steps = Steps::new(Uncounted);
    let mut rows = Vec::new(alloc);
    let sizes = store.sizes(table, snap);
    'pages: for n in 0..sizes.pages {
        let mut page = store.page(alloc, table, snap, n, &mut steps)?;
        rows.append(&mut page)?;
    }
    Ok(rows)
}

/// The row of a number at a snapshot, where there is one.
pub fn row_of<S: Store + Reader<Ledger = Uncounted>>(
    alloc: Global,
    store: &S,
    layout: Layout,
    table: u32,
    snap: u64,
    row: RowNo,
) -> Result<Option<Record>, NoMemory>
    requires laid { Counted layout (S.shown store.now) }
    requires there { table < layout.tables }
    requires kept { layout.horizon ≤ snap }
    requires known { snap ≤ layout.newest }
    ensures { IfOk result (λ found. found ≡ row_at ((S.shown store.now).rows table snap) row.0) }
{
    let mut steps = Steps::new(Uncounted);
    store.fetch(alloc, table, snap, row, &mut steps)
}

/// The entries of an index in a range at a snapshot, those of each leaf by themselves, from an entry on or all.
pub fn leaves_of<S: Store + Reader<Ledger = Uncounted>>(
    alloc: Global,
    store: &S,
    layout: Layout,
    index: u32,
    snap: u64,
    from: Option<IndexEntry>,
    range: &Range,
) -> Result<Vec<Items<IndexEntry>>, NoMemory>
    requires laid { Counted layout (S.shown store.now) }
    requires there { index < layout.indexes }
    requires kept { layout.horizon ≤ snap }
    requires known { snap ≤ layout.newest }
    requires narrow { IsNarrow range.now }
    ensures { IfOk result (λ leaves. flat_map (λ leaf. leaf) leaves.items ≡ run_from ((S.shown store.now).entries index snap) range.now from) }
{
    let _last = store.last();
    let mut steps = Steps::new(Uncounted);
    let mut leaves = Vec::new(alloc);
    let mut from = from;
    'leaves: loop {
        let chunk = store.chunk(alloc, index, snap, from.as_ref(), range, &mut steps)?;
        leaves.push(chunk.entries)?;
        match chunk.next {
            Some(cut) => from = Some(cut),
            None => return Ok(leaves),
        }
    }
}

/// How many entries of an index are in a range at a snapshot, exactly or about.
pub fn estimate_of<S: Store>(
    store: &S,
    layout: Layout,
    index: u32,
    snap: u64,
    range: &Range,
) -> Estimate
    requires laid { Counted layout (S.shown store.now) }
    requires there { index < layout.indexes }
    requires kept { layout.horizon ≤ snap }
    requires known { snap ≤ layout.newest }
    requires narrow { IsNarrow range.now }
    ensures { result ≡ (S.shown store.now).estimates index snap range.now }
{
    let _last = store.last();
    store.estimate(index, snap, range)
}
