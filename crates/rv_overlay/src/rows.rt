//! What is read of a table with a transaction's changes laid over it.
ghost use Rattle.std.specs.Prelude.{◌≡◌, IfOk, length};
ghost use Rattle.std.specs.Option.{option_copied};
ghost use Rattle.rv_judge.specs.Counting.{page_read, record_read};
ghost use Rattle.rv_rows.specs.Changes.{Rise, rows_with_changes};
ghost use Rattle.rv_rows.specs.Rows.{Ascend};
ghost use Rattle.rv_reader.specs.Shown.{CanRead};
ghost use Rattle.rv_reader.specs.Storing.{pages_after};
ghost use Rattle.rv_reader.specs.Tables.{IsTable, page_of, row_at};
ghost use Rattle.rv_overlay.specs.Overlaid.{LaysTable, size_of};
ghost use Rattle.rv_overlay.specs.Rows.{PassesOn, change_of, changed_row, on_page};

use crate::fronts::page_changes;
use crate::frozen::{Frozen, TableSize};
use rv_blocks::Blocks;
use rv_judge::Steps;
use rv_reader::{Reader, Sizes};
use rv_rows::{Change, add_rows, put_row};
use rv_value::{Duplicate, NoMemory, Record, RowNo};
use std::alloc::Global;

/// The change of a row, where there is one.
pub fn change_of(changes: &Blocks<Change>, table: u32, row: RowNo) -> Option<&Change>
    ensures { option_copied result ≡ change_of table row.0 changes.now }
{
    let like = Change {
        table,
        row,
        values: None,
    };
    changes.find(&like)
}

/// What a change leaves of a row, where there is a change; else the row.
fn row_left(
    alloc: Global,
    change: Option<&Change>,
    found: Option<Record>,
) -> Result<Option<Record>, NoMemory>
    ensures { IfOk result (λ row. row ≡ changed_row (option_copied change.entry) found) }
{
    let Some(change) = change else {
        return Ok(found);
    };
    match &change.values {
        None => Ok(None),
        Some(values) => Ok(Some(Record {
            row: change.row,
            values: values.copy(alloc)?,
        })),
    }
}

/// The row of a number in the view.
pub fn fetch_over<R: Reader>(
    reader: &R,
    frozen: &Frozen,
    alloc: Global,
    table: u32,
    snap: u64,
    row: RowNo,
    steps: &mut Steps<R::Ledger>,
) -> Result<Option<Record>, NoMemory>
    requires can { CanRead (R.shown reader.now) table snap }
    requires rise { Rise frozen.now.changes }
    ensures row { IfOk result (λ found. found ≡ row_at (rows_with_changes table frozen.now.changes ((R.shown reader.now).rows table snap)) row.0) }
    ensures counted { steps.new ≡ record_read steps.old }
{
    let found = reader.fetch(alloc, table, snap, row, steps)?;
    let change = change_of(&frozen.changes, table, row);
    let row = row_left(alloc, change, found)?;
    Ok(row)
}

/// Lays a change over the rows that are left, where it is of the table and of a row of the page.
fn lay_one<'a>(
    alloc: Global,
    all: &mut Vec<Record>,
    rows: &'a [Record],
    change: &Change,
    table: u32,
    n: u32,
) -> Result<&'a [Record], NoMemory>
    requires ascend { Ascend rows.now }
    ensures ascend { IfOk result (λ rest. Ascend rest.now) }
    ensures passes { IfOk result (λ rest. PassesOn table n change.now all.old.items rows.now all.new.items rest.now) }
{
    if change.table != table {
        return Ok(rows);
    }
    if change.row.0 / 32 != u64::from(n) {
        return Ok(rows);
    }
    let rest = put_row(alloc, all, rows, change.row, change.values.as_ref())?;
    Ok(rest)
}

/// The rows of a page of the view.
fn lay_page(
    alloc: Global,
    page: &[Record],
    changes: &[Change],
    table: u32,
    n: u32,
) -> Result<Vec<Record>, NoMemory>
    requires ascend { Ascend page.now }
    requires rise { Rise changes.now }
    ensures { IfOk result (λ all. all.items ≡ rows_with_changes table (on_page n changes.now) page.now) }
{
    let mut all = Vec::new(alloc);
    let mut rest = page;
    'changes: for change in changes {
        rest = lay_one(alloc, &mut all, rest, change, table, n)?;
    }
    add_rows(alloc, &mut all, rest)?;
    Ok(all)
}

/// The rows of a page of the view, as they were read where no row of the page is changed.
#[tactic(auto, using(crate::proofs::Tabling::none_laid))]
fn lay_changes(
    alloc: Global,
    page: Vec<Record>,
    changes: &[Change],
    table: u32,
    n: u32,
) -> Result<Vec<Record>, NoMemory>
    requires ascend { Ascend page.items }
    requires rise { Rise changes.now }
    ensures { IfOk result (λ all. all.items ≡ rows_with_changes table (on_page n changes.now) page.items) }
{
    if changes.is_empty() {
        return Ok(page);
    }
    let rows = lay_page(alloc, page.as_slice(), changes, table, n)?;
    Ok(rows)
}

/// The rows of a page in the view.
pub fn page_over<R: Reader>(
    reader: &R,
    frozen: &Frozen,
    alloc: Global,
    table: u32,
    snap: u64,
    n: u32,
    steps: &mut Steps<R::Ledger>,
) -> Result<Vec<Record>, NoMemory>
    requires can { CanRead (R.shown reader.now) table snap }
    requires rise { Rise frozen.now.changes }
    requires ascend { Ascend ((R.shown reader.now).rows table snap) }
    ensures rows { IfOk result (λ page. page.items ≡ page_of (rows_with_changes table frozen.now.changes ((R.shown reader.now).rows table snap)) n) }
    ensures counted { steps.new ≡ page_read steps.old }
{
    let page = reader.page(alloc, table, snap, n, steps)?;
    let changes = page_changes(&frozen.changes, table, n)?;
    let rows = lay_changes(alloc, page, changes.as_slice(), table, n)?;
    Ok(rows)
}

/// What is kept of how large a table is, where it is changed.
pub fn size_of(sizes: &Blocks<TableSize>, table: u32) -> Option<&TableSize>
    ensures { option_copied result ≡ size_of table sizes.now }
{
    sizes.find(&TableSize {
        table,
        pages: 0,
        rows: 0,
    })
}

/// How large a table is in the view: what was kept where it is changed, else what the reader tells.
pub fn sizes_over<R: Reader>(reader: &R, frozen: &Frozen, table: u32, snap: u64) -> Sizes
    requires can { CanRead (R.shown reader.now) table snap }
    requires lays { LaysTable ((R.shown reader.now).rows table snap) ((R.shown reader.now).pages table snap) table frozen.now }
    ensures pages { result.pages ≡ pages_after table frozen.now.changes ((R.shown reader.now).pages table snap) }
    ensures rows { result.rows ≡ length (rows_with_changes table frozen.now.changes ((R.shown reader.now).rows table snap)) }
    ensures table { IsTable (rows_with_changes table frozen.now.changes ((R.shown reader.now).rows table snap)) (pages_after table frozen.now.changes ((R.shown reader.now).pages table snap)) }
{
    match size_of(&frozen.sizes, table) {
        None => reader.sizes(table, snap),
        Some(size) => Sizes {
            pages: size.pages,
            rows: size.rows,
        },
    }
}
