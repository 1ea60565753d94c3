//! UPDATE and DELETE: the rows that they change, and the changes that they make.
ghost use Rattle.std.specs.Prelude.{◌≡◌, ◌++◌, ◌∷◌, [], IfOk, IfSome, OnOk, List, filter, length, map, nat_lt, not, slice_set, true, ◌≤◌};
ghost use Rattle.std.specs.List.{AllByRecursion};
ghost use Rattle.std.specs.Option.{option_copied};
ghost use Rattle.rv_rows.specs.Rows.{Ascend};
ghost use Rattle.rv_rows.specs.Changes.{change_at, has_change, rows_with_changes};
ghost use Rattle.rv_rows.specs.Merging.{Passes};
ghost use Rattle.rv_restrict.specs.Bind.{passes_home};
ghost use Rattle.rv_restrict.specs.Truth.{names_only, qualifies};
ghost use Rattle.rv_catalog.specs.Fits.{is_column};
ghost use Rattle.rv_reader.specs.Shown.{CanRead};
ghost use Rattle.rv_judge.specs.Counting.{page_read};
ghost use Rattle.rv_reader.specs.Tables.{page_of};
ghost use Rattle.rv_model.specs.Transactions.{change_of, changed_with, met, new_values, seen, with_sets};
ghost use Rattle.rv_txn.specs.Changing.{CanChange, HasColumns, HaveColumns, LeavesColumns, OnlyPages, kept_change, kept_values};

use rv_judge::Steps;
use rv_model::Transaction;
use rv_reader::Store;
use rv_restrict::{Restriction, Tri};
use rv_rows::{Change, Changes, RowKey, add_rows, put_row};
use rv_value::{Duplicate, NoMemory, Record, Value, Values, copy_slice};
use std::alloc::Global;

/// Whether WHERE keeps a row.
fn keeps(only: &Restriction, values: &Values) -> bool
    requires { HasColumns only.now values.now }
    ensures { result ≡ qualifies only.now values.now }
{
    only.truth(values) == Tri::True
}

/// Puts the rows of a page that WHERE keeps behind others.
fn add_kept(kept: &mut Vec<Record>, page: Vec<Record>, only: &Restriction) -> Result<(), NoMemory>
    requires { HaveColumns only.now page.items }
    ensures { OnOk result (kept.new.items ≡ kept.old.items ++ filter (λ r. qualifies only.now r.values) page.items) }
{
    'page: for row in page {
        if keeps(only, &row.values) {
            kept.push(row)?;
        }
    }
    Ok(())
}

/// Puts a copy of a row behind others where WHERE keeps it.
fn add_copy(
    alloc: Global,
    kept: &mut Vec<Record>,
    row: &Record,
    only: &Restriction,
) -> Result<(), NoMemory>
    requires { HasColumns only.now row.now.values }
    ensures { OnOk result (kept.new.items ≡ kept.old.items ++ filter (λ r. qualifies only.now r.values) (row.now ∷ [])) }
{
    if keeps(only, &row.values) {
        kept.push(row.copy(alloc)?)?;
    }
    Ok(())
}

/// Puts copies of the rows of a lent page that WHERE keeps behind others; no other row is copied.
fn add_copies(
    alloc: Global,
    kept: &mut Vec<Record>,
    page: &[Record],
    only: &Restriction,
) -> Result<(), NoMemory>
    requires { HaveColumns only.now page.now }
    ensures { OnOk result (kept.new.items ≡ kept.old.items ++ filter (λ r. qualifies only.now r.values) page.now) }
{
    match page {
        [] => Ok(()),
        [row, more @ ..] => {
            add_copy(alloc, kept, row, only)?;
            add_copies(alloc, kept, more, only)
        }
    }
}

/// Puts the rows of a page of a table that WHERE keeps behind others. It reads that page, whether the store lends it or not.
fn add_page<S: Store>(
    alloc: Global,
    kept: &mut Vec<Record>,
    store: &S,
    table: u32,
    snap: u64,
    n: u32,
    only: &Restriction,
    steps: &mut Steps<S::Ledger>,
) -> Result<(), NoMemory>
    requires can { CanRead (S.shown store.now) table snap }
    requires columns { HaveColumns only.now (page_of ((S.shown store.now).rows table snap) n) }
    ensures added { OnOk result (kept.new.items ≡ kept.old.items ++ filter (λ r. qualifies only.now r.values) (page_of ((S.shown store.now).rows table snap) n)) }
    ensures counted { steps.new ≡ page_read steps.old }
{
    match store.lent(table, snap, n, steps) {
        Some(page) => add_copies(alloc, kept, page, only),
        None => {
            let page = store.page(alloc, table, snap, n, steps)?;
            add_kept(kept, page, only)
        }
    }
}

/// The rows of a table at a snapshot that WHERE keeps, page by page: each is read once at most, and nothing else is read.
pub fn kept_rows<S: Store>(
    alloc: Global,
    store: &S,
    table: u32,
    snap: u64,
    only: &Restriction,
    steps: &mut Steps<S::Ledger>,
) -> Result<Vec<Record>, NoMemory>
    requires can { CanRead (S.shown store.now) table snap }
    requires over { names_only (passes_home (is_column ((S.shown store.now).columns table))) only.now ≡ true }
    ensures kept { IfOk result (λ kept. kept.items ≡ filter (λ r. qualifies only.now r.values) ((S.shown store.now).rows table snap)) }
    ensures ascend { OnOk result (Ascend ((S.shown store.now).rows table snap)) }
    ensures only { OnlyPages ((S.shown store.now).pages table snap) steps.old steps.new }
{
    // What a store tells with its newest commit holds of all its rows.
    let _newest = store.last();
    let sizes = store.sizes(table, snap);
    let mut kept = Vec::new(alloc);
    'pages: for n in 0..sizes.pages {
        add_page(alloc, &mut kept, store, table, snap, n, only, steps)?;
    }
    Ok(kept)
}

/// New values that WHERE keeps.
fn kept_values<'a>(only: &Restriction, values: &'a Option<Values>) -> Option<&'a Values>
    requires { IfSome values.now (HasColumns only.now) }
    ensures { option_copied result ≡ kept_values only.now values.now }
{
    match values {
        None => None,
        Some(values) => {
            if keeps(only, values) {
                Some(values)
            } else {
                None
            }
        }
    }
}

/// Puts the rows below a changed one, and what the change leaves where WHERE keeps it, behind others; the rows above it
/// are left. A change of another table is passed over.
fn lay_one<'a>(
    alloc: Global,
    all: &mut Vec<Record>,
    rows: &'a [Record],
    table: u32,
    key: &RowKey,
    values: &Option<Values>,
    only: &Restriction,
) -> Result<&'a [Record], NoMemory>
    requires ascend { Ascend rows.now }
    requires columns { LeavesColumns table only.now (change_at (key.now, values.now)) }
    ensures ascend { IfOk result (λ rest. Ascend rest.now) }
    ensures passes { IfOk result (λ rest. Passes table (kept_change only.now (change_at (key.now, values.now))) all.old.items rows.now all.new.items rest.now) }
{
    if key.table != table {
        return Ok(rows);
    }
    let rest = put_row(alloc, all, rows, key.row, kept_values(only, values))?;
    Ok(rest)
}

/// The rows with a transaction's changes laid over them where WHERE keeps what these leave. Of its changes those of the
/// table are passed over, and no other.
fn lay_over(
    alloc: Global,
    rows: &[Record],
    changes: &Changes,
    table: u32,
    only: &Restriction,
) -> Result<Vec<Record>, NoMemory>
    requires ascend { Ascend rows.now }
    requires columns { AllByRecursion (LeavesColumns table only.now) changes.now }
    ensures { IfOk result (λ all. all.items ≡ rows_with_changes table (map (kept_change only.now) changes.now) rows.now) }
{
    let mut all = Vec::new(alloc);
    let mut rest = rows;
    let (listed, mapped) = changes.parts_from(table);
    'list: for change in listed {
        if change.table != table {
            add_rows(alloc, &mut all, rest)?;
            return Ok(all);
        }
        let key = RowKey {
            table: change.table,
            row: change.row,
        };
        rest = lay_one(alloc, &mut all, rest, table, &key, &change.values, only)?;
    }
    'changes: for (key, values) in mapped {
        if key.table != table {
            add_rows(alloc, &mut all, rest)?;
            return Ok(all);
        }
        rest = lay_one(alloc, &mut all, rest, table, key, values, only)?;
    }
    add_rows(alloc, &mut all, rest)?;
    Ok(all)
}

/// The rows of a transaction's view that WHERE keeps. It reads each page of the table once at most, and nothing else.
pub fn met_rows<S: Store>(
    alloc: Global,
    transaction: &Transaction,
    store: &S,
    table: u32,
    only: &Restriction,
    steps: &mut Steps<S::Ledger>,
) -> Result<Vec<Record>, NoMemory>
    requires { CanChange (S.shown store.now) transaction.now table only.now }
    ensures met { IfOk result (λ rows. rows.items ≡ met transaction.now table only.now ((S.shown store.now).rows table)) }
    ensures only { OnlyPages ((S.shown store.now).pages table transaction.now.base) steps.old steps.new }
{
    let kept = kept_rows(alloc, store, table, transaction.base, only, steps)?;
    let rows = lay_over(alloc, kept.as_slice(), &transaction.changes, table, only)?;
    Ok(rows)
}

/// The rows of a table in a transaction's view. It reads each page of the table once at most, and nothing else.
pub fn viewed_rows<S: Store>(
    alloc: Global,
    transaction: &Transaction,
    store: &S,
    table: u32,
    steps: &mut Steps<S::Ledger>,
) -> Result<Vec<Record>, NoMemory>
    requires { CanRead (S.shown store.now) table transaction.now.base }
    ensures seen { IfOk result (λ rows. rows.items ≡ seen transaction.now table ((S.shown store.now).rows table)) }
    ensures only { OnlyPages ((S.shown store.now).pages table transaction.now.base) steps.old steps.new }
{
    let all = Restriction::from_groups(Vec::new(alloc));
    let kept = kept_rows(alloc, store, table, transaction.base, &all, steps)?;
    let rows = lay_over(alloc, kept.as_slice(), &transaction.changes, table, &all)?;
    Ok(rows)
}

/// How many rows are not changed yet.
#[tactic(auto, using(rv_value::proofs::Lists::filter_length))]
fn count_new(changes: &Changes, table: u32, rows: &[Record]) -> usize
    ensures same { result ≡ length (filter (λ r. not (has_change table r.row.0 changes.now)) rows.now) }
    ensures few { result ≤ length rows.now }
{
    rows.iter()
        .filter(|row| !changes.has(table, row.row))
        .count()
}

/// Whether more than 100,000 rows are changed, with further rows of a table.
pub fn is_full(changes: &Changes, table: u32, rows: &[Record]) -> bool
    ensures { result ≡ nat_lt 100000 (changed_with changes.now table rows.now) }
{
    let _most = rows.len();
    changes.len() + count_new(changes, table, rows) > 100_000
}

fn set_column(values: &mut Vec<Value>, column: u32, value: Value)
    ensures { values.new.items ≡ slice_set values.old.items column value }
{
    let place = column as usize;
    if place < values.len() {
        values[place] = value;
    }
}

/// Copies of values with some columns set.
fn with_sets(alloc: Global, sets: &[(u32, Value)], values: &Values) -> Result<Values, NoMemory>
    ensures { IfOk result (λ new. new ≡ with_sets sets.now values.now) }
{
    let mut new = copy_slice(alloc, values.as_slice())?;
    'sets: for (column, value) in sets {
        set_column(&mut new, *column, value.copy(alloc)?);
    }
    Values::of(alloc, new)
}

/// What UPDATE leaves of a row, or DELETE.
fn new_values(
    alloc: Global,
    sets: Option<&[(u32, Value)]>,
    values: &Values,
) -> Result<Option<Values>, NoMemory>
    ensures { IfOk result (λ new. new ≡ new_values (option_copied sets.entry) values.now) }
{
    match sets {
        None => Ok(None),
        Some(sets) => Ok(Some(with_sets(alloc, sets, values)?)),
    }
}

fn change_of(
    alloc: Global,
    table: u32,
    sets: Option<&[(u32, Value)]>,
    row: &Record,
) -> Result<Change, NoMemory>
    ensures { IfOk result (λ change. change ≡ change_of table (option_copied sets.entry) row.now) }
{
    Ok(Change {
        table,
        row: row.row,
        values: new_values(alloc, sets, &row.values)?,
    })
}

/// The changes of rows.
pub fn changes_of(
    alloc: Global,
    table: u32,
    sets: Option<&[(u32, Value)]>,
    rows: &[Record],
) -> Result<Vec<Change>, NoMemory>
    ensures { IfOk result (λ changes. changes.items ≡ map (change_of table (option_copied sets.entry)) rows.now) }
{
    let mut changes = Vec::with_capacity(alloc, rows.len())?;
    'rows: for row in rows {
        changes.push(change_of(alloc, table, sets, row)?)?;
    }
    Ok(changes)
}
