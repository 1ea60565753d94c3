//! The row numbers that were taken of each table, each with the commit that last wrote the row.
ghost use Rattle.std.specs.Prelude.{◌≡◌, ◌∷◌, ◌++◌, [], IfOk, OnOk, OnErr, slice_set};
ghost use Rattle.std.specs.List.{slice_index_or};
ghost use Rattle.rv_rows.specs.Changes.{with_change};
ghost use Rattle.rv_model.specs.Transactions.{empty_lists, next_row, touch_all, touched_by, touched_in, with_number};
ghost use Rattle.rv_txn.specs.Touched.{touch_at};

use rv_rows::{Change, Changes};
use rv_value::{Items, NoMemory, RowNo};
use std::alloc::Global;
use std::mem;

/// The row numbers of a table that were taken.
fn touched_in(touched: &Items<Items<u64>>, table: u32) -> &[u64]
    ensures { result.now ≡ touched_in touched.now table }
{
    match touched.as_slice().get(table as usize) {
        Some(rows) => rows.as_slice(),
        None => &[],
    }
}

/// The next row number of a table.
pub fn next_row(touched: &Items<Items<u64>>, table: u32) -> u64
    ensures { result ≡ next_row touched.now table }
{
    touched_in(touched, table).len() as u64
}

/// The commit that last wrote a row, 0 where none did.
pub fn touched_by(touched: &Items<Items<u64>>, table: u32, row: RowNo) -> u64
    ensures { result ≡ touched_by touched.now table row.0 }
{
    match touched_in(touched, table).get(row.0 as usize) {
        Some(commit) => *commit,
        None => 0,
    }
}

/// So many tables of which no row number was taken, and one of which the first was.
fn more_tables(alloc: Global, tables: usize) -> Result<Vec<Items<u64>>, NoMemory>
    ensures { IfOk result (λ more. more.items ≡ empty_lists tables ++ (0 ∷ []) ∷ []) }
{
    let mut more = Vec::new(alloc);
    'tables: for _table in 0..tables {
        more.push(Items::new(alloc))?;
    }
    let mut rows = Items::new(alloc);
    rows.push(0)?;
    more.push(rows)?;
    Ok(more)
}

/// Puts tables behind those that are there.
fn add_tables(
    alloc: Global,
    touched: &mut Items<Items<u64>>,
    more: Vec<Items<u64>>,
) -> Result<(), NoMemory>
    ensures ok { OnOk result (touched.new ≡ touched.old ++ more.items) }
    ensures err { OnErr result (touched.new ≡ touched.old) }
{
    let mut more = more;
    let mut all = mem::replace(touched, Items::new(alloc)).into_vec();
    let added = all.append(&mut more);
    *touched = Items::from_vec(all);
    added?;
    Ok(())
}

/// Takes the next row number of a table.
#[tactic(auto, using(rv_value::proofs::Places::put_back, rv_value::proofs::Places::read_as, std::proofs::Common::append_assoc))]
fn take_number(alloc: Global, touched: &mut Items<Items<u64>>, table: u32) -> Result<(), NoMemory>
    ensures ok { OnOk result (touched.new ≡ with_number touched.old table) }
    ensures err { OnErr result (touched.new ≡ touched.old) }
{
    let place = table as usize;
    if place < touched.len() {
        return touched.at_mut(place).push(0);
    }
    let more = more_tables(alloc, place - touched.len())?;
    add_tables(alloc, touched, more)
}

/// Puts a change of a row of the next number, which is then taken.
pub fn put_and_take(
    alloc: Global,
    changes: &mut Changes,
    change: Change,
    touched: &mut Items<Items<u64>>,
) -> Result<(), NoMemory>
    ensures changes { OnOk result (changes.new ≡ with_change change changes.old) }
    ensures touched { OnOk result (touched.new ≡ with_number touched.old change.table) }
    ensures err_changes { OnErr result (changes.new ≡ changes.old) }
    ensures err_touched { OnErr result (touched.new ≡ touched.old) }
{
    let table = change.table;
    let undo = changes.put(change)?;
    match take_number(alloc, touched, table) {
        Ok(()) => Ok(()),
        Err(NoMemory) => {
            changes.take_back(undo);
            Err(NoMemory)
        }
    }
}

/// Writes a commit at each changed row.
pub fn touch_all(touched: &mut Items<Items<u64>>, changes: &Changes, commit: u64)
    ensures { touched.new ≡ touch_all commit changes.now touched.old }
{
    let (listed, mapped) = changes.parts();
    'list: for change in listed {
        touch(touched, change.table, change.row, commit);
    }
    'changes: for (key, _values) in mapped {
        touch(touched, key.table, key.row, commit);
    }
}

/// Writes a commit at a row.
#[tactic(auto, using(rv_value::proofs::Places::put_back, rv_value::proofs::Places::read_as))]
fn touch(touched: &mut Items<Items<u64>>, table: u32, row: RowNo, commit: u64)
    ensures { touched.new ≡ touch_at commit table row.0 touched.old }
{
    let place = table as usize;
    if place < touched.len() {
        touch_row(touched.at_mut(place), row, commit);
    }
}

fn touch_row(rows: &mut Items<u64>, row: RowNo, commit: u64)
    ensures { rows.new ≡ slice_set rows.old row.0 commit }
{
    if row.0 < rows.len() as u64 {
        rows.put(row.0 as usize, commit);
    }
}
