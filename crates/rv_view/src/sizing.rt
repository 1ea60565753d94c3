//! How large each changed table is: its rows, and how far its pages reach.
ghost use Rattle.std.specs.Prelude.{◌≡◌, ◌≤◌, ◌<◌, ◌-◌, ◌^◌, List, nat_le, IfSome, OnOk};
ghost use Rattle.std.specs.Option.{option_copied};
ghost use Rattle.rv_rows.specs.declared.changes.Change.{Change as OneChange};
ghost use Rattle.rv_rows.specs.Changes.{Rise};
ghost use Rattle.rv_rows.specs.Rising.{put_in};
ghost use Rattle.rv_overlay.specs.Overlaid.{size_of};
ghost use Rattle.rv_view.specs.Making.{by_table, last_of, one_if, pages_or, pages_up, rows_or, size_after, written_after};

use rv_blocks::{Blocks, Front};
use rv_overlay::{TableSize, size_of};
use rv_reader::Sizes;
use rv_rows::Change;
use rv_value::{NoMemory, Record};

/// Which rows are written, brought up to date with a change.
pub fn keep_written(written: &mut Blocks<Change>, change: &Change) -> Result<(), NoMemory>
    ensures { OnOk result (written.new ≡ written_after change.now written.old) }
{
    if change.values.is_some() {
        drop(written.put(Change {
            table: change.table,
            row: change.row,
            values: None,
        })?);
    } else {
        drop(written.take_out(change)?);
    }
    Ok(())
}

/// Of the changes of a table and of those before it.
#[derive(Clone, Copy)]
struct UpToTable {
    table: u32,
}

impl Front<Change> for UpToTable {
    ghost passes = { λ s c. nat_le c.table s.table };

    fn passes(&self, change: &Change) -> bool {
        change.table <= self.table
    }
}

/// The last row of a table that is written, where one is. It takes logarithmic time.
fn last_of(written: &Blocks<Change>, table: u32) -> Option<&Change>
    requires { Rise written.now }
    ensures { option_copied result ≡ last_of table written.now }
{
    let rank = written.count(&UpToTable { table });
    if rank == 0 {
        return None;
    }
    let last = written.get(rank - 1);
    if last.table == table {
        Some(last)
    } else {
        None
    }
}

fn pages_up(last: Option<&Change>, pages: u32) -> u32
    requires { IfSome (option_copied last) (λ c. c.row.0 < 4294967296) }
    ensures { result ≡ pages_up (option_copied last.entry) pages }
{
    match last {
        None => pages,
        Some(change) => pages.max((change.row.0 / 32 + 1) as u32),
    }
}

fn rows_or(rows: u64, size: Option<&TableSize>) -> u64
    ensures { result ≡ rows_or rows (option_copied size.entry) }
{
    match size {
        None => rows,
        Some(size) => size.rows,
    }
}

fn pages_or(pages: u32, size: Option<&TableSize>) -> u32
    ensures { result ≡ pages_or pages (option_copied size.entry) }
{
    match size {
        None => pages,
        Some(size) => size.pages,
    }
}

/// How far the pages of a table reach after a change, where they reached so far before it: up to a row that is given values,
/// and as before where a row below the last page is taken away. Only where one of the last page is taken away the last row
/// that is written is looked for.
fn pages_then(before: u32, pages: u32, written: &Blocks<Change>, change: &Change) -> u32
    requires rise { Rise written.now }
    requires row { change.now.row.0 < 4294967296 }
    requires low { IfSome (last_of change.now.table written.now) (λ c. c.row.0 < 4294967296) }
    ensures { (earlier : List OneChange) → Rise earlier → written.now ≡ written_after change.now earlier → before ≡ pages_up (last_of change.now.table earlier) pages → result ≡ pages_up (last_of change.now.table written.now) pages }
{
    let up = (change.row.0 / 32 + 1) as u32;
    if change.values.is_some() {
        return before.max(up);
    }
    if up < before {
        return before;
    }
    pages_up(last_of(written, change.table), pages)
}

/// The size of a changed table, brought up to date: its rows are one more or fewer, and its pages reach up to the last
/// row that is written. `written` has the change already.
pub fn keep_size(
    sizes: &mut Blocks<TableSize>,
    written: &Blocks<Change>,
    change: &Change,
    base: Sizes,
    old: Option<&Record>,
    new: Option<&Record>,
) -> Result<(), NoMemory>
    requires rise { Rise written.now }
    requires row { change.now.row.0 < 4294967296 }
    requires low { IfSome (last_of change.now.table written.now) (λ c. c.row.0 < 4294967296) }
    requires rows { one_if (option_copied old) ≤ rows_or base.rows (size_of change.now.table sizes.old) }
    requires few { rows_or base.rows (size_of change.now.table sizes.old) < 2 ^ 64 - 1 }
    ensures { OnOk result ((earlier : List OneChange) → Rise earlier → written.now ≡ written_after change.now earlier → pages_or base.pages (size_of change.now.table sizes.old) ≡ pages_up (last_of change.now.table earlier) base.pages → sizes.new ≡ put_in by_table (size_after change.now.table base.rows base.pages (option_copied old.entry) (option_copied new.entry) written.now sizes.old) sizes.old) }
{
    let table = change.table;
    let rows = rows_or(base.rows, size_of(sizes, table));
    let before = pages_or(base.pages, size_of(sizes, table));
    let pages = pages_then(before, base.pages, written, change);
    let more = u64::from(new.is_some());
    let fewer = u64::from(old.is_some());
    drop(sizes.put(TableSize {
        table,
        pages,
        rows: rows + more - fewer,
    })?);
    Ok(())
}
