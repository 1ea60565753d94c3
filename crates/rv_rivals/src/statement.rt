//! The rows that a statement writes: which they are, and their entries in a unique index.
ghost use Rattle.std.specs.Prelude.{◌≡◌, ◌≤◌, ℕ, List, None, Some, IfOk, OnOk, length};
ghost use Rattle.std.specs.List.{AllByRecursion};
ghost use Rattle.rv_value.specs.declared.record.Record.{Record as OneRecord};
ghost use Rattle.rv_rows.specs.declared.changes.Change.{Change as OneChange};
ghost use Rattle.rv_rows.specs.Changes.{Rise, has_change};
ghost use Rattle.rv_rows.specs.Rows.{Ascend};
ghost use Rattle.rv_reader.specs.Entries.{entries_of as entries_are, entry_at};
ghost use Rattle.rv_overlay.specs.Keeping.{with_some};
ghost use Rattle.rv_overlay.specs.Rows.{changed_row};
ghost use Rattle.rv_rivals.specs.Lookups.{AreEntries, entries_written, lower_row, other_than};
ghost use Rattle.rv_rivals.specs.Points.{lowest_with, point};

use crate::looking::{Sought, first_of, key_of};
use crate::rows::But;
use rv_blocks::Blocks;
use rv_overlay::fronts::span_of;
use rv_rows::{Change, Changes};
use rv_value::{IndexEntry, NoMemory, RowNo};
use std::alloc::Global;

/// The rows that a statement changes, without what it leaves of them.
pub fn rows_of(alloc: Global, new: &[Change]) -> Result<Changes, NoMemory>
    ensures { IfOk result (λ rows. (table : ℕ) (row : ℕ) → has_change table row rows ≡ has_change table row new.now) }
{
    let mut rows = Changes::new(alloc);
    'changes: for change in new {
        rows.put(Change {
            table: change.table,
            row: change.row,
            values: None,
        })?;
    }
    Ok(rows)
}

/// Puts the entry of what a change writes in its place, where it writes a row.
fn put_entry(
    alloc: Global,
    entries: &mut Blocks<IndexEntry>,
    columns: &[u32],
    change: &Change,
) -> Result<(), NoMemory>
    requires some { 1 ≤ length columns.now }
    requires few { length columns.now ≤ 4 }
    ensures { OnOk result (entries.new ≡ with_some (entry_at columns.now (changed_row (Some change.now) None)) entries.old) }
{
    match &change.values {
        None => {}
        Some(values) => {
            let key = key_of(alloc, values.as_slice(), columns)?;
            entries.put(IndexEntry {
                key,
                row: change.row,
            })?;
        }
    }
    Ok(())
}

/// The entries in an index of the rows that a statement writes.
pub fn entries_of(
    alloc: Global,
    columns: &[u32],
    new: &[Change],
) -> Result<Blocks<IndexEntry>, NoMemory>
    requires some { 1 ≤ length columns.now }
    requires few { length columns.now ≤ 4 }
    requires rise { Rise new.now }
    ensures { IfOk result (λ entries. (table : ℕ) → AllByRecursion (λ (c : OneChange). c.table ≡ table) new.now → entries ≡ entries_written columns.now table new.now) }
{
    let mut entries = Blocks::new(alloc);
    'changes: for change in new {
        put_entry(alloc, &mut entries, columns, change)?;
    }
    Ok(entries)
}

/// Of the rows that a statement writes the lowest other one that has the key of one of them. It takes logarithmic time: of
/// two entries with the key one at least is of another row.
pub fn other_with(
    entries: &Blocks<IndexEntry>,
    sought: &Sought,
    row: RowNo,
) -> Result<Option<RowNo>, NoMemory>
    requires are { AreEntries sought.now.key entries.now }
    requires range { sought.now.range ≡ point sought.now.key }
    ensures { IfOk result (λ found. (columns : List ℕ) (rows : List OneRecord) → Ascend rows → entries.now ≡ entries_are columns rows → length sought.now.key ≡ length columns → found ≡ lowest_with columns sought.now.key (other_than row.0) rows) }
{
    let span = span_of(entries, None, None, &sought.range);
    let run = entries.copy_run(span.at, span.count.min(2))?;
    Ok(first_of(run.as_slice(), &But { row }))
}

/// The lower of two rows.
pub fn lower_row(row: Option<RowNo>, other: Option<RowNo>) -> Option<RowNo>
    ensures { result ≡ lower_row row other }
{
    match (row, other) {
        (None, other) => other,
        (Some(row), None) => Some(row),
        (Some(row), Some(other)) => Some(if other.0 < row.0 { other } else { row }),
    }
}
