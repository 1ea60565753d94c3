//! The entries of rows in an index, and its cuts.
ghost use Rattle.std.specs.Prelude.{◌≡◌, ◌≤◌, length, map, IfOk};
ghost use Rattle.std.specs.Option.{option_copied};
ghost use Rattle.rv_reader.specs.Entries.{column_of, entry_at, entry_of};
ghost use Rattle.rv_reader.specs.Halves.{is_before};
ghost use Rattle.rv_reader.specs.Leaves.{is_passed, within};

use rv_value::{
    Duplicate, IndexEntry, Key, NoMemory, Range, Record, RowNo, Side, Value, cmp_entry,
};
use std::alloc::Global;
use std::cmp::Ordering;

/// The value of a column, NULL where there is none.
fn column_value(alloc: Global, values: &[Value], column: u32) -> Result<Value, NoMemory>
    ensures { IfOk result (λ value. value ≡ column_of values.now column) }
{
    match values.get(column as usize) {
        Some(value) => value.copy(alloc),
        None => Ok(Value::Null),
    }
}

fn key_values(alloc: Global, values: &[Value], columns: &[u32]) -> Result<Vec<Value>, NoMemory>
    ensures { IfOk result (λ key. key.items ≡ map (column_of values.now) columns.now) }
{
    let mut key = Vec::with_capacity(alloc, columns.len())?;
    'columns: for column in columns {
        key.push(column_value(alloc, values, *column)?)?;
    }
    Ok(key)
}

/// The key that a row of these values has in an index of these columns, one to four, numbered from 0: a copy of each
/// column's value, in the order of the columns.
pub fn key_of(alloc: Global, values: &[Value], columns: &[u32]) -> Result<Key, NoMemory>
    requires some { 1 ≤ length columns.now }
    requires few { length columns.now ≤ 4 }
    ensures { IfOk result (λ key. key ≡ map (column_of values.now) columns.now) }
{
    if let [column] = columns {
        return Ok(Key::one(column_value(alloc, values, *column)?));
    }
    let key = key_values(alloc, values, columns)?;
    Key::of(alloc, key)
}

/// The entry of a row of these values in an index of these columns, one to four.
pub fn row_entry(
    alloc: Global,
    row: RowNo,
    values: &[Value],
    columns: &[u32],
) -> Result<IndexEntry, NoMemory>
    requires some { 1 ≤ length columns.now }
    requires few { length columns.now ≤ 4 }
    ensures { IfOk result (λ entry. entry ≡ entry_of columns.now (record { row = row; values = values.now })) }
{
    let key = key_of(alloc, values, columns)?;
    Ok(IndexEntry { key, row })
}

/// The entry of a row in an index of these columns, where there is a row.
pub fn entry_at(
    alloc: Global,
    row: Option<&Record>,
    columns: &[u32],
) -> Result<Option<IndexEntry>, NoMemory>
    requires some { 1 ≤ length columns.now }
    requires few { length columns.now ≤ 4 }
    ensures { IfOk result (λ entry. entry ≡ entry_at columns.now (option_copied row.entry)) }
{
    let Some(row) = row else {
        return Ok(None);
    };
    let entry = row_entry(alloc, row.row, row.values.as_slice(), columns)?;
    Ok(Some(entry))
}

/// Whether an entry is before a range. The range's high bound is not looked at.
#[tactic(auto, using(crate::proofs::Sides::under_before))]
pub fn is_before(entry: &IndexEntry, range: &Range) -> bool
    ensures { result ≡ is_before range.now entry.now }
{
    range.is_after(&entry.key)
}

/// Whether a cut is not behind the leaf in which a reading of a range begins, from an entry or from the range's front.
pub fn is_passed(from: Option<&IndexEntry>, range: &Range, cut: &IndexEntry) -> bool
    ensures { result ≡ is_passed (option_copied from.entry) range.now cut.now }
{
    match from {
        None => is_before(cut, range),
        Some(start) => cmp_entry(start, cut) != Ordering::Less,
    }
}

/// A copy of the following cut, none where its key is after the range.
pub fn cut_within(
    alloc: Global,
    cut: Option<&IndexEntry>,
    range: &Range,
) -> Result<Option<IndexEntry>, NoMemory>
    ensures { IfOk result (λ next. next ≡ within range.now (option_copied cut.entry)) }
{
    match cut {
        None => Ok(None),
        Some(cut) => {
            if range.place(&cut.key) == Side::After {
                Ok(None)
            } else {
                Ok(Some(cut.copy(alloc)?))
            }
        }
    }
}
