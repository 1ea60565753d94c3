//! Rows that are equal in an index that is to be made.
ghost use Rattle.std.specs.Prelude.{◌≡◌, ◌≤◌, ◌++◌, ◌∷◌, [], List, IfOk, false, find, filter, length};
ghost use Rattle.std.specs.List.{list_any};
ghost use Rattle.std.specs.Option.{option_map};
ghost use Rattle.rv_value.specs.declared.record.Record.{Record as OneRecord};
ghost use Rattle.rv_reader.specs.Entries.{entries_of};
ghost use Rattle.rv_reader.specs.Shown.{CanRead};
ghost use Rattle.rv_rows.specs.Rows.{Ascend};
ghost use Rattle.rv_model.specs.Rivals.{are_equal, equals_lower, first_equal};
ghost use Rattle.rv_rivals.specs.Lookups.{AreEntries, HaveRows, is_whole};
ghost use Rattle.rv_rivals.specs.Points.{has_entry};

use crate::looking::{has_null, key_of, point};
use rv_blocks::Blocks;
use rv_catalog::IndexDef;
use rv_judge::{Steps, Uncounted};
use rv_overlay::fronts::count_in;
use rv_reader::{Reader, Store};
use rv_restrict::Restriction;
use rv_txn::kept_rows;
use rv_value::{IndexEntry, Key, NoMemory, Record, RowNo};
use std::alloc::Global;

/// The lowest row at the last commit that equals a lower one in an index, where this is to be unique. It goes once through
/// the rows of the table.
pub fn first_equal<S: Store + Reader<Ledger = Uncounted>>(
    alloc: Global,
    store: &S,
    def: &IndexDef,
) -> Result<Option<RowNo>, NoMemory>
    requires read { CanRead (S.shown store.now) def.now.table (S.shown store.now).newest }
    requires some { 1 ≤ length def.now.columns }
    requires few { length def.now.columns ≤ 4 }
    ensures { IfOk result (λ row. row ≡ option_map (λ r. r.row) (first_equal def.now ((S.shown store.now).rows def.now.table (S.shown store.now).newest))) }
{
    if !def.unique {
        return Ok(None);
    }
    let last = store.last();
    let all = Restriction::from_groups(Vec::new(alloc));
    let mut steps = Steps::new(Uncounted);
    let rows = kept_rows(alloc, store, def.table, last, &all, &mut steps)?;
    equal_among(alloc, def.columns.as_slice(), rows.as_slice())
}

/// Whether one of some entries has a key.
fn has_entry(alloc: Global, entries: &Blocks<IndexEntry>, key: &Key) -> Result<bool, NoMemory>
    requires { AreEntries key.now entries.now }
    ensures { IfOk result (λ has. has ≡ has_entry key.now entries.now) }
{
    let range = point(alloc, key)?;
    Ok(count_in(entries, &range) != 0)
}

/// Whether a row equals an earlier one. Its entry is kept where it equals none and has no NULL.
fn meets(
    alloc: Global,
    seen: &mut Blocks<IndexEntry>,
    columns: &[u32],
    row: &Record,
) -> Result<bool, NoMemory>
    requires some { 1 ≤ length columns.now }
    requires few { length columns.now ≤ 4 }
    requires rows { HaveRows columns.now seen.old }
    ensures met { IfOk result (λ met. (rows : List OneRecord) → Ascend (rows ++ row.now ∷ []) → seen.old ≡ entries_of columns.now (filter (is_whole columns.now) rows) → met ≡ list_any (λ s. are_equal columns.now s row.now) rows) }
    ensures seen { IfOk result (λ met. (rows : List OneRecord) → Ascend (rows ++ row.now ∷ []) → seen.old ≡ entries_of columns.now (filter (is_whole columns.now) rows) → met ≡ false → seen.new ≡ entries_of columns.now (filter (is_whole columns.now) (rows ++ row.now ∷ []))) }
{
    let key = key_of(alloc, row.values.as_slice(), columns)?;
    if has_null(&key) {
        drop(key);
        return Ok(false);
    }
    if has_entry(alloc, seen, &key)? {
        drop(key);
        return Ok(true);
    }
    seen.put(IndexEntry { key, row: row.row })?;
    Ok(false)
}

/// The first of rows whose key, without NULL, an earlier one has.
fn equal_among(alloc: Global, columns: &[u32], rows: &[Record]) -> Result<Option<RowNo>, NoMemory>
    requires ascend { Ascend rows.now }
    requires some { 1 ≤ length columns.now }
    requires few { length columns.now ≤ 4 }
    ensures { IfOk result (λ row. row ≡ option_map (λ r. r.row) (find (equals_lower columns.now rows.now) rows.now)) }
{
    let mut seen = Blocks::new(alloc);
    'rows: for row in rows {
        if meets(alloc, &mut seen, columns, row)? {
            return Ok(Some(row.row));
        }
    }
    Ok(None)
}
