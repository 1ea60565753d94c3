//! The lowest row with a key, found in an index.
ghost use Rattle.std.specs.Prelude.{◌≡◌, ◌≤◌, ℕ, List, [], Some, true, IfOk, length};
ghost use Rattle.std.specs.List.{list_any};
ghost use Rattle.rv_value.specs.declared.record.Record.{Record as OneRecord};
ghost use Rattle.rv_reader.specs.Entries.{run};
ghost use Rattle.rv_reader.specs.Shown.{CanScan, Suits};
ghost use Rattle.rv_model.specs.Rivals.{is_null, key_of};
ghost use Rattle.rv_view.specs.Sights.{LaysSome, laid_over};
ghost use Rattle.rv_rivals.specs.Lookups.{Tells};
ghost use Rattle.rv_rivals.specs.Points.{first_row, lowest_with, point};

use crate::rows::RowTest;
use rv_judge::{Steps, Uncounted};
use rv_reader::{Chunk, Reader, Store};
use rv_value::{Bound, Duplicate, IndexEntry, Key, NoMemory, Range, RowNo, Value};
use rv_view::{Seen, View};
use std::alloc::Global;

/// The key of values in an index of these columns, one to four.
pub fn key_of(alloc: Global, values: &[Value], columns: &[u32]) -> Result<Key, NoMemory>
    requires some { 1 ≤ length columns.now }
    requires few { length columns.now ≤ 4 }
    ensures { IfOk result (λ key. key ≡ key_of columns.now values.now) }
{
    rv_reader::key_of(alloc, values, columns)
}

fn is_null(value: &Value) -> bool
    ensures { result ≡ is_null value.now }
{
    matches!(value, Value::Null)
}

/// Whether some value of a key is NULL: a row with such a key is equal to none.
pub fn has_null(key: &Key) -> bool
    ensures { result ≡ list_any is_null key.now }
{
    key.as_slice().iter().any(is_null)
}

fn closed(alloc: Global, key: &Key) -> Result<Option<Bound>, NoMemory>
    ensures { IfOk result (λ bound. bound ≡ Some (record { key = key.now; closed = true })) }
{
    Ok(Some(Bound {
        key: key.copy(alloc)?,
        closed: true,
    }))
}

/// The range of one key.
pub fn point(alloc: Global, key: &Key) -> Result<Range, NoMemory>
    ensures { IfOk result (λ range. range ≡ point key.now) }
{
    let low = closed(alloc, key)?;
    match closed(alloc, key) {
        Ok(high) => Ok(Range {
            low,
            high,
            starts: false,
        }),
        Err(fault) => {
            drop(low);
            Err(fault)
        }
    }
}

/// A key that is looked for, and the range of the entries that have it: made once for all look-ups of a row.
#[derive(Drop)]
pub struct Sought {
    pub key: Key,
    pub range: Range,
}

impl Sought {
    /// A key with its range.
    pub fn new(alloc: Global, key: Key) -> Result<Sought, NoMemory>
        ensures key { IfOk result (λ sought. sought.key ≡ key) }
        ensures range { IfOk result (λ sought. sought.range ≡ point key) }
    {
        match point(alloc, &key) {
            Ok(range) => Ok(Sought { key, range }),
            Err(fault) => {
                drop(key);
                Err(fault)
            }
        }
    }
}

/// The first of entries whose row passes a test.
pub fn first_of<T: RowTest>(entries: &[IndexEntry], test: &T) -> Option<RowNo>
    ensures { result ≡ first_row (T.keeps test.now) entries.now }
{
    match entries.iter().find(|entry| test.keeps(entry.row)) {
        Some(entry) => Some(entry.row),
        None => None,
    }
}

/// The first entry of a range whose row passes a test, leaf by leaf.
fn first_in<R: Reader<Ledger = Uncounted>, T: RowTest>(
    alloc: Global,
    reader: &R,
    index: u32,
    snap: u64,
    range: &Range,
    test: &T,
) -> Result<Option<RowNo>, NoMemory>
    requires can { CanScan (R.shown reader.now) index snap }
    requires suits { Suits (R.shown reader.now) index snap range.now }
    ensures { IfOk result (λ row. row ≡ first_row (T.keeps test.now) (run ((R.shown reader.now).entries index snap) range.now)) }
{
    let mut steps = Steps::new(Uncounted);
    let mut from = None;
    'leaves: loop {
        let Chunk { entries, next } = reader.chunk(
            alloc,
            index,
            snap,
            from.as_ref(),
            range,
            &mut steps,
        )?;
        match first_of(entries.as_slice(), test) {
            Some(row) => return Ok(Some(row)),
            None => {}
        }
        match next {
            Some(cut) => from = Some(cut),
            None => return Ok(None),
        }
    }
}

/// Whether a reader tells, reading nothing, that no entry is in a range.
fn tells_none<R: Reader>(reader: &R, index: u32, snap: u64, range: &Range) -> bool
    requires can { CanScan (R.shown reader.now) index snap }
    requires suits { Suits (R.shown reader.now) index snap range.now }
    ensures { result ≡ true → run ((R.shown reader.now).entries index snap) range.now ≡ [] }
{
    let estimate = reader.estimate(index, snap, range);
    estimate.exact && estimate.value == 0
}

/// The lowest row with a key that passes a test: one look-up in the index, whatever else is in it.
pub fn lowest_with<R: Reader<Ledger = Uncounted>, T: RowTest>(
    alloc: Global,
    reader: &R,
    index: u32,
    snap: u64,
    sought: &Sought,
    test: &T,
) -> Result<Option<RowNo>, NoMemory>
    requires can { CanScan (R.shown reader.now) index snap }
    requires suits { Suits (R.shown reader.now) index snap sought.now.range }
    requires range { sought.now.range ≡ point sought.now.key }
    ensures { IfOk result (λ row. (columns : List ℕ) (rows : List OneRecord) → Tells (R.shown reader.now) index snap columns rows → length sought.now.key ≡ length columns → row ≡ lowest_with columns sought.now.key (T.keeps test.now) rows) }
{
    if tells_none(reader, index, snap, &sought.range) {
        return Ok(None);
    }
    let row = first_in(alloc, reader, index, snap, &sought.range, test)?;
    Ok(row)
}

/// The same in what a transaction sees: a store, with its view laid over it where it has changes.
pub fn lowest_seen<S: Store + Reader<Ledger = Uncounted>, T: RowTest>(
    alloc: Global,
    store: &S,
    view: &Option<View>,
    index: u32,
    snap: u64,
    sought: &Sought,
    test: &T,
) -> Result<Option<RowNo>, NoMemory>
    requires lays { LaysSome (S.shown store.now) view.now }
    requires can { CanScan (laid_over (S.shown store.now) view.now) index snap }
    requires suits { Suits (laid_over (S.shown store.now) view.now) index snap sought.now.range }
    requires range { sought.now.range ≡ point sought.now.key }
    ensures { IfOk result (λ row. (columns : List ℕ) (rows : List OneRecord) → Tells (laid_over (S.shown store.now) view.now) index snap columns rows → length sought.now.key ≡ length columns → row ≡ lowest_with columns sought.now.key (T.keeps test.now) rows) }
{
    let seen = Seen::new(store, view);
    let row = lowest_with(alloc, &seen, index, snap, sought, test)?;
    Ok(row)
}
