//! A table whose row i has the values (i, i), with an index over each column, in any store.
ghost use Rattle.std.specs.Prelude.{◌≡◌, IfOk, true};
ghost use Rattle.rv_loading.specs.Laid.{IsEmpty, Offers};
ghost use Rattle.try_stores.specs.Drawing.{HasTwo, Lists};

use rv_loading::{Fault, Loaded, Schema, fill, index_over};
use rv_reader::{Change, Store};
use rv_value::{NoMemory, RowNo, Value, Values};
use std::alloc::Global;

/// The values of a row below a million.
fn values_of(alloc: Global, row: u64) -> Result<Values, NoMemory> {
    let mut values = Vec::with_capacity(alloc, 2)?;
    values.push(Value::Int((row % 1_000_000) as i64))?;
    values.push(Value::Int((row % 1_000_000) as i64))?;
    Values::of(alloc, values)
}

fn inserted(alloc: Global, row: u64) -> Result<Change, NoMemory> {
    Ok(Change {
        table: 0,
        row: RowNo(row),
        values: Some(values_of(alloc, row)?),
    })
}

/// One commit of so many rows.
fn batches(alloc: Global, rows: u64) -> Result<Vec<Vec<Change>>, NoMemory> {
    let mut changes = Vec::new(alloc);
    'rows: for row in 0..rows {
        changes.push(inserted(alloc, row)?)?;
    }
    let mut all = Vec::with_capacity(alloc, 1)?;
    all.push(changes)?;
    Ok(all)
}

/// A table of two columns, with an index over each.
fn new_schema(alloc: Global) -> Result<Schema, NoMemory> {
    let mut indexes = Vec::with_capacity(alloc, 2)?;
    indexes.push(index_over(alloc, 0, &[0])?)?;
    indexes.push(index_over(alloc, 0, &[1])?)?;
    Ok(Schema::new(2, indexes))
}

/// Whether there are two indexes, each over one column.
fn has_two(loaded: &Loaded) -> bool
    ensures { result ≡ true → HasTwo loaded.now }
{
    if loaded.layout.indexes < 2 {
        return false;
    }
    if loaded.schema.columns_of(0).len() != 1 {
        return false;
    }
    loaded.schema.columns_of(1).len() == 1
}

/// The snapshot at which a joint scan may be drawn.
fn settled<S: Store>(_store: &S, loaded: &Loaded) -> u64
    requires offers { Offers loaded.now (S.shown _store.now) }
    requires two { HasTwo loaded.now }
    ensures { Lists (S.shown _store.now) result }
{
    loaded.snap
}

fn snap_of<S: Store>(store: &S, loaded: &Loaded) -> Result<u64, Fault>
    requires { Offers loaded.now (S.shown store.now) }
    ensures { IfOk result (Lists (S.shown store.now)) }
{
    if has_two(loaded) {
        return Ok(settled(store, loaded));
    }
    Err(Fault::Form)
}

/// Makes the table and its indexes in an empty store, and commits so many rows; the snapshot.
pub fn load_rows<S: Store>(alloc: Global, store: &mut S, rows: u64) -> Result<u64, Fault>
    requires { IsEmpty (S.shown store.old) }
    ensures { IfOk result (Lists (S.shown store.new)) }
{
    let batches = batches(alloc, rows)?;
    let schema = new_schema(alloc)?;
    let loaded = fill(store, schema, 1, batches.as_slice())?;
    let snap = snap_of(store, &loaded);
    drop(loaded);
    snap
}
