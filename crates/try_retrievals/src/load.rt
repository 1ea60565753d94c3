//! A table of three columns with four indexes, in any store.
ghost use Rattle.std.specs.Prelude.{◌≡◌, IfOk, length};
ghost use Rattle.rv_loading.specs.Laid.{IsEmpty};
ghost use Rattle.try_retrievals.specs.Standing.{Stands};

use rv_loading::{Fault, Loaded, Over, Schema, fill, index_over};
use rv_reader::{Change, Store};
use rv_value::{NoMemory, RowNo, Value, Values};
use std::alloc::Global;

/// What the second column has.
#[derive(Clone, Copy)]
pub enum Filling {
    /// The row's number.
    Same,
    Zero,
}

/// NULL in each eleventh row, else a number below 50.
fn mixed(row: u64) -> Value {
    if row % 11 == 0 {
        Value::Null
    } else {
        Value::Int((row % 50 * 37 % 50) as i64)
    }
}

/// The values of a row below a million. The first is its number, and the third NULL in each eleventh row, else a number below 50.
pub fn values_of(alloc: Global, row: u64, filling: Filling) -> Result<Values, NoMemory>
    ensures { IfOk result (λ values. length values ≡ 3) }
{
    let number = Value::Int((row % 1_000_000) as i64);
    let second = match filling {
        Filling::Same => Value::Int((row % 1_000_000) as i64),
        Filling::Zero => Value::Int(0),
    };
    let mut values = Vec::with_capacity(alloc, 3)?;
    values.push(number)?;
    values.push(second)?;
    values.push(mixed(row))?;
    Values::of(alloc, values)
}

fn inserted(alloc: Global, row: u64, filling: Filling) -> Result<Change, NoMemory> {
    Ok(Change {
        table: 0,
        row: RowNo(row),
        values: Some(values_of(alloc, row, filling)?),
    })
}

fn rows_below(alloc: Global, rows: u64, filling: Filling) -> Result<Vec<Change>, NoMemory> {
    let mut changes = Vec::new(alloc);
    'rows: for row in 0..rows {
        changes.push(inserted(alloc, row, filling)?)?;
    }
    Ok(changes)
}

/// One commit of so many rows.
fn batches(alloc: Global, rows: u64, filling: Filling) -> Result<Vec<Vec<Change>>, NoMemory> {
    let mut all = Vec::with_capacity(alloc, 1)?;
    all.push(rows_below(alloc, rows, filling)?)?;
    Ok(all)
}

/// A table of three columns, with indexes over the first, the second, the third and the first, and the third.
fn new_schema(alloc: Global) -> Result<Schema, NoMemory> {
    let mut indexes = Vec::with_capacity(alloc, 4)?;
    'indexes: for number in 0..4u32 {
        indexes.push(over(alloc, number)?)?;
    }
    Ok(Schema::new(3, indexes))
}

/// What the index of a number is over.
fn over(alloc: Global, number: u32) -> Result<Over, NoMemory> {
    match number {
        0 => index_over(alloc, 0, &[0]),
        1 => index_over(alloc, 0, &[1]),
        2 => index_over(alloc, 0, &[2, 0]),
        _ => index_over(alloc, 0, &[2]),
    }
}

/// What was loaded into a store: the table of so many rows.
#[derive(Drop)]
pub struct Table {
    pub loaded: Loaded,
    pub rows: u64,
    pub filling: Filling,
}

/// Makes the table and its indexes in an empty store, and commits so many rows.
pub fn load_table<S: Store>(
    alloc: Global,
    store: &mut S,
    rows: u64,
    filling: Filling,
) -> Result<Table, Fault>
    requires { IsEmpty (S.shown store.old) }
    ensures { IfOk result (Stands (S.shown store.new)) }
{
    let batches = batches(alloc, rows, filling)?;
    let schema = new_schema(alloc)?;
    let loaded = fill(store, schema, 1, batches.as_slice())?;
    if loaded.layout.tables >= 1 && loaded.schema.width == 3 {
        return Ok(Table {
            loaded,
            rows,
            filling,
        });
    }
    drop(loaded);
    Err(Fault::Form)
}
