//! Four tables of three columns with six indexes over them, in any store.
ghost use Rattle.std.specs.Prelude.{IfOk};
ghost use Rattle.rv_plain.specs.Kept.{shown_of};
ghost use Rattle.rv_loading.specs.Laid.{IsEmpty, Offers};

use rv_loading::{Fault, Loaded, Over, Schema, fill, index_over, number};
use rv_plain::Plain;
use rv_reader::{Change, Store};
use rv_value::{NoMemory, RowNo, Value, Values};
use std::alloc::Global;

/// The second value: NULL in some rows, else below 3.
fn second(table: u32, row: u64) -> Value {
    if (row % 5 + u64::from(table % 4)) % 5 == 4 {
        Value::Null
    } else {
        Value::Int(((row % 3 * 2 + u64::from(table % 4)) % 3) as i64)
    }
}

/// The third value: NULL in some rows, else below 4.
fn third(table: u32, row: u64) -> Value {
    if row % 7 == 3 {
        Value::Null
    } else {
        Value::Int(((row % 4 + u64::from(table % 4) * 2) % 4) as i64)
    }
}

/// Which rows are loaded.
#[derive(Clone, Copy)]
pub enum Filling {
    /// So many of the first table, and of each further one a row less.
    Many(u64),
    /// Two, three, three and none: K of the first, K and M of the second, M of the third, and NULL for the rest.
    Three,
}

/// `three`, or a number of rows.
pub fn read_filling(word: &str) -> Result<Filling, Fault> {
    match word {
        "three" => Ok(Filling::Three),
        _ => Ok(Filling::Many(number(word)?)),
    }
}

/// How many rows a table has, at most a million.
fn rows_in(filling: Filling, table: u32) -> u64 {
    match filling {
        Filling::Many(rows) => rows.saturating_sub(u64::from(table)).min(1000000),
        Filling::Three => match table {
            0 => 2,
            1 => 3,
            2 => 3,
            _ => 0,
        },
    }
}

/// K of the first two tables, and M of the third.
fn first_of_three(table: u32, row: u64) -> Value {
    match (table, row) {
        (0, 0) => Value::Int(1),
        (0, _) => Value::Int(2),
        (1, 0) => Value::Int(1),
        (1, 1) => Value::Int(1),
        (1, _) => Value::Int(3),
        (_, 0) => Value::Int(10),
        _ => Value::Int(11),
    }
}

/// M of the second table.
fn second_of_three(table: u32, row: u64) -> Value {
    match (table, row) {
        (1, 0) => Value::Int(10),
        (1, 1) => Value::Int(11),
        (1, _) => Value::Int(12),
        _ => Value::Null,
    }
}

fn three(alloc: Global, first: Value, second: Value, third: Value) -> Result<Values, NoMemory> {
    let mut values = Vec::with_capacity(alloc, 3)?;
    values.push(first)?;
    values.push(second)?;
    values.push(third)?;
    Values::of(alloc, values)
}

/// The values of a row of a table.
fn values_of(alloc: Global, filling: Filling, table: u32, row: u64) -> Result<Values, NoMemory> {
    match filling {
        Filling::Many(_) => {
            let number = Value::Int((row % 1_000_000) as i64);
            three(alloc, number, second(table, row), third(table, row))
        }
        Filling::Three => {
            let first = first_of_three(table, row);
            three(alloc, first, second_of_three(table, row), Value::Null)
        }
    }
}

fn inserted(alloc: Global, filling: Filling, table: u32, row: u64) -> Result<Change, NoMemory> {
    Ok(Change {
        table,
        row: RowNo(row),
        values: Some(values_of(alloc, filling, table, row)?),
    })
}

fn rows_below(
    alloc: Global,
    filling: Filling,
    table: u32,
    rows: u64,
) -> Result<Vec<Change>, NoMemory> {
    let mut changes = Vec::new(alloc);
    'rows: for row in 0..rows {
        changes.push(inserted(alloc, filling, table, row)?)?;
    }
    Ok(changes)
}

/// The rows of each table.
fn batches(alloc: Global, filling: Filling) -> Result<Vec<Vec<Change>>, NoMemory> {
    let mut all = Vec::with_capacity(alloc, 4)?;
    'tables: for table in 0..4u32 {
        let rows = rows_in(filling, table);
        all.push(rows_below(alloc, filling, table, rows)?)?;
    }
    Ok(all)
}

/// Tables of three columns, with six indexes.
fn new_schema(alloc: Global) -> Result<Schema, NoMemory> {
    let mut indexes = Vec::with_capacity(alloc, 6)?;
    'indexes: for number in 0..6u32 {
        indexes.push(over(alloc, number)?)?;
    }
    Ok(Schema::new(3, indexes))
}

/// What the index of a number is over.
fn over(alloc: Global, number: u32) -> Result<Over, NoMemory> {
    match number {
        0 => index_over(alloc, 0, &[0]),
        1 => index_over(alloc, 0, &[1, 2]),
        2 => index_over(alloc, 1, &[0]),
        3 => index_over(alloc, 1, &[2, 1]),
        4 => index_over(alloc, 2, &[1]),
        _ => index_over(alloc, 3, &[2, 0, 1]),
    }
}

/// A plain store with the four tables.
#[derive(Drop)]
pub struct Base {
    pub store: Plain,
    pub loaded: Loaded,
    filling: Filling,
}

impl Base {
    /// How many of the indexes a plan is given: none in the join of three tables.
    pub fn indexes(&self) -> u32 {
        match self.filling {
            Filling::Many(_) => 6,
            Filling::Three => 0,
        }
    }
}

fn load_store<S: Store>(alloc: Global, store: &mut S, filling: Filling) -> Result<Loaded, Fault>
    requires { IsEmpty (S.shown store.old) }
    ensures { IfOk result (λ loaded. Offers loaded (S.shown store.new)) }
{
    let batches = batches(alloc, filling)?;
    let schema = new_schema(alloc)?;
    fill(store, schema, 4, batches.as_slice())
}

/// Loads a plain store.
pub fn load_base(alloc: Global, filling: Filling) -> Result<Base, Fault>
    ensures { IfOk result (λ base. Offers base.loaded (shown_of base.store)) }
{
    let mut store = Plain::new(alloc)?;
    match load_store(alloc, &mut store, filling) {
        Ok(loaded) => Ok(Base {
            store,
            loaded,
            filling,
        }),
        Err(fault) => {
            drop(store);
            Err(fault)
        }
    }
}
