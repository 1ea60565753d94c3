//! The changes of the commits, by a generator of numbers without order.
use rv_reader::Change;
use rv_value::{NoMemory, RowNo, Value, Values};
use std::alloc::Global;

/// A number that follows another one below 2^32.
fn mixed(number: u64) -> u64 {
    number % 4294967296 * 48271 % 2147483647
}

/// The first value is NULL in about each eleventh row, else a number below 300; the second is a number below 1000.
fn values_of(alloc: Global, mix: u64) -> Result<Values, NoMemory> {
    let first = if mix % 11 == 0 {
        Value::Null
    } else {
        Value::Int((mix / 11 % 300) as i64)
    };
    let mut values = Vec::with_capacity(alloc, 2)?;
    values.push(first)?;
    values.push(Value::Int((mix / 3300 % 1000) as i64))?;
    Values::of(alloc, values)
}

/// Two of five changes take a row away.
fn new_values(alloc: Global, mix: u64) -> Result<Option<Values>, NoMemory> {
    if mix % 5 < 2 {
        return Ok(None);
    }
    Ok(Some(values_of(alloc, mixed(mix / 5))?))
}

/// The change of a step of a commit, of one of sixteen rows.
fn change_at(alloc: Global, table: u32, commit: u64, step: u64) -> Result<Change, NoMemory> {
    let mix = mixed(mixed(commit % 1000 * 1000 + step % 64 * 2 + u64::from(table)) / 7);
    let row = RowNo(16 * (step % 64) + mix % 16);
    let values = new_values(alloc, mixed(mix / 16))?;
    Ok(Change { table, row, values })
}

fn add_steps(
    alloc: Global,
    changes: &mut Vec<Change>,
    table: u32,
    commit: u64,
) -> Result<(), NoMemory> {
    'steps: for step in 0..64 {
        changes.push(change_at(alloc, table, commit, step)?)?;
    }
    Ok(())
}

/// The changes of a commit: 64 of each of the tables 0 and 1, ascending.
pub fn changes_of(alloc: Global, commit: u64) -> Result<Vec<Change>, NoMemory> {
    let mut changes = Vec::new(alloc);
    add_steps(alloc, &mut changes, 0, commit)?;
    add_steps(alloc, &mut changes, 1, commit)?;
    Ok(changes)
}
