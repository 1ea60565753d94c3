//! Rows by number: `put N`, `remove N` and `copy`, parted by commas; then the rows, and those of the last copy.
use crate::told::Told;
use crate::values::one_value;
use rv_loading::{Fault, number};
use rv_rows::Rows;
use rv_value::{Duplicate, NoMemory, Record, RowNo};
use std::alloc::Global;
use std::mem;

fn record(alloc: Global, row: u64) -> Result<Record, NoMemory> {
    Ok(Record {
        row: RowNo(row),
        values: one_value(alloc, 1)?,
    })
}

fn put(alloc: Global, rows: &mut Rows, row: u64) -> Result<(), NoMemory> {
    rows.put(record(alloc, row)?)
}

fn act(alloc: Global, rows: &mut Rows, copy: &mut Rows, text: &str) -> Result<(), Fault> {
    if text == "copy" {
        drop(mem::replace(copy, rows.copy(alloc)?));
        return Ok(());
    }
    if let Some(row) = text.strip_prefix("put ") {
        return Ok(put(alloc, rows, number(row)?)?);
    }
    match text.strip_prefix("remove ") {
        Some(row) => {
            rows.remove(RowNo(number(row)?));
            Ok(())
        }
        None => Err(Fault::Form),
    }
}

/// Tells the numbers of rows, each behind a space.
fn tell_numbers(told: &mut Told, rows: &[Record]) {
    'rows: for row in rows {
        told.with(" ", row.row.0);
    }
}

/// Does acts on rows and a copy of them.
fn act_all(alloc: Global, rows: &mut Rows, copy: &mut Rows, text: &str) -> Result<(), Fault> {
    'acts: for text in text.split(", ") {
        act(alloc, rows, copy, text)?;
    }
    Ok(())
}

fn tell_both(told: &mut Told, rows: &Rows, copy: &Rows) {
    told.word("rows");
    tell_numbers(told, rows.as_slice());
    told.word(", copy");
    tell_numbers(told, copy.as_slice());
}

/// Tells what a line's acts lead to; a fault where the line is not one. What they act on goes at one exit.
pub fn tell(alloc: Global, told: &mut Told, text: &str) -> Result<(), Fault> {
    let mut rows = Rows::new(alloc);
    let mut copy = Rows::new(alloc);
    let done = act_all(alloc, &mut rows, &mut copy, text);
    tell_both(told, &rows, &copy);
    drop(rows);
    drop(copy);
    done
}
