//! Deletions of rows, each as its table and its row: those before `then` are put at once, and the one behind it is put and
//! taken back.
use crate::told::Told;
use rv_loading::{Fault, cut, number, small};
use rv_rows::{Change, Changes};
use rv_value::{Duplicate, NoMemory, RowNo, Values};
use std::alloc::Global;

fn deletion(word: &str) -> Result<Change, Fault> {
    let (table, row) = cut(word, '.')?;
    Ok(Change {
        table: small(table)?,
        row: RowNo(number(row)?),
        values: None,
    })
}

fn deletions(alloc: Global, text: &str) -> Result<Vec<Change>, Fault> {
    let mut all = Vec::new(alloc);
    'words: for word in text.split(' ') {
        all.push(deletion(word)?)?;
    }
    Ok(all)
}

/// Whether the copy of a change is equal to it.
fn is_copied(alloc: Global, change: &Change) -> Result<bool, NoMemory> {
    let copy = change.copy(alloc)?;
    let same = copy == *change;
    drop(copy);
    Ok(same)
}

/// Tells a table and a row, and a mark.
fn tell_row(told: &mut Told, table: u32, row: RowNo, mark: &str) {
    told.with(" ", u64::from(table));
    told.with(".", row.0);
    told.word(mark);
}

/// Tells a change, marked where its copy is another.
fn tell_change(alloc: Global, told: &mut Told, change: &Change) -> Result<(), NoMemory> {
    let mark = if is_copied(alloc, change)? { "" } else { "!" };
    tell_row(told, change.table, change.row, mark);
    Ok(())
}

/// Tells changes as `to_vec` gives them.
fn tell_copies(alloc: Global, told: &mut Told, changes: &[Change]) -> Result<(), NoMemory> {
    'changes: for change in changes {
        tell_change(alloc, told, change)?;
    }
    Ok(())
}

/// Tells a change, marked where it has values.
fn tell_entry(told: &mut Told, table: u32, row: RowNo, values: &Option<Values>) {
    let mark = if values.is_none() { "" } else { "!" };
    tell_row(told, table, row, mark);
}

/// Tells the changes as `parts` gives them, marked where they have values.
fn tell_entries(told: &mut Told, changes: &Changes) {
    let (listed, mapped) = changes.parts();
    'listed: for change in listed {
        tell_entry(told, change.table, change.row, &change.values);
    }
    'mapped: for (key, values) in mapped {
        tell_entry(told, key.table, key.row, values);
    }
}

/// Tells which of the tables 0 to 3 are touched.
fn tell_tables(told: &mut Told, changes: &Changes) {
    'tables: for table in 0..4u32 {
        if changes.touches(table) {
            told.with(" ", u64::from(table));
        }
    }
}

fn word(has: bool) -> &'static str {
    if has { " changed" } else { " not changed" }
}

/// Tells how many changes there are, which tables they touch, and whether a row is changed.
fn tell_facts(told: &mut Told, changes: &Changes, table: u32, row: RowNo) {
    told.with(", ", changes.len() as u64);
    told.word(" in all, tables");
    tell_tables(told, changes);
    told.word(",");
    tell_row(told, table, row, word(changes.has(table, row)));
}

fn tell_all(alloc: Global, told: &mut Told, changes: &Changes) -> Result<(), NoMemory> {
    let all = changes.to_vec()?;
    tell_copies(alloc, told, all.as_slice())
}

/// Puts a change, tells of all, and takes it back.
fn tell_with(
    alloc: Global,
    told: &mut Told,
    changes: &mut Changes,
    change: Change,
) -> Result<(), NoMemory> {
    let (table, row) = (change.table, change.row);
    let undo = changes.put(change)?;
    let done = tell_all(alloc, told, changes);
    tell_facts(told, changes, table, row);
    changes.take_back(undo);
    done
}

/// Puts the last change and takes it back, and tells of both.
fn tell_last(
    alloc: Global,
    told: &mut Told,
    changes: &mut Changes,
    last: Change,
) -> Result<(), NoMemory> {
    let (table, row) = (last.table, last.row);
    told.word("put");
    let done = tell_with(alloc, told, changes, last);
    told.word("; taken back");
    tell_entries(told, changes);
    tell_facts(told, changes, table, row);
    done
}

/// Puts the first changes and then the last one, which is taken back.
fn act_all(alloc: Global, told: &mut Told, changes: &mut Changes, text: &str) -> Result<(), Fault> {
    let (first, last) = text.split_once(" then ").ok_or(Fault::Form)?;
    changes.put_all(deletions(alloc, first)?)?;
    Ok(tell_last(alloc, told, changes, deletion(last)?)?)
}

/// Tells what a line's acts lead to; a fault where the line is not one. What they act on goes at one exit.
pub fn tell(alloc: Global, told: &mut Told, text: &str) -> Result<(), Fault> {
    let mut changes = Changes::new(alloc);
    let done = act_all(alloc, told, &mut changes, text);
    drop(changes);
    done
}
