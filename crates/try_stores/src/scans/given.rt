//! What the scans give, in words.
ghost use Rattle.std.specs.Prelude.{◌≡◌, [], ◌∷◌, OnOk, IfSome, option_copied, true, false};
ghost use Rattle.rv_scan.specs.Due.{IsReady, skipped};
ghost use Rattle.rv_loading.specs.Laid.{Laid};
ghost use Rattle.try_stores.specs.Scanning.{Stands};

use crate::scans::look::{Given, is_whole, look};
use crate::told::Told;
use rv_judge::Uncounted;
use rv_keylist::{Delivered, KeyList};
use rv_loading::{Fault, Loaded, may_read};
use rv_reader::{Reader, Store};
use rv_scan::Skip;
use rv_value::{NoMemory, Record, RowNo, Value};
use std::alloc::Global;

/// Adds the rows 62, 4 and 32.
fn deliver(delivered: &mut Delivered) {
    'rows: for row in [62, 4, 32] {
        if !delivered.has(RowNo(row)) && delivered.len() < 1000 {
            delivered.add(RowNo(row));
        }
    }
}

/// Pushes keys to an empty list.
fn push_all(list: &mut KeyList) -> Result<(), NoMemory>
    requires open { list.old.finished ≡ false }
    requires empty { list.old.keys ≡ [] }
{
    list.push(RowNo(74))?;
    list.push(RowNo(9))?;
    list.push(RowNo(4))?;
    list.push(RowNo(62))?;
    list.push(RowNo(17))?;
    list.push(RowNo(32))
}

fn tell_value(told: &mut Told, value: &Value) {
    match value {
        Value::Null => told.word("NULL"),
        Value::Int(number) => told.integer(*number),
        Value::Str(text) => told.word(text.as_str()),
    }
}

fn tell_row(told: &mut Told, row: &Record) {
    told.with(" ", row.row.0);
    let mut mark = "(";
    'values: for value in row.values.as_slice() {
        told.word(mark);
        tell_value(told, value);
        mark = ",";
    }
    told.word(")");
}

/// Tells when rows were given, what was skipped, how they were read, and the rows.
fn tell_rows(told: &mut Told, when: &str, skip: &Skip<'_>, how: &str, rows: &[Record]) {
    told.word(when);
    if skip.delivered.is_some() {
        told.word(", delivered");
    }
    if skip.list.is_some() {
        told.word(", listed");
    }
    told.word(how);
    'rows: for row in rows {
        tell_row(told, row);
    }
    told.word("\n");
}

fn tell_given(told: &mut Told, when: &str, skip: &Skip<'_>, given: &Given) {
    tell_rows(told, when, skip, ", by pages:", given.by_pages.as_slice());
    tell_rows(
        told,
        when,
        skip,
        ", by fetches:",
        given.by_fetches.as_slice(),
    );
    tell_rows(told, when, skip, ", by keys:", given.by_keys.as_slice());
}

fn tell_skipped<S: Store + Reader<Ledger = Uncounted>>(
    alloc: Global,
    told: &mut Told,
    store: &S,
    loaded: &Loaded,
    skip: &Skip<'_>,
    when: &str,
) -> Result<(), NoMemory>
    requires stands { Stands loaded.now (S.shown store.now) }
    requires ready { IsReady (skipped skip.now) }
{
    let given = look(alloc, store, loaded, skip)?;
    tell_given(told, when, skip, &given);
    drop(given);
    Ok(())
}

fn tell_choice<S: Store + Reader<Ledger = Uncounted>>(
    alloc: Global,
    told: &mut Told,
    store: &S,
    loaded: &Loaded,
    delivered: Option<&Delivered>,
    list: Option<&KeyList>,
    when: &str,
) -> Result<(), NoMemory>
    requires stands { Stands loaded.now (S.shown store.now) }
    requires ready { IfSome (option_copied list) (λ list. list.finished ≡ true) }
{
    let skip = Skip { delivered, list };
    tell_skipped(alloc, told, store, loaded, &skip, when)
}

/// Nothing is skipped, or what the list cannot have.
fn tell_lists<S: Store + Reader<Ledger = Uncounted>>(
    alloc: Global,
    told: &mut Told,
    store: &S,
    loaded: &Loaded,
    delivered: Option<&Delivered>,
    when: &str,
) -> Result<(), NoMemory>
    requires { Stands loaded.now (S.shown store.now) }
{
    tell_choice(alloc, told, store, loaded, delivered, None, when)?;
    let mut list = KeyList::new(alloc);
    let pushed = push_all(&mut list);
    list.finish();
    let done = tell_choice(alloc, told, store, loaded, delivered, Some(&list), when);
    drop(list);
    pushed?;
    done
}

fn tell_each<S: Store + Reader<Ledger = Uncounted>>(
    alloc: Global,
    told: &mut Told,
    store: &S,
    loaded: &Loaded,
    when: &str,
) -> Result<(), NoMemory>
    requires { Stands loaded.now (S.shown store.now) }
{
    tell_lists(alloc, told, store, loaded, None, when)?;
    let mut some = Delivered::new(alloc)?;
    deliver(&mut some);
    let done = tell_lists(alloc, told, store, loaded, Some(&some), when);
    drop(some);
    done
}

/// The lines of a snapshot: nothing is skipped, or what the list cannot have, or what was delivered, or both. `Form` where
/// the table, its index or the snapshot is not there.
pub fn tell_at<S: Store + Reader<Ledger = Uncounted>>(
    alloc: Global,
    told: &mut Told,
    store: &S,
    loaded: &Loaded,
    when: &str,
) -> Result<(), Fault>
    requires { Laid loaded.now.schema loaded.now.layout (S.shown store.now) }
{
    if is_whole(loaded) {
        may_read(&loaded.schema, store, loaded.layout, loaded.snap);
        return Ok(tell_each(alloc, told, store, loaded, when)?);
    }
    Err(Fault::Form)
}
