//! Values, keys and entries, compared.
use rv_loading::{Fault, cut, number, value, values};
use rv_value::{IndexEntry, Key, NoMemory, RowNo, Value, cmp_key, cmp_value, copy_slice};
use std::alloc::Global;
use std::cmp::Ordering;

/// The word of a test on a line.
pub fn yes_or_no(is: bool) -> &'static str {
    if is { "yes" } else { "no" }
}

fn order_word(order: Ordering) -> &'static str {
    match order {
        Ordering::Less => "less",
        Ordering::Equal => "equal",
        Ordering::Greater => "greater",
    }
}

/// The two orders of two values, and whether they are the same.
pub fn told_values(alloc: Global, text: &str) -> Result<String, Fault> {
    let (first, second) = cut(text, ' ')?;
    let first = value(alloc, first)?;
    let told = value_beside(alloc, &first, second);
    drop(first);
    told
}

fn value_beside(alloc: Global, first: &Value, second: &str) -> Result<String, Fault> {
    let second = value(alloc, second)?;
    let order = order_word(cmp_value(first, &second));
    let whole = order_word(first.cmp(&second));
    let same = yes_or_no(first.is(&second));
    drop(second);
    Ok(format!(in alloc; "{order} {whole} {same}")?)
}

/// A key of one to four values.
fn keyed(alloc: Global, values: Vec<Value>) -> Result<Key, Fault> {
    if values.is_empty() || values.len() > 4 {
        return Err(Fault::Form);
    }
    Ok(Key::of(alloc, values)?)
}

/// The key that a line's values make.
pub fn key(alloc: Global, text: &str) -> Result<Key, Fault> {
    keyed(alloc, values(alloc, text)?)
}

/// The two orders of two keys: by as many values as both have, and by all.
pub fn told_keys(alloc: Global, text: &str) -> Result<String, Fault> {
    let (first, second) = cut(text, ';')?;
    let first = key(alloc, first)?;
    let told = key_beside(alloc, &first, second);
    drop(first);
    told
}

fn key_beside(alloc: Global, first: &Key, second: &str) -> Result<String, Fault> {
    let second = key(alloc, second)?;
    let order = order_word(cmp_key(first, &second));
    let whole = order_word(first.cmp(&second));
    drop(second);
    Ok(format!(in alloc; "{order} {whole}")?)
}

/// An entry: the values of its key, and behind `@` the number of its row.
fn entry(alloc: Global, text: &str) -> Result<IndexEntry, Fault> {
    let (values, row) = cut(text, '@')?;
    let row = RowNo(number(row)?);
    Ok(IndexEntry {
        key: key(alloc, values)?,
        row,
    })
}

fn entries(alloc: Global, text: &str) -> Result<Vec<IndexEntry>, Fault> {
    let mut entries = Vec::new(alloc);
    'entries: for text in text.split(';') {
        entries.push(entry(alloc, text)?)?;
    }
    Ok(entries)
}

fn are_copied(alloc: Global, entries: &[IndexEntry]) -> Result<bool, NoMemory> {
    let copies = copy_slice(alloc, entries)?;
    let same = copies.as_slice() == entries;
    drop(copies);
    Ok(same)
}

/// The rows of entries, and whether a copy of them is the same.
fn told_rows(alloc: Global, entries: &[IndexEntry]) -> Result<String, NoMemory> {
    let same = yes_or_no(are_copied(alloc, entries)?);
    let mut told = format!(in alloc; "copied {same}, rows")?;
    'entries: for entry in entries {
        let word = format!(in alloc; " {}", entry.row.0)?;
        told.push_str(word.as_str())?;
    }
    Ok(told)
}

/// The rows of entries in their order.
pub fn told_entries(alloc: Global, text: &str) -> Result<String, Fault> {
    let mut entries = entries(alloc, text)?;
    entries.sort()?;
    Ok(told_rows(alloc, entries.as_slice())?)
}
