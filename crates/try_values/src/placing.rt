//! Restrictions on rows.
ghost use Rattle.std.specs.Prelude.{◌≤◌, length};

use crate::fits::all_fit;
use crate::orders::yes_or_no;
use crate::ranges::side_word;
use rv_loading::{Fault, column, cut, restriction, values};
use rv_restrict::{Part, Restriction, Tri};
use rv_value::{Duplicate, Key, NoMemory, Side, Value, Values};
use std::alloc::Global;

/// What is found for a restriction and a row.
#[derive(Clone, Copy)]
struct Found {
    side: Side,
    truth: Tri,
    passes: bool,
}

/// The numbers of the columns a, b and c.
pub fn columns(alloc: Global, text: &str) -> Result<Vec<u32>, Fault> {
    let mut found = Vec::new(alloc);
    'words: for word in text.split(' ') {
        found.push(column(word).ok_or(Fault::Form)?.column)?;
    }
    Ok(found)
}

fn find(alloc: Global, line: &str) -> Result<Found, Fault> {
    let (index, rest) = cut(line, ';')?;
    let (only, row) = cut(rest, ';')?;
    let columns = columns(alloc, index)?;
    let row = read_row(alloc, row)?;
    let found = restricted(alloc, columns.as_slice(), only, &row);
    drop(row);
    found
}

fn read_row(alloc: Global, text: &str) -> Result<Values, Fault> {
    Ok(Values::of(alloc, values(alloc, text)?)?)
}

fn restricted(alloc: Global, columns: &[u32], only: &str, row: &Values) -> Result<Found, Fault> {
    let only = restriction(alloc, only, " & ", " / ")?;
    let found = compare(alloc, columns, &only, row);
    drop(only);
    found
}

fn compare(
    alloc: Global,
    columns: &[u32],
    only: &Restriction,
    row: &Values,
) -> Result<Found, Fault> {
    if !all_fit(only.groups(), row) {
        return Err(Fault::Form);
    }
    if columns.len() > 4 {
        return Err(Fault::Form);
    }
    let truth = only.truth(row);
    let key = key_of(alloc, columns, row)?;
    let placed = placed(alloc, columns, only, &key);
    drop(key);
    let (side, passes) = placed?;
    Ok(Found {
        side,
        truth,
        passes,
    })
}

/// The place of a key in the range of a restriction, and whether the part passes it.
fn placed(
    alloc: Global,
    columns: &[u32],
    only: &Restriction,
    key: &Key,
) -> Result<(Side, bool), Fault>
    requires { length columns.now ≤ 4 }
{
    let side = side_of(alloc, columns, only, key)?;
    let passes = passes(alloc, columns, only, key)?;
    Ok((side, passes))
}

fn side_of(alloc: Global, columns: &[u32], only: &Restriction, key: &Key) -> Result<Side, NoMemory>
    requires { length columns.now ≤ 4 }
{
    let range = only.range_for(alloc, columns)?;
    let side = range.place(key);
    drop(range);
    Ok(side)
}

fn passes(alloc: Global, columns: &[u32], only: &Restriction, key: &Key) -> Result<bool, Fault> {
    let part = only.index_part(alloc, columns)?;
    let passes = passes_part(&part, key);
    drop(part);
    passes
}

fn passes_part(part: &Part, key: &Key) -> Result<bool, Fault> {
    if key.as_slice().len() != part.columns().len() {
        return Err(Fault::Form);
    }
    Ok(part.pass(key))
}

fn key_of(alloc: Global, columns: &[u32], row: &Values) -> Result<Key, Fault> {
    let mut key = Vec::new(alloc);
    'columns: for column in columns {
        let value = row.as_slice().get(*column as usize).ok_or(Fault::Form)?;
        key.push(value.copy(alloc)?)?;
    }
    if key.is_empty() || key.len() > 4 {
        return Err(Fault::Form);
    }
    Ok(Key::of(alloc, key)?)
}

fn truth_word(truth: Tri) -> &'static str {
    match truth {
        Tri::True => "true",
        Tri::False => "false",
        Tri::Unknown => "unknown",
    }
}

/// An index's columns, a restriction and a row, parted by semicolons: the place of the row's key in the range, the truth on
/// the row, and whether the part passes the key.
pub fn told(alloc: Global, line: &str) -> Result<String, Fault> {
    let found = find(alloc, line)?;
    let side = side_word(found.side);
    let passes = yes_or_no(found.passes);
    Ok(format!(in alloc; "{side};{};{passes}", truth_word(found.truth))?)
}
