//! Whether the rows given are those that were asked for.
ghost use Rattle.std.specs.Prelude.{◌≡◌, true};
ghost use Rattle.rv_restrict.specs.Truth.{names_only};
ghost use Rattle.rv_loading.specs.Naming.{home_column};

use crate::asked::{Asked, wanted};
use crate::load::{Filling, values_of};
use rv_restrict::{Restriction, Tri};
use rv_value::{NoMemory, Record, Values};
use std::alloc::Global;
use std::cmp::Ordering;

/// The rows of the load for which the restriction is True.
fn qualifying(
    alloc: Global,
    only: &Restriction,
    rows: u64,
    filling: Filling,
) -> Result<Vec<u64>, NoMemory>
    requires { names_only (home_column 3) only.now ≡ true }
{
    let mut found = Vec::new(alloc);
    'rows: for row in 0..rows {
        let values = values_of(alloc, row, filling)?;
        if only.truth(&values) == Tri::True {
            found.push(row)?;
        }
    }
    Ok(found)
}

fn numbers(alloc: Global, given: &[Record]) -> Result<Vec<u64>, NoMemory> {
    let mut numbers = Vec::new(alloc);
    'rows: for row in given {
        numbers.push(row.row.0)?;
    }
    numbers.sort()?;
    Ok(numbers)
}

/// Whether values are as loaded in the columns needed.
fn is_true_to(asked: &Asked, given: &Values, loaded: &Values) -> bool {
    'columns: for column in 0..3u32 {
        let at = column as usize;
        let same = match (given.as_slice().get(at), loaded.as_slice().get(at)) {
            (Some(given), Some(loaded)) => given.is(loaded),
            _ => false,
        };
        if asked.needs(column) && !same {
            return false;
        }
    }
    true
}

/// Whether each row has its values in the columns needed.
fn are_true(
    alloc: Global,
    asked: &Asked,
    given: &[Record],
    rows: u64,
    filling: Filling,
) -> Result<bool, NoMemory> {
    'rows: for row in given {
        if row.row.0 >= rows {
            return Ok(false);
        }
        let loaded = values_of(alloc, row.row.0, filling)?;
        if !is_true_to(asked, &row.values, &loaded) {
            return Ok(false);
        }
    }
    Ok(true)
}

/// Whether the third value of a row is not above that of another.
fn comes_first(row: &Record, next: &Record) -> bool {
    match (row.values.as_slice().get(2), next.values.as_slice().get(2)) {
        (Some(third), Some(next)) => third.cmp(next) != Ordering::Greater,
        _ => false,
    }
}

/// Whether the third values never fall.
fn ascend(given: &[Record]) -> bool {
    given.windows(2).all(|two| comes_first(&two[0], &two[1]))
}

/// Whether these are the rows that qualify, each once, with the values needed, and in order where an order is asked.
pub fn is_right(
    alloc: Global,
    asked: &Asked,
    given: &[Record],
    rows: u64,
    filling: Filling,
) -> Result<bool, NoMemory> {
    let only = wanted(alloc, asked)?;
    let expected = qualifying(alloc, &only, rows, filling)?;
    let numbers = numbers(alloc, given)?;
    Ok(
        numbers.as_slice() == expected.as_slice()
            && are_true(alloc, asked, given, rows, filling)?
            && (!asked.sorted || ascend(given)),
    )
}
