//! The rows given, in words.

use rv_value::{NoMemory, Record, RowNo};
use std::alloc::Global;

/// Row numbers that came one after another, each by one higher than the one before.
#[derive(Clone, Copy)]
struct Run {
    first: u64,
    last: u64,
}

/// The run with a further row; a run that it does not lengthen is put to the others.
fn lengthened(runs: &mut Vec<Run>, run: Run, row: u64) -> Result<Run, NoMemory> {
    if row == run.last.saturating_add(1) {
        Ok(Run {
            first: run.first,
            last: row,
        })
    } else {
        runs.push(run)?;
        Ok(Run {
            first: row,
            last: row,
        })
    }
}

fn runs_behind(alloc: Global, first: u64, rows: &[RowNo]) -> Result<Vec<Run>, NoMemory> {
    let mut runs = Vec::new(alloc);
    let mut run = Run { first, last: first };
    'rows: for row in rows {
        run = lengthened(&mut runs, run, row.0)?;
    }
    runs.push(run)?;
    Ok(runs)
}

fn runs(alloc: Global, rows: &[RowNo]) -> Result<Vec<Run>, NoMemory> {
    match rows {
        [] => Ok(Vec::new(alloc)),
        [first, behind @ ..] => runs_behind(alloc, first.0, behind),
    }
}

fn run_text(alloc: Global, run: Run) -> Result<String, NoMemory> {
    if run.first == run.last {
        Ok(format!(in alloc; " {}", run.first)?)
    } else {
        Ok(format!(in alloc; " {}-{}", run.first, run.last)?)
    }
}

fn mixed(mix: u64, row: u64) -> u64 {
    (mix % 1000003 * 31 + row % 1000003 + 1) % 1000003
}

/// A number that tells one list of rows from most others.
fn mix(rows: &[RowNo]) -> u64 {
    let mut mix = 0;
    'rows: for row in rows {
        mix = mixed(mix, row.0);
    }
    mix
}

/// The numbers of rows.
pub fn numbers(alloc: Global, rows: &[Record]) -> Result<Vec<RowNo>, NoMemory> {
    let mut numbers = Vec::new(alloc);
    'rows: for row in rows {
        numbers.push(row.row)?;
    }
    Ok(numbers)
}

/// The rows in the order in which they came: how many, and then their runs, or where there are more than 40 of them a
/// number that is mixed of all rows.
pub fn rows_text(alloc: Global, rows: &[RowNo]) -> Result<String, NoMemory> {
    let runs = runs(alloc, rows)?;
    let mut text = format!(in alloc; "{} rows", rows.len())?;
    if runs.len() > 40 {
        let mix = format!(in alloc; " mixed {}", mix(rows))?;
        text.push_str(mix.as_str())?;
        return Ok(text);
    }
    'runs: for run in runs.as_slice() {
        let run = run_text(alloc, *run)?;
        text.push_str(run.as_str())?;
    }
    Ok(text)
}
