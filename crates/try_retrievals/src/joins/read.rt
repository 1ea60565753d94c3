//! What a line asks for, from its words.
use rv_catalog::Goal;
use rv_loading::{Fault, column, cut, small};
use rv_restrict::ColRef;
use std::alloc::Global;

/// The fields of a line, in their order.
#[derive(Clone, Copy)]
pub struct Asked<'a> {
    /// How many rows the first table has, each further one a row less; or `three` for the join of three tables.
    pub rows: &'a str,
    /// The tables of the FROM list.
    pub from: &'a str,
    /// Groups parted by `&`, their atoms parted by `/`.
    pub only: &'a str,
    pub order: &'a str,
    pub returns: &'a str,
    /// `threshold`, `contrary` or `patient`.
    pub judge: &'a str,
    /// Background steps between two steps of the plan.
    pub steps: &'a str,
    /// `soon` or `total`.
    pub goal: &'a str,
    /// `mix`, `reads` or `rows`.
    pub tell: &'a str,
}

/// The fields of a line.
pub fn read_line(line: &str) -> Result<Asked<'_>, Fault> {
    let (rows, rest) = cut(line, ';')?;
    let (from, rest) = cut(rest, ';')?;
    let (only, rest) = cut(rest, ';')?;
    let (order, rest) = cut(rest, ';')?;
    let (returns, rest) = cut(rest, ';')?;
    let (judge, rest) = cut(rest, ';')?;
    let (steps, rest) = cut(rest, ';')?;
    let (goal, tell) = cut(rest, ';')?;
    Ok(Asked {
        rows,
        from,
        only,
        order,
        returns,
        judge,
        steps,
        goal,
        tell,
    })
}

/// The goal that a word names: rows soon, or the least total time.
pub fn goal(word: &str) -> Result<Goal, Fault> {
    match word {
        "soon" => Ok(Goal::FastFirst),
        "total" => Ok(Goal::TotalTime),
        _ => Err(Fault::Form),
    }
}

/// The numbers of tables.
pub fn tables(alloc: Global, text: &str) -> Result<Vec<u32>, Fault> {
    let mut found = Vec::new(alloc);
    'words: for word in text.split(' ') {
        found.push(small(word)?)?;
    }
    Ok(found)
}

/// Columns; none in an empty text.
pub fn columns(alloc: Global, text: &str) -> Result<Vec<ColRef>, Fault> {
    let mut found = Vec::new(alloc);
    if text.is_empty() {
        return Ok(found);
    }
    'words: for word in text.split(' ') {
        found.push(column(word).ok_or(Fault::Form)?)?;
    }
    Ok(found)
}
