//! Ranges of keys.
use crate::orders::{key, yes_or_no};
use rv_loading::{Fault, cut};
use rv_value::{Bound, Duplicate, Key, NoMemory, Range, Side, Value};
use std::alloc::Global;

/// The word on a line for where a value lies beside a range.
pub fn side_word(side: Side) -> &'static str {
    match side {
        Side::Before => "before",
        Side::In => "in",
        Side::After => "after",
    }
}

/// `-` for no bound, the values of its key behind `[` for a closed one and behind `(` for an open one.
fn bound(alloc: Global, text: &str) -> Result<Option<Bound>, Fault> {
    if text == "-" {
        return Ok(None);
    }
    if let Some(values) = text.strip_prefix("[") {
        let key = key(alloc, values)?;
        return Ok(Some(Bound { key, closed: true }));
    }
    match text.strip_prefix("(") {
        Some(values) => {
            let key = key(alloc, values)?;
            Ok(Some(Bound { key, closed: false }))
        }
        None => Err(Fault::Form),
    }
}

fn range(alloc: Global, low: &str, high: &str, starts: bool) -> Result<Range, Fault> {
    let low = bound(alloc, low)?;
    match bound(alloc, high) {
        Ok(high) => Ok(Range { low, high, starts }),
        Err(fault) => {
            drop(low);
            Err(fault)
        }
    }
}

fn is_copied(alloc: Global, range: &Range) -> Result<bool, NoMemory> {
    let copy = range.copy(alloc)?;
    let same = copy == *range;
    drop(copy);
    Ok(same)
}

/// Where a key is beside a range, and what is told of the range itself.
fn told_side(alloc: Global, range: &Range, key: &Key) -> Result<String, NoMemory> {
    let copied = yes_or_no(is_copied(alloc, range)?);
    let side = side_word(range.place(key));
    let holds = yes_or_no(range.holds(key));
    let empty = yes_or_no(range.is_empty());
    let whole = yes_or_no(range.is_whole());
    Ok(format!(in alloc; "{side}, holds {holds}, empty {empty}, whole {whole}, copied {copied}")?)
}

fn told_beside(alloc: Global, range: &Range, values: &str) -> Result<String, Fault> {
    let key = key(alloc, values)?;
    let told = told_side(alloc, range, &key);
    drop(key);
    Ok(told?)
}

/// The two bounds of a range and a key; `starts` where the range holds what begins with the last text of the low bound.
pub fn told(alloc: Global, text: &str, starts: bool) -> Result<String, Fault> {
    let (low, rest) = cut(text, ';')?;
    let (high, values) = cut(rest, ';')?;
    let range = range(alloc, low, high, starts)?;
    let told = told_beside(alloc, &range, values);
    drop(range);
    told
}

fn told_value(alloc: Global, value: &Value) -> Result<String, NoMemory> {
    match value {
        Value::Null => Ok(format!(in alloc; "N")?),
        Value::Int(number) => Ok(format!(in alloc; "{number}")?),
        Value::Str(text) => Ok(format!(in alloc; "'{}", text.as_str())?),
    }
}

fn told_bound(alloc: Global, bound: &Bound) -> Result<String, NoMemory> {
    let mut told = String::new(alloc);
    let mut mark = if bound.closed { "[" } else { "(" };
    'values: for value in bound.key.as_slice() {
        let word = told_value(alloc, value)?;
        told.push_str(mark)?;
        told.push_str(word.as_str())?;
        mark = " ";
    }
    Ok(told)
}

fn told_end(alloc: Global, bound: &Option<Bound>) -> Result<String, NoMemory> {
    match bound {
        Some(bound) => told_bound(alloc, bound),
        None => Ok(format!(in alloc; "-")?),
    }
}

/// The bounds of a range as they are read.
pub fn told_bounds(alloc: Global, range: &Range) -> Result<String, NoMemory> {
    let low = told_end(alloc, &range.low)?;
    let high = told_end(alloc, &range.high)?;
    let starts = if range.starts { ";beginning" } else { "" };
    Ok(format!(in alloc; "{};{}{starts}", low.as_str(), high.as_str())?)
}
