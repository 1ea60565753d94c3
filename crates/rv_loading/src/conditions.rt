//! Restrictions and values, from their text.
use crate::words::{Fault, comparison, cut, integer, small};
use rv_restrict::{Atom, ColRef, Operand, Restriction, Tri};
use rv_value::{SharedText, Text, Value, Values};
use std::alloc::Global;

/// The value of a word: N for NULL, a text behind a quote, else a number.
pub fn value(alloc: Global, word: &str) -> Result<Value, Fault> {
    if word == "N" {
        return Ok(Value::Null);
    }
    match word.strip_prefix("'") {
        Some(text) => Ok(Value::Str(SharedText::read(alloc, text)?)),
        None => Ok(Value::Int(integer(word)?)),
    }
}

/// The values of words that single spaces part.
pub fn values(alloc: Global, text: &str) -> Result<Vec<Value>, Fault> {
    let mut found = Vec::new(alloc);
    'words: for word in text.split(' ') {
        found.push(value(alloc, word)?)?;
    }
    Ok(found)
}

fn column_at(place: u32, letter: &str) -> Option<ColRef> {
    match letter {
        "a" => Some(ColRef { place, column: 0 }),
        "b" => Some(ColRef { place, column: 1 }),
        "c" => Some(ColRef { place, column: 2 }),
        _ => None,
    }
}

/// The columns a, b and c: of place 0, or of the place that stands before a point.
pub fn column(word: &str) -> Option<ColRef> {
    match word.split_once('.') {
        Some((place, letter)) => column_at(small(place).ok()?, letter),
        None => column_at(0, word),
    }
}

/// The groups that `and` parts, their atoms parted by `or`; none in an empty text. An atom is `true`, `false` or `unknown`,
/// or a column with `null`, `present`, `between` and two values, `in` and some, `starts` and a text, or a comparison with a
/// column or a value.
pub fn restriction(alloc: Global, text: &str, and: &str, or: &str) -> Result<Restriction, Fault> {
    let mut found = Vec::new(alloc);
    if text.is_empty() {
        return Ok(Restriction::from_groups(found));
    }
    'groups: for part in text.split(and) {
        found.push(group(alloc, part, or)?)?;
    }
    Ok(Restriction::from_groups(found))
}

fn group(alloc: Global, text: &str, or: &str) -> Result<Vec<Atom>, Fault> {
    let mut found = Vec::new(alloc);
    'atoms: for part in text.split(or) {
        found.push(atom(alloc, part)?)?;
    }
    Ok(found)
}

fn atom(alloc: Global, text: &str) -> Result<Atom, Fault> {
    let Some((name, test)) = text.split_once(' ') else {
        return Ok(Atom::Const(truth(text)?));
    };
    let column = column(name).ok_or(Fault::Form)?;
    let Some((word, rest)) = test.split_once(' ') else {
        return null_test(column, test);
    };
    match word {
        "between" => between(alloc, column, rest),
        "in" => among(alloc, column, rest),
        "starts" => starts(alloc, column, rest),
        _ => compare(alloc, column, word, rest),
    }
}

fn truth(word: &str) -> Result<Tri, Fault> {
    match word {
        "true" => Ok(Tri::True),
        "false" => Ok(Tri::False),
        "unknown" => Ok(Tri::Unknown),
        _ => Err(Fault::Form),
    }
}

fn null_test(column: ColRef, word: &str) -> Result<Atom, Fault> {
    match word {
        "null" => Ok(Atom::IsNull { column, not: false }),
        "present" => Ok(Atom::IsNull { column, not: true }),
        _ => Err(Fault::Form),
    }
}

fn between(alloc: Global, column: ColRef, rest: &str) -> Result<Atom, Fault> {
    let (low, high) = cut(rest, ' ')?;
    let low = value(alloc, low)?;
    match value(alloc, high) {
        Ok(high) => Ok(Atom::Between { column, low, high }),
        Err(fault) => {
            drop(low);
            Err(fault)
        }
    }
}

fn among(alloc: Global, column: ColRef, rest: &str) -> Result<Atom, Fault> {
    let values = values(alloc, rest)?;
    let list = Values::of(alloc, values)?;
    Ok(Atom::Among { column, list })
}

fn starts(alloc: Global, column: ColRef, rest: &str) -> Result<Atom, Fault> {
    let text = rest.strip_prefix("'").ok_or(Fault::Form)?;
    let text = Text::read(alloc, text)?;
    Ok(Atom::Starts { column, text })
}

fn compare(alloc: Global, column: ColRef, word: &str, rest: &str) -> Result<Atom, Fault> {
    let op = comparison(word)?;
    let operand = operand(alloc, rest)?;
    Ok(Atom::Compare {
        column,
        op,
        operand,
    })
}

fn operand(alloc: Global, word: &str) -> Result<Operand, Fault> {
    match column(word) {
        Some(column) => Ok(Operand::Column(column)),
        None => Ok(Operand::Literal(value(alloc, word)?)),
    }
}
