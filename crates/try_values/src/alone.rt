//! Restrictions without a row: their ranges, their parts, and a comparison of two places that is bound at the second.
ghost use Rattle.std.specs.Prelude.{◌≤◌, length};

use crate::orders::yes_or_no;
use crate::placing::columns;
use crate::ranges::told_bounds;
use rv_loading::{Fault, cut, integer, restriction};
use rv_restrict::{Atom, ColRef, Op, Operand, Part, Restriction};
use rv_value::{Duplicate, NoMemory, Value, Values};
use std::alloc::Global;

/// The range of a restriction over the columns of an index.
fn range_text(alloc: Global, only: &Restriction, columns: &[u32]) -> Result<String, NoMemory>
    requires { length columns.now ≤ 4 }
{
    let range = only.range_for(alloc, columns)?;
    let told = told_bounds(alloc, &range);
    drop(range);
    told
}

/// The same of its copy.
fn copied_range_text(alloc: Global, only: &Restriction, columns: &[u32]) -> Result<String, NoMemory>
    requires { length columns.now ≤ 4 }
{
    let copy = only.copy(alloc)?;
    let told = range_text(alloc, &copy, columns);
    drop(copy);
    told
}

/// The range of a copy of a restriction over the columns of an index.
pub fn told_range(alloc: Global, text: &str) -> Result<String, Fault> {
    let (index, only) = cut(text, ';')?;
    let columns = columns(alloc, index)?;
    if columns.len() > 4 {
        return Err(Fault::Form);
    }
    let only = restriction(alloc, only, " & ", " / ")?;
    let told = copied_range_text(alloc, &only, columns.as_slice());
    drop(only);
    Ok(told?)
}

/// Whether the part of a restriction for some columns is that for other ones, and is its copy.
pub fn told_parts(alloc: Global, text: &str) -> Result<String, Fault> {
    let (first, rest) = cut(text, ';')?;
    let (second, only) = cut(rest, ';')?;
    let first = columns(alloc, first)?;
    let second = columns(alloc, second)?;
    let only = restriction(alloc, only, " & ", " / ")?;
    let told = compared(alloc, &only, first.as_slice(), second.as_slice());
    drop(only);
    Ok(told?)
}

fn compared(
    alloc: Global,
    only: &Restriction,
    first: &[u32],
    second: &[u32],
) -> Result<String, NoMemory> {
    let part = only.index_part(alloc, first)?;
    let told = compared_part(alloc, only, &part, second);
    drop(part);
    told
}

fn compared_part(
    alloc: Global,
    only: &Restriction,
    part: &Part,
    second: &[u32],
) -> Result<String, NoMemory> {
    let same = yes_or_no(is_part(alloc, only, part, second)?);
    let copied = yes_or_no(is_copied(alloc, part)?);
    Ok(format!(in alloc; "same {same}, copied {copied}")?)
}

fn is_part(
    alloc: Global,
    only: &Restriction,
    part: &Part,
    columns: &[u32],
) -> Result<bool, NoMemory> {
    let other = only.index_part(alloc, columns)?;
    let same = part.is(&other);
    drop(other);
    Ok(same)
}

fn is_copied(alloc: Global, part: &Part) -> Result<bool, NoMemory> {
    let copy = part.copy(alloc)?;
    let same = copy.is(part);
    drop(copy);
    Ok(same)
}

/// Column 0 of place 0 less than column 0 of place 1, bound at place 1 behind a row of this number.
fn bound_behind(alloc: Global, number: i64) -> Result<Restriction, NoMemory> {
    let less = Atom::Compare {
        column: ColRef {
            place: 0,
            column: 0,
        },
        op: Op::Lt,
        operand: Operand::Column(ColRef {
            place: 1,
            column: 0,
        }),
    };
    let group = vec![in alloc; less]?;
    let only = Restriction::from_groups(vec![in alloc; group]?);
    let row = Values::of(alloc, vec![in alloc; Value::Int(number)]?)?;
    only.bind(
        alloc,
        1,
        std::slice::from_ref(&row),
        Restriction::from_groups(Vec::new(alloc)),
    )
}

/// The range that a comparison of two places has at the second one, behind a row of a number.
pub fn told_bound(alloc: Global, text: &str) -> Result<String, Fault> {
    let bound = bound_behind(alloc, integer(text)?)?;
    let told = range_text(alloc, &bound, &[0]);
    drop(bound);
    Ok(told?)
}
