//! The range of an index for a restriction.
ghost use Rattle.std.specs.Prelude.{◌≡◌, ◌≤◌, ◌<◌, ◌+◌, ◌∷◌, [], IfOk, List, Some, length, option_copied};
ghost use Rattle.rv_value.specs.declared.value.Value.{Value as OneValue};
ghost use Rattle.rv_value.specs.declared.value.Value.TheVariants.{Null};
ghost use Rattle.rv_value.specs.declared.range.Side.{Side};
ghost use Rattle.rv_value.specs.Order.{value_cmp};
ghost use Rattle.rv_value.specs.Ranges.{place};
ghost use Rattle.rv_restrict.specs.declared.atom.Tri.{Tri};
ghost use Rattle.rv_restrict.specs.Groups.{groups_of};
ghost use Rattle.rv_restrict.specs.Truth.{truth};
ghost use Rattle.rv_restrict.specs.Ranges.{AreShort, between_limit, closed_bound, compare_limit, equal_range, first_equal, first_start, greater_end, greatest_low, group_limit, high_bound, key_of, least_high, lesser_end, limit, limits_on, null_limit, operand_limit, range_for};
ghost use Rattle.rv_restrict.specs.Limits.{end_of, end_option, given_option, limit_of};

use crate::atom::{Atom, Op, Operand};
use crate::truth::{Restriction, null};
use rv_value::{
    Bound, Duplicate, Key, NoMemory, Range, SharedText, Text, Value, cmp_value, copy_slice,
};
use std::alloc::Global;
use std::cmp::Ordering;

/// A value that an atom gives: one of its literals, or NULL.
#[derive(Clone, Copy)]
enum Given<'a> {
    Nothing,
    Literal(&'a Value),
}

/// A value at which a range may end.
#[derive(Clone, Copy)]
struct Edge<'a> {
    value: Given<'a>,
    closed: bool,
}

/// What a group says of a column.
#[derive(Clone, Copy)]
enum Said<'a> {
    Free,
    Equal(Given<'a>),
    Front(&'a Text),
    Span {
        low: Edge<'a>,
        high: Option<Edge<'a>>,
    },
}

/// What all groups together say of a column beside the value that it must have.
#[derive(Clone, Copy)]
struct Limits<'a> {
    /// The first text with which it must begin.
    front: Option<&'a Text>,
    /// The ends between which it must lie.
    low: Option<Edge<'a>>,
    high: Option<Edge<'a>>,
}

impl Restriction {
    /// The range of an index over these columns in which the key of each row stands for which the
    /// restriction is True. A group bounds it where it is a single atom that compares a column with
    /// a literal, or BETWEEN, STARTING WITH, IS NULL or IS NOT NULL.
    #[tactic(auto, using(crate::proofs::Covers::covers, crate::proofs::Short::range_short))]
    pub fn range_for(&self, alloc: Global, columns: &[u32]) -> Result<Range, NoMemory>
        requires { length columns.now ≤ 4 }
        ensures range { IfOk result (λ r. r ≡ range_for self.now columns.now) }
        ensures short { IfOk result (λ r. AreShort (length columns.now) r) }
        ensures covers { (row : List OneValue) → truth self.now row ≡ Tri.True → IfOk result (λ r. place r (key_of row columns.now) ≡ Side.In) }
    {
        range_on(alloc, self.groups(), columns)
    }
}

fn range_on(alloc: Global, groups: &[Vec<Atom>], columns: &[u32]) -> Result<Range, NoMemory>
    requires { length columns.now ≤ 4 }
    ensures { IfOk result (λ r. r ≡ Rattle.rv_restrict.specs.Ranges.range_from (groups_of groups.now) [] columns.now) }
{
    match columns {
        [column] => match equal_on(groups, *column) {
            Some(value) => range_at(alloc, value),
            None => last_range(alloc, Vec::new(alloc), &limits_on(groups, *column)),
        },
        _ => range_from(alloc, groups, columns, Vec::new(alloc)),
    }
}

/// The range of the keys that are one value, for which no list is made.
fn range_at<'a>(alloc: Global, value: Given<'a>) -> Result<Range, NoMemory>
    ensures { IfOk result (λ r. r ≡ equal_range (Rattle.rv_restrict.specs.Limits.given value.entry ∷ [])) }
{
    let low = value.copy(alloc)?;
    match value.copy(alloc) {
        Ok(high) => Ok(Range {
            low: Some(end_at(low)),
            high: Some(end_at(high)),
            starts: false,
        }),
        Err(fault) => {
            drop(low);
            Err(fault)
        }
    }
}

/// The closed bound of one value.
fn end_at(value: Value) -> Bound
    ensures { Some result ≡ closed_bound (value ∷ []) }
{
    Bound {
        key: Key::one(value),
        closed: true,
    }
}

fn range_from(
    alloc: Global,
    groups: &[Vec<Atom>],
    columns: &[u32],
    prefix: Vec<Value>,
) -> Result<Range, NoMemory>
    requires { length prefix.items + length columns.now ≤ 4 }
    ensures { IfOk result (λ r. r ≡ Rattle.rv_restrict.specs.Ranges.range_from (groups_of groups.now) prefix.items columns.now) }
{
    match columns {
        [] => equal_range(alloc, prefix),
        [column, more @ ..] => match equal_on(groups, *column) {
            Some(value) => {
                let mut prefix = prefix;
                prefix.push(value.copy(alloc)?)?;
                range_from(alloc, groups, more, prefix)
            }
            None => last_range(alloc, prefix, &limits_on(groups, *column)),
        },
    }
}

/// The first value that the column must have.
fn equal_on<'a>(groups: &'a [Vec<Atom>], column: u32) -> Option<Given<'a>>
    ensures { given_option result ≡ first_equal (limits_on column (groups_of groups.now)) }
{
    match groups {
        [] => None,
        [group, more @ ..] => match said_by(group.as_slice(), column) {
            Said::Free => equal_on(more, column),
            Said::Equal(value) => Some(value),
            Said::Front(_text) => equal_on(more, column),
            Said::Span { .. } => equal_on(more, column),
        },
    }
}

fn limits_on<'a>(groups: &'a [Vec<Atom>], column: u32) -> Limits<'a>
    ensures front { option_copied result.front ≡ first_start (limits_on column (groups_of groups.now)) }
    ensures low { end_option result.low ≡ greatest_low (limits_on column (groups_of groups.now)) }
    ensures high { end_option result.high ≡ least_high (limits_on column (groups_of groups.now)) }
{
    match groups {
        [] => Limits {
            front: None,
            low: None,
            high: None,
        },
        [group, more @ ..] => {
            let said = said_by(group.as_slice(), column);
            let limits = limits_on(more, column);
            match said {
                Said::Free => limits,
                Said::Equal(_value) => limits,
                Said::Front(text) => Limits {
                    front: Some(text),
                    ..limits
                },
                Said::Span { low, high } => Limits {
                    low: Some(low.greater(limits.low)),
                    high: lower(high, limits.high),
                    ..limits
                },
            }
        }
    }
}

fn lower<'a>(high: Option<Edge<'a>>, other: Option<Edge<'a>>) -> Option<Edge<'a>>
    ensures { end_option result ≡ Rattle.rv_restrict.specs.Limits.lower (end_option high.entry) (end_option other.entry) }
{
    match high {
        None => other,
        Some(high) => Some(high.lesser(other)),
    }
}

fn said_by<'a>(group: &'a [Atom], column: u32) -> Said<'a>
    ensures { limit_of result ≡ group_limit column group.now }
{
    match group {
        [] => Said::Free,
        [atom] => {
            if is_on(atom, column) {
                atom.said()
            } else {
                Said::Free
            }
        }
        [_first, _second, _more @ ..] => Said::Free,
    }
}

fn is_on(atom: &Atom, column: u32) -> bool
    ensures { result ≡ Rattle.rv_restrict.specs.Ranges.is_on column atom.now }
{
    match atom {
        Atom::Compare { column: named, .. } => named.column == column,
        Atom::Between { column: named, .. } => named.column == column,
        Atom::Among { column: named, .. } => named.column == column,
        Atom::IsNull { column: named, .. } => named.column == column,
        Atom::Starts { column: named, .. } => named.column == column,
        Atom::Const(_) => false,
    }
}

impl Atom {
    /// What the atom says of its column.
    fn said(&self) -> Said<'_>
        ensures { limit_of result ≡ limit self.now }
    {
        match self {
            Atom::Compare {
                column: _,
                op,
                operand,
            } => said_by_operand(*op, operand),
            Atom::Between {
                column: _,
                low,
                high,
            } => said_by_between(low, high),
            Atom::Among { .. } => Said::Free,
            Atom::IsNull { column: _, not } => said_by_null(*not),
            Atom::Starts { column: _, text } => Said::Front(text),
            Atom::Const(_) => Said::Free,
        }
    }
}

fn said_by_null<'a>(not: bool) -> Said<'a>
    ensures { limit_of result ≡ null_limit not }
{
    if not {
        Said::Span {
            low: Edge::lowest(),
            high: None,
        }
    } else {
        Said::Equal(Given::Nothing)
    }
}

fn said_by_between<'a>(low: &'a Value, high: &'a Value) -> Said<'a>
    ensures { limit_of result ≡ between_limit low.now high.now }
{
    if null(low) || null(high) {
        return Said::Free;
    }
    Said::Span {
        low: Edge::at(low, true),
        high: Some(Edge::at(high, true)),
    }
}

fn said_by_operand(op: Op, operand: &Operand) -> Said<'_>
    ensures { limit_of result ≡ operand_limit op operand.now }
{
    match operand {
        Operand::Column(_) => Said::Free,
        Operand::Literal(value) => {
            if null(value) {
                return Said::Free;
            }
            said_by_literal(op, value)
        }
    }
}

fn said_by_literal(op: Op, value: &Value) -> Said<'_>
    ensures { limit_of result ≡ compare_limit op value.now }
{
    match op {
        Op::Eq => Said::Equal(Given::Literal(value)),
        Op::Ne => Said::Free,
        Op::Lt => Said::Span {
            low: Edge::lowest(),
            high: Some(Edge::at(value, false)),
        },
        Op::Le => Said::Span {
            low: Edge::lowest(),
            high: Some(Edge::at(value, true)),
        },
        Op::Gt => Said::Span {
            low: Edge::at(value, false),
            high: None,
        },
        Op::Ge => Said::Span {
            low: Edge::at(value, true),
            high: None,
        },
    }
}

impl<'a> Given<'a> {
    fn copy(self, alloc: Global) -> Result<Value, NoMemory>
        ensures { IfOk result (λ v. v ≡ Rattle.rv_restrict.specs.Limits.given self.entry) }
    {
        match self {
            Given::Nothing => Ok(Value::Null),
            Given::Literal(value) => value.copy(alloc),
        }
    }

    fn cmp(self, other: Given<'a>) -> Ordering
        ensures { result ≡ value_cmp (Rattle.rv_restrict.specs.Limits.given self.entry) (Rattle.rv_restrict.specs.Limits.given other.entry) }
    {
        match (self, other) {
            (Given::Nothing, Given::Nothing) => Ordering::Equal,
            (Given::Nothing, Given::Literal(y)) => cmp_value(&Value::Null, y),
            (Given::Literal(x), Given::Nothing) => cmp_value(x, &Value::Null),
            (Given::Literal(x), Given::Literal(y)) => cmp_value(x, y),
        }
    }
}

impl<'a> Edge<'a> {
    /// NULL, not closed: the low end of an atom that gives none.
    fn lowest() -> Edge<'a>
        ensures { end_of result ≡ Rattle.rv_restrict.specs.Ranges.open_at Null }
    {
        Edge {
            value: Given::Nothing,
            closed: false,
        }
    }

    fn at(value: &'a Value, closed: bool) -> Edge<'a>
        ensures value { end_of result ≡ record { value = value.now; closed = closed } }
    {
        Edge {
            value: Given::Literal(value),
            closed,
        }
    }

    /// The greater of two ends; of equal values the one that is not closed.
    fn greater(self, other: Option<Edge<'a>>) -> Edge<'a>
        ensures { end_of result ≡ greater_end (end_of self.entry) (end_option other.entry) }
    {
        match other {
            None => self,
            Some(other) => match self.value.cmp(other.value) {
                Ordering::Less => other,
                Ordering::Equal => self.not_closed(other),
                Ordering::Greater => self,
            },
        }
    }

    /// The lesser of two ends; of equal values the one that is not closed.
    fn lesser(self, other: Option<Edge<'a>>) -> Edge<'a>
        ensures { end_of result ≡ lesser_end (end_of self.entry) (end_option other.entry) }
    {
        match other {
            None => self,
            Some(other) => match self.value.cmp(other.value) {
                Ordering::Less => self,
                Ordering::Equal => self.not_closed(other),
                Ordering::Greater => other,
            },
        }
    }

    fn not_closed(self, other: Edge<'a>) -> Edge<'a>
        ensures { end_of result ≡ Rattle.rv_restrict.specs.Ranges.not_closed (end_of self.entry) (end_of other.entry) }
    {
        if self.closed { other } else { self }
    }

    /// The bound of a prefix and this end.
    fn bound(self, alloc: Global, prefix: Vec<Value>) -> Result<Bound, NoMemory>
        requires { length prefix.items < 4 }
        ensures { IfOk result (λ b. b ≡ Rattle.rv_restrict.specs.Ranges.bound_at prefix.items (end_of self.entry)) }
    {
        let mut prefix = prefix;
        prefix.push(self.value.copy(alloc)?)?;
        Ok(Bound {
            key: Key::of(alloc, prefix)?,
            closed: self.closed,
        })
    }
}

/// The range where no atom gives the column its value.
fn last_range(alloc: Global, prefix: Vec<Value>, limits: &Limits) -> Result<Range, NoMemory>
    requires { length prefix.items < 4 }
    ensures { IfOk result (λ r. r ≡ Rattle.rv_restrict.specs.Limits.range_of prefix.items limits.now) }
{
    match limits.front {
        Some(text) => starting_range(alloc, prefix, text),
        None => match limits.low {
            Some(low) => bounded_range(alloc, prefix, low, limits.high),
            None => equal_range(alloc, prefix),
        },
    }
}

fn starting_range(alloc: Global, prefix: Vec<Value>, text: &Text) -> Result<Range, NoMemory>
    requires { length prefix.items < 4 }
    ensures { IfOk result (λ r. r ≡ Rattle.rv_restrict.specs.Ranges.starting_range prefix.items text.now) }
{
    let mut prefix = prefix;
    prefix.push(Value::Str(SharedText::read(alloc, text.as_str())?))?;
    Ok(Range {
        low: Some(Bound {
            key: Key::of(alloc, prefix)?,
            closed: true,
        }),
        high: None,
        starts: true,
    })
}

fn bounded_range<'a>(
    alloc: Global,
    prefix: Vec<Value>,
    low: Edge<'a>,
    high: Option<Edge<'a>>,
) -> Result<Range, NoMemory>
    requires { length prefix.items < 4 }
    ensures { IfOk result (λ r. r ≡ Rattle.rv_restrict.specs.Ranges.bounded_range prefix.items (end_of low.entry) (end_option high.entry)) }
{
    let copy = copy_slice(alloc, prefix.as_slice())?;
    Ok(Range {
        low: Some(low.bound(alloc, prefix)?),
        high: high_end(alloc, copy, high)?,
        starts: false,
    })
}

fn high_end<'a>(
    alloc: Global,
    prefix: Vec<Value>,
    high: Option<Edge<'a>>,
) -> Result<Option<Bound>, NoMemory>
    requires { length prefix.items < 4 }
    ensures { IfOk result (λ b. b ≡ high_bound prefix.items (end_option high.entry)) }
{
    match high {
        None => prefix_end(alloc, prefix),
        Some(high) => Ok(Some(high.bound(alloc, prefix)?)),
    }
}

/// The range of all keys that begin with a prefix.
fn equal_range(alloc: Global, prefix: Vec<Value>) -> Result<Range, NoMemory>
    requires { length prefix.items ≤ 4 }
    ensures { IfOk result (λ r. r ≡ Rattle.rv_restrict.specs.Ranges.equal_range prefix.items) }
{
    let low = prefix_end(alloc, prefix)?;
    match low.copy(alloc) {
        Ok(high) => Ok(Range {
            low,
            high,
            starts: false,
        }),
        Err(fault) => {
            drop(low);
            Err(fault)
        }
    }
}

/// The closed bound of a prefix; none where it is empty.
fn prefix_end(alloc: Global, prefix: Vec<Value>) -> Result<Option<Bound>, NoMemory>
    requires { length prefix.items ≤ 4 }
    ensures { IfOk result (λ bound. bound ≡ closed_bound prefix.items) }
{
    if prefix.is_empty() {
        return Ok(None);
    }
    Ok(Some(Bound {
        key: Key::of(alloc, prefix)?,
        closed: true,
    }))
}
