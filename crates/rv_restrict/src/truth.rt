//! The truth of restrictions.
ghost use Rattle.std.specs.Prelude.{◌≡◌, true, Bool, IfOk};
ghost use Rattle.rv_value.specs.declared.value.Value.{Value as OneValue};
ghost use Rattle.rv_value.specs.declared.value.Value.TheVariants.{Int};
ghost use Rattle.rv_restrict.specs.declared.atom.ColRef.{ColRef as Column};
ghost use Rattle.rv_restrict.specs.Groups.{groups_of};
ghost use Rattle.rv_restrict.specs.Truth.{among, atom_names_only, atom_truth, between, compared, greater, group_names_only, group_truth, is_null, lesser, names_only, null_test, operand_names_only, row_has, row_reads, started, truth, truth_by, truth_of, value_of};

use crate::atom::{Atom, ColRef, Op, Operand, Tri};
use rv_value::{Duplicate, NoMemory, Text, Value, Values, cmp_value, copy_slice};
use std::alloc::Global;
use std::cmp::Ordering;
use std::marker::Model;

/// Rows whose columns a restriction reads: which columns they have, and the value of each.
pub trait Reads {
    ghost reads: { Self → Column → OneValue };

    ghost has: { Self → Column → Bool };

    /// The value of a column.
    fn value(&self, column: ColRef) -> &Value
        requires { has self.now column ≡ true }
        ensures { result.now ≡ reads self.now column };
}

impl Reads for Values {
    ghost reads = { row_reads };

    ghost has = { row_has };

    fn value(&self, column: ColRef) -> &Value {
        &self.as_slice()[column.column as usize]
    }
}

/// A condition on rows: the AND of groups, each of which is the OR of its atoms. Without groups it
/// is True; a group without atoms is False.
#[derive(Drop)]
pub struct Restriction {
    groups: Vec<Vec<Atom>>,
}

impl Model for Restriction {
    ghost use Rattle.std.specs.Prelude.{List};
    ghost use Rattle.rv_restrict.specs.declared.atom.Atom.{Atom as OneAtom};
    ghost use Rattle.rv_restrict.specs.Groups.{groups_of};

    ghost Value = { List (List OneAtom) };

    ghost view = { λ r. groups_of r.groups.items };
}

impl Restriction {
    /// The AND of these groups. It takes no memory.
    pub fn from_groups(groups: Vec<Vec<Atom>>) -> Restriction
        ensures { result ≡ groups_of groups.items }
    {
        Restriction { groups }
    }

    /// The groups in order, for what is made in their memory.
    pub(crate) fn into_groups(self) -> Vec<Vec<Atom>>
        ensures { groups_of result.items ≡ self }
    {
        let Restriction { groups } = self;
        groups
    }

    /// The groups in order.
    pub fn groups(&self) -> &[Vec<Atom>]
        ensures { groups_of result.now ≡ self.now }
    {
        self.groups.as_slice()
    }

    /// The truth on a row. WHERE keeps the rows for which it is True.
    pub fn truth(&self, row: &Values) -> Tri
        requires { names_only (row_has row.now) self.now ≡ true }
        ensures { result ≡ truth self.now row.now }
    {
        all_groups(self.groups.as_slice(), row)
    }

    /// The truth on rows of any kind that have its columns, in three values: the least truth of its groups, each the
    /// greatest of its atoms. It ends at the first group that is False.
    pub fn truth_on<R: Reads>(&self, rows: &R) -> Tri
        requires { names_only (R.has rows.now) self.now ≡ true }
        ensures { result ≡ truth_by (R.reads rows.now) self.now }
    {
        all_groups(self.groups.as_slice(), rows)
    }
}

impl Duplicate for Restriction {
    fn copy(&self, alloc: Global) -> Result<Restriction, NoMemory> {
        Ok(Restriction::from_groups(copy_groups(alloc, self.groups())?))
    }
}

/// Copies of all groups, in their order. `NoMemory` where an allocation fails.
pub fn copy_groups(alloc: Global, groups: &[Vec<Atom>]) -> Result<Vec<Vec<Atom>>, NoMemory>
    ensures { IfOk result (λ copies. groups_of copies.items ≡ groups_of groups.now) }
{
    let mut copies = Vec::with_capacity(alloc, groups.len())?;
    'groups: for group in groups {
        copies.push(copy_slice(alloc, group.as_slice())?)?;
    }
    Ok(copies)
}

/// The least truth of groups. It ends at the first that is False.
pub fn all_groups<R: Reads>(groups: &[Vec<Atom>], rows: &R) -> Tri
    requires { names_only (R.has rows.now) (groups_of groups.now) ≡ true }
    ensures { result ≡ truth_by (R.reads rows.now) (groups_of groups.now) }
{
    match groups {
        [group] => any_atom(group.as_slice(), rows),
        _ => least_group(groups, rows),
    }
}

fn least_group<R: Reads>(groups: &[Vec<Atom>], rows: &R) -> Tri
    requires { names_only (R.has rows.now) (groups_of groups.now) ≡ true }
    ensures { result ≡ truth_by (R.reads rows.now) (groups_of groups.now) }
{
    match groups {
        [] => Tri::True,
        [group, more @ ..] => match any_atom(group.as_slice(), rows) {
            Tri::False => Tri::False,
            truth => truth.and(least_group(more, rows)),
        },
    }
}

/// The greatest truth of atoms. It ends at the first that is True.
fn any_atom<R: Reads>(atoms: &[Atom], rows: &R) -> Tri
    requires { group_names_only (R.has rows.now) atoms.now ≡ true }
    ensures { result ≡ group_truth (R.reads rows.now) atoms.now }
{
    match atoms {
        [atom] => atom.truth(rows),
        _ => greatest_atom(atoms, rows),
    }
}

fn greatest_atom<R: Reads>(atoms: &[Atom], rows: &R) -> Tri
    requires { group_names_only (R.has rows.now) atoms.now ≡ true }
    ensures { result ≡ group_truth (R.reads rows.now) atoms.now }
{
    match atoms {
        [] => Tri::False,
        [atom, more @ ..] => match atom.truth(rows) {
            Tri::True => Tri::True,
            truth => truth.or(greatest_atom(more, rows)),
        },
    }
}

impl Tri {
    /// The greater truth, in the order False, Unknown, True: SQL's OR.
    pub fn or(self, other: Tri) -> Tri
        ensures { result ≡ greater self other }
    {
        match (self, other) {
            (Tri::True, _) => Tri::True,
            (Tri::False, truth) => truth,
            (Tri::Unknown, Tri::True) => Tri::True,
            (Tri::Unknown, Tri::False) => Tri::Unknown,
            (Tri::Unknown, Tri::Unknown) => Tri::Unknown,
        }
    }

    /// The lesser truth, in the order False, Unknown, True: SQL's AND.
    pub fn and(self, other: Tri) -> Tri
        ensures { result ≡ lesser self other }
    {
        match (self, other) {
            (Tri::False, _) => Tri::False,
            (Tri::True, truth) => truth,
            (Tri::Unknown, Tri::False) => Tri::False,
            (Tri::Unknown, Tri::True) => Tri::Unknown,
            (Tri::Unknown, Tri::Unknown) => Tri::Unknown,
        }
    }
}

impl Atom {
    /// The truth on rows that have its columns, in three values.
    pub fn truth<R: Reads>(&self, rows: &R) -> Tri
        requires { atom_names_only (R.has rows.now) self.now ≡ true }
        ensures { result ≡ atom_truth (R.reads rows.now) self.now }
    {
        match self {
            Atom::Compare {
                column,
                op,
                operand,
            } => compare(rows.value(*column), *op, operand.value(rows)),
            Atom::Between { column, low, high } => lies_between(rows.value(*column), low, high),
            Atom::Among { column, list } => is_among(rows.value(*column), list.as_slice()),
            Atom::IsNull { column, not } => test_null(*not, rows.value(*column)),
            Atom::Starts { column, text } => starts(rows.value(*column), text),
            Atom::Const(truth) => *truth,
        }
    }
}

impl Operand {
    fn value<'a, R: Reads>(&'a self, rows: &'a R) -> &'a Value
        requires { operand_names_only (R.has rows.now) self.now ≡ true }
        ensures { result.now ≡ value_of (R.reads rows.now) self.now }
    {
        match self {
            Operand::Literal(value) => value,
            Operand::Column(column) => rows.value(*column),
        }
    }
}

/// Whether a value is NULL.
pub fn null(value: &Value) -> bool
    ensures { result ≡ is_null value.now }
{
    match value {
        Value::Null => true,
        Value::Int(_) => false,
        Value::Str(_) => false,
    }
}

fn known(holds: bool) -> Tri
    ensures { result ≡ truth_of holds }
{
    if holds { Tri::True } else { Tri::False }
}

fn answers(op: Op, order: Ordering) -> bool
    ensures { result ≡ Rattle.rv_restrict.specs.Truth.answers op order }
{
    match op {
        Op::Eq => order.is_eq(),
        Op::Ne => order.is_ne(),
        Op::Lt => order.is_lt(),
        Op::Le => order.is_le(),
        Op::Gt => order.is_gt(),
        Op::Ge => order.is_ge(),
    }
}

fn compare(x: &Value, op: Op, y: &Value) -> Tri
    ensures { result ≡ compared x.now op y.now }
{
    match (x, y) {
        (Value::Int(x), Value::Int(y)) => known(answers(op, x.cmp(y))),
        _ => compare_any(x, op, y),
    }
}

fn compare_any(x: &Value, op: Op, y: &Value) -> Tri
    ensures { result ≡ compared x.now op y.now }
{
    if null(x) || null(y) {
        return Tri::Unknown;
    }
    known(answers(op, cmp_value(x, y)))
}

fn lies_between(x: &Value, low: &Value, high: &Value) -> Tri
    ensures { result ≡ between x.now low.now high.now }
{
    match (x, low, high) {
        (Value::Int(x), Value::Int(low), Value::Int(high)) => number_between(*x, *low, *high),
        _ => any_between(x, low, high),
    }
}

fn number_between(x: i64, low: i64, high: i64) -> Tri
    ensures { result ≡ between (Int x) (Int low) (Int high) }
{
    if x.cmp(&low).is_ge() {
        known(x.cmp(&high).is_le())
    } else {
        Tri::False
    }
}

fn any_between(x: &Value, low: &Value, high: &Value) -> Tri
    ensures { result ≡ between x.now low.now high.now }
{
    match compare_any(x, Op::Ge, low) {
        Tri::False => Tri::False,
        truth => truth.and(compare_any(x, Op::Le, high)),
    }
}

fn is_among(x: &Value, list: &[Value]) -> Tri
    ensures { result ≡ among x.now list.now }
{
    match list {
        [] => Tri::False,
        [value, more @ ..] => match compare(x, Op::Eq, value) {
            Tri::True => Tri::True,
            truth => truth.or(is_among(x, more)),
        },
    }
}

fn test_null(not: bool, x: &Value) -> Tri
    ensures { result ≡ null_test not x.now }
{
    known(null(x) != not)
}

fn starts(x: &Value, text: &Text) -> Tri
    ensures { result ≡ started x.now text.now }
{
    match x {
        Value::Null => Tri::Unknown,
        Value::Int(_) => Tri::False,
        Value::Str(whole) => known(
            whole
                .as_str()
                .as_bytes()
                .starts_with(text.as_str().as_bytes()),
        ),
    }
}
