//! Atoms: the tests of which restrictions are made.
ghost use Rattle.std.specs.Prelude.{◌≡◌, ◌↔◌, IsTrue};

use rv_value::{Duplicate, NoMemory, Text, Value, Values};
use std::alloc::Global;

/// A truth of SQL's three-valued logic. A comparison with NULL is Unknown.
#[derive(Clone, Copy, PartialEq, Eq)]
pub enum Tri {
    True,
    False,
    Unknown,
}

/// A column of a FROM item; `place` is the item's position, from 0.
#[derive(Clone, Copy, PartialEq, Eq)]
pub struct ColRef {
    pub place: u32,
    pub column: u32,
}

/// `=`, `<>`, `<`, `<=`, `>` and `>=`.
#[derive(Clone, Copy, PartialEq, Eq)]
pub enum Op {
    Eq,
    Ne,
    Lt,
    Le,
    Gt,
    Ge,
}

/// The right side of a comparison.
#[derive(Drop, PartialEq, Eq)]
pub enum Operand {
    Literal(Value),
    Column(ColRef),
}

/// A test of one row, or of one choice of rows.
#[derive(Drop, PartialEq, Eq)]
pub enum Atom {
    Compare {
        column: ColRef,
        op: Op,
        operand: Operand,
    },
    Between {
        column: ColRef,
        low: Value,
        high: Value,
    },
    /// IN
    Among {
        column: ColRef,
        list: Values,
    },
    /// IS NULL, or with `not` IS NOT NULL
    IsNull {
        column: ColRef,
        not: bool,
    },
    /// STARTING WITH
    Starts {
        column: ColRef,
        text: Text,
    },
    /// A test whose columns had their values when it was bound.
    Const(Tri),
}

impl Duplicate for ColRef {
    fn copy(&self, _alloc: Global) -> Result<ColRef, NoMemory> {
        Ok(*self)
    }
}

impl Duplicate for Operand {
    fn copy(&self, alloc: Global) -> Result<Operand, NoMemory> {
        match self {
            Operand::Literal(value) => Ok(Operand::Literal(value.copy(alloc)?)),
            Operand::Column(column) => Ok(Operand::Column(*column)),
        }
    }
}

impl Duplicate for Atom {
    fn copy(&self, alloc: Global) -> Result<Atom, NoMemory> {
        match self {
            Atom::Compare {
                column,
                op,
                operand,
            } => Ok(Atom::Compare {
                column: *column,
                op: *op,
                operand: operand.copy(alloc)?,
            }),
            Atom::Between { column, low, high } => Ok(Atom::Between {
                column: *column,
                low: low.copy(alloc)?,
                high: high.copy(alloc)?,
            }),
            Atom::Among { column, list } => Ok(Atom::Among {
                column: *column,
                list: list.copy(alloc)?,
            }),
            Atom::IsNull { column, not } => Ok(Atom::IsNull {
                column: *column,
                not: *not,
            }),
            Atom::Starts { column, text } => Ok(Atom::Starts {
                column: *column,
                text: text.copy(alloc)?,
            }),
            Atom::Const(truth) => Ok(Atom::Const(*truth)),
        }
    }
}

impl Operand {
    /// Whether both are the same; here NULL is NULL.
    pub fn is(&self, other: &Operand) -> bool
        ensures { IsTrue result ↔ (self.now ≡ other.now) }
    {
        match (self, other) {
            (Operand::Literal(a), Operand::Literal(b)) => a.is(b),
            (Operand::Column(a), Operand::Column(b)) => same_column(*a, *b),
            (Operand::Literal(_), Operand::Column(_)) => false,
            (Operand::Column(_), Operand::Literal(_)) => false,
        }
    }
}

impl Atom {
    /// Whether both are the same test; here NULL is NULL.
    pub fn is(&self, other: &Atom) -> bool
        ensures { IsTrue result ↔ (self.now ≡ other.now) }
    {
        match (self, other) {
            (
                Atom::Compare {
                    column,
                    op,
                    operand,
                },
                Atom::Compare {
                    column: c,
                    op: p,
                    operand: o,
                },
            ) => same_column(*column, *c) && same_op(*op, *p) && operand.is(o),
            (
                Atom::Between { column, low, high },
                Atom::Between {
                    column: c,
                    low: l,
                    high: h,
                },
            ) => same_column(*column, *c) && low.is(l) && high.is(h),
            (Atom::Among { column, list }, Atom::Among { column: c, list: l }) => {
                same_column(*column, *c) && same_values(list.as_slice(), l.as_slice())
            }
            (Atom::IsNull { column, not }, Atom::IsNull { column: c, not: n }) => {
                same_column(*column, *c) && *not == *n
            }
            (Atom::Starts { column, text }, Atom::Starts { column: c, text: t }) => {
                same_column(*column, *c) && text.is(t.as_str())
            }
            (Atom::Const(t), Atom::Const(u)) => same_truth(*t, *u),
            _ => false,
        }
    }
}

fn same_op(a: Op, b: Op) -> bool
    ensures { IsTrue result ↔ (a ≡ b) }
{
    a == b
}

fn same_truth(a: Tri, b: Tri) -> bool
    ensures { IsTrue result ↔ (a ≡ b) }
{
    a == b
}

fn same_column(a: ColRef, b: ColRef) -> bool
    ensures { IsTrue result ↔ (a ≡ b) }
{
    a == b
}

fn same_values(a: &[Value], b: &[Value]) -> bool
    ensures { IsTrue result ↔ (a.now ≡ b.now) }
{
    match (a, b) {
        ([], []) => true,
        ([x, more @ ..], [y, others @ ..]) => x.is(y) && same_values(more, others),
        ([], [_first, _more @ ..]) => false,
        ([_first, _more @ ..], []) => false,
    }
}
