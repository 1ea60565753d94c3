//! What a text derives: statements with the names as they stand, in upper case, before any is looked up.
use rv_value::{Items, Text, Value, Values};

/// A statement.
#[derive(Drop, Debug, PartialEq, Eq)]
pub enum Statement {
    CreateTable {
        name: Text,
        columns: Items<(Text, RawKind)>,
    },
    CreateIndex {
        unique: bool,
        name: Text,
        table: Text,
        columns: Items<Text>,
    },
    Begin {
        read_only: bool,
    },
    Insert {
        table: Text,
        values: Values,
    },
    /// Without WHERE `only` has no group.
    Update {
        table: Text,
        sets: Items<(Text, Value)>,
        only: Items<Items<RawAtom>>,
    },
    Delete {
        table: Text,
        only: Items<Items<RawAtom>>,
    },
    Commit,
    Rollback,
    /// `returned` is None for `*`; `items` are tables with an optional second name; without ORDER
    /// BY `order` is empty.
    Open {
        cursor: Text,
        returned: Option<Items<RawCol>>,
        items: Items<(Text, Option<Text>)>,
        only: Items<Items<RawAtom>>,
        order: Items<RawCol>,
        goal: RawGoal,
    },
    Fetch {
        cursor: Text,
    },
    Show {
        cursor: Text,
    },
    Close {
        cursor: Text,
    },
    Step {
        cursor: Text,
        n: i64,
    },
}

/// A reference to a column, with the name of its FROM item where that is written.
#[derive(Drop, Debug, PartialEq, Eq)]
pub struct RawCol {
    pub table: Option<Text>,
    pub column: Text,
}

/// BIGINT, or VARCHAR of a length that is not tested yet.
#[derive(Clone, Copy, Debug, PartialEq, Eq)]
pub enum RawKind {
    Big,
    Chars(i64),
}

/// What OPTIMIZE asks; total time without it.
#[derive(Clone, Copy, Debug, PartialEq, Eq)]
pub enum RawGoal {
    FastFirst,
    TotalTime,
}

/// `=`, `<>`, `<`, `<=`, `>` and `>=`.
#[derive(Clone, Copy, Debug, PartialEq, Eq)]
pub enum RawOp {
    Eq,
    Ne,
    Lt,
    Le,
    Gt,
    Ge,
}

/// The right side of a comparison.
#[derive(Drop, Debug, PartialEq, Eq)]
pub enum RawOperand {
    Literal(Value),
    Column(RawCol),
}

/// An atom of a condition.
#[derive(Drop, Debug, PartialEq, Eq)]
pub enum RawAtom {
    Compare {
        column: RawCol,
        op: RawOp,
        operand: RawOperand,
    },
    Between {
        column: RawCol,
        low: Value,
        high: Value,
    },
    Among {
        column: RawCol,
        list: Values,
    },
    IsNull {
        column: RawCol,
        not: bool,
    },
    Starts {
        column: RawCol,
        text: Text,
    },
}
