//! Tables and indexes as the catalog has them, and statements with numbers for names.
use rv_lang::Refusal;
use rv_restrict::{ColRef, Restriction};
use rv_value::{Items, Kind, NoMemory, Text, Value, Values};
use std::alloc::{AllocError, AllocFailed};

/// A table: its name, and the name and kind of each column.
#[derive(Drop, PartialEq, Eq)]
pub struct TableDef {
    pub name: Text,
    pub columns: Items<(Text, Kind)>,
}

/// An index: its name, the number of its table, the numbers of its columns in the order of its
/// keys, and whether two rows may not be equal in it.
#[derive(Drop, PartialEq, Eq)]
pub struct IndexDef {
    pub name: Text,
    pub table: u32,
    pub columns: Items<u32>,
    pub unique: bool,
}

/// What a retrieval is to be good at.
#[derive(Clone, Copy, PartialEq, Eq)]
pub enum Goal {
    FastFirst,
    TotalTime,
}

/// A query: the tables of its FROM items, the condition over them, and the columns returned and
/// sorted by.
#[derive(Drop)]
pub struct Select {
    pub tables: Items<u32>,
    pub only: Restriction,
    pub returns: Items<ColRef>,
    pub order: Items<ColRef>,
    pub goal: Goal,
}

/// A statement with numbers for names. `only` is over place 0 alone but in a `Select`, where a
/// place is the position of a FROM item.
#[derive(Drop)]
pub enum Resolved {
    CreateTable(TableDef),
    CreateIndex(IndexDef),
    Begin {
        read_only: bool,
    },
    Insert {
        table: u32,
        values: Values,
    },
    /// `sets` are columns with their new values.
    Update {
        table: u32,
        sets: Items<(u32, Value)>,
        only: Restriction,
    },
    Delete {
        table: u32,
        only: Restriction,
    },
    Commit,
    Rollback,
    Open {
        cursor: Text,
        select: Select,
    },
    Fetch(Text),
    Step {
        cursor: Text,
        n: u64,
    },
    Show(Text),
    Close(Text),
}

/// Why a statement was not resolved.
#[derive(Drop, PartialEq, Eq)]
pub enum BindFault {
    Refused(Refusal),
    NoMemory,
}

impl From<NoMemory> for BindFault {
    ghost use Rattle.std.specs.Prelude.{◌≡◌};
    ghost use Rattle.rv_catalog.specs.declared.def.BindFault.{BindFault as Fault};

    ghost from_gives = { λ x y. y ≡ Fault.NoMemory };

    fn from(_fault: NoMemory) -> BindFault {
        BindFault::NoMemory
    }
}

impl<T: Drop> From<AllocFailed<T>> for BindFault {
    ghost use Rattle.std.specs.Prelude.{◌≡◌};
    ghost use Rattle.rv_catalog.specs.declared.def.BindFault.{BindFault as Fault};

    ghost from_gives = { λ x y. y ≡ Fault.NoMemory };

    fn from(_fault: AllocFailed<T>) -> BindFault {
        BindFault::NoMemory
    }
}

impl From<AllocError> for BindFault {
    ghost use Rattle.std.specs.Prelude.{◌≡◌};
    ghost use Rattle.rv_catalog.specs.declared.def.BindFault.{BindFault as Fault};

    ghost from_gives = { λ x y. y ≡ Fault.NoMemory };

    fn from(_fault: AllocError) -> BindFault {
        BindFault::NoMemory
    }
}
