//! What changes do to rows.
ghost use Rattle.std.specs.Prelude.{◌<◌, ◌≤◌};
ghost use Rattle.try_stores.specs.Twins.{AreLaid};

use crate::paged::twins::Twins;
use rv_loading::row_of;
use rv_reader::Change;
use rv_value::{NoMemory, RowNo};
use std::alloc::Global;

/// How many changes put a row in, gave a row other values, took one away, or were of no row.
#[derive(Clone, Copy)]
pub struct Kinds {
    pub inserts: u64,
    pub updates: u64,
    pub deletes: u64,
    pub none: u64,
}

impl Kinds {
    /// No change seen yet.
    pub fn new() -> Kinds {
        Kinds {
            inserts: 0,
            updates: 0,
            deletes: 0,
            none: 0,
        }
    }

    fn add(&mut self, before: bool, after: bool) {
        match (before, after) {
            (false, true) => self.inserts = self.inserts.saturating_add(1),
            (true, true) => self.updates = self.updates.saturating_add(1),
            (true, false) => self.deletes = self.deletes.saturating_add(1),
            (false, false) => self.none = self.none.saturating_add(1),
        }
    }
}

/// Whether a table has a row at the newest commit.
fn is_there(alloc: Global, twins: &Twins, table: u32, row: RowNo) -> Result<bool, NoMemory>
    requires laid { AreLaid twins.now }
    requires there { table < twins.now.layout.tables }
{
    let newest = twins.layout.newest;
    let found = row_of(alloc, &twins.plain, twins.layout, table, newest, row)?;
    let is_there = found.is_some();
    drop(found);
    Ok(is_there)
}

/// Counts changes that are to come, by the rows of the newest commit.
pub fn count_kinds(
    alloc: Global,
    twins: &Twins,
    changes: &[Change],
    kinds: &mut Kinds,
) -> Result<(), NoMemory>
    requires { AreLaid twins.now }
{
    'changes: for change in changes {
        if change.table < twins.layout.tables {
            let before = is_there(alloc, twins, change.table, change.row)?;
            kinds.add(before, change.values.is_some());
        }
    }
    Ok(())
}
