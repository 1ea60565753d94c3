ghost use Rattle.std.specs.Prelude.{◌≡◌, ℕ, ◌+◌, ◌-◌, ◌<◌, ◌≤◌, OnOk, length, ◌∷◌, []};
ghost use Rattle.std.specs.List.{AllByRecursion};
ghost use Rattle.rv_records.specs.Pages.{IsBelow, IsSame, IsPut};
ghost use Rattle.rv_store.specs.Tables.{table_at, AreOpen, AreSameBelow, AreChanged, CanPut};

use rv_records::Records;
use rv_rows::Change;
use rv_value::{Duplicate, NoMemory};
use std::alloc::Global;

/// A table: the number of its columns, and its rows.
#[derive(Drop)]
pub struct Table {
    pub width: u32,
    pub records: Records,
}

/// Puts a change into its table, from a commit on.
fn put_change(
    alloc: Global,
    tables: &mut Vec<Table>,
    change: &Change,
    commit: u64,
) -> Result<(), NoMemory>
    requires open { AreOpen commit tables.old.items }
    requires can { CanPut (length tables.old.items) change.now }
    ensures same { AreSameBelow commit tables.old.items tables.new.items }
    ensures open { AreOpen commit tables.new.items }
    ensures changed { OnOk result (AreChanged commit (change.now ∷ []) tables.old.items tables.new.items) }
{
    let values = change.values.copy(alloc)?;
    tables[change.table as usize]
        .records
        .put(change.row, values, commit)
}

/// Puts changes into their tables, one after another, from a commit on.
pub fn put_changes(
    alloc: Global,
    tables: &mut Vec<Table>,
    changes: &[Change],
    commit: u64,
) -> Result<(), NoMemory>
    requires open { AreOpen commit tables.old.items }
    requires can { AllByRecursion (CanPut (length tables.old.items)) changes.now }
    ensures same { AreSameBelow commit tables.old.items tables.new.items }
    ensures open { AreOpen commit tables.new.items }
    ensures changed { OnOk result (AreChanged commit changes.now tables.old.items tables.new.items) }
{
    'changes: for change in changes {
        put_change(alloc, tables, change, commit)?;
    }
    Ok(())
}

/// Takes what was put at a commit away from all tables.
pub fn abandon_tables(tables: &mut Vec<Table>, commit: u64)
    requires { AreOpen commit tables.old.items }
    ensures same { AreSameBelow commit tables.old.items tables.new.items }
    ensures below { (table : ℕ) → IsBelow commit (table_at tables.new.items table).records }
{
    'tables: for table in 0..tables.len() {
        tables[table].records.abandon(commit);
    }
}
