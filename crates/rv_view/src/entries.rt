//! The rows that a change bears on, and their entries.
ghost use Rattle.std.specs.Prelude.{◌≡◌, None, Some, IfOk};
ghost use Rattle.std.specs.Option.{option_copied};
ghost use Rattle.rv_overlay.specs.Rows.{changed_row};

use rv_rows::Change;
use rv_value::{Duplicate, NoMemory, Record};
use std::alloc::Global;

/// What a change leaves of a row, where it gives values.
pub fn row_of(alloc: Global, change: &Change) -> Result<Option<Record>, NoMemory>
    ensures { IfOk result (λ row. row ≡ changed_row (Some change.now) None) }
{
    match &change.values {
        None => Ok(None),
        Some(values) => Ok(Some(Record {
            row: change.row,
            values: values.copy(alloc)?,
        })),
    }
}

/// A row before a further change: what an earlier change left of it, else the reader's.
pub fn row_before(
    alloc: Global,
    earlier: Option<&Change>,
    base: Option<&Record>,
) -> Result<Option<Record>, NoMemory>
    ensures { IfOk result (λ row. row ≡ changed_row (option_copied earlier.entry) (option_copied base.entry)) }
{
    match (earlier, base) {
        (Some(change), _) => row_of(alloc, change),
        (None, None) => Ok(None),
        (None, Some(base)) => Ok(Some(base.copy(alloc)?)),
    }
}
