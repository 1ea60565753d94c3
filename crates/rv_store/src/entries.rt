ghost use Rattle.std.specs.Prelude.{◌≡◌, ◌≤◌, length, IfOk};
ghost use Rattle.rv_reader.specs.Entries.{entry_at};
ghost use Rattle.rv_store.specs.Indexing.{row_with};

use rv_reader::row_entry;
use rv_rows::Change;
use rv_value::{IndexEntry, NoMemory};
use std::alloc::Global;

/// The entry of a changed row, where it is given values.
pub fn new_entry(
    alloc: Global,
    change: &Change,
    columns: &[u32],
) -> Result<Option<IndexEntry>, NoMemory>
    requires some { 1 ≤ length columns.now }
    requires few { length columns.now ≤ 4 }
    ensures { IfOk result (λ entry. entry ≡ entry_at columns.now (row_with change.now.row.0 change.now.values)) }
{
    match &change.values {
        Some(values) => {
            let entry = row_entry(alloc, change.row, values.as_slice(), columns)?;
            Ok(Some(entry))
        }
        None => Ok(None),
    }
}
