ghost use Rattle.std.specs.Prelude.{◌≡◌, nat_lt};
ghost use Rattle.std.proofs.lemmas.List.Sorted.{IsStrictWeakOrder-by_number};

use rv_blocks::{Blocks, Placed};
use rv_rows::Change;
use rv_value::{Duplicate, IndexEntry, Items, NoMemory};
use std::alloc::Global;

/// What the changes of a transaction do to an index: the entries that they take away from those of the base, and the
/// entries that they add, which the base has not. An entry that a change leaves equal is in neither list.
#[derive(Drop)]
pub struct Part {
    /// How many values each key of the index has.
    pub width: u32,
    pub taken: Blocks<IndexEntry>,
    pub added: Blocks<IndexEntry>,
}

/// How large a table is with the changes of a transaction.
#[derive(Clone, Copy, PartialEq, Eq)]
pub struct TableSize {
    pub table: u32,
    pub pages: u32,
    pub rows: u64,
}

impl Duplicate for TableSize {
    fn copy(&self, _alloc: Global) -> Result<TableSize, NoMemory> {
        Ok(TableSize {
            table: self.table,
            pages: self.pages,
            rows: self.rows,
        })
    }
}

/// Sizes stand by table.
impl Placed for TableSize {
    ghost before = { λ a b. nat_lt a.table b.table };

    fn comes_before(&self, other: &TableSize) -> bool {
        self.table < other.table
    }

    ghost order = { IsStrictWeakOrder-by_number (λ a. a.table) };
}

/// The changes of a transaction as they stood once, and what they do to each changed table and to each index. The
/// lists may be shared with those that the transaction goes on changing.
#[derive(Drop)]
pub struct Frozen {
    /// The commit that the transaction reads.
    pub base: u64,
    /// At most one for each row, ascending by table and row.
    pub changes: Blocks<Change>,
    /// One for each changed table.
    pub sizes: Blocks<TableSize>,
    /// One for each index of the store, by number.
    pub parts: Items<Part>,
}
