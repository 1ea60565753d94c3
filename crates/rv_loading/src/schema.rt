//! What a store is to have, and what it has.
ghost use Rattle.std.specs.Prelude.{◌≡◌, IfOk};
ghost use Rattle.rv_loading.specs.Laid.{over_at};

use rv_value::{Items, NoMemory, copy_slice};
use std::alloc::Global;

/// An index: its table and its columns.
#[derive(Drop)]
pub struct Over {
    pub table: u32,
    pub columns: Items<u32>,
}

/// An index over columns of a table.
pub fn index_over(alloc: Global, table: u32, columns: &[u32]) -> Result<Over, NoMemory>
    ensures { IfOk result (λ index. index ≡ record { table = table; columns = columns.now }) }
{
    let columns = copy_slice(alloc, columns)?;
    Ok(Over {
        table,
        columns: Items::from_vec(columns),
    })
}

/// What a store is to have: how many columns each of its tables, and its indexes by their numbers.
#[derive(Drop)]
pub struct Schema {
    pub width: u32,
    pub indexes: Items<Over>,
}

impl Schema {
    /// Tables of so many columns, and these indexes.
    pub fn new(width: u32, indexes: Vec<Over>) -> Schema
        ensures { result ≡ record { width = width; indexes = indexes.items } }
    {
        Schema {
            width,
            indexes: Items::from_vec(indexes),
        }
    }

    /// The table of an index, 0 where none has the number.
    pub fn table_of(&self, index: u32) -> u32
        ensures { result ≡ (over_at self.now.indexes index).table }
    {
        match self.indexes.as_slice().get(index as usize) {
            None => 0,
            Some(over) => over.table,
        }
    }

    /// The columns of an index, none where none has the number.
    pub fn columns_of(&self, index: u32) -> &[u32]
        ensures { result.now ≡ (over_at self.now.indexes index).columns }
    {
        match self.indexes.as_slice().get(index as usize) {
            None => &[],
            Some(over) => over.columns.as_slice(),
        }
    }
}

/// How many tables and indexes a store has, the oldest snapshot that it keeps and its newest commit.
#[derive(Clone, Copy, PartialEq, Eq)]
pub struct Layout {
    pub tables: u32,
    pub indexes: u32,
    pub horizon: u64,
    pub newest: u64,
}

/// What was loaded into a store, and the snapshot at which it may be read.
#[derive(Drop)]
pub struct Loaded {
    pub schema: Schema,
    pub layout: Layout,
    pub snap: u64,
}
