//! The catalog: tables and indexes by name, in order of creation.
ghost use Rattle.std.specs.Prelude.{◌≡◌, ◌<◌, ◌≤◌, ◌+◌, ◌-◌, ◌^◌, ◌++◌, ◌∷◌, [], None, IfOk, IfSome, OnErr, OnOk, length, take};
ghost use Rattle.rv_catalog.specs.Kept.{indexes_over};
ghost use Rattle.rv_catalog.specs.Schema.{columns_of, index_named, table_named};

use crate::def::{IndexDef, TableDef};
use indexmap::IndexSet;
use rv_value::{Kind, NoMemory, Text};
use std::alloc::Global;
use std::marker::Model;

/// The tables and indexes of a database, each by its name and by its number, which is its position.
#[derive(Drop)]
pub struct Catalog {
    alloc: Global,
    tables: Vec<TableDef>,
    indexes: Vec<IndexDef>,
    table_keys: IndexSet<String>,
    index_keys: IndexSet<String>,
}

impl Model for Catalog {
    ghost use Rattle.std.specs.Prelude.{length, map, string_bytes};
    ghost use Rattle.rv_catalog.specs.Kept.{KeepsIndexes, KeepsTables};
    ghost use Rattle.rv_catalog.specs.Schema.{Schema};

    ghost Value = { Schema };

    ghost view = { λ c. record { tables = c.tables.items; indexes = c.indexes.items } };

    ghost invariant = { λ c. KeepsTables (map string_bytes c.table_keys.keys) c.tables.items × KeepsIndexes (map string_bytes c.index_keys.keys) (length c.tables.items) c.indexes.items };
}

impl Catalog {
    /// The catalog without tables and indexes. It takes no memory.
    pub fn new(alloc: Global) -> Catalog
        ensures { result ≡ record { tables = []; indexes = [] } }
    {
        Catalog {
            alloc,
            tables: Vec::new(alloc),
            indexes: Vec::new(alloc),
            table_keys: IndexSet::new(alloc),
            index_keys: IndexSet::new(alloc),
        }
    }

    /// The tables in order of creation, at most 64: a table's number is its place.
    pub fn tables(&self) -> &[TableDef]
        ensures same { result.now ≡ self.now.tables }
        ensures room { length self.now.tables ≤ 64 }
    {
        self.tables.as_slice()
    }

    /// The indexes in order of creation, at most 512: an index's number is its place.
    pub fn indexes(&self) -> &[IndexDef]
        ensures same { result.now ≡ self.now.indexes }
        ensures room { length self.now.indexes ≤ 512 }
    {
        self.indexes.as_slice()
    }

    /// The allocator that the catalog keeps.
    pub(crate) fn alloc(&self) -> Global {
        self.alloc
    }

    /// The number of the table of a name.
    pub(crate) fn table_of(&self, name: &Text) -> Option<usize>
        ensures is { result ≡ table_named self.now.tables name.now }
        ensures within { IfSome result (λ number. number < length self.now.tables) }
        ensures room { length self.now.tables ≤ 64 }
    {
        self.table_keys.get_index_of(name.as_str())
    }

    /// Whether an index has a name.
    pub(crate) fn has_index(&self, name: &Text) -> bool
        ensures { result ≡ Rattle.std.specs.Prelude.is_some (index_named self.now.indexes name.now) }
    {
        self.index_keys.get_index_of(name.as_str()).is_some()
    }

    /// The columns of a table; none where the table is not there.
    pub(crate) fn columns(&self, table: u32) -> &[(Text, Kind)]
        ensures same { result.now ≡ columns_of self.now.tables table }
        ensures room { length result.now ≤ 16 }
    {
        match self.tables.get(table as usize) {
            None => &[],
            Some(table) => table.columns.as_slice(),
        }
    }

    /// The number of a table's indexes. It takes no memory.
    pub fn count_indexes(&self, table: u32) -> usize
        ensures { result ≡ indexes_over table self.now.indexes }
    {
        self.indexes
            .iter()
            .filter(|index| index.table == table)
            .count()
    }

    /// Adds a table behind the others, and gives its number.
    pub fn add_table(&mut self, def: TableDef) -> Result<u32, NoMemory>
        requires fresh { table_named self.old.tables def.name ≡ None }
        requires room { length self.old.tables < 64 }
        requires narrow { length def.columns ≤ 16 }
        ensures number { IfOk result (λ number. number ≡ length self.old.tables) }
        ensures ok { OnOk result (self.new ≡ record self.old { tables = self.old.tables ++ def ∷ [] }) }
        ensures err { OnErr result (self.new ≡ self.old) }
    {
        let name = match String::from_str(self.alloc, def.name.as_str()) {
            Ok(name) => name,
            Err(fault) => {
                drop(def);
                return Err(NoMemory::from(fault));
            }
        };
        let number = self.tables.len();
        if let Err(fault) = self.tables.reserve(1) {
            drop(def);
            return Err(NoMemory::from(fault));
        }
        match self.table_keys.insert(name) {
            Ok(_added) => {}
            Err(fault) => {
                drop(def);
                return Err(NoMemory::from(fault));
            }
        }
        self.tables.push(def).unwrap();
        Ok(number as u32)
    }

    /// Adds an index behind the others, and gives its number.
    pub fn add_index(&mut self, def: IndexDef) -> Result<u32, NoMemory>
        requires fresh { index_named self.old.indexes def.name ≡ None }
        requires there { def.table < length self.old.tables }
        requires few { indexes_over def.table self.old.indexes < 8 }
        ensures number { IfOk result (λ number. number ≡ length self.old.indexes) }
        ensures ok { OnOk result (self.new ≡ record self.old { indexes = self.old.indexes ++ def ∷ [] }) }
        ensures err { OnErr result (self.new ≡ self.old) }
    {
        let name = match String::from_str(self.alloc, def.name.as_str()) {
            Ok(name) => name,
            Err(fault) => {
                drop(def);
                return Err(NoMemory::from(fault));
            }
        };
        let number = self.indexes().len();
        if let Err(fault) = self.indexes.reserve(1) {
            drop(def);
            return Err(NoMemory::from(fault));
        }
        match self.index_keys.insert(name) {
            Ok(_added) => {}
            Err(fault) => {
                drop(def);
                return Err(NoMemory::from(fault));
            }
        }
        self.indexes.push(def).unwrap();
        Ok(number as u32)
    }

    /// Takes the last table away. It takes no memory.
    pub fn undo_table(&mut self)
        requires some { 1 ≤ length self.old.tables }
        requires alone { indexes_over (length self.old.tables - 1) self.old.indexes ≡ 0 }
        ensures { self.new ≡ record self.old { tables = take (length self.old.tables - 1) self.old.tables } }
    {
        drop(self.tables.pop());
        let left = self.tables.len();
        self.table_keys.truncate(left);
    }

    /// Takes the last index away. It takes no memory.
    pub fn undo_index(&mut self)
        requires { 1 ≤ length self.old.indexes }
        ensures { self.new ≡ record self.old { indexes = take (length self.old.indexes - 1) self.old.indexes } }
    {
        drop(self.indexes.pop());
        let left = self.indexes.len();
        self.index_keys.truncate(left);
    }
}
