//! The selects of the table.
ghost use Rattle.std.specs.Prelude.{◌≡◌, ◌≤◌, IfOk, true};
ghost use Rattle.std.specs.List.{list_all};
ghost use Rattle.rv_loading.specs.Laid.{over_at};
ghost use Rattle.rv_loading.specs.Naming.{is_column};
ghost use Rattle.try_retrievals.specs.Selecting.{HasIndexes, IsOurs, is_table};

use crate::joins::read::{Asked, columns, goal, tables};
use rv_catalog::{IndexDef, Select};
use rv_loading::{Fault, Loaded, is_column, names_only, restriction};
use rv_restrict::ColRef;
use rv_value::{Items, NoMemory, Text, copy_slice};
use std::alloc::Global;

fn are_tables(tables: u32, named: &[u32]) -> bool
    ensures { result ≡ list_all (is_table tables) named.now }
{
    match named {
        [] => true,
        [table, more @ ..] => *table < tables && are_tables(tables, more),
    }
}

fn are_columns(items: usize, width: usize, columns: &[ColRef]) -> bool
    ensures { result ≡ list_all (is_column items width) columns.now }
{
    match columns {
        [] => true,
        [column, more @ ..] => {
            is_column(items, width, *column) && are_columns(items, width, more)
        }
    }
}

/// Whether a select is over one to four of the tables, and columns of theirs alone.
pub fn is_ours(loaded: &Loaded, select: &Select) -> bool
    ensures { result ≡ true → IsOurs loaded.now select.now }
{
    let items = select.tables.len();
    let width = loaded.schema.width as usize;
    if items == 0 || items > 4 || !are_tables(loaded.layout.tables, select.tables.as_slice()) {
        return false;
    }
    if !are_columns(items, width, select.returns.as_slice()) {
        return false;
    }
    if !are_columns(items, width, select.order.as_slice()) {
        return false;
    }
    names_only(items, width, select.only.groups())
}

/// The select for what a line asks.
pub fn select(alloc: Global, asked: &Asked) -> Result<Select, Fault> {
    let goal = goal(asked.goal)?;
    let tables = tables(alloc, asked.from)?;
    let returns = columns(alloc, asked.returns)?;
    let order = columns(alloc, asked.order)?;
    let only = restriction(alloc, asked.only, "&", "/")?;
    Ok(Select {
        tables: Items::from_vec(tables),
        only,
        returns: Items::from_vec(returns),
        order: Items::from_vec(order),
        goal,
    })
}

fn index_def(alloc: Global, loaded: &Loaded, index: u32) -> Result<IndexDef, NoMemory>
    ensures table { IfOk result (λ d. d.table ≡ (over_at loaded.now.schema.indexes index).table) }
    ensures columns { IfOk result (λ d. d.columns ≡ (over_at loaded.now.schema.indexes index).columns) }
{
    let columns = copy_slice(alloc, loaded.schema.columns_of(index))?;
    let name = Text::read(alloc, "I")?;
    Ok(IndexDef {
        name,
        table: loaded.schema.table_of(index),
        columns: Items::from_vec(columns),
        unique: false,
    })
}

/// The first so many indexes. `Form` where there are not so many, or they are more than six.
pub fn indexes(alloc: Global, loaded: &Loaded, count: u32) -> Result<Vec<IndexDef>, Fault>
    ensures { IfOk result (λ indexes. HasIndexes loaded.now indexes.items) }
{
    if count <= 6 && count <= loaded.layout.indexes {
        return Ok(first_indexes(alloc, loaded, count)?);
    }
    Err(Fault::Form)
}

fn first_indexes(alloc: Global, loaded: &Loaded, count: u32) -> Result<Vec<IndexDef>, NoMemory>
    requires few { count ≤ 6 }
    requires there { count ≤ loaded.now.layout.indexes }
    ensures { IfOk result (λ indexes. HasIndexes loaded.now indexes.items) }
{
    let mut indexes = Vec::new(alloc);
    'indexes: for index in 0..count {
        indexes.push(index_def(alloc, loaded, index)?)?;
    }
    Ok(indexes)
}
