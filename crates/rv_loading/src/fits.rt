//! Whether a store can have an index or take changes.
ghost use Rattle.std.specs.Prelude.{◌≡◌, nat_eq, true};
ghost use Rattle.std.specs.List.{list_all, list_any};
ghost use Rattle.rv_loading.specs.Laid.{CanIndex, are_fit, is_behind, is_of, is_wide, may_index, rise_from, rises};

use crate::schema::{Layout, Schema};
use rv_reader::Change;
use rv_value::Values;

fn stands_among(columns: &[u32], column: u32) -> bool
    ensures { result ≡ list_any (nat_eq column) columns.now }
{
    match columns {
        [] => false,
        [first, more @ ..] => column == *first || stands_among(more, column),
    }
}

/// Whether columns are below a width, each once.
fn may_index(width: u32, columns: &[u32]) -> bool
    ensures { result ≡ may_index width columns.now }
{
    match columns {
        [] => true,
        [column, more @ ..] => {
            *column < width && (!stands_among(more, *column) && may_index(width, more))
        }
    }
}

/// Whether the next index of a schema can be laid.
pub fn can_index(schema: &Schema, layout: Layout) -> bool
    ensures { result ≡ true → CanIndex schema.now layout }
{
    if schema.table_of(layout.indexes) >= layout.tables || layout.horizon != layout.newest {
        return false;
    }
    let columns = schema.columns_of(layout.indexes);
    let count = columns.len();
    if count == 0 || count > 4 {
        return false;
    }
    may_index(schema.width, columns)
}

fn is_wide(width: u32, values: &Option<Values>) -> bool
    ensures { result ≡ is_wide width values.now }
{
    match values {
        None => true,
        Some(values) => values.as_slice().len() == width as usize,
    }
}

/// Whether a change is of a row of the tables.
fn is_of(tables: u32, width: u32, change: &Change) -> bool
    ensures { result ≡ is_of tables width change.now }
{
    change.table < tables && (change.row.0 < 4_294_967_296 && is_wide(width, &change.values))
}

fn are_of(tables: u32, width: u32, changes: &[Change]) -> bool
    ensures { result ≡ list_all (is_of tables width) changes.now }
{
    let mut rest = changes;
    'changes: while let [change, more @ ..] = rest {
        if !is_of(tables, width, change) {
            return false;
        }
        rest = more;
    }
    true
}

/// Whether a change is behind a row of a table.
fn is_behind(table: u32, row: u64, change: &Change) -> bool
    ensures { result ≡ is_behind table row change.now }
{
    table < change.table || (table == change.table && row < change.row.0)
}

/// Whether changes ascend behind a row of a table.
fn rise_from(table: u32, row: u64, changes: &[Change]) -> bool
    ensures { result ≡ rise_from table row changes.now }
{
    let mut last = table;
    let mut number = row;
    let mut rest = changes;
    'changes: while let [change, more @ ..] = rest {
        if !is_behind(last, number, change) {
            return false;
        }
        last = change.table;
        number = change.row.0;
        rest = more;
    }
    true
}

fn rises(changes: &[Change]) -> bool
    ensures { result ≡ rises changes.now }
{
    match changes {
        [] => true,
        [first, more @ ..] => rise_from(first.table, first.row.0, more),
    }
}

/// Whether a store that is laid out so can take changes.
pub fn are_fit(schema: &Schema, layout: Layout, changes: &[Change]) -> bool
    ensures { result ≡ are_fit schema.now layout changes.now }
{
    rises(changes) && are_of(layout.tables, schema.width, changes)
}
