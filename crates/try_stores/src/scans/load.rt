//! A table of eighty rows with an index, in any store. Each call that is refused is made again once.
ghost use Rattle.std.specs.Prelude.{IfOk, OnErr};
ghost use Rattle.rv_loading.specs.Laid.{IsEmpty, Laid};

use rv_loading::{Fault, Layout, Loaded, Schema, begin, commit, index_over, lay_index, lay_table};
use rv_reader::{Change, Store};
use rv_value::{NoMemory, RowNo, Value, Values};
use std::alloc::Global;

/// The first value is NULL in each eleventh row, else a number below 50; the second is a number below 5.
fn values_of(alloc: Global, row: u64) -> Result<Values, NoMemory> {
    let first = if row % 11 == 0 {
        Value::Null
    } else {
        Value::Int((row % 50 * 37 % 50) as i64)
    };
    let mut values = Vec::with_capacity(alloc, 2)?;
    values.push(first)?;
    values.push(Value::Int((row % 5) as i64))?;
    Values::of(alloc, values)
}

/// The change by which a row has the values of a row, which may be another one.
pub fn changed(alloc: Global, row: u64, like: u64) -> Result<Change, NoMemory> {
    Ok(Change {
        table: 0,
        row: RowNo(row),
        values: Some(values_of(alloc, like)?),
    })
}

fn deleted(row: u64) -> Change {
    Change {
        table: 0,
        row: RowNo(row),
        values: None,
    }
}

/// Ten rows, of which the first is ten times a number.
fn ten_rows(alloc: Global, ten: u64) -> Result<Vec<Change>, NoMemory> {
    let mut changes = Vec::new(alloc);
    'rows: for one in 0..10 {
        let row = ten % 1000 * 10 + one;
        changes.push(changed(alloc, row, row)?)?;
    }
    Ok(changes)
}

/// Rows 3, 40 and 79 go, and row 10 becomes as row 12.
fn mended(alloc: Global) -> Result<Vec<Change>, NoMemory> {
    let mut changes = Vec::with_capacity(alloc, 4)?;
    changes.push(deleted(3))?;
    changes.push(changed(alloc, 10, 12)?)?;
    changes.push(deleted(40))?;
    changes.push(deleted(79))?;
    Ok(changes)
}

/// A table of two columns, with an index over the second and the first.
pub fn new_schema(alloc: Global) -> Result<Schema, NoMemory> {
    let mut indexes = Vec::with_capacity(alloc, 1)?;
    indexes.push(index_over(alloc, 0, &[1, 0])?)?;
    Ok(Schema::new(2, indexes))
}

/// What is laid next.
#[derive(Clone, Copy)]
enum Next<'a> {
    Table,
    Index,
    Commit(&'a [Change]),
}

fn lay<S: Store>(
    schema: &Schema,
    store: &mut S,
    layout: Layout,
    next: Next<'_>,
) -> Result<Layout, Fault>
    requires { Laid schema.now layout (S.shown store.old) }
    ensures ok { IfOk result (λ after. Laid schema.now after (S.shown store.new)) }
    ensures err { OnErr result (Laid schema.now layout (S.shown store.new)) }
{
    match next {
        Next::Table => lay_table(schema, store, layout),
        Next::Index => lay_index(schema, store, layout),
        Next::Commit(changes) => commit(schema, store, layout, changes),
    }
}

fn lay_again<S: Store>(
    schema: &Schema,
    store: &mut S,
    layout: Layout,
    next: Next<'_>,
) -> Result<Layout, Fault>
    requires { Laid schema.now layout (S.shown store.old) }
    ensures { IfOk result (λ after. Laid schema.now after (S.shown store.new)) }
{
    match lay(schema, store, layout, next) {
        Ok(after) => Ok(after),
        Err(_refused) => lay(schema, store, layout, next),
    }
}

/// Commits of ten rows each.
fn fill<S: Store>(
    alloc: Global,
    schema: &Schema,
    store: &mut S,
    start: Layout,
) -> Result<Layout, Fault>
    requires { Laid schema.now start (S.shown store.old) }
    ensures { IfOk result (λ after. Laid schema.now after (S.shown store.new)) }
{
    let mut layout = start;
    'tens: for ten in 0..8 {
        let changes = ten_rows(alloc, ten)?;
        layout = lay_again(schema, store, layout, Next::Commit(changes.as_slice()))?;
    }
    Ok(layout)
}

fn mend<S: Store>(
    alloc: Global,
    schema: &Schema,
    store: &mut S,
    layout: Layout,
) -> Result<Layout, Fault>
    requires { Laid schema.now layout (S.shown store.old) }
    ensures { IfOk result (λ after. Laid schema.now after (S.shown store.new)) }
{
    let changes = mended(alloc)?;
    lay_again(schema, store, layout, Next::Commit(changes.as_slice()))
}

/// The layout, and the snapshot before the last commit.
fn lay_all<S: Store>(alloc: Global, schema: &Schema, store: &mut S) -> Result<(Layout, u64), Fault>
    requires { IsEmpty (S.shown store.old) }
    ensures { IfOk result (λ laid. Laid schema.now laid.0 (S.shown store.new)) }
{
    let layout = begin(schema, store);
    let layout = lay_again(schema, store, layout, Next::Table)?;
    let layout = lay_again(schema, store, layout, Next::Index)?;
    let layout = fill(alloc, schema, store, layout)?;
    let before = layout.newest;
    let layout = mend(alloc, schema, store, layout)?;
    Ok((layout, before))
}

/// Fills an empty store by commits of ten rows and then one of four changes; what was loaded, at the snapshot before that
/// last one.
pub fn load<S: Store>(alloc: Global, store: &mut S) -> Result<Loaded, Fault>
    requires { IsEmpty (S.shown store.old) }
    ensures { IfOk result (λ loaded. Laid loaded.schema loaded.layout (S.shown store.new)) }
{
    let schema = new_schema(alloc)?;
    match lay_all(alloc, &schema, store) {
        Ok((layout, before)) => Ok(Loaded {
            schema,
            layout,
            snap: before,
        }),
        Err(fault) => {
            drop(schema);
            Err(fault)
        }
    }
}
