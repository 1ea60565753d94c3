//! Tables and indexes in any store, and commits of their rows. What a store wants of tables, indexes and changes is tested
//! when the program runs, so whoever calls says of its store alone that it is laid out as told.
ghost use Rattle.std.specs.Prelude.{◌≡◌, ◌+◌, ◌<◌, ◌≤◌, true, IfOk, OnOk, OnErr};
ghost use Rattle.rv_reader.specs.Storing.{Committed, Created, Indexed, IsSame, Swept};
ghost use Rattle.rv_loading.specs.Laid.{CanIndex, IsEmpty, Laid, Offers, OffersAt, are_fit, over_at};

use crate::fits::{are_fit, can_index};
use crate::schema::{Layout, Loaded, Schema};
use crate::words::Fault;
use rv_reader::{Change, Store};
use rv_value::NoMemory;

/// An empty store has none of the tables and indexes of a schema yet.
pub fn begin<S: Store>(_schema: &Schema, _store: &S) -> Layout
    requires { IsEmpty (S.shown _store.now) }
    ensures laid { Laid _schema.now result (S.shown _store.now) }
    ensures none { result ≡ record { tables = 0; indexes = 0; horizon = 0; newest = 0 } }
{
    Layout {
        tables: 0,
        indexes: 0,
        horizon: 0,
        newest: 0,
    }
}

/// One more table. `Form` where there are a thousand.
#[tactic(auto, using(crate::proofs::Laying::same_itself))]
pub fn lay_table<S: Store>(schema: &Schema, store: &mut S, layout: Layout) -> Result<Layout, Fault>
    requires { Laid schema.now layout (S.shown store.old) }
    ensures ok { IfOk result (λ next. Laid schema.now next (S.shown store.new)) }
    ensures next { IfOk result (λ next. next ≡ record layout { tables = layout.tables + 1 }) }
    ensures err { OnErr result (Laid schema.now layout (S.shown store.new)) }
    ensures created { OnOk result (Created (S.shown store.old) (S.shown store.new) schema.now.width) }
    ensures same { OnErr result (IsSame (S.shown store.old) (S.shown store.new)) }
{
    if layout.tables >= 1000 {
        return Err(Fault::Form);
    }
    match store.create_table(layout.tables, schema.width) {
        Ok(()) => Ok(Layout {
            tables: layout.tables + 1,
            indexes: layout.indexes,
            horizon: layout.horizon,
            newest: layout.newest,
        }),
        Err(NoMemory) => Err(Fault::NoMemory),
    }
}

/// The next index of the schema, with the entries of the rows that are there. `Form` where there is none, where it is not
/// over one to four columns of a table that is there, each once, and where older snapshots are kept.
#[tactic(auto, using(crate::proofs::Laying::same_itself))]
pub fn lay_index<S: Store>(schema: &Schema, store: &mut S, layout: Layout) -> Result<Layout, Fault>
    requires { Laid schema.now layout (S.shown store.old) }
    ensures ok { IfOk result (λ next. Laid schema.now next (S.shown store.new)) }
    ensures next { IfOk result (λ next. next ≡ record layout { indexes = layout.indexes + 1 }) }
    ensures err { OnErr result (Laid schema.now layout (S.shown store.new)) }
    ensures indexed { OnOk result (Indexed (S.shown store.old) (S.shown store.new) (over_at schema.now.indexes layout.indexes).table (over_at schema.now.indexes layout.indexes).columns) }
    ensures same { OnErr result (IsSame (S.shown store.old) (S.shown store.new)) }
{
    if layout.indexes >= 1000 || !can_index(schema, layout) {
        return Err(Fault::Form);
    }
    match make_index(schema, store, layout) {
        Ok(()) => Ok(Layout {
            tables: layout.tables,
            indexes: layout.indexes + 1,
            horizon: layout.horizon,
            newest: layout.newest,
        }),
        Err(NoMemory) => Err(Fault::NoMemory),
    }
}

fn make_index<S: Store>(schema: &Schema, store: &mut S, layout: Layout) -> Result<(), NoMemory>
    requires laid { Laid schema.now layout (S.shown store.old) }
    requires can { CanIndex schema.now layout }
    ensures ok { OnOk result (Indexed (S.shown store.old) (S.shown store.new) (over_at schema.now.indexes layout.indexes).table (over_at schema.now.indexes layout.indexes).columns) }
    ensures err { OnErr result (IsSame (S.shown store.old) (S.shown store.new)) }
{
    let table = schema.table_of(layout.indexes);
    let columns = schema.columns_of(layout.indexes);
    store.create_index(layout.indexes, table, columns)
}

/// One more commit, with changes of rows of the tables. `Form` where they do not ascend by table and row, where one is of no
/// table that is there, has no row number below 2^32 or another number of values, and after a million commits.
#[tactic(auto, using(crate::proofs::Laying::same_itself))]
pub fn commit<S: Store>(
    schema: &Schema,
    store: &mut S,
    layout: Layout,
    changes: &[Change],
) -> Result<Layout, Fault>
    requires { Laid schema.now layout (S.shown store.old) }
    ensures ok { IfOk result (λ next. Laid schema.now next (S.shown store.new)) }
    ensures next { IfOk result (λ next. next ≡ record layout { newest = layout.newest + 1 }) }
    ensures err { OnErr result (Laid schema.now layout (S.shown store.new)) }
    ensures committed { OnOk result (Committed (S.shown store.old) (S.shown store.new) changes.now) }
    ensures same { OnErr result (IsSame (S.shown store.old) (S.shown store.new)) }
{
    if layout.newest >= 1_000_000 || !are_fit(schema, layout, changes) {
        return Err(Fault::Form);
    }
    match commit_fit(schema, store, layout, changes) {
        Ok(newest) => Ok(Layout {
            tables: layout.tables,
            indexes: layout.indexes,
            horizon: layout.horizon,
            newest,
        }),
        Err(NoMemory) => Err(Fault::NoMemory),
    }
}

fn commit_fit<S: Store>(
    _schema: &Schema,
    store: &mut S,
    _layout: Layout,
    changes: &[Change],
) -> Result<u64, NoMemory>
    requires laid { Laid _schema.now _layout (S.shown store.old) }
    requires fit { are_fit _schema.now _layout changes.now ≡ true }
    requires room { _layout.newest < 1000000 }
    ensures number { IfOk result (λ newest. newest ≡ (S.shown store.new).newest) }
    ensures ok { OnOk result (Committed (S.shown store.old) (S.shown store.new) changes.now) }
    ensures err { OnErr result (IsSame (S.shown store.old) (S.shown store.new)) }
{
    store.commit(changes)
}

/// Lets the snapshots below a horizon go, and takes one page or node's part of them away.
pub fn sweep<S: Store>(_schema: &Schema, store: &mut S, layout: Layout, horizon: u64) -> Layout
    requires laid { Laid _schema.now layout (S.shown store.old) }
    requires low { layout.horizon ≤ horizon }
    requires high { horizon ≤ layout.newest }
    ensures laid { Laid _schema.now result (S.shown store.new) }
    ensures next { result ≡ record layout { horizon = horizon } }
    ensures swept { Swept (S.shown store.old) (S.shown store.new) horizon }
{
    store.sweep(horizon);
    Layout {
        tables: layout.tables,
        indexes: layout.indexes,
        horizon,
        newest: layout.newest,
    }
}

/// What may be read at a snapshot that is kept.
pub fn may_read<S: Store>(_schema: &Schema, store: &S, _layout: Layout, _snap: u64)
    requires laid { Laid _schema.now _layout (S.shown store.now) }
    requires low { _layout.horizon ≤ _snap }
    requires high { _snap ≤ _layout.newest }
    ensures { OffersAt _schema.now _layout (S.shown store.now) _snap }
{
    let _last = store.last();
}

/// The same at the newest commit.
fn settle<S: Store>(_schema: &Schema, store: &S, _layout: Layout)
    requires { Laid _schema.now _layout (S.shown store.now) }
    ensures { OffersAt _schema.now _layout (S.shown store.now) _layout.newest }
{
    let _last = store.last();
}

fn lay_tables<S: Store>(
    schema: &Schema,
    store: &mut S,
    start: Layout,
    tables: u32,
) -> Result<Layout, Fault>
    requires { Laid schema.now start (S.shown store.old) }
    ensures { IfOk result (λ next. Laid schema.now next (S.shown store.new)) }
{
    let mut layout = start;
    'tables: for _table in 0..tables {
        layout = lay_table(schema, store, layout)?;
    }
    Ok(layout)
}

fn lay_indexes<S: Store>(schema: &Schema, store: &mut S, start: Layout) -> Result<Layout, Fault>
    requires { Laid schema.now start (S.shown store.old) }
    ensures { IfOk result (λ next. Laid schema.now next (S.shown store.new)) }
{
    let mut layout = start;
    'indexes: for _index in 0..schema.indexes.len() {
        layout = lay_index(schema, store, layout)?;
    }
    Ok(layout)
}

fn commit_each<S: Store>(
    schema: &Schema,
    store: &mut S,
    start: Layout,
    commits: &[Vec<Change>],
) -> Result<Layout, Fault>
    requires { Laid schema.now start (S.shown store.old) }
    ensures { IfOk result (λ next. Laid schema.now next (S.shown store.new)) }
{
    let mut layout = start;
    'commits: for changes in commits {
        layout = commit(schema, store, layout, changes.as_slice())?;
    }
    Ok(layout)
}

fn fill_all<S: Store>(
    schema: &Schema,
    store: &mut S,
    tables: u32,
    commits: &[Vec<Change>],
) -> Result<Layout, Fault>
    requires { IsEmpty (S.shown store.old) }
    ensures laid { IfOk result (λ layout. Laid schema.now layout (S.shown store.new)) }
    ensures offers { IfOk result (λ layout. OffersAt schema.now layout (S.shown store.new) layout.newest) }
{
    let layout = begin(schema, store);
    let layout = lay_tables(schema, store, layout, tables)?;
    let layout = lay_indexes(schema, store, layout)?;
    let layout = commit_each(schema, store, layout, commits)?;
    settle(schema, store, layout);
    Ok(layout)
}

/// Lays so many tables and all indexes of a schema in an empty store, and makes commits: what was loaded then, at the newest
/// commit. `Form` where one of the calls above says so.
pub fn fill<S: Store>(
    store: &mut S,
    schema: Schema,
    tables: u32,
    commits: &[Vec<Change>],
) -> Result<Loaded, Fault>
    requires { IsEmpty (S.shown store.old) }
    ensures laid { IfOk result (λ loaded. Laid loaded.schema loaded.layout (S.shown store.new)) }
    ensures offers { IfOk result (λ loaded. Offers loaded (S.shown store.new)) }
{
    match fill_all(&schema, store, tables, commits) {
        Ok(layout) => Ok(Loaded {
            schema,
            layout,
            snap: layout.newest,
        }),
        Err(fault) => {
            drop(schema);
            Err(fault)
        }
    }
}
