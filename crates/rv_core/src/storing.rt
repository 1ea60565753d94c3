//! Calls on the catalog and the store that go together.
ghost use Rattle.std.specs.Prelude.{◌≡◌, ℕ, List, ◌⊎◌, ◌+◌, ◌<◌, ◌≤◌, ◌-◌, ◌^◌, ◌++◌, ◌∷◌, [], None, Ok, Err, true, false, IfOk, IfErr, OnOk, OnErr, IfSome, length};
ghost use Rattle.std.specs.List.{AllByRecursion, slice_index_or};
ghost use Rattle.std.specs.Option.{option_copied};
ghost use Rattle.rv_catalog.specs.Fits.{IsRowOf, is_over_table};
ghost use Rattle.rv_catalog.specs.Kept.{indexes_over};
ghost use Rattle.rv_catalog.specs.Schema.{index_named, table_named};
ghost use Rattle.rv_reader.specs.Storing.{AreColumns, CanCommit, Created, Indexed, IsSame, IsStored};
ghost use Rattle.rv_txn.specs.Calls.{IsFault, finished, writing};
ghost use Rattle.rv_txn.specs.Changing.{CanChange, OnlyPages};
ghost use Rattle.rv_txn.specs.Halves.{changing, with_these};
ghost use Rattle.rv_view.specs.Sights.{LaysSome};
ghost use Rattle.rv_view.specs.Alone.{alone};
ghost use Rattle.rv_choice.specs.Asked.{CanAsk};
ghost use Rattle.rv_final.specs.Rest.{qualifying};
ghost use Rattle.rv_retrieval.specs.Short.{has_short};
ghost use Rattle.rv_search.specs.Searching.{Ran, RanFetched, search_of};
ghost use Rattle.rv_join.specs.Asking.{indexes_from};
ghost use Rattle.rv_cursor.specs.Left.{seen_at};
ghost use Rattle.rv_model.specs.Database.{no_index};
ghost use Rattle.rv_model.specs.Transactions.{inserted, met, transaction_at, transaction_of};
ghost use Rattle.rv_rows.specs.declared.changes.Change.{Change as OneChange};
ghost use Rattle.rv_rows.specs.Changes.{Rise};
ghost use Rattle.rv_rows.specs.Kept.{lent_changes};
ghost use Rattle.rv_own.specs.Views.{AreViews, CanKeep, Freezes, others};
ghost use Rattle.rv_core.specs.Db.{IsTied, db_of};
ghost use Rattle.rv_core.specs.Obeying.{CanSearch, FindsRows, IsLong, MayAsk};
ghost use Rattle.rv_model.specs.Step.{row_alone, rows_alone};
ghost use Rattle.rv_core.specs.Storing.{Commits, CommitsTo, changed_alone, changed_over, inserted_alone, lone_over};

use rv_catalog::{Catalog, IndexDef, TableDef};
use rv_cursor::Sight;
use rv_join::indexes_over;
use rv_judge::{Judge, Steps, Uncounted};
use rv_model::Transaction;
use rv_own::Views;
use rv_reader::{Reader, Store};
use rv_restrict::Restriction;
use rv_rivals::no_rivals;
use rv_rows::Change;
use rv_search::{any_narrows, found_rows};
use rv_txn::{Finished, TxnFault, Txns, met_rows};
use rv_value::{Duplicate, Items, NoMemory, Record, RowNo, Value, Values};
use rv_view::{Snapshot, View};
use std::alloc::Global;

/// A table more in both. Without memory neither has it.
pub fn add_table<S: Store + Reader<Ledger = Uncounted>>(
    catalog: &mut Catalog,
    store: &mut S,
    def: TableDef,
) -> Result<(), NoMemory>
    requires fresh { table_named catalog.old.tables def.name ≡ None }
    requires room { length catalog.old.tables < 64 }
    requires narrow { length def.columns ≤ 16 }
    requires unindexed { indexes_over (length catalog.old.tables) catalog.old.indexes ≡ 0 }
    requires next { (S.shown store.old).tables ≡ length catalog.old.tables }
    ensures catalog { OnOk result (catalog.new ≡ record catalog.old { tables = catalog.old.tables ++ def ∷ [] }) }
    ensures store { OnOk result (Created (S.shown store.old) (S.shown store.new) (length def.columns)) }
    ensures err_catalog { OnErr result (catalog.new ≡ catalog.old) }
    ensures err_store { OnErr result (IsSame (S.shown store.old) (S.shown store.new)) }
{
    let columns = def.columns.len() as u32;
    let table = match catalog.add_table(def) {
        Ok(table) => table,
        Err(NoMemory) => return Err(NoMemory),
    };
    match store.create_table(table, columns) {
        Ok(()) => Ok(()),
        Err(NoMemory) => {
            catalog.undo_table();
            Err(NoMemory)
        }
    }
}

/// An index more in both. Without memory neither has it.
pub fn add_index<S: Store + Reader<Ledger = Uncounted>>(
    catalog: &mut Catalog,
    store: &mut S,
    def: IndexDef,
) -> Result<(), NoMemory>
    requires fresh { index_named catalog.old.indexes def.name ≡ None }
    requires there { def.table < length catalog.old.tables }
    requires room { indexes_over def.table catalog.old.indexes < 8 }
    requires columns { AreColumns ((S.shown store.old).columns def.table) def.columns }
    requires tables { (S.shown store.old).tables ≡ length catalog.old.tables }
    requires next { (S.shown store.old).indexes ≡ length catalog.old.indexes }
    requires alone { (S.shown store.old).horizon ≡ (S.shown store.old).newest }
    ensures catalog { OnOk result (catalog.new ≡ record catalog.old { indexes = catalog.old.indexes ++ def ∷ [] }) }
    ensures store { OnOk result (Indexed (S.shown store.old) (S.shown store.new) def.table def.columns) }
    ensures err_catalog { OnErr result (catalog.new ≡ catalog.old) }
    ensures err_store { OnErr result (IsSame (S.shown store.old) (S.shown store.new)) }
{
    let table = def.table;
    let index = match catalog.add_index(def) {
        Ok(index) => index,
        Err(NoMemory) => return Err(NoMemory),
    };
    match store.create_index(index, table, columns_of(catalog, index)) {
        Ok(()) => Ok(()),
        Err(NoMemory) => {
            catalog.undo_index();
            Err(NoMemory)
        }
    }
}

/// The columns of an index; none where it is not there.
fn columns_of(catalog: &Catalog, index: u32) -> &[u32]
    ensures { result.now ≡ (slice_index_or catalog.now.indexes index no_index).columns }
{
    match catalog.indexes().get(index as usize) {
        None => &[],
        Some(def) => def.columns.as_slice(),
    }
}

/// Commits the changes, where there are some, and gives the number of the commit, or the base where there are none.
fn commit_some<S: Store + Reader<Ledger = Uncounted>>(
    store: &mut S,
    finished: &Finished<'_>,
) -> Result<u64, NoMemory>
    requires changes { CanCommit (S.shown store.old) (lent_changes finished.now.changes) }
    requires room { (S.shown store.old).newest < 2 ^ 64 - 1 }
    ensures ok { IfOk result (λ c. CommitsTo (S.shown store.old) (S.shown store.new) finished.now.base (lent_changes finished.now.changes) c) }
    ensures err { OnErr result (IsSame (S.shown store.old) (S.shown store.new)) }
{
    let changes = finished.changes.as_slice();
    match changes {
        [] => Ok(finished.base),
        [_first, _more @ ..] => store.commit(changes),
    }
}

/// Commits the changes of the session's transaction, where there are some, and gives the number of the commit, or the base
/// where there are none. The transaction stays active, and its view goes: what that takes serves for what the commit writes,
/// and where this finds no memory all the same, the view is made anew. `NoMemory` too where there is no transaction.
pub fn commit_own<S: Store + Reader<Ledger = Uncounted>>(
    store: &mut S,
    txns: &Txns,
    views: &mut Views,
    session: u8,
) -> Result<u64, NoMemory>
    requires changes { (txn base : ℕ) → (changes : List OneChange) → finished txns.now session ≡ Ok (txn, base, changes) → Rise changes → CanCommit (S.shown store.old) changes }
    requires room { (S.shown store.old).newest < 2 ^ 64 - 1 }
    ensures ok { IfOk result (Commits txns.now session (S.shown store.old) (S.shown store.new)) }
    ensures err { OnErr result (IsSame (S.shown store.old) (S.shown store.new)) }
    ensures views { views.new ≡ others session views.old }
{
    views.let_go(session);
    let finished = match txns.finish(session) {
        Ok(finished) => finished,
        Err(fault) => {
            drop(fault);
            return Err(NoMemory);
        }
    };
    let committed = commit_some(store, &finished);
    drop(finished);
    committed
}

/// The view of the session's transaction is kept up with changes that are about to be put.
fn keep_up<S: Store + Reader<Ledger = Uncounted>>(
    catalog: &Catalog,
    store: &S,
    txns: &Txns,
    views: &mut Views,
    session: u8,
    new: &[Change],
)
    requires tied { IsTied (S.shown store.now) catalog.now txns.now }
    requires stored { IsStored (S.shown store.now) }
    requires can { IfSome (transaction_of txns.now.active session) (λ own. AllByRecursion (CanKeep (S.shown store.now) (transaction_at txns.now.active own).base) new.now) }
    requires views { AreViews (S.shown store.now) txns.now.active views.old }
    ensures { AreViews (S.shown store.now) (with_these txns.now (transaction_of txns.now.active session) new.now).active views.new }
{
    match txns.own(session) {
        None => {}
        Some(own) => views.keep(store, catalog.indexes(), own, new),
    }
}

/// Tests that no row which changes of the session's transaction are about to write has a rival in a unique index. The
/// transaction's view is made for it where it is not kept.
fn unrivalled<S: Store + Reader<Ledger = Uncounted>>(
    alloc: Global,
    catalog: &Catalog,
    store: &S,
    txns: &Txns,
    views: &mut Views,
    session: u8,
    table: u32,
    new: &[Change],
) -> Result<(), TxnFault>
    requires tied { IsTied (S.shown store.now) catalog.now txns.now }
    requires stored { IsStored (S.shown store.now) }
    requires there { table < length catalog.now.tables }
    requires can { IfSome (transaction_of txns.now.active session) (λ own. AllByRecursion (CanKeep (S.shown store.now) (transaction_at txns.now.active own).base) new.now) }
    requires rise { Rise new.now }
    requires of_table { AllByRecursion (λ (c : OneChange). c.table ≡ table) new.now }
    requires views { AreViews (S.shown store.now) txns.now.active views.old }
    ensures ok { OnOk result (lone_over (S.shown store.now) catalog.now txns.now session table new.now ≡ Ok tt) }
    ensures fault { IfErr result (λ fault. IsFault (lone_over (S.shown store.now) catalog.now txns.now session table new.now) fault) }
    ensures views { AreViews (S.shown store.now) txns.now.active views.new }
{
    match txns.own(session) {
        None => Ok(()),
        Some(own) => no_rivals(
            alloc,
            store,
            catalog.indexes(),
            txns,
            views,
            own,
            table,
            new,
        ),
    }
}

/// INSERT: the number of the new row, which has no rival. What is kept of the transaction's view is kept up with it.
pub fn insert_row<S: Store + Reader<Ledger = Uncounted>>(
    alloc: Global,
    catalog: &Catalog,
    store: &S,
    txns: &mut Txns,
    views: &mut Views,
    session: u8,
    table: u32,
    values: Values,
) -> Result<RowNo, TxnFault>
    requires tied { IsTied (S.shown store.now) catalog.now txns.old }
    requires row { IsRowOf catalog.now table values }
    requires views { AreViews (S.shown store.now) txns.old.active views.old }
    ensures ok { IfOk result (λ row. inserted txns.old session table values ≡ Ok (row, txns.new)) }
    ensures alone { IfOk result (λ row. row_alone (db_of (S.shown store.now) catalog.now txns.old []) session table values row ≡ Ok tt) }
    ensures fault { IfErr result (λ fault. IsFault (inserted_alone (S.shown store.now) catalog.now txns.old session table values) fault) }
    ensures err { OnErr result (txns.new ≡ txns.old) }
    ensures views { AreViews (S.shown store.now) txns.new.active views.new }
{
    // What a store tells with its newest commit holds of all its rows.
    let _newest = store.last();
    let row = match txns.inserting(session, table) {
        Ok(row) => row,
        Err(fault) => return Err(fault),
    };
    let change = Change {
        table,
        row,
        values: Some(values),
    };
    let new = std::slice::from_ref(&change);
    match unrivalled(alloc, catalog, store, txns, views, session, table, new) {
        Ok(()) => {}
        Err(fault) => return Err(fault),
    }
    keep_up(catalog, store, txns, views, session, new);
    match txns.put_new(session, change) {
        Ok(()) => Ok(row),
        Err(NoMemory) => {
            views.let_go(session);
            Err(TxnFault::NoMemory)
        }
    }
}

/// The rows of a table at a snapshot for which WHERE is True, found by a search, with a transaction's view laid over the
/// snapshot where one is given.
fn rows_seen<R: Reader>(
    alloc: Global,
    reader: &R,
    table: u32,
    snap: u64,
    view: &Option<View>,
    only: &Restriction,
    indexes: Items<(u32, Items<u32>)>,
    judge: &mut Box<dyn Judge>,
    steps: &mut Steps<R::Ledger>,
) -> Result<Vec<Record>, NoMemory>
    requires lays { LaysSome (alone (R.shown reader.now) snap) view.now }
    requires can { CanAsk (search_of table snap only.now indexes) (seen_at (R.shown reader.now) snap view.now) }
    ensures rows { IfOk result (λ rows. rows.items ≡ qualifying only.now ((seen_at (R.shown reader.now) snap view.now).rows table snap)) }
    ensures stays { would judge.new ≡ would judge.old }
    ensures ran { (state judge.new ≡ state judge.old) ⊎ Ran (would judge.old) (state judge.old) (state judge.new) (seen_at (R.shown reader.now) snap view.now) (search_of table snap only.now indexes) }
    ensures unasked { has_short (search_of table snap only.now indexes) (seen_at (R.shown reader.now) snap view.now) ≡ true → state judge.new ≡ state judge.old }
    ensures fetched { IfOk result (λ rows. RanFetched (length rows.items) (would judge.old) (state judge.old) (state judge.new) (seen_at (R.shown reader.now) snap view.now) steps.old steps.new (search_of table snap only.now indexes)) }
{
    let at = Snapshot { reader, snap };
    found_rows(
        alloc,
        &Sight { at, view },
        table,
        snap,
        only,
        indexes,
        judge,
        steps,
    )
}

/// The rows of a table in a transaction's view for which WHERE is True. Where WHERE narrows an index they are found by a search
/// over what is laid over the transaction's base, else page by page as the store lends them. All that is read here goes through
/// the counter, which is of the store's own kind and cannot be made here: so no page is read beside a search.
fn found_by<S: Store>(
    alloc: Global,
    store: &S,
    own: &Transaction,
    view: &Option<View>,
    table: u32,
    only: &Restriction,
    indexes: Items<(u32, Items<u32>)>,
    narrows: bool,
    judge: &mut Box<dyn Judge>,
    steps: &mut Steps<S::Ledger>,
) -> Result<Vec<Record>, NoMemory>
    requires change { CanChange (S.shown store.now) own.now table only.now }
    requires search { narrows ≡ true → CanSearch (S.shown store.now) own.now view.now table only.now indexes }
    ensures rows { IfOk result (λ rows. rows.items ≡ met own.now table only.now ((S.shown store.now).rows table)) }
    ensures stays { would judge.new ≡ would judge.old }
    ensures asks { (state judge.new ≡ state judge.old) ⊎ IsLong (would judge.old) (state judge.old) (state judge.new) (S.shown store.now) own.now table only.now indexes }
    ensures quiet { narrows ≡ false → state judge.new ≡ state judge.old }
    ensures searched { narrows ≡ true → IfOk result (λ rows. RanFetched (length rows.items) (would judge.old) (state judge.old) (state judge.new) (seen_at (S.shown store.now) own.now.base view.now) steps.old steps.new (search_of table own.now.base only.now indexes)) }
    ensures pages { narrows ≡ false → OnlyPages ((S.shown store.now).pages table own.now.base) steps.old steps.new }
{
    if narrows {
        rows_seen(
            alloc, store, table, own.base, view, only, indexes, judge, steps,
        )
    } else {
        met_rows(alloc, own, store, table, only, steps)
    }
}

/// The view of the session's transaction, where a search is to be made over it.
fn view_for<S: Store + Reader<Ledger = Uncounted>>(
    narrows: bool,
    catalog: &Catalog,
    store: &S,
    txns: &Txns,
    views: &mut Views,
    session: u8,
) -> Result<Option<View>, NoMemory>
    requires tied { IsTied (S.shown store.now) catalog.now txns.now }
    requires views { AreViews (S.shown store.now) txns.now.active views.old }
    ensures freezes { narrows ≡ true → IfOk result (λ frozen. IfSome (transaction_of txns.now.active session) (λ own. Freezes (S.shown store.now) (transaction_at txns.now.active own) frozen)) }
    ensures views { AreViews (S.shown store.now) txns.now.active views.new }
{
    if !narrows {
        return Ok(None);
    }
    freeze(catalog, store, txns, views, session)
}

/// The rows of a table in the view of the session's transaction for which WHERE is True. Where WHERE gives an index of the
/// table a range they are found by a search, else page by page as the store lends them.
fn met_by<S: Store + Reader<Ledger = Uncounted>>(
    alloc: Global,
    catalog: &Catalog,
    store: &S,
    txns: &Txns,
    views: &mut Views,
    session: u8,
    own: &Transaction,
    table: u32,
    only: &Restriction,
    judge: &mut Box<dyn Judge>,
) -> Result<Vec<Record>, NoMemory>
    requires tied { IsTied (S.shown store.now) catalog.now txns.now }
    requires there { table < length catalog.now.tables }
    requires over { is_over_table catalog.now.tables table only.now ≡ true }
    requires writes { writing txns.now.active session ≡ Ok own.now }
    requires views { AreViews (S.shown store.now) txns.now.active views.old }
    ensures rows { IfOk result (λ rows. rows.items ≡ met own.now table only.now ((S.shown store.now).rows table)) }
    ensures views { AreViews (S.shown store.now) txns.now.active views.new }
    ensures stays { would judge.new ≡ would judge.old }
    ensures asks { (state judge.new ≡ state judge.old) ⊎ MayAsk (would judge.old) (state judge.old) (state judge.new) (S.shown store.now) catalog.now.indexes txns.now.active session table only.now }
    ensures found { IfOk result (λ rows. FindsRows (would judge.old) (state judge.old) (state judge.new) (S.shown store.now) catalog.now.indexes txns.now.active session table only.now) }
{
    // What a store tells with its newest commit holds of its indexes.
    let _newest = store.last();
    let indexes = indexes_over(alloc, table, catalog.indexes())?;
    let narrows = any_narrows(alloc, only, indexes.as_slice())?;
    let view = view_for(narrows, catalog, store, txns, views, session)?;
    let mut steps = Steps::new(Uncounted);
    found_by(
        alloc, store, own, &view, table, only, indexes, narrows, judge, &mut steps,
    )
}

/// The changes that an UPDATE or DELETE would make. A session that has no transaction which may write is refused before any
/// search. The transaction's view is made for it where it is not kept.
fn due_changes<S: Store + Reader<Ledger = Uncounted>>(
    alloc: Global,
    catalog: &Catalog,
    store: &S,
    txns: &Txns,
    views: &mut Views,
    session: u8,
    table: u32,
    sets: Option<&[(u32, Value)]>,
    only: &Restriction,
    judge: &mut Box<dyn Judge>,
) -> Result<Vec<Change>, TxnFault>
    requires tied { IsTied (S.shown store.now) catalog.now txns.now }
    requires there { table < length catalog.now.tables }
    requires over { is_over_table catalog.now.tables table only.now ≡ true }
    requires views { AreViews (S.shown store.now) txns.now.active views.old }
    ensures ok { IfOk result (λ new. changing txns.now session table only.now (option_copied sets.entry) ((S.shown store.now).rows table) ≡ Ok new.items) }
    ensures fault { IfErr result (λ fault. IsFault (changing txns.now session table only.now (option_copied sets.entry) ((S.shown store.now).rows table)) fault) }
    ensures views { AreViews (S.shown store.now) txns.now.active views.new }
    ensures stays { would judge.new ≡ would judge.old }
    ensures asks { (state judge.new ≡ state judge.old) ⊎ MayAsk (would judge.old) (state judge.old) (state judge.new) (S.shown store.now) catalog.now.indexes txns.now.active session table only.now }
    ensures found { IfOk result (λ new. FindsRows (would judge.old) (state judge.old) (state judge.new) (S.shown store.now) catalog.now.indexes txns.now.active session table only.now) }
{
    let own = match txns.writing(session) {
        Ok(own) => own,
        Err(refusal) => return Err(TxnFault::Refused(refusal)),
    };
    let rows = match met_by(
        alloc, catalog, store, txns, views, session, own, table, only, judge,
    ) {
        Ok(rows) => rows,
        Err(NoMemory) => return Err(TxnFault::NoMemory),
    };
    txns.changing_found(session, table, sets, rows.as_slice())
}

/// UPDATE, which sets columns, and DELETE, which sets none: how many rows are changed, none of which has a rival then. What is
/// kept of the transaction's view is kept up with them. The judge rules on the scans of the search.
pub fn change_rows<S: Store + Reader<Ledger = Uncounted>>(
    alloc: Global,
    catalog: &Catalog,
    store: &S,
    txns: &mut Txns,
    views: &mut Views,
    session: u8,
    table: u32,
    sets: Option<&[(u32, Value)]>,
    only: &Restriction,
    judge: &mut Box<dyn Judge>,
) -> Result<u64, TxnFault>
    requires tied { IsTied (S.shown store.now) catalog.now txns.old }
    requires there { table < length catalog.now.tables }
    requires over { is_over_table catalog.now.tables table only.now ≡ true }
    requires views { AreViews (S.shown store.now) txns.old.active views.old }
    ensures ok { IfOk result (λ count. changed_over (S.shown store.now) catalog.now txns.old session table (option_copied sets.entry) only.now ≡ Ok (count, txns.new)) }
    ensures alone { OnOk result (rows_alone (db_of (S.shown store.now) catalog.now txns.old []) session table (option_copied sets.entry) only.now ≡ Ok tt) }
    ensures fault { IfErr result (λ fault. IsFault (changed_alone (S.shown store.now) catalog.now txns.old session table (option_copied sets.entry) only.now) fault) }
    ensures err { OnErr result (txns.new ≡ txns.old) }
    ensures tied { IsTied (S.shown store.now) catalog.now txns.new }
    ensures views { AreViews (S.shown store.now) txns.new.active views.new }
    ensures stays { would judge.new ≡ would judge.old }
    ensures asks { (state judge.new ≡ state judge.old) ⊎ MayAsk (would judge.old) (state judge.old) (state judge.new) (S.shown store.now) catalog.now.indexes txns.old.active session table only.now }
    ensures found { IfOk result (λ count. FindsRows (would judge.old) (state judge.old) (state judge.new) (S.shown store.now) catalog.now.indexes txns.old.active session table only.now) }
{
    // What a store tells with its newest commit holds of all its rows.
    let _newest = store.last();
    let new = match due_changes(
        alloc, catalog, store, txns, views, session, table, sets, only, judge,
    ) {
        Ok(new) => new,
        Err(fault) => return Err(fault),
    };
    match unrivalled(
        alloc,
        catalog,
        store,
        txns,
        views,
        session,
        table,
        new.as_slice(),
    ) {
        Ok(()) => {}
        Err(fault) => return Err(fault),
    }
    keep_up(catalog, store, txns, views, session, new.as_slice());
    let count = new.len() as u64;
    match txns.put_changes(session, new) {
        Ok(()) => Ok(count),
        Err(NoMemory) => {
            views.let_go(session);
            Err(TxnFault::NoMemory)
        }
    }
}

/// The view of the session's transaction as it stands, for a cursor or a search: None where it has no changes.
pub fn freeze<S: Store + Reader<Ledger = Uncounted>>(
    catalog: &Catalog,
    store: &S,
    txns: &Txns,
    views: &mut Views,
    session: u8,
) -> Result<Option<View>, NoMemory>
    requires tied { IsTied (S.shown store.now) catalog.now txns.now }
    requires views { AreViews (S.shown store.now) txns.now.active views.old }
    ensures freezes { IfOk result (λ frozen. IfSome (transaction_of txns.now.active session) (λ own. Freezes (S.shown store.now) (transaction_at txns.now.active own) frozen)) }
    ensures views { AreViews (S.shown store.now) txns.now.active views.new }
{
    // What a store tells with its newest commit holds of all its rows.
    let _newest = store.last();
    match txns.own(session) {
        None => Ok(None),
        Some(own) => views.freeze(store, catalog.indexes(), own),
    }
}
