//! The first rival of the rows that a statement writes.
ghost use Rattle.std.specs.Prelude.{◌≡◌, ◌<◌, ◌≤◌, ◌^◌, ◌==◌, ◌&&◌, ℕ, List, [], ◌∷◌, ◌++◌, Some, IfErr, IfOk, OnOk, Ok, map, length, slice_get};
ghost use Rattle.std.specs.List.{AllByRecursion, list_any};
ghost use Rattle.rv_value.specs.declared.record.Record.{Record as OneRecord};
ghost use Rattle.rv_rows.specs.declared.changes.Change.{Change as OneChange};
ghost use Rattle.rv_rows.specs.Merging.{values_row};
ghost use Rattle.rv_rows.specs.Changes.{Rise, has_change, rows_with_changes, with_changes};
ghost use Rattle.rv_catalog.specs.declared.def.IndexDef.{IndexDef as OneIndex};
ghost use Rattle.rv_reader.specs.Storing.{IsStored};
ghost use Rattle.rv_model.specs.Rivals.{all_alone, key_of, rows_left, rows_written, unique_over};
ghost use Rattle.rv_model.specs.Transactions.{touched_by};
ghost use Rattle.rv_own.specs.Views.{AreViews};
ghost use Rattle.rv_txn.specs.Calls.{IsFault};
ghost use Rattle.rv_rivals.specs.Lookups.{CanLook, CanTest, CanTestOther, HasIndex, IsPlace, IsStatement, all_none, entries_written, first_equal_to, first_with, neighbours_in, none_in, other_than, written_first};
ghost use Rattle.rv_rivals.specs.Points.{lowest_with, point};

use crate::looking::{Sought, has_null, key_of, lowest_seen, lowest_with};
use crate::near::{Near, Other, near_of};
use crate::rows::{Changed, Left, Unchanged};
use crate::statement::{entries_of, lower_row, other_with};
use rv_blocks::Blocks;
use rv_catalog::IndexDef;
use rv_judge::Uncounted;
use rv_model::{Refusal, Rival, Transaction};
use rv_own::Views;
use rv_reader::{Reader, Store};
use rv_rows::Change;
use rv_txn::{TxnFault, Txns};
use rv_value::{IndexEntry, NoMemory, RowNo, Values};
use std::alloc::Global;

/// A unique index over the table that a statement writes, and the entries in it of the statement's rows.
#[derive(Drop)]
struct Unique<'a> {
    number: u32,
    columns: &'a [u32],
    entries: Blocks<IndexEntry>,
}

/// Tests that none of the rows which a statement of a session's transaction writes has a rival in a unique index; the fault
/// is the refusal that shows the first one. It makes one look-up for each such row and index in what the transaction sees, in
/// the last commit, and in what each other transaction sees that has changed rows of the table; of a table without a unique
/// index it reads nothing.
pub fn no_rivals<S: Store + Reader<Ledger = Uncounted>>(
    alloc: Global,
    store: &S,
    indexes: &[IndexDef],
    txns: &Txns,
    views: &mut Views,
    own: &Transaction,
    table: u32,
    new: &[Change],
) -> Result<(), TxnFault>
    requires { CanLook (S.shown store.now) indexes.now txns.now views.old own.now table new.now }
    ensures ok { OnOk result (all_alone (unique_over table indexes.now) (neighbours_in (S.shown store.now) txns.now own.now table new.now) (rows_written table new.now) ≡ Ok tt) }
    ensures fault { IfErr result (λ fault. IsFault (all_alone (unique_over table indexes.now) (neighbours_in (S.shown store.now) txns.now own.now table new.now) (rows_written table new.now)) fault) }
    ensures views { AreViews (S.shown store.now) txns.now.active views.new }
{
    if !has_unique(indexes, table) {
        return Ok(());
    }
    let unique = unique_over(alloc, indexes, table, new)?;
    let near = near_of(alloc, store, indexes, txns, views, own, table, new)?;
    let tested = test_rows(alloc, store, txns, unique.as_slice(), &near, new);
    drop(near);
    tested
}

/// Whether some index is a unique one over a table.
fn has_unique(indexes: &[IndexDef], table: u32) -> bool
    ensures { result ≡ list_any (λ (d : OneIndex). d.unique && (d.table == table)) indexes.now }
{
    indexes
        .iter()
        .any(|index| index.unique && index.table == table)
}

/// Adds an index, where it is a unique one over the table.
fn add_unique<'a>(
    alloc: Global,
    unique: &mut Vec<Unique<'a>>,
    number: u32,
    def: &'a IndexDef,
    table: u32,
    new: &[Change],
) -> Result<(), NoMemory>
    requires some { 1 ≤ length def.now.columns }
    requires few { length def.now.columns ≤ 4 }
    requires rise { Rise new.now }
    ensures columns { OnOk result (map (λ u. u.columns.now) unique.new.items ≡ map (λ u. u.columns.now) unique.old.items ++ map (λ (d : OneIndex). d.columns) (unique_over table (def.now ∷ []))) }
    ensures each { (indexes : List OneIndex) → slice_get indexes number ≡ Some def.now → AllByRecursion (λ u. IsPlace indexes table u.number u.columns.now) unique.old.items → OnOk result (AllByRecursion (λ u. IsPlace indexes table u.number u.columns.now) unique.new.items) }
    ensures entries { AllByRecursion (λ (c : OneChange). c.table ≡ table) new.now → AllByRecursion (λ u. u.entries ≡ entries_written u.columns.now table new.now) unique.old.items → OnOk result (AllByRecursion (λ u. u.entries ≡ entries_written u.columns.now table new.now) unique.new.items) }
{
    if !def.unique || def.table != table {
        return Ok(());
    }
    let columns = def.columns.as_slice();
    let entries = entries_of(alloc, columns, new)?;
    unique.push(Unique {
        number,
        columns,
        entries,
    })?;
    Ok(())
}

/// The unique indexes over a table, in the order of their creation.
fn unique_over<'a>(
    alloc: Global,
    indexes: &'a [IndexDef],
    table: u32,
    new: &[Change],
) -> Result<Vec<Unique<'a>>, NoMemory>
    requires numbers { length indexes.now < 2 ^ 32 }
    requires columns { AllByRecursion (λ (d : OneIndex). (1 ≤ length d.columns) × (length d.columns ≤ 4)) indexes.now }
    requires rise { Rise new.now }
    requires of_table { AllByRecursion (λ (c : OneChange). c.table ≡ table) new.now }
    ensures columns { IfOk result (λ unique. map (λ u. u.columns.now) unique.items ≡ map (λ (d : OneIndex). d.columns) (unique_over table indexes.now)) }
    ensures each { IfOk result (λ unique. AllByRecursion (λ u. IsPlace indexes.now table u.number u.columns.now) unique.items) }
    ensures entries { IfOk result (λ unique. AllByRecursion (λ u. u.entries ≡ entries_written u.columns.now table new.now) unique.items) }
{
    let mut unique = Vec::new(alloc);
    let mut number = 0;
    'indexes: for def in indexes {
        add_unique(alloc, &mut unique, number, def, table, new)?;
        number += 1;
    }
    Ok(unique)
}

/// Tests the rows that changes write, one after another.
fn test_rows<S: Store + Reader<Ledger = Uncounted>>(
    alloc: Global,
    store: &S,
    txns: &Txns,
    unique: &[Unique<'_>],
    near: &Near<'_>,
    new: &[Change],
) -> Result<(), TxnFault>
    requires can { AllByRecursion (λ u. CanTest (S.shown store.now) near.now.table u.number u.columns.now near.now.own.now near.now.view u.entries) unique.now }
    requires others { AllByRecursion (λ o. CanTestOther (S.shown store.now) o.transaction.now o.view) near.now.others.items }
    requires same { (n : ℕ) → has_change near.now.table n near.now.new ≡ has_change near.now.table n new.now }
    requires rise { Rise new.now }
    requires of_table { AllByRecursion (λ (c : OneChange). c.table ≡ near.now.table) new.now }
    requires entries { AllByRecursion (λ u. u.entries ≡ entries_written u.columns.now near.now.table new.now) unique.now }
    ensures ok { OnOk result (all_none (λ (r : OneRecord) (columns : List ℕ). first_equal_to (S.shown store.now) (touched_by txns.now.touched near.now.table) columns (key_of columns r.values) r.row.0 near.now.table near.now.own.now new.now (map (λ o. o.transaction.now) near.now.others.items)) (map (λ u. u.columns.now) unique.now) (rows_written near.now.table new.now) ≡ Ok tt) }
    ensures fault { IfErr result (λ fault. IsFault (all_none (λ (r : OneRecord) (columns : List ℕ). first_equal_to (S.shown store.now) (touched_by txns.now.touched near.now.table) columns (key_of columns r.values) r.row.0 near.now.table near.now.own.now new.now (map (λ o. o.transaction.now) near.now.others.items)) (map (λ u. u.columns.now) unique.now) (rows_written near.now.table new.now)) fault) }
{
    'rows: for change in new {
        match test_change(alloc, store, txns, unique, near, change) {
            Ok(()) => {}
            Err(fault) => return Err(fault),
        }
    }
    Ok(())
}

/// Tests the row that a change writes, where it writes one.
fn test_change<S: Store + Reader<Ledger = Uncounted>>(
    alloc: Global,
    store: &S,
    txns: &Txns,
    unique: &[Unique<'_>],
    near: &Near<'_>,
    change: &Change,
) -> Result<(), TxnFault>
    requires can { AllByRecursion (λ u. CanTest (S.shown store.now) near.now.table u.number u.columns.now near.now.own.now near.now.view u.entries) unique.now }
    requires others { AllByRecursion (λ o. CanTestOther (S.shown store.now) o.transaction.now o.view) near.now.others.items }
    ensures ok { OnOk result ((new : List OneChange) → AllByRecursion (λ u. IsStatement near.now.table change.now.row.0 near.now.new u.columns.now u.entries new) unique.now → all_none (λ (r : OneRecord) (columns : List ℕ). first_equal_to (S.shown store.now) (touched_by txns.now.touched near.now.table) columns (key_of columns r.values) r.row.0 near.now.table near.now.own.now new (map (λ o. o.transaction.now) near.now.others.items)) (map (λ u. u.columns.now) unique.now) (values_row change.now.row.0 change.now.values) ≡ Ok tt) }
    ensures fault { IfErr result (λ fault. (new : List OneChange) → AllByRecursion (λ u. IsStatement near.now.table change.now.row.0 near.now.new u.columns.now u.entries new) unique.now → IsFault (all_none (λ (r : OneRecord) (columns : List ℕ). first_equal_to (S.shown store.now) (touched_by txns.now.touched near.now.table) columns (key_of columns r.values) r.row.0 near.now.table near.now.own.now new (map (λ o. o.transaction.now) near.now.others.items)) (map (λ u. u.columns.now) unique.now) (values_row change.now.row.0 change.now.values)) fault) }
{
    match &change.values {
        None => Ok(()),
        Some(values) => test_row(alloc, store, txns, unique, near, change.row, values),
    }
}

/// Tests a row in each unique index.
fn test_row<S: Store + Reader<Ledger = Uncounted>>(
    alloc: Global,
    store: &S,
    txns: &Txns,
    unique: &[Unique<'_>],
    near: &Near<'_>,
    row: RowNo,
    values: &Values,
) -> Result<(), TxnFault>
    requires can { AllByRecursion (λ u. CanTest (S.shown store.now) near.now.table u.number u.columns.now near.now.own.now near.now.view u.entries) unique.now }
    requires others { AllByRecursion (λ o. CanTestOther (S.shown store.now) o.transaction.now o.view) near.now.others.items }
    ensures ok { OnOk result ((new : List OneChange) → AllByRecursion (λ u. IsStatement near.now.table row.0 near.now.new u.columns.now u.entries new) unique.now → none_in (λ (columns : List ℕ). first_equal_to (S.shown store.now) (touched_by txns.now.touched near.now.table) columns (key_of columns values.now) row.0 near.now.table near.now.own.now new (map (λ o. o.transaction.now) near.now.others.items)) (map (λ u. u.columns.now) unique.now) ≡ Ok tt) }
    ensures fault { IfErr result (λ fault. (new : List OneChange) → AllByRecursion (λ u. IsStatement near.now.table row.0 near.now.new u.columns.now u.entries new) unique.now → IsFault (none_in (λ (columns : List ℕ). first_equal_to (S.shown store.now) (touched_by txns.now.touched near.now.table) columns (key_of columns values.now) row.0 near.now.table near.now.own.now new (map (λ o. o.transaction.now) near.now.others.items)) (map (λ u. u.columns.now) unique.now)) fault) }
{
    'unique: for index in unique {
        match rival_of(alloc, store, txns, index, near, row, values)? {
            None => {}
            Some(refusal) => return Err(TxnFault::Refused(refusal)),
        }
    }
    Ok(())
}

/// The refusal that shows the first rival of a row in an index, where it has one.
fn rival_of<S: Store + Reader<Ledger = Uncounted>>(
    alloc: Global,
    store: &S,
    txns: &Txns,
    index: &Unique<'_>,
    near: &Near<'_>,
    row: RowNo,
    values: &Values,
) -> Result<Option<Refusal>, NoMemory>
    requires can { CanTest (S.shown store.now) near.now.table index.now.number index.now.columns.now near.now.own.now near.now.view index.now.entries }
    requires others { AllByRecursion (λ o. CanTestOther (S.shown store.now) o.transaction.now o.view) near.now.others.items }
    ensures { IfOk result (λ found. (new : List OneChange) → IsStatement near.now.table row.0 near.now.new index.now.columns.now index.now.entries new → found ≡ first_equal_to (S.shown store.now) (touched_by txns.now.touched near.now.table) index.now.columns.now (key_of index.now.columns.now values.now) row.0 near.now.table near.now.own.now new (map (λ o. o.transaction.now) near.now.others.items)) }
{
    let key = key_of(alloc, values.as_slice(), index.columns)?;
    if has_null(&key) {
        drop(key);
        return Ok(None);
    }
    let sought = Sought::new(alloc, key)?;
    let found = first_with(alloc, store, txns, index, near, row, &sought);
    drop(sought);
    found
}

/// The refusal that shows the first other row with a key, in the order of the places.
fn first_with<S: Store + Reader<Ledger = Uncounted>>(
    alloc: Global,
    store: &S,
    txns: &Txns,
    index: &Unique<'_>,
    near: &Near<'_>,
    row: RowNo,
    sought: &Sought,
) -> Result<Option<Refusal>, NoMemory>
    requires can { CanTest (S.shown store.now) near.now.table index.now.number index.now.columns.now near.now.own.now near.now.view index.now.entries }
    requires others { AllByRecursion (λ o. CanTestOther (S.shown store.now) o.transaction.now o.view) near.now.others.items }
    requires long { length sought.now.key ≡ length index.now.columns.now }
    requires range { sought.now.range ≡ point sought.now.key }
    ensures { IfOk result (λ found. (new : List OneChange) → IsStatement near.now.table row.0 near.now.new index.now.columns.now index.now.entries new → found ≡ first_with (S.shown store.now) (touched_by txns.now.touched near.now.table) index.now.columns.now sought.now.key row.0 near.now.table near.now.own.now new (map (λ o. o.transaction.now) near.now.others.items)) }
{
    if let Some(row) = in_view(alloc, store, index, near, sought, row)? {
        let by = Rival::View;
        return Ok(Some(Refusal::Duplicate { row, by }));
    }
    if let Some(row) = at_commit(alloc, store, index, near, sought)? {
        let by = Rival::Commit(txns.written_by(near.table, row));
        return Ok(Some(Refusal::Duplicate { row, by }));
    }
    in_others(
        alloc,
        store,
        index,
        near.table,
        near.others.as_slice(),
        sought,
        row,
    )
}

/// The lowest other row with a key that the transaction sees, with the statement's rows: of those that it sees now and the
/// statement does not change, or of the statement's rows.
fn in_view<S: Store + Reader<Ledger = Uncounted>>(
    alloc: Global,
    store: &S,
    index: &Unique<'_>,
    near: &Near<'_>,
    sought: &Sought,
    row: RowNo,
) -> Result<Option<RowNo>, NoMemory>
    requires can { CanTest (S.shown store.now) near.now.table index.now.number index.now.columns.now near.now.own.now near.now.view index.now.entries }
    requires long { length sought.now.key ≡ length index.now.columns.now }
    requires range { sought.now.range ≡ point sought.now.key }
    ensures { IfOk result (λ found. (new : List OneChange) → IsStatement near.now.table row.0 near.now.new index.now.columns.now index.now.entries new → found ≡ lowest_with index.now.columns.now sought.now.key (other_than row.0) (rows_with_changes near.now.table (with_changes new near.now.own.now.changes) ((S.shown store.now).rows near.now.table near.now.own.now.base))) }
{
    let unchanged = Unchanged {
        table: near.table,
        new: &near.new,
    };
    let base = near.own.base;
    let found = lowest_seen(
        alloc,
        store,
        &near.view,
        index.number,
        base,
        sought,
        &unchanged,
    )?;
    let other = other_with(&index.entries, sought, row)?;
    Ok(lower_row(found, other))
}

/// The lowest row with a key at the last commit that neither the transaction nor the statement changes.
fn at_commit<S: Store + Reader<Ledger = Uncounted>>(
    alloc: Global,
    store: &S,
    index: &Unique<'_>,
    near: &Near<'_>,
    sought: &Sought,
) -> Result<Option<RowNo>, NoMemory>
    requires can { CanTest (S.shown store.now) near.now.table index.now.number index.now.columns.now near.now.own.now near.now.view index.now.entries }
    requires long { length sought.now.key ≡ length index.now.columns.now }
    requires range { sought.now.range ≡ point sought.now.key }
    ensures { IfOk result (λ found. (row : ℕ) (new : List OneChange) → IsStatement near.now.table row near.now.new index.now.columns.now index.now.entries new → found ≡ lowest_with index.now.columns.now sought.now.key (other_than row) (rows_left near.now.table (with_changes new near.now.own.now.changes) ((S.shown store.now).rows near.now.table (S.shown store.now).newest))) }
{
    let left = Left {
        table: near.table,
        own: &near.own.changes,
        new: &near.new,
    };
    let found = lowest_with(alloc, store, index.number, store.last(), sought, &left)?;
    Ok(found)
}

/// The lowest row with a key that another transaction has written, but for one row.
fn in_other<S: Store + Reader<Ledger = Uncounted>>(
    alloc: Global,
    store: &S,
    index: &Unique<'_>,
    table: u32,
    other: &Other<'_>,
    sought: &Sought,
    row: RowNo,
) -> Result<Option<RowNo>, NoMemory>
    requires stored { IsStored (S.shown store.now) }
    requires index { HasIndex (S.shown store.now) table index.now.number index.now.columns.now }
    requires other { CanTestOther (S.shown store.now) other.now.transaction.now other.now.view }
    requires long { length sought.now.key ≡ length index.now.columns.now }
    requires range { sought.now.range ≡ point sought.now.key }
    ensures { IfOk result (λ found. found ≡ lowest_with index.now.columns.now sought.now.key (other_than row.0) (rows_written table other.now.transaction.now.changes)) }
{
    let transaction = other.transaction;
    let changed = Changed {
        table,
        changes: &transaction.changes,
        but: row,
    };
    let base = transaction.base;
    let found = lowest_seen(
        alloc,
        store,
        &other.view,
        index.number,
        base,
        sought,
        &changed,
    )?;
    Ok(found)
}

/// The refusal that shows the lowest row with a key that another transaction has written, the one that began first.
fn in_others<S: Store + Reader<Ledger = Uncounted>>(
    alloc: Global,
    store: &S,
    index: &Unique<'_>,
    table: u32,
    others: &[Other<'_>],
    sought: &Sought,
    row: RowNo,
) -> Result<Option<Refusal>, NoMemory>
    requires stored { IsStored (S.shown store.now) }
    requires index { HasIndex (S.shown store.now) table index.now.number index.now.columns.now }
    requires others { AllByRecursion (λ o. CanTestOther (S.shown store.now) o.transaction.now o.view) others.now }
    requires long { length sought.now.key ≡ length index.now.columns.now }
    requires range { sought.now.range ≡ point sought.now.key }
    ensures { IfOk result (λ found. found ≡ written_first index.now.columns.now sought.now.key row.0 table (map (λ o. o.transaction.now) others.now)) }
{
    'others: for other in others {
        if let Some(row) = in_other(alloc, store, index, table, other, sought, row)? {
            let by = Rival::Txn(other.transaction.number);
            return Ok(Some(Refusal::Duplicate { row, by }));
        }
    }
    Ok(None)
}
