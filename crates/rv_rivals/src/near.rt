//! What stands beside the rows that a statement writes.
ghost use Rattle.std.specs.Prelude.{◌≡◌, ℕ, List, true, IfOk, OnOk, ◌++◌, map, ◌∷◌, []};
ghost use Rattle.std.specs.List.{AllByRecursion};
ghost use Rattle.rv_rows.specs.Changes.{has_change};
ghost use Rattle.rv_model.specs.declared.transactions.Transaction.{Transaction as OneTransaction};
ghost use Rattle.rv_txn.specs.Apart.{are_apart};
ghost use Rattle.rv_own.specs.Views.{AreOwn, AreViews, CanView, Freezes};
ghost use Rattle.rv_rivals.specs.Lookups.{CanLook, IsPlaced, touching};

use crate::statement::rows_of;
use rv_catalog::IndexDef;
use rv_judge::Uncounted;
use rv_model::Transaction;
use rv_own::Views;
use rv_reader::{Reader, Store};
use rv_rows::{Change, Changes};
use rv_txn::Txns;
use rv_value::NoMemory;
use rv_view::View;
use std::alloc::Global;

/// Another transaction that has changed rows of the table, and its view.
#[derive(Drop)]
pub struct Other<'a> {
    pub transaction: &'a Transaction,
    pub view: Option<View>,
}

/// The transaction of a statement with its view, which rows the statement changes, and the other transactions that have
/// changed rows of the table.
#[derive(Drop)]
pub struct Near<'a> {
    pub table: u32,
    pub own: &'a Transaction,
    pub view: Option<View>,
    pub new: Changes,
    pub others: Vec<Other<'a>>,
}

/// Adds a transaction with its view, where it is another session's and has changed rows of the table.
fn add_other<'a, S: Store + Reader<Ledger = Uncounted>>(
    store: &S,
    indexes: &[IndexDef],
    views: &mut Views,
    others: &mut Vec<Other<'a>>,
    transaction: &'a Transaction,
    session: u8,
    table: u32,
) -> Result<(), NoMemory>
    requires can { CanView (S.shown store.now) indexes.now transaction.now [] }
    requires kept { AreOwn (S.shown store.now) transaction.now views.old }
    ensures others { OnOk result (map (λ o. o.transaction.now) others.new.items ≡ map (λ o. o.transaction.now) others.old.items ++ touching table session (transaction.now ∷ [])) }
    ensures each { AllByRecursion (λ o. Freezes (S.shown store.now) o.transaction.now o.view) others.old.items → OnOk result (AllByRecursion (λ o. Freezes (S.shown store.now) o.transaction.now o.view) others.new.items) }
    ensures views { (active : List OneTransaction) → IsPlaced active transaction.now → AreViews (S.shown store.now) active views.old → AreViews (S.shown store.now) active views.new }
{
    if transaction.session == session || !transaction.changes.touches(table) {
        return Ok(());
    }
    let view = views.freeze(store, indexes, transaction)?;
    others.push(Other { transaction, view })?;
    Ok(())
}

/// The other sessions' transactions that have changed rows of the table, in the order in which they began.
fn others_of<'a, S: Store + Reader<Ledger = Uncounted>>(
    alloc: Global,
    store: &S,
    indexes: &[IndexDef],
    active: &'a [Transaction],
    views: &mut Views,
    session: u8,
    table: u32,
) -> Result<Vec<Other<'a>>, NoMemory>
    requires apart { are_apart active.now ≡ true }
    requires can { AllByRecursion (λ (t : OneTransaction). CanView (S.shown store.now) indexes.now t []) active.now }
    requires views { AreViews (S.shown store.now) active.now views.old }
    ensures others { IfOk result (λ others. map (λ o. o.transaction.now) others.items ≡ touching table session active.now) }
    ensures each { IfOk result (λ others. AllByRecursion (λ o. Freezes (S.shown store.now) o.transaction.now o.view) others.items) }
    ensures views { AreViews (S.shown store.now) active.now views.new }
{
    let mut others = Vec::new(alloc);
    'active: for transaction in active {
        add_other(
            store,
            indexes,
            views,
            &mut others,
            transaction,
            session,
            table,
        )?;
    }
    Ok(others)
}

/// What stands beside the rows of a statement. A view that is asked for and not kept is made.
pub fn near_of<'a, S: Store + Reader<Ledger = Uncounted>>(
    alloc: Global,
    store: &S,
    indexes: &[IndexDef],
    txns: &'a Txns,
    views: &mut Views,
    own: &'a Transaction,
    table: u32,
    new: &[Change],
) -> Result<Near<'a>, NoMemory>
    requires { CanLook (S.shown store.now) indexes.now txns.now views.old own.now table new.now }
    ensures table { IfOk result (λ near. near.table ≡ table) }
    ensures own { IfOk result (λ near. near.own.now ≡ own.now) }
    ensures view { IfOk result (λ near. Freezes (S.shown store.now) own.now near.view) }
    ensures new { IfOk result (λ near. (t : ℕ) (row : ℕ) → has_change t row near.new ≡ has_change t row new.now) }
    ensures others { IfOk result (λ near. map (λ o. o.transaction.now) near.others.items ≡ touching table own.now.session txns.now.active) }
    ensures each { IfOk result (λ near. AllByRecursion (λ o. Freezes (S.shown store.now) o.transaction.now o.view) near.others.items) }
    ensures views { AreViews (S.shown store.now) txns.now.active views.new }
{
    let view = views.freeze(store, indexes, own)?;
    let active = txns.actives();
    let others = match others_of(alloc, store, indexes, active, views, own.session, table) {
        Ok(others) => others,
        Err(fault) => {
            drop(view);
            return Err(fault);
        }
    };
    match rows_of(alloc, new) {
        Ok(new) => Ok(Near {
            table,
            own,
            view,
            new,
            others,
        }),
        Err(fault) => {
            drop(view);
            drop(others);
            Err(fault)
        }
    }
}
