//! The views of transactions, kept up to date with their changes from when one is first asked for: a cursor reads the view as it
//! stands when it is opened.
ghost use Rattle.std.specs.Prelude.{◌≡◌, ◌<◌, ◌==◌, ◌⊎◌, ◌∷◌, ◌++◌, [], Some, IfOk, IfSome, List, ℕ, length, position, slice_index_or};
ghost use Rattle.std.specs.List.{AllByRecursion};
ghost use Rattle.rv_rows.specs.Changes.{Rise, with_changes};
ghost use Rattle.rv_model.specs.declared.transactions.Transaction.{Transaction as OneTransaction};
ghost use Rattle.rv_model.specs.Transactions.{transaction_at, transaction_of, with_own};
ghost use Rattle.rv_view.specs.Making.{AreIndexes, Keeps};
ghost use Rattle.rv_own.specs.declared.views.OwnView.{OwnView as OneView};
ghost use Rattle.rv_own.specs.Views.{AreOwn, AreViews, CanKeep, CanView, Freezes, IsFrozenOf, IsMadeOf, MayJoin, others, view_of};

use rv_blocks::Blocks;
use rv_catalog::IndexDef;
use rv_judge::Uncounted;
use rv_model::Transaction;
use rv_reader::{Reader, Store};
use rv_rows::Change;
use rv_value::{Items, NoMemory};
use rv_view::{View, frozen_of};
use std::alloc::Global;
use std::marker::Model;

/// What is kept for a session's transaction: its view, and which rows it has written.
#[derive(Drop)]
pub struct OwnView {
    pub session: u8,
    pub view: View,
    pub written: Blocks<Change>,
}

/// The views of transactions that have changes. One is made when it is first asked for, of all changes that the transaction has
/// by then, and kept up to date from then on; a cursor asks for it, and so do a search and the test of a unique index. Of one
/// whose view found no memory none is kept: it is made anew when it is asked for again.
#[derive(Drop)]
pub struct Views {
    alloc: Global,
    views: Items<OwnView>,
}

impl Model for Views {
    ghost use Rattle.std.specs.Prelude.{List};
    ghost use Rattle.rv_own.specs.declared.views.OwnView.{OwnView};

    ghost Value = { List OwnView };

    ghost view = { λ v. v.views };
}

impl Views {
    /// No view. It takes no memory.
    pub fn new(alloc: Global) -> Views
        ensures { result ≡ [] }
    {
        Views {
            alloc,
            views: Items::new(alloc),
        }
    }

    /// The view of a session's transaction goes, where one is kept: the transaction ends, or its changes were not put. It
    /// takes no memory.
    pub fn let_go(&mut self, session: u8)
        ensures { self.new ≡ others session self.old }
    {
        let_go_of(&mut self.views, session);
    }

    /// Brings the view of a transaction, where one is kept, up to date with changes that are about to be put. Where no memory
    /// is found none is kept any more. Without a view it does nothing.
    pub fn keep<S: Store + Reader<Ledger = Uncounted>>(
        &mut self,
        store: &S,
        indexes: &[IndexDef],
        own: &Transaction,
        new: &[Change],
    )
        requires can { CanView (S.shown store.now) indexes.now own.now new.now }
        requires kept { AreOwn (S.shown store.now) own.now self.old }
        ensures { (active : List OneTransaction) (place : ℕ) → transaction_of active own.now.session ≡ Some place → transaction_at active place ≡ own.now → AreViews (S.shown store.now) active self.old → AreViews (S.shown store.now) (with_own active place (with_changes new.now own.now.changes)) self.new }
    {
        keep_views(self.alloc, &mut self.views, store, indexes, own, new);
    }

    /// The view of a transaction as it stands, for whoever reads it: None where it has no changes. It copies no
    /// list where the view is kept, and else makes it of all changes, in time that grows with their number: once for each
    /// transaction, unless memory is wanting.
    pub fn freeze<S: Store + Reader<Ledger = Uncounted>>(
        &mut self,
        store: &S,
        indexes: &[IndexDef],
        own: &Transaction,
    ) -> Result<Option<View>, NoMemory>
        requires can { CanView (S.shown store.now) indexes.now own.now [] }
        requires kept { AreOwn (S.shown store.now) own.now self.old }
        ensures freezes { IfOk result (Freezes (S.shown store.now) own.now) }
        ensures keeps { (active : List OneTransaction) (place : ℕ) → transaction_of active own.now.session ≡ Some place → transaction_at active place ≡ own.now → AreViews (S.shown store.now) active self.old → AreViews (S.shown store.now) active self.new }
    {
        freeze_view(self.alloc, &mut self.views, store, indexes, own)
    }
}

fn let_go_of(views: &mut Items<OwnView>, session: u8)
    ensures { views.new ≡ others session views.old }
{
    views.retain(|view| view.session != session);
}

/// The place of the view that is kept for a session.
fn place_of(views: &[OwnView], session: u8) -> Option<usize>
    ensures { result ≡ position (λ (v : OneView). v.session == session) views.now }
{
    views.iter().position(|view| view.session == session)
}

/// Takes the view that stands in the place of a session's out.
fn take_first(views: &mut Items<OwnView>, session: u8) -> Option<OwnView>
    ensures left { others session views.new ≡ others session views.old }
    ensures own { result ≡ view_of session views.old }
{
    match place_of(views.as_slice(), session) {
        None => None,
        Some(place) => Some(views.remove(place)),
    }
}

/// Takes the view that is kept for a session out.
fn take(views: &mut Items<OwnView>, session: u8) -> Option<OwnView>
    ensures left { views.new ≡ others session views.old }
    ensures own { result ≡ view_of session views.old }
{
    let found = take_first(views, session);
    let_go_of(views, session);
    found
}

/// The view that changes make at a transaction's base.
fn made_of<S: Store + Reader<Ledger = Uncounted>>(
    alloc: Global,
    store: &S,
    indexes: &[IndexDef],
    own: &Transaction,
    changes: &[Change],
) -> Result<OwnView, NoMemory>
    requires indexes { AreIndexes (S.shown store.now) indexes.now }
    requires can { AllByRecursion (CanKeep (S.shown store.now) own.now.base) changes.now }
    requires rise { Rise changes.now }
    ensures { IfOk result (IsMadeOf (S.shown store.now) own.now.session own.now.base changes.now) }
{
    let (frozen, written) = frozen_of(alloc, own.base, store, indexes, changes)?;
    let view = View::new(alloc, frozen)?;
    Ok(OwnView {
        session: own.session,
        view,
        written,
    })
}

/// A view, brought up to date with further changes.
fn kept_on<S: Store + Reader<Ledger = Uncounted>>(
    alloc: Global,
    kept: OwnView,
    store: &S,
    indexes: &[IndexDef],
    new: &[Change],
) -> Result<OwnView, NoMemory>
    requires indexes { AreIndexes (S.shown store.now) indexes.now }
    requires can { AllByRecursion (CanKeep (S.shown store.now) kept.view.base) new.now }
    requires keeps { Keeps (S.shown store.now) kept.view kept.written }
    ensures { IfOk result (IsMadeOf (S.shown store.now) kept.session kept.view.base (with_changes new.now kept.view.changes)) }
{
    let OwnView {
        session,
        mut view,
        mut written,
    } = kept;
    'changes: for change in new {
        view.keep(alloc, &mut written, store, indexes, change)?;
    }
    Ok(OwnView {
        session,
        view,
        written,
    })
}

/// The view that is kept for a transaction, brought up to date with changes that are about to be put, and taken out of those that
/// are kept. None where there is no memory for it, or where none was kept.
fn updated<S: Store + Reader<Ledger = Uncounted>>(
    alloc: Global,
    views: &mut Items<OwnView>,
    store: &S,
    indexes: &[IndexDef],
    own: &Transaction,
    new: &[Change],
) -> Option<OwnView>
    requires can { CanView (S.shown store.now) indexes.now own.now new.now }
    requires kept { AreOwn (S.shown store.now) own.now views.old }
    ensures left { views.new ≡ others own.now.session views.old }
    ensures own { IfSome result (IsMadeOf (S.shown store.now) own.now.session own.now.base (with_changes new.now own.now.changes)) }
{
    let Some(view) = take(views, own.session) else {
        return None;
    };
    match kept_on(alloc, view, store, indexes, new) {
        Ok(next) => Some(next),
        Err(NoMemory) => None,
    }
}

/// Puts a view behind the others, where there is memory for it.
fn put_behind(views: &mut Items<OwnView>, own: OwnView)
    ensures { (views.new ≡ views.old) ⊎ (views.new ≡ views.old ++ own ∷ []) }
{
    let _ = views.push(own);
}

fn keep_views<S: Store + Reader<Ledger = Uncounted>>(
    alloc: Global,
    views: &mut Items<OwnView>,
    store: &S,
    indexes: &[IndexDef],
    own: &Transaction,
    new: &[Change],
)
    requires can { CanView (S.shown store.now) indexes.now own.now new.now }
    requires kept { AreOwn (S.shown store.now) own.now views.old }
    ensures { (active : List OneTransaction) (place : ℕ) → transaction_of active own.now.session ≡ Some place → transaction_at active place ≡ own.now → AreViews (S.shown store.now) active views.old → AreViews (S.shown store.now) (with_own active place (with_changes new.now own.now.changes)) views.new }
{
    let Some(view) = updated(alloc, views, store, indexes, own, new) else {
        return;
    };
    put_behind(views, view);
}

/// What all changes of a transaction make, and the same view for one holder more.
fn made_now<S: Store + Reader<Ledger = Uncounted>>(
    alloc: Global,
    store: &S,
    indexes: &[IndexDef],
    own: &Transaction,
) -> Result<(OwnView, View), NoMemory>
    requires { CanView (S.shown store.now) indexes.now own.now [] }
    ensures made { IfOk result (λ both. IsMadeOf (S.shown store.now) own.now.session own.now.base own.now.changes both.0) }
    ensures same { IfOk result (λ both. both.1 ≡ both.0.view) }
{
    let changes = own.changes.to_vec()?;
    let made = made_of(alloc, store, indexes, own, changes.as_slice())?;
    let shared = made.view.share()?;
    Ok((made, shared))
}

/// The view of a transaction for which none is kept: it is made of all changes, and kept where there is memory for it.
fn freeze_anew<S: Store + Reader<Ledger = Uncounted>>(
    alloc: Global,
    views: &mut Items<OwnView>,
    store: &S,
    indexes: &[IndexDef],
    own: &Transaction,
) -> Result<View, NoMemory>
    requires { CanView (S.shown store.now) indexes.now own.now [] }
    ensures freezes { IfOk result (IsFrozenOf (S.shown store.now) own.now) }
    ensures joins { MayJoin (IsMadeOf (S.shown store.now) own.now.session own.now.base own.now.changes) views.old views.new }
{
    let (made, shared) = made_now(alloc, store, indexes, own)?;
    put_behind(views, made);
    Ok(shared)
}

fn freeze_view<S: Store + Reader<Ledger = Uncounted>>(
    alloc: Global,
    views: &mut Items<OwnView>,
    store: &S,
    indexes: &[IndexDef],
    own: &Transaction,
) -> Result<Option<View>, NoMemory>
    requires can { CanView (S.shown store.now) indexes.now own.now [] }
    requires kept { AreOwn (S.shown store.now) own.now views.old }
    ensures freezes { IfOk result (Freezes (S.shown store.now) own.now) }
    ensures keeps { (active : List OneTransaction) (place : ℕ) → transaction_of active own.now.session ≡ Some place → transaction_at active place ≡ own.now → AreViews (S.shown store.now) active views.old → AreViews (S.shown store.now) active views.new }
{
    if own.changes.len() == 0 {
        return Ok(None);
    }
    if let Some(place) = place_of(views.as_slice(), own.session) {
        let shared = shared_at(views.as_slice(), place)?;
        return Ok(Some(shared));
    }
    let anew = freeze_anew(alloc, views, store, indexes, own)?;
    Ok(Some(anew))
}

/// The view in a place, for one holder more.
fn shared_at(views: &[OwnView], place: usize) -> Result<View, NoMemory>
    requires { place < length views.now }
    ensures { IfOk result (λ view. (d : OneView) → view ≡ (slice_index_or views.now place d).view) }
{
    views[place].view.share()
}
