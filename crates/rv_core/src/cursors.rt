//! Open cursors of sessions: how they are found, opened, read and closed.
ghost use Rattle.std.specs.Prelude.{◌≡◌, ◌<◌, ◌≤◌, ◌==◌, ℕ, List, true, not, Ok, IfErr, IfOk, IfSome, OnErr, length, filter, remove, slice_get};
ghost use Rattle.std.specs.List.{AllByRecursion};
ghost use Rattle.rv_rows.specs.Rows.{Ascend};
ghost use Rattle.rv_reader.specs.Shown.{CanRead, IsSnapshot, Shown};
ghost use Rattle.rv_catalog.specs.Fits.{IsQueryOf};
ghost use Rattle.rv_catalog.specs.Schema.{Schema};
ghost use Rattle.rv_judge.specs.Runs.{Allowed};
ghost use Rattle.rv_join.specs.Asking.{IsAsked, indexes_from, item_at};
ghost use Rattle.rv_join.specs.Plans.{LeadsWith, numbers_of, plan_trace, stage_of};
ghost use Rattle.rv_core.specs.Obeying.{AnyOf, BeginsWithin, MovesAt, StepOf};
ghost use Rattle.rv_model.specs.declared.transactions.Transaction.{Transaction};
ghost use Rattle.rv_model.specs.declared.transactions.Transactions.{Transactions};
ghost use Rattle.rv_model.specs.Database.{cursor_at, cursor_named};
ghost use Rattle.rv_model.specs.Offering.{offers_over};
ghost use Rattle.rv_model.specs.Offers.{offers_in_order};
ghost use Rattle.rv_model.specs.Step.{Showing, Stepping, own_cursors, table_of};
ghost use Rattle.rv_cursor.specs.Left.{CursorFits, seen_at};
ghost use Rattle.rv_txn.specs.Calls.{IsFault};
ghost use Rattle.rv_core.specs.Db.{AreListed, IsOpen, IsTied, IsViewed, open_named, own_opens, seen, seen_of, view_at};
ghost use Rattle.rv_core.specs.Doing.{opening_base};

use crate::replies::limit;
use rv_catalog::{Catalog, Select};
use rv_cursor::{Open, open_cursor, step};
use rv_judge::{Judge, Steps, Trace, Uncounted};
use rv_lang::{Refusal, Which};
use rv_reader::{Reader, Store};
use rv_txn::{TxnFault, Txns};
use rv_value::{Duplicate, Items, NoMemory, Text};
use rv_view::View;
use std::alloc::Global;

/// The place of the session's cursor of this name among all that are open; None where it has none. Another session's
/// may have the same name.
#[tactic(auto, using(crate::proofs::Opens::named_seen))]
pub fn cursor_named(cursors: &Items<Open>, session: u8, name: &Text) -> Option<usize>
    ensures seen { (shown : Shown) → result ≡ cursor_named (seen shown cursors.now) session name.now }
    ensures named { result ≡ open_named cursors.now session name.now }
{
    open_named(cursors, session, name)
}

fn open_named(cursors: &Items<Open>, session: u8, name: &Text) -> Option<usize>
    ensures { result ≡ open_named cursors.now session name.now }
{
    cursors.as_slice().iter().position(|cursor| cursor.session == session
        && cursor.name.is(name.as_str()))
}

/// How many cursors of the session are open.
#[tactic(auto, using(crate::proofs::Opens::own_seen))]
fn count_cursors(cursors: &Items<Open>, session: u8) -> usize
    ensures seen { (shown : Shown) → result ≡ length (own_cursors (seen shown cursors.now) session) }
    ensures opens { result ≡ length (own_opens cursors.now session) }
{
    count_open(cursors, session)
}

fn count_open(cursors: &Items<Open>, session: u8) -> usize
    ensures { result ≡ length (own_opens cursors.now session) }
{
    cursors
        .as_slice()
        .iter()
        .filter(|cursor| cursor.session == session)
        .count()
}

/// Takes a session's cursors away, as the end of its transaction does. The others stay in their order.
pub fn close_all(cursors: &mut Items<Open>, session: u8)
    ensures { cursors.new ≡ filter (λ c. not (c.session == session)) cursors.old }
{
    cursors.retain(|cursor| cursor.session != session);
}

/// Takes the cursor in a place away. The others keep their numbers, by which pieces name them.
pub fn close_at(cursors: &mut Items<Open>, place: usize)
    requires { place < length cursors.old }
    ensures { cursors.new ≡ remove cursors.old place }
{
    drop(cursors.remove(place));
}

/// The base of the session's transaction, where it may open a cursor of a name.
pub fn opening(
    alloc: Global,
    txns: &Txns,
    cursors: &Items<Open>,
    session: u8,
    name: &Text,
) -> Result<u64, TxnFault>
    ensures ok { IfOk result (λ base. (shown : Shown) → opening_base txns.now.active (seen shown cursors.now) session name.now ≡ Ok base) }
    ensures room { IfOk result (λ base. length (own_opens cursors.now session) < 16) }
    ensures fault { IfErr result (λ fault. (shown : Shown) → IsFault (opening_base txns.now.active (seen shown cursors.now) session name.now) fault) }
{
    let Some(standing) = txns.standing(session) else {
        return Err(TxnFault::Refused(Refusal::NoTransaction));
    };
    if cursor_named(cursors, session, name).is_some() {
        return Err(TxnFault::Refused(Refusal::CursorOpen(name.copy(alloc)?)));
    }
    if count_cursors(cursors, session) > 15 {
        return Err(TxnFault::Refused(limit(Which::Cursors, 16)));
    }
    Ok(standing.base)
}

/// Looks at tables of a snapshot, which tells that their rows ascend. It reads nothing.
fn look_at<R: Reader>(reader: &R, tables: &[u32], snap: u64)
    requires { AllByRecursion (λ table. CanRead (R.shown reader.now) table snap) tables.now }
    ensures { AllByRecursion (λ table. Ascend ((R.shown reader.now).rows table snap)) tables.now }
{
    match tables {
        [] => {}
        [first, more @ ..] => {
            let _sizes = reader.sizes(*first, snap);
            look_at(reader, more, snap);
        }
    }
}

/// A cursor over what a select offers at a snapshot of the store, with a transaction's view laid over it where one is given.
pub fn plan_cursor<S: Store + Reader<Ledger = Uncounted>>(
    alloc: Global,
    store: &S,
    catalog: &Catalog,
    select: &Select,
    session: u8,
    name: Text,
    number: u64,
    snap: u64,
    race: bool,
    frozen: Option<View>,
) -> Result<Open, NoMemory>
    requires tied { (txns : Transactions) × IsTied (S.shown store.now) catalog.now txns × IfSome frozen (IsViewed (S.shown store.now) txns.touched snap) }
    requires query { IsQueryOf catalog.now select.now }
    requires some { 1 ≤ length select.now.tables }
    requires base { IsSnapshot (S.shown store.now) snap }
    ensures fits { IfOk result (CursorFits (S.shown store.now)) }
    ensures seen { IfOk result (λ c. seen_of (S.shown store.now) c ≡ record { session = session; name = name; table = table_of select.now; offers = offers_in_order (offers_over select.now (view_at (S.shown store.now) snap frozen)) }) }
    ensures over { IfOk result (λ c. (item_at c.plan.asked 0).indexes ≡ indexes_from (item_at c.plan.asked 0).table 0 catalog.now.indexes) }
    ensures session { IfOk result (λ c. c.session ≡ session) }
    ensures number { IfOk result (λ c. c.number ≡ number) }
    ensures name { IfOk result (λ c. c.name ≡ name) }
    ensures asked { IfOk result (λ c. IsAsked select.now catalog.now.indexes snap number c.plan.asked) }
    ensures race { IfOk result (λ c. c.plan.asked.race ≡ race) }
    ensures leads { IfOk result (λ c. LeadsWith (seen_at (S.shown store.now) snap frozen) c.plan) }
    ensures stage { IfOk result (λ c. c.plan.stage ≡ stage_of select.now catalog.now.indexes) }
    ensures bounds { IfOk result (λ c. BeginsWithin (seen_at (S.shown store.now) snap frozen) select.now catalog.now.indexes snap c.plan) }
    ensures snap { IfOk result (λ c. c.snap ≡ snap) }
    ensures frozen { IfOk result (λ c. c.frozen ≡ frozen) }
{
    // What a store tells with its newest commit, and what a reader tells with a table's sizes, holds of what is read.
    let _newest = store.last();
    look_at(store, select.tables.as_slice(), snap);
    let mut steps = Steps::new(Uncounted);
    open_cursor(
        alloc,
        store,
        select,
        catalog.indexes(),
        session,
        name,
        number,
        snap,
        race,
        frozen,
        &mut steps,
    )
}

/// The trace of the plan of the cursor in a place.
pub fn trace_at(cursors: &Items<Open>, place: usize) -> Trace
    requires { place < length cursors.now }
    ensures told { IfSome (slice_get cursors.now place) (λ c. result ≡ plan_trace c.plan) }
    ensures allowed { (shown : Shown) → AllByRecursion (CursorFits shown) cursors.now → IfSome (slice_get cursors.now place) (λ c. Allowed result (numbers_of (item_at c.plan.asked 0).indexes)) }
{
    cursors.as_slice()[place].plan.trace()
}

/// STEP of the cursor in a place: how many background steps there were.
#[tactic(auto, using(crate::proofs::Opens::same_at, rv_value::proofs::Lists::all_got))]
pub fn step_at<S: Store + Reader<Ledger = Uncounted>>(
    store: &S,
    cursors: &mut Items<Open>,
    place: usize,
    judge: &mut Box<dyn Judge>,
    most: u64,
) -> Result<u64, NoMemory>
    requires place { place < length cursors.old }
    requires fits { AllByRecursion (CursorFits (S.shown store.now)) cursors.old }
    ensures most { IfOk result (λ done. done ≤ most) }
    ensures steps { IfOk result (λ done. MovesAt (StepOf (would judge.old) done most) (S.shown store.now) place (state judge.old) (state judge.new) cursors.old cursors.new) }
    ensures lost { OnErr result (MovesAt (AnyOf (would judge.old)) (S.shown store.now) place (state judge.old) (state judge.new) cursors.old cursors.new) }
    ensures rules { would judge.new ≡ would judge.old }
    ensures seen { seen (S.shown store.now) cursors.new ≡ seen (S.shown store.now) cursors.old }
    ensures opens { (schema : Schema) (active : List Transaction) → AllByRecursion (IsOpen (S.shown store.now) schema active) cursors.old → AllByRecursion (IsOpen (S.shown store.now) schema active) cursors.new }
    ensures listed { (next : ℕ) → AreListed next cursors.old → AreListed next cursors.new }
{
    let mut steps = Steps::new(Uncounted);
    step(cursors.at_mut(place), store, judge, most, &mut steps)
}
