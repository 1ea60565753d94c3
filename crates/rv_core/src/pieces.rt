//! The pieces of open cursors: which is handed out, and to whom one is given.
ghost use Rattle.std.specs.Prelude.{◌≡◌, ◌<◌, ◌==◌, ◌&&◌, ℕ, List, Option, Some, IfOk, OnErr, length, nat_lt, position};
ghost use Rattle.std.specs.List.{AllByRecursion};
ghost use Rattle.rv_catalog.specs.Schema.{Schema};
ghost use Rattle.rv_reader.specs.Shown.{Shown};
ghost use Rattle.rv_access.specs.Given.{TakesPiece, piece_read};
ghost use Rattle.rv_access.specs.Stepping.{SameCourse};
ghost use Rattle.rv_judge.specs.Tracing.{CountsRise};
ghost use Rattle.rv_join.specs.Alone.{IsAlone, TakesOnce};
ghost use Rattle.rv_join.specs.Levels.{first_of};
ghost use Rattle.rv_join.specs.Pieces.{TakesAwaited, plan_awaited, plan_pieces, waiting};
ghost use Rattle.rv_join.specs.Plans.{PlanFits, PlanStays, plan_trace};
ghost use Rattle.rv_model.specs.declared.transactions.Transaction.{Transaction};
ghost use Rattle.rv_cursor.specs.Left.{CursorFits, Stays, seen_by};
ghost use Rattle.rv_core.specs.Db.{AreListed, IsOpen, seen};
ghost use Rattle.rv_core.specs.Pieces.{GivesTo, KeepsSettled, TakesNext, TriesNext, is_waiting, next_waiting, numbered};

use rv_cursor::{Open, Sight};
use rv_jscan::{Given, PieceId, Sieved, Taken};
use rv_judge::{Judge, Steps, Uncounted};
use rv_reader::{Reader, Store};
use rv_value::{Items, NoMemory};
use rv_view::Snapshot;

fn is_waiting(cursor: &Open) -> bool
    ensures { result ≡ is_waiting cursor.now }
{
    cursor.plan.awaited().is_some()
}

fn waiting_above(cursors: &Items<Open>, after: u64) -> Option<usize>
    ensures { result ≡ position (λ c. nat_lt after c.number && is_waiting c) cursors.now }
{
    cursors
        .as_slice()
        .iter()
        .position(|cursor| after < cursor.number && is_waiting(cursor))
}

fn first_waiting(cursors: &Items<Open>) -> Option<usize>
    ensures { result ≡ position is_waiting cursors.now }
{
    cursors
        .as_slice()
        .iter()
        .position(|cursor| is_waiting(cursor))
}

/// The place of the open cursor whose piece is handed out after that of a cursor of the number `after`.
pub fn next_waiting(cursors: &Items<Open>, after: u64) -> Option<usize>
    ensures { result ≡ next_waiting after cursors.now }
{
    match waiting_above(cursors, after) {
        Some(place) => Some(place),
        None => first_waiting(cursors),
    }
}

/// The place of the open cursor of a number, by which a piece names it; None where that is closed.
pub fn numbered(cursors: &Items<Open>, number: u64) -> Option<usize>
    ensures { result ≡ numbered number cursors.now }
{
    cursors
        .as_slice()
        .iter()
        .position(|cursor| cursor.number == number)
}

/// Takes the awaited piece of a cursor's plan.
fn take<R: Reader>(
    cursor: &mut Open,
    reader: &R,
    steps: &mut Steps<R::Ledger>,
) -> Result<Taken, NoMemory>
    requires fits { CursorFits (R.shown reader.now) cursor.old }
    ensures answers { IfOk result (TakesAwaited cursor.old.plan) }
    ensures ready { IfOk result (TakesPiece (waiting cursor.new.plan)) }
    ensures awaited { plan_awaited cursor.new.plan ≡ plan_awaited cursor.old.plan }
    ensures pieces { plan_pieces cursor.new.plan ≡ plan_pieces cursor.old.plan }
    ensures course { SameCourse (first_of cursor.old.plan.stack).here (first_of cursor.new.plan.stack).here }
    ensures reads { steps.new ≡ piece_read (waiting cursor.old.plan) steps.old }
    ensures counts { CountsRise (plan_trace cursor.old.plan) (plan_trace cursor.new.plan) steps.old steps.new }
    ensures once { IsAlone cursor.old.plan → TakesOnce (seen_by (R.shown reader.now) cursor.old) steps.old steps.new cursor.old.plan.stack.at cursor.new.plan.stack.at }
    ensures kept { PlanStays (seen_by (R.shown reader.now) cursor.old) cursor.old.plan cursor.new.plan }
    ensures left { PlanFits (seen_by (R.shown reader.now) cursor.old) cursor.new.plan }
    ensures same { cursor.new ≡ record cursor.old { plan = cursor.new.plan } }
    ensures stays { Stays (R.shown reader.now) cursor.old cursor.new }
{
    let at = Snapshot {
        reader,
        snap: cursor.snap,
    };
    let seen = Sight {
        at,
        view: &cursor.frozen,
    };
    cursor.plan.take(&seen, steps)
}

/// Takes the awaited piece of the cursor in a place.
#[tactic(auto, using(crate::proofs::Opens::same_at, rv_value::proofs::Lists::all_got))]
pub fn take_at<S: Store + Reader<Ledger = Uncounted>>(
    store: &S,
    cursors: &mut Items<Open>,
    place: usize,
    steps: &mut Steps<Uncounted>,
) -> Result<Taken, NoMemory>
    requires place { place < length cursors.old }
    requires fits { AllByRecursion (CursorFits (S.shown store.now)) cursors.old }
    ensures taken { IfOk result (λ t. TakesNext (S.shown store.now) (Some place) steps.old steps.new cursors.old cursors.new t) }
    ensures tried { OnErr result (TriesNext (S.shown store.now) (Some place) steps.old steps.new cursors.old cursors.new) }
    ensures seen { seen (S.shown store.now) cursors.new ≡ seen (S.shown store.now) cursors.old }
    ensures opens { (schema : Schema) (active : List Transaction) → AllByRecursion (IsOpen (S.shown store.now) schema active) cursors.old → AllByRecursion (IsOpen (S.shown store.now) schema active) cursors.new }
    ensures listed { (next : ℕ) → AreListed next cursors.old → AreListed next cursors.new }
{
    take(cursors.at_mut(place), store, steps)
}

/// Gives a sieved piece to the cursor in a place.
pub fn give_at<L: Drop>(
    cursors: &mut Items<Open>,
    place: usize,
    sieved: Sieved,
    judge: &mut Box<dyn Judge>,
    steps: &mut Steps<L>,
) -> Result<Given, NoMemory>
    requires place { place < length cursors.old }
    ensures given { IfOk result (λ g. GivesTo (Some place) (would judge.old) (state judge.old) (state judge.new) cursors.old sieved g cursors.new) }
    ensures settled { (shown : Shown) → AllByRecursion (CursorFits shown) cursors.old → KeepsSettled cursors.old cursors.new }
    ensures err { OnErr result ((cursors.new ≡ cursors.old) × (state judge.new ≡ state judge.old)) }
    ensures rules { would judge.new ≡ would judge.old }
    ensures reads { steps.new ≡ steps.old }
    ensures seen { (shown : Shown) → AllByRecursion (CursorFits shown) cursors.old → seen shown cursors.new ≡ seen shown cursors.old }
    ensures opens { (shown : Shown) (schema : Schema) (active : List Transaction) → AllByRecursion (IsOpen shown schema active) cursors.old → AllByRecursion (IsOpen shown schema active) cursors.new }
    ensures listed { (next : ℕ) → AreListed next cursors.old → AreListed next cursors.new }
{
    let cursor = cursors.at_mut(place);
    cursor.plan.give(sieved, judge, steps)
}
