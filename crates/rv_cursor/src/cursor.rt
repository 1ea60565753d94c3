//! A cursor, and the steps of its plan.
ghost use Rattle.std.specs.Prelude.{◌≡◌, ◌+◌, ◌≤◌, true, false, None, Ok, IfOk, OnErr};
ghost use Rattle.rv_judge.specs.Counting.{reads};
ghost use Rattle.rv_access.specs.Accesses.{Settled, fetches_left, query_of};
ghost use Rattle.rv_retrieval.specs.Short.{OnlyLeaves, has_short};
ghost use Rattle.rv_judge.specs.Tracing.{CountsAll};
ghost use Rattle.rv_join.specs.Alone.{plan_effort, plan_life};
ghost use Rattle.rv_join.specs.Asking.{CanPlan, IsAsked, lives_of};
ghost use Rattle.rv_join.specs.Levels.{table_rows};
ghost use Rattle.rv_join.specs.Plans.{LeadsWith, plan_trace, plan_work, stage_of};
ghost use Rattle.rv_join.specs.Work.{row_cost};
ghost use Rattle.rv_model.specs.Offering.{offers_over};
ghost use Rattle.rv_model.specs.Offers.{offers_in_order};
ghost use Rattle.rv_view.specs.Alone.{alone};
ghost use Rattle.rv_view.specs.Sights.{LaysSome};
ghost use Rattle.rv_join.specs.Pieces.{plan_awaited};
ghost use Rattle.rv_cursor.specs.Left.{CursorFits, Stays, left, seen_at, seen_by, work};
ghost use Rattle.rv_cursor.specs.Moves.{LacksMemory, Moves, WorksPiece, ruled};

use crate::sight::Sight;
use rv_catalog::{IndexDef, Select};
use rv_join::Plan;
use rv_jscan::{Taken, sieve};
use rv_judge::{Judge, Steps};
use rv_model::Offer;
use rv_reader::Reader;
use rv_value::{NoMemory, Text};
use rv_view::{Snapshot, View};
use std::alloc::Global;

/// An open cursor of a session over a snapshot, with the view that its transaction had when it was
/// opened, where that has changes: its plan, and the row that the plan gave and that was not
/// fetched yet.
#[derive(Drop)]
pub struct Open {
    pub session: u8,
    pub name: Text,
    pub number: u64,
    pub snap: u64,
    pub frozen: Option<View>,
    pub plan: Plan,
    pub hand: Option<Offer>,
}

/// Opens a cursor over what a select offers at a snapshot. A transaction's view is laid over it where one is given.
pub fn open_cursor<R: Reader>(
    alloc: Global,
    reader: &R,
    select: &Select,
    indexes: &[IndexDef],
    session: u8,
    name: Text,
    number: u64,
    snap: u64,
    race: bool,
    frozen: Option<View>,
    steps: &mut Steps<R::Ledger>,
) -> Result<Open, NoMemory>
    requires lays { LaysSome (alone (R.shown reader.now) snap) frozen }
    requires plan { CanPlan select.now indexes.now (seen_at (R.shown reader.now) snap frozen) snap }
    ensures fits { IfOk result (CursorFits (R.shown reader.now)) }
    ensures left { IfOk result (λ c. left (R.shown reader.now) c ≡ offers_in_order (offers_over select.now (table_rows (seen_at (R.shown reader.now) snap frozen) snap))) }
    ensures asked { IfOk result (λ c. IsAsked select.now indexes.now snap number c.plan.asked) }
    ensures race { IfOk result (λ c. c.plan.asked.race ≡ race) }
    ensures leads { IfOk result (λ c. LeadsWith (seen_at (R.shown reader.now) snap frozen) c.plan) }
    ensures stage { IfOk result (λ c. c.plan.stage ≡ stage_of select.now indexes.now) }
    ensures work { IfOk result (λ c. plan_work (seen_at (R.shown reader.now) snap frozen) c.plan ≤ row_cost (lives_of c.plan.asked.only) (seen_at (R.shown reader.now) snap frozen) snap c.plan.asked.items) }
    ensures life { IfOk result (λ c. reads steps.new + plan_effort (seen_at (R.shown reader.now) snap frozen) c.plan ≤ reads steps.old + plan_life select.now indexes.now (seen_at (R.shown reader.now) snap frozen) snap c.plan) }
    ensures short { IfOk result (λ c. has_short (query_of c.plan.stack.at.here) (seen_at (R.shown reader.now) snap frozen) ≡ true → Settled c.plan.stack.at.here × (fetches_left c.plan.stack.at.here (seen_at (R.shown reader.now) snap frozen) ≤ 20)) }
    ensures only { OnlyLeaves steps.old steps.new }
    ensures counts { IfOk result (λ c. CountsAll (plan_trace c.plan) steps.old steps.new) }
    ensures session { IfOk result (λ c. c.session ≡ session) }
    ensures name { IfOk result (λ c. c.name ≡ name) }
    ensures number { IfOk result (λ c. c.number ≡ number) }
    ensures snap { IfOk result (λ c. c.snap ≡ snap) }
    ensures frozen { IfOk result (λ c. c.frozen ≡ frozen) }
{
    let at = Snapshot { reader, snap };
    let plan = match Plan::open(
        alloc,
        &Sight { at, view: &frozen },
        select,
        indexes,
        snap,
        number,
        race,
        steps,
    ) {
        Ok(plan) => plan,
        Err(fault) => {
            drop(name);
            drop(frozen);
            return Err(fault);
        }
    };
    Ok(Open {
        session,
        name,
        number,
        snap,
        frozen,
        plan,
        hand: None,
    })
}

/// Takes, sieves and gives the piece that the plan awaits; whether there was one. Nothing comes between, so that it is
/// accepted. Where no memory is found, its leaf may be held from then on.
pub fn work_piece<R: Reader>(
    cursor: &mut Open,
    reader: &R,
    judge: &mut Box<dyn Judge>,
    steps: &mut Steps<R::Ledger>,
) -> Result<bool, NoMemory>
    requires fits { CursorFits (R.shown reader.now) cursor.old }
    ensures stays { Stays (R.shown reader.now) cursor.old cursor.new }
    ensures hand { cursor.new.hand ≡ cursor.old.hand }
    ensures work { work (R.shown reader.now) cursor.new ≤ work (R.shown reader.now) cursor.old }
    ensures worked { IfOk result (λ worked. WorksPiece worked (would judge.old) (seen_by (R.shown reader.now) cursor.old) (ruled cursor.old (state judge.old)) (ruled cursor.new (state judge.new))) }
    ensures moves { Moves (would judge.old) (seen_by (R.shown reader.now) cursor.old) (ruled cursor.old (state judge.old)) (ruled cursor.new (state judge.new)) }
    ensures stays_rule { would judge.new ≡ would judge.old }
    ensures none { plan_awaited cursor.old.plan ≡ None → (result ≡ Ok false) × (steps.new ≡ steps.old) }
    ensures lacks { OnErr result (LacksMemory (seen_by (R.shown reader.now) cursor.old) (ruled cursor.old (state judge.old)) (ruled cursor.new (state judge.new))) }
{
    let at = Snapshot {
        reader,
        snap: cursor.snap,
    };
    let seen = Sight {
        at,
        view: &cursor.frozen,
    };
    let piece = match cursor.plan.take(&seen, steps) {
        Ok(Taken::Piece(piece)) => piece,
        Ok(Taken::Nothing) => return Ok(false),
        Err(NoMemory) => return Err(NoMemory),
    };
    match cursor.plan.give(sieve(piece), judge, steps) {
        Ok(_given) => Ok(true),
        Err(NoMemory) => Err(NoMemory),
    }
}
