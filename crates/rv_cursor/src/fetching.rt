//! FETCH and STEP of a cursor.
ghost use Rattle.std.specs.Prelude.{◌≡◌, ◌<◌, ◌≤◌, None, IfNone, IfOk, IfSome, IsSome, OnErr, OnOk};
ghost use Rattle.rv_lang.specs.declared.reply.Reply.{Reply as OneReply};
ghost use Rattle.rv_lang.specs.declared.reply.Reply.TheVariants.{Row};
ghost use Rattle.rv_reader.specs.Shown.{Shown};
ghost use Rattle.rv_join.specs.Pieces.{counted_up, plan_awaited, plan_pieces};
ghost use Rattle.rv_cursor.specs.Left.{CursorFits, LeavesHand, SameCursor, Stays, TakesOffer, TakesPart, left, seen_by, to_do, work};
ghost use Rattle.rv_cursor.specs.Moves.{Beside, FetchMoves, Moves, StepsBacks, TurnMoves, part_of, ruled};
ghost use Rattle.rv_reader.specs.declared.step.Step.TheVariants.{Working};

use crate::cursor::{Open, work_piece};
use crate::sight::Sight;
use rv_judge::{Judge, Steps};
use rv_lang::Reply;
use rv_model::Offer;
use rv_reader::{Reader, Step};
use rv_value::{Duplicate, NoMemory, Values};
use rv_view::Snapshot;
use std::alloc::Global;

/// The replies of the offer that was in hand: its row, which moves into the first, and a copy of it.
fn replies_of(given: Option<Offer>, copy: Values) -> (Reply, Reply)
    ensures { IfSome given (λ o. (result.0 ≡ Row o.returned) × (result.1 ≡ Row copy)) }
{
    match given {
        Some(offer) => {
            let Offer { order, returned } = offer;
            drop(order);
            (Reply::Row(returned), Reply::Row(copy))
        }
        None => {
            drop(copy);
            (Reply::End, Reply::End)
        }
    }
}

/// Gives the row in hand, twice: it is copied once, and taken out when the copy is made.
fn give(alloc: Global, cursor: &mut Open) -> Result<(Reply, Reply), NoMemory>
    requires held { IsSome cursor.old.hand }
    ensures fits { (shown : Shown) → CursorFits shown cursor.old → CursorFits shown cursor.new }
    ensures same { SameCursor cursor.old cursor.new }
    ensures ok { IfOk result (λ replies. (shown : Shown) → CursorFits shown cursor.old → TakesOffer (left shown cursor.old) replies (left shown cursor.new)) }
    ensures plan { cursor.new.plan ≡ cursor.old.plan }
    ensures given { OnOk result (cursor.new.hand ≡ None) }
    ensures err { OnErr result (cursor.new ≡ cursor.old) }
{
    let Some(offer) = &cursor.hand else {
        return Ok((Reply::End, Reply::End));
    };
    let kept = offer.returned.copy(alloc)?;
    let given = cursor.hand.take();
    Ok(replies_of(given, kept))
}

/// Up to so many background steps, as long as both sides of some retrieval run. Where no memory is found for one of them they
/// end, and what FETCH answers does not tell it.
#[tactic(auto, using(crate::proofs::Holding::stays_itself, crate::proofs::Holding::stays_on))]
fn work_beside<R: Reader>(
    cursor: &mut Open,
    reader: &R,
    judge: &mut Box<dyn Judge>,
    most: u8,
    steps: &mut Steps<R::Ledger>,
)
    requires fits { CursorFits (R.shown reader.now) cursor.old }
    ensures stays { Stays (R.shown reader.now) cursor.old cursor.new }
    ensures hand { cursor.new.hand ≡ cursor.old.hand }
    ensures work { work (R.shown reader.now) cursor.new ≤ work (R.shown reader.now) cursor.old }
    ensures beside { Beside most (would judge.old) (seen_by (R.shown reader.now) cursor.old) (ruled cursor.old (state judge.old)) (ruled cursor.new (state judge.new)) }
    ensures moves { Moves (would judge.old) (seen_by (R.shown reader.now) cursor.old) (ruled cursor.old (state judge.old)) (ruled cursor.new (state judge.new)) }
    ensures stays_rule { would judge.new ≡ would judge.old }
{
    'pieces: for _done in 0..most {
        if !cursor.plan.is_building() {
            return;
        }
        match work_piece(cursor, reader, judge, steps) {
            Ok(true) => {}
            Ok(false) => return,
            Err(NoMemory) => return,
        }
    }
}

/// One turn of a FETCH, which makes no reply: where no row is in hand the plan is stepped, and its row is in hand then. A row
/// that it answers is the one in hand.
fn turn<R: Reader>(
    cursor: &mut Open,
    reader: &R,
    judge: &mut Box<dyn Judge>,
    beside: u8,
    steps: &mut Steps<R::Ledger>,
) -> Result<Step<()>, NoMemory>
    requires fits { CursorFits (R.shown reader.now) cursor.old }
    ensures stays { Stays (R.shown reader.now) cursor.old cursor.new }
    ensures hand { IfOk result (λ turned. LeavesHand turned (left (R.shown reader.now) cursor.new) cursor.new.hand) }
    ensures nearer { IfOk result (λ turned. turned ≡ Working → to_do (R.shown reader.now) cursor.new < to_do (R.shown reader.now) cursor.old) }
    ensures turn { (replies : OneReply × OneReply) → IfOk result (λ turned. TurnMoves cursor.old.hand (part_of turned replies) beside (would judge.old) (seen_by (R.shown reader.now) cursor.old) (ruled cursor.old (state judge.old)) (ruled cursor.new (state judge.new))) }
    ensures held { IsSome cursor.old.hand → ruled cursor.new (state judge.new) ≡ ruled cursor.old (state judge.old) }
    ensures moves { Moves (would judge.old) (seen_by (R.shown reader.now) cursor.old) (ruled cursor.old (state judge.old)) (ruled cursor.new (state judge.new)) }
    ensures stays_rule { would judge.new ≡ would judge.old }
{
    if cursor.hand.is_some() {
        return Ok(Step::Row(()));
    }
    let at = Snapshot {
        reader,
        snap: cursor.snap,
    };
    let seen = Sight {
        at,
        view: &cursor.frozen,
    };
    match cursor.plan.step(&seen, judge, steps)? {
        Step::Row(offer) => {
            drop(cursor.hand.replace(offer));
            work_beside(cursor, reader, judge, beside, steps);
            Ok(Step::Row(()))
        }
        Step::Working => {
            work_beside(cursor, reader, judge, beside, steps);
            Ok(Step::Working)
        }
        Step::End => Ok(Step::End),
    }
}

/// One turn of a FETCH, behind which another call may come: a row of those left, none of which comes before it, or End
/// where none is left; None exactly where the plan's step answered that it works on.
pub fn fetch_step<R: Reader>(
    alloc: Global,
    cursor: &mut Open,
    reader: &R,
    judge: &mut Box<dyn Judge>,
    beside: u8,
    steps: &mut Steps<R::Ledger>,
) -> Result<Option<(Reply, Reply)>, NoMemory>
    requires fits { CursorFits (R.shown reader.now) cursor.old }
    ensures fits { CursorFits (R.shown reader.now) cursor.new }
    ensures same { SameCursor cursor.old cursor.new }
    ensures ok { IfOk result (λ part. TakesPart (left (R.shown reader.now) cursor.old) part (left (R.shown reader.now) cursor.new)) }
    ensures err { OnErr result (left (R.shown reader.now) cursor.new ≡ left (R.shown reader.now) cursor.old) }
    ensures given { OnOk result (cursor.new.hand ≡ None) }
    ensures nearer { IfOk result (λ part. IfNone part (to_do (R.shown reader.now) cursor.new < to_do (R.shown reader.now) cursor.old)) }
    ensures turn { IfOk result (λ part. TurnMoves cursor.old.hand part beside (would judge.old) (seen_by (R.shown reader.now) cursor.old) (ruled cursor.old (state judge.old)) (ruled cursor.new (state judge.new))) }
    ensures held { IsSome cursor.old.hand → ruled cursor.new (state judge.new) ≡ ruled cursor.old (state judge.old) }
    ensures moves { Moves (would judge.old) (seen_by (R.shown reader.now) cursor.old) (ruled cursor.old (state judge.old)) (ruled cursor.new (state judge.new)) }
    ensures stays_rule { would judge.new ≡ would judge.old }
{
    match turn(cursor, reader, judge, beside, steps) {
        Ok(Step::Row(())) => {
            let replies = give(alloc, cursor)?;
            Ok(Some(replies))
        }
        Ok(Step::End) => Ok(Some((Reply::End, Reply::End))),
        Ok(Step::Working) => Ok(None),
        Err(NoMemory) => Err(NoMemory),
    }
}

/// FETCH: a row of those left, none of which comes before it, or End where none is left. Each step of the plan is
/// followed by up to `beside` background steps while both sides of a retrieval run.
#[tactic(auto, using(crate::proofs::Holding::stays_itself, crate::proofs::Holding::stays_on))]
pub fn fetch<R: Reader>(
    alloc: Global,
    cursor: &mut Open,
    reader: &R,
    judge: &mut Box<dyn Judge>,
    beside: u8,
    steps: &mut Steps<R::Ledger>,
) -> Result<(Reply, Reply), NoMemory>
    requires fits { CursorFits (R.shown reader.now) cursor.old }
    ensures fits { CursorFits (R.shown reader.now) cursor.new }
    ensures same { SameCursor cursor.old cursor.new }
    ensures ok { IfOk result (λ replies. TakesOffer (left (R.shown reader.now) cursor.old) replies (left (R.shown reader.now) cursor.new)) }
    ensures err { OnErr result (left (R.shown reader.now) cursor.new ≡ left (R.shown reader.now) cursor.old) }
    ensures given { OnOk result (cursor.new.hand ≡ None) }
    ensures turns { OnOk result (FetchMoves cursor.old.hand beside (would judge.old) (seen_by (R.shown reader.now) cursor.old) (ruled cursor.old (state judge.old)) (ruled cursor.new (state judge.new))) }
    ensures held { IsSome cursor.old.hand → ruled cursor.new (state judge.new) ≡ ruled cursor.old (state judge.old) }
    ensures moves { Moves (would judge.old) (seen_by (R.shown reader.now) cursor.old) (ruled cursor.old (state judge.old)) (ruled cursor.new (state judge.new)) }
    ensures stays_rule { would judge.new ≡ would judge.old }
{
    'turns: loop {
        match turn(cursor, reader, judge, beside, steps) {
            Ok(Step::Row(())) => return give(alloc, cursor),
            Ok(Step::End) => return Ok((Reply::End, Reply::End)),
            Ok(Step::Working) => {}
            Err(NoMemory) => return Err(NoMemory),
        }
    }
}

/// STEP: up to `most` background steps; how many there were. There are fewer only where the plan awaits no piece.
#[tactic(auto, using(crate::proofs::Holding::stays_itself, crate::proofs::Holding::stays_on))]
pub fn step<R: Reader>(
    cursor: &mut Open,
    reader: &R,
    judge: &mut Box<dyn Judge>,
    most: u64,
    steps: &mut Steps<R::Ledger>,
) -> Result<u64, NoMemory>
    requires fits { CursorFits (R.shown reader.now) cursor.old }
    ensures stays { Stays (R.shown reader.now) cursor.old cursor.new }
    ensures hand { cursor.new.hand ≡ cursor.old.hand }
    ensures most { IfOk result (λ done. done ≤ most) }
    ensures counted { IfOk result (λ done. plan_pieces cursor.new.plan ≡ counted_up (plan_pieces cursor.old.plan) done) }
    ensures backs { IfOk result (λ done. StepsBacks done (would judge.old) (seen_by (R.shown reader.now) cursor.old) (ruled cursor.old (state judge.old)) (ruled cursor.new (state judge.new))) }
    ensures moves { Moves (would judge.old) (seen_by (R.shown reader.now) cursor.old) (ruled cursor.old (state judge.old)) (ruled cursor.new (state judge.new)) }
    ensures stays_rule { would judge.new ≡ would judge.old }
    ensures fewer { IfOk result (λ done. done < most → plan_awaited cursor.new.plan ≡ None) }
{
    let mut done = 0u64;
    'pieces: while done < most {
        match work_piece(cursor, reader, judge, steps) {
            Ok(true) => done += 1,
            Ok(false) => return Ok(done),
            Err(NoMemory) => return Err(NoMemory),
        }
    }
    Ok(done)
}
