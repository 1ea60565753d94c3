//! A plan, driven to its end.
ghost use Rattle.std.specs.Prelude.{◌≡◌, List, [], IfOk, OnOk, Ok, true};
ghost use Rattle.std.specs.List.Sorted.{IsPermutation};
ghost use Rattle.rv_model.specs.declared.state.Offer.{Offer as OneOffer};
ghost use Rattle.rv_join.specs.Plans.{PlanFits, plan_rest};
ghost use Rattle.try_retrievals.specs.Planning.{Gives, Stays};

use rv_join::Plan;
use rv_jscan::{Piece, Taken, sieve};
use rv_judge::{Judge, Steps};
use rv_model::Offer;
use rv_reader::{Reader, Step};
use rv_value::NoMemory;
use std::alloc::Global;

/// The offers in the order in which they came, and whether the end came.
#[derive(Drop)]
pub struct Driven {
    pub offers: Vec<Offer>,
    pub ended: bool,
}

/// Takes the awaited piece into the hand; whether one was awaited.
fn take<R: Reader>(
    reader: &R,
    plan: &mut Plan,
    hand: &mut Vec<Piece>,
    steps: &mut Steps<R::Ledger>,
) -> Result<bool, NoMemory>
    requires { PlanFits (R.shown reader.now) plan.old }
    ensures { Stays (R.shown reader.now) plan.old plan.new }
{
    match plan.take(reader, steps)? {
        Taken::Piece(piece) => {
            hand.push(piece)?;
            Ok(true)
        }
        Taken::Nothing => Ok(false),
    }
}

/// Sieves and gives a piece.
fn give<R: Reader>(
    _reader: &R,
    plan: &mut Plan,
    judge: &mut Box<dyn Judge>,
    piece: Piece,
    steps: &mut Steps<R::Ledger>,
) -> Result<(), NoMemory>
    requires { PlanFits (R.shown _reader.now) plan.old }
    ensures { Stays (R.shown _reader.now) plan.old plan.new }
{
    let _given = plan.give(sieve(piece), judge, steps)?;
    Ok(())
}

/// A background step: the awaited piece is taken; the oldest in hand is sieved and given where more than `late` are there.
fn work<R: Reader>(
    reader: &R,
    plan: &mut Plan,
    judge: &mut Box<dyn Judge>,
    late: usize,
    hand: &mut Vec<Piece>,
    steps: &mut Steps<R::Ledger>,
) -> Result<(), NoMemory>
    requires { PlanFits (R.shown reader.now) plan.old }
    ensures { Stays (R.shown reader.now) plan.old plan.new }
{
    let awaited = take(reader, plan, hand, steps)?;
    if !hand.is_empty() && (!awaited || hand.len() > late) {
        let oldest = hand.remove(0);
        give(reader, plan, judge, oldest, steps)?;
    }
    Ok(())
}

/// The background steps between two steps of the plan, while some retrieval has both sides running.
fn background<R: Reader>(
    reader: &R,
    plan: &mut Plan,
    judge: &mut Box<dyn Judge>,
    so_many: u32,
    hand: &mut Vec<Piece>,
    steps: &mut Steps<R::Ledger>,
) -> Result<(), NoMemory>
    requires { PlanFits (R.shown reader.now) plan.old }
    ensures { Stays (R.shown reader.now) plan.old plan.new }
{
    'steps: for _step in 0..so_many {
        if plan.is_building() {
            work(reader, plan, judge, so_many as usize % 2, hand, steps)?;
        }
    }
    Ok(())
}

/// A step of the plan, whose offer is put to the others; whether it was the end.
fn forward<R: Reader>(
    reader: &R,
    plan: &mut Plan,
    judge: &mut Box<dyn Judge>,
    offers: &mut Vec<Offer>,
    steps: &mut Steps<R::Ledger>,
) -> Result<bool, NoMemory>
    requires { PlanFits (R.shown reader.now) plan.old }
    ensures gives { (due : List OneOffer) → Gives (R.shown reader.now) due offers.old.items plan.old → OnOk result (Gives (R.shown reader.now) due offers.new.items plan.new) }
    ensures ends { result ≡ Ok true → plan_rest (R.shown reader.now) plan.new ≡ [] }
{
    match plan.step(reader, judge, steps)? {
        Step::Row(offer) => {
            offers.push(offer)?;
            Ok(false)
        }
        Step::Working => Ok(false),
        Step::End => Ok(true),
    }
}

/// Drives a plan to its end, in at most 1,000,000 steps.
pub fn drive<R: Reader>(
    alloc: Global,
    reader: &R,
    plan: &mut Plan,
    judge: &mut Box<dyn Judge>,
    so_many: u32,
    steps: &mut Steps<R::Ledger>,
) -> Result<Driven, NoMemory>
    requires { PlanFits (R.shown reader.now) plan.old }
    ensures { IfOk result (λ driven. driven.ended ≡ true → IsPermutation (plan_rest (R.shown reader.now) plan.old) driven.offers.items) }
{
    let mut offers = Vec::new(alloc);
    let mut hand = Vec::new(alloc);
    'steps: for _step in 0..1000000u32 {
        if forward(reader, plan, judge, &mut offers, steps)? {
            return Ok(Driven {
                offers,
                ended: true,
            });
        }
        background(reader, plan, judge, so_many, &mut hand, steps)?;
    }
    Ok(Driven {
        offers,
        ended: false,
    })
}
