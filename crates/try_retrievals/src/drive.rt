//! An access, driven to its end.
ghost use Rattle.std.specs.Prelude.{◌≡◌, List, [], IfOk, OnOk, Ok, IsPermutation, true};
ghost use Rattle.rv_value.specs.declared.record.Record.{Record as OneRecord};
ghost use Rattle.rv_access.specs.Accesses.{AccessFits, rest};
ghost use Rattle.try_retrievals.specs.Driving.{Gives, Stays, numbers_of};

use rv_access::Access;
use rv_jscan::{Given, Piece, Taken, sieve};
use rv_judge::{Judge, Steps};
use rv_reader::{Reader, Step};
use rv_value::{Duplicate, NoMemory, Record};
use std::alloc::Global;

/// What is done of the background between two foreground steps. So many times the awaited piece is taken and put behind
/// those in hand; where none is awaited, or more than `late` are in hand, the oldest in hand is sieved and given.
#[derive(Clone, Copy)]
pub struct Way {
    pub steps: u32,
    pub late: usize,
    /// How often a piece is given.
    pub times: u32,
    /// The number of rows after which alone this is done; None where it is always done.
    pub after: Option<usize>,
}

/// The rows in the order in which they came, and whether the end came and stayed.
#[derive(Drop)]
pub struct Driven {
    pub rows: Vec<Record>,
    pub ended: bool,
}

/// Sieves and gives copies of a piece; whether each was stale.
fn give<R: Reader>(
    alloc: Global,
    _reader: &R,
    access: &mut Access,
    judge: &mut Box<dyn Judge>,
    piece: &Piece,
    times: u32,
    steps: &mut Steps<R::Ledger>,
) -> Result<bool, NoMemory>
    requires { AccessFits access.old (R.shown _reader.now) }
    ensures { Stays (R.shown _reader.now) access.old access.new }
{
    let mut stale = true;
    'times: for _time in 0..times {
        let copy = piece.copy(alloc)?;
        if access.give(sieve(copy), judge, steps)? == Given::Accepted {
            stale = false;
        }
    }
    Ok(stale)
}

/// Takes the awaited piece into the hand; whether one was awaited.
fn take<R: Reader>(
    reader: &R,
    access: &mut Access,
    hand: &mut Vec<Piece>,
    steps: &mut Steps<R::Ledger>,
) -> Result<bool, NoMemory>
    requires { AccessFits access.old (R.shown reader.now) }
    ensures { Stays (R.shown reader.now) access.old access.new }
{
    match access.take(reader, steps)? {
        Taken::Piece(piece) => {
            hand.push(piece)?;
            Ok(true)
        }
        Taken::Nothing => Ok(false),
    }
}

/// A background step.
fn work<R: Reader>(
    alloc: Global,
    reader: &R,
    access: &mut Access,
    judge: &mut Box<dyn Judge>,
    way: Way,
    hand: &mut Vec<Piece>,
    steps: &mut Steps<R::Ledger>,
) -> Result<(), NoMemory>
    requires { AccessFits access.old (R.shown reader.now) }
    ensures { Stays (R.shown reader.now) access.old access.new }
{
    let awaited = take(reader, access, hand, steps)?;
    if !hand.is_empty() && (!awaited || hand.len() > way.late) {
        let oldest = hand.remove(0);
        give(alloc, reader, access, judge, &oldest, way.times, steps)?;
    }
    Ok(())
}

/// How many background steps are done after so many rows.
fn steps_after(way: Way, rows: usize) -> u32 {
    match way.after {
        Some(after) => { if rows == after { way.steps } else { 0 } }
        None => way.steps,
    }
}

/// What is done of the background after so many rows.
fn background<R: Reader>(
    alloc: Global,
    reader: &R,
    access: &mut Access,
    judge: &mut Box<dyn Judge>,
    way: Way,
    rows: usize,
    hand: &mut Vec<Piece>,
    steps: &mut Steps<R::Ledger>,
) -> Result<(), NoMemory>
    requires { AccessFits access.old (R.shown reader.now) }
    ensures { Stays (R.shown reader.now) access.old access.new }
{
    'steps: for _step in 0..steps_after(way, rows) {
        work(alloc, reader, access, judge, way, hand, steps)?;
    }
    Ok(())
}

/// A foreground step, whose row is put to the others; whether it was the end.
fn forward<R: Reader>(
    reader: &R,
    access: &mut Access,
    judge: &mut Box<dyn Judge>,
    rows: &mut Vec<Record>,
    steps: &mut Steps<R::Ledger>,
) -> Result<bool, NoMemory>
    requires { AccessFits access.old (R.shown reader.now) }
    ensures gives { (due : List OneRecord) → Gives (R.shown reader.now) due rows.old.items access.old → OnOk result (Gives (R.shown reader.now) due rows.new.items access.new) }
    ensures ends { result ≡ Ok true → rest access.new (R.shown reader.now) ≡ [] }
{
    match access.fg_step(reader, judge, steps)? {
        Step::Row(row) => {
            rows.push(row)?;
            Ok(false)
        }
        Step::Working => Ok(false),
        Step::End => Ok(true),
    }
}

/// Whether after the end no piece is awaited, each in hand is stale, and the end comes again.
fn stays_ended<R: Reader>(
    alloc: Global,
    reader: &R,
    access: &mut Access,
    judge: &mut Box<dyn Judge>,
    hand: &mut Vec<Piece>,
    steps: &mut Steps<R::Ledger>,
) -> Result<bool, NoMemory>
    requires { AccessFits access.old (R.shown reader.now) }
{
    let mut quiet = !take(reader, access, hand, steps)? && access.awaited().is_none();
    'hand: for piece in hand.as_slice() {
        if !give(alloc, reader, access, judge, piece, 1, steps)? {
            quiet = false;
        }
    }
    match access.fg_step(reader, judge, steps)? {
        Step::End => Ok(quiet),
        Step::Row(_) | Step::Working => Ok(false),
    }
}

/// Drives an access to its end, in at most 1,000,000 foreground steps. The rows of a drive that ended are those that
/// were to be given, each once.
pub fn drive<R: Reader>(
    alloc: Global,
    reader: &R,
    access: &mut Access,
    judge: &mut Box<dyn Judge>,
    way: Way,
    steps: &mut Steps<R::Ledger>,
) -> Result<Driven, NoMemory>
    requires { AccessFits access.old (R.shown reader.now) }
    ensures { IfOk result (λ driven. driven.ended ≡ true → IsPermutation (numbers_of (rest access.old (R.shown reader.now))) (numbers_of driven.rows.items)) }
{
    let mut rows = Vec::new(alloc);
    let mut hand = Vec::new(alloc);
    'steps: for _step in 0..1000000u32 {
        if forward(reader, access, judge, &mut rows, steps)? {
            let ended = stays_ended(alloc, reader, access, judge, &mut hand, steps)?;
            return Ok(Driven { rows, ended });
        }
        let so_far = rows.len();
        background(alloc, reader, access, judge, way, so_far, &mut hand, steps)?;
    }
    Ok(Driven { rows, ended: false })
}
