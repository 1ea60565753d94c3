//! What a row of the table does with a joint scan, and the words for each act.
ghost use Rattle.std.specs.Prelude.{◌≡◌, ◌≤◌, length};
ghost use Rattle.rv_reader.specs.Shown.{Shown};
ghost use Rattle.try_stores.specs.Drawing.{Drawn, Lists};

use crate::list::put;
use crate::pieces::joint::{Name, Query, abandon, give, joint, take};
use crate::told::Told;
use rv_jscan::{Given, Jscan, Piece, PieceId, Sieved, sieve};
use rv_judge::{Steps, Uncounted};
use rv_reader::Reader;
use rv_value::{Duplicate, NoMemory};
use std::alloc::Global;

/// The pieces taken are put aside in the order in which they are taken.
#[derive(Clone, Copy)]
pub enum Act {
    /// Takes the awaited piece.
    Take,
    /// Takes the first piece of another joint scan of the same indexes.
    TakeOther(Name),
    /// Sieves a copy of the piece in a place, from 0, and gives it.
    Give(usize),
    /// Abandons the present scan.
    Abandon,
}

fn tell_id(told: &mut Told, id: PieceId) {
    told.number(id.cursor);
    told.with(".", id.opening);
    told.with(".", id.number);
}

fn tell_awaited(told: &mut Told, id: Option<PieceId>) {
    match id {
        Some(id) => tell_id(told, id),
        None => told.word("none"),
    }
}

/// How many of the first entries are marked.
fn count_marked(sieved: &Sieved, count: u32) -> u64
    requires { count ≤ length sieved.now.entries }
{
    let mut marked = 0u64;
    'entries: for i in 0..count {
        if sieved.marked(i) {
            marked = marked.saturating_add(1);
        }
    }
    marked
}

/// Tells how many entries a sieved piece has, and how many of them are marked.
fn tell_marks(told: &mut Told, sieved: &Sieved) {
    let count = sieved.entries().len() as u32;
    tell_id(told, sieved.id());
    told.with(": ", u64::from(count));
    told.with(" entries, ", count_marked(sieved, count));
    told.word(" marked");
}

/// Tells of the sieved copy of a piece that is taken.
fn tell_taken(alloc: Global, told: &mut Told, piece: &Piece) -> Result<(), NoMemory> {
    let sieved = sieve(piece.copy(alloc)?);
    told.word("take ");
    tell_marks(told, &sieved);
    drop(sieved);
    Ok(())
}

/// Puts a taken piece aside.
fn put_aside(
    alloc: Global,
    told: &mut Told,
    piece: Piece,
    pieces: &mut Vec<Piece>,
) -> Result<(), NoMemory> {
    let done = tell_taken(alloc, told, &piece);
    put(pieces, piece)?;
    done
}

fn put_aside_some(
    alloc: Global,
    told: &mut Told,
    piece: Option<Piece>,
    pieces: &mut Vec<Piece>,
) -> Result<(), NoMemory> {
    match piece {
        Some(piece) => put_aside(alloc, told, piece, pieces),
        None => {
            told.word("take: nothing");
            Ok(())
        }
    }
}

fn take_other<R: Reader<Ledger = Uncounted>>(
    alloc: Global,
    told: &mut Told,
    reader: &R,
    snap: u64,
    query: Query,
    name: Name,
    pieces: &mut Vec<Piece>,
) -> Result<(), NoMemory>
    requires { Lists (R.shown reader.now) snap }
{
    let mut other = joint(alloc, reader, snap, query, name)?;
    told.word("other ");
    let mut steps = Steps::new(Uncounted);
    let piece = take(reader, &mut other, &mut steps);
    drop(other);
    put_aside_some(alloc, told, piece?, pieces)
}

fn tell_given(told: &mut Told, given: Given) {
    match given {
        Given::Accepted => told.word(": accepted"),
        Given::Stale { asked, now } => tell_stale(told, asked, now),
    }
}

fn tell_stale(told: &mut Told, asked: PieceId, now: Option<PieceId>) {
    told.word(": stale, asked ");
    tell_id(told, asked);
    told.word(", now ");
    tell_awaited(told, now);
}

fn give_copy(
    alloc: Global,
    told: &mut Told,
    jscan: &mut Jscan,
    piece: &Piece,
) -> Result<(), NoMemory>
    ensures { (shown : Shown) → Drawn shown jscan.old → Drawn shown jscan.new }
{
    told.word("give ");
    tell_id(told, piece.id());
    let given = give(jscan, piece.copy(alloc)?)?;
    tell_given(told, given);
    Ok(())
}

fn give_at(
    alloc: Global,
    told: &mut Told,
    jscan: &mut Jscan,
    pieces: &[Piece],
    at: usize,
) -> Result<(), NoMemory>
    ensures { (shown : Shown) → Drawn shown jscan.old → Drawn shown jscan.new }
{
    match pieces.get(at) {
        Some(piece) => give_copy(alloc, told, jscan, piece),
        None => {
            told.word("give: no such piece");
            Ok(())
        }
    }
}

fn take_own<R: Reader<Ledger = Uncounted>>(
    alloc: Global,
    told: &mut Told,
    reader: &R,
    jscan: &mut Jscan,
    pieces: &mut Vec<Piece>,
    steps: &mut Steps<R::Ledger>,
) -> Result<(), NoMemory>
    requires { Drawn (R.shown reader.now) jscan.old }
    ensures { Drawn (R.shown reader.now) jscan.new }
{
    let piece = take(reader, jscan, steps)?;
    put_aside_some(alloc, told, piece, pieces)
}

/// Does an act, and tells what it did.
pub fn carry_out<R: Reader<Ledger = Uncounted>>(
    alloc: Global,
    told: &mut Told,
    reader: &R,
    snap: u64,
    query: Query,
    act: Act,
    jscan: &mut Jscan,
    pieces: &mut Vec<Piece>,
    steps: &mut Steps<R::Ledger>,
) -> Result<(), NoMemory>
    requires lists { Lists (R.shown reader.now) snap }
    requires drawn { Drawn (R.shown reader.now) jscan.old }
    ensures { Drawn (R.shown reader.now) jscan.new }
{
    told.word("  ");
    match act {
        Act::Take => take_own(alloc, told, reader, jscan, pieces, steps),
        Act::TakeOther(name) => take_other(alloc, told, reader, snap, query, name, pieces),
        Act::Give(at) => give_at(alloc, told, jscan, pieces.as_slice(), at),
        Act::Abandon => {
            abandon(jscan);
            told.word("abandon");
            Ok(())
        }
    }
}
