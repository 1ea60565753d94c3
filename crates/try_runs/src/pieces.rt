//! Pieces that leave the core: taken twice, given late, given after the cursor is gone, and given to another core.
use crate::calls::{NO_MEMORY, ends_with, fill, gives_row, leave, make};
use rv_core::Core;
use rv_jscan::{Given, Piece, PieceId, Taken, sieve};
use rv_judge::{Judge, Patient, Steps, Threshold, Uncounted};
use rv_reader::{Reader, Store};
use rv_store::Paged;
use rv_value::NoMemory;
use std::alloc::Global;
use std::test::Fail;

/// A core over the paged store.
fn core_under(alloc: Global, judge: Box<dyn Judge>) -> Result<Core<Paged>, NoMemory> {
    Ok(Core::new(alloc, Paged::new(alloc)?, judge, false, 0))
}

/// The same under a judge that drops nothing.
pub fn patient(alloc: Global) -> Result<Core<Paged>, NoMemory> {
    let judge: Box<dyn Judge> = Box::new(alloc, Patient::new())?;
    core_under(alloc, judge)
}

/// A table of the numbers 0 to 39, and a cursor over half of them.
fn open<S: Store + Reader<Ledger = Uncounted> + Drop>(
    alloc: Global,
    core: &mut Core<S>,
) -> Result<(), NoMemory> {
    fill(alloc, core, 40)?;
    reopen(core)
}

fn reopen<S: Store + Reader<Ledger = Uncounted> + Drop>(
    core: &mut Core<S>,
) -> Result<(), NoMemory> {
    make(
        core,
        "OPEN C SELECT * FROM T WHERE A BETWEEN 10 AND 29 OPTIMIZE FOR FAST FIRST",
    )?;
    Ok(())
}

/// How many rows FETCH gives until it gives none.
fn left<S: Store + Reader<Ledger = Uncounted> + Drop>(core: &mut Core<S>) -> Result<u32, NoMemory> {
    for count in 0..100u32 {
        if !gives_row(core, "FETCH C")? {
            return Ok(count);
        }
    }
    Ok(100)
}

/// Puts the piece that the core hands out behind those that are out; whether there is one.
fn take<S: Store + Reader<Ledger = Uncounted> + Drop>(
    core: &mut Core<S>,
    out: &mut Vec<Piece>,
) -> Result<bool, NoMemory> {
    let mut steps = Steps::new(Uncounted);
    match core.take_piece(0, &mut steps)? {
        Taken::Piece(piece) => {
            out.push(piece)?;
            Ok(true)
        }
        Taken::Nothing => Ok(false),
    }
}

/// What is answered to the piece that has been out longest, sieved.
fn give<S: Store + Reader<Ledger = Uncounted> + Drop>(
    core: &mut Core<S>,
    out: &mut Vec<Piece>,
) -> Result<Option<Given>, NoMemory> {
    if out.is_empty() {
        return Ok(None);
    }
    let mut steps = Steps::new(Uncounted);
    let answer = core.give_piece(sieve(out.remove(0)), &mut steps)?;
    Ok(Some(answer))
}

fn id(cursor: u64, opening: u64, number: u64) -> PieceId {
    PieceId {
        cursor,
        opening,
        number,
    }
}

/// The answer to the first piece of the first cursor where it is stale, and what is awaited.
fn stale(now: Option<PieceId>) -> Option<Given> {
    Some(Given::Stale {
        asked: id(1, 1, 1),
        now,
    })
}

/// The first piece taken three times, and given: once, again, and once more after its cursor was closed and another opened.
fn late<S: Store + Reader<Ledger = Uncounted> + Drop>(
    alloc: Global,
    core: &mut Core<S>,
    out: &mut Vec<Piece>,
) -> Result<bool, NoMemory> {
    open(alloc, core)?;
    let all = take(core, out)? && take(core, out)? && take(core, out)?;
    let accepted = give(core, out)? == Some(Given::Accepted);
    let again = give(core, out)? == stale(Some(id(1, 1, 2)));
    let rows = left(core)? == 20;
    make(core, "CLOSE C")?;
    reopen(core)?;
    let gone = give(core, out)? == stale(None);
    let next = take(core, out)? && out.first().is_some_and(|piece| piece.id() == id(2, 1, 1));
    Ok(all && accepted && again && rows && gone && next)
}

#[test]
fn late_pieces_are_stale(rt: HostRuntime) -> Result<(), Fail> {
    let mut core = patient(rt.alloc()).or(Err(NO_MEMORY))?;
    let mut out = Vec::new(rt.alloc());
    let stale = late(rt.alloc(), &mut core, &mut out);
    leave(out);
    leave(core);
    assert!(rt; stale.or(Err(NO_MEMORY))?);
    Ok(())
}

/// The first piece is out while a call ends its cursor.
fn ended<S: Store + Reader<Ledger = Uncounted> + Drop>(
    alloc: Global,
    core: &mut Core<S>,
    text: &str,
    out: &mut Vec<Piece>,
) -> Result<bool, NoMemory> {
    open(alloc, core)?;
    let taken = take(core, out)?;
    make(core, text)?;
    Ok(taken && give(core, out)? == stale(None))
}

/// Whether it is stale then.
fn is_ended_by(alloc: Global, text: &str) -> Result<bool, NoMemory> {
    let mut core = patient(alloc)?;
    let mut out = Vec::new(alloc);
    let stale = ended(alloc, &mut core, text, &mut out);
    leave(out);
    leave(core);
    stale
}

#[test]
fn pieces_of_a_cursor_that_is_gone_are_stale(rt: HostRuntime) -> Result<(), Fail> {
    for text in ["CLOSE C", "COMMIT", "ROLLBACK"] {
        assert!(rt; is_ended_by(rt.alloc(), text).or(Err(NO_MEMORY))?, "{text}");
    }
    Ok(())
}

/// The first piece is out while a FETCH has its scan dropped.
fn dropped<S: Store + Reader<Ledger = Uncounted> + Drop>(
    alloc: Global,
    core: &mut Core<S>,
    out: &mut Vec<Piece>,
) -> Result<bool, NoMemory> {
    open(alloc, core)?;
    let taken = take(core, out)?;
    make(core, "FETCH C")?;
    let first = ends_with(alloc, core.history(), 1, "2 FETCH C\n= row 10, 0\n")?;
    let late = give(core, out)? == stale(None);
    let none = !take(core, out)?;
    let rows = left(core)? == 19;
    Ok(taken && first && late && none && rows)
}

#[test]
fn a_piece_of_a_scan_that_was_dropped_is_stale(rt: HostRuntime) -> Result<(), Fail> {
    let judge: Box<dyn Judge> = Box::new(rt.alloc(), Threshold::new())?;
    let mut core = core_under(rt.alloc(), judge).or(Err(NO_MEMORY))?;
    let mut out = Vec::new(rt.alloc());
    let stale = dropped(rt.alloc(), &mut core, &mut out);
    leave(out);
    leave(core);
    assert!(rt; stale.or(Err(NO_MEMORY))?);
    Ok(())
}

/// Two pieces of a core given to another one, whose own have the same entries, before that has taken its own and after it.
fn elsewhere<S: Store + Reader<Ledger = Uncounted> + Drop>(
    alloc: Global,
    here: &mut Core<S>,
    there: &mut Core<S>,
    out: &mut Vec<Piece>,
    own: &mut Vec<Piece>,
) -> Result<bool, NoMemory> {
    open(alloc, here)?;
    open(alloc, there)?;
    let two = take(here, out)? && take(here, out)?;
    let early = give(there, out)? == stale(Some(id(1, 1, 1)));
    let taken = take(there, own)?;
    let accepted = give(there, out)? == Some(Given::Accepted);
    let rows = left(there)? == 20;
    Ok(two && early && taken && accepted && rows)
}

/// Whether a piece is known by its id and its entries, not by who handed it out: another core refuses it until it has
/// handed out its own.
fn is_taken_elsewhere(alloc: Global) -> Result<bool, NoMemory> {
    let mut here = patient(alloc)?;
    match patient(alloc) {
        Ok(mut there) => {
            let mut out = Vec::new(alloc);
            let mut own = Vec::new(alloc);
            let taken = elsewhere(alloc, &mut here, &mut there, &mut out, &mut own);
            leave(own);
            leave(out);
            leave(there);
            leave(here);
            taken
        }
        Err(NoMemory) => {
            leave(here);
            Err(NoMemory)
        }
    }
}

#[test]
fn another_core_takes_a_piece_by_its_content(rt: HostRuntime) -> Result<(), Fail> {
    assert!(rt; is_taken_elsewhere(rt.alloc()).or(Err(NO_MEMORY))?);
    Ok(())
}
