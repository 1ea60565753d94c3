//! A query over a store of which one call is refused, each in turn, where the core's call is made again.
use crate::calls::{NO_MEMORY, THIRD, leave, read};
use rv_core::Core;
use rv_judge::{Judge, Patient, Uncounted};
use rv_lang::Reply;
use rv_model::Entry;
use rv_plain::{Plain, Refusing};
use rv_reader::{Reader, Store};
use rv_replay::{Replayed, are_short, replay};
use rv_value::NoMemory;
use std::alloc::Global;
use std::test::Fail;

/// Whether a history is legal, as it is replayed, and ends with the end of a cursor. So each row came once.
fn is_legal_to_the_end(alloc: Global, history: &[Entry]) -> Result<bool, NoMemory> {
    let ended = match history.last() {
        Some(entry) => entry.reply == Reply::End,
        None => false,
    };
    if !ended || !are_short(history) {
        return Ok(false);
    }
    Ok(replay(alloc, history)? == Replayed::Legal)
}

/// Makes the calls, and tells how many were made again, where the history is legal and the rows came to their end.
fn read_to_the_end<S: Store + Reader<Ledger = Uncounted> + Drop>(
    alloc: Global,
    core: &mut Core<S>,
) -> Result<Option<u32>, NoMemory> {
    let again = read(alloc, core, THIRD)?;
    if is_legal_to_the_end(alloc, core.history())? {
        Ok(Some(again))
    } else {
        Ok(None)
    }
}

/// The same over the plain store, whose call of a number is refused.
fn over_refusing(alloc: Global, number: u32) -> Result<Option<u32>, NoMemory> {
    let judge: Box<dyn Judge> = Box::new(alloc, Patient::new())?;
    let store = Refusing::new(Plain::new(alloc)?, vec![in alloc; number]?);
    let mut core = Core::new(alloc, store, judge, false, 0);
    let again = read_to_the_end(alloc, &mut core);
    leave(core);
    again
}

/// Of the store's calls 36 are such that the core's call is made again where one finds no memory: two CREATEs, a COMMIT, two
/// leaves and 31 records. An INSERT whose look at the store finds none goes on without its transaction's view.
#[test]
fn a_refused_call_of_the_store_leaves_the_rows(rt: HostRuntime) -> Result<(), Fail> {
    let mut again = 0u32;
    for number in 1..140u32 {
        let more = over_refusing(rt.alloc(), number).or(Err(NO_MEMORY))?;
        assert!(rt; more.is_some(), "call {number}");
        again = again.saturating_add(more.unwrap_or(0));
    }
    assert_eq!(rt; again, 36);
    Ok(())
}
