//! Key lists, to which keys are pushed from above down to 0.
ghost use Rattle.std.specs.Prelude.{◌≡◌, IfOk, length, true, false};

use crate::told::Told;
use rv_keylist::{KeyList, Stage};
use rv_loading::{Fault, cut, small};
use rv_value::{NoMemory, RowNo};
use std::alloc::Global;

/// The list of the pushes `n - 1` down to 0, for which so many places were made.
fn pushed_down(alloc: Global, n: u32, places: u32) -> Result<KeyList, NoMemory>
    ensures { IfOk result (λ list. (length list.keys ≡ n) × (list.finished ≡ false)) }
{
    let mut list = KeyList::new(alloc);
    list.reserve(places)?;
    'keys: for i in 0..n {
        list.push(RowNo(u64::from(n - 1 - i)))?;
    }
    Ok(list)
}

/// How many of the rows below its length a finished list has in their places, has, and may have.
fn in_place(list: &KeyList) -> u64
    requires { list.now.finished ≡ true }
{
    let count = list.len();
    let mut well = 0u64;
    'rows: for row in 0..count {
        let is_there = list.has(RowNo(row)) && list.may_have(RowNo(row));
        if is_there && list.get(row).0 == row {
            well = well.saturating_add(1);
        }
    }
    well
}

fn stage_word(stage: Stage) -> &'static str {
    match stage {
        Stage::Small => "small",
        Stage::Allocated => "allocated",
        Stage::Spilled => "spilled",
    }
}

/// Tells the first and the last key that were pushed.
fn tell_ends(told: &mut Told, list: &KeyList) {
    let count = list.len();
    if count == 0 {
        return told.word("none");
    }
    told.number(list.get(0).0);
    told.with(" to ", list.get(count - 1).0);
}

/// Tells how many keys a list has, and where they lie.
fn tell_size(told: &mut Told, list: &KeyList) {
    told.number(list.len());
    told.word(" keys, ");
    told.word(stage_word(list.stage()));
    told.word(", ");
}

/// Tells of a list as it is pushed.
fn tell_pushed(told: &mut Told, list: &KeyList) {
    if list.is_empty() {
        told.word("empty, ");
    }
    tell_size(told, list);
    tell_ends(told, list);
    told.word("; ");
}

/// Tells of a list as it is finished.
fn tell_finished(told: &mut Told, list: &KeyList)
    requires { list.now.finished ≡ true }
{
    tell_size(told, list);
    told.number(in_place(list));
    told.word(" in place");
    if list.has(RowNo(list.len())) {
        told.word(", one more");
    }
}

/// The list of so many keys, with so many places made before.
fn listed(alloc: Global, text: &str) -> Result<KeyList, Fault> {
    let (count, places) = cut(text, ' ')?;
    Ok(pushed_down(alloc, small(count)?, small(places)?)?)
}

/// A list of so many keys, with so many places made before.
pub fn tell(alloc: Global, told: &mut Told, text: &str) -> Result<(), Fault> {
    let mut list = listed(alloc, text)?;
    tell_pushed(told, &list);
    list.finish();
    tell_finished(told, &list);
    drop(list);
    Ok(())
}

/// How many rows from its length to 99,999 a finished list may have, and how many it has.
fn probes(list: &KeyList) -> (u64, u64)
    requires { list.now.finished ≡ true }
{
    let (mut may, mut has) = (0u64, 0u64);
    'rows: for row in list.len()..100_000 {
        if list.may_have(RowNo(row)) {
            may = may.saturating_add(1);
        }
        if list.has(RowNo(row)) {
            has = has.saturating_add(1);
        }
    }
    (may, has)
}

/// A finished list of so many keys, asked for the rows behind them.
pub fn tell_probes(alloc: Global, told: &mut Told, text: &str) -> Result<(), Fault> {
    let mut list = pushed_down(alloc, small(text)?, 0)?;
    list.finish();
    let (may, has) = probes(&list);
    drop(list);
    told.number(may);
    told.with(" may be there, ", has);
    told.word(" are");
    Ok(())
}
