//! Each call of a list in blocks.
ghost use Rattle.std.specs.Prelude.{nat_lt, nat_le};
ghost use Rattle.std.proofs.lemmas.List.Sorted.{IsStrictWeakOrder-by_number};

use crate::told::Told;
use rv_blocks::{Blocks, Front, Placed};
use rv_value::{Duplicate, NoMemory};
use std::alloc::Global;

/// A number that stands by its tens, so that two of them may be in one place.
#[derive(Drop)]
struct Ten {
    ten: u64,
    one: u64,
}

impl Duplicate for Ten {
    fn copy(&self, _alloc: Global) -> Result<Ten, NoMemory> {
        Ok(Ten {
            ten: self.ten,
            one: self.one,
        })
    }
}

impl Placed for Ten {
    ghost before = { λ a b. nat_lt a.ten b.ten };

    fn comes_before(&self, other: &Ten) -> bool {
        self.ten < other.ten
    }

    ghost order = { IsStrictWeakOrder-by_number (λ a. a.ten) };
}

/// Up to these tens.
#[derive(Clone, Copy)]
struct UpTo(u64);

impl Front<Ten> for UpTo {
    ghost passes = { λ s x. nat_le x.ten s.0 };

    fn passes(&self, item: &Ten) -> bool {
        item.ten <= self.0
    }
}

/// How many items are up to these tens.
fn up_to(list: &Blocks<Ten>, tens: u64) -> u64 {
    let _count = list.len();
    list.count(&UpTo(tens)) as u64
}

/// The ones of an item, where there is one.
fn ones(item: Option<Ten>) -> Option<u64> {
    match item {
        Some(item) => Some(item.one),
        None => None,
    }
}

/// The ones of the item in the place of these tens, where there is one.
fn found(list: &Blocks<Ten>, ten: u64) -> Option<u64> {
    match list.find(&Ten { ten, one: 0 }) {
        Some(item) => Some(item.one),
        None => None,
    }
}

/// The thousand items 0, 3 and so on up to 2997, put to and fro.
fn thousand(alloc: Global) -> Result<Blocks<Ten>, NoMemory> {
    let mut list = Blocks::new(alloc);
    'items: for item in 0..1000u64 {
        list.put(Ten {
            ten: item * 7 % 1000 * 3,
            one: 0,
        })?;
    }
    Ok(list)
}

/// Tells a word, and a number where there is one.
fn tell_some(told: &mut Told, word: &str, number: Option<u64>) {
    told.word(word);
    match number {
        Some(number) => told.with(" ", number),
        None => told.word(" none"),
    }
}

/// Puts an item in the place of another one; what stood there.
fn put_over(told: &mut Told, list: &mut Blocks<Ten>, ten: u64, one: u64) -> Result<(), NoMemory> {
    let before = list.put(Ten { ten, one })?;
    tell_some(told, "put over", ones(before));
    Ok(())
}

/// Takes an item out, where there is one.
fn take_out(told: &mut Told, list: &mut Blocks<Ten>, ten: u64, one: u64) -> Result<(), NoMemory> {
    let taken = list.take_out(&Ten { ten, one })?;
    tell_some(told, ", taken", ones(taken));
    Ok(())
}

/// Puts an item in the place of another one, and takes one out; what stood there.
fn change(told: &mut Told, list: &mut Blocks<Ten>) -> Result<(), NoMemory> {
    put_over(told, list, 30, 1)?;
    take_out(told, list, 33, 5)?;
    take_out(told, list, 34, 0)?;
    told.word("\n");
    Ok(())
}

/// Tells what a list holds.
fn tell_list(told: &mut Told, list: &Blocks<Ten>) {
    told.with("items ", list.len() as u64);
    told.with(", up to 33: ", up_to(list, 33));
    told.with(", up to 5000: ", up_to(list, 5000));
    tell_some(told, ", at 30:", found(list, 30));
    tell_some(told, ", at 33:", found(list, 33));
    told.word("\n");
}

/// Tells copies of the items from a rank on, at most so many.
fn tell_run(told: &mut Told, list: &Blocks<Ten>, from: usize, most: usize) -> Result<(), NoMemory> {
    let run = list.copy_run(from, most)?;
    told.with("from ", from as u64);
    'items: for item in run.as_slice() {
        told.with(": ", item.ten);
    }
    told.word("\n");
    Ok(())
}

/// Tells the item of a rank, what stands from there on in one block, and the item once more, taken out.
fn tell_ranked(told: &mut Told, list: &mut Blocks<Ten>, rank: usize) -> Result<(), NoMemory> {
    if rank < list.len() {
        told.with("rank ", rank as u64);
        told.with(", of tens ", list.get(rank).ten);
        let some = !list.piece(rank).is_empty();
        told.word(if some { ", a piece" } else { ", no piece" });
        let taken = list.take_at(rank)?;
        told.with(", taken ", taken.one);
    }
    told.word("\n");
    Ok(())
}

fn tell_empty(alloc: Global, told: &mut Told) {
    let list = Blocks::new(alloc);
    tell_list(told, &list);
    drop(list);
}

/// What a list gives, while another holder keeps it as it was.
fn tell_changed(
    alloc: Global,
    told: &mut Told,
    list: &mut Blocks<Ten>,
    before: &Blocks<Ten>,
) -> Result<(), NoMemory> {
    change(told, list)?;
    tell_list(told, before);
    tell_list(told, list);
    tell_empty(alloc, told);
    tell_ranked(told, list, 10)?;
    tell_run(told, list, 9, 3)?;
    tell_run(told, list, 996, 100)?;
    tell_run(told, list, 2000, 9)
}

fn tell_shared(alloc: Global, told: &mut Told, list: &mut Blocks<Ten>) -> Result<(), NoMemory> {
    let before = list.share()?;
    let done = tell_changed(alloc, told, list, &before);
    drop(before);
    done
}

/// Tells what a list of a thousand items gives.
pub fn tell(alloc: Global, told: &mut Told) -> Result<(), NoMemory> {
    let mut list = thousand(alloc)?;
    let done = tell_shared(alloc, told, &mut list);
    drop(list);
    done
}
