//! The parts of a key list: where the keys stand, their filter, and the order of finished keys.

ghost use Rattle.std.specs.Prelude.{◌≡◌, ℕ, ◌+◌, ◌<◌, ◌≤◌, ◌++◌, ◌∷◌, [], List, length, vec_len, IsSome, IsNone, IfSome, IfOk, OnOk, OnErr, IsPermutation, false};
ghost use Rattle.std.specs.List.Sorted.{IsNonDecreasing};
ghost use Rattle.std.specs.Vec.{vec_capacity};
ghost use Rattle.arrayvec.specs.ArrayVec.{array_vec_len};
ghost use Rattle.rv_keylist.specs.Bits.{is_set};
ghost use Rattle.rv_keylist.specs.Marks.{Marks};
ghost use Rattle.rv_keylist.specs.Whole.{Placed, AddsBits};

use crate::filter::Filter;
use arrayvec::ArrayVec;
use rv_value::NoMemory;
use std::alloc::Global;

/// How many keys the fixed buffer takes.
pub const FEW: usize = 20;

/// How many places the first vector has.
pub const MANY: usize = 1024;

/// The keys, wherever they stand.
pub fn keys_of<'a>(few: &'a ArrayVec<u64, 20>, many: &'a Vec<u64>) -> &'a [u64]
    requires { Placed few.now.items many.now.items }
    ensures { result.now ≡ few.now.items ++ many.now.items }
{
    if many.is_empty() {
        few.as_slice()
    } else {
        many.as_slice()
    }
}

/// Makes room in the vector for all keys, where there are to be more than the fixed buffer takes.
pub fn make_room(many: &mut Vec<u64>, places: usize) -> Result<(), NoMemory>
    ensures room { OnOk result (20 < places → places ≤ vec_capacity many.new) }
    ensures items { many.new.items ≡ many.old.items }
    ensures capacity { vec_capacity many.old ≤ vec_capacity many.new }
{
    let count = many.len();
    if places > FEW && places > count {
        many.reserve(places.max(MANY) - count)?;
    }
    Ok(())
}

fn put(many: &mut Vec<u64>, key: u64)
    requires { vec_len many.old < vec_capacity many.old }
    ensures items { many.new.items ≡ many.old.items ++ key ∷ [] }
    ensures capacity { vec_capacity many.old ≤ vec_capacity many.new }
{
    match many.push(key) {
        Ok(()) => {}
        Err(_) => unreachable!(),
    }
}

fn move_all(few: &mut ArrayVec<u64, 20>, many: &mut Vec<u64>)
    requires { vec_len many.old + array_vec_len few.old ≤ vec_capacity many.old }
    ensures few { few.new.items ≡ [] }
    ensures many { many.new.items ≡ many.old.items ++ few.old.items }
    ensures capacity { vec_capacity many.old ≤ vec_capacity many.new }
{
    for key in few.as_slice() {
        put(many, *key);
    }
    few.clear();
}

/// Puts a key behind the others, for which there is room.
pub fn put_key(few: &mut ArrayVec<u64, 20>, many: &mut Vec<u64>, key: u64)
    requires placed { Placed few.old.items many.old.items }
    requires room { 19 < length (few.old.items ++ many.old.items) → length (few.old.items ++ many.old.items) < vec_capacity many.old }
    ensures keys { few.new.items ++ many.new.items ≡ few.old.items ++ many.old.items ++ key ∷ [] }
    ensures placed { Placed few.new.items many.new.items }
    ensures capacity { vec_capacity many.old ≤ vec_capacity many.new }
{
    if !many.is_empty() {
        put(many, key);
    } else if few.is_full() {
        move_all(few, many);
        put(many, key);
    } else {
        few.push(key);
    }
}

/// Adds the keys to a filter.
pub fn fill(filter: &mut Filter, keys: &[u64])
    ensures { AddsBits filter.old filter.new keys.now }
{
    'keys: for key in keys {
        filter.add(*key);
    }
}

fn filter_of(alloc: Global, keys: &[u64]) -> Result<Filter, NoMemory>
    ensures { IfOk result (λ filter. Marks filter keys.now) }
{
    let mut filter = Filter::over(vec![in alloc; 0; 1024]?);
    fill(&mut filter, keys);
    Ok(filter)
}

/// Makes the filter of the keys, where there are to be so many and it is not there.
pub fn make_filter(
    filter: &mut Option<Filter>,
    alloc: Global,
    keys: &[u64],
    places: usize,
) -> Result<(), NoMemory>
    requires { IfSome filter.old (λ words. Marks words keys.now) }
    ensures there { OnOk result (1024 < places → IsSome filter.new) }
    ensures kept { IsSome filter.old → IsSome filter.new }
    ensures marks { IfSome filter.new (λ words. Marks words keys.now) }
{
    if places > MANY && filter.is_none() {
        let _none = filter.replace(filter_of(alloc, keys)?);
    }
    Ok(())
}

/// Adds a key to the filter, where there is one.
pub fn mark(filter: &mut Option<Filter>, key: u64)
    ensures kept { IsSome filter.old → IsSome filter.new }
    ensures marks { (keys : List ℕ) → IfSome filter.old (λ words. Marks words keys) → IfSome filter.new (λ words. Marks words (keys ++ key ∷ [])) }
{
    match filter {
        Some(filter) => filter.add(key),
        None => {}
    }
}

/// Sorts the keys of the fixed buffer in place.
pub fn sort_few(few: &mut ArrayVec<u64, 20>)
    ensures permutation { IsPermutation few.old.items few.new.items }
    ensures ascends { IsNonDecreasing few.new.items }
{
    few.as_mut_slice().sort_unstable();
}

/// Sorts the keys of the vector in place.
pub fn sort_many(many: &mut Vec<u64>)
    ensures permutation { IsPermutation many.old.items many.new.items }
    ensures ascends { IsNonDecreasing many.new.items }
    ensures capacity { vec_capacity many.new ≡ vec_capacity many.old }
{
    many.as_mut_slice().sort_unstable();
}
