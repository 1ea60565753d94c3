//! The parts of a key list of which only some keys stay.

ghost use Rattle.std.specs.Prelude.{◌≡◌, ◌+◌, ◌<◌, ◌≤◌, ◌++◌, ◌∷◌, [], filter, length, true, IsSome, IfSome};
ghost use Rattle.std.specs.Vec.{vec_capacity};
ghost use Rattle.rv_keylist.specs.Marks.{Marks, may_key};
ghost use Rattle.rv_keylist.specs.Whole.{Moves};

use crate::KeyList;
use crate::filter::Filter;
use crate::parts::{FEW, fill};
use arrayvec::ArrayVec;
use rv_value::RowNo;
use std::mem;

/// Adds a key, where a list may have it.
fn keep_one(kept: &mut ArrayVec<u64, 20>, list: &KeyList, key: u64)
    requires ready { list.now.finished ≡ true }
    requires room { length kept.old.items < 20 }
    ensures { kept.new.items ≡ kept.old.items ++ filter (λ k. may_key k list.now.keys) (key ∷ []) }
{
    if list.may_have(RowNo(key)) {
        kept.push(key);
    }
}

/// Of the keys in the fixed buffer those stay that a list may have.
pub fn narrow_few(few: &mut ArrayVec<u64, 20>, list: &KeyList)
    requires { list.now.finished ≡ true }
    ensures { few.new.items ≡ filter (λ k. may_key k list.now.keys) few.old.items }
{
    let mut kept: ArrayVec<u64, 20> = ArrayVec::new();
    for key in few.as_slice() {
        keep_one(&mut kept, list, *key);
    }
    let _before = mem::replace(few, kept);
}

/// Of the keys in the vector those stay that a list may have.
pub fn narrow_many(many: &mut Vec<u64>, list: &KeyList)
    requires { list.now.finished ≡ true }
    ensures keys { many.new.items ≡ filter (λ k. may_key k list.now.keys) many.old.items }
    ensures capacity { vec_capacity many.new ≡ vec_capacity many.old }
{
    many.retain(|key| list.may_have(RowNo(*key)));
}

/// Moves keys from the vector into the fixed buffer, which has room for them.
fn move_few(few: &mut ArrayVec<u64, 20>, many: &mut Vec<u64>)
    requires { length few.old.items + length many.old.items ≤ 20 }
    ensures few { few.new.items ≡ few.old.items ++ many.old.items }
    ensures many { many.new.items ≡ [] }
{
    for key in many.as_slice() {
        few.push(*key);
    }
    many.clear();
}

/// Where the vector has no more keys than the fixed buffer takes, they stand there.
pub fn move_back(few: &mut ArrayVec<u64, 20>, many: &mut Vec<u64>)
    requires { 0 < length many.old.items → few.old.items ≡ [] }
    ensures moves { Moves few.old.items many.old.items (vec_capacity many.old) few.new.items many.new.items (vec_capacity many.new) }
    ensures short { length few.new.items ≤ 20 }
{
    let _held = few.len();
    if many.len() <= FEW {
        move_few(few, many);
    }
}

/// Marks the keys in the filter, where there is one, and no others.
pub fn remark(filter: &mut Option<Filter>, keys: &[u64])
    ensures kept { IsSome filter.old → IsSome filter.new }
    ensures marks { IfSome filter.new (λ words. Marks words keys.now) }
{
    match filter {
        Some(filter) => {
            filter.clear();
            fill(filter, keys);
        }
        None => {}
    }
}
