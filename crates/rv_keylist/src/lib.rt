//! Row numbers as keys. `KeyList` is a list of record keys in three stages: a fixed buffer, one vector, and a longer vector with a
//! filter; `Delivered` is the buffer of rows that a foreground delivered; both are searched by `is_among`.
#![tactic(auto)]

ghost use Rattle.std.specs.Prelude.{◌≡◌, ℕ, ◌+◌, ◌-◌, ◌<◌, ◌≤◌, ◌++◌, ◌∷◌, ◌||◌, [], List, max, filter, length, slice_get, Some, IsOk, IfOk, OnOk, OnErr, IsPermutation, ◌==◌, true, false};
ghost use Rattle.std.specs.List.Sorted.{IsStrictlyIncreasing};
ghost use Rattle.rv_keylist.specs.Listed.{stage_of};
ghost use Rattle.rv_keylist.specs.Marks.{may_key};
ghost use Rattle.rv_keylist.specs.Keys.{has_key, Once};

mod delivered;
mod filter;
mod keys;
mod narrowing;
mod parts;

use crate::filter::Filter;
use crate::narrowing::{move_back, narrow_few, narrow_many, remark};
use crate::parts::{MANY, keys_of, make_filter, make_room, mark, put_key, sort_few, sort_many};
use arrayvec::ArrayVec;
pub use delivered::Delivered;
pub use keys::{is_among, place_of};
use rv_value::{NoMemory, RowNo};
use std::alloc::Global;
use std::marker::Model;

/// How a list holds its keys.
#[derive(Clone, Copy, PartialEq, Eq)]
pub enum Stage {
    /// Up to 20 keys, in a fixed buffer.
    Small,
    /// Up to 1,024 keys, in one vector.
    Allocated,
    /// More keys, in a longer vector that grows, with a filter of 65,536 bits.
    Spilled,
}

/// A list of record keys, which is pushed to, then finished and asked.
///
/// Contracts see the row numbers in the order of their pushes, the number of places that were made by `reserve` and
/// were not used yet, and whether the list is finished.
#[derive(Drop)]
pub struct KeyList {
    few: ArrayVec<u64, 20>,
    many: Vec<u64>,
    filter: Option<Filter>,
    spare: u32,
    finished: bool,
}

impl Model for KeyList {
    ghost use Rattle.std.specs.Prelude.{◌++◌};
    ghost use Rattle.std.specs.Vec.{vec_capacity};
    ghost use Rattle.rv_keylist.specs.Listed.{Listed};
    ghost use Rattle.rv_keylist.specs.Whole.{Whole};

    ghost Value = { Listed };

    ghost view = { λ l. record { keys = l.few.items ++ l.many.items; spare = l.spare; finished = l.finished } };

    ghost invariant = { λ l. Whole l.few.items l.many.items (vec_capacity l.many) l.filter l.spare l.finished };
}

impl KeyList {
    /// The list without keys. It takes no memory.
    pub fn new(alloc: Global) -> KeyList
        ensures { result ≡ record { keys = []; spare = 0; finished = false } }
    {
        KeyList {
            few: ArrayVec::new(),
            many: Vec::new(alloc),
            filter: None,
            spare: 0,
            finished: false,
        }
    }

    /// Takes all keys out, as if it were made anew. It keeps its memory, and takes none.
    pub fn renew(&mut self)
        ensures { self.new ≡ record { keys = []; spare = 0; finished = false } }
    {
        self.few.clear();
        self.many.clear();
        drop(self.filter.take());
        self.spare = 0;
        self.finished = false;
    }

    /// How many keys there are. What always holds is told with it: none stands twice, and once finished they ascend.
    pub fn len(&self) -> u64
        ensures count { result ≡ length self.now.keys }
        ensures once { Once self.now.keys }
        ensures ascends { self.now.finished ≡ true → IsStrictlyIncreasing self.now.keys }
    {
        (self.few.len() + self.many.len()) as u64
    }

    /// Whether no key was pushed; Rust's habit asks for it beside `len`.
    pub fn is_empty(&self) -> bool
        ensures { result ≡ (length self.now.keys == 0) }
    {
        self.few.is_empty() && self.many.is_empty()
    }

    /// Makes places: so many pushes cannot fail. `NoMemory` leaves the list as it was.
    #[inline(always)]
    pub fn reserve(&mut self, more: u32) -> Result<(), NoMemory>
        requires { self.old.finished ≡ false }
        ensures ok { OnOk result (self.new ≡ record self.old { spare = max self.old.spare more }) }
        ensures err { OnErr result (self.new ≡ self.old) }
        ensures made { more ≤ self.old.spare → IsOk result }
    {
        if more <= self.spare {
            return Ok(());
        }
        let places = self.few.len() + self.many.len() + more as usize;
        make_room(&mut self.many, places)?;
        let alloc = *self.many.allocator();
        make_filter(
            &mut self.filter,
            alloc,
            keys_of(&self.few, &self.many),
            places,
        )?;
        self.spare = more;
        Ok(())
    }

    /// Puts a row behind the others. `NoMemory` leaves the list as it was, and comes only where no place was made.
    #[inline(always)]
    pub fn push(&mut self, row: RowNo) -> Result<(), NoMemory>
        requires open { self.old.finished ≡ false }
        requires fresh { has_key row.0 self.old.keys ≡ false }
        ensures ok { OnOk result (self.new ≡ record self.old { keys = self.old.keys ++ row.0 ∷ []; spare = self.old.spare - 1 }) }
        ensures err { OnErr result (self.new ≡ self.old) }
        ensures room { 0 < self.old.spare → IsOk result }
    {
        self.reserve(1)?;
        self.add(row.0);
        Ok(())
    }

    fn add(&mut self, key: u64)
        requires open { self.old.finished ≡ false }
        requires fresh { has_key key self.old.keys ≡ false }
        requires room { 0 < self.old.spare }
        ensures { self.new ≡ record self.old { keys = self.old.keys ++ key ∷ []; spare = self.old.spare - 1 } }
    {
        mark(&mut self.filter, key);
        put_key(&mut self.few, &mut self.many, key);
        self.spare -= 1;
    }

    /// Puts the keys in ascending order. It takes no memory.
    pub fn finish(&mut self)
        ensures keys { IsPermutation self.old.keys self.new.keys }
        ensures count { length self.new.keys ≡ length self.old.keys }
        ensures ascends { IsStrictlyIncreasing self.new.keys }
        ensures finished { self.new.finished ≡ true }
        ensures spare { self.new.spare ≡ self.old.spare }
    {
        sort_few(&mut self.few);
        sort_many(&mut self.many);
        self.finished = true;
    }

    /// Only those keys stay that a finished list may have, in their order. It takes no memory, and no place that was made is
    /// kept.
    pub fn narrow(&mut self, list: &KeyList)
        requires open { self.old.finished ≡ false }
        requires ready { list.now.finished ≡ true }
        ensures keys { self.new.keys ≡ filter (λ k. may_key k list.now.keys) self.old.keys }
        ensures spare { self.new.spare ≡ 0 }
        ensures finished { self.new.finished ≡ false }
    {
        narrow_few(&mut self.few, list);
        narrow_many(&mut self.many, list);
        move_back(&mut self.few, &mut self.many);
        remark(&mut self.filter, keys_of(&self.few, &self.many));
        self.spare = 0;
    }

    /// The key in a place, from 0: before `finish` that of the push with this number, after it in ascending order.
    pub fn get(&self, i: u64) -> RowNo
        requires { i < length self.now.keys }
        ensures { slice_get self.now.keys i ≡ Some result.0 }
    {
        RowNo(keys_of(&self.few, &self.many)[i as usize])
    }

    /// Whether a row is among the keys of a finished list.
    pub fn has(&self, row: RowNo) -> bool
        requires { self.now.finished ≡ true }
        ensures { result ≡ has_key row.0 self.now.keys }
    {
        is_among(keys_of(&self.few, &self.many), row.0)
    }

    /// Whether a row may be among the keys of a finished list. It is never false for a key; up to 1,024 keys it is
    /// exact, above it tells whether the row's bit is set in the filter.
    pub fn may_have(&self, row: RowNo) -> bool
        requires { self.now.finished ≡ true }
        ensures value { result ≡ may_key row.0 self.now.keys }
        ensures never_denied { has_key row.0 self.now.keys ≡ true → result ≡ true }
    {
        let keys = keys_of(&self.few, &self.many);
        match &self.filter {
            Some(filter) if keys.len() > MANY => filter.may_hold(row.0),
            _ => is_among(keys, row.0),
        }
    }

    /// How the keys are held.
    pub fn stage(&self) -> Stage
        ensures { result ≡ stage_of (length self.now.keys) }
    {
        match self.len() {
            0..=20 => Stage::Small,
            21..=1024 => Stage::Allocated,
            _ => Stage::Spilled,
        }
    }
}
