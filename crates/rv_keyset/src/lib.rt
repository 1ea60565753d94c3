//! Sets of record keys that grow by whole lists.
#![tactic(auto)]

ghost use Rattle.std.specs.Prelude.{◌≡◌, ◌+◌, ◌<◌, ◌≤◌, ◌++◌, ◌^◌, [], true, false, length, IfOk, IsOk, OnOk, OnErr, IsPermutation};
ghost use Rattle.std.specs.List.Sorted.{IsStrictlyIncreasing};
ghost use Rattle.rv_keylist.specs.Keys.{has_key};
ghost use Rattle.rv_keyset.specs.Sets.{AreApart};

mod runs;

use crate::runs::{add_list, count_in, is_in};
use rv_keylist::KeyList;
use rv_value::{NoMemory, RowNo};
use std::alloc::Global;
use std::marker::Model;

/// How many lists a set has places for. Lists of falling lengths need no more than 32.
const PLACES: usize = 32;

/// A set of record keys, to which whole lists are added.
///
/// The keys stand in lists of which each is, where nothing else asks for it, at least about twice as long as the next one. A
/// list that is added is joined with those behind which it is too long, so that a key is moved once for each doubling of its
/// list, and a look-up asks a number of lists that grows as the logarithm of the keys.
#[derive(Drop)]
pub struct KeySet {
    runs: Vec<KeyList>,
}

impl Model for KeySet {
    ghost use Rattle.std.specs.Prelude.{length, nat_eq};
    ghost use Rattle.std.specs.Vec.{vec_capacity};
    ghost use Rattle.rv_keyset.specs.Sets.{AreRuns, Keyed, ascending, flat};

    ghost Value = { Keyed };

    ghost view = { λ s. record { keys = ascending (flat s.runs.items); whole = nat_eq (length s.runs.items) 1 } };

    ghost invariant = { λ s. AreRuns s.runs.items (vec_capacity s.runs) };
}

impl KeySet {
    /// The empty set. `NoMemory` comes where there is no room for its places.
    pub fn new(alloc: Global) -> Result<KeySet, NoMemory>
        ensures { IfOk result (λ set. set ≡ record { keys = []; whole = false }) }
    {
        Ok(KeySet {
            runs: Vec::with_capacity(alloc, PLACES)?,
        })
    }

    /// The number of keys.
    pub fn len(&self) -> u64
        ensures count { result ≡ length self.now.keys }
        ensures ascends { IsStrictlyIncreasing self.now.keys }
        ensures small { result < 2 ^ 32 }
    {
        count_in(self.runs.as_slice())
    }

    /// Whether a row is in the set.
    pub fn has(&self, row: RowNo) -> bool
        ensures { result ≡ has_key row.0 self.now.keys }
    {
        is_in(self.runs.as_slice(), row)
    }

    /// Forgets all keys.
    pub fn clear(&mut self)
        ensures { self.new ≡ record { keys = []; whole = false } }
    {
        self.runs.clear();
    }

    /// Adds the keys of a list, none of which the set has. `room` is a list without keys that has places for all keys of both,
    /// so that no memory is taken. Where the list is the last one that is added, all keys are then in one list.
    pub fn add(&mut self, room: KeyList, list: KeyList, last: bool)
        requires empty { room.keys ≡ [] }
        requires open { room.finished ≡ false }
        requires enough { length self.old.keys + length list.keys ≤ room.spare }
        requires small { length self.old.keys + length list.keys < 2 ^ 32 }
        requires apart { AreApart self.old.keys list.keys }
        ensures keys { IsPermutation (self.old.keys ++ list.keys) self.new.keys }
        ensures ascends { IsStrictlyIncreasing self.new.keys }
        ensures whole { last ≡ true → self.new.whole ≡ true }
    {
        let _before = self.len();
        let _keys = list.len();
        add_list(&mut self.runs, room, &list, last);
    }

    /// Puts all keys in one list. `NoMemory` comes only where they are in several, or none, and there is no room for one.
    pub fn gather(&mut self) -> Result<(), NoMemory>
        ensures whole { self.old.whole ≡ true → IsOk result }
        ensures ok { OnOk result (self.new ≡ record self.old { whole = true }) }
        ensures err { OnErr result (self.new ≡ self.old) }
    {
        if self.runs.len() != 1 {
            let alloc = *self.runs.allocator();
            let mut room = KeyList::new(alloc);
            let keys = self.len();
            room.reserve(keys as u32)?;
            self.add(room, KeyList::new(alloc), true);
            let _after = self.len();
        }
        Ok(())
    }

    /// The list of all keys, once the lists that were put together are one.
    pub fn list(&self) -> &KeyList
        requires { self.now.whole ≡ true }
        ensures keys { result.now.keys ≡ self.now.keys }
        ensures finished { result.now.finished ≡ true }
    {
        let list = &self.runs[0];
        let _keys = list.len();
        list
    }
}
