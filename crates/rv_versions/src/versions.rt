ghost use Rattle.std.specs.Prelude.{◌≡◌, ◌==◌, ℕ, ◌+◌, ◌<◌, ◌≤◌, List, [], length, max, slice_index_or, IfErr, IfSome, IfNone, OnOk, Some, vec_capacity};
ghost use Rattle.std.specs.Option.{option_copied};
ghost use Rattle.rv_versions.specs.Chains.{value_of, versions_to, AllBelow, AllChainsBelow, IsPut, IsFilled};

use crate::chain::Chain;
use std::alloc::Global;
use std::marker::Model;

/// For each id the versions of its value, ascending by commit. The value at a snapshot is that of the last
/// version not above it.
///
/// Ids are meant to be dense: there is a place for every id up to the greatest that was written.
#[derive(Drop)]
pub struct Versions<T: Drop> {
    alloc: Global,
    chains: Vec<Chain<T>>,
}

impl<T: Drop> Model for Versions<T> {
    ghost use Rattle.std.specs.Prelude.{List};
    ghost use Rattle.rv_versions.specs.declared.chain.Version.{Version};

    ghost Value = { List (List (Version T)) };

    ghost view = { λ v. v.chains.items };
}

impl<T: Drop> Versions<T> {
    /// No version of any id. It takes no memory.
    pub fn new(alloc: Global) -> Versions<T>
        ensures { result ≡ [] }
    {
        Versions {
            alloc,
            chains: Vec::new(alloc),
        }
    }

    /// The number of places: the greatest id that was ever written, plus one, or 0.
    pub fn len(&self) -> usize
        ensures { result ≡ length self.now }
    {
        self.chains.len()
    }

    /// Whether no id was ever written.
    pub fn is_empty(&self) -> bool
        ensures { result ≡ (length self.now == 0) }
    {
        self.chains.is_empty()
    }

    /// The value of an id at a snapshot; None exactly where it has no version at or below it. The version is
    /// found by binary search, and takes no memory.
    pub fn read(&self, id: u32, snap: u64) -> Option<&T>
        ensures { option_copied result ≡ value_of self.now id snap }
    {
        let id = id as usize;
        if id < self.chains.len() {
            self.chains[id].read(snap)
        } else {
            None
        }
    }

    /// Adds a version of an id, or replaces that of the same commit; no version is above the commit. Where
    /// memory is wanted the value comes back, and all is as before.
    pub fn write(&mut self, id: u32, commit: u64, value: T) -> Result<(), T>
        requires { AllChainsBelow (commit + 1) self.old }
        ensures len { OnOk result (length self.new ≡ max (length self.old) (id + 1)) }
        ensures ok { OnOk result (IsPut T id commit value self.old self.new) }
        ensures below { AllChainsBelow (commit + 1) self.new }
        ensures err { IfErr result (λ back. (back ≡ value) × (self.new ≡ self.old)) }
    {
        if (id as usize) < self.len() {
            self.put(id, commit, value)
        } else {
            self.add(id, commit, value)
        }
    }

    /// A version of an id that has a place.
    fn put(&mut self, id: u32, commit: u64, value: T) -> Result<(), T>
        requires there { id < length self.old }
        requires below { AllChainsBelow (commit + 1) self.old }
        ensures len { length self.new ≡ length self.old }
        ensures ok { OnOk result (IsPut T id commit value self.old self.new) }
        ensures below { AllChainsBelow (commit + 1) self.new }
        ensures err { IfErr result (λ back. (back ≡ value) × (self.new ≡ self.old)) }
    {
        self.chains[id as usize].write(commit, value)
    }

    /// The first version of an id that has no place yet.
    fn add(&mut self, id: u32, commit: u64, value: T) -> Result<(), T>
        requires there { length self.old ≤ id }
        requires below { AllChainsBelow (commit + 1) self.old }
        ensures len { OnOk result (length self.new ≡ id + 1) }
        ensures ok { OnOk result (IsPut T id commit value self.old self.new) }
        ensures below { AllChainsBelow (commit + 1) self.new }
        ensures err { IfErr result (λ back. (back ≡ value) × (self.new ≡ self.old)) }
    {
        let id = id as usize;
        if self.chains.reserve(id - self.chains.len() + 1).is_err() {
            return Err(value);
        }
        let Ok(mut chain) = Chain::with_room(self.alloc) else {
            return Err(value);
        };
        chain.write(commit, value)?;
        fill(self.alloc, &mut self.chains, id);
        match self.chains.push(chain) {
            Ok(()) => Ok(()),
            Err(_) => unreachable!(),
        }
    }

    /// Takes the version of a commit out of an id, so that its value can be changed and written again; no version is
    /// above the commit. None, and nothing changes, where the id has none of this commit. It takes no memory.
    pub fn take(&mut self, id: u32, commit: u64) -> Option<T>
        requires { AllChainsBelow (commit + 1) self.old }
        ensures some { IfSome result (λ value. value_of self.old id commit ≡ Some value) }
        ensures none { IfNone result (self.new ≡ self.old) }
        ensures len { length self.new ≡ length self.old }
        ensures same { (other snap : ℕ) → snap < commit → value_of self.new other snap ≡ value_of self.old other snap }
        ensures others { (other : ℕ) → (other ≡ id → ⊥) → slice_index_or self.new other [] ≡ slice_index_or self.old other [] }
        ensures gone { AllBelow commit (slice_index_or self.new id []) }
        ensures below { AllChainsBelow (commit + 1) self.new }
    {
        let id = id as usize;
        if id < self.chains.len() {
            self.chains[id].take(commit)
        } else {
            None
        }
    }

    /// Takes the versions of a commit away, above which there is none. It takes no memory.
    pub fn abandon(&mut self, commit: u64)
        requires { AllChainsBelow (commit + 1) self.old }
        ensures len { length self.new ≡ length self.old }
        ensures same { (id snap : ℕ) → snap < commit → value_of self.new id snap ≡ value_of self.old id snap }
        ensures below { AllChainsBelow commit self.new }
    {
        'chains: for id in 0..self.chains.len() {
            self.chains[id].abandon(commit);
        }
    }

    /// Takes the versions of an id away that no snapshot from the horizon on reads. It takes no memory.
    pub fn purge(&mut self, id: u32, horizon: u64)
        ensures len { length self.new ≡ length self.old }
        ensures same { (other snap : ℕ) → horizon ≤ snap → value_of self.new other snap ≡ value_of self.old other snap }
        ensures below { (high : ℕ) → AllChainsBelow high self.old → AllChainsBelow high self.new }
        ensures one { versions_to horizon (slice_index_or self.new id []) ≤ 1 }
    {
        let id = id as usize;
        if id < self.chains.len() {
            self.chains[id].purge(horizon);
        }
    }
}

/// Adds places without a version until there are so many.
fn fill<T: Drop>(alloc: Global, chains: &mut Vec<Chain<T>>, len: usize)
    requires low { length chains.old.items ≤ len }
    requires room { len ≤ vec_capacity chains.old }
    ensures len { length chains.new.items ≡ len }
    ensures same { IsFilled chains.old.items chains.new.items }
    ensures capacity { vec_capacity chains.old ≤ vec_capacity chains.new }
{
    'fill: while chains.len() < len {
        match chains.push(Chain::new(alloc)) {
            Ok(()) => {}
            Err(_) => unreachable!(),
        }
    }
}
