ghost use Rattle.std.specs.Prelude.{◌≡◌, ℕ, ◌+◌, ◌<◌, ◌≤◌, [], Some, drop, length, IfErr, IfOk, IfSome, IfNone, OnOk};
ghost use Rattle.std.specs.Option.{option_copied};
ghost use Rattle.rv_versions.specs.Chains.{value_at, AscendFrom, AllBelow, IsWritten, versions_to};

use std::alloc::{AllocError, Global};
use std::marker::Model;

/// A value, and the commit that gave it.
#[derive(Drop)]
pub struct Version<T: Drop> {
    pub commit: u64,
    pub value: T,
}

/// The versions of one value, ascending by commit, at most one for each commit.
#[derive(Drop)]
pub struct Chain<T: Drop> {
    versions: Vec<Version<T>>,
}

impl<T: Drop> Model for Chain<T> {
    ghost use Rattle.std.specs.Prelude.{List};
    ghost use Rattle.rv_versions.specs.declared.chain.Version.{Version};
    ghost use Rattle.rv_versions.specs.Chains.{AscendFrom};

    ghost Value = { List (Version T) };

    ghost view = { λ c. c.versions.items };

    ghost invariant = { λ c. AscendFrom 0 c.versions.items };
}

impl<T: Drop> Chain<T> {
    /// No version. It takes no memory.
    pub fn new(alloc: Global) -> Chain<T>
        ensures { result ≡ [] }
    {
        Chain {
            versions: Vec::new(alloc),
        }
    }

    /// No version, with room for one and no more, since most values have one.
    pub fn with_room(alloc: Global) -> Result<Chain<T>, AllocError>
        ensures { IfOk result (λ chain. chain ≡ []) }
    {
        Ok(Chain {
            versions: Vec::with_capacity(alloc, 1)?,
        })
    }

    /// The value at a snapshot; None exactly where no version is at or below it.
    #[tactic(auto, using(crate::proofs::Values::read_steps))]
    pub fn read(&self, snap: u64) -> Option<&T>
        ensures { option_copied result ≡ value_at self.now snap }
    {
        let count = count_to(self.versions.as_slice(), snap);
        if count == 0 {
            return None;
        }
        Some(&self.versions[count - 1].value)
    }

    /// Adds a version, or replaces the one of the same commit. Where memory is wanted the value comes back.
    #[tactic(auto, using(crate::proofs::Values::chain_steps))]
    pub fn write(&mut self, commit: u64, value: T) -> Result<(), T>
        requires { AllBelow (commit + 1) self.old }
        ensures ok { OnOk result (IsWritten commit value self.old self.new) }
        ensures below { AllBelow (commit + 1) self.new }
        ensures err { IfErr result (λ back. (back ≡ value) × (self.new ≡ self.old)) }
    {
        let len = self.versions.len();
        if 0 < len && self.versions[len - 1].commit == commit {
            self.versions[len - 1] = Version { commit, value };
            return Ok(());
        }
        match self.versions.push(Version { commit, value }) {
            Ok(()) => Ok(()),
            Err(failed) => Err(failed.value.value),
        }
    }

    /// Takes the version of a commit out, above which there is none; None, and nothing changes, where there is none of
    /// this commit.
    #[tactic(auto, using(crate::proofs::Values::chain_steps))]
    pub fn take(&mut self, commit: u64) -> Option<T>
        requires { AllBelow (commit + 1) self.old }
        ensures some { IfSome result (λ value. value_at self.old commit ≡ Some value) }
        ensures none { IfNone result (self.new ≡ self.old) }
        ensures same { (snap : ℕ) → snap < commit → value_at self.new snap ≡ value_at self.old snap }
        ensures below { AllBelow commit self.new }
    {
        let len = self.versions.len();
        if len == 0 || self.versions[len - 1].commit != commit {
            return None;
        }
        match self.versions.pop() {
            Some(version) => Some(version.value),
            None => None,
        }
    }

    /// Takes the version of a commit away, above which there is none.
    #[tactic(auto, using(crate::proofs::Values::chain_steps))]
    pub fn abandon(&mut self, commit: u64)
        requires { AllBelow (commit + 1) self.old }
        ensures same { (snap : ℕ) → snap < commit → value_at self.new snap ≡ value_at self.old snap }
        ensures below { AllBelow commit self.new }
    {
        let len = self.versions.len();
        if 0 < len && self.versions[len - 1].commit == commit {
            self.versions.truncate(len - 1);
        }
    }

    /// Takes the versions away that no snapshot from the horizon on reads.
    #[tactic(auto, using(crate::proofs::Values::purge_steps))]
    pub fn purge(&mut self, horizon: u64)
        ensures same { (snap : ℕ) → horizon ≤ snap → value_at self.new snap ≡ value_at self.old snap }
        ensures below { (high : ℕ) → AllBelow high self.old → AllBelow high self.new }
        ensures one { versions_to horizon self.new ≤ 1 }
    {
        let count = count_to(self.versions.as_slice(), horizon);
        if 2 <= count {
            drop_first(&mut self.versions, count - 1);
        }
    }
}

/// How many versions are at or below a snapshot, by binary search.
fn count_to<T: Drop>(versions: &[Version<T>], snap: u64) -> usize
    requires { AscendFrom 0 versions.now }
    ensures count { result ≡ versions_to snap versions.now }
    ensures within { result ≤ length versions.now }
{
    versions.partition_point(|version| version.commit <= snap)
}

/// Takes the first versions away.
fn drop_first<T: Drop>(versions: &mut Vec<Version<T>>, count: usize)
    requires { count ≤ length versions.old.items }
    ensures { versions.new.items ≡ drop count versions.old.items }
{
    versions.drain(..count);
}
