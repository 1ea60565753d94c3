ghost use Rattle.std.specs.Prelude.{◌≡◌, ◌<◌, ◌+◌, [], drop, length, true, IfOk, IfSome, OnErr};
ghost use Rattle.std.specs.List.{slice_index_or};
ghost use Rattle.rv_value.specs.declared.record.IndexEntry.{IndexEntry as OneEntry};
ghost use Rattle.rv_judge.specs.Counting.{leaf_read};
ghost use Rattle.rv_reader.specs.Shown.{CanScan, Suits};
ghost use Rattle.rv_scan.specs.Alongs.{FindsGiven, LeafReads, Leafs, ahead_of, is_given};
ghost use Rattle.rv_scan.specs.Due.{IsReady, skipped};
ghost use Rattle.rv_scan.specs.declared.along.Ahead.TheVariants.{First};

use crate::skip::Skip;
use rv_judge::Steps;
use rv_reader::Reader;
use rv_value::{IndexEntry, NoMemory, Range};
use std::alloc::Global;
use std::marker::Model;

/// The leaf that is read next: the first one of the range, one that begins at a cut, or none.
#[derive(Drop)]
pub enum Ahead {
    First,
    From(IndexEntry),
    Nothing,
}

fn behind(next: Option<IndexEntry>) -> Ahead
    ensures { result ≡ ahead_of next }
{
    match next {
        None => Ahead::Nothing,
        Some(cut) => Ahead::From(cut),
    }
}

/// A walk along a range of an index, leaf by leaf.
#[derive(Drop)]
pub struct Walk {
    alloc: Global,
    index: u32,
    snap: u64,
    range: Range,
    ahead: Ahead,
    held: Vec<IndexEntry>,
    at: usize,
}

impl Model for Walk {
    ghost use Rattle.std.specs.Prelude.{drop, length, ◌≤◌};
    ghost use Rattle.rv_scan.specs.Alongs.{Along};

    ghost Value = { Along };

    ghost view = { λ s. record { index = s.index; snap = s.snap; range = s.range; ahead = s.ahead; held = drop s.at s.held.items } };

    ghost invariant = { λ s. s.at ≤ length s.held.items };
}

impl Walk {
    /// A walk before its first leaf. It reads nothing and takes no memory.
    pub fn new(alloc: Global, index: u32, snap: u64, range: Range) -> Walk
        ensures { result ≡ record { index = index; snap = snap; range = range; ahead = First; held = [] } }
    {
        Walk {
            alloc,
            index,
            snap,
            range,
            ahead: Ahead::First,
            held: Vec::new(alloc),
            at: 0,
        }
    }

    /// Goes back to before the first leaf of a range. It reads nothing and takes no memory.
    #[inline(always)]
    pub fn renew(&mut self, index: u32, snap: u64, range: Range)
        ensures { self.new ≡ record { index = index; snap = snap; range = range; ahead = First; held = [] } }
    {
        self.index = index;
        self.snap = snap;
        self.range = range;
        self.ahead = Ahead::First;
        self.held.clear();
        self.at = 0;
    }

    /// The allocator that it keeps.
    pub fn allocator(&self) -> Global {
        self.alloc
    }

    /// The snapshot that it reads.
    pub fn snap(&self) -> u64
        ensures { result ≡ self.now.snap }
    {
        self.snap
    }

    /// What is left of the leaf that is held.
    pub fn held(&self) -> &[IndexEntry]
        ensures { result.now ≡ self.now.held }
    {
        self.held.as_slice().split_at(self.at).1
    }

    /// Passes over an entry behind so many others.
    pub fn pass(&mut self, passed: usize)
        requires { passed < length self.old.held }
        ensures { self.new ≡ record self.old { held = drop (passed + 1) self.old.held } }
    {
        let place = self.at + passed;
        self.at = place + 1;
    }

    /// Reads the next leaf; false where there is none.
    pub fn turn<R: Reader>(
        &mut self,
        reader: &R,
        steps: &mut Steps<R::Ledger>,
    ) -> Result<bool, NoMemory>
        requires can { CanScan (R.shown reader.now) self.old.index self.old.snap }
        requires suits { Suits (R.shown reader.now) self.old.index self.old.snap self.old.range }
        ensures turned { IfOk result (λ more. Leafs more self.old self.new ((R.shown reader.now).entries self.old.index self.old.snap) ((R.shown reader.now).cuts self.old.index self.old.snap)) }
        ensures reads { IfOk result (λ more. LeafReads more steps.old steps.new) }
        ensures err { OnErr result (self.new ≡ self.old) }
        ensures tried { OnErr result (steps.new ≡ leaf_read steps.old) }
        ensures same { (steps.new.pages ≡ steps.old.pages) × (steps.new.records ≡ steps.old.records) }
    {
        let from = match &self.ahead {
            Ahead::Nothing => return Ok(false),
            Ahead::First => None,
            Ahead::From(cut) => Some(cut),
        };
        let chunk = reader.chunk(self.alloc, self.index, self.snap, from, &self.range, steps)?;
        let _before = std::mem::replace(&mut self.held, chunk.entries.into_vec());
        drop(std::mem::replace(&mut self.ahead, behind(chunk.next)));
        self.at = 0;
        Ok(true)
    }
}

/// The place of the first entry whose row is not skipped.
pub fn next_given(entries: &[IndexEntry], skip: &Skip<'_>) -> Option<usize>
    requires { IsReady (skipped skip.now) }
    ensures found { FindsGiven (skipped skip.now) entries.now result }
    ensures given { IfSome result (λ at. (d : OneEntry) → is_given (skipped skip.now) (slice_index_or entries.now at d) ≡ true) }
{
    'entries: for at in 0..entries.len() {
        if !skip.skips(entries[at].row) {
            return Some(at);
        }
    }
    None
}
