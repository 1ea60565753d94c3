ghost use Rattle.std.specs.Prelude.{◌≡◌, ◌≤◌, ◌++◌, ◌↔◌, None, Some, false, is_some, length, not, IfOk, IfSome, IsPermutation, IsSome, IsTrue, OnErr, OnOk, true};
ghost use Rattle.std.specs.List.Sorted.{IsStrictlyIncreasing};
ghost use Rattle.rv_judge.specs.Counting.{leaf_read};
ghost use Rattle.rv_jscan.specs.Entries.{Apart, Disjoint};
ghost use Rattle.rv_jscan.specs.Joint.{CanMake};
ghost use Rattle.rv_jscan.specs.Lanes.{HasKeys, IsLeafAt, IsOwn, LaneFits, leaf_once, narrowed_lane, no_lane, passed};
ghost use Rattle.rv_jscan.specs.Pieces.{kept_by};
ghost use Rattle.rv_jscan.specs.Steps.{HasEntries, held_entries, held_next};
ghost use Rattle.rv_reader.specs.Storing.{AreKeys};

use crate::jscan::ScanPlan;
use crate::keeping::{Admits, add_marked, add_passing};
use crate::piece::{Piece, PieceId, Sieved};
use rv_judge::Steps;
use rv_keylist::KeyList;
use rv_reader::{Chunk, Reader};
use rv_restrict::Part;
use rv_value::{Duplicate, IndexEntry, NoMemory, copy_slice};
use std::alloc::Global;
use std::marker::Model;
use std::mem;

/// Where one scan of an index stands: the cut at which its awaited leaf begins, that leaf once it was taken, and the
/// list that is being built. Its plan is lent to each call that needs it.
#[derive(Drop)]
pub struct Lane {
    place: Option<IndexEntry>,
    held: Option<Chunk>,
    building: KeyList,
}

impl Model for Lane {
    ghost use Rattle.rv_jscan.specs.Lanes.{IsLane, Laned};

    ghost Value = { Laned };

    ghost view = { λ l. record { place = l.place; held = l.held; building = l.building.keys } };

    ghost invariant = { λ l. IsLane l.held l.building };
}

/// A copy of the piece of a leaf.
fn piece_of(alloc: Global, leaf: &Chunk, plan: &ScanPlan, id: PieceId) -> Result<Piece, NoMemory>
    requires short { length leaf.now.entries ≤ 48 }
    requires keys { HasKeys plan.now leaf.now }
    ensures { IfOk result (λ p. p ≡ record { id = id; entries = leaf.now.entries; part = plan.now.part }) }
{
    let entries = copy_slice(alloc, leaf.entries.as_slice())?;
    let part = plan.part.copy(alloc)?;
    Ok(Piece::make(id, entries, part))
}

fn next_of(held: Option<Chunk>) -> Option<IndexEntry>
    ensures { result ≡ held_next held }
{
    match held {
        Some(chunk) => {
            let Chunk { entries: _, next } = chunk;
            next
        }
        None => None,
    }
}

/// Adds the rows of the entries of a leaf that a part passes and the test admits.
fn add_leaf<T: Admits>(
    building: &mut KeyList,
    leaf: &Option<Chunk>,
    part: &Part,
    test: &T,
) -> Result<(), NoMemory>
    requires open { building.old.finished ≡ false }
    requires ready { T.ready test.now }
    requires some { IsSome leaf.now }
    requires short { IfSome leaf.now (λ h. length h.entries ≤ 48) }
    requires keys { IfSome leaf.now (λ h. AreKeys (length part.now.columns) h.entries) }
    requires apart { IfSome leaf.now (λ h. Apart h.entries) }
    requires fresh { IfSome leaf.now (λ h. Disjoint building.old.keys h.entries) }
    ensures ok { OnOk result (building.new.keys ≡ building.old.keys ++ kept_by (T.admits test.now) part.now (held_entries leaf.now)) }
    ensures err { OnErr result (building.new.keys ≡ building.old.keys) }
    ensures open { building.new.finished ≡ false }
{
    match leaf {
        Some(leaf) => add_passing(building, leaf.entries.as_slice(), part, test),
        None => unreachable!(),
    }
}

fn finished(building: KeyList) -> KeyList
    ensures keys { IsPermutation building.keys result.keys }
    ensures ascends { IsStrictlyIncreasing result.keys }
    ensures finished { result.finished ≡ true }
{
    let mut list = building;
    list.finish();
    list
}

impl Lane {
    /// A scan that has read nothing. It takes no memory.
    pub fn new(alloc: Global) -> Lane
        ensures { result ≡ no_lane }
    {
        Lane {
            place: None,
            held: None,
            building: KeyList::new(alloc),
        }
    }

    /// Goes back to where it has read nothing. It takes no memory.
    pub fn renew(&mut self)
        ensures { self.new ≡ no_lane }
    {
        self.place = None;
        self.held = None;
        self.building.renew();
    }

    /// Whether the awaited leaf is held.
    pub fn is_held(&self) -> bool
        ensures { result ≡ is_some self.now.held }
    {
        self.held.is_some()
    }

    /// Whether no cut follows the leaf that is held, so that its piece is the last of the scan.
    pub fn is_last(&self) -> bool
        ensures { is_some (held_next self.now.held) ≡ not result }
    {
        match &self.held {
            Some(held) => held.next.is_none(),
            None => true,
        }
    }

    /// The list that is being built, which is not finished.
    pub fn building(&self) -> &KeyList
        ensures keys { result.now.keys ≡ self.now.building }
        ensures unfinished { result.now.finished ≡ false }
    {
        &self.building
    }

    /// The leaf at its place.
    fn leaf<R: Reader>(
        &self,
        alloc: Global,
        reader: &R,
        plan: &ScanPlan,
        snap: u64,
        steps: &mut Steps<R::Ledger>,
    ) -> Result<Chunk, NoMemory>
        requires { CanMake plan.now (R.shown reader.now) snap }
        ensures leaf { IfOk result (IsLeafAt plan.now (R.shown reader.now) snap self.now.place) }
        ensures reads { steps.new ≡ leaf_read steps.old }
    {
        reader.chunk(
            alloc,
            plan.index,
            snap,
            self.place.as_ref(),
            &plan.range,
            steps,
        )
    }

    #[inline(always)]
    fn hold(&mut self, held: Chunk)
        requires short { length held.entries ≤ 48 }
        requires apart { Apart held.entries }
        requires fresh { Disjoint self.old.building held.entries }
        ensures { self.new ≡ record self.old { held = Some held } }
    {
        self.held = Some(held);
    }

    /// Reads the awaited leaf and copies its piece. The leaf is held once the copy is made, so without one the piece is
    /// not taken.
    fn read<R: Reader>(
        &mut self,
        alloc: Global,
        reader: &R,
        plan: &ScanPlan,
        snap: u64,
        id: PieceId,
        steps: &mut Steps<R::Ledger>,
    ) -> Result<Piece, NoMemory>
        requires can { CanMake plan.now (R.shown reader.now) snap }
        requires fits { LaneFits plan.now (R.shown reader.now) snap self.old }
        ensures same { self.new ≡ record self.old { held = self.new.held } }
        ensures taken { IfOk result (IsOwn plan.now id self.new) }
        ensures err { OnErr result (self.new ≡ self.old) }
        ensures fits { LaneFits plan.now (R.shown reader.now) snap self.new }
        ensures reads { steps.new ≡ leaf_read steps.old }
    {
        let held = self.leaf(alloc, reader, plan, snap, steps)?;
        let piece = piece_of(alloc, &held, plan, id)?;
        self.hold(held);
        Ok(piece)
    }

    /// Reads the awaited leaf, where it is not held, and holds it. `NoMemory` leaves all as it was.
    #[inline(always)]
    pub fn reach<R: Reader>(
        &mut self,
        alloc: Global,
        reader: &R,
        plan: &ScanPlan,
        snap: u64,
        steps: &mut Steps<R::Ledger>,
    ) -> Result<(), NoMemory>
        requires can { CanMake plan.now (R.shown reader.now) snap }
        requires fits { LaneFits plan.now (R.shown reader.now) snap self.old }
        ensures same { self.new ≡ record self.old { held = self.new.held } }
        ensures held { is_some self.old.held ≡ true → self.new ≡ self.old }
        ensures some { OnOk result (IsSome self.new.held) }
        ensures err { OnErr result (self.new ≡ self.old) }
        ensures fits { LaneFits plan.now (R.shown reader.now) snap self.new }
        ensures reads { steps.new ≡ leaf_once self.old steps.old }
    {
        if self.held.is_some() {
            return Ok(());
        }
        let held = self.leaf(alloc, reader, plan, snap, steps)?;
        self.hold(held);
        Ok(())
    }

    fn copy_held(&self, alloc: Global, plan: &ScanPlan, id: PieceId) -> Result<Piece, NoMemory>
        requires held { IsSome self.now.held }
        requires keys { IfSome self.now.held (HasKeys plan.now) }
        ensures { IfOk result (IsOwn plan.now id self.now) }
    {
        match &self.held {
            Some(held) => piece_of(alloc, held, plan, id),
            None => unreachable!(),
        }
    }

    /// A copy of the awaited piece, under the name `id`. The leaf is read where it is not held. `NoMemory` leaves all as
    /// it was.
    pub fn take<R: Reader>(
        &mut self,
        alloc: Global,
        reader: &R,
        plan: &ScanPlan,
        snap: u64,
        id: PieceId,
        steps: &mut Steps<R::Ledger>,
    ) -> Result<Piece, NoMemory>
        requires can { CanMake plan.now (R.shown reader.now) snap }
        requires fits { LaneFits plan.now (R.shown reader.now) snap self.old }
        ensures same { self.new ≡ record self.old { held = self.new.held } }
        ensures held { is_some self.old.held ≡ true → self.new ≡ self.old }
        ensures taken { IfOk result (IsOwn plan.now id self.new) }
        ensures err { OnErr result (self.new ≡ self.old) }
        ensures fits { LaneFits plan.now (R.shown reader.now) snap self.new }
        ensures reads { steps.new ≡ leaf_once self.old steps.old }
    {
        if self.is_held() {
            return self.copy_held(alloc, plan, id);
        }
        self.read(alloc, reader, plan, snap, id, steps)
    }

    /// Whether the piece is the leaf that is held, under this name and with the plan's part.
    pub fn awaits(&self, plan: &ScanPlan, id: PieceId, sieved: &Sieved) -> bool
        ensures { IsTrue result ↔ IsOwn plan.now id self.now sieved.now }
    {
        match &self.held {
            Some(held) => sieved.is(id, held.entries.as_slice(), &plan.part),
            None => false,
        }
    }

    /// Adds the rows of a piece's marked entries that the test admits, and lets the leaf go; the cut that follows it.
    fn add_kept<T: Admits>(
        &mut self,
        sieved: &Sieved,
        test: &T,
    ) -> Result<Option<IndexEntry>, NoMemory>
        requires own { HasEntries self.old.held sieved.now.entries }
        requires ready { T.ready test.now }
        ensures next { IfOk result (λ next. next ≡ held_next self.old.held) }
        ensures ok { OnOk result (self.new ≡ record self.old { building = self.old.building ++ kept_by (T.admits test.now) sieved.now.part sieved.now.entries; held = None }) }
        ensures err { OnErr result (self.new ≡ self.old) }
    {
        add_marked(&mut self.building, sieved, test)?;
        Ok(next_of(self.held.take()))
    }

    /// The number of entries of the leaf that is held.
    pub fn held_len(&self) -> u64
        ensures { result ≡ length (held_entries self.now.held) }
    {
        match &self.held {
            Some(held) => held.entries.len() as u64,
            None => 0,
        }
    }

    /// Adds the rows of the entries of the leaf that is held which a part passes and the test admits, and lets the leaf go;
    /// the cut that follows it.
    fn add_held<T: Admits>(&mut self, part: &Part, test: &T) -> Result<Option<IndexEntry>, NoMemory>
        requires held { IsSome self.old.held }
        requires keys { IfSome self.old.held (λ h. AreKeys (length part.now.columns) h.entries) }
        requires ready { T.ready test.now }
        ensures next { IfOk result (λ next. next ≡ held_next self.old.held) }
        ensures ok { OnOk result (self.new ≡ record self.old { building = self.old.building ++ kept_by (T.admits test.now) part.now (held_entries self.old.held); held = None }) }
        ensures err { OnErr result (self.new ≡ self.old) }
    {
        add_leaf(&mut self.building, &self.held, part, test)?;
        Ok(next_of(self.held.take()))
    }

    /// Goes to the cut that follows; true where none does.
    #[inline(always)]
    fn go(&mut self, next: Option<IndexEntry>) -> bool
        ensures place { self.new ≡ record self.old { place = next } }
        ensures last { is_some next ≡ not result }
    {
        let last = next.is_none();
        self.place = next;
        last
    }

    /// Takes up the piece of the leaf that is held: the rows of its marked entries that the test admits go into the list,
    /// and the scan goes on to the following cut. True where there is none, so that the scan is over. `NoMemory` leaves
    /// all as it was.
    pub fn accept<T: Admits>(&mut self, sieved: &Sieved, test: &T) -> Result<bool, NoMemory>
        requires own { HasEntries self.old.held sieved.now.entries }
        requires ready { T.ready test.now }
        ensures last { IfOk result (λ last. is_some (held_next self.old.held) ≡ not last) }
        ensures ok { OnOk result (self.new ≡ passed (T.admits test.now) sieved.now self.old) }
        ensures err { OnErr result (self.new ≡ self.old) }
    {
        let next = self.add_kept(sieved, test)?;
        Ok(self.go(next))
    }

    /// Takes up the leaf that is held, as `accept` takes up its piece once it is sieved by this part, but without a copy.
    /// `NoMemory` leaves all as it was.
    #[inline(always)]
    pub fn pass<T: Admits>(&mut self, part: &Part, test: &T) -> Result<bool, NoMemory>
        requires held { IsSome self.old.held }
        requires keys { IfSome self.old.held (λ h. AreKeys (length part.now.columns) h.entries) }
        requires ready { T.ready test.now }
        ensures last { IfOk result (λ last. is_some (held_next self.old.held) ≡ not last) }
        ensures ok { OnOk result (self.new ≡ record { place = held_next self.old.held; held = None; building = self.old.building ++ kept_by (T.admits test.now) part.now (held_entries self.old.held) }) }
        ensures err { OnErr result (self.new ≡ self.old) }
    {
        let next = self.add_held(part, test)?;
        Ok(self.go(next))
    }

    /// Of the rows kept only those stay that a finished list may have. It takes no memory.
    pub fn narrow(&mut self, list: &KeyList)
        requires { list.now.finished ≡ true }
        ensures { self.new ≡ narrowed_lane list.now.keys self.old }
    {
        self.building.narrow(list);
    }

    /// The list that was built, in ascending order. It takes no memory.
    pub fn into_list(self) -> KeyList
        ensures keys { IsPermutation self.building result.keys }
        ensures ascends { IsStrictlyIncreasing result.keys }
        ensures finished { result.finished ≡ true }
    {
        let Lane {
            place: _,
            held: _,
            building,
        } = self;
        finished(building)
    }

    /// The list that was built, in ascending order, after which it has read nothing. It takes no memory.
    pub fn take_list(&mut self, alloc: Global) -> KeyList
        ensures keys { IsPermutation self.old.building result.keys }
        ensures ascends { IsStrictlyIncreasing result.keys }
        ensures finished { result.finished ≡ true }
        ensures anew { self.new ≡ no_lane }
    {
        self.place = None;
        self.held = None;
        self.building.finish();
        mem::replace(&mut self.building, KeyList::new(alloc))
    }
}
