ghost use Rattle.std.specs.Prelude.{◌≡◌, ℕ, ◌+◌, ◌<◌, ◌≤◌, ◌++◌, ◌↔◌, [], true, false, not, length, is_some, slice_set, Some, None, IfOk, IfSome, IsSome, IsTrue, IsPermutation, OnOk, OnErr};
ghost use Rattle.std.specs.Option.{option_copied};
ghost use Rattle.std.specs.List.Sorted.{IsStrictlyIncreasing};
ghost use Rattle.rv_judge.specs.Counting.{one_more};
ghost use Rattle.rv_reader.specs.Shown.{Shown};
ghost use Rattle.rv_jscan.specs.Entries.{Apart};
ghost use Rattle.rv_jscan.specs.Joint.{CanMake, CanTake, Covers, JointFits, counts_at, keys_of, leaves_ahead, plan_at, present, under_way};
ghost use Rattle.rv_jscan.specs.Lanes.{HasKeys, IsOwn, LaneFits, lane_of, leaf_once};
ghost use Rattle.rv_jscan.specs.Steps.{Accepts, Awaits, Gives, Nearer, TakeLeaves, Takes, Works, abandoned, awaited_id, begun, counts_read, held_entries, held_next, kept_of, next_id, one_leaf, piece_counted, steps_read};

use crate::keeping::Within;
use crate::lane::Lane;
use crate::piece::{Piece, PieceId, Sieved};
use rv_judge::Steps;
use rv_keylist::KeyList;
use rv_reader::Reader;
use rv_restrict::Part;
use rv_value::{NoMemory, Range};
use std::alloc::Global;
use std::marker::Model;
use std::mem;

/// A planned scan of an index in a range.
#[derive(Drop)]
pub struct ScanPlan {
    pub index: u32,
    pub range: Range,
    /// What of the restriction the index can test.
    pub part: Part,
    /// About how many entries are in the range.
    pub estimate: u64,
}

/// What a scan did so far.
#[derive(Clone, Copy, PartialEq, Eq)]
pub struct ScanCounts {
    /// Entries of the accepted pieces.
    pub scanned: u64,
    /// Rows put into the scan's list.
    pub kept: u64,
    /// Leaves read.
    pub leaves: u64,
    /// Whether it completed.
    pub listed: bool,
}

/// What `take` answers.
#[derive(Drop)]
pub enum Taken {
    /// A copy of the awaited piece.
    Piece(Piece),
    /// No scan is under way.
    Nothing,
}

/// What `give` answers.
#[derive(Clone, Copy, PartialEq, Eq)]
pub enum Given {
    /// It was the awaited piece, and its rows are added.
    Accepted,
    /// It was another one, and nothing changed.
    Stale {
        /// The piece that was given.
        asked: PieceId,
        /// The piece that is awaited.
        now: Option<PieceId>,
    },
}

/// A joint scan: planned scans one after another, of which each builds a list of the rows that pass and that the list
/// before it may have.
#[derive(Drop)]
pub struct Jscan {
    alloc: Global,
    table: u32,
    snap: u64,
    cursor: u64,
    opening: u64,
    plans: Vec<ScanPlan>,
    counts: [ScanCounts; 8],
    ended: u32,
    number: u64,
    lane: Lane,
    list: Option<KeyList>,
}

impl Model for Jscan {
    ghost use Rattle.rv_jscan.specs.Joint.{Joint, Whole, keys_of};

    ghost Value = { Joint };

    ghost view = { λ s. record { table = s.table; snap = s.snap; cursor = s.cursor; opening = s.opening; plans = s.plans.items; counts = s.counts; ended = s.ended; number = s.number; place = s.lane.place; held = s.lane.held; building = s.lane.building; list = keys_of s.list } };

    ghost invariant = { λ s. Whole s.plans.items s.ended s.list };
}

/// The planned scan in a place.
fn plan_in(plans: &Vec<ScanPlan>, at: u32) -> &ScanPlan
    requires { at < length plans.now.items }
    ensures { result.now ≡ plan_at plans.now.items at }
{
    &plans[at as usize]
}

impl Jscan {
    /// A joint scan of at most 8 indexes that has read nothing. It takes no memory.
    pub fn new(
        alloc: Global,
        table: u32,
        snap: u64,
        scans: Vec<ScanPlan>,
        cursor: u64,
        opening: u64,
    ) -> Jscan
        requires { length scans.items ≤ 8 }
        ensures begun { result ≡ begun table snap scans.items cursor opening }
        ensures fits { (shown : Shown) → ((i : ℕ) → i < length scans.items → Apart (shown.entries (plan_at scans.items i).index snap)) → JointFits result shown }
    {
        let none = ScanCounts {
            scanned: 0,
            kept: 0,
            leaves: 0,
            listed: false,
        };
        Jscan {
            alloc,
            table,
            snap,
            cursor,
            opening,
            plans: scans,
            counts: [none; 8],
            ended: 0,
            number: 1,
            lane: Lane::new(alloc),
            list: None,
        }
    }

    /// Takes the planned scans out, for their memory: it has none then, as one of no scans.
    pub fn take_plans(&mut self) -> Vec<ScanPlan>
        ensures plans { result.items ≡ self.old.plans }
        ensures over { self.new ≡ record self.old { ended = 0; plans = [] } }
    {
        self.ended = 0;
        mem::replace(&mut self.plans, Vec::new(self.alloc))
    }

    /// Begins anew with other scans, as one that `new` makes. It takes no memory.
    pub fn renew(&mut self, table: u32, snap: u64, scans: Vec<ScanPlan>, cursor: u64, opening: u64)
        requires { length scans.items ≤ 8 }
        ensures begun { self.new ≡ begun table snap scans.items cursor opening }
        ensures fits { (shown : Shown) → ((i : ℕ) → i < length scans.items → Apart (shown.entries (plan_at scans.items i).index snap)) → JointFits self.new shown }
    {
        let none = ScanCounts {
            scanned: 0,
            kept: 0,
            leaves: 0,
            listed: false,
        };
        self.plans = scans;
        self.list = None;
        self.lane.renew();
        self.table = table;
        self.snap = snap;
        self.cursor = cursor;
        self.opening = opening;
        self.counts = [none; 8];
        self.ended = 0;
        self.number = 1;
    }

    fn is_under_way(&self) -> bool
        ensures { result ≡ under_way self.now }
    {
        (self.ended as usize) < self.plans.len()
            && match &self.list {
                Some(list) => list.len() != 0,
                None => true,
            }
    }

    fn next_id(&self) -> PieceId
        ensures { result ≡ next_id self.now }
    {
        PieceId {
            cursor: self.cursor,
            opening: self.opening,
            number: self.number,
        }
    }

    /// The id of the awaited piece; None exactly where no scan is under way.
    pub fn awaited(&self) -> Option<PieceId>
        ensures { result ≡ awaited_id self.now }
    {
        if self.is_under_way() {
            Some(self.next_id())
        } else {
            None
        }
    }

    /// The last complete list, which is finished; None exactly where no scan has completed. It has every row that has, in
    /// the index of each scan completed so far, an entry in that scan's range whose key that scan's part passes.
    pub fn list(&self) -> Option<&KeyList>
        ensures keys { keys_of (option_copied result) ≡ self.now.list }
        ensures finished { IfSome (option_copied result) (λ l. l.finished ≡ true) }
        ensures covers { (shown : Shown) → JointFits self.now shown → IfSome (option_copied result) (λ l. Covers self.now shown l.keys) }
    {
        self.list.as_ref()
    }

    /// The list being built, which is not finished; None exactly where no scan is under way.
    pub fn building(&self) -> Option<&KeyList>
        ensures keys { under_way self.now ≡ true → keys_of (option_copied result) ≡ Some self.now.building }
        ensures none { under_way self.now ≡ false → option_copied result ≡ None }
        ensures unfinished { IfSome (option_copied result) (λ l. l.finished ≡ false) }
    {
        if self.is_under_way() {
            Some(self.lane.building())
        } else {
            None
        }
    }

    /// The number of scans completed or abandoned, which is the position of the present scan where one is under way.
    pub fn ended(&self) -> u32
        ensures { result ≡ self.now.ended }
    {
        self.ended
    }

    /// The number of planned scans.
    pub fn planned(&self) -> u32
        ensures { result ≡ length self.now.plans }
    {
        self.plans.len() as u32
    }

    /// The planned scan at a position.
    pub fn plan(&self, scan: u32) -> &ScanPlan
        requires { scan < length self.now.plans }
        ensures { result.now ≡ plan_at self.now.plans scan }
    {
        &self.plans[scan as usize]
    }

    /// The number of entries of the accepted pieces of a scan.
    pub fn scanned(&self, scan: u32) -> u64
        requires { scan < length self.now.plans }
        ensures { result ≡ (counts_at self.now.counts scan).scanned }
    {
        let _plans = &self.plans;
        self.counts[scan as usize].scanned
    }

    /// The number of rows that a scan put into its list.
    pub fn kept(&self, scan: u32) -> u64
        requires { scan < length self.now.plans }
        ensures { result ≡ (counts_at self.now.counts scan).kept }
    {
        let _plans = &self.plans;
        self.counts[scan as usize].kept
    }

    /// The number of leaves that were read for a scan.
    pub fn leaves(&self, scan: u32) -> u64
        requires { scan < length self.now.plans }
        ensures { result ≡ (counts_at self.now.counts scan).leaves }
    {
        let _plans = &self.plans;
        self.counts[scan as usize].leaves
    }
}

impl Jscan {
    fn count_leaf(&mut self)
        requires { under_way self.old ≡ true }
        ensures { self.new ≡ record self.old { counts = one_leaf self.old } }
    {
        let at = self.ended as usize;
        let _plans = &self.plans;
        self.counts[at].leaves = self.counts[at].leaves.saturating_add(1);
    }

    fn is_held(&self) -> bool
        ensures { result ≡ is_some self.now.held }
    {
        self.lane.is_held()
    }

    /// Counts the awaited leaf, where it is still to be read.
    fn count_read(&mut self)
        requires { under_way self.old ≡ true }
        ensures { self.new ≡ record self.old { counts = counts_read self.old } }
    {
        if !self.is_held() {
            self.count_leaf();
        }
    }

    /// A copy of the leaf that the present scan awaits, as the piece of an id.
    fn take_lane<R: Reader>(
        &mut self,
        id: PieceId,
        reader: &R,
        steps: &mut Steps<R::Ledger>,
    ) -> Result<Piece, NoMemory>
        requires way { under_way self.old ≡ true }
        requires can { CanMake (present self.old) (R.shown reader.now) self.old.snap }
        requires fits { LaneFits (present self.old) (R.shown reader.now) self.old.snap (lane_of self.old) }
        ensures same { self.new ≡ record self.old { held = self.new.held } }
        ensures held { is_some self.old.held ≡ true → self.new ≡ self.old }
        ensures taken { IfOk result (IsOwn (present self.old) id (lane_of self.new)) }
        ensures err { OnErr result (self.new ≡ self.old) }
        ensures fits { LaneFits (present self.old) (R.shown reader.now) self.old.snap (lane_of self.new) }
        ensures reads { steps.new ≡ leaf_once (lane_of self.old) steps.old }
    {
        let plan = plan_in(&self.plans, self.ended);
        self.lane
            .take(self.alloc, reader, plan, self.snap, id, steps)
    }

    /// A copy of the awaited piece, where a scan is under way.
    fn take_awaited<R: Reader>(
        &mut self,
        reader: &R,
        steps: &mut Steps<R::Ledger>,
    ) -> Result<Piece, NoMemory>
        requires way { under_way self.old ≡ true }
        requires can { CanTake self.old (R.shown reader.now) }
        requires fits { JointFits self.old (R.shown reader.now) }
        ensures leaves { TakeLeaves self.old self.new }
        ensures taken { IfOk result (λ p. Awaits self.new p) }
        ensures err { OnErr result (self.new ≡ record self.old { counts = counts_read self.old }) }
        ensures fits { JointFits self.new (R.shown reader.now) }
        ensures reads { steps.new ≡ steps_read self.old steps.old }
    {
        self.count_read();
        let id = self.next_id();
        self.take_lane(id, reader, steps)
    }

    /// A copy of the awaited piece; Nothing exactly where no scan is under way. The leaf is read at the first take of its
    /// piece, and again only after one that answered `NoMemory`. A piece is taken once a take has answered it: `NoMemory`
    /// leaves what was taken, and counts the leaf that was read.
    pub fn take<R: Reader>(
        &mut self,
        reader: &R,
        steps: &mut Steps<R::Ledger>,
    ) -> Result<Taken, NoMemory>
        requires can { CanTake self.old (R.shown reader.now) }
        requires fits { JointFits self.old (R.shown reader.now) }
        ensures leaves { TakeLeaves self.old self.new }
        ensures taken { IfOk result (Takes self.new) }
        ensures err { OnErr result (self.new ≡ record self.old { counts = counts_read self.old }) }
        ensures fits { JointFits self.new (R.shown reader.now) }
        ensures reads { steps.new ≡ steps_read self.old steps.old }
    {
        if !self.is_under_way() {
            return Ok(Taken::Nothing);
        }
        Ok(Taken::Piece(self.take_awaited(reader, steps)?))
    }
}

impl Jscan {
    /// Whether the piece is the leaf that the present scan holds, under this name.
    fn is_own(&self, id: PieceId, sieved: &Sieved) -> bool
        requires { under_way self.now ≡ true }
        ensures { IsTrue result ↔ IsOwn (present self.now) id (lane_of self.now) sieved.now }
    {
        self.lane
            .awaits(plan_in(&self.plans, self.ended), id, sieved)
    }

    /// Whether the piece is the awaited one, once taken.
    fn awaits(&self, sieved: &Sieved) -> bool
        ensures { IsTrue result ↔ Awaits self.now sieved.now }
    {
        if !self.is_under_way() {
            return false;
        }
        self.is_own(self.next_id(), sieved)
    }

    /// Adds what the awaited piece gives to the list being built, and goes on to the following cut; true where there is
    /// none.
    fn add_kept(&mut self, sieved: &Sieved) -> Result<bool, NoMemory>
        requires { Awaits self.old sieved.now }
        ensures last { IfOk result (λ last. is_some (held_next self.old.held) ≡ not last) }
        ensures ok { OnOk result (self.new ≡ record self.old { place = held_next self.old.held; held = None; building = self.old.building ++ kept_of self.old sieved.now.entries }) }
        ensures err { OnErr result (self.new ≡ self.old) }
    {
        let within = Within {
            list: self.list.as_ref(),
        };
        self.lane.accept(sieved, &within)
    }

    fn built(&self) -> u64
        ensures { result ≡ length self.now.building }
    {
        self.lane.building().len()
    }

    fn count(&mut self, entries: u64, kept: u64, listed: bool)
        requires { self.old.ended < length self.old.plans }
        ensures { self.new ≡ record self.old { counts = slice_set self.old.counts self.old.ended (piece_counted (counts_at self.old.counts self.old.ended) entries kept listed); number = one_more self.old.number } }
    {
        let at = self.ended as usize;
        let _plans = &self.plans;
        let count = self.counts[at];
        self.counts[at] = ScanCounts {
            scanned: count.scanned.saturating_add(entries),
            kept: count.kept.saturating_add(kept),
            leaves: count.leaves,
            listed,
        };
        self.number = self.number.saturating_add(1);
    }

    /// Makes the list being built the complete list, and begins the next scan.
    fn complete(&mut self)
        requires { self.old.ended < length self.old.plans }
        ensures keys { IfSome self.new.list (λ keys. IsPermutation self.old.building keys × IsStrictlyIncreasing keys × (self.new ≡ record self.old { ended = self.old.ended + 1; place = None; held = None; building = []; list = Some keys })) }
        ensures some { IsSome self.new.list }
    {
        let list = self.lane.take_list(self.alloc);
        self.list = Some(list);
        self.ended += 1;
    }

    fn accept(&mut self, sieved: &Sieved) -> Result<(), NoMemory>
        requires { Awaits self.old sieved.now }
        ensures ok { OnOk result (Accepts self.old self.new sieved.now.entries (held_next self.old.held)) }
        ensures err { OnErr result (self.new ≡ self.old) }
    {
        let before = self.built();
        let last = self.add_kept(sieved)?;
        let kept = self.built() - before;
        self.count(sieved.entries().len() as u64, kept, last);
        if last {
            self.complete();
        }
        Ok(())
    }

    /// Takes a sieved piece back. It is accepted exactly where the awaited piece was taken and id, entries and part are
    /// its own. `NoMemory` leaves the piece awaited, and none of its rows is added.
    pub fn give(&mut self, sieved: Sieved) -> Result<Given, NoMemory>
        ensures given { IfOk result (λ g. Gives self.old sieved g self.new) }
        ensures err { OnErr result (self.new ≡ self.old) }
        ensures fits { (shown : Shown) → JointFits self.old shown → JointFits self.new shown }
        ensures nearer { (shown : Shown) → JointFits self.old shown → IfOk result (λ g. Nearer self.old self.new g shown) }
    {
        if !self.awaits(&sieved) {
            return Ok(Given::Stale {
                asked: sieved.id(),
                now: self.awaited(),
            });
        }
        self.accept(&sieved)?;
        Ok(Given::Accepted)
    }

    /// Reads the leaf that the present scan awaits, where it is not held.
    fn reach_lane<R: Reader>(
        &mut self,
        reader: &R,
        steps: &mut Steps<R::Ledger>,
    ) -> Result<(), NoMemory>
        requires way { under_way self.old ≡ true }
        requires can { CanMake (present self.old) (R.shown reader.now) self.old.snap }
        requires fits { LaneFits (present self.old) (R.shown reader.now) self.old.snap (lane_of self.old) }
        ensures same { self.new ≡ record self.old { held = self.new.held } }
        ensures held { is_some self.old.held ≡ true → self.new ≡ self.old }
        ensures some { OnOk result (IsSome self.new.held) }
        ensures fits { LaneFits (present self.old) (R.shown reader.now) self.old.snap (lane_of self.new) }
        ensures reads { steps.new ≡ leaf_once (lane_of self.old) steps.old }
    {
        let plan = plan_in(&self.plans, self.ended);
        self.lane.reach(self.alloc, reader, plan, self.snap, steps)
    }

    /// Reads the awaited leaf, where it is not held.
    fn reach<R: Reader>(&mut self, reader: &R, steps: &mut Steps<R::Ledger>) -> Result<(), NoMemory>
        requires way { under_way self.old ≡ true }
        requires can { CanTake self.old (R.shown reader.now) }
        requires fits { JointFits self.old (R.shown reader.now) }
        ensures leaves { TakeLeaves self.old self.new }
        ensures some { OnOk result (IsSome self.new.held) }
        ensures fits { JointFits self.new (R.shown reader.now) }
        ensures reads { steps.new ≡ steps_read self.old steps.old }
    {
        self.count_read();
        self.reach_lane(reader, steps)
    }

    /// Adds what the leaf that is held gives to the list being built, and goes on to the following cut; true where there is
    /// none.
    fn add_held(&mut self) -> Result<bool, NoMemory>
        requires way { under_way self.old ≡ true }
        requires held { IsSome self.old.held }
        requires keys { IfSome self.old.held (HasKeys (present self.old)) }
        ensures last { IfOk result (λ last. is_some (held_next self.old.held) ≡ not last) }
        ensures ok { OnOk result (self.new ≡ record self.old { place = held_next self.old.held; held = None; building = self.old.building ++ kept_of self.old (held_entries self.old.held) }) }
        ensures err { OnErr result (self.new ≡ self.old) }
    {
        let within = Within {
            list: self.list.as_ref(),
        };
        let plan = plan_in(&self.plans, self.ended);
        self.lane.pass(&plan.part, &within)
    }

    fn held_len(&self) -> u64
        ensures { result ≡ length (held_entries self.now.held) }
    {
        self.lane.held_len()
    }

    /// Takes up the leaf that is held, as `accept` takes up its piece.
    fn accept_held(&mut self) -> Result<(), NoMemory>
        requires way { under_way self.old ≡ true }
        requires held { IsSome self.old.held }
        requires keys { IfSome self.old.held (HasKeys (present self.old)) }
        ensures ok { OnOk result (Accepts self.old self.new (held_entries self.old.held) (held_next self.old.held)) }
        ensures err { OnErr result (self.new ≡ self.old) }
    {
        let before = self.built();
        let entries = self.held_len();
        let last = self.add_held()?;
        let added = self.built() - before;
        self.count(entries, added, last);
        if last {
            self.complete();
        }
        Ok(())
    }

    /// Reads the awaited leaf, where it is not held, and takes it up: what a take, a sieve and a give of its piece do
    /// together, without a copy of it and of the part of the restriction. False exactly where no scan is under way.
    /// `NoMemory` leaves the leaf held, where it was read, and none of its rows is added.
    pub fn step<R: Reader>(
        &mut self,
        reader: &R,
        steps: &mut Steps<R::Ledger>,
    ) -> Result<bool, NoMemory>
        requires can { CanTake self.old (R.shown reader.now) }
        requires fits { JointFits self.old (R.shown reader.now) }
        ensures works { IfOk result (λ more. more ≡ true → Works (R.shown reader.now) self.old self.new) }
        ensures none { IfOk result (λ more. more ≡ false → (under_way self.old ≡ false) × (self.new ≡ self.old)) }
        ensures err { OnErr result (TakeLeaves self.old self.new) }
        ensures fits { JointFits self.new (R.shown reader.now) }
        ensures nearer { IfOk result (λ more. more ≡ true → leaves_ahead self.new (R.shown reader.now) < leaves_ahead self.old (R.shown reader.now)) }
        ensures reads { steps.new ≡ steps_read self.old steps.old }
    {
        if !self.is_under_way() {
            return Ok(false);
        }
        self.reach(reader, steps)?;
        self.accept_held()?;
        Ok(true)
    }

    fn drop_scan(&mut self)
        requires { under_way self.old ≡ true }
        ensures { self.new ≡ abandoned self.old }
    {
        let _plans = &self.plans;
        let _lane = mem::replace(&mut self.lane, Lane::new(self.alloc));
        self.ended += 1;
    }

    /// Ends the present scan without a list, and begins the next one, where there is one. Where no scan is under way it
    /// changes nothing.
    pub fn abandon_scan(&mut self)
        ensures way { under_way self.old ≡ true → self.new ≡ abandoned self.old }
        ensures none { under_way self.old ≡ false → self.new ≡ self.old }
        ensures fits { (shown : Shown) → JointFits self.old shown → JointFits self.new shown }
    {
        if self.is_under_way() {
            self.drop_scan();
        }
    }
}
