ghost use Rattle.std.specs.Prelude.{⊤, ◌≡◌, ◌+◌, ◌<◌, ◌≤◌, ◌++◌, ◌^◌, ℕ, List, Some, None, [], true, false, not, is_some, length, min, IfOk, IsPermutation, IsTrue, OnErr, OnOk, ◌↔◌};
ghost use Rattle.std.specs.List.Sorted.{IsStrictlyIncreasing};
ghost use Rattle.rv_judge.specs.Counting.{one_more};
ghost use Rattle.rv_judge.specs.Runs.{Allowed};
ghost use Rattle.rv_judge.specs.Tracing.{counted, noted};
ghost use Rattle.rv_jscan.specs.Joint.{CanMake, no_counts, plan_at};
ghost use Rattle.rv_jscan.specs.Lanes.{IsOwn, LaneFits, leaf_once, passed};
ghost use Rattle.rv_jscan.specs.Steps.{held_next, leaf_counted, piece_counted};
ghost use Rattle.rv_final.specs.Rest.{qualifying};
ghost use Rattle.rv_union.specs.Effort.{effort, life_of};
ghost use Rattle.rv_union.specs.Leaves.{leaves_left, planned_leaves};
ghost use Rattle.rv_union.specs.Given.{Awaits, awaited, count_read, next_id, with_lane};
ghost use Rattle.rv_union.specs.Opened.{CanUnite, Opened};
ghost use Rattle.rv_union.specs.Rulings.{facts_of, forgotten, gone, has_next, index_of, joined, lacks, next_member, position, told, was_begun};
ghost use Rattle.rv_jscan.specs.Planned.{indexes_of};
ghost use Rattle.rv_union.specs.Runs.{Tells};
ghost use Rattle.rv_union.specs.Unioned.{UnionFits, present, rest, shell_of, with_shell};
ghost use Rattle.rv_final.specs.Shell.{FinalStep, IsFinal, scanning};

use crate::joining::add_lane;
use rv_final::Shell;
use rv_jscan::{Admits, Lane, Piece, PieceId, ScanCounts, ScanPlan, Sieved};
use rv_judge::{Control, Counts, Event, Facts, Happening, Steps, Strategy, Trace, project};
use rv_keylist::KeyList;
use rv_keyset::KeySet;
use rv_reader::{Reader, Step};
use rv_restrict::Restriction;
use rv_value::{NoMemory, Record, RowNo};
use std::alloc::Global;
use std::marker::Model;
use std::mem;

/// A retrieval from one table at a snapshot by a union of key lists.
///
/// Its members are scanned one after another; one piece is awaited at a time. What a member finds is put together with what
/// the members before it found, each row once. Rows come only from the final stage, which tests the whole restriction.
#[derive(Drop)]
pub struct Union {
    alloc: Global,
    table: u32,
    snap: u64,
    cursor: u64,
    opening: u64,
    only: Restriction,
    plans: Vec<ScanPlan>,
    member: usize,
    lane: Lane,
    count: ScanCounts,
    number: u64,
    keys: KeySet,
    guaranteed: u64,
    shell: Shell,
}

impl Model for Union {
    ghost use Rattle.rv_union.specs.Unioned.{IsUnion, Unioned};

    ghost Value = { Unioned };

    ghost view = { λ u. record { table = u.table; snap = u.snap; cursor = u.cursor; opening = u.opening; only = u.only; plans = u.plans.items; member = u.member; lane = u.lane; count = u.count; number = u.number; keys = u.keys.keys; control = u.shell.control; guaranteed = u.guaranteed; at = u.shell.at; last = u.shell.last; trace = u.shell.trace } };

    ghost invariant = { λ u. IsUnion u.plans.items u.member u.lane u.keys.keys };
}

/// The rows that a set has not.
#[derive(Clone, Copy)]
struct Lacking<'a> {
    keys: &'a KeySet,
}

impl<'a> Admits for Lacking<'a> {
    ghost ready = { λ lacking. ⊤ };

    ghost admits = { λ lacking. lacks lacking.keys.now.keys };

    fn admit(&self, row: RowNo) -> bool {
        !self.keys.has(row)
    }
}

/// The member in a place.
fn plan_in(plans: &Vec<ScanPlan>, at: usize) -> &ScanPlan
    requires { at < length plans.now.items }
    ensures { result.now ≡ plan_at plans.now.items at }
{
    &plans[at]
}

fn nothing_counted() -> ScanCounts
    ensures { result ≡ no_counts }
{
    ScanCounts {
        scanned: 0,
        kept: 0,
        leaves: 0,
        listed: false,
    }
}

/// A list without keys, with room for so many.
fn room_for(alloc: Global, keys: u64) -> Result<KeyList, NoMemory>
    ensures empty { IfOk result (λ list. list.keys ≡ []) }
    ensures open { IfOk result (λ list. list.finished ≡ false) }
    ensures enough { IfOk result (λ list. keys ≤ list.spare) }
    ensures small { OnOk result (keys < 2 ^ 32) }
{
    if keys > u64::from(u32::MAX) {
        return Err(NoMemory);
    }
    let mut list = KeyList::new(alloc);
    list.reserve(keys as u32)?;
    Ok(list)
}

fn is_scan(event: &Event, index: u32) -> bool
    ensures { result ≡ Rattle.rv_union.specs.Rulings.is_scan index event.now }
{
    match event {
        Event::Scan(of) => *of == index,
        Event::At(_) | Event::List(_, _) | Event::Drop(_) | Event::Full | Event::Stop => false,
    }
}

/// Whether the events tell that an index was scanned.
fn was_begun(events: &[Event], index: u32) -> bool
    ensures { result ≡ was_begun index events.now }
{
    match events {
        [] => false,
        [event, more @ ..] => is_scan(event, index) || was_begun(more, index),
    }
}

impl Union {
    /// A union before its first piece, without keys, over a table of so many pages.
    fn make(
        alloc: Global,
        table: u32,
        snap: u64,
        only: Restriction,
        members: Vec<ScanPlan>,
        cursor: u64,
        opening: u64,
        pages: u32,
        keys: KeySet,
    ) -> Union
        requires some { 1 ≤ length members.items }
        requires none { keys.keys ≡ [] }
        ensures { Opened table snap only members.items cursor opening pages result }
    {
        let first = plan_in(&members, 0).index;
        let shell = Shell::new(alloc, table, snap, Strategy::Union, first);
        Union {
            alloc,
            table,
            snap,
            cursor,
            opening,
            only,
            plans: members,
            member: 0,
            lane: Lane::new(alloc),
            count: nothing_counted(),
            number: 1,
            keys,
            guaranteed: u64::from(pages),
            shell,
        }
    }

    /// Opens a union of members over at most eight indexes: one for each branch of a group of the restriction, with the
    /// range and the part that the branch has for its index. It reads nothing. `cursor` and `opening` go into the ids of its
    /// pieces. `NoMemory` comes where there is no room for the places of its keys.
    pub fn open<R: Reader>(
        alloc: Global,
        reader: &R,
        table: u32,
        snap: u64,
        only: Restriction,
        members: Vec<ScanPlan>,
        cursor: u64,
        opening: u64,
        _steps: &mut Steps<R::Ledger>,
    ) -> Result<Union, NoMemory>
        requires can { CanUnite table snap only members.items (R.shown reader.now) }
        requires some { 1 ≤ length members.items }
        ensures opened { IfOk result (Opened table snap only members.items cursor opening ((R.shown reader.now).pages table snap)) }
        ensures fits { IfOk result (λ u. UnionFits u (R.shown reader.now)) }
        ensures rest { IfOk result (λ u. rest u (R.shown reader.now) ≡ qualifying only ((R.shown reader.now).rows table snap)) }
        ensures tells { IfOk result Tells }
        ensures life { IfOk result (λ u. effort u (R.shown reader.now) < life_of table snap members.items (R.shown reader.now)) }
        ensures ahead { IfOk result (λ u. leaves_left u (R.shown reader.now) ≡ planned_leaves members.items (R.shown reader.now) snap) }
        ensures reads { _steps.new ≡ _steps.old }
    {
        let pages = reader.sizes(table, snap).pages;
        let keys = KeySet::new(alloc)?;
        Ok(Union::make(
            alloc, table, snap, only, members, cursor, opening, pages, keys,
        ))
    }

    /// Which sides run.
    pub fn control(&self) -> Control
        ensures { result ≡ self.now.control }
    {
        self.shell.control()
    }

    /// What it did so far.
    pub fn trace(&self) -> &Trace
        ensures now { result.now ≡ self.now.trace }
        ensures allowed { Tells self.now → Allowed result.now (indexes_of self.now.plans) }
    {
        self.shell.trace()
    }

    /// Whether members are scanned.
    pub(crate) fn is_scanning(&self) -> bool
        ensures { result ≡ scanning self.now.control }
    {
        self.shell.is_scanning()
    }

    /// The id of the next piece, whichever member it is of: pieces are numbered through the union.
    pub(crate) fn next_id(&self) -> PieceId
        ensures { result ≡ next_id self.now }
    {
        PieceId {
            cursor: self.cursor,
            opening: self.opening,
            number: self.number,
        }
    }

    /// The id of the awaited piece; None exactly where no member is scanned.
    pub fn awaited(&self) -> Option<PieceId>
        ensures { result ≡ awaited self.now }
    {
        if self.is_scanning() {
            Some(self.next_id())
        } else {
            None
        }
    }

    /// The present member.
    fn plan(&self) -> &ScanPlan
        ensures { result.now ≡ present self.now }
    {
        plan_in(&self.plans, self.member)
    }

    /// The index of the present member.
    pub(crate) fn index(&self) -> u32
        ensures { result ≡ index_of self.now }
    {
        self.plan().index
    }

    /// The position of the present member, held at the greatest u32.
    fn position(&self) -> u32
        ensures { result ≡ position self.now }
    {
        self.member.min(u32::MAX as usize) as u32
    }

    fn count_of(&self) -> ScanCounts
        ensures { result ≡ self.now.count }
    {
        self.count
    }

    fn guaranteed(&self) -> u64
        ensures { result ≡ self.now.guaranteed }
    {
        self.guaranteed
    }

    /// The number of keys that the members before the present one have put together.
    pub(crate) fn keys_len(&self) -> u64
        ensures { result ≡ length self.now.keys }
    {
        self.keys.len()
    }

    /// Whether a member stands behind the present one.
    pub(crate) fn has_next(&self) -> bool
        ensures { result ≡ has_next self.now }
    {
        self.member + 1 < self.plans.len()
    }

    /// Whether the trace tells that the present member's index was scanned.
    pub(crate) fn is_begun(&self) -> bool
        ensures { result ≡ was_begun (index_of self.now) self.now.trace.events.items }
    {
        let index = self.plan().index;
        was_begun(self.shell.trace().events.as_slice(), index)
    }

    /// What the judge is told of the present member.
    pub(crate) fn facts(&self) -> Facts
        ensures { result ≡ facts_of self.now }
    {
        let estimate = self.plan().estimate;
        let count = self.count_of();
        let projected = project(estimate.max(count.scanned), count.scanned, count.kept);
        Facts {
            control: self.control(),
            scan: self.position(),
            scanned: count.scanned,
            kept: count.kept,
            estimate,
            spent: count.leaves,
            projected: projected.saturating_add(self.keys_len()),
            guaranteed: self.guaranteed(),
            delivered: 0,
        }
    }

    /// Writes an event into the trace.
    pub(crate) fn note(&mut self, event: Event)
        ensures { self.new ≡ told event self.old }
    {
        self.shell.note(event);
    }

    /// Goes to the control to which a happening leads, and writes it into the trace.
    pub(crate) fn go(&mut self, happening: Happening)
        ensures { self.new ≡ gone happening self.old }
    {
        self.shell.go(Strategy::Union, happening);
    }

    /// Adds to the trace what a call has read.
    pub(crate) fn note_counts(&mut self, before: Counts, after: Counts)
        ensures { self.new ≡ record self.old { trace = counted self.old.trace before after } }
    {
        self.shell.count(before, after);
    }
}

impl Union {
    fn is_held(&self) -> bool
        ensures { result ≡ is_some self.now.lane.held }
    {
        self.lane.is_held()
    }

    /// Counts one more leaf of the present member.
    fn count_leaf(&mut self)
        ensures { self.new ≡ record self.old { count = leaf_counted self.old.count } }
    {
        self.count.leaves = self.count.leaves.saturating_add(1);
    }

    /// Counts the awaited leaf, where it is still to be read.
    pub(crate) fn count_read(&mut self)
        requires { scanning self.old.control ≡ true }
        ensures { self.new ≡ record self.old { count = count_read self.old } }
    {
        if !self.is_held() {
            self.count_leaf();
        }
    }

    /// A copy of the leaf that the present member awaits, as the piece of an id.
    pub(crate) fn take_lane<R: Reader>(
        &mut self,
        id: PieceId,
        reader: &R,
        steps: &mut Steps<R::Ledger>,
    ) -> Result<Piece, NoMemory>
        requires can { CanMake (present self.old) (R.shown reader.now) self.old.snap }
        requires fits { LaneFits (present self.old) (R.shown reader.now) self.old.snap self.old.lane }
        ensures same { self.new ≡ with_lane (record self.old.lane { held = self.new.lane.held }) self.old }
        ensures held { is_some self.old.lane.held ≡ true → self.new ≡ self.old }
        ensures taken { IfOk result (IsOwn (present self.old) id self.new.lane) }
        ensures err { OnErr result (self.new ≡ self.old) }
        ensures fits { LaneFits (present self.old) (R.shown reader.now) self.old.snap self.new.lane }
        ensures reads { steps.new ≡ leaf_once self.old.lane steps.old }
    {
        let plan = plan_in(&self.plans, self.member);
        self.lane
            .take(self.alloc, reader, plan, self.snap, id, steps)
    }

    /// Whether the piece is the leaf that the present member holds, under this name.
    pub(crate) fn is_own(&self, id: PieceId, sieved: &Sieved) -> bool
        ensures { IsTrue result ↔ IsOwn (present self.now) id self.now.lane sieved.now }
    {
        self.lane
            .awaits(plan_in(&self.plans, self.member), id, sieved)
    }

    /// Whether the awaited piece, once taken, is the last of the present member.
    pub(crate) fn is_last(&self) -> bool
        ensures { is_some (held_next self.now.lane.held) ≡ not result }
    {
        self.lane.is_last()
    }

    /// Adds what the awaited piece gives to the list of the present member, and goes on to the following cut.
    pub(crate) fn add_kept(&mut self, sieved: &Sieved) -> Result<(), NoMemory>
        requires { Awaits self.old sieved.now }
        ensures ok { OnOk result (self.new ≡ with_lane (passed (lacks self.old.keys) sieved.now self.old.lane) self.old) }
        ensures err { OnErr result (self.new ≡ self.old) }
    {
        let lacking = Lacking { keys: &self.keys };
        let _last = self.lane.accept(sieved, &lacking)?;
        Ok(())
    }

    /// The number of rows kept so far by the present member.
    pub(crate) fn built(&self) -> u64
        ensures { result ≡ length self.now.lane.building }
    {
        self.lane.building().len()
    }

    /// Counts what was scanned and kept of a piece into the present member, and numbers the next piece. Counts stop at the
    /// greatest number.
    pub(crate) fn count_piece(&mut self, entries: u64, kept: u64, listed: bool)
        ensures { self.new ≡ record self.old { count = piece_counted self.old.count entries kept listed; number = one_more self.old.number } }
    {
        self.count = ScanCounts {
            scanned: self.count.scanned.saturating_add(entries),
            kept: self.count.kept.saturating_add(kept),
            leaves: self.count.leaves,
            listed,
        };
        self.number = self.number.saturating_add(1);
    }

    /// Room for the keys that were put together, those of the present member, and so many more.
    pub(crate) fn room(&self, more: u64) -> Result<KeyList, NoMemory>
        ensures empty { IfOk result (λ list. list.keys ≡ []) }
        ensures open { IfOk result (λ list. list.finished ≡ false) }
        ensures enough { IfOk result (λ list. length self.now.keys + length self.now.lane.building + more ≤ list.spare) }
        ensures small { OnOk result (length self.now.keys + length self.now.lane.building + more < 2 ^ 32) }
    {
        let both = self.keys_len().saturating_add(self.built());
        room_for(self.alloc, both.saturating_add(more))
    }

    /// Puts what the present member built together with the keys before it.
    pub(crate) fn join_built(&mut self, room: KeyList)
        requires empty { room.keys ≡ [] }
        requires open { room.finished ≡ false }
        requires enough { length self.old.keys + length self.old.lane.building ≤ room.spare }
        requires small { length self.old.keys + length self.old.lane.building < 2 ^ 32 }
        ensures same { self.new ≡ joined self.new.keys self.old }
        ensures built { IsPermutation (self.old.keys ++ self.old.lane.building) self.new.keys }
        ensures ascend { IsStrictlyIncreasing self.new.keys }
    {
        let last = !self.has_next();
        let lane = mem::replace(&mut self.lane, Lane::new(self.alloc));
        add_lane(&mut self.keys, room, lane, last);
    }

    /// The next member is the present one.
    pub(crate) fn next_member(&mut self)
        requires { has_next self.old ≡ true }
        ensures { self.new ≡ next_member self.old }
    {
        self.member += 1;
        self.count = nothing_counted();
    }

    /// Forgets all keys.
    pub(crate) fn forget(&mut self)
        ensures { self.new ≡ forgotten self.old }
    {
        self.keys.clear();
        drop(mem::replace(&mut self.lane, Lane::new(self.alloc)));
    }

    /// A step of the final stage. The keys are in one list before it.
    pub(crate) fn final_step<R: Reader>(
        &mut self,
        reader: &R,
        steps: &mut Steps<R::Ledger>,
    ) -> Result<Step<Record>, NoMemory>
        requires over { IsFinal self.old.control }
        requires fits { UnionFits self.old (R.shown reader.now) }
        ensures same { self.new ≡ with_shell (shell_of self.new) self.old }
        ensures stepped { FinalStep self.old.table self.old.snap self.old.only (Some self.old.keys) (R.shown reader.now) steps.old steps.new result (shell_of self.old) (shell_of self.new) }
    {
        self.keys.gather()?;
        self.shell.step(
            reader,
            self.table,
            self.snap,
            &self.only,
            Some(self.keys.list()),
            steps,
        )
    }
}
