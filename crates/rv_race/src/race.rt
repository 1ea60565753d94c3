ghost use Rattle.std.specs.Prelude.{◌≡◌, ◌<◌, ◌≤◌, ℕ, List, Some, None, true, not, is_some, length, slice_set, IfOk, IfSome, IsPermutation, IsSome, IsTrue, OnErr, OnOk, ◌↔◌};
ghost use Rattle.std.specs.List.Sorted.{IsStrictlyIncreasing};
ghost use Rattle.rv_judge.specs.Account.{guarantee_with};
ghost use Rattle.rv_judge.specs.Counting.{one_more};
ghost use Rattle.rv_judge.specs.Runs.{Allowed};
ghost use Rattle.rv_judge.specs.Tracing.{counted, noted};
ghost use Rattle.rv_judge.specs.declared.events.Event.{Event as TheEvent};
ghost use Rattle.rv_jscan.specs.Joint.{CanMake, counts_at, plan_at};
ghost use Rattle.rv_jscan.specs.Lanes.{IsOwn, LaneFits, leaf_once, passed};
ghost use Rattle.rv_jscan.specs.Pieces.{may};
ghost use Rattle.rv_jscan.specs.Steps.{held_next, piece_counted};
ghost use Rattle.rv_final.specs.Rest.{qualifying};
ghost use Rattle.rv_race.specs.Effort.{effort, life_of};
ghost use Rattle.rv_race.specs.Given.{Awaits, awaited, counts_read, next_id, one_leaf, turn_lane, turn_plan, turn_scan, with_lane};
ghost use Rattle.rv_race.specs.Opened.{CanRace, Opened};
ghost use Rattle.rv_race.specs.Raced.{RaceFits, rest, shell_of, with_shell};
ghost use Rattle.rv_final.specs.Shell.{FinalStep, IsFinal, scanning, unnoted};
ghost use Rattle.rv_race.specs.Rulings.{completed, facts_of, gone, index_at, least_with, list_len, more, narrowed, passed_on, projected, recounted, scan_of, told_over};
ghost use Rattle.rv_jscan.specs.Planned.{indexes_of};
ghost use Rattle.rv_race.specs.Runs.{Tells};
ghost use Rattle.rv_race.specs.Ways.{advanced, lower};

use crate::running::{Running, narrow};
use rv_final::Shell;
use rv_jscan::{Lane, Piece, PieceId, ScanCounts, ScanPlan, Sieved, Within};
use rv_judge::{Control, Counts, Event, Facts, Happening, Steps, Strategy, Trace, project};
use rv_keylist::KeyList;
use rv_reader::{Reader, Step};
use rv_restrict::Restriction;
use rv_value::{NoMemory, Record};
use std::alloc::Global;
use std::marker::Model;
use std::mem;

/// A retrieval from one table at a snapshot for which two indexes are scanned at once.
///
/// While there is no complete list, the first two scans that are neither complete nor dropped are under way, and pieces
/// come from them in turn. One piece is awaited at a time. When a scan completes, of the other one's kept rows only those
/// stay that the list may have, and from then on scans go one at a time in their order. Rows come only from the final stage.
#[derive(Drop)]
pub struct Race {
    alloc: Global,
    table: u32,
    snap: u64,
    cursor: u64,
    opening: u64,
    only: Restriction,
    plans: Vec<ScanPlan>,
    counts: [ScanCounts; 8],
    running: Running,
    number: u64,
    list: Option<KeyList>,
    guaranteed: u64,
    shell: Shell,
}

impl Model for Race {
    ghost use Rattle.rv_jscan.specs.Joint.{keys_of};
    ghost use Rattle.rv_race.specs.Raced.{IsRace, Raced};

    ghost Value = { Raced };

    ghost view = { λ r. record { table = r.table; snap = r.snap; cursor = r.cursor; opening = r.opening; only = r.only; plans = r.plans.items; counts = r.counts; running = r.running; number = r.number; list = keys_of r.list; control = r.shell.control; guaranteed = r.guaranteed; at = r.shell.at; last = r.shell.last; trace = r.shell.trace } };

    ghost invariant = { λ r. IsRace r.plans.items r.running r.list };
}

/// The planned scan in a place.
fn plan_in(plans: &Vec<ScanPlan>, at: u32) -> &ScanPlan
    requires { at < length plans.now.items }
    ensures { result.now ≡ plan_at plans.now.items at }
{
    &plans[at as usize]
}

impl Race {
    /// A race before its first piece, over a table of so many pages.
    fn make(
        alloc: Global,
        table: u32,
        snap: u64,
        only: Restriction,
        scans: Vec<ScanPlan>,
        cursor: u64,
        opening: u64,
        pages: u32,
    ) -> Race
        requires two { 2 ≤ length scans.items }
        requires few { length scans.items ≤ 8 }
        ensures { Opened table snap only scans.items cursor opening pages result }
    {
        let first = plan_in(&scans, 0).index;
        let none = ScanCounts {
            scanned: 0,
            kept: 0,
            leaves: 0,
            listed: false,
        };
        let shell = Shell::new(alloc, table, snap, Strategy::BackgroundOnly, first);
        Race {
            alloc,
            table,
            snap,
            cursor,
            opening,
            only,
            plans: scans,
            counts: [none; 8],
            running: Running::begin(alloc),
            number: 1,
            list: None,
            guaranteed: u64::from(pages),
            shell,
        }
    }

    /// Opens a race of two to eight scans, in ascending estimates, with the ranges and parts that the restriction has for
    /// their indexes. It reads nothing and takes no memory. `cursor` and `opening` go into the ids of its pieces.
    pub fn open<R: Reader>(
        alloc: Global,
        reader: &R,
        table: u32,
        snap: u64,
        only: Restriction,
        scans: Vec<ScanPlan>,
        cursor: u64,
        opening: u64,
        _steps: &mut Steps<R::Ledger>,
    ) -> Result<Race, NoMemory>
        requires can { CanRace table snap only scans.items (R.shown reader.now) }
        requires two { 2 ≤ length scans.items }
        requires few { length scans.items ≤ 8 }
        ensures opened { IfOk result (Opened table snap only scans.items cursor opening ((R.shown reader.now).pages table snap)) }
        ensures fits { IfOk result (λ r. RaceFits r (R.shown reader.now)) }
        ensures rest { IfOk result (λ r. rest r (R.shown reader.now) ≡ qualifying only ((R.shown reader.now).rows table snap)) }
        ensures tells { IfOk result Tells }
        ensures life { IfOk result (λ r. effort r (R.shown reader.now) < life_of table snap scans.items (R.shown reader.now)) }
        ensures unread { _steps.new ≡ _steps.old }
    {
        let pages = reader.sizes(table, snap).pages;
        Ok(Race::make(alloc, table, snap, only, scans, cursor, opening, pages))
    }

    /// Which side runs: the background alone, one of the final stages, or nothing.
    pub fn control(&self) -> Control
        ensures { result ≡ self.now.control }
    {
        self.shell.control()
    }

    /// What it did so far.
    pub fn trace(&self) -> &Trace
        ensures now { result.now ≡ self.now.trace }
        ensures allowed { Tells self.now → Allowed result.now (indexes_of self.now.plans) }
    {
        self.shell.trace()
    }

    /// Whether scans are under way.
    pub(crate) fn is_racing(&self) -> bool
        ensures { result ≡ scanning self.now.control }
    {
        self.shell.is_scanning()
    }

    /// The id of the next piece, whichever of the two scans it is of: pieces are numbered through the race.
    pub(crate) fn next_id(&self) -> PieceId
        ensures { result ≡ next_id self.now }
    {
        PieceId {
            cursor: self.cursor,
            opening: self.opening,
            number: self.number,
        }
    }

    /// The id of the awaited piece; None exactly where no scan is under way.
    pub fn awaited(&self) -> Option<PieceId>
        ensures { result ≡ awaited self.now }
    {
        if self.is_racing() {
            Some(self.next_id())
        } else {
            None
        }
    }

    /// The planned scan at a position.
    fn plan(&self, scan: u32) -> &ScanPlan
        requires { scan < length self.now.plans }
        ensures { result.now ≡ plan_at self.now.plans scan }
    {
        &self.plans[scan as usize]
    }

    /// What the scan at a position did so far.
    fn count_of(&self, scan: u32) -> ScanCounts
        requires { scan < length self.now.plans }
        ensures { result ≡ counts_at self.now.counts scan }
    {
        let _plans = &self.plans;
        self.counts[scan as usize]
    }

    /// The position of the scan whose turn it is.
    fn turn_scan(&self) -> u32
        ensures scan { result ≡ turn_scan self.now }
        ensures planned { result < length self.now.plans }
    {
        self.running.turn.scan
    }

    /// The position of the other scan under way, where there is one.
    fn other_scan(&self) -> Option<u32>
        ensures scan { result ≡ scan_of self.now.running.other }
        ensures planned { IfSome result (λ scan. scan < length self.now.plans) }
    {
        match &self.running.other {
            Some(other) => Some(other.scan),
            None => None,
        }
    }

    /// The lower position of the scans under way.
    fn lower_scan(&self) -> u32
        ensures scan { result ≡ lower self.now.running }
        ensures planned { result < length self.now.plans }
    {
        self.running.lower()
    }

    /// The index of the scan whose turn it is.
    pub(crate) fn turn_index(&self) -> u32
        ensures { result ≡ index_at self.now (turn_scan self.now) }
    {
        self.plan(self.turn_scan()).index
    }

    /// The index of the scan that stands last in the trace while scans are under way.
    pub(crate) fn lower_index(&self) -> u32
        ensures { result ≡ index_at self.now (lower self.now.running) }
    {
        self.plan(self.lower_scan()).index
    }

    /// Whether the list of one of the scans is complete.
    pub(crate) fn is_listed(&self) -> bool
        ensures { result ≡ is_some self.now.list }
    {
        self.list.is_some()
    }

    /// The number of keys of the complete list.
    pub(crate) fn list_len(&self) -> u64
        ensures { result ≡ list_len self.now.list }
    {
        match &self.list {
            Some(list) => list.len(),
            None => 0,
        }
    }

    /// Whether a scan goes on behind the one whose turn it is, and the complete list, if any, has a key.
    pub(crate) fn has_more(&self) -> bool
        ensures { result ≡ more self.now }
    {
        self.running.has_next(self.plans.len() as u32)
            && match &self.list {
                Some(list) => list.len() != 0,
                None => true,
            }
    }

    /// What it is projected to cost to finish a scan and to fetch its list.
    fn projected(&self, scan: u32) -> u64
        requires { scan < length self.now.plans }
        ensures { result ≡ projected self.now scan }
    {
        let estimate = self.plan(scan).estimate;
        let count = self.count_of(scan);
        project(estimate.max(count.scanned), count.scanned, count.kept)
    }

    fn guaranteed(&self) -> u64
        ensures { result ≡ self.now.guaranteed }
    {
        self.guaranteed
    }

    /// The cost at which the race can be finished without the scan whose turn it is.
    fn least(&self) -> u64
        ensures { result ≡ least_with self.now (scan_of self.now.running.other) }
    {
        match self.other_scan() {
            Some(other) => self.guaranteed().min(self.projected(other)),
            None => self.guaranteed(),
        }
    }

    /// What the judge is told of the scan whose turn it is.
    pub(crate) fn facts(&self) -> Facts
        ensures { result ≡ facts_of self.now }
    {
        let scan = self.turn_scan();
        let estimate = self.plan(scan).estimate;
        let count = self.count_of(scan);
        Facts {
            control: self.control(),
            scan,
            scanned: count.scanned,
            kept: count.kept,
            estimate,
            spent: count.leaves,
            projected: self.projected(scan),
            guaranteed: self.least(),
            delivered: 0,
        }
    }

    /// Writes an event into the trace.
    pub(crate) fn note(&mut self, event: Event)
        ensures { self.new ≡ record self.old { trace = noted self.old.trace event } }
    {
        self.shell.note(event);
    }

    /// The scan of an index is over: in the trace it stands in place of the scan that stood last, with what became of it.
    fn note_over(&mut self, index: u32, event: Event)
        ensures { self.new ≡ record self.old { trace = noted (noted (unnoted self.old.trace) (TheEvent.Scan index)) event } }
    {
        self.shell.unnote();
        self.shell.note(Event::Scan(index));
        self.shell.note(event);
    }

    /// The scan whose turn it was is over, with what became of it.
    pub(crate) fn tell_over(&mut self, event: Event)
        ensures { self.new ≡ told_over event self.old }
    {
        let index = self.turn_index();
        self.note_over(index, event);
    }

    /// Goes to the control to which a happening leads, and writes it into the trace.
    pub(crate) fn go(&mut self, happening: Happening)
        ensures { self.new ≡ gone happening self.old }
    {
        self.shell.go(Strategy::BackgroundOnly, happening);
    }

    /// A list of so many keys is complete: so many fetches finish the race.
    pub(crate) fn lower_guarantee(&mut self, keys: u64)
        ensures { self.new ≡ record self.old { guaranteed = guarantee_with self.old.guaranteed keys } }
    {
        self.guaranteed = keys.min(self.guaranteed);
    }

    /// Adds to the trace what a call has read.
    pub(crate) fn count(&mut self, before: Counts, after: Counts)
        ensures { self.new ≡ record self.old { trace = counted self.old.trace before after } }
    {
        self.shell.count(before, after);
    }
}

impl Race {
    /// Counts one more leaf of the scan whose turn it is.
    fn count_leaf(&mut self)
        ensures { self.new ≡ record self.old { counts = one_leaf self.old } }
    {
        let at = self.running.turn.scan as usize;
        let _plans = &self.plans;
        self.counts[at].leaves = self.counts[at].leaves.saturating_add(1);
    }

    fn is_held(&self) -> bool
        ensures { result ≡ is_some (turn_lane self.now).held }
    {
        self.running.turn.lane.is_held()
    }

    /// Counts the awaited leaf, where it is still to be read.
    pub(crate) fn count_read(&mut self)
        requires { scanning self.old.control ≡ true }
        ensures { self.new ≡ record self.old { counts = counts_read self.old } }
    {
        if !self.is_held() {
            self.count_leaf();
        }
    }

    /// A copy of the leaf that the scan whose turn it is awaits, as the piece of an id.
    pub(crate) fn take_lane<R: Reader>(
        &mut self,
        id: PieceId,
        reader: &R,
        steps: &mut Steps<R::Ledger>,
    ) -> Result<Piece, NoMemory>
        requires can { CanMake (turn_plan self.old) (R.shown reader.now) self.old.snap }
        requires fits { LaneFits (turn_plan self.old) (R.shown reader.now) self.old.snap (turn_lane self.old) }
        ensures same { self.new ≡ with_lane (record (turn_lane self.old) { held = (turn_lane self.new).held }) self.old }
        ensures held { is_some (turn_lane self.old).held ≡ true → self.new ≡ self.old }
        ensures taken { IfOk result (IsOwn (turn_plan self.old) id (turn_lane self.new)) }
        ensures err { OnErr result (self.new ≡ self.old) }
        ensures fits { LaneFits (turn_plan self.old) (R.shown reader.now) self.old.snap (turn_lane self.new) }
        ensures reads { steps.new ≡ leaf_once (turn_lane self.old) steps.old }
    {
        let plan = plan_in(&self.plans, self.running.turn.scan);
        self.running
            .turn
            .lane
            .take(self.alloc, reader, plan, self.snap, id, steps)
    }

    /// Whether the piece is the leaf that the scan whose turn it is holds, under this name.
    pub(crate) fn is_own(&self, id: PieceId, sieved: &Sieved) -> bool
        ensures { IsTrue result ↔ IsOwn (turn_plan self.now) id (turn_lane self.now) sieved.now }
    {
        self.running
            .turn
            .lane
            .awaits(plan_in(&self.plans, self.running.turn.scan), id, sieved)
    }

    /// Adds what the awaited piece gives to the list of its scan, and goes on to the following cut; true where there is
    /// none.
    pub(crate) fn add_kept(&mut self, sieved: &Sieved) -> Result<bool, NoMemory>
        requires { Awaits self.old sieved.now }
        ensures last { IfOk result (λ last. is_some (held_next (turn_lane self.old).held) ≡ not last) }
        ensures ok { OnOk result (self.new ≡ with_lane (passed (may self.old.list) sieved.now (turn_lane self.old)) self.old) }
        ensures err { OnErr result (self.new ≡ self.old) }
    {
        let within = Within {
            list: self.list.as_ref(),
        };
        self.running.turn.lane.accept(sieved, &within)
    }

    /// The number of rows kept so far by the scan whose turn it is.
    pub(crate) fn built(&self) -> u64
        ensures { result ≡ length (turn_lane self.now).building }
    {
        self.running.turn.lane.building().len()
    }

    /// Counts what was scanned and kept of a piece into its scan, and numbers the next piece. Counts stop at the greatest
    /// number.
    pub(crate) fn count_piece(&mut self, entries: u64, kept: u64, listed: bool)
        ensures { self.new ≡ record self.old { counts = slice_set self.old.counts (turn_scan self.old) (piece_counted (counts_at self.old.counts (turn_scan self.old)) entries kept listed); number = one_more self.old.number } }
    {
        let at = self.running.turn.scan as usize;
        let _plans = &self.plans;
        let count = self.counts[at];
        self.counts[at] = ScanCounts {
            scanned: count.scanned.saturating_add(entries),
            kept: count.kept.saturating_add(kept),
            leaves: count.leaves,
            listed,
        };
        self.number = self.number.saturating_add(1);
    }

    /// Makes the list of the scan whose turn it is the complete list.
    pub(crate) fn complete(&mut self)
        ensures keys { IfSome self.new.list (λ keys. IsPermutation (turn_lane self.old).building keys × IsStrictlyIncreasing keys × (self.new ≡ completed keys self.old)) }
        ensures some { IsSome self.new.list }
    {
        let lane = mem::replace(&mut self.running.turn.lane, Lane::new(self.alloc));
        drop(self.list.replace(lane.into_list()));
    }

    /// Of the other scan's kept rows only those stay that the complete list may have.
    pub(crate) fn narrow(&mut self)
        ensures { self.new ≡ narrowed self.old }
    {
        match &self.list {
            Some(list) => narrow(&mut self.running.other, list),
            None => {}
        }
    }

    /// As many rows count as kept by the other scan as it has.
    pub(crate) fn recount(&mut self)
        ensures { self.new ≡ recounted self.old }
    {
        let _plans = &self.plans;
        match &self.running.other {
            Some(other) => {
                let kept = other.lane.building().len();
                self.counts[other.scan as usize].kept = kept;
            }
            None => {}
        }
    }

    /// The other scan, where there is one, has the next turn.
    pub(crate) fn pass_turn(&mut self)
        ensures { self.new ≡ passed_on self.old }
    {
        self.running.pass_turn();
    }

    /// The scan whose turn it was is over, and another one goes on.
    pub(crate) fn advance(&mut self)
        requires { more self.old ≡ true }
        ensures { self.new ≡ record self.old { running = advanced (is_some self.old.list) (length self.old.plans) self.old.running } }
    {
        let listed = self.list.is_some();
        let planned = self.plans.len() as u32;
        self.running.advance(self.alloc, listed, planned);
    }

    /// A step of the final stage.
    pub(crate) fn final_step<R: Reader>(
        &mut self,
        reader: &R,
        steps: &mut Steps<R::Ledger>,
    ) -> Result<Step<Record>, NoMemory>
        requires over { IsFinal self.old.control }
        requires fits { RaceFits self.old (R.shown reader.now) }
        ensures same { self.new ≡ with_shell (shell_of self.new) self.old }
        ensures stepped { FinalStep self.old.table self.old.snap self.old.only self.old.list (R.shown reader.now) steps.old steps.new result (shell_of self.old) (shell_of self.new) }
    {
        self.shell.step(
            reader,
            self.table,
            self.snap,
            &self.only,
            self.list.as_ref(),
            steps,
        )
    }
}
