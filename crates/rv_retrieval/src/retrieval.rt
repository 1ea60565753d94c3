ghost use Rattle.std.specs.Prelude.{if◌then◌else◌, ◌≡◌, ℕ, List, ◌+◌, ◌-◌, ◌^◌, ◌<◌, ◌≤◌, ◌++◌, ◌∷◌, [], ◌&&◌, ◌==◌, ◌⊎◌, true, false, is_some, length, min, Some, None, IfOk, IfSome, IsTrue, OnOk, OnErr, Ok};
ghost use Rattle.std.specs.Option.{option_copied};
ghost use Rattle.rv_keylist.specs.Keys.{has_key};
ghost use Rattle.rv_reader.specs.Shown.{Shown, CanRead};
ghost use Rattle.rv_reader.specs.Tables.{IsTable, row_at};
ghost use Rattle.rv_scan.specs.Alongs.{looked};
ghost use Rattle.rv_scan.specs.Places.{Fits as PlaceFits, PageReads, PageTurns, unseen};
ghost use Rattle.rv_scan.specs.Due.{HaveColumns};
ghost use Rattle.rv_jscan.specs.Joint.{CanTake, JointFits, keys_of, leaves_ahead, under_way};
ghost use Rattle.rv_jscan.specs.Steps.{Gives, Nearer, TakeLeaves, Takes, Works, abandoned, awaited_id, begun, counts_read, steps_read};
ghost use Rattle.rv_judge.specs.Account.{facts_of, guarantee_with};
ghost use Rattle.rv_judge.specs.Counting.{page_read};
ghost use Rattle.rv_retrieval.specs.Accounts.{NextBorrowed, account_of};
ghost use Rattle.rv_scan.specs.Fronts.{FrontMayRead, FrontReads};
ghost use Rattle.rv_retrieval.specs.Given.{awaited, more_behind};
ghost use Rattle.rv_choice.specs.Choice.{AreScans};
ghost use Rattle.rv_choice.specs.Leading.{front_begun, front_candidate, guarantee_of};
ghost use Rattle.rv_retrieval.specs.Opened.{Made, has_scans};
ghost use Rattle.rv_retrieval.specs.Opens.{first_of};
ghost use Rattle.rv_judge.specs.Runs.{Allowed};
ghost use Rattle.rv_final.specs.Rest.{StepMarks};
ghost use Rattle.rv_retrieval.specs.Runs.{Tells, indexes_asked};
ghost use Rattle.rv_retrieval.specs.Shape.{DoesStep, EndsIn, Remembers, RetrievalFits, Source, is_background, is_building, is_index_only, is_sorted, left_at, lending, rows_of, source};
ghost use Rattle.rv_retrieval.specs.Room.{HasRoom, must_remember, rows_given};
ghost use Rattle.rv_keylist.specs.Rows.{AddsRow};
ghost use Rattle.rv_final.specs.Stage.{LastFits, PassesKeys, given_as};
ghost use Rattle.rv_retrieval.specs.Stepping.{LeavesAhead, ListReads, Steady, WalkReads};
ghost use Rattle.rv_retrieval.specs.Telling.{index_of, list_len};
ghost use Rattle.rv_judge.specs.Tracing.{counted, new_trace, noted};
ghost use Rattle.rv_retrieval.specs.Effort.{effort, keys_work, table_work};
ghost use Rattle.rv_final.specs.Work.{Falls, Tries};
ghost use Rattle.rv_scan.specs.Reads.{OneAtMost};
ghost use Rattle.rv_judge.specs.Counting.{record_read};
ghost use Rattle.rv_retrieval.specs.Short.{OnlyLeaves, Settled, fetches_left};

use rv_choice::{Background, Candidate, Choice, Query, foreground, guarantee, nowhere, scans};
use rv_final::{Final, examine};
use rv_jscan::{Given, Jscan, PieceId, ScanPlan, Sieved, Taken};
use rv_judge::{Control, Counts, Event, Facts, Happening, Steps, Strategy, Trace, project};
use rv_keylist::{Delivered, KeyList};
use rv_reader::{Reader, Step};
use rv_restrict::Restriction;
use rv_scan::{Front, Skip};
use rv_value::{NoMemory, Record, RowNo};
use std::alloc::Global;
use std::marker::Model;
use std::mem;

/// The list that hides rows from a foreground's scan.
fn hiding(strategy: Strategy, list: Option<&KeyList>) -> Option<&KeyList>
    ensures { option_copied result ≡ (if is_sorted strategy then option_copied list.entry else None) }
{
    match strategy {
        Strategy::Sorted => list,
        Strategy::Table
        | Strategy::BackgroundOnly
        | Strategy::FastFirst
        | Strategy::IndexOnly
        | Strategy::Union => None,
    }
}

fn has_scans(scans: &[ScanPlan]) -> bool
    ensures { result ≡ has_scans scans.now }
{
    !scans.is_empty()
}

/// The first control of a strategy.
fn first_control(strategy: Strategy, scans: bool) -> Control
    ensures { result ≡ first_of strategy scans }
{
    match strategy {
        Strategy::Table => Control::FinalTable,
        Strategy::BackgroundOnly | Strategy::Union => Control::BackgroundAlone,
        Strategy::FastFirst => Control::Building,
        Strategy::Sorted | Strategy::IndexOnly => {
            if scans {
                Control::Building
            } else {
                Control::ForegroundAlone
            }
        }
    }
}

/// Room for the rows that a foreground gives while a background runs beside it. Where no such row is remembered there is
/// none, and no memory is taken.
fn room(alloc: Global, strategy: Strategy) -> Result<Option<Delivered>, NoMemory>
    ensures room { IfOk result (HasRoom strategy) }
    ensures none { IfOk result (λ room. rows_given room ≡ []) }
{
    match strategy {
        Strategy::FastFirst | Strategy::IndexOnly => Ok(Some(Delivered::new(alloc)?)),
        Strategy::Table | Strategy::BackgroundOnly | Strategy::Sorted | Strategy::Union => Ok(None),
    }
}

/// Puts a row to those that are remembered.
fn put(delivered: &mut Option<Delivered>, row: RowNo)
    requires some { is_some delivered.old ≡ true }
    requires room { length (rows_given delivered.old) < 1024 }
    requires fresh { has_key row.0 (rows_given delivered.old) ≡ false }
    ensures adds { AddsRow (rows_given delivered.old) (rows_given delivered.new) row.0 }
    ensures some { is_some delivered.new ≡ is_some delivered.old }
{
    match delivered {
        Some(delivered) => delivered.add(row),
        None => unreachable!(),
    }
}

/// Makes a trace one without events or reads.
fn renew_trace(trace: &mut Trace, strategy: Strategy)
    ensures { trace.new ≡ new_trace strategy }
{
    trace.strategy = strategy;
    trace.events.clear();
    trace.pages = 0;
    trace.leaves = 0;
    trace.fetches = 0;
}

/// A retrieval from one table at a snapshot.
#[derive(Drop)]
pub struct Retrieval {
    alloc: Global,
    query: Query,
    strategy: Strategy,
    control: Control,
    joint: Jscan,
    front: Front,
    delivered: Option<Delivered>,
    borrowed: u64,
    ending: Final,
    guaranteed: u64,
    trace: Trace,
}

impl Model for Retrieval {
    ghost use Rattle.rv_retrieval.specs.Room.{HasRoom, rows_given};
    ghost use Rattle.rv_retrieval.specs.Shape.{Shape};

    ghost Value = { Shape };

    ghost view = { λ r. record { query = r.query; strategy = r.strategy; control = r.control; joint = r.joint; front = r.front; delivered = rows_given r.delivered; borrowed = r.borrowed; at = r.ending.at; last = r.ending.last; guaranteed = r.guaranteed; trace = r.trace } };

    ghost invariant = { λ r. HasRoom r.strategy r.delivered };
}

impl Retrieval {
    /// Which sides run.
    pub fn control(&self) -> Control
        ensures { result ≡ self.now.control }
    {
        self.control
    }

    /// The strategy that was chosen at opening; no call changes it.
    pub(crate) fn strategy(&self) -> Strategy
        ensures { result ≡ self.now.strategy }
    {
        self.strategy
    }

    /// Whether the background runs, with the foreground or alone.
    pub(crate) fn is_background(&self) -> bool
        ensures { result ≡ is_background self.now.control }
    {
        match self.control {
            Control::Building | Control::BackgroundAlone => true,
            Control::ForegroundAlone | Control::FinalList | Control::FinalTable | Control::Done =>
                false,
        }
    }

    /// Whether the rows that the foreground's scan gives are remembered: an index-only one runs beside the background.
    pub(crate) fn is_beside(&self) -> bool
        ensures { result ≡ (is_building self.now.control && is_index_only self.now.strategy) }
    {
        match self.control {
            Control::Building => match self.strategy {
                Strategy::IndexOnly => true,
                Strategy::Table
                | Strategy::BackgroundOnly
                | Strategy::FastFirst
                | Strategy::Sorted
                | Strategy::Union => false,
            },
            Control::ForegroundAlone
            | Control::BackgroundAlone
            | Control::FinalList
            | Control::FinalTable
            | Control::Done => false,
        }
    }

    /// The id of the awaited piece; None exactly where no background scan is under way.
    pub fn awaited(&self) -> Option<PieceId>
        ensures { result ≡ awaited self.now }
    {
        if self.is_background() {
            self.joint.awaited()
        } else {
            None
        }
    }

    /// Changes which sides run, and writes no event: `go` does both.
    pub(crate) fn set_control(&mut self, control: Control)
        ensures { self.new ≡ record self.old { control = control } }
    {
        self.control = control;
    }

    /// Whether the foreground has given a row. Under a strategy that remembers nothing it is false of each.
    pub(crate) fn was_delivered(&self, row: RowNo) -> bool
        ensures { result ≡ has_key row.0 self.now.delivered }
    {
        match &self.delivered {
            Some(delivered) => delivered.has(row),
            None => false,
        }
    }

    /// The row of a number, where it qualifies. It is one record read.
    pub(crate) fn examine<R: Reader>(
        &self,
        reader: &R,
        row: RowNo,
        steps: &mut Steps<R::Ledger>,
    ) -> Result<Option<Record>, NoMemory>
        requires can { CanRead (R.shown reader.now) self.now.query.table self.now.query.snap }
        requires columns { HaveColumns self.now.query.only (rows_of self.now (R.shown reader.now)) }
        ensures found { IfOk result (λ found. given_as found ≡ looked self.now.query.only (row_at (rows_of self.now (R.shown reader.now)) row.0)) }
        ensures reads { steps.new ≡ record_read steps.old }
    {
        examine(
            self.alloc,
            reader,
            self.query.table,
            self.query.snap,
            &self.query.only,
            row,
            steps,
        )
    }

    /// Whether a further scan begins once the one under way is over: one is planned, and the complete list, if any, has a
    /// key.
    pub(crate) fn more_behind(&self) -> bool
        ensures { result ≡ more_behind self.now.joint }
    {
        self.joint.ended() < self.joint.planned().saturating_sub(1)
            && match self.joint.list() {
                Some(list) => list.len() != 0,
                None => true,
            }
    }

    /// Whether some scan's list is complete.
    pub(crate) fn is_listed(&self) -> bool
        ensures { result ≡ is_some self.now.joint.list }
    {
        self.joint.list().is_some()
    }

    /// Whether a background scan has begun and not ended.
    pub(crate) fn is_under_way(&self) -> bool
        ensures { result ≡ under_way self.now.joint }
    {
        self.joint.awaited().is_some()
    }

    /// How many of the planned background scans are over, completed or dropped.
    pub(crate) fn ended(&self) -> u32
        ensures { result ≡ self.now.joint.ended }
    {
        self.joint.ended()
    }

    /// Gives a sieved piece to the joint scan alone: no judge is asked, and no event is written.
    pub(crate) fn give_joint(&mut self, sieved: Sieved) -> Result<Given, NoMemory>
        ensures same { self.new ≡ record self.old { joint = self.new.joint } }
        ensures given { IfOk result (λ g. Gives self.old.joint sieved g self.new.joint) }
        ensures err { OnErr result (self.new ≡ self.old) }
        ensures fits { (shown : Shown) → JointFits self.old.joint shown → JointFits self.new.joint shown }
        ensures nearer { (shown : Shown) → JointFits self.old.joint shown → IfOk result (λ g. Nearer self.old.joint self.new.joint g shown) }
    {
        self.joint.give(sieved)
    }

    /// Takes the awaited piece of the joint scan.
    pub(crate) fn take_joint<R: Reader>(
        &mut self,
        reader: &R,
        steps: &mut Steps<R::Ledger>,
    ) -> Result<Taken, NoMemory>
        requires can { CanTake self.old.joint (R.shown reader.now) }
        requires fits { JointFits self.old.joint (R.shown reader.now) }
        ensures same { self.new ≡ record self.old { joint = self.new.joint } }
        ensures leaves { TakeLeaves self.old.joint self.new.joint }
        ensures taken { IfOk result (Takes self.new.joint) }
        ensures err { OnErr result (self.new.joint ≡ record self.old.joint { counts = counts_read self.old.joint }) }
        ensures fits { JointFits self.new.joint (R.shown reader.now) }
        ensures reads { steps.new ≡ steps_read self.old.joint steps.old }
        ensures only { OnlyLeaves steps.old steps.new }
    {
        self.joint.take(reader, steps)
    }

    /// Takes up the awaited leaf where it stands, without a piece; false where no scan is under way.
    pub(crate) fn step_joint<R: Reader>(
        &mut self,
        reader: &R,
        steps: &mut Steps<R::Ledger>,
    ) -> Result<bool, NoMemory>
        requires can { CanTake self.old.joint (R.shown reader.now) }
        requires fits { JointFits self.old.joint (R.shown reader.now) }
        ensures same { self.new ≡ record self.old { joint = self.new.joint } }
        ensures works { IfOk result (λ more. more ≡ true → Works (R.shown reader.now) self.old.joint self.new.joint) }
        ensures none { IfOk result (λ more. more ≡ false → (under_way self.old.joint ≡ false) × (self.new.joint ≡ self.old.joint)) }
        ensures err { OnErr result (TakeLeaves self.old.joint self.new.joint) }
        ensures fits { JointFits self.new.joint (R.shown reader.now) }
        ensures nearer { IfOk result (λ more. more ≡ true → leaves_ahead self.new.joint (R.shown reader.now) < leaves_ahead self.old.joint (R.shown reader.now)) }
        ensures reads { steps.new ≡ steps_read self.old.joint steps.old }
        ensures only { OnlyLeaves steps.old steps.new }
    {
        self.joint.step(reader, steps)
    }

    /// Ends the scan under way without a list; the next planned one, if any, is under way then.
    pub(crate) fn drop_scan(&mut self)
        requires { under_way self.old.joint ≡ true }
        ensures same { self.new ≡ record self.old { joint = abandoned self.old.joint } }
        ensures fits { (shown : Shown) → JointFits self.old.joint shown → JointFits self.new.joint shown }
    {
        self.joint.abandon_scan();
    }

    /// Another list is borrowed from: borrowing begins again at its first key.
    pub(crate) fn borrow_anew(&mut self)
        ensures { self.new ≡ record self.old { borrowed = 0 } }
    {
        self.borrowed = 0;
    }

    /// A scan was dropped: where no list is complete, borrowing goes over to the next scan's list.
    pub(crate) fn borrow_next(&mut self, listed: bool)
        ensures { self.new ≡ record self.old { borrowed = (if listed then self.old.borrowed else 0) } }
    {
        if !listed {
            self.borrow_anew();
        }
    }

    /// A step along the foreground's index, whose end leads to the last control. The rows that an index-only foreground
    /// gives while both sides run are remembered.
    pub(crate) fn front_step<R: Reader>(
        &mut self,
        reader: &R,
        steps: &mut Steps<R::Ledger>,
    ) -> Result<Step<Record>, NoMemory>
        requires front { source self.old ≡ Source.Ahead }
        requires fits { RetrievalFits self.old (R.shown reader.now) }
        ensures steady { Steady self.old self.new }
        ensures fits { RetrievalFits self.new (R.shown reader.now) }
        ensures step { IfOk result (DoesStep self.old self.new (R.shown reader.now)) }
        ensures ends { IfOk result (EndsIn self.new) }
        ensures err { OnErr result (self.new ≡ self.old) }
        ensures does { IfOk result (λ s. LeavesAhead s (record self.old { front = self.new.front }) self.new) }
        ensures may_read { FrontMayRead self.old.front.alone steps.old steps.new }
        ensures reads { IfOk result (λ s. FrontReads self.old.front.alone s steps.old steps.new) }
        ensures tries { Tries steps.old steps.new (effort self.old (R.shown reader.now)) (effort self.new (R.shown reader.now)) }
        ensures falls { IfOk result (λ s. Falls s steps.old steps.new (effort self.old (R.shown reader.now)) (effort self.new (R.shown reader.now))) }
        ensures fetches { IfOk result (WalkReads self.old (R.shown reader.now) steps.old steps.new) }
        ensures records { Settled self.old → IfOk result (λ s. steps.new.records + fetches_left self.new (R.shown reader.now) ≤ steps.old.records + fetches_left self.old (R.shown reader.now)) }
        ensures pages { steps.new.pages ≡ steps.old.pages }
        ensures settled { Settled self.old → Settled self.new }
    {
        let skip = Skip {
            delivered: None,
            list: hiding(self.strategy, self.joint.list()),
        };
        match self.front.step(reader, &self.query.only, &skip, steps)? {
            Step::Row(record) => {
                self.give_ahead(record.row);
                Ok(Step::Row(record))
            }
            Step::Working => Ok(Step::Working),
            Step::End => {
                self.go(Happening::FrontEnded);
                Ok(Step::End)
            }
        }
    }

    /// A step through the complete list.
    pub(crate) fn scan_list<R: Reader>(
        &mut self,
        reader: &R,
        steps: &mut Steps<R::Ledger>,
    ) -> Result<Step<Record>, NoMemory>
        requires fits { RetrievalFits self.old (R.shown reader.now) }
        ensures same { self.new ≡ record self.old { at = self.new.at } }
        ensures marks { let shown = R.shown reader.now in IfOk result (λ s. StepMarks self.old.query.need self.old.query.only (rows_of self.old shown) s (left_at Source.Keys self.old shown) (left_at Source.Keys self.new shown)) }
        ensures fetches { IfOk result (ListReads self.old (R.shown reader.now) steps.old steps.new) }
        ensures passed { OnErr result (PassesKeys self.old.joint.list (Some self.old.delivered) self.old.at self.new.at) }
        ensures may_read { OneAtMost record_read steps.old steps.new }
        ensures tries { Tries steps.old steps.new (keys_work self.old) (keys_work self.new) }
        ensures falls { IfOk result (λ s. Falls s steps.old steps.new (keys_work self.old) (keys_work self.new)) }
        ensures records { IfOk result (λ s. steps.new.records + keys_work self.new ≤ steps.old.records + keys_work self.old) }
        ensures pages { steps.new.pages ≡ steps.old.pages }
    {
        self.ending.list_step(
            reader,
            self.query.table,
            self.query.snap,
            &self.query.only,
            self.joint.list(),
            self.delivered.as_ref(),
            steps,
        )
    }

    /// A step through the pages of the table.
    pub(crate) fn scan_last<R: Reader>(
        &mut self,
        reader: &R,
        steps: &mut Steps<R::Ledger>,
    ) -> Result<Step<Record>, NoMemory>
        requires fits { RetrievalFits self.old (R.shown reader.now) }
        ensures same { self.new ≡ record self.old { last = self.new.last } }
        ensures last { LastFits self.old.query.table self.old.query.snap self.new.last (R.shown reader.now) }
        ensures marks { let shown = R.shown reader.now in IfOk result (λ s. StepMarks self.old.query.need self.old.query.only (rows_of self.old shown) s (left_at Source.Pages self.old shown) (left_at Source.Pages self.new shown)) }
        ensures err { OnErr result (self.new ≡ self.old) }
        ensures may_read { OneAtMost page_read steps.old steps.new }
        ensures reads { IfOk result (λ s. PageReads s steps.old steps.new) }
        ensures turns { IfOk result (λ s. PageTurns s self.old.last self.new.last ((R.shown reader.now).pages self.old.query.table self.old.query.snap)) }
        ensures tries { Tries steps.old steps.new (table_work self.old (R.shown reader.now)) (table_work self.new (R.shown reader.now)) }
        ensures falls { IfOk result (λ s. Falls s steps.old steps.new (table_work self.old (R.shown reader.now)) (table_work self.new (R.shown reader.now))) }
    {
        self.ending
            .table_step(reader, &self.query.only, self.delivered.as_ref(), steps)
    }

    /// The next key of the list that is borrowed from.
    pub(crate) fn borrowed_key(&self) -> Option<RowNo>
        ensures near { IfSome result (λ row. self.now.borrowed < length (lending self.now.joint)) }
        ensures small { IfSome result (λ row. self.now.borrowed < 2 ^ 64 - 1) }
        ensures next { under_way self.now.joint ≡ true → NextBorrowed self.now result }
    {
        let list = match self.joint.list() {
            Some(list) => list,
            None => self.joint.building()?,
        };
        if self.borrowed < list.len() {
            Some(list.get(self.borrowed))
        } else {
            None
        }
    }

    /// Goes past the key of the list that was borrowed last.
    pub(crate) fn pass_borrowed(&mut self)
        requires { self.old.borrowed < 2 ^ 64 - 1 }
        ensures { self.new ≡ record self.old { borrowed = self.old.borrowed + 1 } }
    {
        self.borrowed += 1;
    }

    /// Keeps the number of a delivered row, so that no final stage gives it again.
    pub(crate) fn remember(&mut self, row: RowNo)
        requires strategy { must_remember self.old.strategy ≡ true }
        requires room { length self.old.delivered < 1024 }
        requires fresh { has_key row.0 self.old.delivered ≡ false }
        ensures { Remembers self.old self.new row.0 }
    {
        put(&mut self.delivered, row);
    }

    /// The number of rows that are remembered.
    fn remembered(&self) -> u32
        ensures { result ≡ length self.now.delivered }
    {
        match &self.delivered {
            Some(delivered) => delivered.len(),
            None => 0,
        }
    }

    /// Whether no further row can be remembered; never under a strategy that remembers nothing.
    pub(crate) fn is_full(&self) -> bool
        ensures full { result ≡ (length self.now.delivered == 1024) }
        ensures most { length self.now.delivered ≤ 1024 }
    {
        match &self.delivered {
            Some(delivered) => {
                let _len = delivered.len();
                delivered.full()
            }
            None => false,
        }
    }

    /// What the judge is told of the scan under way.
    pub(crate) fn facts(&self) -> Facts
        requires { under_way self.now.joint ≡ true }
        ensures { result ≡ facts_of (account_of self.now) self.now.joint.ended }
    {
        let scan = self.joint.ended();
        let estimate = self.joint.plan(scan).estimate;
        let scanned = self.joint.scanned(scan);
        let kept = self.joint.kept(scan);
        Facts {
            control: self.control,
            scan,
            scanned,
            kept,
            estimate,
            spent: self.joint.leaves(scan),
            projected: project(estimate.max(scanned), scanned, kept),
            guaranteed: self.guaranteed,
            delivered: u64::from(self.remembered()),
        }
    }
}

impl Retrieval {
    /// A retrieval of a query that has not begun. It is put into a box at once, since it is large.
    fn blank(alloc: Global, query: Query) -> Result<Box<Retrieval>, NoMemory>
        ensures { IfOk result (λ r. r.value.query ≡ query) }
    {
        let front = nowhere(alloc, &query);
        let ending = Final::new(alloc, query.table, query.snap);
        let joint = Jscan::new(alloc, query.table, query.snap, Vec::new(alloc), 0, 0);
        let retrieval = Retrieval {
            alloc,
            query,
            strategy: Strategy::Table,
            control: Control::FinalTable,
            joint,
            front,
            delivered: None,
            borrowed: 0,
            ending,
            guaranteed: 0,
            trace: Trace::new(Strategy::Table),
        };
        let boxed = Box::new(alloc, retrieval)?;
        Ok(boxed)
    }

    fn ask(&mut self, query: Query)
        ensures { self.new ≡ record self.old { query = query } }
    {
        self.query = query;
    }

    /// A retrieval of a query that is still to begin, in the box of one that is over, where there is one.
    pub(crate) fn place(
        alloc: Global,
        over: Option<Box<Retrieval>>,
        query: Query,
    ) -> Result<Box<Retrieval>, NoMemory>
        ensures { IfOk result (λ r. r.value.query ≡ query) }
    {
        match over {
            Some(over) => {
                let mut boxed = over;
                boxed.ask(query);
                Ok(boxed)
            }
            None => Retrieval::blank(alloc, query),
        }
    }

    /// The cost at which it can be finished without a background.
    pub(crate) fn guarantee<R: Reader>(
        &self,
        reader: &R,
        candidates: &[Candidate],
        choice: Choice,
    ) -> u64
        requires can { CanRead (R.shown reader.now) self.now.query.table self.now.query.snap }
        requires place { IfSome choice.front (λ at. at < length candidates.now) }
        ensures value { result ≡ guarantee_of self.now.query (R.shown reader.now) candidates.now choice }
        ensures table { IsTable ((R.shown reader.now).rows self.now.query.table self.now.query.snap) ((R.shown reader.now).pages self.now.query.table self.now.query.snap) }
    {
        guarantee(reader, &self.query, candidates, choice)
    }

    /// Makes the foreground the scan of the candidate in a place.
    pub(crate) fn lead(
        &mut self,
        candidates: &[Candidate],
        place: Option<usize>,
    ) -> Result<(), NoMemory>
        requires { IfSome place (λ at. at < length candidates.now) }
        ensures same { self.new ≡ record self.old { front = self.new.front } }
        ensures front { OnOk result (self.new.front ≡ front_begun self.old.query (front_candidate candidates.now place)) }
    {
        foreground(self.alloc, &self.query, candidates, place, &mut self.front)
    }

    /// The scans that the background begins with, in the memory of those planned before, which are none then.
    pub(crate) fn scans(
        &mut self,
        candidates: &[Candidate],
        background: Background,
    ) -> Result<Vec<ScanPlan>, NoMemory>
        ensures same { self.new ≡ record self.old { joint = self.new.joint } }
        ensures scans { IfOk result (λ scans. AreScans self.old.query.only candidates.now background scans.items) }
    {
        let plans = self.joint.take_plans();
        scans(self.alloc, &self.query.only, candidates, background, plans)
    }

    /// Takes the restriction out of a retrieval that is over, for its memory.
    pub fn take_only(&mut self) -> Restriction
        ensures only { result ≡ self.old.query.only }
        ensures over { self.new ≡ record self.old { query = record self.old.query { only = [] } } }
    {
        mem::replace(
            &mut self.query.only,
            Restriction::from_groups(Vec::new(self.alloc)),
        )
    }

    /// Begins under a strategy, with these background scans and the foreground that stands there, which is used where the
    /// strategy is sorted or index-only. It has read nothing, and nothing stands in its trace. On `NoMemory` it is of no more
    /// use.
    pub(crate) fn renew(
        &mut self,
        strategy: Strategy,
        scans: Vec<ScanPlan>,
        guaranteed: u64,
        cursor: u64,
        opening: u64,
    ) -> Result<(), NoMemory>
        requires { length scans.items ≤ 8 }
        ensures { OnOk result (Made self.old.query strategy scans.items self.old.front guaranteed cursor opening self.new) }
    {
        let delivered = match room(self.alloc, strategy) {
            Ok(delivered) => delivered,
            Err(fault) => {
                drop(scans);
                return Err(fault);
            }
        };
        self.control = first_control(strategy, has_scans(scans.as_slice()));
        self.ending = Final::new(self.alloc, self.query.table, self.query.snap);
        self.joint
            .renew(self.query.table, self.query.snap, scans, cursor, opening);
        self.delivered = delivered;
        self.strategy = strategy;
        self.borrowed = 0;
        self.guaranteed = guaranteed;
        renew_trace(&mut self.trace, strategy);
        Ok(())
    }

    /// Writes an event into the trace.
    pub(crate) fn note(&mut self, event: Event)
        ensures { self.new ≡ record self.old { trace = noted self.old.trace event } }
    {
        self.trace.note(event);
    }

    /// The index of a planned scan.
    pub(crate) fn index_of(&self, scan: u32) -> Option<u32>
        ensures { result ≡ index_of self.now.joint scan }
    {
        if scan < self.joint.planned() {
            Some(self.joint.plan(scan).index)
        } else {
            None
        }
    }

    /// The number of keys of the complete list.
    pub(crate) fn list_len(&self) -> u64
        ensures { result ≡ list_len self.now.joint.list }
    {
        match self.joint.list() {
            Some(list) => list.len(),
            None => 0,
        }
    }

    /// A list of so many keys is complete: so many fetches finish the retrieval.
    pub(crate) fn lower_guarantee(&mut self, keys: u64)
        ensures { self.new ≡ record self.old { guaranteed = guarantee_with self.old.guaranteed keys } }
    {
        self.guaranteed = keys.min(self.guaranteed);
    }

    /// Adds to the trace what a call has read.
    pub(crate) fn count(&mut self, before: Counts, after: Counts)
        ensures { self.new ≡ record self.old { trace = counted self.old.trace before after } }
    {
        self.trace.count(before, after);
    }

    /// What it did so far.
    pub fn trace(&self) -> &Trace
        ensures now { result.now ≡ self.now.trace }
        ensures allowed { Tells self.now → Allowed result.now (indexes_asked self.now.query) }
    {
        &self.trace
    }
}
