//! What stands around the scans of a retrieval that has no foreground.
ghost use Rattle.std.specs.Prelude.{◌≡◌, ◌+◌, ℕ, List, Option, None, length, IfOk, OnErr};
ghost use Rattle.std.specs.Option.{option_copied};
ghost use Rattle.rv_value.specs.declared.record.Record.{Record as OneRecord};
ghost use Rattle.rv_rows.specs.Rows.{Ascend};
ghost use Rattle.rv_judge.specs.Counting.{page_read, record_read};
ghost use Rattle.rv_judge.specs.Tracing.{counted, noted};
ghost use Rattle.rv_reader.specs.Shown.{CanRead};
ghost use Rattle.rv_scan.specs.Due.{HaveColumns};
ghost use Rattle.rv_scan.specs.Places.{Fits as PlaceFits, PageReads, PageTurns, work};
ghost use Rattle.rv_scan.specs.Reads.{OneAtMost};
ghost use Rattle.rv_jscan.specs.Joint.{keys_of};
ghost use Rattle.rv_final.specs.Rest.{StepMarks};
ghost use Rattle.rv_final.specs.Shell.{FinalStep, IsFinal, ShellFits, ended, ended_by, first_trace, gone, keys_work, scanning, table_work, unnoted};
ghost use Rattle.rv_final.specs.Stage.{FetchesKey, LastFits, PassesKeys, Unbegun, first_key, list_left, table_left};
ghost use Rattle.rv_final.specs.Work.{Falls, Tries};

use crate::stage::Final;
use rv_judge::{Control, Counts, Event, Happening, Steps, Strategy, Trace, course};
use rv_keylist::KeyList;
use rv_reader::{Reader, Step};
use rv_restrict::Restriction;
use rv_value::{NoMemory, Record};
use std::alloc::Global;
use std::marker::Model;

/// Which side runs of a retrieval that has no foreground, its final stage, and what it did so far. The scans, their list and
/// what is asked are the caller's.
#[derive(Drop)]
pub struct Shell {
    control: Control,
    ending: Final,
    trace: Trace,
}

impl Model for Shell {
    ghost use Rattle.rv_final.specs.Shell.{Shelled};

    ghost Value = { Shelled };

    ghost view = { λ s. record { control = s.control; at = s.ending.at; last = s.ending.last; trace = s.trace } };
}

/// Takes the last event away.
fn unnote(trace: &mut Trace)
    ensures { trace.new ≡ unnoted trace.old }
{
    let _last = trace.events.pop();
}

impl Shell {
    /// The background runs alone, and an index is scanned. It takes no memory.
    pub fn new(alloc: Global, table: u32, snap: u64, strategy: Strategy, first: u32) -> Shell
        ensures control { result.control ≡ Control.BackgroundAlone }
        ensures trace { result.trace ≡ first_trace strategy first }
        ensures table { result.last.table ≡ table }
        ensures snap { result.last.snap ≡ snap }
        ensures unbegun { Unbegun result.at result.last }
        ensures drawn { (rows : List OneRecord) → PlaceFits result.last rows }
        ensures work { (rows : List OneRecord) (pages : ℕ) → work result.last rows pages ≡ length rows + pages }
    {
        let mut trace = Trace::new(strategy);
        trace.note(Event::At(Control::BackgroundAlone));
        trace.note(Event::Scan(first));
        let ending = Final::new(alloc, table, snap);
        Shell {
            control: Control::BackgroundAlone,
            ending,
            trace,
        }
    }

    /// Which side runs.
    pub fn control(&self) -> Control
        ensures { result ≡ self.now.control }
    {
        self.control
    }

    /// What it did so far.
    pub fn trace(&self) -> &Trace
        ensures { result.now ≡ self.now.trace }
    {
        &self.trace
    }

    /// Whether scans are under way.
    pub fn is_scanning(&self) -> bool
        ensures { result ≡ scanning self.now.control }
    {
        match self.control {
            Control::BackgroundAlone => true,
            Control::Building
            | Control::ForegroundAlone
            | Control::FinalList
            | Control::FinalTable
            | Control::Done => false,
        }
    }

    /// Writes an event into the trace.
    pub fn note(&mut self, event: Event)
        ensures { self.new ≡ record self.old { trace = noted self.old.trace event } }
    {
        self.trace.note(event);
    }

    /// Takes the last event out of the trace.
    pub fn unnote(&mut self)
        ensures { self.new ≡ record self.old { trace = unnoted self.old.trace } }
    {
        unnote(&mut self.trace);
    }

    /// Goes to the control to which a happening leads, and writes it into the trace.
    pub fn go(&mut self, strategy: Strategy, happening: Happening)
        ensures { self.new ≡ gone strategy happening self.old }
    {
        let next = course(strategy, self.control, happening);
        self.control = next;
        self.trace.note(Event::At(next));
    }

    /// Adds to the trace what a call has read.
    pub fn count(&mut self, before: Counts, after: Counts)
        ensures { self.new ≡ record self.old { trace = counted self.old.trace before after } }
    {
        self.trace.count(before, after);
    }

    fn end(&mut self)
        ensures { self.new ≡ ended self.old }
    {
        self.control = Control::Done;
        self.trace.note(Event::At(Control::Done));
    }

    /// An end leads to the last control.
    fn end_by(&mut self, scanned: &Step<Record>)
        ensures { self.new ≡ ended_by scanned.now self.old }
    {
        match scanned {
            Step::End => self.end(),
            Step::Row(_) | Step::Working => {}
        }
    }

    fn scan_list<R: Reader>(
        &mut self,
        reader: &R,
        table: u32,
        snap: u64,
        only: &Restriction,
        list: Option<&KeyList>,
        steps: &mut Steps<R::Ledger>,
    ) -> Result<Step<Record>, NoMemory>
        requires can { CanRead (R.shown reader.now) table snap }
        requires ascend { Ascend ((R.shown reader.now).rows table snap) }
        requires columns { HaveColumns only.now ((R.shown reader.now).rows table snap) }
        ensures same { self.new ≡ record self.old { at = self.new.at } }
        ensures marks { (need : List ℕ) → IfOk result (λ s. StepMarks need only.now ((R.shown reader.now).rows table snap) s (list_left (keys_of (option_copied list.entry)) None self.old.at) (list_left (keys_of (option_copied list.entry)) None self.new.at)) }
        ensures fetches { IfOk result (FetchesKey (first_key (keys_of (option_copied list.entry)) None self.old.at) only.now ((R.shown reader.now).rows table snap) steps.old steps.new) }
        ensures passed { OnErr result (PassesKeys (keys_of (option_copied list.entry)) None self.old.at self.new.at) }
        ensures may_read { OneAtMost record_read steps.old steps.new }
        ensures tries { Tries steps.old steps.new (keys_work (keys_of (option_copied list.entry)) self.old) (keys_work (keys_of (option_copied list.entry)) self.new) }
        ensures falls { IfOk result (λ s. Falls s steps.old steps.new (keys_work (keys_of (option_copied list.entry)) self.old) (keys_work (keys_of (option_copied list.entry)) self.new)) }
    {
        self.ending
            .list_step(reader, table, snap, only, list, None, steps)
    }

    fn scan_table<R: Reader>(
        &mut self,
        reader: &R,
        table: u32,
        snap: u64,
        only: &Restriction,
        steps: &mut Steps<R::Ledger>,
    ) -> Result<Step<Record>, NoMemory>
        requires can { CanRead (R.shown reader.now) table snap }
        requires ascend { Ascend ((R.shown reader.now).rows table snap) }
        requires columns { HaveColumns only.now ((R.shown reader.now).rows table snap) }
        requires last { LastFits table snap self.old.last (R.shown reader.now) }
        ensures same { self.new ≡ record self.old { last = self.new.last } }
        ensures last { LastFits table snap self.new.last (R.shown reader.now) }
        ensures marks { (need : List ℕ) → IfOk result (λ s. StepMarks need only.now ((R.shown reader.now).rows table snap) s (table_left self.old.last ((R.shown reader.now).rows table snap) None) (table_left self.new.last ((R.shown reader.now).rows table snap) None)) }
        ensures err { OnErr result (self.new ≡ self.old) }
        ensures may_read { OneAtMost page_read steps.old steps.new }
        ensures reads { IfOk result (λ s. PageReads s steps.old steps.new) }
        ensures turns { IfOk result (λ s. PageTurns s self.old.last self.new.last ((R.shown reader.now).pages table snap)) }
        ensures tries { Tries steps.old steps.new (table_work ((R.shown reader.now).rows table snap) ((R.shown reader.now).pages table snap) self.old) (table_work ((R.shown reader.now).rows table snap) ((R.shown reader.now).pages table snap) self.new) }
        ensures falls { IfOk result (λ s. Falls s steps.old steps.new (table_work ((R.shown reader.now).rows table snap) ((R.shown reader.now).pages table snap) self.old) (table_work ((R.shown reader.now).rows table snap) ((R.shown reader.now).pages table snap) self.new)) }
    {
        self.ending.table_step(reader, only, None, steps)
    }

    fn list_step<R: Reader>(
        &mut self,
        reader: &R,
        table: u32,
        snap: u64,
        only: &Restriction,
        list: Option<&KeyList>,
        steps: &mut Steps<R::Ledger>,
    ) -> Result<Step<Record>, NoMemory>
        requires control { self.old.control ≡ Control.FinalList }
        requires can { CanRead (R.shown reader.now) table snap }
        requires ascend { Ascend ((R.shown reader.now).rows table snap) }
        requires columns { HaveColumns only.now ((R.shown reader.now).rows table snap) }
        requires last { LastFits table snap self.old.last (R.shown reader.now) }
        ensures { FinalStep table snap only.now (keys_of (option_copied list.entry)) (R.shown reader.now) steps.old steps.new result self.old self.new }
    {
        let scanned = self.scan_list(reader, table, snap, only, list, steps)?;
        self.end_by(&scanned);
        Ok(scanned)
    }

    fn table_step<R: Reader>(
        &mut self,
        reader: &R,
        table: u32,
        snap: u64,
        only: &Restriction,
        steps: &mut Steps<R::Ledger>,
    ) -> Result<Step<Record>, NoMemory>
        requires control { self.old.control ≡ Control.FinalTable }
        requires can { CanRead (R.shown reader.now) table snap }
        requires ascend { Ascend ((R.shown reader.now).rows table snap) }
        requires columns { HaveColumns only.now ((R.shown reader.now).rows table snap) }
        requires last { LastFits table snap self.old.last (R.shown reader.now) }
        ensures { (list : Option (List ℕ)) → FinalStep table snap only.now list (R.shown reader.now) steps.old steps.new result self.old self.new }
    {
        let scanned = self.scan_table(reader, table, snap, only, steps)?;
        self.end_by(&scanned);
        Ok(scanned)
    }

    /// A step of the final stage of what was asked: the next record of the complete list that qualifies, or the next one of
    /// the table. An end leads to the last control.
    pub fn step<R: Reader>(
        &mut self,
        reader: &R,
        table: u32,
        snap: u64,
        only: &Restriction,
        list: Option<&KeyList>,
        steps: &mut Steps<R::Ledger>,
    ) -> Result<Step<Record>, NoMemory>
        requires over { IsFinal self.old.control }
        requires fits { ShellFits table snap only.now (R.shown reader.now) self.old }
        ensures { FinalStep table snap only.now (keys_of (option_copied list.entry)) (R.shown reader.now) steps.old steps.new result self.old self.new }
    {
        match self.control() {
            Control::FinalList => self.list_step(reader, table, snap, only, list, steps),
            Control::FinalTable => self.table_step(reader, table, snap, only, steps),
            Control::Building
            | Control::ForegroundAlone
            | Control::BackgroundAlone
            | Control::Done => unreachable!(),
        }
    }
}
