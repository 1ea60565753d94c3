ghost use Rattle.std.specs.Prelude.{◌≡◌, ◌+◌, ◌<◌, List, ℕ, drop, length, IfOk, OnErr, OnOk};
ghost use Rattle.std.specs.List.{slice_index_or};
ghost use Rattle.rv_value.specs.declared.record.Record.{Record as OneRecord};
ghost use Rattle.rv_judge.specs.Counting.{page_read};
ghost use Rattle.rv_restrict.specs.declared.atom.Atom.{Atom};
ghost use Rattle.rv_reader.specs.Shown.{CanRead};
ghost use Rattle.rv_reader.specs.Tables.{IsTable};
ghost use Rattle.rv_scan.specs.Due.{HaveColumns, IsReady, Skipped, StepsTo, due, skipped};
ghost use Rattle.rv_scan.specs.Places.{Fits, PageReads, PageTurns, Turns, rest, work};

use crate::skip::{Skip, next_due};
use rv_judge::Steps;
use rv_reader::{Reader, Step};
use rv_restrict::Restriction;
use rv_value::{NoMemory, Record, RowNo, Values};
use std::alloc::Global;
use std::marker::Model;

/// A scan of a table at a snapshot, by its pages in sequence.
///
/// Contracts see the next page and what is left of the page before it. The rest, the rows that it will still give, is
/// told of a reader's rows, a restriction and what is skipped.
#[derive(Drop)]
pub struct Tscan {
    alloc: Global,
    table: u32,
    snap: u64,
    next: u32,
    held: Vec<Record>,
    at: usize,
}

impl Model for Tscan {
    ghost use Rattle.std.specs.Prelude.{drop, length, ◌≤◌};
    ghost use Rattle.rv_scan.specs.Places.{Place};

    ghost Value = { Place };

    ghost view = { λ s. record { table = s.table; snap = s.snap; next = s.next; held = drop s.at s.held.items } };

    ghost invariant = { λ s. s.at ≤ length s.held.items };
}

impl Tscan {
    /// A scan that has read nothing. It takes no memory.
    pub fn new(alloc: Global, table: u32, snap: u64) -> Tscan
        ensures table { result.table ≡ table }
        ensures snap { result.snap ≡ snap }
        ensures fits { (rows : List OneRecord) → Fits result rows }
        ensures rest { (rows : List OneRecord) (only : List (List Atom)) (skip : Skipped) → rest result rows only skip ≡ due only skip rows }
        ensures work { (rows : List OneRecord) (pages : ℕ) → work result rows pages ≡ length rows + pages }
    {
        Tscan {
            alloc,
            table,
            snap,
            next: 0,
            held: Vec::new(alloc),
            at: 0,
        }
    }

    /// What is left of the page that is held.
    fn held(&self) -> &[Record]
        ensures { result.now ≡ self.now.held }
    {
        self.held.as_slice().split_at(self.at).1
    }

    /// Gives the row behind so many others of the page that is held.
    fn give(&mut self, passed: usize) -> Record
        requires { passed < length self.old.held }
        ensures row { (d : OneRecord) → result ≡ slice_index_or self.old.held passed d }
        ensures after { self.new ≡ record self.old { held = drop (passed + 1) self.old.held } }
    {
        let place = self.at + passed;
        let blank = Record {
            row: RowNo(0),
            values: Values::empty(),
        };
        self.at = place + 1;
        std::mem::replace(&mut self.held[place], blank)
    }

    /// Reads the next page, where there is one.
    fn turn<R: Reader>(
        &mut self,
        reader: &R,
        steps: &mut Steps<R::Ledger>,
    ) -> Result<Step<Record>, NoMemory>
        requires { CanRead (R.shown reader.now) self.old.table self.old.snap }
        ensures turns { IfOk result (Turns self.old self.new ((R.shown reader.now).rows self.old.table self.old.snap) ((R.shown reader.now).pages self.old.table self.old.snap)) }
        ensures table { IsTable ((R.shown reader.now).rows self.old.table self.old.snap) ((R.shown reader.now).pages self.old.table self.old.snap) }
        ensures reads { IfOk result (λ scanned. PageReads scanned steps.old steps.new) }
        ensures err { OnErr result (self.new ≡ self.old) }
        ensures tried { OnErr result (steps.new ≡ page_read steps.old) }
    {
        let sizes = reader.sizes(self.table, self.snap);
        if self.next >= sizes.pages {
            return Ok(Step::End);
        }
        let page = reader.page(self.alloc, self.table, self.snap, self.next, steps)?;
        let _before = std::mem::replace(&mut self.held, page);
        self.at = 0;
        self.next += 1;
        Ok(Step::Working)
    }

    /// Gives the next row of the page that is held, or reads the next page, or ends.
    pub fn step<R: Reader>(
        &mut self,
        reader: &R,
        only: &Restriction,
        skip: &Skip<'_>,
        steps: &mut Steps<R::Ledger>,
    ) -> Result<Step<Record>, NoMemory>
        requires can { CanRead (R.shown reader.now) self.old.table self.old.snap }
        requires fits { Fits self.old ((R.shown reader.now).rows self.old.table self.old.snap) }
        requires columns { HaveColumns only.now ((R.shown reader.now).rows self.old.table self.old.snap) }
        requires ready { IsReady (skipped skip.now) }
        ensures table { self.new.table ≡ self.old.table }
        ensures snap { self.new.snap ≡ self.old.snap }
        ensures fits { Fits self.new ((R.shown reader.now).rows self.old.table self.old.snap) }
        ensures step { let rows = (R.shown reader.now).rows self.old.table self.old.snap in let pages = (R.shown reader.now).pages self.old.table self.old.snap in IfOk result (λ scanned. StepsTo scanned (rest self.old rows only.now (skipped skip.now)) (work self.old rows pages) (rest self.new rows only.now (skipped skip.now)) (work self.new rows pages)) }
        ensures reads { IfOk result (λ scanned. PageReads scanned steps.old steps.new) }
        ensures pages { IfOk result (λ scanned. PageTurns scanned self.old self.new ((R.shown reader.now).pages self.old.table self.old.snap)) }
        ensures err { OnErr result (self.new ≡ self.old) }
        ensures tried { OnErr result (steps.new ≡ page_read steps.old) }
    {
        match next_due(self.held(), only, skip) {
            Some(passed) => Ok(Step::Row(self.give(passed))),
            None => self.turn(reader, steps),
        }
    }
}
