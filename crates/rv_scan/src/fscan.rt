ghost use Rattle.std.specs.Prelude.{◌≡◌, ◌<◌, ◌≤◌, ◌+◌, List, [], drop, length, true, IfOk, OnOk, OnErr, IfSome};
ghost use Rattle.rv_value.specs.declared.record.Record.{Record as OneRecord};
ghost use Rattle.rv_value.specs.declared.record.IndexEntry.{IndexEntry as OneEntry};
ghost use Rattle.rv_restrict.specs.declared.atom.Atom.{Atom};
ghost use Rattle.rv_reader.specs.Entries.{run};
ghost use Rattle.rv_judge.specs.Counting.{leaf_read, record_read};
ghost use Rattle.rv_restrict.specs.Truth.{names_only, row_has};
ghost use Rattle.rv_reader.specs.Shown.{CanRead, CanScan, Suits};
ghost use Rattle.rv_reader.specs.Tables.{row_at};
ghost use Rattle.rv_scan.specs.Due.{HaveColumns, IsReady, Skipped, StepsTo, due, skipped};
ghost use Rattle.rv_scan.specs.Alongs.{Follows, FetchReads, FetchesDue, FindsEntry, SamePlace, TriedOne, Turned, fetch_rest, fetched, leaf_work, looked, to_fetch};
ghost use Rattle.rv_scan.specs.Told.{KeyReads, NamesThese, SameWalk, TriedLeaf, told_rest};
ghost use Rattle.rv_scan.specs.declared.along.Ahead.TheVariants.{First};

use crate::along::{Walk, next_given};
use crate::skip::Skip;
use crate::sscan::tell_along;
use rv_judge::Steps;
use rv_reader::{Reader, Step};
use rv_restrict::{Restriction, Tri};
use rv_value::{NoMemory, Range, Record, RowNo};
use std::alloc::Global;
use std::marker::Model;

/// A scan of an index in a range, with a record fetched for each entry, in key order.
///
/// Contracts see the table and the walk along the index. The rest, the rows that it will still give in the order of
/// their entries, is told of a reader's lists, a restriction and what is skipped.
#[derive(Drop)]
pub struct Fscan {
    table: u32,
    walk: Walk,
}

impl Model for Fscan {
    ghost use Rattle.rv_scan.specs.Alongs.{Fetching};

    ghost Value = { Fetching };

    ghost view = { λ s. record { table = s.table; walk = s.walk } };
}

/// What the record that was found for a row comes to: it is given where it qualifies.
#[inline(always)]
pub fn look(found: Option<Record>, only: &Restriction) -> Step<Record>
    requires { IfSome found (λ r. names_only (row_has r.values) only.now ≡ true) }
    ensures { result ≡ looked only.now found }
{
    match found {
        None => Step::Working,
        Some(found) => {
            if only.truth(&found.values) == Tri::True {
                Step::Row(found)
            } else {
                Step::Working
            }
        }
    }
}

impl Fscan {
    /// A scan that has read nothing. It takes no memory.
    pub fn new(alloc: Global, table: u32, index: u32, snap: u64, range: Range) -> Fscan
        ensures place { result ≡ record { table = table; walk = record { index = index; snap = snap; range = range; ahead = First; held = [] } } }
        ensures follows { (entries : List OneEntry) → Follows result.walk entries }
        ensures rest { (entries : List OneEntry) (rows : List OneRecord) (only : List (List Atom)) (skip : Skipped) → fetch_rest result.walk entries rows only skip ≡ due only skip (fetched rows (run entries range)) }
        ensures work { (entries cuts : List OneEntry) → leaf_work result.walk entries cuts ≡ length (run entries range) + (length cuts + 1) }
    {
        Fscan {
            table,
            walk: Walk::new(alloc, index, snap, range),
        }
    }

    /// The number of the row of the next entry that is not skipped, and how many stand before it.
    fn next(&self, skip: &Skip<'_>) -> Option<(usize, RowNo)>
        requires { IsReady (skipped skip.now) }
        ensures { FindsEntry (skipped skip.now) self.now.walk.held result }
    {
        let held = self.walk.held();
        match next_given(held, skip) {
            None => None,
            Some(at) => Some((at, held[at].row)),
        }
    }

    /// Fetches the next row that is not skipped, or reads the next leaf, or ends.
    pub fn step<R: Reader>(
        &mut self,
        reader: &R,
        only: &Restriction,
        skip: &Skip<'_>,
        steps: &mut Steps<R::Ledger>,
    ) -> Result<Step<Record>, NoMemory>
        requires can { CanRead (R.shown reader.now) self.old.table self.old.walk.snap }
        requires scans { CanScan (R.shown reader.now) self.old.walk.index self.old.walk.snap }
        requires suits { Suits (R.shown reader.now) self.old.walk.index self.old.walk.snap self.old.walk.range }
        requires columns { HaveColumns only.now ((R.shown reader.now).rows self.old.table self.old.walk.snap) }
        requires ready { IsReady (skipped skip.now) }
        ensures place { SamePlace self.old self.new }
        ensures follows { Follows self.old.walk ((R.shown reader.now).entries self.old.walk.index self.old.walk.snap) → Follows self.new.walk ((R.shown reader.now).entries self.old.walk.index self.old.walk.snap) }
        ensures step { let shown = R.shown reader.now in let entries = shown.entries self.old.walk.index self.old.walk.snap in let cuts = shown.cuts self.old.walk.index self.old.walk.snap in let rows = shown.rows self.old.table self.old.walk.snap in IfOk result (λ scanned. StepsTo scanned (fetch_rest self.old.walk entries rows only.now (skipped skip.now)) (leaf_work self.old.walk entries cuts) (fetch_rest self.new.walk entries rows only.now (skipped skip.now)) (leaf_work self.new.walk entries cuts)) }
        ensures reads { IfOk result (λ scanned. FetchReads scanned steps.old steps.new) }
        ensures fetches { IfOk result (λ scanned. FetchesDue (skipped skip.now) only.now ((R.shown reader.now).rows self.old.table self.old.walk.snap) scanned steps.old steps.new) }
        ensures err { OnErr result (self.new ≡ self.old) }
        ensures tried { OnErr result (TriedOne steps.old steps.new) }
        ensures records { let entries = (R.shown reader.now).entries self.old.walk.index self.old.walk.snap in IfOk result (λ scanned. steps.new.records + to_fetch self.new.walk entries (skipped skip.now) ≤ steps.old.records + to_fetch self.old.walk entries (skipped skip.now)) }
        ensures pages { steps.new.pages ≡ steps.old.pages }
    {
        match self.next(skip) {
            None => self.turn(reader, steps),
            Some((passed, row)) => {
                let found = reader.fetch(
                    self.walk.allocator(),
                    self.table,
                    self.walk.snap(),
                    row,
                    steps,
                )?;
                let scanned = look(found, only);
                self.walk.pass(passed);
                Ok(scanned)
            }
        }
    }

    /// A step of a scan of the index alone on the same walk. `columns` are the index's columns, and no record is fetched.
    pub(crate) fn tell<R: Reader>(
        &mut self,
        reader: &R,
        only: &Restriction,
        skip: &Skip<'_>,
        columns: &[u32],
        steps: &mut Steps<R::Ledger>,
    ) -> Result<Step<Record>, NoMemory>
        requires scans { CanScan (R.shown reader.now) self.old.walk.index self.old.walk.snap }
        requires suits { Suits (R.shown reader.now) self.old.walk.index self.old.walk.snap self.old.walk.range }
        requires names { NamesThese columns.now only.now }
        requires ready { IsReady (skipped skip.now) }
        ensures table { self.new.table ≡ self.old.table }
        ensures walk { SameWalk self.old.walk self.new.walk }
        ensures follows { Follows self.old.walk ((R.shown reader.now).entries self.old.walk.index self.old.walk.snap) → Follows self.new.walk ((R.shown reader.now).entries self.old.walk.index self.old.walk.snap) }
        ensures step { let shown = R.shown reader.now in let entries = shown.entries self.old.walk.index self.old.walk.snap in let cuts = shown.cuts self.old.walk.index self.old.walk.snap in IfOk result (λ scanned. StepsTo scanned (told_rest self.old.walk entries columns.now only.now (skipped skip.now)) (leaf_work self.old.walk entries cuts) (told_rest self.new.walk entries columns.now only.now (skipped skip.now)) (leaf_work self.new.walk entries cuts)) }
        ensures reads { IfOk result (λ scanned. KeyReads scanned steps.old steps.new) }
        ensures err { OnErr result (self.new ≡ self.old) }
        ensures tried { OnErr result (TriedLeaf steps.old steps.new) }
        ensures same { (steps.new.pages ≡ steps.old.pages) × (steps.new.records ≡ steps.old.records) }
    {
        tell_along(&mut self.walk, reader, only, skip, columns, steps)
    }

    /// Reads the next leaf, or ends where there is none.
    fn turn<R: Reader>(
        &mut self,
        reader: &R,
        steps: &mut Steps<R::Ledger>,
    ) -> Result<Step<Record>, NoMemory>
        requires scans { CanScan (R.shown reader.now) self.old.walk.index self.old.walk.snap }
        requires suits { Suits (R.shown reader.now) self.old.walk.index self.old.walk.snap self.old.walk.range }
        ensures turned { IfOk result (Turned self.old self.new ((R.shown reader.now).entries self.old.walk.index self.old.walk.snap) ((R.shown reader.now).cuts self.old.walk.index self.old.walk.snap)) }
        ensures reads { IfOk result (λ scanned. FetchReads scanned steps.old steps.new) }
        ensures records { OnOk result (steps.new.records ≡ steps.old.records) }
        ensures err { OnErr result (self.new ≡ self.old) }
        ensures tried { OnErr result (steps.new ≡ leaf_read steps.old) }
        ensures same { (steps.new.pages ≡ steps.old.pages) × (steps.new.records ≡ steps.old.records) }
    {
        let more = self.walk.turn(reader, steps)?;
        if more {
            Ok(Step::Working)
        } else {
            Ok(Step::End)
        }
    }

    /// Becomes a scan that has read nothing, as `new` makes it. It takes no memory.
    #[inline(always)]
    pub(crate) fn renew(&mut self, table: u32, index: u32, snap: u64, range: Range)
        ensures { self.new ≡ record { table = table; walk = record { index = index; snap = snap; range = range; ahead = First; held = [] } } }
    {
        self.table = table;
        self.walk.renew(index, snap, range);
    }
}
