ghost use Rattle.std.specs.Prelude.{◌≡◌, ◌<◌, ◌+◌, List, [], ℕ, drop, length, map, true, IfOk, OnErr};
ghost use Rattle.rv_value.specs.declared.record.Record.{Record as OneRecord};
ghost use Rattle.rv_value.specs.declared.record.IndexEntry.{IndexEntry as OneEntry};
ghost use Rattle.rv_restrict.specs.declared.atom.Atom.{Atom};
ghost use Rattle.rv_restrict.specs.Truth.{qualifies};
ghost use Rattle.rv_reader.specs.Entries.{column_of, entry_of, run};
ghost use Rattle.rv_judge.specs.Counting.{leaf_read};
ghost use Rattle.rv_restrict.specs.Parts.{stands_among, value_in};
ghost use Rattle.rv_reader.specs.Shown.{CanScan, Suits};
ghost use Rattle.rv_scan.specs.Alongs.{Follows, leaf_work};
ghost use Rattle.rv_scan.specs.Due.{IsReady, Skipped, StepsTo, due, skipped};
ghost use Rattle.rv_scan.specs.Told.{FindsTold, Goes, KeyReads, NamesThese, SameWalk, Tells, TriedLeaf, told, told_rest, told_values, width};
ghost use Rattle.rv_scan.specs.declared.along.Ahead.TheVariants.{First};

use crate::along::Walk;
use crate::skip::Skip;
use rv_judge::Steps;
use rv_reader::{Reader, Step};
use rv_restrict::{Restriction, Tri};
use rv_value::{Duplicate, IndexEntry, NoMemory, Range, Record, Value, Values};
use std::alloc::Global;
use std::marker::Model;

/// A scan of an index in a range, in key order, of an index that has every column which is needed.
///
/// A record that it gives is what the index tells of a row: the values of the index's columns, each in its place, and
/// NULL before and between them. Contracts see the walk along the index. The rest, the records that it will still
/// give, is told of a reader's entries, a restriction, the columns and what is skipped.
#[derive(Drop)]
pub struct Sscan {
    walk: Walk,
}

impl Model for Sscan {
    ghost use Rattle.rv_scan.specs.Alongs.{Along};

    ghost Value = { Along };

    ghost view = { λ s. s.walk };
}

/// The greatest of the columns plus 1.
fn width_of(columns: &[u32]) -> usize
    ensures { result ≡ width columns.now }
{
    match columns {
        [] => 0,
        [first, more @ ..] => (*first as usize + 1).max(width_of(more)),
    }
}

/// A copy of the value of a column in a key, NULL where it has none.
fn copy_value(
    alloc: Global,
    columns: &[u32],
    key: &[Value],
    column: usize,
) -> Result<Value, NoMemory>
    ensures { IfOk result (λ v. v ≡ value_in columns.now key.now column) }
{
    match (columns, key) {
        ([first, more @ ..], [value, others @ ..]) => {
            if *first as usize == column {
                value.copy(alloc)
            } else {
                copy_value(alloc, more, others, column)
            }
        }
        ([], _) => Ok(Value::Null),
        ([_first, _more @ ..], []) => Ok(Value::Null),
    }
}

fn copy_values(alloc: Global, columns: &[u32], key: &[Value]) -> Result<Vec<Value>, NoMemory>
    ensures { IfOk result (λ values. values.items ≡ told_values columns.now key.now) }
{
    let width = width_of(columns);
    let mut values = Vec::with_capacity(alloc, width)?;
    'columns: for column in 0..width {
        values.push(copy_value(alloc, columns, key, column)?)?;
    }
    Ok(values)
}

/// The record that an entry tells of its row.
fn tell(alloc: Global, entry: &IndexEntry, columns: &[u32]) -> Result<Record, NoMemory>
    ensures { IfOk result (λ r. r ≡ told columns.now entry.now) }
{
    let values = copy_values(alloc, columns, entry.key.as_slice())?;
    Ok(Record {
        row: entry.row,
        values: Values::of(alloc, values)?,
    })
}

/// The record of an entry, where it is to be given.
fn tell_due(
    alloc: Global,
    entry: &IndexEntry,
    only: &Restriction,
    skip: &Skip<'_>,
    columns: &[u32],
) -> Result<Option<Record>, NoMemory>
    requires names { NamesThese columns.now only.now }
    requires ready { IsReady (skipped skip.now) }
    ensures { IfOk result (Tells columns.now only.now (skipped skip.now) entry.now) }
{
    if skip.skips(entry.row) {
        return Ok(None);
    }
    let record = tell(alloc, entry, columns)?;
    if only.truth(&record.values) == Tri::True {
        Ok(Some(record))
    } else {
        Ok(None)
    }
}

/// The first record that is to be given, and how many entries stand before its own.
fn next_told(
    alloc: Global,
    entries: &[IndexEntry],
    only: &Restriction,
    skip: &Skip<'_>,
    columns: &[u32],
) -> Result<Option<(usize, Record)>, NoMemory>
    requires names { NamesThese columns.now only.now }
    requires ready { IsReady (skipped skip.now) }
    ensures { IfOk result (FindsTold columns.now only.now (skipped skip.now) entries.now) }
{
    'entries: for at in 0..entries.len() {
        if let Some(record) = tell_due(alloc, &entries[at], only, skip, columns)? {
            return Ok(Some((at, record)));
        }
    }
    Ok(None)
}

/// The next record that is to be given on a walk, and how many entries stand before its own.
fn next_on(
    walk: &Walk,
    only: &Restriction,
    skip: &Skip<'_>,
    columns: &[u32],
) -> Result<Option<(usize, Record)>, NoMemory>
    requires names { NamesThese columns.now only.now }
    requires ready { IsReady (skipped skip.now) }
    ensures { IfOk result (FindsTold columns.now only.now (skipped skip.now) walk.now.held) }
{
    next_told(walk.allocator(), walk.held(), only, skip, columns)
}

/// Reads the next leaf of a walk, or ends where there is none.
fn turn_on<R: Reader>(
    walk: &mut Walk,
    reader: &R,
    steps: &mut Steps<R::Ledger>,
) -> Result<Step<Record>, NoMemory>
    requires scans { CanScan (R.shown reader.now) walk.old.index walk.old.snap }
    requires suits { Suits (R.shown reader.now) walk.old.index walk.old.snap walk.old.range }
    ensures goes { IfOk result (Goes walk.old walk.new ((R.shown reader.now).entries walk.old.index walk.old.snap) ((R.shown reader.now).cuts walk.old.index walk.old.snap)) }
    ensures reads { IfOk result (λ scanned. KeyReads scanned steps.old steps.new) }
    ensures err { OnErr result (walk.new ≡ walk.old) }
    ensures tried { OnErr result (steps.new ≡ leaf_read steps.old) }
    ensures same { (steps.new.pages ≡ steps.old.pages) × (steps.new.records ≡ steps.old.records) }
{
    let more = walk.turn(reader, steps)?;
    if more {
        Ok(Step::Working)
    } else {
        Ok(Step::End)
    }
}

/// Gives the next record that the index tells on a walk, or reads the next leaf, or ends. `columns` are the index's columns.
pub fn tell_along<R: Reader>(
    walk: &mut Walk,
    reader: &R,
    only: &Restriction,
    skip: &Skip<'_>,
    columns: &[u32],
    steps: &mut Steps<R::Ledger>,
) -> Result<Step<Record>, NoMemory>
    requires scans { CanScan (R.shown reader.now) walk.old.index walk.old.snap }
    requires suits { Suits (R.shown reader.now) walk.old.index walk.old.snap walk.old.range }
    requires names { NamesThese columns.now only.now }
    requires ready { IsReady (skipped skip.now) }
    ensures walk { SameWalk walk.old walk.new }
    ensures follows { Follows walk.old ((R.shown reader.now).entries walk.old.index walk.old.snap) → Follows walk.new ((R.shown reader.now).entries walk.old.index walk.old.snap) }
    ensures step { let shown = R.shown reader.now in let entries = shown.entries walk.old.index walk.old.snap in let cuts = shown.cuts walk.old.index walk.old.snap in IfOk result (λ scanned. StepsTo scanned (told_rest walk.old entries columns.now only.now (skipped skip.now)) (leaf_work walk.old entries cuts) (told_rest walk.new entries columns.now only.now (skipped skip.now)) (leaf_work walk.new entries cuts)) }
    ensures reads { IfOk result (λ scanned. KeyReads scanned steps.old steps.new) }
    ensures err { OnErr result (walk.new ≡ walk.old) }
    ensures tried { OnErr result (TriedLeaf steps.old steps.new) }
    ensures same { (steps.new.pages ≡ steps.old.pages) × (steps.new.records ≡ steps.old.records) }
{
    match next_on(walk, only, skip, columns)? {
        Some((passed, record)) => {
            walk.pass(passed);
            Ok(Step::Row(record))
        }
        None => turn_on(walk, reader, steps),
    }
}

impl Sscan {
    /// A scan that has read nothing. It takes no memory.
    pub fn new(alloc: Global, index: u32, snap: u64, range: Range) -> Sscan
        ensures place { result ≡ record { index = index; snap = snap; range = range; ahead = First; held = [] } }
        ensures follows { (entries : List OneEntry) → Follows result entries }
        ensures rest { (entries : List OneEntry) (columns : List ℕ) (only : List (List Atom)) (skip : Skipped) → told_rest result entries columns only skip ≡ due only skip (map (told columns) (run entries range)) }
        ensures work { (entries cuts : List OneEntry) → leaf_work result entries cuts ≡ length (run entries range) + (length cuts + 1) }

        // What the index has of a row is told as it stands in the row, so the rows that qualify are those whose records do.
        ensures agrees { (columns : List ℕ) (row : OneRecord) (c : ℕ) → stands_among columns c ≡ true → column_of (told columns (entry_of columns row)).values c ≡ column_of row.values c }
        ensures qualify { (columns : List ℕ) (only : List (List Atom)) (row : OneRecord) → NamesThese columns only → qualifies only (told columns (entry_of columns row)).values ≡ qualifies only row.values }
    {
        Sscan {
            walk: Walk::new(alloc, index, snap, range),
        }
    }

    /// Gives the next record that the index tells, or reads the next leaf, or ends. `columns` are the index's columns.
    pub fn step<R: Reader>(
        &mut self,
        reader: &R,
        only: &Restriction,
        skip: &Skip<'_>,
        columns: &[u32],
        steps: &mut Steps<R::Ledger>,
    ) -> Result<Step<Record>, NoMemory>
        requires scans { CanScan (R.shown reader.now) self.old.index self.old.snap }
        requires suits { Suits (R.shown reader.now) self.old.index self.old.snap self.old.range }
        requires names { NamesThese columns.now only.now }
        requires ready { IsReady (skipped skip.now) }
        ensures walk { SameWalk self.old self.new }
        ensures follows { Follows self.old ((R.shown reader.now).entries self.old.index self.old.snap) → Follows self.new ((R.shown reader.now).entries self.old.index self.old.snap) }
        ensures step { let shown = R.shown reader.now in let entries = shown.entries self.old.index self.old.snap in let cuts = shown.cuts self.old.index self.old.snap in IfOk result (λ scanned. StepsTo scanned (told_rest self.old entries columns.now only.now (skipped skip.now)) (leaf_work self.old entries cuts) (told_rest self.new entries columns.now only.now (skipped skip.now)) (leaf_work self.new entries cuts)) }
        ensures reads { IfOk result (λ scanned. KeyReads scanned steps.old steps.new) }
        ensures err { OnErr result (self.new ≡ self.old) }
        ensures tried { OnErr result (TriedLeaf steps.old steps.new) }
        ensures same { (steps.new.pages ≡ steps.old.pages) × (steps.new.records ≡ steps.old.records) }
    {
        tell_along(&mut self.walk, reader, only, skip, columns, steps)
    }
}
