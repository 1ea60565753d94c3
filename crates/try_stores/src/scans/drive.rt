//! Scans to their end. What each gives is told by a filter of the rows, or of what the index tells.
ghost use Rattle.std.specs.Prelude.{◌≡◌, IfOk, map};
ghost use Rattle.rv_reader.specs.Entries.{run};
ghost use Rattle.rv_reader.specs.Shown.{CanRead, CanScan, Suits};
ghost use Rattle.rv_scan.specs.Alongs.{fetched};
ghost use Rattle.rv_scan.specs.Due.{HaveColumns, IsReady, due, skipped};
ghost use Rattle.rv_scan.specs.Told.{NamesThese, told};

use crate::list::put;
use rv_judge::Steps;
use rv_reader::{Reader, Step};
use rv_restrict::Restriction;
use rv_scan::{Fscan, Skip, Sscan, Tscan};
use rv_value::{NoMemory, Range, Record};
use std::alloc::Global;

/// What a scan by pages gives.
pub fn by_pages<R: Reader>(
    alloc: Global,
    reader: &R,
    table: u32,
    snap: u64,
    only: &Restriction,
    skip: &Skip<'_>,
    steps: &mut Steps<R::Ledger>,
) -> Result<Vec<Record>, NoMemory>
    requires can { CanRead (R.shown reader.now) table snap }
    requires columns { HaveColumns only.now ((R.shown reader.now).rows table snap) }
    requires ready { IsReady (skipped skip.now) }
    ensures { IfOk result (λ found. found.items ≡ due only.now (skipped skip.now) ((R.shown reader.now).rows table snap)) }
{
    let mut scan = Tscan::new(alloc, table, snap);
    let mut found = Vec::new(alloc);
    'scan: loop {
        match scan.step(reader, only, skip, steps) {
            Ok(Step::Row(row)) => {
                if let Err(fault) = put(&mut found, row) {
                    drop(scan);
                    return Err(fault);
                }
            }
            Ok(Step::Working) => {}
            Ok(Step::End) => {
                drop(scan);
                return Ok(found);
            }
            Err(fault) => {
                drop(scan);
                return Err(fault);
            }
        }
    }
}

/// What a scan of an index with fetches gives.
pub fn by_fetches<R: Reader>(
    alloc: Global,
    reader: &R,
    table: u32,
    index: u32,
    snap: u64,
    range: Range,
    only: &Restriction,
    skip: &Skip<'_>,
    steps: &mut Steps<R::Ledger>,
) -> Result<Vec<Record>, NoMemory>
    requires can { CanRead (R.shown reader.now) table snap }
    requires scans { CanScan (R.shown reader.now) index snap }
    requires suits { Suits (R.shown reader.now) index snap range }
    requires columns { HaveColumns only.now ((R.shown reader.now).rows table snap) }
    requires ready { IsReady (skipped skip.now) }
    ensures { let shown = R.shown reader.now in IfOk result (λ found. found.items ≡ due only.now (skipped skip.now) (fetched (shown.rows table snap) (run (shown.entries index snap) range))) }
{
    let mut scan = Fscan::new(alloc, table, index, snap, range);
    let mut found = Vec::new(alloc);
    'scan: loop {
        match scan.step(reader, only, skip, steps) {
            Ok(Step::Row(row)) => {
                if let Err(fault) = put(&mut found, row) {
                    drop(scan);
                    return Err(fault);
                }
            }
            Ok(Step::Working) => {}
            Ok(Step::End) => {
                drop(scan);
                return Ok(found);
            }
            Err(fault) => {
                drop(scan);
                return Err(fault);
            }
        }
    }
}

/// What a scan of an index alone gives.
pub fn by_keys<R: Reader>(
    alloc: Global,
    reader: &R,
    index: u32,
    snap: u64,
    range: Range,
    columns: &[u32],
    only: &Restriction,
    skip: &Skip<'_>,
    steps: &mut Steps<R::Ledger>,
) -> Result<Vec<Record>, NoMemory>
    requires scans { CanScan (R.shown reader.now) index snap }
    requires suits { Suits (R.shown reader.now) index snap range }
    requires names { NamesThese columns.now only.now }
    requires ready { IsReady (skipped skip.now) }
    ensures { IfOk result (λ found. found.items ≡ due only.now (skipped skip.now) (map (told columns.now) (run ((R.shown reader.now).entries index snap) range))) }
{
    let mut scan = Sscan::new(alloc, index, snap, range);
    let mut found = Vec::new(alloc);
    'scan: loop {
        match scan.step(reader, only, skip, columns, steps) {
            Ok(Step::Row(row)) => {
                if let Err(fault) = put(&mut found, row) {
                    drop(scan);
                    return Err(fault);
                }
            }
            Ok(Step::Working) => {}
            Ok(Step::End) => {
                drop(scan);
                return Ok(found);
            }
            Err(fault) => {
                drop(scan);
                return Err(fault);
            }
        }
    }
}
