//! Gives a paged store and a plain one the same hundred commits of 128 changes each, with sweeps between them, and
//! compares what both show: rows, fetched rows, sizes, entries leaf by leaf and exact estimates, at every snapshot that
//! is kept. Then it writes the leaves and some estimates of the paged store's trees. The file `stdout` has what
//! tools/tables/try_paged.py finds by the rules in words.
ghost use Rattle.std.specs.Prelude.{◌<◌, ◌≤◌, OnOk};
ghost use Rattle.try_stores.specs.Twins.{AreLaid};

mod compare;
mod generate;
mod kinds;
mod shape;
mod twins;

use crate::paged::compare::{
    Difference, Tally, What, compare_changed, compare_snapshot, compare_snapshots,
};
use crate::paged::generate::changes_of;
use crate::paged::kinds::{Kinds, count_kinds};
use crate::paged::shape::{tell_leaves, tell_range};
use crate::paged::twins::Twins;
use crate::told::Told;
use rv_loading::Fault;
use rv_reader::Change;
use rv_value::NoMemory;
use std::alloc::Global;

/// What was done so far.
#[derive(Drop)]
struct Run {
    twins: Twins,
    kinds: Kinds,
    tally: Tally,
}

/// Two tables and three indexes.
fn lay(twins: &mut Twins) -> Result<(), Fault>
    requires { AreLaid twins.old }
    ensures { OnOk result (AreLaid twins.new) }
{
    twins.lay_table()?;
    twins.lay_table()?;
    twins.lay_index()?;
    twins.lay_index()?;
    twins.lay_index()
}

/// One more commit, and the newest snapshot compared.
fn commit_next(alloc: Global, run: &mut Run, commit: u64) -> Result<(), Fault>
    requires { AreLaid run.old.twins }
    ensures { OnOk result (AreLaid run.new.twins) }
{
    let changes = changes_of(alloc, commit)?;
    commit_all(alloc, run, changes.as_slice())
}

/// A commit of changes, and the newest snapshot compared.
fn commit_all(alloc: Global, run: &mut Run, changes: &[Change]) -> Result<(), Fault>
    requires { AreLaid run.old.twins }
    ensures { OnOk result (AreLaid run.new.twins) }
{
    count_kinds(alloc, &run.twins, changes, &mut run.kinds)?;
    run.twins.commit(changes)?;
    compare_changed(alloc, &run.twins, changes, &mut run.tally)?;
    let newest = run.twins.layout.newest;
    Ok(compare_snapshot(alloc, &run.twins, newest, &mut run.tally)?)
}

/// Ten commits, all kept snapshots compared, all but the newest few let go, and those compared.
fn run_ten(alloc: Global, run: &mut Run, first: u64) -> Result<(), Fault>
    requires laid { AreLaid run.old.twins }
    requires low { first ≤ 90 }
    ensures { OnOk result (AreLaid run.new.twins) }
{
    'commits: for commit in first..first + 10 {
        commit_next(alloc, run, commit)?;
    }
    compare_snapshots(alloc, &run.twins, &mut run.tally)?;
    sweep_to(&mut run.twins, first + 7);
    Ok(compare_snapshots(alloc, &run.twins, &mut run.tally)?)
}

/// Sixty-four sweeps.
fn sweep_to(twins: &mut Twins, horizon: u64)
    requires { AreLaid twins.old }
    ensures { AreLaid twins.new }
{
    'sweeps: for _ in 0..64 {
        if twins.layout.horizon <= horizon && horizon <= twins.layout.newest {
            twins.sweep(horizon);
        }
    }
}

/// One more index over the rows that are there, when all older snapshots are let go.
fn lay_late(twins: &mut Twins) -> Result<(), Fault>
    requires { AreLaid twins.old }
    ensures { OnOk result (AreLaid twins.new) }
{
    let newest = twins.layout.newest;
    twins.sweep(newest);
    twins.lay_index()
}

/// All commits, and all that is compared.
fn run_all(alloc: Global, run: &mut Run) -> Result<(), Fault>
    requires { AreLaid run.old.twins }
    ensures { OnOk result (AreLaid run.new.twins) }
{
    lay(&mut run.twins)?;
    'early: for ten in 0..5 {
        run_ten(alloc, run, ten * 10)?;
    }
    lay_late(&mut run.twins)?;
    'late: for ten in 5..10 {
        run_ten(alloc, run, ten * 10)?;
    }
    Ok(())
}

fn name(what: What) -> &'static str {
    match what {
        What::Sizes => "sizes of table ",
        What::Rows => "rows of table ",
        What::Row => "a row of table ",
        What::Entries => "entries of index ",
        What::Estimate => "an estimate of index ",
    }
}

fn tell_first(told: &mut Told, first: Option<Difference>) {
    match first {
        None => told.word("same"),
        Some(first) => tell_difference(told, first),
    }
    told.word("\n");
}

fn tell_difference(told: &mut Told, first: Difference) {
    told.word("first difference: ");
    told.with(name(first.what), u64::from(first.number));
    told.with(" at ", first.snap);
}

fn tell_index(alloc: Global, told: &mut Told, twins: &Twins, index: u32) -> Result<(), NoMemory>
    requires laid { AreLaid twins.now }
    requires there { index < twins.now.layout.indexes }
{
    tell_leaves(alloc, told, twins, index)?;
    'ranges: for (low, high) in [(7, 7), (50, 99), (100, 299), (299, 100), (0, 999)] {
        tell_range(alloc, told, twins, index, low, high)?;
    }
    Ok(())
}

fn tell_indexes(alloc: Global, told: &mut Told, twins: &Twins) -> Result<(), NoMemory>
    requires { AreLaid twins.now }
{
    'indexes: for index in 0..twins.layout.indexes {
        tell_index(alloc, told, twins, index)?;
    }
    Ok(())
}

fn tell_commits(told: &mut Told, newest: u64, kinds: Kinds) {
    told.number(newest);
    told.with(" commits: ", kinds.inserts);
    told.with(" inserts, ", kinds.updates);
    told.with(" updates, ", kinds.deletes);
    told.with(" deletes, ", kinds.none);
    told.word(" of no row\n");
}

fn tell_rows(told: &mut Told, tally: &Tally) {
    told.number(tally.snapshots);
    told.with(" snapshots: ", tally.rows);
    told.with(" rows, ", tally.fetches);
    told.word(" fetches\n");
}

fn tell_entries(told: &mut Told, tally: &Tally) {
    told.number(tally.entries);
    told.with(" entries in ", tally.paged_leaves);
    told.with(" leaves, in the plain store in ", tally.plain_leaves);
    told.word("\n");
}

fn tell_tally(told: &mut Told, tally: &Tally) {
    tell_rows(told, tally);
    tell_entries(told, tally);
    told.number(tally.exact);
    told.word(" exact estimates\n");
    tell_first(told, tally.first);
}

/// Does all, and tells of it.
fn tell_all(alloc: Global, told: &mut Told, run: &mut Run) -> Result<(), Fault>
    requires { AreLaid run.old.twins }
{
    run_all(alloc, run)?;
    tell_commits(told, run.twins.layout.newest, run.kinds);
    tell_tally(told, &run.tally);
    Ok(tell_indexes(alloc, told, &run.twins)?)
}

/// Tells all lines of this part of the program.
pub fn tell(alloc: Global, told: &mut Told) -> Result<(), Fault> {
    let mut run = Run {
        twins: Twins::new(alloc)?,
        kinds: Kinds::new(),
        tally: Tally::new(),
    };
    let done = tell_all(alloc, told, &mut run);
    drop(run);
    done
}
