//! Plans for what is asked, and the lines that tell of them.
ghost use Rattle.std.specs.Prelude.{◌≡◌, IfOk, true};
ghost use Rattle.std.specs.List.Sorted.{IsPermutation};
ghost use Rattle.rv_model.specs.Offering.{offers_over};
ghost use Rattle.rv_plain.specs.Kept.{shown_of};
ghost use Rattle.rv_join.specs.Levels.{table_rows};
ghost use Rattle.rv_join.specs.Plans.{PlanFits, plan_rest};
ghost use Rattle.try_retrievals.specs.Selecting.{HasIndexes, IsOurs};
ghost use Rattle.rv_loading.specs.Laid.{Offers};

use crate::joins::drive::{Driven, drive};
use crate::joins::load::{Base, Filling, load_base, read_filling};
use crate::joins::read::{Asked, read_line};
use crate::joins::select::{indexes, is_ours, select};
use crate::joins::told::{rows_text, told};
use rv_catalog::{IndexDef, Select};
use rv_join::Plan;
use rv_judge::{Contrary, Judge, Patient, Steps, Threshold, Trace, Uncounted};
use rv_loading::{Fault, Loaded, small, trace_text};
use rv_reader::Reader;
use rv_value::NoMemory;
use std::alloc::Global;

/// Drives a plan to its end, and tells its trace then.
fn followed<R: Reader<Ledger = Uncounted>>(
    alloc: Global,
    reader: &R,
    plan: &mut Plan,
    judge: &mut Box<dyn Judge>,
    so_many: u32,
    steps: &mut Steps<Uncounted>,
) -> Result<(Driven, Trace), NoMemory>
    requires { PlanFits (R.shown reader.now) plan.old }
    ensures { IfOk result (λ found. found.0.ended ≡ true → IsPermutation (plan_rest (R.shown reader.now) plan.old) found.0.offers.items) }
{
    let driven = drive(alloc, reader, plan, judge, so_many, steps)?;
    Ok((driven, plan.trace()))
}

/// Opens a plan of a select, and drives it to its end. The offers of one that ended are those of the definition, each as
/// often.
fn planned<R: Reader<Ledger = Uncounted>>(
    alloc: Global,
    reader: &R,
    loaded: &Loaded,
    indexes: &[IndexDef],
    select: &Select,
    judge: &mut Box<dyn Judge>,
    so_many: u32,
) -> Result<(Driven, Trace), NoMemory>
    requires offers { Offers loaded.now (R.shown reader.now) }
    requires indexes { HasIndexes loaded.now indexes.now }
    requires select { IsOurs loaded.now select.now }
    ensures { IfOk result (λ found. found.0.ended ≡ true → IsPermutation (offers_over select.now (table_rows (R.shown reader.now) loaded.now.snap)) found.0.offers.items) }
{
    let mut steps = Steps::new(Uncounted);
    let mut plan = Plan::open(
        alloc,
        reader,
        select,
        indexes,
        loaded.snap,
        1,
        false,
        &mut steps,
    )?;
    let found = followed(alloc, reader, &mut plan, judge, so_many, &mut steps);
    drop(plan);
    found
}

/// A judge of the three, by its name.
#[derive(Clone, Copy)]
enum Ruling {
    Threshold,
    Contrary,
    Patient,
}

fn read_ruling(word: &str) -> Result<Ruling, Fault> {
    match word {
        "threshold" => Ok(Ruling::Threshold),
        "contrary" => Ok(Ruling::Contrary),
        "patient" => Ok(Ruling::Patient),
        _ => Err(Fault::Form),
    }
}

/// The same with one of three judges.
fn run<R: Reader<Ledger = Uncounted>>(
    alloc: Global,
    reader: &R,
    loaded: &Loaded,
    indexes: &[IndexDef],
    select: &Select,
    ruling: Ruling,
    so_many: u32,
) -> Result<(Driven, Trace), NoMemory>
    requires offers { Offers loaded.now (R.shown reader.now) }
    requires indexes { HasIndexes loaded.now indexes.now }
    requires select { IsOurs loaded.now select.now }
    ensures { IfOk result (λ found. found.0.ended ≡ true → IsPermutation (offers_over select.now (table_rows (R.shown reader.now) loaded.now.snap)) found.0.offers.items) }
{
    let mut judge: Box<dyn Judge> = match ruling {
        Ruling::Threshold => Box::new(alloc, Threshold::new())?,
        Ruling::Contrary => Box::new(alloc, Contrary::new())?,
        Ruling::Patient => Box::new(alloc, Patient::new())?,
    };
    planned(alloc, reader, loaded, indexes, select, &mut judge, so_many)
}

/// The same over what was loaded.
fn driven(
    alloc: Global,
    base: &Base,
    asked: &Asked,
    select: &Select,
) -> Result<(Driven, Trace), Fault>
    requires loaded { Offers base.now.loaded (shown_of base.now.store) }
    requires select { IsOurs base.now.loaded select.now }
{
    let ruling = read_ruling(asked.judge)?;
    let steps = small(asked.steps)?;
    let indexes = indexes(alloc, &base.loaded, base.indexes())?;
    let found = run(
        alloc,
        &base.store,
        &base.loaded,
        indexes.as_slice(),
        select,
        ruling,
        steps,
    );
    drop(indexes);
    Ok(found?)
}

/// What came of a plan, as the line asks it.
fn told_as(alloc: Global, asked: &Asked, driven: Driven, trace: &Trace) -> Result<String, Fault> {
    match asked.tell {
        "mix" => Ok(told(alloc, driven)?),
        "reads" => told_reads(alloc, driven, trace),
        "rows" => {
            let told = told_rows(alloc, &driven, trace);
            drop(driven);
            told
        }
        _ => {
            drop(driven);
            Err(Fault::Form)
        }
    }
}

fn told_reads(alloc: Global, driven: Driven, trace: &Trace) -> Result<String, Fault> {
    let told = told(alloc, driven)?;
    Ok(format!(in alloc;
        "{}, pages {} leaves {} fetches {}",
        told.as_str(),
        trace.pages,
        trace.leaves,
        trace.fetches
    )?)
}

fn told_rows(alloc: Global, driven: &Driven, trace: &Trace) -> Result<String, Fault> {
    let rows = rows_text(alloc, driven)?;
    let trace = trace_text(alloc, trace, &["0", "1", "2", "3", "4", "5"])?;
    Ok(format!(in alloc; "{}; trace {}", rows.as_str(), trace.as_str())?)
}

/// What comes of a line.
pub fn answer(alloc: Global, line: &str) -> Result<String, Fault> {
    let asked = read_line(line)?;
    let filling: Filling = read_filling(asked.rows)?;
    let select = select(alloc, &asked)?;
    let told = answered(alloc, filling, &asked, &select);
    drop(select);
    told
}

/// Loads a store, and drives a plan over it.
fn answered(
    alloc: Global,
    filling: Filling,
    asked: &Asked,
    select: &Select,
) -> Result<String, Fault> {
    let base = load_base(alloc, filling)?;
    let told = told_over(alloc, &base, asked, select);
    drop(base);
    told
}

/// Drives a plan over what was loaded, where its select is over that.
fn told_over(alloc: Global, base: &Base, asked: &Asked, select: &Select) -> Result<String, Fault>
    requires { Offers base.now.loaded (shown_of base.now.store) }
{
    if is_ours(&base.loaded, select) {
        return told_ours(alloc, base, asked, select);
    }
    Err(Fault::Form)
}

fn told_ours(alloc: Global, base: &Base, asked: &Asked, select: &Select) -> Result<String, Fault>
    requires loaded { Offers base.now.loaded (shown_of base.now.store) }
    requires select { IsOurs base.now.loaded select.now }
{
    let (driven, trace) = driven(alloc, base, asked, select)?;
    let told = told_as(alloc, asked, driven, &trace);
    drop(trace);
    told
}
