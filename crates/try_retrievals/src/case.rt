//! An access for what is asked of a store that was loaded, and the line that tells of it.
ghost use Rattle.std.specs.Prelude.{◌≡◌, IfOk, IsPermutation, true};
ghost use Rattle.rv_final.specs.Rest.{qualifying};
ghost use Rattle.try_retrievals.specs.Asking.{spans_of};
ghost use Rattle.try_retrievals.specs.Driving.{numbers_of};
ghost use Rattle.try_retrievals.specs.Standing.{Stands};

use crate::asked::{Asked, query};
use crate::checked::is_right;
use crate::drive::{Driven, Way, drive};
use crate::judges::{Ruling, verdicts};
use crate::lines::{numbers, rows_text};
use crate::load::Table;
use rv_access::{Access, Over};
use rv_judge::{Contrary, Judge, Listed, Patient, Steps, Threshold, Uncounted};
use rv_loading::{Fault, trace_text};
use rv_reader::Reader;
use rv_value::NoMemory;
use std::alloc::Global;

fn verdict_word(right: bool, ended: bool) -> &'static str {
    match (right, ended) {
        (true, true) => "right",
        (false, true) => "WRONG",
        (_, false) => "NOT ENDED",
    }
}

fn told(
    alloc: Global,
    table: &Table,
    asked: &Asked,
    driven: &Driven,
    access: &Access,
) -> Result<String, NoMemory> {
    let rows = driven.rows.as_slice();
    let right = is_right(alloc, asked, rows, table.rows, table.filling)?;
    let numbers = numbers(alloc, rows)?;
    let rows = rows_text(alloc, numbers.as_slice())?;
    let trace = trace_text(alloc, access.trace(), &["IA", "IB", "ICA", "IC"])?;
    let word = verdict_word(right, driven.ended);
    Ok(format!(in alloc; "{word}, {}; {}", rows.as_str(), trace.as_str())?)
}

/// Opens an access for what is asked, and drives it to its end. The rows of one that ended are those of the snapshot
/// that qualify, each once.
fn retrieve<R: Reader<Ledger = Uncounted>>(
    alloc: Global,
    reader: &R,
    table: &Table,
    asked: &Asked,
    ruling: Ruling,
    way: Way,
) -> Result<(Driven, Access), Fault>
    requires { Stands (R.shown reader.now) table.now }
    ensures { IfOk result (λ found. found.0.ended ≡ true → IsPermutation (numbers_of (qualifying (spans_of asked.now) ((R.shown reader.now).rows 0 table.now.loaded.snap))) (numbers_of found.0.rows.items)) }
{
    let mut judge: Box<dyn Judge> = match ruling {
        Ruling::Threshold => Box::new(alloc, Threshold::new())?,
        Ruling::Patient => Box::new(alloc, Patient::new())?,
        Ruling::Contrary => Box::new(alloc, Contrary::new())?,
        Ruling::StopsFirst
        | Ruling::EndsSecond
        | Ruling::DropsThenStops
        | Ruling::EndsFourth
        | Ruling::DropsThird => Box::new(alloc, Listed::new(verdicts(alloc, ruling)?))?,
    };
    let query = query(alloc, table, asked)?;
    let mut steps = Steps::new(Uncounted);
    let mut access = Access::open(
        alloc,
        reader,
        &mut Over::new(alloc),
        query,
        asked.race,
        1,
        1,
        &mut steps,
    )?;
    match drive(alloc, reader, &mut access, &mut judge, way, &mut steps) {
        Ok(driven) => Ok((driven, access)),
        Err(NoMemory) => {
            drop(access);
            Err(Fault::NoMemory)
        }
    }
}

/// What comes of an access.
pub fn outcome<R: Reader<Ledger = Uncounted>>(
    alloc: Global,
    reader: &R,
    table: &Table,
    asked: &Asked,
    ruling: Ruling,
    way: Way,
) -> Result<String, Fault>
    requires { Stands (R.shown reader.now) table.now }
{
    let (driven, access) = retrieve(alloc, reader, table, asked, ruling, way)?;
    let line = told(alloc, table, asked, &driven, &access);
    drop(access);
    Ok(line?)
}
