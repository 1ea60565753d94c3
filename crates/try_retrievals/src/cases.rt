//! The table of the program: what is done with each store.
ghost use Rattle.std.specs.Prelude.{◌≡◌, IfOk};
ghost use Rattle.rv_final.specs.Rest.{qualifying};
ghost use Rattle.rv_loading.specs.Laid.{IsEmpty};
ghost use Rattle.rv_search.specs.Searching.{numbers};
ghost use Rattle.try_retrievals.specs.Asking.{spans_of};
ghost use Rattle.try_retrievals.specs.Standing.{Stands};

use crate::asked::{Asked, indexes, wanted};
use crate::case::outcome;
use crate::drive::Way;
use crate::judges::{PACES, Pace, RULINGS, Ruling};
use crate::lines::rows_text;
use crate::load::{Filling, Table, load_table};
use rv_judge::{Judge, Patient, Steps, Threshold, Uncounted};
use rv_loading::Fault;
use rv_plain::Plain;
use rv_reader::{Reader, Store};
use rv_search::find;
use rv_value::{Items, NoMemory, RowNo};
use std::alloc::Global;

/// What is done with what is asked.
#[derive(Clone, Copy)]
pub enum Kind {
    /// A retrieval under a judge, in a way.
    Single(Ruling, Way),
    /// Retrievals under every judge, in every way.
    All,
    /// A search, under the patient judge or under the threshold.
    Search { patient: bool },
}

/// What is asked, by its name.
#[derive(Clone, Copy)]
pub struct Case {
    pub name: &'static str,
    pub asked: Asked,
    pub kind: Kind,
}

fn add_single<R: Reader<Ledger = Uncounted>>(
    alloc: Global,
    reader: &R,
    table: &Table,
    title: &str,
    asked: &Asked,
    ruling: Ruling,
    way: Way,
    lines: &mut Vec<String>,
) -> Result<(), Fault>
    requires { Stands (R.shown reader.now) table.now }
{
    let outcome = outcome(alloc, reader, table, asked, ruling, way)?;
    lines.push(format!(in alloc; "{title}: {}", outcome.as_str())?)?;
    Ok(())
}

fn add_paces<R: Reader<Ledger = Uncounted>>(
    alloc: Global,
    reader: &R,
    table: &Table,
    asked: &Asked,
    ruling: Ruling,
    lines: &mut Vec<String>,
) -> Result<(), Fault>
    requires { Stands (R.shown reader.now) table.now }
{
    let mut before = String::new(alloc);
    'paces: for pace in PACES {
        let found = outcome(alloc, reader, table, asked, ruling, pace.way())?;
        let told = if found.as_str() == before.as_str() {
            "the same"
        } else {
            found.as_str()
        };
        add_line(alloc, ruling, pace, told, lines)?;
        before = found;
    }
    Ok(())
}

fn add_line(
    alloc: Global,
    ruling: Ruling,
    pace: Pace,
    told: &str,
    lines: &mut Vec<String>,
) -> Result<(), NoMemory> {
    let line = format!(in alloc; "  {}, {}: {told}", ruling.name(), pace.name())?;
    Ok(lines.push(line)?)
}

fn add_all<R: Reader<Ledger = Uncounted>>(
    alloc: Global,
    reader: &R,
    table: &Table,
    title: &str,
    asked: &Asked,
    lines: &mut Vec<String>,
) -> Result<(), Fault>
    requires { Stands (R.shown reader.now) table.now }
{
    lines.push(String::from_str(alloc, title)?)?;
    'rulings: for ruling in RULINGS {
        add_paces(alloc, reader, table, asked, ruling, lines)?;
    }
    Ok(())
}

/// The numbers of the rows in the spans.
fn found_in<R: Reader>(
    alloc: Global,
    reader: &R,
    table: &Table,
    asked: &Asked,
    judge: &mut Box<dyn Judge>,
    steps: &mut Steps<R::Ledger>,
) -> Result<Vec<RowNo>, Fault>
    requires { Stands (R.shown reader.now) table.now }
    ensures { IfOk result (λ found. found.items ≡ numbers (qualifying (spans_of asked.now) ((R.shown reader.now).rows 0 table.now.loaded.snap))) }
{
    let only = wanted(alloc, asked)?;
    let indexes = indexes(alloc, &table.loaded, asked.uses)?;
    let found = find(
        alloc,
        reader,
        0,
        table.loaded.snap,
        &only,
        Items::from_vec(indexes),
        judge,
        steps,
    )?;
    Ok(found)
}

fn add_found<R: Reader<Ledger = Uncounted>>(
    alloc: Global,
    reader: &R,
    table: &Table,
    title: &str,
    asked: &Asked,
    judge: &mut Box<dyn Judge>,
    lines: &mut Vec<String>,
) -> Result<(), Fault>
    requires { Stands (R.shown reader.now) table.now }
{
    let mut steps = Steps::new(Uncounted);
    let found = found_in(alloc, reader, table, asked, judge, &mut steps)?;
    let rows = rows_text(alloc, found.as_slice())?;
    let counts = steps.counts();
    lines.push(format!(in alloc;
        "{title}: {}; pages {} leaves {} fetches {}",
        rows.as_str(),
        counts.pages,
        counts.leaves,
        counts.records
    )?)?;
    Ok(())
}

fn add_search<R: Reader<Ledger = Uncounted>>(
    alloc: Global,
    reader: &R,
    table: &Table,
    title: &str,
    asked: &Asked,
    patient: bool,
    lines: &mut Vec<String>,
) -> Result<(), Fault>
    requires { Stands (R.shown reader.now) table.now }
{
    let mut judge: Box<dyn Judge> = if patient {
        Box::new(alloc, Patient::new())?
    } else {
        Box::new(alloc, Threshold::new())?
    };
    add_found(alloc, reader, table, title, asked, &mut judge, lines)
}

fn add_case<R: Reader<Ledger = Uncounted>>(
    alloc: Global,
    reader: &R,
    table: &Table,
    of: &str,
    case: &Case,
    lines: &mut Vec<String>,
) -> Result<(), Fault>
    requires { Stands (R.shown reader.now) table.now }
{
    let title = format!(in alloc; "{of}{}", case.name)?;
    let asked = case.asked;
    match case.kind {
        Kind::Single(ruling, way) => {
            add_single(
                alloc,
                reader,
                table,
                title.as_str(),
                &asked,
                ruling,
                way,
                lines,
            )
        }
        Kind::All => add_all(alloc, reader, table, title.as_str(), &asked, lines),
        Kind::Search { patient } => {
            add_search(alloc, reader, table, title.as_str(), &asked, patient, lines)
        }
    }
}

fn add_cases<R: Reader<Ledger = Uncounted>>(
    alloc: Global,
    reader: &R,
    table: &Table,
    of: &str,
    cases: &[Case],
    lines: &mut Vec<String>,
) -> Result<(), Fault>
    requires { Stands (R.shown reader.now) table.now }
{
    'cases: for case in cases {
        add_case(alloc, reader, table, of, case, lines)?;
    }
    Ok(())
}

fn add_loaded<S: Store + Reader<Ledger = Uncounted>>(
    alloc: Global,
    store: &mut S,
    rows: u64,
    filling: Filling,
    of: &str,
    cases: &[Case],
    lines: &mut Vec<String>,
) -> Result<(), Fault>
    requires { IsEmpty (S.shown store.old) }
{
    let table = load_table(alloc, store, rows, filling)?;
    let done = add_cases(alloc, store, &table, of, cases, lines);
    drop(table);
    done
}

/// The lines of some cases over a plain store of so many rows. The name of each begins with `of`.
pub fn add_plain(
    alloc: Global,
    rows: u64,
    filling: Filling,
    of: &str,
    cases: &[Case],
    lines: &mut Vec<String>,
) -> Result<(), Fault> {
    let mut store = Plain::new(alloc)?;
    let done = add_loaded(alloc, &mut store, rows, filling, of, cases, lines);
    drop(store);
    done
}
