//! The rows of a table for which a restriction is True.
ghost use Rattle.std.specs.Prelude.{◌≡◌, ◌⊎◌, ℕ, ◌+◌, ◌<◌, ◌≤◌, List, [], ◌∷◌, ◌++◌, length, true, false, not, IfOk, OnOk, OnErr, IsPermutation};
ghost use Rattle.std.specs.List.{AllByRecursion};
ghost use Rattle.rv_judge.specs.Counting.{reads, record_read};
ghost use Rattle.rv_value.specs.Ranges.{is_whole};
ghost use Rattle.rv_restrict.specs.Ranges.{range_for};
ghost use Rattle.rv_reader.specs.Shown.{CanRead};
ghost use Rattle.rv_choice.specs.Asked.{CanAsk};
ghost use Rattle.rv_final.specs.Rest.{qualifying};
ghost use Rattle.rv_retrieval.specs.Effort.{Awaiting, effort, life_of};
ghost use Rattle.rv_retrieval.specs.Shape.{RetrievalFits, rest};
ghost use Rattle.rv_retrieval.specs.Runs.{Tells};
ghost use Rattle.rv_retrieval.specs.Short.{Settled, fetches_left, has_short};
ghost use Rattle.rv_search.specs.Searching.{Gathers, GoesOut, GoesSome, OnlyRecords, Ran, RanFetched, RanOut, StepsOn, any_narrows, numbers, rows_of, search_of};

use crate::named::columns_named;
use rv_choice::{Goal2, Query};
use rv_judge::{Judge, Steps};
use rv_reader::{Reader, Step};
use rv_restrict::Restriction;
use rv_retrieval::Retrieval;
use rv_value::{Duplicate, Items, NoMemory, Record, RowNo, Shared};
use std::alloc::Global;

/// Whether a restriction gives a range of an index of these columns.
fn narrows(alloc: Global, only: &Restriction, columns: &[u32]) -> Result<bool, NoMemory>
    requires { length columns.now ≤ 4 }
    ensures { IfOk result (λ b. b ≡ not (is_whole (range_for only.now columns.now))) }
{
    let range = only.range_for(alloc, columns)?;
    Ok(!range.is_whole())
}

/// Whether a restriction gives a range of one of a table's indexes. Without one a search would read every page of the
/// table, or a whole index.
pub fn any_narrows(
    alloc: Global,
    only: &Restriction,
    indexes: &[(u32, Items<u32>)],
) -> Result<bool, NoMemory>
    requires { AllByRecursion (λ (i : ℕ × List ℕ). length i.1 ≤ 4) indexes.now }
    ensures { IfOk result (λ b. b ≡ any_narrows only.now indexes.now) }
{
    match indexes {
        [] => Ok(false),
        [index, more @ ..] => {
            if narrows(alloc, only, index.1.as_slice())? {
                Ok(true)
            } else {
                any_narrows(alloc, only, more)
            }
        }
    }
}

/// What a search asks of a table at a snapshot.
fn search_of(
    alloc: Global,
    table: u32,
    snap: u64,
    only: &Restriction,
    indexes: Items<(u32, Items<u32>)>,
) -> Result<Query, NoMemory>
    ensures { IfOk result (λ query. query ≡ search_of table snap only.now indexes) }
{
    let over = Shared::new(alloc, indexes)?;
    let named = columns_named(alloc, only)?;
    let need = Shared::new(alloc, named)?;
    Ok(Query {
        table,
        snap,
        only: only.copy(alloc)?,
        indexes: over,
        need,
        order: Items::new(alloc),
        goal: Goal2::TotalTime,
    })
}

/// A step of a search, which puts the number of the row that it gives behind others; whether it was the end.
fn forward<R: Reader>(
    reader: &R,
    retrieval: &mut Retrieval,
    judge: &mut Box<dyn Judge>,
    found: &mut Vec<RowNo>,
    steps: &mut Steps<R::Ledger>,
) -> Result<bool, NoMemory>
    requires fits { RetrievalFits retrieval.old (R.shown reader.now) }
    requires awaiting { Awaiting retrieval.old }
    requires tells { Tells retrieval.old }
    ensures gathers { OnOk result (Gathers (R.shown reader.now) steps.old steps.new found.old.items found.new.items retrieval.old retrieval.new) }
    ensures nearer { IfOk result (λ ended. ended ≡ false → effort retrieval.new (R.shown reader.now) < effort retrieval.old (R.shown reader.now)) }
    ensures ends { IfOk result (λ ended. ended ≡ true → rest retrieval.new (R.shown reader.now) ≡ []) }
    ensures pages { Settled retrieval.old → steps.new.pages ≡ steps.old.pages }
    ensures unasked { Settled retrieval.old → state judge.new ≡ state judge.old }
    ensures tells { Tells retrieval.new }
    ensures does { IfOk result (λ ended. StepsOn ended (would judge.old) (state judge.old) (state judge.new) (R.shown reader.now) steps.old steps.new retrieval.old retrieval.new) }
    ensures lost { OnErr result (GoesSome (would judge.old) (state judge.old) (state judge.new) (R.shown reader.now) steps.old retrieval.old) }
    ensures stays { would judge.new ≡ would judge.old }
{
    match retrieval.fg_step(reader, judge, steps)? {
        Step::Row(row) => {
            found.push(row.row)?;
            Ok(false)
        }
        Step::Working => Ok(false),
        Step::End => Ok(true),
    }
}

/// Steps a retrieval to its end, and puts the numbers of the rows that it gives behind others.
fn gather<R: Reader>(
    reader: &R,
    retrieval: &mut Retrieval,
    judge: &mut Box<dyn Judge>,
    found: &mut Vec<RowNo>,
    steps: &mut Steps<R::Ledger>,
) -> Result<(), NoMemory>
    requires fits { RetrievalFits retrieval.old (R.shown reader.now) }
    requires awaiting { Awaiting retrieval.old }
    requires tells { Tells retrieval.old }
    ensures found { OnOk result (IsPermutation (found.old.items ++ numbers (rest retrieval.old (R.shown reader.now))) found.new.items) }
    ensures reads { OnOk result (reads steps.new ≤ reads steps.old + effort retrieval.old (R.shown reader.now)) }
    ensures pages { Settled retrieval.old → steps.new.pages ≡ steps.old.pages }
    ensures records { Settled retrieval.old → OnOk result (steps.new.records ≤ steps.old.records + fetches_left retrieval.old (R.shown reader.now)) }
    ensures unasked { Settled retrieval.old → state judge.new ≡ state judge.old }
    ensures ran { OnOk result (GoesOut (would judge.old) (state judge.old) (state judge.new) (R.shown reader.now) steps.old steps.new retrieval.old) }
    ensures lost { OnErr result (GoesSome (would judge.old) (state judge.old) (state judge.new) (R.shown reader.now) steps.old retrieval.old) }
    ensures stays { would judge.new ≡ would judge.old }
{
    'turns: loop {
        if forward(reader, retrieval, judge, found, steps)? {
            return Ok(());
        }
    }
}

/// The numbers of the rows that a retrieval gives, in the order in which it gives them.
fn gathered_of<R: Reader>(
    alloc: Global,
    reader: &R,
    retrieval: &mut Retrieval,
    judge: &mut Box<dyn Judge>,
    steps: &mut Steps<R::Ledger>,
) -> Result<Vec<RowNo>, NoMemory>
    requires fits { RetrievalFits retrieval.old (R.shown reader.now) }
    requires awaiting { Awaiting retrieval.old }
    requires tells { Tells retrieval.old }
    ensures found { IfOk result (λ found. IsPermutation (numbers (rest retrieval.old (R.shown reader.now))) found.items) }
    ensures reads { OnOk result (reads steps.new ≤ reads steps.old + effort retrieval.old (R.shown reader.now)) }
    ensures pages { Settled retrieval.old → steps.new.pages ≡ steps.old.pages }
    ensures records { Settled retrieval.old → OnOk result (steps.new.records ≤ steps.old.records + fetches_left retrieval.old (R.shown reader.now)) }
    ensures unasked { Settled retrieval.old → state judge.new ≡ state judge.old }
    ensures ran { OnOk result (GoesOut (would judge.old) (state judge.old) (state judge.new) (R.shown reader.now) steps.old steps.new retrieval.old) }
    ensures lost { OnErr result (GoesSome (would judge.old) (state judge.old) (state judge.new) (R.shown reader.now) steps.old retrieval.old) }
    ensures stays { would judge.new ≡ would judge.old }
{
    let mut found = Vec::new(alloc);
    gather(reader, retrieval, judge, &mut found, steps)?;
    Ok(found)
}

/// Lets a value of any type go. In a function of its own, which knows no parts of it.
fn leave<T: Drop>(_left: T) {}

/// The numbers of the rows for which a restriction is True, in the order in which they are found.
fn gathered<R: Reader>(
    alloc: Global,
    reader: &R,
    query: Query,
    judge: &mut Box<dyn Judge>,
    steps: &mut Steps<R::Ledger>,
) -> Result<Vec<RowNo>, NoMemory>
    requires can { CanAsk query (R.shown reader.now) }
    ensures found { IfOk result (λ found. IsPermutation (numbers (qualifying query.only ((R.shown reader.now).rows query.table query.snap))) found.items) }
    ensures reads { OnOk result (reads steps.new ≤ reads steps.old + life_of query (R.shown reader.now)) }
    ensures pages { has_short query (R.shown reader.now) ≡ true → OnOk result (steps.new.pages ≡ steps.old.pages) }
    ensures records { has_short query (R.shown reader.now) ≡ true → OnOk result (steps.new.records ≤ steps.old.records + 20) }
    ensures few { query.order ≡ [] → has_short query (R.shown reader.now) ≡ true → IfOk result (λ found. length found.items ≤ 20) }
    ensures unasked { has_short query (R.shown reader.now) ≡ true → state judge.new ≡ state judge.old }
    ensures ran { OnOk result (RanOut (would judge.old) (state judge.old) (state judge.new) (R.shown reader.now) steps.old steps.new query) }
    ensures lost { OnErr result ((state judge.new ≡ state judge.old) ⊎ Ran (would judge.old) (state judge.old) (state judge.new) (R.shown reader.now) query) }
    ensures stays { would judge.new ≡ would judge.old }
{
    let mut retrieval = Retrieval::open(alloc, reader, query, 0, 0, steps)?;
    let found = gathered_of(alloc, reader, &mut *retrieval, judge, steps);
    leave(retrieval);
    found
}

/// The numbers of the rows of a table at a snapshot for which a restriction is True, ascending.
///
/// They are found as a query finds them that returns what it restricts: where the restriction gives an index a range with
/// exactly so few entries that they are scanned at once, at most 20 rows, by at most 20 records and no page. `indexes` are those of the
/// table in order of creation. The judge rules on the scans, and decides what the search costs, never what it finds.
pub fn find<R: Reader>(
    alloc: Global,
    reader: &R,
    table: u32,
    snap: u64,
    only: &Restriction,
    indexes: Items<(u32, Items<u32>)>,
    judge: &mut Box<dyn Judge>,
    steps: &mut Steps<R::Ledger>,
) -> Result<Vec<RowNo>, NoMemory>
    requires can { CanAsk (search_of table snap only.now indexes) (R.shown reader.now) }
    ensures found { IfOk result (λ found. found.items ≡ numbers (qualifying only.now ((R.shown reader.now).rows table snap))) }
    ensures reads { OnOk result (reads steps.new ≤ reads steps.old + life_of (search_of table snap only.now indexes) (R.shown reader.now)) }
    ensures pages { has_short (search_of table snap only.now indexes) (R.shown reader.now) ≡ true → OnOk result (steps.new.pages ≡ steps.old.pages) }
    ensures records { has_short (search_of table snap only.now indexes) (R.shown reader.now) ≡ true → OnOk result (steps.new.records ≤ steps.old.records + 20) }
    ensures few { has_short (search_of table snap only.now indexes) (R.shown reader.now) ≡ true → IfOk result (λ found. length found.items ≤ 20) }
    ensures unasked { has_short (search_of table snap only.now indexes) (R.shown reader.now) ≡ true → state judge.new ≡ state judge.old }
    ensures ran { OnOk result (RanOut (would judge.old) (state judge.old) (state judge.new) (R.shown reader.now) steps.old steps.new (search_of table snap only.now indexes)) }
    ensures lost { OnErr result ((state judge.new ≡ state judge.old) ⊎ Ran (would judge.old) (state judge.old) (state judge.new) (R.shown reader.now) (search_of table snap only.now indexes)) }
    ensures stays { would judge.new ≡ would judge.old }
{
    let query = search_of(alloc, table, snap, only, indexes)?;
    let mut found = gathered(alloc, reader, query, judge, steps)?;
    found.sort_by_key(|row| row.0)?;
    Ok(found)
}

/// Puts the row of a number behind others, where the table has it.
fn add_row<R: Reader>(
    alloc: Global,
    reader: &R,
    table: u32,
    snap: u64,
    row: &RowNo,
    rows: &mut Vec<Record>,
    steps: &mut Steps<R::Ledger>,
) -> Result<(), NoMemory>
    requires can { CanRead (R.shown reader.now) table snap }
    ensures rows { OnOk result (rows.new.items ≡ rows.old.items ++ rows_of ((R.shown reader.now).rows table snap) (row.now ∷ [])) }
    ensures counted { steps.new ≡ record_read steps.old }
{
    match reader.fetch(alloc, table, snap, *row, steps)? {
        Some(record) => {
            rows.push(record)?;
            Ok(())
        }
        None => Ok(()),
    }
}

/// The rows of these numbers, in their order; a number of which the table has no row gives none. Each is fetched once.
pub fn rows_of<R: Reader>(
    alloc: Global,
    reader: &R,
    table: u32,
    snap: u64,
    found: &[RowNo],
    steps: &mut Steps<R::Ledger>,
) -> Result<Vec<Record>, NoMemory>
    requires can { CanRead (R.shown reader.now) table snap }
    ensures rows { IfOk result (λ rows. rows.items ≡ rows_of ((R.shown reader.now).rows table snap) found.now) }
    ensures only { OnlyRecords (length found.now) steps.old steps.new }
{
    let mut rows = Vec::new(alloc);
    'numbers: for number in found {
        add_row(alloc, reader, table, snap, number, &mut rows, steps)?;
    }
    Ok(rows)
}

/// The rows of a table at a snapshot for which a restriction is True, found by a search and then fetched each once.
pub fn found_rows<R: Reader>(
    alloc: Global,
    reader: &R,
    table: u32,
    snap: u64,
    only: &Restriction,
    indexes: Items<(u32, Items<u32>)>,
    judge: &mut Box<dyn Judge>,
    steps: &mut Steps<R::Ledger>,
) -> Result<Vec<Record>, NoMemory>
    requires can { CanAsk (search_of table snap only.now indexes) (R.shown reader.now) }
    ensures rows { IfOk result (λ rows. rows.items ≡ qualifying only.now ((R.shown reader.now).rows table snap)) }
    ensures reads { IfOk result (λ rows. reads steps.new ≤ reads steps.old + life_of (search_of table snap only.now indexes) (R.shown reader.now) + length rows.items) }
    ensures pages { has_short (search_of table snap only.now indexes) (R.shown reader.now) ≡ true → OnOk result (steps.new.pages ≡ steps.old.pages) }
    ensures records { has_short (search_of table snap only.now indexes) (R.shown reader.now) ≡ true → OnOk result (steps.new.records ≤ steps.old.records + 40) }
    ensures unasked { has_short (search_of table snap only.now indexes) (R.shown reader.now) ≡ true → state judge.new ≡ state judge.old }
    ensures ran { IfOk result (λ rows. RanFetched (length rows.items) (would judge.old) (state judge.old) (state judge.new) (R.shown reader.now) steps.old steps.new (search_of table snap only.now indexes)) }
    ensures lost { OnErr result ((state judge.new ≡ state judge.old) ⊎ Ran (would judge.old) (state judge.old) (state judge.new) (R.shown reader.now) (search_of table snap only.now indexes)) }
    ensures stays { would judge.new ≡ would judge.old }
{
    let found = find(alloc, reader, table, snap, only, indexes, judge, steps)?;
    let rows = rows_of(alloc, reader, table, snap, found.as_slice(), steps)?;
    Ok(rows)
}
