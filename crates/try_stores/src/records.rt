//! Rows in pages with their versions, each row of one number. Acts are parted by commas: `commit ROW=VALUE ..`, where the
//! value `-` takes the row away, `abandon`, `purge PAGE HORIZON`, `show SNAPSHOT`, `fetch ROW SNAPSHOT` and
//! `page N SNAPSHOT`.
ghost use Rattle.std.specs.Prelude.{◌≡◌, ◌+◌, ◌<◌, ◌≤◌, IfOk};
ghost use Rattle.rv_records.specs.Pages.{IsBelow};
ghost use Rattle.try_stores.specs.Clocked.{Stands};

use crate::told::Told;
use crate::values::{one_value, tell_first};
use crate::words::pair;
use rv_loading::{Fault, cut, integer, number, small};
use rv_records::Records;
use rv_value::{NoMemory, Record, RowNo, Values};
use std::alloc::Global;

/// The last commit, and the horizon.
#[derive(Clone, Copy, PartialEq, Eq)]
pub struct Clock {
    pub last: u64,
    pub horizon: u64,
}

fn values(alloc: Global, word: &str) -> Result<Option<Values>, Fault> {
    if word == "-" {
        return Ok(None);
    }
    Ok(Some(one_value(alloc, integer(word)?)?))
}

/// Gives a row a value at a commit, or takes it away.
fn change(alloc: Global, records: &mut Records, commit: u64, word: &str) -> Result<(), Fault>
    requires later { records.old.horizon < commit }
    requires newest { IsBelow (commit + 1) records.old }
    ensures horizon { records.new.horizon ≡ records.old.horizon }
    ensures newest { IsBelow (commit + 1) records.new }
{
    let (row, value) = cut(word, '=')?;
    let row = RowNo(u64::from(small(row)?));
    let values = values(alloc, value)?;
    Ok(records.put(row, values, commit)?)
}

/// Makes the changes of a commit.
fn change_all(alloc: Global, records: &mut Records, commit: u64, text: &str) -> Result<(), Fault>
    requires later { records.old.horizon < commit }
    requires newest { IsBelow (commit + 1) records.old }
    ensures horizon { records.new.horizon ≡ records.old.horizon }
    ensures newest { IsBelow (commit + 1) records.new }
{
    'words: for word in text.split(' ') {
        change(alloc, records, commit, word)?;
    }
    Ok(())
}

/// The next commit.
fn commit(alloc: Global, records: &mut Records, clock: Clock, text: &str) -> Result<Clock, Fault>
    requires stands { Stands clock.last clock.horizon records.old }
    ensures { IfOk result (λ next. Stands next.last next.horizon records.new) }
{
    if clock.last > 1000 {
        return Err(Fault::Form);
    }
    let commit = clock.last + 1;
    change_all(alloc, records, commit, text)?;
    Ok(Clock {
        last: commit,
        horizon: clock.horizon,
    })
}

/// Takes the last commit back.
fn abandon(records: &mut Records, clock: Clock) -> Result<Clock, Fault>
    requires stands { Stands clock.last clock.horizon records.old }
    ensures { IfOk result (λ next. Stands next.last next.horizon records.new) }
{
    if clock.last <= clock.horizon {
        return Err(Fault::Form);
    }
    records.abandon(clock.last);
    Ok(clock)
}

fn purge(records: &mut Records, clock: Clock, text: &str) -> Result<Clock, Fault>
    requires stands { Stands clock.last clock.horizon records.old }
    ensures { IfOk result (λ next. Stands next.last next.horizon records.new) }
{
    let (page, horizon) = pair(text)?;
    if horizon < clock.horizon || horizon > clock.last {
        return Err(Fault::Form);
    }
    records.purge(page, horizon);
    Ok(Clock {
        last: clock.last,
        horizon,
    })
}

fn tell_record(told: &mut Told, record: &Record) {
    told.with(" ", record.row.0);
    told.word("=");
    tell_first(told, record.values.as_slice());
}

fn tell_records(told: &mut Told, rows: &[Record]) {
    'rows: for record in rows {
        tell_record(told, record);
    }
}

fn tell_page(records: &Records, told: &mut Told, n: u32, snap: u64) -> Result<(), NoMemory>
    requires { records.now.horizon ≤ snap }
{
    let page = records.page(n, snap)?;
    tell_records(told, page.as_slice());
    Ok(())
}

fn tell_row(records: &Records, told: &mut Told, row: u64, snap: u64)
    requires { records.now.horizon ≤ snap }
{
    if let Some(record) = records.row(RowNo(row), snap) {
        tell_record(told, record);
    }
}

/// The rows of the pages 0 to 5.
fn tell_pages(records: &Records, told: &mut Told, snap: u64) -> Result<(), NoMemory>
    requires { records.now.horizon ≤ snap }
{
    'pages: for n in 0..6u32 {
        tell_page(records, told, n, snap)?;
        told.word(" |");
    }
    Ok(())
}

/// The rows 0 to 191, fetched.
fn tell_rows(records: &Records, told: &mut Told, snap: u64)
    requires { records.now.horizon ≤ snap }
{
    'rows: for row in 0..192u64 {
        tell_row(records, told, row, snap);
    }
}

/// How many pages and rows there are at a snapshot, its rows page by page, and fetched one by one.
fn show(records: &Records, told: &mut Told, snap: u64) -> Result<(), NoMemory>
    requires { records.now.horizon ≤ snap }
{
    let sizes = records.sizes(snap);
    told.with("; ", u64::from(sizes.pages));
    told.with(" pages, ", sizes.rows);
    told.word(" rows,");
    tell_pages(records, told, snap)?;
    told.word(" fetched");
    tell_rows(records, told, snap);
    Ok(())
}

fn fetch(records: &Records, told: &mut Told, row: u64, snap: u64)
    requires { records.now.horizon ≤ snap }
{
    told.word("; fetched");
    tell_row(records, told, row, snap);
}

fn page(records: &Records, told: &mut Told, n: u32, snap: u64) -> Result<(), NoMemory>
    requires { records.now.horizon ≤ snap }
{
    told.word("; page");
    tell_page(records, told, n, snap)
}

/// The number of what is told, and a snapshot from the horizon on.
fn place(clock: Clock, text: &str) -> Result<(u64, u64), Fault>
    ensures { IfOk result (λ place. clock.horizon ≤ place.1) }
{
    let (number_of, snap) = text.split_once(' ').unwrap_or(("0", text));
    let snap = number(snap)?;
    if snap < clock.horizon {
        return Err(Fault::Form);
    }
    Ok((number(number_of)?, snap))
}

/// Tells what a snapshot shows.
fn tell_at(
    records: &Records,
    clock: Clock,
    told: &mut Told,
    word: &str,
    text: &str,
) -> Result<(), Fault>
    requires stands { Stands clock.last clock.horizon records.now }
{
    let (row, snap) = place(clock, text)?;
    let done = match word {
        "show" => show(records, told, snap),
        "fetch" => {
            fetch(records, told, row, snap);
            Ok(())
        }
        "page" if row < 4294967296 => page(records, told, row as u32, snap),
        _ => return Err(Fault::Form),
    };
    Ok(done?)
}

/// Does an act.
fn act(
    alloc: Global,
    records: &mut Records,
    clock: Clock,
    told: &mut Told,
    text: &str,
) -> Result<Clock, Fault>
    requires stands { Stands clock.last clock.horizon records.old }
    ensures { IfOk result (λ next. Stands next.last next.horizon records.new) }
{
    if text == "abandon" {
        return abandon(records, clock);
    }
    let (word, rest) = cut(text, ' ')?;
    match word {
        "commit" => commit(alloc, records, clock, rest),
        "purge" => purge(records, clock, rest),
        _ => {
            tell_at(records, clock, told, word, rest)?;
            Ok(clock)
        }
    }
}

/// Does acts, and tells what they find.
fn act_all(alloc: Global, records: &mut Records, told: &mut Told, text: &str) -> Result<(), Fault>
    requires { Stands 0 0 records.old }
{
    let mut clock = Clock {
        last: 0,
        horizon: 0,
    };
    'acts: for text in text.split(", ") {
        clock = act(alloc, records, clock, told, text)?;
    }
    Ok(())
}

/// What acts find, in words, behind how many places there are then.
pub fn tell(alloc: Global, told: &mut Told, text: &str) -> Result<(), Fault> {
    let mut records = Records::new(alloc);
    let mut found = Told::new(alloc);
    let done = act_all(alloc, &mut records, &mut found, text);
    told.number(records.len() as u64);
    told.word(" places");
    drop(records);
    told.append(found, done)
}
