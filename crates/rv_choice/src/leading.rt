ghost use Rattle.std.specs.Prelude.{◌≡◌, ◌<◌, length, IfSome, OnOk};
ghost use Rattle.rv_judge.specs.Account.{first_guarantee};
ghost use Rattle.rv_reader.specs.Shown.{CanRead};
ghost use Rattle.rv_reader.specs.Tables.{IsTable};
ghost use Rattle.rv_choice.specs.Choice.{no_candidate};
ghost use Rattle.rv_choice.specs.Leading.{front_begun, front_candidate, guarantee_of};

use crate::choosing::{Candidate, Choice};
use crate::query::Query;
use rv_judge::Strategy;
use rv_reader::Reader;
use rv_scan::{Front, Fscan};
use rv_value::{Duplicate, Items, NoMemory, Range};
use std::alloc::Global;

/// Makes a foreground the scan of an index.
fn lead(
    alloc: Global,
    query: &Query,
    candidate: &Candidate,
    front: &mut Front,
) -> Result<(), NoMemory>
    ensures { OnOk result (front.new ≡ front_begun query.now candidate.now) }
{
    let range = candidate.range.copy(alloc)?;
    let columns = match candidate.columns.copy(alloc) {
        Ok(columns) => columns,
        Err(fault) => {
            drop(range);
            return Err(fault);
        }
    };
    front.renew(
        candidate.sufficient,
        columns,
        query.table,
        candidate.index,
        query.snap,
        range,
    );
    Ok(())
}

/// All keys.
fn all_keys() -> Range
    ensures { result ≡ no_candidate.range }
{
    Range {
        low: None,
        high: None,
        starts: false,
    }
}

/// Makes a foreground what stands for it where no index is scanned by the foreground. It is never stepped.
fn lead_nowhere(alloc: Global, query: &Query, front: &mut Front)
    ensures { front.new ≡ front_begun query.now no_candidate }
{
    front.renew(
        false,
        Items::new(alloc),
        query.table,
        0,
        query.snap,
        all_keys(),
    );
}

/// What stands for the foreground's scan before an index is chosen. It is never stepped.
pub fn nowhere(alloc: Global, query: &Query) -> Front
    ensures { result ≡ front_begun query.now no_candidate }
{
    let fetching = Fscan::new(alloc, query.table, 0, query.snap, all_keys());
    Front::new(false, Items::new(alloc), fetching)
}

/// Makes a foreground the scan of the candidate in a place, in its memory. Where there is none it is a scan of no index,
/// which is never stepped. Where there is no memory for it the foreground is of no more use.
pub fn foreground(
    alloc: Global,
    query: &Query,
    candidates: &[Candidate],
    place: Option<usize>,
    front: &mut Front,
) -> Result<(), NoMemory>
    requires { IfSome place (λ at. at < length candidates.now) }
    ensures { OnOk result (front.new ≡ front_begun query.now (front_candidate candidates.now place)) }
{
    match place {
        Some(at) => lead(alloc, query, &candidates[at], front),
        None => {
            lead_nowhere(alloc, query, front);
            Ok(())
        }
    }
}

/// About how many entries the foreground's scan has.
fn front_entries(candidates: &[Candidate], place: Option<usize>) -> u64
    requires { IfSome place (λ at. at < length candidates.now) }
    ensures { result ≡ (front_candidate candidates.now place).estimate.value }
{
    match place {
        Some(at) => candidates[at].estimate.value,
        None => 0,
    }
}

fn first_guarantee(strategy: Strategy, pages: u64, entries: u64) -> u64
    ensures { result ≡ first_guarantee strategy pages entries }
{
    match strategy {
        Strategy::Table | Strategy::BackgroundOnly | Strategy::FastFirst | Strategy::Union => pages,
        Strategy::Sorted => entries,
        Strategy::IndexOnly => entries.div_ceil(16),
    }
}

/// The cost at which a retrieval can be finished without a background.
pub fn guarantee<R: Reader>(
    reader: &R,
    query: &Query,
    candidates: &[Candidate],
    choice: Choice,
) -> u64
    requires can { CanRead (R.shown reader.now) query.now.table query.now.snap }
    requires place { IfSome choice.front (λ at. at < length candidates.now) }
    ensures value { result ≡ guarantee_of query.now (R.shown reader.now) candidates.now choice }
    ensures table { IsTable ((R.shown reader.now).rows query.now.table query.now.snap) ((R.shown reader.now).pages query.now.table query.now.snap) }
{
    let pages = u64::from(reader.sizes(query.table, query.snap).pages);
    first_guarantee(
        choice.strategy,
        pages,
        front_entries(candidates, choice.front),
    )
}
