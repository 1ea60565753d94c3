//! What is read of an index with a transaction's entries laid over it.
ghost use Rattle.std.specs.Prelude.{◌≡◌, ◌<◌, ◌≤◌, ◌+◌, ◌^◌, length, true, IfOk};
ghost use Rattle.std.specs.Option.{option_copied};
ghost use Rattle.rv_judge.specs.Counting.{leaf_read};
ghost use Rattle.rv_reader.specs.Entries.{Ascend, AreLong, run};
ghost use Rattle.rv_reader.specs.Shown.{CanScan, IsEstimate, IsIndex, Suits};
ghost use Rattle.rv_overlay.specs.Laying.{laid, sixteenths, with_all};
ghost use Rattle.rv_reader.specs.Leaves.{IsChunk};
ghost use Rattle.rv_overlay.specs.Overlaid.{LaysIndex, counted, estimated, fits, is_short, part_at};

use crate::fronts::count_in;
use crate::frozen::{Frozen, Part};
use crate::laying::{lay, next_cut};
use rv_judge::Steps;
use rv_reader::{Chunk, Estimate, Reader};
use rv_value::{Bound, IndexEntry, Items, NoMemory, Range};
use std::alloc::Global;

/// What was frozen of an index.
pub fn part_of(frozen: &Frozen, index: u32) -> &Part
    requires { index < length frozen.now.parts }
    ensures { result.now ≡ part_at frozen.now.parts index }
{
    let parts = frozen.parts.as_slice();
    &parts[index as usize]
}

fn is_short(width: u32, bound: &Option<Bound>) -> bool
    ensures { result ≡ is_short width bound.now }
{
    match bound {
        None => true,
        Some(bound) => bound.key.as_slice().len() <= width as usize,
    }
}

/// Whether no bound of a range has more values than the keys of an index.
fn fits(width: u32, range: &Range) -> bool
    ensures { result ≡ fits width range.now }
{
    is_short(width, &range.low) && is_short(width, &range.high)
}

/// A leaf of the view, made of the reader's leaf in which it lies.
pub fn chunk_over<R: Reader>(
    reader: &R,
    part: &Part,
    alloc: Global,
    index: u32,
    snap: u64,
    from: Option<&IndexEntry>,
    range: &Range,
    steps: &mut Steps<R::Ledger>,
) -> Result<Chunk, NoMemory>
    requires can { CanScan (R.shown reader.now) index snap }
    requires lays { LaysIndex ((R.shown reader.now).entries index snap) ((R.shown reader.now).cuts index snap) part.now }
    requires entries { AreLong range.now (laid part.now.taken part.now.added ((R.shown reader.now).entries index snap)) }
    requires cuts { AreLong range.now (with_all (sixteenths part.now.added) ((R.shown reader.now).cuts index snap)) }
    ensures chunk { IfOk result (IsChunk (laid part.now.taken part.now.added ((R.shown reader.now).entries index snap)) (with_all (sixteenths part.now.added) ((R.shown reader.now).cuts index snap)) range.now (option_copied from.entry)) }
    ensures counted { steps.new ≡ leaf_read steps.old }
{
    if !fits(part.width, range) {
        steps.leaf();
        return Ok(Chunk {
            entries: Items::new(alloc),
            next: None,
        });
    }
    let leaf = reader.chunk(alloc, index, snap, from, range, steps)?;
    let next = next_cut(alloc, leaf.next, &part.added, from, range)?;
    let all = lay(
        leaf.entries.into_vec(),
        &part.taken,
        &part.added,
        next.as_ref(),
        from,
        range,
    )?;
    Ok(Chunk {
        entries: Items::from_vec(all),
        next,
    })
}

/// The reader's count of a range, less the taken entries and plus the added ones.
fn counted(part: &Part, range: &Range, estimate: Estimate) -> Estimate
    requires less { estimate.exact ≡ true → length (run part.now.taken range.now) ≤ estimate.value }
    requires fits { estimate.exact ≡ true → estimate.value + length (run part.now.added range.now) < 2 ^ 64 }
    requires taken { Ascend part.now.taken }
    requires added { Ascend part.now.added }
    requires long_taken { AreLong range.now part.now.taken }
    requires long_added { AreLong range.now part.now.added }
    ensures { result ≡ counted part.now range.now estimate }
{
    let added = count_in(&part.added, range);
    if !estimate.exact {
        return Estimate {
            value: estimate.value.saturating_add(added),
            exact: false,
        };
    }
    Estimate {
        value: estimate.value - count_in(&part.taken, range) + added,
        exact: true,
    }
}

/// How many entries of the view are in a range.
pub fn estimate_over<R: Reader>(
    reader: &R,
    part: &Part,
    index: u32,
    snap: u64,
    range: &Range,
) -> Estimate
    requires can { CanScan (R.shown reader.now) index snap }
    requires lays { LaysIndex ((R.shown reader.now).entries index snap) ((R.shown reader.now).cuts index snap) part.now }
    requires entries { AreLong range.now (laid part.now.taken part.now.added ((R.shown reader.now).entries index snap)) }
    ensures shown { result ≡ estimated part.now range.now ((R.shown reader.now).estimates index snap range.now) }
    ensures exact { IsEstimate (laid part.now.taken part.now.added ((R.shown reader.now).entries index snap)) range.now result }
    ensures index { IsIndex (laid part.now.taken part.now.added ((R.shown reader.now).entries index snap)) (with_all (sixteenths part.now.added) ((R.shown reader.now).cuts index snap)) }
{
    if !fits(part.width, range) {
        return Estimate {
            value: 0,
            exact: true,
        };
    }
    let estimate = reader.estimate(index, snap, range);
    counted(part, range, estimate)
}
