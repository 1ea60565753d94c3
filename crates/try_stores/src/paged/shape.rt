//! The leaves of the paged store's trees, and its estimates.
ghost use Rattle.std.specs.Prelude.{◌<◌};
ghost use Rattle.rv_loading.specs.Laid.{IsNarrow};
ghost use Rattle.try_stores.specs.Twins.{AreLaid};

use crate::paged::twins::Twins;
use crate::told::Told;
use rv_loading::{between, estimate_of, leaves_of, whole};
use rv_value::{IndexEntry, Items, NoMemory, Range};
use std::alloc::Global;

fn count_all(leaves: &[Items<IndexEntry>]) -> usize {
    let mut count: usize = 0;
    'leaves: for leaf in leaves {
        count = count.saturating_add(leaf.len());
    }
    count
}

/// How many leaves have so many entries.
fn count_of(leaves: &[Items<IndexEntry>], size: usize) -> usize {
    let mut count: usize = 0;
    'leaves: for leaf in leaves {
        if leaf.len() == size {
            count = count.saturating_add(1);
        }
    }
    count
}

/// Tells how many entries and leaves there are, and how many leaves have how many entries.
fn tell_sizes(told: &mut Told, index: u32, leaves: &[Items<IndexEntry>]) {
    told.with("index ", u64::from(index));
    told.with(": ", count_all(leaves) as u64);
    told.with(" entries in ", leaves.len() as u64);
    told.word(" leaves:");
    'sizes: for size in 0..33 {
        let count = count_of(leaves, size);
        if count > 0 {
            told.with(" ", count as u64);
            told.with(" of ", size as u64);
        }
    }
    told.word("\n");
}

/// The leaves of an index at the newest commit, as they are read for a range.
fn leaves_for(
    alloc: Global,
    twins: &Twins,
    index: u32,
    range: &Range,
) -> Result<Vec<Items<IndexEntry>>, NoMemory>
    requires laid { AreLaid twins.now }
    requires there { index < twins.now.layout.indexes }
    requires narrow { IsNarrow range.now }
{
    let newest = twins.layout.newest;
    leaves_of(
        alloc,
        &twins.paged,
        twins.layout,
        index,
        newest,
        None,
        range,
    )
}

/// Tells the entries and the leaves of an index at the newest commit, and how many leaves have how many entries.
pub fn tell_leaves(
    alloc: Global,
    told: &mut Told,
    twins: &Twins,
    index: u32,
) -> Result<(), NoMemory>
    requires laid { AreLaid twins.now }
    requires there { index < twins.now.layout.indexes }
{
    let range = whole();
    let leaves = leaves_for(alloc, twins, index, &range);
    drop(range);
    let leaves = leaves?;
    tell_sizes(told, index, leaves.as_slice());
    Ok(())
}

/// Tells what is read of a range.
fn tell_found(
    alloc: Global,
    told: &mut Told,
    twins: &Twins,
    index: u32,
    range: &Range,
) -> Result<(), NoMemory>
    requires laid { AreLaid twins.now }
    requires there { index < twins.now.layout.indexes }
    requires narrow { IsNarrow range.now }
{
    let leaves = leaves_for(alloc, twins, index, range)?;
    told.read(count_all(leaves.as_slice()), leaves.len());
    Ok(())
}

/// Tells the estimate of a range of first values, and what is read of it.
pub fn tell_range(
    alloc: Global,
    told: &mut Told,
    twins: &Twins,
    index: u32,
    low: i64,
    high: i64,
) -> Result<(), NoMemory>
    requires laid { AreLaid twins.now }
    requires there { index < twins.now.layout.indexes }
{
    let range = between(alloc, low, high)?;
    let newest = twins.layout.newest;
    let estimate = estimate_of(&twins.paged, twins.layout, index, newest, &range);
    told.range(low, high, estimate);
    let done = tell_found(alloc, told, twins, index, &range);
    drop(range);
    done
}
