ghost use Rattle.std.specs.Prelude.{◌<◌, ◌≤◌, IfOk};
ghost use Rattle.rv_loading.specs.Laid.{IsNarrow};
ghost use Rattle.try_stores.specs.Filled.{IsFilled};

use rv_index::{Tree, split};
use rv_reader::{Chunk, Estimate};
use rv_value::{IndexEntry, NoMemory, Range};

/// How many nodes of a level have so many entries or children.
pub fn nodes_of(tree: &Tree, level: u32, size: usize) -> usize {
    let mut count = 0;
    'ids: for id in 0..tree.len() {
        if is_of(tree, id, level, size) {
            count += 1;
        }
    }
    count
}

fn is_of(tree: &Tree, id: usize, level: u32, size: usize) -> bool
    requires { id < 4294967296 }
{
    match tree.node(id as u32, 1) {
        Some(node) => node.level() == level && node.entries().len() == size,
        None => false,
    }
}

/// The number of entries of the next leaf of a range, and the entry with which the leaf behind it begins.
fn next_leaf(
    tree: &Tree,
    count: u32,
    from: Option<IndexEntry>,
    range: &Range,
) -> Result<(usize, Option<IndexEntry>), NoMemory>
    requires filled { IsFilled count tree.now }
    requires narrow { IsNarrow range.now }
    ensures { IfOk result (λ read. read.0 ≤ 48) }
{
    let chunk = tree.chunk(1, from.as_ref(), range);
    drop(from);
    let Chunk { entries, next } = chunk?;
    let count = entries.len();
    drop(entries);
    Ok((count, next))
}

/// The number of entries of a range and of the leaves that are read for them, one after another.
pub fn read(tree: &Tree, count: u32, range: &Range) -> Result<(usize, usize), NoMemory>
    requires filled { IsFilled count tree.now }
    requires narrow { IsNarrow range.now }
{
    let mut entries = 0;
    let mut leaves = 0;
    let mut from = None;
    'leaves: for place in 0..tree.len() {
        let (more, next) = next_leaf(tree, count, from, range)?;
        entries += more;
        leaves += 1;
        from = next;
        if from.is_none() {
            break;
        }
    }
    drop(from);
    Ok((entries, leaves))
}

/// The estimate of a range.
pub fn estimated(tree: &Tree, count: u32, range: &Range) -> Estimate
    requires filled { IsFilled count tree.now }
    requires narrow { IsNarrow range.now }
{
    split(tree, 1, range)
}
