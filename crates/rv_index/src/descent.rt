//! Estimates of ranges of index trees.
ghost use Rattle.std.specs.Prelude.{◌≡◌, ◌<◌, ◌≤◌, length, false};
ghost use Rattle.rv_reader.specs.Entries.{run, AreLong, Ascend};
ghost use Rattle.rv_reader.specs.Shown.{IsEstimate, IsIndex};
ghost use Rattle.rv_index.specs.Estimates.{estimate, estimate_in, exactly, guess};
ghost use Rattle.rv_index.specs.Index.{cuts_of, entries_of, level_at, nodes_at, tree_of, whole_at, IsSound};

use crate::tree::Tree;
use rv_node::children_between;
use rv_reader::{Estimate, count_in};
use rv_value::{IndexEntry, Range};

/// How many entries of the tree at a snapshot are in a range, by one descent to the split node, at which more than
/// one child may hold the range.
///
/// With k such children at a level l it is `(k - 1) * 16^l`, about, held at the greatest `u64`. Where the descent ends
/// at a leaf, the entries of the range in it are counted, and the estimate is exact; so it is for an empty range. It
/// reads one node per level and takes no memory. The keys have at least as many values as the range's bounds.
/// (Antoshenkov, "Dynamic Query Optimization in Rdb/VMS", ICDE 1993.)
pub fn split(tree: &Tree, snap: u64, range: &Range) -> Estimate
    requires sound { IsSound tree.now snap }
    requires long { AreLong range.now (entries_of tree.now snap) }
    requires long_cuts { AreLong range.now (cuts_of tree.now snap) }
    ensures split { result ≡ estimate (tree_of tree.now snap) range.now }
    ensures exact { IsEstimate (entries_of tree.now snap) range.now result }
    ensures index { IsIndex (entries_of tree.now snap) (cuts_of tree.now snap) }
{
    let _ids = tree.len();
    if range.is_empty() {
        Estimate {
            value: 0,
            exact: true,
        }
    } else {
        descend(tree, snap, range)
    }
}

/// The estimate of a range that is not empty.
fn descend(tree: &Tree, snap: u64, range: &Range) -> Estimate
    requires sound { IsSound tree.now snap }
    requires long { AreLong range.now (entries_of tree.now snap) }
    requires long_cuts { AreLong range.now (cuts_of tree.now snap) }
    ensures { result ≡ estimate_in (level_at (nodes_at tree.now snap)) range.now (whole_at (nodes_at tree.now snap)).1 }
{
    let mut id = 0;
    let mut level = tree.level(snap);
    'down: while 0 < level {
        let Some(node) = tree.node(id, snap) else {
            unreachable!()
        };
        let (first, last) = children_between(node.entries(), range);
        if first != last {
            return spread(level, first as u32, last as u32);
        }
        id = node.children()[first];
        level -= 1;
    }
    match tree.node(id, snap) {
        Some(node) => counted(node.entries(), range),
        None => counted(&[], range),
    }
}

/// The estimate at the split node.
fn spread(level: u32, first: u32, last: u32) -> Estimate
    requires { first < last }
    ensures { result ≡ guess level first last }
{
    Estimate {
        value: u64::from(last - first).saturating_mul(16u64.saturating_pow(level)),
        exact: false,
    }
}

/// How many entries of a leaf are in a range.
fn counted(leaf: &[IndexEntry], range: &Range) -> Estimate
    requires ascend { Ascend leaf.now }
    requires long { AreLong range.now leaf.now }
    ensures { result ≡ exactly (length (run leaf.now range.now)) }
{
    let value = count_in(leaf, range) as u64;
    Estimate { value, exact: true }
}
