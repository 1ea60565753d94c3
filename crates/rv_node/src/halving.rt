//! Searches by halves among entries that ascend.
ghost use Rattle.std.specs.Prelude.{◌≡◌, ◌<◌, ◌≤◌, drop, length};
ghost use Rattle.rv_reader.specs.Entries.{AreLong, Ascend};
ghost use Rattle.rv_node.specs.Children.{first_child, last_child};

use rv_reader::{count_before, count_front};
use rv_value::{IndexEntry, Range};

/// The places of the first and the last child that may hold keys of a range, as `Node::children_for` tells them, of low
/// entries that ascend. A narrow range lies in one child, so that the last one is looked for from the first on.
pub fn children_between(lows: &[IndexEntry], range: &Range) -> (usize, usize)
    requires some { 0 < length lows.now }
    requires ascend { Ascend (drop 1 lows.now) }
    requires long { AreLong range.now (drop 1 lows.now) }
    ensures first { result.0 ≡ first_child range.now lows.now }
    ensures last { result.1 ≡ last_child range.now lows.now }
    ensures order { result.0 ≤ result.1 }
    ensures within { result.1 < length lows.now }
{
    let (_, behind) = lows.split_at(1);
    let first = count_before(behind, range);
    let (_, rest) = behind.split_at(first);
    (first, first + count_front(rest, range))
}
