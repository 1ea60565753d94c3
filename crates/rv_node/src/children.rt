ghost use Rattle.std.specs.Prelude.{◌≡◌, ◌<◌, drop, length};
ghost use Rattle.rv_reader.specs.Halves.{is_before};
ghost use Rattle.rv_node.specs.Children.{last_child, last_place};

use rv_value::{IndexEntry, Range, Side};

/// The place of the last child whose low entry is not after a range, 0 where none is so. The first low entry is not
/// looked at.
pub fn last_not_after(lows: &[IndexEntry], range: &Range) -> usize
    requires { 0 < length lows.now }
    ensures last { result ≡ last_child range.now lows.now }
    ensures within { result < length lows.now }
{
    let mut last = 0;
    'lows: for at in 1..lows.len() {
        if range.place(&lows[at].key) != Side::After {
            last = at;
        }
    }
    last
}

/// The place of the last child whose low entry is before a range, 0 where none is so. The first low entry is not
/// looked at.
pub fn last_before(lows: &[IndexEntry], range: &Range) -> usize
    requires { 0 < length lows.now }
    ensures last { result ≡ last_place (is_before range.now) 1 0 (drop 1 lows.now) }
    ensures within { result < length lows.now }
{
    let mut last = 0;
    'lows: for at in 1..lows.len() {
        if range.place(&lows[at].key) == Side::Before {
            last = at;
        }
    }
    last
}
