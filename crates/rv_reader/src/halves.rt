//! Searches by halves among entries that ascend.
ghost use Rattle.std.specs.Prelude.{◌≡◌, ◌≤◌, length, not, IfSome};
ghost use Rattle.rv_value.specs.Numbers.{between};
ghost use Rattle.std.specs.Option.{option_copied};
ghost use Rattle.rv_reader.specs.Entries.{AreLong, Ascend, run};
ghost use Rattle.rv_reader.specs.Halves.{PassesTo, is_before, is_not_after};
ghost use Rattle.rv_reader.specs.Leaves.{is_passed};

use crate::entries::{is_before, is_passed};
use rv_value::{IndexEntry, Range, Side, is_under, place_between};

/// How many of ascending entries are before a range of any bounds.
#[inline(never)]
fn count_before_any(entries: &[IndexEntry], range: &Range) -> usize
    requires ascend { Ascend entries.now }
    requires long { AreLong range.now entries.now }
    ensures bound { result ≤ length entries.now }
    ensures passes { PassesTo (is_before range.now) result entries.now }
{
    entries.partition_point(|entry| is_before(entry, range))
}

/// How many of ascending entries are before a range.
#[inline(always)]
pub fn count_before(entries: &[IndexEntry], range: &Range) -> usize
    requires ascend { Ascend entries.now }
    requires long { AreLong range.now entries.now }
    ensures bound { result ≤ length entries.now }
    ensures passes { PassesTo (is_before range.now) result entries.now }
{
    match range.low_number() {
        Some(low) => entries.partition_point(|entry| is_under(&entry.key, low)),
        None => count_before_any(entries, range),
    }
}

/// How many of ascending entries are not after a range.
pub fn count_not_after(entries: &[IndexEntry], range: &Range) -> usize
    requires ascend { Ascend entries.now }
    requires long { AreLong range.now entries.now }
    ensures bound { result ≤ length entries.now }
    ensures passes { PassesTo (is_not_after range.now) result entries.now }
{
    entries.partition_point(|entry| range.place(&entry.key) != Side::After)
}

/// Whether an entry is after a range, which may lie between two numbers.
#[inline(always)]
fn is_after(entry: &IndexEntry, numbers: Option<(i64, i64)>, range: &Range) -> bool
    requires { IfSome numbers (λ ends. range.now ≡ between ends.0 ends.1) }
    ensures { is_not_after range.now entry.now ≡ not result }
{
    match numbers {
        Some((low, high)) => place_between(&entry.key, low, high) == Side::After,
        None => range.place(&entry.key) == Side::After,
    }
}

/// How many of ascending entries are not after a range, where few or all are expected to be: the first two and the last one
/// are looked at before the others.
#[inline(always)]
pub fn count_front(entries: &[IndexEntry], range: &Range) -> usize
    requires ascend { Ascend entries.now }
    requires long { AreLong range.now entries.now }
    ensures bound { result ≤ length entries.now }
    ensures passes { PassesTo (is_not_after range.now) result entries.now }
{
    let count = entries.len();
    if count == 0 {
        return 0;
    }
    let numbers = range.numbers();
    if is_after(&entries[0], numbers, range) {
        return 0;
    }
    if count == 1 {
        return 1;
    }
    if is_after(&entries[1], numbers, range) {
        return 1;
    }
    if is_after(&entries[count - 1], numbers, range) {
        return count_not_after(entries, range);
    }
    count
}

/// How many of ascending entries are in a range: those that are not before it, up to the first that is after it.
pub fn count_in(entries: &[IndexEntry], range: &Range) -> usize
    requires ascend { Ascend entries.now }
    requires long { AreLong range.now entries.now }
    ensures { result ≡ length (run entries.now range.now) }
{
    let (_, rest) = entries.split_at(count_before(entries, range));
    count_front(rest, range)
}

/// How many of ascending cuts are not behind the leaf in which a reading of a range begins, from an entry or from the
/// range's front.
pub fn count_passed(cuts: &[IndexEntry], from: Option<&IndexEntry>, range: &Range) -> usize
    requires ascend { Ascend cuts.now }
    requires long { AreLong range.now cuts.now }
    ensures bound { result ≤ length cuts.now }
    ensures passes { PassesTo (is_passed (option_copied from.entry) range.now) result cuts.now }
{
    match from {
        Some(_) => cuts.partition_point(|cut| is_passed(from, range, cut)),
        None => count_before(cuts, range),
    }
}
