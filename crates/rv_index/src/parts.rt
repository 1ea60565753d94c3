ghost use Rattle.std.specs.Prelude.{◌≡◌, ◌<◌, ◌≤◌, length, filter, take, drop, None, IfOk, OnOk};
ghost use Rattle.std.specs.Option.{option_copied};
ghost use Rattle.rv_reader.specs.Entries.{AreLong, Ascend, comes_before};
ghost use Rattle.rv_reader.specs.Leaves.{is_passed, is_wanted};
ghost use Rattle.rv_reader.specs.Halves.{PassesTo};
ghost use Rattle.rv_node.specs.Descent.{child_in};
ghost use Rattle.rv_node.specs.Trees.{differs, placed, up_to};
ghost use Rattle.rv_index.specs.Steps.{behind_child, is_ahead, passed_first};

use rv_node::Node;
use rv_reader::{count_before, count_front, count_passed, is_before};
use rv_value::{IndexEntry, NoMemory, Range, cmp_entry, copy_slice};
use std::alloc::Global;
use std::cmp::Ordering;

/// Whether an entry comes before another one, by key, then by row.
fn is_less(a: &IndexEntry, b: &IndexEntry) -> bool
    ensures { result ≡ comes_before a.now b.now }
{
    cmp_entry(a, b) == Ordering::Less
}

/// Whether an entry is before the range, or before the start.
fn ahead(from: Option<&IndexEntry>, range: &Range, entry: &IndexEntry) -> bool
    ensures { result ≡ is_ahead range.now (option_copied from.entry) entry.now }
{
    match from {
        None => is_before(entry, range),
        Some(start) => is_less(entry, start) || is_before(entry, range),
    }
}

/// How many entries of a leaf are before the range, or before the start.
fn count_ahead(leaf: &[IndexEntry], from: Option<&IndexEntry>, range: &Range) -> usize
    requires ascend { Ascend leaf.now }
    requires long { AreLong range.now leaf.now }
    ensures bound { result ≤ length leaf.now }
    ensures passes { PassesTo (is_ahead range.now (option_copied from.entry)) result leaf.now }
{
    match from {
        Some(_) => leaf.partition_point(|entry| ahead(from, range, entry)),
        None => count_before(leaf, range),
    }
}

/// The entries of a leaf that are in the range and from the start on: they stand together, and are found by halves.
fn wanted_part<'a>(
    leaf: &'a [IndexEntry],
    from: Option<&IndexEntry>,
    range: &Range,
) -> &'a [IndexEntry]
    requires ascend { Ascend leaf.now }
    requires long { AreLong range.now leaf.now }
    ensures { result.now ≡ filter (is_wanted range.now (option_copied from.entry)) leaf.now }
{
    let (_, rest) = leaf.split_at(count_ahead(leaf, from, range));
    let (part, _) = rest.split_at(count_front(rest, range));
    part
}

/// Copies of the entries of a leaf that are in the range and from the start on.
pub fn wanted_of(
    alloc: Global,
    leaf: &[IndexEntry],
    from: Option<&IndexEntry>,
    range: &Range,
) -> Result<Vec<IndexEntry>, NoMemory>
    requires ascend { Ascend leaf.now }
    requires long { AreLong range.now leaf.now }
    ensures { IfOk result (λ found. found.items ≡ filter (is_wanted range.now (option_copied from.entry)) leaf.now) }
{
    copy_slice(alloc, wanted_part(leaf, from, range))
}

/// The child in which a descent goes on, and the cut at which the following one begins. It is found by halves.
pub fn child_of<'a>(
    node: &'a Node,
    from: Option<&IndexEntry>,
    range: &Range,
    next: Option<&'a IndexEntry>,
) -> (u32, Option<&'a IndexEntry>)
    requires same { length node.now.entries ≡ length node.now.children }
    requires some { 0 < length node.now.children }
    requires ascend { Ascend (drop 1 node.now.entries) }
    requires long { AreLong range.now (drop 1 node.now.entries) }
    ensures { (result.0, option_copied result.1) ≡ child_in (is_passed (option_copied from.entry) range.now) node.now.entries node.now.children (option_copied next.entry) }
{
    let lows = node.entries();
    let ids = node.children();
    let (_, behind) = lows.split_at(1);
    let at = count_passed(behind, from, range);
    if at < behind.len() {
        (ids[at], Some(&behind[at]))
    } else {
        (ids[at], next)
    }
}

/// The place of an entry: behind all that come before it, up to the first that does not.
fn place_of(entries: &[IndexEntry], entry: &IndexEntry) -> usize
    requires { Ascend entries.now }
    ensures within { result ≤ length entries.now }
    ensures place { result ≡ passed_first (λ x. comes_before x entry.now) entries.now }
{
    entries.partition_point(|other| is_less(other, entry))
}

/// Puts an entry into its place.
pub fn put_entry(entries: &mut Vec<IndexEntry>, entry: IndexEntry) -> Result<(), NoMemory>
    requires { Ascend entries.old.items }
    ensures { OnOk result (entries.new.items ≡ placed comes_before entry entries.old.items) }
{
    let at = place_of(entries.as_slice(), &entry);
    entries.insert(at, entry)?;
    Ok(())
}

/// Whether an entry is another one than a given one.
fn is_other(entry: &IndexEntry, given: &IndexEntry) -> bool
    ensures { result ≡ differs comes_before given.now entry.now }
{
    is_less(entry, given) || is_less(given, entry)
}

/// Takes an entry out.
pub fn take_entry(entries: &mut Vec<IndexEntry>, entry: &IndexEntry)
    ensures { entries.new.items ≡ filter (differs comes_before entry.now) entries.old.items }
{
    entries.retain(|other| is_other(other, entry));
}

/// How many low entries an entry does not come before.
fn count_up_to(lows: &[IndexEntry], entry: &IndexEntry) -> usize
    requires { Ascend lows.now }
    ensures bound { result ≤ length lows.now }
    ensures passed { result ≡ passed_first (up_to comes_before entry.now) lows.now }
{
    lows.partition_point(|low| !is_less(entry, low))
}

/// The place behind the child of an entry.
fn place_behind(lows: &[IndexEntry], entry: &IndexEntry) -> usize
    requires some { 0 < length lows.now }
    requires ascend { Ascend (drop 1 lows.now) }
    ensures within { result ≤ length lows.now }
    ensures behind { result ≡ behind_child entry.now lows.now }
{
    let (_, behind) = lows.split_at(1);
    count_up_to(behind, entry) + 1
}

/// The child of an entry, and the place behind it.
pub fn child_for(node: &Node, entry: &IndexEntry) -> (u32, usize)
    requires same { length node.now.entries ≡ length node.now.children }
    requires some { 0 < length node.now.children }
    requires ascend { Ascend (drop 1 node.now.entries) }
    ensures child { result.0 ≡ (child_in (up_to comes_before entry.now) node.now.entries node.now.children None).0 }
    ensures place { result.1 ≡ behind_child entry.now node.now.entries }
{
    let at = place_behind(node.entries(), entry);
    (node.children()[at - 1], at)
}

/// Cuts a list after its first 16 items, and gives the rest. The first ones keep no more room than they need: where keys rise
/// they are never added to.
pub fn cut_off<X>(items: &mut Vec<X>) -> Result<Vec<X>, NoMemory>
    ensures rest { IfOk result (λ rest. rest.items ≡ drop 16 items.old.items) }
    ensures first { OnOk result (items.new.items ≡ take 16 items.old.items) }
{
    let rest = items.split_off(items.len().min(16))?;
    items.shrink_to_fit();
    Ok(rest)
}
