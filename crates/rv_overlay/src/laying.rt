//! One leaf of an index with entries laid over it.
ghost use Rattle.std.specs.Prelude.{◌≡◌, ◌≤◌, ◌&&◌, length, filter, not, slice_get, IfOk, OnOk};
ghost use Rattle.std.specs.Option.{option_copied};
ghost use Rattle.rv_rows.specs.Rising.{put_in};
ghost use Rattle.rv_blocks.specs.Flat.{Turns};
ghost use Rattle.rv_blocks.specs.Taking.{is_level};
ghost use Rattle.rv_reader.specs.Entries.{Ascend, AreLong, comes_before};
ghost use Rattle.rv_reader.specs.Leaves.{is_passed, within};
ghost use Rattle.rv_overlay.specs.Laying.{first_not, has, lesser, sixteenths, with_all};
ghost use Rattle.rv_reader.specs.Leaves.{is_below, is_taken};

use crate::fronts::{first_behind, has, span_of};
use rv_blocks::{Before, Blocks, turn_in};
use rv_reader::cut_within;
use rv_value::{IndexEntry, NoMemory, Range, cmp_entry};
use std::alloc::Global;
use std::cmp::Ordering;

/// Whether an entry is before a cut, where there is one.
fn below(next: Option<&IndexEntry>, entry: &IndexEntry) -> bool
    ensures { result ≡ is_below (option_copied next.entry) entry.now }
{
    match next {
        None => true,
        Some(cut) => cmp_entry(entry, cut) == Ordering::Less,
    }
}

/// The lesser of two cuts.
fn lesser(a: Option<IndexEntry>, b: Option<IndexEntry>) -> Option<IndexEntry>
    ensures { result ≡ lesser a b }
{
    match (a, b) {
        (None, b) => b,
        (Some(x), None) => Some(x),
        (Some(x), Some(y)) => {
            if cmp_entry(&y, &x) == Ordering::Less {
                Some(y)
            } else {
                Some(x)
            }
        }
    }
}

/// The cut that follows in a leaf with added entries: that of the store, or an earlier one of the added entries.
pub fn next_cut(
    alloc: Global,
    next: Option<IndexEntry>,
    added: &Blocks<IndexEntry>,
    from: Option<&IndexEntry>,
    range: &Range,
) -> Result<Option<IndexEntry>, NoMemory>
    requires ascend { Ascend added.now }
    requires long { AreLong range.now added.now }
    requires few { length added.now ≤ 1099511627776 }
    ensures { IfOk result (λ cut. cut ≡ lesser next (within range.now (first_not (is_passed (option_copied from.entry) range.now) (sixteenths added.now)))) }
{
    let own = cut_within(alloc, first_behind(added, from, range), range)?;
    Ok(lesser(next, own))
}

/// Keeps the entries before a cut that are not taken away.
fn keep_left(entries: &mut Vec<IndexEntry>, next: Option<&IndexEntry>, taken: &Blocks<IndexEntry>)
    ensures { entries.new.items ≡ filter (λ e. is_below (option_copied next.entry) e && not (has taken.now e)) entries.old.items }
{
    entries.retain(|entry| below(next, entry) && !has(taken, entry));
}

/// Whether the entry of a place, which is not before another one, is equal to it.
fn is_level(entries: &[IndexEntry], place: usize, entry: &IndexEntry) -> bool
    ensures { result ≡ is_level comes_before entry.now (slice_get entries.now place) }
{
    match entries.get(place) {
        None => false,
        Some(other) => cmp_entry(entry, other) != Ordering::Less,
    }
}

/// How many of the entries at the front come before another one.
fn place_of(entries: &[IndexEntry], entry: &IndexEntry) -> usize
    ensures { Turns (λ x. comes_before x entry.now) entries.now result }
{
    turn_in(entries, &Before { other: entry })
}

/// Puts an entry in its place.
fn put(entries: &mut Vec<IndexEntry>, entry: IndexEntry) -> Result<(), NoMemory>
    requires { Ascend entries.old.items }
    ensures put { OnOk result (entries.new.items ≡ put_in comes_before entry entries.old.items) }
    ensures ascend { OnOk result (Ascend entries.new.items) }
{
    let place = place_of(entries.as_slice(), &entry);
    if is_level(entries.as_slice(), place, &entry) {
        return Ok(());
    }
    entries.insert(place, entry)?;
    Ok(())
}

/// Puts entries in their places.
fn put_all(entries: &mut Vec<IndexEntry>, added: Vec<IndexEntry>) -> Result<(), NoMemory>
    requires { Ascend entries.old.items }
    ensures { OnOk result (entries.new.items ≡ with_all added.items entries.old.items) }
{
    'added: for entry in added {
        put(entries, entry)?;
    }
    Ok(())
}

/// The entries of a leaf of the view, made of the store's.
pub fn lay(
    entries: Vec<IndexEntry>,
    taken: &Blocks<IndexEntry>,
    added: &Blocks<IndexEntry>,
    next: Option<&IndexEntry>,
    from: Option<&IndexEntry>,
    range: &Range,
) -> Result<Vec<IndexEntry>, NoMemory>
    requires leaf { Ascend entries.items }
    requires ascend { Ascend added.now }
    requires long { AreLong range.now added.now }
    ensures { IfOk result (λ all. all.items ≡ with_all (filter (is_taken range.now (option_copied from.entry) (option_copied next.entry)) added.now) (filter (λ e. is_below (option_copied next.entry) e && not (has taken.now e)) entries.items)) }
{
    let mut all = entries;
    keep_left(&mut all, next, taken);
    let span = span_of(added, from, next, range);
    let own = added.copy_run(span.at, span.count)?;
    put_all(&mut all, own)?;
    Ok(all)
}
