//! Tests that hold of a front part of a list, and the runs of a list that two of them find.
ghost use Rattle.std.specs.Prelude.{◌≡◌, ◌≤◌, length, take, drop, filter, IfOk};
ghost use Rattle.std.specs.Option.{option_copied};
ghost use Rattle.rv_rows.specs.Changes.{Rise};
ghost use Rattle.rv_reader.specs.Entries.{Ascend, AreLong, run};
ghost use Rattle.rv_reader.specs.Leaves.{is_passed};
ghost use Rattle.rv_overlay.specs.Fronts.{is_before_page, is_early, is_on, is_until, is_until_page};
ghost use Rattle.rv_overlay.specs.Laying.{first_not, has, sixteenths};
ghost use Rattle.rv_reader.specs.Leaves.{is_taken};

use rv_blocks::{Blocks, Front};
use rv_rows::Change;
use rv_value::{IndexEntry, NoMemory, Range, Side, cmp_entry};
use std::cmp::Ordering;

/// Not behind the leaf in which a reading begins, as a cut is.
#[derive(Clone, Copy)]
struct Passed<'a> {
    from: Option<&'a IndexEntry>,
    range: &'a Range,
}

impl<'a> Front<IndexEntry> for Passed<'a> {
    ghost passes = { λ s e. is_passed (option_copied s.from) s.range.now e };

    fn passes(&self, entry: &IndexEntry) -> bool {
        match self.from {
            None => self.range.place(&entry.key) == Side::Before,
            Some(start) => cmp_entry(start, entry) != Ordering::Less,
        }
    }
}

/// Before what is read of a range from an entry on.
#[derive(Clone, Copy)]
struct Early<'a> {
    from: Option<&'a IndexEntry>,
    range: &'a Range,
}

impl<'a> Front<IndexEntry> for Early<'a> {
    ghost passes = { λ s e. is_early (option_copied s.from) s.range.now e };

    fn passes(&self, entry: &IndexEntry) -> bool {
        let before = match self.from {
            None => false,
            Some(start) => cmp_entry(entry, start) == Ordering::Less,
        };
        before || self.range.place(&entry.key) == Side::Before
    }
}

/// Before the end of what is read of a range up to a cut.
#[derive(Clone, Copy)]
struct Until<'a> {
    next: Option<&'a IndexEntry>,
    range: &'a Range,
}

impl<'a> Front<IndexEntry> for Until<'a> {
    ghost passes = { λ s e. is_until (option_copied s.next) s.range.now e };

    fn passes(&self, entry: &IndexEntry) -> bool {
        let below = match self.next {
            None => true,
            Some(cut) => cmp_entry(entry, cut) == Ordering::Less,
        };
        below && self.range.place(&entry.key) != Side::After
    }
}

/// Before the changes of the rows of a page.
#[derive(Clone, Copy)]
struct BeforePage {
    table: u32,
    page: u32,
}

impl Front<Change> for BeforePage {
    ghost passes = { λ s c. is_before_page s.table s.page c };

    fn passes(&self, change: &Change) -> bool {
        change.table < self.table
            || change.table == self.table && change.row.0 / 32 < u64::from(self.page)
    }
}

/// Before the changes of the rows of the next page.
#[derive(Clone, Copy)]
struct UntilPage {
    table: u32,
    page: u32,
}

impl Front<Change> for UntilPage {
    ghost passes = { λ s c. is_until_page s.table s.page c };

    fn passes(&self, change: &Change) -> bool {
        change.table < self.table
            || change.table == self.table && change.row.0 / 32 <= u64::from(self.page)
    }
}

/// Where a run of a list begins, and how many items it has.
#[derive(Clone, Copy, PartialEq, Eq)]
pub struct Span {
    pub at: usize,
    pub count: usize,
}

/// The run of the entries in a range, from an entry on where one is given and before a cut where one is given.
pub fn span_of(
    entries: &Blocks<IndexEntry>,
    from: Option<&IndexEntry>,
    next: Option<&IndexEntry>,
    range: &Range,
) -> Span
    requires ascend { Ascend entries.now }
    requires long { AreLong range.now entries.now }
    ensures span { take result.count (drop result.at entries.now) ≡ filter (is_taken range.now (option_copied from.entry) (option_copied next.entry)) entries.now }
    ensures count { result.count ≡ length (filter (is_taken range.now (option_copied from.entry) (option_copied next.entry)) entries.now) }
{
    let at = entries.count(&Early { from, range });
    let end = entries.count(&Until { next, range });
    Span {
        at,
        count: end.saturating_sub(at),
    }
}

/// How many entries are in a range.
pub fn count_in(entries: &Blocks<IndexEntry>, range: &Range) -> u64
    requires ascend { Ascend entries.now }
    requires long { AreLong range.now entries.now }
    ensures { result ≡ length (run entries.now range.now) }
{
    span_of(entries, None, None, range).count as u64
}

/// Whether an entry is among others.
pub fn has(entries: &Blocks<IndexEntry>, entry: &IndexEntry) -> bool
    ensures { result ≡ has entries.now entry.now }
{
    entries.find(entry).is_some()
}

/// The first of each sixteen entries that is behind the leaf in which a reading begins.
pub fn first_behind<'a>(
    entries: &'a Blocks<IndexEntry>,
    from: Option<&IndexEntry>,
    range: &Range,
) -> Option<&'a IndexEntry>
    requires ascend { Ascend entries.now }
    requires long { AreLong range.now entries.now }
    requires few { length entries.now ≤ 1099511627776 }
    ensures { option_copied result ≡ first_not (is_passed (option_copied from.entry) range.now) (sixteenths entries.now) }
{
    let passed = entries.count(&Passed { from, range });
    let at = (passed + 15) / 16 * 16;
    if at < entries.len() {
        Some(entries.get(at))
    } else {
        None
    }
}

/// Copies of the changes of the rows of a page.
pub fn page_changes(
    changes: &Blocks<Change>,
    table: u32,
    page: u32,
) -> Result<Vec<Change>, NoMemory>
    requires { Rise changes.now }
    ensures { IfOk result (λ run. run.items ≡ filter (is_on table page) changes.now) }
{
    let at = changes.count(&BeforePage { table, page });
    let end = changes.count(&UntilPage { table, page });
    let run = changes.copy_run(at, end.saturating_sub(at))?;
    Ok(run)
}
