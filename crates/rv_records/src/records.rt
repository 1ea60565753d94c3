ghost use Rattle.std.specs.Prelude.{◌≡◌, ◌==◌, if◌then◌else◌, ℕ, ◌+◌, ◌-◌, ◌*◌, ◌/◌, ◌<◌, ◌≤◌, ◌^◌, [], length, max, IfOk, OnOk, OnErr, slice_index_or};
ghost use Rattle.rv_rows.specs.Rows.{Ascend, with_values};
ghost use Rattle.rv_reader.specs.Tables.{page_of, row_at, IsTable};
ghost use Rattle.std.specs.Option.{option_copied};
ghost use Rattle.rv_versions.specs.Chains.{versions_to, AllChainsBelow};
ghost use Rattle.rv_records.specs.Pages.{page_after, page_at, page_of_versions, rows_at, pages_at, sizes_with, IsBelow, IsSame, IsPut, IsTaken, IsWritten, IsTakenBack};

use crate::finding::find_row;
use rv_reader::Sizes;
use rv_rows::Rows;
use rv_value::{Duplicate, NoMemory, Record, RowNo, Values, copy_slice};
use rv_versions::Versions;
use std::alloc::Global;
use std::marker::Model;

/// The rows of a table at each commit, in pages of 32 row numbers, of which each is kept by versions. The count of
/// pages and of rows is kept by versions too.
///
/// A snapshot is read from the horizon on, the greatest one to which something was purged. A commit is above it.
#[derive(Drop)]
pub struct Records {
    alloc: Global,
    horizon: u64,
    pages: Versions<Rows>,
    sizes: Versions<Sizes>,
}

impl Model for Records {
    ghost use Rattle.rv_records.specs.Pages.{Kept, IsKept};

    ghost Value = { Kept };

    ghost view = { λ r. record { horizon = r.horizon; pages = r.pages; sizes = r.sizes } };

    ghost invariant = { λ r. IsKept (record { horizon = r.horizon; pages = r.pages; sizes = r.sizes }) };
}

impl Records {
    /// No row at any commit, with the horizon 0. It takes no memory.
    pub fn new(alloc: Global) -> Records
        ensures { result ≡ record { horizon = 0; pages = []; sizes = [] } }
    {
        Records {
            alloc,
            horizon: 0,
            pages: Versions::new(alloc),
            sizes: Versions::new(alloc),
        }
    }

    /// The number of pages that have a place: all rows ever put are in the pages below it.
    pub fn len(&self) -> usize
        ensures same { result ≡ length self.now.pages }
        ensures few { length self.now.pages ≤ 134217728 }
    {
        self.pages.len()
    }

    /// Whether no row was ever put.
    pub fn is_empty(&self) -> bool
        ensures { result ≡ (length self.now.pages == 0) }
    {
        self.pages.is_empty()
    }

    /// The rows of a page at a snapshot: those whose number divided by 32 is `n`, ascending.
    pub fn page(&self, n: u32, snap: u64) -> Result<Vec<Record>, NoMemory>
        requires { self.now.horizon ≤ snap }
        ensures { IfOk result (λ page. page.items ≡ page_of (rows_at self.now snap) n) }
    {
        copy_slice(self.alloc, self.rows(n, snap))
    }

    /// How many pages and rows there are at a snapshot. It takes no memory.
    pub fn sizes(&self, snap: u64) -> Sizes
        requires { self.now.horizon ≤ snap }
        ensures pages { result.pages ≡ pages_at self.now snap }
        ensures rows { result.rows ≡ length (rows_at self.now snap) }
        ensures few { result.rows ≤ 4294967296 }
        ensures table { IsTable (rows_at self.now snap) (pages_at self.now snap) }
    {
        match self.sizes.read(0, snap) {
            Some(sizes) => *sizes,
            None => Sizes { pages: 0, rows: 0 },
        }
    }

    /// The rows of a page at a snapshot, as `page` gives them, without a copy.
    pub fn rows(&self, n: u32, snap: u64) -> &[Record]
        requires { self.now.horizon ≤ snap }
        ensures same { result.now ≡ page_at self.now snap n }
        ensures page { result.now ≡ page_of (rows_at self.now snap) n }
        ensures ascend { Ascend result.now }
        ensures few { length result.now ≤ length (rows_at self.now snap) }
    {
        match self.pages.read(n, snap) {
            Some(rows) => rows.as_slice(),
            None => &[],
        }
    }

    /// The row of a number at a snapshot; None exactly where there is none. It takes no memory.
    pub fn row(&self, row: RowNo, snap: u64) -> Option<&Record>
        requires { self.now.horizon ≤ snap }
        ensures row { option_copied result ≡ row_at (rows_at self.now snap) row.0 }
        ensures ascend { Ascend (rows_at self.now snap) }
    {
        let pages = &self.pages;
        if row.0 > u64::from(u32::MAX) {
            return None;
        }
        match pages.read((row.0 / 32) as u32, snap) {
            Some(rows) => find_row(rows.as_slice(), row),
            None => None,
        }
    }

    /// The sizes once a row is given values or taken away, without the rows of its page.
    fn sizes_without(&self, row: RowNo, given: bool, snap: u64) -> Sizes
        requires narrow { row.0 < 4294967296 }
        requires kept { self.now.horizon ≤ snap }
        ensures pages { result.pages ≡ (if given then max (pages_at self.now snap) (row.0 / 32 + 1) else pages_at self.now snap) }
        ensures rows { result.rows + length (page_at self.now snap (row.0 / 32)) ≡ length (rows_at self.now snap) }
        ensures few { result.rows ≤ 4294967296 }
    {
        let n = (row.0 / 32) as u32;
        let sizes = self.sizes(snap);
        let own = self.rows(n, snap).len() as u64;
        Sizes {
            pages: if given {
                sizes.pages.max(n + 1)
            } else {
                sizes.pages
            },
            rows: sizes.rows - own,
        }
    }

    /// Gives a row values, or takes it away, at a commit and all that follow; no version is above the commit. It
    /// copies one page, where the commit has not written it before. After `NoMemory` the call `abandon` gives the rows before the commit.
    pub fn put(&mut self, row: RowNo, values: Option<Values>, commit: u64) -> Result<(), NoMemory>
        requires narrow { row.0 < 4294967296 }
        requires later { self.old.horizon < commit }
        requires newest { IsBelow (commit + 1) self.old }
        ensures ok { OnOk result (IsPut row.0 values commit self.old self.new) }
        ensures older { (snap : ℕ) → snap < commit → IsSame self.old snap self.new snap }
        ensures horizon { self.new.horizon ≡ self.old.horizon }
        ensures newest { IsBelow (commit + 1) self.new }
    {
        let sizes = self.sizes_without(row, values.is_some(), commit);
        put_row(
            self.alloc,
            &mut self.pages,
            &mut self.sizes,
            row,
            values,
            sizes,
            commit,
        )
    }

    /// Takes what was put at a commit away, above which there is no version: the rows are those before the commit.
    /// It takes no memory.
    pub fn abandon(&mut self, commit: u64)
        requires later { self.old.horizon < commit }
        requires newest { IsBelow (commit + 1) self.old }
        ensures older { (snap : ℕ) → snap < commit → IsSame self.old snap self.new snap }
        ensures later { (snap : ℕ) → commit ≤ snap → IsSame self.old (commit - 1) self.new snap }
        ensures horizon { self.new.horizon ≡ self.old.horizon }
        ensures below { IsBelow commit self.new }
        ensures len { length self.new.pages ≡ length self.old.pages }
    {
        take_back(&mut self.pages, &mut self.sizes, commit);
    }

    /// Takes the versions of a page away that no snapshot from the horizon on reads. It takes no memory.
    pub fn purge(&mut self, n: u32, horizon: u64)
        ensures same { (snap : ℕ) → horizon ≤ snap → IsSame self.old snap self.new snap }
        ensures horizon { self.new.horizon ≡ max self.old.horizon horizon }
        ensures below { (high : ℕ) → IsBelow high self.old → IsBelow high self.new }
        ensures one { versions_to horizon (slice_index_or self.new.pages n []) ≤ 1 }
        ensures one_size { versions_to horizon (slice_index_or self.new.sizes 0 []) ≤ 1 }
        ensures len { length self.new.pages ≡ length self.old.pages }
    {
        self.pages.purge(n, horizon);
        self.sizes.purge(0, horizon);
        self.horizon = self.horizon.max(horizon);
    }
}

/// Takes what was written at a commit back.
fn take_back(pages: &mut Versions<Rows>, sizes: &mut Versions<Sizes>, commit: u64)
    requires newest { AllChainsBelow (commit + 1) pages.old }
    requires newest_sizes { AllChainsBelow (commit + 1) sizes.old }
    ensures len { length pages.new ≡ length pages.old }
    ensures back { IsTakenBack commit pages.old pages.new sizes.old sizes.new }
{
    pages.abandon(commit);
    sizes.abandon(commit);
}

/// A page, for another one that is to be written in its place: the page that the commit wrote itself, which is taken
/// out, or a copy of an older one.
fn take_page(
    alloc: Global,
    pages: &mut Versions<Rows>,
    n: u32,
    commit: u64,
) -> Result<Rows, NoMemory>
    requires { AllChainsBelow (commit + 1) pages.old }
    ensures page { IfOk result (λ page. page ≡ page_of_versions pages.old n commit) }
    ensures taken { IsTaken n commit pages.old pages.new }
{
    match pages.take(n, commit) {
        Some(page) => Ok(page),
        None => copy_page(alloc, pages, n, commit),
    }
}

fn copy_page(alloc: Global, pages: &Versions<Rows>, n: u32, snap: u64) -> Result<Rows, NoMemory>
    ensures { IfOk result (λ page. page ≡ page_of_versions pages.now n snap) }
{
    match pages.read(n, snap) {
        Some(page) => page.copy(alloc),
        None => Ok(Rows::new(alloc)),
    }
}

/// Gives a row of a page values, or takes it away.
fn change_page(page: &mut Rows, row: RowNo, values: Option<Values>) -> Result<(), NoMemory>
    ensures { OnOk result (page.new ≡ with_values row.0 values page.old) }
{
    match values {
        Some(values) => page.put(Record { row, values }),
        None => {
            page.remove(row);
            Ok(())
        }
    }
}

/// A page with a row's values, or without the row, of which the commit's own version is taken out.
fn page_with(
    alloc: Global,
    pages: &mut Versions<Rows>,
    row: RowNo,
    values: Option<Values>,
    commit: u64,
) -> Result<Rows, NoMemory>
    requires narrow { row.0 < 4294967296 }
    requires newest { AllChainsBelow (commit + 1) pages.old }
    ensures page { IfOk result (λ page. page ≡ page_after row.0 values pages.old commit) }
    ensures taken { IsTaken (row.0 / 32) commit pages.old pages.new }
{
    let mut page = take_page(alloc, pages, (row.0 / 32) as u32, commit)?;
    change_page(&mut page, row, values)?;
    Ok(page)
}

/// Gives a row values, or takes it away, and writes its page and the sizes, which are given without the page's rows.
/// Where memory is wanted, all that was written at the commit is taken back.
fn put_row(
    alloc: Global,
    pages: &mut Versions<Rows>,
    sizes: &mut Versions<Sizes>,
    row: RowNo,
    values: Option<Values>,
    others: Sizes,
    commit: u64,
) -> Result<(), NoMemory>
    requires narrow { row.0 < 4294967296 }
    requires few { others.rows ≤ 4294967296 }
    requires newest { AllChainsBelow (commit + 1) pages.old }
    requires newest_sizes { AllChainsBelow (commit + 1) sizes.old }
    ensures ok { OnOk result (IsWritten (row.0 / 32) commit (page_after row.0 values pages.old commit) (sizes_with others (page_after row.0 values pages.old commit)) pages.old pages.new sizes.old sizes.new) }
    ensures err { OnErr result (IsTakenBack commit pages.old pages.new sizes.old sizes.new) }
{
    let page = match page_with(alloc, pages, row, values, commit) {
        Ok(page) => page,
        Err(NoMemory) => {
            take_back(pages, sizes, commit);
            return Err(NoMemory);
        }
    };
    let size = Sizes {
        pages: others.pages,
        rows: others.rows + page.as_slice().len() as u64,
    };
    write_both(pages, sizes, (row.0 / 32) as u32, page, size, commit)
}

/// Writes a page and the sizes. Where memory is wanted, all that was written at the commit is taken back.
fn write_both(
    pages: &mut Versions<Rows>,
    sizes: &mut Versions<Sizes>,
    n: u32,
    page: Rows,
    size: Sizes,
    commit: u64,
) -> Result<(), NoMemory>
    requires newest { AllChainsBelow (commit + 1) pages.old }
    requires newest_sizes { AllChainsBelow (commit + 1) sizes.old }
    ensures ok { OnOk result (IsWritten n commit page size pages.old pages.new sizes.old sizes.new) }
    ensures err { OnErr result (IsTakenBack commit pages.old pages.new sizes.old sizes.new) }
{
    if sizes.write(0, commit, size).is_err() {
        take_back(pages, sizes, commit);
        return Err(NoMemory);
    }
    if pages.write(n, commit, page).is_err() {
        take_back(pages, sizes, commit);
        return Err(NoMemory);
    }
    Ok(())
}
