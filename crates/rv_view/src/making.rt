//! How what is frozen is made of a transaction's changes, and brought up to date with each further one.
ghost use Rattle.std.specs.Prelude.{◌≡◌, ◌≤◌, ◌<◌, [], None, Some, length, slice_get, slice_set, IfOk, OnOk};
ghost use Rattle.std.specs.List.{AllByRecursion};
ghost use Rattle.std.specs.Option.{option_copied};
ghost use Rattle.rv_catalog.specs.declared.def.IndexDef.{IndexDef as OneIndex};
ghost use Rattle.rv_rows.specs.Changes.{Rise, with_change};
ghost use Rattle.rv_rows.specs.declared.changes.Change.{Change as OneChange};
ghost use Rattle.rv_overlay.specs.declared.frozen.Part.{Part as OnePart};
ghost use Rattle.rv_reader.specs.Entries.{entry_at};
ghost use Rattle.rv_overlay.specs.Keeping.{moved};
ghost use Rattle.rv_overlay.specs.Rows.{change_of, changed_row};
ghost use Rattle.rv_reader.specs.Shown.{CanRead};
ghost use Rattle.rv_reader.specs.Tables.{IsTable, row_at};
ghost use Rattle.rv_view.specs.Making.{AreIndexes, Keeps, empty_part, empty_parts, part_after, parts_after, unchanged};

use crate::entries::{row_before, row_of};
use crate::sizing::{keep_size, keep_written};
use rv_blocks::Blocks;
use rv_catalog::IndexDef;
use rv_judge::{Steps, Uncounted};
use rv_overlay::{Frozen, Part, change_of};
use rv_reader::{Reader, Sizes, entry_at};
use rv_rows::Change;
use rv_value::{Duplicate, Items, NoMemory, Record};
use std::alloc::Global;

/// The lists of an index of the changed table, brought up to date.
fn keep_part(
    alloc: Global,
    part: &mut Part,
    columns: &[u32],
    base: Option<&Record>,
    old: Option<&Record>,
    new: Option<&Record>,
) -> Result<(), NoMemory>
    requires some { 1 ≤ length columns.now }
    requires few { length columns.now ≤ 4 }
    ensures { OnOk result (part.new ≡ moved (entry_at columns.now (option_copied base.entry)) (entry_at columns.now (option_copied old.entry)) (entry_at columns.now (option_copied new.entry)) part.old) }
{
    let base = entry_at(alloc, base, columns)?;
    let old = match entry_at(alloc, old, columns) {
        Ok(old) => old,
        Err(fault) => {
            drop(base);
            return Err(fault);
        }
    };
    let new = match entry_at(alloc, new, columns) {
        Ok(new) => new,
        Err(fault) => {
            drop(base);
            drop(old);
            return Err(fault);
        }
    };
    part.change(base, old, new)
}

/// The lists of the index of a place, brought up to date: those of another table stay, and are not looked up.
fn keep_at(
    alloc: Global,
    parts: &mut Items<Part>,
    place: usize,
    index: &IndexDef,
    table: u32,
    base: Option<&Record>,
    old: Option<&Record>,
    new: Option<&Record>,
) -> Result<(), NoMemory>
    requires some { 1 ≤ length index.now.columns }
    requires few { length index.now.columns ≤ 4 }
    requires there { place < length parts.old }
    ensures { OnOk result ((part : OnePart) → slice_get parts.old place ≡ Some part → parts.new ≡ slice_set parts.old place (part_after index.now table (option_copied base.entry) (option_copied old.entry) (option_copied new.entry) part)) }
{
    if index.table != table {
        return Ok(());
    }
    let columns = index.columns.as_slice();
    keep_part(alloc, parts.at_mut(place), columns, base, old, new)?;
    Ok(())
}

/// The lists of the indexes of a table, brought up to date. Of an index of another table the table alone is looked at.
fn keep_parts(
    alloc: Global,
    parts: &mut Items<Part>,
    indexes: &[IndexDef],
    table: u32,
    base: Option<&Record>,
    old: Option<&Record>,
    new: Option<&Record>,
) -> Result<(), NoMemory>
    requires columns { AllByRecursion (λ (d : OneIndex). (1 ≤ length d.columns) × (length d.columns ≤ 4)) indexes.now }
    requires same { length parts.old ≡ length indexes.now }
    ensures { OnOk result (parts.new ≡ parts_after indexes.now table (option_copied base.entry) (option_copied old.entry) (option_copied new.entry) parts.old) }
{
    let mut place = 0;
    'indexes: for index in indexes {
        keep_at(alloc, parts, place, index, table, base, old, new)?;
        place += 1;
    }
    Ok(())
}

/// Nothing taken and nothing added of an index. It takes no memory.
fn empty_part(alloc: Global, index: &IndexDef) -> Part
    requires { length index.now.columns ≤ 4 }
    ensures { result ≡ empty_part index.now }
{
    Part::new(alloc, index.columns.len() as u32)
}

/// Nothing taken and nothing added of each index.
fn empty_parts(alloc: Global, indexes: &[IndexDef]) -> Result<Vec<Part>, NoMemory>
    requires { AllByRecursion (λ (d : OneIndex). (1 ≤ length d.columns) × (length d.columns ≤ 4)) indexes.now }
    ensures { IfOk result (λ parts. parts.items ≡ empty_parts indexes.now) }
{
    let mut parts = Vec::with_capacity(alloc, indexes.len())?;
    'indexes: for index in indexes {
        parts.push(empty_part(alloc, index))?;
    }
    Ok(parts)
}

/// No change over a commit, with nothing taken and nothing added of each index.
pub fn frozen_new(alloc: Global, base: u64, indexes: &[IndexDef]) -> Result<Frozen, NoMemory>
    requires { AllByRecursion (λ (d : OneIndex). (1 ≤ length d.columns) × (length d.columns ≤ 4)) indexes.now }
    ensures { IfOk result (λ frozen. frozen ≡ unchanged base indexes.now) }
{
    let parts = empty_parts(alloc, indexes)?;
    Ok(Frozen {
        base,
        changes: Blocks::new(alloc),
        sizes: Blocks::new(alloc),
        parts: Items::from_vec(parts),
    })
}

/// How large a table is at a commit.
fn sizes_at<R: Reader>(reader: &R, table: u32, snap: u64) -> Sizes
    requires { CanRead (R.shown reader.now) table snap }
    ensures pages { result.pages ≡ (R.shown reader.now).pages table snap }
    ensures rows { result.rows ≡ length ((R.shown reader.now).rows table snap) }
    ensures table { IsTable ((R.shown reader.now).rows table snap) ((R.shown reader.now).pages table snap) }
    ensures small { result.pages < 4294967296 }
{
    reader.sizes(table, snap)
}

/// Brings what is frozen up to date with a change of a row that stands so at the base, before the change and after it.
fn keep_rows<R: Reader<Ledger = Uncounted>>(
    alloc: Global,
    frozen: &mut Frozen,
    written: &mut Blocks<Change>,
    reader: &R,
    indexes: &[IndexDef],
    change: &Change,
    base: Option<&Record>,
    old: Option<&Record>,
    new: Option<&Record>,
) -> Result<(), NoMemory>
    requires indexes { AreIndexes (R.shown reader.now) indexes.now }
    requires can { CanRead (R.shown reader.now) change.now.table frozen.old.base }
    requires low { change.now.row.0 < 4294967296 }
    requires keeps { Keeps (R.shown reader.now) frozen.old written.old }
    requires base { option_copied base ≡ row_at ((R.shown reader.now).rows change.now.table frozen.old.base) change.now.row.0 }
    requires before { option_copied old ≡ changed_row (change_of change.now.table change.now.row.0 frozen.old.changes) (option_copied base) }
    requires after { option_copied new ≡ changed_row (Some change.now) None }
    ensures keeps { OnOk result (Keeps (R.shown reader.now) frozen.new written.new) }
    ensures changes { OnOk result (frozen.new.changes ≡ with_change change.now frozen.old.changes) }
    ensures base { OnOk result (frozen.new.base ≡ frozen.old.base) }
{
    let size = sizes_at(reader, change.table, frozen.base);
    let table = change.table;
    keep_parts(alloc, &mut frozen.parts, indexes, table, base, old, new)?;
    keep_written(written, change)?;
    keep_size(&mut frozen.sizes, written, change, size, old, new)?;
    drop(frozen.changes.put(change.copy(alloc)?)?);
    Ok(())
}

/// Brings what is frozen up to date with a change of one row: it is then what the changes with this one make. It reads
/// the row at the base. `written` has the rows of the changes that give values. On `NoMemory` both may stand in
/// between: whoever holds them lets them go.
pub fn keep_change<R: Reader<Ledger = Uncounted>>(
    alloc: Global,
    frozen: &mut Frozen,
    written: &mut Blocks<Change>,
    reader: &R,
    indexes: &[IndexDef],
    change: &Change,
) -> Result<(), NoMemory>
    requires indexes { AreIndexes (R.shown reader.now) indexes.now }
    requires can { CanRead (R.shown reader.now) change.now.table frozen.old.base }
    requires low { change.now.row.0 < 4294967296 }
    requires keeps { Keeps (R.shown reader.now) frozen.old written.old }
    ensures keeps { OnOk result (Keeps (R.shown reader.now) frozen.new written.new) }
    ensures changes { OnOk result (frozen.new.changes ≡ with_change change.now frozen.old.changes) }
    ensures base { OnOk result (frozen.new.base ≡ frozen.old.base) }
{
    let mut steps = Steps::new(Uncounted);
    let base = reader.fetch(alloc, change.table, frozen.base, change.row, &mut steps)?;
    let earlier = change_of(&frozen.changes, change.table, change.row);
    let old = match row_before(alloc, earlier, base.as_ref()) {
        Ok(old) => old,
        Err(fault) => {
            drop(base);
            return Err(fault);
        }
    };
    let new = match row_of(alloc, change) {
        Ok(new) => new,
        Err(fault) => {
            drop(base);
            drop(old);
            return Err(fault);
        }
    };
    let kept = keep_rows(
        alloc,
        frozen,
        written,
        reader,
        indexes,
        change,
        base.as_ref(),
        old.as_ref(),
        new.as_ref(),
    );
    drop(base);
    drop(old);
    drop(new);
    kept
}

/// Brings what is frozen, which has no change yet, up to date with all of a transaction's changes.
fn keep_changes<R: Reader<Ledger = Uncounted>>(
    alloc: Global,
    frozen: &mut Frozen,
    written: &mut Blocks<Change>,
    reader: &R,
    indexes: &[IndexDef],
    changes: &[Change],
) -> Result<(), NoMemory>
    requires indexes { AreIndexes (R.shown reader.now) indexes.now }
    requires can { AllByRecursion (λ (c : OneChange). CanRead (R.shown reader.now) c.table frozen.old.base × (c.row.0 < 4294967296)) changes.now }
    requires rise { Rise changes.now }
    requires starts { Keeps (R.shown reader.now) frozen.old written.old }
    requires none { frozen.old.changes ≡ [] }
    ensures keeps { OnOk result (Keeps (R.shown reader.now) frozen.new written.new) }
    ensures changes { OnOk result (frozen.new.changes ≡ changes.now) }
    ensures base { OnOk result (frozen.new.base ≡ frozen.old.base) }
{
    'changes: for change in changes {
        keep_change(alloc, frozen, written, reader, indexes, change)?;
    }
    Ok(())
}

/// What all of a transaction's changes make, over a commit. It fetches each changed row once.
pub fn frozen_of<R: Reader<Ledger = Uncounted>>(
    alloc: Global,
    base: u64,
    reader: &R,
    indexes: &[IndexDef],
    changes: &[Change],
) -> Result<(Frozen, Blocks<Change>), NoMemory>
    requires indexes { AreIndexes (R.shown reader.now) indexes.now }
    requires can { AllByRecursion (λ (c : OneChange). CanRead (R.shown reader.now) c.table base × (c.row.0 < 4294967296)) changes.now }
    requires rise { Rise changes.now }
    ensures keeps { IfOk result (λ made. Keeps (R.shown reader.now) made.0 made.1) }
    ensures changes { IfOk result (λ made. made.0.changes ≡ changes.now) }
    ensures base { IfOk result (λ made. made.0.base ≡ base) }
{
    let mut frozen = frozen_new(alloc, base, indexes)?;
    let mut written = Blocks::new(alloc);
    match keep_changes(alloc, &mut frozen, &mut written, reader, indexes, changes) {
        Ok(()) => Ok((frozen, written)),
        Err(fault) => {
            drop(frozen);
            drop(written);
            Err(fault)
        }
    }
}
