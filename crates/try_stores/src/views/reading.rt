//! What a cursor reads over a store without a view, and with the views that a transaction had in turn.
ghost use Rattle.std.specs.Prelude.{◌≡◌, ◌≤◌, ◌<◌, IfOk, OnOk, true};
ghost use Rattle.rv_reader.specs.Shown.{CanRead, CanScan};
ghost use Rattle.rv_view.specs.Sights.{LaysSome};
ghost use Rattle.rv_loading.specs.Laid.{IsEmpty, Laid};
ghost use Rattle.try_stores.specs.Viewing.{IsFirst, IsKept, IsOf, IsOne, Stands, all_entries};

use crate::told::Told;
use crate::values::one_value;
use rv_blocks::Blocks;
use rv_catalog::IndexDef;
use rv_judge::{Steps, Uncounted};
use rv_loading::{Fault, Loaded, Schema, fill, index_over};
use rv_plain::Plain;
use rv_reader::{Change, Chunk, Reader, Store};
use rv_value::{IndexEntry, Items, NoMemory, Range, RowNo, Text, copy_slice};
use rv_view::laws::lays_kept;
use rv_view::{Seen, View, frozen_of};
use std::alloc::Global;

/// A row gets a value, or is deleted.
fn change(alloc: Global, row: u64, value: Option<i64>) -> Result<Change, NoMemory>
    requires { row < 1000 }
    ensures { IfOk result (IsOf row) }
{
    let values = match value {
        Some(value) => Some(one_value(alloc, value)?),
        None => None,
    };
    Ok(Change {
        table: 0,
        row: RowNo(row),
        values,
    })
}

/// The first index of what was loaded.
fn index(alloc: Global, loaded: &Loaded) -> Result<IndexDef, NoMemory>
    ensures { IfOk result (IsFirst loaded.now) }
{
    let columns = copy_slice(alloc, loaded.schema.columns_of(0))?;
    let name = Text::read(alloc, "i")?;
    Ok(IndexDef {
        name,
        table: loaded.schema.table_of(0),
        columns: Items::from_vec(columns),
        unique: false,
    })
}

/// Whether there are one table and one index at commit 1.
fn is_one(loaded: &Loaded) -> bool
    ensures { result ≡ true → IsOne loaded.now }
{
    if loaded.layout.tables != 1 || loaded.layout.indexes != 1 {
        return false;
    }
    if loaded.layout.horizon > 1 || loaded.layout.newest == 0 {
        return false;
    }
    let count = loaded.schema.columns_of(0).len();
    if count == 0 {
        return false;
    }
    count <= 4
}

/// The one index of a store that was loaded.
fn first_of<S: Store>(alloc: Global, store: &S, loaded: &Loaded) -> Result<Vec<IndexDef>, NoMemory>
    requires laid { Laid loaded.now.schema loaded.now.layout (S.shown store.now) }
    requires one { IsOne loaded.now }
    ensures { IfOk result (λ indexes. Stands (S.shown store.now) indexes.items) }
{
    let _last = store.last();
    let mut indexes = Vec::with_capacity(alloc, 1)?;
    indexes.push(index(alloc, loaded)?)?;
    Ok(indexes)
}

fn listed<S: Store>(alloc: Global, store: &S, loaded: &Loaded) -> Result<Vec<IndexDef>, Fault>
    requires { Laid loaded.now.schema loaded.now.layout (S.shown store.now) }
    ensures { IfOk result (λ indexes. Stands (S.shown store.now) indexes.items) }
{
    if is_one(loaded) {
        return Ok(first_of(alloc, store, loaded)?);
    }
    Err(Fault::Form)
}

/// Row 0 has 1 and row 1 has 3.
fn batches(alloc: Global) -> Result<Vec<Vec<Change>>, NoMemory> {
    let mut rows = Vec::with_capacity(alloc, 2)?;
    rows.push(change(alloc, 0, Some(1))?)?;
    rows.push(change(alloc, 1, Some(3))?)?;
    let mut all = Vec::with_capacity(alloc, 1)?;
    all.push(rows)?;
    Ok(all)
}

/// A table of one column with an index over it, and two rows.
fn lay<S: Store>(alloc: Global, store: &mut S) -> Result<Vec<IndexDef>, Fault>
    requires { IsEmpty (S.shown store.old) }
    ensures { IfOk result (λ indexes. Stands (S.shown store.new) indexes.items) }
{
    let batches = batches(alloc)?;
    let mut over = Vec::with_capacity(alloc, 1)?;
    over.push(index_over(alloc, 0, &[0])?)?;
    let loaded = fill(store, Schema::new(1, over), 1, batches.as_slice())?;
    let indexes = listed(alloc, store, &loaded);
    drop(loaded);
    indexes
}

/// The view of a transaction without changes, and the rows that it has written.
fn begin<S: Store + Reader<Ledger = Uncounted>>(
    alloc: Global,
    store: &S,
    indexes: &[IndexDef],
) -> Result<(View, Blocks<Change>), NoMemory>
    requires { Stands (S.shown store.now) indexes.now }
    ensures { IfOk result (λ own. IsKept (S.shown store.now) own.0 own.1) }
{
    let (frozen, written) = frozen_of(alloc, 1, store, indexes, &[])?;
    Ok((View::new(alloc, frozen)?, written))
}

/// The rows from one on and before another one get a value, or are deleted, one after another.
fn write<S: Store + Reader<Ledger = Uncounted>>(
    alloc: Global,
    store: &S,
    indexes: &[IndexDef],
    view: &mut View,
    written: &mut Blocks<Change>,
    from: u64,
    to: u64,
    value: Option<i64>,
) -> Result<(), NoMemory>
    requires stands { Stands (S.shown store.now) indexes.now }
    requires low { to ≤ 1000 }
    requires kept { IsKept (S.shown store.now) view.old written.old }
    ensures { OnOk result (IsKept (S.shown store.now) view.new written.new) }
{
    'rows: for row in from..to {
        view.keep(alloc, written, store, indexes, &change(alloc, row, value)?)?;
    }
    Ok(())
}

/// The view for a cursor that is opened.
fn opened<S: Store + Reader<Ledger = Uncounted>>(
    store: &S,
    indexes: &[IndexDef],
    view: &View,
    written: &Blocks<Change>,
) -> Result<Option<View>, NoMemory>
    requires stands { Stands (S.shown store.now) indexes.now }
    requires kept { IsKept (S.shown store.now) view.now written.now }
    ensures { IfOk result (LaysSome (S.shown store.now)) }
{
    lays_kept();
    let shared = view.share()?;
    Ok(Some(shared))
}

fn all() -> Range
    ensures { result ≡ all_entries }
{
    Range {
        low: None,
        high: None,
        starts: false,
    }
}

/// Tells the rows of entries.
fn tell_rows(told: &mut Told, entries: &[IndexEntry]) {
    'entries: for entry in entries {
        told.with(" ", entry.row.0);
    }
}

/// Tells the rows of the next leaf; the entry with which the leaf behind it begins.
fn tell_leaf<R: Reader<Ledger = Uncounted>>(
    alloc: Global,
    told: &mut Told,
    reader: &R,
    from: Option<IndexEntry>,
) -> Result<Option<IndexEntry>, NoMemory>
    requires { CanScan (R.shown reader.now) 0 1 }
{
    let mut steps = Steps::new(Uncounted);
    let all = all();
    let chunk = reader.chunk(alloc, 0, 1, from.as_ref(), &all, &mut steps);
    drop(all);
    drop(from);
    let Chunk { entries, next } = chunk?;
    tell_rows(told, entries.as_slice());
    drop(entries);
    Ok(next)
}

/// Tells the rows of the index's entries, in their order.
fn tell_entries<R: Reader<Ledger = Uncounted>>(
    alloc: Global,
    told: &mut Told,
    reader: &R,
) -> Result<(), NoMemory>
    requires { CanScan (R.shown reader.now) 0 1 }
{
    told.word("entries");
    let mut from = None;
    'leaves: for _leaf in 0..10u32 {
        from = tell_leaf(alloc, told, reader, from)?;
        if from.is_none() {
            break;
        }
    }
    drop(from);
    Ok(())
}

/// Tells how many rows a page has.
fn tell_page<R: Reader<Ledger = Uncounted>>(
    alloc: Global,
    told: &mut Told,
    reader: &R,
) -> Result<(), NoMemory>
    requires { CanRead (R.shown reader.now) 0 1 }
{
    let mut steps = Steps::new(Uncounted);
    let page = reader.page(alloc, 0, 1, 0, &mut steps)?;
    told.with(", rows of page 0: ", page.len() as u64);
    Ok(())
}

/// Tells whether row 1 is there.
fn tell_row<R: Reader<Ledger = Uncounted>>(
    alloc: Global,
    told: &mut Told,
    reader: &R,
) -> Result<(), NoMemory>
    requires { CanRead (R.shown reader.now) 0 1 }
{
    let mut steps = Steps::new(Uncounted);
    let row = reader.fetch(alloc, 0, 1, RowNo(1), &mut steps)?;
    told.word(if row.is_some() {
        ", row 1 stands\n"
    } else {
        ", row 1 is gone\n"
    });
    drop(row);
    Ok(())
}

/// Tells how much there may be of the index.
fn tell_estimate<R: Reader<Ledger = Uncounted>>(told: &mut Told, reader: &R)
    requires { CanScan (R.shown reader.now) 0 1 }
{
    let all = all();
    told.with("; estimate ", reader.estimate(0, 1, &all).value);
    drop(all);
}

/// Tells what a reader has of the table and its index at commit 1.
fn tell_reader<R: Reader<Ledger = Uncounted>>(
    alloc: Global,
    told: &mut Told,
    reader: &R,
) -> Result<(), NoMemory>
    requires read { CanRead (R.shown reader.now) 0 1 }
    requires scan { CanScan (R.shown reader.now) 0 1 }
{
    tell_entries(alloc, told, reader)?;
    tell_estimate(told, reader);
    let sizes = reader.sizes(0, 1);
    told.with(", rows ", sizes.rows);
    told.with(", pages ", u64::from(sizes.pages));
    tell_page(alloc, told, reader)?;
    tell_row(alloc, told, reader)
}

/// What a cursor reads over a view.
fn tell_seen<S: Store + Reader<Ledger = Uncounted>>(
    alloc: Global,
    told: &mut Told,
    store: &S,
    view: &Option<View>,
    indexes: &[IndexDef],
) -> Result<(), NoMemory>
    requires stands { Stands (S.shown store.now) indexes.now }
    requires lays { LaysSome (S.shown store.now) view.now }
{
    let seen = Seen {
        reader: store,
        view,
    };
    tell_reader(alloc, told, &seen)
}

/// What a cursor reads without a view, with the one that it was given before the last two changes, and with the one
/// after them.
fn tell_course<S: Store + Reader<Ledger = Uncounted>>(
    alloc: Global,
    told: &mut Told,
    store: &S,
    indexes: &[IndexDef],
) -> Result<(), NoMemory>
    requires { Stands (S.shown store.now) indexes.now }
{
    let (mut view, mut written) = begin(alloc, store, indexes)?;
    let done = tell_views(alloc, told, store, indexes, &mut view, &mut written);
    drop(view);
    drop(written);
    done
}

fn tell_views<S: Store + Reader<Ledger = Uncounted>>(
    alloc: Global,
    told: &mut Told,
    store: &S,
    indexes: &[IndexDef],
    view: &mut View,
    written: &mut Blocks<Change>,
) -> Result<(), NoMemory>
    requires stands { Stands (S.shown store.now) indexes.now }
    requires kept { IsKept (S.shown store.now) view.old written.old }
{
    write(alloc, store, indexes, view, written, 0, 1, Some(7))?;
    write(alloc, store, indexes, view, written, 0, 1, Some(5))?;
    write(alloc, store, indexes, view, written, 2, 33, Some(2))?;
    let earlier = opened(store, indexes, view, written)?;
    let done = tell_later(alloc, told, store, indexes, view, written, &earlier);
    drop(earlier);
    done
}

/// The last two changes.
fn tell_later<S: Store + Reader<Ledger = Uncounted>>(
    alloc: Global,
    told: &mut Told,
    store: &S,
    indexes: &[IndexDef],
    view: &mut View,
    written: &mut Blocks<Change>,
    earlier: &Option<View>,
) -> Result<(), NoMemory>
    requires stands { Stands (S.shown store.now) indexes.now }
    requires kept { IsKept (S.shown store.now) view.old written.old }
    requires lays { LaysSome (S.shown store.now) earlier.now }
{
    write(alloc, store, indexes, view, written, 1, 2, None)?;
    write(alloc, store, indexes, view, written, 32, 33, None)?;
    let later = opened(store, indexes, view, written)?;
    let done = tell_all_seen(alloc, told, store, indexes, earlier, &later);
    drop(later);
    done
}

fn tell_all_seen<S: Store + Reader<Ledger = Uncounted>>(
    alloc: Global,
    told: &mut Told,
    store: &S,
    indexes: &[IndexDef],
    earlier: &Option<View>,
    later: &Option<View>,
) -> Result<(), NoMemory>
    requires stands { Stands (S.shown store.now) indexes.now }
    requires earlier { LaysSome (S.shown store.now) earlier.now }
    requires later { LaysSome (S.shown store.now) later.now }
{
    let none = None;
    let done = tell_seen(alloc, told, store, &none, indexes);
    drop(none);
    done?;
    tell_seen(alloc, told, store, earlier, indexes)?;
    tell_seen(alloc, told, store, later, indexes)
}

/// What a cursor reads with the view that all changes make at once.
fn tell_whole<S: Store + Reader<Ledger = Uncounted>>(
    alloc: Global,
    told: &mut Told,
    store: &S,
    indexes: &[IndexDef],
) -> Result<(), NoMemory>
    requires { Stands (S.shown store.now) indexes.now }
{
    let mut changes = Vec::with_capacity(alloc, 2)?;
    changes.push(change(alloc, 1, None)?)?;
    changes.push(change(alloc, 40, Some(0))?)?;
    let (frozen, written) = frozen_of(alloc, 1, store, indexes, changes.as_slice())?;
    drop(changes);
    let view = match View::new(alloc, frozen) {
        Ok(view) => view,
        Err(fault) => {
            drop(written);
            return Err(fault);
        }
    };
    let done = tell_at_once(alloc, told, store, indexes, &view, &written);
    drop(view);
    drop(written);
    done
}

fn tell_at_once<S: Store + Reader<Ledger = Uncounted>>(
    alloc: Global,
    told: &mut Told,
    store: &S,
    indexes: &[IndexDef],
    view: &View,
    written: &Blocks<Change>,
) -> Result<(), NoMemory>
    requires stands { Stands (S.shown store.now) indexes.now }
    requires kept { IsKept (S.shown store.now) view.now written.now }
{
    let at_once = opened(store, indexes, view, written)?;
    let done = tell_seen(alloc, told, store, &at_once, indexes);
    drop(at_once);
    done
}

/// A transaction changes rows 0 to 32 in turn, and another one two rows at once.
pub fn tell(alloc: Global, told: &mut Told) -> Result<(), Fault> {
    let mut store = Plain::new(alloc)?;
    let done = tell_over(alloc, told, &mut store);
    drop(store);
    done
}

/// Over an empty store.
fn tell_over<S: Store + Reader<Ledger = Uncounted>>(
    alloc: Global,
    told: &mut Told,
    store: &mut S,
) -> Result<(), Fault>
    requires { IsEmpty (S.shown store.old) }
{
    let indexes = lay(alloc, store)?;
    let done = tell_both(alloc, told, store, indexes.as_slice());
    drop(indexes);
    Ok(done?)
}

fn tell_both<S: Store + Reader<Ledger = Uncounted>>(
    alloc: Global,
    told: &mut Told,
    store: &S,
    indexes: &[IndexDef],
) -> Result<(), NoMemory>
    requires { Stands (S.shown store.now) indexes.now }
{
    tell_course(alloc, told, store, indexes)?;
    tell_whole(alloc, told, store, indexes)
}
