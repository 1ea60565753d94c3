ghost use Rattle.std.specs.Prelude.{◌≡◌, ℕ, ◌+◌, ◌<◌, ◌≤◌, [], ◌∷◌, ◌++◌, length, IfSome, OnOk, OnErr};
ghost use Rattle.std.specs.List.{AllByRecursion};
ghost use Rattle.rv_rows.specs.Changes.{Rise};
ghost use Rattle.rv_store.specs.Tables.{AreOpen, AreSameBelow, CanPut};
ghost use Rattle.rv_store.specs.Indexes.{index_at, AreIndexesBelow, AreSameIndexes, IsOpen};
ghost use Rattle.rv_store.specs.Places.{AreIndexesFrom, AreSameFrom, HasAll, IsLonger, IsPurged};
ghost use Rattle.rv_store.specs.Whole.{AreBack, AreThrough};

use crate::indexes::{Index, abandon_indexes, change_indexes};
use crate::places::{Place, Places, purge_node, purge_page};
use crate::tables::{Table, abandon_tables, put_changes};
use rv_rows::Change;
use rv_value::NoMemory;
use std::alloc::Global;

/// Makes the changes of a commit in all indexes, and then in the tables.
fn write_changes(
    alloc: Global,
    tables: &mut Vec<Table>,
    indexes: &mut Vec<Index>,
    changes: &[Change],
    commit: u64,
) -> Result<(), NoMemory>
    requires open { AreOpen commit tables.old.items }
    requires can { AllByRecursion (CanPut (length tables.old.items)) changes.now }
    requires each { (index : ℕ) → index < length indexes.old.items → IsOpen commit tables.old.items (index_at indexes.old.items index) }
    requires rise { Rise changes.now }
    ensures ok { OnOk result (AreThrough commit changes.now tables.old.items tables.new.items indexes.old.items indexes.new.items) }
    ensures tables { AreSameBelow commit tables.old.items tables.new.items }
    ensures indexes { AreSameIndexes commit indexes.old.items indexes.new.items }
    ensures open { AreOpen commit tables.new.items }
    ensures newest { AreIndexesBelow (commit + 1) indexes.new.items }
{
    change_indexes(alloc, indexes, tables.as_slice(), changes, commit)?;
    put_changes(alloc, tables, changes, commit)
}

/// Notes the nodes of an index that were written.
fn note_nodes(index: &mut Index, number: u32, places: &mut Places)
    ensures index { index.new ≡ index.old }
    ensures places { places.new ≡ places.old }
{
    let ids = index.tree.take_written();
    'ids: for id in ids {
        places.note(Place::Node { index: number, id });
    }
}

/// Notes the nodes of all indexes that were written.
fn note_indexes(indexes: &mut Vec<Index>, places: &mut Places)
    requires { length indexes.old.items ≤ 4294967296 }
    ensures indexes { indexes.new.items ≡ indexes.old.items }
    ensures places { places.new ≡ places.old }
{
    'indexes: for at in 0..indexes.len() {
        note_nodes(&mut indexes[at], at as u32, places);
    }
}

/// Notes the page of a changed row, which is not written where no page can have that number.
fn note_page(change: &Change, places: &mut Places)
    ensures { places.new ≡ places.old }
{
    match u32::try_from(change.row.0 / 32) {
        Ok(n) => places.note(Place::Page {
            table: change.table,
            n,
        }),
        Err(_) => {}
    }
}

/// Notes the pages of changed rows.
fn note_pages(changes: &[Change], places: &mut Places)
    ensures { places.new ≡ places.old }
{
    'changes: for change in changes {
        note_page(change, places);
    }
}

/// Makes the changes of a commit in all tables and indexes, or in none, and lists the pages and nodes that came. What was
/// written is noted for the next sweep.
pub fn commit_changes(
    alloc: Global,
    tables: &mut Vec<Table>,
    indexes: &mut Vec<Index>,
    places: &mut Places,
    changes: &[Change],
    commit: u64,
) -> Result<(), NoMemory>
    requires open { AreOpen commit tables.old.items }
    requires can { AllByRecursion (CanPut (length tables.old.items)) changes.now }
    requires each { (index : ℕ) → index < length indexes.old.items → IsOpen commit tables.old.items (index_at indexes.old.items index) }
    requires rise { Rise changes.now }
    requires few { length tables.old.items ≤ 4294967296 }
    requires few_indexes { length indexes.old.items ≤ 4294967296 }
    ensures ok { OnOk result (AreThrough commit changes.now tables.old.items tables.new.items indexes.old.items indexes.new.items) }
    ensures err { OnErr result (AreBack commit tables.new.items indexes.new.items) }
    ensures listed { OnOk result (HasAll places.new.places tables.new.items indexes.new.items) }
    ensures longer { IsLonger places.old.places places.new.places }
    ensures next { places.new.next ≡ places.old.next }
    ensures tables { AreSameBelow commit tables.old.items tables.new.items }
    ensures indexes { AreSameIndexes commit indexes.old.items indexes.new.items }
{
    let done = commit_whole(alloc, tables, indexes, places, changes, commit);
    note_indexes(indexes, places);
    note_pages(changes, places);
    done
}

/// Makes the changes of a commit in all tables and indexes, or in none, and lists the pages and nodes that came.
#[tactic(auto, using(crate::proofs::Tabling::same_below_trans, crate::proofs::Listing::same_indexes_trans, crate::proofs::Placing::longer_none))]
fn commit_whole(
    alloc: Global,
    tables: &mut Vec<Table>,
    indexes: &mut Vec<Index>,
    places: &mut Places,
    changes: &[Change],
    commit: u64,
) -> Result<(), NoMemory>
    requires open { AreOpen commit tables.old.items }
    requires can { AllByRecursion (CanPut (length tables.old.items)) changes.now }
    requires each { (index : ℕ) → index < length indexes.old.items → IsOpen commit tables.old.items (index_at indexes.old.items index) }
    requires rise { Rise changes.now }
    requires few { length tables.old.items ≤ 4294967296 }
    requires few_indexes { length indexes.old.items ≤ 4294967296 }
    ensures ok { OnOk result (AreThrough commit changes.now tables.old.items tables.new.items indexes.old.items indexes.new.items) }
    ensures err { OnErr result (AreBack commit tables.new.items indexes.new.items) }
    ensures listed { OnOk result (HasAll places.new.places tables.new.items indexes.new.items) }
    ensures longer { IsLonger places.old.places places.new.places }
    ensures next { places.new.next ≡ places.old.next }
    ensures tables { AreSameBelow commit tables.old.items tables.new.items }
    ensures indexes { AreSameIndexes commit indexes.old.items indexes.new.items }
{
    if write_changes(alloc, tables, indexes, changes, commit).is_err() {
        take_back(tables, indexes, commit);
        return Err(NoMemory);
    }
    if places.list(tables.as_slice(), indexes.as_slice()).is_err() {
        take_back(tables, indexes, commit);
        return Err(NoMemory);
    }
    Ok(())
}

/// Takes what was written at a commit back.
fn take_back(tables: &mut Vec<Table>, indexes: &mut Vec<Index>, commit: u64)
    requires open { AreOpen commit tables.old.items }
    requires newest { AreIndexesBelow (commit + 1) indexes.old.items }
    ensures back { AreBack commit tables.new.items indexes.new.items }
    ensures tables { AreSameBelow commit tables.old.items tables.new.items }
    ensures indexes { AreSameIndexes commit indexes.old.items indexes.new.items }
{
    abandon_tables(tables, commit);
    abandon_indexes(indexes, commit);
}

/// Adds an index at the end, and lists its nodes.
pub fn add_index(
    tables: &[Table],
    indexes: &mut Vec<Index>,
    places: &mut Places,
    index: Index,
) -> Result<(), NoMemory>
    requires few { length tables.now ≤ 4294967296 }
    requires few_indexes { length indexes.old.items < 4294967296 }
    ensures ok { OnOk result (indexes.new.items ≡ indexes.old.items ++ index ∷ []) }
    ensures listed { OnOk result (HasAll places.new.places tables.now indexes.new.items) }
    ensures longer { IsLonger places.old.places places.new.places }
    ensures next { places.new.next ≡ places.old.next }
    ensures err { OnErr result (indexes.new.items ≡ indexes.old.items) }
{
    let count = indexes.len();
    indexes.push(index)?;
    if places.list(tables, indexes.as_slice()).is_err() {
        indexes.truncate(count);
        return Err(NoMemory);
    }
    Ok(())
}

/// Purges a page or a node, where there is one.
pub fn purge_place(
    tables: &mut Vec<Table>,
    indexes: &mut Vec<Index>,
    place: Option<Place>,
    horizon: u64,
)
    ensures tables { AreSameFrom horizon tables.old.items tables.new.items }
    ensures indexes { AreIndexesFrom horizon indexes.old.items indexes.new.items }
    ensures purged { IfSome place (IsPurged horizon tables.new.items indexes.new.items) }
{
    match place {
        Some(Place::Page { table, n }) => purge_page(tables, table, n, horizon),
        Some(Place::Node { index, id }) => purge_node(indexes, index, id, horizon),
        None => {}
    }
}

/// Purges the pages and nodes that were written since the last sweep.
pub fn purge_written(
    tables: &mut Vec<Table>,
    indexes: &mut Vec<Index>,
    places: &mut Places,
    horizon: u64,
)
    ensures tables { AreSameFrom horizon tables.old.items tables.new.items }
    ensures indexes { AreIndexesFrom horizon indexes.old.items indexes.new.items }
    ensures places { places.new ≡ places.old }
{
    let written = places.take_written();
    'written: for place in written {
        purge_place(tables, indexes, Some(place), horizon);
    }
}
