ghost use Rattle.std.specs.Prelude.{◌≡◌, ◌==◌, ℕ, ◌+◌, ◌<◌, ◌≤◌, [], true, drop, filter, length, nat_le, nat_lt, not, take, IfOk, OnOk};
ghost use Rattle.std.specs.Option.{option_copied};
ghost use Rattle.rv_rows.specs.declared.changes.Change.{Change as OneChange};
ghost use Rattle.rv_rows.specs.Rows.{Ascend};
ghost use Rattle.rv_rows.specs.Changes.{Rise, rows_with_changes};
ghost use Rattle.rv_reader.specs.Tables.{row_at};
ghost use Rattle.rv_versions.specs.Chains.{AllChainsBelow};
ghost use Rattle.rv_records.specs.Pages.{page_at, rows_at, rows_of};
ghost use Rattle.rv_index.specs.Index.{entries_of, tree_of, IsOlderSame, IsSound};
ghost use Rattle.rv_store.specs.Indexes.{index_at, AreFew, AreIndexesBelow, AreSameIndexes, IsNewIndex, IsOpen, IsPassed, IsSameIndex, IsThrough};
ghost use Rattle.rv_reader.specs.Entries.{entry_at};
ghost use Rattle.rv_store.specs.Indexing.{row_with, stays, taken_out, tree_over, tree_through, IsAbsent, IsIndexed, IsPutIn, IsTakenOut, IsTreeChanged};

use crate::entries::new_entry;
use crate::tables::Table;
use rv_index::Tree;
use rv_reader::{entry_at, row_entry};
use rv_records::Records;
use rv_rows::Change;
use rv_value::{IndexEntry, Items, NoMemory, Record, cmp_entry, copy_slice};
use std::alloc::Global;
use std::cmp::Ordering;

/// An index: its table, the columns of its keys, and the tree of its entries.
#[derive(Drop)]
pub struct Index {
    pub table: u32,
    pub columns: Items<u32>,
    pub tree: Tree,
}

/// Whether both entries are there and the same.
fn is_same(before: &Option<IndexEntry>, after: &Option<IndexEntry>) -> bool
    ensures { result ≡ stays before.now after.now }
{
    match (before, after) {
        (Some(before), Some(after)) => cmp_entry(before, after) == Ordering::Equal,
        (Some(_before), None) => false,
        (None, _) => false,
    }
}

/// Takes an entry out of the tree of a commit, where there is one.
fn take_out(tree: &mut Tree, entry: Option<IndexEntry>, commit: u64) -> Result<(), NoMemory>
    requires sound { IsSound tree.old commit }
    requires newest { AllChainsBelow (commit + 1) tree.old }
    ensures ok { OnOk result (IsTakenOut commit entry tree.old tree.new) }
    ensures len { length tree.new ≡ length tree.old }
    ensures older { IsOlderSame commit tree.old tree.new }
    ensures newest { AllChainsBelow (commit + 1) tree.new }
{
    match entry {
        Some(entry) => {
            let done = tree.delete(&entry, commit);
            drop(entry);
            done
        }
        None => Ok(()),
    }
}

/// Puts an entry into the tree of a commit, where there is one.
fn put_in(tree: &mut Tree, entry: Option<IndexEntry>, commit: u64) -> Result<(), NoMemory>
    requires sound { IsSound tree.old commit }
    requires newest { AllChainsBelow (commit + 1) tree.old }
    requires absent { IsAbsent entry (entries_of tree.old commit) }
    ensures ok { OnOk result (IsPutIn commit entry tree.old tree.new) }
    ensures grows { length tree.old ≤ length tree.new }
    ensures older { IsOlderSame commit tree.old tree.new }
    ensures newest { AllChainsBelow (commit + 1) tree.new }
{
    match entry {
        Some(entry) => tree.insert(entry, commit),
        None => Ok(()),
    }
}

/// The old entry of a row is taken out of the tree of a commit, and then the new one put in; an entry that stays the
/// same is not touched.
fn change_tree(
    tree: &mut Tree,
    before: Option<IndexEntry>,
    after: Option<IndexEntry>,
    commit: u64,
) -> Result<(), NoMemory>
    requires sound { IsSound tree.old commit }
    requires newest { AllChainsBelow (commit + 1) tree.old }
    requires absent { IsAbsent after (taken_out before (entries_of tree.old commit)) }
    ensures ok { OnOk result (IsTreeChanged commit before after tree.old tree.new) }
    ensures grows { length tree.old ≤ length tree.new }
    ensures older { IsOlderSame commit tree.old tree.new }
    ensures newest { AllChainsBelow (commit + 1) tree.new }
{
    if is_same(&before, &after) {
        drop(before);
        drop(after);
        return Ok(());
    }
    match take_out(tree, before, commit) {
        Ok(()) => {}
        Err(fault) => {
            drop(after);
            return Err(fault);
        }
    }
    put_in(tree, after, commit)
}

/// The entry of a changed row in an index of its table.
fn change_index(
    alloc: Global,
    index: &mut Index,
    old: Option<&Record>,
    change: &Change,
    commit: u64,
) -> Result<(), NoMemory>
    requires some { 1 ≤ length index.old.columns }
    requires few { length index.old.columns ≤ 4 }
    requires sound { IsSound index.old.tree commit }
    requires newest { AllChainsBelow (commit + 1) index.old.tree }
    requires absent { IsAbsent (entry_at index.old.columns (row_with change.now.row.0 change.now.values)) (taken_out (entry_at index.old.columns (option_copied old)) (entries_of index.old.tree commit)) }
    ensures ok { OnOk result (IsTreeChanged commit (entry_at index.old.columns (option_copied old.entry)) (entry_at index.old.columns (row_with change.now.row.0 change.now.values)) index.old.tree index.new.tree) }
    ensures table { index.new.table ≡ index.old.table }
    ensures columns { index.new.columns ≡ index.old.columns }
    ensures grows { length index.old.tree ≤ length index.new.tree }
    ensures older { IsOlderSame commit index.old.tree index.new.tree }
    ensures newest { AllChainsBelow (commit + 1) index.new.tree }
{
    let before = entry_at(alloc, old, index.columns.as_slice())?;
    let after = match new_entry(alloc, change, index.columns.as_slice()) {
        Ok(after) => after,
        Err(fault) => {
            drop(before);
            return Err(fault);
        }
    };
    change_tree(&mut index.tree, before, after, commit)
}

/// The entry of a changed row in an index, where the change is of the index's table, which has the rows before it.
fn pass_change(
    alloc: Global,
    index: &mut Index,
    records: &Records,
    change: &Change,
    commit: u64,
) -> Result<(), NoMemory>
    requires some { 1 ≤ length index.old.columns }
    requires few { length index.old.columns ≤ 4 }
    requires kept { records.now.horizon ≤ commit }
    requires sound { IsSound index.old.tree commit }
    requires newest { AllChainsBelow (commit + 1) index.old.tree }
    requires absent { change.now.table ≡ index.old.table → IsAbsent (entry_at index.old.columns (row_with change.now.row.0 change.now.values)) (taken_out (entry_at index.old.columns (row_at (rows_at records.now commit) change.now.row.0)) (entries_of index.old.tree commit)) }
    ensures ok { OnOk result (IsPassed commit change.now (row_at (rows_at records.now commit) change.now.row.0) index.old index.new) }
    ensures same { IsSameIndex commit index.old index.new }
    ensures newest { AllChainsBelow (commit + 1) index.new.tree }
{
    if change.table != index.table {
        return Ok(());
    }
    let old = records.row(change.row, commit);
    change_index(alloc, index, old, change, commit)
}

/// How many of the changes of a commit are of tables before one.
fn count_before(changes: &[Change], table: u32) -> usize
    requires { Rise changes.now }
    ensures bound { result ≤ length changes.now }
    ensures back { drop result changes.now ≡ filter (λ (c : OneChange). not (nat_lt c.table table)) changes.now }
{
    changes.partition_point(|change| change.table < table)
}

/// How many of the changes of a commit are of a table or of tables before it.
fn count_up_to(changes: &[Change], table: u32) -> usize
    requires { Rise changes.now }
    ensures bound { result ≤ length changes.now }
    ensures front { take result changes.now ≡ filter (λ (c : OneChange). nat_le c.table table) changes.now }
{
    changes.partition_point(|change| change.table <= table)
}

/// Whether a table comes before those of all changes of a commit, or behind them.
fn is_beyond(changes: &[Change], table: u32) -> bool
    requires { Rise changes.now }
    ensures { result ≡ true → filter (λ (c : OneChange). c.table == table) changes.now ≡ [] }
{
    let count = changes.len();
    if count == 0 {
        return true;
    }
    let last = count - 1;
    table < changes[0].table || changes[last].table < table
}

/// The changes of a table among those of a commit. They stand together, and are found by halves, where the first and the
/// last change do not tell that there are none.
fn changes_over(changes: &[Change], table: u32) -> &[Change]
    requires { Rise changes.now }
    ensures { result.now ≡ filter (λ (c : OneChange). c.table == table) changes.now }
{
    if is_beyond(changes, table) {
        return &[];
    }
    let (_, from) = changes.split_at(count_before(changes, table));
    let (own, _) = from.split_at(count_up_to(from, table));
    own
}

/// The entries of an index through changes of a commit, one after another; its table has the rows before them.
fn index_part(
    alloc: Global,
    index: &mut Index,
    records: &Records,
    changes: &[Change],
    commit: u64,
) -> Result<(), NoMemory>
    requires some { 1 ≤ length index.old.columns }
    requires few { length index.old.columns ≤ 4 }
    requires kept { records.now.horizon ≤ commit }
    requires ascend { Ascend (rows_at records.now commit) }
    requires rise { Rise changes.now }
    requires indexed { IsIndexed index.old.columns (rows_at records.now commit) commit index.old.tree }
    requires newest { AllChainsBelow (commit + 1) index.old.tree }
    ensures ok { OnOk result (IsIndexed index.old.columns (rows_with_changes index.old.table changes.now (rows_at records.now commit)) commit index.new.tree) }
    ensures tree { OnOk result (tree_of index.new.tree commit ≡ tree_through index.old.columns index.old.table changes.now (rows_at records.now commit) (tree_of index.old.tree commit)) }
    ensures few { OnOk result (length index.new.tree ≤ 4294967296) }
    ensures same { IsSameIndex commit index.old index.new }
    ensures newest { AllChainsBelow (commit + 1) index.new.tree }
{
    'changes: for change in changes {
        pass_change(alloc, index, records, change, commit)?;
    }
    let _ids = index.tree.len();
    Ok(())
}

/// The entries of an index through the changes of a commit, whose table has the rows before them.
pub fn index_changes(
    alloc: Global,
    index: &mut Index,
    records: &Records,
    changes: &[Change],
    commit: u64,
) -> Result<(), NoMemory>
    requires some { 1 ≤ length index.old.columns }
    requires few { length index.old.columns ≤ 4 }
    requires kept { records.now.horizon ≤ commit }
    requires ascend { Ascend (rows_at records.now commit) }
    requires rise { Rise changes.now }
    requires indexed { IsIndexed index.old.columns (rows_at records.now commit) commit index.old.tree }
    requires newest { AllChainsBelow (commit + 1) index.old.tree }
    ensures ok { OnOk result (IsIndexed index.old.columns (rows_with_changes index.old.table changes.now (rows_at records.now commit)) commit index.new.tree) }
    ensures tree { OnOk result (tree_of index.new.tree commit ≡ tree_through index.old.columns index.old.table changes.now (rows_at records.now commit) (tree_of index.old.tree commit)) }
    ensures few { OnOk result (length index.new.tree ≤ 4294967296) }
    ensures same { IsSameIndex commit index.old index.new }
    ensures newest { AllChainsBelow (commit + 1) index.new.tree }
{
    let own = changes_over(changes, index.table);
    index_part(alloc, index, records, own, commit)
}

/// The entries of all indexes through the changes of a commit; the tables have the rows before them.
pub fn change_indexes(
    alloc: Global,
    indexes: &mut Vec<Index>,
    tables: &[Table],
    changes: &[Change],
    commit: u64,
) -> Result<(), NoMemory>
    requires open { (index : ℕ) → index < length indexes.old.items → IsOpen commit tables.now (index_at indexes.old.items index) }
    requires rise { Rise changes.now }
    ensures ok { OnOk result ((index : ℕ) → index < length indexes.old.items → IsThrough commit changes.now tables.now (index_at indexes.old.items index) (index_at indexes.new.items index)) }
    ensures same { AreSameIndexes commit indexes.old.items indexes.new.items }
    ensures newest { AreIndexesBelow (commit + 1) indexes.new.items }
{
    'indexes: for at in 0..indexes.len() {
        let index = &mut indexes[at];
        let records = &tables[index.table as usize].records;
        index_changes(alloc, index, records, changes, commit)?;
    }
    Ok(())
}

/// Takes the nodes of a commit away from an index.
fn abandon_index(index: &mut Index, commit: u64)
    requires { AllChainsBelow (commit + 1) index.old.tree }
    ensures same { IsSameIndex commit index.old index.new }
    ensures below { AllChainsBelow commit index.new.tree }
    ensures few { length index.new.tree ≤ 4294967296 }
{
    index.tree.abandon(commit);
    let _ids = index.tree.len();
}

/// Takes the nodes of a commit away from all indexes.
pub fn abandon_indexes(indexes: &mut Vec<Index>, commit: u64)
    requires { AreIndexesBelow (commit + 1) indexes.old.items }
    ensures same { AreSameIndexes commit indexes.old.items indexes.new.items }
    ensures below { AreIndexesBelow commit indexes.new.items }
    ensures few { AreFew indexes.new.items }
{
    'indexes: for at in 0..indexes.len() {
        abandon_index(&mut indexes[at], commit);
    }
}

/// Puts the entries of a page's rows into the tree of a snapshot, which has those of the pages before it.
fn index_page(
    alloc: Global,
    tree: &mut Tree,
    records: &Records,
    n: u32,
    columns: &[u32],
    snap: u64,
) -> Result<(), NoMemory>
    requires some { 1 ≤ length columns.now }
    requires few { length columns.now ≤ 4 }
    requires kept { records.now.horizon ≤ snap }
    requires there { n < length records.now.pages }
    requires ascend { Ascend (rows_at records.now snap) }
    requires indexed { IsIndexed columns.now (rows_of (page_at records.now snap) n) snap tree.old }
    requires newest { AllChainsBelow (snap + 1) tree.old }
    ensures ok { OnOk result (IsIndexed columns.now (rows_of (page_at records.now snap) (n + 1)) snap tree.new) }
    ensures tree { OnOk result (tree_of tree.new snap ≡ tree_over columns.now (page_at records.now snap n) (tree_of tree.old snap)) }
    ensures newest { AllChainsBelow (snap + 1) tree.new }
{
    'rows: for row in records.rows(n, snap) {
        let entry = row_entry(alloc, row.row, row.values.as_slice(), columns)?;
        tree.insert(entry, snap)?;
    }
    Ok(())
}

/// The index of the present rows of a table.
pub fn new_index(
    alloc: Global,
    table: u32,
    records: &Records,
    columns: &[u32],
    snap: u64,
) -> Result<Index, NoMemory>
    requires some { 1 ≤ length columns.now }
    requires few { length columns.now ≤ 4 }
    requires kept { records.now.horizon ≤ snap }
    requires ascend { Ascend (rows_at records.now snap) }
    ensures { IfOk result (IsNewIndex table columns.now (rows_at records.now snap) snap) }
{
    let own = Items::from_vec(copy_slice(alloc, columns)?);
    let mut tree = Tree::new(alloc)?;
    'pages: for n in 0..records.len() {
        match index_page(alloc, &mut tree, records, n as u32, columns, snap) {
            Ok(()) => {}
            Err(fault) => {
                drop(own);
                drop(tree);
                return Err(fault);
            }
        }
    }
    let _ids = tree.len();
    Ok(Index {
        table,
        columns: own,
        tree,
    })
}
