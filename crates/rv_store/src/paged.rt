ghost use Rattle.std.specs.Prelude.{◌≡◌, ◌-◌, ◌^◌, ◌<◌, ◌≤◌, [], length, slice_get, IfOk, IfSome, OnErr, OnOk};
ghost use Rattle.rv_index.specs.Index.{empty_tree};
ghost use Rattle.rv_reader.specs.Storing.{AreColumns, CanCommit, Committed, Created, Indexed, IsSame, Swept};
ghost use Rattle.rv_store.specs.Indexes.{tree_in};
ghost use Rattle.rv_store.specs.Indexing.{tree_over};
ghost use Rattle.rv_store.specs.Paged.{AreTreesThrough, shown_of};
ghost use Rattle.rv_store.specs.Tables.{rows_in};
ghost use Rattle.rv_store.specs.Places.{next_place, HasAll, IsLonger, IsPurged};

use crate::indexes::{Index, new_index};
use crate::places::Places;
use crate::tables::Table;
use crate::whole::{add_index, commit_changes, purge_place, purge_written};
use rv_index::split;
use rv_judge::{Steps, Uncounted};
use rv_reader::{Change, Chunk, Estimate, Reader, Sizes, Store};
use rv_records::Records;
use rv_value::{Duplicate, IndexEntry, NoMemory, Range, Record, RowNo};
use std::alloc::Global;
use std::marker::Model;

/// A store of record pages and index trees. Each page and each node keeps its older versions, so that a commit copies
/// what it changes and no more, and each snapshot reads its own.
///
/// Each sweep takes older versions of one page or node away, in turn, by a list that grows only at its end, and before it
/// those of the pages and nodes that commits have written since the last sweep: so a place that is written often keeps few.
#[derive(Drop)]
pub struct Paged {
    alloc: Global,
    horizon: u64,
    newest: u64,
    tables: Vec<Table>,
    indexes: Vec<Index>,
    places: Places,
}

impl Model for Paged {
    ghost use Rattle.rv_store.specs.Paged.{Kept, IsKept};

    ghost Value = { Kept };

    ghost view = { λ p. record { horizon = p.horizon; newest = p.newest; tables = p.tables.items; indexes = p.indexes.items; turns = p.places } };

    ghost invariant = { λ p. IsKept (record { horizon = p.horizon; newest = p.newest; tables = p.tables.items; indexes = p.indexes.items; turns = p.places }) };
}

impl Paged {
    /// The store without tables and indexes, at commit 0.
    pub fn new(alloc: Global) -> Result<Paged, NoMemory>
        ensures { IfOk result (λ store. store ≡ record { horizon = 0; newest = 0; tables = []; indexes = []; turns = record { places = []; next = 0 } }) }
    {
        Ok(Paged {
            alloc,
            horizon: 0,
            newest: 0,
            tables: Vec::new(alloc),
            indexes: Vec::new(alloc),
            places: Places::new(alloc),
        })
    }
}

impl Reader for Paged {
    type Ledger = Uncounted;

    ghost shown = { shown_of };

    fn page(
        &self,
        _alloc: Global,
        table: u32,
        snap: u64,
        n: u32,
        steps: &mut Steps<Uncounted>,
    ) -> Result<Vec<Record>, NoMemory> {
        steps.page();
        self.tables[table as usize].records.page(n, snap)
    }

    fn fetch(
        &self,
        alloc: Global,
        table: u32,
        snap: u64,
        row: RowNo,
        steps: &mut Steps<Uncounted>,
    ) -> Result<Option<Record>, NoMemory> {
        steps.fetch();
        match self.tables[table as usize].records.row(row, snap) {
            Some(found) => Ok(Some(found.copy(alloc)?)),
            None => Ok(None),
        }
    }

    fn chunk(
        &self,
        _alloc: Global,
        index: u32,
        snap: u64,
        from: Option<&IndexEntry>,
        range: &Range,
        steps: &mut Steps<Uncounted>,
    ) -> Result<Chunk, NoMemory> {
        steps.leaf();
        self.indexes[index as usize].tree.chunk(snap, from, range)
    }

    fn estimate(&self, index: u32, snap: u64, range: &Range) -> Estimate {
        split(&self.indexes[index as usize].tree, snap, range)
    }

    fn sizes(&self, table: u32, snap: u64) -> Sizes {
        self.tables[table as usize].records.sizes(snap)
    }
}

impl Store for Paged {
    fn last(&self) -> u64 {
        self.newest
    }

    fn lent(
        &self,
        table: u32,
        snap: u64,
        n: u32,
        steps: &mut Steps<Uncounted>,
    ) -> Option<&[Record]> {
        steps.page();
        Some(self.tables[table as usize].records.rows(n, snap))
    }

    fn create_table(&mut self, table: u32, columns: u32) -> Result<(), NoMemory>
        requires { table ≡ (shown_of self.old).tables }
        ensures ok { OnOk result (Created (shown_of self.old) (shown_of self.new) columns) }
        ensures err { OnErr result (IsSame (shown_of self.old) (shown_of self.new)) }
        ensures turns { self.new.turns ≡ self.old.turns }
    {
        self.tables.push(Table {
            width: columns,
            records: Records::new(self.alloc),
        })?;
        Ok(())
    }

    #[tactic(auto, using(crate::proofs::Placing::longer_none))]
    fn create_index(&mut self, index: u32, table: u32, columns: &[u32]) -> Result<(), NoMemory>
        requires next { index ≡ (shown_of self.old).indexes }
        requires there { table < (shown_of self.old).tables }
        requires columns { AreColumns ((shown_of self.old).columns table) columns.now }
        requires alone { (shown_of self.old).horizon ≡ (shown_of self.old).newest }
        ensures ok { OnOk result (Indexed (shown_of self.old) (shown_of self.new) table columns.now) }
        ensures err { OnErr result (IsSame (shown_of self.old) (shown_of self.new)) }
        ensures tree { OnOk result (tree_in self.new.indexes index self.old.newest ≡ tree_over columns.now (rows_in self.old.tables table self.old.newest) empty_tree) }
        ensures listed { OnOk result (HasAll self.new.turns.places self.new.tables self.new.indexes) }
        ensures longer { IsLonger self.old.turns.places self.new.turns.places }
        ensures next { self.new.turns.next ≡ self.old.turns.next }
    {
        let records = &self.tables[table as usize].records;
        let index = new_index(self.alloc, table, records, columns, self.newest)?;
        add_index(
            self.tables.as_slice(),
            &mut self.indexes,
            &mut self.places,
            index,
        )
    }

    fn commit(&mut self, changes: &[Change]) -> Result<u64, NoMemory>
        requires changes { CanCommit (shown_of self.old) changes.now }
        requires room { (shown_of self.old).newest < 2 ^ 64 - 1 }
        ensures number { IfOk result (λ commit. commit ≡ (shown_of self.new).newest) }
        ensures ok { OnOk result (Committed (shown_of self.old) (shown_of self.new) changes.now) }
        ensures err { OnErr result (IsSame (shown_of self.old) (shown_of self.new)) }
        ensures trees { OnOk result (AreTreesThrough changes.now self.old self.new) }
        ensures listed { OnOk result (HasAll self.new.turns.places self.new.tables self.new.indexes) }
        ensures longer { IsLonger self.old.turns.places self.new.turns.places }
        ensures next { self.new.turns.next ≡ self.old.turns.next }
    {
        let commit = self.newest + 1;
        commit_changes(
            self.alloc,
            &mut self.tables,
            &mut self.indexes,
            &mut self.places,
            changes,
            commit,
        )?;
        self.newest = commit;
        Ok(commit)
    }

    fn sweep(&mut self, horizon: u64)
        requires low { (shown_of self.old).horizon ≤ horizon }
        requires high { horizon ≤ (shown_of self.old).newest }
        ensures swept { Swept (shown_of self.old) (shown_of self.new) horizon }
        ensures places { self.new.turns.places ≡ self.old.turns.places }
        ensures next { self.new.turns.next ≡ next_place self.old.turns.next (length self.old.turns.places) }
        ensures purged { IfSome (slice_get self.old.turns.places self.old.turns.next) (IsPurged horizon self.new.tables self.new.indexes) }
    {
        purge_written(
            &mut self.tables,
            &mut self.indexes,
            &mut self.places,
            horizon,
        );
        let place = self.places.turn();
        purge_place(&mut self.tables, &mut self.indexes, place, horizon);
        self.horizon = horizon;
    }
}
