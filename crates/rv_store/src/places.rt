ghost use Rattle.std.specs.Prelude.{◌≡◌, ◌<◌, ◌≤◌, ℕ, [], length, slice_get, OnErr, OnOk};
ghost use Rattle.std.specs.List.{slice_index_or};
ghost use Rattle.rv_store.specs.Places.{next_place, node_places, page_places, AreIndexesFrom, AreListed, AreSameFrom, HasAll, HasRange, IsLonger, IsNodePurged, IsPagePurged};
ghost use Rattle.rv_store.specs.Indexes.{index_at};
ghost use Rattle.rv_store.specs.Tables.{table_at};

use crate::indexes::Index;
use crate::tables::Table;
use rv_value::NoMemory;
use std::alloc::Global;
use std::marker::Model;
use std::mem;

/// A record page of a table, or a node of an index's tree, which a sweep purges.
#[derive(Clone, Copy, PartialEq, Eq)]
pub enum Place {
    Page { table: u32, n: u32 },
    Node { index: u32, id: u32 },
}

/// The record pages and nodes in the order in which they came, and the one that the next sweep purges. The counts are
/// of the pages of each table and of the nodes of each index that stand in the list; only those are counted anew of which
/// some came.
///
/// Beside them stand the pages and nodes that commits have written since the last sweep, which purges them first, out of
/// turn. Contracts do not see them: the turn comes to each place without them.
#[derive(Drop)]
pub struct Places {
    alloc: Global,
    places: Vec<Place>,
    next: usize,
    pages: Vec<usize>,
    nodes: Vec<usize>,
    written: Vec<Place>,
}

impl Model for Places {
    ghost use Rattle.rv_store.specs.Places.{AreInTurn, Turns};

    ghost Value = { Turns };

    ghost view = { λ p. record { places = p.places.items; next = p.next } };

    ghost invariant = { λ p. AreInTurn p.places.items p.next p.pages.items p.nodes.items };
}

fn place_at(places: &[Place], at: usize) -> Option<Place>
    ensures { result ≡ slice_get places.now at }
{
    match places.get(at) {
        Some(place) => Some(*place),
        None => None,
    }
}

/// Whether a place is the last of others.
fn is_last(places: &[Place], place: Place) -> bool {
    match places.last() {
        Some(last) => *last == place,
        None => false,
    }
}

/// Puts a place behind others, where it is not the last of them and there is memory for it.
fn note_place(places: &mut Vec<Place>, place: Place) {
    if !is_last(places.as_slice(), place) {
        let _ = places.push(place);
    }
}

impl Places {
    /// No page and no node. It takes no memory.
    pub fn new(alloc: Global) -> Places
        ensures { result ≡ record { places = []; next = 0 } }
    {
        Places {
            alloc,
            places: Vec::new(alloc),
            next: 0,
            pages: Vec::new(alloc),
            nodes: Vec::new(alloc),
            written: Vec::new(alloc),
        }
    }

    /// Notes a page or node that was written, where it is not the last one noted. Where there is no memory for the note,
    /// there is none.
    pub fn note(&mut self, place: Place)
        ensures { self.new ≡ self.old }
    {
        note_place(&mut self.written, place);
    }

    /// The pages and nodes that were written since the last call. It takes no memory.
    pub fn take_written(&mut self) -> Vec<Place>
        ensures { self.new ≡ self.old }
    {
        mem::replace(&mut self.written, Vec::new(self.alloc))
    }

    /// The page or node whose turn it is, and the turn moves on by one, from the last to the first.
    pub fn turn(&mut self) -> Option<Place>
        ensures place { result ≡ slice_get self.old.places self.old.next }
        ensures places { self.new.places ≡ self.old.places }
        ensures next { self.new.next ≡ next_place self.old.next (length self.old.places) }
    {
        let place = place_at(self.places.as_slice(), self.next);
        self.next = if self.next + 1 < self.places.len() {
            self.next + 1
        } else {
            0
        };
        place
    }

    /// Adds the pages and nodes that have come at the end, so that the list has all.
    pub fn list(&mut self, tables: &[Table], indexes: &[Index]) -> Result<(), NoMemory>
        requires tables { length tables.now ≤ 4294967296 }
        requires indexes { length indexes.now ≤ 4294967296 }
        ensures longer { IsLonger self.old.places self.new.places }
        ensures next { self.new.next ≡ self.old.next }
        ensures ok { OnOk result (HasAll self.new.places tables.now indexes.now) }
        ensures err { OnErr result (self.new ≡ self.old) }
    {
        let mut more = Vec::new(self.alloc);
        list_pages(&mut more, self.pages.as_slice(), tables)?;
        list_nodes(&mut more, self.nodes.as_slice(), indexes)?;
        fill(&mut self.pages, tables.len())?;
        fill(&mut self.nodes, indexes.len())?;
        let listed = self.places.len();
        self.places.append(&mut more)?;
        let came = &self.places.as_slice()[listed..];
        count_places(&mut self.pages, &mut self.nodes, tables, indexes, came);
        Ok(())
    }
}

/// Puts zeros behind counts, so that there are so many of them.
fn fill(counts: &mut Vec<usize>, count: usize) -> Result<(), NoMemory>
    ensures { (at : ℕ) → slice_index_or counts.new.items at 0 ≡ slice_index_or counts.old.items at 0 }
{
    'counts: for _at in counts.len()..count {
        counts.push(0)?;
    }
    Ok(())
}

/// Counts the pages of a table anew, which are all listed.
#[tactic(auto, using(crate::proofs::Placing::listed_none))]
fn count_pages(pages: &mut Vec<usize>, tables: &[Table], table: u32)
    ensures { AreListed page_places (λ (t : ℕ). length (table_at tables.now t).records.pages) pages.old.items pages.new.items }
{
    let table = table as usize;
    if table >= tables.len() || table >= pages.len() {
        return;
    }
    pages[table] = tables[table].records.len();
}

/// Counts the nodes of an index anew, which are all listed.
#[tactic(auto, using(crate::proofs::Placing::listed_none))]
fn count_nodes(nodes: &mut Vec<usize>, indexes: &[Index], index: u32)
    ensures { AreListed node_places (λ (i : ℕ). length (index_at indexes.now i).tree) nodes.old.items nodes.new.items }
{
    let index = index as usize;
    if index >= indexes.len() || index >= nodes.len() {
        return;
    }
    nodes[index] = indexes[index].tree.len();
}

/// Counts the pages of the table, or the nodes of the index, of which a place came.
#[tactic(auto, using(crate::proofs::Placing::listed_none))]
fn count_place(
    pages: &mut Vec<usize>,
    nodes: &mut Vec<usize>,
    tables: &[Table],
    indexes: &[Index],
    place: Place,
)
    ensures pages { AreListed page_places (λ (t : ℕ). length (table_at tables.now t).records.pages) pages.old.items pages.new.items }
    ensures nodes { AreListed node_places (λ (i : ℕ). length (index_at indexes.now i).tree) nodes.old.items nodes.new.items }
{
    match place {
        Place::Page { table, n: _ } => count_pages(pages, tables, table),
        Place::Node { index, id: _ } => count_nodes(nodes, indexes, index),
    }
}

/// Counts the pages of the tables, and the nodes of the indexes, of which places came.
fn count_places(
    pages: &mut Vec<usize>,
    nodes: &mut Vec<usize>,
    tables: &[Table],
    indexes: &[Index],
    came: &[Place],
)
    ensures pages { AreListed page_places (λ (t : ℕ). length (table_at tables.now t).records.pages) pages.old.items pages.new.items }
    ensures nodes { AreListed node_places (λ (i : ℕ). length (index_at indexes.now i).tree) nodes.old.items nodes.new.items }
{
    'came: for place in came {
        count_place(pages, nodes, tables, indexes, *place);
    }
}

/// The count in a place, 0 where it came later.
fn count_at(counts: &[usize], at: usize) -> usize
    ensures { result ≡ slice_index_or counts.now at 0 }
{
    match counts.get(at) {
        Some(count) => *count,
        None => 0,
    }
}

fn list_pages(more: &mut Vec<Place>, listed: &[usize], tables: &[Table]) -> Result<(), NoMemory>
    requires { length tables.now ≤ 4294967296 }
    ensures longer { IsLonger more.old.items more.new.items }
    ensures ok { OnOk result ((table : ℕ) → HasRange (page_places table) more.new.items (slice_index_or listed.now table 0) (length (table_at tables.now table).records.pages)) }
{
    'tables: for at in 0..tables.len() {
        let count = tables[at].records.len();
        add_pages(more, at as u32, count_at(listed, at), count)?;
    }
    Ok(())
}

fn add_pages(more: &mut Vec<Place>, table: u32, from: usize, to: usize) -> Result<(), NoMemory>
    requires { to ≤ 4294967296 }
    ensures longer { IsLonger more.old.items more.new.items }
    ensures ok { OnOk result (HasRange (page_places table) more.new.items from to) }
{
    'pages: for n in from..to {
        more.push(Place::Page { table, n: n as u32 })?;
    }
    Ok(())
}

fn list_nodes(more: &mut Vec<Place>, listed: &[usize], indexes: &[Index]) -> Result<(), NoMemory>
    requires { length indexes.now ≤ 4294967296 }
    ensures longer { IsLonger more.old.items more.new.items }
    ensures ok { OnOk result ((index : ℕ) → HasRange (node_places index) more.new.items (slice_index_or listed.now index 0) (length (index_at indexes.now index).tree)) }
{
    'indexes: for at in 0..indexes.len() {
        let count = indexes[at].tree.len();
        add_nodes(more, at as u32, count_at(listed, at), count)?;
    }
    Ok(())
}

fn add_nodes(more: &mut Vec<Place>, index: u32, from: usize, to: usize) -> Result<(), NoMemory>
    requires { to ≤ 4294967296 }
    ensures longer { IsLonger more.old.items more.new.items }
    ensures ok { OnOk result (HasRange (node_places index) more.new.items from to) }
{
    'nodes: for id in from..to {
        more.push(Place::Node {
            index,
            id: id as u32,
        })?;
    }
    Ok(())
}

/// Takes the versions of a page away that no snapshot from the horizon on reads, where the table is there.
#[tactic(auto, using(crate::proofs::Turning::from_itself, crate::proofs::Turning::page_none))]
pub fn purge_page(tables: &mut Vec<Table>, table: u32, n: u32, horizon: u64)
    ensures same { AreSameFrom horizon tables.old.items tables.new.items }
    ensures purged { IsPagePurged horizon tables.new.items table n }
{
    let table = table as usize;
    if table >= tables.len() {
        return;
    }
    tables[table].records.purge(n, horizon);
}

/// Takes the versions of a node away that no snapshot from the horizon on reads, where the index is there.
#[tactic(auto, using(crate::proofs::Turning::indexes_itself, crate::proofs::Turning::node_none))]
pub fn purge_node(indexes: &mut Vec<Index>, index: u32, id: u32, horizon: u64)
    ensures same { AreIndexesFrom horizon indexes.old.items indexes.new.items }
    ensures purged { IsNodePurged horizon indexes.new.items index id }
{
    let index = index as usize;
    if index >= indexes.len() {
        return;
    }
    indexes[index].tree.purge(id, horizon);
}
