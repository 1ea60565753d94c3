ghost use Rattle.std.specs.Prelude.{◌≡◌, ◌<◌, ◌≤◌, ◌↔◌, IsTrue, false, length};
ghost use Rattle.std.specs.List.{slice_index_or};
ghost use Rattle.rv_value.specs.declared.record.IndexEntry.{IndexEntry as OneEntry};
ghost use Rattle.rv_reader.specs.Storing.{AreKeys};
ghost use Rattle.rv_jscan.specs.Pieces.{marks_of};

use rv_restrict::Part;
use rv_value::{Duplicate, IndexEntry, Items, NoMemory, RowNo};
use std::alloc::Global;
use std::marker::Model;

/// Which piece of which retrieval it is: the cursor's number from 1, the number from 1 of the retrievals that the
/// cursor has opened, and the number of the piece from 1 over all scans of the retrieval.
#[derive(Clone, Copy, PartialEq, Eq)]
pub struct PieceId {
    pub cursor: u64,
    pub opening: u64,
    pub number: u64,
}

/// The entries of one leaf that are in a scan's range, and the part of the restriction that an index can test.
#[derive(Drop)]
pub struct Piece {
    id: PieceId,
    entries: Items<IndexEntry>,
    part: Part,
}

impl Model for Piece {
    ghost use Rattle.rv_jscan.specs.Pieces.{Pieced, IsPiece};

    ghost Value = { Pieced };

    ghost view = { λ p. record { id = p.id; entries = p.entries; part = p.part } };

    ghost invariant = { λ p. IsPiece p.entries p.part };
}

impl Piece {
    /// A piece of at most 64 entries, whose keys have one value for each column of the part. It takes no memory.
    pub fn make(id: PieceId, entries: Vec<IndexEntry>, part: Part) -> Piece
        requires few { length entries.items ≤ 64 }
        requires keys { AreKeys (length part.columns) entries.items }
        ensures { result ≡ record { id = id; entries = entries.items; part = part } }
    {
        Piece {
            id,
            entries: Items::from_vec(entries),
            part,
        }
    }

    /// Of which cursor and opening the piece is, and its number; a sieved piece is known again by it.
    pub fn id(&self) -> PieceId
        ensures { result ≡ self.now.id }
    {
        self.id
    }
}

impl Duplicate for Piece {
    fn copy(&self, alloc: Global) -> Result<Piece, NoMemory> {
        Ok(Piece {
            id: self.id,
            entries: self.entries.copy(alloc)?,
            part: self.part.copy(alloc)?,
        })
    }
}

/// A piece of which each entry was tested. Nothing but `sieve` makes one. Contracts see it as the piece; the mark of
/// each entry follows from the part and the entry's key.
#[derive(Drop)]
pub struct Sieved {
    id: PieceId,
    entries: Items<IndexEntry>,
    part: Part,
    marks: [bool; 64],
}

impl Model for Sieved {
    ghost use Rattle.rv_jscan.specs.Pieces.{Pieced, IsSieved};

    ghost Value = { Pieced };

    ghost view = { λ p. record { id = p.id; entries = p.entries; part = p.part } };

    ghost invariant = { λ p. IsSieved p.entries p.part p.marks };
}

/// Marks the entries that the part passes; all entries stay. It takes no memory and needs no retrieval.
pub fn sieve(piece: Piece) -> Sieved
    ensures { result ≡ piece }
{
    let Piece { id, entries, part } = piece;
    let mut marks = [false; 64];
    let mut i = 0;
    'entries: while i < entries.as_slice().len() {
        marks[i] = part.pass(&entries.as_slice()[i].key);
        i += 1;
    }
    Sieved {
        id,
        entries,
        part,
        marks,
    }
}

impl Sieved {
    /// The id of the piece that was sieved.
    pub fn id(&self) -> PieceId
        ensures { result ≡ self.now.id }
    {
        self.id
    }

    /// All entries of the piece.
    pub fn entries(&self) -> &[IndexEntry]
        ensures entries { result.now ≡ self.now.entries }
        ensures few { length self.now.entries ≤ 64 }
    {
        self.entries.as_slice()
    }

    /// The row of the entry in a place.
    pub(crate) fn row(&self, i: u32) -> RowNo
        requires { i < length self.now.entries }
        ensures { (d : OneEntry) → result ≡ (slice_index_or self.now.entries i d).row }
    {
        self.entries.as_slice()[i as usize].row
    }

    /// Whether the part passes the entry in a place.
    pub fn marked(&self, i: u32) -> bool
        requires { i < length self.now.entries }
        ensures { result ≡ slice_index_or (marks_of self.now.part self.now.entries) i false }
    {
        let _entries = &self.entries;
        self.marks[i as usize]
    }

    /// Whether id, entries and part are those of the piece.
    pub fn same(&self, piece: &Piece) -> bool
        ensures { IsTrue result ↔ (self.now ≡ piece.now) }
    {
        self.is(piece.id, piece.entries.as_slice(), &piece.part)
    }

    /// Whether id, entries and part are these.
    pub(crate) fn is(&self, id: PieceId, entries: &[IndexEntry], part: &Part) -> bool
        ensures { IsTrue result ↔ (self.now ≡ record { id = id; entries = entries.now; part = part.now }) }
    {
        self.id == id && same_entries(self.entries.as_slice(), entries) && self.part.is(part)
    }
}

fn same_entries(a: &[IndexEntry], b: &[IndexEntry]) -> bool
    ensures { IsTrue result ↔ (a.now ≡ b.now) }
{
    a == b
}
