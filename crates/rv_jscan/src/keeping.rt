ghost use Rattle.std.specs.Prelude.{◌≡◌, ℕ, ◌+◌, ◌<◌, ◌≤◌, ◌++◌, ◌∷◌, ◌&&◌, Bool, [], true, false, length, IfSome, OnOk, OnErr, if◌then◌else◌};
ghost use Rattle.std.specs.List.{slice_index_or};
ghost use Rattle.std.specs.Option.{option_copied};
ghost use Rattle.rv_value.specs.declared.record.IndexEntry.{IndexEntry as OneEntry};
ghost use Rattle.rv_keylist.specs.Keys.{has_key};
ghost use Rattle.rv_restrict.specs.Parts.{passes};
ghost use Rattle.rv_reader.specs.Storing.{AreKeys};
ghost use Rattle.rv_jscan.specs.Entries.{Apart, Disjoint};
ghost use Rattle.rv_jscan.specs.Joint.{keys_of};
ghost use Rattle.rv_jscan.specs.Pieces.{kept_by, may};

use crate::piece::Sieved;
use rv_keylist::KeyList;
use rv_restrict::Part;
use rv_value::{IndexEntry, NoMemory, RowNo};

/// A test on rows, by which a list that is being built takes them up.
pub trait Admits {
    ghost ready: { Self → Type 0 };

    ghost admits: { Self → ℕ → Bool };

    /// Whether a row is admitted.
    fn admit(&self, row: RowNo) -> bool
        requires { ready self.now }
        ensures { result ≡ admits self.now row.0 };
}

/// The rows that the last complete list may have; where there is none, all rows.
#[derive(Clone, Copy)]
pub struct Within<'a> {
    pub list: Option<&'a KeyList>,
}

impl<'a> Admits for Within<'a> {
    ghost ready = { λ within. IfSome (option_copied within.list) (λ l. l.finished ≡ true) };

    ghost admits = { λ within. may (keys_of (option_copied within.list)) };

    fn admit(&self, row: RowNo) -> bool {
        match self.list {
            Some(list) => list.may_have(row),
            None => true,
        }
    }
}

/// Adds a row, where it is marked and the test admits it.
fn add_one<T: Admits>(building: &mut KeyList, test: &T, row: RowNo, mark: bool)
    requires open { building.old.finished ≡ false }
    requires ready { T.ready test.now }
    requires room { 0 < building.old.spare }
    requires fresh { has_key row.0 building.old.keys ≡ false }
    ensures keys { building.new.keys ≡ building.old.keys ++ (if (mark && T.admits test.now row.0) then row.0 ∷ [] else []) }
    ensures spare { building.old.spare ≤ building.new.spare + 1 }
    ensures open { building.new.finished ≡ false }
{
    if mark && test.admit(row) {
        building.push(row).unwrap();
    }
}

/// Adds the rows of the marked entries that the test admits. Room is made for all of them first.
pub fn add_marked<T: Admits>(
    building: &mut KeyList,
    sieved: &Sieved,
    test: &T,
) -> Result<(), NoMemory>
    requires open { building.old.finished ≡ false }
    requires ready { T.ready test.now }
    requires apart { Apart sieved.now.entries }
    requires fresh { Disjoint building.old.keys sieved.now.entries }
    ensures ok { OnOk result (building.new.keys ≡ building.old.keys ++ kept_by (T.admits test.now) sieved.now.part sieved.now.entries) }
    ensures err { OnErr result (building.new.keys ≡ building.old.keys) }
    ensures open { building.new.finished ≡ false }
{
    building.reserve(sieved.entries().len() as u32)?;
    let mut i: u32 = 0;
    'entries: while (i as usize) < sieved.entries().len() {
        add_one(building, test, sieved.row(i), sieved.marked(i));
        i += 1;
    }
    Ok(())
}

/// The row of the entry in a place.
fn row_at(entries: &[IndexEntry], i: u32) -> RowNo
    requires { i < length entries.now }
    ensures { (d : OneEntry) → result ≡ (slice_index_or entries.now i d).row }
{
    entries[i as usize].row
}

/// Whether a part passes the entry in a place.
fn passes_at(part: &Part, entries: &[IndexEntry], i: u32) -> bool
    requires within { i < length entries.now }
    requires keys { AreKeys (length part.now.columns) entries.now }
    ensures { (d : OneEntry) → result ≡ passes part.now (slice_index_or entries.now i d).key }
{
    part.pass(&entries[i as usize].key)
}

/// Adds the rows of the entries of a leaf that a part passes and the test admits, as `add_marked` does of a piece of it.
pub fn add_passing<T: Admits>(
    building: &mut KeyList,
    entries: &[IndexEntry],
    part: &Part,
    test: &T,
) -> Result<(), NoMemory>
    requires open { building.old.finished ≡ false }
    requires ready { T.ready test.now }
    requires short { length entries.now ≤ 64 }
    requires part { AreKeys (length part.now.columns) entries.now }
    requires apart { Apart entries.now }
    requires fresh { Disjoint building.old.keys entries.now }
    ensures ok { OnOk result (building.new.keys ≡ building.old.keys ++ kept_by (T.admits test.now) part.now entries.now) }
    ensures err { OnErr result (building.new.keys ≡ building.old.keys) }
    ensures open { building.new.finished ≡ false }
{
    building.reserve(entries.len() as u32)?;
    let mut i: u32 = 0;
    'entries: while (i as usize) < entries.len() {
        add_one(
            building,
            test,
            row_at(entries, i),
            passes_at(part, entries, i),
        );
        i += 1;
    }
    Ok(())
}
