ghost use Rattle.std.specs.Prelude.{◌≡◌, ◌+◌, ◌-◌, ◌^◌, ◌<◌, ◌≤◌, ℕ, List, Some, true, false, length, IfOk, IfSome, OnErr};
ghost use Rattle.std.specs.Option.{option_copied};
ghost use Rattle.rv_value.specs.declared.record.Record.{Record as OneRecord};
ghost use Rattle.rv_rows.specs.Rows.{Ascend};
ghost use Rattle.rv_judge.specs.Counting.{page_read, record_read};
ghost use Rattle.rv_restrict.specs.Truth.{names_only, row_has};
ghost use Rattle.rv_reader.specs.Shown.{CanRead};
ghost use Rattle.rv_reader.specs.Tables.{row_at};
ghost use Rattle.rv_scan.specs.Alongs.{looked};
ghost use Rattle.rv_scan.specs.Due.{HaveColumns, was_delivered};
ghost use Rattle.rv_scan.specs.Places.{Fits as PlaceFits, PageReads, PageTurns, work};
ghost use Rattle.rv_jscan.specs.Joint.{keys_of};
ghost use Rattle.rv_final.specs.Rest.{StepMarks};
ghost use Rattle.rv_final.specs.Stage.{FetchesKey, IsFirstKey, KeyAt, PassesKeys, Unbegun, first_key, given_as, keys_left, list_left, own_pages, own_rows, table_left};
ghost use Rattle.rv_final.specs.Work.{Falls, Tries};
ghost use Rattle.rv_scan.specs.Reads.{OneAtMost};

use rv_judge::Steps;
use rv_keylist::{Delivered, KeyList};
use rv_reader::{Reader, Step};
use rv_restrict::{Restriction, Tri};
use rv_scan::{Skip, Tscan, look};
use rv_value::{NoMemory, Record, RowNo};
use std::alloc::Global;
use std::marker::Model;

/// Where the final stage stands: in a complete list, whose records are fetched, and in a scan of the table. One of the two
/// is used. The list is the caller's, and so is the buffer of delivered rows.
#[derive(Drop)]
pub struct Final {
    alloc: Global,
    at: u64,
    last: Tscan,
}

impl Model for Final {
    ghost use Rattle.rv_final.specs.Stage.{Staged};

    ghost Value = { Staged };

    ghost view = { λ f. record { at = f.at; last = f.last } };
}

/// A record that was found, where it qualifies.
fn kept(found: Option<Record>, only: &Restriction) -> Option<Record>
    requires { IfSome found (λ r. names_only (row_has r.values) only.now ≡ true) }
    ensures { given_as result ≡ looked only.now found }
{
    match found {
        None => None,
        Some(found) => {
            if only.truth(&found.values) == Tri::True {
                Some(found)
            } else {
                None
            }
        }
    }
}

/// The row of a number, where it qualifies. It is one record read.
pub fn examine<R: Reader>(
    alloc: Global,
    reader: &R,
    table: u32,
    snap: u64,
    only: &Restriction,
    row: RowNo,
    steps: &mut Steps<R::Ledger>,
) -> Result<Option<Record>, NoMemory>
    requires can { CanRead (R.shown reader.now) table snap }
    requires columns { HaveColumns only.now ((R.shown reader.now).rows table snap) }
    ensures found { IfOk result (λ found. given_as found ≡ looked only.now (row_at ((R.shown reader.now).rows table snap) row.0)) }
    ensures reads { steps.new ≡ record_read steps.old }
{
    let found = reader.fetch(alloc, table, snap, row, steps)?;
    Ok(kept(found, only))
}

fn key_of(list: &KeyList, at: u64) -> Option<RowNo>
    ensures { KeyAt (Some list.now.keys) at result }
{
    if at < list.len() {
        Some(list.get(at))
    } else {
        None
    }
}

fn was_delivered(delivered: Option<&Delivered>, row: RowNo) -> bool
    ensures { result ≡ was_delivered (option_copied delivered.entry) row.0 }
{
    match delivered {
        Some(delivered) => delivered.has(row),
        None => false,
    }
}

impl Final {
    /// The final stage of a table at a snapshot, before its first step. It takes no memory.
    pub fn new(alloc: Global, table: u32, snap: u64) -> Final
        ensures table { result.last.table ≡ table }
        ensures snap { result.last.snap ≡ snap }
        ensures unbegun { Unbegun result.at result.last }
        ensures drawn { (rows : List OneRecord) → PlaceFits result.last rows }
        ensures work { (rows : List OneRecord) (pages : ℕ) → work result.last rows pages ≡ length rows + pages }
    {
        let last = Tscan::new(alloc, table, snap);
        Final { alloc, at: 0, last }
    }

    fn alloc(&self) -> Global {
        self.alloc
    }

    fn key_at(&self, list: Option<&KeyList>) -> Option<RowNo>
        ensures { KeyAt (keys_of (option_copied list.entry)) self.now.at result }
    {
        match list {
            Some(list) => key_of(list, self.at),
            None => None,
        }
    }

    fn pass_key(&mut self)
        requires { self.old.at < 2 ^ 64 - 1 }
        ensures { self.new ≡ record self.old { at = self.old.at + 1 } }
    {
        self.at += 1;
    }

    /// The next key of the list whose row was not delivered. Those before it are passed over; there are at most as many
    /// as the buffer has places.
    fn next_left(&mut self, list: Option<&KeyList>, delivered: Option<&Delivered>) -> Option<RowNo>
        ensures same { self.new ≡ record self.old { at = self.new.at } }
        ensures passed { PassesKeys (keys_of (option_copied list.entry)) (option_copied delivered.entry) self.old.at self.new.at }
        ensures key { KeyAt (keys_of (option_copied list.entry)) self.new.at result }
        ensures first { IsFirstKey (keys_of (option_copied list.entry)) (option_copied delivered.entry) self.old.at result }
        ensures fresh { IfSome result (λ row. was_delivered (option_copied delivered.entry) row.0 ≡ false) }
        ensures fewer { length (keys_left (keys_of (option_copied list.entry)) self.new.at) ≤ length (keys_left (keys_of (option_copied list.entry)) self.old.at) }
    {
        match self.key_at(list) {
            None => None,
            Some(row) => {
                let given_before = was_delivered(delivered, row);
                if given_before {
                    self.pass_key();
                    self.next_left(list, delivered)
                } else {
                    Some(row)
                }
            }
        }
    }

    /// Fetches the next row of the list that was not delivered, and gives it where it qualifies; End where none is left.
    /// `NoMemory` leaves the key that it could not fetch.
    pub fn list_step<R: Reader>(
        &mut self,
        reader: &R,
        table: u32,
        snap: u64,
        only: &Restriction,
        list: Option<&KeyList>,
        delivered: Option<&Delivered>,
        steps: &mut Steps<R::Ledger>,
    ) -> Result<Step<Record>, NoMemory>
        requires can { CanRead (R.shown reader.now) table snap }
        requires ascend { Ascend ((R.shown reader.now).rows table snap) }
        requires columns { HaveColumns only.now ((R.shown reader.now).rows table snap) }
        ensures same { self.new ≡ record self.old { at = self.new.at } }
        ensures marks { (need : List ℕ) → IfOk result (λ s. StepMarks need only.now ((R.shown reader.now).rows table snap) s (list_left (keys_of (option_copied list.entry)) (option_copied delivered.entry) self.old.at) (list_left (keys_of (option_copied list.entry)) (option_copied delivered.entry) self.new.at)) }
        ensures fetches { IfOk result (FetchesKey (first_key (keys_of (option_copied list.entry)) (option_copied delivered.entry) self.old.at) only.now ((R.shown reader.now).rows table snap) steps.old steps.new) }
        ensures passed { OnErr result (PassesKeys (keys_of (option_copied list.entry)) (option_copied delivered.entry) self.old.at self.new.at) }
        ensures tries { Tries steps.old steps.new (length (keys_left (keys_of (option_copied list.entry)) self.old.at)) (length (keys_left (keys_of (option_copied list.entry)) self.new.at)) }
        ensures falls { IfOk result (λ s. Falls s steps.old steps.new (length (keys_left (keys_of (option_copied list.entry)) self.old.at)) (length (keys_left (keys_of (option_copied list.entry)) self.new.at))) }
        ensures records { IfOk result (λ s. steps.new.records + length (keys_left (keys_of (option_copied list.entry)) self.new.at) ≤ steps.old.records + length (keys_left (keys_of (option_copied list.entry)) self.old.at)) }
        ensures may_read { OneAtMost record_read steps.old steps.new }
        ensures pages { steps.new.pages ≡ steps.old.pages }
    {
        match self.next_left(list, delivered) {
            None => Ok(Step::End),
            Some(row) => match reader.fetch(self.alloc(), table, snap, row, steps) {
                Ok(found) => {
                    self.pass_key();
                    Ok(look(found, only))
                }
                Err(NoMemory) => Err(NoMemory),
            },
        }
    }

    /// Gives the next row of the table that qualifies and was not delivered, or reads the next page; End where none is
    /// left.
    pub fn table_step<R: Reader>(
        &mut self,
        reader: &R,
        only: &Restriction,
        delivered: Option<&Delivered>,
        steps: &mut Steps<R::Ledger>,
    ) -> Result<Step<Record>, NoMemory>
        requires can { CanRead (R.shown reader.now) self.old.last.table self.old.last.snap }
        requires ascend { Ascend (own_rows self.old.last (R.shown reader.now)) }
        requires columns { HaveColumns only.now (own_rows self.old.last (R.shown reader.now)) }
        requires drawn { PlaceFits self.old.last (own_rows self.old.last (R.shown reader.now)) }
        ensures same { self.new ≡ record self.old { last = self.new.last } }
        ensures table { self.new.last.table ≡ self.old.last.table }
        ensures snap { self.new.last.snap ≡ self.old.last.snap }
        ensures drawn { PlaceFits self.new.last (own_rows self.old.last (R.shown reader.now)) }
        ensures marks { (need : List ℕ) → IfOk result (λ s. StepMarks need only.now (own_rows self.old.last (R.shown reader.now)) s (table_left self.old.last (own_rows self.old.last (R.shown reader.now)) (option_copied delivered.entry)) (table_left self.new.last (own_rows self.old.last (R.shown reader.now)) (option_copied delivered.entry))) }
        ensures err { OnErr result (self.new ≡ self.old) }
        ensures reads { IfOk result (λ s. PageReads s steps.old steps.new) }
        ensures turns { IfOk result (λ s. PageTurns s self.old.last self.new.last (own_pages self.old.last (R.shown reader.now))) }
        ensures may_read { OneAtMost page_read steps.old steps.new }
        ensures tries { let rows = own_rows self.old.last (R.shown reader.now) in let pages = own_pages self.old.last (R.shown reader.now) in Tries steps.old steps.new (work self.old.last rows pages) (work self.new.last rows pages) }
        ensures falls { let rows = own_rows self.old.last (R.shown reader.now) in let pages = own_pages self.old.last (R.shown reader.now) in IfOk result (λ s. Falls s steps.old steps.new (work self.old.last rows pages) (work self.new.last rows pages)) }
    {
        let skip = Skip {
            delivered,
            list: None,
        };
        self.last.step(reader, only, &skip, steps)
    }
}
