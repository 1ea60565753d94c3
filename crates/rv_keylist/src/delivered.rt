//! The buffer of rows that a foreground delivered.
ghost use Rattle.std.specs.Prelude.{◌≡◌, ◌<◌, ◌≤◌, ◌==◌, [], length, insert, IfOk, false};
ghost use Rattle.std.specs.Vec.{vec_capacity};
ghost use Rattle.std.specs.List.Sorted.{IsStrictlyIncreasing};
ghost use Rattle.rv_keylist.specs.Keys.{has_key};
ghost use Rattle.rv_keylist.specs.Rows.{AddsRow};

use crate::keys::{is_among, place_of};
use rv_value::{NoMemory, RowNo};
use std::alloc::Global;
use std::marker::Model;

/// How many rows the buffer takes.
const PLACES: usize = 1024;

/// A set of at most 1,024 rows, which contracts see as their numbers, ascending. Its places are made with it, so that
/// rows are added without memory.
#[derive(Drop)]
pub struct Delivered {
    rows: Vec<u64>,
}

impl Model for Delivered {
    ghost use Rattle.std.specs.Prelude.{ℕ, List};
    ghost use Rattle.std.specs.Vec.{vec_capacity};
    ghost use Rattle.rv_keylist.specs.Rows.{IsBuffer};

    ghost Value = { List ℕ };

    ghost view = { λ d. d.rows.items };

    ghost invariant = { λ d. IsBuffer d.rows.items (vec_capacity d.rows) };
}

impl Delivered {
    /// The empty set, with room for 1,024 rows (8 KB), so that no later call takes memory. `NoMemory` where there is none
    /// for it.
    pub fn new(alloc: Global) -> Result<Delivered, NoMemory>
        ensures { IfOk result (λ delivered. delivered ≡ []) }
    {
        Ok(Delivered {
            rows: Vec::with_capacity(alloc, PLACES)?,
        })
    }

    /// How many rows were delivered. What always holds is told with it: at most 1,024, ascending.
    pub fn len(&self) -> u32
        ensures count { result ≡ length self.now }
        ensures room { length self.now ≤ 1024 }
        ensures ascends { IsStrictlyIncreasing self.now }
    {
        self.rows.len() as u32
    }

    /// Whether nothing was delivered yet; Rust's habit asks for it beside `len`.
    pub fn is_empty(&self) -> bool
        ensures { result ≡ (length self.now == 0) }
    {
        self.rows.is_empty()
    }

    /// Whether all 1,024 places are taken.
    pub fn full(&self) -> bool
        ensures { result ≡ (length self.now == 1024) }
    {
        self.rows.len() == PLACES
    }

    /// Whether a row is in the set, by binary search.
    pub fn has(&self, row: RowNo) -> bool
        ensures { result ≡ has_key row.0 self.now }
    {
        is_among(self.rows.as_slice(), row.0)
    }

    /// Puts a row into the set, which has room and does not have it yet. Those above it move up by one place.
    pub fn add(&mut self, row: RowNo)
        requires room { length self.old < 1024 }
        requires fresh { has_key row.0 self.old ≡ false }
        ensures { AddsRow self.old self.new row.0 }
    {
        let at = place_of(self.rows.as_slice(), row.0);
        put_in(&mut self.rows, at, row.0);
    }
}

/// Puts a row into a place, for which there is room.
fn put_in(rows: &mut Vec<u64>, at: usize, row: u64)
    requires within { at ≤ length rows.old.items }
    requires room { length rows.old.items < vec_capacity rows.old }
    ensures rows { rows.new.items ≡ insert rows.old.items at row }
    ensures capacity { vec_capacity rows.old ≤ vec_capacity rows.new }
{
    match rows.insert(at, row) {
        Ok(()) => {}
        Err(_) => unreachable!(),
    }
}
