//! Tests of rows by their numbers.
ghost use Rattle.std.specs.Prelude.{◌≡◌, ℕ, Bool, not, ◌&&◌, ◌||◌};
ghost use Rattle.rv_rows.specs.Changes.{has_change};
ghost use Rattle.rv_rivals.specs.Lookups.{other_than};

use rv_rows::Changes;
use rv_value::RowNo;

/// A test of a row by its number.
pub trait RowTest {
    ghost keeps: { Self → ℕ → Bool };

    /// Whether the row passes.
    fn keeps(&self, row: RowNo) -> bool
        ensures { result ≡ keeps self.now row.0 };
}

/// The rows of a table that a statement does not change.
#[derive(Clone, Copy)]
pub struct Unchanged<'a> {
    pub table: u32,
    pub new: &'a Changes,
}

impl<'a> RowTest for Unchanged<'a> {
    ghost keeps = { λ t n. not (has_change t.table n t.new.now) };

    fn keeps(&self, row: RowNo) -> bool {
        !self.new.has(self.table, row)
    }
}

/// The rows of a table that neither a transaction has changed nor a statement changes.
#[derive(Clone, Copy)]
pub struct Left<'a> {
    pub table: u32,
    pub own: &'a Changes,
    pub new: &'a Changes,
}

impl<'a> RowTest for Left<'a> {
    ghost keeps = { λ t n. not (has_change t.table n t.own.now || has_change t.table n t.new.now) };

    fn keeps(&self, row: RowNo) -> bool {
        !(self.own.has(self.table, row) || self.new.has(self.table, row))
    }
}

/// The rows of a table that another transaction has changed, but for one row.
#[derive(Clone, Copy)]
pub struct Changed<'a> {
    pub table: u32,
    pub changes: &'a Changes,
    pub but: RowNo,
}

impl<'a> RowTest for Changed<'a> {
    ghost keeps = { λ t n. has_change t.table n t.changes.now && other_than t.but.0 n };

    fn keeps(&self, row: RowNo) -> bool {
        self.changes.has(self.table, row) && row != self.but
    }
}

/// Any row but one.
#[derive(Clone, Copy)]
pub struct But {
    pub row: RowNo,
}

impl RowTest for But {
    ghost keeps = { λ t n. other_than t.row.0 n };

    fn keeps(&self, row: RowNo) -> bool {
        row != self.row
    }
}
