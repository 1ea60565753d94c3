ghost use Rattle.std.specs.Prelude.{◌≡◌, Bool};
ghost use Rattle.std.specs.Cmp.{IsStrictWeakOrder};
ghost use Rattle.std.specs.Ordering.{is_lt};
ghost use Rattle.std.proofs.lemmas.List.Sorted.{ranks_by};
ghost use Rattle.rv_value.specs.Entries.{entry_cmp};
ghost use Rattle.rv_value.specs.Orders.{entry_cmp_total};
ghost use Rattle.rv_blocks.specs.Orders.{change_cmp, change_cmp_total};

use rv_rows::Change;
use rv_value::{Duplicate, IndexEntry, cmp_entry};
use std::cmp::Ordering;

/// What has its place among others of its type: before another one, behind it, or the same. Two items may be in one
/// place and still differ, as two changes of one row.
pub trait Placed: Duplicate {
    /// Whether one has its place before another one's.
    ghost before: { Self → Self → Bool };

    /// Whether it has its place before the other's.
    fn comes_before(&self, other: &Self) -> bool
        ensures { result ≡ before self.now other.now };

    /// Any two places can be compared.
    ghost order: { IsStrictWeakOrder before };
}

/// Index entries stand by key, then by row.
impl Placed for IndexEntry {
    ghost before = { λ a b. is_lt (entry_cmp a b) };

    fn comes_before(&self, other: &IndexEntry) -> bool {
        cmp_entry(self, other) == Ordering::Less
    }

    ghost order = { ranks_by entry_cmp_total (λ e. e) };
}

/// Changes stand by table, then by row; the values do not count.
impl Placed for Change {
    ghost before = { λ a b. is_lt (change_cmp a b) };

    fn comes_before(&self, other: &Change) -> bool {
        if self.table == other.table {
            self.row.0 < other.row.0
        } else {
            self.table < other.table
        }
    }

    ghost order = { ranks_by change_cmp_total (λ c. c) };
}
