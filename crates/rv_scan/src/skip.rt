ghost use Rattle.std.specs.Prelude.{◌≡◌, true};
ghost use Rattle.rv_restrict.specs.Truth.{names_only, row_has};
ghost use Rattle.rv_scan.specs.Due.{FindsDue, HaveColumns, IsReady, skipped, skips};

use rv_keylist::{Delivered, KeyList};
use rv_restrict::{Restriction, Tri};
use rv_value::{Record, RowNo};

/// The rows that a scan passes over: those that were delivered, and those that a finished list cannot have.
#[derive(Clone, Copy)]
pub struct Skip<'a> {
    pub delivered: Option<&'a Delivered>,
    pub list: Option<&'a KeyList>,
}

impl Skip<'_> {
    /// Whether a row is passed over.
    pub fn skips(&self, row: RowNo) -> bool
        requires { IsReady (skipped self.now) }
        ensures { result ≡ skips (skipped self.now) row.0 }
    {
        if let Some(delivered) = self.delivered {
            if delivered.has(row) {
                return true;
            }
        }
        match self.list {
            Some(list) => !list.may_have(row),
            None => false,
        }
    }
}

/// Whether a record is to be given.
pub fn is_due(row: &Record, only: &Restriction, skip: &Skip<'_>) -> bool
    requires ready { IsReady (skipped skip.now) }
    requires columns { names_only (row_has row.now.values) only.now ≡ true }
    ensures { result ≡ Rattle.rv_scan.specs.Due.is_due only.now (skipped skip.now) row.now }
{
    !skip.skips(row.row) && only.truth(&row.values) == Tri::True
}

/// The place of the first record that is to be given.
pub fn next_due(records: &[Record], only: &Restriction, skip: &Skip<'_>) -> Option<usize>
    requires ready { IsReady (skipped skip.now) }
    requires columns { HaveColumns only.now records.now }
    ensures { FindsDue only.now (skipped skip.now) records.now result }
{
    'records: for at in 0..records.len() {
        if is_due(&records[at], only, skip) {
            return Some(at);
        }
    }
    None
}
