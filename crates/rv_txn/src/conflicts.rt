//! Conflicts: rows that a later commit has written, or that another transaction has changed.
ghost use Rattle.std.specs.Prelude.{◌≡◌, ◌<◌, length};
ghost use Rattle.rv_model.specs.Transactions.{changed_refusal, first_changed, first_held, held_refusal, holder, row_in, unharmed};

use crate::active::transaction_at;
use crate::touched::touched_by;
use rv_model::{Refusal, Transaction};
use rv_value::{Items, Record, RowNo};

/// The number of the row in a place.
#[tactic(auto, using(rv_value::proofs::Places::read_as))]
fn row_in(rows: &[Record], place: usize) -> RowNo
    requires { place < length rows.now }
    ensures { result ≡ row_in rows.now place }
{
    rows[place].row
}

/// The place of the first row that a later commit than the base has written.
fn first_changed(
    touched: &Items<Items<u64>>,
    table: u32,
    base: u64,
    rows: &[Record],
) -> Option<usize>
    ensures { result ≡ first_changed touched.now table base rows.now }
{
    rows.iter()
        .position(|row| base < touched_by(touched, table, row.row))
}

/// The place of another session's transaction that has changed a row.
fn holder(active: &Items<Transaction>, session: u8, table: u32, row: RowNo) -> Option<usize>
    ensures { result ≡ holder active.now session table row.0 }
{
    active.as_slice().iter().position(|transaction| {
        transaction.session != session && transaction.changes.has(table, row)
    })
}

/// The place of the first row that another session's transaction has changed.
fn first_held(
    active: &Items<Transaction>,
    session: u8,
    table: u32,
    rows: &[Record],
) -> Option<usize>
    ensures { result ≡ first_held active.now session table rows.now }
{
    rows.iter()
        .position(|row| holder(active, session, table, row.row).is_some())
}

/// The refusal of a row that a later commit has written.
fn changed_refusal(touched: &Items<Items<u64>>, table: u32, row: RowNo) -> Refusal
    ensures { result ≡ changed_refusal touched.now table row }
{
    Refusal::Changed {
        row,
        commit: touched_by(touched, table, row),
    }
}

/// The refusal of a row that another session's transaction has changed.
fn held_refusal(active: &Items<Transaction>, session: u8, table: u32, row: RowNo) -> Refusal
    ensures { result ≡ held_refusal active.now session table row }
{
    match holder(active, session, table, row) {
        Some(place) => Refusal::Held {
            row,
            txn: transaction_at(active, place).number,
        },
        None => Refusal::NoTransaction,
    }
}

/// Rows may be changed that no later commit than the base has written, and that no other transaction has changed.
pub fn unharmed(
    touched: &Items<Items<u64>>,
    active: &Items<Transaction>,
    session: u8,
    base: u64,
    table: u32,
    rows: &[Record],
) -> Result<(), Refusal>
    ensures { result ≡ unharmed (record { active = active.now; next = 0; touched = touched.now }) session base table rows.now }
{
    if let Some(place) = first_changed(touched, table, base, rows) {
        return Err(changed_refusal(touched, table, row_in(rows, place)));
    }
    if let Some(place) = first_held(active, session, table, rows) {
        return Err(held_refusal(active, session, table, row_in(rows, place)));
    }
    Ok(())
}
