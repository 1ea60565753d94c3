//! Transactions, as data.
use rv_rows::Changes;
use rv_value::Items;

/// An active transaction: the commit that it reads, and its own changes.
#[derive(Drop)]
pub struct Transaction {
    pub number: u64,
    pub session: u8,
    pub read_only: bool,
    pub base: u64,
    pub changes: Changes,
}

/// The active transactions in the order in which they began, and the number of the next one. `touched` has for each
/// table a place for each row number that was taken, with the commit that last wrote or deleted the row, 0 where none
/// did. So a table's next row number is how many places it has.
#[derive(Drop)]
pub struct Transactions {
    pub active: Items<Transaction>,
    pub next: u64,
    pub touched: Items<Items<u64>>,
}
