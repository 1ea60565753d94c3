//! The state of the one-thread database, as data.
use crate::transactions::Transactions;
use rv_catalog::Catalog;
use rv_rows::Rows;
use rv_value::{Items, Text, Value, Values};

/// What a cursor may give: the values of the ORDER BY columns, and the values returned.
#[derive(Drop)]
pub struct Offer {
    pub order: Items<Value>,
    pub returned: Values,
}

/// An open cursor of a session, the table of its first FROM item, and the offers that it has left,
/// in order.
#[derive(Drop)]
pub struct Cursor {
    pub session: u8,
    pub name: Text,
    pub table: u32,
    pub offers: Items<Offer>,
}

/// The whole database. A table's number is its place in the schema and in `rows`, which are those
/// of the last commit. `bases` has for each active transaction, in their order, the rows of each
/// table at its base.
#[derive(Drop)]
pub struct State {
    pub schema: Catalog,
    pub rows: Items<Rows>,
    pub last: u64,
    pub transactions: Transactions,
    pub bases: Items<Items<Rows>>,
    pub cursors: Items<Cursor>,
}
