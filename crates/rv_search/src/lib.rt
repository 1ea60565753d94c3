//! Searches: the rows of a table for which a restriction is True, found as a query finds them.
#![tactic(auto)]

mod named;
mod search;

pub use search::{any_narrows, find, found_rows, rows_of};
