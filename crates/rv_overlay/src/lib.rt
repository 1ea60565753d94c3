//! The view of a transaction: a reader's tables and indexes with the transaction's changes laid over them.
#![tactic(auto)]

pub mod fronts;
pub mod frozen;
mod keeping;
pub mod laws;
mod laying;
pub mod overlay;
mod reading;
mod rows;

pub use frozen::{Frozen, Part, TableSize};
pub use overlay::Overlay;
pub use rows::{change_of, size_of};
