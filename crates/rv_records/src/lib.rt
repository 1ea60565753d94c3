//! The rows of a table in pages of 32 row numbers, each page kept by versions, so that each snapshot reads its own.
#![tactic(auto)]

mod finding;
mod records;

pub use records::Records;
