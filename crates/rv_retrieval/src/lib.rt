//! Retrievals from one table: a foreground delivers rows while background scans of indexes build lists of row numbers.
#![tactic(auto)]

mod background;
mod opening;
mod retrieval;
mod steps;

pub use retrieval::Retrieval;
