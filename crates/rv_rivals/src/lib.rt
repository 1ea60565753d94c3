//! Rivals of the rows that a statement writes, found by look-ups: in the indexes of the store at the base and at the last
//! commit, and in what is kept of each transaction's view.
#![tactic(auto)]

pub mod equal;
pub mod laws;
pub mod looking;
mod near;
pub mod rivals;
pub mod rows;
pub mod statement;

pub use equal::first_equal;
pub use rivals::no_rivals;
