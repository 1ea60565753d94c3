//! The final stage of a retrieval from one table: the records of a complete list are fetched, or the table's pages are
//! read. A row that was delivered before is passed over.
#![tactic(auto)]

mod shell;
mod stage;

pub use shell::Shell;
pub use stage::{Final, examine};
