//! What is asked of one table, and how the strategy of its retrieval, the scans of its background and the members of a union
//! are chosen among the table's indexes.
#![tactic(auto)]

mod choosing;
mod leading;
mod query;
mod uniting;

pub use choosing::{Background, Candidate, Choice, Role, candidates, choose, scans};
pub use leading::{foreground, guarantee, nowhere};
pub use query::{Goal2, Query, ordered};
pub use uniting::members;
