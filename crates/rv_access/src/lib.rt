//! Access to one table for a cursor: a retrieval whose foreground and background compete, two indexes that race, or
//! members whose keys are put together. What stands above speaks of an access by words that are common to all.
#![tactic(auto)]

mod access;
mod over;
mod racing;
mod uniting;

pub use access::{Access, races};
pub use over::Over;
pub use racing::RacedQuery;
pub use uniting::UnitedQuery;
