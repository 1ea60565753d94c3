//! The one-thread database as code: whether a list of entries is one of its histories.
#![tactic(auto)]

pub mod cursors;
pub mod following;
pub mod opening;
pub mod plain;
pub mod queues;
pub mod same;
pub mod telling;

pub use following::{Replayed, are_short, replay};
