//! Ascending lists in blocks that can be shared: an item is found, put and taken out by binary searches, and the rank
//! of an item is told.
#![tactic(auto)]

pub mod block;
pub mod blocks;
pub mod edit;
pub mod placed;
pub mod search;

pub use blocks::{Before, Blocks};
pub use placed::Placed;
pub use search::{Front, turn_in};
