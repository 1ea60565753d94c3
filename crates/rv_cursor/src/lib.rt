//! Open cursors: a plan with at most one row in hand.
#![tactic(auto)]

pub mod cursor;
pub mod fetching;
pub mod laws;
pub mod sight;

pub use cursor::{Open, open_cursor};
pub use fetching::{fetch, fetch_step, step};
pub use sight::Sight;
