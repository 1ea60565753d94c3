//! Scans of one table over any reader: by its pages, by an index with a fetch for each entry, and by an index alone.
#![tactic(auto)]

mod along;
mod front;
mod fscan;
mod skip;
mod sscan;
mod tscan;

pub use front::Front;
pub use fscan::{Fscan, look};
pub use skip::Skip;
pub use sscan::Sscan;
pub use tscan::Tscan;
