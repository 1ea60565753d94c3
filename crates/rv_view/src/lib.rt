//! The view of a transaction, made of its changes and kept up to date with each further one, as cursors share it; and the one
//! snapshot of a reader over which they lay it.
#![tactic(auto)]

mod entries;
pub mod laws;
pub mod making;
pub mod seen;
mod sizing;
mod snapshot;
pub mod view;

pub use making::{frozen_new, frozen_of, keep_change};
pub use seen::Seen;
pub use snapshot::Snapshot;
pub use view::View;
