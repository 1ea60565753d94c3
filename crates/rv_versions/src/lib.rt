//! Values that keep their older versions, so that each snapshot reads its own.
#![tactic(auto)]

pub mod chain;
pub mod versions;

pub use chain::Version;
pub use versions::Versions;
