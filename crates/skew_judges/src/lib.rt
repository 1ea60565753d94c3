//! Judges for columns whose values are skewed and correlated, so that estimates are wrong, and a guard around any judge.
#![tactic(auto)]

pub mod guard;
pub mod judges;
pub mod rules;

pub use guard::Bounded;
pub use judges::{AllRows, FirstRows};
