//! A store of record pages and index trees that are kept by versions.
#![tactic(auto)]

mod entries;
mod indexes;
mod paged;
mod places;
mod tables;
mod whole;

pub use paged::Paged;
pub use places::Place;
