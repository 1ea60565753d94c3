//! Unions of key lists: the members of a union are scanned one after another, each an index over the range of one branch of
//! a restriction, and their keys are put together, each once. Then the final stage fetches the listed records, or reads the
//! table.
#![tactic(auto)]

mod giving;
mod joining;
mod stages;
mod taking;
mod uniting;

pub use uniting::Union;
