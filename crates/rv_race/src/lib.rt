//! Two indexes that race: both are scanned for one retrieval, leaf by leaf in turn, until one completes; its list narrows
//! what the other one has, and scans go on one at a time. Then the final stage fetches the listed records, or reads the
//! table.
#![tactic(auto)]

mod giving;
mod race;
mod running;
mod stages;
mod taking;

pub use race::Race;
