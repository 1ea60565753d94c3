//! The calls of a phase by threads: one for each session that has calls in it, and some workers.
//!
//! `run_phase` lends a core to them (rv_shared), joins them all and gives the core back. Each session makes its own calls in
//! their order; workers take pieces of background scans, and rest where there are none.
#![tactic(auto)]

mod jobs;
mod phase;

pub use phase::{Phased, run_phase};
