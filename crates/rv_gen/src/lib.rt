//! The generated workload, and the summary that stands for its transcript.
#![tactic(auto)]

pub mod draws;
pub mod summary;
pub mod workload;

pub use summary::{Summary, summary_of, write_summary};
pub use workload::generate;
