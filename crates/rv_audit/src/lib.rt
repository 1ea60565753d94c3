//! Transcripts of strangers, judged against their scripts.
#![tactic(auto)]

pub mod auditing;
pub mod calls;
pub mod following;
pub mod holding;
pub mod laws;
pub mod marks;

pub use auditing::{Audited, audit};
