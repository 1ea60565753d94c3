//! Transcripts, read back.
#![tactic(auto)]

pub mod cuts;
pub mod reading;
pub mod replies;
pub mod traces;
pub mod values;

pub use reading::{TextRead, read_text};
