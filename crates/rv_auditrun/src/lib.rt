//! The top call of the program that audits: an input from a source, its verdict to a sink.
#![tactic(auto)]

pub mod laws;
pub mod running;
pub mod status;

pub use running::audit_run;
pub use status::AuditStatus;
