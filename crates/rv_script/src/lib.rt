//! Scripts, which a run reads, and transcripts, which it writes.
#![tactic(auto)]

mod packing;
pub mod scripts;
pub mod traces;
pub mod transcript;
pub mod values;

pub use scripts::{Form, Line, Phase, Script, ScriptFault, read_saying, read_script};
pub use transcript::write_text;
