//! The top calls, over any store and under any three judges: a script from a source or from a seed, its transcript or its
//! summary to a sink; and the lines of a source, each answered before the next one is read.
#![tactic(auto)]

mod calls;
mod calls_by_threads;
mod judges;
mod service;
pub mod status;
pub mod top;
pub mod words;

pub use service::serve;
pub use status::{Over, Status};
pub use top::{Ran, run, run_plain};
pub use words::{behind_line, read_words};
