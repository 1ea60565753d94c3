//! The words of the command line: which are accepted, and what they ask.
#![tactic(auto)]

pub mod choices;
mod command;
mod digits;
mod form;
mod reading;

pub use choices::{Asked, Choice};
pub use command::asked;
pub use reading::accepted;
