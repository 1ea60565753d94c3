//! The parser: it reads a list of tokens once, from left to right, without recursion.
#![tactic(auto)]

pub mod atoms;
pub mod conditions;
pub mod fault;
pub mod list;
pub mod parser;
pub mod parts;
pub mod readings;
pub mod selects;
pub mod statements;

pub use fault::ParseFault;
pub use parser::{parse, read_statement};
pub use readings::Readings;
