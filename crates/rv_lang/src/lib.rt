//! The language: tokens, statements and their grammar, and the plain types of replies.
#![tactic(auto)]

pub mod lexer;
pub mod reply;
pub mod statement;
pub mod token;

pub use lexer::lex;
pub use reply::{Refusal, Reply, Rival, Shown, ShownEvent, Which};
pub use statement::{RawAtom, RawCol, RawGoal, RawKind, RawOp, RawOperand, Statement};
pub use token::{LexFault, Symbol, Token};
