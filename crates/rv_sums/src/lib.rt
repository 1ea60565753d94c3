//! What a cursor reads over its whole life, how soon a FETCH ends, and what a union fetches.
#![tactic(auto)]

pub mod laws;
