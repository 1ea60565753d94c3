//! The engine as a static library for C: one call that runs a script in memory.
#![tactic(auto)]

mod memory;
mod running;
