//! What must be believed for the headline, and that it says what the working definitions of the crates below say.
#![tactic(auto)]

pub mod laws;
