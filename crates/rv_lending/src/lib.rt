//! A core lent to the threads of a phase, and given back.
//!
//! `lend` takes a core apart, `call_phase` has the calls of a phase made over it by threads (rv_phases), and `give_back` puts
//! it together again. `let_go` ends one.
#![tactic(auto)]

mod end;
mod lent;

pub use end::let_go;
pub use lent::{Lent, call_phase, give_back, lend};
