//! A core that threads share by turns: the calls of eight sessions, and the help of workers.
//!
//! `Shared::open` lends a core out, to a pass for each session and each worker. `Shared::call` makes a session's call, a
//! FETCH in many turns; `Shared::help` takes a piece in one turn, sieves it in none, and gives it in another.
//! `Shared::close` gives the core back, whose history has the calls of all sessions. What a core has to do for this is the
//! trait `Served`.
#![tactic(auto)]

mod bell;
mod calling;
mod gate;
mod helping;
mod kept;
mod served;
mod shared;

pub use gate::{Gate, OpenGate, Place};
pub use helping::{Cutting, GiveTurn, TakeTurn};
pub use kept::Kept;
pub use served::Served;
pub use shared::{Helped, SessionPass, Shared, SharedOpen, WorkerPass};
