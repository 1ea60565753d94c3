//! Plans: nested loops of up to four retrievals in FROM order, whose combinations of rows come as they are found, or are
//! gathered and sorted.
#![tactic(auto)]

mod gather;
mod kept;
mod level;
mod places;
mod plan;
mod stack;
mod steps;

pub use places::indexes_over;
pub use plan::Plan;
