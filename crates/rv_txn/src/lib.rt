//! The transactions of up to eight sessions: their bases and changes, the conflicts between them, and the numbers that
//! they and their rows take.
#![tactic(auto)]

mod active;
mod changing;
mod conflicts;
mod touched;
mod txns;

pub use changing::{kept_rows, met_rows, viewed_rows};
pub use txns::{Finished, Standing, TxnFault, Txns};
