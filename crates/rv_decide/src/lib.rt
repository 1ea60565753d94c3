//! What the one-thread database may answer, decided over plain lists: the offers of a query, and the traces to show.
#![tactic(auto)]

pub mod choosing;
pub mod course;
pub mod showing;
pub mod truths;

pub use choosing::offers_over;
pub use showing::may_show;
