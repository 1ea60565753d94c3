//! Restrictions of rows: their truth in three values, their binding to the rows of other FROM items, and
//! what an index can do for them.
#![tactic(auto)]

mod atom;
mod bind;
mod branch;
mod part;
mod range;
mod truth;

pub use atom::{Atom, ColRef, Op, Operand, Tri};
pub use bind::highest_place;
pub use part::Part;
pub use truth::{Reads, Restriction};
