//! Nodes of index trees: a leaf of up to 32 entries, or up to 32 children with their low entries.
#![tactic(auto)]

mod children;
mod halving;
mod node;

pub use halving::children_between;
pub use node::Node;
