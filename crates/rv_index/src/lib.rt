//! Index trees whose nodes keep their older versions, so that each snapshot reads its own tree, and estimates of their ranges.
#![tactic(auto)]

mod descent;
mod parts;
mod tree;

pub use descent::split;
pub use tree::Tree;
