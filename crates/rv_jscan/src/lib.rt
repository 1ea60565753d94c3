//! Joint scans: one or more indexes are scanned in turn, leaf by leaf, into lists of record keys, and each list is
//! intersected with the one before it. A leaf is handed out as a piece, which is sieved anywhere and given back.
#![tactic(auto)]

mod jscan;
mod keeping;
mod lane;
mod piece;

pub use jscan::{Given, Jscan, ScanCounts, ScanPlan, Taken};
pub use keeping::{Admits, Within};
pub use lane::Lane;
pub use piece::{Piece, PieceId, Sieved, sieve};
