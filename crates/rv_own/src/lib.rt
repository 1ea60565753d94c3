//! The views of transactions that have changes: made when one is first asked for (by a cursor, a search or a unique index), kept up
//! to date with each further change, and shared with the cursors that are opened.
#![tactic(auto)]

pub mod views;

pub use views::{OwnView, Views};
