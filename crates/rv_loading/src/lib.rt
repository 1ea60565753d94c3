//! Fills any store with tables and indexes, reads whole tables and indexes of it, and reads and writes the words of lines. It
//! is for programs that try stores and what reads them.
#![tactic(auto)]

mod conditions;
mod fits;
mod lines;
mod load;
mod naming;
mod ranges;
mod read;
mod schema;
mod trace;
mod words;

pub use conditions::{column, restriction, value, values};
pub use lines::{told_or_fault, write_lines};
pub use load::{begin, commit, fill, lay_index, lay_table, may_read, sweep};
pub use naming::{is_column, names_only};
pub use ranges::{between, whole};
pub use read::{estimate_of, leaves_of, row_of, rows_of, sizes_of};
pub use schema::{Layout, Loaded, Over, Schema, index_over};
pub use trace::trace_text;
pub use words::{Fault, cut, integer, number, place, small};
