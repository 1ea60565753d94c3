//! The catalog: the names of tables, columns and indexes, and statements with these looked up.
#![tactic(auto)]

mod columns;
mod def;
mod fault;
mod kinds;
mod limits;
mod names;
mod resolve;

pub use def::{BindFault, Goal, IndexDef, Resolved, Select, TableDef};
pub use limits::long_name;
pub use names::Catalog;
