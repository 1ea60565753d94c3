//! Sources and sinks of bytes that count their faults, so that a contract can say what a fault's cause was.
#![tactic(auto)]

pub mod all;
pub mod edge;
pub mod growing;
pub mod lines;
pub mod memory;
pub mod traits;

pub use all::{ReadFault, read_all, write_all, write_next};
pub use edge::{StdSink, StdSource};
pub use growing::GrowingSink;
pub use lines::{InputLine, read_line};
pub use memory::{MemSink, MemSource};
pub use traits::{Failed, Flush, Sink, Source};
