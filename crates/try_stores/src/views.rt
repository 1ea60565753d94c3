//! Puts items into lists in blocks, makes views of a transaction's changes over a plain store, and tells what the lists hold
//! and what a cursor reads. The file `stdout` has the answers, found by hand.
mod lists;
mod reading;

use crate::told::Told;
use rv_loading::Fault;
use std::alloc::Global;

/// Tells all lines of this part of the program.
pub fn tell(alloc: Global, told: &mut Told) -> Result<(), Fault> {
    lists::tell(alloc, told)?;
    reading::tell(alloc, told)
}
