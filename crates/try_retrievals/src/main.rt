//! Drives joins, one for each line that it reads, and then retrievals over plain stores by a table: every strategy, a race and a union with every judge, with none, one and five
//! background steps between two foreground steps, and with pieces given late, twice and never; and some single ones. Of each
//! it writes the rows in the order in which they came, whether they are the rows that qualify, each once and in order where an
//! order is asked, and the trace. Of some searches it writes the rows and what was read. The file `stdout` has what
//! tools/tables/try_retrievals.py finds by the rules in words.
#![tactic(auto)]

mod asked;
mod case;
mod cases;
mod checked;
mod drive;
mod joins;
mod judges;
mod kinds;
mod lines;
mod load;
mod searches;
mod singles;

use kinds::add_kinds;
use rv_loading::{Fault, write_lines};
use searches::add_searches;
use singles::add_singles;
use std::alloc::Global;
use std::io;

fn all_lines(alloc: Global) -> Result<Vec<String>, Fault> {
    let mut lines = Vec::new(alloc);
    add_singles(alloc, &mut lines)?;
    add_searches(alloc, &mut lines)?;
    add_kinds(alloc, &mut lines)?;
    Ok(lines)
}

fn main(rt: HostRuntime) -> io::Result<()> {
    joins::write(&rt)?;
    let lines = all_lines(rt.alloc());
    write_lines(&rt, &lines)
}
