//! Writes what the course of a retrieval has at every strategy, control and happening, what projections come to, and what
//! judges answer to questions. The file `stdout` has what tools/tables/try_judges.py finds by the rules in words.
#![tactic(auto)]

mod course;
mod rulings;

use std::io;

fn main(rt: HostRuntime) -> io::Result<()> {
    course::write_all(&rt)?;
    rulings::write_projections(&rt)?;
    rulings::write_all(&rt)
}
