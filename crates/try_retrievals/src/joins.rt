//! Drives plans over a plain store, one for each line that it reads: joins of one to four small tables with NULLs and equal
//! rows, one table under several names, restrictions with OR over two places, and every kind of order, with pieces given late
//! and judges that drop. Of each it writes how many combinations came, whether they came in order, and a number that tells them
//! from most others. The file `stdout` has what tools/tables/try_joins.py finds from all combinations, filtered and sorted.
mod case;
mod drive;
mod load;
mod read;
mod select;
mod told;

use crate::joins::case::answer;
use rv_loading::told_or_fault;
use std::io;

/// Answers each line of the input.
pub fn write(rt: &HostRuntime) -> io::Result<()> {
    'lines: for line in rt.lines(rt.alloc()) {
        let line = line?;
        let told = answer(rt.alloc(), line.as_str());
        println!(rt; "{}: {}", line.as_str(), told_or_fault(&told))?;
    }
    Ok(())
}
