//! What a program writes.
use crate::words::Fault;
use std::io;

/// What was told, or the words for why nothing was.
pub fn told_or_fault(told: &Result<String, Fault>) -> &str {
    match told {
        Ok(told) => told.as_str(),
        Err(fault) => (*fault).words(),
    }
}

/// Writes lines, or the words for why there are none.
pub fn write_lines(rt: &HostRuntime, lines: &Result<Vec<String>, Fault>) -> io::Result<()> {
    match lines {
        Ok(lines) => write_each(rt, lines.as_slice()),
        Err(fault) => println!(rt; "{}", (*fault).words()),
    }
}

fn write_each(rt: &HostRuntime, lines: &[String]) -> io::Result<()> {
    'lines: for line in lines {
        println!(rt; "{}", line.as_str())?;
    }
    Ok(())
}
