//! The program that audits: a script, a mark and a transcript on standard input, the verdict on standard output.
#![tactic(auto)]

use rv_auditrun::{AuditStatus, audit_run};
use rv_io::{StdSink, StdSource};
use rv_run::{Status, read_words};
use rv_value::NoMemory;
use std::io;
use std::io::BufWriter;
use std::process::ExitCode;

/// Judges what stands on standard input, and exits with the status's code.
fn main(rt: HostRuntime) -> ExitCode {
    let status = whole(&rt).unwrap_or(AuditStatus::Memory);
    ExitCode::from(status.code())
}

/// The audit over the standard streams.
fn whole(rt: &HostRuntime) -> Result<AuditStatus, NoMemory> {
    let alloc = rt.alloc();
    let words = match read_words(rt) {
        Ok(words) => words,
        Err(Status::Usage) => return Ok(AuditStatus::Usage),
        Err(status) => {
            drop(status);
            return Err(NoMemory);
        }
    };
    let Ok(out) = BufWriter::new(alloc, io::writer(rt)) else {
        return Err(NoMemory);
    };
    let mut source = StdSource::new(rt.reader());
    let mut sink = StdSink::new(out);
    let status = audit_run(alloc, words.as_slice(), &mut source, &mut sink);
    Ok(match sink.finish() {
        Ok(()) => status,
        Err(_fault) => AuditStatus::WriteFault,
    })
}
