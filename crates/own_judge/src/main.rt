//! Runs the script on standard input under a judge of its own, and writes the transcript: how a program embeds the engine.
#![tactic(auto)]

ghost use Rattle.std.specs.Prelude.{◌≡◌, IfOk};
ghost use Rattle.own_judge.specs.Sharing.{WritesLegal};

mod share;

use crate::share::Share;
use rv_io::{Sink, Source, StdSink, StdSource};
use rv_judge::{Judge, Patient, Threshold};
use rv_lending::let_go;
use rv_run::{Status, run_plain};
use rv_store::Paged;
use rv_value::NoMemory;
use std::alloc::Global;
use std::io;
use std::io::BufWriter;
use std::process::ExitCode;

fn main(rt: HostRuntime) -> ExitCode {
    let status = run_standard(&rt).unwrap_or(Status::Memory);
    if status != Status::Done {
        let words = status.words();
        drop(rt.eprintln(words.as_str()));
    }
    let code = status.code();
    drop(status);
    ExitCode::from(code)
}

/// The run over the standard streams.
fn run_standard(rt: &HostRuntime) -> Result<Status, NoMemory> {
    let Ok(out) = BufWriter::new(rt.alloc(), io::writer(rt)) else {
        return Err(NoMemory);
    };
    let mut source = StdSource::new(rt.reader());
    let mut sink = StdSink::new(out);
    let status = run_shared(rt.alloc(), &mut source, &mut sink)?;
    Ok(match sink.finish() {
        Ok(()) => status,
        Err(_fault) => {
            drop(status);
            Status::WriteFault
        }
    })
}

/// Runs the script of a source as the command line without words does: judge 0, our own, rules first, and a line `-- 1` or
/// `-- 2` of the script lets another one rule.
fn run_shared<S: Source, K: Sink>(
    alloc: Global,
    source: &mut S,
    sink: &mut K,
) -> Result<Status, NoMemory>
    ensures done { IfOk result (λ status. status ≡ Status.Done → WritesLegal (K.written sink.old) (K.written sink.new)) }
{
    let mut judges: Vec<Box<dyn Judge>> = Vec::new(alloc);
    judges.push(Box::new(alloc, Share::new())?)?;
    judges.push(Box::new(alloc, Threshold::new())?)?;
    judges.push(Box::new(alloc, Patient::new())?)?;
    let store = Paged::new(alloc)?;
    let ran = run_plain(alloc, store, &[], source, sink, judges);
    let_go(ran.core);
    Ok(ran.status)
}
