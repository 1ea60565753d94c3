//! Shares one core among threads of its own: session 1 reads in one, session 2 writes in another, and a worker helps in a
//! third. Then it writes what each session was answered.
#![tactic(auto)]

ghost use Rattle.std.specs.Prelude.{◌≡◌, ◌≤◌};
ghost use Rattle.rv_turn.specs.Story.{Begins};
ghost use Rattle.rv_model.specs.History.{IsLegal};
ghost use Rattle.rv_shared.specs.Leads.{Leads};
ghost use Rattle.rv_lending.specs.Lending.{CoreEvent, point};

mod sessions;

use crate::sessions::by_threads;
use rv_core::Core;
use rv_io::{Sink, StdSink};
use rv_judge::{Judge, Threshold, Uncounted};
use rv_lending::{give_back, lend};
use rv_model::Entry;
use rv_reader::{Reader, Store};
use rv_script::write_text;
use rv_store::Paged;
use rv_value::NoMemory;
use std::alloc::Global;
use std::io;
use std::io::BufWriter;
use std::process::ExitCode;
use std::sync::Wait;
use std::thread::Threads;

/// How many rows the table has.
const ROWS: u32 = 48;

fn main(rt: HostRuntime) -> ExitCode {
    if run_standard(&rt, &rt).unwrap_or(false) {
        ExitCode::from(0)
    } else {
        ExitCode::from(1)
    }
}

/// The run over the standard output; whether all was written. `threads` is the leave to start threads.
fn run_standard<R: Threads + Wait + Sync>(rt: &HostRuntime, threads: &R) -> Result<bool, NoMemory> {
    let Ok(out) = BufWriter::new(rt.alloc(), io::writer(rt)) else {
        return Err(NoMemory);
    };
    let mut sink = StdSink::new(out);
    let told = run(threads, rt.alloc(), &mut sink)?;
    Ok(sink.finish().is_ok() && told)
}

/// The run over a sink.
fn run<R: Threads + Wait + Sync, K: Sink>(
    rt: &R,
    alloc: Global,
    sink: &mut K,
) -> Result<bool, NoMemory> {
    let judge: Box<dyn Judge> = Box::new(alloc, Threshold::new())?;
    let core = Core::new(alloc, Paged::new(alloc)?, judge, false, 1);
    told_over(rt, alloc, core, sink)
}

/// Fills a core, shares it, and writes what was called in the threads; whether all was written.
fn told_over<
    S: Store + Reader<Ledger = Uncounted> + Send + Drop,
    R: Threads + Wait + Sync,
    K: Sink,
>(rt: &R, alloc: Global, core: Core<S>, sink: &mut K) -> Result<bool, NoMemory> {
    let mut core = core;
    let filled = fill(alloc, &mut core);
    let before = core.history().len();
    let core = shared(rt, alloc, core);
    let told = tell(sink, core.history(), before, 1) && tell(sink, core.history(), before, 2);
    drop(core);
    filled?;
    Ok(told)
}

/// Lends a core to threads, and takes it back. Some order of calls, takes, gives and sweeps leads from the one to the other,
/// each under its judge, from where he stands, and with its settings.
fn shared<S: Store + Reader<Ledger = Uncounted> + Send + Drop, R: Threads + Wait + Sync>(
    rt: &R,
    alloc: Global,
    core: Core<S>,
) -> Core<S>
    requires { 0 ≤ core.engine.phase }
    ensures chain { Leads (CoreEvent (λ s. S.shown s)) (point core.engine ((⟦<dyn Judge as Judge>⟧ core.judge.vtable).would core.judge.value) ((⟦<dyn Judge as Judge>⟧ core.judge.vtable).state core.judge.value) core.settings) (point result.engine ((⟦<dyn Judge as Judge>⟧ result.judge.vtable).would result.judge.value) ((⟦<dyn Judge as Judge>⟧ result.judge.vtable).state result.judge.value) result.settings) }
    ensures settings { result.settings ≡ core.settings }
    ensures legal { IsLegal result.engine.history }
    ensures goes_on { Begins core.engine.history result.engine.history }
{
    let lent = lend(core);
    let back = by_threads(rt, alloc, lent);
    give_back(back)
}

/// Makes a call of session 1.
fn make<S: Store + Reader<Ledger = Uncounted> + Drop>(
    core: &mut Core<S>,
    text: &str,
) -> Result<(), NoMemory> {
    if text.len() > 4096 {
        return Err(NoMemory);
    }
    let _reply = core.call(1, text)?;
    Ok(())
}

fn make_all<S: Store + Reader<Ledger = Uncounted> + Drop>(
    core: &mut Core<S>,
    texts: &[&str],
) -> Result<(), NoMemory> {
    for text in texts {
        make(core, *text)?;
    }
    Ok(())
}

fn row_text(alloc: Global, number: u32) -> Result<String, NoMemory> {
    let other = number % ROWS * 29 % ROWS;
    Ok(format!(in alloc; "INSERT INTO T VALUES ({number}, {other})")?)
}

/// Makes the table, and begins a transaction of session 1, which is to read it as it is now.
fn fill<S: Store + Reader<Ledger = Uncounted> + Drop>(
    alloc: Global,
    core: &mut Core<S>,
) -> Result<(), NoMemory> {
    let tables = [
        "CREATE TABLE T (A BIGINT, B BIGINT)",
        "CREATE INDEX IA ON T (A)",
        "CREATE INDEX IB ON T (B)",
        "BEGIN",
    ];
    make_all(core, &tables)?;
    for number in 0..ROWS {
        let text = row_text(alloc, number)?;
        make(core, text.as_str())?;
    }
    make_all(core, &["COMMIT", "BEGIN READ ONLY"])
}

/// Writes the calls of a session from a place of a history on; whether all were written.
fn tell<K: Sink>(sink: &mut K, history: &[Entry], before: usize, session: u8) -> bool {
    for place in before..history.len() {
        if history[place].session == session
            && write_text(sink, &history[place..place + 1]).is_err()
        {
            return false;
        }
    }
    true
}
