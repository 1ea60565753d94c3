//! The program under judges of `skew_judges` in place of the supplied ones: a script on standard input, or a generated one, and its
//! transcript or summary on standard output; or the lines of standard input, each answered before the next one is read.
#![tactic(auto)]

ghost use Rattle.std.specs.Prelude.{◌≡◌, ◌⊎◌, IfOk, IsSome, List, None, OnErr, Some, false, true, ℕ};
ghost use Rattle.std.specs.Io.KnownBytes.{Appends};
ghost use Rattle.rv_io.specs.Causes.{Rose};
ghost use Rattle.skew_judges.specs.Guard.{IsBounded};
ghost use Rattle.rv_words.specs.declared.choices.Asked.{Asked as Askings};
ghost use Rattle.rv_words.specs.Words.{AreAccepted, Ask};
ghost use Rattle.rv_run.specs.Performing.{IsPerformed, Stops};
ghost use Rattle.rv_run.specs.Phases.{FirstPhasesUnder, PhasesUnder};
ghost use Rattle.rv_run.specs.Ruling.{CallsUnder, FirstCallsUnder, settings_of};
ghost use Rattle.rv_run.specs.Script.{HasAllCalls};
ghost use Rattle.rv_run.specs.Serving.{AskService};
ghost use Rattle.rv_run.specs.Words.{behind_line};
ghost use Rattle.skew_cli.specs.Running.{RunWrites, ServesFrom, WritesFrom, bounded, our_judges};

use rv_io::{Flush, Source, StdSink, StdSource};
use rv_judge::{Judge, Uncounted};
use rv_lending::let_go;
use rv_reader::{Reader, Store};
use rv_run::{Ran, Status, behind_line, read_words, run, serve};
use rv_shared::OpenGate;
use rv_store::Paged;
use rv_value::{NoMemory, Text};
use skew_judges::{AllRows, Bounded, FirstRows};
use std::alloc::Global;
use std::io;
use std::io::BufWriter;
use std::process::ExitCode;
use std::sync::Wait;
use std::thread::Threads;

/// Runs as the words ask, says on standard error how that ended, and exits with the status's code.
fn main(rt: HostRuntime) -> ExitCode {
    let status = whole(&rt, &rt).unwrap_or(Status::Memory);
    if status != Status::Done {
        let words = status.words();
        drop(rt.eprintln(words.as_str()));
    }
    let code = status.code();
    drop(status);
    ExitCode::from(code)
}

/// The run over the standard streams, as the words of the command line ask. `threads` is the leave to start threads.
fn whole<R: Threads + Wait + Sync>(rt: &HostRuntime, threads: &R) -> Result<Status, NoMemory> {
    let alloc = rt.alloc();
    let words = match read_words(rt) {
        Ok(words) => words,
        Err(status) => return Ok(status),
    };
    let Ok(out) = BufWriter::new(alloc, io::writer(rt)) else {
        return Err(NoMemory);
    };
    let mut source = StdSource::new(rt.reader());
    let mut sink = StdSink::new(out);
    let store = Paged::new(alloc)?;
    let status = run_judged(
        threads,
        alloc,
        store,
        words.as_slice(),
        &mut source,
        &mut sink,
    )?;
    Ok(match sink.finish() {
        Ok(()) => status,
        Err(_fault) => {
            drop(status);
            Status::WriteFault
        }
    })
}

/// The run over a store under the judges of this program, as the words ask; with `--line` before the other words the service, line by
/// line. Which of the judges rules first the words say.
fn run_judged<
    R: Threads + Wait + Sync,
    P: Store + Reader<Ledger = Uncounted> + Send + Drop,
    S: Source,
    K: Flush,
>(
    threads: &R,
    alloc: Global,
    store: P,
    words: &[Text],
    source: &mut S,
    sink: &mut K,
) -> Result<Status, NoMemory>
    requires tables { (P.shown store).tables ≡ 0 }
    requires newest { (P.shown store).newest ≡ 0 }

    // What a run writes comes, by its status, of all calls or of the first ones, each of which was made under the
    // judge of its phase, of ours; with threads of phases each of which is a chain of events under its judge.
    ensures ruled { IfOk result (λ status. (asked : Askings) → Ask words.now asked → asked.threads ≡ false → RunWrites asked.seed (S.left source.old) (sink.new ≡ sink.old) (K.written sink.old) (K.written sink.new) (CallsUnder (λ s. P.shown s) (settings_of asked) store our_judges asked.judge) (FirstCallsUnder (λ s. P.shown s) (settings_of asked) store our_judges asked.judge) status) }
    ensures led { IfOk result (λ status. (asked : Askings) → Ask words.now asked → asked.threads ≡ true → RunWrites asked.seed (S.left source.old) (sink.new ≡ sink.old) (K.written sink.old) (K.written sink.new) (PhasesUnder (λ s. P.shown s) (settings_of asked) store our_judges asked.judge) (FirstPhasesUnder (λ s. P.shown s) (settings_of asked) store our_judges asked.judge) status) }

    // A run whose script was not performed was stopped, and its status says why: words that are not accepted, a fault
    // of the script or of the source, a limit. A generated script is performed.
    ensures stopped { IfOk result (λ status. behind_line words.now ≡ None → IsPerformed status ⊎ Stops words.now (S.left source.old) (S.left source.new) (S.faults source.old) (S.faults source.new) status) }
    ensures usage { IfOk result (λ status. behind_line words.now ≡ None → ¬ (AreAccepted words.now) → status ≡ Status.Usage) }
    ensures generated { IfOk result (λ status. (asked : Askings) → Ask words.now asked → IsSome asked.seed → IsPerformed status) }

    // What a service writes that is done comes of all calls; with another status of those of the lines that were
    // served, and the status says why these are all.
    ensures served { IfOk result (λ status. (rest : List (List ℕ)) (asked : Askings) → behind_line words.now ≡ Some rest → Ask rest asked → status ≡ Status.Done → WritesFrom None (S.left source.old) (Appends (K.written sink.old) (K.written sink.new)) HasAllCalls (CallsUnder (λ s. P.shown s) (settings_of asked) store our_judges asked.judge)) }
    ensures served_first { IfOk result (λ status. (rest : List (List ℕ)) (asked : Askings) → behind_line words.now ≡ Some rest → Ask rest asked → asked.threads ≡ false → asked.seed ≡ None → ((source.new ≡ source.old) × (sink.new ≡ sink.old)) ⊎ ServesFrom (S.left source.old) (S.left source.new) (S.faults source.old) (S.faults source.new) (K.faults sink.old) (K.faults sink.new) (K.written sink.old) (K.written sink.new) (FirstCallsUnder (λ s. P.shown s) (settings_of asked) store our_judges asked.judge) status) }
    ensures refused { IfOk result (λ status. (rest : List (List ℕ)) → behind_line words.now ≡ Some rest → ¬ (AskService rest) → (status ≡ Status.Usage) ⊎ (status ≡ Status.Memory)) }

    // A write that failed was counted. Where no judge could be made nothing was read or written.
    ensures write { IfOk result (λ status. status ≡ Status.WriteFault → Rose (K.faults sink.old) (K.faults sink.new)) }
    ensures unmade { OnErr result ((source.new ≡ source.old) × (sink.new ≡ sink.old)) }

    // The first of our judges keeps the rule under which a retrieval is bounded.
    ensures bounded { IsBounded bounded.would }
{
    let mut judges: Vec<Box<dyn Judge>> = Vec::new(alloc);
    judges.push(Box::new(alloc, Bounded::new(AllRows::new()))?)?;
    judges.push(Box::new(alloc, AllRows::new())?)?;
    judges.push(Box::new(alloc, FirstRows::new())?)?;
    match behind_line(words) {
        Some(rest) => Ok(end_of(serve(alloc, store, rest, source, sink, judges))),
        None => Ok(end_of(run(
            threads, alloc, store, words, source, sink, judges, &OpenGate,
        ))),
    }
}

/// The status of a run, whose core is let go.
fn end_of<P: Store + Reader<Ledger = Uncounted> + Drop>(ran: Ran<P>) -> Status
    ensures { result ≡ ran.status }
{
    let Ran { status, core } = ran;
    let_go(core);
    status
}
