//! The top call: a script from a source or from a seed, its transcript or its summary to a sink.
ghost use Rattle.std.specs.Prelude.{◌≡◌, ◌≢◌, ◌≤◌, ◌<◌, ◌↔◌, Err, IfErr, IfOk, IfSome, IsOk, IsSome, IsSomeAnd, None, Ok, Some, false, length, map, true};
ghost use Rattle.std.specs.Io.KnownBytes.{Appends, IsAtEnd};
ghost use Rattle.rv_io.specs.Causes.{Rose};
ghost use Rattle.rv_io.specs.Pieces.{AppendsFront, Goes, TakesUpTo};
ghost use Rattle.rv_gen.specs.Workload.{workload_of};
ghost use Rattle.rv_believed.specs.History.{IsLegal};
ghost use Rattle.rv_words.specs.declared.choices.Asked.{Asked as Askings};
ghost use Rattle.rv_words.specs.Words.{AreAccepted, AreWithin, Ask};
ghost use Rattle.rv_run.specs.Judges.{by_number};
ghost use Rattle.rv_run.specs.Script.{FailsToRead, HasAllCalls, HasFault, HasFirstCalls, IsFrontInOrder, IsInOrder, PassesLimit, Runs, Writes, output};
ghost use Rattle.rv_run.specs.Making.{FitsScript};
ghost use Rattle.rv_run.specs.Performing.{Hinders, IsPerformed, Performs, Stops, calls_status, reading_status, script_status, Told};
ghost use Rattle.rv_run.specs.Phases.{FirstPhasesUnder, PhasesUnder};
ghost use Rattle.rv_run.specs.Ruling.{CallsUnder, FirstCallsUnder, fresh, judging, settings_of};
ghost use Rattle.rv_run.specs.declared.status.Over.{Over as Limits};
ghost use Rattle.rv_script.specs.declared.scripts.ScriptFault.{ScriptFault as Faults};

use crate::calls::make_calls;
use crate::calls_by_threads::make_calls_by_threads;
use crate::judges::Judges;
use crate::status::{Over, Status};
use rv_believed::laws::same_are_legal;
use rv_core::Core;
use rv_gen::{generate, summary_of, write_summary};
use rv_io::{Failed, ReadFault, Sink, Source, read_all};
use rv_judge::{Judge, Uncounted};
use rv_model::Entry;
use rv_phases::Phased;
use rv_reader::{Reader, Store};
use rv_script::{Script, ScriptFault, read_script, write_text};
use rv_shared::Gate;
use rv_value::{NoMemory, Text};
use rv_words::{Asked, accepted, asked};
use std::alloc::Global;
use std::sync::Wait;
use std::thread::Threads;

/// The end of a run, with the core that it made.
#[derive(Drop)]
pub struct Ran<P: Store + Reader<Ledger = Uncounted> + Drop> {
    pub status: Status,
    pub core: Option<Core<P>>,
}

/// The greatest number of bytes of a script.
const LIMIT: u32 = 16_777_216;

/// All that the program does: it reads a script, or generates one, makes its calls over the store, and writes the
/// transcript, or of a generated script the summary. `words` are those of the command line behind the program's name, and
/// `judges` those of the numbers 0 to 2, of which the words ask one to rule first. Where the words ask threads, each phase has
/// a thread for each session that has calls in it, and workers beside them, all of which end before the next phase begins;
/// `gate` is told how far they are, and has to return. Where threads are asked the call may wait, and what it promises holds if
/// it returns. The status says how it ended.
pub fn run<
    R: Threads + Wait + Sync,
    P: Store + Reader<Ledger = Uncounted> + Send + Drop,
    S: Source,
    K: Sink,
    G: Gate + Sync,
>(
    rt: &R,
    alloc: Global,
    store: P,
    words: &[Text],
    source: &mut S,
    sink: &mut K,
    judges: Vec<Box<dyn Judge>>,
    gate: &G,
) -> Ran<P>
    requires tables { (P.shown store).tables ≡ 0 }
    requires newest { (P.shown store).newest ≡ 0 }
    requires judges { length judges.items ≡ 3 }

    // The output of one legal history of a one-thread database was written, which holds each session's calls, each
    // once, in its order and phase: the transcript, or of a generated script the summary.
    ensures done { (asked : Askings) → Ask words.now asked → result.status ≡ Status.Done → IsSomeAnd result.core (λ core. Writes asked.seed (S.left source.old) (Appends (K.written sink.old) (K.written sink.new)) HasAllCalls core.engine.history) }

    // Nothing was written, or the output of a legal history of each session's first calls.
    ensures memory { (asked : Askings) → Ask words.now asked → result.status ≡ Status.Memory → IfSome result.core (λ core. Writes asked.seed (S.left source.old) (Appends (K.written sink.old) (K.written sink.new)) HasFirstCalls core.engine.history) }

    // Exactly where the words are not accepted, and then nothing is read.
    ensures usage { (result.status ≡ Status.Usage) ↔ ¬ (AreAccepted words.now) }
    ensures unasked { result.status ≡ Status.Usage → source.new ≡ source.old }
    ensures script { (fault : Faults) → result.status ≡ Status.Script fault → HasFault (S.left source.old) (S.left source.new) fault }
    ensures limit { (over : Limits) → result.status ≡ Status.Limit over → PassesLimit (S.left source.old) (S.left source.new) over }
    ensures read { result.status ≡ Status.ReadFault → FailsToRead (S.left source.old) (S.left source.new) (S.faults source.old) (S.faults source.new) }
    ensures write { result.status ≡ Status.WriteFault → Rose (K.faults sink.old) (K.faults sink.new) }
    ensures front { (asked : Askings) → Ask words.now asked → result.status ≡ Status.WriteFault → IsSomeAnd result.core (λ core. Writes asked.seed (S.left source.old) (AppendsFront (K.written sink.old) (K.written sink.new)) HasFirstCalls core.engine.history) }

    // However it ends, at most one byte more than the limit is taken; and all is read before the first call.
    ensures taken { TakesUpTo (S.left source.old) (S.left source.new) 16777217 }
    ensures all_read { (asked : Askings) → Ask words.now asked → asked.seed ≡ None → IsSome result.core → IsAtEnd (S.left source.new) }

    // A generated script has no fault, and nothing is read for it.
    ensures generated { (asked : Askings) → Ask words.now asked → IsSome asked.seed → IsPerformed result.status }
    ensures unread { (asked : Askings) → Ask words.now asked → IsSome asked.seed → source.new ≡ source.old }

    // A run that ended before the calls has no core, and wrote nothing.
    ensures called { IsSome result.core → IsPerformed result.status }
    ensures early { result.core ≡ None → sink.new ≡ sink.old }

    // Without threads the calls stand in the script's order, and each was made under the judge of its phase, over the store
    // that was handed in: under the judge that the phase names, else under the one before, and first under the one that the
    // words ask.
    ensures order { (asked : Askings) → Ask words.now asked → asked.threads ≡ false → result.status ≡ Status.Done → IsSomeAnd result.core (λ core. Runs asked.seed (S.left source.old) (IsInOrder core.engine.history)) }
    ensures order_first { (asked : Askings) → Ask words.now asked → asked.threads ≡ false → IfSome result.core (λ core. Runs asked.seed (S.left source.old) (IsFrontInOrder core.engine.history)) }
    ensures ruled { (asked : Askings) → Ask words.now asked → asked.threads ≡ false → result.status ≡ Status.Done → IsSomeAnd result.core (λ core. Runs asked.seed (S.left source.old) (CallsUnder (λ s. P.shown s) (settings_of asked) store (map (λ j. judging (would j) (state j)) judges.items) asked.judge core.engine)) }
    ensures ruled_first { (asked : Askings) → Ask words.now asked → asked.threads ≡ false → IfSome result.core (λ core. Runs asked.seed (S.left source.old) (FirstCallsUnder (λ s. P.shown s) (settings_of asked) store (map (λ j. judging (would j) (state j)) judges.items) asked.judge core.engine)) }

    // With threads some order of events leads from a fresh core over that store, phase after phase, to the core at the end:
    // calls and their parts, takes, gives and sweeps, each of a phase's under its judge.
    ensures led { (asked : Askings) → Ask words.now asked → asked.threads ≡ true → result.status ≡ Status.Done → IsSomeAnd result.core (λ core. Runs asked.seed (S.left source.old) (PhasesUnder (λ s. P.shown s) (settings_of asked) store (map (λ j. judging (would j) (state j)) judges.items) asked.judge core.engine)) }
    ensures led_first { (asked : Askings) → Ask words.now asked → asked.threads ≡ true → IfSome result.core (λ core. Runs asked.seed (S.left source.old) (FirstPhasesUnder (λ s. P.shown s) (settings_of asked) store (map (λ j. judging (would j) (state j)) judges.items) asked.judge core.engine)) }

    // The core that comes back has the settings that the words ask, under which each call was made (`ruled`, with threads
    // `led`): so many background steps beside each foreground step, and races where they are asked.
    ensures settings { (asked : Askings) → Ask words.now asked → IfSome result.core (λ core. core.settings ≡ settings_of asked) }
{
    match begin(alloc, words, source) {
        Ok(begun) => {
            let Begun { asked, script } = begun;
            perform_asked(rt, alloc, store, asked, script, sink, judges, gate)
        }
        Err(status) => {
            drop(store);
            drop(judges);
            ended(status)
        }
    }
}

/// All that the program does: it reads a script, or generates one, makes its calls over the store, and writes the
/// transcript, or of a generated script the summary. `words` are those of the command line behind the program's name, and
/// `judges` those of the numbers 0 to 2, of which the words ask one to rule first. It starts no threads, though the words ask
/// them; `run` does. The status says how it ended.
pub fn run_plain<P: Store + Reader<Ledger = Uncounted> + Drop, S: Source, K: Sink>(
    alloc: Global,
    store: P,
    words: &[Text],
    source: &mut S,
    sink: &mut K,
    judges: Vec<Box<dyn Judge>>,
) -> Ran<P>
    requires tables { (P.shown store).tables ≡ 0 }
    requires newest { (P.shown store).newest ≡ 0 }
    requires judges { length judges.items ≡ 3 }

    // The output of one legal history of a one-thread database was written, which holds each session's calls, each
    // once, in its order and phase: the transcript, or of a generated script the summary. They stand in the script's order.
    ensures done { (asked : Askings) → Ask words.now asked → result.status ≡ Status.Done → IsSomeAnd result.core (λ core. Writes asked.seed (S.left source.old) (Appends (K.written sink.old) (K.written sink.new)) HasAllCalls core.engine.history) }
    ensures order { (asked : Askings) → Ask words.now asked → result.status ≡ Status.Done → IsSomeAnd result.core (λ core. Runs asked.seed (S.left source.old) (IsInOrder core.engine.history)) }

    // Nothing was written, or the output of a legal history of the first calls, in the script's order.
    ensures memory { (asked : Askings) → Ask words.now asked → result.status ≡ Status.Memory → IfSome result.core (λ core. Writes asked.seed (S.left source.old) (Appends (K.written sink.old) (K.written sink.new)) HasFirstCalls core.engine.history) }
    ensures order_first { (asked : Askings) → Ask words.now asked → IfSome result.core (λ core. Runs asked.seed (S.left source.old) (IsFrontInOrder core.engine.history)) }

    // Exactly where the words are not accepted, and then nothing is read.
    ensures usage { (result.status ≡ Status.Usage) ↔ ¬ (AreAccepted words.now) }
    ensures unasked { result.status ≡ Status.Usage → source.new ≡ source.old }
    ensures script { (fault : Faults) → result.status ≡ Status.Script fault → HasFault (S.left source.old) (S.left source.new) fault }
    ensures limit { (over : Limits) → result.status ≡ Status.Limit over → PassesLimit (S.left source.old) (S.left source.new) over }
    ensures read { result.status ≡ Status.ReadFault → FailsToRead (S.left source.old) (S.left source.new) (S.faults source.old) (S.faults source.new) }
    ensures write { result.status ≡ Status.WriteFault → Rose (K.faults sink.old) (K.faults sink.new) }
    ensures front { (asked : Askings) → Ask words.now asked → result.status ≡ Status.WriteFault → IsSomeAnd result.core (λ core. Writes asked.seed (S.left source.old) (AppendsFront (K.written sink.old) (K.written sink.new)) HasFirstCalls core.engine.history) }

    // However it ends, at most one byte more than the limit is taken; and all is read before the first call.
    ensures taken { TakesUpTo (S.left source.old) (S.left source.new) 16777217 }
    ensures all_read { (asked : Askings) → Ask words.now asked → asked.seed ≡ None → IsSome result.core → IsAtEnd (S.left source.new) }

    // A generated script has no fault, and nothing is read for it.
    ensures generated { (asked : Askings) → Ask words.now asked → IsSome asked.seed → IsPerformed result.status }
    ensures unread { (asked : Askings) → Ask words.now asked → IsSome asked.seed → source.new ≡ source.old }

    // A run that ended before the calls has no core, and wrote nothing.
    ensures called { IsSome result.core → IsPerformed result.status }
    ensures early { result.core ≡ None → sink.new ≡ sink.old }

    // Each call was made under the judge of its phase, over the store that was handed in: under the judge that the phase
    // names, else under the one before, and first under the one that the words ask.
    ensures ruled { (asked : Askings) → Ask words.now asked → result.status ≡ Status.Done → IsSomeAnd result.core (λ core. Runs asked.seed (S.left source.old) (CallsUnder (λ s. P.shown s) (settings_of asked) store (map (λ j. judging (would j) (state j)) judges.items) asked.judge core.engine)) }
    ensures ruled_first { (asked : Askings) → Ask words.now asked → IfSome result.core (λ core. Runs asked.seed (S.left source.old) (FirstCallsUnder (λ s. P.shown s) (settings_of asked) store (map (λ j. judging (would j) (state j)) judges.items) asked.judge core.engine)) }

    // The core that comes back has the settings that the words ask, under which each call was made (`ruled`).
    ensures settings { (asked : Askings) → Ask words.now asked → IfSome result.core (λ core. core.settings ≡ settings_of asked) }
{
    match begin(alloc, words, source) {
        Ok(begun) => {
            let Begun { asked, script } = begun;
            perform(alloc, store, asked, script, sink, judges)
        }
        Err(status) => {
            drop(store);
            drop(judges);
            ended(status)
        }
    }
}

/// What a run begins with: what its words ask, and the script.
#[derive(Drop)]
struct Begun {
    asked: Asked,
    script: Script,
}

/// Reads the words and then the script, or makes it; or tells how a run ends that has none.
fn begin<S: Source>(alloc: Global, words: &[Text], source: &mut S) -> Result<Begun, Status>
    ensures only { IfOk result (λ b. (asked : Askings) → Ask words.now asked → asked ≡ b.asked) }
    ensures within { IfOk result (λ b. AreWithin b.asked) }
    ensures script { IfOk result (λ b. Runs b.asked.seed (S.left source.old) (λ told. told ≡ b.script)) }
    ensures fits { IfOk result (λ b. FitsScript b.script) }
    ensures all_read { IfOk result (λ b. b.asked.seed ≡ None → IsAtEnd (S.left source.new)) }
    ensures taken { TakesUpTo (S.left source.old) (S.left source.new) 16777217 }
    ensures accepted { IsOk result → AreAccepted words.now }
    ensures usage { ¬ (AreAccepted words.now) → result ≡ Err Status.Usage }
    ensures unasked { result ≡ Err Status.Usage → source.new ≡ source.old }
    ensures fault { IfErr result (Stops words.now (S.left source.old) (S.left source.new) (S.faults source.old) (S.faults source.new)) }
    ensures generated { (asked : Askings) → Ask words.now asked → IsSome asked.seed → IfErr result (λ status. status ≡ Status.Memory) }
    ensures unread { (asked : Askings) → Ask words.now asked → IsSome asked.seed → source.new ≡ source.old }
{
    if !accepted(words) {
        return Err(Status::Usage);
    }
    let Ok(asked) = asked(alloc, words) else {
        return Err(Status::Memory);
    };
    match script_to_run(alloc, asked.seed, source) {
        Ok(script) => Ok(Begun { asked, script }),
        Err(status) => Err(status),
    }
}

/// The script to run: the generated one of a seed, else the one that the source tells.
fn script_to_run<S: Source>(
    alloc: Global,
    seed: Option<u32>,
    source: &mut S,
) -> Result<Script, Status>
    ensures script { IfOk result (λ script. Runs seed (S.left source.old) (λ told. told ≡ script)) }
    ensures fits { IfOk result FitsScript }
    ensures all_read { seed ≡ None → IsOk result → IsAtEnd (S.left source.new) }
    ensures taken { TakesUpTo (S.left source.old) (S.left source.new) 16777217 }
    ensures fault { IfErr result (Hinders (S.left source.old) (S.left source.new) (S.faults source.old) (S.faults source.new)) }
    ensures generated { IsSome seed → IfErr result (λ status. status ≡ Status.Memory) }
    ensures unread { IsSome seed → source.new ≡ source.old }
{
    match seed {
        Some(seed) => generated_script(alloc, seed),
        None => read_input(alloc, source),
    }
}

/// The generated script of a seed.
#[tactic(auto, using(crate::proofs::Fits::generated_fits))]
fn generated_script(alloc: Global, seed: u32) -> Result<Script, Status>
    ensures script { IfOk result (λ script. script ≡ workload_of seed) }
    ensures fits { IfOk result FitsScript }
    ensures fault { IfErr result (λ status. status ≡ Status.Memory) }
{
    match generate(alloc, seed) {
        Ok(script) => Ok(script),
        Err(NoMemory) => Err(Status::Memory),
    }
}

/// The script that the source tells.
fn read_input<S: Source>(alloc: Global, source: &mut S) -> Result<Script, Status>
    ensures script { IfOk result (λ script. Told (S.left source.old) (λ told. told ≡ script)) }
    ensures fits { IfOk result FitsScript }
    ensures all_read { IsOk result → IsAtEnd (S.left source.new) }
    ensures taken { TakesUpTo (S.left source.old) (S.left source.new) 16777217 }
    ensures fault { IfErr result (Hinders (S.left source.old) (S.left source.new) (S.faults source.old) (S.faults source.new)) }
{
    let bytes = match read_all(alloc, source, LIMIT) {
        Ok(bytes) => bytes,
        Err(fault) => return Err(after_reading(fault)),
    };
    match read_script(alloc, &bytes) {
        Ok(script) => Ok(script),
        Err(fault) => Err(after_script(fault)),
    }
}

/// How a run ends whose input was not read.
fn after_reading(fault: ReadFault) -> Status
    ensures { result ≡ reading_status fault }
{
    match fault {
        ReadFault::Failed => Status::ReadFault,
        ReadFault::TooBig => Status::Limit(Over::Bytes),
        ReadFault::NoMemory => Status::Memory,
    }
}

/// How a run ends whose input is no script.
pub(crate) fn after_script(fault: ScriptFault) -> Status
    ensures { result ≡ script_status fault }
{
    match fault {
        ScriptFault::NoSession { line } => Status::Script(ScriptFault::NoSession { line }),
        ScriptFault::NotText { offset } => Status::Script(ScriptFault::NotText { offset }),
        ScriptFault::TooLong { line } => Status::Limit(Over::Line(line)),
        ScriptFault::TooMany { .. } => Status::Limit(Over::Lines),
        ScriptFault::NoMemory => Status::Memory,
    }
}

/// An end with nothing called.
pub(crate) fn ended<P: Store + Reader<Ledger = Uncounted> + Drop>(status: Status) -> Ran<P>
    ensures status { result.status ≡ status }
    ensures core { result.core ≡ None }
{
    Ran { status, core: None }
}

/// Makes the calls of a script under the judges, one after another, and writes what is to be written of them.
fn perform<P: Store + Reader<Ledger = Uncounted> + Drop, K: Sink>(
    alloc: Global,
    store: P,
    asked: Asked,
    script: Script,
    sink: &mut K,
    judges: Vec<Box<dyn Judge>>,
) -> Ran<P>
    requires tables { (P.shown store).tables ≡ 0 }
    requires newest { (P.shown store).newest ≡ 0 }
    requires judges { length judges.items ≡ 3 }
    requires known { asked.judge < 3 }
    requires fits { FitsScript script }
    ensures done { result.status ≡ Status.Done → IsSomeAnd result.core (λ core. Performs asked.seed (Appends (K.written sink.old) (K.written sink.new)) HasAllCalls script core.engine.history) }
    ensures order { result.status ≡ Status.Done → IsSomeAnd result.core (λ core. IsInOrder core.engine.history script) }
    ensures memory { result.status ≡ Status.Memory → IsSomeAnd result.core (λ core. Performs asked.seed (Appends (K.written sink.old) (K.written sink.new)) HasFirstCalls script core.engine.history) }
    ensures order_first { IsSomeAnd result.core (λ core. IsFrontInOrder core.engine.history script) }
    ensures front { result.status ≡ Status.WriteFault → IsSomeAnd result.core (λ core. Performs asked.seed (AppendsFront (K.written sink.old) (K.written sink.new)) HasFirstCalls script core.engine.history) }
    ensures write { result.status ≡ Status.WriteFault → Rose (K.faults sink.old) (K.faults sink.new) }
    ensures ruled { result.status ≡ Status.Done → IsSomeAnd result.core (λ core. CallsUnder (λ s. P.shown s) (settings_of asked) store (map (λ j. judging (would j) (state j)) judges.items) asked.judge core.engine script) }
    ensures ruled_first { IsSomeAnd result.core (λ core. FirstCallsUnder (λ s. P.shown s) (settings_of asked) store (map (λ j. judging (would j) (state j)) judges.items) asked.judge core.engine script) }
    ensures kinds { IsPerformed result.status }
    ensures core { IsSomeAnd result.core (λ core. core.settings ≡ settings_of asked) }
{
    let (mut core, mut judges) = judged_core(alloc, store, asked, judges, calls_of(&script));
    let Script { phases } = script;
    let called = make_calls(&mut core, &mut judges, phases.into_vec()).is_ok();
    drop(judges);
    written(sink, asked.seed, core, called)
}

/// Makes the calls of a script under the judges, by threads where they are asked, and writes what is to be written of them.
fn perform_asked<
    R: Threads + Wait + Sync,
    P: Store + Reader<Ledger = Uncounted> + Send + Drop,
    K: Sink,
    G: Gate + Sync,
>(
    rt: &R,
    alloc: Global,
    store: P,
    asked: Asked,
    script: Script,
    sink: &mut K,
    judges: Vec<Box<dyn Judge>>,
    gate: &G,
) -> Ran<P>
    requires tables { (P.shown store).tables ≡ 0 }
    requires newest { (P.shown store).newest ≡ 0 }
    requires judges { length judges.items ≡ 3 }
    requires known { asked.judge < 3 }
    requires workers { asked.workers ≤ 8 }
    requires fits { FitsScript script }
    ensures done { result.status ≡ Status.Done → IsSomeAnd result.core (λ core. Performs asked.seed (Appends (K.written sink.old) (K.written sink.new)) HasAllCalls script core.engine.history) }
    ensures memory { result.status ≡ Status.Memory → IsSomeAnd result.core (λ core. Performs asked.seed (Appends (K.written sink.old) (K.written sink.new)) HasFirstCalls script core.engine.history) }
    ensures front { result.status ≡ Status.WriteFault → IsSomeAnd result.core (λ core. Performs asked.seed (AppendsFront (K.written sink.old) (K.written sink.new)) HasFirstCalls script core.engine.history) }
    ensures write { result.status ≡ Status.WriteFault → Rose (K.faults sink.old) (K.faults sink.new) }
    ensures order { asked.threads ≡ false → result.status ≡ Status.Done → IsSomeAnd result.core (λ core. IsInOrder core.engine.history script) }
    ensures order_first { asked.threads ≡ false → IsSomeAnd result.core (λ core. IsFrontInOrder core.engine.history script) }
    ensures ruled { asked.threads ≡ false → result.status ≡ Status.Done → IsSomeAnd result.core (λ core. CallsUnder (λ s. P.shown s) (settings_of asked) store (map (λ j. judging (would j) (state j)) judges.items) asked.judge core.engine script) }
    ensures ruled_first { asked.threads ≡ false → IsSomeAnd result.core (λ core. FirstCallsUnder (λ s. P.shown s) (settings_of asked) store (map (λ j. judging (would j) (state j)) judges.items) asked.judge core.engine script) }
    ensures led { asked.threads ≡ true → result.status ≡ Status.Done → IsSomeAnd result.core (λ core. PhasesUnder (λ s. P.shown s) (settings_of asked) store (map (λ j. judging (would j) (state j)) judges.items) asked.judge core.engine script) }
    ensures led_first { asked.threads ≡ true → IsSomeAnd result.core (λ core. FirstPhasesUnder (λ s. P.shown s) (settings_of asked) store (map (λ j. judging (would j) (state j)) judges.items) asked.judge core.engine script) }
    ensures kinds { IsPerformed result.status }
    ensures core { IsSomeAnd result.core (λ core. core.settings ≡ settings_of asked) }
{
    if asked.threads {
        perform_by_threads(rt, alloc, store, asked, script, sink, judges, gate)
    } else {
        perform(alloc, store, asked, script, sink, judges)
    }
}

/// Makes the calls of a script under the judges, those of each phase by threads, and writes what is to be written of them.
fn perform_by_threads<
    R: Threads + Wait + Sync,
    P: Store + Reader<Ledger = Uncounted> + Send + Drop,
    K: Sink,
    G: Gate + Sync,
>(
    rt: &R,
    alloc: Global,
    store: P,
    asked: Asked,
    script: Script,
    sink: &mut K,
    judges: Vec<Box<dyn Judge>>,
    gate: &G,
) -> Ran<P>
    requires tables { (P.shown store).tables ≡ 0 }
    requires newest { (P.shown store).newest ≡ 0 }
    requires judges { length judges.items ≡ 3 }
    requires known { asked.judge < 3 }
    requires workers { asked.workers ≤ 8 }
    requires fits { FitsScript script }
    ensures done { result.status ≡ Status.Done → IsSomeAnd result.core (λ core. Performs asked.seed (Appends (K.written sink.old) (K.written sink.new)) HasAllCalls script core.engine.history) }
    ensures memory { result.status ≡ Status.Memory → IsSomeAnd result.core (λ core. Performs asked.seed (Appends (K.written sink.old) (K.written sink.new)) HasFirstCalls script core.engine.history) }
    ensures front { result.status ≡ Status.WriteFault → IsSomeAnd result.core (λ core. Performs asked.seed (AppendsFront (K.written sink.old) (K.written sink.new)) HasFirstCalls script core.engine.history) }
    ensures write { result.status ≡ Status.WriteFault → Rose (K.faults sink.old) (K.faults sink.new) }
    ensures led { result.status ≡ Status.Done → IsSomeAnd result.core (λ core. PhasesUnder (λ s. P.shown s) (settings_of asked) store (map (λ j. judging (would j) (state j)) judges.items) asked.judge core.engine script) }
    ensures led_first { IsSomeAnd result.core (λ core. FirstPhasesUnder (λ s. P.shown s) (settings_of asked) store (map (λ j. judging (would j) (state j)) judges.items) asked.judge core.engine script) }
    ensures kinds { IsPerformed result.status }
    ensures core { IsSomeAnd result.core (λ core. core.settings ≡ settings_of asked) }
{
    let (core, mut judges) = judged_core(alloc, store, asked, judges, calls_of(&script));
    let Phased { core, short } = make_calls_by_threads(
        rt,
        alloc,
        core,
        &mut judges,
        script.phases.as_slice(),
        u32::from(asked.workers),
        gate,
    );
    drop(script);
    drop(judges);
    written(sink, asked.seed, core, !short)
}

/// How many calls a script has.
fn calls_of(script: &Script) -> usize {
    let mut calls = 0usize;
    for phase in script.phases.as_slice() {
        calls = calls.saturating_add(phase.lines.len());
    }
    calls
}

/// A core over the store under the judge that the words ask, with room for the history of so many calls where it is found,
/// and the judges beside it.
pub(crate) fn judged_core<P: Store + Reader<Ledger = Uncounted> + Drop>(
    alloc: Global,
    store: P,
    asked: Asked,
    judges: Vec<Box<dyn Judge>>,
    calls: usize,
) -> (Core<P>, Judges)
    requires tables { (P.shown store).tables ≡ 0 }
    requires newest { (P.shown store).newest ≡ 0 }
    requires three { length judges.items ≡ 3 }
    requires known { asked.judge < 3 }
    ensures fresh { result.0.engine ≡ fresh store }
    ensures all { by_number result.1.places.zero result.1.places.one result.1.places.two result.0.judge ≡ judges.items }
    ensures ruling { result.1.ruling ≡ asked.judge }
    ensures settings { result.0.settings ≡ settings_of asked }
{
    let (judges, first) = Judges::new(judges, asked.judge);
    let mut core = Core::new(alloc, store, first, asked.race, asked.steps);
    core.make_room(calls);
    (core, judges)
}

/// Writes what is to be written of a core's history; how a run ends that called all, or that wanted memory.
fn written<P: Store + Reader<Ledger = Uncounted> + Drop, K: Sink>(
    sink: &mut K,
    seed: Option<u32>,
    core: Core<P>,
    called: bool,
) -> Ran<P>
    requires { 0 ≤ core.engine.phase }
    ensures core { result.core ≡ Some core }
    ensures legal { IsLegal core.engine.history }
    ensures kinds { IsPerformed result.status }
    ensures done { result.status ≡ Status.Done → called ≡ true }
    ensures whole { result.status ≢ Status.WriteFault → Appends (K.written sink.old) (K.written sink.new) (output seed core.engine.history) }
    ensures front { result.status ≡ Status.WriteFault → AppendsFront (K.written sink.old) (K.written sink.new) (output seed core.engine.history) }
    ensures write { result.status ≡ Status.WriteFault → Rose (K.faults sink.old) (K.faults sink.new) }
{
    let status = match write_output(sink, seed, legal_history(&core)) {
        Ok(()) => after_calls(called),
        Err(_failed) => Status::WriteFault,
    };
    Ran {
        status,
        core: Some(core),
    }
}

/// The history of a core, which is legal in the words that a reader believes.
pub(crate) fn legal_history<P: Store + Reader<Ledger = Uncounted> + Drop>(
    core: &Core<P>,
) -> &[Entry]
    ensures same { result.now ≡ core.now.engine.history }
    ensures legal { IsLegal core.now.engine.history }
{
    same_are_legal();
    core.history()
}

/// Writes the transcript of a history, or of a generated run the summary.
fn write_output<K: Sink>(sink: &mut K, seed: Option<u32>, entries: &[Entry]) -> Result<(), Failed>
    ensures { Goes (Ok tt) (K.written sink.old) (K.written sink.new) (K.faults sink.old) (K.faults sink.new) result (output seed entries.now) }
{
    match seed {
        None => write_text(sink, entries),
        Some(_seed) => write_summary(sink, &summary_of(entries)),
    }
}

/// How a run ends whose output was written.
fn after_calls(called: bool) -> Status
    ensures { result ≡ calls_status called }
{
    if called { Status::Done } else { Status::Memory }
}
