//! The second top call: the lines of a source, each answered before the next one is read.
ghost use Rattle.std.specs.Prelude.{◌≡◌, ◌≢◌, ◌≤◌, ◌↔◌, ◌⊎◌, [], IfErr, IfOk, IfSome, IsErrOf, IsOk, IsSomeAnd, IsTrue, None, OnErr, OnOk, Some, drop, false, length, map};
ghost use Rattle.std.specs.Io.KnownBytes.{Appends, IsAtEnd};
ghost use Rattle.rv_io.specs.Causes.{Rose};
ghost use Rattle.rv_io.specs.Pieces.{AppendsFront};
ghost use Rattle.rv_model.specs.Transcript.{text};
ghost use Rattle.rv_believed.specs.History.{IsLegal};
ghost use Rattle.rv_words.specs.declared.choices.Asked.{Asked as Askings};
ghost use Rattle.rv_words.specs.Words.{AreWithin, Ask};
ghost use Rattle.rv_script.specs.Drafts.{said_by};
ghost use Rattle.rv_script.specs.Lines.{LineFault};
ghost use Rattle.rv_script.specs.declared.scripts.ScriptFault.{ScriptFault as Faults};
ghost use Rattle.rv_run.specs.declared.status.Over.{Over as Limits};
ghost use Rattle.rv_run.specs.Judges.{by_number};
ghost use Rattle.rv_run.specs.Making.{FitsSaying};
ghost use Rattle.rv_run.specs.Ruling.{AnswersAll, AnswersFirst, CallsUnder, FirstCallsUnder, between, judging, ruled_from, settings_of};
ghost use Rattle.rv_run.specs.Script.{HasAllCalls, IsInOrder, Runs, Writes, IsScriptFault};
ghost use Rattle.rv_run.specs.Serving.{AskService, EndsSo, HasFaultyLine, IfDone, Makes, PassesLine, Serves, ServesAll, ServesLine, WrittenBy, line_status, stop_status};

use crate::calls::{enter_phase, make_call};
use crate::judges::Judges;
use crate::status::{Over, Status};
use crate::top::{Ran, after_script, ended, judged_core, legal_history};
use rv_core::Core;
use rv_io::{Failed, Flush, ReadFault, Source, read_line};
use rv_judge::{Judge, Uncounted};
use rv_model::Entry;
use rv_reader::{Reader, Store};
use rv_script::{Form, Line, ScriptFault, read_saying, write_text};
use rv_value::{NoMemory, Text};
use rv_words::{Asked, accepted, asked};
use std::alloc::Global;

/// The greatest number of bytes of a line that is not ended yet: of a byte order mark, of the line, and of its CR.
const LINE: usize = 4100;

/// The greatest number of bytes of all lines: that of a script.
const LIMIT: u32 = 16_777_216;

/// Serves the lines of a source, which are those of a script: each is answered, its call and its reply are written to the sink and
/// handed on, and then the next one is read. `words` are those of the command line, which ask neither threads nor a
/// generated script; `judges` are as in `run`. A line that passes a limit or is of no listed form ends the service, as does the
/// end of input. The status says how it ended.
pub fn serve<P: Store + Reader<Ledger = Uncounted> + Drop, S: Source, K: Flush>(
    alloc: Global,
    store: P,
    words: &[Text],
    source: &mut S,
    sink: &mut K,
    judges: Vec<Box<dyn Judge>>,
) -> Ran<P>
    requires tables { (P.shown store).tables ≡ 0 }
    requires newest { (P.shown store).newest ≡ 0 }
    requires judges { length judges.items ≡ 3 }

    // What was written is the transcript of one legal history of a one-thread database; after a write that failed, a front of it.
    ensures legal { IfSome result.core (λ core. IsLegal core.engine.history) }
    ensures whole { result.status ≢ Status.WriteFault → IfSome result.core (λ core. Appends (K.written sink.old) (K.written sink.new) (text core.engine.history)) }
    ensures front { result.status ≡ Status.WriteFault → IfSome result.core (λ core. AppendsFront (K.written sink.old) (K.written sink.new) (text core.engine.history)) }

    // However it ended, its calls are those of the lines that were served, which are a script: in its order and phases, each
    // made under the judge of its phase, over the store that was handed in.
    ensures served { (asked : Askings) → Ask words.now asked → IfSome result.core (λ core. Serves (S.left source.old) (S.left source.new) (λ script. IsInOrder core.engine.history script × FirstCallsUnder (λ s. P.shown s) (settings_of asked) store (map (λ j. judging (would j) (state j)) judges.items) asked.judge core.engine script)) }

    // At the end of input these are all that the source told, and what was written is what `run` would write of them.
    ensures done { result.status ≡ Status.Done → IsSomeAnd result.core (λ core. Writes None (S.left source.old) (Appends (K.written sink.old) (K.written sink.new)) HasAllCalls core.engine.history) }
    ensures order { result.status ≡ Status.Done → IsSomeAnd result.core (λ core. Runs None (S.left source.old) (IsInOrder core.engine.history)) }
    ensures ruled { (asked : Askings) → Ask words.now asked → result.status ≡ Status.Done → IsSomeAnd result.core (λ core. Runs None (S.left source.old) (CallsUnder (λ s. P.shown s) (settings_of asked) store (map (λ j. judging (would j) (state j)) judges.items) asked.judge core.engine)) }
    ensures end { result.status ≡ Status.Done → IsAtEnd (S.left source.new) }

    // Where the words are not for a service it says so, or that memory was wanting to read them.
    ensures usage { result.status ≡ Status.Usage → ¬ (AskService words.now) }
    ensures refused { ¬ (AskService words.now) → (result.status ≡ Status.Usage) ⊎ (result.status ≡ Status.Memory) }

    // All lines before the next one were served, and with it they have that first fault, or pass that limit; a fault of a stream
    // was counted.
    ensures script { (fault : Faults) → result.status ≡ Status.Script fault → IsScriptFault fault × IsSomeAnd result.core (λ core. HasFaultyLine (S.left source.old) (S.left source.new) (IsInOrder core.engine.history) fault) }
    ensures limit { (over : Limits) → result.status ≡ Status.Limit over → IsSomeAnd result.core (λ core. PassesLine (S.left source.old) (S.left source.new) (IsInOrder core.engine.history) over) }
    ensures read { result.status ≡ Status.ReadFault → Rose (S.faults source.old) (S.faults source.new) }
    ensures write { result.status ≡ Status.WriteFault → Rose (K.faults sink.old) (K.faults sink.new) }

    // Without a core nothing was read or written.
    ensures early { result.core ≡ None → (source.new ≡ source.old) × (sink.new ≡ sink.old) }

    // So many background steps may follow each foreground step as the words ask, and indexes race where they ask it.
    ensures settings { (asked : Askings) → Ask words.now asked → IfSome result.core (λ core. core.settings ≡ settings_of asked) }
{
    match asked_of_service(alloc, words) {
        Ok(asked) => {
            let (mut core, mut judges) = judged_core(alloc, store, asked, judges, 0);
            let status = serve_lines(alloc, &mut core, &mut judges, source, sink);
            drop(judges);
            with_core(status, core)
        }
        Err(status) => {
            drop(store);
            drop(judges);
            ended(status)
        }
    }
}

/// What the words ask of a service; or how it ends.
fn asked_of_service(alloc: Global, words: &[Text]) -> Result<Asked, Status>
    ensures only { IfOk result (λ asked. (other : Askings) → Ask words.now other → other ≡ asked) }
    ensures within { IfOk result AreWithin }
    ensures service { IsOk result → AskService words.now }
    ensures fault { IfErr result (λ status. ((status ≡ Status.Usage) × ¬ (AskService words.now)) ⊎ (status ≡ Status.Memory)) }
{
    if !accepted(words) {
        return Err(Status::Usage);
    }
    let Ok(asked) = asked(alloc, words) else {
        return Err(Status::Memory);
    };
    if !is_of_service(asked) {
        return Err(Status::Usage);
    }
    Ok(asked)
}

/// Whether neither threads nor a generated script are asked.
fn is_of_service(asked: Asked) -> bool
    ensures { IsTrue result ↔ ((asked.threads ≡ false) × (asked.seed ≡ None)) }
{
    !asked.threads && asked.seed.is_none()
}

/// The end of a service, with the core that it made, whose history is legal.
fn with_core<P: Store + Reader<Ledger = Uncounted> + Drop>(status: Status, core: Core<P>) -> Ran<P>
    requires { 0 ≤ core.engine.phase }
    ensures status { result.status ≡ status }
    ensures core { result.core ≡ Some core }
    ensures legal { IsLegal core.engine.history }
{
    let _history = legal_history(&core);
    Ran {
        status,
        core: Some(core),
    }
}

/// Serves the lines of a source, one after another.
fn serve_lines<P: Store + Reader<Ledger = Uncounted> + Drop, S: Source, K: Flush>(
    alloc: Global,
    core: &mut Core<P>,
    judges: &mut Judges,
    source: &mut S,
    sink: &mut K,
) -> Status
    requires fresh { core.old.engine.history ≡ [] }
    requires phase { core.old.engine.phase ≡ 1 }
    ensures cause { EndsSo (S.left source.old) (S.left source.new) (S.faults source.old) (S.faults source.new) (K.faults sink.old) (K.faults sink.new) (IsInOrder core.new.engine.history) result }
    ensures wrote { WrittenBy result (K.written sink.old) (K.written sink.new) (text core.new.engine.history) }
    ensures served { Serves (S.left source.old) (S.left source.new) (λ script. IsInOrder core.new.engine.history script × AnswersFirst (λ s. P.shown s) core.old.settings (ruled_from judges.old.ruling 1 script.phases) (between core.old.engine (map (λ j. judging (would j) (state j)) (by_number judges.old.places.zero judges.old.places.one judges.old.places.two core.old.judge))) core.new.engine.history) }
    ensures done { IfDone result (ServesAll (S.left source.old) (S.left source.new) (λ script. IsInOrder core.new.engine.history script × AnswersAll (λ s. P.shown s) core.old.settings (ruled_from judges.old.ruling 1 script.phases) (between core.old.engine (map (λ j. judging (would j) (state j)) (by_number judges.old.places.zero judges.old.places.one judges.old.places.two core.old.judge))) (between core.new.engine (map (λ j. judging (would j) (state j)) (by_number judges.new.places.zero judges.new.places.one judges.new.places.two core.new.judge))))) }
    ensures settings { core.new.settings ≡ core.old.settings }
{
    let mut pending = Vec::new(alloc);
    let mut number = 0u32;
    let mut before = 0u32;
    'lines: loop {
        let line = match read_line(alloc, source, &mut pending, LINE) {
            Ok(line) => line,
            Err(fault) => return after_line(fault, number + 1),
        };
        let count = line.bytes.len();
        if count == 0 {
            return Status::Done;
        }
        let room = (LIMIT - before) as usize;
        if count > room {
            return Status::Limit(Over::Bytes);
        }
        match serve_line(alloc, core, judges, sink, &line.bytes, number + 1) {
            Ok(()) => {}
            Err(stop) => return after_stop(stop, before),
        }
        number += 1;
        before += count as u32;
        if !line.ended {
            return Status::Done;
        }
    }
}

/// Why a line ends the service.
#[derive(Drop)]
pub enum Stop {
    /// It is no line of a script. Bytes that are not UTF-8 are counted from its begin.
    Fault(ScriptFault),
    /// Memory was wanting for its call, which was not answered.
    Memory,
    /// The answer could not be written, or not be handed on.
    Write,
}

/// Answers the line of this number, and writes its call and its reply and hands them on.
fn serve_line<P: Store + Reader<Ledger = Uncounted> + Drop, K: Flush>(
    alloc: Global,
    core: &mut Core<P>,
    judges: &mut Judges,
    sink: &mut K,
    bytes: &[u8],
    number: u32,
) -> Result<(), Stop>
    requires few { length bytes.now ≤ 16777216 }
    requires from { 1 ≤ core.old.engine.phase }
    requires to { core.old.engine.phase ≤ 200001 }
    ensures ok { OnOk result (ServesLine (λ s. P.shown s) core.old.settings number bytes.now judges.old.ruling judges.new.ruling (between core.old.engine (map (λ j. judging (would j) (state j)) (by_number judges.old.places.zero judges.old.places.one judges.old.places.two core.old.judge))) (between core.new.engine (map (λ j. judging (would j) (state j)) (by_number judges.new.places.zero judges.new.places.one judges.new.places.two core.new.judge))) (Appends (K.written sink.old) (K.written sink.new))) }
    ensures write { IsErrOf result Stop.Write → ServesLine (λ s. P.shown s) core.old.settings number bytes.now judges.old.ruling judges.new.ruling (between core.old.engine (map (λ j. judging (would j) (state j)) (by_number judges.old.places.zero judges.old.places.one judges.old.places.two core.old.judge))) (between core.new.engine (map (λ j. judging (would j) (state j)) (by_number judges.new.places.zero judges.new.places.one judges.new.places.two core.new.judge))) (AppendsFront (K.written sink.old) (K.written sink.new)) }
    ensures rose { IsErrOf result Stop.Write → Rose (K.faults sink.old) (K.faults sink.new) }
    ensures later { K.faults sink.old ≤ K.faults sink.new }
    ensures fault { (fault : Faults) → IsErrOf result (Stop.Fault fault) → LineFault number bytes.now fault }
    ensures unanswered { OnErr result (IsErrOf result Stop.Write ⊎ ((core.new.engine.history ≡ core.old.engine.history) × (sink.new ≡ sink.old))) }
    ensures settings { core.new.settings ≡ core.old.settings }
{
    let form = match read_saying(bytes, number) {
        Ok(form) => form,
        Err(fault) => return Err(Stop::Fault(fault)),
    };
    let from = answered(core);
    let Ok(()) = make_saying(alloc, core, judges, form) else {
        return Err(Stop::Memory);
    };
    match hand_on(sink, entries_from(core, from)) {
        Ok(()) => Ok(()),
        Err(_failed) => Err(Stop::Write),
    }
}

/// How many calls were answered.
fn answered<P: Store + Reader<Ledger = Uncounted> + Drop>(core: &Core<P>) -> usize
    ensures { result ≡ length core.now.engine.history }
{
    core.history().len()
}

/// The entries of the history behind so many.
fn entries_from<P: Store + Reader<Ledger = Uncounted> + Drop>(
    core: &Core<P>,
    from: usize,
) -> &[Entry]
    requires { from ≤ length core.now.engine.history }
    ensures { result.now ≡ drop from core.now.engine.history }
{
    &core.history()[from..]
}

/// Does what a line says.
fn make_saying<P: Store + Reader<Ledger = Uncounted> + Drop>(
    alloc: Global,
    core: &mut Core<P>,
    judges: &mut Judges,
    form: Form<'_>,
) -> Result<(), NoMemory>
    requires from { 1 ≤ core.old.engine.phase }
    requires to { core.old.engine.phase ≤ 200001 }
    requires fits { FitsSaying (said_by form) }
    ensures ok { OnOk result (Makes (λ s. P.shown s) core.old.settings (said_by form.entry) judges.old.ruling judges.new.ruling (between core.old.engine (map (λ j. judging (would j) (state j)) (by_number judges.old.places.zero judges.old.places.one judges.old.places.two core.old.judge))) (between core.new.engine (map (λ j. judging (would j) (state j)) (by_number judges.new.places.zero judges.new.places.one judges.new.places.two core.new.judge)))) }
    ensures err { OnErr result (core.new.engine.history ≡ core.old.engine.history) }
    ensures settings { core.new.settings ≡ core.old.settings }
{
    match form {
        Form::Nothing => Ok(()),
        Form::Call(session, text) => {
            let text = Text::read(alloc, text)?;
            make_call(core, judges, Line { session, text })
        }
        Form::Next(judge) => {
            let number = core.phase();
            enter_phase(core, judges, number, judge);
            Ok(())
        }
    }
}

/// Writes the transcript of entries, and hands it on.
fn hand_on<K: Flush>(sink: &mut K, entries: &[Entry]) -> Result<(), Failed>
    ensures ok { OnOk result (Appends (K.written sink.old) (K.written sink.new) (text entries.now)) }
    ensures err { OnErr result (AppendsFront (K.written sink.old) (K.written sink.new) (text entries.now)) }
    ensures cause { OnErr result (Rose (K.faults sink.old) (K.faults sink.new)) }
    ensures later { K.faults sink.old ≤ K.faults sink.new }
{
    match write_text(sink, entries) {
        Ok(()) => sink.flush(),
        Err(failed) => Err(failed),
    }
}

/// How a service ends at the line of this number, which was not read.
fn after_line(fault: ReadFault, number: u32) -> Status
    ensures { result ≡ line_status fault number }
{
    match fault {
        ReadFault::Failed => Status::ReadFault,
        ReadFault::TooBig => Status::Limit(Over::Line(number)),
        ReadFault::NoMemory => Status::Memory,
    }
}

/// How a service ends at a line behind so many bytes.
fn after_stop(stop: Stop, before: u32) -> Status
    ensures { result ≡ stop_status stop before }
{
    match stop {
        Stop::Fault(fault) => after_script(placed(fault, before)),
        Stop::Memory => Status::Memory,
        Stop::Write => Status::WriteFault,
    }
}

/// The fault of a line behind so many bytes, as one of them all.
fn placed(fault: ScriptFault, before: u32) -> ScriptFault
    ensures { result ≡ Rattle.rv_run.specs.Serving.placed fault before }
{
    match fault {
        ScriptFault::NotText { offset } => ScriptFault::NotText {
            offset: before.saturating_add(offset),
        },
        fault => fault,
    }
}
