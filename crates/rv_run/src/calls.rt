//! The calls of a script, made one after another.
ghost use Rattle.std.specs.Prelude.{◌≡◌, ◌≤◌, ◌<◌, ◌+◌, ◌++◌, ◌∷◌, [], All, IfSome, OnErr, OnOk, length, map, max, unwrap_or};
ghost use Rattle.rv_gen.specs.Workload.{HasCalls, IsCall};
ghost use Rattle.rv_run.specs.Judges.{by_number, ruling_after};
ghost use Rattle.rv_run.specs.Script.{call, calls_from, calls_in, calls_made};
ghost use Rattle.rv_run.specs.Making.{FitsPhase, Keeps, MakesCalls, MakesFirst, MakesUnder};
ghost use Rattle.rv_run.specs.Ruling.{AnswersAll, AnswersFirst, AnswersUnder, between, judging, ruled_by, ruled_from};

use crate::judges::Judges;
use rv_core::Core;
use rv_judge::{Judge, Uncounted};
use rv_reader::{Reader, Store};
use rv_script::{Line, Phase};
use rv_value::NoMemory;

/// Makes the calls of all phases, the first of which is 1, each under the judge that was named last. Their texts go into the
/// history, and are not copied.
pub fn make_calls<S: Store + Reader<Ledger = Uncounted> + Drop>(
    core: &mut Core<S>,
    judges: &mut Judges,
    phases: Vec<Phase>,
) -> Result<(), NoMemory>
    requires fresh { core.old.engine.history ≡ [] }
    requires phase { core.old.engine.phase ≡ 1 }
    requires few { length phases.items ≤ 200001 }
    requires fits { All FitsPhase phases.items }
    ensures ok { OnOk result (calls_made core.new.engine.history ≡ calls_from 1 phases.items) }
    ensures first { MakesFirst core.new.engine.history (calls_from 1 phases.items) }
    ensures ruling { OnOk result (judges.new.ruling ≡ ruling_after judges.old.ruling phases.items) }
    ensures ruled { OnOk result (AnswersAll (λ s. S.shown s) core.old.settings (ruled_from judges.old.ruling 1 phases.items) (between core.old.engine (map (λ j. judging (would j) (state j)) (by_number judges.old.places.zero judges.old.places.one judges.old.places.two core.old.judge))) (between core.new.engine (map (λ j. judging (would j) (state j)) (by_number judges.new.places.zero judges.new.places.one judges.new.places.two core.new.judge)))) }
    ensures stopped { OnErr result (AnswersFirst (λ s. S.shown s) core.old.settings (ruled_from judges.old.ruling 1 phases.items) (between core.old.engine (map (λ j. judging (would j) (state j)) (by_number judges.old.places.zero judges.old.places.one judges.old.places.two core.old.judge))) core.new.engine.history) }
    ensures settings { core.new.settings ≡ core.old.settings }
{
    let mut number = 0u32;
    'phases: for phase in phases {
        enter_phase(core, judges, number, phase.judge);
        let Phase { judge: _, lines } = phase;
        make_phase(core, judges, lines.into_vec())?;
        number += 1;
    }
    Ok(())
}

/// Goes on to the phase behind so many others, under the judge that it names.
pub(crate) fn enter_phase<S: Store + Reader<Ledger = Uncounted> + Drop>(
    core: &mut Core<S>,
    judges: &mut Judges,
    number: u32,
    judge: Option<u8>,
)
    requires phase { core.old.engine.phase ≡ max 1 number }
    requires few { number ≤ 200001 }
    requires known { IfSome judge (λ named. named < 3) }
    ensures engine { core.new.engine ≡ record core.old.engine { phase = number + 1 } }
    ensures all { by_number judges.new.places.zero judges.new.places.one judges.new.places.two core.new.judge ≡ by_number judges.old.places.zero judges.old.places.one judges.old.places.two core.old.judge }
    ensures ruling { judges.new.ruling ≡ unwrap_or judge judges.old.ruling }
    ensures settings { core.new.settings ≡ core.old.settings }
{
    if number > 0 {
        core.next_phase();
    }
    if let Some(named) = judge {
        judges.seat(core, named);
    }
}

/// Makes the calls of a phase, from the end of its lines turned round, so that these can give up their room.
fn make_phase<S: Store + Reader<Ledger = Uncounted> + Drop>(
    core: &mut Core<S>,
    _beside: &Judges,
    lines: Vec<Line>,
) -> Result<(), NoMemory>
    requires { All IsCall lines.items }
    ensures ok { OnOk result (calls_made core.new.engine.history ≡ calls_made core.old.engine.history ++ calls_in core.old.engine.phase lines.items) }
    ensures part { MakesCalls core.old.engine.history core.new.engine.history core.old.engine.phase lines.items }

    // Wherever other judges stand, and whichever number the one that rules has.
    ensures ruled { OnOk result (MakesUnder (λ j. would j) (λ j. state j) core.old.judge core.new.judge (λ number before after. AnswersAll (λ s. S.shown s) core.old.settings (map (ruled_by number) (calls_in core.old.engine.phase lines.items)) (between core.old.engine before) (between core.new.engine after))) }
    ensures stopped { OnErr result (MakesUnder (λ j. would j) (λ j. state j) core.old.judge core.new.judge (λ number before after. AnswersFirst (λ s. S.shown s) core.old.settings (map (ruled_by number) (calls_in core.old.engine.phase lines.items)) (between core.old.engine before) core.new.engine.history)) }
    ensures rules { Keeps (λ j. would j) core.old.judge core.new.judge }
    ensures phase { core.new.engine.phase ≡ core.old.engine.phase }
    ensures settings { core.new.settings ≡ core.old.settings }
{
    let mut left = lines;
    left.reverse();
    'lines: while let Some(line) = left.pop() {
        give_room_back(&mut left);
        make_call(core, _beside, line)?;
    }
    Ok(())
}

/// Lines that fill less than half of their room keep no more than they need: so a phase's lines take ever less room as its
/// calls are made, and all of them together move once at most.
fn give_room_back(left: &mut Vec<Line>)
    ensures { left.new.items ≡ left.old.items }
{
    if left.len() < left.capacity() / 2 {
        left.shrink_to_fit();
    }
}

/// Makes the call of a line.
pub(crate) fn make_call<S: Store + Reader<Ledger = Uncounted> + Drop>(
    core: &mut Core<S>,
    _beside: &Judges,
    line: Line,
) -> Result<(), NoMemory>
    requires { IsCall line }
    ensures ok { OnOk result (calls_made core.new.engine.history ≡ calls_made core.old.engine.history ++ calls_in core.old.engine.phase (line ∷ [])) }
    ensures err { OnErr result (core.new.engine.history ≡ core.old.engine.history) }
    ensures ruled { OnOk result (MakesUnder (λ j. would j) (λ j. state j) core.old.judge core.new.judge (λ number before after. AnswersUnder (λ s. S.shown s) core.old.settings (ruled_by number (call line.session core.old.engine.phase line.text)) (between core.old.engine before) (between core.new.engine after))) }
    ensures rules { Keeps (λ j. would j) core.old.judge core.new.judge }
    ensures phase { core.new.engine.phase ≡ core.old.engine.phase }
    ensures settings { core.new.settings ≡ core.old.settings }
{
    let Line { session, text } = line;
    drop(core.call_text(session, text)?);
    Ok(())
}
