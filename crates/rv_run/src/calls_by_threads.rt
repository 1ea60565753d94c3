//! The calls of a script, those of each phase by threads.
ghost use Rattle.std.specs.Prelude.{◌≡◌, ℕ, ◌≤◌, [], All, false, length, map};
ghost use Rattle.rv_phases.specs.Phase.{PhaseDone};
ghost use Rattle.rv_run.specs.Judges.{by_number, ruling_after};
ghost use Rattle.rv_run.specs.Script.{calls_from, calls_made, of_session};
ghost use Rattle.rv_run.specs.Making.{FitsPhase, Keeps, MadeFirst};
ghost use Rattle.rv_run.specs.Ruling.{between, judging};
ghost use Rattle.rv_run.specs.Phases.{ChainUnder, LeadsAll, LeadsFirst};

use crate::calls::enter_phase;
use crate::judges::Judges;
use rv_core::Core;
use rv_judge::{Judge, Uncounted};
use rv_lending::{call_phase, give_back, lend};
use rv_phases::Phased;
use rv_reader::{Reader, Store};
use rv_script::{Line, Phase};
use rv_shared::Gate;
use std::alloc::Global;
use std::sync::Wait;
use std::thread::Threads;

/// Makes the calls of all phases, the first of which is 1, each under the judge that was named last: those of a phase by a
/// thread for each session that has any, with so many workers beside them. The next phase begins when all have ended.
/// `short` tells that memory was wanting, for a session's call or for the phase to begin; then no further phase begins. It may
/// wait, and what it promises holds if it returns.
#[tactic(auto, using(crate::proofs::Threads::texts_short))]
pub fn make_calls_by_threads<
    S: Store + Reader<Ledger = Uncounted> + Send + Drop,
    R: Threads + Wait + Sync,
    G: Gate + Sync,
>(
    rt: &R,
    alloc: Global,
    core: Core<S>,
    judges: &mut Judges,
    phases: &[Phase],
    workers: u32,
    gate: &G,
) -> Phased<Core<S>>
    requires fresh { core.engine.history ≡ [] }
    requires phase { core.engine.phase ≡ 1 }
    requires few { length phases.now ≤ 200001 }
    requires fits { All FitsPhase phases.now }
    requires workers { workers ≤ 8 }
    ensures whole { result.short ≡ false → (session : ℕ) → 1 ≤ session → session ≤ 8 → of_session session (calls_made result.core.engine.history) ≡ of_session session (calls_from 1 phases.now) }
    ensures first { MadeFirst result.core.engine.history phases.now }
    ensures ruling { result.short ≡ false → judges.new.ruling ≡ ruling_after judges.old.ruling phases.now }
    ensures led { result.short ≡ false → LeadsAll (λ s. S.shown s) core.settings judges.old.ruling 1 phases.now (between core.engine (map (λ j. judging (would j) (state j)) (by_number judges.old.places.zero judges.old.places.one judges.old.places.two core.judge))) (between result.core.engine (map (λ j. judging (would j) (state j)) (by_number judges.new.places.zero judges.new.places.one judges.new.places.two result.core.judge))) }
    ensures led_first { LeadsFirst (λ s. S.shown s) core.settings judges.old.ruling phases.now (between core.engine (map (λ j. judging (would j) (state j)) (by_number judges.old.places.zero judges.old.places.one judges.old.places.two core.judge))) (between result.core.engine (map (λ j. judging (would j) (state j)) (by_number judges.new.places.zero judges.new.places.one judges.new.places.two result.core.judge))) }
    ensures settings { result.core.settings ≡ core.settings }
{
    let mut held = core;
    let mut number = 0u32;
    'phases: for phase in phases {
        enter_phase(&mut held, judges, number, phase.judge);
        let Phased { core: back, short } = make_phase_by_threads(
            rt,
            alloc,
            held,
            judges,
            phase.lines.as_slice(),
            workers,
            gate,
        );
        held = back;
        if short {
            return Phased {
                core: held,
                short: true,
            };
        }
        number += 1;
    }
    Phased {
        core: held,
        short: false,
    }
}

/// Makes the calls of a phase by threads, to which the core is lent.
fn make_phase_by_threads<
    S: Store + Reader<Ledger = Uncounted> + Send + Drop,
    R: Threads + Wait + Sync,
    G: Gate + Sync,
>(
    rt: &R,
    alloc: Global,
    core: Core<S>,
    _beside: &Judges,
    lines: &[Line],
    workers: u32,
    gate: &G,
) -> Phased<Core<S>>
    requires workers { workers ≤ 8 }
    requires lines { length lines.now ≤ 200000 }
    requires short { All (λ l. length l.text ≤ 4096) lines.now }
    ensures done { PhaseDone lines.now result.short core.engine.phase core.engine.history result.core.engine.history }
    ensures phase { result.core.engine.phase ≡ core.engine.phase }
    ensures chain { ChainUnder (λ s. S.shown s) (λ j. would j) (λ j. state j) core.settings core.engine core.judge result.core.engine result.core.judge }
    ensures rules { Keeps (λ j. would j) core.judge result.core.judge }
    ensures settings { result.core.settings ≡ core.settings }
{
    let lent = lend(core);
    let Phased { core: back, short } = call_phase(rt, alloc, lent, lines, workers, gate);
    let core = give_back(back);
    Phased { core, short }
}
