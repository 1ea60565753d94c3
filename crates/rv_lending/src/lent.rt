//! A core as threads take turns on it.
ghost use Rattle.std.specs.Prelude.{◌≡◌, ◌≤◌, All, IfOk, OnErr, length};
ghost use Rattle.rv_core.specs.Core.{IsSound};
ghost use Rattle.rv_shared.specs.Leads.{Leads};
ghost use Rattle.rv_phases.specs.Phase.{PhaseDone};
ghost use Rattle.rv_lending.specs.Lending.{CoreEvent, point};

use rv_core::{Core, PartOf};
use rv_jscan::{Given, Sieved, Taken};
use rv_judge::{Judge, Steps, Uncounted};
use rv_lang::Reply;
use rv_model::Entry;
use rv_phases::{Phased, run_phase};
use rv_reader::{Reader, Store};
use rv_script::Line;
use rv_shared::{Gate, Served};
use rv_value::NoMemory;
use std::alloc::Global;
use std::marker::PhantomData;
use std::sync::Wait;
use std::thread::Threads;

/// A core that is lent to threads. `judged` holds nothing: with the box in a field of this type the judge of the core can be
/// named.
#[derive(Drop)]
pub struct Lent<S: Store + Reader<Ledger = Uncounted> + Drop> {
    core: Core<S>,
    judged: PhantomData<Box<dyn Judge>>,
}

impl<S: Store + Reader<Ledger = Uncounted> + Drop> Served for Lent<S> {
    ghost use Rattle.rv_lending.specs.Lending.{CalledOn, GivenOn, PartOn, SweptOn, TakenOn, point, shared};

    ghost shown = { λ l. shared l.core.engine };

    ghost calls = { λ old session text result new. CalledOn (λ s. S.shown s) (point old.core.engine ((Judge-box old.core.judge).would old.core.judge.value) ((Judge-box old.core.judge).state old.core.judge.value) old.core.settings) session text result (point new.core.engine ((Judge-box new.core.judge).would new.core.judge.value) ((Judge-box new.core.judge).state new.core.judge.value) new.core.settings) };

    ghost parts = { λ old session text result new. PartOn (λ s. S.shown s) (point old.core.engine ((Judge-box old.core.judge).would old.core.judge.value) ((Judge-box old.core.judge).state old.core.judge.value) old.core.settings) session text result (point new.core.engine ((Judge-box new.core.judge).would new.core.judge.value) ((Judge-box new.core.judge).state new.core.judge.value) new.core.settings) };

    ghost takes = { λ old after result new. TakenOn (λ s. S.shown s) (point old.core.engine ((Judge-box old.core.judge).would old.core.judge.value) ((Judge-box old.core.judge).state old.core.judge.value) old.core.settings) after result (point new.core.engine ((Judge-box new.core.judge).would new.core.judge.value) ((Judge-box new.core.judge).state new.core.judge.value) new.core.settings) };

    ghost gives = { λ old piece result new. GivenOn (point old.core.engine ((Judge-box old.core.judge).would old.core.judge.value) ((Judge-box old.core.judge).state old.core.judge.value) old.core.settings) piece result (point new.core.engine ((Judge-box new.core.judge).would new.core.judge.value) ((Judge-box new.core.judge).state new.core.judge.value) new.core.settings) };

    ghost sweeps = { λ old new. SweptOn (λ s. S.shown s) (point old.core.engine ((Judge-box old.core.judge).would old.core.judge.value) ((Judge-box old.core.judge).state old.core.judge.value) old.core.settings) (point new.core.engine ((Judge-box new.core.judge).would new.core.judge.value) ((Judge-box new.core.judge).state new.core.judge.value) new.core.settings) };

    fn history(&self) -> &[Entry] {
        self.core.history()
    }

    fn open_cursors(&self) -> u32 {
        self.core.open_cursors()
    }

    fn call(&mut self, session: u8, text: &str) -> Result<Reply, NoMemory> {
        self.core.call(session, text)
    }

    fn call_step(&mut self, session: u8, text: &str) -> Result<Option<Reply>, NoMemory> {
        match self.core.call_step(session, text) {
            Ok(PartOf::Answered(reply)) => Ok(Some(reply)),
            Ok(PartOf::Working) => Ok(None),
            Err(NoMemory) => Err(NoMemory),
        }
    }

    fn take_piece(&mut self, after: u64) -> Result<Taken, NoMemory> {
        let mut steps = Steps::new(Uncounted);
        self.core.take_piece(after, &mut steps)
    }

    fn give_piece(&mut self, sieved: Sieved) -> Result<Given, NoMemory> {
        let mut steps = Steps::new(Uncounted);
        self.core.give_piece(sieved, &mut steps)
    }

    fn sweep_step(&mut self) {
        self.core.sweep_step();
    }
}

/// Lends a core to threads: the same core, as turns of theirs may call it. `give_back` has it again.
pub fn lend<S: Store + Reader<Ledger = Uncounted> + Drop>(core: Core<S>) -> Lent<S>
    requires { 0 ≤ core.engine.phase }
    ensures core { result.core ≡ core }
{
    Lent {
        core,
        judged: PhantomData,
    }
}

/// The core that was lent. Whatever the threads did, its history is legal.
pub fn give_back<S: Store + Reader<Ledger = Uncounted> + Drop>(lent: Lent<S>) -> Core<S>
    requires { 0 ≤ lent.core.engine.phase }
    ensures core { result ≡ lent.core }
    ensures sound { IsSound result.engine }
{
    let Lent { core, judged: _ } = lent;
    let _sound = core.history();
    core
}

/// Makes the calls of a phase over a lent core: each session's in their order, in a thread of its own, with so many workers
/// beside them. All threads have ended when it returns. Where no memory is found for a session, or for the phase before it
/// begins, `short` tells it. Some order of calls, takes, gives and sweeps leads from the core to the one that comes back, each
/// under its judge and its settings. It may wait, and what it promises holds if it returns.
pub fn call_phase<
    S: Store + Reader<Ledger = Uncounted> + Send + Drop,
    R: Threads + Wait + Sync,
    G: Gate + Sync,
>(rt: &R, alloc: Global, lent: Lent<S>, lines: &[Line], workers: u32, gate: &G) -> Phased<Lent<S>>
    requires workers { workers ≤ 8 }
    requires lines { length lines.now ≤ 200000 }
    requires short { All (λ l. length l.text ≤ 4096) lines.now }
    ensures done { PhaseDone lines.now result.short lent.core.engine.phase lent.core.engine.history result.core.core.engine.history }
    ensures chain { Leads (CoreEvent (λ s. S.shown s)) (point lent.core.engine (would lent.core.judge) (state lent.core.judge) lent.core.settings) (point result.core.core.engine (would result.core.core.judge) (state result.core.core.judge) result.core.core.settings) }
    ensures phase { result.core.core.engine.phase ≡ lent.core.engine.phase }
    ensures rules { would result.core.core.judge ≡ would lent.core.judge }
    ensures settings { result.core.core.settings ≡ lent.core.settings }
{
    run_phase(rt, alloc, lent, lines, workers, gate)
}
