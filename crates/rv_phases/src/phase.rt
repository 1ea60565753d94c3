//! A phase, whose sessions and workers are threads.
ghost use Rattle.std.specs.Prelude.{◌≡◌, ℕ, ◌+◌, ◌-◌, ◌*◌, ◌<◌, ◌≤◌, List, [], ◌∷◌, ◌++◌, All, length, true, false, vec_capacity};
ghost use Rattle.rv_shared.specs.Leads.{Event, Leads};
ghost use Rattle.rv_shared.specs.Told.{IsFresh};
ghost use Rattle.rv_phases.specs.Phase.{IsDone, PhaseDone, asked};

use crate::jobs::{Job, work_all};
use rv_script::Line;
use rv_shared::{Gate, Served, SessionPass, Shared, SharedOpen, WorkerPass};
use std::alloc::Global;
use std::sync::Wait;
use std::thread::Threads;

/// The core after a phase, and whether want of memory stopped a session, or the phase before it began.
#[derive(Drop)]
pub struct Phased<C: Drop> {
    pub core: C,
    pub short: bool,
}

/// The most calls of `help` of a worker, for each call of the phase and for twenty thousand more.
const HELPS: u32 = 64;

/// Whether a session has a call among the lines.
fn has_calls(session: u32, lines: &[Line]) -> bool
    ensures { result ≡ false → (phase : ℕ) → asked session phase lines.now ≡ [] }
{
    'lines: for line in lines {
        if is_of(session, line) {
            return true;
        }
    }
    false
}

fn is_of(session: u32, line: &Line) -> bool
    ensures { result ≡ false → (phase : ℕ) → asked session phase (line.now ∷ []) ≡ [] }
{
    u32::from(line.session) == session
}

/// Whether a pass has no part in the phase: it is a session's, which has no call.
fn is_idle<C: Served + Send + Drop>(pass: &SessionPass<C>, lines: &[Line]) -> bool
    ensures { result ≡ true → (phase : ℕ) → asked (pass.now.number + 1) phase lines.now ≡ [] }
{
    let number = pass.number();
    if number < 8 {
        return !has_calls(number + 1, lines);
    }
    false
}

/// The jobs of the sessions that have calls, and the passes of the others.
fn deal<C: Served + Send + Drop>(
    shared: &Shared<C>,
    passes: Vec<SessionPass<C>>,
    lines: &[Line],
    mut jobs: Vec<Job<C>>,
    mut idle: Vec<SessionPass<C>>,
) -> (Vec<Job<C>>, Vec<SessionPass<C>>)
    requires passes { All (λ p. IsFresh shared.now.turn p) passes.items }
    requires empty { (jobs.items ≡ []) × (idle.items ≡ []) }
    requires room { (length passes.items ≤ vec_capacity jobs) × (length passes.items ≤ vec_capacity idle) }
    ensures jobs { All (λ j. IsFresh shared.now.turn j.pass) result.0.items }
    ensures idle { All (λ p. IsDone (C.shown shared.now.turn.mark).phase shared.now.turn lines.now false p) result.1.items }
    ensures count { length result.0.items + length result.1.items ≡ length passes.items }
    ensures room { vec_capacity jobs ≤ vec_capacity result.0 }
{
    'passes: for pass in passes {
        if is_idle(&pass, lines) {
            idle.push(pass).unwrap();
        } else {
            jobs.push(Job { pass, short: false }).unwrap();
        }
    }
    (jobs, idle)
}

/// The jobs of the workers behind those of the sessions.
fn join_workers<C: Served + Send + Drop>(
    shared: &Shared<C>,
    mut jobs: Vec<Job<C>>,
    helpers: Vec<WorkerPass<C>>,
) -> Vec<Job<C>>
    requires jobs { All (λ j. IsFresh shared.now.turn j.pass) jobs.items }
    requires helpers { All (λ p. IsFresh shared.now.turn p) helpers.items }
    requires room { length jobs.items + length helpers.items ≤ vec_capacity jobs }
    ensures jobs { All (λ j. IsFresh shared.now.turn j.pass) result.items }
    ensures count { length result.items ≡ length jobs.items + length helpers.items }
{
    'helpers: for pass in helpers {
        jobs.push(Job { pass, short: false }).unwrap();
    }
    jobs
}

/// Whether want of memory stopped a session.
fn any_short<C: Served + Send + Drop>(jobs: &[Job<C>]) -> bool
    ensures { result ≡ false → All (λ j. j.short ≡ false) jobs.now }
{
    jobs.iter().any(|job| job.short)
}

/// The passes of jobs that are done.
fn collect<C: Served + Send + Drop>(
    shared: &Shared<C>,
    jobs: Vec<Job<C>>,
    lines: &[Line],
    short: bool,
    mut list: Vec<SessionPass<C>>,
) -> Vec<SessionPass<C>>
    requires jobs { All (λ j. IsDone (C.shown shared.now.turn.mark).phase shared.now.turn lines.now j.short j.pass) jobs.items }
    requires short { short ≡ false → All (λ j. j.short ≡ false) jobs.items }
    requires empty { list.items ≡ [] }
    requires room { length jobs.items ≤ vec_capacity list }
    ensures passes { All (λ p. IsDone (C.shown shared.now.turn.mark).phase shared.now.turn lines.now short p) result.items }
    ensures count { length result.items ≡ length jobs.items }
{
    'jobs: for job in jobs {
        let Job { pass, short: _ } = job;
        list.push(pass).unwrap();
    }
    list
}

/// The core, once all jobs are done.
fn finish<C: Served + Send + Drop>(
    shared: Shared<C>,
    jobs: Vec<Job<C>>,
    idle: Vec<SessionPass<C>>,
    lines: &[Line],
    list: Vec<SessionPass<C>>,
) -> Phased<C>
    requires jobs { All (λ j. IsDone (C.shown shared.turn.mark).phase shared.turn lines.now j.short j.pass) jobs.items }
    requires idle { All (λ p. IsDone (C.shown shared.turn.mark).phase shared.turn lines.now false p) idle.items }
    requires count { length jobs.items + length idle.items ≡ shared.turn.passes }
    requires eight { 8 ≤ shared.turn.passes }
    requires empty { list.items ≡ [] }
    requires room { length jobs.items ≤ vec_capacity list }
    ensures done { PhaseDone lines.now result.short (C.shown shared.turn.mark).phase shared.turn.opening (C.shown result.core).history }
    ensures led { Leads (Event C.calls C.parts C.takes C.gives C.sweeps) shared.turn.mark result.core }
    ensures phase { (C.shown result.core).phase ≡ (C.shown shared.turn.mark).phase }
{
    let short = any_short(&jobs);
    let first = collect(&shared, jobs, lines, short, list);
    let core = shared.close(first, idle);
    Phased { core, short }
}

/// The core as it was, where want of memory let nothing begin.
fn unbegun<C: Served + Drop>(core: C, lines: &[Line]) -> Phased<C>
    ensures done { PhaseDone lines.now result.short (C.shown core).phase (C.shown core).history (C.shown result.core).history }
    ensures led { Leads (Event C.calls C.parts C.takes C.gives C.sweeps) core result.core }
    ensures phase { (C.shown result.core).phase ≡ (C.shown core).phase }
    ensures short { result.short ≡ true }
{
    let _legal = core.history();
    Phased { core, short: true }
}

/// Makes the calls of a phase: each session's in their order, in a thread of its own, with so many workers beside them. All
/// threads have ended when it returns. A session for which no memory is found makes no further call, and `short` tells it.
/// A worker ends where it has nothing to do after all sessions have ended, where it finds no memory, and after
/// `64 * (lines + 20,000)` calls of `help`. Some order of calls, takes, gives and sweeps leads from the core to the one that
/// comes back.
pub fn run_phase<C: Served + Send + Drop, R: Threads + Wait + Sync, G: Gate + Sync>(
    rt: &R,
    alloc: Global,
    core: C,
    lines: &[Line],
    workers: u32,
    gate: &G,
) -> Phased<C>
    requires workers { workers ≤ 8 }
    requires lines { length lines.now ≤ 200000 }
    requires short { All (λ l. length l.text ≤ 4096) lines.now }
    ensures done { PhaseDone lines.now result.short (C.shown core).phase (C.shown core).history (C.shown result.core).history }
    ensures led { Leads (Event C.calls C.parts C.takes C.gives C.sweeps) core result.core }
    ensures phase { (C.shown result.core).phase ≡ (C.shown core).phase }
{
    let Ok(jobs) = Vec::with_capacity(alloc, 16) else {
        return unbegun(core, lines);
    };
    let Ok(idle) = Vec::with_capacity(alloc, 16) else {
        return unbegun(core, lines);
    };
    let Ok(list) = Vec::with_capacity(alloc, 16) else {
        return unbegun(core, lines);
    };
    match Shared::open(alloc, core, workers) {
        Ok(
            SharedOpen {
                shared,
                sessions,
                helpers,
            },
        ) => {
            let (jobs, idle) = deal(&shared, sessions, lines, jobs, idle);
            let sessions = jobs.len() as u64;
            let mut jobs = join_workers(&shared, jobs, helpers);
            let most = HELPS * (lines.len() as u32 + 20_000);
            work_all(
                rt,
                &shared,
                jobs.as_mut_slice(),
                lines,
                most,
                gate,
                sessions,
            );
            finish(shared, jobs, idle, lines, list)
        }
        Err(core) => unbegun(core, lines),
    }
}
