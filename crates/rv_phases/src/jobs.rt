//! What the threads of a phase do.
ghost use Rattle.std.specs.Prelude.{◌≡◌, ℕ, ◌+◌, ◌-◌, ◌*◌, ◌<◌, ◌≤◌, List, [], ◌∷◌, ◌++◌, All, length, true, false};
ghost use Rattle.rv_turn.specs.State.{IsPassOf};
ghost use Rattle.rv_shared.specs.Told.{IsFresh};
ghost use Rattle.rv_phases.specs.Phase.{IsDone, Made, asked, own};

use rv_script::Line;
use rv_shared::{Gate, Helped, Served, SessionPass, Shared, WorkerPass};
use rv_value::NoMemory;
use std::sync::Wait;
use std::sync::atomic::{AtomicU64, Ordering};
use std::thread;
use std::thread::Threads;

/// What a thread has to do in a phase: the calls of a session, or the help of a worker.
#[derive(Drop)]
pub(crate) struct Job<C: Served + Send + Drop> {
    pub(crate) pass: SessionPass<C>,
    /// Want of memory stopped the session.
    pub(crate) short: bool,
}

/// Makes the calls of a pass's session among the lines; whether want of memory stopped it.
fn make_calls<C: Served + Send + Drop, R: Wait, G: Gate>(
    rt: &R,
    shared: &Shared<C>,
    pass: &mut SessionPass<C>,
    lines: &[Line],
    gate: &G,
) -> bool
    requires own { IsPassOf shared.now.turn pass.old }
    requires number { pass.old.number < 8 }
    requires left { 64 * length lines.now ≤ pass.old.left }
    requires short { All (λ l. length l.text ≤ 4096) lines.now }
    ensures own { IsPassOf shared.now.turn pass.new × (pass.new.number ≡ pass.old.number) }
    ensures made { Made (pass.old.number + 1) (C.shown shared.now.turn.mark).phase lines.now result pass.old.seen pass.new.seen }
{
    'lines: for line in lines {
        if make_call(rt, shared, pass, line, gate) {
            return true;
        }
    }
    false
}

/// Makes the call of a line, where it is the session's; whether want of memory stopped it.
fn make_call<C: Served + Send + Drop, R: Wait, G: Gate>(
    rt: &R,
    shared: &Shared<C>,
    pass: &mut SessionPass<C>,
    line: &Line,
    gate: &G,
) -> bool
    requires own { IsPassOf shared.now.turn pass.old }
    requires number { pass.old.number < 8 }
    requires left { 64 ≤ pass.old.left }
    requires short { length line.now.text ≤ 4096 }
    ensures own { IsPassOf shared.now.turn pass.new × (pass.new.number ≡ pass.old.number) }
    ensures left { pass.old.left ≤ pass.new.left + 64 }
    ensures made { result ≡ false → own (pass.old.number + 1) pass.new.seen ≡ own (pass.old.number + 1) pass.old.seen ++ asked (pass.old.number + 1) (C.shown shared.now.turn.mark).phase (line.now ∷ []) }
    ensures stopped { result ≡ true → own (pass.old.number + 1) pass.new.seen ≡ own (pass.old.number + 1) pass.old.seen }
{
    if u32::from(line.session) != pass.number() + 1 {
        return false;
    }
    match shared.call(rt, pass, line.text.as_str(), gate) {
        Ok(_reply) => false,
        Err(NoMemory) => true,
    }
}

/// Helps so many times at most: until all sessions have ended and there is nothing to do, or memory is wanting. Where there
/// is nothing to do yet it rests.
fn help_on<C: Served + Send + Drop, R: Wait, G: Gate>(
    rt: &R,
    shared: &Shared<C>,
    pass: &mut WorkerPass<C>,
    most: u32,
    gate: &G,
    ended: &AtomicU64,
    sessions: u64,
)
    requires own { IsPassOf shared.now.turn pass.old }
    requires number { 8 ≤ pass.old.number }
    requires left { 2 * most ≤ pass.old.left }
    ensures own { IsPassOf shared.now.turn pass.new × (pass.new.number ≡ pass.old.number) }
{
    'helps: for _help in 0..most {
        let heard = shared.rings();
        let all_ended = ended.load(Ordering::SeqCst) >= sessions;
        match shared.help(rt, pass, gate) {
            Ok(Helped::Worked(_given)) => {}
            Ok(Helped::Idle { cursors: _ }) => {
                if all_ended {
                    return;
                }
                shared.rest(rt, heard);
            }
            Err(NoMemory) => return,
        }
    }
}

/// Does a thread's job.
fn work<C: Served + Send + Drop, R: Wait, G: Gate>(
    rt: &R,
    shared: &Shared<C>,
    job: &mut Job<C>,
    lines: &[Line],
    most: u32,
    gate: &G,
    ended: &AtomicU64,
    sessions: u64,
)
    requires own { IsPassOf shared.now.turn job.old.pass }
    requires left { (64 * length lines.now ≤ job.old.pass.left) × (2 * most ≤ job.old.pass.left) }
    requires short { All (λ l. length l.text ≤ 4096) lines.now }
    ensures own { IsPassOf shared.now.turn job.new.pass }
    ensures number { job.new.pass.number ≡ job.old.pass.number }
    ensures made { job.old.pass.number < 8 → Made (job.old.pass.number + 1) (C.shown shared.now.turn.mark).phase lines.now job.new.short job.old.pass.seen job.new.pass.seen }
{
    if job.pass.number() < 8 {
        job.short = make_calls(rt, shared, &mut job.pass, lines, gate);
        ended.fetch_add(1, Ordering::SeqCst);
        shared.ring();
    } else {
        help_on(rt, shared, &mut job.pass, most, gate, ended, sessions);
    }
}

/// Does all jobs, each in a thread of its own, and returns when all have ended. Where no thread can be started they are done
/// one after another.
pub(crate) fn work_all<C: Served + Send + Drop, R: Threads + Wait + Sync, G: Gate + Sync>(
    rt: &R,
    shared: &Shared<C>,
    jobs: &mut [Job<C>],
    lines: &[Line],
    most: u32,
    gate: &G,
    sessions: u64,
)
    requires fresh { All (λ j. IsFresh shared.now.turn j.pass) jobs.old }
    requires lines { length lines.now ≤ 200000 }
    requires most { most ≤ 100000000 }
    requires short { All (λ l. length l.text ≤ 4096) lines.now }
    ensures done { All (λ j. IsDone (C.shown shared.now.turn.mark).phase shared.now.turn lines.now j.short j.pass) jobs.new }
    ensures count { length jobs.new ≡ length jobs.old }
{
    let ended = AtomicU64::new(0);
    let count = jobs.len();
    if count == 0 {
        return;
    }
    thread::for_each_mut(
        rt,
        jobs,
        count,
        &|_place: usize, job: &mut Job<C>|
            requires { IsFresh shared.now.turn job.now.pass × (length lines.now ≤ 200000) × (most ≤ 100000000) × All (λ l. length l.text ≤ 4096) lines.now }
            ensures { IsDone (C.shown shared.entry.now.turn.mark).phase shared.entry.now.turn lines.entry.now job.exit.now.short job.exit.now.pass }
        { work(rt, shared, job, lines, most, gate, &ended, sessions) },
    );
}
