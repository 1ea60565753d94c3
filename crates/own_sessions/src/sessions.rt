//! Two sessions and a worker over one core, each in a thread of its own.
ghost use Rattle.std.specs.Prelude.{◌≡◌, ◌+◌, ◌≤◌, All, IfErr, IfOk, length, vec_capacity};
ghost use Rattle.rv_turn.specs.State.{IsPassOf};
ghost use Rattle.rv_turn.specs.Story.{Begins};
ghost use Rattle.rv_model.specs.History.{IsLegal};
ghost use Rattle.rv_shared.specs.Leads.{Event, Leads};

use rv_lang::Reply;
use rv_shared::{Helped, OpenGate, Served, SessionPass, Shared, SharedOpen, WorkerPass};
use rv_value::NoMemory;
use std::alloc::Global;
use std::sync::Wait;
use std::sync::atomic::{AtomicU64, Ordering};
use std::thread;
use std::thread::Threads;

/// What session 1 reads. Its rows are sorted, so that they come in one order whatever the worker does beside it.
const QUERY: &str = "OPEN C SELECT A, B FROM T WHERE B < 24 ORDER BY A";

/// What session 2 does in the meantime.
const BOOKING: [&str; 4] = [
    "BEGIN",
    "UPDATE T SET B = 99 WHERE A >= 12",
    "INSERT INTO T VALUES (48, 0)",
    "COMMIT",
];

/// The most rows that session 1 reads.
const MOST_ROWS: u32 = 1000;

/// The most times that the worker helps.
const MOST_HELPS: u32 = 10_000;

/// How many sessions there are.
const SESSIONS: u64 = 8;

/// Makes a call of the session of a pass; whether it gives a row.
fn call<C: Served + Send + Drop, R: Wait>(
    rt: &R,
    shared: &Shared<C>,
    pass: &mut SessionPass<C>,
    text: &str,
) -> Result<bool, NoMemory>
    requires own { IsPassOf shared.now.turn pass.old }
    ensures own { IsPassOf shared.now.turn pass.new }
{
    if text.len() > 4096 {
        return Err(NoMemory);
    }
    if pass.number() >= 8 {
        return Err(NoMemory);
    }
    if pass.left() < 64 {
        return Err(NoMemory);
    }
    match shared.call(rt, pass, text, &OpenGate) {
        Ok(reply) => {
            let row = is_row(&reply);
            drop(reply);
            Ok(row)
        }
        Err(NoMemory) => Err(NoMemory),
    }
}

fn is_row(reply: &Reply) -> bool {
    matches!(reply, Reply::Row(_))
}

/// Session 1: its cursor is fetched to the end.
fn read<C: Served + Send + Drop, R: Wait>(
    rt: &R,
    shared: &Shared<C>,
    pass: &mut SessionPass<C>,
) -> Result<(), NoMemory>
    requires own { IsPassOf shared.now.turn pass.old }
    ensures own { IsPassOf shared.now.turn pass.new }
{
    call(rt, shared, pass, QUERY)?;
    'rows: for _row in 0..MOST_ROWS {
        if !call(rt, shared, pass, "FETCH C")? {
            return Ok(());
        }
    }
    Ok(())
}

/// Session 2: a transaction.
fn book<C: Served + Send + Drop, R: Wait>(
    rt: &R,
    shared: &Shared<C>,
    pass: &mut SessionPass<C>,
) -> Result<(), NoMemory>
    requires own { IsPassOf shared.now.turn pass.old }
    ensures own { IsPassOf shared.now.turn pass.new }
{
    let texts: &[&str] = &BOOKING;
    'texts: for text in texts {
        call(rt, shared, pass, *text)?;
    }
    Ok(())
}

/// The calls of a session, which the number of its pass tells: the session's number less 1.
fn session<C: Served + Send + Drop, R: Wait>(
    rt: &R,
    shared: &Shared<C>,
    pass: &mut SessionPass<C>,
) -> Result<(), NoMemory>
    requires own { IsPassOf shared.now.turn pass.old }
    ensures own { IsPassOf shared.now.turn pass.new }
{
    let number = pass.number();
    if number == 0 {
        return read(rt, shared, pass);
    }
    if number == 1 {
        return book(rt, shared, pass);
    }
    Ok(())
}

/// Helps once, where the pass is a worker's.
fn help<C: Served + Send + Drop, R: Wait>(
    rt: &R,
    shared: &Shared<C>,
    pass: &mut WorkerPass<C>,
) -> Result<Helped, NoMemory>
    requires own { IsPassOf shared.now.turn pass.old }
    ensures own { IsPassOf shared.now.turn pass.new }
{
    if pass.number() < 8 {
        return Err(NoMemory);
    }
    if pass.left() < 2 {
        return Err(NoMemory);
    }
    shared.help(rt, pass, &OpenGate)
}

/// Helps until all sessions have ended and no cursor awaits a piece. Where none awaits one yet it rests.
fn help_on<C: Served + Send + Drop, R: Wait>(
    rt: &R,
    shared: &Shared<C>,
    pass: &mut WorkerPass<C>,
    ended: &AtomicU64,
)
    requires own { IsPassOf shared.now.turn pass.old }
    ensures own { IsPassOf shared.now.turn pass.new }
{
    'helps: for _help in 0..MOST_HELPS {
        let heard = shared.rings();
        let all_ended = ended.load(Ordering::SeqCst) >= SESSIONS;
        match help(rt, shared, pass) {
            Ok(Helped::Worked(_given)) => {}
            Ok(Helped::Idle { cursors: _ }) => {
                if all_ended {
                    return;
                }
                shared.rest(rt, heard);
            }
            Err(NoMemory) => return,
        }
    }
}

/// What a thread does with its pass.
fn work<C: Served + Send + Drop, R: Wait>(
    rt: &R,
    shared: &Shared<C>,
    pass: &mut SessionPass<C>,
    ended: &AtomicU64,
)
    requires own { IsPassOf shared.now.turn pass.old }
    ensures own { IsPassOf shared.now.turn pass.new }
{
    if pass.number() < 8 {
        let _made = session(rt, shared, pass);
        ended.fetch_add(1, Ordering::SeqCst);
        shared.ring();
    } else {
        help_on(rt, shared, pass, ended);
    }
}

/// Does the work of all passes, each in a thread of its own, and returns when all have ended.
fn work_all<C: Served + Send + Drop, R: Threads + Wait + Sync>(
    rt: &R,
    shared: &Shared<C>,
    passes: &mut [SessionPass<C>],
)
    requires own { All (λ p. IsPassOf shared.now.turn p) passes.old }
    ensures own { All (λ p. IsPassOf shared.now.turn p) passes.new }
    ensures count { length passes.new ≡ length passes.old }
{
    let ended = AtomicU64::new(0);
    let count = passes.len();
    if count == 0 {
        return;
    }
    thread::for_each_mut(
        rt,
        passes,
        count,
        &|_place: usize, pass: &mut SessionPass<C>|
            requires { IsPassOf shared.now.turn pass.now }
            ensures { IsPassOf shared.entry.now.turn pass.exit.now }
        { work(rt, shared, pass, &ended) },
    );
}

/// Shares a core with one worker.
fn share<C: Served + Send + Drop>(alloc: Global, core: C) -> Result<SharedOpen<C>, C>
    ensures turn { IfOk result (λ o. (o.shared.turn.passes ≡ 9) × (o.shared.turn.mark ≡ core) × (o.shared.turn.opening ≡ (C.shown core).history)) }
    ensures sessions { IfOk result (λ o. (length o.sessions.items ≡ 8) × All (λ p. IsPassOf o.shared.turn p) o.sessions.items) }
    ensures helpers { IfOk result (λ o. (length o.helpers.items ≡ 1) × All (λ p. IsPassOf o.shared.turn p) o.helpers.items) }
    ensures err { IfErr result (λ c. c ≡ core) }
{
    Shared::open(alloc, core, 1)
}

/// More passes behind those of a list that has room for them.
fn join<C: Served + Send + Drop>(
    shared: &Shared<C>,
    mut list: Vec<SessionPass<C>>,
    passes: Vec<SessionPass<C>>,
) -> Vec<SessionPass<C>>
    requires list { All (λ p. IsPassOf shared.now.turn p) list.items }
    requires passes { All (λ p. IsPassOf shared.now.turn p) passes.items }
    requires room { length list.items + length passes.items ≤ vec_capacity list }
    ensures own { All (λ p. IsPassOf shared.now.turn p) result.items }
    ensures count { length result.items ≡ length list.items + length passes.items }
    ensures room { vec_capacity list ≤ vec_capacity result }
{
    'passes: for pass in passes {
        list.push(pass).unwrap();
    }
    list
}

/// Takes the core back.
fn finish<C: Served + Send + Drop>(
    shared: Shared<C>,
    passes: Vec<SessionPass<C>>,
    none: Vec<WorkerPass<C>>,
) -> C
    requires own { All (λ p. IsPassOf shared.turn p) passes.items }
    requires all { length passes.items ≡ shared.turn.passes }
    requires none { length none.items ≡ 0 }
    ensures led { Leads (Event C.calls C.parts C.takes C.gives C.sweeps) shared.turn.mark result }
    ensures legal { IsLegal (C.shown result).history }
    ensures goes_on { Begins shared.turn.opening (C.shown result).history }
{
    shared.close(passes, none)
}

/// The core as it was, where want of memory lets nothing begin.
fn unshared<C: Served + Drop>(core: C) -> C
    ensures led { Leads (Event C.calls C.parts C.takes C.gives C.sweeps) core result }
    ensures legal { IsLegal (C.shown result).history }
    ensures goes_on { Begins (C.shown core).history (C.shown result).history }
{
    let _legal = core.history();
    core
}

/// Has the two sessions make their calls over a core, with a worker beside them. Some order of calls, takes, gives and
/// sweeps leads from the core to the one that comes back, whose history goes on and is legal. Without memory for it nothing
/// is done. It waits for the turns and the ends of its threads.
pub fn by_threads<C: Served + Send + Drop, R: Threads + Wait + Sync>(
    rt: &R,
    alloc: Global,
    core: C,
) -> C
    ensures led { Leads (Event C.calls C.parts C.takes C.gives C.sweeps) core result }
    ensures legal { IsLegal (C.shown result).history }
    ensures goes_on { Begins (C.shown core).history (C.shown result).history }
{
    let Ok(list) = Vec::with_capacity(alloc, 9) else {
        return unshared(core);
    };
    match share(alloc, core) {
        Ok(
            SharedOpen {
                shared,
                sessions,
                helpers,
            },
        ) => {
            let passes = join(&shared, list, sessions);
            let mut passes = join(&shared, passes, helpers);
            work_all(rt, &shared, passes.as_mut_slice());
            finish(shared, passes, Vec::new(alloc))
        }
        Err(core) => unshared(core),
    }
}
