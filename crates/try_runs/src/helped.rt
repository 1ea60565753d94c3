//! Pieces by hand over threads: a core is shared by turns, and one thread makes the calls of a session and a worker's part.
ghost use Rattle.std.specs.Prelude.{◌≡◌, All, IfOk, length};
ghost use Rattle.rv_turn.specs.State.{IsPassOf};

use crate::calls::{NO_MEMORY, ends_with, fill, leave};
use crate::pieces::patient;
use rv_core::Core;
use rv_jscan::Given;
use rv_judge::Uncounted;
use rv_lending::lend;
use rv_reader::{Reader, Store};
use rv_shared::{Helped, OpenGate, Served, SessionPass, Shared, SharedOpen, WorkerPass};
use rv_value::NoMemory;
use std::alloc::Global;
use std::process::Abort;
use std::sync::Wait;
use std::test::Fail;

/// What the last session's calls come to, behind its OPEN: the worker has read both leaves, so that no step is left to do, and
/// the rows are those of the list.
const TOLD: &str =
    "8 STEP C 5\n= stepped 0\n8 FETCH C\n= row 10, 0\n8 FETCH C\n= row 11, 0\n8 FETCH C\n= row 12, 0\n8 FETCH C\n= row 13, 0\n8 FETCH C\n= row 14, 0\n8 FETCH C\n= row 15, 0\n8 FETCH C\n= row 16, 0\n8 FETCH C\n= row 17, 0\n8 FETCH C\n= row 18, 0\n8 FETCH C\n= row 19, 0\n8 FETCH C\n= row 20, 0\n8 FETCH C\n= row 21, 0\n8 FETCH C\n= row 22, 0\n8 FETCH C\n= row 23, 0\n8 FETCH C\n= row 24, 0\n8 FETCH C\n= row 25, 0\n8 FETCH C\n= row 26, 0\n8 FETCH C\n= row 27, 0\n8 FETCH C\n= row 28, 0\n8 FETCH C\n= row 29, 0\n8 FETCH C\n= end\n8 SHOW C\n= trace fast-first building scan IA list IA 20 final-list done pages 0 leaves 2 fetches 20\n";

/// Makes a call, where the pass is a session's and has its turns left.
fn call<C: Served + Send + Drop, R: Wait>(
    rt: &R,
    shared: &Shared<C>,
    pass: &mut SessionPass<C>,
    text: &str,
) -> Result<(), NoMemory>
    requires own { IsPassOf shared.now.turn pass.old }
    ensures own { IsPassOf shared.now.turn pass.new }
{
    if text.len() > 4096 {
        return Err(NoMemory);
    }
    if pass.number() >= 8 {
        return Err(NoMemory);
    }
    if pass.left() < 64 {
        return Err(NoMemory);
    }
    match shared.call(rt, pass, text, &OpenGate) {
        Ok(reply) => {
            leave(reply);
            Ok(())
        }
        Err(NoMemory) => Err(NoMemory),
    }
}

/// Helps once, where the pass is a worker's and has its turns left.
fn help<C: Served + Send + Drop, R: Wait>(
    rt: &R,
    shared: &Shared<C>,
    pass: &mut WorkerPass<C>,
) -> Result<Helped, NoMemory>
    requires own { IsPassOf shared.now.turn pass.old }
    ensures own { IsPassOf shared.now.turn pass.new }
{
    if pass.number() < 8 {
        return Err(NoMemory);
    }
    if pass.left() < 2 {
        return Err(NoMemory);
    }
    shared.help(rt, pass, &OpenGate)
}

/// Whether a worker's first two parts are pieces that are accepted, and the third finds nothing to do while a cursor is open.
fn works_twice<C: Served + Send + Drop, R: Wait>(
    rt: &R,
    shared: &Shared<C>,
    pass: &mut WorkerPass<C>,
) -> Result<bool, NoMemory>
    requires own { IsPassOf shared.now.turn pass.old }
    ensures own { IsPassOf shared.now.turn pass.new }
{
    let first = help(rt, shared, pass)?;
    let second = help(rt, shared, pass)?;
    let third = help(rt, shared, pass)?;
    let worked = Helped::Worked(Given::Accepted);
    Ok(first == worked && second == worked && third == Helped::Idle { cursors: 1 })
}

/// Opens the cursor.
fn opened<C: Served + Send + Drop, R: Wait>(
    rt: &R,
    shared: &Shared<C>,
    pass: &mut SessionPass<C>,
) -> Result<(), NoMemory>
    requires own { IsPassOf shared.now.turn pass.old }
    ensures own { IsPassOf shared.now.turn pass.new }
{
    call(rt, shared, pass, "BEGIN READ ONLY")?;
    call(
        rt,
        shared,
        pass,
        "OPEN C SELECT * FROM T WHERE A BETWEEN 10 AND 29 OPTIMIZE FOR FAST FIRST",
    )
}

/// Makes the calls behind the worker's parts.
fn drained<C: Served + Send + Drop, R: Wait>(
    rt: &R,
    shared: &Shared<C>,
    pass: &mut SessionPass<C>,
) -> Result<(), NoMemory>
    requires own { IsPassOf shared.now.turn pass.old }
    ensures own { IsPassOf shared.now.turn pass.new }
{
    call(rt, shared, pass, "STEP C 5")?;
    'rows: for _row in 0..21u32 {
        call(rt, shared, pass, "FETCH C")?;
    }
    call(rt, shared, pass, "SHOW C")
}

/// The calls of a session, with a worker's parts behind its OPEN; whether these came to what they are to come to.
fn by_hand<C: Served + Send + Drop, R: Wait>(
    rt: &R,
    shared: &Shared<C>,
    session: &mut SessionPass<C>,
    worker: &mut WorkerPass<C>,
) -> Result<bool, NoMemory>
    requires session { IsPassOf shared.now.turn session.old }
    requires worker { IsPassOf shared.now.turn worker.old }
    ensures session { IsPassOf shared.now.turn session.new }
    ensures worker { IsPassOf shared.now.turn worker.new }
{
    opened(rt, shared, session)?;
    let worked = works_twice(rt, shared, worker)?;
    drained(rt, shared, session)?;
    Ok(worked)
}

/// Shares a core with one worker.
fn shared_with<C: Served + Send + Drop>(alloc: Global, core: C) -> Result<SharedOpen<C>, C>
    ensures sessions { IfOk result (λ o. (length o.sessions.items ≡ 8) × All (λ p. IsPassOf o.shared.turn p) o.sessions.items) }
    ensures helpers { IfOk result (λ o. (length o.helpers.items ≡ 1) × All (λ p. IsPassOf o.shared.turn p) o.helpers.items) }
    ensures passes { IfOk result (λ o. o.shared.turn.passes ≡ 9) }
{
    Shared::open(alloc, core, 1)
}

/// Shares a core, makes the calls by hand and takes it back: whether a worker's parts came to what they are to come to, and the
/// history ends as it is told.
fn told_of<C: Served + Send + Drop, R: Wait + Abort>(
    rt: &R,
    alloc: Global,
    core: C,
) -> Result<bool, NoMemory> {
    let mut others = Vec::with_capacity(alloc, 2)?;
    let Ok(
        SharedOpen {
            shared,
            mut sessions,
            mut helpers,
        },
    ) = shared_with(alloc, core)
    else {
        panic!(rt; "no memory")
    };
    let Some(mut session) = sessions.pop() else {
        panic!(rt; "eight sessions")
    };
    let Some(mut worker) = helpers.pop() else {
        panic!(rt; "one worker")
    };
    let worked = by_hand(rt, &shared, &mut session, &mut worker);
    let Ok(()) = others.push(session) else {
        panic!(rt; "room")
    };
    let Ok(()) = others.push(worker) else {
        panic!(rt; "room")
    };
    let core = shared.close(sessions, others);
    let told = ends_with(alloc, core.history(), 23, TOLD);
    leave(core);
    Ok(worked? && told?)
}

/// The same with a core that is given the table of forty rows.
fn told_over<S: Store + Reader<Ledger = Uncounted> + Send + Drop, R: Wait + Abort>(
    rt: &R,
    alloc: Global,
    core: Core<S>,
) -> Result<bool, NoMemory> {
    let mut core = core;
    let filled = fill(alloc, &mut core, 40);
    let told = told_of(rt, alloc, lend(core));
    let _again = filled?;
    told
}

#[test]
fn pieces_by_hand_over_threads(rt: HostRuntime) -> Result<(), Fail> {
    let alloc: Global = rt.alloc();
    let core = patient(alloc).or(Err(NO_MEMORY))?;
    let told = told_over(&rt, alloc, core).or(Err(NO_MEMORY))?;
    assert!(rt; told);
    Ok(())
}
