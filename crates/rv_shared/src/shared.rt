//! The shared core.
ghost use Rattle.std.specs.Prelude.{◌≡◌, ℕ, ◌+◌, ◌-◌, ◌<◌, ◌≤◌, List, [], ◌∷◌, ◌++◌, length, IfOk, IfErr, OnErr, All, slice_index_or, vec_capacity};
ghost use Rattle.rv_turn.specs.State.{IsNumbered, IsPassOf};
ghost use Rattle.rv_turn.specs.Story.{GoesOn, Lengthens};
ghost use Rattle.rv_model.specs.History.{IsLegal};
ghost use Rattle.rv_shared.specs.Leads.{Event, Leads};
ghost use Rattle.rv_shared.specs.Served.{IsFetch};
ghost use Rattle.rv_shared.specs.Told.{IsFresh, Replied, TakesTurns, TellsIdle, TellsOf, Turned, Unanswered, maker, turns_of};

use crate::bell::Bell;
use crate::calling::{CallTurn, StepTurn};
use crate::gate::{Gate, Place};
use crate::helping::{Cutting, GiveTurn, TakeTurn};
use crate::kept::Kept;
use crate::served::Served;
use rv_jscan::{Given, Sieved, sieve};
use rv_lang::Reply;
use rv_turn::{Opened, Pass, Turn};
use rv_value::NoMemory;
use std::alloc::Global;
use std::sync::Wait;
use std::sync::atomic::{AtomicU64, Ordering};

/// The right of a session to its calls. The session's number is the pass's number plus 1.
pub type SessionPass<C> = Pass<Kept<C>>;

/// The right of a worker to help. Its number is 8 or more.
pub type WorkerPass<C> = Pass<Kept<C>>;

/// How many sessions there are.
const SESSIONS: u32 = 8;

/// The turns of each pass.
const TURNS: u32 = 4_294_967_295;

/// The most turns of a FETCH, between the first one and the one that runs to the answer.
const MORE_TURNS: u32 = 62;

/// A core that threads share by reference.
pub struct Shared<C: Served + Send + Drop> {
    turn: Turn<Kept<C>>,
    // The number of the cursor of which a piece was taken last, so that workers turn to another. It decides nothing else.
    last: AtomicU64,
    bell: Bell,
}

/// A core that was opened for threads: the passes of the sessions 1 to 8 in this order, and those of the workers.
pub struct SharedOpen<C: Served + Send + Drop> {
    pub shared: Shared<C>,
    pub sessions: Vec<SessionPass<C>>,
    pub helpers: Vec<WorkerPass<C>>,
}

/// What a worker did.
#[derive(Clone, Copy, PartialEq, Eq)]
pub enum Helped {
    /// It sieved a piece and gave it.
    Worked(Given),
    /// No open cursor awaited a piece.
    Idle {
        /// How many cursors were open.
        cursors: u32,
    },
}

impl<C: Served + Send + Drop> Shared<C> {
    /// Lends a core out to eight sessions and some workers. Err hands the core back for want of memory.
    pub fn open(alloc: Global, core: C, workers: u32) -> Result<SharedOpen<C>, C>
        requires { workers ≤ 8 }
        ensures turn { IfOk result (λ o. (o.shared.turn.passes ≡ 8 + workers)
            × (o.shared.turn.mark ≡ core) × (o.shared.turn.opening ≡ (C.shown core).history)) }
        ensures sessions { IfOk result (λ o. (length o.sessions.items ≡ 8)
            × All (λ p. IsFresh o.shared.turn p) o.sessions.items) }
        ensures numbers { IfOk result (λ o. (k : ℕ) (d : _) → k < 8 → (slice_index_or o.sessions.items k d).number ≡ k) }
        ensures helpers { IfOk result (λ o. (length o.helpers.items ≡ workers)
            × All (λ p. IsFresh o.shared.turn p) o.helpers.items) }
        ensures workers { IfOk result (λ o. All (λ p. 8 ≤ p.number) o.helpers.items) }
        ensures err { IfErr result (λ c. c ≡ core) }
    {
        let Ok(helpers) = Vec::with_capacity(alloc, workers as usize) else {
            return Err(core);
        };
        match Turn::open(alloc, Kept::new(core), SESSIONS + workers, TURNS) {
            Ok(Opened { turn, passes }) => {
                let (sessions, helpers) = part(&turn, passes, helpers, workers);
                Ok(SharedOpen {
                    shared: Shared {
                        turn,
                        last: AtomicU64::new(0),
                        bell: Bell::new(),
                    },
                    sessions,
                    helpers,
                })
            }
            Err(Kept { core, first: _ }) => {
                helpers.destroy_empty();
                Err(core)
            }
        }
    }

    /// The core, once all passes are back. Some order of events leads to it from the core at opening. Its history goes on
    /// from all that each pass has seen, without a further entry of its session, and beyond the history at opening each
    /// entry is of some pass.
    pub fn close(self, sessions: Vec<SessionPass<C>>, helpers: Vec<WorkerPass<C>>) -> C
        requires sessions { All (λ p. IsPassOf self.turn p) sessions.items }
        requires helpers { All (λ p. IsPassOf self.turn p) helpers.items }
        requires all { length sessions.items + length helpers.items ≡ self.turn.passes }
        ensures led { Leads (Event C.calls C.parts C.takes C.gives C.sweeps) self.turn.mark result }
        ensures phase { (C.shown result).phase ≡ (C.shown self.turn.mark).phase }
        ensures history { Lengthens maker self.turn.passes self.turn.opening (C.shown result).history }
        ensures legal { IsLegal (C.shown result).history }
        ensures sessions { All (λ p. GoesOn maker p.number p.seen (C.shown result).history) sessions.items }
        ensures helpers { All (λ p. GoesOn maker p.number p.seen (C.shown result).history) helpers.items }
        ensures each { (n : ℕ) → n < self.turn.passes → IsNumbered n (sessions.items ++ helpers.items) }
    {
        let Shared {
            turn,
            last: _,
            bell: _,
        } = self;
        let Kept { core, first: _ } = turn.close(sessions, helpers);
        let _legal = core.history();
        core
    }

    /// Makes a call of the session of a pass. A FETCH takes at most 64 turns, of which the 64th runs to the answer; every
    /// other call takes one. `NoMemory` leaves the history without the call.
    pub fn call<R: Wait, G: Gate>(
        &self,
        rt: &R,
        pass: &mut SessionPass<C>,
        text: &str,
        gate: &G,
    ) -> Result<Reply, NoMemory>
        requires own { IsPassOf self.now.turn pass.old }
        requires number { pass.old.number < 8 }
        requires left { 64 ≤ pass.old.left }
        requires short { length text.now ≤ 4096 }
        ensures own { IsPassOf self.now.turn pass.new × (pass.new.number ≡ pass.old.number) }
        ensures turns { TakesTurns text.now pass.old pass.new }
        ensures ok { IfOk result (λ reply. Replied pass.old.number (C.shown self.now.turn.mark).phase text.now reply pass.old.seen pass.new.seen) }
        ensures err { OnErr result (Unanswered pass.old.number pass.old.seen pass.new.seen) }
    {
        let answer = self.turns(rt, pass, text);
        if let Ok(reply) = &answer {
            if matches!(reply, Reply::Opened) {
                self.bell.ring();
            }
            gate.at(Place::Answered(pass.number() as u8 + 1));
        }
        answer
    }

    // The first turn of a call, and the others of a FETCH.
    fn turns<R: Wait>(
        &self,
        rt: &R,
        pass: &mut SessionPass<C>,
        text: &str,
    ) -> Result<Reply, NoMemory>
        requires own { IsPassOf self.now.turn pass.old }
        requires number { pass.old.number < 8 }
        requires left { 64 ≤ pass.old.left }
        requires short { length text.now ≤ 4096 }
        ensures own { IsPassOf self.now.turn pass.new × (pass.new.number ≡ pass.old.number) }
        ensures turns { TakesTurns text.now pass.old pass.new }
        ensures ok { IfOk result (λ reply. Replied pass.old.number (C.shown self.now.turn.mark).phase text.now reply pass.old.seen pass.new.seen) }
        ensures err { OnErr result (Unanswered pass.old.number pass.old.seen pass.new.seen) }
    {
        match self.step(rt, pass, text) {
            Ok(Some(reply)) => return Ok(reply),
            Ok(None) => {}
            Err(NoMemory) => return Err(NoMemory),
        }
        self.fetch(rt, pass, text)
    }

    // The turns of a FETCH after its first one.
    fn fetch<R: Wait>(
        &self,
        rt: &R,
        pass: &mut SessionPass<C>,
        text: &str,
    ) -> Result<Reply, NoMemory>
        requires own { IsPassOf self.now.turn pass.old }
        requires number { pass.old.number < 8 }
        requires left { 63 ≤ pass.old.left }
        requires short { length text.now ≤ 4096 }
        ensures own { IsPassOf self.now.turn pass.new × (pass.new.number ≡ pass.old.number) }
        ensures granted { pass.new.taken + pass.new.left ≡ pass.old.taken + pass.old.left }
        ensures most { pass.new.taken ≤ pass.old.taken + 63 }
        ensures ok { IfOk result (λ reply. Replied pass.old.number (C.shown self.now.turn.mark).phase text.now reply pass.old.seen pass.new.seen) }
        ensures err { OnErr result (Unanswered pass.old.number pass.old.seen pass.new.seen) }
    {
        'turns: for _round in 0..MORE_TURNS {
            match self.step(rt, pass, text) {
                Ok(Some(reply)) => return Ok(reply),
                Ok(None) => {}
                Err(NoMemory) => return Err(NoMemory),
            }
        }
        self.whole(rt, pass, text)
    }

    // One turn's part of a call.
    fn step<R: Wait>(
        &self,
        rt: &R,
        pass: &mut SessionPass<C>,
        text: &str,
    ) -> Result<Option<Reply>, NoMemory>
        requires own { IsPassOf self.now.turn pass.old }
        requires number { pass.old.number < 8 }
        requires left { 0 < pass.old.left }
        requires short { length text.now ≤ 4096 }
        ensures own { IsPassOf self.now.turn pass.new × (pass.new.number ≡ pass.old.number) }
        ensures left { (pass.new.taken ≡ pass.old.taken + 1) × (pass.new.left + 1 ≡ pass.old.left) }
        ensures ok { IfOk result (Turned pass.old.number (C.shown self.now.turn.mark).phase text.now pass.old.seen pass.new.seen) }
        ensures err { OnErr result (Unanswered pass.old.number pass.old.seen pass.new.seen) }
    {
        let mut work = StepTurn::new(pass.number() as u8 + 1, text);
        self.turn.with(rt, pass, &mut work)
    }

    // The turn that runs a call to its answer.
    fn whole<R: Wait>(
        &self,
        rt: &R,
        pass: &mut SessionPass<C>,
        text: &str,
    ) -> Result<Reply, NoMemory>
        requires own { IsPassOf self.now.turn pass.old }
        requires number { pass.old.number < 8 }
        requires left { 0 < pass.old.left }
        requires short { length text.now ≤ 4096 }
        ensures own { IsPassOf self.now.turn pass.new × (pass.new.number ≡ pass.old.number) }
        ensures left { (pass.new.taken ≡ pass.old.taken + 1) × (pass.new.left + 1 ≡ pass.old.left) }
        ensures ok { IfOk result (λ reply. Replied pass.old.number (C.shown self.now.turn.mark).phase text.now reply pass.old.seen pass.new.seen) }
        ensures err { OnErr result (Unanswered pass.old.number pass.old.seen pass.new.seen) }
    {
        let mut work = CallTurn::new(pass.number() as u8 + 1, text);
        self.turn.with(rt, pass, &mut work)
    }

    /// Does a worker's part: a piece is taken in one turn, sieved in none, and given in another. Where no open cursor
    /// awaits a piece, the store is swept a step in the first turn, and there is no second. The history gains no entry.
    pub fn help<R: Wait, G: Gate>(
        &self,
        rt: &R,
        pass: &mut WorkerPass<C>,
        gate: &G,
    ) -> Result<Helped, NoMemory>
        requires own { IsPassOf self.now.turn pass.old }
        requires number { 8 ≤ pass.old.number }
        requires left { 2 ≤ pass.old.left }
        ensures own { IsPassOf self.now.turn pass.new × (pass.new.number ≡ pass.old.number) }
        ensures granted { pass.new.taken + pass.new.left ≡ pass.old.taken + pass.old.left }
        ensures turns { IfOk result (λ helped. pass.new.taken ≡ pass.old.taken + turns_of helped) }
        ensures most { pass.new.taken ≤ pass.old.taken + 2 }
        ensures seen { Unanswered pass.old.number pass.old.seen pass.new.seen }
        ensures idle { IfOk result (TellsIdle pass.new.seen) }
    {
        let piece = match self.take(rt, pass) {
            Ok(Cutting::Piece(piece)) => piece,
            Ok(Cutting::Idle { cursors }) => return Ok(Helped::Idle { cursors }),
            Err(NoMemory) => return Err(NoMemory),
        };
        self.last.store(piece.id().cursor, Ordering::SeqCst);
        gate.at(Place::Cut);
        match self.give(rt, pass, sieve(piece)) {
            Ok(given) => Ok(Helped::Worked(given)),
            Err(NoMemory) => Err(NoMemory),
        }
    }

    /// How often the bell for workers has rung. It rings at each OPEN that was answered, and at `ring`.
    pub fn rings(&self) -> u64 {
        self.bell.rings()
    }

    /// Wakes the workers that rest, as a session does that makes no further call.
    pub fn ring(&self) {
        self.bell.ring();
    }

    /// Lets a worker rest that had nothing to do, until the bell rings once more than it had heard before it helped, and
    /// for a millisecond at most.
    pub fn rest<R: Wait>(&self, rt: &R, heard: u64) {
        self.bell.rest(rt, heard);
    }

    // The turn in which a piece is taken.
    fn take<R: Wait>(&self, rt: &R, pass: &mut WorkerPass<C>) -> Result<Cutting, NoMemory>
        requires own { IsPassOf self.now.turn pass.old }
        requires left { 0 < pass.old.left }
        ensures own { IsPassOf self.now.turn pass.new × (pass.new.number ≡ pass.old.number) }
        ensures left { (pass.new.taken ≡ pass.old.taken + 1) × (pass.new.left + 1 ≡ pass.old.left) }
        ensures seen { Unanswered pass.old.number pass.old.seen pass.new.seen }
        ensures tells { IfOk result (TellsOf pass.new.seen) }
    {
        let mut work = TakeTurn::new(self.last.load(Ordering::SeqCst), pass.number());
        self.turn.with(rt, pass, &mut work)
    }

    // The turn in which it is given.
    fn give<R: Wait>(
        &self,
        rt: &R,
        pass: &mut WorkerPass<C>,
        sieved: Sieved,
    ) -> Result<Given, NoMemory>
        requires own { IsPassOf self.now.turn pass.old }
        requires left { 0 < pass.old.left }
        ensures own { IsPassOf self.now.turn pass.new × (pass.new.number ≡ pass.old.number) }
        ensures left { (pass.new.taken ≡ pass.old.taken + 1) × (pass.new.left + 1 ≡ pass.old.left) }
        ensures seen { Unanswered pass.old.number pass.old.seen pass.new.seen }
    {
        let mut work = GiveTurn::new(sieved, pass.number());
        self.turn.with(rt, pass, &mut work)
    }
}

// The passes of the sessions, and in a list with room those of the workers.
fn part<C: Served + Send + Drop>(
    turn: &Turn<Kept<C>>,
    mut passes: Vec<SessionPass<C>>,
    mut helpers: Vec<WorkerPass<C>>,
    workers: u32,
) -> (Vec<SessionPass<C>>, Vec<WorkerPass<C>>)
    requires room { (helpers.items ≡ []) × (workers ≤ vec_capacity helpers) }
    requires count { length passes.items ≡ 8 + workers }
    requires passes { All (λ p. IsFresh turn.now p) passes.items }
    requires numbers { (k : ℕ) (d : _) → k < 8 + workers → (slice_index_or passes.items k d).number ≡ k }
    ensures count { (length result.0.items ≡ 8) × (length result.1.items ≡ workers) }
    ensures sessions { All (λ p. IsFresh turn.now p) result.0.items }
    ensures helpers { All (λ p. IsFresh turn.now p) result.1.items }
    ensures workers { All (λ p. 8 ≤ p.number) result.1.items }
    ensures numbers { (k : ℕ) (d : _) → k < 8 → (slice_index_or result.0.items k d).number ≡ k }
{
    'workers: for _worker in 0..workers {
        let pass = last_of(&mut passes);
        helpers.push(pass).unwrap();
    }
    (passes, helpers)
}

// The last pass of a list, which leaves it.
fn last_of<C: Served + Send + Drop>(passes: &mut Vec<SessionPass<C>>) -> SessionPass<C>
    requires { 0 < length passes.old.items }
    ensures { passes.old.items ≡ passes.new.items ++ result ∷ [] }
{
    let Some(pass) = passes.pop() else {
        unreachable!()
    };
    pass
}
