//! A session's call in turns: one turn's part of it, and all that is left in one turn.
ghost use Rattle.std.specs.Prelude.{◌≡◌, ℕ, ◌+◌, ◌-◌, ◌≤◌, List, [], ◌∷◌, ◌++◌, length, IfOk, OnErr, false, true};
ghost use Rattle.rv_turn.specs.Story.{AllOf};
ghost use Rattle.rv_model.specs.History.{IsLegal};
ghost use Rattle.rv_shared.specs.Served.{Answers, AnswersPart};
ghost use Rattle.rv_shared.specs.Told.{CallsOn, StepsOn, maker};

use crate::kept::Kept;
use crate::served::Served;
use rv_lang::Reply;
use rv_turn::Work;
use rv_value::NoMemory;

/// One turn's part of a call.
#[derive(Drop)]
pub(crate) struct StepTurn<'a> {
    session: u8,
    text: &'a str,
    done: bool,
    ghost session_is: { (1 ≤ session) × (session ≤ 8) },
    ghost text_is: { length text.now ≤ 4096 },
}

impl<'a> StepTurn<'a> {
    /// What a turn has to do for one part of a call, before the turn comes.
    pub(crate) fn new(session: u8, text: &'a str) -> StepTurn<'a>
        requires session { (1 ≤ session) × (session ≤ 8) }
        requires short { length text.now ≤ 4096 }
        ensures session { result.session ≡ session }
        ensures text { result.text.now ≡ text.now }
        ensures unrun { result.done ≡ false }
    {
        StepTurn {
            session,
            text,
            done: false,
        }
    }
}

impl<'a, C: Served + Send + Drop> Work<Kept<C>> for StepTurn<'a> {
    ghost use Rattle.std.specs.Prelude.{◌-◌};
    ghost use Rattle.rv_shared.specs.Told.{StepsOn};

    type Answer = Result<Option<Reply>, NoMemory>;

    ghost works_for = { λ w. w.session - 1 };

    ghost was_run = { λ w. w.done };

    ghost means = { λ w first found left answer. StepsOn w.session (C.shown first).phase w.text.now found left answer };

    fn run(&mut self, held: &mut Kept<C>) -> Result<Option<Reply>, NoMemory> {
        self.done = true;
        held.core.call_step(self.session, self.text)
    }
}

/// A call to its answer.
#[derive(Drop)]
pub(crate) struct CallTurn<'a> {
    session: u8,
    text: &'a str,
    done: bool,
    ghost session_is: { (1 ≤ session) × (session ≤ 8) },
    ghost text_is: { length text.now ≤ 4096 },
}

impl<'a> CallTurn<'a> {
    /// What a turn has to do for a whole call, before the turn comes.
    pub(crate) fn new(session: u8, text: &'a str) -> CallTurn<'a>
        requires session { (1 ≤ session) × (session ≤ 8) }
        requires short { length text.now ≤ 4096 }
        ensures session { result.session ≡ session }
        ensures text { result.text.now ≡ text.now }
        ensures unrun { result.done ≡ false }
    {
        CallTurn {
            session,
            text,
            done: false,
        }
    }
}

impl<'a, C: Served + Send + Drop> Work<Kept<C>> for CallTurn<'a> {
    ghost use Rattle.std.specs.Prelude.{◌-◌};
    ghost use Rattle.rv_shared.specs.Told.{CallsOn};

    type Answer = Result<Reply, NoMemory>;

    ghost works_for = { λ w. w.session - 1 };

    ghost was_run = { λ w. w.done };

    ghost means = { λ w first found left answer. CallsOn w.session (C.shown first).phase w.text.now found left answer };

    fn run(&mut self, held: &mut Kept<C>) -> Result<Reply, NoMemory> {
        self.done = true;
        held.core.call(self.session, self.text)
    }
}
