//! A worker's help in two turns: a piece is taken, and after it was sieved it is given.
ghost use Rattle.std.specs.Prelude.{◌≡◌, ℕ, ◌-◌, List, ◌++◌, IfOk, IfSome, Some, is_none, false, true};
ghost use Rattle.rv_turn.specs.Story.{AllOf};
ghost use Rattle.rv_model.specs.History.{IsLegal};
ghost use Rattle.rv_model.specs.declared.entry.Entry.{Entry};
ghost use Rattle.rv_shared.specs.Told.{Cuts, GivesBack, TakesOn, TellsOf, maker};

use crate::kept::Kept;
use crate::served::Served;
use rv_jscan::{Given, Piece, Sieved, Taken};
use rv_model::Entry;
use rv_turn::Work;
use rv_value::NoMemory;

/// What a worker's first turn comes to.
#[derive(Drop)]
pub enum Cutting {
    /// A piece that is awaited.
    Piece(Piece),
    /// None is awaited.
    Idle {
        /// How many cursors are open.
        cursors: u32,
    },
}

/// A worker's first turn: a piece is taken, or the store is swept a step where no open cursor awaits a piece.
#[derive(Drop)]
pub struct TakeTurn {
    after: u64,
    maker: u32,
    done: bool,
}

impl TakeTurn {
    /// A turn of the pass `maker`, for the piece of the open cursor that is next after the cursor of the number `after`.
    pub fn new(after: u64, maker: u32) -> TakeTurn
        ensures { result ≡ record { after = after; maker = maker; done = false } }
    {
        TakeTurn {
            after,
            maker,
            done: false,
        }
    }
}

impl<C: Served + Send + Drop> Work<Kept<C>> for TakeTurn {
    ghost use Rattle.rv_shared.specs.Told.{TakesOn};

    type Answer = Result<Cutting, NoMemory>;

    ghost works_for = { λ w. w.maker };

    ghost was_run = { λ w. w.done };

    ghost means = { λ w first found left answer. TakesOn found left answer };

    fn run(&mut self, held: &mut Kept<C>) -> Result<Cutting, NoMemory>
        requires { self.old.done ≡ false }
        ensures adds { (items : List Entry) × ((C.shown held.new.core).history ≡ (C.shown held.old.core).history ++ items) × AllOf maker self.old.maker items }
        ensures mark { held.new.first.value ≡ held.old.first.value }
        ensures means { TakesOn (C.shown held.old.core).history (C.shown held.new.core).history result }
        ensures run { self.new.done ≡ true }
        ensures cut { Cuts C.takes C.sweeps held.old.core self.old.after result held.new.core }
        ensures same { C.shown held.new.core ≡ C.shown held.old.core }
    {
        self.done = true;
        let _legal = held.core.history();
        cut(&mut held.core, self.after)
    }
}

/// Takes the piece that is next after that of the cursor of the number `after`, or sweeps a step where none is awaited.
fn cut<C: Served>(core: &mut C, after: u64) -> Result<Cutting, NoMemory>
    requires legal { IsLegal (C.shown core.old).history }
    ensures cut { Cuts C.takes C.sweeps core.old after result core.new }
    ensures tells { IfOk result (TellsOf (C.shown core.new).history) }
    ensures same { C.shown core.new ≡ C.shown core.old }
{
    match core.take_piece(after) {
        Ok(Taken::Piece(piece)) => Ok(Cutting::Piece(piece)),
        Ok(Taken::Nothing) => {
            core.sweep_step();
            Ok(Cutting::Idle {
                cursors: core.open_cursors(),
            })
        }
        Err(NoMemory) => Err(NoMemory),
    }
}

/// A worker's second turn: its sieved piece is given.
#[derive(Drop)]
pub struct GiveTurn {
    sieved: Option<Sieved>,
    maker: u32,
}

impl GiveTurn {
    /// The turn in which the pass `maker` gives a piece that it has sieved.
    pub fn new(sieved: Sieved, maker: u32) -> GiveTurn
        ensures { result ≡ record { sieved = Some sieved; maker = maker } }
    {
        GiveTurn {
            sieved: Some(sieved),
            maker,
        }
    }
}

impl<C: Served + Send + Drop> Work<Kept<C>> for GiveTurn {
    ghost use Rattle.std.specs.Prelude.{is_none};
    ghost use Rattle.rv_shared.specs.Told.{GivesBack};

    type Answer = Result<Given, NoMemory>;

    ghost works_for = { λ w. w.maker };

    ghost was_run = { λ w. is_none w.sieved };

    ghost means = { λ w first found left answer. GivesBack found left };

    fn run(&mut self, held: &mut Kept<C>) -> Result<Given, NoMemory>
        requires { is_none self.old.sieved ≡ false }
        ensures adds { (items : List Entry) × ((C.shown held.new.core).history ≡ (C.shown held.old.core).history ++ items) × AllOf maker self.old.maker items }
        ensures mark { held.new.first.value ≡ held.old.first.value }
        ensures means { GivesBack (C.shown held.old.core).history (C.shown held.new.core).history }
        ensures run { is_none self.new.sieved ≡ true }
        ensures given { IfSome self.old.sieved (λ piece. C.gives held.old.core piece result held.new.core) }
        ensures same { C.shown held.new.core ≡ C.shown held.old.core }
    {
        let _legal = held.core.history();
        let Some(sieved) = self.sieved.take() else {
            unreachable!()
        };
        held.core.give_piece(sieved)
    }
}
