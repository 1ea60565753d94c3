//! The core as the turn lock holds it.
ghost use Rattle.std.specs.Prelude.{◌≡◌, length};
ghost use Rattle.rv_shared.specs.Leads.{Event, Leads};

use crate::served::Served;
use rv_model::Entry;
use rv_turn::Held;
use std::snapshot::Snapshot;

/// The core as the turn lock holds it: its story is the history of its calls, and its mark is the core at opening. From
/// that one some order of events leads to it, none of which changes the phase.
#[derive(Drop)]
pub struct Kept<C: Served + Drop> {
    pub(crate) core: C,
    pub(crate) first: Snapshot<C>,
    ghost led: { Leads (Event C.calls C.parts C.takes C.gives C.sweeps) first.value core },
    ghost phase: { (C.shown core).phase ≡ (C.shown first.value).phase },
}

impl<C: Served + Drop> Kept<C> {
    /// A core that is opened.
    pub(crate) fn new(core: C) -> Kept<C>
        ensures core { result.core ≡ core }
        ensures first { result.first.value ≡ core }
    {
        let first = Snapshot::of(&core);
        Kept { core, first }
    }
}

impl<C: Served + Send + Drop> Held for Kept<C> {
    ghost use Rattle.rv_shared.specs.Told.{maker};

    type Item = Entry;

    type Mark = C;

    ghost story = { λ k. (C.shown k.core).history };

    ghost mark = { λ k. k.first.value };

    ghost maker = { maker };

    fn told(&self) -> u64 {
        self.core.history().len() as u64
    }
}
