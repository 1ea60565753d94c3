//! Offers that are gathered, sorted, and given in order.
ghost use Rattle.std.specs.Prelude.{◌≡◌, [], ◌∷◌, length, IfOk, OnOk, OnErr};
ghost use Rattle.std.specs.List.Sorted.{IsPermutation, IsSortedBy};
ghost use Rattle.rv_join.specs.Alone.{Fetches, GatherSpends, StackAsks, StepsOnce, level_effort};
ghost use Rattle.rv_join.specs.Asking.{CanRun};
ghost use Rattle.rv_access.specs.Accesses.{SamePlans};
ghost use Rattle.rv_join.specs.Levels.{StackFits, first_of};
ghost use Rattle.rv_join.specs.Moves.{Kept, Rises};
ghost use Rattle.rv_join.specs.Order.{before};
ghost use Rattle.rv_join.specs.Plans.{Gathers, Taken};

use crate::kept::{keep, sort, take};
use crate::places::Asked;
use crate::stack::Stack;
use rv_judge::{Judge, Steps};
use rv_model::Offer;
use rv_reader::{Reader, Step};
use rv_value::NoMemory;
use std::alloc::Global;
use std::marker::Model;

/// How a plan's offers come.
#[derive(Clone, Copy, PartialEq, Eq)]
pub enum Stage {
    /// As the nested loops find them.
    AsFound,
    /// They are gathered first.
    Gathering,
    /// All are gathered and sorted, and are given one after another.
    Giving,
}

/// Offers gathered, as they come: the first one stands last.
#[derive(Drop)]
pub struct Gathered {
    offers: Vec<Offer>,
}

impl Model for Gathered {
    ghost use Rattle.std.specs.Prelude.{List, reverse};
    ghost use Rattle.rv_model.specs.declared.state.Offer.{Offer as OneOffer};

    ghost Value = { List OneOffer };

    ghost view = { λ g. reverse g.offers.items };
}

impl Gathered {
    /// Nothing gathered. It takes no memory.
    pub fn new(alloc: Global) -> Gathered
        ensures { result ≡ [] }
    {
        Gathered {
            offers: Vec::new(alloc),
        }
    }

    /// One step of nested loops, whose combination, if it gives one, is put to those gathered. The answer is whether all
    /// are gathered.
    #[tactic(auto, using(crate::proofs::Planning::gathered_more, crate::proofs::Planning::moving_more, crate::proofs::OneItem::no_call, rv_access::proofs::Accesses::plans_stay))]
    pub fn gather<R: Reader>(
        &mut self,
        alloc: Global,
        asked: &Asked,
        stack: &mut Stack,
        reader: &R,
        judge: &mut Box<dyn Judge>,
        steps: &mut Steps<R::Ledger>,
    ) -> Result<bool, NoMemory>
        requires can { CanRun asked.now (R.shown reader.now) }
        requires fits { StackFits asked.now (R.shown reader.now) stack.old }
        ensures gathers { IfOk result (λ all. Gathers all asked.now (R.shown reader.now) stack.old self.old stack.new self.new) }
        ensures alone { length asked.now.items ≡ 1 → Rises (first_of stack.old).here (first_of stack.new).here steps.old steps.new }
        ensures stays { would judge.new ≡ would judge.old }
        ensures asks { StackAsks (would judge.old) (state judge.old) (state judge.new) asked.now (R.shown reader.now) steps.old steps.new stack.old stack.new }
        ensures once { length asked.now.items ≡ 1 → StepsOnce (would judge.old) (state judge.old) (state judge.new) (R.shown reader.now) steps.old steps.new stack.old.at stack.new.at }
        ensures spends { length asked.now.items ≡ 1 → IfOk result (λ all. GatherSpends all steps.old steps.new (level_effort (R.shown reader.now) stack.old.at) (level_effort (R.shown reader.now) stack.new.at)) }
        ensures fetches { length asked.now.items ≡ 1 → OnOk result (Fetches (R.shown reader.now) steps.old steps.new stack.old.at.here stack.new.at.here) }
        ensures plans { SamePlans (first_of stack.old).here (first_of stack.new).here }
        ensures kept { OnErr result (Kept asked.now (R.shown reader.now) stack.old stack.new) }
        ensures same { OnErr result (self.new ≡ self.old) }
    {
        self.offers.reserve(1)?;
        match stack.advance(alloc, asked, reader, judge, steps)? {
            Step::Row(offer) => {
                keep(&mut self.offers, offer);
                Ok(false)
            }
            Step::Working => Ok(false),
            Step::End => Ok(true),
        }
    }

    /// Sorts all that is gathered. With want of memory all is still there, in some order.
    pub fn sort(&mut self) -> Result<(), NoMemory>
        ensures same { IsPermutation self.old self.new }
        ensures sorted { OnOk result (IsSortedBy before self.new) }
    {
        sort(&mut self.offers)
    }

    /// Takes the first offer, once they are sorted; None where none is left. None of the others is moved.
    pub fn take(&mut self) -> Option<Offer>
        ensures taken { Taken result self.old self.new }
    {
        take(&mut self.offers)
    }
}
