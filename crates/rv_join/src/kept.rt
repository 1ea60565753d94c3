//! Offers that are gathered, as they come: the first one stands last.
ghost use Rattle.std.specs.Prelude.{◌≡◌, ◌+◌, ◌≤◌, ◌∷◌, reverse, OnOk};
ghost use Rattle.std.specs.List.Sorted.{IsPermutation, IsSortedBy};
ghost use Rattle.std.specs.Vec.{vec_capacity, vec_len};
ghost use Rattle.rv_value.specs.Order.{values_cmp};
ghost use Rattle.rv_join.specs.Order.{before};
ghost use Rattle.rv_join.specs.Plans.{Taken};

use rv_model::Offer;
use rv_value::{NoMemory, cmp_values};
use std::cmp::Ordering;

/// By the order values alone.
fn cmp_order(a: &Offer, b: &Offer) -> Ordering
    ensures { result ≡ values_cmp a.now.order b.now.order }
{
    cmp_values(a.order.as_slice(), b.order.as_slice())
}

/// Sorted by the order values; offers of equal ones stay in the order in which they came.
fn sort_offers(offers: &mut Vec<Offer>) -> Result<(), NoMemory>
    ensures same { IsPermutation offers.old.items offers.new.items }
    ensures sorted { OnOk result (IsSortedBy before offers.new.items) }
{
    offers.sort_by(|a, b| cmp_order(a, b))?;
    Ok(())
}

fn turn(offers: &mut Vec<Offer>)
    ensures { offers.new.items ≡ reverse offers.old.items }
{
    offers.as_mut_slice().reverse();
}

/// Sorts offers by their order values, and turns them, since the first one is taken from the end. Where the sort finds
/// no memory all are there, in some order.
pub fn sort(offers: &mut Vec<Offer>) -> Result<(), NoMemory>
    ensures same { IsPermutation (reverse offers.old.items) (reverse offers.new.items) }
    ensures sorted { OnOk result (IsSortedBy before (reverse offers.new.items)) }
{
    sort_offers(offers)?;
    turn(offers);
    Ok(())
}

/// Keeps an offer, which is then the first. There is room for it.
#[tactic(auto, using(crate::proofs::Collecting::first_kept))]
pub fn keep(offers: &mut Vec<Offer>, offer: Offer)
    requires { vec_len offers.old + 1 ≤ vec_capacity offers.old }
    ensures { reverse offers.new.items ≡ offer ∷ reverse offers.old.items }
{
    offers.push(offer).unwrap();
}

/// Takes the first offer, which stands at the end, so that none of the others is moved; None where none is left.
#[tactic(auto, using(crate::proofs::Collecting::none_taken))]
pub fn take(offers: &mut Vec<Offer>) -> Option<Offer>
    ensures { Taken result (reverse offers.old.items) (reverse offers.new.items) }
{
    let count = offers.len();
    if count == 0 {
        return None;
    }
    offers.pop()
}
