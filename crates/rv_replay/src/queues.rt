//! What a cursor has left to offer, and whether it may give a reply.
ghost use Rattle.std.specs.Prelude.{◌≡◌, ◌==◌, ◌<◌, ◌≤◌, IfOk, OnOk, Some, length, nat_lt, slice_get};
ghost use Rattle.std.specs.Option.{option_copied};
ghost use Rattle.rv_lang.specs.declared.reply.Reply.TheVariants.{Row};
ghost use Rattle.rv_rows.specs.Rising.{Rising};
ghost use Rattle.rv_blocks.specs.Flat.{Turns};
ghost use Rattle.rv_model.specs.Offers.{offer_cmp, offers_in_order, same_values, with_offer};
ghost use Rattle.rv_replay.specs.Judging.{JudgesOffers};
ghost use Rattle.rv_replay.specs.Queues.{AreTaken, IsFront, IsGiven, IsQueue, alike_at, all_of, comes_before, fits_at, is_under, may_give, one_less, one_more};

use rv_blocks::{Front, turn_in};
use rv_lang::Reply;
use rv_model::Offer;
use rv_value::{Items, NoMemory, Value, Values, cmp_values};
use std::alloc::Global;
use std::cmp::Ordering;
use std::marker::Model;

/// Equal offers, of which so many are left.
#[derive(Drop)]
pub struct Alike {
    pub offer: Offer,
    pub left: u64,
}

/// The offers that a cursor has left, in the order of the one-thread database. An offer that is taken out is counted
/// down in its place, which a binary search finds, so that no other one moves; `front` is the first place of which one
/// is left.
#[derive(Drop)]
pub struct OfferQueue {
    front: usize,
    alike: Vec<Alike>,
}

impl Model for OfferQueue {
    ghost use Rattle.std.specs.Prelude.{List};
    ghost use Rattle.rv_model.specs.declared.state.Offer.{Offer as OneOffer};
    ghost use Rattle.rv_replay.specs.Queues.{IsQueue, all_of};

    ghost Value = { List OneOffer };

    ghost view = { λ q. all_of q.alike.items };

    ghost invariant = { λ q. IsQueue q.front q.alike.items };
}

impl OfferQueue {
    /// Whether no offer is left.
    fn is_empty(&self) -> bool
        ensures { result ≡ (length self.now == 0) }
    {
        are_taken(self.alike.as_slice(), self.front)
    }

    /// Whether an offer returns these values with the first offer's order values. Where one does, it is taken out.
    fn take_values(&mut self, values: &Values) -> bool
        ensures { JudgesOffers result self.old (Row values.now) self.new }
    {
        take_row(&mut self.front, &mut self.alike, values)
    }
}

/// The offers in the order of the one-thread database.
pub fn queue_of(alloc: Global, offers: Vec<Offer>) -> Result<OfferQueue, NoMemory>
    ensures { IfOk result (λ queue. queue ≡ offers_in_order offers.items) }
{
    let offers = sorted(offers)?;
    let alike = put_all(alloc, offers)?;
    let front = first_left(alike.as_slice(), 0);
    Ok(OfferQueue { front, alike })
}

/// The same offers in their order, so that each is then put in at the end.
fn sorted(offers: Vec<Offer>) -> Result<Vec<Offer>, NoMemory>
    ensures sorted { IfOk result (λ new. new.items ≡ offers_in_order offers.items) }
    ensures same { IfOk result (λ new. offers_in_order new.items ≡ offers_in_order offers.items) }
{
    let mut new = offers;
    new.sort()?;
    Ok(new)
}

fn put_all(alloc: Global, offers: Vec<Offer>) -> Result<Vec<Alike>, NoMemory>
    ensures all { IfOk result (λ alike. all_of alike.items ≡ offers_in_order offers.items) }
    ensures rises { IfOk result (λ alike. Rising comes_before alike.items) }
{
    let mut alike = Vec::new(alloc);
    'offers: for offer in offers {
        put(&mut alike, offer)?;
    }
    Ok(alike)
}

/// Puts an offer to those that are equal to it, or into its place where there are none.
fn put(alike: &mut Vec<Alike>, offer: Offer) -> Result<(), NoMemory>
    requires { Rising comes_before alike.old.items }
    ensures all { OnOk result (all_of alike.new.items ≡ with_offer offer (all_of alike.old.items)) }
    ensures rises { OnOk result (Rising comes_before alike.new.items) }
{
    let place = place_of(alike.as_slice(), &offer.order, &offer.returned);
    if fits_at(alike.as_slice(), place, &offer, &offer.returned) {
        drop(offer);
        one_more(alike, place)?;
        return Ok(());
    }
    alike.insert(place, Alike { offer, left: 1 })?;
    Ok(())
}

fn one_more(alike: &mut Vec<Alike>, place: usize) -> Result<(), NoMemory>
    requires { place < length alike.old.items }
    ensures { OnOk result (alike.new.items ≡ one_more alike.old.items place) }
{
    let left = alike[place].left;
    if left == u64::MAX {
        return Err(NoMemory);
    }
    alike[place].left = left + 1;
    Ok(())
}

fn one_less(alike: &mut Vec<Alike>, place: usize)
    requires within { place < length alike.old.items }
    requires some { 0 < (alike_at alike.old.items place).left }
    ensures { alike.new.items ≡ one_less alike.old.items place }
{
    alike[place].left -= 1;
}

/// Whether offers come before one of these values.
#[derive(Clone, Copy)]
struct Under<'a> {
    order: &'a Items<Value>,
    returned: &'a Values,
}

impl<'a> Front<Alike> for Under<'a> {
    ghost passes = { λ s a. is_under (record { order = s.order.now; returned = s.returned.now }) a };

    fn passes(&self, alike: &Alike) -> bool {
        cmp_sought(&alike.offer, self.order, self.returned) == Ordering::Less
    }
}

/// How an offer compares with one of these values.
fn cmp_sought(offer: &Offer, order: &Items<Value>, returned: &Values) -> Ordering
    ensures { result ≡ offer_cmp offer.now (record { order = order.now; returned = returned.now }) }
{
    match cmp_values(offer.order.as_slice(), order.as_slice()) {
        Ordering::Equal => cmp_values(offer.returned.as_slice(), returned.as_slice()),
        other => other,
    }
}

/// How many of these come before an offer of these values.
fn place_of(alike: &[Alike], order: &Items<Value>, returned: &Values) -> usize
    ensures { Turns (λ a. is_under (record { order = order.now; returned = returned.now }) a) alike.now result }
{
    turn_in(alike, &Under { order, returned })
}

/// Whether a cursor with these offers may give a reply. Where it may, what the reply gives is taken out.
pub fn take_given(offers: &mut OfferQueue, given: &Reply) -> bool
    ensures { JudgesOffers result offers.old given.now offers.new }
{
    match given {
        Reply::Row(values) => offers.take_values(values),
        Reply::End => offers.is_empty(),
        _ => false,
    }
}

fn take_row(front: &mut usize, alike: &mut Vec<Alike>, values: &Values) -> bool
    requires { IsQueue front.old alike.old.items }
    ensures judged { JudgesOffers result (all_of alike.old.items) (Row values.now) (all_of alike.new.items) }
    ensures queue { IsQueue front.new alike.new.items }
{
    match place_given(alike.as_slice(), *front, values) {
        Some(place) => {
            take_at(front, alike, place);
            true
        }
        None => false,
    }
}

/// Takes out one of the offers in a place.
fn take_at(front: &mut usize, alike: &mut Vec<Alike>, place: usize)
    requires queue { IsQueue front.old alike.old.items }
    requires within { place < length alike.old.items }
    requires some { 0 < (alike_at alike.old.items place).left }
    ensures rest { alike.new.items ≡ one_less alike.old.items place }
    ensures queue { IsQueue front.new alike.new.items }
{
    one_less(alike, place);
    *front = first_left(alike.as_slice(), *front);
}

/// The place of the offers that return these values with the first offer's order values, where one is left.
fn place_given(alike: &[Alike], front: usize, values: &Values) -> Option<usize>
    requires { IsQueue front alike.now }
    ensures { IsGiven alike.now values.now result }
{
    match first_of(alike, front) {
        Some(first) => place_for(alike, first, values),
        None => None,
    }
}

fn place_for(alike: &[Alike], first: &Offer, values: &Values) -> Option<usize>
    requires rises { Rising comes_before alike.now }
    requires begins { slice_get (all_of alike.now) 0 ≡ Some first.now }
    ensures { IsGiven alike.now values.now result }
{
    let place = place_of(alike, &first.order, values);
    if may_give(alike, place, first, values) {
        Some(place)
    } else {
        None
    }
}

/// The first offer that is left.
fn first_of(alike: &[Alike], front: usize) -> Option<&Offer>
    requires { IsFront front alike.now }
    ensures { option_copied result ≡ slice_get (all_of alike.now) 0 }
{
    match those_at(alike, front) {
        Some(first) => Some(&first.offer),
        None => None,
    }
}

/// The offers in a place; None behind the last ones.
fn those_at(alike: &[Alike], place: usize) -> Option<&Alike>
    ensures { option_copied result ≡ slice_get alike.now place }
{
    alike.get(place)
}

/// Whether none is left.
fn are_taken(alike: &[Alike], front: usize) -> bool
    requires { IsFront front alike.now }
    ensures { result ≡ (length (all_of alike.now) == 0) }
{
    match first_of(alike, front) {
        Some(_first) => false,
        None => true,
    }
}

/// The first place from another one on of which an offer is left, or the end.
fn first_left(alike: &[Alike], from: usize) -> usize
    requires within { from ≤ length alike.now }
    requires before { AreTaken alike.now from }
    ensures { IsFront result alike.now }
{
    'places: for place in from..alike.len() {
        if has_left(alike, place) {
            return place;
        }
    }
    alike.len()
}

fn has_left(alike: &[Alike], place: usize) -> bool
    requires { place < length alike.now }
    ensures { result ≡ nat_lt 0 (alike_at alike.now place).left }
{
    0 < alike[place].left
}

/// Whether the offers in a place fit.
fn fits_at(alike: &[Alike], place: usize, first: &Offer, values: &Values) -> bool
    ensures { result ≡ fits_at first.now values.now (slice_get alike.now place) }
{
    match alike.get(place) {
        None => false,
        Some(there) => fits(&there.offer, first, values),
    }
}

/// Whether the offers in a place fit and one of them is left.
fn may_give(alike: &[Alike], place: usize, first: &Offer, values: &Values) -> bool
    ensures { result ≡ may_give first.now values.now (slice_get alike.now place) }
{
    match alike.get(place) {
        None => false,
        Some(there) => 0 < there.left && fits(&there.offer, first, values),
    }
}

fn fits(offer: &Offer, first: &Offer, values: &Values) -> bool
    ensures { result ≡ Rattle.rv_replay.specs.Judging.fits first.now values.now offer.now }
{
    same_values(offer.order.as_slice(), first.order.as_slice())
        && same_values(offer.returned.as_slice(), values.as_slice())
}

fn same_values(a: &[Value], b: &[Value]) -> bool
    ensures { result ≡ same_values a.now b.now }
{
    cmp_values(a, b) == Ordering::Equal
}
