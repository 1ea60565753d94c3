//! A guard around a judge.

ghost use Rattle.std.specs.Prelude.{◌≡◌, ◌*◌, ◌^◌, nat_le};
ghost use Rattle.skew_judges.specs.Guard.{GuardedAreBounded, IsBounded, SharesAreLess, guarded, held_back, is_lent, is_long, is_sunk, keys_before, listed, parts};

use crate::rules::is_building;
use rv_judge::{Facts, Judge, Verdict, project};

/// A judge within a guard, which trusts no estimate: a scan goes on only while the leaves that it has read, but one, are
/// fewer than its share of the guarantee, and the keys that are listed fewer than the guarantee. Where it is dropped for
/// that the judge within is not asked.
#[derive(Drop)]
pub struct Bounded<J: Judge> {
    judge: J,
}

impl<J: Judge> Bounded<J> {
    /// A guard around this judge, which stands where it stood.
    pub fn new(judge: J) -> Bounded<J>
        ensures guards { ⟦<Bounded<J> as Judge>⟧.would result ≡ guarded (J.would judge) }
        ensures stands { ⟦<Bounded<J> as Judge>⟧.state result ≡ J.state judge }
        ensures bounded { IsBounded (⟦<Bounded<J> as Judge>⟧.would result) }
    {
        Bounded { judge }
    }
}

impl<J: Judge> Judge for Bounded<J> {
    ghost state = { λ bounded. J.state bounded.judge };

    ghost would = { λ bounded. guarded (J.would bounded.judge) };

    fn rule(&mut self, facts: &Facts) -> Verdict {
        if is_sunk(facts) || is_long(facts) {
            return Verdict::AbandonScan;
        }
        let answer = self.judge.rule(facts);
        held_back(facts, answer)
    }
}

/// A law: whatever judge is guarded, the two together are bounded.
pub fn guarded_are_bounded()
    ensures { GuardedAreBounded }
{}

/// A law: what all scans may sink comes to less than what is guaranteed.
pub fn shares_are_less()
    ensures { SharesAreLess }
{}

/// The keys that the members of a union before the present one have put together.
pub fn keys_before(facts: &Facts) -> u64
    ensures { result ≡ keys_before facts.now }
{
    if facts.projected == u64::MAX {
        return u64::MAX;
    }
    let total = facts.estimate.max(facts.scanned);
    facts
        .projected
        .saturating_sub(project(total, facts.scanned, facts.kept))
}

/// The keys that are listed so far.
pub fn listed(facts: &Facts) -> u128
    ensures { result ≡ listed facts.now }
{
    u128::from(facts.kept) + u128::from(keys_before(facts))
}

/// Whether the scan has sunk its share of the guarantee.
pub fn is_sunk(facts: &Facts) -> bool
    ensures { result ≡ is_sunk facts.now }
{
    let (times, doublings) = parts_of(facts.scan);
    let factor = u128::from(times);
    let beside = u128::from(facts.spent.saturating_sub(1));
    comes_to(factor * beside, doublings, facts.guaranteed)
}

/// Into how many parts the guarantee is cut: a factor, and how often it is doubled.
fn parts_of(scan: u32) -> (u64, u32)
    ensures { parts scan ≡ result.0 * 2 ^ result.1 }
{
    if scan == 0 {
        (8, 0)
    } else if scan == 1 {
        (2, 0)
    } else if scan == 2 {
        (4, 0)
    } else {
        (2, scan)
    }
}

/// Whether as many keys are listed as reads are guaranteed.
pub fn is_long(facts: &Facts) -> bool
    ensures { result ≡ is_long facts.now }
{
    listed(facts) >= u128::from(facts.guaranteed)
}

/// Whether the foreground may fetch too many keys of the scan's list.
pub fn is_lent(facts: &Facts) -> bool
    ensures { result ≡ is_lent facts.now }
{
    comes_to(8 * u128::from(facts.kept), facts.scan, facts.guaranteed)
}

/// Whether a count, doubled so many times, comes to a number. It stays at the greatest `u128` where it would pass it.
fn comes_to(count: u128, doublings: u32, number: u64) -> bool
    ensures { result ≡ nat_le number (count * 2 ^ doublings) }
{
    count.saturating_mul(2u128.saturating_pow(doublings)) >= u128::from(number)
}

fn held_back(facts: &Facts, answer: Verdict) -> Verdict
    ensures { result ≡ held_back facts.now answer }
{
    match answer {
        Verdict::Continue if is_building(facts.control) && is_lent(facts) => {
            Verdict::AbandonForeground
        }
        answer => answer,
    }
}
