//! What both judges go by: whether a scan is too dear to be finished.

ghost use Rattle.std.specs.Prelude.{◌≡◌};
ghost use Rattle.skew_judges.specs.Rules.{likely_entries, likely_cost, is_dear, may_be_few, leaves_granted, is_dropped, is_building, was_tried};

use rv_judge::{Control, Facts, project};

/// How many entries a range of this estimate is likely to have, at the usual filling of leaves and nodes.
pub fn likely_entries(estimate: u64) -> u64
    ensures { result ≡ likely_entries estimate }
{
    let more = if estimate < 256 {
        estimate / 4
    } else {
        estimate / 2
    };
    estimate.saturating_add(more)
}

/// The reads that finishing the scan and fetching its list is likely to cost.
pub fn likely_cost(facts: &Facts) -> u64
    ensures { result ≡ likely_cost facts.now }
{
    let total = likely_entries(facts.estimate).max(facts.scanned);
    project(total, facts.scanned, facts.kept)
}

/// Whether the scan is likely to cost too much beside what is guaranteed without it.
pub fn is_dear(facts: &Facts) -> bool
    ensures { result ≡ is_dear facts.now }
{
    let cost = likely_cost(facts);
    if facts.scan == 0 {
        4 * u128::from(cost) >= 7 * u128::from(facts.guaranteed)
    } else {
        cost >= facts.guaranteed
    }
}

/// Whether a range of this estimate may have far fewer entries: it lies over two neighbouring nodes.
pub fn may_be_few(estimate: u64) -> bool
    ensures { result ≡ may_be_few estimate }
{
    estimate == 256 || estimate == 4096 || estimate == 65536
}

/// How many leaves the scan reads before the one by which it may be dropped as dear.
pub fn leaves_granted(facts: &Facts) -> u64
    ensures { result ≡ leaves_granted facts.now }
{
    if may_be_few(facts.estimate) {
        1 + facts.guaranteed / 64
    } else if is_building(facts.control) {
        0
    } else {
        1
    }
}

/// Whether the scan is to be dropped.
pub fn is_dropped(facts: &Facts) -> bool
    ensures { result ≡ is_dropped facts.now }
{
    facts.spent > leaves_granted(facts) && is_dear(facts)
}

/// Whether the foreground runs beside the scan.
pub fn is_building(control: Control) -> bool
    ensures { result ≡ is_building control }
{
    match control {
        Control::Building => true,
        _ => false,
    }
}

/// Whether a foreground was tried long enough for the first rows.
pub fn was_tried(facts: &Facts) -> bool
    ensures { result ≡ was_tried facts.now }
{
    facts.delivered > 0 || facts.kept > 48 || facts.scan > 0
}
