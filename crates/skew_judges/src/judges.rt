//! The judges.

ghost use Rattle.std.specs.Prelude.{◌≡◌};
ghost use Rattle.skew_judges.specs.Rules.{all_rows, first_rows};

use crate::rules::{is_building, is_dear, is_dropped, was_tried};
use rv_judge::{Facts, Judge, Verdict};

/// A judge for whoever fetches all rows. It stops the foreground, whose fetches a second list may make needless, and
/// drops a scan that is likely to cost much more than what is guaranteed without it.
#[derive(Clone, Copy, Default)]
pub struct AllRows;

impl AllRows {
    /// The judge, which has no state.
    pub fn new() -> AllRows {
        AllRows
    }
}

impl Judge for AllRows {
    ghost state = { λ _. 0 };

    ghost would = { λ _ _ facts. record { verdict = all_rows facts; next = 0 } };

    fn rule(&mut self, facts: &Facts) -> Verdict {
        for_all_rows(facts)
    }
}

/// A judge for whoever wants the first row soon and may fetch all of them. It lets the foreground fetch what is listed
/// until a row was given or about 48 keys were tried, and then goes on as `AllRows` does.
#[derive(Clone, Copy, Default)]
pub struct FirstRows;

impl FirstRows {
    /// The judge, which has no state.
    pub fn new() -> FirstRows {
        FirstRows
    }
}

impl Judge for FirstRows {
    ghost state = { λ _. 0 };

    ghost would = { λ _ _ facts. record { verdict = first_rows facts; next = 0 } };

    fn rule(&mut self, facts: &Facts) -> Verdict {
        if !is_building(facts.control) {
            for_all_rows(facts)
        } else if is_dear(facts) {
            Verdict::AbandonScan
        } else if was_tried(facts) {
            Verdict::AbandonForeground
        } else {
            Verdict::Continue
        }
    }
}

fn for_all_rows(facts: &Facts) -> Verdict
    ensures { result ≡ all_rows facts.now }
{
    if is_dropped(facts) {
        Verdict::AbandonScan
    } else if is_building(facts.control) {
        Verdict::AbandonForeground
    } else {
        Verdict::Continue
    }
}
