//! A judge of this program's own.
ghost use Rattle.own_judge.specs.Sharing.{at_share};

use rv_judge::{Facts, Judge, Verdict};

/// Drops a scan whose projected cost comes to 60 hundredths of the guaranteed one. The supplied threshold is at 95.
#[derive(Clone, Copy)]
pub struct Share;

impl Share {
    /// The judge, which has no state.
    pub fn new() -> Share {
        Share
    }
}

impl Judge for Share {
    ghost state = { λ _. 0 };

    ghost would = { λ _ _ facts. record { verdict = at_share facts; next = 0 } };

    fn rule(&mut self, facts: &Facts) -> Verdict {
        if 100 * u128::from(facts.projected) >= 60 * u128::from(facts.guaranteed) {
            Verdict::AbandonScan
        } else {
            Verdict::Continue
        }
    }
}
