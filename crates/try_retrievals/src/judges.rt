//! The judges of the table, and the ways of the background.

use crate::drive::Way;
use rv_judge::Verdict;
use rv_value::NoMemory;
use std::alloc::Global;

/// A judge, new for each retrieval.
#[derive(Clone, Copy)]
pub enum Ruling {
    Threshold,
    Patient,
    Contrary,
    /// It stops the foreground at the first question.
    StopsFirst,
    /// It ends the background at the second.
    EndsSecond,
    /// It drops the scan at the first and stops the foreground at the second.
    DropsThenStops,
    /// It ends the background at the fourth.
    EndsFourth,
    /// It drops the scans at the third and the fourth.
    DropsThird,
}

impl Ruling {
    /// Its words on a line of what is written.
    pub fn name(self) -> &'static str {
        match self {
            Ruling::Threshold => "threshold",
            Ruling::Patient => "patient",
            Ruling::Contrary => "contrary",
            Ruling::StopsFirst => "stops first",
            Ruling::EndsSecond => "ends second",
            Ruling::DropsThenStops => "drops, then stops",
            Ruling::EndsFourth => "ends fourth",
            Ruling::DropsThird => "drops third",
        }
    }
}

/// The verdicts of a judge that has a list of them, and none of the others.
pub fn verdicts(alloc: Global, ruling: Ruling) -> Result<Vec<Verdict>, NoMemory> {
    match ruling {
        Ruling::Threshold | Ruling::Patient | Ruling::Contrary => Ok(Vec::new(alloc)),
        Ruling::StopsFirst => Ok(vec![in alloc; Verdict::AbandonForeground]?),
        Ruling::EndsSecond => Ok(vec![in alloc; Verdict::Continue, Verdict::AbandonBackground]?),
        Ruling::DropsThenStops => {
            Ok(vec![in alloc; Verdict::AbandonScan, Verdict::AbandonForeground]?)
        }
        Ruling::EndsFourth => Ok(vec![in alloc;
            Verdict::Continue,
            Verdict::Continue,
            Verdict::Continue,
            Verdict::AbandonBackground,
        ]?),
        Ruling::DropsThird => Ok(vec![in alloc;
            Verdict::Continue,
            Verdict::Continue,
            Verdict::AbandonScan,
            Verdict::AbandonScan,
        ]?),
    }
}

/// A way of the background, by its name.
#[derive(Clone, Copy)]
pub enum Pace {
    NoStep,
    OneStep,
    FiveSteps,
    /// Each piece is given after another foreground step.
    Late,
    Twice,
    Never,
    /// Pieces are taken twice between two foreground steps, and given twice when three more are in hand.
    LateTwice,
}

impl Pace {
    /// Its words on a line of what is written.
    pub fn name(self) -> &'static str {
        match self {
            Pace::NoStep => "no step",
            Pace::OneStep => "one step",
            Pace::FiveSteps => "five steps",
            Pace::Late => "late",
            Pace::Twice => "twice",
            Pace::Never => "never",
            Pace::LateTwice => "late and twice",
        }
    }

    /// When it makes background steps, how late it gives a piece back, and how often.
    pub fn way(self) -> Way {
        match self {
            Pace::NoStep => paced(0, 0, 1),
            Pace::OneStep => paced(1, 0, 1),
            Pace::FiveSteps => paced(5, 0, 1),
            Pace::Late => paced(1, 1, 1),
            Pace::Twice => paced(1, 0, 2),
            Pace::Never => paced(1, 0, 0),
            Pace::LateTwice => paced(2, 3, 2),
        }
    }
}

fn paced(steps: u32, late: usize, times: u32) -> Way {
    Way {
        steps,
        late,
        times,
        after: None,
    }
}

pub const PACES: [Pace; 7] = [
    Pace::NoStep,
    Pace::OneStep,
    Pace::FiveSteps,
    Pace::Late,
    Pace::Twice,
    Pace::Never,
    Pace::LateTwice,
];

pub const RULINGS: [Ruling; 8] = [
    Ruling::Threshold,
    Ruling::Patient,
    Ruling::Contrary,
    Ruling::StopsFirst,
    Ruling::EndsSecond,
    Ruling::DropsThenStops,
    Ruling::EndsFourth,
    Ruling::DropsThird,
];
