//! Single retrievals whose reads are known from hand.
use crate::asked::{ANY, Asked, Span};
use crate::cases::{Case, Kind, add_plain};
use crate::drive::Way;
use crate::judges::Ruling;
use crate::load::Filling;
use rv_choice::Goal2;
use rv_loading::Fault;
use std::alloc::Global;

/// The first value is from 10 to 40 and the second from 30 to 70.
const BOTH: Asked = Asked {
    first: Some(Span { low: 10, high: 40 }),
    second: Some(Span { low: 30, high: 70 }),
    uses: [true, true, false, false],
    ..ANY
};

/// The first value is from 10 to 40, and the first rows are wanted soon.
const SOON: Asked = Asked {
    first: Some(Span { low: 10, high: 40 }),
    uses: [true, false, false, false],
    goal: Goal2::FastFirst,
    ..ANY
};

/// All rows are in the span, and the first ones are wanted soon.
const ALL_SOON: Asked = Asked {
    first: Some(Span {
        low: 0,
        high: 9223372036854775807,
    }),
    ..SOON
};

/// All rows are in the span, and an index has the columns needed.
const ALL_BY_INDEX: Asked = Asked {
    first: Some(Span {
        low: 0,
        high: 9223372036854775807,
    }),
    uses: [true, false, true, false],
    whole: false,
    ..ANY
};

const NO_STEP: Way = Way {
    steps: 0,
    late: 0,
    times: 1,
    after: None,
};

/// Five background steps after the fourth row, and no others.
const AFTER_FOUR: Way = Way {
    steps: 5,
    late: 0,
    times: 1,
    after: Some(4),
};

/// Of eighty rows whose second value is the first.
const TWO_LISTS: [Case; 2] = [
    Case {
        name: "two lists",
        asked: BOTH,
        kind: Kind::Single(Ruling::Patient, NO_STEP),
    },
    Case {
        name: "two scans dropped",
        asked: BOTH,
        kind: Kind::Single(Ruling::Threshold, NO_STEP),
    },
];

/// Of eighty rows whose second value is 0.
const FIRST_ROWS: [Case; 3] = [
    Case {
        name: "fast first borrows",
        asked: SOON,
        kind: Kind::Single(Ruling::Patient, AFTER_FOUR),
    },
    Case {
        name: "threshold drops",
        asked: SOON,
        kind: Kind::Single(Ruling::Threshold, AFTER_FOUR),
    },
    Case {
        name: "contrary stops",
        asked: SOON,
        kind: Kind::Single(Ruling::Contrary, AFTER_FOUR),
    },
];

/// Of 1,100 rows, more than the buffer of delivered rows has places.
const FULL: [Case; 2] = [
    Case {
        name: "full buffer",
        asked: ALL_SOON,
        kind: Kind::Single(Ruling::Patient, NO_STEP),
    },
    Case {
        name: "full buffer, by index alone",
        asked: ALL_BY_INDEX,
        kind: Kind::Single(Ruling::Patient, NO_STEP),
    },
];

/// The lines of the single retrievals.
pub fn add_singles(alloc: Global, lines: &mut Vec<String>) -> Result<(), Fault> {
    add_plain(alloc, 80, Filling::Same, "", &TWO_LISTS, lines)?;
    add_plain(alloc, 80, Filling::Zero, "", &FIRST_ROWS, lines)?;
    add_plain(alloc, 1100, Filling::Zero, "", &FULL, lines)
}
