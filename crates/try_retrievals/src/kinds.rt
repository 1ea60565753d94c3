//! What is asked of 400 rows, with every judge and in every way: a retrieval of each strategy, a race and a union.
use crate::asked::{ANY, Asked, Either, Span};
use crate::cases::{Case, Kind, add_plain};
use crate::load::Filling;
use rv_choice::Goal2;
use rv_loading::Fault;
use std::alloc::Global;

/// The indexes over the first and the second column are restricted, and the third column is in neither.
const WIDE: Asked = Asked {
    first: Some(Span { low: 60, high: 300 }),
    second: Some(Span {
        low: 120,
        high: 380,
    }),
    third: Some(Span { low: 10, high: 12 }),
    uses: [true, true, false, false],
    ..ANY
};

/// The first rows are wanted soon.
const WIDE_SOON: Asked = Asked {
    goal: Goal2::FastFirst,
    ..WIDE
};

/// Indexes may race.
const WIDE_RACE: Asked = Asked { race: true, ..WIDE };

/// A few entries of one index, and the first rows are wanted soon.
const SHORT: Asked = Asked {
    first: Some(Span {
        low: 100,
        high: 115,
    }),
    second: Some(Span { low: 50, high: 350 }),
    third: Some(Span { low: 10, high: 29 }),
    uses: [true, true, false, false],
    goal: Goal2::FastFirst,
    ..ANY
};

/// No entry.
const NONE: Asked = Asked {
    first: Some(Span {
        low: 900,
        high: 950,
    }),
    third: Some(Span { low: 10, high: 29 }),
    uses: [true, false, false, false],
    ..ANY
};

/// An index has the columns needed, and two others are restricted.
const COVERED: Asked = Asked {
    first: Some(Span {
        low: 100,
        high: 160,
    }),
    third: Some(Span { low: 10, high: 19 }),
    uses: [true, false, true, true],
    whole: false,
    ..ANY
};

/// The table is read although there are indexes.
const FREE: Asked = Asked {
    third: Some(Span { low: 10, high: 11 }),
    uses: [true, true, false, false],
    ..ANY
};

/// In the order of the third column.
const SORTED: Asked = Asked {
    first: Some(Span {
        low: 100,
        high: 150,
    }),
    second: Some(Span {
        low: 130,
        high: 380,
    }),
    uses: [true, true, false, true],
    sorted: true,
    ..ANY
};

/// The first value is low or the second one high.
const LOW_OR_HIGH: Either = Either {
    first: Some(Span { low: 60, high: 140 }),
    second: Some(Span {
        low: 300,
        high: 380,
    }),
    third: None,
    again: None,
};

/// No index is restricted, and a span of each of two columns is enough.
const OF_TWO: Asked = Asked {
    either: Some(LOW_OR_HIGH),
    uses: [true, true, false, false],
    ..ANY
};

const CASES: [Case; 9] = [
    Case {
        name: "table",
        asked: FREE,
        kind: Kind::All,
    },
    Case {
        name: "background only",
        asked: WIDE,
        kind: Kind::All,
    },
    Case {
        name: "fast first",
        asked: WIDE_SOON,
        kind: Kind::All,
    },
    Case {
        name: "sorted",
        asked: SORTED,
        kind: Kind::All,
    },
    Case {
        name: "index only",
        asked: COVERED,
        kind: Kind::All,
    },
    Case {
        name: "short",
        asked: SHORT,
        kind: Kind::All,
    },
    Case {
        name: "no entry",
        asked: NONE,
        kind: Kind::All,
    },
    Case {
        name: "race",
        asked: WIDE_RACE,
        kind: Kind::All,
    },
    Case {
        name: "union",
        asked: OF_TWO,
        kind: Kind::All,
    },
];

/// The lines of the kinds.
pub fn add_kinds(alloc: Global, lines: &mut Vec<String>) -> Result<(), Fault> {
    add_plain(alloc, 400, Filling::Same, "", &CASES, lines)
}
