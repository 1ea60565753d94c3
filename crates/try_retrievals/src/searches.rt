//! Searches whose reads are known from hand.
use crate::asked::{ANY, Asked, Span};
use crate::cases::{Case, Kind, add_plain};
use crate::load::Filling;
use rv_loading::Fault;
use std::alloc::Global;

/// The first value is from 20 to 22. A search has the spans and the indexes alone.
const THREE: Asked = Asked {
    first: Some(Span { low: 20, high: 22 }),
    uses: [true, false, false, false],
    whole: false,
    ..ANY
};

/// The first value is from 10 to 40 and the second from 30 to 70.
const BOTH: Asked = Asked {
    first: Some(Span { low: 10, high: 40 }),
    second: Some(Span { low: 30, high: 70 }),
    uses: [true, true, false, false],
    ..THREE
};

/// The first value is at least 10.
const MANY: Asked = Asked {
    first: Some(Span {
        low: 10,
        high: 9223372036854775807,
    }),
    ..THREE
};

/// The first value is from 10 to 40, without an index.
const BY_PAGES: Asked = Asked {
    first: Some(Span { low: 10, high: 40 }),
    uses: [false, false, false, false],
    ..THREE
};

/// Of eighty rows whose second value is the first.
const EIGHTY: [Case; 5] = [
    Case {
        name: "short range",
        asked: THREE,
        kind: Kind::Search { patient: false },
    },
    Case {
        name: "two lists",
        asked: BOTH,
        kind: Kind::Search { patient: true },
    },
    Case {
        name: "two scans dropped",
        asked: BOTH,
        kind: Kind::Search { patient: false },
    },
    Case {
        name: "by index alone",
        asked: MANY,
        kind: Kind::Search { patient: true },
    },
    Case {
        name: "by pages",
        asked: BY_PAGES,
        kind: Kind::Search { patient: true },
    },
];

/// The lines of the searches.
pub fn add_searches(alloc: Global, lines: &mut Vec<String>) -> Result<(), Fault> {
    add_plain(alloc, 80, Filling::Same, "search, ", &EIGHTY, lines)
}
