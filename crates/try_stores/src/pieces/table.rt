//! The table: a name, a query, and the acts that are done with a joint scan for it.
ghost use Rattle.std.specs.Prelude.{◌≡◌};
ghost use Rattle.try_stores.specs.Drawing.{Drawn, Lists};

use crate::pieces::acts::{Act, carry_out};
use crate::pieces::joint::{Name, Query, joint};
use crate::pieces::lines::{tell_state, tell_total};
use crate::told::Told;
use rv_jscan::Jscan;
use rv_judge::{Steps, Uncounted};
use rv_reader::Reader;
use rv_value::NoMemory;
use std::alloc::Global;

/// The first value is from 10 to 40 and the second from 30 to 70.
const BOTH: Query = Query {
    low: 10,
    high: 40,
    without: 99,
    second_low: 30,
    second_high: 70,
};

/// The same without the row 35.
const WITHOUT: Query = Query {
    low: 10,
    high: 40,
    without: 35,
    second_low: 30,
    second_high: 70,
};

/// No row has such a first value.
const NONE: Query = Query {
    low: 90,
    high: 95,
    without: 99,
    second_low: 30,
    second_high: 70,
};

const OWN: Name = Name {
    cursor: 1,
    opening: 1,
    turned: false,
};

const OTHER_CURSOR: Name = Name {
    cursor: 2,
    opening: 1,
    turned: false,
};

const OTHER_OPENING: Name = Name {
    cursor: 1,
    opening: 2,
    turned: false,
};

/// The same name, but the other index comes first.
const TURNED: Name = Name {
    cursor: 1,
    opening: 1,
    turned: true,
};

/// Each piece once.
const ONCE: [Act; 12] = [
    Act::Take,
    Act::Give(0),
    Act::Take,
    Act::Give(1),
    Act::Take,
    Act::Give(2),
    Act::Take,
    Act::Give(3),
    Act::Take,
    Act::Give(4),
    Act::Take,
    Act::Give(4),
];

/// The same of a list that becomes empty at once.
const EMPTY: [Act; 4] = [Act::Take, Act::Give(0), Act::Take, Act::Give(0)];

/// Pieces that are taken twice.
const TWICE: [Act; 9] = [
    Act::Take,
    Act::Take,
    Act::Give(1),
    Act::Give(0),
    Act::Take,
    Act::Take,
    Act::Give(1),
    Act::Give(3),
    Act::Give(2),
];

/// Pieces that are given twice and late.
const LATE: [Act; 11] = [
    Act::Take,
    Act::Give(0),
    Act::Give(0),
    Act::Take,
    Act::Give(0),
    Act::Give(1),
    Act::Give(1),
    Act::Take,
    Act::Give(0),
    Act::Give(1),
    Act::Give(2),
];

/// Pieces of other scans.
const OTHERS: [Act; 11] = [
    Act::TakeOther(OTHER_CURSOR),
    Act::TakeOther(OTHER_OPENING),
    Act::TakeOther(TURNED),
    Act::TakeOther(OWN),
    Act::Give(3),
    Act::Take,
    Act::Give(0),
    Act::Give(1),
    Act::Give(2),
    Act::Give(3),
    Act::Give(4),
];

/// The last piece of the first scan is never given.
const FIRST_NEVER: [Act; 14] = [
    Act::Take,
    Act::Give(0),
    Act::Take,
    Act::Abandon,
    Act::Give(1),
    Act::Take,
    Act::Give(1),
    Act::Give(2),
    Act::Take,
    Act::Give(3),
    Act::Take,
    Act::Give(4),
    Act::Take,
    Act::Abandon,
];

/// The last piece of the second scan is never given.
const SECOND_NEVER: [Act; 8] = [
    Act::Take,
    Act::Give(0),
    Act::Take,
    Act::Give(1),
    Act::Take,
    Act::Abandon,
    Act::Give(2),
    Act::Take,
];

/// No piece is given.
const NEITHER: [Act; 3] = [Act::Abandon, Act::Abandon, Act::Take];

fn do_all<R: Reader<Ledger = Uncounted>>(
    alloc: Global,
    told: &mut Told,
    reader: &R,
    snap: u64,
    query: Query,
    acts: &[Act],
    jscan: &mut Jscan,
    steps: &mut Steps<R::Ledger>,
) -> Result<(), NoMemory>
    requires lists { Lists (R.shown reader.now) snap }
    requires drawn { Drawn (R.shown reader.now) jscan.old }
{
    let mut pieces = Vec::new(alloc);
    'acts: for one in acts {
        carry_out(
            alloc,
            told,
            reader,
            snap,
            query,
            *one,
            jscan,
            &mut pieces,
            steps,
        )?;
        tell_state(told, jscan);
    }
    Ok(())
}

/// What the acts do, and the keys of the list then.
fn tell_acts<R: Reader<Ledger = Uncounted>>(
    alloc: Global,
    told: &mut Told,
    reader: &R,
    snap: u64,
    query: Query,
    acts: &[Act],
    jscan: &mut Jscan,
) -> Result<(), NoMemory>
    requires lists { Lists (R.shown reader.now) snap }
    requires drawn { Drawn (R.shown reader.now) jscan.old }
{
    let mut steps = Steps::new(Uncounted);
    let done = do_all(alloc, told, reader, snap, query, acts, jscan, &mut steps);
    tell_total(told, jscan, steps.counts().leaves);
    done
}

/// A row of the table.
fn row<R: Reader<Ledger = Uncounted>>(
    alloc: Global,
    told: &mut Told,
    reader: &R,
    snap: u64,
    name: &str,
    query: Query,
    acts: &[Act],
) -> Result<(), NoMemory>
    requires { Lists (R.shown reader.now) snap }
{
    told.word(name);
    let mut jscan = joint(alloc, reader, snap, query, OWN)?;
    let done = tell_acts(alloc, told, reader, snap, query, acts, &mut jscan);
    drop(jscan);
    done
}

/// The name, the query and the acts of the row of a number.
fn row_at(number: u32) -> (&'static str, Query, &'static [Act]) {
    match number {
        0 => ("each once\n", BOTH, &ONCE),
        1 => ("one row does not pass\n", WITHOUT, &ONCE),
        2 => ("an empty list\n", NONE, &EMPTY),
        3 => ("taken twice\n", BOTH, &TWICE),
        4 => ("given twice and late\n", BOTH, &LATE),
        5 => ("of another scan\n", BOTH, &OTHERS),
        6 => ("the first never given\n", BOTH, &FIRST_NEVER),
        7 => ("the second never given\n", BOTH, &SECOND_NEVER),
        _ => ("both abandoned\n", BOTH, &NEITHER),
    }
}

/// The lines of the whole table.
pub fn tell_table<R: Reader<Ledger = Uncounted>>(
    alloc: Global,
    told: &mut Told,
    reader: &R,
    snap: u64,
) -> Result<(), NoMemory>
    requires { Lists (R.shown reader.now) snap }
{
    'rows: for number in 0..9u32 {
        let (name, query, acts) = row_at(number);
        row(alloc, told, reader, snap, name, query, acts)?;
    }
    Ok(())
}
