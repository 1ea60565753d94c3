//! Whether two replies are the same.
ghost use Rattle.std.specs.Prelude.{◌≡◌, ◌↔◌, IsTrue};

use rv_judge::{Control, Strategy};
use rv_lang::{Refusal, Reply, Rival, Shown, ShownEvent, Which};
use rv_value::{RowNo, Text, Value};

/// Whether two replies are the same; here NULL is NULL.
pub fn same_reply(a: &Reply, b: &Reply) -> bool
    ensures { IsTrue result ↔ (a.now ≡ b.now) }
{
    match (a, b) {
        (Reply::Created, Reply::Created) => true,
        (Reply::Began(a), Reply::Began(b)) => *a == *b,
        (Reply::Inserted(a), Reply::Inserted(b)) => same_row(*a, *b),
        (Reply::Touched(a), Reply::Touched(b)) => *a == *b,
        (Reply::Committed(a), Reply::Committed(b)) => *a == *b,
        (Reply::RolledBack, Reply::RolledBack) => true,
        (Reply::Opened, Reply::Opened) => true,
        (Reply::Row(a), Reply::Row(b)) => same_values(a.as_slice(), b.as_slice()),
        (Reply::End, Reply::End) => true,
        (Reply::Closed, Reply::Closed) => true,
        (Reply::Stepped(a), Reply::Stepped(b)) => *a == *b,
        (Reply::Trace(a), Reply::Trace(b)) => same_trace(a.get(), b.get()),
        (Reply::Refused(a), Reply::Refused(b)) => same_refusal(a.get(), b.get()),
        _ => false,
    }
}

/// Whether two refusals are the same, in their names and numbers too.
pub fn same_refusal(a: &Refusal, b: &Refusal) -> bool
    ensures { IsTrue result ↔ (a.now ≡ b.now) }
{
    match (a, b) {
        (Refusal::Syntax, Refusal::Syntax) => true,
        (Refusal::Unknown(a), Refusal::Unknown(b)) => same_text(a, b),
        (Refusal::Exists(a), Refusal::Exists(b)) => same_text(a, b),
        (Refusal::Kind(a), Refusal::Kind(b)) => same_text(a, b),
        (Refusal::Active(a), Refusal::Active(b)) => *a == *b,
        (Refusal::NoTransaction, Refusal::NoTransaction) => true,
        (Refusal::Busy(a), Refusal::Busy(b)) => *a == *b,
        (Refusal::ReadOnly, Refusal::ReadOnly) => true,
        (Refusal::Changed { row, commit }, Refusal::Changed { row: r, commit: c }) => {
            same_row(*row, *r) && *commit == *c
        }
        (Refusal::Held { row, txn }, Refusal::Held { row: r, txn: t }) => {
            same_row(*row, *r) && *txn == *t
        }
        (Refusal::NoCursor(a), Refusal::NoCursor(b)) => same_text(a, b),
        (Refusal::CursorOpen(a), Refusal::CursorOpen(b)) => same_text(a, b),
        (
            Refusal::Limit { which, number },
            Refusal::Limit {
                which: w,
                number: n,
            },
        ) => { same_which(*which, *w) && *number == *n }
        (Refusal::Duplicate { row, by }, Refusal::Duplicate { row: r, by: b }) => {
            same_row(*row, *r) && same_rival(*by, *b)
        }
        _ => false,
    }
}

fn same_rival(a: Rival, b: Rival) -> bool
    ensures { IsTrue result ↔ (a ≡ b) }
{
    a == b
}

fn same_trace(a: &Shown, b: &Shown) -> bool
    ensures { IsTrue result ↔ (a.now ≡ b.now) }
{
    same_strategy(a.strategy, b.strategy)
        && same_events(a.events.as_slice(), b.events.as_slice())
        && a.pages == b.pages
        && a.leaves == b.leaves
        && a.fetches == b.fetches
}

fn same_events(a: &[ShownEvent], b: &[ShownEvent]) -> bool
    ensures { IsTrue result ↔ (a.now ≡ b.now) }
{
    match (a, b) {
        ([], []) => true,
        ([x, more @ ..], [y, others @ ..]) => same_event(x, y) && same_events(more, others),
        ([], [_first, _more @ ..]) => false,
        ([_first, _more @ ..], []) => false,
    }
}

fn same_event(a: &ShownEvent, b: &ShownEvent) -> bool
    ensures { IsTrue result ↔ (a.now ≡ b.now) }
{
    match (a, b) {
        (ShownEvent::At(a), ShownEvent::At(b)) => same_control(*a, *b),
        (ShownEvent::Scan(a), ShownEvent::Scan(b)) => same_text(a, b),
        (ShownEvent::List(name, keys), ShownEvent::List(n, k)) => same_text(name, n) && *keys == *k,
        (ShownEvent::Drop(a), ShownEvent::Drop(b)) => same_text(a, b),
        (ShownEvent::Full, ShownEvent::Full) => true,
        (ShownEvent::Stop, ShownEvent::Stop) => true,
        _ => false,
    }
}

fn same_values(a: &[Value], b: &[Value]) -> bool
    ensures { IsTrue result ↔ (a.now ≡ b.now) }
{
    match (a, b) {
        ([], []) => true,
        ([x, more @ ..], [y, others @ ..]) => x.is(y) && same_values(more, others),
        ([], [_first, _more @ ..]) => false,
        ([_first, _more @ ..], []) => false,
    }
}

fn same_text(a: &Text, b: &Text) -> bool
    ensures { IsTrue result ↔ (a.now ≡ b.now) }
{
    a.is(b.as_str())
}

fn same_row(a: RowNo, b: RowNo) -> bool
    ensures { IsTrue result ↔ (a ≡ b) }
{
    a == b
}

fn same_which(a: Which, b: Which) -> bool
    ensures { IsTrue result ↔ (a ≡ b) }
{
    a == b
}

fn same_strategy(a: Strategy, b: Strategy) -> bool
    ensures { IsTrue result ↔ (a ≡ b) }
{
    a == b
}

fn same_control(a: Control, b: Control) -> bool
    ensures { IsTrue result ↔ (a ≡ b) }
{
    a == b
}
