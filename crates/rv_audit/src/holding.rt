//! What the types of a history's replies tell: each number has 64 bits, and each text is UTF-8. A function here goes through
//! its value and does nothing; its contract is a law.
ghost use Rattle.std.specs.Prelude.{◌<◌, ◌^◌, IsUtf8};
ghost use Rattle.std.specs.Int.Signed.{mag};
ghost use Rattle.std.specs.List.{AllByRecursion};
ghost use Rattle.rv_believed.specs.Held.{IsHeld, IsHeldEvent, IsHeldRefusal, IsHeldReply, IsHeldRival, IsHeldTrace, IsHeldValue};
ghost use Rattle.rv_text.specs.Reading.{CanHoldReply, CanHoldValue};
ghost use Rattle.rv_audit.specs.Runs.{AreHeld};

use rv_lang::{Refusal, Reply, Rival, Shown, ShownEvent};
use rv_model::Entry;
use rv_value::{SharedText, Value};

/// The replies of entries hold numbers of 64 bits, and texts that are UTF-8.
pub fn replies_are_held(entries: &[Entry])
    ensures { AreHeld entries.now }
{
    let mut rest = entries;
    'entries: while let [entry, more @ ..] = rest {
        reply_is_held(&entry.reply);
        rest = more;
    }
}

fn reply_is_held(reply: &Reply)
    ensures numbers { IsHeldReply reply.now }
    ensures texts { CanHoldReply reply.now }
{
    match reply {
        Reply::Began(number) => number_is_held(*number),
        Reply::Inserted(row) => number_is_held(row.0),
        Reply::Touched(number) => number_is_held(*number),
        Reply::Committed(number) => number_is_held(*number),
        Reply::Row(values) => values_are_held(values.as_slice()),
        Reply::Stepped(number) => number_is_held(*number),
        Reply::Trace(shown) => trace_is_held(shown.get()),
        Reply::Refused(refusal) => refusal_is_held(refusal.get()),
        Reply::Created | Reply::RolledBack | Reply::Opened | Reply::End | Reply::Closed => {}
    }
}

fn refusal_is_held(refusal: &Refusal)
    ensures { IsHeldRefusal refusal.now }
{
    match refusal {
        Refusal::Active(number) => number_is_held(*number),
        Refusal::Busy(number) => number_is_held(*number),
        Refusal::Changed { row, commit } => numbers_are_held(row.0, *commit),
        Refusal::Held { row, txn } => numbers_are_held(row.0, *txn),
        Refusal::Limit { which: _, number } => number_is_held(*number),
        Refusal::Duplicate { row, by } => {
            number_is_held(row.0);
            rival_is_held(by);
        }
        Refusal::Syntax
        | Refusal::Unknown(_)
        | Refusal::Exists(_)
        | Refusal::Kind(_)
        | Refusal::NoTransaction
        | Refusal::ReadOnly
        | Refusal::NoCursor(_)
        | Refusal::CursorOpen(_) => {}
    }
}

fn rival_is_held(by: &Rival)
    ensures { IsHeldRival by.now }
{
    match by {
        Rival::View => {}
        Rival::Commit(number) => number_is_held(*number),
        Rival::Txn(number) => number_is_held(*number),
    }
}

fn trace_is_held(shown: &Shown)
    ensures { IsHeldTrace shown.now }
{
    events_are_held(shown.events.as_slice());
    number_is_held(shown.pages);
    number_is_held(shown.leaves);
    number_is_held(shown.fetches);
}

fn events_are_held(events: &[ShownEvent])
    ensures { AllByRecursion IsHeldEvent events.now }
{
    match events {
        [] => {}
        [event, more @ ..] => {
            event_is_held(event);
            events_are_held(more);
        }
    }
}

fn event_is_held(event: &ShownEvent)
    ensures { IsHeldEvent event.now }
{
    match event {
        ShownEvent::List(_, keys) => number_is_held(*keys),
        ShownEvent::At(_)
        | ShownEvent::Scan(_)
        | ShownEvent::Drop(_)
        | ShownEvent::Full
        | ShownEvent::Stop => {}
    }
}

fn values_are_held(values: &[Value])
    ensures numbers { AllByRecursion IsHeldValue values.now }
    ensures texts { AllByRecursion CanHoldValue values.now }
{
    match values {
        [] => {}
        [value, more @ ..] => {
            value_is_held(value);
            values_are_held(more);
        }
    }
}

fn value_is_held(value: &Value)
    ensures number { IsHeldValue value.now }
    ensures text { CanHoldValue value.now }
{
    match value {
        Value::Null => {}
        Value::Int(number) => integer_is_held(*number),
        Value::Str(text) => text_is_held(text),
    }
}

fn text_is_held(text: &SharedText)
    ensures { IsUtf8 text.now }
{
    let _bytes = text.as_str();
}

fn integer_is_held(number: i64)
    ensures { mag number < 2 ^ 63 }
{}

fn number_is_held(number: u64)
    ensures { IsHeld number }
{}

fn numbers_are_held(first: u64, second: u64)
    ensures first { IsHeld first }
    ensures second { IsHeld second }
{}
