//! The traces that SHOW may tell: names of indexes are turned back into numbers, and the course is asked.
ghost use Rattle.std.specs.Prelude.{◌≡◌, ◌≤◌, ◌<◌, ◌++◌, ◌↔◌, ◌∷◌, [], ℕ, Some, None, IfOk, IfSome, IsTrue, OnOk, length};
ghost use Rattle.rv_model.specs.Showing.{ShowsTrace, numbers_over};
ghost use Rattle.rv_decide.specs.Naming.{AreNamedApart};
ghost use Rattle.rv_decide.specs.Reading.{event_of, events_of, number_of};

use crate::course::is_allowed;
use rv_catalog::IndexDef;
use rv_judge::Event;
use rv_lang::{Shown, ShownEvent};
use rv_value::{NoMemory, Text};
use std::alloc::Global;

/// Whether SHOW may tell this trace of a cursor whose first FROM item is over the table of a number.
pub fn may_show(
    alloc: Global,
    indexes: &[IndexDef],
    table: u32,
    shown: &Shown,
) -> Result<bool, NoMemory>
    requires few { length indexes.now ≤ 512 }
    requires apart { AreNamedApart indexes.now }
    ensures { IfOk result (λ allowed. IsTrue allowed ↔ ShowsTrace indexes.now table shown.now) }
{
    let numbers = numbers_over(alloc, indexes, table)?;
    match events_of(alloc, indexes, table, shown.events.as_slice())? {
        None => Ok(false),
        Some(events) => Ok(is_allowed(shown.strategy, events.as_slice(), numbers.as_slice())),
    }
}

/// The numbers of the indexes over a table.
fn numbers_over(alloc: Global, indexes: &[IndexDef], table: u32) -> Result<Vec<u32>, NoMemory>
    requires { length indexes.now ≤ 512 }
    ensures { IfOk result (λ numbers. numbers.items ≡ numbers_over table 0 indexes.now) }
{
    let mut numbers = Vec::new(alloc);
    let mut number = 0;
    'indexes: for index in indexes {
        if index.table == table {
            numbers.push(number)?;
        }
        number += 1;
    }
    Ok(numbers)
}

/// The events that are shown so; `None` where one names no index of the table.
fn events_of(
    alloc: Global,
    indexes: &[IndexDef],
    table: u32,
    shown: &[ShownEvent],
) -> Result<Option<Vec<Event>>, NoMemory>
    requires { length indexes.now ≤ 512 }
    ensures none { IfOk result (λ found. found ≡ None → events_of indexes.now table shown.now ≡ None) }
    ensures some { IfOk result (λ found. IfSome found (λ events. events_of indexes.now table shown.now ≡ Some events.items)) }
{
    let mut events = Vec::new(alloc);
    'shown: for event in shown {
        let Some(event) = event_of(indexes, table, event) else {
            return Ok(None);
        };
        events.push(event)?;
    }
    Ok(Some(events))
}

fn event_of(indexes: &[IndexDef], table: u32, shown: &ShownEvent) -> Option<Event>
    requires { length indexes.now ≤ 512 }
    ensures { result ≡ event_of indexes.now table shown.now }
{
    match shown {
        ShownEvent::At(control) => Some(Event::At(*control)),
        ShownEvent::Scan(name) => scan_of(number_of(indexes, table, name)),
        ShownEvent::List(name, keys) => list_of(*keys, number_of(indexes, table, name)),
        ShownEvent::Drop(name) => drop_of(number_of(indexes, table, name)),
        ShownEvent::Full => Some(Event::Full),
        ShownEvent::Stop => Some(Event::Stop),
    }
}

fn scan_of(number: Option<u32>) -> Option<Event>
    ensures { result ≡ Rattle.rv_decide.specs.Reading.scan_of number }
{
    Some(Event::Scan(number?))
}

fn list_of(keys: u64, number: Option<u32>) -> Option<Event>
    ensures { result ≡ Rattle.rv_decide.specs.Reading.list_of keys number }
{
    Some(Event::List(number?, keys))
}

fn drop_of(number: Option<u32>) -> Option<Event>
    ensures { result ≡ Rattle.rv_decide.specs.Reading.drop_of number }
{
    Some(Event::Drop(number?))
}

/// The number of the index of a name, where it is over the table.
fn number_of(indexes: &[IndexDef], table: u32, name: &Text) -> Option<u32>
    requires { length indexes.now ≤ 512 }
    ensures { result ≡ number_of indexes.now table name.now }
{
    let place = position_of(indexes, table, name)?;
    Some(place as u32)
}

fn position_of(indexes: &[IndexDef], table: u32, name: &Text) -> Option<usize>
    ensures is { result ≡ number_of indexes.now table name.now }
    ensures within { IfSome result (λ place. place < length indexes.now) }
{
    indexes.iter().position(|index| index.table == table && index.name.is(name.as_str()))
}
