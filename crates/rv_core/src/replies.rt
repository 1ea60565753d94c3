//! Replies, made twice: one for the caller, one for the history.
ghost use Rattle.std.specs.Prelude.{◌≡◌, IfOk};
ghost use Rattle.rv_lang.specs.declared.reply.Refusal.TheVariants.{Limit as LimitPassed, NoCursor};
ghost use Rattle.rv_lang.specs.declared.reply.Reply.TheVariants.{Refused};
ghost use Rattle.rv_model.specs.Database.{index_at};
ghost use Rattle.rv_model.specs.Showing.{shown_event, shown_trace};
ghost use Rattle.rv_core.specs.Doing.{parted};

use rv_catalog::IndexDef;
use rv_judge::{Event, Trace};
use rv_lang::{Refusal, Reply, Shown, ShownEvent, Which};
use rv_value::{Duplicate, Items, NoMemory, Shared, Text};
use std::alloc::Global;

/// A reply and its copy, for the caller and for the history. Where the copy finds no memory both are gone.
pub fn twice(alloc: Global, reply: Reply) -> Result<(Reply, Reply), NoMemory>
    ensures { IfOk result (λ replies. (replies.0 ≡ reply) × (replies.1 ≡ reply)) }
{
    match reply.copy(alloc) {
        Ok(copy) => Ok((reply, copy)),
        Err(fault) => {
            drop(reply);
            Err(fault)
        }
    }
}

/// A refusal as two equal replies, which share it. `NoMemory` leaves neither.
pub fn refused(alloc: Global, refusal: Refusal) -> Result<(Reply, Reply), NoMemory>
    ensures { IfOk result (λ replies. (replies.0 ≡ Refused refusal) × (replies.1 ≡ Refused refusal)) }
{
    let reply = Reply::refused(alloc, refusal)?;
    twice(alloc, reply)
}

/// The refusal of a name under which the session has no cursor open, twice.
pub fn no_cursor(alloc: Global, name: &Text) -> Result<(Reply, Reply), NoMemory>
    ensures { IfOk result (λ replies. (replies.0 ≡ Refused (NoCursor name.now)) × (replies.1 ≡ Refused (NoCursor name.now))) }
{
    let copy = name.copy(alloc)?;
    refused(alloc, Refusal::NoCursor(copy))
}

/// The replies of a call that one turn answers, as those of a turn, of which none works on.
pub fn answered(
    replies: Result<(Reply, Reply), NoMemory>,
) -> Result<Option<(Reply, Reply)>, NoMemory>
    ensures { result ≡ parted replies }
{
    match replies {
        Ok(replies) => Ok(Some(replies)),
        Err(NoMemory) => Err(NoMemory),
    }
}

/// The refusal of what would pass a limit of the state; the number is that limit.
pub fn limit(which: Which, number: u64) -> Refusal
    ensures { result ≡ LimitPassed which number }
{
    Refusal::Limit { which, number }
}

/// The name of an index; empty where there is no such index.
fn index_name(alloc: Global, indexes: &[IndexDef], index: u32) -> Result<Text, NoMemory>
    ensures { IfOk result (λ name. name ≡ (index_at indexes.now index).name) }
{
    match indexes.get(index as usize) {
        Some(def) => def.name.copy(alloc),
        None => Text::read(alloc, ""),
    }
}

/// An event with the name of its index.
fn named(alloc: Global, indexes: &[IndexDef], event: Event) -> Result<ShownEvent, NoMemory>
    ensures { IfOk result (λ told. told ≡ shown_event indexes.now event) }
{
    Ok(match event {
        Event::At(control) => ShownEvent::At(control),
        Event::Scan(index) => ShownEvent::Scan(index_name(alloc, indexes, index)?),
        Event::List(index, keys) => ShownEvent::List(index_name(alloc, indexes, index)?, keys),
        Event::Drop(index) => ShownEvent::Drop(index_name(alloc, indexes, index)?),
        Event::Full => ShownEvent::Full,
        Event::Stop => ShownEvent::Stop,
    })
}

/// A trace with the names of indexes in place of their numbers.
pub fn named_trace(
    alloc: Global,
    indexes: &[IndexDef],
    trace: &Trace,
) -> Result<Shared<Shown>, NoMemory>
    ensures { IfOk result (λ shown. shown ≡ shown_trace indexes.now trace.now) }
{
    let mut events = Vec::new(alloc);
    'events: for event in trace.events.as_slice() {
        events.push(named(alloc, indexes, *event)?)?;
    }
    let shown = Shown {
        strategy: trace.strategy,
        events: Items::from_vec(events),
        pages: trace.pages,
        leaves: trace.leaves,
        fetches: trace.fetches,
    };
    let shared = Shared::new(alloc, shown)?;
    Ok(shared)
}
