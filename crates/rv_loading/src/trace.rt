//! Traces in words.
use rv_judge::{Event, Trace};
use rv_value::NoMemory;
use std::alloc::Global;

fn name_of<'a>(names: &[&'a str], index: u32) -> &'a str {
    match names.get(index as usize) {
        Some(name) => *name,
        None => "?",
    }
}

fn event_text(alloc: Global, event: Event, names: &[&str]) -> Result<String, NoMemory> {
    let (word, index) = match event {
        Event::At(control) => (control.word(), ""),
        Event::Scan(index) => ("scan ", name_of(names, index)),
        Event::List(index, keys) => return list_text(alloc, name_of(names, index), keys),
        Event::Drop(index) => ("drop ", name_of(names, index)),
        Event::Full => ("full", ""),
        Event::Stop => ("stop", ""),
    };
    Ok(format!(in alloc; "{word}{index}")?)
}

fn list_text(alloc: Global, index: &str, keys: u64) -> Result<String, NoMemory> {
    Ok(format!(in alloc; "list {index} {keys}")?)
}

fn counts_text(alloc: Global, trace: &Trace) -> Result<String, NoMemory> {
    Ok(format!(in alloc;
        " pages {} leaves {} fetches {}",
        trace.pages, trace.leaves, trace.fetches
    )?)
}

/// The strategy, the events and the counts of a trace. Each index has a name, by its number.
pub fn trace_text(alloc: Global, trace: &Trace, names: &[&str]) -> Result<String, NoMemory> {
    let mut text = String::from_str(alloc, trace.strategy.word())?;
    'events: for event in trace.events.as_slice() {
        let word = event_text(alloc, *event, names)?;
        text.push(' ')?;
        text.push_str(word.as_str())?;
    }
    let counts = counts_text(alloc, trace)?;
    text.push_str(counts.as_str())?;
    Ok(text)
}
