//! Names, and a trace, read word by word.
ghost use Rattle.std.specs.Prelude.{◌≡◌, ◌<◌, ◌∷◌, ◌||◌, ◌&&◌, true, false, IfOk, IfSome, List, MatchOption, bytes_eq, codes, find, length, option_map};
ghost use Rattle.std.specs.List.{list_all};
ghost use Rattle.std.specs.Option.{option_copied};
ghost use Rattle.rv_judge.specs.Words.{control_word, strategy_word};
ghost use Rattle.rv_model.specs.Transcript.{is_capital, is_name_byte};
ghost use Rattle.rv_text.specs.Parts.{next_by, part_by, tail_by};
ghost use Rattle.rv_text.specs.Traces.{Event, counted, counts_at, event_step, events_before, is_name, step_at, told, trace_at, words, words_of};

use crate::cuts::cut_at;
use crate::values::number;
use rv_judge::{Control, Strategy};
use rv_model::{Shown, ShownEvent};
use rv_value::{Items, NoMemory, Text};
use std::alloc::Global;

const STRATEGIES: [Strategy; 6] = [
    Strategy::Table,
    Strategy::BackgroundOnly,
    Strategy::FastFirst,
    Strategy::Sorted,
    Strategy::IndexOnly,
    Strategy::Union,
];

const CONTROLS: [Control; 6] = [
    Control::Building,
    Control::ForegroundAlone,
    Control::BackgroundAlone,
    Control::FinalList,
    Control::FinalTable,
    Control::Done,
];

/// The first of these strategies that is written so.
fn strategy_among(strategies: &[Strategy], word: &[u8]) -> Option<Strategy>
    ensures { result ≡ find (λ s. bytes_eq (strategy_word s) word.now) strategies.now }
{
    let mut rest = strategies;
    'strategies: while let [strategy, more @ ..] = rest {
        if (*strategy).word().as_bytes() == word {
            return Some(*strategy);
        }
        rest = more;
    }
    None
}

/// The first of these controls that is written so.
fn control_among(controls: &[Control], word: &[u8]) -> Option<Control>
    ensures { result ≡ find (λ c. bytes_eq (control_word c) word.now) controls.now }
{
    let mut rest = controls;
    'controls: while let [control, more @ ..] = rest {
        if (*control).word().as_bytes() == word {
            return Some(*control);
        }
        rest = more;
    }
    None
}

fn is_capital(byte: u8) -> bool
    ensures { result ≡ is_capital byte }
{
    b'A' <= byte && byte <= b'Z'
}

fn is_name_byte(byte: u8) -> bool
    ensures { result ≡ is_name_byte byte }
{
    is_capital(byte) || ((b'0' <= byte && byte <= b'9') || byte == b'_')
}

fn are_name_bytes(bytes: &[u8]) -> bool
    ensures { result ≡ list_all is_name_byte bytes.now }
{
    let mut rest = bytes;
    'bytes: while let [b, more @ ..] = rest {
        if !is_name_byte(*b) {
            return false;
        }
        rest = more;
    }
    true
}

/// Whether bytes are a name: a capital letter, and then capital letters, digits and `_`.
fn is_name(bytes: &[u8]) -> bool
    ensures { result ≡ is_name bytes.now }
{
    match bytes {
        [first, more @ ..] => is_capital(*first) && are_name_bytes(more),
        [] => false,
    }
}

/// The name that bytes are: a capital letter, and then capital letters, digits and `_`. None where they are not so.
pub fn name(bytes: &[u8]) -> Option<&str>
    ensures { MatchOption (option_copied result) (is_name bytes.now ≡ false) (λ name. (name ≡ bytes.now) × (is_name bytes.now ≡ true)) }
{
    if !is_name(bytes) {
        return None;
    }
    match str::from_utf8(bytes) {
        Ok(name) => Some(name),
        Err(_) => None,
    }
}

/// What is awaited: an event or the counts, or a part of an event that has begun.
#[derive(Clone, Copy)]
pub(crate) enum Part<'a> {
    Event,
    Scanned,
    Listed,
    Keys(&'a str),
    Dropped,
}

/// What a word makes of it: another part is awaited, or an event is whole, or the counts follow.
#[derive(Drop)]
pub(crate) enum Next<'a> {
    Part(Part<'a>),
    Event(ShownEvent),
    Counts,
}

/// The events and the counts of a trace.
#[derive(Drop)]
pub(crate) struct Tail {
    pub events: Items<ShownEvent>,
    pub pages: u64,
    pub leaves: u64,
    pub fetches: u64,
}

/// What a trace counts: what was read.
#[derive(Clone, Copy)]
pub(crate) struct Reads {
    pub pages: u64,
    pub leaves: u64,
    pub fetches: u64,
}

/// What the first word of an event, or the word before the counts, makes of it.
fn event_step<'a>(word: &'a [u8]) -> Option<Next<'a>>
    ensures { option_map next_by result ≡ event_step word.now }
{
    if word == b"scan".as_slice() {
        return Some(Next::Part(Part::Scanned));
    }
    if word == b"list".as_slice() {
        return Some(Next::Part(Part::Listed));
    }
    if word == b"drop".as_slice() {
        return Some(Next::Part(Part::Dropped));
    }
    if word == b"full".as_slice() {
        return Some(Next::Event(ShownEvent::Full));
    }
    if word == b"stop".as_slice() {
        return Some(Next::Event(ShownEvent::Stop));
    }
    if word == b"pages".as_slice() {
        return Some(Next::Counts);
    }
    match control_among(&CONTROLS, word) {
        Some(control) => Some(Next::Event(ShownEvent::At(control))),
        None => None,
    }
}

/// What a word makes of what is awaited; None where it is no such part.
fn step<'a>(alloc: Global, part: Part<'a>, word: &'a [u8]) -> Result<Option<Next<'a>>, NoMemory>
    ensures { IfOk result (λ o. option_map next_by o ≡ step_at (part_by part.entry) word.now) }
{
    match part {
        Part::Event => Ok(event_step(word)),
        Part::Scanned => match name(word) {
            Some(name) => {
                let index = Text::read(alloc, name)?;
                Ok(Some(Next::Event(ShownEvent::Scan(index))))
            }
            None => Ok(None),
        },
        Part::Listed => match name(word) {
            Some(name) => Ok(Some(Next::Part(Part::Keys(name)))),
            None => Ok(None),
        },
        Part::Keys(name) => match number(word) {
            Some(keys) => {
                let index = Text::read(alloc, name)?;
                Ok(Some(Next::Event(ShownEvent::List(index, keys))))
            }
            None => Ok(None),
        },
        Part::Dropped => match name(word) {
            Some(name) => {
                let index = Text::read(alloc, name)?;
                Ok(Some(Next::Event(ShownEvent::Drop(index))))
            }
            None => Ok(None),
        },
    }
}

fn is_word(word: &[u8], wanted: &[u8]) -> bool
    ensures { result ≡ bytes_eq word.now wanted.now }
{
    word == wanted
}

/// The three counts, where their words are numbers.
fn counted(pages: Option<u64>, leaves: Option<u64>, fetches: Option<u64>) -> Option<Reads>
    ensures { option_map tail_by result ≡ counted pages leaves fetches }
{
    match pages {
        Some(pages) => match leaves {
            Some(leaves) => match fetches {
                Some(fetches) => Some(Reads {
                    pages,
                    leaves,
                    fetches,
                }),
                None => None,
            },
            None => None,
        },
        None => None,
    }
}

/// The counts, of which the last is all that is left.
fn last_count(pages: &[u8], leaves: &[u8], text: &[u8]) -> Option<Reads>
    ensures { option_map tail_by result ≡ counts_at (pages.now ∷ codes "leaves" ∷ leaves.now ∷ codes "fetches" ∷ words text.now) }
{
    let (fetches, more) = cut_at(b' ', text);
    match more {
        Some(_) => None,
        None => counted(number(pages), number(leaves), number(fetches)),
    }
}

/// The counts, of which `fetches` and the last are left.
fn fetches_word(pages: &[u8], leaves: &[u8], text: &[u8]) -> Option<Reads>
    ensures { option_map tail_by result ≡ counts_at (pages.now ∷ codes "leaves" ∷ leaves.now ∷ words text.now) }
{
    let (word, more) = cut_at(b' ', text);
    match more {
        Some(behind) => {
            if is_word(word, b"fetches") {
                last_count(pages, leaves, behind)
            } else {
                None
            }
        }
        None => None,
    }
}

/// The counts, of which that of the leaves and what follows are left.
fn leaves_count(pages: &[u8], text: &[u8]) -> Option<Reads>
    ensures { option_map tail_by result ≡ counts_at (pages.now ∷ codes "leaves" ∷ words text.now) }
{
    let (leaves, more) = cut_at(b' ', text);
    match more {
        Some(behind) => fetches_word(pages, leaves, behind),
        None => None,
    }
}

/// The counts, of which `leaves` and what follows are left.
fn leaves_word(pages: &[u8], text: &[u8]) -> Option<Reads>
    ensures { option_map tail_by result ≡ counts_at (pages.now ∷ words text.now) }
{
    let (word, more) = cut_at(b' ', text);
    match more {
        Some(behind) => {
            if is_word(word, b"leaves") {
                leaves_count(pages, behind)
            } else {
                None
            }
        }
        None => None,
    }
}

/// The counts behind `pages`.
fn counts(text: Option<&[u8]>) -> Option<Reads>
    ensures { option_map tail_by result ≡ counts_at (words_of (option_copied text.entry)) }
{
    match text {
        Some(text) => counts_in(text),
        None => None,
    }
}

/// The counts of which the words of a text tell.
fn counts_in(text: &[u8]) -> Option<Reads>
    ensures { option_map tail_by result ≡ counts_at (words text.now) }
{
    let (pages, more) = cut_at(b' ', text);
    match more {
        Some(behind) => leaves_word(pages, behind),
        None => None,
    }
}

/// Events, and the counts behind them.
fn with_counts(events: Items<ShownEvent>, counts: Option<Reads>) -> Option<Tail>
    ensures { result ≡ events_before events (option_map tail_by counts) }
{
    match counts {
        Some(counts) => Some(Tail {
            events,
            pages: counts.pages,
            leaves: counts.leaves,
            fetches: counts.fetches,
        }),
        None => None,
    }
}

/// The events and the counts behind a strategy.
fn read_tail(alloc: Global, text: &[u8]) -> Result<Option<Tail>, NoMemory>
    ensures { IfOk result (λ o. o ≡ told Event (words text.now)) }
{
    let mut events = Items::new(alloc);
    let mut part = Part::Event;
    let mut left = Some(text);
    'words: while let Some(behind) = left {
        let (word, more) = cut_at(b' ', behind);
        left = more;
        match step(alloc, part, word)? {
            Some(Next::Part(next)) => {
                part = next;
                continue;
            }
            Some(Next::Event(event)) => {
                events.push(event)?;
                part = Part::Event;
                continue;
            }
            Some(Next::Counts) => return Ok(with_counts(events, counts(more))),
            None => return Ok(None),
        }
    }
    Ok(None)
}

/// A trace, behind its first word and a space.
pub fn trace(alloc: Global, text: &[u8]) -> Result<Option<Shown>, NoMemory>
    ensures { IfOk result (λ o. o ≡ trace_at text.now) }
{
    let (word, more) = cut_at(b' ', text);
    match strategy_among(&STRATEGIES, word) {
        Some(strategy) => match more {
            Some(behind) => match read_tail(alloc, behind)? {
                Some(
                    Tail {
                        events,
                        pages,
                        leaves,
                        fetches,
                    },
                ) => Ok(Some(Shown {
                    strategy,
                    events,
                    pages,
                    leaves,
                    fetches,
                })),
                None => Ok(None),
            },
            None => Ok(None),
        },
        None => Ok(None),
    }
}
