ghost use Rattle.std.specs.Prelude.{◌≡◌, ◌++◌, ◌∷◌, [], codes, decimal, flat_map};
ghost use Rattle.rv_io.specs.Pieces.{Goes};
ghost use Rattle.rv_model.specs.Transcript.{words_text, trace_words, event_words, count_words};

use itoa::Buffer;
use rv_io::{Failed, Sink, write_next};
use rv_model::{Shown, ShownEvent};

/// A trace's text: the strategy, the events and the counts, each word behind a space.
pub fn write_trace<K: Sink>(
    sink: &mut K,
    sofar: Result<(), Failed>,
    shown: &Shown,
) -> Result<(), Failed>
    ensures { Goes sofar (K.written sink.old) (K.written sink.new) (K.faults sink.old) (K.faults sink.new) result (codes "trace" ++ words_text (trace_words shown.now)) }
{
    let head = write_next(sink, sofar, b"trace");
    let strategy = write_word(sink, head, shown.strategy.word().as_bytes());
    let events = write_events(sink, strategy, shown.events.as_slice());
    write_counts(sink, events, shown)
}

/// A word behind a space.
fn write_word<K: Sink>(sink: &mut K, sofar: Result<(), Failed>, word: &[u8]) -> Result<(), Failed>
    ensures { Goes sofar (K.written sink.old) (K.written sink.new) (K.faults sink.old) (K.faults sink.new) result (32 ∷ word.now) }
{
    let space = write_next(sink, sofar, b" ");
    write_next(sink, space, word)
}

/// A number behind a space.
fn write_count<K: Sink>(sink: &mut K, sofar: Result<(), Failed>, number: u64) -> Result<(), Failed>
    ensures { Goes sofar (K.written sink.old) (K.written sink.new) (K.faults sink.old) (K.faults sink.new) result (32 ∷ decimal number) }
{
    let mut digits = Buffer::new();
    write_word(sink, sofar, digits.format(number).as_bytes())
}

fn write_events<K: Sink>(
    sink: &mut K,
    sofar: Result<(), Failed>,
    events: &[ShownEvent],
) -> Result<(), Failed>
    ensures { Goes sofar (K.written sink.old) (K.written sink.new) (K.faults sink.old) (K.faults sink.new) result (words_text (flat_map event_words events.now)) }
{
    let mut written = sofar;
    'events: for event in events {
        written = write_event(sink, written, event);
    }
    written
}

fn write_event<K: Sink>(
    sink: &mut K,
    sofar: Result<(), Failed>,
    event: &ShownEvent,
) -> Result<(), Failed>
    ensures { Goes sofar (K.written sink.old) (K.written sink.new) (K.faults sink.old) (K.faults sink.new) result (words_text (event_words event.now)) }
{
    match event {
        ShownEvent::At(control) => write_word(sink, sofar, (*control).word().as_bytes()),
        ShownEvent::Scan(name) => write_words(sink, sofar, b"scan", name.as_str().as_bytes()),
        ShownEvent::List(name, keys) => { write_list(sink, sofar, name.as_str().as_bytes(), *keys) }
        ShownEvent::Drop(name) => write_words(sink, sofar, b"drop", name.as_str().as_bytes()),
        ShownEvent::Full => write_word(sink, sofar, b"full"),
        ShownEvent::Stop => write_word(sink, sofar, b"stop"),
    }
}

/// The event of a list.
fn write_list<K: Sink>(
    sink: &mut K,
    sofar: Result<(), Failed>,
    name: &[u8],
    keys: u64,
) -> Result<(), Failed>
    ensures { Goes sofar (K.written sink.old) (K.written sink.new) (K.faults sink.old) (K.faults sink.new) result (words_text (codes "list" ∷ name.now ∷ decimal keys ∷ [])) }
{
    let list = write_words(sink, sofar, b"list", name);
    write_count(sink, list, keys)
}

/// Two words, each behind a space.
fn write_words<K: Sink>(
    sink: &mut K,
    sofar: Result<(), Failed>,
    first: &[u8],
    second: &[u8],
) -> Result<(), Failed>
    ensures { Goes sofar (K.written sink.old) (K.written sink.new) (K.faults sink.old) (K.faults sink.new) result (32 ∷ first.now ++ 32 ∷ second.now) }
{
    let front = write_word(sink, sofar, first);
    write_word(sink, front, second)
}

fn write_counts<K: Sink>(
    sink: &mut K,
    sofar: Result<(), Failed>,
    shown: &Shown,
) -> Result<(), Failed>
    ensures { Goes sofar (K.written sink.old) (K.written sink.new) (K.faults sink.old) (K.faults sink.new) result (words_text (count_words shown.now)) }
{
    let pages = write_named_count(sink, sofar, b"pages", shown.pages);
    let leaves = write_named_count(sink, pages, b"leaves", shown.leaves);
    write_named_count(sink, leaves, b"fetches", shown.fetches)
}

fn write_named_count<K: Sink>(
    sink: &mut K,
    sofar: Result<(), Failed>,
    word: &[u8],
    number: u64,
) -> Result<(), Failed>
    ensures { Goes sofar (K.written sink.old) (K.written sink.new) (K.faults sink.old) (K.faults sink.new) result (32 ∷ word.now ++ 32 ∷ decimal number) }
{
    let front = write_word(sink, sofar, word);
    write_count(sink, front, number)
}
