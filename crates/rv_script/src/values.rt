ghost use Rattle.std.specs.Prelude.{◌≡◌, ◌++◌, ◌∷◌, [], codes, ◌==◌};
ghost use Rattle.std.specs.List.{position};
ghost use Rattle.rv_io.specs.Pieces.{Goes};
ghost use Rattle.rv_lang.specs.Tokens.{quotes_twice};
ghost use Rattle.rv_model.specs.Transcript.{values_text, more_text, value_text};

use itoa::Buffer;
use rv_io::{Failed, Sink, write_next};
use rv_value::{Value, Values};

/// Writes `row` and the values, as the reply to a FETCH has them in a transcript.
pub fn write_row<K: Sink>(
    sink: &mut K,
    sofar: Result<(), Failed>,
    values: &Values,
) -> Result<(), Failed>
    ensures { Goes sofar (K.written sink.old) (K.written sink.new) (K.faults sink.old) (K.faults sink.new) result (codes "row " ++ values_text values.now) }
{
    let word = write_next(sink, sofar, b"row ");
    write_values(sink, word, values.as_slice())
}

fn write_values<K: Sink>(
    sink: &mut K,
    sofar: Result<(), Failed>,
    values: &[Value],
) -> Result<(), Failed>
    ensures { Goes sofar (K.written sink.old) (K.written sink.new) (K.faults sink.old) (K.faults sink.new) result (values_text values.now) }
{
    match values {
        [] => sofar,
        [first, more @ ..] => {
            let front = write_value(sink, sofar, first);
            write_more(sink, front, more)
        }
    }
}

/// The values after the first.
fn write_more<K: Sink>(
    sink: &mut K,
    sofar: Result<(), Failed>,
    values: &[Value],
) -> Result<(), Failed>
    ensures { Goes sofar (K.written sink.old) (K.written sink.new) (K.faults sink.old) (K.faults sink.new) result (more_text values.now) }
{
    let mut written = sofar;
    for value in values {
        let comma = write_next(sink, written, b", ");
        written = write_value(sink, comma, value);
    }
    written
}

/// A value's text.
fn write_value<K: Sink>(
    sink: &mut K,
    sofar: Result<(), Failed>,
    value: &Value,
) -> Result<(), Failed>
    ensures { Goes sofar (K.written sink.old) (K.written sink.new) (K.faults sink.old) (K.faults sink.new) result (value_text value.now) }
{
    match value {
        Value::Null => write_next(sink, sofar, b"NULL"),
        Value::Int(number) => {
            let mut digits = Buffer::new();
            write_next(sink, sofar, digits.format(*number).as_bytes())
        }
        Value::Str(text) => write_quoted(sink, sofar, text.as_str().as_bytes()),
    }
}

fn write_quoted<K: Sink>(
    sink: &mut K,
    sofar: Result<(), Failed>,
    bytes: &[u8],
) -> Result<(), Failed>
    ensures { Goes sofar (K.written sink.old) (K.written sink.new) (K.faults sink.old) (K.faults sink.new) result (39 ∷ quotes_twice bytes.now ++ 39 ∷ []) }
{
    let quote = write_next(sink, sofar, b"'");
    let inner = write_doubled(sink, quote, bytes);
    write_next(sink, inner, b"'")
}

/// The bytes, each quote twice: the runs between quotes, each as a whole.
fn write_doubled<K: Sink>(
    sink: &mut K,
    sofar: Result<(), Failed>,
    bytes: &[u8],
) -> Result<(), Failed>
    ensures { Goes sofar (K.written sink.old) (K.written sink.new) (K.faults sink.old) (K.faults sink.new) result (quotes_twice bytes.now) }
{
    let mut written = sofar;
    let mut rest = bytes;
    'runs: while let Some(place) = first_quote(rest) {
        let (run, behind) = rest.split_at(place);
        let before = write_next(sink, written, run);
        written = write_next(sink, before, b"''");
        rest = &behind[1..];
    }
    write_next(sink, written, rest)
}

/// The place of the first quote.
pub(crate) fn first_quote(bytes: &[u8]) -> Option<usize>
    ensures { result ≡ position (λ c. c == 39) bytes.now }
{
    bytes.iter().position(|byte| *byte == b'\'')
}
