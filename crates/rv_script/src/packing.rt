//! The bytes of an entry put together in one place, so that most entries are written at once.
ghost use Rattle.std.specs.Prelude.{◌≡◌, ◌++◌, ◌∷◌, [], codes, decimal, true};
ghost use Rattle.rv_lang.specs.Tokens.{quotes_twice};
ghost use Rattle.rv_model.specs.Transcript.{entry_text, more_text, reply_text, value_text, values_text};

use crate::values::first_quote;
use arrayvec::ArrayVec;
use itoa::Buffer;
use rv_model::{Entry, Reply};
use rv_value::{Value, Values};

/// How many bytes fit. Most entries have far fewer.
pub(crate) const PACKED: usize = 256;

/// Puts bytes behind others. False where they do not fit.
fn pack(packed: &mut ArrayVec<u8, PACKED>, bytes: &[u8]) -> bool
    ensures { result ≡ true → packed.new.items ≡ packed.old.items ++ bytes.now }
{
    packed.try_extend_from_slice(bytes).is_ok()
}

/// Puts a word and a number behind others. False where they do not fit.
fn pack_number(packed: &mut ArrayVec<u8, PACKED>, word: &[u8], number: u64) -> bool
    ensures { result ≡ true → packed.new.items ≡ packed.old.items ++ word.now ++ decimal number }
{
    let mut digits = Buffer::new();
    pack(packed, word) && pack(packed, digits.format(number).as_bytes())
}

/// Puts bytes between quotes behind others. False where they do not fit.
fn pack_between_quotes(packed: &mut ArrayVec<u8, PACKED>, bytes: &[u8]) -> bool
    ensures { result ≡ true → packed.new.items ≡ packed.old.items ++ 39 ∷ bytes.now ++ 39 ∷ [] }
{
    pack(packed, b"'") && pack(packed, bytes) && pack(packed, b"'")
}

/// Puts a text in quotes behind others. False where they do not fit, and where it has a quote, which is to stand twice.
fn pack_quoted(packed: &mut ArrayVec<u8, PACKED>, bytes: &[u8]) -> bool
    ensures { result ≡ true → packed.new.items ≡ packed.old.items ++ 39 ∷ quotes_twice bytes.now ++ 39 ∷ [] }
{
    match first_quote(bytes) {
        Some(_place) => false,
        None => pack_between_quotes(packed, bytes),
    }
}

fn pack_value(packed: &mut ArrayVec<u8, PACKED>, value: &Value) -> bool
    ensures { result ≡ true → packed.new.items ≡ packed.old.items ++ value_text value.now }
{
    match value {
        Value::Null => pack(packed, b"NULL"),
        Value::Int(number) => {
            let mut digits = Buffer::new();
            pack(packed, digits.format(*number).as_bytes())
        }
        Value::Str(text) => pack_quoted(packed, text.as_str().as_bytes()),
    }
}

/// Puts the values after the first behind others. False where they do not fit.
fn pack_more(packed: &mut ArrayVec<u8, PACKED>, values: &[Value]) -> bool
    ensures { result ≡ true → packed.new.items ≡ packed.old.items ++ more_text values.now }
{
    match values {
        [] => true,
        [first, more @ ..] => {
            pack(packed, b", ") && pack_value(packed, first) && pack_more(packed, more)
        }
    }
}

fn pack_values(packed: &mut ArrayVec<u8, PACKED>, values: &[Value]) -> bool
    ensures { result ≡ true → packed.new.items ≡ packed.old.items ++ values_text values.now }
{
    match values {
        [] => true,
        [first, more @ ..] => pack_value(packed, first) && pack_more(packed, more),
    }
}

fn pack_row(packed: &mut ArrayVec<u8, PACKED>, values: &Values) -> bool
    ensures { result ≡ true → packed.new.items ≡ packed.old.items ++ codes "row " ++ values_text values.now }
{
    pack(packed, b"row ") && pack_values(packed, values.as_slice())
}

/// Puts a reply's text behind others. False where it does not fit, and of a trace and a refusal.
fn pack_reply(packed: &mut ArrayVec<u8, PACKED>, reply: &Reply) -> bool
    ensures { result ≡ true → packed.new.items ≡ packed.old.items ++ reply_text reply.now }
{
    match reply {
        Reply::Created => pack(packed, b"created"),
        Reply::Began(number) => pack_number(packed, b"began ", *number),
        Reply::Inserted(row) => pack_number(packed, b"inserted ", row.0),
        Reply::Touched(count) => pack_number(packed, b"touched ", *count),
        Reply::Committed(number) => pack_number(packed, b"committed ", *number),
        Reply::RolledBack => pack(packed, b"rolled back"),
        Reply::Opened => pack(packed, b"opened"),
        Reply::Row(values) => pack_row(packed, values),
        Reply::End => pack(packed, b"end"),
        Reply::Closed => pack(packed, b"closed"),
        Reply::Stepped(count) => pack_number(packed, b"stepped ", *count),
        Reply::Trace(_) => false,
        Reply::Refused(_) => false,
    }
}

/// Puts the session's number, a space and the text behind others. False where they do not fit.
fn pack_call(packed: &mut ArrayVec<u8, PACKED>, entry: &Entry) -> bool
    ensures { result ≡ true → packed.new.items ≡ packed.old.items ++ decimal entry.now.session ++ 32 ∷ entry.now.text }
{
    let mut digits = Buffer::new();
    pack(packed, digits.format(entry.session).as_bytes())
        && pack(packed, b" ")
        && pack(packed, entry.text.as_str().as_bytes())
}

/// Puts an entry's two lines in the place of what stands there. False where they do not fit, and of a trace and a refusal.
pub(crate) fn pack_entry(packed: &mut ArrayVec<u8, PACKED>, entry: &Entry) -> bool
    ensures { result ≡ true → packed.new.items ≡ entry_text entry.now }
{
    packed.clear();
    pack_call(packed, entry)
        && pack(packed, b"\n= ")
        && pack_reply(packed, &entry.reply)
        && pack(packed, b"\n")
}
