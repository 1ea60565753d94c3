//! Numbers and the values of a row.
ghost use Rattle.std.specs.Prelude.{◌≡◌, ◌<◌, ◌^◌, Some, None, Bool, false, not, ◌&&◌, ◌==◌, IfOk, IfSome, bytes_eq, decimal, length, option_map, if◌then◌else◌};
ghost use Rattle.std.specs.Fmt.{signed_decimal};
ghost use Rattle.std.specs.Option.{option_copied};
ghost use Rattle.rv_text.specs.Values.{integer_at, integer_of, number_at, pieces_of, spaced_value, text_of, unquoted, value_at, value_before, value_cut, values_at, more_values};

use itoa::Buffer;
use rv_value::{NoMemory, SharedText, Value, Values};
use std::alloc::Global;

/// A number, where a text is what is written of it.
fn written_so(number: u64, text: &str) -> Option<u64>
    ensures same { result ≡ if bytes_eq (decimal number) text.now then Some number else None }
    ensures small { number < 2 ^ 64 }
{
    let mut digits = Buffer::new();
    if digits.format(number) == text {
        Some(number)
    } else {
        None
    }
}

/// The number that a text is, as it is written: without a sign or a leading zero.
fn number_in(text: &str) -> Option<u64>
    ensures { result ≡ number_at text.now }
{
    match text.parse::<u64>() {
        Ok(number) => written_so(number, text),
        Err(_) => None,
    }
}

/// The number below 2^64 of which bytes are the digits as a transcript has them, without a leading zero; else None.
pub fn number(digits: &[u8]) -> Option<u64>
    ensures { result ≡ number_at digits.now }
{
    match str::from_utf8(digits) {
        Ok(text) => number_in(text),
        Err(_) => None,
    }
}

/// An integer, where a text is what is written of it.
fn signed_so(number: i64, text: &str) -> Option<i64>
    ensures { result ≡ if bytes_eq (signed_decimal number) text.now then Some number else None }
{
    let mut digits = Buffer::new();
    if digits.format(number) == text {
        Some(number)
    } else {
        None
    }
}

/// The integer that a text is, as it is written.
fn integer_in(text: &str) -> Option<i64>
    ensures { result ≡ integer_at text.now }
{
    match text.parse::<i64>() {
        Ok(number) => signed_so(number, text),
        Err(_) => None,
    }
}

/// The integer that bytes are.
fn integer(digits: &[u8]) -> Option<i64>
    ensures { result ≡ integer_at digits.now }
{
    match str::from_utf8(digits) {
        Ok(text) => integer_in(text),
        Err(_) => None,
    }
}

/// What stands between quotes, from behind the first one on: two quotes are one, and a lone one ends the bytes.
fn unquoted(alloc: Global, bytes: &[u8]) -> Result<Option<Vec<u8>>, NoMemory>
    ensures { IfOk result (λ o. option_map (λ v. v.items) o ≡ unquoted false bytes.now) }
{
    let mut out = Vec::with_capacity(alloc, bytes.len())?;
    let mut quoted = false;
    let mut rest = bytes;
    'bytes: while let [b, more @ ..] = rest {
        rest = more;
        if *b == b'\'' && !quoted {
            quoted = true;
            continue;
        }
        if quoted != (*b == b'\'') || *b < b' ' {
            return Ok(None);
        }
        out.push(*b)?;
        quoted = false;
    }
    if quoted { Ok(Some(out)) } else { Ok(None) }
}

/// The text that bytes are, as a value.
fn text_value(alloc: Global, bytes: &[u8]) -> Result<Option<Value>, NoMemory>
    ensures { IfOk result (λ o. o ≡ text_of (Some bytes.now)) }
{
    match str::from_utf8(bytes) {
        Ok(text) => {
            let text = SharedText::read(alloc, text)?;
            Ok(Some(Value::Str(text)))
        }
        Err(_) => Ok(None),
    }
}

/// A text in quotes, from behind the first one on.
fn quoted_text(alloc: Global, bytes: &[u8]) -> Result<Option<Value>, NoMemory>
    ensures { IfOk result (λ o. o ≡ text_of (unquoted false bytes.now)) }
{
    match unquoted(alloc, bytes)? {
        Some(inner) => text_value(alloc, inner.as_slice()),
        None => Ok(None),
    }
}

/// The value that digits are, with a sign or without.
fn integer_value(digits: &[u8]) -> Option<Value>
    ensures { result ≡ integer_of (integer_at digits.now) }
{
    match integer(digits) {
        Some(number) => Some(Value::Int(number)),
        None => None,
    }
}

/// A value: NULL, an integer, or a text in quotes.
fn value(alloc: Global, bytes: &[u8]) -> Result<Option<Value>, NoMemory>
    ensures { IfOk result (λ o. o ≡ value_at bytes.now) }
{
    match bytes {
        [] => Ok(None),
        [b'\'', more @ ..] => quoted_text(alloc, more),
        _ => {
            if bytes == b"NULL".as_slice() {
                Ok(Some(Value::Null))
            } else {
                Ok(integer_value(bytes))
            }
        }
    }
}

/// A value behind a space.
fn spaced_value(alloc: Global, bytes: &[u8]) -> Result<Option<Value>, NoMemory>
    ensures { IfOk result (λ o. o ≡ spaced_value bytes.now) }
{
    match bytes {
        [b' ', more @ ..] => value(alloc, more),
        _ => Ok(None),
    }
}

/// Whether a byte ends a value: a comma outside of quotes.
fn ends_value(inside: bool, byte: u8) -> bool
    ensures { result ≡ not inside && (byte == 44) }
{
    !inside && byte == b','
}

/// Whether a quote is open behind a byte.
fn is_inside(inside: bool, byte: u8) -> bool
    ensures { result ≡ if byte == 39 then not inside else inside }
{
    if byte == b'\'' { !inside } else { inside }
}

/// What stands before the first comma outside of quotes, and what stands behind it; the whole and None where there is none.
fn cut_value(text: &[u8]) -> (&[u8], Option<&[u8]>)
    ensures word { result.0.now ≡ (value_cut false text.now).word }
    ensures more { option_copied result.1 ≡ (value_cut false text.now).more }
    ensures shorter { IfSome (option_copied result.1) (λ more. length more < length text.now) }
{
    let mut inside = false;
    let mut at = 0;
    let mut rest = text;
    'bytes: while let [b, more @ ..] = rest {
        if ends_value(inside, *b) {
            return (&text[..at], Some(more));
        }
        inside = is_inside(inside, *b);
        at += 1;
        rest = more;
    }
    (text, None)
}

/// A value and those that follow, each behind a comma.
fn values_from(
    alloc: Global,
    first: Value,
    more: Option<&[u8]>,
) -> Result<Option<Vec<Value>>, NoMemory>
    ensures { IfOk result (λ o. option_map (λ v. v.items) o ≡ value_before (Some first) (more_values (pieces_of (option_copied more.entry)))) }
{
    let mut values = Vec::new(alloc);
    values.push(first)?;
    let mut left = more;
    'pieces: while let Some(text) = left {
        let (piece, behind) = cut_value(text);
        left = behind;
        match spaced_value(alloc, piece)? {
            Some(value) => {
                values.push(value)?;
                continue;
            }
            None => return Ok(None),
        }
    }
    Ok(Some(values))
}

/// The values of a row, joined by commas and spaces; None where the bytes are none.
pub fn values(alloc: Global, text: &[u8]) -> Result<Option<Values>, NoMemory>
    ensures { IfOk result (λ o. o ≡ values_at text.now) }
{
    if text.is_empty() {
        return Ok(Some(Values::empty()));
    }
    let (piece, more) = cut_value(text);
    match value(alloc, piece)? {
        Some(first) => match values_from(alloc, first, more)? {
            Some(values) => {
                let row = Values::of(alloc, values)?;
                Ok(Some(row))
            }
            None => Ok(None),
        },
        None => Ok(None),
    }
}
