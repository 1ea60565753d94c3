//! What came of a plan, in words.
use crate::joins::drive::Driven;
use rv_model::Offer;
use rv_value::{NoMemory, Value, cmp_values};
use std::alloc::Global;
use std::cmp::Ordering;

fn mixed(mix: u64, more: u64) -> u64 {
    (mix % 1000003 * 31 + more % 1000003 + 1) % 1000003
}

fn mix_values(mix: u64, values: &[Value]) -> u64 {
    let mut mix = mix;
    'values: for value in values {
        mix = match value {
            Value::Int(n) => mixed(mix, (*n).unsigned_abs() % 1000003 + 2),
            Value::Null => mixed(mix, 1),
            Value::Str(_) => mixed(mix, 0),
        };
    }
    mix
}

/// A number that tells one list of offers from most others.
fn mix(offers: &[Offer]) -> u64 {
    let mut mix = 0;
    'offers: for offer in offers {
        mix = mix_values(mix, offer.order.as_slice());
        mix = mix_values(mix, offer.returned.as_slice());
    }
    mix
}

/// Whether the order values never fall.
fn rises(offers: &[Offer]) -> bool {
    match offers {
        [first, second, more @ ..] => {
            cmp_values(second.order.as_slice(), first.order.as_slice()) != Ordering::Less
                && rises_from(second, more)
        }
        _ => true,
    }
}

fn rises_from(first: &Offer, offers: &[Offer]) -> bool {
    match offers {
        [second, more @ ..] => {
            cmp_values(second.order.as_slice(), first.order.as_slice()) != Ordering::Less
                && rises_from(second, more)
        }
        [] => true,
    }
}

fn word(rises: bool, ended: bool) -> &'static str {
    match (rises, ended) {
        (true, true) => "in order",
        (false, true) => "OUT OF ORDER",
        (_, false) => "NOT ENDED",
    }
}

fn value_text(alloc: Global, value: &Value) -> Result<String, NoMemory> {
    let word = match value {
        Value::Int(n) => return Ok(format!(in alloc; "{n}")?),
        Value::Null => "NULL",
        Value::Str(_) => "a text",
    };
    Ok(String::from_str(alloc, word)?)
}

fn row_text(alloc: Global, values: &[Value]) -> Result<String, NoMemory> {
    let mut text = String::from_str(alloc, "row")?;
    let mut mark = " ";
    'values: for value in values {
        text.push_str(mark)?;
        let value = value_text(alloc, value)?;
        text.push_str(value.as_str())?;
        mark = ", ";
    }
    Ok(text)
}

/// The values returned, one offer after another, and the end.
pub fn rows_text(alloc: Global, driven: &Driven) -> Result<String, NoMemory> {
    let mut text = String::new(alloc);
    'offers: for offer in driven.offers.as_slice() {
        let row = row_text(alloc, offer.returned.as_slice())?;
        text.push_str(row.as_str())?;
        text.push_str("; ")?;
    }
    text.push_str(if driven.ended { "end" } else { "NOT ENDED" })?;
    Ok(text)
}

/// How many offers came, whether in order, and their number once they are sorted wholly.
pub fn told(alloc: Global, driven: Driven) -> Result<String, NoMemory> {
    let Driven { mut offers, ended } = driven;
    let word = word(rises(offers.as_slice()), ended);
    let count = offers.len();
    offers.sort()?;
    Ok(format!(in alloc; "{count} {word}, mix {}", mix(offers.as_slice()))?)
}
