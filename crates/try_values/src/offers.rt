//! The order of offers.
use rv_loading::{Fault, cut};
use rv_model::Offer;
use rv_model::offers::cmp_offer;
use rv_value::{Items, Value, Values};
use std::alloc::Global;
use std::cmp::Ordering;

fn value(word: &str) -> Result<Value, Fault> {
    if word == "N" {
        return Ok(Value::Null);
    }
    Ok(Value::Int(word.parse().ok().ok_or(Fault::Form)?))
}

fn shared(alloc: Global, word: &str) -> Result<Values, Fault> {
    let value = value(word)?;
    Ok(Values::of(alloc, vec![in alloc; value]?)?)
}

/// An offer of an order value and a value returned.
fn offer(alloc: Global, text: &str) -> Result<Offer, Fault> {
    let (order, returned) = cut(text, ' ')?;
    let order = Items::from_vec(vec![in alloc; value(order)?]?);
    match shared(alloc, returned) {
        Ok(returned) => Ok(Offer { order, returned }),
        Err(fault) => {
            drop(order);
            Err(fault)
        }
    }
}

fn order_word(order: Ordering) -> &'static str {
    match order {
        Ordering::Less => "less",
        Ordering::Equal => "equal",
        Ordering::Greater => "greater",
    }
}

fn partial_word(order: Option<Ordering>) -> &'static str {
    match order {
        Some(order) => order_word(order),
        None => "none",
    }
}

/// How two offers are ordered by each of their three orders, and whether they are the same.
pub fn told(alloc: Global, text: &str) -> Result<String, Fault> {
    let (first, second) = cut(text, ',')?;
    let first = offer(alloc, first)?;
    let second = match offer(alloc, second) {
        Ok(second) => second,
        Err(fault) => {
            drop(first);
            return Err(fault);
        }
    };
    let by_function = order_word(cmp_offer(&first, &second));
    let whole = order_word(first.cmp(&second));
    let partial = partial_word(first.partial_cmp(&second));
    let same = if first == second {
        "the same"
    } else {
        "another"
    };
    drop(first);
    drop(second);
    Ok(format!(in alloc; "{by_function} {whole} {partial}, {same}")?)
}
