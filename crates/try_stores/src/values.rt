//! Values in words, and the values of rows of one number.
ghost use Rattle.std.specs.Prelude.{◌≡◌, IfOk, length};

use crate::told::Told;
use rv_value::{NoMemory, Value, Values};
use std::alloc::Global;

/// Tells the first of some values, where that is a number.
pub fn tell_first(told: &mut Told, values: &[Value]) {
    match values.first() {
        Some(Value::Int(number)) => told.integer(*number),
        _ => told.word("none"),
    }
}

/// The values of a row of one number.
pub fn one_value(alloc: Global, number: i64) -> Result<Values, NoMemory>
    ensures { IfOk result (λ values. length values ≡ 1) }
{
    Values::of(alloc, vec![in alloc; Value::Int(number)]?)
}
