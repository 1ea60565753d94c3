//! Ranges of keys whose first value is a number.
ghost use Rattle.std.specs.Prelude.{IfOk, false};
ghost use Rattle.rv_loading.specs.Laid.{IsNarrow};

use rv_value::{Bound, Key, NoMemory, Range, Value};
use std::alloc::Global;

/// The range of all keys, which has no bound.
pub fn whole() -> Range
    ensures { IsNarrow result }
{
    Range {
        low: None,
        high: None,
        starts: false,
    }
}

fn bound(alloc: Global, value: i64) -> Result<Option<Bound>, NoMemory>
    ensures { IfOk result (λ bound. IsNarrow (record { low = bound; high = bound; starts = false })) }
{
    let key = Key::of(alloc, vec![in alloc; Value::Int(value)]?)?;
    Ok(Some(Bound { key, closed: true }))
}

/// The keys whose first value is from one number to another.
pub fn between(alloc: Global, low: i64, high: i64) -> Result<Range, NoMemory>
    ensures { IfOk result IsNarrow }
{
    let low = bound(alloc, low)?;
    let high = bound(alloc, high)?;
    Ok(Range {
        low,
        high,
        starts: false,
    })
}
