//! Numbers of an act.
use rv_loading::{Fault, cut, number, small};

/// A number below 2^32 and one below 2^64, parted by a space.
pub fn pair(text: &str) -> Result<(u32, u64), Fault> {
    let (first, second) = cut(text, ' ')?;
    Ok((small(first)?, number(second)?))
}
