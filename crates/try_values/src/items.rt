//! Lists of items: acts on a list of numbers, and copies of pairs.
use crate::orders::yes_or_no;
use rv_loading::{Fault, cut, place, small};
use rv_value::{Duplicate, Items, NoMemory};
use std::alloc::Global;

/// Puts a number in before a place.
fn insert(items: &mut Items<u32>, text: &str) -> Result<(), Fault> {
    let (at, item) = cut(text, ' ')?;
    let (at, item) = (place(at)?, small(item)?);
    if at > items.len() {
        return Err(Fault::Form);
    }
    Ok(items.insert(at, item)?)
}

/// Takes the item of a place out, and puts it at the end.
fn turn(items: &mut Items<u32>, text: &str) -> Result<(), Fault> {
    let at = place(text)?;
    if at >= items.len() {
        return Err(Fault::Form);
    }
    let taken = items.remove(at);
    Ok(items.push(taken)?)
}

/// Puts another number in a place.
fn put(items: &mut Items<u32>, text: &str) -> Result<(), Fault> {
    let (at, item) = cut(text, ' ')?;
    let (at, item) = (place(at)?, small(item)?);
    if at >= items.len() {
        return Err(Fault::Form);
    }
    items.put(at, item);
    Ok(())
}

/// Writes another number into a place.
fn write(items: &mut Items<u32>, text: &str) -> Result<(), Fault> {
    let (at, item) = cut(text, ' ')?;
    let (at, item) = (place(at)?, small(item)?);
    if at >= items.len() {
        return Err(Fault::Form);
    }
    *items.at_mut(at) = item;
    Ok(())
}

fn drop_equal(items: &mut Items<u32>, text: &str) -> Result<(), Fault> {
    let other = small(text)?;
    items.retain(|item| *item != other);
    Ok(())
}

fn act(items: &mut Items<u32>, text: &str) -> Result<(), Fault> {
    let (word, rest) = cut(text, ' ')?;
    match word {
        "push" => Ok(items.push(small(rest)?)?),
        "insert" => insert(items, rest),
        "turn" => turn(items, rest),
        "put" => put(items, rest),
        "write" => write(items, rest),
        "drop" => drop_equal(items, rest),
        _ => Err(Fault::Form),
    }
}

/// A list's length, whether it is empty, and the items of a copy.
fn told_items(alloc: Global, items: &Items<u32>) -> Result<String, NoMemory> {
    let empty = yes_or_no(items.is_empty());
    let mut told = format!(in alloc; "{} items, empty {empty},", items.len())?;
    let copy = items.copy(alloc)?.into_vec();
    'items: for item in copy.as_slice() {
        let word = format!(in alloc; " {item}")?;
        told.push_str(word.as_str())?;
    }
    Ok(told)
}

/// Does acts on the empty list: `push N`, `insert PLACE N`, `turn PLACE`, which puts an item at the end, `put PLACE N`,
/// `write PLACE N`, and `drop N`, which takes all of this number out.
pub fn told(alloc: Global, text: &str) -> Result<String, Fault> {
    let mut items = Items::new(alloc);
    'acts: for text in text.split(';') {
        act(&mut items, text)?;
    }
    Ok(told_items(alloc, &items)?)
}

/// A number, and another one or N for none.
fn pair(text: &str) -> Result<(u32, Option<u32>), Fault> {
    let (first, second) = cut(text, ' ')?;
    let first = small(first)?;
    if second == "N" {
        return Ok((first, None));
    }
    Ok((first, Some(small(second)?)))
}

fn pairs(alloc: Global, text: &str) -> Result<Vec<(u32, Option<u32>)>, Fault> {
    let mut pairs = Vec::new(alloc);
    'pairs: for text in text.split(';') {
        pairs.push(pair(text)?)?;
    }
    Ok(pairs)
}

/// Whether a copy of a list of pairs is the same.
pub fn told_pairs(alloc: Global, text: &str) -> Result<String, Fault> {
    let pairs = Items::from_vec(pairs(alloc, text)?);
    let same = yes_or_no(pairs.copy(alloc)? == pairs);
    Ok(format!(in alloc; "{} pairs, copied {same}", pairs.len())?)
}
