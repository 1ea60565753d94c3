//! Nodes of an index tree over keys of one number.
ghost use Rattle.std.specs.Prelude.{◌≡◌, length};

use crate::told::Told;
use crate::values::tell_first;
use rv_loading::{Fault, cut, integer};
use rv_node::Node;
use rv_value::{Bound, Duplicate, IndexEntry, Key, NoMemory, Range, RowNo, Value};
use std::alloc::Global;

fn key(alloc: Global, first: i64) -> Result<Key, NoMemory> {
    Key::of(alloc, vec![in alloc; Value::Int(first)]?)
}

fn entry(alloc: Global, first: i64) -> Result<IndexEntry, NoMemory> {
    Ok(IndexEntry {
        key: key(alloc, first)?,
        row: RowNo(0),
    })
}

/// A closed bound or an open one.
fn bound_at(alloc: Global, number: &str, closed: bool) -> Result<Option<Bound>, Fault> {
    let key = key(alloc, integer(number)?)?;
    Ok(Some(Bound { key, closed }))
}

/// `-` for no bound, a number behind `[` for a closed one, a number behind `(` for an open one.
fn bound(alloc: Global, word: &str) -> Result<Option<Bound>, Fault> {
    if word == "-" {
        return Ok(None);
    }
    if let Some(number) = word.strip_prefix("[") {
        return bound_at(alloc, number, true);
    }
    match word.strip_prefix("(") {
        Some(number) => bound_at(alloc, number, false),
        None => Err(Fault::Form),
    }
}

fn range(alloc: Global, text: &str) -> Result<Range, Fault> {
    let (low, high) = cut(text, ' ')?;
    let low = bound(alloc, low)?;
    match bound(alloc, high) {
        Ok(high) => Ok(Range {
            low,
            high,
            starts: false,
        }),
        Err(fault) => {
            drop(low);
            Err(fault)
        }
    }
}

fn add_low(alloc: Global, entries: &mut Vec<IndexEntry>, word: &str) -> Result<(), Fault> {
    let entry = entry(alloc, integer(word)?)?;
    Ok(entries.push(entry)?)
}

/// The low entries of a node's children.
fn lows(alloc: Global, text: &str) -> Result<Vec<IndexEntry>, Fault> {
    let mut entries = Vec::new(alloc);
    'words: for word in text.split(' ') {
        add_low(alloc, &mut entries, word)?;
    }
    Ok(entries)
}

/// So many children, of the id 9.
fn nines(alloc: Global, count: usize) -> Result<Vec<u32>, NoMemory>
    ensures { Rattle.std.specs.Prelude.IfOk result (λ ids. length ids.items ≡ count) }
{
    let mut ids = Vec::new(alloc);
    'ids: for _made in 0..count {
        ids.push(9)?;
    }
    Ok(ids)
}

/// A node above leaves, of one to 32 children with these low entries.
fn parent(alloc: Global, entries: Vec<IndexEntry>) -> Result<Node, Fault>
    ensures { Rattle.std.specs.Prelude.IfOk result (λ node. node.level ≡ 1) }
{
    let count = entries.len();
    if count == 0 || count > 32 {
        return Err(Fault::Form);
    }
    let children = nines(alloc, count)?;
    Ok(Node::make(1, entries, children))
}

fn tell_between(
    alloc: Global,
    told: &mut Told,
    entries: Vec<IndexEntry>,
    range: &Range,
) -> Result<(), Fault> {
    let node = parent(alloc, entries)?;
    let (first, last) = node.children_for(range);
    let (entries, children) = node.into_parts();
    told.number(first as u64);
    told.with(" to ", last as u64);
    told.with(", ", entries.len() as u64);
    told.with(" entries and ", children.len() as u64);
    told.word(" children");
    Ok(())
}

/// The places of the first and the last child that may have keys of a range, and how many entries and children the node gives
/// back: low entries, ` in ` and the bounds.
pub fn tell_children(alloc: Global, told: &mut Told, text: &str) -> Result<(), Fault> {
    let (entries, bounds) = text.split_once(" in ").ok_or(Fault::Form)?;
    let entries = lows(alloc, entries)?;
    let range = range(alloc, bounds)?;
    let done = tell_between(alloc, told, entries, &range);
    drop(range);
    done
}

/// Tells the level of a node, and the first values of its keys.
fn tell_node(told: &mut Told, node: &Node) {
    told.with("level ", u64::from(node.level()));
    told.with(", children ", node.children().len() as u64);
    told.word(", keys");
    'entries: for entry in node.entries() {
        told.word(" ");
        tell_first(told, entry.key.as_slice());
    }
}

/// The same of a copy of a leaf, which goes.
fn tell_copy(alloc: Global, told: &mut Told, leaf: Node) -> Result<(), Fault> {
    let copy = leaf.copy(alloc);
    drop(leaf);
    let copy = copy?;
    tell_node(told, &copy);
    drop(copy);
    Ok(())
}

/// A leaf of some keys, or the empty leaf for `none`, and its copy.
pub fn tell_leaf(alloc: Global, told: &mut Told, text: &str) -> Result<(), Fault> {
    if text == "none" {
        return tell_copy(alloc, told, Node::leaf(alloc));
    }
    let entries = lows(alloc, text)?;
    if entries.len() > 32 {
        return Err(Fault::Form);
    }
    tell_copy(alloc, told, Node::make(0, entries, Vec::new(alloc)))
}
