//! Fills index trees with ascending entries, and tells how many nodes of each size each level then has, and for
//! some ranges the estimate and what is read. The file `stdout` has what tools/tables/try_trees.py finds by the rules in
//! words.
mod fill;
mod shape;

ghost use Rattle.try_stores.specs.Filled.{IsFilled};

use crate::told::Told;
use crate::trees::fill::filled;
use crate::trees::shape::{estimated, nodes_of, read};
use rv_index::Tree;
use rv_loading::{Fault, between};
use rv_value::NoMemory;
use std::alloc::Global;

/// Tells how many nodes of a level have so many entries or children.
fn tell_nodes(told: &mut Told, level: u32, count: usize, size: usize) {
    told.with("  level ", u64::from(level));
    told.with(": ", count as u64);
    told.with(" of ", size as u64);
    told.word("\n");
}

fn tell_level(told: &mut Told, tree: &Tree, level: u32) {
    'sizes: for size in 0..33 {
        let count = nodes_of(tree, level, size);
        if count > 0 {
            tell_nodes(told, level, count, size);
        }
    }
}

/// Tells the estimate of a range, and what is read of it.
fn tell_found(
    alloc: Global,
    told: &mut Told,
    tree: &Tree,
    count: u32,
    low: i64,
    high: i64,
) -> Result<(), NoMemory>
    requires { IsFilled count tree.now }
{
    let range = between(alloc, low, high)?;
    told.range(low, high, estimated(tree, count, &range));
    let found = read(tree, count, &range);
    drop(range);
    let (entries, leaves) = found?;
    told.read(entries, leaves);
    Ok(())
}

fn tell_filled(alloc: Global, told: &mut Told, tree: &Tree, count: u32) -> Result<(), NoMemory>
    requires { IsFilled count tree.now }
{
    told.number(u64::from(count));
    told.word(" entries\n");
    'levels: for level in 0..4 {
        tell_level(told, tree, level);
    }
    'ranges: for (low, high) in [(10, 29), (20, 22), (100, 200), (29, 10), (500, 15_000)] {
        tell_found(alloc, told, tree, count, low, high)?;
    }
    Ok(())
}

fn tell_tree(alloc: Global, told: &mut Told, count: u32) -> Result<(), NoMemory> {
    let tree = filled(alloc, count)?;
    let done = tell_filled(alloc, told, &tree, count);
    drop(tree);
    done
}

/// Tells all lines of this part of the program.
pub fn tell(alloc: Global, told: &mut Told) -> Result<(), Fault> {
    'counts: for count in [40, 1_100, 20_000] {
        tell_tree(alloc, told, count)?;
    }
    Ok(())
}
