ghost use Rattle.std.specs.Prelude.{◌≡◌, ◌+◌, length, IfOk, OnOk};
ghost use Rattle.try_stores.specs.Filled.{IsFilled};

use rv_index::Tree;
use rv_value::{IndexEntry, Key, NoMemory, RowNo, Value};
use std::alloc::Global;

fn key(alloc: Global, value: i64) -> Result<Key, NoMemory>
    ensures { IfOk result (λ key. length key ≡ 1) }
{
    Key::of(alloc, vec![in alloc; Value::Int(value)]?)
}

fn entry(alloc: Global, row: u32) -> Result<IndexEntry, NoMemory>
    ensures row { IfOk result (λ entry. entry.row.0 ≡ row) }
    ensures key { IfOk result (λ entry. length entry.key ≡ 1) }
{
    Ok(IndexEntry {
        key: key(alloc, i64::from(row))?,
        row: RowNo(u64::from(row)),
    })
}

/// The entry of the next row.
fn put_next(alloc: Global, tree: &mut Tree, row: u32) -> Result<(), NoMemory>
    requires { IsFilled row tree.old }
    ensures { OnOk result (IsFilled (row + 1) tree.new) }
{
    let entry = entry(alloc, row)?;
    tree.insert(entry, 1)
}

/// The tree of the entries of so many rows, which are put in one after another and whose keys are their numbers.
pub fn filled(alloc: Global, count: u32) -> Result<Tree, NoMemory>
    ensures { IfOk result (IsFilled count) }
{
    let mut tree = Tree::new(alloc)?;
    'rows: for row in 0..count {
        put_next(alloc, &mut tree, row)?;
    }
    Ok(tree)
}
