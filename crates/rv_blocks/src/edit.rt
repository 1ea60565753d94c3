ghost use Rattle.std.specs.Prelude.{◌≡◌, ◌<◌, ◌≤◌, ◌+◌, ◌++◌, ◌∷◌, [], true, length, insert, remove, slice_set, slice_get, Some, IfOk, OnOk, OnErr};
ghost use Rattle.rv_blocks.specs.Flat.{AreSized, block_at, flat, is_sized, start_of};

use crate::block::{Block, copies_with};
use crate::search::{Spot, item_in};
use rv_value::{Duplicate, NoMemory};
use std::alloc::Global;

/// How many items a block has at most.
pub const MOST: usize = 128;

/// The block of one item.
fn block_of_one<X: Duplicate>(alloc: Global, item: X) -> Result<Block<X>, NoMemory>
    ensures { IfOk result (λ block. block ≡ item ∷ []) }
{
    let mut items = Vec::with_capacity(alloc, MOST)?;
    items.push(item)?;
    Block::of(alloc, items)
}

/// The two halves of a full block's items and a further one.
fn halves<X: Duplicate>(
    alloc: Global,
    items: &[X],
    at: usize,
    item: X,
) -> Result<(Block<X>, Block<X>), NoMemory>
    requires full { length items.now ≡ 128 }
    requires within { at ≤ length items.now }
    ensures all { IfOk result (λ two. two.0 ++ two.1 ≡ insert items.now at item) }
    ensures front { IfOk result (λ two. is_sized two.0 ≡ true) }
    ensures back { IfOk result (λ two. is_sized two.1 ≡ true) }
{
    let mut front = copies_with(alloc, items, at, item)?;
    let back = front.split_off(64)?;
    Ok((Block::of(alloc, front)?, Block::of(alloc, back)?))
}

/// Puts two blocks in place of one.
fn put_two<X: Duplicate>(
    blocks: &mut Vec<Block<X>>,
    block: usize,
    front: Block<X>,
    back: Block<X>,
) -> Result<(), NoMemory>
    requires { block < length blocks.old.items }
    ensures ok { OnOk result (blocks.new.items ≡ insert (slice_set blocks.old.items block front) (block + 1) back) }
    ensures err { OnErr result (blocks.new.items ≡ blocks.old.items) }
{
    blocks.insert(block + 1, back)?;
    blocks[block] = front;
    Ok(())
}

/// Puts an item in, into a block that is split.
fn insert_split<X: Duplicate>(
    alloc: Global,
    blocks: &mut Vec<Block<X>>,
    spot: Spot,
    item: X,
) -> Result<(), NoMemory>
    requires sized { AreSized blocks.old.items }
    requires there { spot.block < length blocks.old.items }
    requires inside { spot.at ≤ length (block_at blocks.old.items spot.block) }
    requires full { length (block_at blocks.old.items spot.block) ≡ 128 }
    ensures ok { OnOk result (flat blocks.new.items ≡ insert (flat blocks.old.items) (start_of blocks.old.items spot.block + spot.at) item) }
    ensures err { OnErr result (blocks.new.items ≡ blocks.old.items) }
    ensures sized { AreSized blocks.new.items }
{
    let (front, back) = halves(alloc, blocks[spot.block].as_slice(), spot.at, item)?;
    put_two(blocks, spot.block, front, back)?;
    Ok(())
}

/// Puts an item in, into a block that has room.
fn insert_inside<X: Duplicate>(
    alloc: Global,
    blocks: &mut Vec<Block<X>>,
    spot: Spot,
    item: X,
) -> Result<(), NoMemory>
    requires sized { AreSized blocks.old.items }
    requires there { spot.block < length blocks.old.items }
    requires inside { spot.at ≤ length (block_at blocks.old.items spot.block) }
    requires room { length (block_at blocks.old.items spot.block) < 128 }
    ensures ok { OnOk result (flat blocks.new.items ≡ insert (flat blocks.old.items) (start_of blocks.old.items spot.block + spot.at) item) }
    ensures err { OnErr result (blocks.new.items ≡ blocks.old.items) }
    ensures sized { AreSized blocks.new.items }
{
    blocks[spot.block].insert(alloc, spot.at, item)?;
    Ok(())
}

/// Puts an item in behind the last one of a block, into a block of its own. So a list that is filled in ascending order
/// has full blocks.
fn insert_behind<X: Duplicate>(
    alloc: Global,
    blocks: &mut Vec<Block<X>>,
    spot: Spot,
    item: X,
) -> Result<(), NoMemory>
    requires sized { AreSized blocks.old.items }
    requires there { spot.block < length blocks.old.items }
    requires end { spot.at ≡ length (block_at blocks.old.items spot.block) }
    ensures ok { OnOk result (flat blocks.new.items ≡ insert (flat blocks.old.items) (start_of blocks.old.items spot.block + spot.at) item) }
    ensures err { OnErr result (blocks.new.items ≡ blocks.old.items) }
    ensures sized { AreSized blocks.new.items }
{
    let block = block_of_one(alloc, item)?;
    blocks.insert(spot.block + 1, block)?;
    Ok(())
}

/// Puts an item in, into a block that is full.
fn insert_full<X: Duplicate>(
    alloc: Global,
    blocks: &mut Vec<Block<X>>,
    spot: Spot,
    item: X,
) -> Result<(), NoMemory>
    requires sized { AreSized blocks.old.items }
    requires there { spot.block < length blocks.old.items }
    requires inside { spot.at ≤ length (block_at blocks.old.items spot.block) }
    requires full { length (block_at blocks.old.items spot.block) ≡ 128 }
    ensures ok { OnOk result (flat blocks.new.items ≡ insert (flat blocks.old.items) (start_of blocks.old.items spot.block + spot.at) item) }
    ensures err { OnErr result (blocks.new.items ≡ blocks.old.items) }
    ensures sized { AreSized blocks.new.items }
{
    if spot.at == MOST {
        insert_behind(alloc, blocks, spot, item)
    } else {
        insert_split(alloc, blocks, spot, item)
    }
}

/// Puts an item in before a place.
pub fn insert_at<X: Duplicate>(
    alloc: Global,
    blocks: &mut Vec<Block<X>>,
    spot: Spot,
    item: X,
) -> Result<(), NoMemory>
    requires sized { AreSized blocks.old.items }
    requires there { 0 < length blocks.old.items → spot.block < length blocks.old.items }
    requires inside { spot.at ≤ length (block_at blocks.old.items spot.block) }
    ensures ok { OnOk result (flat blocks.new.items ≡ insert (flat blocks.old.items) (start_of blocks.old.items spot.block + spot.at) item) }
    ensures err { OnErr result (blocks.new.items ≡ blocks.old.items) }
    ensures sized { AreSized blocks.new.items }
{
    if blocks.is_empty() {
        let block = block_of_one(alloc, item)?;
        blocks.push(block)?;
        Ok(())
    } else if blocks[spot.block].len() < MOST {
        insert_inside(alloc, blocks, spot, item)
    } else {
        insert_full(alloc, blocks, spot, item)
    }
}

/// Takes the item of a place out of a block that has others.
fn remove_inside<X: Duplicate>(
    alloc: Global,
    blocks: &mut Vec<Block<X>>,
    spot: Spot,
) -> Result<X, NoMemory>
    requires sized { AreSized blocks.old.items }
    requires there { spot.block < length blocks.old.items }
    requires inside { spot.at < length (block_at blocks.old.items spot.block) }
    requires more { 1 < length (block_at blocks.old.items spot.block) }
    ensures taken { IfOk result (λ item. slice_get (flat blocks.old.items) (start_of blocks.old.items spot.block + spot.at) ≡ Some item) }
    ensures ok { OnOk result (flat blocks.new.items ≡ remove (flat blocks.old.items) (start_of blocks.old.items spot.block + spot.at)) }
    ensures err { OnErr result (blocks.new.items ≡ blocks.old.items) }
    ensures sized { AreSized blocks.new.items }
{
    let item = blocks[spot.block].remove(alloc, spot.at)?;
    Ok(item)
}

/// Takes a block of one item out.
fn remove_block<X: Duplicate>(
    alloc: Global,
    blocks: &mut Vec<Block<X>>,
    spot: Spot,
) -> Result<X, NoMemory>
    requires sized { AreSized blocks.old.items }
    requires there { spot.block < length blocks.old.items }
    requires inside { spot.at < length (block_at blocks.old.items spot.block) }
    requires one { length (block_at blocks.old.items spot.block) ≡ 1 }
    ensures taken { IfOk result (λ item. slice_get (flat blocks.old.items) (start_of blocks.old.items spot.block + spot.at) ≡ Some item) }
    ensures ok { OnOk result (flat blocks.new.items ≡ remove (flat blocks.old.items) (start_of blocks.old.items spot.block + spot.at)) }
    ensures err { OnErr result (blocks.new.items ≡ blocks.old.items) }
    ensures sized { AreSized blocks.new.items }
{
    let item = item_in(blocks, spot).copy(alloc)?;
    let _block = blocks.remove(spot.block);
    Ok(item)
}

/// Takes the item of a place out; an emptied block goes.
pub fn remove_at<X: Duplicate>(
    alloc: Global,
    blocks: &mut Vec<Block<X>>,
    spot: Spot,
) -> Result<X, NoMemory>
    requires sized { AreSized blocks.old.items }
    requires there { spot.block < length blocks.old.items }
    requires inside { spot.at < length (block_at blocks.old.items spot.block) }
    ensures taken { IfOk result (λ item. slice_get (flat blocks.old.items) (start_of blocks.old.items spot.block + spot.at) ≡ Some item) }
    ensures ok { OnOk result (flat blocks.new.items ≡ remove (flat blocks.old.items) (start_of blocks.old.items spot.block + spot.at)) }
    ensures err { OnErr result (blocks.new.items ≡ blocks.old.items) }
    ensures sized { AreSized blocks.new.items }
{
    if blocks[spot.block].len() > 1 {
        remove_inside(alloc, blocks, spot)
    } else {
        remove_block(alloc, blocks, spot)
    }
}

/// Puts another item in a place, and answers the one that stood there.
pub fn replace_at<X: Duplicate>(
    alloc: Global,
    blocks: &mut Vec<Block<X>>,
    spot: Spot,
    item: X,
) -> Result<X, NoMemory>
    requires sized { AreSized blocks.old.items }
    requires there { spot.block < length blocks.old.items }
    requires inside { spot.at < length (block_at blocks.old.items spot.block) }
    ensures taken { IfOk result (λ old. slice_get (flat blocks.old.items) (start_of blocks.old.items spot.block + spot.at) ≡ Some old) }
    ensures ok { OnOk result (flat blocks.new.items ≡ slice_set (flat blocks.old.items) (start_of blocks.old.items spot.block + spot.at) item) }
    ensures err { OnErr result (blocks.new.items ≡ blocks.old.items) }
    ensures sized { AreSized blocks.new.items }
{
    let old = blocks[spot.block].replace(alloc, spot.at, item)?;
    Ok(old)
}

/// Equal blocks that hold the same items.
pub fn share_all<X: Drop>(alloc: Global, blocks: &[Block<X>]) -> Result<Vec<Block<X>>, NoMemory>
    ensures { IfOk result (λ shared. shared.items ≡ blocks.now) }
{
    let mut shared = Vec::with_capacity(alloc, blocks.len() + 1)?;
    'each: for block in blocks {
        shared.push(block.share()?)?;
    }
    Ok(shared)
}
