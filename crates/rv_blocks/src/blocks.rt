ghost use Rattle.std.specs.Prelude.{◌≡◌, ◌==◌, ◌<◌, ◌≤◌, ◌+◌, ◌++◌, ◌^◌, [], Bool, true, false, insert, slice_set, length, filter, not, remove, slice_get, take, drop, Some, IfOk, OnOk, OnErr};
ghost use Rattle.std.specs.List.Sorted.{IsPartitionedBy};
ghost use Rattle.std.specs.Option.{option_copied};
ghost use Rattle.rv_blocks.specs.Flat.{AreSized, Turns, block_at, flat, start_of};
ghost use Rattle.rv_rows.specs.Rising.{Rising, put_in};
ghost use Rattle.rv_blocks.specs.Taking.{is_level, standing, take_from};
ghost use Rattle.rv_blocks.specs.Kept.{Kept};

use crate::block::{Block, add_copies};
use crate::edit::{insert_at, remove_at, replace_at, share_all};
use crate::placed::Placed;
use crate::search::{Front, Spot, count_front, item_at, item_of, piece_of, seek, spot_of};
use rv_value::{Duplicate, NoMemory};
use std::alloc::Global;
use std::marker::Model;

/// Whether an item comes before another one.
#[derive(Clone, Copy)]
pub struct Before<'a, X> {
    pub other: &'a X,
}

impl<'a, X: Placed> Front<X> for Before<'a, X> {
    ghost passes = { λ s x. X.before x s.other.now };

    fn passes(&self, item: &X) -> bool {
        item.comes_before(self.other)
    }
}

/// An ascending list with one item at most in a place.
#[derive(Drop)]
pub struct Blocks<X: Placed> {
    alloc: Global,
    count: usize,
    blocks: Vec<Block<X>>,
}

impl<X: Placed> Model for Blocks<X> {
    ghost use Rattle.std.specs.Prelude.{List};
    ghost use Rattle.rv_blocks.specs.Flat.{flat};
    ghost use Rattle.rv_blocks.specs.Kept.{Kept};

    ghost Value = { List X };

    ghost view = { λ b. flat b.blocks.items };

    ghost invariant = { λ b. Kept X.before b.count b.blocks.items };
}

impl<X: Placed> Blocks<X> {
    /// No item. It takes no memory.
    pub fn new(alloc: Global) -> Blocks<X>
        ensures { result ≡ [] }
    {
        Blocks {
            alloc,
            count: 0,
            blocks: Vec::new(alloc),
        }
    }

    /// How many items there are. The count is kept, so no block is looked at.
    pub fn len(&self) -> usize
        ensures same { result ≡ length self.now }
        ensures rise { Rising X.before self.now }
    {
        self.count
    }

    /// Whether there is no item; Rust's habit asks for it beside `len`.
    pub fn is_empty(&self) -> bool
        ensures { result ≡ (length self.now == 0) }
    {
        self.count == 0
    }

    /// How many items at the front pass a test that holds of a front part.
    pub fn count<F: Front<X>>(&self, test: &F) -> usize
        requires { IsPartitionedBy (F.passes test.now) self.now }
        ensures bound { result ≤ length self.now }
        ensures front { take result self.now ≡ filter (F.passes test.now) self.now }
        ensures back { drop result self.now ≡ filter (λ x. not (F.passes test.now x)) self.now }
    {
        count_kept(self.blocks.as_slice(), self.count, test)
    }

    /// The item of a rank, counted from 0 in the order of the items.
    pub fn get(&self, rank: usize) -> &X
        requires { rank < length self.now }
        ensures { slice_get self.now rank ≡ Some result.now }
    {
        item_of(self.blocks.as_slice(), rank)
    }

    /// The item that stands in the place of another one, where there is one.
    pub fn find(&self, like: &X) -> Option<&X>
        ensures { option_copied result ≡ standing X.before like.now self.now }
    {
        find_item(self.blocks.as_slice(), self.count, like)
    }

    /// The items from a rank on that stand together in one block.
    pub fn piece(&self, rank: usize) -> &[X]
        requires { rank < length self.now }
        ensures some { 0 < length result.now }
        ensures piece { result.now ≡ take (length result.now) (drop rank self.now) }
    {
        piece_of(self.blocks.as_slice(), rank)
    }

    /// Copies of so many items from a rank on, or of those that there are.
    pub fn copy_run(&self, from: usize, most: usize) -> Result<Vec<X>, NoMemory>
        ensures { IfOk result (λ run. run.items ≡ take most (drop from self.now)) }
    {
        copy_from(self.alloc, self.blocks.as_slice(), self.count, from, most)
    }

    /// An equal list that shares the blocks: no item is copied, and a later change of either copies the one block
    /// that it changes. `NoMemory` where there is no room for the list of blocks.
    pub fn share(&self) -> Result<Blocks<X>, NoMemory>
        ensures { IfOk result (λ shared. shared ≡ self.now) }
    {
        let blocks = share_all(self.alloc, self.blocks.as_slice())?;
        Ok(Blocks {
            alloc: self.alloc,
            count: self.count,
            blocks,
        })
    }

    /// Puts an item in its place. The one that stood there is answered.
    pub fn put(&mut self, item: X) -> Result<Option<X>, NoMemory>
        ensures ok { OnOk result (self.new ≡ put_in X.before item self.old) }
        ensures old { IfOk result (λ old. old ≡ standing X.before item self.old) }
        ensures err { OnErr result (self.new ≡ self.old) }
    {
        put_item(self.alloc, &mut self.blocks, &mut self.count, item)
    }

    /// Takes the item out that stands in the place of another one, where there is one.
    pub fn take_out(&mut self, like: &X) -> Result<Option<X>, NoMemory>
        ensures ok { OnOk result (self.new ≡ take_from X.before like.now self.old) }
        ensures old { IfOk result (λ old. old ≡ standing X.before like.now self.old) }
        ensures err { OnErr result (self.new ≡ self.old) }
    {
        take_item(self.alloc, &mut self.blocks, &mut self.count, like)
    }

    /// Takes the item of a rank out.
    pub fn take_at(&mut self, rank: usize) -> Result<X, NoMemory>
        requires { rank < length self.old }
        ensures taken { IfOk result (λ item. slice_get self.old rank ≡ Some item) }
        ensures ok { OnOk result (self.new ≡ remove self.old rank) }
        ensures err { OnErr result (self.new ≡ self.old) }
    {
        take_rank(self.alloc, &mut self.blocks, &mut self.count, rank)
    }
}

/// Whether the item of a place, which is not before another one, stands in its place.
fn is_here<X: Placed>(blocks: &[Block<X>], spot: Spot, other: &X) -> bool
    requires last { length (block_at blocks.now spot.block) ≤ spot.at → start_of blocks.now spot.block + spot.at ≡ length (flat blocks.now) }
    ensures { result ≡ is_level X.before other.now (slice_get (flat blocks.now) (start_of blocks.now spot.block + spot.at)) }
{
    match item_at(blocks, spot) {
        None => false,
        Some(item) => !other.comes_before(item),
    }
}

/// The item in the place of another one.
fn find_item<'a, X: Placed>(blocks: &'a [Block<X>], count: usize, like: &X) -> Option<&'a X>
    requires { Kept X.before count blocks.now }
    ensures { option_copied result ≡ standing X.before like.now (flat blocks.now) }
{
    let spot = seek(blocks, &Before { other: like });
    if is_here(blocks, spot, like) {
        item_at(blocks, spot)
    } else {
        None
    }
}

/// Puts an item in before a place where none stands in its own.
fn insert_item<X: Placed>(
    alloc: Global,
    blocks: &mut Vec<Block<X>>,
    count: &mut usize,
    spot: Spot,
    item: X,
) -> Result<(), NoMemory>
    requires kept { Kept X.before count.old blocks.old.items }
    requires there { 0 < length blocks.old.items → spot.block < length blocks.old.items }
    requires inside { spot.at ≤ length (block_at blocks.old.items spot.block) }
    requires turns { Turns (λ x. X.before x item) (flat blocks.old.items) (start_of blocks.old.items spot.block + spot.at) }
    requires new { is_level X.before item (slice_get (flat blocks.old.items) (start_of blocks.old.items spot.block + spot.at)) ≡ false }
    ensures ok { OnOk result (flat blocks.new.items ≡ put_in X.before item (flat blocks.old.items)) }
    ensures kept { Kept X.before count.new blocks.new.items }
    ensures err { OnErr result (flat blocks.new.items ≡ flat blocks.old.items) }
{
    if *count == usize::MAX {
        return Err(NoMemory);
    }
    insert_at(alloc, blocks, spot, item)?;
    *count += 1;
    Ok(())
}

/// Puts an item in the place of the one that stands there.
fn replace_item<X: Placed>(
    alloc: Global,
    blocks: &mut Vec<Block<X>>,
    count: usize,
    spot: Spot,
    item: X,
) -> Result<X, NoMemory>
    requires kept { Kept X.before count blocks.old.items }
    requires turns { Turns (λ x. X.before x item) (flat blocks.old.items) (start_of blocks.old.items spot.block + spot.at) }
    requires inside { spot.at ≤ length (block_at blocks.old.items spot.block) }
    requires last { length (block_at blocks.old.items spot.block) ≤ spot.at → start_of blocks.old.items spot.block + spot.at ≡ length (flat blocks.old.items) }
    requires level { is_level X.before item (slice_get (flat blocks.old.items) (start_of blocks.old.items spot.block + spot.at)) ≡ true }
    ensures ok { OnOk result (flat blocks.new.items ≡ put_in X.before item (flat blocks.old.items)) }
    ensures old { IfOk result (λ old. standing X.before item (flat blocks.old.items) ≡ Some old) }
    ensures kept { Kept X.before count blocks.new.items }
    ensures err { OnErr result (flat blocks.new.items ≡ flat blocks.old.items) }
{
    let old = replace_at(alloc, blocks, spot, item)?;
    Ok(old)
}

/// Puts an item in its place.
fn put_item<X: Placed>(
    alloc: Global,
    blocks: &mut Vec<Block<X>>,
    count: &mut usize,
    item: X,
) -> Result<Option<X>, NoMemory>
    requires kept { Kept X.before count.old blocks.old.items }
    ensures ok { OnOk result (flat blocks.new.items ≡ put_in X.before item (flat blocks.old.items)) }
    ensures old { IfOk result (λ old. old ≡ standing X.before item (flat blocks.old.items)) }
    ensures kept { Kept X.before count.new blocks.new.items }
    ensures err { OnErr result (flat blocks.new.items ≡ flat blocks.old.items) }
{
    let spot = seek(blocks.as_slice(), &Before { other: &item });
    if is_here(blocks.as_slice(), spot, &item) {
        let old = replace_item(alloc, blocks, *count, spot, item)?;
        Ok(Some(old))
    } else {
        insert_item(alloc, blocks, count, spot, item)?;
        Ok(None)
    }
}

/// Takes the item of a place out.
fn remove_item<X: Placed>(
    alloc: Global,
    blocks: &mut Vec<Block<X>>,
    count: &mut usize,
    spot: Spot,
) -> Result<X, NoMemory>
    requires kept { Kept X.before count.old blocks.old.items }
    requires there { spot.block < length blocks.old.items }
    requires inside { spot.at < length (block_at blocks.old.items spot.block) }
    ensures taken { IfOk result (λ item. slice_get (flat blocks.old.items) (start_of blocks.old.items spot.block + spot.at) ≡ Some item) }
    ensures ok { OnOk result (flat blocks.new.items ≡ remove (flat blocks.old.items) (start_of blocks.old.items spot.block + spot.at)) }
    ensures kept { Kept X.before count.new blocks.new.items }
    ensures err { OnErr result (flat blocks.new.items ≡ flat blocks.old.items) }
{
    let item = remove_at(alloc, blocks, spot)?;
    *count -= 1;
    Ok(item)
}

/// Takes the item out that stands in the place of another one, where there is one.
fn take_item<X: Placed>(
    alloc: Global,
    blocks: &mut Vec<Block<X>>,
    count: &mut usize,
    like: &X,
) -> Result<Option<X>, NoMemory>
    requires kept { Kept X.before count.old blocks.old.items }
    ensures ok { OnOk result (flat blocks.new.items ≡ take_from X.before like.now (flat blocks.old.items)) }
    ensures old { IfOk result (λ old. old ≡ standing X.before like.now (flat blocks.old.items)) }
    ensures kept { Kept X.before count.new blocks.new.items }
    ensures err { OnErr result (flat blocks.new.items ≡ flat blocks.old.items) }
{
    let spot = seek(blocks.as_slice(), &Before { other: like });
    if is_here(blocks.as_slice(), spot, like) {
        let item = remove_item(alloc, blocks, count, spot)?;
        Ok(Some(item))
    } else {
        Ok(None)
    }
}

/// Takes the item of a rank out.
fn take_rank<X: Placed>(
    alloc: Global,
    blocks: &mut Vec<Block<X>>,
    count: &mut usize,
    rank: usize,
) -> Result<X, NoMemory>
    requires kept { Kept X.before count.old blocks.old.items }
    requires within { rank < length (flat blocks.old.items) }
    ensures taken { IfOk result (λ item. slice_get (flat blocks.old.items) rank ≡ Some item) }
    ensures ok { OnOk result (flat blocks.new.items ≡ remove (flat blocks.old.items) rank) }
    ensures kept { Kept X.before count.new blocks.new.items }
    ensures err { OnErr result (flat blocks.new.items ≡ flat blocks.old.items) }
{
    let spot = spot_of(blocks.as_slice(), rank);
    remove_item(alloc, blocks, count, spot)
}

/// How many items at the front pass a test that holds of a front part.
fn count_kept<X, F: Front<X>>(blocks: &[Block<X>], count: usize, test: &F) -> usize
    requires sized { AreSized blocks.now }
    requires counted { count ≡ length (flat blocks.now) }
    requires parted { IsPartitionedBy (F.passes test.now) (flat blocks.now) }
    ensures bound { result ≤ length (flat blocks.now) }
    ensures front { take result (flat blocks.now) ≡ filter (F.passes test.now) (flat blocks.now) }
    ensures back { drop result (flat blocks.now) ≡ filter (λ x. not (F.passes test.now x)) (flat blocks.now) }
{
    let _count = count;
    count_front(blocks, test)
}

/// Puts copies of items from a rank on behind others, as far as they stand in one block, and answers how many.
fn add_piece<X: Duplicate>(
    alloc: Global,
    blocks: &[Block<X>],
    run: &mut Vec<X>,
    rank: usize,
    most: usize,
) -> Result<usize, NoMemory>
    requires within { rank < length (flat blocks.now) }
    requires some { 0 < most }
    ensures some { IfOk result (λ n. 0 < n) }
    ensures most { IfOk result (λ n. n ≤ most) }
    ensures bound { IfOk result (λ n. rank + n ≤ length (flat blocks.now)) }
    ensures added { IfOk result (λ n. run.new.items ≡ run.old.items ++ take n (drop rank (flat blocks.now))) }
{
    let piece = piece_of(blocks, rank);
    let n = piece.len().min(most);
    add_copies(alloc, run, &piece[..n])?;
    Ok(n)
}

/// Copies of so many items from a rank on, or of those that there are.
fn copy_from<X: Duplicate>(
    alloc: Global,
    blocks: &[Block<X>],
    count: usize,
    from: usize,
    most: usize,
) -> Result<Vec<X>, NoMemory>
    requires { count ≡ length (flat blocks.now) }
    ensures { IfOk result (λ run. run.items ≡ take most (drop from (flat blocks.now))) }
{
    let mut run = Vec::new(alloc);
    if from >= count {
        return Ok(run);
    }
    let mut rank = from;
    let mut left = most.min(count - from);
    'pieces: while left > 0 {
        let n = add_piece(alloc, blocks, &mut run, rank, left)?;
        rank += n;
        left -= n;
    }
    Ok(run)
}
