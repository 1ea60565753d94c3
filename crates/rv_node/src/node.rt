ghost use Rattle.std.specs.Prelude.{◌≡◌, ◌<◌, ◌≤◌, length};
ghost use Rattle.rv_node.specs.Children.{first_child, last_child};
ghost use Rattle.rv_node.specs.Nodes.{empty_node, AreParts, IsNode};

use crate::children::{last_before, last_not_after};
use rv_value::{Duplicate, IndexEntry, Items, NoMemory, Range, copy_with_room};
use std::alloc::Global;
use std::marker::Model;

/// A leaf of an index tree, with its entries, or a node above, with its children beside their low entries. A child
/// holds entries from its low entry on and before that of the next child; the first low entry is not looked at.
///
/// Contracts see the level, the entries and the ids of the children.
#[derive(Drop)]
pub struct Node {
    level: u32,
    entries: Items<IndexEntry>,
    children: Items<u32>,
}

impl Model for Node {
    ghost use Rattle.rv_node.specs.Nodes.{Parts, IsNode};

    ghost Value = { Parts };

    ghost view = { λ n. record { level = n.level; entries = n.entries; children = n.children } };

    ghost invariant = { λ n. IsNode n.level n.entries n.children };
}

impl Node {
    /// The empty leaf. It takes no memory.
    pub fn leaf(alloc: Global) -> Node
        ensures { result ≡ empty_node }
    {
        Node::make(0, Vec::new(alloc), Vec::new(alloc))
    }

    /// A node of up to 32 entries: a leaf, of level 0, has no children, a node above has one beside each entry. It
    /// takes no memory.
    pub fn make(level: u32, entries: Vec<IndexEntry>, children: Vec<u32>) -> Node
        requires { IsNode level entries.items children.items }
        ensures { result ≡ record { level = level; entries = entries.items; children = children.items } }
    {
        Node {
            level,
            entries: Items::from_vec(entries),
            children: Items::from_vec(children),
        }
    }

    /// How many levels of nodes are below, 0 for a leaf.
    pub fn level(&self) -> u32
        ensures { result ≡ self.now.level }
    {
        self.level
    }

    /// A leaf's entries, or the low entries of the children.
    pub fn entries(&self) -> &[IndexEntry]
        ensures same { result.now ≡ self.now.entries }
        ensures short { length self.now.entries ≤ 32 }
    {
        self.entries.as_slice()
    }

    /// The ids of the children.
    pub fn children(&self) -> &[u32]
        ensures same { result.now ≡ self.now.children }
        ensures parts { AreParts self.now.level self.now.entries self.now.children }
    {
        self.children.as_slice()
    }

    /// A leaf's entries or the low entries of the children, and the ids of the children, for a node that is made of
    /// them anew. It takes no memory.
    pub fn into_parts(self) -> (Vec<IndexEntry>, Vec<u32>)
        ensures entries { result.0.items ≡ self.entries }
        ensures short { length self.entries ≤ 32 }
        ensures children { result.1.items ≡ self.children }
        ensures parts { AreParts self.level self.entries self.children }
    {
        (self.entries.into_vec(), self.children.into_vec())
    }

    /// The places of the first and the last child that may hold keys of a range, counted from 0. It takes no memory.
    pub fn children_for(&self, range: &Range) -> (u32, u32)
        requires { 0 < self.now.level }
        ensures first { result.0 ≡ first_child range.now self.now.entries }
        ensures last { result.1 ≡ last_child range.now self.now.entries }
        ensures order { result.0 ≤ result.1 }
        ensures within { result.1 < length self.now.children }
    {
        let lows = self.entries.as_slice();
        let last = last_not_after(lows, range);
        let first = last_before(&lows[..last + 1], range);
        (first as u32, last as u32)
    }
}

impl Duplicate for Node {
    /// The same node, with room for one entry more: it is copied where a commit changes it.
    fn copy(&self, alloc: Global) -> Result<Node, NoMemory> {
        Ok(Node {
            level: self.level,
            entries: Items::from_vec(copy_with_room(alloc, self.entries.as_slice(), 1)?),
            children: self.children.copy(alloc)?,
        })
    }
}
