ghost use Rattle.std.specs.Prelude.{◌≡◌, ℕ, ◌+◌, ◌-◌, ◌<◌, ◌≤◌, [], ◌∷◌, drop, length, IfOk, OnOk, OnErr, Some, None, unwrap_or, filter, slice_index_or, ◌==◌};
ghost use Rattle.std.specs.Option.{option_copied};
ghost use Rattle.std.specs.List.{insert};
ghost use Rattle.rv_reader.specs.Entries.{comes_before, AreLong, Ascend};
ghost use Rattle.rv_reader.specs.Leaves.{is_wanted, IsChunk};
ghost use Rattle.rv_versions.specs.Chains.{value_of, versions_to, AllChainsBelow};
ghost use Rattle.rv_node.specs.Nodes.{empty_node, AreParts};
ghost use Rattle.rv_node.specs.Descent.{child_in};
ghost use Rattle.rv_node.specs.Ranks.{IsRanked, Ranks, any, is_long};
ghost use Rattle.rv_node.specs.Sound.{Absent};
ghost use Rattle.rv_node.specs.Trees.{grow, placed, up_to};
ghost use Rattle.rv_index.specs.Index.{cuts_of, entries_of, level_at, nodes_at, IsDeleted, IsInserted, IsNew, IsOlderSame, IsOwn, IsSound};
ghost use Rattle.rv_index.specs.Steps.{behind_child, leaf_of, leaf_without, shrunken, AreOthersSame, HasParts, IsGrown, IsNodePut, IsOlderKept, IsRaised, IsStoredIn};

use crate::parts::{child_for, child_of, cut_off, put_entry, take_entry, wanted_of};
use rv_node::Node;
use rv_reader::{Chunk, cut_within};
use rv_value::{Duplicate, IndexEntry, Items, NoMemory, Range};
use rv_versions::Versions;
use std::alloc::Global;
use std::marker::Model;
use std::mem;

/// A search tree of index entries, of which each node keeps its older versions.
///
/// Each commit has its own tree, of which the nodes are the newest versions not above it. A node has up to 32 entries
/// or children; one that would have more is split into its first 16 and the rest. The root has the id 0, and keeps it
/// when it is split: two new nodes take the halves. A deletion leaves the node, even an empty one.
///
/// It notes which nodes commits have written anew, so that their older versions can be looked for there. Contracts do not
/// see the notes, and nothing rests on them.
#[derive(Drop)]
pub struct Tree {
    alloc: Global,
    nodes: Versions<Node>,
    written: Vec<u32>,
}

impl Model for Tree {
    ghost use Rattle.std.specs.Prelude.{◌≤◌, List, length};
    ghost use Rattle.rv_versions.specs.declared.chain.Version.{Version};
    ghost use Rattle.rv_node.specs.Nodes.{Parts};

    ghost Value = { List (List (Version Parts)) };

    ghost view = { λ t. t.nodes };

    ghost invariant = { λ t. length t.nodes ≤ 4294967296 };
}

impl Tree {
    /// The tree without entries: one empty leaf.
    pub fn new(alloc: Global) -> Result<Tree, NoMemory>
        ensures { IfOk result IsNew }
    {
        let mut nodes = Versions::new(alloc);
        match nodes.write(0, 0, Node::leaf(alloc)) {
            Ok(()) => Ok(Tree {
                alloc,
                nodes,
                written: Vec::new(alloc),
            }),
            Err(_node) => Err(NoMemory),
        }
    }

    /// How many nodes there ever were: their ids are below this number.
    pub fn len(&self) -> usize
        ensures same { result ≡ length self.now }
        ensures few { length self.now ≤ 4294967296 }
    {
        self.nodes.len()
    }

    /// Whether there is no node, which is never so.
    pub fn is_empty(&self) -> bool
        ensures { result ≡ (length self.now == 0) }
    {
        self.nodes.is_empty()
    }

    /// A node at a snapshot; None exactly where no commit up to the snapshot wrote it, which is as an empty leaf.
    pub fn node(&self, id: u32, snap: u64) -> Option<&Node>
        ensures read { option_copied result ≡ value_of self.now id snap }
        ensures node { unwrap_or (option_copied result) empty_node ≡ nodes_at self.now snap id }
    {
        self.nodes.read(id, snap)
    }

    /// The level of the root: how many levels of nodes are below it.
    pub fn level(&self, snap: u64) -> u32
        ensures { result ≡ level_at (nodes_at self.now snap) }
    {
        match self.nodes.read(0, snap) {
            Some(node) => node.level(),
            None => 0,
        }
    }

    /// The leaf in which a reading begins, and the cut that follows.
    fn leaf(
        &self,
        snap: u64,
        from: Option<&IndexEntry>,
        range: &Range,
    ) -> (Option<&Node>, Option<&IndexEntry>)
        requires sound { IsSound self.now snap }
        requires long { AreLong range.now (entries_of self.now snap) }
        requires long_cuts { AreLong range.now (cuts_of self.now snap) }
        ensures leaf { ((unwrap_or (option_copied result.0) empty_node).entries, option_copied result.1) ≡ leaf_of (nodes_at self.now snap) (option_copied from.entry) range.now }
        ensures ranks { Ranks (is_long range.now) (unwrap_or (option_copied result.0) empty_node).entries }
    {
        let mut id = 0;
        let mut level = self.level(snap);
        let mut next = None;
        'down: while 0 < level {
            let Some(node) = self.nodes.read(id, snap) else {
                return (None, next);
            };
            let (kid, cut) = child_of(node, from, range, next);
            id = kid;
            next = cut;
            level -= 1;
        }
        (self.nodes.read(id, snap), next)
    }

    fn part(
        &self,
        leaf: Option<&Node>,
        from: Option<&IndexEntry>,
        range: &Range,
    ) -> Result<Items<IndexEntry>, NoMemory>
        requires { Ranks (is_long range.now) (unwrap_or (option_copied leaf) empty_node).entries }
        ensures { IfOk result (λ found. found ≡ filter (is_wanted range.now (option_copied from.entry)) (unwrap_or (option_copied leaf.entry) empty_node).entries) }
    {
        match leaf {
            Some(node) => Ok(Items::from_vec(wanted_of(self.alloc, node.entries(), from, range)?)),
            None => Ok(Items::new(self.alloc)),
        }
    }

    /// One leaf of the tree at a snapshot. With `from` None it is the last leaf that begins at a cut whose key is
    /// before the range, or the first leaf where no cut is so; else it is the leaf in which `from` stands, and its
    /// entries are given from `from` on. It is found by a descent from the root, and only what is handed out is
    /// copied. The keys have at least as many values as the range's bounds.
    pub fn chunk(
        &self,
        snap: u64,
        from: Option<&IndexEntry>,
        range: &Range,
    ) -> Result<Chunk, NoMemory>
        requires sound { IsSound self.now snap }
        requires long { AreLong range.now (entries_of self.now snap) }
        requires long_cuts { AreLong range.now (cuts_of self.now snap) }
        ensures { IfOk result (IsChunk (entries_of self.now snap) (cuts_of self.now snap) range.now (option_copied from.entry)) }
    {
        let (leaf, cut) = self.leaf(snap, from, range);
        let entries = self.part(leaf, from, range)?;
        let next = cut_within(self.alloc, cut, range)?;
        Ok(Chunk { entries, next })
    }

    /// Another node under an id that is there.
    fn replace(&mut self, id: u32, node: Node, commit: u64) -> Result<(), NoMemory>
        requires there { id < length self.old }
        requires newest { AllChainsBelow (commit + 1) self.old }
        ensures len { length self.new ≡ length self.old }
        ensures ok { OnOk result (IsNodePut id node (nodes_at self.old commit) (nodes_at self.new commit)) }
        ensures older { IsOlderKept commit self.old self.new }
        ensures newest { AllChainsBelow (commit + 1) self.new }
    {
        match self.nodes.write(id, commit, node) {
            Ok(()) => Ok(()),
            Err(_node) => Err(NoMemory),
        }
    }

    /// A node under a new id. `NoMemory` also where all ids are used.
    fn push(&mut self, node: Node, commit: u64) -> Result<u32, NoMemory>
        requires { AllChainsBelow (commit + 1) self.old }
        ensures len { OnOk result (length self.new ≡ length self.old + 1) }
        ensures same_len { OnErr result (length self.new ≡ length self.old) }
        ensures id { IfOk result (λ id. id ≡ length self.old) }
        ensures ok { OnOk result (IsNodePut (length self.old) node (nodes_at self.old commit) (nodes_at self.new commit)) }
        ensures older { IsOlderKept commit self.old self.new }
        ensures newest { AllChainsBelow (commit + 1) self.new }
    {
        let len = self.nodes.len();
        if len > u32::MAX as usize {
            return Err(NoMemory);
        }
        let id = len as u32;
        match self.nodes.write(id, commit, node) {
            Ok(()) => Ok(id),
            Err(_node) => Err(NoMemory),
        }
    }

    /// Writes a node, in two halves where it is too long: then the cut and the id of the second half are answered.
    fn store(
        &mut self,
        id: u32,
        level: u32,
        mut entries: Vec<IndexEntry>,
        mut children: Vec<u32>,
        commit: u64,
    ) -> Result<Option<(IndexEntry, u32)>, NoMemory>
        requires there { id < length self.old }
        requires newest { AllChainsBelow (commit + 1) self.old }
        requires parts { AreParts level entries.items children.items }
        requires few { length entries.items ≤ 33 }
        ensures ok { IfOk result (λ r. IsStoredIn (length self.old) (length self.new) level id entries.items children.items r (nodes_at self.old commit) (nodes_at self.new commit)) }
        ensures grows { length self.old ≤ length self.new }
        ensures older { IsOlderKept commit self.old self.new }
        ensures newest { AllChainsBelow (commit + 1) self.new }
    {
        if entries.len() <= 32 {
            self.replace(id, Node::make(level, entries, children), commit)?;
            return Ok(None);
        }
        let right_entries = cut_off(&mut entries)?;
        let right_children = cut_off(&mut children)?;
        let cut = right_entries[0].copy(self.alloc)?;
        let right = self.push(Node::make(level, right_entries, right_children), commit)?;
        self.replace(id, Node::make(level, entries, children), commit)?;
        Ok(Some((cut, right)))
    }

    /// Notes that a node is written anew. Where there is no memory for the note, there is none.
    fn note(&mut self, id: u32)
        ensures { self.new ≡ self.old }
    {
        let _ = self.written.push(id);
    }

    /// The nodes that were written anew since the last call, each once for each commit. It takes no memory.
    pub fn take_written(&mut self) -> Vec<u32>
        ensures { self.new ≡ self.old }
    {
        mem::replace(&mut self.written, Vec::new(self.alloc))
    }

    /// Copies of the parts of a node.
    fn copy_parts(&self, id: u32, commit: u64) -> Result<(Vec<IndexEntry>, Vec<u32>), NoMemory>
        ensures { IfOk result (λ parts. HasParts (nodes_at self.now commit id) parts.0.items parts.1.items) }
    {
        Ok(self.copy_of(id, commit)?.into_parts())
    }

    /// The parts of a node, for another node that is to be written in its place: those of a node that the commit wrote
    /// itself, which is taken out, or copies of an older node's.
    fn take_parts(&mut self, id: u32, commit: u64) -> Result<(Vec<IndexEntry>, Vec<u32>), NoMemory>
        requires { AllChainsBelow (commit + 1) self.old }
        ensures len { length self.new ≡ length self.old }
        ensures parts { IfOk result (λ parts. HasParts (nodes_at self.old commit id) parts.0.items parts.1.items) }
        ensures others { AreOthersSame id (nodes_at self.old commit) (nodes_at self.new commit) }
        ensures older { IsOlderKept commit self.old self.new }
        ensures newest { AllChainsBelow (commit + 1) self.new }
    {
        match self.nodes.take(id, commit) {
            Some(node) => Ok(node.into_parts()),
            None => {
                self.note(id);
                self.copy_parts(id, commit)
            }
        }
    }

    fn grow_leaf(
        &mut self,
        id: u32,
        entry: IndexEntry,
        commit: u64,
    ) -> Result<Option<(IndexEntry, u32)>, NoMemory>
        requires there { id < length self.old }
        requires newest { AllChainsBelow (commit + 1) self.old }
        requires ascend { Ascend (nodes_at self.old commit id).entries }
        ensures ok { IfOk result (λ r. IsStoredIn (length self.old) (length self.new) 0 id (placed comes_before entry (nodes_at self.old commit id).entries) [] r (nodes_at self.old commit) (nodes_at self.new commit)) }
        ensures grows { length self.old ≤ length self.new }
        ensures older { IsOlderKept commit self.old self.new }
        ensures newest { AllChainsBelow (commit + 1) self.new }
    {
        let (mut entries, _none) = self.take_parts(id, commit)?;
        put_entry(&mut entries, entry)?;
        let none = Vec::new(self.alloc);
        self.store(id, 0, entries, none, commit)
    }

    /// The child that an entry belongs to, and the place behind it.
    fn kid(&self, id: u32, entry: &IndexEntry, commit: u64) -> (u32, usize)
        requires same { length (nodes_at self.now commit id).entries ≡ length (nodes_at self.now commit id).children }
        requires some { 0 < length (nodes_at self.now commit id).children }
        requires ascend { Ascend (drop 1 (nodes_at self.now commit id).entries) }
        ensures kid { result.0 ≡ (child_in (up_to comes_before entry.now) (nodes_at self.now commit id).entries (nodes_at self.now commit id).children None).0 }
        ensures place { result.1 ≡ behind_child entry.now (nodes_at self.now commit id).entries }
    {
        match self.nodes.read(id, commit) {
            Some(node) => child_for(node, entry),
            None => unreachable!(),
        }
    }

    /// A further child at a place of a node.
    fn grow_kids(
        &mut self,
        id: u32,
        level: u32,
        at: usize,
        cut: IndexEntry,
        right: u32,
        commit: u64,
    ) -> Result<Option<(IndexEntry, u32)>, NoMemory>
        requires there { id < length self.old }
        requires newest { AllChainsBelow (commit + 1) self.old }
        requires inner { 0 < level }
        requires same { length (nodes_at self.old commit id).entries ≡ length (nodes_at self.old commit id).children }
        requires within { at ≤ length (nodes_at self.old commit id).entries }
        requires short { length (nodes_at self.old commit id).entries ≤ 32 }
        ensures ok { IfOk result (λ r. IsStoredIn (length self.old) (length self.new) level id
            (insert (nodes_at self.old commit id).entries at cut)
            (insert (nodes_at self.old commit id).children at right) r (nodes_at self.old commit) (nodes_at self.new commit)) }
        ensures grows { length self.old ≤ length self.new }
        ensures older { IsOlderKept commit self.old self.new }
        ensures newest { AllChainsBelow (commit + 1) self.new }
    {
        let (mut entries, mut children) = self.take_parts(id, commit)?;
        entries.insert(at, cut)?;
        children.insert(at, right)?;
        self.store(id, level, entries, children, commit)
    }

    /// Adds an entry below a node. Where the node was split, the cut and the id of its second half are answered.
    fn grow(
        &mut self,
        id: u32,
        level: u32,
        entry: IndexEntry,
        commit: u64,
    ) -> Result<Option<(IndexEntry, u32)>, NoMemory>
        requires own { IsOwn (length self.old) level id (nodes_at self.old commit) }
        requires newest { AllChainsBelow (commit + 1) self.old }
        requires ranked { IsRanked (nodes_at self.old commit) any level id }
        ensures ok { IfOk result (λ r. IsGrown (length self.old) (length self.new) level id (grow level comes_before entry) r (nodes_at self.old commit) (nodes_at self.new commit)) }
        ensures grows { length self.old ≤ length self.new }
        ensures older { IsOlderKept commit self.old self.new }
        ensures newest { AllChainsBelow (commit + 1) self.new }
    {
        if level == 0 {
            return self.grow_leaf(id, entry, commit);
        }
        let (kid, behind) = self.kid(id, &entry, commit);
        match self.grow(kid, level - 1, entry, commit)? {
            None => Ok(None),
            Some((cut, right)) => self.grow_kids(id, level, behind, cut, right, commit),
        }
    }

    /// A copy of a node.
    fn copy_of(&self, id: u32, commit: u64) -> Result<Node, NoMemory>
        ensures { IfOk result (λ node. node ≡ nodes_at self.now commit id) }
    {
        match self.nodes.read(id, commit) {
            Some(node) => node.copy(self.alloc),
            None => Ok(Node::leaf(self.alloc)),
        }
    }

    /// The root becomes the parent of its halves.
    fn raise(
        &mut self,
        level: u32,
        cut: IndexEntry,
        right: u32,
        commit: u64,
    ) -> Result<(), NoMemory>
        requires there { 0 < length self.old }
        requires newest { AllChainsBelow (commit + 1) self.old }
        requires low { level < 4294967295 }
        ensures ok { OnOk result (IsRaised (length self.old) (length self.new) level cut right (nodes_at self.old commit) (nodes_at self.new commit)) }
        ensures grows { length self.old ≤ length self.new }
        ensures older { IsOlderKept commit self.old self.new }
        ensures newest { AllChainsBelow (commit + 1) self.new }
    {
        let half = self.copy_of(0, commit)?;
        let left = self.push(half, commit)?;
        let low = cut.copy(self.alloc)?;
        let lows = Vec::from_array(self.alloc, [low, cut])?;
        let kids = Vec::from_array(self.alloc, [left, right])?;
        self.replace(0, Node::make(level + 1, lows, kids), commit)
    }

    /// Adds an entry that is not there to the tree of a commit, above which there is no version. After `NoMemory`,
    /// which comes also where all ids of nodes are used, `abandon` gives back what was there before the commit.
    pub fn insert(&mut self, entry: IndexEntry, commit: u64) -> Result<(), NoMemory>
        requires sound { IsSound self.old commit }
        requires newest { AllChainsBelow (commit + 1) self.old }
        requires absent { Absent comes_before entry (entries_of self.old commit) }
        ensures ok { OnOk result (IsInserted commit entry self.old self.new) }
        ensures grows { length self.old ≤ length self.new }
        ensures older { IsOlderSame commit self.old self.new }
        ensures newest { AllChainsBelow (commit + 1) self.new }
    {
        let level = self.level(commit);
        if level == u32::MAX {
            return Err(NoMemory);
        }
        match self.grow(0, level, entry, commit)? {
            None => Ok(()),
            Some((cut, right)) => self.raise(level, cut, right, commit),
        }
    }

    fn shrink_leaf(&mut self, id: u32, entry: &IndexEntry, commit: u64) -> Result<(), NoMemory>
        requires there { id < length self.old }
        requires newest { AllChainsBelow (commit + 1) self.old }
        ensures len { length self.new ≡ length self.old }
        ensures ok { OnOk result (IsNodePut id (leaf_without entry.now (nodes_at self.old commit id)) (nodes_at self.old commit) (nodes_at self.new commit)) }
        ensures older { IsOlderKept commit self.old self.new }
        ensures newest { AllChainsBelow (commit + 1) self.new }
    {
        let (mut entries, _none) = self.take_parts(id, commit)?;
        take_entry(&mut entries, entry);
        let none = Vec::new(self.alloc);
        self.replace(id, Node::make(0, entries, none), commit)
    }

    /// Takes an entry away below a node.
    fn shrink(
        &mut self,
        id: u32,
        level: u32,
        entry: &IndexEntry,
        commit: u64,
    ) -> Result<(), NoMemory>
        requires own { IsOwn (length self.old) level id (nodes_at self.old commit) }
        requires newest { AllChainsBelow (commit + 1) self.old }
        requires ranked { IsRanked (nodes_at self.old commit) any level id }
        ensures ok { OnOk result (IsGrown (length self.old) (length self.new) level id (shrunken level entry.now) None (nodes_at self.old commit) (nodes_at self.new commit)) }
        ensures len { length self.new ≡ length self.old }
        ensures older { IsOlderKept commit self.old self.new }
        ensures newest { AllChainsBelow (commit + 1) self.new }
    {
        if level == 0 {
            return self.shrink_leaf(id, entry, commit);
        }
        let (kid, _behind) = self.kid(id, entry, commit);
        self.shrink(kid, level - 1, entry, commit)
    }

    /// Takes an entry away from the tree of a commit, above which there is no version. Each node stays, even one that
    /// is then empty. After `NoMemory` the call `abandon` gives back what was there before the commit.
    pub fn delete(&mut self, entry: &IndexEntry, commit: u64) -> Result<(), NoMemory>
        requires sound { IsSound self.old commit }
        requires newest { AllChainsBelow (commit + 1) self.old }
        ensures ok { OnOk result (IsDeleted commit entry.now self.old self.new) }
        ensures len { length self.new ≡ length self.old }
        ensures older { IsOlderSame commit self.old self.new }
        ensures newest { AllChainsBelow (commit + 1) self.new }
    {
        let level = self.level(commit);
        self.shrink(0, level, entry, commit)
    }

    /// Takes the nodes of a commit away, above which there is no version: the tree is then that of the commit before
    /// it. It takes no memory.
    pub fn abandon(&mut self, commit: u64)
        requires { AllChainsBelow (commit + 1) self.old }
        ensures len { length self.new ≡ length self.old }
        ensures older { IsOlderSame commit self.old self.new }
        ensures later { (snap : ℕ) → commit ≤ snap + 1 → 0 < commit → nodes_at self.new snap ≡ nodes_at self.old (commit - 1) }
        ensures newest { AllChainsBelow commit self.new }
    {
        self.nodes.abandon(commit);
    }

    /// Takes the versions of a node away that no snapshot from the horizon on reads. It takes no memory.
    pub fn purge(&mut self, node: u32, horizon: u64)
        ensures len { length self.new ≡ length self.old }
        ensures same { (snap : ℕ) → horizon ≤ snap → nodes_at self.new snap ≡ nodes_at self.old snap }
        ensures newest { (high : ℕ) → AllChainsBelow high self.old → AllChainsBelow high self.new }
        ensures one { versions_to horizon (slice_index_or self.new node []) ≤ 1 }
    {
        self.nodes.purge(node, horizon);
    }
}
