//! Nodes by their names: a balanced tree inside their blocks.
ghost use Rattle.std.specs.Prelude.{◌≡◌, ℕ, ◌+◌, ◌*◌, ◌%◌, ◌^◌, ◌<◌, ◌≤◌, ◌++◌, ◌∷◌, [], List, length, slice_index, slice_range};
ghost use Rattle.std.specs.Ordering.{nat_cmp};
ghost use Rattle.trade_base.specs.Word.{word_of, word_bytes};
ghost use Rattle.dataspace_core.specs.Store.{Exists, space_at};
ghost use Rattle.session_nodes.specs.SessionHeaps.{stock_of, AreSoundHeaps, KeepsHeaps};
ghost use Rattle.heap_core.specs.Blocks.{IsBlankOf};
ghost use Rattle.session_nodes.specs.Index.{IsNamed, CanEnter, ChangesTree, Enters, Leaves, Seeks, LoadsFew, KeepsNames};
ghost use Rattle.session_nodes.specs.Node.{rank_by, rank_of, word_from};

use crate::node::{LONGEST_NAME, NAME_LENGTH, NODE_SIZE, NameKey, append_word};
use crate::session_heaps::SessionHeaps;
use arrayvec::ArrayVec;
use avl_tree::{Links, Nodes, SearchStep, find, insert, remove};
use dataspace_core::Memory;
use heap_core::Loads;
use region_map::RegionMap;
use std::cmp::Ordering;
use std::marker::{Brand, PhantomData};
use std::sync::ledger::{Blank, Ledger};
use trade_base::DsId;

/// The offset of the tree's links in a node's block.
const LEFT: u64 = 64;

const RIGHT: u64 = 72;

const HIGH: u64 = 80;

/// The offset in a node's block of the address of the previous node, in the order of creation.
pub const PREVIOUS: u64 = 88;

/// A node that is to be in the tree: its address, and its name.
#[derive(Clone, Copy)]
pub struct NamedNode<'a> {
    /// The address of the node.
    pub address: u64,
    /// The name, of at most 32 bytes.
    pub name: &'a [u8],
}

/// A memory whose loaded words are counted.
pub(crate) struct CountedMemory<'a, L: Ledger> {
    pub(crate) memory: &'a mut Memory,
    pub(crate) loads: Loads<L>,
}

impl<'a, L: Ledger> CountedMemory<'a, L> {
    // A memory of which no word is loaded yet.
    fn over(memory: &'a mut Memory, blank: Blank) -> CountedMemory<'a, L>
        requires { IsBlankOf blank.name blank.parts L.name L.parts }
        ensures memory { result.memory.now ≡ memory.old }
        ensures same_reference { result.memory.ghost_name ≡ memory.entry.ghost_name }
        ensures loads { result.loads ≡ 0 }
    {
        CountedMemory {
            memory,
            loads: Loads::new(blank),
        }
    }
}

impl<L: Ledger> Drop for CountedMemory<'_, L> {
    // Returns the memory unchanged.
    fn drop(self)
        ensures { self.exit.0.now ≡ self.entry.memory.now }
    {
        let CountedMemory {
            memory: _memory,
            loads: _loads,
        } = self;
    }
}

impl<L: Ledger> CountedMemory<'_, L> {
    // The word of a dataspace at an offset.
    fn load(&mut self, ds: DsId, offset: u64) -> u64
        requires exists { Exists self.old.memory.now ds.0 }
        requires aligned { offset % 8 ≡ 0 }
        requires range { offset + 8 ≤ length (space_at self.old.memory.now ds.0).bytes }
        ensures value { result ≡ word_from (space_at self.old.memory.now ds.0).bytes offset }
        ensures memory { self.new.memory.now ≡ self.old.memory.now }
        ensures same_reference { self.new.memory.ghost_name ≡ self.old.memory.ghost_name }
        ensures loads { self.new.loads ≡ self.old.loads + 1 }
    {
        let word = self.memory.load_word(ds, offset);
        self.loads.tick();
        word
    }

    // Compares the words of a key to those at an offset of a dataspace.
    fn order(&mut self, words: &[u64], ds: DsId, offset: u64) -> Ordering
        requires five { length words.now ≡ 5 }
        requires exists { Exists self.old.memory.now ds.0 }
        requires aligned { offset % 8 ≡ 0 }
        requires range { offset + 40 ≤ length (space_at self.old.memory.now ds.0).bytes }
        requires low { offset + 40 < 2 ^ 64 }
        requires words { (i : ℕ) → i < 5 →
            word_from (space_at self.old.memory.now ds.0).bytes (offset + 8 * i) < 2 ^ 64 }
        ensures order { result ≡ nat_cmp (rank_by (slice_index words.now))
            (rank_by (λ i. word_from (space_at self.old.memory.now ds.0).bytes (offset + 8 * i))) }
        ensures memory { self.new.memory.now ≡ self.old.memory.now }
        ensures same_reference { self.new.memory.ghost_name ≡ self.old.memory.ghost_name }
        ensures loads { self.new.loads ≤ self.old.loads + 5 }
    {
        for i in 0..5 {
            let word = self.load(ds, offset + 8 * i as u64);
            let other = words[i];
            if other != word {
                return other.cmp(&word);
            }
        }
        Ordering::Equal
    }
}

/// The nodes of a session, as the tree by name.
#[derive(Drop)]
pub(crate) struct NameTree<'a, M> {
    pub(crate) heaps: &'a SessionHeaps,
    pub(crate) map: &'a RegionMap,
    pub(crate) memory: PhantomData<M>,
}

/// Returns the links of a node as bytes.
fn link_bytes(links: Links) -> ArrayVec<u8, NODE_SIZE>
    ensures bytes { result.items
        ≡ word_bytes links.left ++ (word_bytes links.right ++ word_bytes links.high) }
    ensures len { length result.items ≡ 24 }
    ensures left { links.left < 2 ^ 64 }
    ensures right { links.right < 2 ^ 64 }
    ensures high { links.high < 2 ^ 64 }
{
    let mut bytes = ArrayVec::new();
    append_word(&mut bytes, links.left);
    append_word(&mut bytes, links.right);
    append_word(&mut bytes, links.high);
    bytes
}

impl<'m, L: Ledger> Nodes for NameTree<'_, CountedMemory<'m, L>> {
    ghost use Rattle.std.proofs.Common.{◌≡◌, ◌∙◌, refl};
    ghost use Rattle.dataspace_core.specs.Store.{Store};
    ghost use Rattle.session_nodes.specs.Index.{names_in, name_plan, IsNameNode, KeepsNames};
    ghost use Rattle.session_nodes.specs.NameLaws.{names_same, names_then};

    type Memory = CountedMemory<'m, L>;

    type Key = NameKey;

    ghost Rest = { Store };

    ghost IsNode = { λ nodes memory. IsNameNode
        nodes.heaps.now.nodes nodes.heaps.now.contents memory.memory.now nodes.map.now };

    ghost Keeps = { λ nodes old new.
        (new.memory.ghost_name ≡ old.memory.ghost_name)
        × KeepsNames nodes.heaps.now.nodes nodes.heaps.now.contents nodes.map.now
        old.memory.now new.memory.now };

    ghost rank = { λ key. rank_by (slice_index key.words) };

    ghost view = { λ nodes memory. names_in memory.memory.now
        (stock_of nodes.heaps.now memory.memory.now nodes.map.now).nodes };

    ghost plan = { name_plan };

    ghost loads = { λ memory. memory.loads };

    ghost cost = { 6 };

    fn step(&self, memory: &mut CountedMemory<'m, L>, key: NameKey, node: u64) -> SearchStep {
        let (ds, at) = self.heaps.find_node(memory.memory, self.map, node);
        match memory.order(&key.words, ds, at + NAME_LENGTH as u64) {
            Ordering::Less => SearchStep::Left(memory.load(ds, at + LEFT)),
            Ordering::Equal => SearchStep::Here,
            Ordering::Greater => SearchStep::Right(memory.load(ds, at + RIGHT)),
        }
    }

    fn links(&self, memory: &mut CountedMemory<'m, L>, node: u64) -> Links {
        let (ds, at) = self.heaps.find_node(memory.memory, self.map, node);
        let left = memory.load(ds, at + LEFT);
        let right = memory.load(ds, at + RIGHT);
        let high = memory.load(ds, at + HIGH);
        Links { left, right, high }
    }

    fn high(&self, memory: &mut CountedMemory<'m, L>, node: u64) -> u64 {
        let (ds, at) = self.heaps.find_node(memory.memory, self.map, node);
        memory.load(ds, at + HIGH)
    }

    fn set_links(&self, memory: &mut CountedMemory<'m, L>, node: u64, links: Links) {
        let bytes = link_bytes(links);
        self.heaps
            .put_bytes(memory.memory, self.map, node, LEFT, &bytes);
    }

    ghost keeps_same = { λ nodes memory. (refl, names_same _ _ _ _) };

    ghost keeps_then = { λ nodes old between new first second.
        (second.0 ∙ first.0, names_then _ _ _ _ _ _ first.1 second.1) };

    ghost keeps_node = { λ nodes old new node kept is. kept.1.nodes node is };
}

impl<'m, L: Ledger> NameTree<'_, CountedMemory<'m, L>> {
    /// Returns the node of a key, or 0 if no node has it.
    pub(crate) fn seek(&self, memory: &mut CountedMemory<'m, L>, root: u64, key: NameKey) -> u64
        requires furnished { AreSoundHeaps self.now.heaps.now
            memory.old.memory.now self.now.map.now }
        requires named { (blocks : List ℕ) × IsNamed root
            (stock_of self.now.heaps.now
            memory.old.memory.now self.now.map.now).nodes blocks }
        ensures found { Seeks root (rank_by (slice_index key.words))
            (stock_of self.now.heaps.now
            memory.old.memory.now self.now.map.now).nodes result }
        ensures memory { memory.new.memory.now ≡ memory.old.memory.now }
        ensures same_reference { memory.new.memory.ghost_name ≡ memory.old.memory.ghost_name }
        ensures loads { LoadsFew root (stock_of self.now.heaps.now
            memory.old.memory.now self.now.map.now).nodes 6 memory.old.loads memory.new.loads }
    {
        find(self, memory, root, key)
    }

    /// Inserts a new node in the tree and returns the tree's root.
    pub(crate) fn enter(
        &self,
        memory: &mut CountedMemory<'m, L>,
        root: u64,
        key: NameKey,
        address: u64,
    ) -> u64
        requires furnished { AreSoundHeaps self.now.heaps.now
            memory.old.memory.now self.now.map.now }
        requires unnamed { (blocks : List ℕ) × CanEnter root blocks address
            (rank_by (slice_index key.words)) (stock_of self.now.heaps.now
            memory.old.memory.now self.now.map.now).nodes }
        ensures enters { Enters root address (rank_by (slice_index key.words)) result
            (stock_of self.now.heaps.now
            memory.old.memory.now self.now.map.now).nodes
            (stock_of self.now.heaps.now
            memory.new.memory.now self.now.map.now).nodes }
        ensures keeps { KeepsNames self.now.heaps.now.nodes self.now.heaps.now.contents
            self.now.map.now memory.old.memory.now memory.new.memory.now }
        ensures same_reference { memory.new.memory.ghost_name ≡ memory.old.memory.ghost_name }
        ensures loads { (blocks : List ℕ) → CanEnter root blocks address
            (rank_by (slice_index key.words)) (stock_of self.now.heaps.now
            memory.old.memory.now self.now.map.now).nodes →
            (n : ℕ) → length blocks < 2 ^ n →
            memory.new.loads ≤ memory.old.loads + 60 * (2 * n + 1) }
    {
        insert(self, memory, root, key, address)
    }

    /// Removes the node of a key from the tree and returns the tree's root.
    pub(crate) fn leave(&self, memory: &mut CountedMemory<'m, L>, root: u64, key: NameKey) -> u64
        requires furnished { AreSoundHeaps self.now.heaps.now
            memory.old.memory.now self.now.map.now }
        requires named { (blocks : List ℕ) × IsNamed root
            (stock_of self.now.heaps.now
            memory.old.memory.now self.now.map.now).nodes blocks }
        ensures gone { Leaves root (rank_by (slice_index key.words)) result
            (stock_of self.now.heaps.now
            memory.old.memory.now self.now.map.now).nodes
            (stock_of self.now.heaps.now
            memory.new.memory.now self.now.map.now).nodes }
        ensures keeps { KeepsNames self.now.heaps.now.nodes self.now.heaps.now.contents
            self.now.map.now memory.old.memory.now memory.new.memory.now }
        ensures same_reference { memory.new.memory.ghost_name ≡ memory.old.memory.ghost_name }
        ensures loads { LoadsFew root (stock_of self.now.heaps.now
            memory.old.memory.now self.now.map.now).nodes 60 memory.old.loads memory.new.loads }
    {
        remove(self, memory, root, key)
    }
}

impl SessionHeaps {
    /// Returns the address of the node that has a name, if any has it, by the root of the tree. The memory is unchanged.
    pub fn seek<L: Ledger>(
        &self,
        memory: &mut Memory,
        map: &RegionMap,
        root: u64,
        name: &[u8],
        blank: Blank,
    ) -> u64
        requires blank { IsBlankOf blank.name blank.parts L.name L.parts }
        requires few { length name.now ≤ 32 }
        requires furnished { AreSoundHeaps self.now memory.old map.now }
        requires named { (blocks : List ℕ) × IsNamed root
            (stock_of self.now memory.old map.now).nodes blocks }
        ensures found { Seeks root (rank_of name.now)
            (stock_of self.now memory.old map.now).nodes result }
        ensures memory { memory.new ≡ memory.old }
    {
        let mut counted = CountedMemory::<L>::over(memory, blank);
        let nodes = NameTree {
            heaps: self,
            map,
            memory: PhantomData,
        };
        nodes.seek(&mut counted, root, NameKey::of(name))
    }

    /// Inserts a new node in the tree by its name and returns the tree's root.
    pub fn enter<L: Ledger>(
        &self,
        memory: &mut Memory,
        map: &RegionMap,
        root: u64,
        node: &NamedNode<'_>,
        blank: Blank,
    ) -> u64
        requires blank { IsBlankOf blank.name blank.parts L.name L.parts }
        requires few { length node.now.name.now ≤ 32 }
        requires furnished { AreSoundHeaps self.now memory.old map.now }
        requires unnamed { (blocks : List ℕ)
            × CanEnter root blocks node.now.address (rank_of node.now.name.now)
            (stock_of self.now memory.old map.now).nodes }
        ensures enters { Enters root node.now.address (rank_of node.now.name.now) result
            (stock_of self.now memory.old map.now).nodes
            (stock_of self.now memory.new map.now).nodes }
        ensures tree { ChangesTree (stock_of self.now memory.old map.now)
            (stock_of self.now memory.new map.now) }
        ensures keeps { KeepsHeaps self.now self.now
            memory.old memory.new map.now map.now }
    {
        let mut counted = CountedMemory::<L>::over(memory, blank);
        let nodes = NameTree {
            heaps: self,
            map,
            memory: PhantomData,
        };
        nodes.enter(&mut counted, root, NameKey::of(node.name), node.address)
    }

    /// Removes the node of a name from the tree and returns the tree's root.
    pub fn leave<L: Ledger>(
        &self,
        memory: &mut Memory,
        map: &RegionMap,
        root: u64,
        name: &[u8],
        blank: Blank,
    ) -> u64
        requires blank { IsBlankOf blank.name blank.parts L.name L.parts }
        requires few { length name.now ≤ 32 }
        requires furnished { AreSoundHeaps self.now memory.old map.now }
        requires named { (blocks : List ℕ) × IsNamed root
            (stock_of self.now memory.old map.now).nodes blocks }
        ensures gone { Leaves root (rank_of name.now) result
            (stock_of self.now memory.old map.now).nodes
            (stock_of self.now memory.new map.now).nodes }
        ensures tree { ChangesTree (stock_of self.now memory.old map.now)
            (stock_of self.now memory.new map.now) }
        ensures keeps { KeepsHeaps self.now self.now
            memory.old memory.new map.now map.now }
    {
        let mut counted = CountedMemory::<L>::over(memory, blank);
        let nodes = NameTree {
            heaps: self,
            map,
            memory: PhantomData,
        };
        nodes.leave(&mut counted, root, NameKey::of(name))
    }
}
