//! The nodes of a session in the order of their creation: how they are found and created.
ghost use Rattle.std.specs.Prelude.{◌≡◌, ◌≢◌, ℕ, true, ◌<◌, ◌≤◌, [], length, IfSome, IfNone, IfOk, OnErr, slice_get};
ghost use Rattle.std.specs.Option.{option_map, unwrap_or};
ghost use Rattle.std.specs.Result.{result_err};
ghost use Rattle.dataspace_core.specs.Share.{Share};
ghost use Rattle.own_model.specs.Growth.{heap_refusal, no_chunks};
ghost use Rattle.heap_core.specs.Heap.{heap_in};
ghost use Rattle.sliced_heap.specs.Chain.{is_listed};
ghost use Rattle.sliced_heap.specs.Heap.{payer_of};
ghost use Rattle.sliced_heap.specs.Sliced.{IsLinked};
ghost use Rattle.server_frame.specs.Session.{HasBlocksAlone};
ghost use Rattle.session_nodes.specs.Node.{value_of, rank_of};
ghost use Rattle.session_nodes.specs.NodeList.{nodes_in, Appends, Creates, Finds, HasNodes, IsFresh, KeepsList, NoneHas};
ghost use Rattle.session_nodes.specs.Order.{node_at, nodes_from};
ghost use Rattle.session_nodes.specs.SessionBuffer.{KeepsBuffer};
ghost use Rattle.session_nodes.specs.SessionHeaps.{stock_of, AreKept, AreSoundHeaps, KeepsHeaps};

use crate::name_tree::{NamedNode, PREVIOUS};
use crate::node::{LONGEST_NAME, NEXT, Node, copied};
use crate::recent::RecentNode;
use crate::session_heaps::SessionHeaps;
use dataspace_core::Memory;
use region_map::RegionMap;
use sliced_heap::SlicedHeap;
use std::marker::Brand;
use std::sync::ledger::Blank;
use trade_base::Refusal;

/// The nodes of a session, in its two heaps. They are linked both ways in the order of creation, and have links of a tree by
/// name.
#[derive(Drop)]
pub struct NodeList {
    /// The two heaps.
    pub heaps: SessionHeaps,
    /// The address of the first node, or 0.
    pub(crate) first: u64,
    /// The address of the last node, or 0.
    pub(crate) last: u64,
    /// The address of the node at the root of the tree by name, or 0.
    pub(crate) root: u64,
    /// The node that was found last by its place, unless it was forgotten since.
    pub(crate) recent: Option<RecentNode>,
}

/// A node that is found, with its address.
#[derive(Drop)]
pub struct FoundNode {
    /// The address of the node.
    pub address: u64,
    /// The node.
    pub node: Node,
}

impl NodeList {
    /// Returns a list without nodes, for an account that has only sliced blocks and no buffer.
    pub fn new(contents: SlicedHeap) -> NodeList
        ensures kept { (share : Share) → HasBlocksAlone share → IsLinked share contents.first
            → AreKept result.heaps (payer_of contents) share }
        ensures nodes { (share : Share) → KeepsList result share }
        ensures none { (share : Share) → nodes_from result.first (heap_in result.heaps.nodes share) ≡ [] }
        ensures empty { (share : Share) → (heap_in result.heaps.nodes share).shape ≡ no_chunks }
        ensures not_lent { (share : Share) → HasBlocksAlone share → KeepsBuffer None share }
    {
        NodeList {
            heaps: SessionHeaps::new(contents),
            first: 0,
            last: 0,
            root: 0,
            recent: None,
        }
    }

    /// Finds the node of a name, if there is one. The memory is unchanged.
    pub fn find(&self, memory: &mut Memory, map: &RegionMap, name: &[u8]) -> Option<FoundNode>
        requires furnished { AreSoundHeaps self.now.heaps memory.old map.now }
        requires files { HasNodes self.now (stock_of self.now.heaps memory.old map.now) }
        ensures some { IfSome result
            (Finds self.now (stock_of self.now.heaps memory.old map.now) name.now) }
        ensures none { let old = stock_of self.now.heaps memory.old map.now in
            IfNone result (NoneHas old.nodes name.now (nodes_in self.now old)) }
        ensures memory { memory.new ≡ memory.old }
    {
        if name.len() > LONGEST_NAME {
            return None;
        }
        let address = self
            .heaps
            .seek::<Brand>(memory, map, self.root, name, Blank::new(1));
        if address == 0 {
            return None;
        }
        let node = self.heaps.load_node(memory, map, address);
        if node.name.as_slice() != name {
            return None;
        }
        Some(FoundNode { address, node })
    }

    /// Creates a node of a name that no node has, in a block of this number of bytes, and returns its address. The bytes of the
    /// block after the first 96 are zero.
    ///
    /// Refuses as the heap refuses the block: with `TooManyChunks`, then `OutOfRam` or `OutOfCaps`. A refused call changes
    /// nothing.
    pub fn create(
        &mut self,
        memory: &mut Memory,
        map: &mut RegionMap,
        name: &[u8],
        bytes: u64,
    ) -> Result<u64, Refusal>
        requires furnished { AreSoundHeaps self.old.heaps memory.old map.old }
        requires files { HasNodes self.old (stock_of self.old.heaps memory.old map.old) }
        requires name { length name.now ≤ 32 }
        requires least { 96 ≤ bytes }
        requires small { bytes < 65536 }
        requires new { let old = stock_of self.old.heaps memory.old map.old in
            NoneHas old.nodes name.now (nodes_in self.old old) }
        ensures refusal { let old = stock_of self.old.heaps memory.old map.old in
            result_err result ≡ heap_refusal bytes old.nodes.shape old.account }
        ensures created { IfOk result (λ address. Creates self.old self.new bytes address name.now
            (stock_of self.old.heaps memory.old map.old)
            (stock_of self.new.heaps memory.new map.new)) }
        ensures keeps { KeepsHeaps self.old.heaps self.new.heaps
            memory.old memory.new map.old map.new }
        ensures memory_err { OnErr result (memory.new ≡ memory.old) }
        ensures map_err { OnErr result (map.new ≡ map.old) }
        ensures err { OnErr result (self.new ≡ self.old) }
    {
        let address = self.heaps.take_node(memory, map, bytes)?;
        self.append(memory, map, address, name);
        Ok(address)
    }

    /// Appends an allocated block after the last node, as a node without a content.
    fn append(&mut self, memory: &mut Memory, map: &RegionMap, address: u64, name: &[u8])
        requires furnished { AreSoundHeaps self.old.heaps memory.old map.now }
        requires files { HasNodes self.old (stock_of self.old.heaps memory.old map.now) }
        requires fresh { IsFresh self.old.first
            (stock_of self.old.heaps memory.old map.now).nodes address }
        requires name { length name.now ≤ 32 }
        requires new { (b : ℕ)
            → is_listed (nodes_in self.old (stock_of self.old.heaps memory.old map.now)) b ≡ true →
            rank_of (node_at (stock_of self.old.heaps memory.old map.now).nodes b).name
            ≢ rank_of name.now }
        ensures appended { Appends self.old self.new address name.now
            (stock_of self.old.heaps memory.old map.now)
            (stock_of self.new.heaps memory.new map.now) }
        ensures keeps { KeepsHeaps self.old.heaps self.new.heaps
            memory.old memory.new map.now map.now }
    {
        let node = Node {
            next: 0,
            content: 0,
            size: 0,
            name: copied(name),
        };
        let last = self.last;
        self.heaps.store_new(memory, map, address, &node, last);
        self.link(memory, map, last, address);
        self.last = address;
        let entered = NamedNode { address, name };
        self.root = self
            .heaps
            .enter::<Brand>(memory, map, self.root, &entered, Blank::new(1));
    }

    /// Returns the node at a place in the order of creation, and remembers it, or `None`. The memory is unchanged.
    pub fn at_place(
        &mut self,
        memory: &mut Memory,
        map: &RegionMap,
        place: u64,
    ) -> Option<FoundNode>
        requires furnished { AreSoundHeaps self.old.heaps memory.old map.now }
        requires files { HasNodes self.old (stock_of self.old.heaps memory.old map.now) }
        ensures address { option_map (λ found. found.address) result
            ≡ slice_get (nodes_in self.old (stock_of self.old.heaps memory.old map.now)) place }
        ensures node { IfSome result (λ found. value_of found.node
            ≡ node_at (stock_of self.old.heaps memory.old map.now).nodes found.address) }
        ensures kept { HasNodes self.new (stock_of self.new.heaps memory.old map.now) }
        ensures same { self.new ≡ record self.old { recent = self.new.recent } }
        ensures memory { memory.new ≡ memory.old }
    {
        let address = self.address_at(memory, map, place);
        if address == 0 {
            return None;
        }
        self.recent = Some(RecentNode { place, address });
        let node = self.heaps.load_node(memory, map, address);
        Some(FoundNode { address, node })
    }

    /// Returns the address of the node at a place in the order of creation, or 0. The walk begins at the remembered node, or
    /// at the first one if that is nearer.
    fn address_at(&self, memory: &Memory, map: &RegionMap, place: u64) -> u64
        requires furnished { AreSoundHeaps self.now.heaps memory.now map.now }
        requires files { HasNodes self.now (stock_of self.now.heaps memory.now map.now) }
        ensures { result ≡ unwrap_or (slice_get
            (nodes_in self.now (stock_of self.now.heaps memory.now map.now)) place) 0 }
    {
        match self.recent {
            Some(recent) if recent.place <= place => {
                let steps = place - recent.place;
                self.heaps.follow(memory, map, recent.address, NEXT, steps)
            }
            Some(recent) if recent.place - place < place => {
                let steps = recent.place - place;
                self.heaps
                    .follow(memory, map, recent.address, PREVIOUS, steps)
            }
            _ => self.heaps.follow(memory, map, self.first, NEXT, place),
        }
    }
}
