//! The blocks of nodes in a session's heap.
ghost use Rattle.std.specs.Prelude.{◌≡◌, ℕ, true, ◌+◌, ◌%◌, ◌^◌, ◌<◌, ◌≤◌, ◌++◌, length, IsSome, IfOk, OnErr};
ghost use Rattle.std.specs.FinMap.{get};
ghost use Rattle.std.specs.Result.{result_err};
ghost use Rattle.own_model.specs.Growth.{heap_refusal};
ghost use Rattle.session_nodes.specs.Calls.{payload_in, node_stored, TakesNode, GivesNode, HasBytes};
ghost use Rattle.session_nodes.specs.Found.{FindsNode};
ghost use Rattle.heap_core.specs.Words.{are_bytes};
ghost use Rattle.session_nodes.specs.Order.{node_at, user_at};
ghost use Rattle.session_nodes.specs.SessionHeaps.{stock_of, AreSoundHeaps, KeepsHeaps};
ghost use Rattle.session_nodes.specs.Index.{IsPadded, KeepsPlace, previous_at};
ghost use Rattle.own_model.specs.OwnState.{zeros};
ghost use Rattle.trade_base.specs.Word.{word_bytes};
ghost use Rattle.session_nodes.specs.Node.{value_of, node_of, bytes_of, word_from, IsNode};

use crate::node::{CONTENT, NODE_BYTES, Node, content_bytes};
use crate::session_heaps::SessionHeaps;
use dataspace_core::Memory;
use region_map::RegionMap;
use trade_base::{DsId, Refusal};

impl SessionHeaps {
    /// Allocates a block of this number of bytes for a node, all zero, and returns its address. If no free block is large
    /// enough, the heap grows by a chunk, which is charged to the account.
    ///
    /// If the heap must grow and cannot, refuses with `TooManyChunks`, then `OutOfRam` or `OutOfCaps`. A refused call
    /// changes nothing.
    pub fn take_node(
        &mut self,
        memory: &mut Memory,
        map: &mut RegionMap,
        bytes: u64,
    ) -> Result<u64, Refusal>
        requires furnished { AreSoundHeaps self.old memory.old map.old }
        requires small { bytes < 65536 }
        ensures refusal { let old = stock_of self.old memory.old map.old in
            result_err result ≡ heap_refusal bytes old.nodes.shape old.account }
        ensures taken { IfOk result (λ address.
            TakesNode bytes address (stock_of self.old memory.old map.old)
            (stock_of self.new memory.new map.new)) }
        ensures keeps { KeepsHeaps self.old self.new
            memory.old memory.new map.old map.new }
        ensures memory_err { OnErr result (memory.new ≡ memory.old) }
        ensures map_err { OnErr result (map.new ≡ map.old) }
        ensures err { OnErr result (self.new ≡ self.old) }
    {
        self.nodes.alloc(memory, map, bytes)
    }

    /// Frees the block of the node at an address.
    pub fn give_node(&mut self, memory: &mut Memory, map: &mut RegionMap, address: u64)
        requires furnished { AreSoundHeaps self.old memory.old map.old }
        requires there { IsSome
            (get (stock_of self.old memory.old map.old).nodes.payloads address) }
        ensures given { GivesNode address (stock_of self.old memory.old map.old)
            (stock_of self.new memory.new map.new) }
        ensures keeps { KeepsHeaps self.old self.new
            memory.old memory.new map.old map.new }
    {
        let _ = self.nodes.free(memory, map, address);
    }

    /// Loads the node at an address. The memory is unchanged.
    pub fn load_node(&self, memory: &mut Memory, map: &RegionMap, address: u64) -> Node
        requires furnished { AreSoundHeaps self.now memory.old map.now }
        requires there { HasBytes
            (stock_of self.now memory.old map.now).nodes.payloads address 0 96 }
        ensures value { value_of result
            ≡ node_of
            (payload_in (stock_of self.now memory.old map.now).nodes.payloads address) }
        ensures node { IsNode (value_of result) }
        ensures memory { memory.new ≡ memory.old }
    {
        let (ds, offset) = self.find_node(memory, map, address);
        let mut bytes = [0; NODE_BYTES];
        memory.read(ds, offset, &mut bytes);
        Node::from_bytes(&bytes)
    }

    /// Loads a word of a node's block. The memory is unchanged.
    pub fn load_word(&self, memory: &Memory, map: &RegionMap, address: u64, offset: u64) -> u64
        requires furnished { AreSoundHeaps self.now memory.now map.now }
        requires there { HasBytes
            (stock_of self.now memory.now map.now).nodes.payloads address 0 96 }
        requires aligned { offset % 8 ≡ 0 }
        requires within { offset + 8 ≤ 96 }
        ensures { result ≡ word_from (payload_in
            (stock_of self.now memory.now map.now).nodes.payloads address) offset }
    {
        let (ds, at) = self.find_node(memory, map, address);
        memory.load_word(ds, at + offset)
    }

    /// Stores another content in a node, with its number of bytes. The rest of the block is unchanged.
    pub fn store_content(
        &self,
        memory: &mut Memory,
        map: &RegionMap,
        address: u64,
        content: u64,
        size: u64,
    )
        requires furnished { AreSoundHeaps self.now memory.old map.now }
        requires there { HasBytes
            (stock_of self.now memory.old map.now).nodes.payloads address 0 96 }
        ensures stored { stock_of self.now memory.new map.now
            ≡ node_stored address 8 (word_bytes content ++ word_bytes size)
            (stock_of self.now memory.old map.now) }
        ensures back { node_at (stock_of self.now memory.new map.now).nodes address
            ≡ record (node_at (stock_of self.now memory.old map.now).nodes address) {
              content = content;
              size = size;
            } }
        ensures place { KeepsPlace (stock_of self.now memory.old map.now).nodes
            (stock_of self.now memory.new map.now).nodes address }
        ensures there { HasBytes
            (stock_of self.now memory.new map.now).nodes.payloads address 0 96 }
        ensures user { user_at (stock_of self.now memory.new map.now).nodes address
            ≡ user_at (stock_of self.now memory.old map.now).nodes address }
        ensures keeps { KeepsHeaps self.now self.now
            memory.old memory.new map.now map.now }
    {
        let bytes = content_bytes(content, size);
        self.put_bytes(memory, map, address, CONTENT, &bytes);
    }

    /// Stores a new node at an address, linked back to another node.
    pub fn store_new(
        &self,
        memory: &mut Memory,
        map: &RegionMap,
        address: u64,
        node: &Node,
        previous: u64,
    )
        requires furnished { AreSoundHeaps self.now memory.old map.now }
        requires there { HasBytes
            (stock_of self.now memory.old map.now).nodes.payloads address 0 96 }
        ensures stored { stock_of self.now memory.new map.now
            ≡ node_stored address 0
            (bytes_of (value_of node.now) ++ (zeros 24 ++ word_bytes previous))
            (stock_of self.now memory.old map.now) }
        ensures back { node_at (stock_of self.now memory.new map.now).nodes address
            ≡ value_of node.now }
        ensures padded { are_bytes node.now.name.items ≡ true →
            IsPadded (stock_of self.now memory.new map.now).nodes address }
        ensures previous { previous_at (stock_of self.now memory.new map.now).nodes address
            ≡ previous }
        ensures user { user_at (stock_of self.now memory.new map.now).nodes address
            ≡ user_at (stock_of self.now memory.old map.now).nodes address }
        ensures keeps { KeepsHeaps self.now self.now
            memory.old memory.new map.now map.now }
    {
        self.put_bytes(memory, map, address, 0, &node.to_block(previous));
    }

    /// Overwrites the payload of a node from an offset on.
    pub fn put_bytes(
        &self,
        memory: &mut Memory,
        map: &RegionMap,
        address: u64,
        offset: u64,
        bytes: &[u8],
    )
        requires furnished { AreSoundHeaps self.now memory.old map.now }
        requires there { HasBytes
            (stock_of self.now memory.old map.now).nodes.payloads address 0 96 }
        requires some { 1 ≤ length bytes.now }
        requires few { offset + length bytes.now ≤ 96 }
        ensures stored { stock_of self.now memory.new map.now
            ≡ node_stored address offset bytes.now (stock_of self.now memory.old map.now) }
        ensures there { HasBytes
            (stock_of self.now memory.new map.now).nodes.payloads address 0 96 }
        ensures user { user_at (stock_of self.now memory.new map.now).nodes address
            ≡ user_at (stock_of self.now memory.old map.now).nodes address }
        ensures keeps { KeepsHeaps self.now self.now
            memory.old memory.new map.now map.now }
    {
        let (ds, at) = self.find_node(memory, map, address);
        memory.write(ds, at + offset, bytes);
    }

    /// Loads a word of a block that has a node, at any offset. The memory is unchanged.
    pub fn load_block_word(
        &self,
        memory: &Memory,
        map: &RegionMap,
        address: u64,
        offset: u64,
    ) -> u64
        requires furnished { AreSoundHeaps self.now memory.now map.now }
        requires there { HasBytes
            (stock_of self.now memory.now map.now).nodes.payloads address 0 (offset + 8) }
        requires aligned { offset % 8 ≡ 0 }
        ensures { result ≡ word_from (payload_in
            (stock_of self.now memory.now map.now).nodes.payloads address) offset }
    {
        let (ds, at) = self.nodes.payload_at(memory, map, address);
        memory.load_word(ds, at + offset)
    }

    /// Overwrites a block that has a node from an offset on.
    pub(crate) fn put_block_bytes(
        &self,
        memory: &mut Memory,
        map: &RegionMap,
        address: u64,
        offset: u64,
        bytes: &[u8],
    )
        requires furnished { AreSoundHeaps self.now memory.old map.now }
        requires there { HasBytes (stock_of self.now memory.old map.now).nodes.payloads
            address 0 (offset + length bytes.now) }
        requires some { 1 ≤ length bytes.now }
        ensures stored { stock_of self.now memory.new map.now
            ≡ node_stored address offset bytes.now (stock_of self.now memory.old map.now) }
        ensures keeps { KeepsHeaps self.now self.now
            memory.old memory.new map.now map.now }
    {
        let (ds, at) = self.nodes.payload_at(memory, map, address);
        memory.write(ds, at + offset, bytes);
    }

    /// Finds the dataspace that has a node's block, and the offset of its payload.
    pub(crate) fn find_node(&self, memory: &Memory, map: &RegionMap, address: u64) -> (DsId, u64)
        requires furnished { AreSoundHeaps self.now memory.now map.now }
        requires there { HasBytes
            (stock_of self.now memory.now map.now).nodes.payloads address 0 96 }
        ensures found { (into count : ℕ) → 1 ≤ count → into + count ≤ 96 →
            FindsNode self.now.nodes memory.now map.now
            result.0.0 (result.1 + into) address into count }
        ensures even { result.1 % 16 ≡ 0 }
        ensures low { result.1 + 96 < 2 ^ 64 }
    {
        self.nodes.payload_at(memory, map, address)
    }
}
