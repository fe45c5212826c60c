//! Search for the block of a heap that contains an address.
ghost use Rattle.std.specs.Prelude.{◌≡◌, ℕ, ◌+◌, ◌-◌, ◌%◌, ◌<◌, ◌≤◌, ◌==◌, List, length, IfSome, IfNone, IsSome, Some, None};
ghost use Rattle.std.specs.FinMap.{get};
ghost use Rattle.own_model.specs.Sliced.{block_found};
ghost use Rattle.avl_alloc.specs.Layout.{sizes_of};
ghost use Rattle.dataspace_core.specs.Store.{Exists, space_at};
ghost use Rattle.heap_core.specs.Calls.{HoldsRange, FindsRange};
ghost use Rattle.heap_core.specs.Heap.{payer_of, share_at, heap_at, IsSound};
ghost use Rattle.heap_core.specs.Lookup.{LiesAt, LiesInChunk, LiesInLarge, LiesOutside};

use crate::blocks::look;
use crate::heap::{Heap, LARGE};
use avl_alloc::BlockAddr;
use dataspace_core::Memory;
use region_map::RegionMap;
use std::marker::Brand;
use std::sync::ledger::Blank;
use trade_base::DsId;

/// A large block: its start address and its dataspace.
#[derive(Clone, Copy)]
pub struct LargeBlock {
    pub start: u64,
    pub ds: DsId,
}

/// The part of a heap that contains an address.
#[derive(Clone, Copy)]
pub enum HeapLocation {
    /// The address is in a chunk.
    InChunk(BlockAddr),
    /// The address is in a large block.
    InLarge(LargeBlock),
}

impl Heap {
    /// Returns the dataspace that contains `count` bytes from the address on, and the offset of the first byte in it.
    /// Returns `None` if the bytes do not lie in one payload, for example if one is in a header or a free block. The
    /// memory stays unchanged.
    pub fn block_of(
        &self,
        memory: &mut Memory,
        map: &RegionMap,
        address: u64,
        count: u64,
    ) -> Option<(DsId, u64)>
        requires sound { IsSound self.now memory.old map.now }
        requires some { 1 ≤ count }
        ensures some { IfSome result
            (λ found. HoldsRange self.now memory.old map.now found.0.0 found.1 address count) }
        ensures none { IfNone result
            (block_found (heap_at self.now memory.old map.now).payloads address count ≡ None) }
        ensures memory { memory.new ≡ memory.old }
    {
        match self.site(memory, map, address)? {
            HeapLocation::InChunk(at) => self.range_in_chunk(memory, map, at, address, count),
            HeapLocation::InLarge(block) => self.range_in_large(memory, map, block, address, count),
        }
    }

    /// Returns the dataspace that contains the payload at an address, and its offset there, a multiple of 16. It reads no
    /// byte of the memory. The chunks are searched first, as they are few however many regions the map has.
    pub fn payload_at(&self, memory: &Memory, map: &RegionMap, address: u64) -> (DsId, u64)
        requires sound { IsSound self.now memory.now map.now }
        requires there { IsSome (get (heap_at self.now memory.now map.now).payloads address) }
        ensures held { (payload : List ℕ) (into count : ℕ)
            → get (heap_at self.now memory.now map.now).payloads address ≡ Some payload →
            1 ≤ count → into + count ≤ length payload
            → HoldsRange self.now memory.now map.now result.0.0 (result.1 + into)
            (address + into) count }
        ensures even { result.1 % 16 ≡ 0 }
    {
        // The contract is about the memory; only the chunks and the map are read.
        let _ = memory;
        map.lies_apart();
        match self.chunk_over(address) {
            Some(at) => (self.chunks[at.chunk].ds, at.offset),
            None => {
                let (start, ds, _) = map.heap_region(address).unwrap();
                (ds, address - start)
            }
        }
    }

    // Returns the chunk that contains an address and the offset there, or `None` if no chunk does. The search begins with
    // the last chunks, which are the largest.
    fn chunk_over(&self, address: u64) -> Option<BlockAddr>
        requires { length (sizes_of self.now.fit) ≡ length self.now.chunks.items }
        ensures { IfSome result (λ at. LiesInChunk self.now address at.chunk at.offset) }
    {
        let mut left = self.chunks.len();
        while left > 0 {
            left -= 1;
            let start = self.chunks[left].start;
            if start <= address && address - start < self.fit.chunk_size(left) {
                return Some(BlockAddr {
                    chunk: left,
                    offset: address - start,
                });
            }
        }
        None
    }

    // Returns the part of this heap that contains an address. The payer of the region's dataspace and the number stored
    // with the region show whether it belongs to this heap.
    pub(crate) fn site(
        &self,
        memory: &Memory,
        map: &RegionMap,
        address: u64,
    ) -> Option<HeapLocation>
        requires { IsSound self.now memory.now map.now }
        ensures some { IfSome result
            (LiesAt self.now (share_at (payer_of self.now) memory.now map.now) address) }
        ensures none { IfNone result
            (LiesOutside self.now (share_at (payer_of self.now) memory.now map.now) address) }
        ensures free { IfNone result
            (get (heap_at self.now memory.now map.now).payloads address ≡ None) }
    {
        let (start, ds, tag) = map.heap_region(address)?;
        if tag > LARGE || !self.pays(memory, ds) {
            return None;
        }
        if tag == LARGE {
            return Some(HeapLocation::InLarge(LargeBlock { start, ds }));
        }
        Some(HeapLocation::InChunk(BlockAddr {
            chunk: tag as usize,
            offset: address - start,
        }))
    }

    // Tests whether the account pays for a dataspace.
    fn pays(&self, memory: &Memory, ds: DsId) -> bool
        requires { Exists memory.now ds.0 }
        ensures { result ≡ ((space_at memory.now ds.0).payer == payer_of self.now) }
    {
        memory.payer(ds) == self.account
    }

    // Returns the location of `count` bytes from an address in a chunk on.
    fn range_in_chunk(
        &self,
        memory: &mut Memory,
        map: &RegionMap,
        at: BlockAddr,
        address: u64,
        count: u64,
    ) -> Option<(DsId, u64)>
        requires sound { IsSound self.now memory.old map.now }
        requires some { 1 ≤ count }
        requires lies { LiesInChunk self.now address at.chunk at.offset }
        ensures finds { FindsRange self.now memory.old map.now address count result }
        ensures memory { memory.new ≡ memory.old }
    {
        // The contract is about the map and the address; the allocator knows the block by its place in the chunk.
        let _ = map;
        let _ = address;
        let block = look::<Brand>(&self.fit, memory, &self.chunks, at, Blank::new(1))?;
        if count > block.size - (at.offset - block.offset) {
            return None;
        }
        Some((self.chunks[at.chunk].ds, at.offset))
    }

    // Returns the location of `count` bytes from an address in a large block on.
    fn range_in_large(
        &self,
        memory: &Memory,
        map: &RegionMap,
        block: LargeBlock,
        address: u64,
        count: u64,
    ) -> Option<(DsId, u64)>
        requires sound { IsSound self.now memory.now map.now }
        requires some { 1 ≤ count }
        requires lies { LiesInLarge (share_at (payer_of self.now) memory.now map.now) address
            block.start block.ds.0 }
        ensures { FindsRange self.now memory.now map.now address count result }
    {
        // The contract is about the map; the caller passes the block's start.
        let _ = map;
        let offset = address - block.start;
        if count > memory.size(block.ds) - offset {
            return None;
        }
        Some((block.ds, offset))
    }
}
