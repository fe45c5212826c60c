//! The heap of an account.
ghost use Rattle.std.specs.Prelude.{◌≡◌, ℕ, ◌+◌, ◌-◌, ◌<◌, ◌≤◌, None, Some, is_some, IfOk, IfSome, IfNone, OnErr};
ghost use Rattle.own_model.specs.Account.{alloc_refusal};
ghost use Rattle.std.specs.Option.{option_map};
ghost use Rattle.own_model.specs.BestFit.{Spot};
ghost use Rattle.own_model.specs.Growth.{hole_for, growth_refusal, heap_refusal};
ghost use Rattle.avl_alloc.specs.Found.{block_addr};
ghost use Rattle.heap_core.specs.Calls.{part_at, Keeps, Unchanged, TakesLarge, TakesHole, TakesSmall, TakesGrown};
ghost use Rattle.std.specs.Result.{result_err};
ghost use Rattle.own_model.specs.OwnHeap.{no_heap};
ghost use Rattle.region_map.specs.Regions.{Regions};
ghost use Rattle.dataspace_core.specs.Share.{Share, IsWindowOf, KeepsShares};
ghost use Rattle.dataspace_core.specs.Store.{Store, IsOpenIn, account_in};
ghost use Rattle.heap_core.specs.Heap.{chunk_at, keys_in, payer_of, share_at, shape_in, heap_in, HasNoBlocks, IsLaid, IsSound};
ghost use Rattle.heap_core.specs.Taken.{IsUsed, Clears};
ghost use Rattle.heap_core.specs.Words.{around};

use crate::blocks::take;
use crate::clear::clear;
use crate::words::Chunk;
use arrayvec::ArrayVec;
use avl_alloc::{BestFit, BlockAddr, MOST_CHUNKS};
use dataspace_core::Memory;
use region_map::RegionMap;
use std::marker::Brand;
use std::sync::ledger::Blank;
use trade_base::{AccountId, BLOCK_HEADER, LEAST_LARGE, PAGE, Refusal};

/// The maximum number of large blocks that a machine can hold at once.
const MOST_LARGE: usize = 256;

/// The number stored with the region of a large block. A chunk's region has the chunk's number.
pub(crate) const LARGE: u64 = 64;

/// The growth number of a new heap: the pages of its first chunk, unless a block needs more.
pub(crate) const FIRST_GROWTH: u64 = 4;

/// A heap of one account. Small blocks lie in chunks, which are dataspaces; the heap adds a chunk if no free block is
/// large enough. A large block is a dataspace of its own.
#[derive(Drop)]
pub struct Heap {
    pub(crate) account: AccountId,
    /// The blocks of the chunks.
    pub(crate) fit: BestFit,
    /// The chunks, in the order of their numbers.
    pub(crate) chunks: ArrayVec<Chunk, MOST_CHUNKS>,
    /// The start addresses of the large blocks, in any order.
    pub(crate) large: ArrayVec<u64, MOST_LARGE>,
    /// The minimum number of pages of the next chunk, if the account covers them.
    pub(crate) growth: u64,
}

impl Heap {
    /// Creates an empty heap that charges the account for its blocks.
    pub fn new(account: AccountId) -> Heap
        ensures payer { payer_of result ≡ account.0 }
        ensures sound { (store : Store) (regions : Regions) → IsOpenIn store account.0 →
            IsWindowOf store regions.pages regions.heap_most regions.heap →
            HasNoBlocks (share_at account.0 store regions) → IsSound result store regions }
        ensures laid { (share : Share) → HasNoBlocks share → IsLaid result share }
        ensures empty { (share : Share) → HasNoBlocks share → heap_in result share ≡ no_heap }
    {
        Heap {
            account,
            fit: BestFit::new(),
            chunks: ArrayVec::new(),
            large: ArrayVec::new(),
            growth: FIRST_GROWTH,
        }
    }

    // Makes the heap as a new one. The lists' old elements remain in memory after their ends.
    pub(crate) fn forget(&mut self)
        ensures payer { payer_of self.new ≡ payer_of self.old }
        ensures sound { (store : Store) (regions : Regions) → IsOpenIn store (payer_of self.old) →
            IsWindowOf store regions.pages regions.heap_most regions.heap →
            HasNoBlocks (share_at (payer_of self.old) store regions) →
            IsSound self.new store regions }
        ensures empty { (share : Share) → HasNoBlocks share → heap_in self.new share ≡ no_heap }
    {
        self.fit = BestFit::new();
        self.chunks.clear();
        self.large.clear();
        self.growth = FIRST_GROWTH;
    }

    /// Allocates a zeroed block for `bytes` bytes and returns the address of its payload. A block below 65536 bytes is
    /// allocated in the best-fitting free block. If none is large enough, the heap adds a chunk, and the account is
    /// charged for its pages and one capability. For a block from 65536 bytes on, the account is charged for its own
    /// pages and one capability. All bytes of the payload are zero, also those after `bytes`.
    ///
    /// Refuses with `InvalidSize` if `bytes` is 0 or exceeds 64 bits in whole pages. Then refuses with `TooManyChunks` if
    /// no free block suffices for a smaller block and the heap has 64 chunks. Then refuses with `OutOfRam` or `OutOfCaps`
    /// if the account does not cover the large block, or the chunk of the pages that the block needs. Nothing else
    /// refuses it.
    pub fn alloc(
        &mut self,
        memory: &mut Memory,
        map: &mut RegionMap,
        bytes: u64,
    ) -> Result<u64, Refusal>
        requires { IsSound self.old memory.old map.old }
        ensures refusal { result_err result ≡
            heap_refusal bytes (shape_in self.old (part_at self.old memory.old))
            (account_in memory.old (payer_of self.old)) }
        ensures large { IfOk result (λ address. LEAST_LARGE ≤ bytes →
            TakesLarge self.old self.new bytes address memory.old memory.new map.old map.new) }
        ensures small { (hole : Spot) → IfOk result (λ address. bytes < LEAST_LARGE →
            hole_for bytes (shape_in self.old (part_at self.old memory.old)) ≡ Some hole →
            TakesSmall self.old self.new bytes hole address memory.old memory.new map.old map.new) }
        ensures grown { IfOk result (λ address. bytes < LEAST_LARGE →
            hole_for bytes (shape_in self.old (part_at self.old memory.old)) ≡ None →
            TakesGrown self.old self.new bytes address memory.old memory.new map.old map.new) }
        ensures sound { IsSound self.new memory.new map.new }
        ensures others { KeepsShares (payer_of self.old) memory.old memory.new
            map.old.heap map.old.tags map.new.heap map.new.tags }
        ensures payer { payer_of self.new ≡ payer_of self.old }
        ensures memory_err { OnErr result (memory.new ≡ memory.old) }
        ensures map_err { OnErr result (map.new ≡ map.old) }
        ensures err { OnErr result (self.new ≡ self.old) }
    {
        if bytes == 0 {
            return Err(Refusal::InvalidSize);
        }
        if bytes >= LEAST_LARGE {
            return self.take_large(memory, map, bytes);
        }
        if let Some(address) = self.take_small(memory, map, bytes) {
            return Ok(address);
        }
        self.take_grown(memory, map, bytes)
    }

    // Allocates a large block: a dataspace of its own for `bytes` bytes.
    fn take_large(
        &mut self,
        memory: &mut Memory,
        map: &mut RegionMap,
        bytes: u64,
    ) -> Result<u64, Refusal>
        requires sound { IsSound self.old memory.old map.old }
        requires large { LEAST_LARGE ≤ bytes }
        ensures refusal { result_err result
            ≡ alloc_refusal bytes (account_in memory.old (payer_of self.old)) }
        ensures taken { IfOk result (λ address.
            TakesLarge self.old self.new bytes address memory.old memory.new map.old map.new) }
        ensures keeps { Keeps self.old self.new memory.old memory.new map.old map.new }
        ensures err { Unchanged (OnErr result)
            self.old self.new memory.old memory.new map.old map.new }
    {
        let ds = memory.alloc(self.account, bytes)?;
        let start = map.attach_block(ds, memory.size(ds) / PAGE, LARGE);
        self.large.push(start);
        Ok(start)
    }

    // Adds a chunk and allocates a block there. No free block was large enough before.
    fn take_grown(
        &mut self,
        memory: &mut Memory,
        map: &mut RegionMap,
        bytes: u64,
    ) -> Result<u64, Refusal>
        requires sound { IsSound self.old memory.old map.old }
        requires small { bytes < LEAST_LARGE }
        requires none { hole_for bytes (shape_in self.old (part_at self.old memory.old)) ≡ None }
        ensures refusal { result_err result ≡
            growth_refusal bytes (shape_in self.old (part_at self.old memory.old))
            (account_in memory.old (payer_of self.old)) }
        ensures taken { IfOk result (λ address.
            TakesGrown self.old self.new bytes address memory.old memory.new map.old map.new) }
        ensures keeps { Keeps self.old self.new memory.old memory.new map.old map.new }
        ensures err { Unchanged (OnErr result)
            self.old self.new memory.old memory.new map.old map.new }
    {
        self.grow(memory, map, bytes)?;
        Ok(self.take_small(memory, map, bytes).unwrap())
    }

    // Allocates a block in the best-fitting free block for `bytes` bytes, clears its payload and returns the payload's
    // address. Returns `None` if no free block is large enough.
    fn take_small(&mut self, memory: &mut Memory, map: &RegionMap, bytes: u64) -> Option<u64>
        requires sound { IsSound self.old memory.old map.now }
        requires small { bytes < LEAST_LARGE }
        ensures found { is_some result
            ≡ is_some (hole_for bytes (shape_in self.old (part_at self.old memory.old))) }
        ensures taken { (hole : Spot) → IfSome result (λ address.
            hole_for bytes (shape_in self.old (part_at self.old memory.old)) ≡ Some hole →
            TakesSmall self.old self.new bytes hole address memory.old memory.new map.now map.now) }
        ensures keeps { Keeps self.old self.new memory.old memory.new map.now map.now }
        ensures none { Unchanged (IfNone result)
            self.old self.new memory.old memory.new map.now map.now }
    {
        let block = self.take_hole(memory, map, bytes)?;
        Some(self.clear_payload(memory, map, block))
    }

    // Clears the payload of the used block at an address, and returns the payload's address.
    fn clear_payload(&self, memory: &mut Memory, map: &RegionMap, block: BlockAddr) -> u64
        requires sound { IsSound self.now memory.old map.now }
        requires used { (n : ℕ) × IsUsed self.now memory.old block n }
        ensures start { result ≡ (chunk_at self.now block.chunk).start + block.offset + BLOCK_HEADER }
        ensures cleared { (n : ℕ) → IsUsed self.now memory.old block n →
            Clears self.now result (n - BLOCK_HEADER) memory.old memory.new map.now }
        ensures sound { IsSound self.now memory.new map.now }
        ensures around { around (keys_in self.now) memory.new
            ≡ around (keys_in self.now) memory.old }
    {
        // The contract is about the map; the chunk has its region's start address.
        let _ = map;
        let chunk = self.chunks[block.chunk];
        let size = memory.load_word(chunk.ds, block.offset);
        clear(
            memory,
            chunk.ds,
            block.offset + BLOCK_HEADER,
            size - BLOCK_HEADER,
        );
        chunk.start + block.offset + BLOCK_HEADER
    }

    // Allocates a block in the best-fitting free block for `bytes` bytes, or returns `None` if no free block is large
    // enough. It does not clear the payload.
    fn take_hole(&mut self, memory: &mut Memory, map: &RegionMap, bytes: u64) -> Option<BlockAddr>
        requires sound { IsSound self.old memory.old map.now }
        requires small { bytes < LEAST_LARGE }
        ensures found { result
            ≡ option_map block_addr
            (hole_for bytes (shape_in self.old (part_at self.old memory.old))) }
        ensures taken { (hole : Spot)
            → hole_for bytes (shape_in self.old (part_at self.old memory.old)) ≡ Some hole →
            TakesHole self.old self.new bytes hole memory.old memory.new map.now }
        ensures keeps { Keeps self.old self.new memory.old memory.new map.now map.now }
        ensures around { around (keys_in self.old) memory.new
            ≡ around (keys_in self.old) memory.old }
        ensures none { Unchanged (IfNone result)
            self.old self.new memory.old memory.new map.now map.now }
    {
        // The contract is about the map, which stays unchanged; the block is allocated in the chunks' words.
        let _ = map;
        take::<Brand>(&mut self.fit, memory, &self.chunks, bytes, Blank::new(1))
    }
}
