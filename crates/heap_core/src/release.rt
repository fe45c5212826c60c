//! How a heap frees blocks.
ghost use Rattle.std.specs.Prelude.{◌≡◌, ℕ, ◌<◌, ◌≤◌, [], length, slice_index, IsSome, OnOk, OnErr, Some, None};
ghost use Rattle.std.specs.FinMap.{get};
ghost use Rattle.std.specs.Result.{result_err};
ghost use Rattle.dataspace_core.specs.Share.{KeepsShares};
ghost use Rattle.dataspace_core.specs.Store.{Store};
ghost use Rattle.heap_core.specs.Calls.{GivesAll, GivesSmall, GivesLarge, LosesLarge, Keeps, Unchanged, free_refusal};
ghost use Rattle.heap_core.specs.End.{EndsChunks, EndsLarge};
ghost use Rattle.heap_core.specs.Heap.{payer_of, share_at, heap_at, times_in, IsSound};
ghost use Rattle.heap_core.specs.Lookup.{LiesInChunk, LiesInLarge};

use crate::blocks::give;
use crate::heap::Heap;
use crate::lookup::{HeapLocation, LargeBlock};
use avl_alloc::BlockAddr;
use dataspace_core::Memory;
use region_map::RegionMap;
use std::marker::Brand;
use std::sync::ledger::Blank;
use trade_base::{BLOCK_HEADER, DsId, Refusal};

impl Heap {
    /// Frees the block whose payload starts at the address, and credits the account with the charges of a large block. A
    /// block of a chunk becomes a free block, and its chunk stays charged.
    ///
    /// Refuses with `PageFault` if no payload of the heap starts there.
    pub fn free(
        &mut self,
        memory: &mut Memory,
        map: &mut RegionMap,
        address: u64,
    ) -> Result<(), Refusal>
        requires { IsSound self.old memory.old map.old }
        ensures refusal { result_err result
            ≡ free_refusal (heap_at self.old memory.old map.old) address }
        ensures small { OnOk result
            (get (heap_at self.old memory.old map.old).large address ≡ None →
            GivesSmall self.old self.new address memory.old memory.new map.old map.new) }
        ensures large { (size : ℕ)
            → OnOk result (get (heap_at self.old memory.old map.old).large address ≡ Some size →
            GivesLarge self.old self.new address memory.old memory.new map.old map.new) }
        ensures sound { IsSound self.new memory.new map.new }
        ensures others { KeepsShares
            (payer_of self.old) memory.old memory.new
            map.old.heap map.old.tags map.new.heap map.new.tags }
        ensures payer { payer_of self.new ≡ payer_of self.old }
        ensures memory_err { OnErr result (memory.new ≡ memory.old) }
        ensures map_err { OnErr result (map.new ≡ map.old) }
        ensures err { OnErr result (self.new ≡ self.old) }
    {
        match self.site(memory, map, address).ok_or(Refusal::PageFault)? {
            HeapLocation::InChunk(at) => self.free_small(memory, map, at, address),
            HeapLocation::InLarge(block) => self.free_large(memory, map, block, address),
        }
    }

    /// Frees all chunks and large blocks, and credits the account with their charges. The heap is then as a new one.
    pub fn end(&mut self, memory: &mut Memory, map: &mut RegionMap)
        requires { IsSound self.old memory.old map.old }
        ensures given { GivesAll self.old self.new memory.old memory.new map.old map.new }
        ensures sound { IsSound self.new memory.new map.new }
        ensures others { KeepsShares
            (payer_of self.old) memory.old memory.new
            map.old.heap map.old.tags map.new.heap map.new.tags }
        ensures payer { payer_of self.new ≡ payer_of self.old }
    {
        self.end_large(memory, map);
        self.end_chunks(memory, map);
        self.forget();
    }

    // Frees all large blocks, the last of the list first.
    fn end_large(&mut self, memory: &mut Memory, map: &mut RegionMap)
        requires { IsSound self.old memory.old map.old }
        ensures ends { EndsLarge self.old self.new memory.old memory.new map.old map.new }
        ensures none { self.new.large.items ≡ [] }
    {
        while !self.large.is_empty() {
            let index = self.large.len() - 1;
            let ds = self.large_ds(map, self.large[index]);
            self.give_large(memory, map, index, ds);
        }
    }

    // Returns the dataspace of the large block that starts at an address.
    fn large_ds(&self, map: &RegionMap, start: u64) -> DsId
        requires sound { (store : Store) × IsSound self.now store map.now }
        requires there { 1 ≤ times_in self.now.large.items start }
        ensures { (store : Store) → IsSound self.now store map.now →
            LiesInLarge (share_at (payer_of self.now) store map.now) start start result.0 }
    {
        let (_, ds, _) = map.heap_region(start).unwrap();
        ds
    }

    // Frees the dataspaces of all chunks, the last one first.
    fn end_chunks(&self, memory: &mut Memory, map: &mut RegionMap)
        requires sound { IsSound self.now memory.old map.old }
        requires none { self.now.large.items ≡ [] }
        ensures ends { EndsChunks self.now 0 memory.old memory.new map.old map.new }
    {
        let mut left = self.chunks.len();
        while left > 0 {
            left -= 1;
            let chunk = self.chunks[left];
            map.detach_heap(chunk.start);
            memory.free(chunk.ds);
        }
    }

    // Frees the block of a chunk whose payload starts at an address in the chunk.
    fn free_small(
        &mut self,
        memory: &mut Memory,
        map: &RegionMap,
        at: BlockAddr,
        address: u64,
    ) -> Result<(), Refusal>
        requires sound { IsSound self.old memory.old map.now }
        requires lies { LiesInChunk self.old address at.chunk at.offset }
        ensures refusal { result_err result
            ≡ free_refusal (heap_at self.old memory.old map.now) address }
        ensures small { OnOk result
            (GivesSmall self.old self.new address memory.old memory.new map.now map.now) }
        ensures is_small { get (heap_at self.old memory.old map.now).large address ≡ None }
        ensures keeps { Keeps self.old self.new memory.old memory.new map.now map.now }
        ensures err { Unchanged (OnErr result)
            self.old self.new memory.old memory.new map.now map.now }
    {
        // Contracts are about the map and the address; the allocator knows the block by its place in the chunk.
        let _ = map;
        let _ = address;
        if at.offset < BLOCK_HEADER {
            return Err(Refusal::PageFault);
        }
        let block = BlockAddr {
            chunk: at.chunk,
            offset: at.offset - BLOCK_HEADER,
        };
        let given = give::<Brand>(&mut self.fit, memory, &self.chunks, block, Blank::new(1));
        if given.is_none() {
            return Err(Refusal::PageFault);
        }
        Ok(())
    }

    // Frees the large block that contains an address, if it starts there.
    fn free_large(
        &mut self,
        memory: &mut Memory,
        map: &mut RegionMap,
        block: LargeBlock,
        address: u64,
    ) -> Result<(), Refusal>
        requires sound { IsSound self.old memory.old map.old }
        requires lies { LiesInLarge (share_at (payer_of self.old) memory.old map.old) address
            block.start block.ds.0 }
        ensures refusal { result_err result
            ≡ free_refusal (heap_at self.old memory.old map.old) address }
        ensures large { OnOk result
            (GivesLarge self.old self.new address memory.old memory.new map.old map.new) }
        ensures is_large { OnOk result
            (IsSome (get (heap_at self.old memory.old map.old).large address)) }
        ensures keeps { Keeps self.old self.new memory.old memory.new map.old map.new }
        ensures err { Unchanged (OnErr result)
            self.old self.new memory.old memory.new map.old map.new }
    {
        if block.start != address {
            return Err(Refusal::PageFault);
        }
        let index = index_of(&self.large, block.start);
        self.give_large(memory, map, index, block.ds);
        Ok(())
    }

    // Frees the large block whose start is at an index of the list.
    fn give_large(&mut self, memory: &mut Memory, map: &mut RegionMap, index: usize, ds: DsId)
        requires sound { IsSound self.old memory.old map.old }
        requires there { index < length self.old.large.items }
        requires block { let start = slice_index self.old.large.items index in
            LiesInLarge (share_at (payer_of self.old) memory.old map.old) start start ds.0 }
        ensures given { let start = slice_index self.old.large.items index in
            GivesLarge self.old self.new start memory.old memory.new map.old map.new }
        ensures loses { let start = slice_index self.old.large.items index in
            let account = payer_of self.old in
            LosesLarge self.old self.new start
            (share_at account memory.old map.old) (share_at account memory.new map.new) }
        ensures keeps { Keeps self.old self.new memory.old memory.new map.old map.new }
    {
        let start = self.large.swap_remove(index);
        map.detach_heap(start);
        memory.free(ds);
    }
}

// Returns the index of a number in a list that has it.
fn index_of(numbers: &[u64], number: u64) -> usize
    requires { 1 ≤ times_in numbers.now number }
    ensures there { result < length numbers.now }
    ensures is { slice_index numbers.now result ≡ number }
{
    let mut index = 0;
    while numbers[index] != number {
        index += 1;
    }
    index
}
