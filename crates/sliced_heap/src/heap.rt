//! The sliced heap of an account.
ghost use Rattle.std.specs.Prelude.{◌≡◌, ◌+◌, ◌-◌, ◌*◌, ◌<◌, ◌≤◌, ◌==◌, ◌&&◌, ◌^◌, IfOk, IfSome, IfNone, OnOk, OnErr, Some, None};
ghost use Rattle.std.specs.FinMap.{get};
ghost use Rattle.std.specs.Result.{result_err};
ghost use Rattle.trade_base.specs.declared.refusal.Refusal.TheVariants.{InvalidSize};
ghost use Rattle.own_model.specs.Account.{opened};
ghost use Rattle.own_model.specs.Sliced.{sliced_header as header, sliced_refusal};
ghost use Rattle.own_model.specs.Sliced.{block_found};
ghost use Rattle.region_map.specs.Regions.{Regions};
ghost use Rattle.dataspace_core.specs.Store.{Store, account_in, IsOpenIn, Exists, space_at};
ghost use Rattle.sliced_heap.specs.Sliced.{sliced_tag};
ghost use Rattle.sliced_heap.specs.Heap.{payer_of, share_at, blocks_at, IsSound, MapsMemory, HasNoBlocks, KeepsOthers, Keeps, TakesBlock};
ghost use Rattle.sliced_heap.specs.Heap.{GivesBlock, GivesAll, IsBlockAt, HoldsAddress, NoneHolds, HoldsRange, Enters, CanEnter, free_refusal};

use crate::header::{START, linked, load};
use crate::links::{put_first, take_out};
use dataspace_core::Memory;
use region_map::RegionMap;
use trade_base::{AccountId, DsId, PAGE, Refusal, SLICED_HEADER};

/// The number stored with the region of a sliced block.
const SLICED: u64 = u64::MAX;

/// A heap of one account, in which each block is a dataspace of its own.
#[derive(Drop)]
pub struct SlicedHeap {
    account: AccountId,
    /// The link to the most recently allocated block.
    first: u64,
}

impl SlicedHeap {
    /// Creates an empty heap that charges the account. It is valid for each map of a memory that has no block of the
    /// account yet.
    pub fn new(account: AccountId) -> SlicedHeap
        ensures payer { payer_of result ≡ account.0 }
        ensures sound { (store : Store) (regions : Regions) → IsOpenIn store account.0
            → MapsMemory store regions →
            HasNoBlocks (share_at account.0 store regions) → IsSound result store regions }
    {
        SlicedHeap { account, first: 0 }
    }

    /// Returns the account that the heap charges for its blocks.
    pub fn account(&self) -> AccountId
        ensures { result.0 ≡ payer_of self.now }
    {
        self.account
    }

    /// Allocates a zeroed block for `bytes` bytes and returns the address of its payload. The account is charged for the
    /// block in whole pages, including its header of 32 bytes, and for one capability.
    ///
    /// Refuses with `InvalidSize` if `bytes` is 0 or the block exceeds 64 bits in whole pages. Then refuses with
    /// `OutOfRam` if the account has less unused RAM, then with `OutOfCaps` if it has no unused capability. Nothing else
    /// refuses it.
    pub fn alloc(
        &mut self,
        memory: &mut Memory,
        map: &mut RegionMap,
        bytes: u64,
    ) -> Result<u64, Refusal>
        requires { IsSound self.old memory.old map.old }
        ensures refusal { result_err result
            ≡ sliced_refusal bytes (account_in memory.old (payer_of self.old)) }
        ensures taken { IfOk result (λ address.
            TakesBlock (payer_of self.old) bytes address memory.old memory.new map.old map.new) }
        ensures sound { IsSound self.new memory.new map.new }
        ensures others { KeepsOthers (payer_of self.old) memory.old memory.new map.old map.new }
        ensures payer { payer_of self.new ≡ payer_of self.old }
        ensures memory_err { OnErr result (memory.new ≡ memory.old) }
        ensures map_err { OnErr result (map.new ≡ map.old) }
        ensures err { OnErr result (self.new ≡ self.old) }
    {
        let size = with_header(bytes).ok_or(Refusal::InvalidSize)?;
        let ds = memory.alloc(self.account, size)?;
        let pages = memory.size(ds) / PAGE;
        Ok(self.enter(memory, map, ds, pages))
    }

    /// Frees the block whose payload starts at the address, and credits the account with its charges.
    ///
    /// Refuses with `PageFault` if no payload of the account's blocks starts there.
    pub fn free(
        &mut self,
        memory: &mut Memory,
        map: &mut RegionMap,
        address: u64,
    ) -> Result<(), Refusal>
        requires { IsSound self.old memory.old map.old }
        ensures refusal { result_err result
            ≡ free_refusal (blocks_at (payer_of self.old) memory.old map.old) address }
        ensures given { OnOk result (
            GivesBlock (payer_of self.old) address memory.old memory.new map.old map.new) }
        ensures sound { IsSound self.new memory.new map.new }
        ensures others { KeepsOthers (payer_of self.old) memory.old memory.new map.old map.new }
        ensures payer { payer_of self.new ≡ payer_of self.old }
        ensures memory_err { OnErr result (memory.new ≡ memory.old) }
        ensures map_err { OnErr result (map.new ≡ map.old) }
        ensures err { OnErr result (self.new ≡ self.old) }
    {
        let (start, ds) = self
            .block_from(memory, map, address)
            .ok_or(Refusal::PageFault)?;
        self.give_back(memory, map, start, ds);
        Ok(())
    }

    /// Returns the dataspace of the block whose payload contains `count` bytes from the address on, and the offset of the
    /// first byte in it. Returns `None` if the bytes do not lie in one payload of the account's blocks, for example if
    /// one is in a header.
    pub fn block_of(
        &self,
        memory: &Memory,
        map: &RegionMap,
        address: u64,
        count: u64,
    ) -> Option<(DsId, u64)>
        requires sound { IsSound self.now memory.now map.now }
        requires some { 1 ≤ count }
        ensures some { IfSome result (λ found.
            HoldsRange
            (share_at (payer_of self.now) memory.now map.now) found.0.0 found.1 address count) }
        ensures none { IfNone result
            (block_found (blocks_at (payer_of self.now) memory.now map.now) address count ≡ None) }
    {
        let (start, ds) = self.block_at(memory, map, address)?;
        let offset = address - start;
        let size = memory.size(ds);
        if offset < SLICED_HEADER || count > size - offset {
            return None;
        }
        Some((ds, offset))
    }

    /// Frees all blocks and credits the account with their charges. The heap is then as a new one.
    pub fn end(&mut self, memory: &mut Memory, map: &mut RegionMap)
        requires { IsSound self.old memory.old map.old }
        ensures given { GivesAll (payer_of self.old) memory.old memory.new map.old map.new }
        ensures sound { IsSound self.new memory.new map.new }
        ensures others { KeepsOthers (payer_of self.old) memory.old memory.new map.old map.new }
        ensures payer { payer_of self.new ≡ payer_of self.old }
    {
        while let Some(ds) = linked(self.first) {
            let start = load(memory, self.account, ds, START);
            self.give_back(memory, map, start, ds);
        }
    }

    // Returns the start address and the dataspace of the block that contains an address, in its header or its payload.
    fn block_at(&self, memory: &Memory, map: &RegionMap, address: u64) -> Option<(u64, DsId)>
        requires { IsSound self.now memory.now map.now }
        ensures some { IfSome result (λ block.
            HoldsAddress
            (share_at (payer_of self.now) memory.now map.now) block.0 block.1.0 address) }
        ensures none { IfNone result
            (NoneHolds (share_at (payer_of self.now) memory.now map.now) address) }
    {
        let (start, ds, tag) = map.heap_region(address)?;
        if !self.owns(memory, ds, tag) {
            return None;
        }
        Some((start, ds))
    }

    // Returns the start address and the dataspace of the block whose payload starts at an address.
    fn block_from(&self, memory: &Memory, map: &RegionMap, address: u64) -> Option<(u64, DsId)>
        requires { IsSound self.now memory.now map.now }
        ensures some { IfSome result (λ block.
            IsBlockAt (share_at (payer_of self.now) memory.now map.now) block.0 block.1.0) }
        ensures start { IfSome result (λ block. address ≡ block.0 + header) }
        ensures none { IfNone result
            (get (blocks_at (payer_of self.now) memory.now map.now) address ≡ None) }
    {
        let start = address.checked_sub(SLICED_HEADER)?;
        let (first, ds) = self.block_at(memory, map, start)?;
        if first != start {
            return None;
        }
        Some((start, ds))
    }

    // Frees the block whose region starts at an address.
    fn give_back(&mut self, memory: &mut Memory, map: &mut RegionMap, start: u64, ds: DsId)
        requires sound { IsSound self.old memory.old map.old }
        requires block { IsBlockAt (share_at (payer_of self.old) memory.old map.old) start ds.0 }
        ensures given { GivesBlock (payer_of self.old)
            (start + header) memory.old memory.new map.old map.new }
        ensures keeps { Keeps self.old self.new memory.old memory.new map.old map.new }
    {
        self.first = take_out(memory, self.account, self.first, ds);
        map.detach_heap(start);
        memory.free(ds);
    }

    // Tests whether a heap region is a block of this heap, by the payer of its dataspace and the number stored with the
    // region.
    fn owns(&self, memory: &Memory, ds: DsId, tag: u64) -> bool
        requires { Exists memory.now ds.0 }
        ensures { result
            ≡ (tag == sliced_tag && (space_at memory.now ds.0).payer == payer_of self.now) }
    {
        tag == SLICED && memory.payer(ds) == self.account
    }

    // Attaches a dataspace as the first block, and returns the address of its payload.
    fn enter(&mut self, memory: &mut Memory, map: &mut RegionMap, ds: DsId, pages: u64) -> u64
        requires sound { IsSound self.old memory.old map.old }
        requires small { ds.0 + 1 < 2 ^ 64 }
        requires can { CanEnter (payer_of self.old) ds.0 pages memory.old map.old }
        ensures enters { Enters
            (payer_of self.old) ds.0 pages result memory.old memory.new map.old map.new }
        ensures keeps { Keeps self.old self.new memory.old memory.new map.old map.new }
    {
        let start = map.attach_block(ds, pages, SLICED);
        self.first = put_first(memory, self.account, self.first, ds, start);
        start + SLICED_HEADER
    }
}

// Returns `bytes` plus the size of a header, or `None` if `bytes` is 0 or the sum exceeds 64 bits.
fn with_header(bytes: u64) -> Option<u64>
    ensures some { IfSome result (λ size. (size ≡ header + bytes) × (0 < bytes)) }
    ensures none { IfNone result (sliced_refusal bytes (opened 0 0) ≡ Some InvalidSize) }
{
    if bytes == 0 {
        None
    } else {
        bytes.checked_add(SLICED_HEADER)
    }
}
