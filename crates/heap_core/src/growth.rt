//! How a heap grows: by one chunk, as large as the account covers.
ghost use Rattle.std.specs.Prelude.{◌≡◌, ◌<◌, length, OnOk, OnErr};
ghost use Rattle.std.specs.Result.{result_err};
ghost use Rattle.trade_base.specs.Page.{page_of};
ghost use Rattle.own_model.specs.Account.{shortage};
ghost use Rattle.own_model.specs.Growth.{growth_refusal};
ghost use Rattle.dataspace_core.specs.Store.{account_in};
ghost use Rattle.heap_core.specs.Calls.{part_at, growth_at, Grows, IsGrowth, Keeps, Unchanged};
ghost use Rattle.heap_core.specs.Heap.{payer_of, shape_in, IsSound};

use crate::blocks::add;
use crate::heap::Heap;
use crate::words::Chunk;
use avl_alloc::block_bytes;
use dataspace_core::Memory;
use region_map::RegionMap;
use std::marker::Brand;
use std::sync::ledger::Blank;
use trade_base::{PAGE, Refusal};

/// The maximum of the growth number, in pages.
const MOST_GROWTH: u64 = 64;

impl Heap {
    // Adds a chunk with space for a block of `bytes` bytes. Its size is the growth number in pages, which then doubles,
    // or the block's pages if the account does not cover this.
    //
    // Refuses with `TooManyChunks` if the heap has 64 chunks, then with `OutOfRam` or `OutOfCaps` if the account does not
    // cover the block's pages.
    pub(crate) fn grow(
        &mut self,
        memory: &mut Memory,
        map: &mut RegionMap,
        bytes: u64,
    ) -> Result<(), Refusal>
        requires sound { IsSound self.old memory.old map.old }
        requires small { bytes < 65536 }
        ensures refusal { result_err result ≡
            growth_refusal bytes (shape_in self.old (part_at self.old memory.old))
            (account_in memory.old (payer_of self.old)) }
        ensures grows { OnOk result (
            Grows self.old self.new
            (growth_at bytes self.old memory.old) memory.old memory.new map.old map.new) }
        ensures keeps { Keeps self.old self.new memory.old memory.new map.old map.new }
        ensures err { Unchanged (OnErr result)
            self.old self.new memory.old memory.new map.old map.new }
    {
        if self.chunks.is_full() {
            return Err(Refusal::TooManyChunks);
        }
        let least = block_bytes(bytes);
        let larger = least.max(self.growth * PAGE);
        let next = (2 * self.growth).min(MOST_GROWTH);
        match self.add_chunk(memory, map, larger, next) {
            Ok(()) => Ok(()),
            Err(_) => self.add_chunk(memory, map, least, self.growth),
        }
    }

    // Allocates a dataspace of `bytes` bytes, rounded up to whole pages, as the last chunk, and sets the growth number to
    // `next`.
    fn add_chunk(
        &mut self,
        memory: &mut Memory,
        map: &mut RegionMap,
        bytes: u64,
        next: u64,
    ) -> Result<(), Refusal>
        requires sound { IsSound self.old memory.old map.old }
        requires room { length self.old.chunks.items < 64 }
        requires growth { IsGrowth bytes next }
        ensures refusal { result_err result
            ≡ shortage (account_in memory.old (payer_of self.old)) (page_of bytes) 1 }
        ensures grows { OnOk result (
            Grows self.old self.new (record { bytes = page_of bytes; next = next })
            memory.old memory.new map.old map.new) }
        ensures keeps { Keeps self.old self.new memory.old memory.new map.old map.new }
        ensures err { Unchanged (OnErr result)
            self.old self.new memory.old memory.new map.old map.new }
    {
        let ds = memory.alloc(self.account, bytes)?;
        let pages = memory.size(ds) / PAGE;
        let start = map.attach_block(ds, pages, self.chunks.len() as u64);
        self.chunks.push(Chunk { ds, start });
        self.growth = next;
        add::<Brand>(
            &mut self.fit,
            memory,
            &self.chunks,
            pages * PAGE,
            Blank::new(1),
        );
        Ok(())
    }
}
