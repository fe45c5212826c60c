//! The words of a heap's chunks, as the tree of free blocks uses them.
ghost use Rattle.std.specs.Prelude.{◌≡◌, ℕ, ◌+◌, ◌<◌};
ghost use Rattle.avl_alloc.specs.Words.{IsWord, place_at, with_word};
ghost use Rattle.heap_core.specs.Blocks.{IsBlankOf};

use crate::links::{load_links, store_links};
use crate::loads::Loads;
use crate::walk::walk;
use avl_alloc::{Block, WordMemory};
use avl_tree::Links;
use dataspace_core::Memory;
use std::sync::ledger::{Blank, Ledger};
use trade_base::DsId;

/// A chunk: its dataspace, and the start address of its region.
#[derive(Clone, Copy)]
pub struct Chunk {
    /// The chunk's dataspace.
    pub ds: DsId,
    /// The start address of the chunk's region.
    pub start: u64,
}

impl Default for Chunk {
    fn default() -> Chunk {
        Chunk {
            ds: DsId(0),
            start: 0,
        }
    }
}

/// The words of a heap's chunks in a memory, with a count of the loads.
pub struct Words<'a, L: Ledger> {
    pub memory: &'a mut Memory,
    pub chunks: &'a [Chunk],
    pub loads: Loads<L>,
}

impl<'a, L: Ledger> Words<'a, L> {
    /// Borrows the memory and the chunks, with a load count of 0.
    pub fn over(memory: &'a mut Memory, chunks: &'a [Chunk], blank: Blank) -> Words<'a, L>
        requires { IsBlankOf blank.name blank.parts L.name L.parts }
        ensures memory { result.memory.now ≡ memory.old }
        ensures same_reference { result.memory.ghost_name ≡ memory.entry.ghost_name }
        ensures chunks { result.chunks.now ≡ chunks.now }
        ensures loads { result.loads ≡ 0 }
    {
        Words {
            memory,
            chunks,
            loads: Loads::new(blank),
        }
    }
}

impl<L: Ledger> Drop for Words<'_, L> {
    // The memory is returned as it is.
    fn drop(self)
        ensures { self.exit.0.now ≡ self.entry.memory.now }
    {
        let Words {
            memory: _memory,
            chunks: _chunks,
            loads: _loads,
        } = self;
    }
}

impl<L: Ledger> WordMemory for Words<'_, L> {
    ghost use Rattle.std.specs.Borrow.{GName};
    ghost use Rattle.heap_core.specs.Words.{Around, around, bytes_around, word_in, bytes_in_store, keys_of};

    ghost Rest = { Around × GName };

    ghost rest = { λ w. (around (keys_of w.chunks.now) w.memory.now, w.memory.ghost_name) };

    ghost bytes = { λ r. bytes_around r.0 };

    ghost word = { λ w. word_in (keys_of w.chunks.now) (bytes_in_store w.memory.now) };

    ghost loads = { λ w. w.loads };

    fn load(&mut self, chunk: usize, offset: u64) -> u64 {
        let chunks = self.chunks;
        let word = self.memory.load_word(chunks[chunk].ds, offset);
        self.loads.tick();
        word
    }

    fn store(&mut self, chunk: usize, offset: u64, value: u64) {
        let chunks = self.chunks;
        self.memory.store_word(chunks[chunk].ds, offset, value);
    }

    fn load_links(&mut self, chunk: usize, offset: u64) -> Links {
        let chunks = self.chunks;
        load_links(self.memory, chunks[chunk].ds, offset, &mut self.loads)
    }

    fn store_links(&mut self, chunk: usize, offset: u64, links: Links) {
        let chunks = self.chunks;
        let Links { left, right, high } = links;
        store_links(self.memory, chunks[chunk].ds, offset, left, right, high);
    }

    fn walk(&mut self, chunk: usize, target: u64) -> Block {
        let chunks = self.chunks;
        walk(self.memory, chunks[chunk].ds, target, &mut self.loads)
    }
}
