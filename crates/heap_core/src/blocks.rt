//! The blocks in a heap's chunks: best fit over the words in the memory. Loads are counted, and no caller sees the count.
//! The caller passes a blank for a ledger that belongs to this call.
ghost use Rattle.std.specs.Prelude.{◌≡◌, ◌+◌, ◌-◌, ◌^◌, ◌<◌, ◌≤◌, length};
ghost use Rattle.std.specs.Option.{option_map};
ghost use Rattle.own_model.specs.BestFit.{chunk_of, payload_at};
ghost use Rattle.avl_alloc.specs.Found.{used_block};
ghost use Rattle.avl_alloc.specs.Layout.{heap_of, sizes_of};
ghost use Rattle.heap_core.specs.Blocks.{StandAt, KeepsAround, IsChunkSize, IsBlankOf, Takes, Adds, Gives};
ghost use Rattle.heap_core.specs.Words.{keys_of, around, bytes_around, words_of};

use crate::words::{Chunk, Words};
use avl_alloc::{BestFit, BlockAddr, UsedBlock};
use dataspace_core::Memory;
use std::sync::ledger::{Blank, Ledger};

/// Adds a chunk, the last of `chunks`, as one free block.
pub fn add<L: Ledger>(
    fit: &mut BestFit,
    memory: &mut Memory,
    chunks: &[Chunk],
    bytes: u64,
    blank: Blank,
)
    requires stand { StandAt fit.old (keys_of chunks.now) memory.old }
    requires last { length (sizes_of fit.old) + 1 ≡ length chunks.now }
    requires few { length chunks.now ≤ 64 }
    requires size { IsChunkSize bytes }
    requires there { bytes
        ≤ bytes_around (around (keys_of chunks.now) memory.old) (length chunks.now - 1) }
    requires blank { IsBlankOf blank.name blank.parts L.name L.parts }
    ensures adds { Adds bytes fit.old fit.new (words_of (keys_of chunks.now) memory.old)
        (words_of (keys_of chunks.now) memory.new) }
    ensures around { KeepsAround (keys_of chunks.now) memory.old memory.new }
{
    let mut words = Words::<L>::over(memory, chunks, blank);
    fit.add_chunk(&mut words, chunks.len() - 1, bytes);
}

/// Allocates a block in the best-fitting free block for `bytes` bytes, or returns `None` if no free block is large
/// enough.
pub fn take<L: Ledger>(
    fit: &mut BestFit,
    memory: &mut Memory,
    chunks: &[Chunk],
    bytes: u64,
    blank: Blank,
) -> Option<BlockAddr>
    requires stand { StandAt fit.old (keys_of chunks.now) memory.old }
    requires few { bytes < 65536 }
    requires blank { IsBlankOf blank.name blank.parts L.name L.parts }
    ensures takes { Takes bytes result fit.old fit.new (words_of (keys_of chunks.now) memory.old)
        (words_of (keys_of chunks.now) memory.new) }
    ensures around { KeepsAround (keys_of chunks.now) memory.old memory.new }
{
    let mut words = Words::<L>::over(memory, chunks, blank);
    fit.alloc(&mut words, bytes)
}

/// Frees the used block that starts at an address and returns its size in bytes, or returns `None` if no used block
/// starts there.
pub fn give<L: Ledger>(
    fit: &mut BestFit,
    memory: &mut Memory,
    chunks: &[Chunk],
    block: BlockAddr,
    blank: Blank,
) -> Option<u64>
    requires stand { StandAt fit.old (keys_of chunks.now) memory.old }
    requires blank { IsBlankOf blank.name blank.parts L.name L.parts }
    ensures gives { Gives block result fit.old fit.new (words_of (keys_of chunks.now) memory.old)
        (words_of (keys_of chunks.now) memory.new) }
    ensures around { KeepsAround (keys_of chunks.now) memory.old memory.new }
{
    let mut words = Words::<L>::over(memory, chunks, blank);
    fit.free(&mut words, block)
}

/// Returns the used block whose payload contains an address, or `None` if no payload does.
pub fn look<L: Ledger>(
    fit: &BestFit,
    memory: &mut Memory,
    chunks: &[Chunk],
    addr: BlockAddr,
    blank: Blank,
) -> Option<UsedBlock>
    requires stand { StandAt fit.now (keys_of chunks.now) memory.old }
    requires blank { IsBlankOf blank.name blank.parts L.name L.parts }
    ensures block { let blocks = chunk_of
        (heap_of fit.now (words_of (keys_of chunks.now) memory.old)) addr.chunk in
        result ≡ option_map (used_block addr.chunk) (payload_at 0 addr.offset blocks) }
    ensures words { words_of (keys_of chunks.now) memory.new
        ≡ words_of (keys_of chunks.now) memory.old }
    ensures around { KeepsAround (keys_of chunks.now) memory.old memory.new }
{
    let mut words = Words::<L>::over(memory, chunks, blank);
    fit.block_at(&mut words, addr)
}
