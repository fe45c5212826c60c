//! Best fit over words of memory: chunks of blocks, and a balanced tree of the free blocks. `heap_core` builds a component's heap on
//! it.
//!
//! A block begins with a header of 16 bytes. Only headers that are reached from the chunk's first byte are read. The links of a free
//! block are in its own bytes. Example: after `fit.add_chunk(memory, 0, 4096)`, `fit.alloc(memory, 100)` returns the block at
//! offset 0.
#![tactic(auto)]

mod best_fit;
mod chunk;
mod free_blocks;
mod memory;
mod theorems;

pub use best_fit::{BestFit, BlockAddr, MOST_CHUNKS, UsedBlock, block_bytes};
pub use chunk::{Block, STATE, Step, USED};
pub use memory::{HIGH, LEFT, RIGHT, WordMemory};
pub use theorems::{
    best_hole_is_found, blocks_lie_apart, chunks_have_sizes, heap_stays, holes_are_joined,
    payloads_are_free,
};
