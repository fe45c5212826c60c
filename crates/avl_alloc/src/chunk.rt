//! The blocks of a chunk, read and written by their headers.
ghost use Rattle.std.specs.Prelude.{◌≡◌, ◌+◌, ◌≤◌, ◌==◌, if◌then◌else◌};
ghost use Rattle.avl_alloc.specs.Words.{IsNode, with_word};

use super::memory::{WordMemory, load, load_of, store};

/// The offset in a header of the word that has the block's state.
pub const STATE: u64 = 8;

/// The state of a free block.
pub const HOLE: u64 = 0;

/// The state of a used block.
pub const USED: u64 = 1;

/// A block of a chunk, used or free.
#[derive(Clone, Copy)]
pub struct Block {
    /// The offset of the block's first byte in the chunk.
    pub offset: u64,
    /// The size of the block in bytes, with its header.
    pub size: u64,
    /// Whether the block is used.
    pub used: bool,
    /// The size of the free block directly before this block, or 0 if there is none.
    pub before: u64,
}

/// A block that a walk over the headers of a chunk has reached.
#[derive(Clone, Copy)]
pub struct Step {
    /// The offset of the block directly before this block, or this block's own offset if it is the first one.
    pub before: u64,
    /// The offset of the block's first byte in the chunk.
    pub offset: u64,
    /// The offset of the byte directly after the block.
    pub next: u64,
}

/// Stores the header of a block: its size in bytes, and its state.
pub fn set_header<M: WordMemory>(memory: &mut M, place: u64, size: u64, state: u64)
    requires { IsNode (M.bytes (M.rest memory.old)) place }
    ensures words { M.word memory.new ≡ with_word (with_word (M.word memory.old) place size)
        (place + 8) state }
    ensures rest { M.rest memory.new ≡ M.rest memory.old }
    ensures loads { M.loads memory.new ≡ M.loads memory.old }
{
    store(memory, place, size);
    store(memory, place + STATE, state);
}

/// Stores the state of the block at a place.
pub fn set_state<M: WordMemory>(memory: &mut M, place: u64, state: u64)
    requires { IsNode (M.bytes (M.rest memory.old)) place }
    ensures words { M.word memory.new ≡ with_word (M.word memory.old) (place + 8) state }
    ensures rest { M.rest memory.new ≡ M.rest memory.old }
    ensures loads { M.loads memory.new ≡ M.loads memory.old }
{
    store(memory, place + STATE, state);
}

/// Returns the size of the free block at a place, or 0 if the block there is used.
pub fn hole_at<M: WordMemory>(memory: &mut M, place: u64) -> u64
    requires { IsNode (M.bytes (M.rest memory.old)) place }
    ensures size { result
        ≡ (if M.word memory.old (place + 8) == 0 then M.word memory.old place else 0) }
    ensures words { M.word memory.new ≡ M.word memory.old }
    ensures rest { M.rest memory.new ≡ M.rest memory.old }
    ensures loads { M.loads memory.new ≤ M.loads memory.old + 2 }
{
    if load_of(memory, place, STATE) == HOLE {
        load(memory, place)
    } else {
        0
    }
}
