//! The words under the heap, denoted by their places.
ghost use Rattle.std.specs.Prelude.{◌≡◌, ℕ, ◌+◌, ◌%◌, ◌<◌, ◌≤◌, List};
ghost use Rattle.own_model.specs.Heap.{Block as ModelBlock, bytes_in};
ghost use Rattle.avl_alloc.specs.Words.{IsWord, IsPlace, IsNode, place_at, with_word};
ghost use Rattle.avl_alloc.specs.FreeBlocks.{links_at, with_links};
ghost use Rattle.avl_alloc.specs.Layout.{Laid, IsRoom};
ghost use Rattle.avl_alloc.specs.Walk.{block_over, walk_loads};

use super::chunk::{Block, STATE, Step, USED};
use avl_tree::Links;

/// The offset of the left child in a free block, in bytes.
pub const LEFT: u64 = 16;

/// The offset of the right child in a free block, in bytes.
pub const RIGHT: u64 = 24;

/// The offset of the subtree's height in a free block, in bytes.
pub const HIGH: u64 = 32;

/// Words of eight bytes at the multiples of 8 of numbered chunks.
///
/// Contracts see a memory as its `word`s by their places (`place_at` of a chunk and an offset). They also see the `rest`,
/// which is all its other content, and the number of loads so far.
pub trait WordMemory {
    /// The content other than the words. No load and no store changes it.
    ghost Rest: { Type 0 };

    ghost rest: { Self → Rest };

    /// The number of bytes of each chunk that are words, or 0 if there is no such chunk.
    ghost bytes: { Rest → ℕ → ℕ };

    /// The word at each place.
    ghost word: { Self → ℕ → ℕ };

    /// The number of words loaded so far.
    ghost loads: { Self → ℕ };

    /// The word at an offset of a chunk.
    fn load(&mut self, chunk: usize, offset: u64) -> u64
        requires { IsWord (bytes (rest self.old)) chunk offset }
        ensures value { result ≡ word self.old (place_at chunk offset) }
        ensures words { word self.new ≡ word self.old }
        ensures rest { rest self.new ≡ rest self.old }
        ensures loads { loads self.new ≡ loads self.old + 1 };

    /// Stores a word at an offset of a chunk. No other word changes.
    fn store(&mut self, chunk: usize, offset: u64, value: u64)
        requires { IsWord (bytes (rest self.old)) chunk offset }
        ensures words { word self.new ≡ with_word (word self.old) (place_at chunk offset) value }
        ensures rest { rest self.new ≡ rest self.old }
        ensures loads { loads self.new ≡ loads self.old };

    /// Loads the links and the height of the free block at an offset of a chunk.
    fn load_links(&mut self, chunk: usize, offset: u64) -> Links
        requires even { offset % 16 ≡ 0 }
        requires node { IsWord (bytes (rest self.old)) chunk (offset + 32) }
        ensures links { result ≡ links_at (word self.old) (place_at chunk offset) }
        ensures words { word self.new ≡ word self.old }
        ensures rest { rest self.new ≡ rest self.old }
        ensures loads { loads self.new ≡ loads self.old + 3 }
    {
        let left = self.load(chunk, offset + LEFT);
        let right = self.load(chunk, offset + RIGHT);
        let high = self.load(chunk, offset + HIGH);
        Links { left, right, high }
    }

    /// Stores the links and the height of the free block at an offset of a chunk. No other word changes.
    fn store_links(&mut self, chunk: usize, offset: u64, links: Links)
        requires even { offset % 16 ≡ 0 }
        requires node { IsWord (bytes (rest self.old)) chunk (offset + 32) }
        ensures words { word self.new ≡ with_links (word self.old) (place_at chunk offset) links }
        ensures rest { rest self.new ≡ rest self.old }
        ensures loads { loads self.new ≡ loads self.old }
    {
        self.store(chunk, offset + LEFT, links.left);
        self.store(chunk, offset + RIGHT, links.right);
        self.store(chunk, offset + HIGH, links.high);
    }

    /// Returns the block that contains an offset of a chunk, found by a walk over the headers from the chunk's first byte.
    /// It loads the size of each block on the way, and the states of the last two: m + 2 words for the m-th block, of the
    /// first one 2.
    fn walk(&mut self, chunk: usize, target: u64) -> Block
        requires { (blocks : List ModelBlock) × Laid (word self.old) (place_at chunk 0) blocks ×
            IsRoom (bytes (rest self.old)) (place_at chunk 0) (bytes_in blocks) ×
            (target < bytes_in blocks) }
        ensures reached { result.offset ≤ target }
        ensures found { (blocks : List ModelBlock)
            → Laid (word self.old) (place_at chunk 0) blocks → target < bytes_in blocks
            → result ≡ block_over 0 0 target blocks }
        ensures words { word self.new ≡ word self.old }
        ensures rest { rest self.new ≡ rest self.old }
        ensures loads { (blocks : List ModelBlock)
            → Laid (word self.old) (place_at chunk 0) blocks → target < bytes_in blocks
            → loads self.new ≡ loads self.old + walk_loads target blocks }
    {
        let mut step = Step {
            before: 0,
            offset: 0,
            next: self.load(chunk, 0),
        };
        'steps: while step.next <= target {
            step = Step {
                before: step.offset,
                offset: step.next,
                next: step.next + self.load(chunk, step.next),
            };
        }
        let size = step.next - step.offset;
        let used = self.load(chunk, step.offset + STATE) == USED;
        if step.before == step.offset {
            return Block {
                offset: step.offset,
                size,
                used,
                before: 0,
            };
        }
        let behind = self.load(chunk, step.before + STATE) == USED;
        let before = if behind { 0 } else { step.offset - step.before };
        Block {
            offset: step.offset,
            size,
            used,
            before,
        }
    }
}

/// The distance between the places of two consecutive chunks, and the maximum size of a chunk in bytes.
pub const SPAN: u64 = 0x1_0000_0000;

/// Returns the place of a chunk's first byte. A place is never 0.
pub fn place_of(chunk: usize) -> u64
    requires { chunk < 64 }
    ensures { result ≡ place_at chunk 0 }
{
    (chunk as u64 + 1) * SPAN
}

/// Loads the word at a place of the memory.
pub fn load<M: WordMemory>(memory: &mut M, place: u64) -> u64
    requires { IsPlace (M.bytes (M.rest memory.old)) place }
    ensures value { result ≡ M.word memory.old place }
    ensures words { M.word memory.new ≡ M.word memory.old }
    ensures rest { M.rest memory.new ≡ M.rest memory.old }
    ensures loads { M.loads memory.new ≡ M.loads memory.old + 1 }
{
    memory.load((place / SPAN - 1) as usize, place % SPAN)
}

/// Loads the word of a free block's node at the offset `field`. After inlining, the compiler knows that all words of a
/// node lie in one chunk, and those of the same 16 bytes in one page.
pub fn load_of<M: WordMemory>(memory: &mut M, node: u64, field: u64) -> u64
    requires node { IsNode (M.bytes (M.rest memory.old)) node }
    requires aligned { field % 8 ≡ 0 }
    requires within { field ≤ 40 }
    ensures value { result ≡ M.word memory.old (node + field) }
    ensures words { M.word memory.new ≡ M.word memory.old }
    ensures rest { M.rest memory.new ≡ M.rest memory.old }
    ensures loads { M.loads memory.new ≡ M.loads memory.old + 1 }
{
    memory.load((node / SPAN - 1) as usize, node % SPAN / 16 * 16 + field)
}

/// Stores a word at a place of the memory.
pub fn store<M: WordMemory>(memory: &mut M, place: u64, value: u64)
    requires { IsPlace (M.bytes (M.rest memory.old)) place }
    ensures words { M.word memory.new ≡ with_word (M.word memory.old) place value }
    ensures rest { M.rest memory.new ≡ M.rest memory.old }
    ensures loads { M.loads memory.new ≡ M.loads memory.old }
{
    memory.store((place / SPAN - 1) as usize, place % SPAN, value);
}

/// Loads the links and the height of the free block at a place.
pub fn load_links<M: WordMemory>(memory: &mut M, place: u64) -> Links
    requires { IsNode (M.bytes (M.rest memory.old)) place }
    ensures links { result ≡ links_at (M.word memory.old) place }
    ensures words { M.word memory.new ≡ M.word memory.old }
    ensures rest { M.rest memory.new ≡ M.rest memory.old }
    ensures loads { M.loads memory.new ≡ M.loads memory.old + 3 }
{
    memory.load_links((place / SPAN - 1) as usize, place % SPAN)
}

/// Stores the links and the height of the free block at a place.
pub fn store_links<M: WordMemory>(memory: &mut M, place: u64, links: Links)
    requires { IsNode (M.bytes (M.rest memory.old)) place }
    ensures words { M.word memory.new ≡ with_links (M.word memory.old) place links }
    ensures rest { M.rest memory.new ≡ M.rest memory.old }
    ensures loads { M.loads memory.new ≡ M.loads memory.old }
{
    memory.store_links((place / SPAN - 1) as usize, place % SPAN, links);
}
