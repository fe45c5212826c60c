//! Best fit over the chunks of one heap.
ghost use Rattle.std.specs.Prelude.{◌≡◌, ℕ, ◌+◌, ◌-◌, ◌*◌, ◌^◌, ◌<◌, ◌≤◌, List, [], ◌∷◌, ◌++◌, length, IfNone, IfSome, OnSome};
ghost use Rattle.std.specs.Option.{option_map};
ghost use Rattle.own_model.specs.Heap.{Block as ModelBlock, Used, Hole, bytes_in, IsBlockSize};
ghost use Rattle.own_model.specs.BestFit.{block_size, best_hole, holes_of, chunk_of, cut, taken, used_at, given, payload_at, binary_digits};
ghost use Rattle.avl_alloc.specs.FreeBlocks.{Fits};
ghost use Rattle.avl_alloc.specs.Layout.{heap_of, sizes_of, bytes_of, hole_count, IsSound, ChangesHoles};
ghost use Rattle.avl_alloc.specs.Context.{Context, heap_with, Stand, StandSomewhere, StandUsed, Turn, Turns, LoadsFew, gap, filled, first_hole};
ghost use Rattle.avl_alloc.specs.Walk.{block_there};
ghost use Rattle.avl_alloc.specs.Found.{used_block, block_addr};

use super::chunk::{Block, HOLE, USED, hole_at, set_header, set_state};
use super::free_blocks::{FreeBlockKey, FreeBlocks};
use super::memory::{SPAN, WordMemory, load, place_of};
use avl_tree::{find, insert, remove};
use trade_base::{BLOCK_HEADER, LEAST_BLOCK};

/// The maximum number of chunks of a heap.
pub const MOST_CHUNKS: usize = 64;

/// The address of a block. The payload is 16 bytes after it.
#[derive(Clone, Copy, PartialEq, Eq)]
pub struct BlockAddr {
    /// The number of the block's chunk.
    pub chunk: usize,
    /// The offset of the block's first byte in the chunk.
    pub offset: u64,
}

/// A used block of a heap, by its chunk, offset and size.
#[derive(Clone, Copy, PartialEq, Eq)]
pub struct UsedBlock {
    /// The number of the block's chunk.
    pub chunk: usize,
    /// The offset of the block's first byte in the chunk. The payload is 16 bytes after it.
    pub offset: u64,
    /// The size of the block in bytes, with its header.
    pub size: u64,
}

/// The chunks of a heap, and the tree of its free blocks. Headers and links are stored in the words of a `WordMemory`,
/// which must be the same one in all calls.
#[derive(Drop)]
pub struct BestFit {
    /// The tree's root, or 0 if there is no free block.
    root: u64,
    /// The number of chunks.
    count: usize,
    /// The size of each chunk, in bytes.
    sizes: [u64; MOST_CHUNKS],
}

impl BestFit {
    /// Creates a heap that has no chunk and no block.
    pub fn new() -> BestFit
        ensures empty { (words : ℕ → ℕ) → heap_of result words ≡ [] }
        ensures sound { (words : ℕ → ℕ) → IsSound result words }
        ensures sizes { sizes_of result ≡ [] }
    {
        BestFit {
            root: 0,
            count: 0,
            sizes: [0; MOST_CHUNKS],
        }
    }

    /// Returns the size of a chunk, in bytes.
    pub fn chunk_size(&self, chunk: usize) -> u64
        requires { chunk < length (sizes_of self.now) }
        ensures { result ≡ bytes_of self.now chunk }
    {
        self.sizes[chunk]
    }

    /// Adds a chunk after the others, as one free block. `memory` already has its words. The chunk is first written as
    /// one used block, which is then freed.
    pub fn add_chunk<M: WordMemory>(&mut self, memory: &mut M, ordinal: usize, bytes: u64)
        requires sound { IsSound self.old (M.word memory.old) }
        requires fits { Fits (bytes_of self.old) (M.bytes (M.rest memory.old)) }
        requires next { ordinal ≡ length (heap_of self.old (M.word memory.old)) }
        requires few { ordinal < 64 }
        requires size { IsBlockSize bytes }
        requires short { bytes ≤ 2 ^ 32 }
        requires there { bytes ≤ M.bytes (M.rest memory.old) ordinal }
        ensures heap { let old = heap_of self.old (M.word memory.old) in
            heap_of self.new (M.word memory.new) ≡ old ++ (Hole bytes ∷ []) ∷ [] }
        ensures sound { IsSound self.new (M.word memory.new) }
        ensures sizes { sizes_of self.new ≡ sizes_of self.old ++ bytes ∷ [] }
        ensures others { let new = heap_of self.new (M.word memory.new) in
            ChangesHoles (M.word memory.old) (M.word memory.new) new }
        ensures rest { M.rest memory.new ≡ M.rest memory.old }
        ensures loads { let holes = hole_count (heap_of self.old (M.word memory.old)) in
            M.loads memory.new ≤ M.loads memory.old + 256 * (binary_digits holes + 2) }
    {
        let place = place_of(ordinal);
        set_header(memory, place, bytes, USED);
        self.sizes[ordinal] = bytes;
        self.count = ordinal + 1;
        self.put_in(memory, place, bytes);
    }

    /// Allocates a block in the best-fitting free block for `bytes` bytes of payload, or returns `None` if no free block
    /// is large enough. The remainder stays a free block, unless it is below the minimum block size of 48 bytes.
    pub fn alloc<M: WordMemory>(&mut self, memory: &mut M, bytes: u64) -> Option<BlockAddr>
        requires sound { IsSound self.old (M.word memory.old) }
        requires fits { Fits (bytes_of self.old) (M.bytes (M.rest memory.old)) }
        requires few { bytes < 65536 }
        ensures best { let old = heap_of self.old (M.word memory.old) in
            result ≡ option_map block_addr (best_hole (block_size bytes) (holes_of old)) }
        ensures heap { let old = heap_of self.old (M.word memory.old) in
            heap_of self.new (M.word memory.new) ≡ taken bytes old }
        ensures sound { IsSound self.new (M.word memory.new) }
        ensures sizes { sizes_of self.new ≡ sizes_of self.old }
        ensures others { let old = heap_of self.old (M.word memory.old) in
            ChangesHoles (M.word memory.old) (M.word memory.new) old }
        ensures refused { IfNone result (M.word memory.new ≡ M.word memory.old) }
        ensures unchanged { IfNone result (self.new ≡ self.old) }
        ensures rest { M.rest memory.new ≡ M.rest memory.old }
        ensures loads { let holes = hole_count (heap_of self.old (M.word memory.old)) in
            M.loads memory.new ≤ M.loads memory.old + 256 * (binary_digits holes + 2) }
    {
        let size = block_bytes(bytes);
        let key = FreeBlockKey { size, place: 0 };
        let place = find(&FreeBlocks::<M>::new(), memory, self.root, key);
        if place == 0 {
            return None;
        }
        self.take(memory, place, size);
        Some(BlockAddr {
            chunk: (place / SPAN - 1) as usize,
            offset: place % SPAN,
        })
    }

    /// Frees the used block that starts at an address and returns its size in bytes, or returns `None` if no used block
    /// starts there. The new free block is merged with the free blocks directly before and after it.
    pub fn free<M: WordMemory>(&mut self, memory: &mut M, addr: BlockAddr) -> Option<u64>
        requires sound { IsSound self.old (M.word memory.old) }
        requires fits { Fits (bytes_of self.old) (M.bytes (M.rest memory.old)) }
        ensures block { let blocks = chunk_of (heap_of self.old (M.word memory.old)) addr.chunk in
            result ≡ used_at addr.offset blocks }
        ensures heap { let old = heap_of self.old (M.word memory.old) in
            OnSome result
            (heap_of self.new (M.word memory.new) ≡ given addr.chunk addr.offset old) }
        ensures sound { IsSound self.new (M.word memory.new) }
        ensures sizes { sizes_of self.new ≡ sizes_of self.old }
        ensures others { let new = heap_of self.new (M.word memory.new) in
            ChangesHoles (M.word memory.old) (M.word memory.new) new }
        ensures refused { IfNone result (M.word memory.new ≡ M.word memory.old) }
        ensures unchanged { IfNone result (self.new ≡ self.old) }
        ensures rest { M.rest memory.new ≡ M.rest memory.old }
        ensures loads { let old = heap_of self.old (M.word memory.old) in
            M.loads memory.new ≤ M.loads memory.old + 256 * (binary_digits (hole_count old) + 2)
            + 4 * length (chunk_of old addr.chunk) }
    {
        let block = self.reach(memory, addr)?;
        if !block.used || block.offset != addr.offset {
            return None;
        }
        let start = place_of(addr.chunk);
        let place = start + addr.offset;
        let behind = self.hole_behind(memory, place + block.size, start + self.sizes[addr.chunk]);
        self.give_back(
            memory,
            place - block.before,
            block.before,
            block.size,
            behind,
        );
        Some(block.size)
    }

    /// Returns the used block whose payload contains an address, or `None` if no payload does. It trusts only the headers
    /// that it reaches from the chunk's first byte.
    pub fn block_at<M: WordMemory>(&self, memory: &mut M, addr: BlockAddr) -> Option<UsedBlock>
        requires sound { IsSound self.now (M.word memory.old) }
        requires fits { Fits (bytes_of self.now) (M.bytes (M.rest memory.old)) }
        ensures block { let blocks = chunk_of (heap_of self.now (M.word memory.old)) addr.chunk in
            result ≡ option_map (used_block addr.chunk) (payload_at 0 addr.offset blocks) }
        ensures words { M.word memory.new ≡ M.word memory.old }
        ensures rest { M.rest memory.new ≡ M.rest memory.old }
        ensures loads { let blocks = chunk_of (heap_of self.now (M.word memory.old)) addr.chunk in
            M.loads memory.new ≤ M.loads memory.old + 2 * length blocks }
    {
        let block = self.reach(memory, addr)?;
        if block.used && BLOCK_HEADER <= addr.offset - block.offset {
            Some(UsedBlock {
                chunk: addr.chunk,
                offset: block.offset,
                size: block.size,
            })
        } else {
            None
        }
    }

    /// Returns the block that contains an address, found by a walk from the chunk's first byte, or `None` if the address
    /// is in no chunk.
    fn reach<M: WordMemory>(&self, memory: &mut M, addr: BlockAddr) -> Option<Block>
        requires sound { IsSound self.now (M.word memory.old) }
        requires fits { Fits (bytes_of self.now) (M.bytes (M.rest memory.old)) }
        ensures found { let blocks = chunk_of (heap_of self.now (M.word memory.old)) addr.chunk in
            result ≡ block_there addr.offset blocks }
        ensures reached { IfSome result (λ block. block.offset ≤ addr.offset) }
        ensures words { M.word memory.new ≡ M.word memory.old }
        ensures rest { M.rest memory.new ≡ M.rest memory.old }
        ensures loads { let blocks = chunk_of (heap_of self.now (M.word memory.old)) addr.chunk in
            M.loads memory.new ≤ M.loads memory.old + 2 * length blocks }
    {
        if addr.chunk >= self.count {
            return None;
        }
        if addr.offset >= self.sizes[addr.chunk] {
            return None;
        }
        Some(memory.walk(addr.chunk, addr.offset))
    }

    /// Allocates `size` bytes of the free block at a place. The remainder stays a free block, unless it is below the
    /// minimum block size.
    fn take<M: WordMemory>(&mut self, memory: &mut M, place: u64, size: u64)
        requires stand { (at : Context) × (n : ℕ) ×
            Stand self.old (M.word memory.old) at place (Hole n ∷ []) × (size ≤ n) }
        requires size { IsBlockSize size }
        requires fits { Fits (bytes_of self.old) (M.bytes (M.rest memory.old)) }
        ensures turn { (at : Context) (n : ℕ) →
            Stand self.old (M.word memory.old) at place (Hole n ∷ []) → size ≤ n →
            Turn self.old self.new (M.word memory.old) (M.word memory.new) at place (Hole n ∷ [])
            (cut size n) }
        ensures rest { M.rest memory.new ≡ M.rest memory.old }
        ensures loads { (at : Context) (n b : ℕ) →
            Stand self.old (M.word memory.old) at place (Hole n ∷ []) → size ≤ n →
            hole_count (heap_with at (Hole n ∷ [])) < 2 ^ b →
            M.loads memory.new ≤ M.loads memory.old + 120 * b + 61 }
    {
        let whole = load(memory, place);
        self.take_out(memory, place, whole);
        let left = whole - size;
        if left < LEAST_BLOCK {
            return;
        }
        self.split(memory, place, size, left);
        self.put_in(memory, place + size, left);
    }

    /// Merges a used block with the free blocks of `before` and `behind` bytes directly before and after it into one free
    /// block.
    fn give_back<M: WordMemory>(
        &mut self,
        memory: &mut M,
        place: u64,
        before: u64,
        size: u64,
        behind: u64,
    )
        requires stand { StandSomewhere self.old (M.word memory.old) place
            (gap before ++ Used size ∷ gap behind) }
        requires fits { Fits (bytes_of self.old) (M.bytes (M.rest memory.old)) }
        ensures turn { Turns self.old self.new (M.word memory.old) (M.word memory.new) place
            (gap before ++ Used size ∷ gap behind) (Hole (before + size + behind) ∷ []) }
        ensures rest { M.rest memory.new ≡ M.rest memory.old }
        ensures loads { LoadsFew self.old (M.word memory.old) place
            (gap before ++ Used size ∷ gap behind) 180 90
            (M.loads memory.old) (M.loads memory.new) }
    {
        self.clear(memory, place, before);
        self.clear(memory, place + before + size, behind);
        self.put_in(memory, place, before + size + behind);
    }

    /// Makes the free block of `size` bytes at a place a used block. Does nothing if `size` is 0.
    fn clear<M: WordMemory>(&mut self, memory: &mut M, place: u64, size: u64)
        requires stand { StandSomewhere self.old (M.word memory.old) place (gap size) }
        requires fits { Fits (bytes_of self.old) (M.bytes (M.rest memory.old)) }
        ensures turn { Turns self.old self.new (M.word memory.old) (M.word memory.new) place
            (gap size) (filled size) }
        ensures rest { M.rest memory.new ≡ M.rest memory.old }
        ensures loads { LoadsFew self.old (M.word memory.old) place (gap size)
            60 30 (M.loads memory.old) (M.loads memory.new) }
    {
        if size > 0 {
            self.take_out(memory, place, size);
        }
    }

    /// Removes the free block at a place from the tree and makes it a used block.
    fn take_out<M: WordMemory>(&mut self, memory: &mut M, place: u64, size: u64)
        requires stand { StandSomewhere self.old (M.word memory.old) place (Hole size ∷ []) }
        requires fits { Fits (bytes_of self.old) (M.bytes (M.rest memory.old)) }
        ensures turn { Turns self.old self.new (M.word memory.old) (M.word memory.new) place
            (Hole size ∷ []) (Used size ∷ []) }
        ensures rest { M.rest memory.new ≡ M.rest memory.old }
        ensures loads { LoadsFew self.old (M.word memory.old) place (Hole size ∷ [])
            60 30 (M.loads memory.old) (M.loads memory.new) }
    {
        let key = FreeBlockKey { size, place };
        self.root = remove(&FreeBlocks::<M>::new(), memory, self.root, key);
        set_state(memory, place, USED);
    }

    /// Splits the used block at a place into two used blocks of `size` and `left` bytes.
    fn split<M: WordMemory>(&self, memory: &mut M, place: u64, size: u64, left: u64)
        requires stand { StandSomewhere self.now (M.word memory.old) place
            (Used (size + left) ∷ []) }
        requires size { IsBlockSize size }
        requires left { IsBlockSize left }
        requires fits { Fits (bytes_of self.now) (M.bytes (M.rest memory.old)) }
        ensures turn { Turns self.now self.now (M.word memory.old) (M.word memory.new) place
            (Used (size + left) ∷ []) (Used size ∷ Used left ∷ []) }
        ensures rest { M.rest memory.new ≡ M.rest memory.old }
        ensures loads { M.loads memory.new ≡ M.loads memory.old }
    {
        set_header(memory, place, size, USED);
        set_header(memory, place + size, left, USED);
    }

    /// Makes adjacent used blocks of `size` bytes in all one free block, and inserts it into the tree.
    fn put_in<M: WordMemory>(&mut self, memory: &mut M, place: u64, size: u64)
        requires stand { (at : Context) × (blocks : List ModelBlock) ×
            StandUsed self.old (M.word memory.old) at place blocks size }
        requires fits { Fits (bytes_of self.old) (M.bytes (M.rest memory.old)) }
        ensures turn { (at : Context) (blocks : List ModelBlock) →
            StandUsed self.old (M.word memory.old) at place blocks size →
            Turn self.old self.new (M.word memory.old) (M.word memory.new) at place blocks
            (Hole size ∷ []) }
        ensures rest { M.rest memory.new ≡ M.rest memory.old }
        ensures loads { (at : Context) (blocks : List ModelBlock) (b : ℕ) →
            StandUsed self.old (M.word memory.old) at place blocks size →
            hole_count (heap_with at blocks) < 2 ^ b →
            M.loads memory.new ≤ M.loads memory.old + 60 * b + 30 }
    {
        set_header(memory, place, size, HOLE);
        let key = FreeBlockKey { size, place };
        self.root = insert(&FreeBlocks::<M>::new(), memory, self.root, key, place);
    }

    /// Returns the size of the free block at a place, or 0 if the block there is used or the chunk ends there.
    fn hole_behind<M: WordMemory>(&self, memory: &mut M, place: u64, end: u64) -> u64
        requires stand { (at : Context) × (blocks : List ModelBlock) ×
            Stand self.now (M.word memory.old) at place blocks ×
            (end ≡ place + bytes_in blocks) }
        requires fits { Fits (bytes_of self.now) (M.bytes (M.rest memory.old)) }
        ensures hole { (at : Context) (blocks : List ModelBlock) →
            Stand self.now (M.word memory.old) at place blocks →
            end ≡ place + bytes_in blocks → result ≡ first_hole blocks }
        ensures words { M.word memory.new ≡ M.word memory.old }
        ensures rest { M.rest memory.new ≡ M.rest memory.old }
        ensures loads { M.loads memory.new ≤ M.loads memory.old + 2 }
    {
        if place == end {
            0
        } else {
            hole_at(memory, place)
        }
    }
}

/// The bytes of a block for a payload of `bytes` bytes: its header with them, in whole steps of 16.
pub fn block_bytes(bytes: u64) -> u64
    requires { bytes < 65536 }
    ensures { result ≡ block_size bytes }
{
    (BLOCK_HEADER + bytes.next_multiple_of(16)).max(LEAST_BLOCK)
}
