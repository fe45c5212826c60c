//! A walk over the headers of a chunk, over the bytes of one page at a time.
ghost use Rattle.std.specs.Prelude.{◌≡◌, ℕ, ◌+◌, ◌^◌, ◌<◌, ◌≤◌, List, length, slice_range};
ghost use Rattle.own_model.specs.Heap.{Block as ModelBlock, bytes_in};
ghost use Rattle.avl_alloc.specs.Walk.{block_over, walk_loads, hole_in, behind, IsWalking};
ghost use Rattle.dataspace_core.specs.Store.{Exists, space_at};
ghost use Rattle.trade_base.specs.Word.{word_of};
ghost use Rattle.heap_core.specs.Words.{word_from};
ghost use Rattle.heap_core.specs.Walk.{HasWords, HasHeaders, HasRoom, IsPageOf, IsEarlier, step_at};

use crate::loads::Loads;
use avl_alloc::{Block, STATE, Step, USED};
use dataspace_core::Memory;
use std::sync::ledger::Ledger;
use trade_base::{DsId, PAGE};

/// Returns the block that contains an offset of a chunk's dataspace. The walk begins with the header at offset 0. It loads
/// the size of each block, and the states of the last two.
pub(crate) fn walk<L: Ledger>(memory: &Memory, ds: DsId, target: u64, loads: &mut Loads<L>) -> Block
    requires exists { Exists memory.now ds.0 }
    requires headers { (w : ℕ → ℕ) × (start : ℕ) × (blocks : List ModelBlock) ×
        HasWords (space_at memory.now ds.0).bytes w start × HasHeaders w start target blocks ×
        HasRoom blocks (length (space_at memory.now ds.0).bytes) }
    ensures reached { result.offset ≤ target }
    ensures found { (w : ℕ → ℕ) (start : ℕ) (blocks : List ModelBlock)
        → HasWords (space_at memory.now ds.0).bytes w start → HasHeaders w start target blocks
        → result ≡ block_over 0 0 target blocks }
    ensures loads { (w : ℕ → ℕ) (start : ℕ) (blocks : List ModelBlock)
        → HasWords (space_at memory.now ds.0).bytes w start → HasHeaders w start target blocks
        → loads.new ≡ loads.old + walk_loads target blocks }
{
    let mut step = Step {
        before: 0,
        offset: 0,
        next: memory.load_word(ds, 0),
    };
    loads.tick();
    'pages: while step.next <= target {
        step = walk_page(memory.page(ds, step.next), step, target, loads);
    }
    let used = memory.load_word(ds, step.offset + STATE) == USED;
    loads.tick();
    Block {
        offset: step.offset,
        size: step.next - step.offset,
        used,
        before: hole_before(memory, ds, step, loads),
    }
}

/// Steps over the headers that begin in a page, from the one at `step.next` to that of the block that contains `target`,
/// or to the last one of the page.
fn walk_page<L: Ledger>(page: &[u8], step: Step, target: u64, loads: &mut Loads<L>) -> Step
    requires size { length page.now ≡ 4096 }
    requires ahead { step.next ≤ target }
    requires walking { (w : ℕ → ℕ) × (start k : ℕ) × (blocks : List ModelBlock) ×
        IsPageOf page.now w start step.next × IsWalking w start target blocks step loads.old k ×
        (bytes_in blocks ≤ 2 ^ 32) }
    ensures on { step.next ≤ result.offset }
    ensures walking { (w : ℕ → ℕ) (start k : ℕ) (blocks : List ModelBlock)
        → IsPageOf page.now w start step.next → IsWalking w start target blocks step loads.old k
        → IsWalking w start target blocks result loads.new k }
{
    let start = step.next / PAGE * PAGE;
    let end = (target - start + 1).min(PAGE);
    let outside = step.offset;
    let mut before = step.next - start;
    let mut offset = before;
    let mut next = next_offset(page, offset, loads);
    // Three headers at a time: the offsets take turns, and none is copied to another one.
    'headers: while next < end {
        let second = next_offset(page, next, loads);
        if second >= end {
            return step_in_page(start, outside, offset, next, second);
        }
        let third = next_offset(page, second, loads);
        if third >= end {
            return step_in_page(start, outside, next, second, third);
        }
        before = second;
        offset = third;
        next = next_offset(page, third, loads);
    }
    step_in_page(start, outside, before, offset, next)
}

/// Returns the step at an offset of the page that starts at `start`. `before` is the offset of the block before it in the
/// page. If that isn't below `offset`, the block is the page's first one, and the block before it is at `outside`.
fn step_in_page(start: u64, outside: u64, before: u64, offset: u64, next: u64) -> Step
    requires before { start + before < 2 ^ 64 }
    requires offset { start + offset < 2 ^ 64 }
    requires next { start + next < 2 ^ 64 }
    ensures { result ≡ step_at start outside before offset next }
{
    Step {
        before: if before < offset {
            start + before
        } else {
            outside
        },
        offset: start + offset,
        next: start + next,
    }
}

/// Returns the offset of the block after the block at an offset of a page. It loads one word.
fn next_offset<L: Ledger>(page: &[u8], offset: u64, loads: &mut Loads<L>) -> u64
    requires within { offset + 8 ≤ length page.now }
    requires short { offset + word_of (slice_range page.now offset (offset + 8)) < 2 ^ 64 }
    ensures next { result ≡ offset + word_of (slice_range page.now offset (offset + 8)) }
    ensures loads { loads.new ≡ loads.old + 1 }
{
    loads.tick();
    offset + word_at(page, offset)
}

/// Returns the size of the free block directly before the block of a step, or 0 if there is none.
fn hole_before<L: Ledger>(memory: &Memory, ds: DsId, step: Step, loads: &mut Loads<L>) -> u64
    requires exists { Exists memory.now ds.0 }
    requires header { IsEarlier step (length (space_at memory.now ds.0).bytes) }
    ensures size { let state = word_from (space_at memory.now ds.0).bytes (step.before + 8) in
        result ≡ hole_in state step.before step.offset }
    ensures loads { loads.new ≡ loads.old + behind step }
{
    if step.before == step.offset {
        return 0;
    }
    loads.tick();
    if memory.load_word(ds, step.before + STATE) == USED {
        0
    } else {
        step.offset - step.before
    }
}

/// Loads the little-endian word of 8 bytes at an offset of a page.
#[tactic(auto, unfolding(trade_base::specs::Word::word_of))]
pub(crate) fn word_at(page: &[u8], offset: u64) -> u64
    requires { offset + 8 ≤ length page.now }
    ensures { result ≡ word_of (slice_range page.now offset (offset + 8)) }
{
    let offset = offset as usize;
    let mut bytes = [0; 8];
    bytes.copy_from_slice(&page[offset..offset + 8]);
    u64::from_le_bytes(bytes)
}
