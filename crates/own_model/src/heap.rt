//! Theorems on a script's heap: its payloads do not overlap, are zero when new, and are found until they are freed.
ghost use Rattle.own_model.specs.HeapTheorems.{GrownHoleIsBest, GivingUndoesTaking, HeapPayloadsLieInWindow, HeapPayloadsLieApart, HeapIsApartFromSliced, NewHeapBlocksAreZero, FoundHeapPayloadsFit, HeapPayloadsAreFound, FreedHeapBlocksAreNotFound, CoveredHeapBlocksAreGiven};

/// States that a heap which grows for a request takes the block from the new chunk. Freeing a block right after its
/// allocation restores the blocks.
pub fn heap_takes_and_gives()
    ensures grown { GrownHoleIsBest }
    ensures back { GivingUndoesTaking }
{}

/// States that payloads of the heap do not overlap, lie within the heap window, and do not overlap payloads of sliced
/// blocks.
pub fn heap_payloads_lie_apart()
    ensures window { HeapPayloadsLieInWindow }
    ensures apart { HeapPayloadsLieApart }
    ensures beside { HeapIsApartFromSliced }
{}

/// States that a new heap block is at a place without a block. Its payload is zero and at least as long as requested.
pub fn new_heap_blocks_are_zero()
    ensures { NewHeapBlocksAreZero }
{}

/// States that a non-empty range in a payload of the heap is found until the block is freed. A range in a header or a
/// free block is never found.
pub fn heap_payloads_are_found()
    ensures fit { FoundHeapPayloadsFit }
    ensures found { HeapPayloadsAreFound }
    ensures freed { FreedHeapBlocksAreNotFound }
{}

/// States that a heap allocation which the account covers succeeds: the machine's heap window has a gap for it.
pub fn covered_heap_blocks_are_given()
    ensures { CoveredHeapBlocksAreGiven }
{}
