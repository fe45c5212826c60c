//! Theorems on the definitions alone. They do nothing at run time.
ghost use Rattle.std.specs.Prelude.{◌≡◌, ℕ, ◌+◌, ◌<◌, ◌≤◌, map, Some};
ghost use Rattle.std.specs.List.{AllByRecursion};
ghost use Rattle.avl_alloc.specs.declared.best_fit.BestFit.{BestFit};
ghost use Rattle.own_model.specs.Heap.{Heap, bytes_in, AreBlocks};
ghost use Rattle.own_model.specs.BestFit.{best_hole, holes_of, chunk_of, payload_at};
ghost use Rattle.avl_alloc.specs.Words.{place_at};
ghost use Rattle.avl_alloc.specs.Fit.{AreShort, IsPlaceOf};
ghost use Rattle.avl_alloc.specs.Layout.{heap_of, sizes_of, kept_at, weigh_all, weigh_holes, whole, IsSound};
ghost use Rattle.avl_alloc.specs.FreeBlocks.{key, by_key};
ghost use Rattle.avl_tree.specs.Tree.{Tree, tally, found, is_at, IsOrdered};

/// States that a heap is unchanged while the words of its headers and free blocks are unchanged. A store into the payload
/// of a used block, or outside all chunks, keeps it.
pub fn heap_stays()
    ensures { (fit : BestFit) (old new : ℕ → ℕ) → IsSound fit old →
        ((place : ℕ) → 1 ≤ kept_at place (heap_of fit old) → new place ≡ old place) →
        IsSound fit new × (heap_of fit new ≡ heap_of fit old) }
{}

/// States that a place lies in at most one block of a heap, so a store into a used block changes no free block.
pub fn blocks_lie_apart()
    ensures { (fit : BestFit) (words : ℕ → ℕ) → IsSound fit words →
        (place : ℕ) → weigh_all (whole place) (whole place) 0 (heap_of fit words) ≤ 1 }
{}

/// States that no payload of a used block contains a word of the heap's own data.
pub fn payloads_are_free()
    ensures { (fit : BestFit) (words : ℕ → ℕ) → IsSound fit words →
        (chunk offset from size : ℕ) →
        payload_at 0 offset (chunk_of (heap_of fit words) chunk) ≡ Some (from, size) →
        (byte : ℕ) → from + 16 ≤ byte → byte < from + size →
        kept_at (place_at chunk byte) (heap_of fit words) ≡ 0 }
{}

/// States that no two free blocks are adjacent, and that each block has a valid size.
pub fn holes_are_joined()
    ensures { (fit : BestFit) (words : ℕ → ℕ) → IsSound fit words →
        AllByRecursion AreBlocks (heap_of fit words) }
{}

/// States that the sizes of the blocks of each chunk add up to the chunk's size.
pub fn chunks_have_sizes()
    ensures { (fit : BestFit) (words : ℕ → ℕ) → IsSound fit words →
        map bytes_in (heap_of fit words) ≡ sizes_of fit }
{}

/// States that the free block found in the tree of a heap's free blocks is the best fit by the definition.
pub fn best_hole_is_found()
    ensures { (size up : ℕ) (heap : Heap) (t : Tree) → AreShort (holes_of heap) →
        IsOrdered 0 t up → tally (is_at 0) t ≡ 0 →
        ((weight : ℕ → ℕ → ℕ) → tally weight t ≡ weigh_holes (by_key weight) heap) →
        IsPlaceOf (found (key 0 size) t) (best_hole size (holes_of heap)) }
{}
