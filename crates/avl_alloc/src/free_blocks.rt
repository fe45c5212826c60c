//! Free blocks as nodes of a balanced tree. The place of a free block denotes it, and no place is 0.
ghost use Rattle.std.specs.Prelude.{◌≡◌, nat_lt};
ghost use Rattle.avl_alloc.specs.FreeBlocks.{key};

use super::memory::{HIGH, LEFT, RIGHT, WordMemory, load, load_links, load_of, store_links};
use avl_tree::{Links, Nodes, SearchStep};
use std::marker::PhantomData;

/// The order of free blocks: by size, and by place for equal sizes.
#[derive(Clone, Copy)]
pub(crate) struct FreeBlockKey {
    pub(crate) size: u64,
    pub(crate) place: u64,
}

/// The free blocks in a memory of words, as nodes of the search tree.
#[derive(Drop)]
pub(crate) struct FreeBlocks<M: WordMemory> {
    memory: PhantomData<M>,
}

impl<M: WordMemory> FreeBlocks<M> {
    /// Returns the node accessor, which has no state.
    pub(crate) fn new() -> FreeBlocks<M> {
        FreeBlocks {
            memory: PhantomData,
        }
    }
}

/// Tests whether one free block is before another: by size, and by place for equal sizes.
fn comes_before(size: u64, node: u64, other_size: u64, other: u64) -> bool
    ensures { result ≡ nat_lt (key node size) (key other other_size) }
{
    size < other_size || size == other_size && node < other
}

impl<M: WordMemory> Nodes for FreeBlocks<M> {
    ghost use Rattle.std.proofs.Common.{◌≡◌, ◌∙◌, ℕ, refl, sym, subst};
    ghost use Rattle.avl_alloc.specs.Words.{IsNode as IsHole};
    ghost use Rattle.avl_alloc.specs.FreeBlocks.{rank_of, view_of, hole_plan};

    type Memory = M;

    type Key = FreeBlockKey;

    ghost Rest = { ℕ };

    ghost IsNode = { λ holes memory place. IsHole (M.bytes (M.rest memory)) place };

    ghost Keeps = { λ holes old new. M.rest new ≡ M.rest old };

    ghost rank = { rank_of };

    ghost view = { λ holes memory. view_of (M.word memory) };

    ghost plan = { hole_plan };

    ghost loads = { λ memory. M.loads memory };

    ghost cost = { 3 };

    fn step(&self, memory: &mut M, key: FreeBlockKey, node: u64) -> SearchStep {
        let size = load(memory, node);
        if comes_before(key.size, key.place, size, node) {
            SearchStep::Left(load_of(memory, node, LEFT))
        } else if comes_before(size, node, key.size, key.place) {
            SearchStep::Right(load_of(memory, node, RIGHT))
        } else {
            SearchStep::Here
        }
    }

    fn links(&self, memory: &mut M, node: u64) -> Links {
        load_links(memory, node)
    }

    fn high(&self, memory: &mut M, node: u64) -> u64 {
        load_of(memory, node, HIGH)
    }

    fn set_links(&self, memory: &mut M, node: u64, links: Links) {
        store_links(memory, node, links);
    }

    ghost keeps_same = { λ holes memory. refl };

    ghost keeps_then = { λ holes old between new first second. second ∙ first };

    ghost keeps_node = { λ holes old new place kept is.
        subst (λ rest. IsHole (M.bytes rest) place) (sym kept) is };
}
