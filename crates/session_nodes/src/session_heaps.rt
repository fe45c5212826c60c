//! The heaps of a session: what it has in the memory, and on the server's one map.
ghost use Rattle.std.specs.Prelude.{◌≡◌, None};
ghost use Rattle.std.specs.FinMap.{empty};
ghost use Rattle.own_model.specs.Growth.{no_chunks};
ghost use Rattle.dataspace_core.specs.Share.{Share};
ghost use Rattle.core_calls.specs.Quotas.{quotas_account};
ghost use Rattle.dataspace_core.specs.Store.{account_in, IsOpenIn};
ghost use Rattle.heap_core.specs.Heap.{heap_in};
ghost use Rattle.sliced_heap.specs.Heap.{payer_of, KeepsOthers};
ghost use Rattle.sliced_heap.specs.Sliced.{IsLinked};
ghost use Rattle.server_frame.specs.Session.{IsSessionHeap, HasBlocksAlone, holding_of};
ghost use Rattle.session_nodes.specs.SoundHeaps.{lent_regions};
ghost use Rattle.session_nodes.specs.SessionBuffer.{KeepsBuffer};
ghost use Rattle.session_nodes.specs.SessionHeaps.{AreSoundHeaps, AreKept};

use core_calls::Quotas;
use dataspace_core::Memory;
use heap_core::Heap;
use region_map::RegionMap;
use sliced_heap::SlicedHeap;
use std::mem;

/// The two heaps of a session, both of its account.
#[derive(Drop)]
pub struct SessionHeaps {
    /// The nodes.
    pub(crate) nodes: Heap,
    /// The contents of the nodes, in addition to the session's object.
    pub(crate) contents: SlicedHeap,
}

impl SessionHeaps {
    /// Returns heaps without a node, for an account that has only sliced blocks and no buffer.
    pub fn new(contents: SlicedHeap) -> SessionHeaps
        ensures kept { (share : Share) → HasBlocksAlone share → IsLinked share contents.first
            → AreKept result (payer_of contents) share }
        ensures empty { (share : Share) → (heap_in result.nodes share).shape ≡ no_chunks }
        ensures not_lent { (share : Share) → HasBlocksAlone share → KeepsBuffer None share }
    {
        let nodes = Heap::new(contents.account());
        SessionHeaps { nodes, contents }
    }

    /// Returns use and limits of the session's account.
    pub fn quotas(&self, memory: &Memory) -> Quotas
        requires { IsOpenIn memory.now (payer_of self.now.contents) }
        ensures { quotas_account result ≡ account_in memory.now (payer_of self.now.contents) }
    {
        let account = self.contents.account();
        let (ram_used, caps_used) = memory.used(account);
        let (ram_limit, caps_limit) = memory.limits(account);
        Quotas {
            ram_used,
            ram_limit,
            caps_used,
            caps_limit,
        }
    }

    /// Frees the blocks of all nodes of a session without a buffer, and credits the account with all that was charged for
    /// them. Returns the sliced heap, in whose place an empty one remains.
    pub fn end(&mut self, memory: &mut Memory, map: &mut RegionMap) -> SlicedHeap
        requires furnished { AreSoundHeaps self.old memory.old map.old }
        requires alone { lent_regions (holding_of self.old.contents memory.old map.old) ≡ empty }
        ensures same { result ≡ self.old.contents }
        ensures blocks { HasBlocksAlone (holding_of self.old.contents memory.new map.new) }
        ensures session { IsSessionHeap self.old.contents memory.new map.new }
        ensures ram { (account_in memory.new (payer_of self.old.contents)).ram_limit
            ≡ (account_in memory.old (payer_of self.old.contents)).ram_limit }
        ensures caps { (account_in memory.new (payer_of self.old.contents)).caps_limit
            ≡ (account_in memory.old (payer_of self.old.contents)).caps_limit }
        ensures others { KeepsOthers (payer_of self.old.contents)
            memory.old memory.new map.old map.new }
    {
        self.nodes.end(memory, map);
        let empty = SlicedHeap::new(self.contents.account());
        mem::replace(&mut self.contents, empty)
    }
}
