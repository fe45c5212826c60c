//! The buffer that a session shares with its client: how it is allocated, filled and freed.
ghost use Rattle.std.specs.Prelude.{◌≡◌, ◌+◌, ◌≤◌, length, slice_range, IfOk, OnErr};
ghost use Rattle.std.specs.FinMap.{empty};
ghost use Rattle.std.specs.Result.{result_err};
ghost use Rattle.trade_base.specs.Bytes.{with_bytes};
ghost use Rattle.own_model.specs.Account.{alloc_refusal};
ghost use Rattle.dataspace_core.specs.Store.{space_at};
ghost use Rattle.sliced_heap.specs.Heap.{payer_of};
ghost use Rattle.server_frame.specs.Session.{holding_of};
ghost use Rattle.session_nodes.specs.Calls.{payload_in, HasBytes};
ghost use Rattle.session_nodes.specs.SoundHeaps.{lent_regions};
ghost use Rattle.session_nodes.specs.SessionHeaps.{stock_of, AreSoundHeaps, StaySoundHeaps};
ghost use Rattle.session_nodes.specs.SessionBuffer.{IsBufferAt, HasBuffer, TakesBuffer, GivesBuffer, FillsBuffer, KeepsLimits};

use crate::contents::ContentRange;
use crate::session_heaps::SessionHeaps;
use dataspace_core::Memory;
use region_map::RegionMap;
use trade_base::{DsId, PAGE, Refusal};

/// A buffer that a session shares with its client: a dataspace of the session's account, and its address in the server's
/// heap window.
#[derive(Clone, Copy, Drop)]
pub struct SessionBuffer {
    /// The dataspace.
    pub space: DsId,
    /// The address at which its region starts.
    pub start: u64,
}

impl SessionHeaps {
    /// Allocates a buffer of this number of bytes in whole pages, all zero, for a session without a buffer. The account is
    /// charged for the pages and for one capability.
    ///
    /// Refuses with `InvalidSize` for no bytes or more than 64 bits count, then `OutOfRam` or `OutOfCaps` if the account
    /// does not cover it. A refused call changes nothing.
    pub fn take_buffer(
        &self,
        memory: &mut Memory,
        map: &mut RegionMap,
        bytes: u64,
    ) -> Result<SessionBuffer, Refusal>
        requires furnished { AreSoundHeaps self.now memory.old map.old }
        requires none { lent_regions (holding_of self.now.contents memory.old map.old) ≡ empty }
        ensures refusal { result_err result
            ≡ alloc_refusal bytes (stock_of self.now memory.old map.old).account }
        ensures taken { IfOk result (λ lent.
            TakesBuffer bytes lent (stock_of self.now memory.old map.old)
            (stock_of self.now memory.new map.new)
            (holding_of self.now.contents memory.new map.new) memory.new) }
        ensures stays { StaySoundHeaps self.now self.now
            memory.old memory.new map.old map.new }
        ensures memory_err { OnErr result (memory.new ≡ memory.old) }
        ensures map_err { OnErr result (map.new ≡ map.old) }
    {
        let space = memory.alloc(self.contents.account(), bytes)?;
        let pages = memory.size(space) / PAGE;
        let start = map.attach_heap(space, pages);
        Ok(SessionBuffer { space, start })
    }

    /// Frees a session's buffer, and credits the account with all that was charged for it.
    pub fn give_buffer(&self, memory: &mut Memory, map: &mut RegionMap, lent: SessionBuffer)
        requires furnished { AreSoundHeaps self.now memory.old map.old }
        requires lent { IsBufferAt lent (holding_of self.now.contents memory.old map.old) }
        ensures given { GivesBuffer lent (stock_of self.now memory.old map.old)
            (stock_of self.now memory.new map.new)
            (holding_of self.now.contents memory.new map.new) memory.old }
        ensures stays { StaySoundHeaps self.now self.now
            memory.old memory.new map.old map.new }
    {
        map.detach_heap(lent.start);
        memory.free(lent.space);
    }

    /// Copies a range of a content into the buffer from `place` on.
    pub fn fill_buffer(
        &self,
        memory: &mut Memory,
        map: &RegionMap,
        lent: SessionBuffer,
        place: u64,
        range: ContentRange,
    )
        requires furnished { AreSoundHeaps self.now memory.old map.now }
        requires lent { IsBufferAt lent (holding_of self.now.contents memory.old map.now) }
        requires some { 1 ≤ range.count }
        requires there { HasBytes (stock_of self.now memory.old map.now).contents
            range.address range.offset range.count }
        requires room { place + range.count ≤ length (space_at memory.old lent.space.0).bytes }
        ensures filled { let content = payload_in
            (stock_of self.now memory.old map.now).contents range.address in
            FillsBuffer lent place
            (slice_range content range.offset (range.offset + range.count))
            (stock_of self.now memory.old map.now)
            (stock_of self.now memory.new map.now)
            (holding_of self.now.contents memory.new map.now) memory.old memory.new }
        ensures stays { StaySoundHeaps self.now self.now
            memory.old memory.new map.now map.now }
    {
        let (ds, at) = self.find_content(memory, map, range);
        memory.copy(ds, at, lent.space, place, range.count);
    }

    /// Frees the buffer of a session, if it has one.
    pub fn give_any(&self, memory: &mut Memory, map: &mut RegionMap, buffer: Option<SessionBuffer>)
        requires furnished { AreSoundHeaps self.now memory.old map.old }
        requires lent { HasBuffer buffer (holding_of self.now.contents memory.old map.old) }
        ensures none { lent_regions (holding_of self.now.contents memory.new map.new) ≡ empty }
        ensures limits { KeepsLimits (payer_of self.now.contents) memory.old memory.new }
        ensures stays { StaySoundHeaps self.now self.now
            memory.old memory.new map.old map.new }
    {
        if let Some(lent) = buffer {
            self.give_buffer(memory, map, lent);
        }
    }
}
