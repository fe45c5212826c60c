//! Contents of nodes: blocks of a session's sliced heap.
ghost use Rattle.std.specs.Prelude.{◌≡◌, ◌≢◌, ◌+◌, ◌^◌, ◌<◌, ◌≤◌, length, slice_range, None, SomeIff, IsSome, IfOk, OnErr};
ghost use Rattle.std.specs.FinMap.{get};
ghost use Rattle.std.specs.Result.{result_err};
ghost use Rattle.own_model.specs.Sliced.{sliced_refusal};
ghost use Rattle.session_nodes.specs.Calls.{payload_in, content_taken, content_given, content_written, content_copied, HasBytes};
ghost use Rattle.dataspace_core.specs.Store.{account_in, space_at, IsOpenIn};
ghost use Rattle.sliced_heap.specs.Heap.{payer_of};
ghost use Rattle.session_nodes.specs.Found.{FindsContent, IsElsewhere, IsThere};
ghost use Rattle.session_nodes.specs.SessionHeaps.{stock_of, AreSoundHeaps, KeepsHeaps};

use crate::session_heaps::SessionHeaps;
use dataspace_core::Memory;
use region_map::RegionMap;
use trade_base::{DsId, Refusal};

/// A range of a content: the content's address, the offset of the first byte, and the number of bytes.
#[derive(Clone, Copy)]
pub struct ContentRange {
    /// The address of the content.
    pub address: u64,
    /// The offset of the first byte.
    pub offset: u64,
    /// The number of bytes.
    pub count: u64,
}

impl SessionHeaps {
    /// Allocates a content of this number of bytes, all zero, and returns its address. The account is charged for whole
    /// pages, including the header, and for one capability.
    ///
    /// Refuses with `InvalidSize` for no bytes or more than 64 bits count, then `OutOfRam` or `OutOfCaps` if the account
    /// does not cover the content. A refused call changes nothing.
    pub fn take_content(
        &mut self,
        memory: &mut Memory,
        map: &mut RegionMap,
        bytes: u64,
    ) -> Result<u64, Refusal>
        requires furnished { AreSoundHeaps self.old memory.old map.old }
        ensures refusal { result_err result
            ≡ sliced_refusal bytes (stock_of self.old memory.old map.old).account }
        ensures taken { IfOk result (λ address.
            stock_of self.new memory.new map.new
            ≡ content_taken bytes address (stock_of self.old memory.old map.old)) }
        ensures free { IfOk result
            (λ address. get (stock_of self.old memory.old map.old).contents address ≡ None) }
        ensures keeps { KeepsHeaps self.old self.new
            memory.old memory.new map.old map.new }
        ensures memory_err { OnErr result (memory.new ≡ memory.old) }
        ensures map_err { OnErr result (map.new ≡ map.old) }
        ensures err { OnErr result (self.new ≡ self.old) }
    {
        self.contents.alloc(memory, map, bytes)
    }

    /// Returns `front + more` as the size of a content, or `None` if it is above the account's limit of RAM.
    pub fn size_within(&self, memory: &Memory, front: u64, more: u64) -> Option<u64>
        requires { IsOpenIn memory.now (payer_of self.now.contents) }
        ensures size { SomeIff result
            (front + more ≤ (account_in memory.now (payer_of self.now.contents)).ram_limit)
            (front + more) }
        ensures word { (account_in memory.now (payer_of self.now.contents)).ram_limit < 2 ^ 64 }
    {
        let (ram, _) = memory.limits(self.contents.account());
        let size = front.checked_add(more)?;
        if size > ram.0 {
            return None;
        }
        Some(size)
    }

    /// Frees the content at an address, and credits the account with all that was charged for it.
    pub fn give_content(&mut self, memory: &mut Memory, map: &mut RegionMap, address: u64)
        requires furnished { AreSoundHeaps self.old memory.old map.old }
        requires there { IsSome (get (stock_of self.old memory.old map.old).contents address) }
        ensures given { stock_of self.new memory.new map.new
            ≡ content_given address (stock_of self.old memory.old map.old) }
        ensures keeps { KeepsHeaps self.old self.new
            memory.old memory.new map.old map.new }
    {
        let _ = self.contents.free(memory, map, address);
    }

    /// Reads the bytes of a content from an offset on, as many as the buffer has.
    pub fn read_content(
        &self,
        memory: &Memory,
        map: &RegionMap,
        address: u64,
        offset: u64,
        buffer: &mut [u8],
    )
        requires furnished { AreSoundHeaps self.now memory.now map.now }
        requires there { HasBytes (stock_of self.now memory.now map.now).contents address offset
            (length buffer.old) }
        ensures { let content = payload_in
            (stock_of self.now memory.now map.now).contents address in
            buffer.new ≡ slice_range content offset (offset + length buffer.old) }
    {
        if buffer.is_empty() {
            return;
        }
        let count = buffer.len() as u64;
        let range = ContentRange {
            address,
            offset,
            count,
        };
        let (ds, at) = self.find_content(memory, map, range);
        memory.read(ds, at, buffer);
    }

    /// Overwrites the bytes of a content from an offset on.
    pub fn write_content(
        &self,
        memory: &mut Memory,
        map: &RegionMap,
        address: u64,
        offset: u64,
        bytes: &[u8],
    )
        requires furnished { AreSoundHeaps self.now memory.old map.now }
        requires there { HasBytes (stock_of self.now memory.old map.now).contents address offset
            (length bytes.now) }
        ensures written { stock_of self.now memory.new map.now
            ≡ content_written address offset bytes.now (stock_of self.now memory.old map.now) }
        ensures keeps { KeepsHeaps self.now self.now
            memory.old memory.new map.now map.now }
    {
        if bytes.is_empty() {
            return;
        }
        let count = bytes.len() as u64;
        let range = ContentRange {
            address,
            offset,
            count,
        };
        let (ds, at) = self.find_content(memory, map, range);
        memory.write(ds, at, bytes);
    }

    /// Copies this number of bytes from the front of a content to another, if it is not 0.
    pub fn copy_content(&self, memory: &mut Memory, map: &RegionMap, from: u64, to: u64, count: u64)
        requires furnished { AreSoundHeaps self.now memory.old map.now }
        requires source { 0 < count
            → HasBytes (stock_of self.now memory.old map.now).contents from 0 count }
        requires target { HasBytes (stock_of self.now memory.old map.now).contents to 0 count }
        requires apart { 0 < count → from ≢ to }
        ensures copied { stock_of self.now memory.new map.now
            ≡ content_copied from to count (stock_of self.now memory.old map.now) }
        ensures keeps { KeepsHeaps self.now self.now
            memory.old memory.new map.now map.now }
    {
        if count == 0 {
            return;
        }
        let front = ContentRange {
            address: from,
            offset: 0,
            count,
        };
        let (source, place) = self.find_content(memory, map, front);
        let target = ContentRange {
            address: to,
            offset: 0,
            count,
        };
        self.fill_content(memory, map, target, source, place);
    }

    /// Overwrites a range of a content with as many bytes of another dataspace from `place` on.
    pub fn fill_content(
        &self,
        memory: &mut Memory,
        map: &RegionMap,
        range: ContentRange,
        source: DsId,
        place: u64,
    )
        requires furnished { AreSoundHeaps self.now memory.old map.now }
        requires there { HasBytes (stock_of self.now memory.old map.now).contents
            range.address range.offset range.count }
        requires source { IsThere memory.old source.0 place range.count }
        requires apart { IsElsewhere self.now.contents memory.old map.now source.0 range.address }
        ensures written { let bytes = (space_at memory.old source.0).bytes in
            stock_of self.now memory.new map.now
            ≡ content_written range.address range.offset
            (slice_range bytes place (place + range.count))
            (stock_of self.now memory.old map.now) }
        ensures keeps { KeepsHeaps self.now self.now
            memory.old memory.new map.now map.now }
    {
        let count = range.count;
        if count == 0 {
            return;
        }
        let (ds, at) = self.find_content(memory, map, range);
        memory.copy(source, place, ds, at, count);
    }

    /// Finds the dataspace that has a range of a content, and the offset in it.
    pub(crate) fn find_content(
        &self,
        memory: &Memory,
        map: &RegionMap,
        range: ContentRange,
    ) -> (DsId, u64)
        requires furnished { AreSoundHeaps self.now memory.now map.now }
        requires there { HasBytes (stock_of self.now memory.now map.now).contents
            range.address range.offset range.count }
        requires some { 1 ≤ range.count }
        ensures { FindsContent self.now.contents memory.now map.now
            result.0.0 result.1 range.address range.offset range.count }
    {
        self.contents
            .block_of(memory, map, range.address + range.offset, range.count)
            .unwrap()
    }
}
