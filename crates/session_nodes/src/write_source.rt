//! The source of the bytes of a write.
ghost use Rattle.std.specs.Prelude.{◌≡◌, length};
ghost use Rattle.dataspace_core.specs.Store.{Store};
ghost use Rattle.region_map.specs.Regions.{Regions};
ghost use Rattle.sliced_heap.specs.declared.heap.SlicedHeap.{SlicedHeap};
ghost use Rattle.session_nodes.specs.Calls.{content_written, HasBytes};
ghost use Rattle.session_nodes.specs.SessionHeaps.{stock_of, AreSoundHeaps, KeepsHeaps};
ghost use Rattle.session_nodes.specs.Source.{bytes_from, HasSource};

use crate::contents::ContentRange;
use crate::session_buffer::SessionBuffer;
use crate::session_heaps::SessionHeaps;
use dataspace_core::Memory;
use region_map::RegionMap;

/// The source of the bytes that a write puts into a content.
#[derive(Clone, Copy)]
pub enum WriteSource<'a> {
    /// Bytes in memory outside the machine.
    Bytes(&'a [u8]),
    /// `count` bytes of the session's buffer, from a place on.
    Buffer {
        lent: SessionBuffer,
        place: u64,
        count: u64,
    },
}

impl WriteSource<'_> {
    /// Returns the number of bytes of the source.
    pub fn count(&self) -> u64
        ensures { (sliced : SlicedHeap) → (store : Store) → (regions : Regions) →
            HasSource self.now sliced store regions → result ≡ length (bytes_from self.now store) }
    {
        match self {
            WriteSource::Bytes(bytes) => bytes.len() as u64,
            WriteSource::Buffer { count, .. } => *count,
        }
    }
}

impl SessionHeaps {
    /// Overwrites a content from an offset on with the bytes of a source.
    pub fn put_content(
        &self,
        memory: &mut Memory,
        map: &RegionMap,
        address: u64,
        offset: u64,
        source: WriteSource<'_>,
    )
        requires furnished { AreSoundHeaps self.now memory.old map.now }
        requires source { HasSource source self.now.contents memory.old map.now }
        requires there { HasBytes (stock_of self.now memory.old map.now).contents address offset
            (length (bytes_from source memory.old)) }
        ensures written { stock_of self.now memory.new map.now
            ≡ content_written address offset (bytes_from source.entry memory.old)
            (stock_of self.now memory.old map.now) }
        ensures keeps { KeepsHeaps self.now self.now
            memory.old memory.new map.now map.now }
    {
        match source {
            WriteSource::Bytes(bytes) => { self.write_content(memory, map, address, offset, bytes) }
            WriteSource::Buffer { lent, place, count } => {
                let range = ContentRange {
                    address,
                    offset,
                    count,
                };
                self.fill_content(memory, map, range, lent.space, place);
            }
        }
    }
}
