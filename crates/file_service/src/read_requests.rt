//! The requests that read files.
ghost use Rattle.std.specs.Prelude.{◌≡◌, ◌≤◌, length, IfOk, slice_get};
ghost use Rattle.std.specs.Option.{option_map};
ghost use Rattle.own_model.specs.FileService.{File};
ghost use Rattle.own_model.specs.FileText.FileRequest.{Read, Size};
ghost use Rattle.session_nodes.specs.SessionHeaps.{stock_of, AreSoundHeaps};
ghost use Rattle.file_service.specs.Session.{files_in, HasFiles, counted_reply, bytes_reply, IsTold};

use crate::session::{FileRange, FileSession};
use session_nodes::{Memory, Node, RegionMap};
use session_proto::FileError;

/// The most bytes that one request reads.
const MOST_READ: u64 = 1024;

impl FileSession {
    /// Returns the size of a file in bytes. Refuses with `NotFound` if there is no such file.
    pub(crate) fn size(
        &self,
        memory: &mut Memory,
        map: &RegionMap,
        name: &[u8],
    ) -> Result<u64, FileError>
        requires furnished { AreSoundHeaps self.now.nodes.heaps memory.old map.now }
        requires files { HasFiles self.now (stock_of self.now.nodes.heaps memory.old map.now) }
        ensures told { IsTold (Size name.now) (counted_reply result) self.now
            (stock_of self.now.nodes.heaps memory.old map.now) }
        ensures memory { memory.new ≡ memory.old }
    {
        let found = self.find(memory, map, name).ok_or(FileError::NotFound)?;
        Ok(found.node.size)
    }

    /// Reads the bytes that a file has in a range to the front of a buffer, and returns their number.
    ///
    /// Refuses with `NotFound` if there is no such file. Then refuses with `Gap` if the offset is above its size, then
    /// `TooLong` if the range has more than 1024 bytes.
    pub(crate) fn read(
        &self,
        memory: &mut Memory,
        map: &RegionMap,
        range: &FileRange<'_>,
        buffer: &mut [u8],
    ) -> Result<usize, FileError>
        requires room { range.now.len ≤ MOST_READ → range.now.len ≤ length buffer.old }
        requires furnished { AreSoundHeaps self.now.nodes.heaps memory.old map.now }
        requires files { HasFiles self.now (stock_of self.now.nodes.heaps memory.old map.now) }
        ensures told { IsTold (Read range.now.file.now range.now.offset range.now.len)
            (bytes_reply buffer.new result) self.now
            (stock_of self.now.nodes.heaps memory.old map.now) }
        ensures count { IfOk result (λ count. count ≤ length buffer.new) }
        ensures same_length { length buffer.new ≡ length buffer.old }
        ensures memory { memory.new ≡ memory.old }
    {
        let found = self
            .find(memory, map, range.file)
            .ok_or(FileError::NotFound)?;
        let size = found.node.size;
        if range.offset > size {
            return Err(FileError::Gap);
        }
        if range.len > MOST_READ {
            return Err(FileError::TooLong);
        }
        let count = range.len.min(size - range.offset) as usize;
        if count > 0 {
            let content = found.node.content;
            let part = &mut buffer[..count];
            self.nodes
                .heaps
                .read_content(memory, map, content, range.offset, part);
        }
        Ok(count)
    }

    /// Returns the node of the file at a place in the order of creation, and remembers it, or `None`. The memory is
    /// unchanged.
    pub(crate) fn file_at(
        &mut self,
        memory: &mut Memory,
        map: &RegionMap,
        place: u64,
    ) -> Option<Node>
        requires furnished { AreSoundHeaps self.old.nodes.heaps memory.old map.now }
        requires files { HasFiles self.old (stock_of self.old.nodes.heaps memory.old map.now) }
        ensures name { option_map (λ node. node.name.items) result
            ≡ option_map (λ (file : File). file.name)
            (slice_get
            (files_in self.old (stock_of self.old.nodes.heaps memory.old map.now)).files place) }
        ensures kept { HasFiles self.new (stock_of self.new.nodes.heaps memory.old map.now) }
        ensures same { self.new ≡ record self.old { nodes = record self.old.nodes { recent = self.new.nodes.recent } } }
        ensures memory { memory.new ≡ memory.old }
    {
        match self.nodes.at_place(memory, map, place) {
            Some(found) => Some(found.node),
            None => None,
        }
    }
}
